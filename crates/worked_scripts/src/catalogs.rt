// The catalogue of the rows, and rows of it.
use aria_base::{Key, Row};
use cat_text::catalog_of;
use proc_lang::Catalog;
use script_text::{Item, place_row, read_line};
use std::alloc::Global;
use std::test::Fail;

/// Tables with parts and columns of both kinds, and one without columns.
const TEXT: &str = r#"{"procs":[],
  "tables":[
    {"cols":["int"],"key":["int"],"name":"acct"},
    {"cols":["text","int"],"key":["int","text"],"name":"seat"},
    {"cols":[],"key":["text"],"name":"who"}]}"#;

/// The catalogue of the rows.
pub fn catalog(alloc: Global) -> Result<Catalog, Fail> {
    match catalog_of(alloc, TEXT.as_bytes(), 1) {
        Ok(catalog) => Ok(catalog),
        Err(_) => Err(Fail::new("the text is a catalogue")),
    }
}

/// The key and the row that a line says.
pub fn placed(alloc: Global, catalog: &Catalog, line: &str) -> Result<(Key, Row), Fail> {
    let Ok(Item::Row { table, parts, row }) = read_line(alloc, line.as_bytes(), 1) else {
        return Err(Fail::new("the line is of a row"));
    };
    match place_row(catalog, &table, parts, row, 1) {
        Ok(placed) => Ok(placed),
        Err(_) => Err(Fail::new("the row fits")),
    }
}

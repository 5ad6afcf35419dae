// The body of a checkpoint.
ghost use Rattle.std.specs.Prelude.{◌≡◌, ◌++◌, ◌∷◌, [], ◌<◌, ◌^◌, All, true, map, IfOk, OnOk, option_map};
ghost use Rattle.std.specs.Option.{IfSome};
ghost use Rattle.std.specs.FinMap as fin;
ghost use Rattle.std.specs.Map.Iter.{deref_pair};
ghost use Rattle.aria_base.specs.Orders.{key_cmp};
ghost use Rattle.aria_base.specs.Schemas.{IsConsistent};
ghost use Rattle.proc_lang.specs.Catalogs.{takes};
ghost use Rattle.image_text.specs.Lines.{written, lines_taken};
ghost use Rattle.image_text.specs.Exactly.{line_of_row};
ghost use Rattle.image_text.specs.Helds.{line_of_held};
ghost use Rattle.image_text.specs.Entries.{nothing, take, IsRowHeld, AreHeld};
ghost use Rattle.script_text.specs.Written.{IsArgs};
ghost use Rattle.image_text.specs.Bodies.{body_text, IsBody, AreThose};

use crate::entries::Entries;
use crate::fronts::{append_front, read_front};
use crate::helds::append_held;
use crate::lines::take_lines;
use aria_base::{Key, Memory, Request, Row};
use proc_lang::Catalog;
use script_text::append_row;
use std::alloc::Global;
use tbl_rows::Tables;

/// The text of a checkpoint's body: the catalogue, all rows in the order of their keys, and the requests
/// that are carried over. Where the requests have numbers of 63 bits, the text reads as these values.
pub fn body_of(
    alloc: Global,
    catalog: &Catalog,
    tables: &Tables,
    held: &[Request],
) -> Result<Vec<u8>, Memory>
    requires rows { IsConsistent catalog.now.tables tables.now }
    requires calls { All (λ request. takes catalog.now request.call ≡ true) held.now }
    ensures text { IfOk result (λ body. body.items ≡ body_text catalog.now tables.now held.now) }
    ensures again { IfOk result (λ body. All (λ request. request.q < 2 ^ 63) held.now → IsBody body.items (catalog.now, tables.now, held.now)) }
{
    let rows = tables.rows()?;
    let mut body = Vec::new(alloc);
    append_front(&mut body, catalog)?;
    append_rows(&mut body, catalog, rows.as_slice())?;
    append_requests(&mut body, catalog, held)?;
    Ok(body)
}

/// Appends the lines of rows.
fn append_rows(out: &mut Vec<u8>, catalog: &Catalog, rows: &[(&Key, &Row)]) -> Result<(), Memory>
    ensures text { OnOk result (out.new.items ≡ out.old.items ++ written (λ row. line_of_row catalog.now (deref_pair row)) rows.now) }
    ensures held { OnOk result (All (λ row. IsRowHeld (deref_pair row)) rows.now) }
{
    for (key, row) in rows {
        append_row_ended(out, catalog, key, row)?;
    }
    Ok(())
}

/// Appends the line of a row, and its line feed.
fn append_row_ended(
    out: &mut Vec<u8>,
    catalog: &Catalog,
    key: &Key,
    row: &Row,
) -> Result<(), Memory>
    ensures text { OnOk result (out.new.items ≡ out.old.items ++ (line_of_row catalog.now (key.now, row.now) ++ 10 ∷ [])) }
    ensures held { OnOk result (IsRowHeld (key.now, row.now)) }
{
    append_row(out, catalog.schema(), key, row)?;
    out.push(b'\n')?;
    Ok(())
}

/// Appends the lines of requests.
fn append_requests(out: &mut Vec<u8>, catalog: &Catalog, held: &[Request]) -> Result<(), Memory>
    ensures text { OnOk result (out.new.items ≡ out.old.items ++ written (line_of_held catalog.now) held.now) }
    ensures args { OnOk result (All (λ request. IsArgs request.call.args) held.now) }
{
    for request in held {
        append_held_ended(out, catalog, request)?;
    }
    Ok(())
}

/// Appends the line of a request, and its line feed.
fn append_held_ended(out: &mut Vec<u8>, catalog: &Catalog, request: &Request) -> Result<(), Memory>
    ensures text { OnOk result (out.new.items ≡ out.old.items ++ (line_of_held catalog.now request.now ++ 10 ∷ [])) }
    ensures args { OnOk result (IsArgs request.now.call.args) }
{
    append_held(out, catalog, request)?;
    out.push(b'\n')?;
    Ok(())
}

/// The catalogue, the rows and the carried requests of which these bytes are the text, exactly where
/// they are the text of some that fit.
pub fn read_body(
    alloc: Global,
    bytes: &[u8],
) -> Result<Option<(Catalog, Tables, Vec<Request>)>, Memory>
    ensures values { IfOk result (λ found. AreThose bytes.now (option_map (λ v. (v.0, v.1, v.2.items)) found)) }
    ensures rows { IfOk result (λ found. IfSome found (λ v. IsConsistent v.0.tables v.1)) }
    ensures calls { IfOk result (λ found. IfSome found (λ v. All (λ request. takes v.0 request.call ≡ true) v.2.items)) }
{
    let Some((catalog, rest)) = read_front(alloc, bytes)? else {
        return Ok(None);
    };
    let Some((tables, held)) = read_rest(alloc, &catalog, rest)? else {
        return Ok(None);
    };
    Ok(Some((catalog, tables, held)))
}

/// The rows and the requests behind the catalogue.
fn read_rest(
    alloc: Global,
    catalog: &Catalog,
    bytes: &[u8],
) -> Result<Option<(Tables, Vec<Request>)>, Memory>
    ensures rest { IfOk result (λ found. option_map (λ r. record { rows = fin.entries r.0; held = r.1.items }) found ≡ lines_taken (take catalog.now) nothing bytes.now) }
    ensures held { IfOk result (λ found. IfSome found (λ r. AreHeld (record { rows = fin.entries r.0; held = r.1.items }))) }
{
    let mut again = Vec::new(alloc);
    let Some(entries) = take_lines(Entries::new(alloc), catalog, bytes, &mut again)? else {
        return Ok(None);
    };
    let (rows, held) = entries.into_parts();
    let tables = tables_of(alloc, rows)?;
    Ok(Some((tables, held)))
}

/// The tables with these rows.
fn tables_of(alloc: Global, rows: Vec<(Key, Row)>) -> Result<Tables, Memory>
    ensures { IfOk result (λ tables. tables ≡ fin.from_entries {R = key_cmp} rows.items) }
{
    let mut left = rows;
    let mut tables = Tables::new(alloc)?;
    tables.reserve(left.len());
    while let Some((key, row)) = left.pop() {
        match tables.put(key, row) {
            Ok(()) => {}
            Err(_) => return Err(Memory),
        }
    }
    Ok(tables)
}

// Lines of a catalogue, and what each comes to.
use crate::checks::same;
use script_text::{Item, read_line};
use std::alloc::Global;
use std::test::Fail;

/// Lines that say a catalogue or a piece of one.
const TAKEN: [(&str, &str); 6] = [
    ("catalog bank", "catalog bank"),
    ("catalog text", "catalog text"),
    ("catalog    a_0   ", "catalog a_0"),
    (":", "piece "),
    (":{\"a\":1}", "piece {\"a\":1}"),
    (": : #", "piece  : #"),
];

/// What a line says of a catalogue.
fn said_by(alloc: Global, line: &[u8]) -> Result<Vec<u8>, Fail> {
    match read_line(alloc, line, 7) {
        Ok(Item::Catalog(name)) => named(alloc, b"catalog ", name.as_slice()),
        Ok(Item::Piece(text)) => named(alloc, b"piece ", text.as_slice()),
        _ => Err(Fail::new("the line says a catalogue or a piece")),
    }
}

fn named(alloc: Global, word: &[u8], name: &[u8]) -> Result<Vec<u8>, Fail> {
    let mut out = Vec::from_slice(alloc, word)?;
    out.extend_from_slice(name)?;
    Ok(out)
}

#[test]
fn lines_that_are_taken(rt: HostRuntime) -> Result<(), Fail> {
    for (line, said) in TAKEN {
        let found = said_by(rt.alloc(), line.as_bytes())?;
        same(&rt, line, &found, said);
    }
    Ok(())
}

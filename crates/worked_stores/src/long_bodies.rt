// Texts of many rows and requests, and a catalogue of more than one piece.
ghost use Rattle.std.specs.Prelude.{◌<◌};

use crate::slots::{MEMORY, holds};
use image_text::{body_of, read_body};
use std::alloc::{AllocError, Global};
use std::process::Abort;

/// A thousand rows and a hundred requests.
fn long_body(alloc: Global) -> Result<String, AllocError> {
    let mut body = String::from_str(
        alloc,
        "catalog text\n:{\"procs\":[{\"args\":[\"int\"],\"body\":[],\"name\":\"add\",\"regs\":[]}],\"tables\":[{\"cols\":[\"int\"],\"key\":[\"int\"],\"name\":\"acct\"}]}\n",
    )?;
    for number in 0..1000_u32 {
        write!(body, "row acct {number} = -1{number}\n")?;
    }
    for number in 10..110_u32 {
        write!(body, "held {number} add {number}\n")?;
    }
    Ok(body)
}

/// How many rows and requests a body has that is written again as it stands; None where it is another text.
fn counts(rt: &impl Abort, alloc: Global, body: &[u8]) -> Option<(usize, usize)> {
    let (catalog, tables, held) = read_body(alloc, body).expect(rt, MEMORY)?;
    let again = body_of(alloc, &catalog, &tables, held.as_slice()).expect(rt, MEMORY);
    if again.as_slice() != body {
        return None;
    }
    let rows = tables.rows().expect(rt, MEMORY);
    Some((rows.len(), held.len()))
}

/// Whether a body has so many rows and requests, and is written again as it stands.
fn has(rt: &impl Abort, alloc: Global, body: &[u8], rows: usize, requests: usize) -> bool {
    match counts(rt, alloc, body) {
        Some((found, held)) => found == rows && held == requests,
        None => false,
    }
}

#[test]
fn many_rows_and_requests_are_read(rt: HostRuntime) {
    let body = long_body(rt.alloc()).expect(&rt, MEMORY);
    let read = has(&rt, rt.alloc(), body.as_bytes(), 1000, 100);
    holds(&rt, "a long body is read", read);
}

/// The text of a catalogue with a hundred tables, which has 4,513 bytes.
fn long_catalogue(alloc: Global) -> Result<String, AllocError> {
    let mut text = String::from_str(alloc, "{\"procs\":[],\"tables\":[")?;
    let mut comma = "";
    for number in 0..100_u32 {
        write!(
            text,
            "{comma}{{\"cols\":[\"int\"],\"key\":[\"text\"],\"name\":\"t{number}\"}}"
        )?;
        comma = ",";
    }
    text.push_str("]}")?;
    Ok(text)
}

/// The body that has this catalogue alone, in pieces of this size.
fn in_pieces(rt: &impl Abort, alloc: Global, text: &[u8], size: usize) -> Vec<u8>
    requires { 0 < size }
{
    let mut body = Vec::from_slice(alloc, b"catalog text\n").expect(rt, MEMORY);
    for piece in text.chunks(size) {
        body.push(b':').expect(rt, MEMORY);
        body.extend_from_slice(piece).expect(rt, MEMORY);
        body.push(b'\n').expect(rt, MEMORY);
    }
    body
}

/// Asserts that the body of this catalogue in pieces of this size is read, or that it is the text of none.
fn reads(rt: &impl Abort, alloc: Global, text: &[u8], size: usize, read: bool)
    requires { 0 < size }
{
    let body = in_pieces(rt, alloc, text, size);
    let found = has(rt, alloc, body.as_slice(), 0, 0);
    holds(rt, "a body in pieces is read", found == read);
}

#[test]
fn a_long_catalogue_has_two_pieces(rt: HostRuntime) {
    let alloc = rt.alloc();
    let text = long_catalogue(alloc).expect(&rt, MEMORY);
    let text = text.as_bytes();
    holds(&rt, "its bytes", text.len() == 4513);
    reads(&rt, alloc, text, 4000, true);
    reads(&rt, alloc, text, 3999, false);
    reads(&rt, alloc, text, 4001, false);
    reads(&rt, alloc, text, 5000, false);
}

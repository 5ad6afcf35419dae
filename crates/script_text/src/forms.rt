// What a line says.
ghost use Rattle.std.specs.Prelude.{◌≡◌, ◌==◌, true, IfOk, option_map};
ghost use Rattle.std.specs.List.{list_all};
ghost use Rattle.aria_base.specs.Texts.{is_word};
ghost use Rattle.script_text.specs.Answers.{Answers, refused};
ghost use Rattle.script_text.specs.Cuts.{tokens};
ghost use Rattle.script_text.specs.Forms.{only, is_printed, with_row, row_of, tx_of, end_of, settings_of, catalog_of, report_of, item_of, line_item, said};
ghost use Rattle.script_text.specs.Tokens.{all_of, value_of};

use crate::cuts::first_token;
use crate::digits::read_number;
use crate::items::Item;
use crate::readers::{FromToken, read_tokens};
use crate::refusals::{LinesRefused, Refusal, RefusalKind};
use aria_base::{
    Args, Bytes, FEWEST_PARTS, MOST_ARGS, MOST_COLUMNS, MOST_PARTS, Memory, Part, Parts, Row, Txt,
    TxtRefused, is_word,
};
use std::alloc::Global;

/// What a line says, without its line feed and the carriage return before it. `Byte` comes exactly where
/// a byte is not from 32 to 126, else `Word` exactly where the line is of no form. The refusal has this
/// line number.
pub fn read_line(alloc: Global, bytes: &[u8], line: u64) -> Result<Item, LinesRefused>
    ensures { Answers (said bytes.now) line result }
{
    if !is_printed(bytes) {
        return Err(refused(line, RefusalKind::Byte));
    }
    match line_item(alloc, bytes) {
        Ok(Some(item)) => Ok(item),
        Ok(None) => Err(refused(line, RefusalKind::Word)),
        Err(_) => Err(LinesRefused::Memory),
    }
}

/// The answer that refuses the line with this number, and says why.
pub fn refused(line: u64, kind: RefusalKind) -> LinesRefused
    ensures { result ≡ refused line kind }
{
    LinesRefused::Line(Refusal { line, kind })
}

/// Whether each byte is one that a line has.
fn is_printed(bytes: &[u8]) -> bool
    ensures { result ≡ is_printed bytes.now }
{
    // without a branch, so that several bytes are looked at at once
    let mut all = true;
    for byte in bytes {
        all &= 32 <= *byte && *byte <= 126;
    }
    all
}

/// Whether there are spaces alone.
fn is_blank(bytes: &[u8]) -> bool
    ensures { result ≡ list_all (λ b. b == 32) bytes.now }
{
    for byte in bytes {
        if *byte != b' ' {
            return false;
        }
    }
    true
}

/// What a line of printed bytes says.
fn line_item(alloc: Global, bytes: &[u8]) -> Result<Option<Item>, Memory>
    ensures { IfOk result (λ found. found ≡ line_item bytes.now) }
{
    match bytes {
        [] | [b'#', ..] => Ok(Some(Item::Skip)),
        [b':', piece @ ..] => Ok(Some(Item::Piece(Bytes::from_vec(Vec::from_slice(
            alloc, piece,
        )?)))),
        [b' ', rest @ ..] => Ok(if is_blank(rest) {
            Some(Item::Skip)
        } else {
            None
        }),
        _ => read_item(alloc, bytes),
    }
}

/// What a list of tokens says.
fn read_item(alloc: Global, line: &[u8]) -> Result<Option<Item>, Memory>
    ensures { IfOk result (λ found. found ≡ item_of (tokens line.now)) }
{
    let Some((kind, rest)) = first_token(line) else {
        return Ok(None);
    };
    if kind == b"tx".as_slice() {
        return read_tx(alloc, rest);
    }
    if kind == b"row".as_slice() {
        return read_row(alloc, rest);
    }
    if kind == b"end".as_slice() {
        return Ok(read_end(rest));
    }
    if kind == b"settings".as_slice() {
        return read_settings(alloc, rest);
    }
    if kind == b"catalog".as_slice() {
        return read_catalog(alloc, rest);
    }
    if kind == b"report".as_slice() {
        return Ok(read_report(rest));
    }
    Ok(None)
}

/// The one token of a line.
fn only_token(line: &[u8]) -> Option<&[u8]>
    ensures { option_map (λ token. token.now) result ≡ only (tokens line.now) }
{
    let (token, rest) = first_token(line)?;
    if first_token(rest).is_some() {
        return None;
    }
    Some(token)
}

/// A word as a text.
#[tactic(auto, using(aria_base::proofs::TextWords::word_is_short, aria_base::proofs::TextWords::word_has_no_bad_byte))]
fn word(alloc: Global, bytes: &[u8]) -> Result<Txt, Memory>
    requires { is_word bytes.now ≡ true }
    ensures { IfOk result (λ text. text ≡ bytes.now) }
{
    match Txt::of(alloc, bytes) {
        Ok(text) => Ok(text),
        Err(TxtRefused::Memory) => Err(Memory),
        Err(TxtRefused::TooLong { .. } | TxtRefused::BadByte { .. }) => unreachable!(),
    }
}

/// The name of a catalogue.
fn read_catalog(alloc: Global, rest: &[u8]) -> Result<Option<Item>, Memory>
    ensures { IfOk result (λ found. found ≡ catalog_of (tokens rest.now)) }
{
    let Some(name) = only_token(rest) else {
        return Ok(None);
    };
    if !is_word(name) {
        return Ok(None);
    }
    Ok(Some(Item::Catalog(word(alloc, name)?)))
}

/// A row.
fn read_row(alloc: Global, rest: &[u8]) -> Result<Option<Item>, Memory>
    ensures { IfOk result (λ found. found ≡ row_of (tokens rest.now)) }
{
    let Some((table, keys)) = first_token(rest) else {
        return Ok(None);
    };
    if !is_word(table) {
        return Ok(None);
    }
    let mut parts = Vec::new(alloc);
    let mut left = keys;
    while let Some((token, behind)) = first_token(left) {
        if token == b"=".as_slice() {
            return with_row(alloc, table, parts, behind);
        }
        let Some(part) = Part::read(alloc, token)? else {
            return Ok(None);
        };
        parts.push(part)?;
        left = behind;
    }
    Ok(None)
}

/// A row of these parts, and of the values behind its sign.
fn with_row(
    alloc: Global,
    table: &[u8],
    parts: Vec<Part>,
    rest: &[u8],
) -> Result<Option<Item>, Memory>
    requires { is_word table.now ≡ true }
    ensures { IfOk result (λ found. found ≡ with_row table.now parts.items (all_of value_of (tokens rest.now))) }
{
    let Some(values) = read_tokens(alloc, rest)? else {
        return Ok(None);
    };
    if parts.len() < FEWEST_PARTS || MOST_PARTS < parts.len() || MOST_COLUMNS < values.len() {
        return Ok(None);
    }
    let table = word(alloc, table)?;
    Ok(Some(Item::Row {
        table,
        parts: Parts::from_vec(parts),
        row: Row::from_vec(values),
    }))
}

/// A call.
fn read_tx(alloc: Global, rest: &[u8]) -> Result<Option<Item>, Memory>
    ensures { IfOk result (λ found. found ≡ tx_of (tokens rest.now)) }
{
    let Some((proc, rest)) = first_token(rest) else {
        return Ok(None);
    };
    if !is_word(proc) {
        return Ok(None);
    }
    let Some(args) = read_tokens(alloc, rest)? else {
        return Ok(None);
    };
    if MOST_ARGS < args.len() {
        return Ok(None);
    }
    let proc = word(alloc, proc)?;
    Ok(Some(Item::Tx {
        proc,
        args: Args::from_vec(args),
    }))
}

/// The end of a batch.
fn read_end(rest: &[u8]) -> Option<Item>
    ensures { result ≡ end_of (tokens rest.now) }
{
    let number = read_number(only_token(rest)?)?;
    if number <= 0 {
        return None;
    }
    Some(Item::End(number as u64))
}

/// A rule and a percentage.
fn read_settings(alloc: Global, rest: &[u8]) -> Result<Option<Item>, Memory>
    ensures { IfOk result (λ found. found ≡ settings_of (tokens rest.now)) }
{
    let Some((name, rest)) = first_token(rest) else {
        return Ok(None);
    };
    if !is_word(name) {
        return Ok(None);
    }
    let Some(token) = only_token(rest) else {
        return Ok(None);
    };
    let Some(percent) = read_number(token) else {
        return Ok(None);
    };
    let name = word(alloc, name)?;
    Ok(Some(Item::Settings { name, percent }))
}

/// The beginning of a report.
fn read_report(rest: &[u8]) -> Option<Item>
    ensures { result ≡ report_of (tokens rest.now) }
{
    match first_token(rest) {
        None => Some(Item::Report),
        Some(_) => None,
    }
}

// How the lines of a report are written, each into a buffer of its own and without its line feed.
ghost use Rattle.std.specs.Prelude.{◌≡◌, IfOk};
ghost use Rattle.script_text.specs.Written.{row_line};
ghost use Rattle.serial_check.specs.Lines.{counted, batch_line, end_line, kept_line, ended_line, wait_line, wait_front, state_line, end_state_line, order_word};

use answer_text::append_end;
use aria_base::{Key, Memory, Row, Schema};
use proc_lang::End;
use script_text::{append_number, append_row};
use std::alloc::Global;

/// The first line of an answer.
pub(crate) fn batch_line(alloc: Global, number: u64) -> Result<Vec<u8>, Memory>
    ensures { IfOk result (λ line. line.items ≡ batch_line number) }
{
    counted(alloc, b"batch ", number)
}

/// The last line of an answer.
pub(crate) fn end_line(alloc: Global, number: u64) -> Result<Vec<u8>, Memory>
    ensures { IfOk result (λ line. line.items ≡ end_line number) }
{
    counted(alloc, b"end ", number)
}

/// The line of a batch that was run before.
pub(crate) fn kept_line(alloc: Global, number: u64) -> Result<Vec<u8>, Memory>
    ensures { IfOk result (λ line. line.items ≡ kept_line number) }
{
    let mut line = batch_line(alloc, number)?;
    line.extend_from_slice(b" kept")?;
    Ok(line)
}

/// The first line of a listing.
pub(crate) fn state_line(alloc: Global, batches: u64) -> Result<Vec<u8>, Memory>
    ensures { IfOk result (λ line. line.items ≡ state_line batches) }
{
    counted(alloc, b"state ", batches)
}

/// The last line of a listing.
pub(crate) fn end_state_line(alloc: Global) -> Result<Vec<u8>, Memory>
    ensures { IfOk result (λ line. line.items ≡ end_state_line) }
{
    Ok(Vec::from_slice(alloc, b"end state")?)
}

/// The word that an order line begins with.
pub(crate) fn order_word(alloc: Global) -> Result<Vec<u8>, Memory>
    ensures { IfOk result (λ line. line.items ≡ order_word) }
{
    Ok(Vec::from_slice(alloc, b"order")?)
}

/// The line of a row.
pub(crate) fn row_line(
    alloc: Global,
    tables: &Schema,
    key: &Key,
    row: &Row,
) -> Result<Vec<u8>, Memory>
    ensures { IfOk result (λ line. line.items ≡ row_line tables.now key.now row.now) }
{
    let mut line = Vec::new(alloc);
    append_row(&mut line, tables, key, row)?;
    Ok(line)
}

/// The line of a request that has ended so.
pub(crate) fn ended_line(alloc: Global, q: u64, end: &End) -> Result<Vec<u8>, Memory>
    ensures { IfOk result (λ line. line.items ≡ ended_line q end.now) }
{
    let mut line = Vec::new(alloc);
    append_number(&mut line, q)?;
    append_end(&mut line, end)?;
    Ok(line)
}

/// What the line of a request that waits has before the cause, without the space there.
pub(crate) fn wait_line(alloc: Global, q: u64) -> Result<Vec<u8>, Memory>
    ensures { IfOk result (λ line. line.items ≡ wait_line q) }
{
    let mut line = Vec::new(alloc);
    append_number(&mut line, q)?;
    line.extend_from_slice(b" wait")?;
    Ok(line)
}

/// What the line of a request that waits has before the cause, with the space there.
pub(crate) fn wait_front(alloc: Global, q: u64) -> Result<Vec<u8>, Memory>
    ensures { IfOk result (λ line. line.items ≡ wait_front q) }
{
    let mut line = wait_line(alloc, q)?;
    line.push(b' ')?;
    Ok(line)
}

/// A word, with the space behind it, and a number.
fn counted(alloc: Global, word: &[u8], number: u64) -> Result<Vec<u8>, Memory>
    ensures { IfOk result (λ line. line.items ≡ counted word.now number) }
{
    let mut line = Vec::from_slice(alloc, word)?;
    append_number(&mut line, number)?;
    Ok(line)
}

// What is printed of a finding.
ghost use Rattle.std.specs.Prelude.{◌≡◌, ◌≤◌, ◌++◌, IfOk, OnOk, length};
ghost use Rattle.check_command.specs.Texts.{fails_text, told_line, line_of};

use aria_base::{Bytes, Memory};
use script_text::append_number;
use std::alloc::Global;

/// The three lines that tell which line of the report cannot stand.
pub(crate) fn fails_text(
    alloc: Global,
    line: u64,
    wanted: &Bytes,
    found: &Bytes,
) -> Result<Vec<u8>, Memory>
    ensures { IfOk result (λ text. text.items ≡ fails_text line wanted.now found.now) }
{
    let mut text = Vec::from_slice(alloc, b"check fails ")?;
    append_number(&mut text, line)?;
    text.push(b'\n')?;
    append_told(&mut text, b"wanted", wanted.as_slice())?;
    append_told(&mut text, b"found", found.as_slice())?;
    Ok(text)
}

/// Appends a word, behind a space what it tells if that is not empty, and a line feed.
fn append_told(text: &mut Vec<u8>, word: &[u8], told: &[u8]) -> Result<(), Memory>
    ensures { OnOk result (text.new.items ≡ text.old.items ++ told_line word.now told.now) }
{
    text.extend_from_slice(word)?;
    if !told.is_empty() {
        text.push(b' ')?;
        text.extend_from_slice(told)?;
    }
    text.push(b'\n')?;
    Ok(())
}

/// The line that ends the batch with this number, from 1, of those that are to be run.
pub(crate) fn line_of(ends: &[u64], number: u64) -> u64
    requires { (1 ≤ number) × (number ≤ length ends.now) }
    ensures { result ≡ line_of ends.now number }
{
    ends[(number - 1) as usize]
}

// Lines that stand alone: what a command begins with, and why it does nothing.
ghost use Rattle.std.specs.Prelude.{◌≡◌, ◌++◌, IfOk, OnOk};
ghost use Rattle.answer_text.specs.Notices.{counted, at_text, kept_text, ready_text, refused_text, damaged_text};

use aria_base::Memory;
use script_text::append_number;
use std::alloc::Global;

/// Why a command does nothing.
#[derive(Clone, Copy, Debug, PartialEq, Eq)]
pub enum NotDone {
    /// The arguments are no command.
    Usage,
    /// The disk holds no store.
    NoStore,
    /// The disk holds a store already.
    StoreExists,
}

/// The line that says so. No memory.
pub fn refused_line(refused: NotDone) -> &'static [u8]
    ensures { result.now ≡ refused_text refused }
{
    match refused {
        NotDone::Usage => b"refused usage\n",
        NotDone::NoStore => b"refused store none\n",
        NotDone::StoreExists => b"refused store exists\n",
    }
}

/// Appends the line that says that the store is damaged: in this file, from 0 to 3, at this byte. Where
/// there was no memory, a part of the line may stand in `out`, here and in each call below.
pub fn append_damaged(out: &mut Vec<u8>, file: u8, at: u64) -> Result<(), Memory>
    ensures { OnOk result (out.new.items ≡ out.old.items ++ damaged_text file at) }
{
    out.extend_from_slice(b"refused store ")?;
    append_number(out, file)?;
    append_counted(out, b" ", at)
}

/// The line that says that the store is made. No memory.
pub fn ready_line() -> &'static [u8]
    ensures { result.now ≡ ready_text }
{
    b"ready\n"
}

/// Appends the line that says how many batches stand in the store.
pub fn append_at(out: &mut Vec<u8>, batches: u64) -> Result<(), Memory>
    ensures { OnOk result (out.new.items ≡ out.old.items ++ at_text batches) }
{
    append_counted(out, b"at ", batches)
}

/// Appends the line that says that the store has the batch with this number, so that it is not run.
pub fn append_kept(out: &mut Vec<u8>, number: u64) -> Result<(), Memory>
    ensures { OnOk result (out.new.items ≡ out.old.items ++ kept_text number) }
{
    out.extend_from_slice(b"batch ")?;
    append_number(out, number)?;
    out.extend_from_slice(b" kept\n")?;
    Ok(())
}

/// The line that says that the store has the batch with this number, so that it is not run.
pub fn kept_line(alloc: Global, number: u64) -> Result<Vec<u8>, Memory>
    ensures { IfOk result (λ text. text.items ≡ kept_text number) }
{
    let mut text = Vec::new(alloc);
    append_kept(&mut text, number)?;
    Ok(text)
}

/// Appends a line that is a word, with the space behind it, and a number. Where there was no memory, a part
/// of it may stand in `out`.
pub fn append_counted(out: &mut Vec<u8>, word: &[u8], number: u64) -> Result<(), Memory>
    ensures { OnOk result (out.new.items ≡ out.old.items ++ counted word.now number) }
{
    out.extend_from_slice(word)?;
    append_number(out, number)?;
    out.push(b'\n')?;
    Ok(())
}

// The line that says which line of a script is refused, and why.
ghost use Rattle.std.specs.Prelude.{◌≡◌, ◌++◌, IfOk, OnOk};
ghost use Rattle.answer_text.specs.Refusals.{step_text, path_text, untyped_text, fault_text, kind_text, refusal_text};

use aria_base::Memory;
use proc_lang::{PathPart, Wrong};
use script_text::{CatFault, Refusal, RefusalKind, append_number};
use std::alloc::Global;

/// The line of a refusal: the number of the line that is refused, and why.
pub fn print_refusal(alloc: Global, refusal: &Refusal) -> Result<Vec<u8>, Memory>
    ensures { IfOk result (λ text. text.items ≡ refusal_text refusal.now) }
{
    let mut out = Vec::new(alloc);
    append_refusal(&mut out, refusal)?;
    Ok(out)
}

/// Appends that line. Where there was no memory, a part of it may stand in `out`.
pub fn append_refusal(out: &mut Vec<u8>, refusal: &Refusal) -> Result<(), Memory>
    ensures { OnOk result (out.new.items ≡ out.old.items ++ refusal_text refusal.now) }
{
    out.extend_from_slice(b"refused ")?;
    append_number(out, refusal.line)?;
    out.push(b' ')?;
    append_kind(out, &refusal.kind)?;
    out.push(b'\n')?;
    Ok(())
}

/// Appends why the line is refused.
fn append_kind(out: &mut Vec<u8>, kind: &RefusalKind) -> Result<(), Memory>
    ensures { OnOk result (out.new.items ≡ out.old.items ++ kind_text kind.now) }
{
    match kind {
        RefusalKind::Long => append_word(out, b"long"),
        RefusalKind::Byte => append_word(out, b"byte"),
        RefusalKind::Word => append_word(out, b"word"),
        RefusalKind::Name => append_word(out, b"name"),
        RefusalKind::Argument => append_word(out, b"argument"),
        RefusalKind::Site => append_word(out, b"place"),
        RefusalKind::Unfinished => append_word(out, b"unfinished"),
        RefusalKind::Size => append_word(out, b"size"),
        RefusalKind::Batch => append_word(out, b"batch"),
        RefusalKind::Gap { got, wanted } => {
            append_word(out, b"gap ")?;
            append_number(out, *got)?;
            out.push(b' ')?;
            append_number(out, *wanted)
        }
        RefusalKind::Numbers => append_word(out, b"numbers"),
        RefusalKind::Catalog(fault) => {
            append_word(out, b"catalog ")?;
            append_fault(out, fault)
        }
    }
}

/// Appends why a text is no catalogue.
fn append_fault(out: &mut Vec<u8>, fault: &CatFault) -> Result<(), Memory>
    ensures { OnOk result (out.new.items ≡ out.old.items ++ fault_text fault.now) }
{
    match fault {
        CatFault::Long => append_word(out, b"long"),
        CatFault::NotJson => append_word(out, b"json"),
        CatFault::Shape(path) => {
            append_word(out, b"shape ")?;
            append_path(out, path.as_slice())
        }
        CatFault::Wrong(wrong) => append_wrong(out, wrong),
    }
}

/// Appends a place in a catalogue's text.
fn append_path(out: &mut Vec<u8>, path: &[PathPart]) -> Result<(), Memory>
    ensures { OnOk result (out.new.items ≡ out.old.items ++ path_text path.now) }
{
    if path.is_empty() {
        return append_word(out, b"/");
    }
    for step in path {
        out.push(b'/')?;
        append_step(out, step)?;
    }
    Ok(())
}

/// Appends a step into a catalogue's text.
fn append_step(out: &mut Vec<u8>, step: &PathPart) -> Result<(), Memory>
    ensures { OnOk result (out.new.items ≡ out.old.items ++ step_text step.now) }
{
    match step {
        PathPart::Member(name) => append_word(out, name.as_slice()),
        PathPart::Place(place) => append_number(out, *place),
    }
}

/// Appends where a procedure is not well typed: its number, the statement's, and the cause.
fn append_wrong(out: &mut Vec<u8>, wrong: &Wrong) -> Result<(), Memory>
    ensures { OnOk result (out.new.items ≡ out.old.items ++ untyped_text wrong.now) }
{
    out.extend_from_slice(b"wrong ")?;
    append_number(out, wrong.proc)?;
    out.push(b' ')?;
    append_number(out, wrong.place)?;
    out.push(b' ')?;
    append_number(out, wrong.cause)
}

/// Appends these bytes.
fn append_word(out: &mut Vec<u8>, word: &[u8]) -> Result<(), Memory>
    ensures { OnOk result (out.new.items ≡ out.old.items ++ word.now) }
{
    out.extend_from_slice(word)?;
    Ok(())
}

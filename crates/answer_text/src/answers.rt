// The lines of an answer.
ghost use Rattle.std.specs.Prelude.{◌≡◌, ◌++◌, flat_map, IfOk, OnOk};
ghost use Rattle.answer_text.specs.Answers.{trap_word, end_text, wait_text, reply_text, line_text, order_text, answer_text};

use crate::notices::append_counted;
use aria_base::{Memory, Schema};
use batch_core::{Answer, Line, Order, Reply, Wait};
use proc_lang::{Catalog, End, Trap};
use script_text::{append_key, append_number, append_tokens};
use std::alloc::Global;

/// The lines of an answer. A key is printed with its table's name in the catalogue, and without a name
/// where the catalogue has no such table.
pub fn print_answer(alloc: Global, catalog: &Catalog, answer: &Answer) -> Result<Vec<u8>, Memory>
    ensures { IfOk result (λ text. text.items ≡ answer_text catalog.now.tables answer.now) }
{
    let mut out = Vec::new(alloc);
    append_answer(&mut out, catalog, answer)?;
    Ok(out)
}

/// Appends these lines. Where there was no memory, a part of them may stand in `out`.
pub fn append_answer(out: &mut Vec<u8>, catalog: &Catalog, answer: &Answer) -> Result<(), Memory>
    ensures { OnOk result (out.new.items ≡ out.old.items ++ answer_text catalog.now.tables answer.now) }
{
    append_counted(out, b"batch ", answer.number)?;
    append_lines(out, catalog.schema(), answer.lines.as_slice())?;
    append_order(out, &answer.order)?;
    append_counted(out, b"end ", answer.number)
}

/// Appends the requests' lines.
fn append_lines(out: &mut Vec<u8>, tables: &Schema, lines: &[Line]) -> Result<(), Memory>
    ensures { OnOk result (out.new.items ≡ out.old.items ++ flat_map (line_text tables.now) lines.now) }
{
    for line in lines {
        append_line(out, tables, line)?;
    }
    Ok(())
}

/// Appends the line of the serial order.
fn append_order(out: &mut Vec<u8>, order: &Order) -> Result<(), Memory>
    ensures { OnOk result (out.new.items ≡ out.old.items ++ order_text order.now) }
{
    out.extend_from_slice(b"order")?;
    append_tokens(out, order.as_slice())?;
    out.push(b'\n')?;
    Ok(())
}

/// Appends a request's line.
fn append_line(out: &mut Vec<u8>, tables: &Schema, line: &Line) -> Result<(), Memory>
    ensures { OnOk result (out.new.items ≡ out.old.items ++ line_text tables.now line.now) }
{
    append_number(out, line.q)?;
    append_reply(out, tables, &line.reply)?;
    out.push(b'\n')?;
    Ok(())
}

/// Appends what became of a request, behind a space.
fn append_reply(out: &mut Vec<u8>, tables: &Schema, reply: &Reply) -> Result<(), Memory>
    ensures { OnOk result (out.new.items ≡ out.old.items ++ reply_text tables.now reply.now) }
{
    match reply {
        Reply::Ended(end) => append_end(out, end),
        Reply::Waits(wait) => {
            out.extend_from_slice(b" wait ")?;
            append_wait(out, tables, wait)
        }
    }
}

/// Appends how a request ended, behind a space. Where there was no memory, a part of it may stand in `out`.
pub fn append_end(out: &mut Vec<u8>, end: &End) -> Result<(), Memory>
    ensures { OnOk result (out.new.items ≡ out.old.items ++ end_text end.now) }
{
    match end {
        End::Done(gives) => {
            out.extend_from_slice(b" ok")?;
            append_tokens(out, gives.as_slice())
        }
        End::Back(code) => {
            out.extend_from_slice(b" back ")?;
            append_number(out, *code)
        }
        End::Trap(trap) => {
            out.extend_from_slice(b" trap ")?;
            out.extend_from_slice(word_of(*trap))?;
            Ok(())
        }
    }
}

/// The word of a trap.
fn word_of(trap: Trap) -> &'static [u8]
    ensures { result.now ≡ trap_word trap }
{
    match trap {
        Trap::Overflow => b"overflow",
        Trap::Zero => b"zero",
        Trap::Absent => b"absent",
        Trap::Long => b"long",
        Trap::Many => b"many",
    }
}

/// Appends why a request waits.
fn append_wait(out: &mut Vec<u8>, tables: &Schema, wait: &Wait) -> Result<(), Memory>
    ensures { OnOk result (out.new.items ≡ out.old.items ++ wait_text tables.now wait.now) }
{
    match wait {
        Wait::Waw(waw) => {
            out.extend_from_slice(b"waw ")?;
            append_number(out, *waw)
        }
        Wait::Raw(raw) => {
            out.extend_from_slice(b"raw ")?;
            append_number(out, *raw)
        }
        Wait::Both(raw, war) => {
            out.extend_from_slice(b"both ")?;
            append_number(out, *raw)?;
            out.push(b' ')?;
            append_number(out, *war)
        }
        Wait::Moved(key) => {
            out.extend_from_slice(b"moved ")?;
            append_key(out, tables, key)
        }
    }
}

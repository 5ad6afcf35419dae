// The line of a request that is carried over.
ghost use Rattle.std.specs.Prelude.{◌≡◌, ◌++◌, ◌<◌, ◌^◌, IfOk, OnOk, option_map};
ghost use Rattle.std.specs.Option.{IfSome};
ghost use Rattle.script_text.specs.Written.{IsArgs};
ghost use Rattle.image_text.specs.Entries.{IsRequestHeld};
ghost use Rattle.image_text.specs.Helds.{line_of_held, cut, natural_of, parts_of, held_said, exact_held};

use crate::exactly::call_of;
use aria_base::{Memory, Request};
use proc_lang::Catalog;
use script_text::{append_number, append_proc_name, append_tokens, cut_at, read_number};

/// Appends the line of a request, without a line feed. Where there was no memory, a part of it may stand in
/// `out`.
pub fn append_held(out: &mut Vec<u8>, catalog: &Catalog, request: &Request) -> Result<(), Memory>
    ensures text { OnOk result (out.new.items ≡ out.old.items ++ line_of_held catalog.now request.now) }
    ensures args { OnOk result (IsArgs request.now.call.args) }
{
    out.extend_from_slice(b"held ")?;
    append_number(out, request.q)?;
    out.extend_from_slice(b" ")?;
    append_proc_name(out, catalog.procs(), request.call.proc)?;
    append_tokens(out, request.call.args.as_slice())
}

/// The request of which this is the line. `again` is room to write it again.
pub fn exact_held(
    catalog: &Catalog,
    line: &[u8],
    again: &mut Vec<u8>,
) -> Result<Option<Request>, Memory>
    ensures request { IfOk result (λ found. found ≡ exact_held catalog.now line.now) }
    ensures held { IfOk result (λ found. IfSome found IsRequestHeld) }
{
    let Some(request) = read_held(catalog, line, again)? else {
        return Ok(None);
    };
    again.clear();
    append_held(again, catalog, &request)?;
    if again.as_slice() != line {
        return Ok(None);
    }
    Ok(Some(request))
}

/// The request that a line says, in whatever spelling.
fn read_held(catalog: &Catalog, line: &[u8], again: &mut Vec<u8>) -> Result<Option<Request>, Memory>
    ensures request { IfOk result (λ found. found ≡ held_said catalog.now line.now) }
    ensures number { IfOk result (λ found. IfSome found (λ request. request.q < 2 ^ 63)) }
{
    let Some((digits, tail)) = parts_of(line) else {
        return Ok(None);
    };
    let Some(q) = natural_of(digits) else {
        return Ok(None);
    };
    // What stands behind the number reads as a call does behind its own word.
    again.clear();
    again.extend_from_slice(b"tx ")?;
    again.extend_from_slice(tail)?;
    let Some(call) = call_of(*again.allocator(), catalog, again.as_slice())? else {
        return Ok(None);
    };
    Ok(Some(Request { q, call }))
}

/// The digits of a request's line, and what stands behind them.
fn parts_of(line: &[u8]) -> Option<(&[u8], &[u8])>
    ensures { option_map (λ parts. (parts.0.now, parts.1.now)) result ≡ parts_of line.now }
{
    let (kind, rest) = cut(line, b' ')?;
    if kind != b"held".as_slice() {
        return None;
    }
    cut(rest, b' ')
}

/// What stands before the first byte of this kind, and behind it.
#[tactic(auto, using(crate::proofs::CutsFound::cut_found))]
fn cut(bytes: &[u8], byte: u8) -> Option<(&[u8], &[u8])>
    ensures { option_map (λ parts. (parts.0.now, parts.1.now)) result ≡ cut byte bytes.now }
{
    cut_at(bytes, byte)
}

/// The number that these bytes write, where it is not below 0.
fn natural_of(digits: &[u8]) -> Option<u64>
    ensures number { result ≡ natural_of digits.now }
    ensures small { IfSome result (λ q. q < 2 ^ 63) }
{
    let number = read_number(digits)?;
    if number < 0 {
        return None;
    }
    Some(number as u64)
}

// Whom an order line names.
ghost use Rattle.std.specs.Prelude.{◌≡◌, ◌+◌, ◌<◌, ◌^◌, ℕ, List, [], ◌==◌, map, option_map, option_copied, IfOk, OnOk, decimal, if◌then◌else◌, Some, None};
ghost use Rattle.std.specs.BTreeMap as tree;
ghost use Rattle.std.specs.List.{find, slice_split};
ghost use Rattle.std.specs.Map.Iter.{deref};
ghost use Rattle.std.specs.Cmp.Lexicographic.{slice_cmp};
ghost use Rattle.std.specs.Option.{option_or};
ghost use Rattle.std.specs.Ordering.{nat_cmp};
ghost use Rattle.std.specs.Str.{bytes_eq};
ghost use Rattle.serial_check.specs.Halts.{DecidesBy};
ghost use Rattle.serial_check.specs.Orders.{is_written, order_by, order_of, named_after};
ghost use Rattle.serial_check.specs.Reports.{order_at, told_order};

use crate::halts::Halt;
use crate::lines::order_word;
use crate::reports::failing;
use aria_base::{Bytes, Memory, Request};
use script_text::append_number;
use std::alloc::{AllocError, Global};
use std::collections::BTreeMap;

/// The requests that the line at the place names in its order. Where it is missing, or no order line of the
/// list, it cannot stand.
pub(crate) fn expect_order<'a>(
    alloc: Global,
    report: &[Bytes],
    list: &'a [Request],
    at: usize,
) -> Result<Vec<&'a Request>, Halt>
    requires { at + 1 < 2 ^ 64 }
    ensures { DecidesBy (λ order. map deref order.items) result (order_at report.now list.now at) }
{
    match told_order(alloc, list, report.get(at))? {
        Some(order) => Ok(order),
        None => {
            let wanted = order_word(alloc)?;
            Err(Halt::Flaw(failing(alloc, report, wanted, at)?))
        }
    }
}

/// The requests that this line names, where it is there and an order line of the list.
fn told_order<'a>(
    alloc: Global,
    list: &'a [Request],
    line: Option<&Bytes>,
) -> Result<Option<Vec<&'a Request>>, Memory>
    ensures { IfOk result (λ told. option_map (λ order. map deref order.items) told ≡ told_order list.now (option_copied line.entry)) }
{
    match line {
        Some(line) => order_of(alloc, list, line.as_slice()),
        None => Ok(None),
    }
}

/// The requests that this line names in its order; None where it is no order line of the list.
fn order_of<'a>(
    alloc: Global,
    list: &'a [Request],
    line: &[u8],
) -> Result<Option<Vec<&'a Request>>, Memory>
    ensures { IfOk result (λ told. option_map (λ order. map deref order.items) told ≡ order_of list.now line.now) }
{
    let words = split(alloc, line)?;
    order_by(alloc, list, &words)
}

/// The parts of the line between its spaces.
fn split(alloc: Global, line: &[u8]) -> Result<Vec<&[u8]>, AllocError>
    ensures { IfOk result (λ words. map deref words.items ≡ slice_split (λ b. b == 32) line.now) }
{
    line.split(|b| *b == b' ').collect(alloc)
}

/// The requests that these words name; None where they are not those of an order line of the list.
fn order_by<'a>(
    alloc: Global,
    list: &'a [Request],
    words: &[&[u8]],
) -> Result<Option<Vec<&'a Request>>, Memory>
    ensures { IfOk result (λ told. option_map (λ order. map deref order.items) told ≡ order_by list.now (map deref words.now)) }
{
    match words {
        [word, tokens @ ..] if *word == b"order".as_slice() => named(alloc, list, tokens),
        _ => Ok(None),
    }
}

/// The requests of the list that these tokens name; None where a token names none, or one that an earlier
/// token names.
fn named<'a>(
    alloc: Global,
    list: &'a [Request],
    tokens: &[&[u8]],
) -> Result<Option<Vec<&'a Request>>, Memory>
    ensures { IfOk result (λ told. option_map (λ order. map deref order.items) told ≡ named_after list.now [] (map deref tokens.now)) }
{
    let mut left = by_number(alloc, list)?;
    let mut order = Vec::new(alloc);
    for token in tokens {
        match take(alloc, &mut left, token)? {
            Some(request) => order.push(request)?,
            None => return Ok(None),
        }
    }
    Ok(Some(order))
}

/// Takes the request whose number the token is out of the table, if one stands there.
fn take<'a>(
    alloc: Global,
    left: &mut BTreeMap<Bytes, &'a Request>,
    token: &[u8],
) -> Result<Option<&'a Request>, Memory>
    ensures found { IfOk result (λ found. option_copied found ≡ option_copied (tree.get (slice_cmp nat_cmp) left.old token.now)) }
    ensures left { OnOk result ((other : List ℕ) → option_copied (tree.get (slice_cmp nat_cmp) left.new other) ≡ (if bytes_eq token.now other then None else option_copied (tree.get (slice_cmp nat_cmp) left.old other))) }
{
    let written = Bytes::from_vec(Vec::from_slice(alloc, token)?);
    Ok(left.remove(&written))
}

/// The requests of the list by their numbers as they are written.
fn by_number<'a>(alloc: Global, list: &'a [Request]) -> Result<BTreeMap<Bytes, &'a Request>, Memory>
    ensures { IfOk result (λ all. (token : List ℕ) → option_copied (tree.get (slice_cmp nat_cmp) all token) ≡ find (is_written token) list.now) }
{
    let mut all = BTreeMap::new(alloc);
    for request in list {
        note(&mut all, decimal(alloc, request.q)?, request)?;
    }
    Ok(all)
}

/// Notes the request where its number is written so, unless another one stands there.
fn note<'a>(
    all: &mut BTreeMap<Bytes, &'a Request>,
    written: Bytes,
    request: &'a Request,
) -> Result<(), Memory>
    ensures { OnOk result ((token : List ℕ) → option_copied (tree.get (slice_cmp nat_cmp) all.new token) ≡ option_or (option_copied (tree.get (slice_cmp nat_cmp) all.old token)) (if bytes_eq written token then Some request.now else None)) }
{
    if all.contains_key(&written) {
        return Ok(());
    }
    all.insert(written, request)?;
    Ok(())
}

/// A number as it is written.
fn decimal(alloc: Global, number: u64) -> Result<Bytes, Memory>
    ensures { IfOk result (λ written. written ≡ decimal number) }
{
    let mut written = Vec::new(alloc);
    append_number(&mut written, number)?;
    Ok(Bytes::from_vec(written))
}

// What tokens stand for.
ghost use Rattle.std.specs.Prelude.{◌≡◌, ◌==◌, ◌≤◌, List, ℕ, Option, IfOk, length, option_map};
ghost use Rattle.std.specs.List.{slice_split};
ghost use Rattle.script_text.specs.Cuts.{tokens};
ghost use Rattle.script_text.specs.Numbers.{number_of};
ghost use Rattle.script_text.specs.Tokens.{all_of, before_last, tuple_of, same_lengths, text_behind, list_behind, part_of, value_of, arg_of};

use crate::cuts::{cut_at, first_token};
use crate::digits::read_number;
use aria_base::{Arg, LONGEST_TUPLE, Memory, Part, Tuple, Tuples, Txt, TxtRefused, Value};
use std::alloc::Global;

/// What bytes stand for.
pub trait FromToken: Drop {
    ghost of: { List ℕ → Option Self };

    /// What these bytes stand for.
    fn read(alloc: Global, bytes: &[u8]) -> Result<Option<Self>, Memory>
        ensures { IfOk result (λ found. found ≡ of bytes.now) };
}

impl FromToken for Part {
    ghost of = { part_of };

    fn read(alloc: Global, bytes: &[u8]) -> Result<Option<Part>, Memory> {
        match bytes {
            [b'"', rest @ ..] => Ok(read_text(alloc, rest)?.map(Part::Text)),
            _ => Ok(read_number(bytes).map(Part::Int)),
        }
    }
}

impl FromToken for Value {
    ghost of = { value_of };

    fn read(alloc: Global, bytes: &[u8]) -> Result<Option<Value>, Memory> {
        match bytes {
            [b'"', rest @ ..] => Ok(read_text(alloc, rest)?.map(Value::Text)),
            _ => Ok(read_number(bytes).map(Value::Int)),
        }
    }
}

impl FromToken for Arg {
    ghost of = { arg_of };

    fn read(alloc: Global, bytes: &[u8]) -> Result<Option<Arg>, Memory> {
        match bytes {
            [b'"', rest @ ..] => Ok(read_text(alloc, rest)?.map(Arg::Text)),
            [b'[', rest @ ..] => Ok(read_list(alloc, rest)?.map(Arg::List)),
            _ => Ok(read_number(bytes).map(Arg::Int)),
        }
    }
}

/// What the tokens of a line stand for, where each stands for something.
pub fn read_tokens<T: FromToken>(alloc: Global, line: &[u8]) -> Result<Option<Vec<T>>, Memory>
    ensures { IfOk result (λ found. option_map (λ all. all.items) found ≡ all_of T.of (tokens line.now)) }
{
    let mut all = Vec::new(alloc);
    let mut rest = line;
    while let Some((token, behind)) = first_token(rest) {
        let Some(one) = T::read(alloc, token)? else {
            return Ok(None);
        };
        all.push(one)?;
        rest = behind;
    }
    Ok(Some(all))
}

/// What stands before the last byte, where it is this one.
fn before_last(last: u8, bytes: &[u8]) -> Option<&[u8]>
    ensures { option_map (λ front. front.now) result ≡ before_last last bytes.now }
{
    match bytes {
        [front @ .., b] if *b == last => Some(front),
        _ => None,
    }
}

/// The tuples between semicolons, where each is one.
fn read_tuples(alloc: Global, bytes: &[u8]) -> Result<Option<Vec<Tuple>>, Memory>
    ensures { IfOk result (λ found. option_map (λ all. all.items) found ≡ all_of tuple_of (slice_split (λ b. b == 59) bytes.now)) }
{
    let mut all = Vec::with_capacity(alloc, count_of(bytes, b';') + 1)?;
    let mut rest = bytes;
    while let Some((front, behind)) = cut_at(rest, b';') {
        let Some(one) = read_tuple(front) else {
            return Ok(None);
        };
        all.push(one)?;
        rest = behind;
    }
    let Some(last) = read_tuple(rest) else {
        return Ok(None);
    };
    all.push(last)?;
    Ok(Some(all))
}

/// How many bytes are like this one: a list is made of its size, so that it does not grow.
fn count_of(bytes: &[u8], byte: u8) -> usize
    ensures { result ≤ length bytes.now }
{
    let mut count = 0;
    for other in bytes {
        if *other == byte {
            count += 1;
        }
    }
    count
}

/// The tuple that these bytes are. No memory, since a list may have many of them.
#[tactic(auto, using(crate::proofs::TuplesRead::one_more, crate::proofs::TuplesRead::too_long, crate::proofs::TuplesRead::few))]
fn read_tuple(bytes: &[u8]) -> Option<Tuple>
    ensures { result ≡ tuple_of bytes.now }
{
    let mut numbers = [0; LONGEST_TUPLE];
    let mut count = 0;
    let mut rest = bytes;
    while let Some((front, behind)) = cut_at(rest, b',') {
        let number = read_number(front)?;
        numbers[count] = number;
        count += 1;
        if count == LONGEST_TUPLE {
            // one more stands behind the comma
            return None;
        }
        rest = behind;
    }
    let last = read_number(rest)?;
    numbers[count] = last;
    Some(Tuple::from_slice(&numbers[..count + 1]))
}

/// The text behind its first quote.
#[tactic(auto, using(crate::proofs::TextsRead::is_text, crate::proofs::TextsRead::too_long, crate::proofs::TextsRead::bad_byte))]
fn read_text(alloc: Global, rest: &[u8]) -> Result<Option<Txt>, Memory>
    ensures { IfOk result (λ found. found ≡ text_behind rest.now) }
{
    let Some(inner) = before_last(b'"', rest) else {
        return Ok(None);
    };
    match Txt::of(alloc, inner) {
        Ok(text) => Ok(Some(text)),
        Err(TxtRefused::Memory) => Err(Memory),
        Err(TxtRefused::TooLong { .. }) => Ok(None),
        Err(TxtRefused::BadByte { .. }) => Ok(None),
    }
}

/// The list behind its first bracket.
fn read_list(alloc: Global, rest: &[u8]) -> Result<Option<Tuples>, Memory>
    ensures { IfOk result (λ found. found ≡ list_behind rest.now) }
{
    let Some(inner) = before_last(b']', rest) else {
        return Ok(None);
    };
    if inner.is_empty() {
        return Ok(Some(Tuples::from_vec(Vec::new(alloc))));
    }
    let Some(tuples) = read_tuples(alloc, inner)? else {
        return Ok(None);
    };
    if !same_lengths(tuples.as_slice()) {
        return Ok(None);
    }
    Ok(Some(Tuples::from_vec(tuples)))
}

/// Whether each tuple is as long as the first.
fn same_lengths(tuples: &[Tuple]) -> bool
    ensures { result ≡ same_lengths tuples.now }
{
    let Some((first, rest)) = tuples.split_first() else {
        return true;
    };
    for tuple in rest {
        if tuple.as_slice().len() != first.as_slice().len() {
            return false;
        }
    }
    true
}

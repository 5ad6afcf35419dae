// What a procedure is called with and what is declared, as a line says it.
use crate::wrongs::Wrong;
use aria_base::{Arg, Args, Call, Key, Keys, Memory, Part, Parts, Request, Tuple, Tuples, Txt};
use proc_exec::Declared;
use std::alloc::Global;

/// A number in decimal digits.
fn number(word: &str) -> Result<i64, Wrong> {
    match word.parse::<i64>() {
        Ok(number) => Ok(number),
        Err(_) => Err(Wrong::Form("a number of 64 bits is wanted here")),
    }
}

/// The number of a procedure.
pub fn proc_number(word: &str) -> Result<u16, Wrong> {
    match word.parse::<u16>() {
        Ok(number) => Ok(number),
        Err(_) => Err(Wrong::Form("the number of a procedure is wanted here")),
    }
}

/// A text of so many equal letters.
fn letters(alloc: Global, letter: &str, count: &str) -> Result<Arg, Wrong> {
    let (Some(letter), Ok(count)) = (letter.bytes().next(), count.parse::<u16>()) else {
        return Err(Wrong::Form("a text is a letter, a star and how often it stands there"));
    };
    let bytes = Vec::from_elem(alloc, letter, usize::from(count))?;
    Ok(Arg::Text(Txt::of(alloc, &bytes)?))
}

/// A tuple: numbers with commas between them.
fn tuple(alloc: Global, words: &str) -> Result<Tuple, Wrong> {
    let mut numbers = Vec::new(alloc);
    for word in words.split(',') {
        numbers.push(number(word)?)?;
    }
    if numbers.is_empty() || numbers.len() > 5 {
        return Err(Wrong::Form("a tuple has 1 to 5 numbers"));
    }
    Ok(Tuple::from_slice(&numbers))
}

/// A tuple of each number of a range.
fn ranged(alloc: Global, first: i64, last: i64) -> Result<Tuples, Memory> {
    let mut tuples = Vec::new(alloc);
    for number in first..=last {
        tuples.push(Tuple::from_slice(&[number]))?;
    }
    Ok(Tuples::from_vec(tuples))
}

/// A list: tuples with semicolons between them, or each number of a range.
fn list(alloc: Global, words: &str) -> Result<Tuples, Wrong> {
    if let Some((first, last)) = words.split_once("..") {
        return Ok(ranged(alloc, number(first)?, number(last)?)?);
    }
    let mut tuples = Vec::new(alloc);
    if !words.is_empty() {
        for words in words.split(';') {
            tuples.push(tuple(alloc, words)?)?;
        }
    }
    Ok(Tuples::from_vec(tuples))
}

/// An argument: a number, a text or a list.
fn argument(alloc: Global, word: &str) -> Result<Arg, Wrong> {
    if let Some((letter, count)) = word.split_once('*') {
        return letters(alloc, letter, count);
    }
    if let Some(words) = word.strip_prefix('[') {
        return Ok(Arg::List(list(alloc, words.strip_suffix(']').unwrap_or("?"))?));
    }
    Ok(Arg::Int(number(word)?))
}

/// The request number 77 of this procedure, with these arguments.
pub fn request(alloc: Global, proc: u16, words: &str) -> Result<Request, Wrong> {
    let mut args = Vec::new(alloc);
    for word in words.split_whitespace() {
        args.push(argument(alloc, word)?)?;
    }
    if args.len() > 16 {
        return Err(Wrong::Form("a call brings at most 16 arguments"));
    }
    let args = Args::from_vec(args);
    Ok(Request {
        q: 77,
        call: Call { proc, args },
    })
}

/// Keys of table 0.
fn keys(alloc: Global, words: &str) -> Result<Keys, Wrong> {
    let mut keys = Vec::new(alloc);
    for word in words.split_whitespace() {
        let parts = Parts::one(Part::Int(number(word)?));
        keys.push(Key { table: 0, parts })?;
    }
    Ok(Keys::from_vec(keys))
}

/// Keys that are declared for reading and, behind a bar, for writing.
pub fn declared(alloc: Global, words: &str) -> Result<Declared, Wrong> {
    let Some((reads, writes)) = words.split_once('/') else {
        return Err(Wrong::Form("the keys that may be written stand behind a bar"));
    };
    Ok(Declared {
        reads: keys(alloc, reads)?,
        writes: keys(alloc, writes)?,
    })
}

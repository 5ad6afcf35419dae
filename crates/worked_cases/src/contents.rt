// Texts and bytes as the lines of a case write them.
use crate::cases::Wrong;
use script_text::append_number;

/// Appends what a line says whose mark has these flags behind its sign: none, the text and a line feed; `-`,
/// the text alone; `x`, bytes in hexadecimal; `*N`, the same so often; `*A..B`, the same for each number, in
/// the place of `#`.
pub fn append_content(flags: &str, text: &str, out: &mut Vec<u8>) -> Result<(), Wrong> {
    if flags == "x" {
        return append_hex(text, out);
    }
    let (counts, ended) = match flags.strip_prefix('-') {
        Some(rest) => (rest, false),
        None => (flags, true),
    };
    if counts.is_empty() {
        return append_text(text, ended, out);
    }
    match counts.strip_prefix('*') {
        Some(counts) => append_often(counts, text, ended, out),
        None => Err(Wrong::Form("this mark is none of a case")),
    }
}

/// Appends a text, and a line feed where its line is ended.
fn append_text(text: &str, ended: bool, out: &mut Vec<u8>) -> Result<(), Wrong> {
    out.extend_from_slice(text.as_bytes())?;
    append_end(ended, out)
}

fn append_end(ended: bool, out: &mut Vec<u8>) -> Result<(), Wrong> {
    if ended {
        out.push(b'\n')?;
    }
    Ok(())
}

/// Appends a text so often, or once for each number of a range.
fn append_often(counts: &str, text: &str, ended: bool, out: &mut Vec<u8>) -> Result<(), Wrong> {
    let Some((first, last)) = counts.split_once("..") else {
        for _ in 0..number(counts)? {
            append_text(text, ended, out)?;
        }
        return Ok(());
    };
    for count in number(first)?..=number(last)? {
        append_numbered(text, count, out)?;
        append_end(ended, out)?;
    }
    Ok(())
}

/// Appends a text with this number in the place of each `#`.
fn append_numbered(text: &str, count: u32, out: &mut Vec<u8>) -> Result<(), Wrong> {
    for letter in text.bytes() {
        if letter == b'#' {
            if append_number(out, count).is_err() {
                return Err(Wrong::Memory);
            }
        } else {
            out.push(letter)?;
        }
    }
    Ok(())
}

/// The number of these decimal digits.
pub fn number(text: &str) -> Result<u32, Wrong> {
    match text.parse::<u32>() {
        Ok(count) => Ok(count),
        Err(_) => Err(Wrong::Form("a number is wanted here")),
    }
}

/// The number of these decimal digits, of 64 bits.
pub fn long_number(text: &str) -> Result<u64, Wrong> {
    match text.parse::<u64>() {
        Ok(count) => Ok(count),
        Err(_) => Err(Wrong::Form("a number is wanted here")),
    }
}

/// Appends the bytes of these hexadecimal digits, two a byte. Spaces may stand between bytes.
pub fn append_hex(text: &str, out: &mut Vec<u8>) -> Result<(), Wrong> {
    let mut high = None;
    for letter in text.bytes() {
        if letter == b' ' && high.is_none() {
            continue;
        }
        let Some(digit) = digit_of(letter) else {
            return Err(Wrong::Form("two hexadecimal digits a byte are wanted here"));
        };
        match high {
            None => high = Some(digit),
            Some(front) => {
                out.push(digit.wrapping_add(16_u8.wrapping_mul(front)))?;
                high = None;
            }
        }
    }
    if high.is_some() {
        return Err(Wrong::Form("two hexadecimal digits a byte are wanted here"));
    }
    Ok(())
}

/// The value of a hexadecimal digit.
fn digit_of(letter: u8) -> Option<u8> {
    match letter {
        b'0'..=b'9' => Some(letter.wrapping_sub(b'0')),
        b'a'..=b'f' => Some(letter.wrapping_sub(b'a').wrapping_add(10)),
        _ => None,
    }
}

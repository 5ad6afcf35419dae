// Where two texts differ first, in words.
use aria_base::Memory;
use std::alloc::Global;

/// How many bytes of a line are shown.
const MOST_SHOWN: usize = 200;

/// The first line at which two texts differ, with both, where they do.
pub fn difference(
    alloc: Global,
    what: &str,
    wanted: &[u8],
    found: &[u8],
) -> Result<Option<String>, Memory> {
    if wanted == found {
        return Ok(None);
    }
    let at = common(wanted, found);
    let (number, wanted) = line_at(wanted, at);
    let (_, found) = line_at(found, at);
    let wanted = shown(alloc, wanted)?;
    let found = shown(alloc, found)?;
    Ok(Some(format!(in alloc; "line {number} of {what}: wanted {wanted}, found {found}")?))
}

/// How many bytes both begin with alike.
fn common(a: &[u8], b: &[u8]) -> usize {
    a.iter().zip(b.iter()).take_while(|(x, y)| x == y).count()
}

/// The number of the line that has the byte at an offset, from 1, and the line; no line behind the end.
fn line_at(text: &[u8], at: usize) -> (u32, Option<&[u8]>) {
    let mut number = 1_u32;
    let mut start = 0_usize;
    for (place, byte) in text.iter().enumerate().take(at) {
        if *byte == b'\n' {
            number = number.wrapping_add(1);
            start = place.wrapping_add(1);
        }
    }
    let rest = text.get(start..).unwrap_or_default();
    let length = rest.iter().take_while(|byte| **byte != b'\n').count();
    if rest.is_empty() {
        return (number, None);
    }
    (number, rest.get(..length))
}

/// A line between bars, with bytes that are not printed in hexadecimal.
fn shown(alloc: Global, line: Option<&[u8]>) -> Result<String, Memory> {
    let Some(line) = line else {
        return Ok(String::from_str(alloc, "the end")?);
    };
    let mut text = String::from_str(alloc, "|")?;
    for byte in line.iter().take(MOST_SHOWN) {
        if (32..=126).contains(byte) {
            text.push(char::from(*byte))?;
        } else {
            text.push_str(&format!(in alloc; "\\x{byte:02x}")?)?;
        }
    }
    text.push_str("|")?;
    Ok(text)
}

// Texts cut into pieces, and what is refused of them.
ghost use Rattle.std.specs.Prelude.{◌<◌};

use crate::checks::same;
use aria_base::Bytes;
use script_text::{Lines, LinesRefused, RefusalKind};
use std::alloc::Global;
use std::test::Fail;

/// A text, and its lines, each with a bar behind it.
const TEXT: &str =
    "catalog bank\r\n\n\r\nrow acct 1 = 10\r\r\n# a remark that is long enough to lie in more than one piece of a hundred bytes\ntx add 1 2\n   \nend 1\r\nlast \r";

const BARRED: &str =
    "catalog bank|||row acct 1 = 10\r|# a remark that is long enough to lie in more than one piece of a hundred bytes|tx add 1 2|   |end 1|last |";

fn bar(out: &mut Vec<u8>, lines: &[Bytes]) -> Result<(), LinesRefused> {
    for line in lines {
        out.extend_from_slice(line.as_slice())?;
        out.extend_from_slice(b"|")?;
    }
    Ok(())
}

/// Feeds the text in pieces of this size, and bars its lines.
fn feed_all(
    lines: &mut Lines,
    text: &[u8],
    size: usize,
    out: &mut Vec<u8>,
) -> Result<(), LinesRefused>
    requires { 0 < size }
{
    for piece in text.chunks(size) {
        let found = lines.feed(piece)?;
        bar(out, found.as_slice())?;
    }
    Ok(())
}

/// The barred lines of the text; at a refusal those before it, its word and its line.
fn barred(
    alloc: Global,
    limit: u64,
    longest: u32,
    text: &[u8],
    size: usize,
) -> Result<Vec<u8>, Fail>
    requires { 0 < size }
{
    let mut out = Vec::new(alloc);
    let mut lines = Lines::new(alloc, limit, longest);
    if let Err(refused) = feed_all(&mut lines, text, size, &mut out) {
        add_refusal(alloc, refused, &mut out)?;
        return Ok(out);
    }
    if let Some(last) = lines.finish() {
        out.extend_from_slice(last.as_slice())?;
        out.extend_from_slice(b"|")?;
    }
    Ok(out)
}

fn add_refusal(alloc: Global, refused: LinesRefused, out: &mut Vec<u8>) -> Result<(), Fail> {
    let LinesRefused::Line(refusal) = refused else {
        return Err(Fail::new("there is memory"));
    };
    let word = match refusal.kind {
        RefusalKind::Long => "long",
        RefusalKind::Size => "size",
        _ => "another kind",
    };
    let line = refusal.line;
    out.extend_from_slice(format!(in alloc; "{word} {line}")?.as_bytes())?;
    Ok(())
}

#[test]
fn cutting_makes_no_difference(rt: HostRuntime) -> Result<(), Fail> {
    for size in [1, 2, 3, 7, 100, 1000] {
        if size == 0 {
            return Err(Fail::new("pieces have bytes"));
        }
        let found = barred(rt.alloc(), 1000, 4096, TEXT.as_bytes(), size)?;
        same(&rt, "a cut text", &found, BARRED);
    }
    Ok(())
}

/// The bounds of a text and of a line, a text, and what comes of it where it is fed byte by byte.
const BOUNDED: [(u64, u32, &str, &str); 14] = [
    (20, 10, "0123456789\n012345678", "0123456789|012345678|"),
    (20, 10, "0123456789\n01234567\n", "0123456789|01234567|"),
    (20, 10, "0123456789\n0123456789", "0123456789|size 2"),
    (20, 10, "0123456789\n0123456789a", "0123456789|size 2"),
    (20, 10, "0123456789a", "long 1"),
    (20, 10, "01234567\r\n012345678", "01234567|012345678|"),
    (20, 10, "0123456789\r\n", "long 1"),
    (
        20,
        10,
        "01234\n01234\n01234\n01\n",
        "01234|01234|01234|size 4",
    ),
    (21, 10, "0123456789\n0123456789\n", "0123456789|size 2"),
    (21, 10, "0123456789\n0123456789ab", "0123456789|long 2"),
    (10, 10, "0123456789a", "long 1"),
    (10, 10, "0123456789\n", "size 1"),
    (10, 20, "0123456789a", "size 1"),
    (0, 0, "", ""),
];

#[test]
fn first_byte_past_a_bound_refuses(rt: HostRuntime) -> Result<(), Fail> {
    for (limit, longest, text, said) in BOUNDED {
        let found = barred(rt.alloc(), limit, longest, text.as_bytes(), 1)?;
        same(&rt, text, &found, said);
    }
    Ok(())
}

/// Feeds a piece whose third line is too long, and bars the lines before it.
fn refuse(lines: &mut Lines, out: &mut Vec<u8>) -> Result<(), Fail> {
    if lines.feed(b"c\nd\n012345\ne").is_ok() {
        return Err(Fail::new("the third line is too long"));
    }
    let before = lines.before(b"c\nd\n012345\ne")?;
    bar(out, before.as_slice())?;
    Ok(())
}

#[test]
fn refusals_change_nothing(rt: HostRuntime) -> Result<(), Fail> {
    let mut lines = Lines::new(rt.alloc(), 100, 5);
    let mut out = Vec::new(rt.alloc());
    feed_all(&mut lines, b"ab", 2, &mut out)?;
    refuse(&mut lines, &mut out)?;
    refuse(&mut lines, &mut out)?;
    feed_all(&mut lines, b"c\n01234", 7, &mut out)?;
    if let Some(last) = lines.finish() {
        out.extend_from_slice(last.as_slice())?;
    }
    same(&rt, "bars", &out, "abc|d|abc|d|abc|01234");
    Ok(())
}

// The arguments as `clap` reads them, where they are of the line form.
ghost use Rattle.std.specs.Prelude.{◌≡◌, ◌<◌, length, map, option_map, string_bytes, IfErr, IfOk, Some};
ghost use Rattle.clap.specs.Words.{kind_of};
ghost use Rattle.command_words.specs.Lines.{Line, line_of, text_in};
ghost use Rattle.command_words.specs.Rows.{IsRead, IsReadOf, cmd_of};

use crate::lines::line;
use crate::rows::CommandRow;
use crate::shapes::command;
use aria_base::Memory;
use clap::error::ErrorKind;
use clap::{ArgMatches, Error};
use std::alloc::Global;

// Of a line of the form `clap` gives the line, or memory ran out.
fn read<'a>(
    alloc: Global,
    rows: &[CommandRow<'a>],
    words: &'a [String],
) -> Result<ArgMatches<'a>, Error>
    requires { 0 < length rows.now }
    ensures line { IfOk result (λ m. (l : Line) → line_of (map cmd_of rows.now) (map string_bytes words.now) ≡ Some l → IsRead l m) }
    ensures memory { IfErr result (λ e. (l : Line) → line_of (map cmd_of rows.now) (map string_bytes words.now) ≡ Some l → kind_of e ≡ ErrorKind.OutOfMemory) }
{
    let command = command(alloc, "aria", rows)?;
    command.try_get_matches_from(words)
}

fn memory_of(_error: Error) -> Memory
    requires { kind_of _error ≡ ErrorKind.OutOfMemory }
{
    Memory
}

/// What `clap` makes of the arguments; none where they are not of the line form.
pub(crate) fn matches<'a>(
    alloc: Global,
    rows: &[CommandRow<'a>],
    words: &'a [String],
) -> Result<Option<ArgMatches<'a>>, Memory>
    requires { 0 < length rows.now }
    ensures { IfOk result (λ found. IsReadOf (line_of (map cmd_of rows.now) (map string_bytes words.entry.now)) found) }
{
    if line(alloc, rows, words)?.is_none() {
        return Ok(None);
    }
    match read(alloc, rows, words) {
        Ok(matches) => Ok(Some(matches)),
        Err(error) => Err(memory_of(error)),
    }
}

/// The text of an option of the line.
pub(crate) fn text<'a>(found: &ArgMatches<'a>, name: &str) -> Option<&'a str>
    ensures { (l : Line) → IsRead l found.now → option_map (λ s. s.now) result ≡ text_in l name.now }
{
    let (_, inner) = found.subcommand()?;
    inner.get_str(name)
}

// The product's own test of the line form, and what the line gives.
ghost use Rattle.std.specs.Prelude.{◌≡◌, map, option_map, option_and_then, string_bytes, IfOk, Some, None, [], find, bytes_eq, if◌then◌else◌};
ghost use Rattle.command_words.specs.Lines.{Read, Line, add, has_dash, is_given, opt_named, options_of, line_of, split, with_name, with_opt, with_options, with_part, with_split, with_word, ended};
ghost use Rattle.command_words.specs.Rows.{IsLineOf, IsOptionsOf, cmd_of, given_of, opt_of, part_of};

use crate::rows::{CommandRow, OptionRow};
use aria_base::Memory;
use std::alloc::Global;
use std::marker::Model;

/// An option with its text.
#[derive(Clone, Copy, Debug)]
pub struct GivenRow<'a> {
    pub option: OptionRow<'a>,
    pub text: &'a str,
}

/// A command with its options.
#[derive(Drop)]
pub struct LineRow<'a> {
    pub command: CommandRow<'a>,
    pub given: Vec<GivenRow<'a>>,
}

#[derive(Drop)]
struct Reading<'a> {
    given: Vec<GivenRow<'a>>,
    pending: Option<OptionRow<'a>>,
}

impl<'a> Model for Reading<'a> {
    ghost use Rattle.std.specs.Prelude.{map, option_map};
    ghost use Rattle.command_words.specs.Lines.{Read};
    ghost use Rattle.command_words.specs.Rows.{given_of, opt_of};

    ghost Value = { Read };

    ghost view = { λ r. record { given = map given_of r.given.items; pending = option_map opt_of r.pending } };
}

/// `--name` or `--name=value`.
fn parts(word: &str) -> Option<(&str, Option<&str>)>
    ensures { option_map part_of result ≡ split word.now }
{
    let body = word.strip_prefix("--")?;
    if body.is_empty() {
        return None;
    }
    match body.split_once('=') {
        Some((name, value)) => Some((name, Some(value))),
        None => Some((body, None)),
    }
}

fn named<'a>(table: &[OptionRow<'a>], name: &str) -> Option<OptionRow<'a>>
    ensures { option_map opt_of result ≡ opt_named (map opt_of table.now) name.now }
{
    for option in table {
        if option.name == name {
            return Some(*option);
        }
    }
    None
}

fn has_name(given: &[GivenRow<'_>], name: &str) -> bool
    ensures { result ≡ is_given (map given_of given.now) name.now }
{
    for row in given {
        if row.option.name == name {
            return true;
        }
    }
    false
}

impl<'a> Reading<'a> {
    fn is_given(&self, name: &str) -> bool
        ensures { result ≡ is_given self.now.given name.now }
    {
        has_name(&self.given, name)
    }

    fn add(&mut self, option: OptionRow<'a>, text: &'a str) -> Result<(), Memory>
        ensures { IfOk result (λ _. self.new ≡ add self.old.given (opt_of option.entry) text.entry.now) }
    {
        self.given.push(GivenRow { option, text })?;
        self.pending = None;
        Ok(())
    }

    fn add_part(&mut self, option: OptionRow<'a>, value: Option<&'a str>) -> Result<bool, Memory>
        ensures { IfOk result (λ taken. with_part self.old.given (opt_of option.entry) (option_map (λ v. v.now) value.entry) ≡ (if taken then Some self.new else None)) }
    {
        match value {
            Some(text) => {
                if option.is_flag {
                    return Ok(false);
                }
                self.add(option, text)?;
            }
            None => {
                if option.is_flag {
                    self.add(option, "true")?;
                } else {
                    self.pending = Some(option);
                }
            }
        }
        Ok(true)
    }

    fn add_word(&mut self, table: &[OptionRow<'a>], word: &'a str) -> Result<bool, Memory>
        ensures { IfOk result (λ taken. with_word (map opt_of table.now) self.old.given self.old.pending word.entry.now ≡ (if taken then Some self.new else None)) }
    {
        if let Some(option) = self.pending {
            if word.starts_with('-') {
                return Ok(false);
            }
            self.add(option, word)?;
            return Ok(true);
        }
        let Some((name, value)) = parts(word) else {
            return Ok(false);
        };
        let Some(option) = named(table, name) else {
            return Ok(false);
        };
        if self.is_given(option.name) {
            return Ok(false);
        }
        self.add_part(option, value)
    }
}

/// The options that the arguments are; none where they are not of the form.
fn options<'a>(
    alloc: Global,
    table: &[OptionRow<'a>],
    words: &'a [String],
) -> Result<Option<Vec<GivenRow<'a>>>, Memory>
    ensures { IfOk result (λ found. IsOptionsOf (options_of (map opt_of table.now) [] None (map string_bytes words.entry.now)) found) }
{
    let mut reading = Reading {
        given: Vec::new(alloc),
        pending: None,
    };
    for word in words {
        if !reading.add_word(table, word.as_str())? {
            return Ok(None);
        }
    }
    if reading.pending.is_some() {
        return Ok(None);
    }
    Ok(Some(reading.given))
}

fn command_named<'a>(rows: &[CommandRow<'a>], name: &str) -> Option<CommandRow<'a>>
    ensures { option_map cmd_of result ≡ find (λ c. bytes_eq c.name name.now) (map cmd_of rows.now) }
{
    for row in rows {
        if row.name == name {
            return Some(*row);
        }
    }
    None
}

fn line_after<'a>(
    alloc: Global,
    command: CommandRow<'a>,
    words: &'a [String],
) -> Result<Option<LineRow<'a>>, Memory>
    ensures { IfOk result (λ r. IsLineOf (with_options (cmd_of command.entry) (options_of (map opt_of command.entry.options.now) [] None (map string_bytes words.entry.now))) r) }
{
    match options(alloc, command.options, words)? {
        Some(given) => Ok(Some(LineRow { command, given })),
        None => Ok(None),
    }
}

/// The line that the arguments are; none where they are not of the form.
pub fn line<'a>(
    alloc: Global,
    rows: &[CommandRow<'a>],
    words: &'a [String],
) -> Result<Option<LineRow<'a>>, Memory>
    ensures { IfOk result (λ r. IsLineOf (line_of (map cmd_of rows.now) (map string_bytes words.entry.now)) r) }
{
    let [first, rest @ ..] = words else {
        return Ok(None);
    };
    let Some(command) = command_named(rows, first.as_str()) else {
        return Ok(None);
    };
    line_after(alloc, command, rest)
}

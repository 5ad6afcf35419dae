// What a person at a terminal is told beside the output: which words of the arguments cannot stand, and which
// line was refused.
ghost use Rattle.std.specs.Prelude.{◌≡◌, ◌∷◌, [], ◌<◌, length, map, take, string_bytes, codes, IfOk, IfSome};
ghost use Rattle.std.specs.Char.{encode_utf8};
ghost use Rattle.std.specs.Str.Parse.{digits_value, without_leading_plus};
ghost use Rattle.command_words.specs.Rows.{cmd_of, opt_of};
ghost use Rattle.command_words.specs.Tables.{commands};
ghost use Rattle.aria_cli.specs.Told.{cause_in, first_option, is_command, is_option, number_in, options_of, shown, shown_byte, takes_next, with_words, wrong_words};

use aria_base::Memory;
use command_words::{CommandRow, OptionRow, commands, read_settings};
use std::alloc::Global;

/// How many words of the arguments are looked at: more than the longest command has, so that a long line of
/// arguments takes no time.
const MOST_WORDS: usize = 64;

/// How many bytes of a line are shown.
const MOST_SHOWN: usize = 160;

/// The words that cannot stand where they do: the first one behind the longest beginning of the arguments that
/// is a command, with its value where it is an option of that command that has one. Empty where there is none,
/// as of no arguments.
pub fn wrong_words(alloc: Global, words: &[String]) -> Result<&[String], Memory>
    ensures { IfOk result (λ wrong. map string_bytes wrong.now ≡ wrong_words commands (map string_bytes words.entry.now)) }
{
    let Some(name) = words.first() else {
        return Ok(words);
    };
    let rows = commands();
    let mut longest = 0;
    for count in 1..words.len().min(MOST_WORDS) {
        if is_command(alloc, &rows, &words[..count])? {
            longest = count;
        }
    }
    let options = options_of(&rows, name);
    Ok(first_option(options, &words[longest..]))
}

/// Whether the words are one of the commands, with values in range.
fn is_command(alloc: Global, rows: &[CommandRow<'_>], words: &[String]) -> Result<bool, Memory>
    requires { 0 < length rows.now }
    ensures { IfOk result (λ is. is ≡ is_command (map cmd_of rows.now) (map string_bytes words.now)) }
{
    Ok(read_settings(alloc, rows, words)?.is_some())
}

/// The options of the command of this name; none where no command has it.
fn options_of<'a>(rows: &[CommandRow<'a>], name: &str) -> &'a [OptionRow<'a>]
    ensures { map opt_of result.now ≡ options_of (map cmd_of rows.now) name.now }
{
    for row in rows {
        if row.name == name {
            return row.options;
        }
    }
    &[]
}

/// The first of these words, with the next one where that is its value.
fn first_option<'w>(options: &[OptionRow<'_>], words: &'w [String]) -> &'w [String]
    ensures { map string_bytes result.now ≡ first_option (map opt_of options.now) (map string_bytes words.entry.now) }
{
    match words {
        [option, value, ..] if takes_next(options, option) && !is_option(value) => &words[..2],
        [_, ..] => &words[..1],
        [] => words,
    }
}

/// Whether a word is the name of an option whose value is the next word. Where the word has the value itself,
/// as `--name=value`, no option has that name.
fn takes_next(options: &[OptionRow<'_>], word: &str) -> bool
    ensures { result ≡ takes_next (map opt_of options.now) word.now }
{
    let Some(name) = word.strip_prefix("--") else {
        return false;
    };
    for option in options {
        if option.name == name {
            return !option.is_flag;
        }
    }
    false
}

fn is_option(word: &str) -> bool
    ensures { result ≡ is_option word.now }
{
    word.starts_with("--")
}

/// Words as they are shown, with a space between two.
pub fn shown_words(alloc: Global, words: &[String]) -> Result<String, Memory>
    ensures { IfOk result (λ text. string_bytes text ≡ with_words [] (map string_bytes words.now)) }
{
    let mut text = String::new(alloc);
    for word in words {
        if !text.is_empty() {
            text.push(' ')?;
        }
        text.push_str(shown(alloc, word.as_bytes())?.as_str())?;
    }
    Ok(text)
}

/// A line as it is shown: bytes that do not print are `?`, and what is too long is cut.
pub fn shown(alloc: Global, line: &[u8]) -> Result<String, Memory>
    ensures { IfOk result (λ text. string_bytes text ≡ shown line.now) }
{
    let mut text = String::new(alloc);
    let front = &line[..line.len().min(MOST_SHOWN)];
    for byte in front {
        text.push(shown_byte(*byte))?;
    }
    if line.len() > MOST_SHOWN {
        text.push_str(" ..")?;
    }
    Ok(text)
}

/// A byte as it is shown.
fn shown_byte(byte: u8) -> char
    ensures { encode_utf8 result ≡ shown_byte byte ∷ [] }
{
    if (b' '..=b'~').contains(&byte) {
        char::from(byte)
    } else {
        '?'
    }
}

/// The number of the line that a line of output refuses, with the cause: `refused 12 argument` gives 12 and
/// `argument`.
pub fn refusal(line: &[u8]) -> Option<(usize, &str)>
    ensures refused { IfSome result (λ r. take 8 line.entry.now ≡ codes "refused ") }
    ensures number { IfSome result (λ r. r.0 ≡ digits_value 10 (without_leading_plus (number_in line.entry.now))) }
    ensures cause { IfSome result (λ r. r.1.now ≡ cause_in line.entry.now) }
{
    let text = str::from_utf8(line).ok()?;
    let (number, cause) = text.strip_prefix("refused ")?.split_once(' ')?;
    Some((number.parse().ok()?, cause))
}

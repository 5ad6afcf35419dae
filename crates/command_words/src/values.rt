// What texts of options stand for.
ghost use Rattle.std.specs.Prelude.{◌≡◌, ◌≤◌, length, option_map, option_and_then};
ghost use Rattle.command_words.specs.Rows.{choice_of, range_of};
ghost use Rattle.command_words.specs.Values.{choice_or, digits_after, is_on, number_of, number_or, within};

use crate::options::{Choice, Number};

/// A flag's text; one that is not given reads `false`.
pub(crate) fn is_on(text: Option<&str>) -> bool
    ensures { result ≡ is_on (option_map (λ s. s.now) text.entry) }
{
    match text {
        Some(text) => text == "true",
        None => false,
    }
}

/// What the word stands for; none where it is neither of the two.
pub(crate) fn choice_or<T: Copy>(text: Option<&str>, option: &Choice<'_, T>) -> Option<T>
    ensures { result ≡ choice_or (choice_of option.now) (option_map (λ s. s.now) text.entry) }
{
    let Some(text) = text else {
        return Some(option.usual.1);
    };
    if text == option.usual.0 {
        return Some(option.usual.1);
    }
    if text == option.other.0 {
        return Some(option.other.1);
    }
    None
}

/// The number; none where the text is none, or one out of range.
pub(crate) fn number_or(text: Option<&str>, option: &Number<'_>) -> Option<u32>
    ensures { result ≡ number_or (range_of option.now) (option_map (λ s. s.now) text.entry) }
{
    match text {
        Some(text) => number_within(option, text.as_bytes()),
        None => Some(option.usual),
    }
}

fn number_within(option: &Number<'_>, text: &[u8]) -> Option<u32>
    ensures { result ≡ option_and_then (within (range_of option.now)) (number_of text.now) }
{
    let number = read_number(text)?;
    if option.low <= number && number <= option.high {
        return Some(number);
    }
    None
}

fn read_number(text: &[u8]) -> Option<u32>
    ensures { result ≡ number_of text.now }
{
    match text {
        [] | [b'0', _, ..] => None,
        _ if text.len() > 7 => None,
        _ => read_digits(text),
    }
}

fn read_digits(text: &[u8]) -> Option<u32>
    requires { length text.now ≤ 7 }
    ensures { result ≡ digits_after 0 text.now }
{
    let mut number = 0;
    for byte in text {
        if !byte.is_ascii_digit() {
            return None;
        }
        number = 10 * number + u32::from(*byte - b'0');
    }
    Some(number)
}

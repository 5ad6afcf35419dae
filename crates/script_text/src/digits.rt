// Numbers read from their digits.
ghost use Rattle.std.specs.Prelude.{◌≡◌, ◌≤◌, length};
ghost use Rattle.script_text.specs.Numbers.{digits_after, natural_of, number_of};

/// The most digits of a number of 64 bits with a sign.
const MOST_DIGITS: usize = 19;

/// The number of 64 bits with a sign that these bytes write.
pub fn read_number(bytes: &[u8]) -> Option<i64>
    ensures { result ≡ number_of bytes.now }
{
    match bytes {
        [b'-', digits @ ..] => match read_natural(digits)? {
            0 => None,
            amount => 0i64.checked_sub_unsigned(amount),
        },
        _ => 0i64.checked_add_unsigned(read_natural(bytes)?),
    }
}

/// The number without a sign that these bytes write.
fn read_natural(bytes: &[u8]) -> Option<u64>
    ensures { result ≡ natural_of bytes.now }
{
    match bytes {
        [] | [b'0', _, ..] => None,
        _ if bytes.len() > MOST_DIGITS => None,
        _ => read_digits(bytes),
    }
}

/// The number that these digits write.
fn read_digits(bytes: &[u8]) -> Option<u64>
    requires { length bytes.now ≤ MOST_DIGITS }
    ensures { result ≡ digits_after 0 bytes.now }
{
    let mut number = 0;
    for byte in bytes {
        if !byte.is_ascii_digit() {
            return None;
        }
        number = 10 * number + u64::from(*byte - b'0');
    }
    Some(number)
}

//! How an int record is read.
ghost use Rattle.std.specs.Prelude.{◌≡◌, ◌^◌, ◌<◌, ◌≤◌, length, IfSome};
ghost use Rattle.std.specs.Char.{is_ascii_digit};
ghost use Rattle.std.specs.List.{list_all};
ghost use Rattle.std.specs.Str.Parse.{starts_with_minus};
ghost use Rattle.exec_value.specs.Number.{is_numeral, without_minus, int_of, size_of, signed};

/// What so many digits show is within an `i64`.
const SHORT_DIGITS: usize = 18;

/// The number that an int record shows: an optional minus sign and one or more digits, with a
/// value that an `i64` holds. Leading zeros are accepted.
pub fn read_int(line: &[u8]) -> Option<i64>
    ensures { result ≡ int_of line.now }
{
    let digits = without_minus(line);
    if digits.is_empty() || digits.len() > SHORT_DIGITS {
        return read_long(line);
    }
    match short_size(digits) {
        Some(size) => Some(signed(starts_with_minus(line), size)),
        None => None,
    }
}

/// The same of a line of any length.
fn read_long(line: &[u8]) -> Option<i64>
    ensures { result ≡ int_of line.now }
{
    if !is_numeral(line) {
        return None;
    }
    let text = str::from_utf8(line).ok()?;
    text.parse().ok()
}

/// What a few digits show, in one pass. They are too few for a product or a sum to overflow.
fn short_size(digits: &[u8]) -> Option<u64>
    requires { length digits.now ≤ SHORT_DIGITS }
    ensures value { result ≡ size_of digits.now }
    ensures below { IfSome result (λ size. size < 10 ^ SHORT_DIGITS) }
{
    let mut size = 0;
    for byte in digits {
        if !byte.is_ascii_digit() {
            return None;
        }
        size = size * 10 + u64::from(*byte - b'0');
    }
    Some(size)
}

/// A number by its sign and its size.
fn signed(minus: bool, size: u64) -> i64
    requires { size < 10 ^ SHORT_DIGITS }
    ensures { result ≡ signed minus size }
{
    let number = size as i64;
    if minus { -number } else { number }
}

/// Whether these bytes are one digit or more, after a minus sign that may stand first.
fn is_numeral(line: &[u8]) -> bool
    ensures { result ≡ is_numeral line.now }
{
    let digits = without_minus(line);
    !digits.is_empty() && are_digits(digits)
}

/// Whether a minus sign stands first.
fn starts_with_minus(line: &[u8]) -> bool
    ensures { result ≡ starts_with_minus line.now }
{
    matches!(line, [b'-', ..])
}

/// The bytes without the minus sign that may stand first.
fn without_minus(line: &[u8]) -> &[u8]
    ensures { result.now ≡ without_minus line.now }
{
    match line {
        [b'-', digits @ ..] => digits,
        _ => line,
    }
}

/// Whether all bytes are decimal digits.
fn are_digits(bytes: &[u8]) -> bool
    ensures { result ≡ list_all is_ascii_digit bytes.now }
{
    bytes.iter().all(|byte| byte.is_ascii_digit())
}

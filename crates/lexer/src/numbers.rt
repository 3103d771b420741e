//! Numbers.
ghost use Rattle.std.specs.Prelude.{◌≡◌};
ghost use Rattle.lexer.specs.Numbers.{with_digit, value_of, in_range, number_of};

/// The largest number that a model can write.
pub const MOST: u32 = 1_000_000_000;

/// A number with one digit more at its end, unless that is past the largest number.
fn with_digit(number: u32, digit: u8) -> Option<u32>
    ensures { result ≡ in_range (with_digit number digit) }
{
    let digit = u32::from(digit.saturating_sub(b'0'));
    number
        .checked_mul(10)?
        .checked_add(digit)
        .filter(|n| *n <= MOST)
}

/// The value of a run of digits, unless it is past the largest number.
fn read_digits(digits: &[u8]) -> Option<u32>
    ensures { result ≡ in_range (value_of digits.now) }
{
    digits
        .iter()
        .try_fold(0, |number, digit| with_digit(number, *digit))
}

/// The number that a run of digits is, if it is one: it has no leading zero.
pub(crate) fn read_number(digits: &[u8]) -> Option<u32>
    ensures { result ≡ number_of digits.now }
{
    match digits {
        [b'0', _, ..] => None,
        _ => read_digits(digits),
    }
}

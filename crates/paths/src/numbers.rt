//! The numbers that marks carry.
ghost use Rattle.std.specs.Prelude.{◌≡◌, ◌≤◌, length, drop};
ghost use Rattle.std.specs.List.{prefix_len};
ghost use Rattle.paths.specs.Marks.{held_number};
ghost use Rattle.paths.specs.Reading.{is_digit, value_of, read_number};

use faults::Fault;

/// A number from here on is held as this one, which no reference and no check has.
pub(crate) const MOST_NUMBER: u32 = 1_000_000;

/// How many digits stand at the front of some bytes.
fn digits(bytes: &[u8]) -> usize
    ensures within { result ≤ length bytes.now }
    ensures value { result ≡ prefix_len is_digit bytes.now }
{
    bytes
        .iter()
        .take_while(|byte| byte.is_ascii_digit())
        .count()
}

/// The number that digits spell, as it is held.
fn held_number(digits: &[u8]) -> u32
    ensures { result ≡ held_number (value_of digits.now) }
{
    digits.iter().fold(0, |value: u32, digit| {
        let longer = value
            .saturating_mul(10)
            .saturating_add(u32::from(digit.saturating_sub(b'0')));
        longer.min(MOST_NUMBER)
    })
}

/// The number at a place of a line, which has no leading zero, and the place behind it.
pub(crate) fn read_number(line: &[u8], at: usize) -> Result<(u32, usize), Fault>
    requires { at ≤ length line.now }
    ensures { result ≡ read_number (drop at line.now) at }
{
    let rest = &line[at..];
    match (digits(rest), rest) {
        (0, _) => Err(Fault::BadPath { place: at }),
        (_, [b'0', ..]) => Ok((0, at + 1)),
        (count, _) => Ok((held_number(&rest[..count]), at + count)),
    }
}

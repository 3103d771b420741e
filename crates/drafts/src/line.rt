//! What a line of a case says.
ghost use Rattle.std.specs.Prelude.{◌≤◌, pos, negsuc, ◌≤ℤ◌, IfSome};

use std::alloc::{AllocError, AllocFailed, Global};

/// The largest number; the least is as far below 0.
const MOST: u32 = 1_000_000_000;

/// Why a line is not taken.
#[derive(Clone, Copy)]
pub(crate) enum LineFault {
    /// It says nothing of a case where it stands.
    Bad,
    /// No memory.
    Memory,
}

impl From<AllocError> for LineFault {
    fn from(_e: AllocError) -> LineFault {
        LineFault::Memory
    }
}

impl<T: Drop> From<AllocFailed<T>> for LineFault {
    fn from(_e: AllocFailed<T>) -> LineFault {
        LineFault::Memory
    }
}

/// What a line says. Its numbers are not read yet: a line that is refused where it stands asks for no memory.
#[derive(Clone, Copy)]
pub(crate) enum Line<'a> {
    /// The table, from 1 to 8, whose rows follow.
    Table(u8),
    /// A row's numbers.
    Row(&'a [u8]),
    /// What stands behind the word.
    Reads(&'a [u8]),
    /// What stands behind the word.
    List(&'a [u8]),
}

/// A number without a sign that has one digit more at its end.
fn with_digit(size: u32, digit: u8) -> Option<u32> {
    match digit {
        b'0'..=b'9' => size.checked_mul(10)?.checked_add(u32::from(digit - b'0')),
        _ => None,
    }
}

/// The number without a sign that digits are; it has no leading zero.
fn size_of(digits: &[u8]) -> Option<u32>
    ensures { IfSome result (λ n. n ≤ 1000000000) }
{
    match digits {
        b"0" | [b'1'..=b'9', ..] => {
            digits
                .iter()
                .try_fold(0, |size, digit| with_digit(size, *digit))
                .filter(|size| *size <= MOST)
        }
        _ => None,
    }
}

/// The number that a word is.
// By its bytes: to ask whether they are text and then to `parse` takes longer.
fn number_of(word: &[u8]) -> Option<i32>
    ensures { IfSome result (λ n. (negsuc 999999999 ≤ℤ n) × (n ≤ℤ pos 1000000000)) }
{
    match word {
        [b'-', digits @ ..] => size_of(digits).map(|size| -(size as i32)),
        _ => size_of(word).map(|size| size as i32),
    }
}

/// Reads numbers parted by one space.
pub(crate) fn read_numbers(heap: Global, text: &[u8]) -> Result<Vec<i32>, LineFault> {
    text.split(|byte| *byte == b' ')
        .map(|word| number_of(word).ok_or(LineFault::Bad))
        .try_collect(heap)
}

/// Reads the numbers behind the first word of a line, each behind one space.
pub(crate) fn read_rest(heap: Global, rest: &[u8]) -> Result<Vec<i32>, LineFault> {
    match rest {
        [] => Ok(Vec::new(heap)),
        [b' ', numbers @ ..] => read_numbers(heap, numbers),
        _ => Err(LineFault::Bad),
    }
}

/// Reads a line by its first word; one that begins with none is a row.
pub(crate) fn read_line(line: &[u8]) -> Result<Line<'_>, LineFault> {
    if let Some(table) = line.strip_prefix(b"table ") {
        return match table {
            [digit @ b'1'..=b'8'] => Ok(Line::Table(*digit - b'0')),
            _ => Err(LineFault::Bad),
        };
    }
    if let Some(rest) = line.strip_prefix(b"reads") {
        return Ok(Line::Reads(rest));
    }
    if let Some(rest) = line.strip_prefix(b"list") {
        return Ok(Line::List(rest));
    }
    Ok(Line::Row(line))
}

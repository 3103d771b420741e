//! The text of a case, line by line.
ghost use Rattle.std.specs.Prelude.{◌≡◌, true, is_ok, IfOk};
ghost use Rattle.cases.specs.Meaning.{case_verdict};

use super::bytes::Draft;
use super::line::LineFault;
use cases::view::read_case;
use std::alloc::{AllocError, AllocFailed, Global};
use std::fmt;

/// Why the text of a case is no case.
#[derive(Clone, Copy, PartialEq, Eq, Debug)]
pub enum TextFault {
    /// The line, counted from 1, that says nothing of a case.
    BadLine { line: usize },
    /// No memory.
    Memory,
}

impl From<AllocError> for TextFault {
    fn from(_e: AllocError) -> TextFault {
        TextFault::Memory
    }
}

impl<T: Drop> From<AllocFailed<T>> for TextFault {
    fn from(_e: AllocFailed<T>) -> TextFault {
        TextFault::Memory
    }
}

impl fmt::Display for TextFault {
    fn fmt<W: fmt::Write>(&self, f: &mut fmt::Formatter<W>) -> fmt::Result {
        match *self {
            TextFault::BadLine { line } => write!(f, "error: bad case at line {line}"),
            TextFault::Memory => f.write_str("error: out of memory"),
        }
    }
}

impl LineFault {
    /// The fault of a text whose line has this fault.
    fn at(self, line: usize) -> TextFault {
        match self {
            LineFault::Bad => TextFault::BadLine { line },
            LineFault::Memory => TextFault::Memory,
        }
    }
}

/// Whether bytes are a well-formed case file for a model of 8 tables.
fn is_case(bytes: &[u8]) -> bool
    ensures { result ≡ is_ok (case_verdict 8 bytes.now) }
{
    read_case(bytes, &[8; 8]).is_ok()
}

/// The bytes of the case file that a text writes: lines `table N`, rows of numbers, `reads ..`, `list ..`.
pub fn case_bytes(heap: Global, text: &[u8]) -> Result<Vec<u8>, TextFault>
    ensures { IfOk result (λ v. is_ok (case_verdict 8 v.items) ≡ true) }
{
    let mut draft = Draft::new(heap);
    // Counted by hand, since the last number is told too, once the lines have ended.
    let mut count = 0;
    for line in text.split_inclusive(|byte| *byte == b'\n') {
        count += 1;
        let line = line.strip_suffix(b"\n").unwrap_or(line);
        draft.take_line(line).map_err(|fault| fault.at(count))?;
    }
    let bytes = draft.file()?;
    if !is_case(bytes.as_slice()) {
        return Err(TextFault::BadLine { line: count });
    }
    Ok(bytes)
}

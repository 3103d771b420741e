//! Reads a path.
ghost use Rattle.std.specs.Prelude.{◌≡◌, ◌<◌, ◌≤◌, ◌⊎◌, List, map, length, drop, Ok, Err};
ghost use Rattle.std.specs.List.{prefix_len};
ghost use Rattle.faults.specs.declared.Fault.TheVariants.{Memory};
ghost use Rattle.paths.specs.Marks.{Meant, Held, AllExact, held, mark_of};
ghost use Rattle.paths.specs.Spelling.{in_line, line_of, spelled};
ghost use Rattle.paths.specs.Reading.{read_mark};
ghost use Rattle.paths.specs.Answers.{LineAnswers, marks_read};

use super::mark::Mark;
use super::numbers::read_number;
use faults::Fault;
use std::alloc::Global;

/// The most marks of a path.
pub const MOST_MARKS: usize = 512;

/// How many bytes stand before the newline that ends the path, or before the text's end.
fn line_length(text: &[u8]) -> usize
    ensures within { result ≤ length text.now }
    ensures value { result ≡ prefix_len in_line text.now }
{
    text.iter().take_while(|byte| **byte != b'\n').count()
}

/// The mark at a place of a line, and the place behind it.
#[tactic(auto, using(crate::proofs::Decoding::read_at, crate::proofs::Decoding::read_end))]
fn read_mark(line: &[u8], at: usize) -> Result<(Mark, usize), Fault>
    requires { at ≤ length line.now }
    ensures { result ≡ read_mark (drop at line.now) at }
{
    let Some(byte) = line.get(at) else {
        return Err(Fault::BadPath { place: at });
    };
    match char::from(*byte) {
        'T' => Ok((Mark::T, at + 1)),
        'E' => Ok((Mark::E, at + 1)),
        'L' => Ok((Mark::L, at + 1)),
        'O' => Ok((Mark::O, at + 1)),
        'N' => Ok((Mark::N, at + 1)),
        'X' => Ok((Mark::X, at + 1)),
        'W' => Ok((Mark::W, at + 1)),
        'K' => Ok((Mark::K, at + 1)),
        'F' => read_number(line, at + 1).map(|(number, end)| (Mark::F(number), end)),
        'C' => read_number(line, at + 1).map(|(number, end)| (Mark::C(number), end)),
        'D' => read_number(line, at + 1).map(|(number, end)| (Mark::D(number), end)),
        _ => Err(Fault::BadPath { place: at }),
    }
}

/// The marks that a line spells, which is not empty.
fn read_line(heap: Global, line: &[u8]) -> Result<Vec<Mark>, Fault>
    requires { 0 < length line.now }
    ensures { LineAnswers line.now (marks_read result) }
{
    let mut marks = Vec::new(heap);
    // No split at spaces: the parts do not tell their places, which a refusal needs.
    let mut at = 0;
    while marks.len() < MOST_MARKS {
        let (mark, end) = read_mark(line, at)?;
        marks.push(mark)?;
        match line.get(end) {
            None => return Ok(marks),
            Some(b' ') => at = end + 1,
            Some(_) => return Err(Fault::BadPath { place: end }),
        }
    }
    Err(Fault::BadPath { place: at })
}

/// The marks that a text spells, up to its first newline.
pub fn read_path(heap: Global, text: &[u8]) -> Result<Vec<Mark>, Fault>
    ensures answer { LineAnswers (line_of text.now) (marks_read result) }
    ensures back { (ms : List Meant) → length ms ≤ 512 → text.now ≡ spelled ms → (marks_read result ≡ Ok (map held ms)) ⊎ (marks_read result ≡ Err Memory) }
    ensures again { (hs : List Held) → AllExact hs → length hs ≤ 512 → text.now ≡ spelled (map mark_of hs) → (marks_read result ≡ Ok hs) ⊎ (marks_read result ≡ Err Memory) }
{
    let line = &text[..line_length(text)];
    if line.is_empty() {
        return Ok(Vec::new(heap));
    }
    read_line(heap, line)
}

//! Writes marks.
ghost use Rattle.std.specs.Prelude.{◌≡◌, List, map, IfOk, string_bytes};
ghost use Rattle.paths.specs.Marks.{Meant, mark_of};
ghost use Rattle.paths.specs.Spelling.{spelled};

use super::mark::Mark;
use faults::Fault;
use std::alloc::Global;

/// Marks as text: a space between two.
pub fn write_path(heap: Global, marks: &[Mark]) -> Result<String, Fault>
    ensures text { IfOk result (λ t. string_bytes t ≡ spelled (map mark_of marks.now)) }
    ensures only { (ms : List Meant) → spelled ms ≡ spelled (map mark_of marks.now) → ms ≡ map mark_of marks.now }
{
    let mut text = String::new(heap);
    for (i, mark) in marks.iter().enumerate() {
        if i > 0 {
            text.push(' ')?;
        }
        write!(text, "{mark}")?;
    }
    Ok(text)
}

//! The console of the path bench: reads commands from standard input, a line each, and answers each on standard output.
#![tactic(auto)]

use answer::Answer;
use anyhow::anyhow;
use console::{Command, read_command};
use drafts::hex::hex_bytes;
use drafts::text::case_bytes;
use input::{Lines, lines_of};
use std::alloc::Global;
use syntax::whole::check_form;

mod answer;
mod input;

/// What was set by earlier commands.
#[derive(Drop)]
struct Bench {
    heap: Global,
    path: Vec<u8>,
    case: Vec<u8>,
}

impl Bench {
    /// Answers `path`: what stands behind the word and one space is the path.
    fn answer_path(&mut self, line: &[u8]) -> anyhow::Result<Answer> {
        let path = line.strip_prefix(b"path ").unwrap_or(b"");
        self.path.clear();
        self.path.extend_from_slice(path)?;
        Ok(Answer::PathSet)
    }

    /// Sets the case.
    fn set_case(&mut self, bytes: Vec<u8>) -> Answer {
        let answer = Answer::CaseSet { bytes: bytes.len() };
        self.case = bytes;
        answer
    }

    /// Answers `case` with its block.
    fn answer_case(&mut self, text: &[u8]) -> Answer {
        match case_bytes(self.heap, text) {
            Ok(bytes) => self.set_case(bytes),
            Err(fault) => Answer::CaseFault(fault),
        }
    }

    /// Answers `case-hex`: what stands behind the word and one space is a case file in hexadecimal.
    fn answer_hex(&mut self, line: &[u8]) -> anyhow::Result<Answer> {
        let text = line.strip_prefix(b"case-hex ").unwrap_or(b"");
        match hex_bytes(self.heap, text)? {
            Some(bytes) => Ok(self.set_case(bytes)),
            None => Ok(Answer::NoHex),
        }
    }

    /// Answers the next line that asks for something, with its block where it has one; `None` once the input has ended.
    fn next_answer(&mut self, lines: &mut Lines) -> anyhow::Result<Option<Answer>> {
        // A count here and in `main`: that a reader's lines end is in no contract.
        for _ in 0..u64::MAX {
            let Some(line) = lines.next()? else {
                break;
            };
            let answer = match read_command(line) {
                Command::Pass => continue,
                Command::Model => answer_model(lines.read_block(self.heap)?.as_slice()),
                Command::Path => self.answer_path(line)?,
                Command::Case => self.answer_case(lines.read_block(self.heap)?.as_slice()),
                Command::CaseHex => self.answer_hex(line)?,
                Command::Conditions | Command::Judge => Answer::NotYet,
                Command::Unknown => Answer::Unknown,
            };
            return Ok(Some(answer));
        }
        Ok(None)
    }
}

/// Answers `model` with its block.
fn answer_model(text: &[u8]) -> Answer {
    match check_form(text) {
        Ok(()) => Answer::ModelOk,
        Err(fault) => Answer::ModelFault(fault),
    }
}

fn main(rt: HostRuntime) -> anyhow::Result<()> {
    let heap = rt.alloc();
    let mut lines = lines_of(rt.stdin(), heap)?;
    let mut bench = Bench {
        heap,
        path: Vec::new(heap),
        case: Vec::new(heap),
    };
    let mut failed = false;
    for _ in 0..u64::MAX {
        let Some(answer) = bench.next_answer(&mut lines)? else {
            break;
        };
        println!(rt; "{answer}")?;
        failed |= answer.is_error();
    }
    if failed {
        return Err(anyhow!("a command was answered with an error"));
    }
    Ok(())
}

//! What a command is answered with.
use drafts::text::TextFault;
use faults::Fault;
use std::fmt;

/// What a command is answered with.
#[derive(Clone, Copy)]
pub(crate) enum Answer {
    ModelOk,
    /// Why a model has not the form of one.
    ModelFault(Fault),
    PathSet,
    CaseSet { bytes: usize },
    /// Why a text is no case.
    CaseFault(TextFault),
    NoHex,
    NotYet,
    Unknown,
}

impl Answer {
    /// Whether the answer is an error. A refusal is none, but want of memory is.
    pub(crate) fn is_error(self) -> bool {
        match self {
            Answer::ModelFault(fault) => fault == Fault::Memory,
            Answer::ModelOk | Answer::PathSet | Answer::CaseSet { .. } => false,
            Answer::CaseFault(_) | Answer::NoHex | Answer::NotYet | Answer::Unknown => true,
        }
    }
}

impl fmt::Display for Answer {
    fn fmt<W: fmt::Write>(&self, f: &mut fmt::Formatter<W>) -> fmt::Result {
        match *self {
            Answer::ModelOk => f.write_str("model form ok"),
            Answer::ModelFault(fault) => write!(f, "{fault}"),
            Answer::PathSet => f.write_str("path set"),
            Answer::CaseSet { bytes } => write!(f, "case set bytes {bytes}"),
            Answer::CaseFault(fault) => write!(f, "{fault}"),
            Answer::NoHex => f.write_str("error: no hexadecimal bytes"),
            Answer::NotYet => f.write_str("error: not yet"),
            Answer::Unknown => f.write_str("error: unknown command"),
        }
    }
}

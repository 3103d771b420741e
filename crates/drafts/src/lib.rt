//! Cases as text: lines of tables, reads and lists are turned into the bytes of a case file.
#![tactic(auto)]

pub mod bytes;
pub mod hex;
mod line;
pub mod text;

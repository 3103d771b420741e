//! Case files: a file's bytes are checked, and then seen as tables, reads and lists.
#![tactic(auto)]

mod chains;
mod check;
mod file;
pub mod view;
mod words;

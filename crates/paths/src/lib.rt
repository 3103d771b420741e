//! Paths: a text of marks is read and refused exactly, and marks are written.
#![tactic(auto)]

pub mod mark;
mod numbers;
pub mod read;
pub mod write;

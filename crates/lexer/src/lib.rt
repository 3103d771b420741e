//! Cuts a model text into tokens, one at a time.
#![tactic(auto)]

pub mod keywords;
pub mod name;
mod numbers;
mod runs;
pub mod signs;
pub mod token;
pub mod tokens;

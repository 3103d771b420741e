//! Reads expressions and conditions, and refuses them at the first token at which none could go on.
#![tactic(auto)]

pub mod pull;
pub mod reader;
mod shapes;
pub mod terms;

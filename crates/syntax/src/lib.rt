//! The form of a model: read token by token, and refused at the first token at which no model could go on.
#![tactic(auto)]

mod clauses;
mod limited;
mod statements;
mod tables;
pub mod whole;

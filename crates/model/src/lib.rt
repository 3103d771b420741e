//! A checked model, apart from the text that it was read from: its tables, references, checks, variables and statements.
#![tactic(auto)]

pub mod laws;
pub mod model;
pub mod names;
pub mod program;
pub mod schema;
pub mod statements;

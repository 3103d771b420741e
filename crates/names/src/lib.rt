//! What the names of a model stand for: tables, attributes and variables by number, and the first name at fault.
#![tactic(auto)]

pub mod binding;
pub mod faulty;
pub mod name;
pub mod resolve;
pub mod schema;
pub mod scope;

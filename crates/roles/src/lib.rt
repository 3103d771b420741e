//! What each name of a model stands for where it is written, told by the tokens around it.
#![tactic(auto)]

mod mode;
pub mod reading;
pub mod role;

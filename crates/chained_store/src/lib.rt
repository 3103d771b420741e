//! A store whose tables have their rows in chained records.
#![tactic(auto)]

mod records;
mod tables;

pub use records::{CHAINS, free_records};
pub use tables::ChainedStore;

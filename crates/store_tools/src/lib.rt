//! Work on any store, proved from what the store trait says alone.
#![tactic(auto)]

mod compare;
mod copies;
mod reads;
mod visits;

pub use compare::same;
pub use copies::{clear, copy_store};
pub use reads::{entry_of, has_key, position, rows_of};
pub use visits::{Visitor, copy_rows, visit_rows};

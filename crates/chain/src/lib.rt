//! Chains of cells in lent memory: each cell has the number of the next one, and zero ends a chain.
//! Several chains share one run of cells; chain 0 has the cells that are free.
#![tactic(auto)]

mod cells;
mod chains;
mod changes;
mod nodes;

pub use cells::{Cell, element};
pub use chains::{Chains, after};
pub use changes::{ChainsMut, free_all};
pub use nodes::Nodes;

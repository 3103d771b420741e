//! A store whose tables have their rows side by side in key order.
#![tactic(auto)]

mod shifts;
mod tables;

pub use tables::SideStore;

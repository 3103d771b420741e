//! Checks a model: its form, its limits, its names, and circles among its references.
#![tactic(auto)]

pub mod naming;

//! Keys through their bytes, and pairs of keys.
#![tactic(auto)]

pub mod pairs;
pub mod sets;

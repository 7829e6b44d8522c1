//! Signing and verifying.
#![tactic(auto)]

pub mod calls_at_limits;
mod constant_streams;
mod counter_streams;
mod digests;
mod drawing;
mod norms_and_hints;

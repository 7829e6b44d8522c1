//! Tests of SHAKE, and of ML-DSA over it, on values from outside.
#![tactic(auto)]

mod accumulated;
mod hash;
mod prepared;
mod rows;
mod values;

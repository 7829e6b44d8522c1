//! Polynomials, their coefficients and hints, on values worked out from the standard's arithmetic.
#![tactic(auto)]

pub mod coefficients;
pub mod hint_parts;
pub mod lanes;
pub mod polynomials;

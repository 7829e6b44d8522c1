//! ML-DSA (FIPS 204) for C: the calls of `fips204_shake` over bytes, once for each parameter set.
//!
//! No export has a `requires`: every array may have any length, and a wrong one gives the status 3. An array
//! that a call writes is as it was after every status but 0. `c/mldsa.h` declares the exports and says what they return.
#![tactic(auto)]

pub mod callers;
pub mod der;
pub mod der_44;
pub mod der_65;
pub mod der_87;
pub mod ml_dsa_44;
pub mod ml_dsa_65;
pub mod ml_dsa_87;
pub mod numbers;
pub mod pem;
pub mod pem_44;
pub mod pem_65;
pub mod pem_87;
pub mod pieces;
pub mod pre_hash;
pub mod prepared_44;
pub mod prepared_65;
pub mod prepared_87;
pub mod sets;
pub mod statuses;
pub mod texts;

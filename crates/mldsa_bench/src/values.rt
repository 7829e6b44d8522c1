//! Recorded bytes.
#![tactic(auto)]

pub mod constant_streams;
pub mod counter_streams;

pub use counter_streams::recorded;
use hex::FromHexError;
use std::alloc::Global;

/// Whether bytes have this text in hex.
pub fn has_text(alloc: Global, bytes: &[u8], text: &str) -> Result<bool, FromHexError> {
    Ok(hex::decode(alloc, text)?.as_slice() == bytes)
}

//! The code of the pages for users, and programs that users build over the library, to be copied; and tests over SHAKE.
#![tactic(auto)]

pub mod callers;
pub mod generators;
pub mod key_store;
pub mod ledger;
pub mod licence;
pub mod manifest;
#[cfg(test)]
mod over_bytes;
#[cfg(test)]
mod over_shake;
pub mod pieces;
#[cfg(test)]
mod tests;
pub mod toy_hash;
pub mod toy_stream;
#[cfg(test)]
mod using;

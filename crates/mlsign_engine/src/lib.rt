//! The commands of `mlsign` as a library, generic over the source of a message, and the texts of keys: PEM (RFC 7468), in its strict
//! and its lax form.
#![tactic(auto)]

mod callers;
mod commands;
mod fault;
mod forms;
mod keys;
pub mod laws;
mod lax;
mod message;
pub mod pem;
mod prepared;
mod source;

pub use commands::{KeyFiles, keygen, sign, verify};
pub use fault::{CommandFault, FileFault};
pub use forms::{Form, Parts, read_key, read_private_key, read_public_key};
pub use keys::{AnyKey, KeyPair, PublicKey};
pub use lax::{from_beginning, kind_of_text, strict_form};
pub use prepared::{SigningKey, VerifyingKey};
pub use source::{Reader, Source};

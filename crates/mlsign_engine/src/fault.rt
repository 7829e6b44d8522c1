//! What is wrong with a file, and why a command ends without a result.
#![tactic(auto)]

ghost use Rattle.std.specs.Prelude.{◌≡◌};
ghost use Rattle.mlsign_engine.specs.Commands.{fault_of};
ghost use Rattle.mlsign_engine.specs.declared.fault.CommandFault.TheVariants.{Key, Memory};
ghost use Rattle.mlsign_engine.specs.declared.fault.FileFault.TheVariants as file;

use fips204_shake::der::DerFault;
use fips204_shake::{Fault, Refusal};
use std::alloc::AllocError;
use thiserror::Error;

/// Why a file could not be read: the first fault from its beginning. `Display` gives a sentence about "it", the file.
#[derive(Debug, Clone, Copy, PartialEq, Eq, Error)]
pub enum FileFault {
    /// The text does not begin as PEM does.
    #[error("it is not in PEM: no line -----BEGIN comes first")]
    NotPem,
    /// The PEM text has another label.
    #[error("it has a key of another kind, or something else than a key")]
    OtherKind,
    /// The text ends before its last line does.
    #[error("it is cut short")]
    CutShort,
    /// Something follows the text's last line.
    #[error("more follows behind its end")]
    Trailing,
    /// The lines between are not base64 in lines of 64 characters.
    #[error("its text is damaged")]
    Text,
    /// Its DER is no key's.
    #[error("{}", .0.as_str())]
    Der(DerFault),
    /// A memory allocation failed.
    #[error("out of memory")]
    Memory,
}

/// Why a command ended without a result. `Display` gives a sentence.
#[derive(Debug, Clone, Copy, PartialEq, Eq, Error)]
pub enum CommandFault {
    /// The file of a key could not be read.
    #[error("{0}")]
    Key(FileFault),
    /// A private key's parts do not belong together: its seed gives another expanded key, or an expanded key is no key, or not
    /// consistent, or has another hash of its public key.
    #[error("the private key is not consistent")]
    Inconsistent,
    /// The library could not make or use the key.
    #[error("{0}")]
    Library(Fault),
    /// The context has more than 255 bytes.
    #[error("the context has more than 255 bytes")]
    Context,
    /// A memory allocation failed.
    #[error("out of memory")]
    Memory,
    /// The message could not be read.
    #[error("the message was not read")]
    Message,
    /// A private key has no seed, and the seed is wanted.
    #[error("it has no seed: an expanded key does not reveal its seed")]
    NoSeed,
    /// A private key has a seed and an expanded key, and raw bytes hold only one of them.
    #[error("it holds a seed and an expanded key: choose one with --parts")]
    TwoParts,
}

impl From<AllocError> for FileFault {
    ghost from_gives = { λ _ fault. fault ≡ file.Memory };

    fn from(_: AllocError) -> FileFault {
        FileFault::Memory
    }
}

impl From<FileFault> for CommandFault {
    ghost from_gives = { λ fault e. e ≡ Key fault };

    fn from(fault: FileFault) -> CommandFault {
        CommandFault::Key(fault)
    }
}

impl From<Refusal> for CommandFault {
    ghost from_gives = { λ refusal e. e ≡ fault_of refusal };

    fn from(refusal: Refusal) -> CommandFault {
        match refusal {
            Refusal::Library(fault) => CommandFault::Library(fault),
            // No key here has another length than its parameter set's.
            Refusal::Length(_) => CommandFault::Inconsistent,
            // No call here takes a prepared key.
            Refusal::NotPrepared => CommandFault::Inconsistent,
        }
    }
}

impl From<AllocError> for CommandFault {
    ghost from_gives = { λ _ e. e ≡ Memory };

    fn from(_: AllocError) -> CommandFault {
        CommandFault::Memory
    }
}

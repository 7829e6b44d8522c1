//! The faults of a run.
#![tactic(auto)]

use std::alloc::{AllocError, AllocFailed};
use thiserror::Error;

/// Why a run ended without a result. `Display` gives the text that the program prints.
#[derive(Debug, Clone, Copy, PartialEq, Eq, Error)]
pub enum RunFault {
    /// The words after the program's name are not a valid command line.
    #[error("usage: mldsa sha2|fill00|fill55|fillff id|keygen|sign|verify|check|batch 44|65|87")]
    Usage,
    /// The input ended before this line.
    #[error("line {line}: missing")]
    Missing {
        line: usize,
    },
    /// The line has more than `LONGEST_LINE` characters.
    #[error("line {line}: too long")]
    TooLong {
        line: usize,
    },
    /// Not every character of the line is a hex digit, or their number is odd.
    #[error("line {line}: not hex")]
    NotHex {
        line: usize,
    },
    /// The line is hex of `has` bytes, and the command wants `wants`.
    #[error("line {line}: wants {wants} bytes, has {has}")]
    Length {
        line: usize,
        wants: usize,
        has: usize,
    },
    /// Reading from the device failed.
    #[error("read failed")]
    Read,
    /// Writing to the device failed.
    #[error("write failed")]
    Write,
    /// A memory allocation failed.
    #[error("out of memory")]
    Memory,
}

impl From<AllocError> for RunFault {
    ghost use Rattle.std.specs.Prelude.{◌≡◌};
    ghost use Rattle.mldsa_engine.specs.declared.fault.RunFault.TheVariants.{Memory};

    ghost from_gives = { λ _ fault. fault ≡ Memory };

    fn from(_: AllocError) -> RunFault {
        RunFault::Memory
    }
}

impl<T: Drop> From<AllocFailed<T>> for RunFault {
    ghost use Rattle.std.specs.Prelude.{◌≡◌};
    ghost use Rattle.mldsa_engine.specs.declared.fault.RunFault.TheVariants.{Memory};

    ghost from_gives = { λ _ fault. fault ≡ Memory };

    fn from(_: AllocFailed<T>) -> RunFault {
        RunFault::Memory
    }
}

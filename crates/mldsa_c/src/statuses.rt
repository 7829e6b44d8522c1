//! The statuses that the exports return.
#![tactic(auto)]

ghost use Rattle.std.specs.Prelude.{◌≡◌};
ghost use Rattle.mldsa_c.specs.Statuses.{refusal_status, done_status, answer_status, accepted};

use crate::numbers::{DONE, NO, NOT_PREPARED, WRONG_LENGTH, status_of};
use fips204_shake::bytes::Refusal;

/// A slice as an array of this length; the function around it returns `WRONG_LENGTH` for a slice of another.
macro_rules! checked_array {
    ($slice:ident, $length:literal) => {
        match $slice.as_array::<$length>() {
            Some(array) => array,
            None => return WRONG_LENGTH,
        }
    };
}

pub(crate) use checked_array;

/// The status of an error.
pub(crate) fn status_of_refusal(refusal: Refusal) -> u32
    ensures { result ≡ refusal_status refusal }
{
    match refusal {
        Refusal::Length(_) => WRONG_LENGTH,
        Refusal::Library(fault) => status_of(fault),
        Refusal::NotPrepared => NOT_PREPARED,
    }
}

/// The status of a call that writes.
pub(crate) fn status(answer: Result<(), Refusal>) -> u32
    ensures { result ≡ done_status answer }
{
    match answer {
        Ok(()) => DONE,
        Err(refusal) => status_of_refusal(refusal),
    }
}

/// The status of a result of a question.
pub(crate) fn verdict_status(answer: Result<bool, Refusal>) -> u32
    ensures { result ≡ answer_status answer }
{
    match answer {
        Ok(true) => DONE,
        Ok(false) => NO,
        Err(refusal) => status_of_refusal(refusal),
    }
}

/// 1 for the status of yes, and 0 for every other one.
pub(crate) fn accepted(status: u32) -> u32
    ensures { result ≡ accepted status }
{
    if status == DONE { 1 } else { 0 }
}

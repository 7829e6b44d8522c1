//! Exports that all sets share.
#![tactic(auto)]

ghost use Rattle.std.specs.Prelude.{◌≡◌};
ghost use Rattle.mldsa_c.specs.Calls.{CheckPreHashAnswers};

use crate::numbers::{DONE, status_of};
use fips204::check_pre_hash;

/// Tells whether a digest and the object identifier of its hash function can be signed.
#[unsafe(no_mangle)]
pub extern "C" fn mldsa_check_pre_hash(digest: &[u8], oid: &[u8]) -> u32
    ensures { CheckPreHashAnswers digest.now oid.now result }
{
    match check_pre_hash(digest, oid) {
        Ok(()) => DONE,
        Err(fault) => status_of(fault),
    }
}

/// The version of the library: 65536 times the first number, 256 times the second, and the third.
#[unsafe(no_mangle)]
pub extern "C" fn mldsa_version() -> u32
    ensures { result ≡ 512 }
{
    512
}

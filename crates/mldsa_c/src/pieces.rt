//! A message in pieces: a state in the caller's bytes, which any bytes may stand in.
#![tactic(auto)]

ghost use Rattle.fips204.specs.ParameterSets.{public_key_length, private_key_length};
ghost use Rattle.fips204.specs.Sets.{named_set};
ghost use Rattle.fips204_shake.specs.Mu.{tr_of_private, tr_of_public};
ghost use Rattle.fips204_shake.specs.Fronts.{shake256_front};
ghost use Rattle.mldsa_c.specs.Pieces.{Begins, Updates, Finishes};

use crate::numbers::{BROKEN_STATE, DONE, WRONG_LENGTH};
use crate::statuses::status_of_refusal;
use fips204_shake::SetName;
use fips204_shake::pieces::{MessageHasher, SAVED_LEN};

/// Begins a message that a public key is to verify.
pub(crate) fn begin(set: SetName, public_key: &[u8], context: &[u8], state: &mut [u8]) -> u32
    ensures { Begins (public_key_length (named_set set)) public_key.now (tr_of_public shake256_front public_key.now) context.now state.old state.new result }
{
    if state.len() != SAVED_LEN {
        return WRONG_LENGTH;
    }
    match MessageHasher::for_public_key(set, public_key, context) {
        Ok(hasher) => {
            hasher.save(state);
            DONE
        }
        Err(refusal) => status_of_refusal(refusal),
    }
}

/// Begins a message that a private key is to sign.
pub(crate) fn begin_private(
    set: SetName,
    private_key: &[u8],
    context: &[u8],
    state: &mut [u8],
) -> u32
    ensures { Begins (private_key_length (named_set set)) private_key.now (tr_of_private private_key.now) context.now state.old state.new result }
{
    if state.len() != SAVED_LEN {
        return WRONG_LENGTH;
    }
    match MessageHasher::for_private_key(set, private_key, context) {
        Ok(hasher) => {
            hasher.save(state);
            DONE
        }
        Err(refusal) => status_of_refusal(refusal),
    }
}

/// Adds a piece to the end of a message.
#[unsafe(no_mangle)]
pub extern "C" fn mldsa_mu_update(piece: &[u8], state: &mut [u8]) -> u32
    ensures { Updates state.old state.new piece.now result }
{
    let Some(saved) = state.as_array::<337>() else {
        return WRONG_LENGTH;
    };
    let Some(mut hasher) = MessageHasher::restore(saved) else {
        return BROKEN_STATE;
    };
    hasher.update(piece);
    hasher.save(state);
    DONE
}

/// Writes the hash mu of a message.
#[unsafe(no_mangle)]
pub extern "C" fn mldsa_mu_finish(state: &[u8], mu: &mut [u8]) -> u32
    ensures { Finishes state.now mu.old mu.new result }
{
    if mu.len() != 64 {
        return WRONG_LENGTH;
    }
    let Some(saved) = state.as_array::<337>() else {
        return WRONG_LENGTH;
    };
    let Some(hasher) = MessageHasher::restore(saved) else {
        return BROKEN_STATE;
    };
    mu.copy_from_slice(&hasher.finalize());
    DONE
}

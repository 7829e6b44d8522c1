//! The calls over bytes, as docs/USING.md shows them: over SHAKE, with no type of a key and no XOF.
#![tactic(auto)]

use fips204_shake::ml_dsa_65::{PK_LEN, SIG_LEN, SK_LEN};
use fips204_shake::{Buffer, Fault, Input, MlDsa65, Refusal};
use std::test::Fail;

/// Both keys of a seed, as bytes to store.
fn stored(seed: &[u8; 32]) -> Result<([u8; PK_LEN], [u8; SK_LEN]), Refusal> {
    let (mut public_key, mut private_key) = ([0; PK_LEN], [0; SK_LEN]);
    MlDsa65::keygen(seed, &mut public_key, &mut private_key)?;
    Ok((public_key, private_key))
}

/// Signs a message under a context with a stored key.
fn signed(private_key: &[u8], random: &[u8; 32], message: &[u8]) -> Result<[u8; SIG_LEN], Refusal> {
    let mut signature = [0; SIG_LEN];
    let input = Input::Message(message, b"a page of documentation");
    MlDsa65::sign(private_key, random, &input, &mut signature)?;
    Ok(signature)
}

/// Whether a stored key accepts the signature of a message under a context.
fn verified(public_key: &[u8], message: &[u8], signature: &[u8]) -> Result<bool, Refusal> {
    let input = Input::Message(message, b"a page of documentation");
    MlDsa65::verify(public_key, &input, signature)
}

/// A stored key accepts what the other signed, and no other message; a key that is cut off is rejected for its length,
/// and bytes that are no private key for their range.
#[test]
fn a_stored_pair_over_bytes(rt: HostRuntime) -> Result<(), Fail> {
    let (public_key, private_key) = stored(&[7; 32])?;
    let signature = signed(&private_key, &[9; 32], b"a message")?;
    assert!(rt; verified(&public_key, b"a message", &signature)?);
    assert!(rt; !verified(&public_key, b"another", &signature)?);
    let cut = verified(&public_key[1..], b"a message", &signature);
    assert!(rt; cut == Err(Refusal::Length(Buffer::PublicKey)));
    let no_key = signed(&[0xff; SK_LEN], &[9; 32], b"a message");
    assert!(rt; no_key == Err(Refusal::Library(Fault::KeyRange)));
    Ok(())
}

//! Messages in two pieces, and signatures of files.
#![tactic(auto)]

use super::pair;
use crate::pieces::{CONTEXT, accepts_joined, signature_of, signed_joined};
use fips204::ml_dsa_44::SIG_LEN;
use fips204::traits::{DummyRng, Signer};
use std::test::Fail;

/// A message in pieces is signed as the whole, and verifies however it is cut in two, and not with other pieces.
#[test]
fn a_message_in_pieces(rt: HostRuntime) -> Result<(), Fail> {
    let (key, owner) = pair(7)?;
    let signature = owner.try_sign_with_seed(&[3; 32], b"a long message", CONTEXT)?;
    let mut rng = DummyRng { bytes: [3; 32] };
    assert!(rt; signed_joined(&owner, &mut rng, b"a long ", b"message")? == signature);
    assert!(rt; signed_joined(&owner, &mut rng, b"a long ", b"massage")? != signature);
    assert!(rt; accepts_joined(&key, b"a long ", b"message", &signature));
    assert!(rt; accepts_joined(&key, b"", b"a long message", &signature));
    assert!(rt; !accepts_joined(&key, b"a long ", b"massage", &signature));
    assert!(rt; !accepts_joined(&key, b"message", b"a long ", &signature));
    Ok(())
}

/// The bytes of a file are a signature if they are as many as one has.
#[test]
fn a_signature_in_a_file(rt: HostRuntime) {
    let signature = [7; SIG_LEN];
    let longer = signature_of(&[0; SIG_LEN + 1]);
    let answers = [
        signature_of(&signature),
        signature_of(&signature[1..]),
        longer,
    ];
    assert!(rt; answers == [Some(signature), None, None]);
}

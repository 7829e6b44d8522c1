//! Prepared keys in the caller's bytes.
#![tactic(auto)]

ghost use Rattle.std.specs.Prelude.{◌≤◌};

use fips204_shake::{AnySet, Input, Refusal, SetName, ml_dsa_44, ml_dsa_65, ml_dsa_87};
use std::test::Fail;

/// With the keys of one seed: whether the prepared key signs as the plain one does, whether its public key accepts that, whether
/// it rejects another message, and whether bytes with words above `q` are no prepared keys.
fn answers<
    const PK: usize,
    const SK: usize,
    const SIG: usize,
    const PREPARED_PK: usize,
    const PREPARED_SK: usize,
>(set: SetName) -> Result<[bool; 5], Refusal>
    requires sizes { (PK ≤ 65536) × (SK ≤ 65536) × (SIG ≤ 65536) × (PREPARED_PK ≤ 65536) × (PREPARED_SK ≤ 65536) }
{
    let (mut public_key, mut private_key) = ([0; PK], [0; SK]);
    AnySet::keygen(set, &[3; 32], &mut public_key, &mut private_key)?;
    let mut checks = [0; PREPARED_PK];
    let mut signs = [0; PREPARED_SK];
    AnySet::prepare_public_key(set, &public_key, &mut checks)?;
    AnySet::prepare_private_key(set, &private_key, &mut signs)?;
    let (mut plain, mut prepared) = ([0; SIG], [0; SIG]);
    let input = Input::Message(b"a message", b"a context");
    AnySet::sign(set, &private_key, &[9; 32], &input, &mut plain)?;
    AnySet::sign_prepared(set, &signs, &[9; 32], &input, &mut prepared)?;
    let other = Input::Message(b"another message", b"a context");
    let refused = Err(Refusal::NotPrepared);
    let broken = AnySet::verify_prepared(set, &[0xff; PREPARED_PK], &input, &prepared);
    Ok([
        plain == prepared,
        AnySet::verify_prepared(set, &checks, &input, &prepared)?,
        !AnySet::verify_prepared(set, &checks, &other, &prepared)?,
        broken == refused,
        AnySet::sign_prepared(set, &[0xff; PREPARED_SK], &[9; 32], &input, &mut plain)
            == Err(Refusal::NotPrepared),
    ])
}

/// Prepared keys of ML-DSA-44 work as the plain ones.
#[test]
fn prepared_44(rt: HostRuntime) -> Result<(), Fail> {
    let found = answers::<
        { ml_dsa_44::PK_LEN },
        { ml_dsa_44::SK_LEN },
        { ml_dsa_44::SIG_LEN },
        { ml_dsa_44::PREPARED_PK_LEN },
        { ml_dsa_44::PREPARED_SK_LEN },
    >(SetName::MlDsa44)?;
    assert!(rt; found == [true; 5]);
    Ok(())
}

/// Prepared keys of ML-DSA-65 work as the plain ones.
#[test]
fn prepared_65(rt: HostRuntime) -> Result<(), Fail> {
    let found = answers::<
        { ml_dsa_65::PK_LEN },
        { ml_dsa_65::SK_LEN },
        { ml_dsa_65::SIG_LEN },
        { ml_dsa_65::PREPARED_PK_LEN },
        { ml_dsa_65::PREPARED_SK_LEN },
    >(SetName::MlDsa65)?;
    assert!(rt; found == [true; 5]);
    Ok(())
}

/// Prepared keys of ML-DSA-87 work as the plain ones.
#[test]
fn prepared_87(rt: HostRuntime) -> Result<(), Fail> {
    let found = answers::<
        { ml_dsa_87::PK_LEN },
        { ml_dsa_87::SK_LEN },
        { ml_dsa_87::SIG_LEN },
        { ml_dsa_87::PREPARED_PK_LEN },
        { ml_dsa_87::PREPARED_SK_LEN },
    >(SetName::MlDsa87)?;
    assert!(rt; found == [true; 5]);
    Ok(())
}

//! The digest of many key pairs and signatures, as C2SP publishes it.
#![tactic(auto)]

ghost use Rattle.std.specs.Prelude.{◌<◌, ◌^◌};

use super::values::ACCUMULATED;
use fips204_shake::traits::{KeyGen, SerDes, Signer, Verifier};
use fips204_shake::{Fault, ml_dsa_44, ml_dsa_65, ml_dsa_87};
use shake::Shake128;
use std::alloc::Global;
use std::test::Fail;

/// The digest of 100 public keys and signatures, and whether all of these signatures are accepted.
fn accumulated<K, const PK: usize, const SIG: usize>() -> Result<([u8; 32], bool), Fault>
where
    K: KeyGen,
    K::PublicKey: SerDes<ByteArray = [u8; PK]> + Drop,
    K::PrivateKey: Signer<Signature = [u8; SIG]> + Drop,
    requires { (PK < 2 ^ 63) × (SIG < 2 ^ 63) }
{
    let mut seeds = Shake128::new().finalize_xof();
    let mut hasher = Shake128::new();
    let mut accepted = true;
    for _ in 0..100 {
        let mut seed = [0u8; 32];
        seeds.read(&mut seed);
        let (public, private) = K::keygen_from_seed(&seed)?;
        let signature = private.try_sign_with_seed(&[0; 32], b"", b"")?;
        if !public.verify(b"", &signature, b"") {
            accepted = false;
        }
        hasher.update(&public.into_bytes());
        hasher.update(&signature);
    }
    let mut digest = [0u8; 32];
    hasher.finalize_xof().read(&mut digest);
    Ok((digest, accepted))
}

/// Whether the digest is the published one, and all signatures are accepted.
fn is_published(
    alloc: Global,
    given: Result<([u8; 32], bool), Fault>,
    number: usize,
) -> Result<bool, Fail>
    requires { number < 3 }
{
    let (digest, accepted) = given?;
    Ok(accepted && hex::encode(alloc, &digest)?.as_str() == ACCUMULATED[number])
}

/// 100 key pairs and signatures of ML-DSA-44.
#[test]
fn accumulated_44(rt: HostRuntime) -> Result<(), Fail> {
    let given = accumulated::<ml_dsa_44::KG, 1312, 2420>();
    assert!(rt; is_published(rt.alloc(), given, 0)?);
    Ok(())
}

/// 100 key pairs and signatures of ML-DSA-65.
#[test]
fn accumulated_65(rt: HostRuntime) -> Result<(), Fail> {
    let given = accumulated::<ml_dsa_65::KG, 1952, 3309>();
    assert!(rt; is_published(rt.alloc(), given, 1)?);
    Ok(())
}

/// 100 key pairs and signatures of ML-DSA-87.
#[test]
fn accumulated_87(rt: HostRuntime) -> Result<(), Fail> {
    let given = accumulated::<ml_dsa_87::KG, 2592, 4627>();
    assert!(rt; is_published(rt.alloc(), given, 2)?);
    Ok(())
}

//! Key pairs and signatures that the Rust crate gives over another SHAKE.
#![tactic(auto)]

ghost use Rattle.std.specs.Prelude.{◌<◌, ◌^◌};

use super::values::{BROWSER, ROWS_44, ROWS_65, ROWS_87};
use fips204_shake::traits::{KeyGen, SerDes, Signer, Verifier};
use fips204_shake::{Fault, ml_dsa_44, ml_dsa_65, ml_dsa_87};
use rand_chacha::ChaCha8Rng;
use rand_core::{Rng, SeedableRng};
use sha2::{Digest, Sha256};
use std::alloc::Global;
use std::test::Fail;

/// The SHA-256 of bytes.
fn sha256(bytes: &[u8]) -> [u8; 32] {
    Sha256::digest(bytes)
}

/// The SHA-256 of the public key of a seed, of its private key, and of its signature; and whether the signature is accepted.
fn hashes<K, const PK: usize, const SK: usize, const SIG: usize>(
    seed: &[u8; 32],
    random: &[u8; 32],
    context: &[u8],
    message: &[u8],
) -> Result<([[u8; 32]; 3], bool), Fault>
where
    K: KeyGen,
    K::PublicKey: SerDes<ByteArray = [u8; PK]> + Drop,
    K::PrivateKey: SerDes<ByteArray = [u8; SK]> + Signer<Signature = [u8; SIG]> + Drop,
    requires { (PK < 2 ^ 63) × (SK < 2 ^ 63) × (SIG < 2 ^ 63) }
{
    let (public, private) = K::keygen_from_seed(seed)?;
    let signature = private.try_sign_with_seed(random, message, context)?;
    let accepted = public.verify(message, &signature, context);
    let hashes = [
        sha256(&public.into_bytes()),
        sha256(&private.into_bytes()),
        sha256(&signature),
    ];
    Ok((hashes, accepted))
}

/// The bytes of a text of five times 64 digits.
fn bytes(text: &str) -> Result<[[u8; 32]; 5], Fail> {
    let mut bytes = [[0u8; 32]; 5];
    for i in 0..5 {
        let digits = text.get(64 * i..64 * i + 64).unwrap_or("");
        hex::decode_to_slice(digits, &mut bytes[i])?;
    }
    Ok(bytes)
}

/// Whether a row is what the set gives, and its signature is accepted.
fn is_given<K, const PK: usize, const SK: usize, const SIG: usize>(
    alloc: Global,
    row: &str,
) -> Result<bool, Fail>
where
    K: KeyGen,
    K::PublicKey: SerDes<ByteArray = [u8; PK]> + Drop,
    K::PrivateKey: SerDes<ByteArray = [u8; SK]> + Signer<Signature = [u8; SIG]> + Drop,
    requires { (PK < 2 ^ 63) × (SK < 2 ^ 63) × (SIG < 2 ^ 63) }
{
    let (fixed, spoken) = row.split_once(' ').unwrap_or(("", ""));
    let (context, message) = spoken.split_once(' ').unwrap_or(("", ""));
    let context = hex::decode(alloc, context)?;
    let message = hex::decode(alloc, message)?;
    let [seed, random, public, private, signature] = bytes(fixed)?;
    let given = hashes::<K, PK, SK, SIG>(&seed, &random, context.as_slice(), message.as_slice())?;
    Ok(given == ([public, private, signature], true))
}

/// The rows of ML-DSA-44.
#[test]
fn rows_of_44(rt: HostRuntime) -> Result<(), Fail> {
    for row in &ROWS_44 {
        assert!(rt; is_given::<ml_dsa_44::KG, 1312, 2560, 2420>(rt.alloc(), row)?);
    }
    Ok(())
}

/// The rows of ML-DSA-65.
#[test]
fn rows_of_65(rt: HostRuntime) -> Result<(), Fail> {
    for row in &ROWS_65 {
        assert!(rt; is_given::<ml_dsa_65::KG, 1952, 4032, 3309>(rt.alloc(), row)?);
    }
    Ok(())
}

/// The rows of ML-DSA-87.
#[test]
fn rows_of_87(rt: HostRuntime) -> Result<(), Fail> {
    for row in &ROWS_87 {
        assert!(rt; is_given::<ml_dsa_87::KG, 2592, 4896, 4627>(rt.alloc(), row)?);
    }
    Ok(())
}

/// The published pair and signature of the message `asdf`, drawn from a generator of the kit.
#[test]
fn test_browser_message(rt: HostRuntime) -> Result<(), Fail> {
    let mut generator = ChaCha8Rng::seed_from_u64(123);
    let (mut seed, mut random) = ([0u8; 32], [0u8; 32]);
    generator.fill_bytes(&mut seed);
    generator.fill_bytes(&mut random);
    let given = hashes::<ml_dsa_44::KG, 1312, 2560, 2420>(&seed, &random, b"", b"asdf");
    let [public, private, signature, ..] = bytes(BROWSER)?;
    assert_eq!(rt; given, Ok(([public, private, signature], true)));
    Ok(())
}

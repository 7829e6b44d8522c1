//! The calls of the library one after the other, as docs/USING.md shows them.
#![tactic(auto)]

ghost use Rattle.std.specs.Prelude.{◌≡◌, true, Ok, Err, IfOk, MatchResult};
ghost use Rattle.fips204.specs.Framing.{plain};

use fips204::ml_dsa_44::{self, PK_LEN, SIG_LEN, SK_LEN};
use fips204::pre_hash::SHA2_256;
use fips204::traits::{CryptoRngCore, DummyRng, KeyGen, SerDes, Signer, Verifier};
use fips204::xof::{Sha256Ctr, Sha512Ctr};
use fips204::{Fault, ml_dsa_65, ml_dsa_87};
use sha2::{Digest, Sha256};
use std::test::Fail;

/// The pairs of ML-DSA-44 over two XOFs.
type Keys = ml_dsa_44::KG<Sha256Ctr, Sha512Ctr>;

/// The public key of such a pair.
type Public = ml_dsa_44::PublicKey<Sha256Ctr, Sha512Ctr>;

/// The private key of such a pair.
type Private = ml_dsa_44::PrivateKey<Sha256Ctr, Sha512Ctr>;

/// What the signatures here are for.
const CONTEXT: &[u8] = b"a page of documentation";

/// Both keys of a seed, as bytes to store.
fn stored(seed: &[u8; 32]) -> Result<([u8; PK_LEN], [u8; SK_LEN]), Fault> {
    let (public, private) = Keys::keygen_from_seed(seed)?;
    Ok((public.into_bytes(), private.into_bytes()))
}

/// Signs with a stored key and these random bytes.
fn signed(key: [u8; SK_LEN], random: &[u8; 32], message: &[u8]) -> Result<[u8; SIG_LEN], Fault> {
    let private = Private::try_from_bytes(key)?;
    private.try_sign_with_seed(random, message, CONTEXT)
}

/// Signs with a stored key and random bytes of a generator.
fn signed_at_random<R: CryptoRngCore>(
    key: [u8; SK_LEN],
    rng: &mut R,
    message: &[u8],
) -> Result<[u8; SIG_LEN], Fault> {
    let private = Private::try_from_bytes(key)?;
    private.try_sign_with_rng(rng, message, CONTEXT)
}

/// Whether the signature of a message is accepted by a stored key.
fn verified(key: [u8; PK_LEN], message: &[u8], signature: &[u8; SIG_LEN]) -> Result<bool, Fault> {
    let public = Public::try_from_bytes(key)?;
    Ok(public.verify(message, signature, CONTEXT))
}

/// Signs the SHA-256 digest of a file in place of the file.
fn signed_file(key: &Private, random: &[u8; 32], file: &[u8]) -> Result<[u8; SIG_LEN], Fault> {
    let digest = Sha256::digest(file);
    key.try_hash_sign_with_seed(random, digest.as_slice(), CONTEXT, &SHA2_256)
}

/// Whether the signature of the digest of a file is accepted.
fn verified_file(key: &Public, file: &[u8], signature: &[u8; SIG_LEN]) -> bool {
    let digest = Sha256::digest(file);
    key.hash_verify(digest.as_slice(), signature, CONTEXT, &SHA2_256)
}

/// Signs three messages and verifies them, each key prepared once.
fn three(
    public: &Public,
    private: &Private,
    seeds: &[[u8; 32]; 3],
    messages: &[&[u8]; 3],
) -> Result<[bool; 3], Fault> {
    let signer = private.prepare()?;
    let mut answers = [Err(Fault::SamplingLimit); 3];
    signer.sign_each(seeds, messages, CONTEXT, &mut answers);
    let signatures = [answers[0]?, answers[1]?, answers[2]?];
    let verifier = public.prepare()?;
    let mut verdicts = [false; 3];
    verifier.verify_each(messages, &signatures, CONTEXT, &mut verdicts);
    Ok(verdicts)
}

/// Signs a message with a stored key of any of the three sets, and verifies the signature under the public key
/// derived from it. The signature of a consistent key is accepted.
fn stands<K, const SK: usize, const SIG: usize>(
    key: [u8; SK],
    random: &[u8; 32],
    message: &[u8],
) -> Result<bool, Fault>
where
    K: SerDes<ByteArray = [u8; SK]> + Signer<Signature = [u8; SIG]> + Drop,
    K::PublicKey: Drop,
    ensures { ((private : K) → K.decodes key.entry (Ok private) → K.whole private) → IfOk result (λ answer. answer ≡ true) }
{
    let private = K::try_from_bytes(key)?;
    let signature = private.try_sign_with_seed(random, message, CONTEXT)?;
    let public = private.get_public_key()?;
    Ok(public.verify(message, &signature, CONTEXT))
}

/// Makes the pair of a seed at any of the three sets, keeps both keys as bytes, reads them back, signs with the one and
/// verifies with the other. Keeping them adds no error, and the result is never false.
fn stands_when_stored<K, const PK: usize, const SK: usize, const SIG: usize>(
    seed: &[u8; 32],
    random: &[u8; 32],
    message: &[u8],
) -> Result<bool, Fault>
where
    K: KeyGen,
    K::PublicKey: SerDes<ByteArray = [u8; PK]> + Drop,
    K::PrivateKey: SerDes<ByteArray = [u8; SK]> + Signer<Signature = [u8; SIG]> + Drop,
    ensures { MatchResult (K.generated seed.now)
        (λ keys. MatchResult (K.PrivateKey.signs keys.1 random.now (plain message.now CONTEXT.now))
        (λ _. result ≡ Ok true) (λ fault. result ≡ Err fault))
        (λ fault. result ≡ Err fault) }
{
    let (public, private) = K::keygen_from_seed(seed)?;
    let (public, private) = (public.into_bytes(), private.into_bytes());
    let private = K::PrivateKey::try_from_bytes(private)?;
    let signature = private.try_sign_with_seed(random, message, CONTEXT)?;
    let public = K::PublicKey::try_from_bytes(public)?;
    Ok(public.verify(message, &signature, CONTEXT))
}

/// The bytes of the private key of a seed, for any of the three sets.
fn private_bytes<K>(seed: &[u8; 32]) -> Result<<K::PrivateKey as SerDes>::ByteArray, Fault>
where
    K: KeyGen,
    K::PublicKey: Drop,
    K::PrivateKey: Drop,
{
    let (_, private) = K::keygen_from_seed(seed)?;
    Ok(private.into_bytes())
}

/// A signature under a key read back from its bytes is accepted, and rejected for another message; a generator signs as
/// its bytes do, and as no others.
#[test]
fn a_stored_pair(rt: HostRuntime) -> Result<(), Fail> {
    let (public, private) = stored(&[7; 32])?;
    let signature = signed(private, &[9; 32], b"a message")?;
    let drawn = signed_at_random(private, &mut DummyRng { bytes: [9; 32] }, b"a message")?;
    assert!(rt; verified(public, b"a message", &signature)?);
    assert!(rt; !verified(public, b"another", &signature)?);
    assert!(rt; drawn == signature && drawn != signed(private, &[0; 32], b"a message")?);
    Ok(())
}

/// What is signed here is signed under the context of the page.
#[test]
fn a_context(rt: HostRuntime) -> Result<(), Fail> {
    let (public, private) = Keys::keygen_from_seed(&[7; 32])?;
    let signature = signed(private.into_bytes(), &[0; 32], b"a message")?;
    assert!(rt; public.verify(b"a message", &signature, b"a page of documentation"));
    assert!(rt; !public.verify(b"a message", &signature, b""));
    Ok(())
}

/// The signature of a file's digest is accepted, and rejected for another file and for an empty one.
#[test]
fn a_signed_file(rt: HostRuntime) -> Result<(), Fail> {
    let (public, private) = Keys::keygen_from_seed(&[7; 32])?;
    let signature = signed_file(&private, &[0; 32], b"a file")?;
    assert!(rt; verified_file(&public, b"a file", &signature));
    assert!(rt; !verified_file(&public, b"another", &signature));
    assert!(rt; !verified_file(&public, b"", &signature));
    Ok(())
}

/// Three messages under prepared keys, one of them empty, are accepted, and rejected under another public key.
#[test]
fn three_messages(rt: HostRuntime) -> Result<(), Fail> {
    let ((public, private), (other, _)) = (
        Keys::keygen_from_seed(&[7; 32])?,
        Keys::keygen_from_seed(&[8; 32])?,
    );
    let (seeds, messages) = (
        &[[1; 32], [2; 32], [3; 32]],
        &[b"one".as_slice(), b"two", b""],
    );
    assert!(rt; three(&public, &private, seeds, messages)? == [true; 3]);
    assert!(rt; three(&other, &private, seeds, messages)? == [false; 3]);
    Ok(())
}

/// A key whose t0 has other bits in its first polynomial is not consistent, and this signature of it is not accepted.
#[test]
fn a_key_that_is_not_whole(rt: HostRuntime) -> Result<(), Fail> {
    let mut key = private_bytes::<Keys>(&[7; 32])?;
    for byte in &mut key[896..1312] {
        *byte ^= 0xff;
    }
    assert!(rt; !stands::<Private, _, _>(key, &[0; 32], b"a message")?);
    Ok(())
}

/// One generic function signs and verifies at each set with a key read back from its bytes.
#[test]
fn one_function_at_three_sets(rt: HostRuntime) -> Result<(), Fail> {
    let key = private_bytes::<Keys>(&[7; 32])?;
    assert!(rt; stands::<Private, _, _>(key, &[0; 32], b"a message")?);
    let key = private_bytes::<ml_dsa_65::KG<Sha256Ctr, Sha512Ctr>>(&[7; 32])?;
    let stands_65 = stands::<ml_dsa_65::PrivateKey<Sha256Ctr, Sha512Ctr>, _, _>;
    assert!(rt; stands_65(key, &[0; 32], b"a message")?);
    let key = private_bytes::<ml_dsa_87::KG<Sha256Ctr, Sha512Ctr>>(&[7; 32])?;
    let stands_87 = stands::<ml_dsa_87::PrivateKey<Sha256Ctr, Sha512Ctr>, _, _>;
    assert!(rt; stands_87(key, &[0; 32], b"a message")?);
    Ok(())
}

/// One generic function makes, stores, reads back, signs and verifies at each set.
#[test]
fn stored_at_three_sets(rt: HostRuntime) -> Result<(), Fail> {
    let stands_65 = stands_when_stored::<ml_dsa_65::KG<Sha256Ctr, Sha512Ctr>, _, _, _>;
    let stands_87 = stands_when_stored::<ml_dsa_87::KG<Sha256Ctr, Sha512Ctr>, _, _, _>;
    let stands = [
        stands_when_stored::<Keys, _, _, _>(&[7; 32], &[0; 32], b"a message")?,
        stands_65(&[7; 32], &[0; 32], b"a message")?,
        stands_87(&[7; 32], &[0; 32], b"a message")?,
    ];
    assert!(rt; stands == [true; 3]);
    Ok(())
}

//! Every call of the keys of a set, plain and prepared, behind traits: a suite is written once, over these.
#![tactic(auto)]

ghost use Rattle.std.proofs.Common.{rules};
ghost use Rattle.std.specs.Prelude.{◌<◌, ◌^◌};

use crate::values::constant_streams::{
    private_44, private_65, private_87, public_44, public_65, public_87, signature_44,
    signature_65, signature_87,
};
use crate::values::has_text;
use fips204::ml_dsa_44::{self, MlDsa44};
use fips204::ml_dsa_65::{self, MlDsa65};
use fips204::ml_dsa_87::{self, MlDsa87};
use fips204::sets::{HasSet, KeySizes, Matrix, Set, SignatureSizes};
use fips204::traits::{CryptoRngCore, KeyGen, SerDes, Signer, Verifier};
use fips204::types::{KG, PreparedPrivateKey, PreparedPublicKey, PrivateKey, PublicKey};
use fips204::xof::{Fill, Xof};
use fips204::{Fault, Input, ml_dsa};
use std::alloc::Global;
use std::fmt::Debug;
use std::process::Abort;
use std::test::Fail;

/// A public key and a private key, plain or prepared.
pub trait Keys<S>: Sized {
    /// Signs with these random bytes, M' and mu by `sign_input`.
    fn seeded(&self, seed: &[u8; 32], input: &Input) -> Result<S, Fault>;

    /// Signs with random bytes of a generator; a hook that is not hedged draws none.
    fn drawn<R: CryptoRngCore>(&self, rng: &mut R, hedged: bool, input: &Input) -> Result<S, Fault>;

    /// Whether a signature is accepted.
    fn accepts(&self, input: &Input, signature: &S) -> bool;
}

type Signed<const SIG_LEN: usize> = Result<[u8; SIG_LEN], Fault>;

type Plain<const K: usize, const L: usize, H, G> = (PublicKey<K, L, H, G>, PrivateKey<K, L, H, G>);

type Prepared<const K: usize, const L: usize, H> = (
    PreparedPublicKey<K, L, H>,
    PreparedPrivateKey<K, L, H>,
);

impl<S, const K: usize, const L: usize, const SIG_LEN: usize, H: Xof, G: Xof> Keys<[u8; SIG_LEN]>
    for Plain<K, L, H, G>
where
    Matrix<K, L>: HasSet<Set = S>,
    S: Set<Signature = [u8; SIG_LEN]> + SignatureSizes<K, L, SIG_LEN>,
{
    fn seeded(&self, seed: &[u8; 32], input: &Input) -> Signed<SIG_LEN> {
        match *input {
            Input::Message(message, ctx) => self.1.try_sign_with_seed(seed, message, ctx),
            Input::Digest(hash, ctx, oid) => {
                self.1.try_hash_sign_with_seed(seed, hash, ctx, oid)
            }
            _ => self.1.sign_input(seed, input),
        }
    }

    fn drawn<R: CryptoRngCore>(&self, rng: &mut R, hedged: bool, input: &Input) -> Signed<SIG_LEN> {
        match *input {
            Input::Message(message, ctx) => self.1.try_sign_with_rng(rng, message, ctx),
            Input::Digest(hash, ctx, oid) => self.1.try_hash_sign_with_rng(rng, hash, ctx, oid),
            Input::Framed(m) => self.1.sign_internal(rng, m, hedged),
            Input::Mu(mu) => self.1.sign_mu(rng, mu, hedged),
        }
    }

    fn accepts(&self, input: &Input, signature: &[u8; SIG_LEN]) -> bool {
        match *input {
            Input::Message(message, ctx) => self.0.verify(message, signature, ctx),
            Input::Digest(hash, ctx, oid) => self.0.hash_verify(hash, signature, ctx, oid),
            Input::Framed(m) => self.0.verify_internal(m, signature),
            Input::Mu(mu) => self.0.verify_mu(mu, signature),
        }
    }
}

impl<S, const K: usize, const L: usize, const SIG_LEN: usize, H: Xof> Keys<[u8; SIG_LEN]>
    for Prepared<K, L, H>
where
    Matrix<K, L>: HasSet<Set = S>,
    S: Set<Signature = [u8; SIG_LEN]> + SignatureSizes<K, L, SIG_LEN>,
{
    fn seeded(&self, seed: &[u8; 32], input: &Input) -> Signed<SIG_LEN> {
        match *input {
            Input::Message(message, ctx) => self.1.try_sign_with_seed(seed, message, ctx),
            Input::Digest(hash, ctx, oid) => {
                self.1.try_hash_sign_with_seed(seed, hash, ctx, oid)
            }
            _ => self.1.sign_input(seed, input),
        }
    }

    fn drawn<R: CryptoRngCore>(&self, rng: &mut R, hedged: bool, input: &Input) -> Signed<SIG_LEN> {
        match *input {
            Input::Message(message, ctx) => self.1.try_sign_with_rng(rng, message, ctx),
            Input::Digest(hash, ctx, oid) => self.1.try_hash_sign_with_rng(rng, hash, ctx, oid),
            Input::Framed(m) => self.1.sign_internal(rng, m, hedged),
            Input::Mu(mu) => self.1.sign_mu(rng, mu, hedged),
        }
    }

    fn accepts(&self, input: &Input, signature: &[u8; SIG_LEN]) -> bool {
        match *input {
            Input::Message(message, ctx) => self.0.verify(message, signature, ctx),
            Input::Digest(hash, ctx, oid) => self.0.hash_verify(hash, signature, ctx, oid),
            Input::Framed(m) => self.0.verify_internal(m, signature),
            Input::Mu(mu) => self.0.verify_mu(mu, signature),
        }
    }
}

/// The calls that make a pair from what a generator returns: that of the trait `KeyGen`, the function of the set, and
/// the function that the sets share.
#[derive(Clone, Copy)]
pub enum PairCall {
    OfTrait,
    OfSet,
    Shared,
}

/// Messages of several lengths.
pub const MESSAGES: [&[u8]; 5] = [b"", b"a", b"abc", b"another", &[7; 300]];

/// Random bytes for each, no two alike.
pub const SEEDS: [[u8; 32]; 5] = [[0; 32], [1; 32], [2; 32], [3; 32], [0xff; 32]];

/// Whether a result is this value, or its error.
pub fn is_same<T: PartialEq + Drop>(answer: Result<T, Fault>, wanted: &T) -> Result<bool, Fault> {
    Ok(answer? == *wanted)
}

/// Changes bits of a byte, if there is one at this place.
pub fn change(bytes: &mut [u8], at: usize, bits: u8) {
    if let Some(byte) = bytes.get_mut(at) {
        *byte ^= bits;
    }
}

/// What is a set's own: its keys and signature where every byte of `H` is 55 and every byte of `G` is 00, and its
/// function that draws a pair.
pub trait Row<P, const SK_LEN: usize>: Set {
    /// The public key, the private key and the signature.
    fn recorded() -> (Self::PublicKey, Self::PrivateKey, Self::Signature);

    /// Both keys of what a generator returns.
    fn drawn_pair<R: CryptoRngCore>(rng: &mut R) -> Result<P, Fault>;

    // A private key fits into memory.
    ghost fits: { SK_LEN < 2 ^ 63 };
}

impl<H: Xof, G: Xof> Row<Plain<4, 4, H, G>, 2560> for MlDsa44 {
    fn recorded() -> ([u8; 1312], [u8; 2560], [u8; 2420]) {
        (public_44(), private_44(), signature_44())
    }

    fn drawn_pair<R: CryptoRngCore>(rng: &mut R) -> Result<Plain<4, 4, H, G>, Fault> {
        ml_dsa_44::try_keygen_with_rng::<H, G, R>(rng)
    }

    ghost fits = { Prim.search rules };
}

impl<H: Xof, G: Xof> Row<Plain<6, 5, H, G>, 4032> for MlDsa65 {
    fn recorded() -> ([u8; 1952], [u8; 4032], [u8; 3309]) {
        (public_65(), private_65(), signature_65())
    }

    fn drawn_pair<R: CryptoRngCore>(rng: &mut R) -> Result<Plain<6, 5, H, G>, Fault> {
        ml_dsa_65::try_keygen_with_rng::<H, G, R>(rng)
    }

    ghost fits = { Prim.search rules };
}

impl<H: Xof, G: Xof> Row<Plain<8, 7, H, G>, 4896> for MlDsa87 {
    fn recorded() -> ([u8; 2592], [u8; 4896], [u8; 4627]) {
        (public_87(), private_87(), signature_87())
    }

    fn drawn_pair<R: CryptoRngCore>(rng: &mut R) -> Result<Plain<8, 7, H, G>, Fault> {
        ml_dsa_87::try_keygen_with_rng::<H, G, R>(rng)
    }

    ghost fits = { Prim.search rules };
}

/// ML-DSA-44 over constant XOFs.
pub type Constant44 = ml_dsa_44::KG<Fill<0x55>, Fill<0>>;

/// A parameter set over two XOFs.
pub trait TestSet: Sized {
    /// The bytes of a signature.
    type Signature: Copy + PartialEq + Drop;

    /// Plain keys.
    type Plain: Keys<Self::Signature> + Drop;

    /// Prepared keys.
    type Prepared: Keys<Self::Signature> + Drop;

    /// The keys and the signature over constant XOFs, of their bytes.
    fn constant() -> Result<(Self::Plain, Self::Signature), Fault>;

    /// Whether keys are those over constant XOFs, or their error.
    fn is_constant(keys: Result<Self::Plain, Fault>) -> Result<bool, Fault>;

    /// Whether the public key of the private one is that over constant XOFs.
    fn derives_constant(keys: &Self::Plain) -> Result<bool, Fault>;

    /// With these bits changed in a byte of the private key: whether it has its bytes again, and whether it is
    /// consistent.
    fn read_again(keys: Self::Plain, at: usize, bits: u8) -> Result<[bool; 2], Fault>;

    /// Both keys of a seed.
    fn pair(seed: &[u8; 32]) -> Result<Self::Plain, Fault>;

    /// Both keys of what a generator returns, by one of the calls that draw.
    fn drawn_pair<R: CryptoRngCore>(rng: &mut R, call: PairCall) -> Result<Self::Plain, Fault>;

    /// Both keys with their matrix.
    fn prepared(keys: &Self::Plain) -> Result<Self::Prepared, Fault>;

    /// The errors of preparing the public key and the private key.
    fn refusals(keys: &Self::Plain) -> [Option<Fault>; 2];

    /// Signs the first messages under a context, with one call: as many as `answers` has room for, at most five.
    fn sign_each(keys: &Self::Prepared, ctx: &[u8], answers: &mut [Result<Self::Signature, Fault>]);

    /// Which of the signatures of the first messages, at most five, are accepted, with one call; false after these.
    fn verify_each(keys: &Self::Prepared, signatures: &[Self::Signature], ctx: &[u8]) -> [bool; 5];

    /// Whether the public key and the private key have these texts in hex.
    fn have_texts(alloc: Global, keys: Self::Plain, texts: [&str; 3]) -> Result<[bool; 2], Fail>;

    /// The bytes of a signature.
    fn bytes(signature: &mut Self::Signature) -> &mut [u8];
}

impl<
    S,
    const K: usize,
    const L: usize,
    const SIG_LEN: usize,
    const PK_LEN: usize,
    const SK_LEN: usize,
    H: Xof,
    G: Xof,
> TestSet for KG<K, L, H, G>
where
    Matrix<K, L>: HasSet<Set = S>,
    S: Set<Signature = [u8; SIG_LEN]> + SignatureSizes<K, L, SIG_LEN>,
    S: Set<PublicKey = [u8; PK_LEN], PrivateKey = [u8; SK_LEN]> + KeySizes<K, L, PK_LEN, SK_LEN>,
    S: Row<Plain<K, L, H, G>, SK_LEN>,
{
    type Signature = [u8; SIG_LEN];

    type Plain = Plain<K, L, H, G>;

    type Prepared = Prepared<K, L, H>;

    fn constant() -> Result<(Plain<K, L, H, G>, [u8; SIG_LEN]), Fault> {
        let (public, private, signature) = S::recorded();
        let public = PublicKey::<K, L, H, G>::try_from_bytes(public)?;
        let private = PrivateKey::<K, L, H, G>::try_from_bytes(private)?;
        Ok(((public, private), signature))
    }

    fn is_constant(keys: Result<Plain<K, L, H, G>, Fault>) -> Result<bool, Fault> {
        let (public, private) = keys?;
        let recorded = S::recorded();
        Ok(public.into_bytes() == recorded.0 && private.into_bytes() == recorded.1)
    }

    fn derives_constant(keys: &Plain<K, L, H, G>) -> Result<bool, Fault> {
        let bytes = keys.1.get_public_key().map(SerDes::into_bytes);
        is_same(bytes, &S::recorded().0)
    }

    fn read_again(keys: Plain<K, L, H, G>, at: usize, bits: u8) -> Result<[bool; 2], Fault> {
        let mut bytes = keys.1.into_bytes();
        change(&mut bytes, at, bits);
        let key = PrivateKey::<K, L, H, G>::try_from_bytes(bytes)?;
        let is_whole = key.is_whole()?;
        Ok([key.into_bytes() == bytes, is_whole])
    }

    fn pair(seed: &[u8; 32]) -> Result<Plain<K, L, H, G>, Fault> {
        KG::<K, L, H, G>::keygen_from_seed(seed)
    }

    fn drawn_pair<R: CryptoRngCore>(rng: &mut R, call: PairCall) -> Result<Self::Plain, Fault> {
        match call {
            PairCall::OfTrait => KG::<K, L, H, G>::try_keygen_with_rng(rng),
            PairCall::OfSet => S::drawn_pair::<R>(rng),
            PairCall::Shared => ml_dsa::key_gen::<K, L, PK_LEN, H, G, R>(&S::params(), rng),
        }
    }

    fn prepared(keys: &Plain<K, L, H, G>) -> Result<Prepared<K, L, H>, Fault> {
        Ok((keys.0.prepare()?, keys.1.prepare()?))
    }

    fn refusals(keys: &Plain<K, L, H, G>) -> [Option<Fault>; 2] {
        prove!(K <= 8 && L <= 7);
        [keys.0.prepare().err(), keys.1.prepare().err()]
    }

    fn sign_each(keys: &Self::Prepared, ctx: &[u8], answers: &mut [Result<[u8; SIG_LEN], Fault>]) {
        let count = answers.len().min(5);
        let (seeds, messages) = (&SEEDS[..count], &MESSAGES[..count]);
        keys.1
            .sign_each(seeds, messages, ctx, &mut answers[..count]);
    }

    fn verify_each(keys: &Self::Prepared, signatures: &[[u8; SIG_LEN]], ctx: &[u8]) -> [bool; 5] {
        let count = signatures.len().min(5);
        let (messages, mut verdicts) = (&MESSAGES[..count], [false; 5]);
        keys.0.verify_each(messages, &signatures[..count], ctx, &mut verdicts[..count]);
        verdicts
    }

    fn have_texts(alloc: Global, keys: Self::Plain, texts: [&str; 3]) -> Result<[bool; 2], Fail> {
        let public = has_text(alloc, &keys.0.into_bytes(), texts[0])?;
        let private = has_text(alloc, &keys.1.into_bytes(), texts[1])?;
        Ok([public, private])
    }

    fn bytes(signature: &mut [u8; SIG_LEN]) -> &mut [u8] {
        signature
    }
}

/// What is tried at a set.
pub trait Suite: Sized {
    /// What it finds.
    type Answer: Copy + PartialEq + Debug;

    /// What it finds at a set, of which this is the number: 0, 1 and 2 for 44, 65 and 87.
    fn at<S: TestSet>(&self, number: usize) -> Result<Self::Answer, Fail>
        requires { number < 3 };
}

/// Fails unless a suite finds this at each set over these XOFs. No suite names a type of each set, since it takes the
/// prover seconds.
pub fn at_each_set<H: Xof, G: Xof, X: Suite>(
    rt: &impl Abort,
    suite: &X,
    wanted: &[X::Answer; 3],
) -> Result<(), Fail> {
    let found = [
        suite.at::<ml_dsa_44::KG<H, G>>(0)?,
        suite.at::<ml_dsa_65::KG<H, G>>(1)?,
        suite.at::<ml_dsa_87::KG<H, G>>(2)?,
    ];
    assert_eq!(*rt; found, *wanted);
    Ok(())
}

//! Generators of random bytes, and the traits that every parameter set implements: making keys, signing, verifying, and
//! keys as bytes.
#![tactic(auto)]

ghost use Rattle.std.specs.Prelude.{◌≡◌, ◌≢◌, ◌↔◌, ℕ, List, length, Result, Ok, Err, Some, None, true, IfOk, IsTrue};
ghost use Rattle.std.specs.Prelude.{MatchResult};
ghost use Rattle.fips204_base.specs.declared.fault.Fault.{Fault};
ghost use Rattle.fips204_base.specs.declared.fault.Fault.TheVariants.{KeyGenRng, SignRng, HashRng};
ghost use Rattle.fips204.specs.Completeness.{AcceptedIfWhole, DecodesAlone};
ghost use Rattle.fips204.specs.Framing.{plain, hashed};
ghost use Rattle.fips204.specs.Framing as definition;
ghost use Rattle.fips204.specs.Refusals.{Draws, DrawsUnless, input_fault};

use fips204_base::Fault;

/// The error of a generator that returned no bytes.
#[derive(Debug, Clone, Copy, PartialEq, Eq)]
pub struct RngError;

/// A generator of random bytes.
// An implementation states which bytes a call may return, when it may fail, and what state the generator is then in.
pub trait CryptoRngCore: Sized {
    // A call, asked for so many bytes, may give these bytes and leave the generator so.
    ghost gives: { Self → ℕ → List ℕ → Self → Type 0 };

    // A call, asked for so many bytes, may fail and leave the generator so.
    ghost refuses: { Self → ℕ → Self → Type 0 };

    /// Fills `out` with random bytes, or fails.
    fn try_fill_bytes(&mut self, out: &mut [u8]) -> Result<(), RngError>
        ensures { MatchResult result
            (λ _. gives self.old (length out.old) out.new self.new)
            (λ _. refuses self.old (length out.old) self.new) };
}

/// A generator for tests: it returns the same 32 bytes to every request for 32, and fails on any other
/// length, leaving `out` unchanged.
#[derive(Drop)]
pub struct DummyRng {
    /// The bytes.
    pub bytes: [u8; 32],
}

impl CryptoRngCore for DummyRng {
    ghost gives = { λ before asked bytes after. (asked ≡ 32) × (bytes ≡ before.bytes) × (after ≡ before) };

    ghost refuses = { λ before asked after. (asked ≢ 32) × (after ≡ before) };

    fn try_fill_bytes(&mut self, out: &mut [u8]) -> Result<(), RngError>
        ensures answer { MatchResult result
            (λ _. (length out.old ≡ 32) × (out.new ≡ self.old.bytes) × (self.new ≡ self.old))
            (λ _. (length out.old ≢ 32) × (self.new ≡ self.old)) }
        ensures untouched { (length out.old ≢ 32) → out.new ≡ out.old }
    {
        if out.len() != 32 {
            return Err(RngError);
        }
        out.copy_from_slice(&self.bytes);
        Ok(())
    }
}

/// Draws 32 bytes from the generator in a single request. Returns `refusal` if it fails.
pub(crate) fn draw<R: CryptoRngCore>(rng: &mut R, refusal: Fault) -> Result<[u8; 32], Fault>
    ensures { Draws R.gives R.refuses rng.old rng.new refusal Ok result }
{
    let mut bytes = [0u8; 32];
    match rng.try_fill_bytes(&mut bytes) {
        Ok(()) => Ok(bytes),
        Err(_) => Err(refusal),
    }
}

/// Key generation (FIPS 204, Algorithm 1). The private key of a pair is consistent, the public key is the one that is
/// derived from it, and each is what decoding its bytes returns. So what the private key signs, also after it was
/// stored, is accepted by the public key, also after it was stored.
pub trait KeyGen: Sized {
    /// The public key of a pair.
    type PublicKey: Verifier<Signature = <Self::PrivateKey as Signer>::Signature> + SerDes;

    /// The private key of a pair.
    type PrivateKey: Signer<PublicKey = Self::PublicKey> + SerDes;

    // Both keys of a seed, or the error.
    ghost generated: { List ℕ → Result (Self.PublicKey × Self.PrivateKey) Fault };

    /// Makes a key pair (Algorithm 1) from 32 bytes of the generator, which is asked once.
    ///
    /// Errors: `Fault::KeyGenRng` if the generator fails; then those of `keygen_from_seed`.
    fn try_keygen_with_rng<R: CryptoRngCore>(
        rng: &mut R,
    ) -> Result<(Self::PublicKey, Self::PrivateKey), Fault>
        ensures answer { Draws R.gives R.refuses rng.old rng.new KeyGenRng generated result }
        ensures pair { IfOk result (λ (pk, sk). Self.PrivateKey.whole sk × (Self.PrivateKey.derives sk ≡ Ok pk)) }
        ensures stored { IfOk result (λ (pk, sk). DecodesAlone Self.PublicKey.decodes (Self.PublicKey.bytes_of pk) pk
            × DecodesAlone Self.PrivateKey.decodes (Self.PrivateKey.bytes_of sk) sk) };

    /// Makes the key pair of a seed (Algorithm 6).
    ///
    /// Errors: `Fault::SamplingLimit` if rejection sampling reaches its limit.
    fn keygen_from_seed(xi: &[u8; 32]) -> Result<(Self::PublicKey, Self::PrivateKey), Fault>
        ensures answer { result ≡ generated xi.now }
        ensures pair { IfOk result (λ (pk, sk). Self.PrivateKey.whole sk × (Self.PrivateKey.derives sk ≡ Ok pk)) }
        ensures stored { IfOk result (λ (pk, sk). DecodesAlone Self.PublicKey.decodes (Self.PublicKey.bytes_of pk) pk
            × DecodesAlone Self.PrivateKey.decodes (Self.PrivateKey.bytes_of sk) sk) };
}

/// Signing (FIPS 204, Algorithms 2 and 4).
pub trait Signer: Sized {
    /// The byte array of a signature.
    type Signature;

    /// The public key of a pair, which verifies signatures of this type. A generic function over a `Signer` alone
    /// verifies with `K::PublicKey`: it needs no second bound.
    type PublicKey: Verifier<Signature = Self::Signature>;

    // What signing returns for random bytes and an input.
    ghost signs: { Self → List ℕ → definition.Input → Result Self.Signature Fault };

    // The public key that belongs to the private one, or the error.
    ghost derives: { Self → Result Self.PublicKey Fault };

    // Whether the key is consistent.
    ghost whole: { Self → Type 0 };

    /// Signs a message (Algorithm 2) with 32 random bytes of the generator, which is asked once.
    ///
    /// Errors, in this order: `Fault::SignCtx` if `ctx` has more than 255 bytes (the generator is then not
    /// asked); `Fault::SignRng` if the generator fails; then `Fault::SamplingLimit` and
    /// `Fault::TooManyAttempts` as for `try_sign_with_seed`.
    fn try_sign_with_rng<R: CryptoRngCore>(
        &self,
        rng: &mut R,
        message: &[u8],
        ctx: &[u8],
    ) -> Result<Self::Signature, Fault>
        ensures answer { DrawsUnless (input_fault (plain message.now ctx.now)) R.gives R.refuses rng.old rng.new SignRng
            (λ rnd. signs self.now rnd (plain message.now ctx.now)) result }
        ensures accepted { AcceptedIfWhole (whole self.now) (derives self.now)
            (λ pk signature. Self.PublicKey.accepts pk signature (plain message.now ctx.now)) result };

    /// Signs a message (Algorithm 2) with the random bytes `seed`; 32 zeros give the deterministic variant.
    ///
    /// Errors: `Fault::SignCtx` if `ctx` has more than 255 bytes; `Fault::SamplingLimit` if rejection
    /// sampling reaches its limit; `Fault::TooManyAttempts` if all 814 attempts are rejected.
    fn try_sign_with_seed(
        &self,
        seed: &[u8; 32],
        message: &[u8],
        ctx: &[u8],
    ) -> Result<Self::Signature, Fault>
        ensures answer { result ≡ signs self.now seed.now (plain message.now ctx.now) }
        ensures accepted { AcceptedIfWhole (whole self.now) (derives self.now)
            (λ pk signature. Self.PublicKey.accepts pk signature (plain message.now ctx.now)) result };

    /// Signs a digest (Algorithm 4) with 32 random bytes of the generator, which is asked once. `hash_oid` is
    /// the DER object identifier of the hash function.
    ///
    /// Errors, in this order: `Fault::HashCtx` if `ctx` has more than 255 bytes; those of `check_pre_hash`
    /// (in both cases the generator is not asked); `Fault::HashRng` if the generator fails; then
    /// `Fault::SamplingLimit` and `Fault::TooManyAttempts` as for `try_sign_with_seed`.
    fn try_hash_sign_with_rng<R: CryptoRngCore>(
        &self,
        rng: &mut R,
        hash: &[u8],
        ctx: &[u8],
        hash_oid: &[u8],
    ) -> Result<Self::Signature, Fault>
        ensures answer { DrawsUnless (input_fault (hashed hash.now ctx.now hash_oid.now)) R.gives R.refuses
            rng.old rng.new HashRng (λ rnd. signs self.now rnd (hashed hash.now ctx.now hash_oid.now)) result }
        ensures accepted { AcceptedIfWhole (whole self.now) (derives self.now)
            (λ pk signature. Self.PublicKey.accepts pk signature (hashed hash.now ctx.now hash_oid.now)) result };

    /// Signs a digest (Algorithm 4) with the random bytes `seed`.
    ///
    /// Errors, in this order: `Fault::HashCtx` if `ctx` has more than 255 bytes; those of `check_pre_hash`;
    /// then `Fault::SamplingLimit` and `Fault::TooManyAttempts` as for `try_sign_with_seed`.
    fn try_hash_sign_with_seed(
        &self,
        seed: &[u8; 32],
        hash: &[u8],
        ctx: &[u8],
        hash_oid: &[u8],
    ) -> Result<Self::Signature, Fault>
        ensures answer { result ≡ signs self.now seed.now (hashed hash.now ctx.now hash_oid.now) }
        ensures accepted { AcceptedIfWhole (whole self.now) (derives self.now)
            (λ pk signature. Self.PublicKey.accepts pk signature (hashed hash.now ctx.now hash_oid.now)) result };

    /// Computes the public key of the private key: its `rho` and `tr`, with t1 as in Algorithm 6.
    ///
    /// Errors: `Fault::SamplingLimit` if rejection sampling of the matrix reaches its limit.
    fn get_public_key(&self) -> Result<Self::PublicKey, Fault>
        ensures { result ≡ derives self.now };

    // An input that breaks a condition is rejected, with the error of the first that it breaks.
    ghost refused: { (key : Self) (rnd : List ℕ) (input : definition.Input) (fault : Fault)
        → input_fault input ≡ Some fault → signs key rnd input ≡ Err fault };
}

/// Verifying (FIPS 204, Algorithms 3 and 5).
pub trait Verifier: Sized {
    /// The byte array of a signature.
    type Signature;

    // Whether the key accepts a signature of an input.
    ghost accepts: { Self → Self.Signature → definition.Input → Type 0 };

    /// Verifies the signature of a message (Algorithm 3). Returns false if `ctx` has more than 255 bytes.
    fn verify(&self, message: &[u8], signature: &Self::Signature, ctx: &[u8]) -> bool
        ensures { IsTrue result ↔ accepts self.now signature.now (plain message.now ctx.now) };

    /// Verifies the signature of a digest (Algorithm 5). Returns false if `ctx` has more than 255 bytes, or
    /// if `check_pre_hash` returns an error.
    fn hash_verify(
        &self,
        hash: &[u8],
        signature: &Self::Signature,
        ctx: &[u8],
        hash_oid: &[u8],
    ) -> bool
        ensures { IsTrue result ↔ accepts self.now signature.now (hashed hash.now ctx.now hash_oid.now) };

    // An input that breaks a condition is accepted by no key.
    ghost unbroken: { (key : Self) (signature : Self.Signature) (input : definition.Input)
        → accepts key signature input → input_fault input ≡ None };
}

/// A signature scheme: every signature that a pair makes verifies under the public key of that pair.
pub trait Scheme: Sized {
    /// The public key of a pair.
    type Public: Drop;

    /// The private key of a pair.
    type Private: Drop;

    /// A signature.
    type Signature: Drop;

    // Both keys of a seed, or the error.
    ghost generated: { List ℕ → Result (Self.Public × Self.Private) Fault };

    // What signing returns for random bytes and an input.
    ghost signs: { Self.Private → List ℕ → definition.Input → Result Self.Signature Fault };

    // Whether the key accepts a signature of an input.
    ghost accepts: { Self.Public → Self.Signature → definition.Input → Type 0 };

    /// Makes the key pair of a seed. Errors as for `KeyGen::keygen_from_seed`.
    fn keygen(xi: &[u8; 32]) -> Result<(Self::Public, Self::Private), Fault>
        ensures { result ≡ generated xi.now };

    /// Signs a message under a context with the random bytes `rnd`. Errors as for `Signer::try_sign_with_seed`.
    fn sign(
        sk: &Self::Private,
        rnd: &[u8; 32],
        message: &[u8],
        ctx: &[u8],
    ) -> Result<Self::Signature, Fault>
        ensures { result ≡ signs sk.now rnd.now (plain message.now ctx.now) };

    /// Verifies the signature of a message under a context. Returns true for every signature that `sign`
    /// returned for the same message and context with the private key of the pair that `keygen` returned.
    fn verify(pk: &Self::Public, message: &[u8], signature: &Self::Signature, ctx: &[u8]) -> bool
        ensures answer { IsTrue result ↔ accepts pk.now signature.now (plain message.now ctx.now) }
        ensures signed_is_accepted { (xi rnd : List ℕ) (sk : Self.Private) → generated xi ≡ Ok (pk.now, sk)
            → signs sk rnd (plain message.now ctx.now) ≡ Ok signature.now → IsTrue result };
}

/// Makes a key pair, signs with it and verifies the signature. Returns true or the first error, and never false. Where
/// it returns true, the public key accepts the signature.
pub fn pairwise_check<S: Scheme>(
    xi: &[u8; 32],
    rnd: &[u8; 32],
    message: &[u8],
    ctx: &[u8],
) -> Result<bool, Fault>
    ensures { MatchResult (S.generated xi.now)
        (λ (pk, sk). MatchResult (S.signs sk rnd.now (plain message.now ctx.now))
        (λ signature. (result ≡ Ok true) × S.accepts pk signature (plain message.now ctx.now)) (λ fault. result
        ≡ Err fault))
        (λ fault. result ≡ Err fault) }
{
    let (pk, sk) = S::keygen(xi)?;
    let signature = S::sign(&sk, rnd, message, ctx)?;
    Ok(S::verify(&pk, message, &signature, ctx))
}

/// Keys that are encoded as byte arrays of a fixed length and decoded from them (FIPS 204, Algorithms 22 to 25).
pub trait SerDes: Sized {
    /// The byte array.
    type ByteArray;

    // The bytes of a value.
    ghost bytes_of: { Self → Self.ByteArray };

    // Whether decoding bytes returns this, a value or an error.
    ghost decodes: { Self.ByteArray → Result Self Fault → Type 0 };

    /// Encodes the key (Algorithms 22 and 24).
    fn into_bytes(self) -> Self::ByteArray
        ensures { result ≡ bytes_of self };

    /// Decodes a key (Algorithms 23 and 25). Encoding the result returns the same bytes.
    ///
    /// Errors: `Fault::KeyRange` if the bytes encode no private key. A public key has no error.
    fn try_from_bytes(ba: Self::ByteArray) -> Result<Self, Fault>
        ensures { decodes ba result };

    // A key that bytes decode to has these bytes.
    ghost restored: { (bytes : Self.ByteArray) (key : Self) → decodes bytes (Ok key) → bytes_of key ≡ bytes };
}

//! Public keys: the type, verifying, and the key as bytes.
#![tactic(auto)]

ghost use Rattle.std.specs.Prelude.{◌≡◌, ◌↔◌, ⊤, IsTrue, Ok, MatchResult};
ghost use Rattle.fips204.specs.Framing.{framed, represented};
ghost use Rattle.fips204.specs.Inputs.{input_of};
ghost use Rattle.fips204.specs.Prepared.{prepared_public};
ghost use Rattle.fips204.specs.Refusals.{VerifiesInput};
ghost use Rattle.fips204_base.specs.Encodings.{ArePublicParts, IsPublicKeyOf, public_key_bytes};

use crate::input::Input;
use crate::ml_dsa;
use crate::sets::{HasSet, KeySizes, Matrix, Set, SignatureSizes};
use crate::traits::{SerDes, Verifier};
use crate::types::{PreparedPublicKey, R, T0};
use fips204_base::Fault;
use fips204_base::encodings::pk_encode;
use fips204_base::hashing::write_expanded_a;
use fips204_base::product::Transforms;
use fips204_base::xof::Xof;
use std::alloc::AllocError;
use std::marker::{Model, PhantomData};

/// A public key of a parameter set with a matrix of `K` rows and `L` columns, over the XOFs `H` and `G`.
///
/// Its parts are the matrix's seed `rho`, the hash `tr` of its bytes, and `t1`, `K` polynomials with coefficients from 0 to
/// 1023.
// Contracts see it as these parts.
#[derive(Drop)]
pub struct PublicKey<const K: usize, const L: usize, H, G> {
    pub(crate) rho: [u8; 32],
    pub(crate) tr: [u8; 64],
    pub(crate) t1: [R; K],
    pub(crate) streams: PhantomData<(H, G)>,
}

impl<const K: usize, const L: usize, H, G> Model for PublicKey<K, L, H, G> {
    ghost use Rattle.fips204_base.specs.Encodings.{PublicParts, ArePublicParts};

    ghost Value = { PublicParts };

    ghost view = { λ key. record { rho = key.rho; tr = key.tr; t1 = key.t1 } };

    ghost invariant = { λ key. ArePublicParts K record { rho = key.rho; tr = key.tr; t1 = key.t1 } };
}

impl<const K: usize, const L: usize, H, G> Clone for PublicKey<K, L, H, G> {
    ghost is_clone = { λ x y. y ≡ x };

    ghost is_infallible = { λ _. ⊤ };

    /// A copy of the key. Never returns an error.
    fn clone(&self) -> Result<Self, AllocError> {
        Ok(PublicKey { ..*self })
    }
}

impl<const K: usize, const L: usize, H, G> PublicKey<K, L, H, G> {
    /// The hash of the key's bytes (64 bytes of `H`), which signing and verifying hash before the message. The
    /// key's parts are in range.
    pub fn tr(&self) -> &[u8; 64]
        ensures hash { result.now ≡ self.now.tr }
        ensures parts { ArePublicParts K self.now }
    {
        &self.tr
    }
}

impl<S, const K: usize, const L: usize, const SIG_LEN: usize, H, G> Verifier
    for PublicKey<K, L, H, G>
where
    H: Xof,
    G: Xof,
    Matrix<K, L>: HasSet<Set = S>,
    S: Set<Signature = [u8; SIG_LEN]> + SignatureSizes<K, L, SIG_LEN>,
{
    type Signature = [u8; SIG_LEN];

    ghost accepts = { VerifiesInput S.set H.front G.front };

    ghost unbroken = { λ key signature input accepted. accepted.0 };

    fn verify(&self, message: &[u8], signature: &[u8; SIG_LEN], ctx: &[u8]) -> bool {
        self.accepts_input(&Input::Message(message, ctx), signature)
    }

    fn hash_verify(
        &self,
        hash: &[u8],
        signature: &[u8; SIG_LEN],
        ctx: &[u8],
        hash_oid: &[u8],
    ) -> bool {
        self.accepts_input(&Input::Digest(hash, ctx, hash_oid), signature)
    }
}

impl<S, const K: usize, const L: usize, const SIG_LEN: usize, H, G> PublicKey<K, L, H, G>
where
    H: Xof,
    G: Xof,
    Matrix<K, L>: HasSet<Set = S>,
    S: Set<Signature = [u8; SIG_LEN]> + SignatureSizes<K, L, SIG_LEN>,
{
    /// Verifies the signature of an input. Returns false if the input is rejected.
    pub fn accepts_input(&self, input: &Input<'_>, signature: &[u8; SIG_LEN]) -> bool
        ensures { IsTrue result ↔ VerifiesInput S.set H.front G.front self.now signature.now (input_of input.now) }
    {
        match ml_dsa::mu_of::<H>(&self.tr, input) {
            Ok(mu) => {
                ml_dsa::verify_internal::<K, L, SIG_LEN, H, G>(&S::params(), self, &mu, signature)
            }
            Err(_) => false,
        }
    }

    /// Verifies the signature of a framed message `m` (Algorithm 8).
    pub fn verify_internal(&self, m: &[u8], sig: &[u8; SIG_LEN]) -> bool
        ensures { IsTrue result ↔ VerifiesInput S.set H.front G.front self.now sig.now (framed m.now) }
    {
        self.accepts_input(&Input::Framed(m), sig)
    }

    /// Verifies the signature of the hash `mu` of a framed message (Algorithm 8, with mu given).
    pub fn verify_mu(&self, mu: &[u8; 64], sig: &[u8; SIG_LEN]) -> bool
        ensures { IsTrue result ↔ VerifiesInput S.set H.front G.front self.now sig.now (represented mu.now) }
    {
        self.accepts_input(&Input::Mu(mu), sig)
    }

    /// Samples the matrix once, for many verifications.
    ///
    /// Errors: `Fault::SamplingLimit` if rejection sampling of the matrix reaches its limit.
    ///
    /// Not inlined, so that what sampling takes leaves the stack before the key is used.
    #[inline(never)]
    pub fn prepare(&self) -> Result<PreparedPublicKey<K, L, H>, Fault>
        ensures { result ≡ prepared_public S.set G.front self.now }
    {
        let rho = self.rho;
        let mut pk = PreparedPublicKey {
            rho,
            tr: self.tr,
            t1: self.t1,
            a_hat: [[T0; L]; K],
            t1_hat: Transforms::zeros(),
            stream: PhantomData,
        };
        write_expanded_a::<K, L, G>(&rho, &mut pk.a_hat)?;
        ml_dsa::write_shifted_transforms(&self.t1, &mut pk.t1_hat);
        Ok(pk)
    }
}

impl<S, const K: usize, const L: usize, const PK_LEN: usize, const SK_LEN: usize, H: Xof, G> SerDes
    for PublicKey<K, L, H, G>
where
    Matrix<K, L>: HasSet<Set = S>,
    S: Set<PublicKey = [u8; PK_LEN], PrivateKey = [u8; SK_LEN]> + KeySizes<K, L, PK_LEN, SK_LEN>,
{
    type ByteArray = [u8; PK_LEN];

    ghost bytes_of = { λ key. public_key_bytes key.rho key.t1 };

    ghost decodes = { λ bytes answer. MatchResult answer (λ key. IsPublicKeyOf H.front K bytes key) (λ _. ⊥) };

    ghost restored = { λ bytes key read. read.encoding };

    fn into_bytes(self) -> [u8; PK_LEN] {
        pk_encode(&self.rho, &self.t1)
    }

    /// Decodes a public key, and computes its hash `tr` by `H`. Never returns an error.
    fn try_from_bytes(ba: [u8; PK_LEN]) -> Result<PublicKey<K, L, H, G>, Fault> {
        Ok(ml_dsa::expand_public(&ba))
    }
}

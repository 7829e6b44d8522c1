//! Making keys (FIPS 204, Algorithms 1 and 6).
#![tactic(auto)]

ghost use Rattle.std.specs.Prelude.{◌≡◌, ◌≤◌, ◌<◌, ◌+◌, ◌*◌, ◌%◌};
ghost use Rattle.std.specs.Prelude.{length, Ok, Err, MatchResult, pos, nat_abs, take, drop, IfOk};
ghost use Rattle.fips204_base.specs.Transforms.{plus};
ghost use Rattle.fips204_base.specs.Vectors.{IsVector, MatrixWithin, vector_coefficients, vector_of};
ghost use Rattle.fips204_base.specs.Encodings.{public_key_bytes, private_key_bytes};
ghost use Rattle.fips204_base.specs.SamplerSteps.{OnSampled};
ghost use Rattle.fips204_base.specs.Bounds.{IsResidueVector, VectorWithin};
ghost use Rattle.fips204_base.specs.Residues.{residue};
ghost use Rattle.fips204.specs.Keys.{high_part, key_vector, low_part};
ghost use Rattle.fips204.specs.ParameterSets.{public_key_length};
ghost use Rattle.fips204.specs.Refusals.{generated, derived, Draws};
ghost use Rattle.fips204.specs.Sets.{set_of};
ghost use Rattle.fips204.specs.SigningInputs.{pair_of};

use crate::sets::{HasSet, KeySizes, Matrix, Set};
use crate::traits::{CryptoRngCore, draw};
use crate::types::{KG, Params, PrivateKey, PublicKey, R, R0, T};
use fips204_base::Fault;
use fips204_base::encodings::{pk_encode, sk_encode};
use fips204_base::hashing::write_expanded_s;
use fips204_base::helpers::full_reduce32;
use fips204_base::high_low::write_power2round;
use fips204_base::maps::write_zip_vectors;
use fips204_base::product::{Transforms, write_matrix_product, write_sampled_product};
use fips204_base::xof::{Xof, hash};
use std::marker::PhantomData;

/// `ML-DSA.KeyGen_internal` (Algorithm 6): the key pair of the seed `xi`.
///
/// Errors: `Fault::SamplingLimit` if a sampler reaches its limit.
///
/// `K` and `L` are those of the parameter set, and `PK_LEN` is the length of its public keys.
pub fn key_gen_internal<const K: usize, const L: usize, const PK_LEN: usize, H: Xof, G: Xof>(
    p: &Params,
    xi: &[u8; 32],
) -> Result<(PublicKey<K, L, H, G>, PrivateKey<K, L, H, G>), Fault>
    requires rows { K ≡ p.now.k }
    requires columns { L ≡ p.now.l }
    requires size { PK_LEN ≡ public_key_length (set_of p.now) }
    ensures { result ≡ generated (set_of p.now) H.front G.front xi.now }
{
    // both keys, of which each part is written in its place
    let mut public = PublicKey {
        rho: [0; 32],
        tr: [0; 64],
        t1: [R0; K],
        streams: PhantomData,
    };
    let mut private = PrivateKey {
        rho: [0; 32],
        cap_k: [0; 32],
        tr: [0; 64],
        s1: [R0; L],
        s2: [R0; K],
        t0: [R0; K],
        streams: PhantomData,
    };
    let (rho, cap_k) = write_vectors::<K, L, H, G>(
        p,
        xi,
        &mut private.s1,
        &mut private.s2,
        &mut public.t1,
        &mut private.t0,
    )?;
    public.rho = rho;
    private.rho = rho;
    private.cap_k = cap_k;
    // tr = H(pkEncode(rho, t1))
    let pk: [u8; PK_LEN] = pk_encode(&rho, &public.t1);
    public.tr = hash::<H, 64>(&[pk.as_slice()]);
    private.tr = public.tr;
    Ok((public, private))
}

impl<
    S,
    const K: usize,
    const L: usize,
    const PK_LEN: usize,
    const SK_LEN: usize,
    H: Xof,
    G: Xof,
> KG<K, L, H, G>
where
    Matrix<K, L>: HasSet<Set = S>,
    S: Set<PublicKey = [u8; PK_LEN], PrivateKey = [u8; SK_LEN]> + KeySizes<K, L, PK_LEN, SK_LEN>,
{
    /// Makes the key pair of a seed (Algorithm 6), and writes the bytes of both keys (Algorithms 22 and 24): what
    /// `into_bytes` returns for the keys of `keygen_from_seed`, in less stack, since no key is a value here.
    ///
    /// Errors: `Fault::SamplingLimit` if rejection sampling reaches its limit; nothing is written then.
    #[inline(never)]
    pub fn write_pair(
        xi: &[u8; 32],
        public_key: &mut [u8],
        private_key: &mut [u8],
    ) -> Result<(), Fault>
        requires room { (length public_key.old ≡ PK_LEN) × (length private_key.old ≡ SK_LEN) }
        ensures { MatchResult (generated S.set H.front G.front xi.now)
            (λ (pk, sk). (public_key.new ≡ public_key_bytes pk.rho pk.t1)
            × (private_key.new ≡ private_key_bytes S.set.eta sk) × (result ≡ Ok tt))
            (λ fault. (public_key.new ≡ public_key.old) × (private_key.new ≡ private_key.old) × (result ≡ Err fault)) }
    {
        let p = S::params();
        let (mut s1, mut s2) = ([R0; L], [R0; K]);
        let (mut t1, mut t0) = ([R0; K], [R0; K]);
        let (rho, cap_k) = write_vectors::<K, L, H, G>(&p, xi, &mut s1, &mut s2, &mut t1, &mut t0)?;
        // pk = pkEncode(rho, t1)
        let public: [u8; PK_LEN] = pk_encode(&rho, &t1);
        public_key.copy_from_slice(&public);
        // tr = H(pk)
        let tr = hash::<H, 64>(&[public.as_slice()]);
        // sk = skEncode(rho, K, tr, s1, s2, t0)
        let private: [u8; SK_LEN] = sk_encode(p.eta, &rho, &cap_k, &tr, &s1, &s2, &t0);
        private_key.copy_from_slice(&private);
        Ok(())
    }
}

/// Writes the vectors of the keys of the seed `xi`, and returns their seeds rho and K (Algorithm 6, lines 1 to 6).
/// `K` and `L` are those of the parameter set.
///
/// Errors: `Fault::SamplingLimit` if a sampler reaches its limit.
fn write_vectors<const K: usize, const L: usize, H: Xof, G: Xof>(
    p: &Params,
    xi: &[u8; 32],
    s1: &mut [R; L],
    s2: &mut [R; K],
    t1: &mut [R; K],
    t0: &mut [R; K],
) -> Result<([u8; 32], [u8; 32]), Fault>
    requires rows { K ≡ p.now.k }
    requires columns { L ≡ p.now.l }
    ensures keys { MatchResult result
        (λ (rho, key). generated (set_of p.now) H.front G.front xi.now
        ≡ Ok (pair_of H.front rho key s1.new s2.new t1.new t0.new))
        (λ fault. generated (set_of p.now) H.front G.front xi.now ≡ Err fault) }
    ensures first { IfOk result (λ _. IsVector L (nat_abs p.now.eta) (nat_abs p.now.eta) s1.new) }
    ensures second { IfOk result (λ _. IsVector K (nat_abs p.now.eta) (nat_abs p.now.eta) s2.new) }
    ensures high { IfOk result (λ _. IsVector K 0 1023 t1.new) }
    ensures low { IfOk result (λ _. IsVector K 4095 4096 t0.new) }
{
    // (rho, rho', K) = H(xi || k || l)
    let seeds = hash::<H, 128>(&[xi.as_slice(), &[p.k as u8], &[p.l as u8]]);
    let rho: [u8; 32] = seed_at(&seeds, 0);
    let rho_prime: [u8; 64] = seed_at(&seeds, 32);
    // (s1, s2) = ExpandS(rho')
    write_expanded_s::<K, L, H>(p.eta, &rho_prime, s1, s2)?;
    // A = ExpandA(rho), t = A s1 + s2, (t1, t0) = Power2Round(t)
    write_key_parts::<K, L, G>(p, &rho, s1, s2, t1, t0)?;
    Ok((rho, seed_at(&seeds, 96)))
}

/// The `N` bytes from `at` on.
fn seed_at<const N: usize>(bytes: &[u8; 128], at: usize) -> [u8; N]
    requires { at + N ≤ 128 }
    ensures { result ≡ take N (drop at bytes.now) }
{
    *bytes[at..].first_chunk::<N>().unwrap()
}

/// Writes the high part `t1` and the low part `t0` of `A s1 + s2` (Algorithm 6, lines 3 to 6) for the matrix of
/// `rho`. Coefficients of `s1` and `s2` are in `[-eta, eta]`, and `K` and `L` are those of the parameter set.
///
/// Errors: `Fault::SamplingLimit` if the matrix reaches its limit.
pub(super) fn write_key_parts<const K: usize, const L: usize, G: Xof>(
    p: &Params,
    rho: &[u8; 32],
    s1: &[R; L],
    s2: &[R; K],
    t1: &mut [R; K],
    t0: &mut [R; K],
) -> Result<(), Fault>
    requires rows { K ≡ p.now.k }
    requires columns { L ≡ p.now.l }
    requires first { IsVector L (nat_abs p.now.eta) (nat_abs p.now.eta) s1.now }
    requires second { IsVector K (nat_abs p.now.eta) (nat_abs p.now.eta) s2.now }
    ensures values { OnSampled G.front rho.now p.now.k p.now.l result (λ a.
        (t1.new ≡ high_part (set_of p.now) a s1.now s2.now) × (t0.new ≡ low_part (set_of p.now) a s1.now s2.now)) }
    ensures high { IfOk result (λ _. IsVector K 0 1023 t1.new) }
    ensures low { IfOk result (λ _. IsVector K 4095 4096 t0.new) }
{
    // A = ExpandA(rho), t = A s1 + s2
    write_key_vector::<K, L, G>(rho, s1, s2, t0)?;
    // (t1, t0) = Power2Round(t)
    write_power2round(t0, t1);
    Ok(())
}

/// Writes the high part of `A s1 + s2` with the matrix at hand. Coefficients of `s1` and `s2` are in `[-eta, eta]`, and
/// `K` and `L` are those of the parameter set.
pub(crate) fn write_high_part<const K: usize, const L: usize>(
    p: &Params,
    a_hat: &[[T; L]; K],
    s1: &[R; L],
    s2: &[R; K],
    t1: &mut [R; K],
)
    requires rows { K ≡ p.now.k }
    requires columns { L ≡ p.now.l }
    requires matrix { MatrixWithin 8380416 a_hat.now }
    requires first { IsVector L (nat_abs p.now.eta) (nat_abs p.now.eta) s1.now }
    requires second { IsVector K (nat_abs p.now.eta) (nat_abs p.now.eta) s2.now }
    ensures value { t1.new ≡ high_part (set_of p.now) a_hat.now s1.now s2.now }
    ensures range { IsVector K 0 1023 t1.new }
{
    let mut t = [R0; K];
    write_matrix_product(a_hat, s1, &mut t);
    write_sum(&mut t, s2);
    write_power2round(&mut t, t1);
}

/// Writes `t = A s1 + s2` (Algorithm 6, lines 3 and 5) for the matrix of `rho`, with coefficients from 0 to
/// `q - 1`. Those of `s1` and `s2` are below `q` in absolute value, and `K` and `L` are those of a parameter set.
/// Returns `Fault::SamplingLimit` if the matrix passes its limit.
fn write_key_vector<const K: usize, const L: usize, G: Xof>(
    rho: &[u8; 32],
    s1: &[R; L],
    s2: &[R; K],
    t: &mut [R; K],
) -> Result<(), Fault>
    requires shape { (K ≤ 8) × (L ≤ 7) }
    requires first { VectorWithin L 8380416 s1.now }
    requires second { VectorWithin K 8380416 s2.now }
    ensures values { OnSampled G.front rho.now K L result (λ a.
        t.new ≡ vector_of K (λ r n. pos (key_vector L a s1.now s2.now r n))) }
    ensures range { IfOk result (λ _. IsResidueVector K t.new) }
{
    let mut product = Transforms::zeros();
    product.write_transforms(s1);
    write_sampled_product::<K, L, G>(rho, &mut product)?;
    product.write_plain(t);
    write_sum(t, s2);
    Ok(())
}

/// Adds `v` to `t`, with results from 0 to `q - 1`. Coefficients of both are below `q` in absolute value.
// Compiled for AVX2 too.
fn write_sum<const K: usize>(t: &mut [R; K], v: &[R; K])
    requires first { VectorWithin K 8380416 t.old }
    requires second { VectorWithin K 8380416 v.now }
    ensures values { t.new ≡ vector_of K (λ r n.
        pos (plus (vector_coefficients t.old r) (vector_coefficients v.now r) n)) }
    ensures range { IsResidueVector K t.new }
{
    write_zip_vectors(
        t,
        v,
        |x, y|
            requires { (nat_abs x ≤ 8380416) × (nat_abs y ≤ 8380416) }
            ensures { result ≡ pos ((residue x + residue y) % 8380417) }
        { full_reduce32(x + y) },
    );
}

/// `ML-DSA.KeyGen` (Algorithm 1): a key pair from 32 bytes of the generator, which is asked once.
///
/// Errors: `Fault::KeyGenRng` if the generator fails; then those of `key_gen_internal`.
pub fn key_gen<
    const K: usize,
    const L: usize,
    const PK_LEN: usize,
    H: Xof,
    G: Xof,
    R: CryptoRngCore,
>(p: &Params, rng: &mut R) -> Result<(PublicKey<K, L, H, G>, PrivateKey<K, L, H, G>), Fault>
    requires rows { K ≡ p.now.k }
    requires columns { L ≡ p.now.l }
    requires size { PK_LEN ≡ public_key_length (set_of p.now) }
    ensures { Draws R.gives R.refuses rng.old rng.new Fault.KeyGenRng
        (generated (set_of p.now) H.front G.front) result }
{
    key_gen_internal::<K, L, PK_LEN, H, G>(p, &draw(rng, Fault::KeyGenRng)?)
}

/// The public key of a private key: its `rho` and `tr`, and the high part of `A s1 + s2`.
///
/// Errors: `Fault::SamplingLimit` if the matrix of `rho` reaches its limit.
pub fn private_to_public_key<const K: usize, const L: usize, H, G: Xof>(
    p: &Params,
    sk: &PrivateKey<K, L, H, G>,
) -> Result<PublicKey<K, L, H, G>, Fault>
    requires rows { K ≡ p.now.k }
    requires columns { L ≡ p.now.l }
    ensures { result ≡ derived (set_of p.now) G.front sk.now }
{
    let mut t1 = [R0; K];
    write_key_parts::<K, L, G>(p, &sk.rho, &sk.s1, &sk.s2, &mut t1, &mut [R0; K])?;
    Ok(PublicKey {
        rho: sk.rho,
        tr: sk.tr,
        t1,
        streams: PhantomData,
    })
}

//! Signing (FIPS 204, Algorithm 7, with the limit of attempts of Appendix C): the matrix and the transforms, the loop, and
//! an attempt with its four checks.
#![tactic(auto)]

ghost use Rattle.std.specs.Prelude.{◌≡◌, ◌≤◌, nat_abs, ◌≢◌, ◌<◌, Ok, true, pos, ◌+◌, ◌-◌, ◌*◌, ◌%◌, ℕ, nat_lt};
ghost use Rattle.std.specs.Prelude.{length, Some};
ghost use Rattle.fips204_base.specs.Encodings.{ArePrivateParts, all_ones};
ghost use Rattle.fips204.specs.Completeness.{AcceptedIfWholePlain};
ghost use Rattle.fips204.specs.Framing.{represented};
ghost use Rattle.fips204.specs.Inputs.{input_of};
ghost use Rattle.fips204.specs.Prepared.{sign_prepared};
ghost use Rattle.fips204.specs.Refusals.{Writes};
ghost use Rattle.fips204.specs.SigningInputs.{AreKeyTransforms, AreAttemptInputs, attempted, AreCheckInputs};
ghost use Rattle.fips204.specs.SigningInputs.{hint_bit, checked_attempt};
ghost use Rattle.fips204.specs.Sets.{HasSizes, set_of};
ghost use Rattle.fips204.specs.Signing.{sign, sign_with, attempt};
ghost use Rattle.fips204_base.specs.Vectors.{vector_coefficients, vector_of};
ghost use Rattle.fips204_base.specs.Bounds.{VectorWithin, coefficient_of};
ghost use Rattle.fips204_base.specs.Residues.{residue, centred, vector_norm};
ghost use Rattle.fips204_base.specs.Rounding.{IsGamma2, high_bits, low_bits};
ghost use Rattle.fips204_base.specs.Transforms.{minus, plus};

use super::commitment_hash::write_commitment_hash;
use super::framing::mu_of;
use crate::input::Input;
use crate::types::{KeyTransforms, Params, PrivateKey, R, R0, T, T0};
use fips204_base::Fault;
use fips204_base::encodings::write_encoded_signature;
use fips204_base::hashing::{expand_mask, sample_in_ball, write_expanded_a};
use fips204_base::helpers::{center_mod, difference, infinity_norm};
use fips204_base::high_low::{high_bits, low_bits, make_hint};
use fips204_base::maps::write_zip_vectors;
use fips204_base::product::{Factor, Products, write_matrix_product};
use fips204_base::xof::{Xof, hash};
use std::marker::Model;

/// How many attempts signing makes (FIPS 204, Appendix C).
pub const MAX_SIGN_ATTEMPTS: u16 = 814;

/// What signing needs of a key: its parts, its matrix and the NTTs of its vectors, borrowed from a plain key, a prepared one,
/// or bytes.
#[derive(Drop)]
pub(crate) struct SigningKey<'a, const K: usize, const L: usize, H, G> {
    pub(crate) key: &'a PrivateKey<K, L, H, G>,
    pub(crate) a_hat: &'a [[T; L]; K],
    pub(crate) transforms: &'a KeyTransforms,
}

impl<'a, const K: usize, const L: usize, H, G> Model for SigningKey<'a, K, L, H, G> {
    ghost use Rattle.fips204_base.specs.Vectors.{MatrixWithin};
    ghost use Rattle.fips204.specs.SigningInputs.{AreKeyTransforms};
    ghost use Rattle.fips204.specs.Prepared.{PreparedPrivate};

    ghost Value = { PreparedPrivate };

    ghost view = { λ sk. record { parts = sk.key.now; matrix = sk.a_hat.now } };

    ghost invariant = { λ sk. MatrixWithin 8380416 sk.a_hat.now × AreKeyTransforms K L sk.key.now sk.transforms.now };
}

/// `ML-DSA.Sign_internal` (Algorithm 7) from `mu` and `rnd`: returns the signature of the first of 814
/// attempts that is not rejected. If the key is consistent, that signature verifies.
///
/// Errors: `Fault::SamplingLimit` if the matrix, or the challenge of an attempt before any that signs,
/// reaches its limit; `Fault::TooManyAttempts` if all attempts are rejected.
///
/// `K`, `L` and `SIG_LEN` are those of the parameter set.
pub fn sign_internal<const K: usize, const L: usize, const SIG_LEN: usize, H: Xof, G: Xof>(
    p: &Params,
    sk: &PrivateKey<K, L, H, G>,
    mu: &[u8; 64],
    rnd: &[u8; 32],
) -> Result<[u8; SIG_LEN], Fault>
    requires sizes { HasSizes (set_of p.now) K L SIG_LEN }
    ensures answer { result ≡ sign (set_of p.now) H.front G.front sk.now mu.now rnd.now }
    ensures accepted { AcceptedIfWholePlain (set_of p.now) H.front G.front sk.now (represented mu.now) result }
{
    let mut signature = [0u8; SIG_LEN];
    write_signature::<K, L, SIG_LEN, H, G>(p, sk, mu, rnd, &mut signature)?;
    Ok(signature)
}

/// Like `sign_internal`, but signs into the caller's array, which an error leaves as it was. Also ensures that the key's
/// parts are in range.
///
/// Not inlined, so that the matrix is in the stack only while the key signs.
#[inline(never)]
#[tactic(auto, using(crate::proofs::ParameterSets::matrix_room))]
pub(crate) fn write_signature<const K: usize, const L: usize, const SIG_LEN: usize, H: Xof, G: Xof>(
    p: &Params,
    sk: &PrivateKey<K, L, H, G>,
    mu: &[u8; 64],
    rnd: &[u8; 32],
    signature: &mut [u8; SIG_LEN],
) -> Result<(), Fault>
    requires sizes { HasSizes (set_of p.now) K L SIG_LEN }
    ensures answer { Writes (sign (set_of p.now) H.front G.front sk.now mu.now rnd.now)
        signature.old signature.new result }
    ensures parts { ArePrivateParts (nat_abs p.now.eta) K L sk.now }
{
    prove!(K <= 8 && L <= 7);
    // A = ExpandA(rho)
    let mut a_hat = [[T0; L]; K];
    write_expanded_a::<K, L, G>(&sk.rho, &mut a_hat)?;
    let mut transforms = KeyTransforms::zeros();
    sk.write_transforms(&mut transforms);
    let key = SigningKey {
        key: sk,
        a_hat: &a_hat,
        transforms: &transforms,
    };
    key.sign_with(p, mu, rnd, signature)
}

impl<const K: usize, const L: usize, H, G> PrivateKey<K, L, H, G> {
    /// Writes the transforms of s1, s2 and t0 (lines 2 to 4).
    pub(crate) fn write_transforms(&self, out: &mut KeyTransforms)
        requires shape { (K ≤ 8) × (L ≤ 7) }
        ensures { AreKeyTransforms K L self.now out.new }
    {
        out.s1_hat.write_transforms(&self.s1);
        out.s2_hat.write_transforms(&self.s2);
        out.t0_hat.write_transforms(&self.t0);
    }
}

impl<'a, const K: usize, const L: usize, H: Xof, G> SigningKey<'a, K, L, H, G> {
    /// Writes the signature of an input with the random bytes `rnd`. After an error `signature` is as it was.
    ///
    /// Errors: those of the input; then those of `sign_with`.
    pub(crate) fn write_signature<const SIG_LEN: usize>(
        &self,
        p: &Params,
        input: &Input<'_>,
        rnd: &[u8; 32],
        signature: &mut [u8; SIG_LEN],
    ) -> Result<(), Fault>
        requires sizes { HasSizes (set_of p.now) K L SIG_LEN }
        ensures { Writes (sign_prepared (set_of p.now) H.front self.now rnd.now (input_of input.now))
            signature.old signature.new result }
    {
        let key = self.key;
        let mu = mu_of::<H>(&key.tr, input)?;
        self.sign_with(p, &mu, rnd, signature)
    }

    /// `write_signature` of a plain key with the matrix at hand (lines 7 to 33).
    fn sign_with<const SIG_LEN: usize>(
        &self,
        p: &Params,
        mu: &[u8; 64],
        rnd: &[u8; 32],
        signature: &mut [u8; SIG_LEN],
    ) -> Result<(), Fault>
        requires sizes { HasSizes (set_of p.now) K L SIG_LEN }
        ensures { Writes (sign_with (set_of p.now) H.front self.now.matrix self.now.parts mu.now rnd.now)
            signature.old signature.new result }
    {
        // rho'' = H(K || rnd || mu)
        let key = self.key;
        let mask_seed = hash::<H, 64>(&[key.cap_k.as_slice(), rnd, mu]);
        for n in 0..MAX_SIGN_ATTEMPTS {
            // kappa = n l
            let kappa = n * L as u16;
            if self.attempt(p, mu, &mask_seed, kappa, signature)? {
                return Ok(());
            }
        }
        Err(Fault::TooManyAttempts)
    }

    /// The attempt at counter `kappa` with the seed `rho''` of the mask (lines 11 to 32): writes its signature, and
    /// returns false if it is rejected. `K`, `L` and `SIG_LEN` are those of the parameter set.
    ///
    /// Errors: `Fault::SamplingLimit` if its challenge reaches its limit. Nothing is written then, nor by one that is
    /// rejected.
    pub(crate) fn attempt<const SIG_LEN: usize>(
        &self,
        p: &Params,
        mu: &[u8; 64],
        mask_seed: &[u8; 64],
        kappa: u16,
        signature: &mut [u8; SIG_LEN],
    ) -> Result<bool, Fault>
        requires inputs { AreAttemptInputs p.now K L SIG_LEN kappa }
        ensures answer { attempted signature.new result
            ≡ attempt (set_of p.now) H.front self.now.matrix self.now.parts mu.now mask_seed.now kappa }
        ensures kept { result ≢ Ok true → signature.new ≡ signature.old }
    {
        // y = ExpandMask(rho'', kappa)
        let y = expand_mask::<L, H>(p.gamma1, mask_seed, kappa);
        // w = A y
        let mut w = [R0; K];
        write_matrix_product(self.a_hat, &y, &mut w);
        // w1 = HighBits(w)
        let mut w1 = [R0; K];
        write_high_vector(p.gamma2, &w, &mut w1);
        // c_tilde = H(mu || w1Encode(w1))
        let mut room = [0u8; 64];
        let c_tilde = &mut room[..p.c_tilde_len()];
        write_commitment_hash::<K, H>(p, mu, &w1, c_tilde);
        // c = SampleInBall(c_tilde)
        let c = sample_in_ball::<H>(p.tau, c_tilde)?;
        Ok(self.finish_attempt(p, &y, &mut w, &mut w1, c_tilde, &c, signature))
    }
}

impl<'a, const K: usize, const L: usize, H, G> SigningKey<'a, K, L, H, G> {
    /// Writes the signature of an attempt with mask `y`, `w = A y`, `c_tilde` and challenge. Returns false, and writes
    /// nothing, if one of the checks rejects it.
    ///
    /// Coefficients of `y` are in `[1 - gamma1, gamma1]`, those of `w` and `c` below `q` in absolute value.
    /// `K`, `L`, `SIG_LEN` and the length of `c_tilde` are those of the parameter set. Overwrites `w` and
    /// `rows` to save stack. Not inlined, so that what it needs leaves the stack before the next attempt.
    #[inline(never)]
    pub(crate) fn finish_attempt<const SIG_LEN: usize>(
        &self,
        p: &Params,
        y: &[R; L],
        w: &mut [R; K],
        rows: &mut [R; K],
        c_tilde: &[u8],
        c: &R,
        signature: &mut [u8; SIG_LEN],
    ) -> bool
        requires inputs { AreCheckInputs p.now K L SIG_LEN c_tilde.now y.now w.old c.now }
        ensures answer { attempted signature.new (Ok result)
            ≡ checked_attempt (set_of p.now) self.now.parts y.now (vector_coefficients w.old) c_tilde.now (Some c.now) }
        ensures kept { result ≢ true → signature.new ≡ signature.old }
    {
        // c_hat = NTT(c)
        let c_hat = Factor::of(c);
        let key = self.transforms;
        let mut products = Products::of(&c_hat, &key.s2_hat, &key.s1_hat);
        // r0 = LowBits(w - c s2), with a norm below gamma2 - beta: first, since it rejects most
        products.write_first(rows);
        write_difference(w, rows);
        write_low_vector(p.gamma2, w, rows);
        if !has_norm_below(rows, p.r0_bound()) {
            return false;
        }
        // z = y + c s1, with a norm below gamma1 - beta
        let mut z = [R0; L];
        products.write_second(&mut z);
        write_centred_sum(&mut z, y);
        if !has_norm_below(&z, p.z_bound()) {
            return false;
        }
        // c t0, with a norm below gamma2
        products.write_other(&key.t0_hat, rows);
        if !has_norm_below(rows, p.gamma2 as u32) {
            return false;
        }
        // h = MakeHint(-c t0, w - c s2 + c t0), with at most omega ones
        write_hint(p.gamma2, w, rows);
        if number_of_ones(rows) > p.omega as usize {
            return false;
        }
        // sigEncode(c_tilde, z, h)
        write_encoded_signature(p.gamma1, p.omega, c_tilde, &z, rows, signature);
        true
    }
}

/// Writes `HighBits` of each coefficient of `w`. `gamma2` is 95232 or 261888, and coefficients are below `q` in
/// absolute value.
// Compiled for AVX2 too.
fn write_high_vector<const K: usize>(gamma2: i32, w: &[R; K], out: &mut [R; K])
    requires set { IsGamma2 gamma2 }
    requires range { VectorWithin K 8380416 w.now }
    ensures { out.new ≡ vector_of K (λ r n. pos (high_bits (nat_abs gamma2) (vector_coefficients w.now r n))) }
{
    write_zip_vectors(
        out,
        w,
        |_, x|
            requires { IsGamma2 gamma2 × (nat_abs x ≤ 8380416) }
            ensures { result ≡ pos (high_bits (nat_abs gamma2) (residue x)) }
        { high_bits(gamma2, x) },
    );
}

/// Whether the norm of a vector of at least one polynomial is below an exclusive bound. Coefficients are
/// below `q` in absolute value.
pub(crate) fn has_norm_below<const N: usize>(v: &[R; N], bound: u32) -> bool
    requires rows { 1 ≤ N }
    requires range { VectorWithin N 8380416 v.now }
    ensures { result ≡ nat_lt (vector_norm v.now) bound }
{
    (infinity_norm(v) as u32) < bound
}

/// Adds `y` to `z`, centred. Coefficients of `y` are at most 524288, and those of `z` below `q`, in absolute value.
// Compiled for AVX2 too.
fn write_centred_sum<const L: usize>(z: &mut [R; L], y: &[R; L])
    requires mask { VectorWithin L 524288 y.now }
    requires product { VectorWithin L 8380416 z.old }
    ensures value { z.new ≡ vector_of L (λ r n.
        centred (pos (plus (vector_coefficients y.now r) (vector_coefficients z.old r) n))) }
    ensures range { VectorWithin L 8380416 z.new }
{
    write_zip_vectors(
        z,
        y,
        |product, mask|
            requires { (nat_abs product ≤ 8380416) × (nat_abs mask ≤ 524288) }
            ensures value { result ≡ centred (pos ((residue mask + residue product) % 8380417)) }
            ensures small { nat_abs result ≤ 8380416 }
        { center_mod(mask + product) },
    );
}

/// Takes `v` from `w`, which stays below `q` in absolute value, as coefficients of both are.
// Compiled for AVX2 too.
fn write_difference<const K: usize>(w: &mut [R; K], v: &[R; K])
    requires w { VectorWithin K 8380416 w.old }
    requires product { VectorWithin K 8380416 v.now }
    ensures values { (r n : ℕ) → r < K → n < 256
        → vector_coefficients w.new r n ≡ minus (vector_coefficients w.old r) (vector_coefficients v.now r) n }
    ensures range { VectorWithin K 8380416 w.new }
{
    write_zip_vectors(
        w,
        v,
        |x, product|
            requires { (nat_abs x ≤ 8380416) × (nat_abs product ≤ 8380416) }
            ensures value { residue result ≡ (residue x + 8380416 * residue product) % 8380417 }
            ensures small { nat_abs result ≤ 8380416 }
        { difference(x, product) },
    );
}

/// Writes `LowBits` of each coefficient of `v`, which are below `q` in absolute value.
// Compiled for AVX2 too.
fn write_low_vector<const K: usize>(gamma2: i32, v: &[R; K], out: &mut [R; K])
    requires set { IsGamma2 gamma2 }
    requires range { VectorWithin K 8380416 v.now }
    ensures value { out.new ≡ vector_of K (λ r n. low_bits (nat_abs gamma2) (vector_coefficients v.now r n)) }
    ensures range { VectorWithin K 8380416 out.new }
{
    write_zip_vectors(
        out,
        v,
        |_, x|
            requires { IsGamma2 gamma2 × (nat_abs x ≤ 8380416) }
            ensures value { result ≡ low_bits (nat_abs gamma2) (residue x) }
            ensures small { nat_abs result ≤ 8380416 }
        { low_bits(gamma2, x) },
    );
}

/// Writes the hint of `v = w - c s2` and `t = c t0` over `t`: `MakeHint` of `-t` and `v + t` at each coefficient.
/// `gamma2` is 95232 or 261888, and coefficients are below `q` in absolute value.
// Compiled for AVX2 too.
fn write_hint<const K: usize>(gamma2: i32, v: &[R; K], t: &mut [R; K])
    requires set { IsGamma2 gamma2 }
    requires v { VectorWithin K 8380416 v.now }
    requires t { VectorWithin K 8380416 t.old }
    ensures { t.new ≡ vector_of K (λ r n.
        hint_bit (nat_abs gamma2) (vector_coefficients v.now r n) (vector_coefficients t.old r n)) }
{
    write_zip_vectors(
        t,
        v,
        |t, x|
            requires { IsGamma2 gamma2 × (nat_abs x ≤ 8380416) × (nat_abs t ≤ 8380416) }
            ensures { result ≡ hint_bit (nat_abs gamma2) (residue x) (residue t) }
        { if make_hint(gamma2, -t, x + t) { 1 } else { 0 } },
    );
}

/// How many ones a hint has. `K` is at most 8.
fn number_of_ones<const K: usize>(h: &[R; K]) -> usize
    requires { K ≤ 8 }
    ensures { result ≡ length (all_ones h.now) }
{
    let mut total = 0usize;
    for row in h {
        for n in 0..256 {
            if row.0[n] > 0 {
                total += 1;
            }
        }
    }
    total
}

//! Verifying a signature (FIPS 204, Algorithm 8).
#![tactic(auto)]

ghost use Rattle.std.specs.Prelude.{◌≡◌, ◌≤◌, ◌<◌, ◌⊎◌, ◌-◌, ◌*◌, ◌%◌, ◌≤ℤ◌, ◌↔◌, ℕ, List, pos, nat_abs, IsTrue};
ghost use Rattle.std.specs.Prelude.{int_lt, IfSome, MatchOption, length};
ghost use Rattle.std.specs.List.{All};
ghost use Rattle.fips204_base.specs.Vectors.{IsVector, vector_coefficients};
ghost use Rattle.fips204_base.specs.Bounds.{PolynomialWithin, VectorWithin, PolynomialInRange};
ghost use Rattle.fips204_base.specs.PlainTransforms.{AreSameModQ};
ghost use Rattle.fips204_base.specs.Residues.{residue, coefficients};
ghost use Rattle.fips204_base.specs.Transforms.{minus, product};
ghost use Rattle.fips204_base.specs.Rounding.{IsGamma2, high_count, use_hint};
ghost use Rattle.fips204_base.specs.declared.types.R.{R};
ghost use Rattle.fips204_base.specs.declared.types.T.{T};
ghost use Rattle.fips204.specs.Acceptance.{Accepts, Verifies};
ghost use Rattle.fips204.specs.PreparedBytes.{IsMatrix, matrix_bytes};
ghost use Rattle.fips204.specs.Signing.{commitment_hash};
ghost use Rattle.fips204.specs.SigningInputs.{IsFactorOf, IsHighPart, hinted, AreShifted, OpensTo};
ghost use Rattle.fips204.specs.Sets.{HasSizes, set_of};

use super::commitment_hash::write_commitment_hash;
use super::matrix_bytes::{check_matrix, write_read_product};
use super::signing::has_norm_below;
use crate::types::{Params, PreparedPublicKey, PublicKey, R, R0};
use fips204_base::D;
use fips204_base::encodings::write_signature_parts;
use fips204_base::hashing::sample_in_ball;
use fips204_base::high_low::use_hint;
use fips204_base::maps::{map_vector, write_zip_vectors};
use fips204_base::product::{Factor, Transforms, write_sampled_product};
use fips204_base::xof::Xof;

/// `ML-DSA.Verify_internal` (Algorithm 8) from `mu`: returns true if and only if the signature is accepted.
///
/// `K`, `L` and `SIG_LEN` are those of the parameter set.
pub fn verify_internal<const K: usize, const L: usize, const SIG_LEN: usize, H: Xof, G: Xof>(
    p: &Params,
    pk: &PublicKey<K, L, H, G>,
    mu: &[u8; 64],
    sig: &[u8; SIG_LEN],
) -> bool
    requires sizes { HasSizes (set_of p.now) K L SIG_LEN }
    ensures { IsTrue result ↔ Verifies (set_of p.now) H.front G.front pk.now mu.now sig.now }
{
    let mut z = [R0; L];
    let mut h = [R0; K];
    let Some(parts) = open_signature::<K, L, H>(p, sig, &mut z, &mut h) else {
        return false;
    };
    let (c_tilde, c) = parts;
    // NTT(c), NTT(z)
    let mut az = Transforms::zeros();
    let c_hat = az.write_transforms_and_factor(&z, &c);
    // A = ExpandA(rho), A z
    match write_sampled_product::<K, L, G>(&pk.rho, &mut az) {
        Err(_) => false,
        Ok(()) => is_committed_by::<K, H>(p, mu, c_tilde, &h, &c_hat, &mut az, &pk.t1),
    }
}

/// `verify_internal` with the matrix of a prepared key.
pub(crate) fn verify_prepared<const K: usize, const L: usize, H: Xof>(
    p: &Params,
    pk: &PreparedPublicKey<K, L, H>,
    mu: &[u8; 64],
    sig: &[u8],
) -> bool
    requires sizes { HasSizes (set_of p.now) K L (length sig.now) }
    ensures { IsTrue result ↔ Accepts (set_of p.now) H.front pk.now.matrix pk.now.parts.t1 mu.now sig.now }
{
    let mut z = [R0; L];
    let mut h = [R0; K];
    let Some(parts) = open_signature::<K, L, H>(p, sig, &mut z, &mut h) else {
        return false;
    };
    let (c_tilde, c) = parts;
    // NTT(c), A z
    let mut az = Transforms::zeros();
    let c_hat = az.write_transforms_and_factor(&z, &c);
    az.multiply_by(&pk.a_hat);
    is_committed::<K, H>(p, mu, c_tilde, &h, &c_hat, &mut az, &pk.t1_hat)
}

/// `verify_prepared` with the matrix that has these bytes, or `None` if a value is `q` or more. The matrix is read
/// row by row.
pub(crate) fn verify_by_bytes<const K: usize, const L: usize, H: Xof>(
    p: &Params,
    t1: &[R; K],
    matrix: &[u8],
    mu: &[u8; 64],
    sig: &[u8],
) -> Option<bool>
    requires sizes { HasSizes (set_of p.now) K L (length sig.now) }
    requires part { IsHighPart K t1.now }
    requires room { length matrix.now ≡ 1024 * L * K }
    ensures { MatchOption result ((b : List (List T)) → IsMatrix K L b → matrix_bytes b ≡ matrix.now → ⊥)
        (λ yes. (a : List (List T)) × IsMatrix K L a × (matrix_bytes a ≡ matrix.now)
        × (IsTrue yes ↔ Accepts (set_of p.now) H.front a t1.now mu.now sig.now)) }
{
    let mut z = [R0; L];
    let mut h = [R0; K];
    let Some(parts) = open_signature::<K, L, H>(p, sig, &mut z, &mut h) else {
        check_matrix::<K, L>(matrix)?;
        return Some(false);
    };
    let (c_tilde, c) = parts;
    // NTT(c), A z
    let mut az = Transforms::zeros();
    let c_hat = az.write_transforms_and_factor(&z, &c);
    write_read_product::<K, L>(matrix, &mut az)?;
    Some(is_committed_by::<K, H>(p, mu, c_tilde, &h, &c_hat, &mut az, t1))
}

/// `is_committed` with `t1` itself, whose transforms are in the stack only here.
#[inline(never)]
fn is_committed_by<const K: usize, H: Xof>(
    p: &Params,
    mu: &[u8; 64],
    c_tilde: &[u8],
    h: &[R; K],
    c_hat: &Factor,
    az: &mut Transforms,
    t1: &[R; K],
) -> bool
    requires rows { K ≡ p.now.k }
    requires hint { IsVector K 0 1 h.now }
    requires part { IsHighPart K t1.now }
    ensures { (shifted : List R) × AreShifted K t1.now shifted × ((c : R) → IsFactorOf c_hat.now c → (IsTrue result
        ↔ (c_tilde.now ≡ commitment_hash (set_of p.now) H.front mu.now
        (hinted (set_of p.now) h.now (λ r. minus (vector_coefficients az.old r)
        (product (coefficients c.0) (vector_coefficients shifted r))))))) }
{
    // NTT(t1 2^d)
    let mut t1_hat = Transforms::zeros();
    write_shifted_transforms(t1, &mut t1_hat);
    is_committed::<K, H>(p, mu, c_tilde, h, c_hat, az, &t1_hat)
}

/// Whether `c_tilde` commits to `mu` and `w1' = UseHint(h, A z - c t1 2^d)` (lines 9 to 13). Uses `A z` up.
///
/// `c_hat` and `t1_hat` are what `c` and `t1 2^d` are multiplied as. Coefficients of `h` are 0 or 1, and `K` is that of
/// the parameter set.
///
/// Not inlined, so that its rows are not in the stack while `t1 2^d` is transformed.
#[inline(never)]
fn is_committed<const K: usize, H: Xof>(
    p: &Params,
    mu: &[u8; 64],
    c_tilde: &[u8],
    h: &[R; K],
    c_hat: &Factor,
    az: &mut Transforms,
    t1_hat: &Transforms,
) -> bool
    requires rows { K ≡ p.now.k }
    requires hint { IsVector K 0 1 h.now }
    ensures { (c : R) → IsFactorOf c_hat.now c → (IsTrue result
        ↔ (c_tilde.now ≡ commitment_hash (set_of p.now) H.front mu.now
        (hinted (set_of p.now) h.now (λ r. minus (vector_coefficients az.old r)
        (product (coefficients c.0) (vector_coefficients t1_hat.now r)))))) }
{
    // w'_approx = A z - c t1 2^d
    az.subtract_multiple(c_hat, t1_hat);
    let mut w = [R0; K];
    az.write_plain(&mut w);
    // w1' = UseHint(h, w'_approx)
    write_hinted(p, h, &mut w);
    // c_tilde = H(mu || w1Encode(w1'))
    let mut room = [0u8; 64];
    let recomputed = &mut room[..p.c_tilde_len()];
    write_commitment_hash::<K, H>(p, mu, &w, recomputed);
    *c_tilde == *recomputed
}

/// Writes the vectors `z` and `h` that a signature opens to (lines 2 to 8), and returns its `c_tilde` and challenge, or
/// `None` if its last bytes spell no hint, the norm of `z` is not below gamma1 - beta, or the challenge passes its
/// limit. Coefficients of `z` and of the challenge are below `q` in absolute value.
///
/// Not inlined, so that what decoding needs leaves the stack before the parts are used.
#[inline(never)]
fn open_signature<'a, const K: usize, const L: usize, H: Xof>(
    p: &Params,
    sig: &'a [u8],
    z: &mut [R; L],
    h: &mut [R; K],
) -> Option<(&'a [u8], R)>
    requires sizes { HasSizes (set_of p.now) K L (length sig.now) }
    ensures within { IfSome result (λ parts. ((K ≤ 8) × (L ≤ 7))
        × VectorWithin L 8380416 z.new × PolynomialWithin 8380416 parts.1.0) }
    ensures parts { MatchOption result
        ((c_tilde : List ℕ) (z h : List R) (c : R) → OpensTo (set_of p.now) H.front sig.now c_tilde z h c → ⊥)
        (λ parts. OpensTo (set_of p.now) H.front sig.now parts.0.now z.new h.new parts.1) }
{
    // (c_tilde, z, h) = sigDecode(sigma)
    let c_tilde = write_signature_parts(p.gamma1, p.omega, p.c_tilde_len(), sig, z, h)?;
    // ||z|| < gamma1 - beta
    if !has_norm_below(z, p.z_bound()) {
        return None;
    }
    // c = SampleInBall(c_tilde)
    match sample_in_ball::<H>(p.tau, c_tilde) {
        Err(_) => None,
        Ok(c) => Some((c_tilde, c)),
    }
}

/// Writes `w1' = UseHint(h, w)` (line 10) over `w`.
///
/// Coefficients of `w` are below `q` in absolute value, those of `h` 0 or 1. `K` is that of the parameter set.
// Compiled for AVX2 too.
fn write_hinted<const K: usize>(p: &Params, h: &[R; K], w: &mut [R; K])
    requires rows { K ≡ p.now.k }
    requires range { VectorWithin K 8380416 w.old }
    requires hint { IsVector K 0 1 h.now }
    ensures values { w.new ≡ hinted (set_of p.now) h.now (vector_coefficients w.old) }
    ensures range { All (λ w. PolynomialInRange (pos 0) (pos (high_count (nat_abs p.now.gamma2) - 1)) w.0) w.new }
{
    let gamma2 = p.gamma2;
    write_zip_vectors(
        w,
        h,
        |w, h|
            requires { IsGamma2 gamma2 × (nat_abs w ≤ 8380416) × ((h ≡ pos 0) ⊎ (h ≡ pos 1)) }
            ensures { result ≡ pos (use_hint (nat_abs gamma2) (int_lt (pos 0) h) (residue w)) }
        { use_hint(gamma2, h, w) },
    );
}

/// Writes the transforms of `t1 2^d`.
///
/// Not inlined, so that `t1 2^d` itself leaves the stack before they are used.
#[inline(never)]
pub(crate) fn write_shifted_transforms<const K: usize>(t1: &[R; K], out: &mut Transforms)
    requires few { K ≤ 8 }
    requires part { IsHighPart K t1.now }
    ensures { AreShifted K t1.now out.new }
{
    out.write_transforms(&t1_shifted(t1));
}

/// `t1 2^d`, with coefficients from 0 to `q - 1`.
fn t1_shifted<const K: usize>(t1: &[R; K]) -> [R; K]
    requires { IsHighPart K t1.now }
    ensures values { AreShifted K t1.now result }
    ensures range { VectorWithin K 8380416 result }
{
    map_vector(
        t1,
        |x|
            requires { (pos 0 ≤ℤ x) × (x ≤ℤ pos 1023) }
            ensures value { residue result ≡ 8192 * residue x % 8380417 }
            ensures small { nat_abs result ≤ 8380416 }
        { x << D },
    )
}

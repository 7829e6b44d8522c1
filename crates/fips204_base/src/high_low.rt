//! Rounding and hints (FIPS 204, Algorithms 35 to 40).
#![tactic(auto)]

ghost use Rattle.std.specs.Prelude.{◌≡◌, ◌⊎◌, ◌<◌, ◌≤◌, ◌+◌, ◌-◌, ◌*◌, ◌/◌, ℤ, pos, ◌≤ℤ◌, nat_abs, int_lt};
ghost use Rattle.fips204_base.specs.Residues.{residue};
ghost use Rattle.fips204_base.specs.Vectors.{vector_coefficients, vector_of};
ghost use Rattle.fips204_base.specs.Bounds.{IsResidueVector};
ghost use Rattle.fips204_base.specs.Rounding.{IsGamma2, power2round, high_bits, low_bits, make_hint, high_count, use_hint};

use crate::D;
use crate::helpers::full_reduce32;
use crate::maps::{write_map_vector, write_zip_vectors};
use crate::types::{R, R0, Zq};

/// `Power2Round` (FIPS 204, Algorithm 35) of each coefficient, from 0 to `q - 1`: the high parts,
/// from 0 to 1023, and the low parts, from -4095 to 4096.
pub fn power2round<const K: usize>(r: &[R; K]) -> ([R; K], [R; K])
    requires { IsResidueVector K r.now }
    ensures high { result.0 ≡ vector_of K (λ i n. pos (power2round (vector_coefficients r.now i n)).0) }
    ensures low { result.1 ≡ vector_of K (λ i n. (power2round (vector_coefficients r.now i n)).1) }
{
    let mut high = [R0; K];
    let mut low = *r;
    write_power2round(&mut low, &mut high);
    (high, low)
}

/// `power2round` of each coefficient of `r`, in place: the high parts are written into `high`, and the low parts
/// over `r`. Internal: serves the crate `fips204` alone.
pub fn write_power2round<const K: usize>(r: &mut [R; K], high: &mut [R; K])
    requires { IsResidueVector K r.old }
    ensures high { high.new ≡ vector_of K (λ i n. pos (power2round (vector_coefficients r.old i n)).0) }
    ensures low { r.new ≡ vector_of K (λ i n. (power2round (vector_coefficients r.old i n)).1) }
{
    write_zip_vectors(
        high,
        r,
        |_, x|
            requires { (pos 0 ≤ℤ x) × (x ≤ℤ pos 8380416) }
            ensures { result ≡ pos (power2round (residue x)).0 }
        { power2round_coefficient(x).0 },
    );
    write_map_vector(
        r,
        |x|
            requires { (pos 0 ≤ℤ x) × (x ≤ℤ pos 8380416) }
            ensures { result ≡ (power2round (residue x)).1 }
        { power2round_coefficient(x).1 },
    );
}

/// `power2round` of one coefficient.
fn power2round_coefficient(r: Zq) -> (Zq, Zq)
    requires low { pos 0 ≤ℤ r }
    requires high { r ≤ℤ pos 8380416 }
    ensures high { result.0 ≡ pos (power2round (residue r)).0 }
    ensures low { result.1 ≡ (power2round (residue r)).1 }
{
    // r0 = r mod± 2^d, r1 = (r - r0) / 2^d
    let high = (r + 4095) >> D;
    (high, r - (high << D))
}

/// `Decompose` (FIPS 204, Algorithm 36) of `r` modulo `q`, as the high and the low bits, where
/// `gamma2` is 95232 or 261888 and `r` is below `2^31 - 2^22` in absolute value. The high bits are
/// from 0 to 43 or to 15, the low bits from `-gamma2` to `gamma2`.
// Rust: #[inline(always)]
pub fn decompose(gamma2: i32, r: Zq) -> (Zq, Zq)
    requires set { IsGamma2 gamma2 }
    requires range { nat_abs r < 2143289344 }
    ensures high { result.0 ≡ pos (high_bits (nat_abs gamma2) (residue r)) }
    ensures low { result.1 ≡ low_bits (nat_abs gamma2) (residue r) }
{
    // r+ = r mod q, r0 = r+ mod± (2 gamma2)
    let residue = full_reduce32(r);
    let quotient = nearest_quotient(gamma2 as u32, residue as u32) as i32;
    let multiple = quotient * (2 * gamma2);
    let low = residue - multiple;
    if multiple == 8380416 {
        // r+ - r0 = q - 1: r1 = 0, r0 = r0 - 1
        (0, low - 1)
    } else {
        // r1 = (r+ - r0) / (2 gamma2)
        (quotient, low)
    }
}

/// The quotient of `r` by `2 gamma2` that is nearest, the lower one of two. The reciprocals are of
/// `2 gamma2 / 128`: `1488 * 11275` is `2^24 - 16`, and `4092 * 1025` is `2^22 - 4`.
#[tactic(auto, using(crate::proofs::Rounding::reciprocal_95232, crate::proofs::Rounding::reciprocal_261888))]
// Rust: #[inline(always)]
fn nearest_quotient(gamma2: u32, r: u32) -> u32
    requires set { (gamma2 ≡ 95232) ⊎ (gamma2 ≡ 261888) }
    requires range { r < 8380417 }
    ensures { result ≡ (r + gamma2 - 1) / (2 * gamma2) }
{
    let blocks = (r + 127) >> 7;
    if gamma2 == 95232 {
        (blocks * 11275 + (1 << 23)) >> 24
    } else {
        (blocks * 1025 + (1 << 21)) >> 22
    }
}

/// `HighBits` (FIPS 204, Algorithm 37), under the conditions of `decompose`.
// Rust: #[inline(always)]
pub fn high_bits(gamma2: i32, r: Zq) -> Zq
    requires set { IsGamma2 gamma2 }
    requires range { nat_abs r < 2143289344 }
    ensures { result ≡ pos (high_bits (nat_abs gamma2) (residue r)) }
{
    decompose(gamma2, r).0
}

/// `LowBits` (FIPS 204, Algorithm 38), under the conditions of `decompose`.
// Rust: #[inline(always)]
pub fn low_bits(gamma2: i32, r: Zq) -> Zq
    requires set { IsGamma2 gamma2 }
    requires range { nat_abs r < 2143289344 }
    ensures { result ≡ low_bits (nat_abs gamma2) (residue r) }
{
    decompose(gamma2, r).1
}

/// `MakeHint` (FIPS 204, Algorithm 39): whether the high bits of `r + z` differ from those of `r`,
/// where `gamma2` is 95232 or 261888 and `z` and `r` are at most 1071644671 in absolute value.
// Rust: #[inline(always)]
pub fn make_hint(gamma2: i32, z: Zq, r: Zq) -> bool
    requires set { IsGamma2 gamma2 }
    requires z { nat_abs z ≤ 1071644671 }
    requires r { nat_abs r ≤ 1071644671 }
    ensures { result ≡ make_hint (nat_abs gamma2) (residue z) (residue r) }
{
    // r1 = HighBits(r), v1 = HighBits(r + z), r1 != v1
    high_bits(gamma2, r) != high_bits(gamma2, r + z)
}

/// `UseHint` (FIPS 204, Algorithm 40): the high bits of `r`, which a hint moves by one, up if the low bits are
/// above 0 and else down, and round at the ends. `h` is 0 or 1, and the conditions of `decompose` hold.
// Rust: #[inline(always)]
pub fn use_hint(gamma2: i32, h: Zq, r: Zq) -> Zq
    requires set { IsGamma2 gamma2 }
    requires hint { (h ≡ pos 0) ⊎ (h ≡ pos 1) }
    requires range { nat_abs r < 2143289344 }
    ensures { result ≡ pos (use_hint (nat_abs gamma2) (int_lt (pos 0) h) (residue r)) }
{
    // (r1, r0) = Decompose(r), m = (q - 1) / (2 gamma2)
    let (high, low) = decompose(gamma2, r);
    if h == 0 {
        return high;
    }
    let last = high_count(gamma2 as u32) - 1;
    if low > 0 {
        // h = 1 and r0 > 0: (r1 + 1) mod m
        if high == last { 0 } else { high + 1 }
    } else {
        // h = 1 and r0 <= 0: (r1 - 1) mod m
        if high == 0 { last } else { high - 1 }
    }
}

/// The number of values of high bits: `(q - 1) / (2 gamma2)`.
// Rust: #[inline(always)]
pub(crate) fn high_count(gamma2: u32) -> Zq
    requires { (gamma2 ≡ 95232) ⊎ (gamma2 ≡ 261888) }
    ensures { result ≡ pos (high_count gamma2) }
{
    if gamma2 == 95232 { 44 } else { 16 }
}

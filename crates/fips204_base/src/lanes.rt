//! Eight values for the butterflies side by side in lanes, which go through each step at once.
#![tactic(auto)]

ghost use Rattle.std.specs.Prelude.{◌≡◌, ℕ, ◌<◌, ◌≤◌, ◌+◌, ◌*◌, ◌%◌, ◌≢◌, pos, ◌+ℤ◌, ◌*ℤ◌, nat_abs, FitsSigned};
ghost use Rattle.std.specs.Int.{int_rem_euclid, int_div_euclid, int_wrap, w32, w64};
ghost use Rattle.fips204_base.specs.Residues.{residue, IsCongruent};
ghost use Rattle.fips204_base.specs.PlainTransforms.{from_mont};
ghost use Rattle.fips204_base.specs.Lanes.{lane, HasQuotient};
ghost use Rattle.fips204_base.specs.Bounds.{EachLane};

use crate::Q;
use crate::helpers::count::Count;
use crate::helpers::residue::Residue;
use crate::helpers::zeta_table::{neg_zeta_words, zeta_words};
use std::marker::Model;
use std::simd::{i32x8, i64x4};

/// Eight `i32` lanes. Contracts see the list of them.
#[derive(Clone, Copy)]
pub struct Lanes(i32x8);

impl Model for Lanes {
    ghost use Rattle.std.specs.Prelude.{List, ℤ};
    ghost use Rattle.fips204_base.specs.Network.{AreEight};

    ghost Value = { List ℤ };

    ghost view = { λ x. x.0 };

    ghost invariant = { λ x. AreEight x.0 };

    ghost inverse = { λ xs. record { 0 = xs } };
}

impl Lanes {
    /// The lanes whose lane `i` is entry `i`.
    pub fn from_array(entries: [i32; 8]) -> Lanes
        ensures { result ≡ entries }
    {
        // a proof knows the range of each entry once it is read
        let [a, b, c, d, e, f, g, h] = entries;
        Lanes(i32x8::from_array([a, b, c, d, e, f, g, h]))
    }

    /// The array whose entry `i` is lane `i`.
    pub fn to_array(self) -> [i32; 8]
        ensures { result ≡ self }
    {
        self.0.to_array()
    }

    /// The lanes with `x` in lane `r`.
    pub(crate) fn with_lane(self, r: usize, x: i32) -> Lanes
        requires { r < 8 }
        ensures lane { lane result r ≡ x }
        ensures others { (j : ℕ) → j ≢ r → lane result j ≡ lane self j }
    {
        let places = i32x8::from_array([0, 1, 2, 3, 4, 5, 6, 7]);
        let at = places.simd_eq(i32x8::splat(r as i32));
        Lanes(at.select(i32x8::splat(x), self.0))
    }

    /// The first four lanes, and after them those of `other`.
    pub(crate) fn concat_low(self, other: Lanes) -> Lanes
        ensures first { (j : ℕ) → j < 4 → lane result j ≡ lane self j }
        ensures second { (j : ℕ) → j < 4 → lane result (4 + j) ≡ lane other j }
    {
        let [a, b, c, d, _, _, _, _] = self.to_array();
        let [e, f, g, h, _, _, _, _] = other.to_array();
        Lanes::from_array([a, b, c, d, e, f, g, h])
    }

    /// The last four lanes, and after them the first four.
    pub(crate) fn swap_halves(self) -> Lanes
        ensures { (j : ℕ) → j < 8 → lane result j ≡ lane self ((4 + j) % 8) }
    {
        let [a, b, c, d, e, f, g, h] = self.to_array();
        Lanes::from_array([e, f, g, h, a, b, c, d])
    }

    /// Each lane times a factor in Montgomery form, modulo `q` and below `q` in absolute value, as the factor is.
    pub(crate) fn times(self, factor: i32) -> Lanes
        requires { nat_abs factor ≤ 8380416 }
        ensures value { EachLane (λ x y. residue y ≡ from_mont (residue factor) * residue x % 8380417) 8 self result }
        ensures small { (j : ℕ) → j < 8 → nat_abs (lane result j) ≤ 8380416 }
    {
        mont_products(self, factor_words(factor))
    }

    /// Each lane minus that of other lanes, modulo `q` and below `q` in absolute value, as lanes of both are.
    pub(crate) fn minus(self, other: Lanes) -> Lanes
        requires first { (j : ℕ) → j < 8 → nat_abs (lane self j) ≤ 8380416 }
        requires second { (j : ℕ) → j < 8 → nat_abs (lane other j) ≤ 8380416 }
        ensures value { (j : ℕ) → j < 8
            → residue (lane result j) ≡ (residue (lane self j) + 8380416 * residue (lane other j)) % 8380417 }
        ensures small { (j : ℕ) → j < 8 → nat_abs (lane result j) ≤ 8380416 }
    {
        self.sub(other, &mut Count::new()).reduce()
    }
}

/// One step of the meter is one step in all eight lanes.
impl Residue for Lanes {
    type Meter = Count;

    ghost lanes = { λ x. x };

    ghost width = { 8 };

    ghost products = { λ count. count.products };

    ghost sums = { λ count. count.sums };

    // Rust: #[inline(always)]
    fn add(self, other: Lanes, meter: &mut Count) -> Lanes {
        meter.sums += 1;
        Lanes(self.0.strict_add(other.0))
    }

    // Rust: #[inline(always)]
    fn sub(self, other: Lanes, meter: &mut Count) -> Lanes {
        meter.sums += 1;
        Lanes(self.0.strict_sub(other.0))
    }

    // Rust: #[inline(always)]
    fn mul_zeta(self, m: usize, meter: &mut Count) -> Lanes {
        meter.products += 1;
        mont_products(self, zeta_words(m))
    }

    // Rust: #[inline(always)]
    fn mul_neg_zeta(self, m: usize, meter: &mut Count) -> Lanes {
        meter.products += 1;
        mont_products(self, neg_zeta_words(m))
    }

    // Rust: #[inline(always)]
    fn reduce(self) -> Lanes {
        let near = (self.0 + i32x8::splat(1 << 22)) >> i32x8::splat(23);
        Lanes(self.0 - near * i32x8::splat(Q))
    }

    // Rust: #[inline(always)]
    fn finish(self) -> Lanes {
        // 8347681 * 2^32 is 16382 modulo q
        add_q_if_negative(mont_products(self, factor_words(16382)))
    }
}

/// Each lane times a factor, which comes as its words, and the inverse of `2^32` modulo `q`, below `q` in absolute value.
// Rust: #[inline(always)]
fn mont_products(x: Lanes, words: i64) -> Lanes
    requires factor { nat_abs (int_wrap w32 words) ≤ 8380416 }
    requires quotient { HasQuotient words }
    ensures congruent { EachLane (λ x y. IsCongruent (4294967296 * residue y) (residue x * residue (int_wrap w32 words))) 8 x result }
    ensures small { (j : ℕ) → j < 8 → nat_abs (lane result j) ≤ 8380416 }
{
    let word = i64x4::splat(32);
    let both = pairs(x.0);
    let even = wide_products((both << word) >> word, words);
    let odd = wide_products(both >> word, words);
    Lanes(even.shuffle(odd, [1, 9, 3, 11, 5, 13, 7, 15]))
}

/// Those products of four lanes, each of them the high half of 64 bits: the odd lanes.
///
/// A product of numbers of 32 bits in lanes of 64 is one instruction. Both words come as one number of 64 bits: so the
/// compiler still knows, where a loop keeps them, that each has 32 bits.
#[inline(always)]
fn wide_products(x: i64x4, words: i64) -> i32x8
    requires fits { (j : ℕ) → j < 4 → FitsSigned w32 (lane x j) }
    requires factor { nat_abs (int_wrap w32 words) ≤ 8380416 }
    requires quotient { HasQuotient words }
    ensures congruent { (j : ℕ) → j < 4 →
        IsCongruent (4294967296 * residue (lane result (2 * j + 1))) (residue (lane x j) * residue (int_wrap w32 words)) }
    ensures small { (j : ℕ) → j < 4 → nat_abs (lane result (2 * j + 1)) ≤ 8380416 }
{
    let both = i64x4::splat(words);
    let word = i64x4::splat(32);
    // t = the low word of x factor q^-1, and x factor - t q is a multiple of 2^32
    let low = ((x * (both >> word)) << word) >> word;
    let whole = x * ((both << word) >> word) - low * i64x4::splat(8380417);
    halves(whole)
}

/// Lanes as numbers of 64 bits, whose high halves are the odd lanes, and whose low ones have the bits of the even lanes.
#[inline(always)]
fn pairs(x: i32x8) -> i64x4
    requires { (j : ℕ) → j < 8 → FitsSigned w32 (lane x j) }
    ensures { (j : ℕ) → j < 4 → lane result j
        ≡ lane x (2 * j + 1) *ℤ pos 4294967296 +ℤ int_rem_euclid (lane x (2 * j)) (pos 4294967296) }
{
    i64x4::from_le_bytes(x.to_le_bytes())
}

/// Numbers of 64 bits as their halves, of which the high ones are the odd lanes.
#[inline(always)]
fn halves(x: i64x4) -> i32x8
    requires { (j : ℕ) → j < 4 → FitsSigned w64 (lane x j) }
    ensures { (j : ℕ) → j < 4 → lane result (2 * j + 1) ≡ int_div_euclid (lane x j) (pos 4294967296) }
{
    i32x8::from_le_bytes(x.to_le_bytes())
}

/// The words of a factor: the low one is the factor, and the high one gives its lowest 32 bits if it is multiplied by
/// `q`; 58728449 is the inverse of `q` modulo `2^32`.
// Rust: #[inline(always)]
fn factor_words(factor: i32) -> i64
    ensures factor { int_wrap w32 result ≡ factor }
    ensures quotient { HasQuotient result }
{
    u64::from(factor.cast_unsigned())
        .wrapping_mul((58728449 << 32) + 1)
        .cast_signed()
}

/// Each lane modulo `q`, from 0 to `q - 1`, for lanes below `q` in absolute value.
// Rust: #[inline(always)]
fn add_q_if_negative(x: Lanes) -> Lanes
    requires { (j : ℕ) → j < 8 → nat_abs (lane x j) ≤ 8380416 }
    ensures { EachLane (λ x y. y ≡ pos (residue x)) 8 x result }
{
    Lanes(x.0 - (x.0 >> i32x8::splat(31)) * i32x8::splat(Q))
}

//! The values that the butterflies work on.
#![tactic(auto)]

ghost use Rattle.std.specs.Prelude.{◌≡◌, ℕ, ◌<◌, ◌≤◌, ◌+◌, ◌*◌, ◌%◌, ◌^◌, List, ℤ, pos, ◌+ℤ◌, ◌-ℤ◌, nat_abs, FitsSigned};
ghost use Rattle.std.specs.Int.{w32};
ghost use Rattle.fips204_base.specs.Residues.{residue, IsCongruent};
ghost use Rattle.fips204_base.specs.Transforms.{zeta_at};
ghost use Rattle.fips204_base.specs.Lanes.{lane};
ghost use Rattle.fips204_base.specs.Bounds.{EachLane};

use crate::Q;
use crate::helpers::count::Count;
use crate::helpers::reduce::{mont_reduce, partial_reduce32, wide_product};
use crate::helpers::zeta_table::zeta_mont;

/// A value that the butterflies work on, seen as a row of lanes: `lanes` has `width` entries. Each operation
/// works on every lane. Products, sums and differences raise the meter, whose two counts stay below `2^64`:
/// the caller shows that there is room. Nothing here can make, copy or read a meter.
pub trait Residue: Copy {
    /// The meter, which counts the steps.
    type Meter;

    ghost lanes: { Self → List ℤ };

    ghost width: { ℕ };

    ghost products: { Self.Meter → ℕ };

    ghost sums: { Self.Meter → ℕ };

    /// The sum, which fits `i32` in each lane.
    fn add(self, other: Self, meter: &mut Self::Meter) -> Self
        requires room { sums meter.old + 1 < 2 ^ 64 }
        requires fits { (j : ℕ) → j < width → FitsSigned w32 (lane (lanes self) j +ℤ lane (lanes other) j) }
        ensures value { (j : ℕ) → j < width → lane (lanes result) j ≡ lane (lanes self) j +ℤ lane (lanes other) j }
        ensures products_same { products meter.new ≡ products meter.old }
        ensures sums_up { sums meter.new ≡ sums meter.old + 1 };

    /// The difference, which fits `i32` in each lane.
    fn sub(self, other: Self, meter: &mut Self::Meter) -> Self
        requires room { sums meter.old + 1 < 2 ^ 64 }
        requires fits { (j : ℕ) → j < width → FitsSigned w32 (lane (lanes self) j -ℤ lane (lanes other) j) }
        ensures value { (j : ℕ) → j < width → lane (lanes result) j ≡ lane (lanes self) j -ℤ lane (lanes other) j }
        ensures products_same { products meter.new ≡ products meter.old }
        ensures sums_up { sums meter.new ≡ sums meter.old + 1 };

    /// The product with `zeta^BitRev8(m)` modulo `q`, below `q` in absolute value, for `m` below
    /// 256.
    fn mul_zeta(self, m: usize, meter: &mut Self::Meter) -> Self
        requires room { products meter.old + 1 < 2 ^ 64 }
        requires place { m < 256 }
        ensures value { EachLane (λ x y. IsCongruent (residue y) (zeta_at m * residue x)) width (lanes self) (lanes result) }
        ensures small { (j : ℕ) → j < width → nat_abs (lane (lanes result) j) ≤ 8380416 }
        ensures products_up { products meter.new ≡ products meter.old + 1 }
        ensures sums_same { sums meter.new ≡ sums meter.old };

    /// The product with `-zeta^BitRev8(m)` modulo `q`, below `q` in absolute value, for `m` below
    /// 256.
    fn mul_neg_zeta(self, m: usize, meter: &mut Self::Meter) -> Self
        requires room { products meter.old + 1 < 2 ^ 64 }
        requires place { m < 256 }
        ensures value { EachLane (λ x y. IsCongruent (residue y) (8380416 * (zeta_at m * residue x))) width (lanes self) (lanes result) }
        ensures small { (j : ℕ) → j < width → nat_abs (lane (lanes result) j) ≤ 8380416 }
        ensures products_up { products meter.new ≡ products meter.old + 1 }
        ensures sums_same { sums meter.new ≡ sums meter.old };

    /// A value congruent and below `q` in absolute value, for one below `2^31 - 2^22` in absolute value.
    fn reduce(self) -> Self
        requires range { (j : ℕ) → j < width → nat_abs (lane (lanes self) j) < 2143289344 }
        ensures value { EachLane (λ x y. residue y ≡ residue x) width (lanes self) (lanes result) }
        ensures small { (j : ℕ) → j < width → nat_abs (lane (lanes result) j) ≤ 8380416 };

    /// The product with 8347681, the inverse of 256, modulo `q`, from 0 to `q - 1`.
    fn finish(self) -> Self
        ensures { EachLane (λ x y. y ≡ pos (8347681 * residue x % 8380417)) width (lanes self) (lanes result) };
}

impl Residue for i32 {
    ghost use Rattle.std.specs.Prelude.{◌∷◌, []};

    type Meter = Count;

    ghost lanes = { λ x. x ∷ [] };

    ghost width = { 1 };

    ghost products = { λ count. count.products };

    ghost sums = { λ count. count.sums };

    // Rust: #[inline(always)]
    fn add(self, other: i32, meter: &mut Count) -> i32 {
        meter.sums += 1;
        self + other
    }

    // Rust: #[inline(always)]
    fn sub(self, other: i32, meter: &mut Count) -> i32 {
        meter.sums += 1;
        self - other
    }

    // Rust: #[inline(always)]
    fn mul_zeta(self, m: usize, meter: &mut Count) -> i32 {
        meter.products += 1;
        mont_product(self, zeta_mont(m))
    }

    // Rust: #[inline(always)]
    fn mul_neg_zeta(self, m: usize, meter: &mut Count) -> i32 {
        meter.products += 1;
        mont_product(self, -zeta_mont(m))
    }

    // Rust: #[inline(always)]
    fn reduce(self) -> i32 {
        partial_reduce32(self)
    }

    // Rust: #[inline(always)]
    fn finish(self) -> i32 {
        // 8347681 * 2^32 is 16382 modulo q
        let near = mont_product(self, 16382);
        if near < 0 { near + Q } else { near }
    }
}

/// The product times the inverse of `2^32` modulo `q`, below `q` in absolute value.
// Rust: #[inline(always)]
fn mont_product(x: i32, factor: i32) -> i32
    requires { nat_abs factor ≤ 8380416 }
    ensures congruent { IsCongruent (4294967296 * residue result) (residue x * residue factor) }
    ensures small { nat_abs result ≤ 8380416 }
{
    mont_reduce(wide_product(x, factor))
}

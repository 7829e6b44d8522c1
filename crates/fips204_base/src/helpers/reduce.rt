//! Reductions modulo `q`.
#![tactic(auto)]

ghost use Rattle.std.specs.Prelude.{◌≡◌, ◌<◌, ◌≤◌, ◌+◌, ◌*◌, ◌/◌, ◌%◌, ℤ, pos, ◌-ℤ◌, ◌*ℤ◌, ◌≤ℤ◌, nat_abs};
ghost use Rattle.std.specs.Int.{int_rem_euclid};
ghost use Rattle.fips204_base.specs.Residues.{residue, IsCongruent, centred};
ghost use Rattle.fips204_base.specs.Bounds.{IsMontgomery};

use crate::Q;

/// `MontgomeryReduce` (FIPS 204, Algorithm 49): `a` times the inverse of `2^32` modulo `q`, strictly
/// between `-q` and `q`, for `a` from `-2^31 q` to `(2^31 - 1) q`.
// Rust: #[inline(always)]
pub fn mont_reduce(a: i64) -> i32
    requires low { (pos 0 -ℤ pos 17996808470921216) ≤ℤ a }
    requires high { a ≤ℤ pos 17996808462540799 }
    ensures value { IsMontgomery a result }
    ensures congruent { IsCongruent (4294967296 * residue result) (residue a) }
    ensures small { nat_abs result ≤ 8380416 }
{
    let factor = signed_factor(a);
    high_word(a - wide_product(factor, Q))
}

/// The signed word whose product with `q` has the lowest 32 bits of `a`; 58728449 is the inverse of `q` modulo
/// `2^32`.
// Rust: #[inline(always)]
fn signed_factor(a: i64) -> i32
    ensures { int_rem_euclid (result *ℤ pos 8380417) (pos 4294967296) ≡ int_rem_euclid a (pos 4294967296) }
{
    let low = (a.cast_unsigned() % 4294967296) as u32;
    low.wrapping_mul(58728449).cast_signed()
}

/// The quotient of a multiple of `2^32`.
// Rust: #[inline(always)]
fn high_word(a: i64) -> i32
    requires whole { int_rem_euclid a (pos 4294967296) ≡ pos 0 }
    ensures { a ≡ pos 4294967296 *ℤ result }
{
    (a >> 32) as i32
}

/// The product, which always fits.
// Rust: #[inline(always)]
pub(crate) fn wide_product(x: i32, y: i32) -> i64
    ensures { result ≡ x *ℤ y }
{
    i64::from(x) * i64::from(y)
}

/// A number congruent to `a` and below `q` in absolute value, for `a` of an absolute value of at
/// most `67000000 * 2^32`.
// Rust: #[inline(always)]
pub fn partial_reduce64(a: i64) -> i32
    requires { nat_abs a ≤ 287762808832000000 }
    ensures congruent { residue result ≡ residue a }
    ensures small { nat_abs result ≤ 8380416 }
{
    partial_reduce32(folded(folded(folded(a))) as i32)
}

/// `partial_reduce64` of a sum of at most seven products of numbers below `q`.
// Rust: #[inline(always)]
pub(crate) fn reduce_sum(a: i64) -> i32
    requires { nat_abs a ≤ 491619606331392 }
    ensures congruent { residue result ≡ residue a }
    ensures small { nat_abs result ≤ 8380416 }
{
    partial_reduce32(folded_sum(folded_sum(a)) as i32)
}

/// A number congruent to `a` and smaller about a thousand times; `2^23` is 8191 modulo `q`.
// Rust: #[inline(always)]
fn folded(a: i64) -> i64
    requires { nat_abs a ≤ 287762808832000000 }
    ensures congruent { residue result ≡ residue a }
    ensures small { nat_abs result ≤ nat_abs a / 1024 + 8396800 }
{
    a - (a >> 23) * i64::from(Q)
}

/// `folded` of such a sum: the product is one of numbers of 32 bits, which is one instruction.
// Rust: #[inline(always)]
fn folded_sum(a: i64) -> i64
    requires { nat_abs a ≤ 491619606331392 }
    ensures congruent { residue result ≡ residue a }
    ensures small { nat_abs result ≤ nat_abs a / 1024 + 8396800 }
{
    a - wide_product((a >> 23) as i32, Q)
}

/// A number congruent to `a` and below `q` in absolute value, for `a` below `2^31 - 2^22` in absolute value.
// Rust: #[inline(always)]
pub fn partial_reduce32(a: i32) -> i32
    requires { nat_abs a < 2143289344 }
    ensures congruent { residue result ≡ residue a }
    ensures small { nat_abs result ≤ 8380416 }
{
    a - ((a + (1 << 22)) >> 23) * Q
}

/// The difference modulo `q` of two numbers below `q` in absolute value, and again below `q` in absolute
/// value. Internal: serves the crate `fips204` alone.
// Rust: #[inline(always)]
pub fn difference(x: i32, y: i32) -> i32
    requires x { nat_abs x ≤ 8380416 }
    requires y { nat_abs y ≤ 8380416 }
    ensures value { residue result ≡ (residue x + 8380416 * residue y) % 8380417 }
    ensures small { nat_abs result ≤ 8380416 }
{
    partial_reduce32(x - y)
}

/// `a` modulo `q`, from 0 to `q - 1`, for `a` below `2^31 - 2^22` in absolute value.
// Rust: #[inline(always)]
pub fn full_reduce32(a: i32) -> i32
    requires { nat_abs a < 2143289344 }
    ensures { result ≡ pos (residue a) }
{
    let near = partial_reduce32(a);
    if near < 0 { near + Q } else { near }
}

/// `m` modulo `q`, from `-(q - 1) / 2` to `(q - 1) / 2`, for `m` below `2^31 - 2^22` in absolute value.
#[tactic(auto, using(crate::proofs::Reductions::centred_is))]
// Rust: #[inline(always)]
pub fn center_mod(m: i32) -> i32
    requires { nat_abs m < 2143289344 }
    ensures value { result ≡ centred m }
    ensures small { nat_abs result ≤ 4190208 }
{
    let full = full_reduce32(m);
    if full <= (Q - 1) / 2 { full } else { full - Q }
}

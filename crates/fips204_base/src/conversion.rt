//! Coefficients and hints as bytes, and polynomials in fields of as many bits as the range of their
//! coefficients asks for.
#![tactic(auto)]

ghost use Rattle.std.specs.Prelude.{◌≡◌, ◌<◌, ◌≤◌, ◌+◌, ◌*◌, ◌%◌, ◌^◌, ℤ, pos, ◌-ℤ◌, ◌≤ℤ◌, ◌⊎◌, ℕ, slice_index, length, map, Some, None, MatchOption};
ghost use Rattle.std.specs.List.{All, range_with_len};
ghost use Rattle.fips204_base.specs.Packing.{polynomial_bytes, width};
ghost use Rattle.fips204_base.specs.Bounds.{Bounds, PolynomialInRange, IsUnpacked};
ghost use Rattle.fips204_base.specs.EncodingSteps.{Packs, coefficient, field, wide_field};

mod coefficients;
mod hints;

use crate::helpers::{bit_length, is_in_range};
use crate::types::{R, R0};
pub use coefficients::{coeff_from_half_byte, coeff_from_three_bytes};
pub(crate) use hints::write_unpacked_hint;
pub use hints::{hint_bit_pack, hint_bit_unpack};
use std::simd::{u8x16, u32x4};

/// How many bits the fields of coefficients in `[-a, b]` have.
// Rust: #[inline(always)]
pub(crate) fn field_width(a: i32, b: i32) -> u32
    requires { Bounds a b }
    ensures value { result ≡ width a b }
    ensures few { result ≤ 21 }
    ensures some { 1 ≤ result }
{
    bit_length(a + b) as u32
}

/// Puts `field` above the `have` bits of `word`.
// Rust: #[inline(always)]
fn with_field(word: u32, have: u32, field: u32) -> u32
    requires room { (have < 32) × (field * 2 ^ have < 2 ^ 32) }
    requires word { word < 2 ^ have }
    ensures { result ≡ word + field * 2 ^ have }
{
    field << have | word
}

/// The low `c` bits of `word`.
// Rust: #[inline(always)]
fn low(word: u32, c: u32) -> u32
    requires { c < 32 }
    ensures { result ≡ word % 2 ^ c }
{
    word & (1u32 << c) - 1
}

/// The field of a coefficient.
#[tactic(auto, using(std::proofs::lemmas::Int::ints), unfolding(crate::specs::EncodingSteps::field))]
fn field_of(x: i32, a: i32, b: i32) -> u32
    requires bounds { Bounds a b }
    requires range { ((pos 0 -ℤ a) ≤ℤ x) × (x ≤ℤ b) }
    ensures value { result ≡ field a b x }
    ensures below { result < 2 ^ width a b }
{
    if a > 0 { (b - x) as u32 } else { x as u32 }
}

/// The coefficient of a field.
#[tactic(auto, using(std::proofs::lemmas::Int::ints), unfolding(crate::specs::EncodingSteps::coefficient))]
// Rust: #[inline(always)]
fn coefficient_of(field: u32, a: i32, b: i32) -> i32
    requires bounds { Bounds a b }
    requires below { field < 2 ^ 21 }
    ensures { result ≡ coefficient a b field }
{
    let value = field as i32;
    if a > 0 { b - value } else { value }
}

/// `SimpleBitPack` (Algorithm 16): writes each coefficient in as many bits as `b` has.
///
/// Coefficients are in `[0, b]`, `b` is from 1 to `2^20 - 1`, and `out` has exactly `32 * bit_length(b)` bytes.
pub fn simple_bit_pack(w: &R, b: i32, out: &mut [u8])
    requires bounds { Bounds (pos 0) b }
    requires range { PolynomialInRange (pos 0) b w.now.0 }
    requires room { length out.old ≡ 32 * width (pos 0) b }
    ensures { out.new ≡ polynomial_bytes (pos 0) b w.now.0 }
{
    bit_pack(w, 0, b, out);
}

/// Writes the fields of eight coefficients in `[-a, b]`, which fill as many bytes as a field has bits.
#[inline(always)]
fn write_packed_group(w: &[i32], a: i32, b: i32, out: &mut [u8])
    requires bounds { Bounds a b }
    requires range { PolynomialInRange (pos 0 -ℤ a) b w.now }
    requires eight { length w.now ≡ 8 }
    requires room { length out.old ≡ width a b }
    ensures { Packs (width a b) out.new (map (field a b) w.now) }
{
    let c = field_width(a, b);
    let mut word = 0u32;
    let mut have = 0u32;
    let mut at = 0usize;
    for x in w {
        // z = z || IntegerToBits(b - w_i, bitlen(a + b)), given out in bytes as they fill
        word = with_field(word, have, field_of(*x, a, b));
        have += c;
        while have >= 8 {
            out[at] = (word & 0xff) as u8;
            word >>= 8;
            have -= 8;
            at += 1;
        }
    }
}

/// `BitPack` (Algorithm 17): writes the fields of coefficients in `[-a, b]`, each of as many bits as `a + b` has.
/// The field of a coefficient is its distance from `b`, and if `a` is 0 the coefficient itself.
///
/// `a` is from 0 and `b` from 1 to `2^20 - 1`, and `out` has exactly `32 * bit_length(a + b)` bytes.
#[inline(always)]
pub fn bit_pack(w: &R, a: i32, b: i32, out: &mut [u8])
    requires bounds { Bounds a b }
    requires range { PolynomialInRange (pos 0 -ℤ a) b w.now.0 }
    requires room { length out.old ≡ 32 * width a b }
    ensures { out.new ≡ polynomial_bytes a b w.now.0 }
{
    let c = field_width(a, b) as usize;
    for i in 0..32 {
        write_packed_group(&w.0[8 * i..8 * i + 8], a, b, &mut out[c * i..c * i + c]);
    }
}

/// `bit_pack`, compiled with constants for each range that FIPS 204 packs.
pub(crate) fn write_packed_by_range(w: &R, a: i32, b: i32, out: &mut [u8])
    requires bounds { Bounds a b }
    requires range { PolynomialInRange (pos 0 -ℤ a) b w.now.0 }
    requires room { length out.old ≡ 32 * width a b }
    ensures { out.new ≡ polynomial_bytes a b w.now.0 }
{
    match (a, b) {
        (0, 15) => bit_pack(w, 0, 15, out),
        (0, 43) => bit_pack(w, 0, 43, out),
        (131071, 131072) => bit_pack(w, 131071, 131072, out),
        (524287, 524288) => bit_pack(w, 524287, 524288, out),
        (2, 2) => bit_pack(w, 2, 2, out),
        (4, 4) => bit_pack(w, 4, 4, out),
        (0, 1023) => bit_pack(w, 0, 1023, out),
        (4095, 4096) => bit_pack(w, 4095, 4096, out),
        _ => bit_pack(w, a, b, out),
    }
}

/// Four fields of 18 bits, which these bytes begin with.
#[inline(always)]
fn four_of_18(bytes: u8x16) -> [u32; 4]
    ensures { result ≡ map (wide_field 18 bytes) (range_with_len 0 4) }
{
    let lanes = bytes.shuffle(bytes, [0, 1, 2, 3, 2, 3, 4, 5, 4, 5, 6, 7, 6, 7, 8, 9]);
    ((u32x4::from_le_bytes(lanes) >> u32x4::from_array([0, 2, 4, 6]))
        % u32x4::splat(1 << 18)).to_array()
}

/// Four fields of 20 bits, which these bytes begin with.
#[inline(always)]
fn four_of_20(bytes: u8x16) -> [u32; 4]
    ensures { result ≡ map (wide_field 20 bytes) (range_with_len 0 4) }
{
    let lanes = bytes.shuffle(bytes, [0, 1, 2, 3, 2, 3, 4, 5, 5, 6, 7, 8, 7, 8, 9, 10]);
    ((u32x4::from_le_bytes(lanes) >> u32x4::from_array([0, 4, 0, 4]))
        % u32x4::splat(1 << 20)).to_array()
}

/// The last nine bytes, and others after them.
#[inline(always)]
fn last_nine(bytes: u8x16) -> u8x16
    ensures { (i : ℕ) → i < 9 → slice_index result i ≡ slice_index bytes (7 + i) }
{
    bytes.shuffle(
        bytes,
        [7, 8, 9, 10, 11, 12, 13, 14, 15, 0, 1, 2, 3, 4, 5, 6],
    )
}

/// The last ten bytes, and others after them.
#[inline(always)]
fn last_ten(bytes: u8x16) -> u8x16
    ensures { (i : ℕ) → i < 10 → slice_index result i ≡ slice_index bytes (6 + i) }
{
    bytes.shuffle(
        bytes,
        [6, 7, 8, 9, 10, 11, 12, 13, 14, 15, 0, 1, 2, 3, 4, 5],
    )
}

/// The eight fields of 18 or 20 bits in `v`, of which each stands in three bytes: the first four and the last.
#[inline(always)]
fn wide_fields(v: &[u8], c: u32) -> ([u32; 4], [u32; 4])
    requires wide { (c ≡ 18) ⊎ (c ≡ 20) }
    requires room { length v.now ≡ c }
    ensures first { (n : ℕ) → n < 4 → slice_index result.0 n ≡ wide_field c v.now n }
    ensures last { (n : ℕ) → n < 4 → slice_index result.1 n ≡ wide_field c v.now (4 + n) }
{
    let first = u8x16::from_slice(v);
    if c == 18 {
        return (
            four_of_18(first),
            four_of_18(last_nine(u8x16::from_slice(&v[2..]))),
        );
    }
    (
        four_of_20(first),
        four_of_20(last_ten(u8x16::from_slice(&v[4..]))),
    )
}

/// `write_unpacked_group` at fields of 18 or 20 bits.
#[inline(always)]
fn write_wide_group(v: &[u8], a: i32, b: i32, out: &mut [i32])
    requires bounds { Bounds a b }
    requires wide { (width a b ≡ 18) ⊎ (width a b ≡ 20) }
    requires room { length v.now ≡ width a b }
    requires eight { length out.old ≡ 8 }
    ensures fields { Packs (width a b) v.now (map (field a b) out.new) }
    ensures coefficients { All (λ x. coefficient a b (field a b x) ≡ x) out.new }
{
    let (first, last) = wide_fields(v, field_width(a, b));
    for i in 0..8 {
        let field = if i < 4 { first[i] } else { last[i - 4] };
        out[i] = coefficient_of(field, a, b);
    }
}

/// Reads the eight coefficients whose fields stand in `v`.
#[inline(always)]
fn write_unpacked_group(v: &[u8], a: i32, b: i32, out: &mut [i32])
    requires bounds { Bounds a b }
    requires room { length v.now ≡ width a b }
    requires eight { length out.old ≡ 8 }
    ensures fields { Packs (width a b) v.now (map (field a b) out.new) }
    ensures coefficients { All (λ x. coefficient a b (field a b x) ≡ x) out.new }
{
    let c = field_width(a, b);
    if c == 18 || c == 20 {
        return write_wide_group(v, a, b, out);
    }
    let mut word = 0u32;
    let mut have = 0u32;
    let mut at = 0usize;
    for i in 0..8 {
        while have < c {
            word = with_field(word, have, v[at] as u32);
            have += 8;
            at += 1;
        }
        // w_i = b - BitsToInteger(z[i c .. (i + 1) c - 1], c)
        out[i] = coefficient_of(low(word, c), a, b);
        word >>= c;
        have -= c;
    }
}

/// `SimpleBitUnpack` (Algorithm 18): the polynomial whose coefficients are the fields of `v`, each
/// of as many bits as `b` has. `None` if one is above `b`.
///
/// `b` is from 1 to `2^20 - 1`, and `v` has exactly `32 * bit_length(b)` bytes.
pub fn simple_bit_unpack(v: &[u8], b: i32) -> Option<R>
    requires bounds { Bounds (pos 0) b }
    requires room { length v.now ≡ 32 * width (pos 0) b }
    ensures { IsUnpacked (pos 0) b v.now result }
{
    bit_unpack(v, 0, b)
}

/// `BitUnpack` (Algorithm 19): the polynomial whose fields stand in `v`, each of as many bits as `a + b` has. `None`
/// if `a` is 0 and a field is above `b`; if `a` is above 0 a coefficient may come out below `-a`.
///
/// `a` is from 0 and `b` from 1 to `2^20 - 1`, and `v` has exactly `32 * bit_length(a + b)` bytes.
#[inline(always)]
pub fn bit_unpack(v: &[u8], a: i32, b: i32) -> Option<R>
    requires bounds { Bounds a b }
    requires room { length v.now ≡ 32 * width a b }
    ensures { IsUnpacked a b v.now result }
{
    let mut w = R0;
    write_unpacked(v, a, b, &mut w)?;
    Some(w)
}

/// `bit_unpack`, written into the caller's place.
#[inline(always)]
fn write_unpacked(v: &[u8], a: i32, b: i32, w: &mut R) -> Option<()>
    requires bounds { Bounds a b }
    requires room { length v.now ≡ 32 * width a b }
    ensures { MatchOption result (IsUnpacked a b v.now None) (λ _. IsUnpacked a b v.now (Some w.new)) }
{
    let c = field_width(a, b) as usize;
    for i in 0..32 {
        write_unpacked_group(&v[c * i..c * i + c], a, b, &mut w.0[8 * i..8 * i + 8]);
    }
    if a == 0 && !is_in_range(w, 0, b) {
        return None;
    }
    Some(())
}

/// `write_unpacked`, compiled with constants for each range that FIPS 204 unpacks. Not inlined, because verifying in
/// plain Rust would take more stack.
// Compiled for SSE4.2 and AVX2 too.
#[inline(never)]
pub(crate) fn write_unpacked_by_range(v: &[u8], a: i32, b: i32, w: &mut R) -> Option<()>
    requires bounds { Bounds a b }
    requires room { length v.now ≡ 32 * width a b }
    ensures { MatchOption result (IsUnpacked a b v.now None) (λ _. IsUnpacked a b v.now (Some w.new)) }
{
    match (a, b) {
        (131071, 131072) => write_unpacked(v, 131071, 131072, w),
        (524287, 524288) => write_unpacked(v, 524287, 524288, w),
        (2, 2) => write_unpacked(v, 2, 2, w),
        (4, 4) => write_unpacked(v, 4, 4, w),
        (0, 1023) => write_unpacked(v, 0, 1023, w),
        (4095, 4096) => write_unpacked(v, 4095, 4096, w),
        _ => write_unpacked(v, a, b, w),
    }
}

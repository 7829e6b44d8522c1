//! Vectors as bytes, one polynomial after another.
#![tactic(auto)]

ghost use Rattle.std.specs.Prelude.{◌≡◌, ◌≤◌, ◌+◌, ◌*◌, ◌^◌, pos, nat_abs, ◌+ℤ◌, ◌-ℤ◌, length};
ghost use Rattle.fips204_base.specs.Bounds.{FindsIn, Bounds, PolynomialInRange, VectorInRange};
ghost use Rattle.fips204_base.specs.Encodings.{vector_bytes};
ghost use Rattle.fips204_base.specs.Packing.{polynomial_bytes, width};
ghost use Rattle.fips204_base.specs.Vectors.{IsVector};

use crate::conversion::{field_width, write_packed_by_range, write_unpacked_by_range};
use crate::helpers::is_in_range;
use crate::types::R;

/// How many bytes a polynomial with coefficients in `[-a, b]` has.
pub fn polynomial_size(a: i32, b: i32) -> usize
    requires { Bounds a b }
    ensures size { result ≡ 32 * width a b }
    ensures few { result ≤ 672 }
{
    32 * field_width(a, b) as usize
}

/// Writes the polynomials of `v`, whose coefficients are in `[-a, b]`.
#[inline(always)]
pub fn write_packed_vector<const N: usize>(v: &[R; N], a: i32, b: i32, out: &mut [u8])
    requires bounds { Bounds a b }
    requires range { VectorInRange (pos 0 -ℤ a) b v.now }
    requires room { length out.old ≡ 32 * width a b * N }
    ensures { out.new ≡ vector_bytes (nat_abs a) (nat_abs b) v.now }
{
    let size = polynomial_size(a, b);
    for i in 0..N {
        let at = size * i;
        write_packed_by_range(&v[i], a, b, &mut out[at..at + size]);
    }
}

/// Writes the polynomial whose bytes these are, if every field is that of a coefficient in `[-a, b]`.
#[inline(always)]
fn write_unpacked_polynomial(bytes: &[u8], a: i32, b: i32, w: &mut R)
    requires bounds { Bounds a b }
    requires whole { pos (2 ^ width a b) ≡ a +ℤ b +ℤ pos 1 }
    requires room { length bytes.now ≡ 32 * width a b }
    ensures same_bytes { polynomial_bytes a b w.new.0 ≡ bytes.now }
    ensures range { PolynomialInRange (pos 0 -ℤ a) b w.new.0 }
    ensures places { length w.new.0 ≡ 256 }
{
    write_unpacked_by_range(bytes, a, b, w).unwrap();
}

/// Writes the vector whose bytes these are, if every field is that of a coefficient in `[-a, b]`.
#[inline(always)]
pub fn write_unpacked_vector<const N: usize>(bytes: &[u8], a: i32, b: i32, v: &mut [R; N])
    requires bounds { Bounds a b }
    requires whole { pos (2 ^ width a b) ≡ a +ℤ b +ℤ pos 1 }
    requires room { length bytes.now ≡ 32 * width a b * N }
    ensures vector { IsVector N (nat_abs a) (nat_abs b) v.new }
    ensures same_bytes { vector_bytes (nat_abs a) (nat_abs b) v.new ≡ bytes.now }
{
    let size = polynomial_size(a, b);
    for i in 0..N {
        let at = size * i;
        write_unpacked_polynomial(&bytes[at..at + size], a, b, &mut v[i]);
    }
}

/// Writes the polynomial with coefficients in `[-eta, eta]` whose bytes these are, or returns `None` if a field is that
/// of no such coefficient.
fn write_unpacked_short_polynomial(bytes: &[u8], eta: i32, w: &mut R) -> Option<()>
    requires bounds { Bounds eta eta }
    requires room { length bytes.now ≡ 32 * width eta eta }
    ensures { FindsIn (λ w. PolynomialInRange (pos 0 -ℤ eta) eta w.0
        × (length w.0 ≡ 256) × (polynomial_bytes eta eta w.0 ≡ bytes.now)) result w.new }
{
    write_unpacked_by_range(bytes, eta, eta, w)?;
    if is_in_range(w, eta, eta) {
        Some(())
    } else {
        None
    }
}

/// Writes the vector with coefficients in `[-eta, eta]` whose bytes these are, or returns `None` if a field is that of
/// no such coefficient; then part of it may be written.
pub fn write_unpacked_short_vector<const N: usize>(
    bytes: &[u8],
    eta: i32,
    v: &mut [R; N],
) -> Option<()>
    requires bounds { Bounds eta eta }
    requires room { length bytes.now ≡ 32 * width eta eta * N }
    ensures { FindsIn (λ v. IsVector N (nat_abs eta) (nat_abs eta) v
        × (vector_bytes (nat_abs eta) (nat_abs eta) v ≡ bytes.now)) result v.new }
{
    let size = polynomial_size(eta, eta);
    for i in 0..N {
        let at = size * i;
        write_unpacked_short_polynomial(&bytes[at..at + size], eta, &mut v[i])?;
    }
    Some(())
}

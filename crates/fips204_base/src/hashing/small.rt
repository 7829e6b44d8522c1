//! Small polynomials, from the XOF in the place of SHAKE256.
#![tactic(auto)]

ghost use Rattle.std.specs.Prelude.{◌≡◌, ◌≤◌, ◌<◌, ◌+◌, ◌++◌, ◌⊎◌, length, nat_abs, ok_or, IfOk, IfErr, Some, None};
ghost use Rattle.std.specs.Int.{w16, to_le_bytes};
ghost use Rattle.std.specs.List.{flat_map};
ghost use Rattle.fips204_base.specs.Sampling.{small_polynomial, small_vectors};
ghost use Rattle.fips204_base.specs.SamplerSteps.{AreKept, WritesSampled, kept_half_bytes, small_vector};
ghost use Rattle.fips204_base.specs.Bounds.{IsEta};

use crate::conversion::coeff_from_half_byte;
use crate::fault::Fault;
use crate::hashing::sampler::{Draws, Sampler};
use crate::hashing::{open_numbered, push_branchless};
use crate::types::{R, R0};
use crate::xof::{Xof, XofReader};

/// Puts the coefficients that the half bytes of `piece` give into `values` from place `kept` on, as many as
/// have room, and returns how many there are then.
// Compiled for AVX2 too.
fn write_kept_half_bytes(eta: i32, piece: &[u8], values: &mut [i32; 256], kept: usize) -> usize
    requires eta { IsEta eta }
    requires room { kept ≤ 256 }
    ensures count { result ≤ 256 }
    ensures kept { AreKept values.old kept (kept_half_bytes (nat_abs eta) piece.now (length piece.now))
        values.new result }
{
    // compiled for each eta, so that no half byte asks which it is
    if eta == 2 {
        write_half_bytes_at(2, piece, values, kept)
    } else {
        write_half_bytes_at(4, piece, values, kept)
    }
}

/// `write_kept_half_bytes` at an `eta` that is a constant where it is called.
#[inline(always)]
fn write_half_bytes_at(eta: i32, piece: &[u8], values: &mut [i32; 256], kept: usize) -> usize
    requires eta { IsEta eta }
    requires room { kept ≤ 256 }
    ensures count { result ≤ 256 }
    ensures kept { AreKept values.old kept (kept_half_bytes (nat_abs eta) piece.now (length piece.now))
        values.new result }
{
    let mut count = kept;
    for byte in piece {
        if count == 256 {
            return count;
        }
        count = push_branchless(coeff_from_half_byte(eta, *byte % 16), values, count);
        count = push_branchless(coeff_from_half_byte(eta, *byte / 16), values, count);
    }
    count
}

/// The draws of a small polynomial: bytes, whose two halves give a coefficient each.
#[derive(Drop)]
struct HalfBytes {
    eta: i32,
}

impl Draws for HalfBytes {
    ghost is_kind = { λ draws. IsEta draws.eta };

    ghost bytes = { λ _. 1 };

    ghost first = { λ _. 192 };

    ghost kept = { λ draws. kept_half_bytes (nat_abs draws.eta) };

    fn bytes(&self) -> usize {
        1
    }

    fn first(&self) -> usize {
        192
    }

    fn wanted(&self, _count: usize) -> usize {
        64
    }

    fn write_first(&self, draws: &[u8], values: &mut [i32; 256]) -> usize {
        write_kept_half_bytes(self.eta, draws, values, 0)
    }

    fn write_kept(&self, _n: usize, piece: &[u8], values: &mut [i32; 256], count: usize) -> usize {
        write_kept_half_bytes(self.eta, piece, values, count)
    }
}

/// `RejBoundedPoly` (Algorithm 31): a polynomial with coefficients in `[-eta, eta]` from the concatenated
/// `parts`. `eta` is 2 or 4.
///
/// Errors: `SamplingLimit` if rejection sampling reaches its limit: if the half bytes of the first quarter of
/// the output give fewer than 256 coefficients.
pub fn rej_bounded_poly<H: Xof>(eta: i32, parts: &[&[u8]]) -> Result<R, Fault>
    requires eta { IsEta eta }
    ensures { result
        ≡ ok_or (small_polynomial (nat_abs eta) (H.front (flat_map (λ part. part.now) parts.now))) Fault.SamplingLimit }
{
    // ctx = H.Absorb(rho)
    let mut reader = H::open(parts);
    let mut first = [0u8; 192];
    reader.read(&mut first);
    let mut polynomial = R0;
    write_polynomial::<H>(eta, &first, &mut reader, &mut polynomial)?;
    Ok(polynomial)
}

/// Writes the small polynomial of an output whose first 192 bytes are in `first`. `reader` gives the others.
fn write_polynomial<H: Xof>(
    eta: i32,
    first: &[u8],
    reader: &mut H::Reader,
    polynomial: &mut R,
) -> Result<(), Fault>
    requires eta { IsEta eta }
    requires first { length first.now ≡ 192 }
    requires front { length first.now + length (H.Reader.rest reader.old) ≡ H.FRONT }
    ensures { WritesSampled (small_polynomial (nat_abs eta) (first.now ++ H.Reader.rest reader.old)) result polynomial.new }
{
    // a[j] = CoeffFromHalfByte(z mod 16, eta), then that of z / 16, each kept unless it is none
    HalfBytes { eta }.fill::<H>(first, reader, &mut polynomial.0)
}

/// The sampler of small polynomials, the one of each number from `rho` and the number in two bytes.
#[derive(Drop)]
struct SmallPolynomials<'a> {
    eta: i32,
    rho: &'a [u8; 64],
}

impl<'a, H: Xof> Sampler<H> for SmallPolynomials<'a> {
    type Value = R;

    ghost is_sampler = { λ these. IsEta these.eta };

    ghost has_number = { λ _ n. n < 65536 };

    ghost seed = { λ these n. these.rho.now ++ to_le_bytes w16 n };

    ghost size = { λ _. 192 };

    ghost made = { λ these. small_polynomial (nat_abs these.eta) };

    fn size(&self) -> usize {
        192
    }

    fn open(&self, n: usize) -> H::Reader {
        open_numbered::<H>(self.rho, n as u16)
    }

    fn write(&self, first: &[u8], reader: &mut H::Reader, value: &mut R) -> Result<(), Fault> {
        write_polynomial::<H>(self.eta, first, reader, value)
    }
}

/// `ExpandS` (Algorithm 33): the secret vectors s1 of `L` and s2 of `K` polynomials, with coefficients in
/// `[-eta, eta]`. `eta` is 2 or 4, and `K` and `L` are those of a parameter set.
///
/// Errors: `SamplingLimit` if a polynomial reaches its limit.
pub fn expand_s<const K: usize, const L: usize, H: Xof>(
    eta: i32,
    rho: &[u8; 64],
) -> Result<([R; L], [R; K]), Fault>
    requires eta { IsEta eta }
    requires shape { (K ≤ 8) × (L ≤ 7) }
    ensures { result ≡ ok_or (small_vectors (nat_abs eta) H.front rho.now K L) Fault.SamplingLimit }
{
    let mut s1 = [R0; L];
    let mut s2 = [R0; K];
    write_expanded_s::<K, L, H>(eta, rho, &mut s1, &mut s2)?;
    Ok((s1, s2))
}

/// `expand_s`, written into the caller's places. After an error part of them may be written. Internal: serves the
/// crate `fips204` alone.
pub fn write_expanded_s<const K: usize, const L: usize, H: Xof>(
    eta: i32,
    rho: &[u8; 64],
    s1: &mut [R; L],
    s2: &mut [R; K],
) -> Result<(), Fault>
    requires eta { IsEta eta }
    requires shape { (K ≤ 8) × (L ≤ 7) }
    ensures s1 { IfOk result (λ _. small_vector (nat_abs eta) H.front rho.now 0 L ≡ Some s1.new) }
    ensures s2 { IfOk result (λ _. small_vector (nat_abs eta) H.front rho.now L K ≡ Some s2.new) }
    ensures limit { IfErr result (λ fault. (fault ≡ Fault.SamplingLimit)
        × ((small_vector (nat_abs eta) H.front rho.now 0 L ≡ None) ⊎ (small_vector (nat_abs eta) H.front rho.now L K ≡ None))) }
{
    let polynomials = SmallPolynomials { eta, rho };
    Sampler::<H>::write_all(&polynomials, 0, s1)?;
    Sampler::<H>::write_all(&polynomials, L, s2)?;
    Ok(())
}

//! The mask, from the XOF in the place of SHAKE256.
#![tactic(auto)]

ghost use Rattle.std.specs.Prelude.{◌≡◌, ◌≤◌, ◌<◌, ◌+◌, ◌*◌, ◌++◌, length, nat_abs, Some};
ghost use Rattle.std.specs.Int.{w16, to_le_bytes};
ghost use Rattle.fips204_base.specs.Bounds.{IsGamma1};
ghost use Rattle.fips204_base.specs.Sampling.{mask};
ghost use Rattle.fips204_base.specs.SamplerSteps.{mask_polynomial, mask_width};

use crate::conversion::write_unpacked_by_range;
use crate::encodings::polynomial_size;
use crate::fault::Fault;
use crate::hashing::open_numbered;
use crate::hashing::sampler::Sampler;
use crate::types::{R, R0};
use crate::xof::Xof;

/// How many bytes a polynomial of the mask takes of its output.
fn size_of_polynomial(gamma1: i32) -> usize
    requires { IsGamma1 gamma1 }
    ensures size { result ≡ 32 * mask_width (nat_abs gamma1) }
    ensures within { result ≤ 640 }
{
    polynomial_size(gamma1 - 1, gamma1)
}

/// Writes the polynomial of the mask from these bytes.
fn write_polynomial(gamma1: i32, bytes: &[u8], y: &mut R)
    requires gamma1 { IsGamma1 gamma1 }
    requires size { length bytes.now ≡ 32 * mask_width (nat_abs gamma1) }
    ensures { y.new ≡ mask_polynomial (nat_abs gamma1) bytes.now }
{
    // y[r] = BitUnpack(v, gamma1 - 1, gamma1)
    write_unpacked_by_range(bytes, gamma1 - 1, gamma1, y).unwrap();
}

/// The sampler of a mask, whose polynomials are from `rho` and a number in two bytes each.
#[derive(Drop)]
struct MaskPolynomials<'a> {
    gamma1: i32,
    rho: &'a [u8; 64],
}

impl<'a, H: Xof> Sampler<H> for MaskPolynomials<'a> {
    type Value = R;

    ghost is_sampler = { λ mask. IsGamma1 mask.gamma1 };

    ghost has_number = { λ _ n. n < 65536 };

    ghost seed = { λ mask n. mask.rho.now ++ to_le_bytes w16 n };

    ghost size = { λ mask. 32 * mask_width (nat_abs mask.gamma1) };

    ghost made = { λ mask front. Some (mask_polynomial (nat_abs mask.gamma1) front) };

    fn size(&self) -> usize {
        size_of_polynomial(self.gamma1)
    }

    fn open(&self, n: usize) -> H::Reader {
        open_numbered::<H>(self.rho, n as u16)
    }

    fn write(&self, first: &[u8], _reader: &mut H::Reader, value: &mut R) -> Result<(), Fault> {
        // v = H(rho || number, 32 c)
        write_polynomial(self.gamma1, first, value);
        Ok(())
    }
}

/// `ExpandMask` (Algorithm 34): `L` polynomials with coefficients in `[-gamma1 + 1, gamma1]`, the one
/// at `r` from `rho` and the number `mu + r` in two bytes. `gamma1` is 131072 or 524288, and the
/// largest number is at most 65535.
pub fn expand_mask<const L: usize, H: Xof>(gamma1: i32, rho: &[u8; 64], mu: u16) -> [R; L]
    requires gamma1 { IsGamma1 gamma1 }
    requires numbers { mu + L ≤ 65536 }
    ensures { result ≡ mask (nat_abs gamma1) H.front rho.now L mu }
{
    let mut polynomials = [R0; L];
    let mask = MaskPolynomials { gamma1, rho };
    Sampler::<H>::write_all(&mask, mu as usize, &mut polynomials).unwrap();
    polynomials
}

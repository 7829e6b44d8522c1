//! Coefficients of sampled polynomials from bytes.
#![tactic(auto)]

ghost use Rattle.std.specs.Prelude.{◌≡◌, ◌<◌, nat_abs, slice_index};
ghost use Rattle.fips204_base.specs.Sampling.{coefficient_from_three_bytes, coefficient_from_half_byte};
ghost use Rattle.fips204_base.specs.Bounds.{IsEta};

use crate::Q;

/// `CoeffFromThreeBytes` (Algorithm 14): the number of the three bytes, lowest first, without the
/// top bit of the last. `None` from `q` on.
pub fn coeff_from_three_bytes(bytes: [u8; 3]) -> Option<i32>
    ensures { result ≡ coefficient_from_three_bytes (slice_index bytes 0) (slice_index bytes 1) (slice_index bytes 2) }
{
    let [low, middle, high] = bytes;
    // z = 2^16 b2 + 2^8 b1 + b0, where b2 has lost its top bit
    let value = low as u32 + 256 * middle as u32 + 65536 * (high % 128) as u32;
    (value < Q as u32).then_some(value as i32)
}

/// `CoeffFromHalfByte` (Algorithm 15): the coefficient in `[-eta, eta]` of a half byte `b`, which is below 16; `eta`
/// is 2 or 4. `None` if `b` is 15 at `eta` 2, and if it is above 8 at `eta` 4.
#[inline(always)]
pub fn coeff_from_half_byte(eta: i32, b: u8) -> Option<i32>
    requires set { IsEta eta }
    requires half { b < 16 }
    ensures { result ≡ coefficient_from_half_byte (nat_abs eta) b }
{
    if eta == 2 {
        (b < 15).then_some(2 - (b % 5) as i32)
    } else {
        (b < 9).then_some(4 - b as i32)
    }
}

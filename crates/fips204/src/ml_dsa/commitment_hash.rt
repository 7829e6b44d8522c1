//! The commitment of a high part (FIPS 204, Algorithm 7, line 15, and Algorithm 8, line 12).
#![tactic(auto)]

ghost use Rattle.std.specs.Prelude.{◌≡◌, ◌-◌, length, pos, nat_abs};
ghost use Rattle.std.specs.List.{All};
ghost use Rattle.fips204_base.specs.Bounds.{PolynomialInRange};
ghost use Rattle.fips204_base.specs.Rounding.{high_count};
ghost use Rattle.fips204.specs.Signing.{commitment_hash};
ghost use Rattle.fips204.specs.ParameterSets.{c_tilde_length};
ghost use Rattle.fips204.specs.Sets.{set_of};

use crate::types::{Params, R};
use fips204_base::encodings::w1_encode;
use fips204_base::xof::{Xof, XofReader};

/// Writes `c_tilde` of `w1`: the first `lambda / 4` bytes of `H` over `mu` and the bytes of `w1`, whose coefficients
/// are high bits.
pub(crate) fn write_commitment_hash<const K: usize, H: Xof>(
    p: &Params,
    mu: &[u8; 64],
    w1: &[R; K],
    c_tilde: &mut [u8],
)
    requires rows { K ≡ p.now.k }
    requires size { length c_tilde.old ≡ c_tilde_length (set_of p.now) }
    requires range { All (λ w. PolynomialInRange (pos 0) (pos (high_count (nat_abs p.now.gamma2) - 1)) w.0) w1.now }
    ensures { c_tilde.new ≡ commitment_hash (set_of p.now) H.front mu.now w1.now }
{
    let mut room = [0u8; 1024];
    let bytes = &mut room[..p.w1_len()];
    w1_encode(p.gamma2, w1, bytes);
    let mut reader = H::open(&[mu.as_slice(), bytes]);
    reader.read(c_tilde);
}

//! The norm of a vector.
#![tactic(auto)]

ghost use Rattle.std.specs.Prelude.{◌≡◌, ◌<◌, ◌≤◌, ℕ, pos, nat_abs};
ghost use Rattle.fips204_base.specs.Bounds.{VectorWithin, coefficient_at};
ghost use Rattle.fips204_base.specs.Residues.{norm, vector_norm};

use crate::helpers::reduce::center_mod;
use crate::types::R;

/// The norm of a vector of at least one polynomial: the largest absolute value of a coefficient that
/// is centred modulo `q`. Coefficients are below `2^31 - 2^22` in absolute value.
// Compiled for AVX2 too.
pub fn infinity_norm<const ROW: usize>(w: &[R; ROW]) -> i32
    requires rows { 1 ≤ ROW }
    requires range { VectorWithin ROW 2143289343 w.now }
    ensures { result ≡ pos (vector_norm w.now) }
{
    let mut most = 0;
    for polynomial in w {
        most = most.max(norm(polynomial));
    }
    most
}

/// The norm of a polynomial.
// Rust: #[inline(always)]
fn norm(w: &R) -> i32
    requires { (n : ℕ) → n < 256 → nat_abs (coefficient_at w.now.0 n) ≤ 2143289343 }
    ensures { result ≡ pos (norm w.now.0) }
{
    let mut most = 0;
    for x in &w.0 {
        most = most.max(center_mod(*x).abs());
    }
    most
}

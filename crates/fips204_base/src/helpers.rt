//! Helpers on numbers and polynomials.
#![tactic(auto)]

ghost use Rattle.std.specs.Prelude.{◌≡◌, ◌↔◌, ℤ, pos, ◌-ℤ◌, ◌≤ℤ◌, nat_abs, IsTrue};
ghost use Rattle.fips204_base.specs.Packing.{bit_length};
ghost use Rattle.fips204_base.specs.Bounds.{PolynomialInRange};

pub mod count;
pub mod norm;
pub mod reduce;
pub mod residue;
pub mod vector;
pub mod zeta_table;

use crate::types::R;
pub use count::Count;
pub use norm::infinity_norm;
pub use reduce::{
    center_mod, difference, full_reduce32, mont_reduce, partial_reduce32, partial_reduce64,
};
pub use residue::Residue;
pub use vector::{add_vector_ntt, mat_vec_mul, to_mont};
pub use zeta_table::ZETA_TABLE_MONT;

/// The number of binary digits of `x`, for `x` of at least 1.
pub fn bit_length(x: i32) -> usize
    requires { pos 1 ≤ℤ x }
    ensures { result ≡ bit_length (nat_abs x) }
{
    (32 - (x as u32).leading_zeros()) as usize
}

/// Whether every coefficient is in `[-lo, hi]`, for `lo` and `hi` that are not negative. Reads all of them, since
/// how many pass the test may be secret.
pub fn is_in_range(w: &R, lo: i32, hi: i32) -> bool
    requires low { pos 0 ≤ℤ lo }
    requires high { pos 0 ≤ℤ hi }
    ensures { IsTrue result ↔ PolynomialInRange (pos 0 -ℤ lo) hi w.now.0 }
{
    let mut inside = true;
    for x in &w.0 {
        inside &= (-lo <= *x) & (*x <= hi);
    }
    inside
}

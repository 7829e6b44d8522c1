//! Vectors of polynomials and of transforms.
#![tactic(auto)]

ghost use Rattle.std.specs.Prelude.{◌≡◌, ◌≤◌, ◌<◌, ◌*◌, ◌%◌, ℕ, ◌+ℤ◌, length, nat_abs};
ghost use Rattle.fips204_base.specs.Residues.{residue, coefficients};
ghost use Rattle.fips204_base.specs.Vectors.{MatrixWithin};
ghost use Rattle.fips204_base.specs.Bounds.{vector_residues, row_value, AreRowProducts, VectorWithin, ValuesWithin, TransformsWithin, coefficient_of};

use crate::helpers::reduce::{partial_reduce64, reduce_sum, wide_product};
use crate::maps::{map, zip_vectors};
use crate::types::{R, T, T0};

/// The sums of two vectors, polynomial by polynomial and without a reduction, for coefficients of an
/// absolute value of at most `2^30 - 1` (FIPS 204, Algorithm 46, over whole numbers).
pub fn add_vector_ntt<const K: usize>(v: &[R; K], w: &[R; K]) -> [R; K]
    requires v { VectorWithin K 1073741823 v.now }
    requires w { VectorWithin K 1073741823 w.now }
    ensures { (r n : ℕ) → r < K → n < 256
        → coefficient_of result r n ≡ coefficient_of v.now r n +ℤ coefficient_of w.now r n }
{
    zip_vectors(
        v,
        w,
        |x, y|
            requires { nat_abs (x +ℤ y) ≤ 2147483647 }
            ensures { result ≡ x +ℤ y }
        { x + y },
    )
}

/// The Montgomery form of a vector of transforms: each value times `2^32` modulo `q`, below `q` in
/// absolute value, for values of an absolute value of at most 67000000.
pub fn to_mont<const L: usize>(v: &[T; L]) -> [T; L]
    requires { TransformsWithin 67000000 v.now }
    ensures values { (i j : ℕ) → i < L → j < 256
        → vector_residues result i j ≡ 4294967296 * vector_residues v.now i j % 8380417 }
    ensures small { TransformsWithin 8380416 result }
{
    let mut out = [T0; L];
    for i in 0..L {
        out[i] = T(map(&v[i].0, value_to_mont));
    }
    out
}

/// The Montgomery form of a value.
// Rust: #[inline(always)]
pub(crate) fn value_to_mont(x: i32) -> i32
    requires { nat_abs x ≤ 67000000 }
    ensures value { residue result ≡ 4294967296 * residue x % 8380417 }
    ensures small { nat_abs result ≤ 8380416 }
{
    partial_reduce64(i64::from(x) * 4294967296)
}

/// The product of a matrix with a vector of transforms, value by value (FIPS 204, Algorithm 48): the
/// sums of the products modulo `q`, below `q` in absolute value. The values of the matrix and of the vector are from
/// `1 - q` to `q - 1`, and `L` is at most 7.
pub fn mat_vec_mul<const K: usize, const L: usize>(a: &[[T; L]; K], u: &[T; L]) -> [T; K]
    requires columns { L ≤ 7 }
    requires matrix { MatrixWithin 8380416 a.now }
    requires vector { TransformsWithin 8380416 u.now }
    ensures values { AreRowProducts K L a.now u.now result }
    ensures small { TransformsWithin 8380416 result }
{
    let mut out = [T0; K];
    for i in 0..K {
        write_row_sums(&a[i], u, &mut out[i].0);
    }
    out
}

/// Writes the sums of the products of a row of the matrix with the vector, value by value.
///
/// Not inlined, so that the compiler still knows that `out` is apart from both.
// Compiled for SSE4.2 and AVX2 too.
#[inline(never)]
pub(crate) fn write_row_sums<const L: usize>(row: &[T; L], u: &[T; L], out: &mut [i32; 256])
    requires columns { L ≤ 7 }
    requires row { TransformsWithin 8380416 row.now }
    requires vector { TransformsWithin 8380416 u.now }
    ensures values { (j : ℕ) → j < 256 → coefficients out.new j ≡ row_value L row.now u.now j }
    ensures small { ValuesWithin 8380416 out.new }
    ensures places { length out.new ≡ 256 }
{
    for j in 0..256 {
        out[j] = place_sum(row, u, j);
    }
}

/// The sum at one place, modulo `q` and below `q` in absolute value.
#[inline(always)]
fn place_sum<const L: usize>(row: &[T; L], u: &[T; L], j: usize) -> i32
    requires columns { L ≤ 7 }
    requires row { TransformsWithin 8380416 row.now }
    requires vector { TransformsWithin 8380416 u.now }
    requires place { j < 256 }
    ensures value { residue result ≡ row_value L row.now u.now j }
    ensures small { nat_abs result ≤ 8380416 }
{
    let mut sum = 0;
    for k in 0..L {
        sum += wide_product(row[k].0[j], u[k].0[j]);
    }
    reduce_sum(sum)
}

//! The matrix times a vector: the matrix as it stands, or row by row from its seed.
#![tactic(auto)]

ghost use Rattle.std.specs.Prelude.{◌≡◌, ◌≢◌, ◌<◌, ◌≤◌, ℕ, pos, length, nat_abs, slice_index_or};
ghost use Rattle.fips204_base.specs.PlainTransforms.{lane_values, plain_row, row_product};
ghost use Rattle.fips204_base.specs.SamplerSteps.{OnSampled};
ghost use Rattle.fips204_base.specs.Bounds.{TransformsWithin, VectorWithin, coefficient_at, coefficient_of, vector_residues};
ghost use Rattle.fips204_base.specs.Lanes.{LanesWithin, lane};
ghost use Rattle.fips204_base.specs.declared.types.T.{T};
ghost use Rattle.fips204_base.specs.Residues.{residue};
ghost use Rattle.fips204_base.specs.Vectors.{MatrixWithin, matrix_product, vector_coefficients};

use super::{Transforms, lanes_of, write_at};
use crate::fault::Fault;
use crate::hashing::write_next_row;
use crate::helpers::vector::write_row_sums;
use crate::lanes::Lanes;
use crate::types::{R, R0, T, T0};
use crate::xof::Xof;
use std::marker::Model;

/// Writes `A v`, with coefficients from 0 to `q - 1`; the matrix is given by its transforms. Coefficients of `v` are
/// below `q` in absolute value.
///
/// Not inlined, so that its lanes don't stay in the caller's frame.
#[inline(never)]
pub fn write_matrix_product<const K: usize, const L: usize>(
    a: &[[T; L]; K],
    v: &[R; L],
    out: &mut [R; K],
)
    requires shape { (K ≤ 8) × (L ≤ 7) }
    requires matrix { MatrixWithin 8380416 a.now }
    requires vector { VectorWithin L 8380416 v.now }
    ensures values { (r n : ℕ) → r < K → n < 256
        → coefficient_of out.new r n ≡ pos (matrix_product L a.now (vector_coefficients v.now) r n) }
    ensures range { VectorWithin K 8380416 out.new }
{
    let mut w = Transforms::zeros();
    w.write_transforms(v);
    w.multiply_over(a, out);
    w.write_plain(out);
}

/// Writes `A v` over `v`, for the matrix of `rho`, with one row of it at a time. `K` and `L` are those of a parameter set.
/// Internal: serves the crate `fips204` alone.
///
/// Errors: `SamplingLimit` if an entry reaches its limit; `v` may then have been written in part.
///
/// Not inlined, so that the rows leave the stack before the product is used.
#[inline(never)]
pub fn write_sampled_product<const K: usize, const L: usize, G: Xof>(
    rho: &[u8; 32],
    v: &mut Transforms,
) -> Result<(), Fault>
    requires shape { (K ≤ 8) × (L ≤ 7) }
    ensures { OnSampled G.front rho.now K L result (λ a. (r n : ℕ) → r < K → n < 256
        → vector_coefficients v.new r n ≡ matrix_product L a (vector_coefficients v.old) r n) }
{
    let mut row = [T0; L];
    let mut ahead = [T0; 4];
    let mut values = Values::zeros();
    v.write_values(&mut values);
    for r in 0..K {
        write_next_row::<K, L, G>(rho, r, &mut ahead, &mut row)?;
        v.write_row_product(r, &row, &values);
    }
    Ok(())
}

/// The transforms of a vector of `L` polynomials, one after the other, as rows of the matrix are multiplied with them.
///
/// Contracts see these transforms.
#[derive(Drop)]
pub struct Values<const L: usize> {
    transforms: [T; L],
}

impl<const L: usize> Model for Values<L> {
    ghost use Rattle.std.specs.Prelude.{List};
    ghost use Rattle.fips204_base.specs.declared.types.T.{T};
    ghost use Rattle.fips204_base.specs.Bounds.{TransformsWithin};

    ghost Value = { List T };

    ghost view = { λ v. v.transforms };

    ghost invariant = { λ v. TransformsWithin 8380416 v.transforms };
}

impl<const L: usize> Values<L> {
    /// Transforms of zeros.
    pub fn zeros() -> Values<L> {
        Values {
            transforms: [T0; L],
        }
    }
}

impl Transforms {
    /// Becomes `A v` (Algorithm 48) where it was `v`; the matrix is given by its transforms.
    #[inline(never)]
    pub fn multiply_by<const K: usize, const L: usize>(&mut self, a: &[[T; L]; K])
        requires shape { (K ≤ 8) × (L ≤ 7) }
        requires matrix { MatrixWithin 8380416 a.now }
        ensures { (r n : ℕ) → r < K → n < 256
            → vector_coefficients self.new r n ≡ matrix_product L a.now (vector_coefficients self.old) r n }
    {
        let mut rows = [R0; K];
        self.multiply_over(a, &mut rows);
    }

    /// The same, with room for the rows of `A v`, which are put into the lanes in one pass.
    #[inline(never)]
    fn multiply_over<const K: usize, const L: usize>(&mut self, a: &[[T; L]; K], rows: &mut [R; K])
        requires shape { (K ≤ 8) × (L ≤ 7) }
        requires matrix { MatrixWithin 8380416 a.now }
        ensures { (r n : ℕ) → r < K → n < 256
            → vector_coefficients self.new r n ≡ matrix_product L a.now (vector_coefficients self.old) r n }
    {
        let mut v = [T0; L];
        write_values(&self.values, &mut v);
        for r in 0..K {
            write_row_sums(&a[r], &v, &mut rows[r].0);
        }
        for n in 0..256usize {
            self.values[n] = lanes_of(rows, n);
        }
    }

    /// Polynomial `r` becomes the product of a row of the matrix with the vector of these transforms; the others stay.
    pub fn write_row_product<const L: usize>(&mut self, r: usize, row: &[T; L], v: &Values<L>)
        requires shape { (r < 8) × (L ≤ 7) }
        requires row { TransformsWithin 8380416 row.now }
        ensures product { (n : ℕ) → n < 256
            → vector_coefficients self.new r n ≡ row_product L (plain_row row.now) (plain_row v.now) n }
        ensures kept { (i n : ℕ) → i ≢ r → i < 8 → n < 256
            → vector_coefficients self.new i n ≡ vector_coefficients self.old i n }
    {
        let mut sums = [0; 256];
        write_row_sums(row, &v.transforms, &mut sums);
        for n in 0..256usize {
            self.values[n] = self.values[n].with_lane(r, sums[n]);
        }
    }

    /// Writes the transforms, one after the other.
    pub fn write_values<const L: usize>(&self, out: &mut Values<L>)
        requires { L ≤ 7 }
        ensures { (k n : ℕ) → k < L → n < 256 → plain_row out.new k n ≡ vector_coefficients self.now k n }
    {
        write_values(&self.values, &mut out.transforms);
    }
}

/// Writes the transforms that are in the lanes.
fn write_values<const L: usize>(lanes: &[Lanes; 256], out: &mut [T; L])
    requires few { L ≤ 8 }
    requires range { LanesWithin (λ x. x) 8 8380416 lanes.now }
    ensures values { (k n : ℕ) → k < L → n < 256 → vector_residues out.new k n ≡ lane_values lanes.now k n }
    ensures small { TransformsWithin 8380416 out.new }
{
    for n in 0..256usize {
        write_values_at(lanes[n], n, out);
    }
}

/// Writes value `n` of each transform.
#[inline(always)]
fn write_values_at<const L: usize>(x: Lanes, n: usize, out: &mut [T; L])
    requires few { L ≤ 8 }
    requires place { n < 256 }
    ensures value { (k : ℕ) (d : T) → k < L → coefficient_at (slice_index_or out.new k d).0 n ≡ lane x k }
    ensures kept { (k m : ℕ) (d : T) → m ≢ n
        → coefficient_at (slice_index_or out.new k d).0 m ≡ coefficient_at (slice_index_or out.old k d).0 m }
    ensures size { length out.new ≡ L }
    ensures places { (k : ℕ) (d : T) → k < L → length (slice_index_or out.new k d).0 ≡ 256 }
{
    let entries = x.to_array();
    for k in 0..L {
        write_at(&mut out[k].0, n, entries[k]);
    }
}

//! Vectors in the NTT domain, a polynomial a lane, and the factors that multiply them. Internal: serves the crate `fips204`
//! alone.
#![tactic(auto)]

ghost use Rattle.std.specs.Prelude.{◌≡◌, ◌≢◌, ◌<◌, ◌≤◌, ◌+◌, ℕ, [], pos, length, nat_abs, slice_index_or};
ghost use Rattle.fips204_base.specs.Lanes.{lane};
ghost use Rattle.fips204_base.specs.Residues.{coefficients};
ghost use Rattle.fips204_base.specs.Transforms.{minus, product};
ghost use Rattle.fips204_base.specs.Vectors.{vector_coefficients, vector_of};
ghost use Rattle.fips204_base.specs.PlainTransforms.{AreSameModQ, HasMultiple, Multiplied, multiple};
ghost use Rattle.fips204_base.specs.Bounds.{PolynomialWithin, VectorWithin, coefficient_at, coefficient_of};
ghost use Rattle.fips204_base.specs.declared.types.R.{R};

mod matrix;

use crate::helpers::count::Count;
use crate::helpers::vector::value_to_mont;
use crate::lanes::Lanes;
use crate::ntt::{write_lanes_inv_ntt, write_lanes_ntt, write_ntt};
use crate::types::R;
pub use matrix::{Values, write_matrix_product, write_sampled_product};
use std::marker::Model;

/// A vector of at most eight polynomials, as their transforms: lane `r` of value `n` is value `n` of the transform of
/// polynomial `r`, and zero if there is no polynomial `r`.
///
/// Contracts see the vector itself: eight polynomials with coefficients from 0 to `q - 1`.
#[derive(Drop)]
pub struct Transforms {
    values: [Lanes; 256],
}

impl Model for Transforms {
    ghost use Rattle.std.specs.Prelude.{List};
    ghost use Rattle.fips204_base.specs.declared.types.R.{R};
    ghost use Rattle.fips204_base.specs.Lanes.{LanesWithin};
    ghost use Rattle.fips204_base.specs.PlainTransforms.{plain_vector};

    ghost Value = { List R };

    ghost view = { λ t. plain_vector t.values };

    ghost invariant = { λ t. LanesWithin (λ x. x) 8 8380416 t.values };
}

impl Transforms {
    /// Eight polynomials of zeros.
    // Rust: #[inline(never)]
    pub fn zeros() -> Transforms
        ensures { (r n : ℕ) → r < 8 → n < 256 → vector_coefficients result r n ≡ 0 }
    {
        Transforms {
            values: [Lanes::from_array([0; 8]); 256],
        }
    }

    /// Becomes `v` (Algorithm 41). Coefficients are below `q` in absolute value.
    ///
    /// Not inlined, so that its calls can be counted.
    // Compiled for AVX2 too.
    #[inline(never)]
    pub fn write_transforms<const N: usize>(&mut self, v: &[R; N])
        requires few { N ≤ 8 }
        requires range { VectorWithin N 8380416 v.now }
        ensures { AreSameModQ N self.new v.now }
    {
        for n in 0..256usize {
            self.values[n] = lanes_of(v, n);
        }
        write_lanes_ntt(&mut self.values);
    }

    /// Becomes `v`, as by `write_transforms`, and returns `c` as what vectors are multiplied by. Both take one run of the
    /// network, with `c` in the last lane. Coefficients are below `q` in absolute value.
    // Compiled for AVX2 too.
    #[inline(never)]
    pub fn write_transforms_and_factor<const N: usize>(&mut self, v: &[R; N], c: &R) -> Factor
        requires few { N ≤ 7 }
        requires range { VectorWithin N 8380416 v.now }
        requires factor { PolynomialWithin 8380416 c.now.0 }
        ensures vector { AreSameModQ N self.new v.now }
        ensures factor { (n : ℕ) → n < 256 → coefficients result.0 n ≡ coefficients c.now.0 n }
    {
        for n in 0..256usize {
            self.values[n] = lanes_of(v, n).with_lane(7, c.0[n]);
        }
        write_lanes_ntt(&mut self.values);
        let mut values = [0; 256];
        for i in 0..256usize {
            values[i] = value_to_mont(self.values[i].to_array()[7]);
        }
        Factor { values }
    }

    /// Writes the polynomials (Algorithm 42), with coefficients from 0 to `q - 1`, and is used up by it.
    #[inline(never)]
    pub fn write_plain<const N: usize>(&mut self, out: &mut [R; N])
        requires { N ≤ 8 }
        ensures values { (r n : ℕ) → r < N → n < 256
            → coefficient_of out.new r n ≡ pos (vector_coefficients self.old r n) }
        ensures whole { out.new ≡ vector_of N (λ r n. pos (vector_coefficients self.old r n)) }
        ensures range { VectorWithin N 8380416 out.new }
    {
        write_lanes_inv_ntt(&mut self.values);
        write_lanes(&self.values, out);
    }

    /// Takes `c v` away.
    // Compiled for AVX2 too.
    pub fn subtract_multiple(&mut self, c: &Factor, v: &Transforms)
        ensures { (r n : ℕ) → r < 8 → n < 256 → vector_coefficients self.new r n
            ≡ minus (vector_coefficients self.old r) (product (coefficients c.now.0) (vector_coefficients v.now r)) n }
    {
        for n in 0..256usize {
            self.values[n] = self.values[n].minus(v.values[n].times(c.values[n]));
        }
    }
}

/// A polynomial that vectors are multiplied by, as its transform in Montgomery form.
///
/// Contracts see the polynomial itself, with coefficients from 0 to `q - 1`.
#[derive(Drop)]
pub struct Factor {
    values: [i32; 256],
}

impl Model for Factor {
    ghost use Rattle.fips204_base.specs.declared.types.R.{R};
    ghost use Rattle.fips204_base.specs.Bounds.{PolynomialWithin};
    ghost use Rattle.fips204_base.specs.PlainTransforms.{plain_factor};

    ghost Value = { R };

    ghost view = { λ c. plain_factor c.values };

    ghost invariant = { λ c. PolynomialWithin 8380416 c.values };
}

impl Factor {
    /// `c`, whose coefficients are below `q` in absolute value.
    // Compiled for SSE4.2 and AVX2 too.
    #[inline(never)]
    pub fn of(c: &R) -> Factor
        requires { PolynomialWithin 8380416 c.now.0 }
        ensures { (n : ℕ) → n < 256 → coefficients result.0 n ≡ coefficients c.now.0 n }
    {
        let mut values = c.0;
        write_ntt(&mut values, &mut Count::new());
        for n in 0..256usize {
            values[n] = value_to_mont(values[n]);
        }
        Factor { values }
    }
}

/// The products of a polynomial with two vectors, one after the other, and then with other vectors, of at most eight polynomials
/// each. Where the first has four at most, one run of the network makes its product and four polynomials of the second one.
///
/// Contracts see the polynomial and both vectors.
#[derive(Drop)]
pub struct Products<'a> {
    factor: &'a Factor,
    first: &'a Transforms,
    second: &'a Transforms,
    lanes: [Lanes; 256],
    // whether the product with the second vector is in the last four lanes
    has_second: bool,
}

impl<'a> Model for Products<'a> {
    ghost use Rattle.std.specs.Prelude.{IsTrue, ◌+◌};
    ghost use Rattle.fips204_base.specs.PlainTransforms.{HasMultiple, Multiplied};

    ghost Value = { Multiplied };

    ghost view = { λ p. record { factor = p.factor.now; first = p.first.now; second = p.second.now } };

    ghost invariant = { λ p. IsTrue p.has_second → HasMultiple 4 (λ r. 4 + r) p.factor.now p.second.now p.lanes };
}

impl<'a> Products<'a> {
    /// Those of `c` with `v` and `u`.
    pub fn of(c: &'a Factor, v: &'a Transforms, u: &'a Transforms) -> Products<'a>
        ensures { result ≡ record { factor = c.now; first = v.now; second = u.now } }
    {
        Products {
            factor: c,
            first: v,
            second: u,
            lanes: [Lanes::from_array([0; 8]); 256],
            has_second: false,
        }
    }

    /// Writes that with the first vector, with coefficients from 0 to `q - 1`.
    pub fn write_first<const N: usize>(&mut self, out: &mut [R; N])
        requires { N ≤ 8 }
        ensures value { out.new ≡ multiple N self.old.factor self.old.first }
        ensures range { VectorWithin N 8380416 out.new }
        ensures kept { self.new ≡ self.old }
    {
        if N <= 4 {
            write_multiples(self.factor, self.first, self.second, &mut self.lanes);
            self.has_second = true;
            write_lanes(&self.lanes, out);
        } else {
            let v = self.first;
            self.write_other(v, out);
        }
    }

    /// Writes that with the second vector, with coefficients from 0 to `q - 1`.
    pub fn write_second<const N: usize>(&mut self, out: &mut [R; N])
        requires { N ≤ 8 }
        ensures value { out.new ≡ multiple N self.old.factor self.old.second }
        ensures range { VectorWithin N 8380416 out.new }
        ensures kept { self.new ≡ self.old }
    {
        if self.has_second && N <= 4 {
            write_last_lanes(&self.lanes, out);
        } else {
            let v = self.second;
            self.write_other(v, out);
        }
    }

    /// Writes that with another vector, with coefficients from 0 to `q - 1`.
    #[inline(never)]
    pub fn write_other<const N: usize>(&mut self, v: &Transforms, out: &mut [R; N])
        requires { N ≤ 8 }
        ensures value { out.new ≡ multiple N self.old.factor v.now }
        ensures range { VectorWithin N 8380416 out.new }
        ensures kept { self.new ≡ self.old }
    {
        self.has_second = false;
        write_multiple(self.factor, v, &mut self.lanes);
        write_lanes(&self.lanes, out);
    }
}

/// Writes `c v` (Algorithms 45 and 42 at each polynomial): lane `r` of value `n` is coefficient `n` of polynomial `r`.
// Compiled for AVX2 too.
fn write_multiple(c: &Factor, v: &Transforms, out: &mut [Lanes; 256])
    ensures { HasMultiple 8 (λ r. r) c.now v.now out.new }
{
    for n in 0..256usize {
        out[n] = v.values[n].times(c.values[n]);
    }
    write_lanes_inv_ntt(out);
}

/// Writes `c v`, and from lane 4 on `c u`, in the first four polynomials of both.
// Compiled for AVX2 too.
fn write_multiples(c: &Factor, v: &Transforms, u: &Transforms, out: &mut [Lanes; 256])
    ensures first { HasMultiple 4 (λ r. r) c.now v.now out.new }
    ensures second { HasMultiple 4 (λ r. 4 + r) c.now u.now out.new }
{
    for n in 0..256usize {
        out[n] = v.values[n].concat_low(u.values[n]).times(c.values[n]);
    }
    write_lanes_inv_ntt(out);
}

/// Writes the polynomials whose coefficients are in the lanes.
#[inline(always)]
fn write_lanes<const N: usize>(lanes: &[Lanes; 256], out: &mut [R; N])
    requires { N ≤ 8 }
    ensures { out.new ≡ vector_of N (λ r n. lane (slice_index_or lanes.now n []) r) }
{
    for n in 0..256usize {
        write_coefficients(lanes[n], n, out);
    }
}

/// Writes the polynomials whose coefficients are in the last four lanes.
#[inline(always)]
fn write_last_lanes<const N: usize>(lanes: &[Lanes; 256], out: &mut [R; N])
    requires { N ≤ 4 }
    ensures { out.new ≡ vector_of N (λ r n. lane (slice_index_or lanes.now n []) (4 + r)) }
{
    for n in 0..256usize {
        write_coefficients(lanes[n].swap_halves(), n, out);
    }
}

/// Coefficient `n` of each polynomial, with 0 if there is none. Coefficients are below `q` in absolute value.
#[inline(always)]
fn lanes_of<const N: usize>(v: &[R; N], n: usize) -> Lanes
    requires few { N ≤ 8 }
    requires place { n < 256 }
    requires range { VectorWithin N 8380416 v.now }
    ensures value { (r : ℕ) → r < N → lane result r ≡ coefficient_of v.now r n }
    ensures small { (r : ℕ) → r < 8 → nat_abs (lane result r) ≤ 8380416 }
{
    let mut entries = [0; 8];
    for r in 0..N {
        entries[r] = v[r].0[n];
    }
    Lanes::from_array(entries)
}

/// Writes coefficient `n` of each polynomial.
#[inline(always)]
fn write_coefficients<const N: usize>(x: Lanes, n: usize, out: &mut [R; N])
    requires few { N ≤ 8 }
    requires place { n < 256 }
    ensures value { (r : ℕ) → r < N → coefficient_of out.new r n ≡ lane x r }
    ensures kept { (r m : ℕ) → m ≢ n → coefficient_of out.new r m ≡ coefficient_of out.old r m }
    ensures size { length out.new ≡ N }
    ensures places { (r : ℕ) (d : R) → r < N → length (slice_index_or out.new r d).0 ≡ 256 }
{
    let entries = x.to_array();
    for r in 0..N {
        write_at(&mut out[r].0, n, entries[r]);
    }
}

/// Writes number `n`.
#[inline(always)]
fn write_at(w: &mut [i32; 256], n: usize, x: i32)
    requires { n < 256 }
    ensures value { coefficient_at w.new n ≡ x }
    ensures kept { (m : ℕ) → m ≢ n → coefficient_at w.new m ≡ coefficient_at w.old m }
    ensures places { length w.new ≡ 256 }
{
    w[n] = x;
}

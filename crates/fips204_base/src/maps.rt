//! Steps over the coefficients of polynomials and of vectors, each by one closure, as new values or in
//! place. Internal: serves the crate `fips204` alone.
//!
//! The form for vectors also states the whole result: if the closure's result at each place is that of
//! a function of the place, the vector is the one of this function.
#![tactic(auto)]

ghost use Rattle.std.specs.Prelude.{◌≡◌, ◌<◌, ℕ, length};
ghost use Rattle.fips204_base.specs.Bounds.{coefficient_at, coefficient_of};
ghost use Rattle.fips204_base.specs.Maps.{AreZipped, IsDeterminedBy};

use crate::types::R;

/// The 256 numbers that `f` gives for those of `w`.
#[inline(always)]
pub fn map<F: Fn(i32) -> i32>(w: &[i32; 256], f: F) -> [i32; 256]
    requires { (n : ℕ) → n < 256 → F.pre f (coefficient_at w.now n) }
    ensures { (n : ℕ) → n < 256 → F.post f (coefficient_at w.now n) (coefficient_at result n) }
{
    let mut out = *w;
    write_map(&mut out, f);
    out
}

/// Changes each of the 256 numbers to `f` of it.
#[inline(always)]
pub fn write_map<F: Fn(i32) -> i32>(w: &mut [i32; 256], f: F)
    requires { (n : ℕ) → n < 256 → F.pre f (coefficient_at w.old n) }
    ensures values { (n : ℕ) → n < 256 → F.post f (coefficient_at w.old n) (coefficient_at w.new n) }
    ensures places { length w.new ≡ 256 }
{
    for n in 0..256 {
        w[n] = f(w[n]);
    }
}

/// Changes each of the 256 numbers of `v` to `f` of it and that of `w` at the same place.
#[inline(always)]
pub fn write_zip<F: Fn(i32, i32) -> i32>(v: &mut [i32; 256], w: &[i32; 256], f: F)
    requires { (n : ℕ) → n < 256 → F.pre f (coefficient_at v.old n) (coefficient_at w.now n) }
    ensures values { (n : ℕ) → n < 256
        → F.post f (coefficient_at v.old n) (coefficient_at w.now n) (coefficient_at v.new n) }
    ensures places { length v.new ≡ 256 }
{
    for n in 0..256 {
        v[n] = f(v[n], w[n]);
    }
}

/// The vector whose coefficients are `f` of those of `v`.
#[inline(always)]
pub fn map_vector<const K: usize, F: Fn(i32) -> i32>(v: &[R; K], f: F) -> [R; K]
    requires { (r n : ℕ) → r < K → n < 256 → F.pre f (coefficient_of v.now r n) }
    ensures values { (r n : ℕ) → r < K → n < 256 → F.post f (coefficient_of v.now r n) (coefficient_of result r n) }
    ensures whole { IsDeterminedBy (λ r n. F.post f (coefficient_of v.now r n)) K result }
{
    let mut out = *v;
    write_map_vector(&mut out, f);
    out
}

/// The vector whose coefficients are `f` of those of `v` and `w` at the same place.
#[inline(always)]
pub fn zip_vectors<const K: usize, F: Fn(i32, i32) -> i32>(v: &[R; K], w: &[R; K], f: F) -> [R; K]
    requires { (r n : ℕ) → r < K → n < 256 → F.pre f (coefficient_of v.now r n) (coefficient_of w.now r n) }
    ensures values { AreZipped (F.post f) K v.now w.now result }
    ensures whole { IsDeterminedBy (λ r n. F.post f (coefficient_of v.now r n) (coefficient_of w.now r n)) K result }
{
    let mut out = *v;
    write_zip_vectors(&mut out, w, f);
    out
}

/// Changes each coefficient of `v` to `f` of it.
#[inline(always)]
pub fn write_map_vector<const K: usize, F: Fn(i32) -> i32>(v: &mut [R; K], f: F)
    requires { (r n : ℕ) → r < K → n < 256 → F.pre f (coefficient_of v.old r n) }
    ensures values { (r n : ℕ) → r < K → n < 256 → F.post f (coefficient_of v.old r n) (coefficient_of v.new r n) }
    ensures whole { IsDeterminedBy (λ r n. F.post f (coefficient_of v.old r n)) K v.new }
{
    for r in 0..K {
        write_map(&mut v[r].0, &f);
    }
}

/// Changes each coefficient of `v` to `f` of it and that of `w` at the same place.
#[inline(always)]
pub fn write_zip_vectors<const K: usize, F: Fn(i32, i32) -> i32>(v: &mut [R; K], w: &[R; K], f: F)
    requires { (r n : ℕ) → r < K → n < 256 → F.pre f (coefficient_of v.old r n) (coefficient_of w.now r n) }
    ensures values { AreZipped (F.post f) K v.old w.now v.new }
    ensures whole { IsDeterminedBy (λ r n. F.post f (coefficient_of v.old r n) (coefficient_of w.now r n)) K v.new }
{
    for r in 0..K {
        write_zip(&mut v[r].0, &w[r].0, &f);
    }
}

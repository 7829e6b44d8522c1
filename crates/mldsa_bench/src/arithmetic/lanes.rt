//! Transforms of eight polynomials side by side, against values worked out from the standard's arithmetic and against
//! transforms one by one; and how large sums grow on the way back.
#![tactic(auto)]

ghost use Rattle.std.specs.Prelude.{◌≡◌, ◌≤◌, ◌<◌, ◌∷◌, [], ℕ, nat_abs};
ghost use Rattle.fips204_base.specs.Lanes.{Steps, lane, LanesWithin};

use crate::arithmetic::polynomials::{monomial, spread, within};
use fips204::Q;
use fips204::helpers::Count;
use fips204::ntt::{Lanes, Residue, inv_ntt, ntt};

fn row(w: &[[i32; 256]; 8], n: usize) -> Lanes
    requires { n < 256 }
    ensures { (j : ℕ) → j < 8 → nat_abs (lane result j) ≤ 8380416 }
{
    Lanes::from_array(within(&w.map(|polynomial| polynomial[n])))
}

fn side_by_side(w: &[[i32; 256]; 8]) -> [Lanes; 256]
    ensures { LanesWithin (λ x. x) 8 8380416 result }
{
    let mut out = [Lanes::from_array([0; 8]); 256];
    for n in 0..256usize {
        out[n] = row(w, n);
    }
    out
}

fn lane_of(rows: &[Lanes; 256], r: usize) -> [i32; 256]
    requires { r < 8 }
{
    rows.map(|row| row.to_array()[r])
}

fn residues(w: &[i32; 256]) -> [i32; 256] {
    w.map(|x| x.rem_euclid(Q))
}

/// The transform of a row, the row again, and whether each way took 1024 products and 2048 sums.
fn both_ways<V: Residue<Meter = Count>>(w: [V; 256]) -> ([V; 256], [V; 256], bool)
    requires products { (steps : Steps) → V.products steps ≡ steps.products }
    requires sums { (steps : Steps) → V.sums steps ≡ steps.sums }
    requires range { LanesWithin V.lanes V.width 8380416 w }
{
    let mut count = Count::new();
    let [hat] = ntt(&[w], &mut count);
    let once = (count.products(), count.sums()) == (1024, 2048);
    let [back] = inv_ntt(&[hat], &mut count);
    let both = once && (count.products(), count.sums()) == (2048, 4096);
    (hat, back, both)
}

/// The residues of the transforms of eight polynomials, if each lane is as the one over `i32` and they come back.
fn transforms(w: &[[i32; 256]; 8]) -> Option<[[i32; 256]; 8]> {
    let (hats, back, mut counted) = both_ways(side_by_side(w));
    let mut out = [[0; 256]; 8];
    for r in 0..8usize {
        let (hat, plain, alone) = both_ways(within(&w[r]));
        out[r] = residues(&hat);
        counted = counted && alone && residues(&lane_of(&hats, r)) == out[r];
        counted = counted && lane_of(&back, r) == plain && plain == residues(&w[r]);
    }
    counted.then_some(out)
}

/// The transform of 1 is 1 everywhere, that of X begins with 1753 and 8378664, that of zeros is zero; side by side as
/// one by one, also for eight polynomials with coefficients from 1 - q to q - 1, and back. Both ends of `i32`, q - 1,
/// 1 - q and small numbers, as an array, a row of lanes and an array again.
#[test]
fn eight_forth_and_back(rt: HostRuntime) {
    let mut w = [[0; 256]; 8];
    w[0] = monomial(0, 1);
    w[1] = monomial(1, 1);
    let begin = transforms(&w).map(|hats| {
        let x = hats[1].starts_with(&[1753, 8378664]);
        [hats[0] == [1; 256], x, hats[2..] == [[0; 256]; 6]]
    });
    let same = transforms(&[0, 1, 2, 3, 4, 5, 6, 7].map(spread)).is_some();
    let entries = [-2147483648, 2147483647, 0, -1, 1, -8380416, 8380416, 7];
    let again = Lanes::from_array(entries).to_array();
    assert_eq!(rt; (begin, same, again), (Some([true; 3]), true, entries));
}

/// A number whose sums and differences are noted.
#[derive(Clone, Copy)]
struct Noted(i32);

/// The count of the steps, and the largest absolute value of a sum or a difference.
type Notes = (Count, u32);

impl Residue for Noted {
    type Meter = Notes;

    ghost lanes = { λ x. x.0 ∷ [] };

    ghost width = { 1 };

    ghost products = { λ notes. notes.0.products };

    ghost sums = { λ notes. notes.0.sums };

    fn add(self, other: Noted, meter: &mut Notes) -> Noted {
        let sum = Residue::add(self.0, other.0, &mut meter.0);
        meter.1 = meter.1.max(sum.unsigned_abs());
        Noted(sum)
    }

    fn sub(self, other: Noted, meter: &mut Notes) -> Noted {
        let difference = Residue::sub(self.0, other.0, &mut meter.0);
        meter.1 = meter.1.max(difference.unsigned_abs());
        Noted(difference)
    }

    fn mul_zeta(self, m: usize, meter: &mut Notes) -> Noted {
        Noted(self.0.mul_zeta(m, &mut meter.0))
    }

    fn mul_neg_zeta(self, m: usize, meter: &mut Notes) -> Noted {
        Noted(self.0.mul_neg_zeta(m, &mut meter.0))
    }

    fn reduce(self) -> Noted {
        Noted(self.0.reduce())
    }

    fn finish(self) -> Noted {
        Noted(self.0.finish())
    }
}

fn repeated(number: i32) -> [Noted; 256]
    requires { nat_abs number ≤ 8380416 }
    ensures { LanesWithin (λ x. x.0 ∷ []) 1 8380416 result }
{
    [Noted(number); 256]
}

/// The largest sum or difference in the inverse transform of a row.
fn largest_sum(row: [Noted; 256]) -> u32
    requires { LanesWithin (λ x. x.0 ∷ []) 1 8380416 row }
{
    let mut notes = (Count::new(), 0);
    inv_ntt(&[row], &mut notes);
    notes.1
}

/// The largest sum or difference inside the inverse transform of 256 times q - 1, and of 256 times 1 - q, is
/// 2145386496.
#[test]
fn largest_sum_of_the_inverse_transform(rt: HostRuntime) {
    let most = largest_sum(repeated(8380416));
    assert_eq!(rt; [most, largest_sum(repeated(-8380416))], [2145386496; 2]);
}

//! The encoding of hints.
#![tactic(auto)]

ghost use Rattle.std.specs.Prelude.{◌≡◌, ◌<◌, ◌≤◌, ◌+◌, ◌≤ℤ◌, List, pos, nat_abs, length, take, drop, ◌++◌, MatchOption};
ghost use Rattle.fips204_base.specs.Bounds.{Finds, FindsIn, PolynomialInRange, VectorInRange};
ghost use Rattle.fips204_base.specs.Encodings.{Spells, all_ones, hint_bytes};
ghost use Rattle.fips204_base.specs.EncodingSteps.{ones};

use crate::types::{R, R0};

/// Writes the polynomial with ones at `places` and zeros elsewhere, or returns `None` if the places do not strictly
/// rise.
fn write_ones(places: &[u8], w: &mut R) -> Option<()>
    ensures { MatchOption result
        ((w : R) → places.now ≡ ones w → ⊥)
        (λ _. (places.now ≡ ones w.new) × (length w.new.0 ≡ 256) × PolynomialInRange (pos 0) (pos 1) w.new.0) }
{
    *w = R0;
    for k in 0..places.len() {
        let place = places[k] as usize;
        // y[Index - 1] >= y[Index]: none
        if k > 0 && places[k - 1] as usize >= place {
            return None;
        }
        // h[i]_y[Index] = 1
        w.0[place] = 1;
    }
    Some(())
}

/// `HintBitUnpack` (Algorithm 21): the hint that `y` encodes, or `None` if it encodes none.
///
/// `omega` is at least 1, `omega + K` is below 256, and `y` has exactly `omega + K` bytes.
pub fn hint_bit_unpack<const K: usize>(omega: i32, y: &[u8]) -> Option<[R; K]>
    requires some { pos 1 ≤ℤ omega }
    requires sizes { nat_abs omega + K < 256 }
    requires room { length y.now ≡ nat_abs omega + K }
    ensures { Finds (λ h. Spells (nat_abs omega) K h y.now) result }
{
    let mut h = [R0; K];
    write_unpacked_hint(omega, y, &mut h)?;
    Some(h)
}

/// `hint_bit_unpack`, written into the caller's place. Where `y` encodes no hint, part of one may be written.
pub(crate) fn write_unpacked_hint<const K: usize>(
    omega: i32,
    y: &[u8],
    h: &mut [R; K],
) -> Option<()>
    requires some { pos 1 ≤ℤ omega }
    requires sizes { nat_abs omega + K < 256 }
    requires room { length y.now ≡ nat_abs omega + K }
    ensures { FindsIn (λ h. Spells (nat_abs omega) K h y.now) result h.new }
{
    let limit = omega as usize;
    let mut index = 0usize;
    for i in 0..K {
        let end = y[limit + i] as usize;
        // y[omega + i] < Index or y[omega + i] > omega: none
        if end < index || end > limit {
            return None;
        }
        write_ones(&y[index..end], &mut h[i])?;
        index = end;
    }
    // y[i] != 0 for an i from Index to omega - 1: none
    for k in index..limit {
        if y[k] != 0 {
            return None;
        }
    }
    Some(())
}

/// Writes the places of the ones from `from` on, and returns where they end.
fn write_places(w: &R, y: &mut [u8], from: usize) -> usize
    requires { from + length (ones w.now) ≤ length y.old }
    ensures end { result ≡ from + length (ones w.now) }
    ensures places { take result y.new ≡ take from y.old ++ ones w.now }
    ensures rest { drop result y.new ≡ drop result y.old }
{
    let mut at = from;
    for j in 0..256usize {
        if w.0[j] > 0 {
            // h[i]_j != 0: y[Index] = j, Index = Index + 1
            y[at] = j as u8;
            at += 1;
        }
    }
    at
}

/// `HintBitPack` (Algorithm 20): writes the encoding of the hint `h`, whose coefficients are 0 or
/// 1, with at most `omega` ones in all.
///
/// `omega` is at least 1, `omega + K` is below 256, and `y` has exactly `omega + K` bytes.
pub fn hint_bit_pack<const K: usize>(omega: i32, h: &[R; K], y: &mut [u8])
    requires some { pos 1 ≤ℤ omega }
    requires sizes { nat_abs omega + K < 256 }
    requires room { length y.old ≡ nat_abs omega + K }
    requires bits { VectorInRange (pos 0) (pos 1) h.now }
    requires few { length (all_ones h.now) ≤ nat_abs omega }
    ensures { y.new ≡ hint_bytes (nat_abs omega) h.now }
{
    y.fill(0);
    let limit = omega as usize;
    let mut index = 0usize;
    for i in 0..K {
        index = write_places(&h[i], y, index);
        // y[omega + i] = Index
        y[limit + i] = index as u8;
    }
}

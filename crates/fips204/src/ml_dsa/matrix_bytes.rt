//! The matrix of a prepared key as bytes: its values row by row, each a word of 32 bits, the lowest byte first.
#![tactic(auto)]

ghost use Rattle.std.specs.Prelude.{◌≡◌, ◌<◌, ◌≤◌, ◌+◌, ◌*◌, ℕ, List, length, take, drop, MatchOption};
ghost use Rattle.std.specs.Int.{w32, to_le_bytes};
ghost use Rattle.fips204_base.specs.declared.types.T.{T};
ghost use Rattle.fips204_base.specs.Vectors.{matrix_product, vector_coefficients};
ghost use Rattle.fips204.specs.PreparedBytes.{entry_bytes, row_bytes, matrix_bytes, IsEntry, IsRow, IsMatrix};

use crate::types::{T, T0};
use fips204_base::Q;
use fips204_base::product::{Transforms, Values};

/// Writes a matrix, 1024 bytes for each entry.
pub(crate) fn write_matrix<const K: usize, const L: usize>(a: &[[T; L]; K], out: &mut [u8])
    requires few { (K ≤ 8) × (L ≤ 7) }
    requires room { length out.old ≡ 1024 * L * K }
    ensures { out.new ≡ matrix_bytes a.now }
{
    let size = 1024 * L;
    for r in 0..K {
        let at = size * r;
        write_row(&a[r], &mut out[at..at + size]);
    }
}

/// Writes a row of a matrix.
fn write_row<const L: usize>(row: &[T; L], out: &mut [u8])
    requires few { L ≤ 7 }
    requires room { length out.old ≡ 1024 * L }
    ensures { out.new ≡ row_bytes row.now }
{
    for s in 0..L {
        let at = 1024 * s;
        write_entry(&row[s], &mut out[at..at + 1024]);
    }
}

/// Writes an entry of a matrix.
fn write_entry(t: &T, out: &mut [u8])
    requires { length out.old ≡ 1024 }
    ensures { out.new ≡ entry_bytes t.now }
{
    for n in 0..256 {
        let at = 4 * n;
        out[at..at + 4].copy_from_slice(&t.0[n].unsigned_abs().to_le_bytes());
    }
}

/// Reads a matrix, or returns `None` if a value is `q` or more; `a` may then have been written in part.
pub(crate) fn read_matrix<const K: usize, const L: usize>(
    bytes: &[u8],
    a: &mut [[T; L]; K],
) -> Option<()>
    requires few { (K ≤ 8) × (L ≤ 7) }
    requires size { length bytes.now ≡ 1024 * L * K }
    ensures { MatchOption result ((b : List (List T)) → IsMatrix K L b → matrix_bytes b ≡ bytes.now → ⊥)
        (λ _. IsMatrix K L a.new × (matrix_bytes a.new ≡ bytes.now)) }
{
    let size = 1024 * L;
    for r in 0..K {
        let at = size * r;
        read_row(&bytes[at..at + size], &mut a[r])?;
    }
    Some(())
}

/// Writes `A v` over `v`, for the matrix that has these bytes, with one row of it at a time, or returns `None` if a value
/// is `q` or more; `v` may then have been written in part.
///
/// Not inlined, so that the rows leave the stack before the product is used.
#[inline(never)]
pub(crate) fn write_read_product<const K: usize, const L: usize>(
    bytes: &[u8],
    v: &mut Transforms,
) -> Option<()>
    requires few { (K ≤ 8) × (L ≤ 7) }
    requires size { length bytes.now ≡ 1024 * L * K }
    ensures { MatchOption result ((b : List (List T)) → IsMatrix K L b → matrix_bytes b ≡ bytes.now → ⊥)
        (λ _. (a : List (List T)) × IsMatrix K L a × (matrix_bytes a ≡ bytes.now) × ((r n : ℕ) → r < K → n < 256
        → vector_coefficients v.new r n ≡ matrix_product L a (vector_coefficients v.old) r n)) }
{
    let mut row = [T0; L];
    let mut values = Values::zeros();
    v.write_values(&mut values);
    let size = 1024 * L;
    for r in 0..K {
        let at = size * r;
        read_row(&bytes[at..at + size], &mut row)?;
        v.write_row_product(r, &row, &values);
    }
    Some(())
}

/// Does nothing if a matrix has these bytes, or returns `None` if a value is `q` or more.
pub(crate) fn check_matrix<const K: usize, const L: usize>(bytes: &[u8]) -> Option<()>
    requires few { (K ≤ 8) × (L ≤ 7) }
    requires size { length bytes.now ≡ 1024 * L * K }
    ensures { MatchOption result ((b : List (List T)) → IsMatrix K L b → matrix_bytes b ≡ bytes.now → ⊥)
        (λ _. (a : List (List T)) × IsMatrix K L a × (matrix_bytes a ≡ bytes.now)) }
{
    let mut row = [T0; L];
    let size = 1024 * L;
    for r in 0..K {
        let at = size * r;
        read_row(&bytes[at..at + size], &mut row)?;
    }
    Some(())
}

/// Reads a row of a matrix, or returns `None` if a value is `q` or more.
fn read_row<const L: usize>(bytes: &[u8], row: &mut [T; L]) -> Option<()>
    requires few { L ≤ 7 }
    requires size { length bytes.now ≡ 1024 * L }
    ensures { MatchOption result ((b : List T) → IsRow L b → row_bytes b ≡ bytes.now → ⊥)
        (λ _. IsRow L row.new × (row_bytes row.new ≡ bytes.now)) }
{
    for s in 0..L {
        let at = 1024 * s;
        read_entry(&bytes[at..at + 1024], &mut row[s])?;
    }
    Some(())
}

/// Reads an entry of a matrix, or returns `None` if a value is `q` or more.
fn read_entry(bytes: &[u8], t: &mut T) -> Option<()>
    requires { length bytes.now ≡ 1024 }
    ensures { MatchOption result ((b : T) → IsEntry b → entry_bytes b ≡ bytes.now → ⊥)
        (λ _. IsEntry t.new × (entry_bytes t.new ≡ bytes.now)) }
{
    let words = bytes.as_array::<1024>()?;
    for n in 0..256 {
        let word = word_at(words, n);
        if word >= Q as u32 {
            return None;
        }
        t.0[n] = word as i32;
    }
    Some(())
}

/// Word `n` of an entry.
#[inline(always)]
fn word_at(words: &[u8; 1024], n: usize) -> u32
    requires { n < 256 }
    ensures { to_le_bytes w32 result ≡ take 4 (drop (4 * n) words.now) }
{
    let at = 4 * n;
    u32::from_le_bytes(*words[at..at + 4].first_chunk::<4>().unwrap())
}

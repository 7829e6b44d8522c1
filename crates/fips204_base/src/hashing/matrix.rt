//! The matrix, as it is sampled from the XOF in the place of SHAKE128.
#![tactic(auto)]

ghost use Rattle.std.specs.Prelude.{◌≡◌, ◌≤◌, ◌<◌, ◌+◌, ◌*◌, ◌/◌, ◌%◌, ◌++◌, ◌∷◌, [], ℕ, ℤ, pos, ◌<ℤ◌, true, length, map, ok_or, slice_index, slice_index_or, IfOk, MatchResult, ⊤};
ghost use Rattle.std.specs.List.{flat_map, range_with_len};
ghost use Rattle.fips204_base.specs.SamplerSteps.{AreKept, AreAhead, numbered_entry, sampled_row, kept_triples, number, OnSampled, WritesSampled};
ghost use Rattle.fips204_base.specs.Sampling.{matrix_entry, sampled_matrix};
ghost use Rattle.fips204_base.specs.Vectors.{MatrixWithin};

use crate::Q;
use crate::conversion::coeff_from_three_bytes;
use crate::fault::Fault;
use crate::hashing::sampler::{Draws, Sampler};
use crate::hashing::write_kept;
use crate::types::{T, T0};
use crate::xof::{Xof, XofReader};
use std::simd::{u8x16, u32x4};

/// The numbers of the four triples at the start of 16 bytes, without the top bit of each: those that
/// CoeffFromThreeBytes (Algorithm 14) keeps if they are below `q`.
#[inline(always)]
fn four_numbers(bytes: u8x16) -> [i32; 4]
    requires { (j : ℕ) → j < 16 → slice_index bytes j < 256 }
    ensures { result ≡ map (λ p. pos (number bytes p)) (range_with_len 0 4) }
{
    let apart = bytes.shuffle(
        u8x16::splat(0),
        [0, 1, 2, 16, 3, 4, 5, 16, 6, 7, 8, 16, 9, 10, 11, 16],
    );
    let numbers = u32x4::from_le_bytes(apart) % u32x4::splat(1 << 23);
    numbers.cast::<i32>().to_array()
}

/// Writes the numbers of four triples from number `first` on, which stand at the start of 16 bytes.
#[inline(always)]
fn write_four_numbers(bytes: &[u8], first: usize, values: &mut [i32; 256])
    requires long { length bytes.now ≡ 16 }
    requires room { first + 4 ≤ 256 }
    ensures written { (j : ℕ) (d : ℤ) → j < 4 → slice_index_or values.new (first + j) d ≡ pos (number bytes.now j) }
    ensures others { (p : ℕ) (d : ℤ) → p < first → slice_index_or values.new p d ≡ slice_index_or values.old p d }
{
    let [a, b, c, d] = four_numbers(u8x16::from_slice(bytes));
    values[first] = a;
    values[first + 1] = b;
    values[first + 2] = c;
    values[first + 3] = d;
}

/// Writes the numbers of 256 triples, without the top bit of each.
// Rust: #[inline(always)]
fn write_numbers(triples: &[u8], values: &mut [i32; 256])
    requires { length triples.now ≡ 768 }
    ensures { (p : ℕ) (d : ℤ) → p < 256 → slice_index_or values.new p d ≡ pos (number triples.now p) }
{
    for n in 0..63 {
        write_four_numbers(&triples[12 * n..12 * n + 16], 4 * n, values);
    }
    let mut last = [0u8; 16];
    last[..12].copy_from_slice(&triples[756..768]);
    write_four_numbers(&last, 252, values);
}

/// Whether all are below `q`.
// Rust: #[inline(always)]
fn are_below_q(values: &[i32; 256]) -> bool
    ensures { result ≡ true → (p : ℕ) (d : ℤ) → p < 256 → slice_index_or values.now p d <ℤ pos 8380417 }
{
    let mut most = 0;
    for p in 0..256 {
        most = values[p].max(most);
    }
    most < Q
}

/// Puts the coefficients that 256 triples give into `values`, and returns how many there are. Nearly all triples are
/// accepted, so it decodes 256 at once, and compacts only if one is too large.
// Compiled for SSE4.2 and AVX2 too.
fn write_first_triples(triples: &[u8], values: &mut [i32; 256]) -> usize
    requires { length triples.now ≡ 768 }
    ensures count { result ≤ 256 }
    ensures kept { AreKept values.old 0 (kept_triples triples.now 256) values.new result }
{
    write_numbers(triples, values);
    if are_below_q(values) {
        return 256;
    }
    let mut count = 0;
    for p in 0..256usize {
        let number = values[p];
        if number < Q {
            values[count] = number;
            count += 1;
        }
    }
    count
}

/// The draws of a matrix entry: triples of bytes.
#[derive(Drop)]
struct Triples;

impl Draws for Triples {
    ghost is_kind = { λ _. ⊤ };

    ghost bytes = { λ _. 3 };

    ghost first = { λ _. 256 };

    ghost kept = { λ _. kept_triples };

    fn bytes(&self) -> usize {
        3
    }

    fn first(&self) -> usize {
        256
    }

    fn wanted(&self, count: usize) -> usize {
        (256 - count).min(8)
    }

    fn write_first(&self, draws: &[u8], values: &mut [i32; 256]) -> usize {
        write_first_triples(draws, values)
    }

    fn write_kept(&self, n: usize, piece: &[u8], values: &mut [i32; 256], count: usize) -> usize {
        let mut kept = count;
        for p in 0..n {
            let triple = [piece[3 * p], piece[3 * p + 1], piece[3 * p + 2]];
            kept = write_kept(coeff_from_three_bytes(triple), values, kept);
        }
        kept
    }
}

/// `RejNTTPoly` (Algorithm 30): a matrix entry from the concatenated `parts`.
///
/// Errors: `SamplingLimit` if rejection sampling reaches its limit: if as many triples as a quarter of the
/// output has bytes give fewer than 256 coefficients.
pub fn rej_ntt_poly<G: Xof>(parts: &[&[u8]]) -> Result<T, Fault>
    ensures { result ≡ ok_or (matrix_entry (G.front (flat_map (λ part. part.now) parts.now))) Fault.SamplingLimit }
{
    // ctx = G.Absorb(rho)
    let mut reader = G::open(parts);
    let mut first = [0u8; 768];
    reader.read(&mut first);
    let mut entry = T0;
    write_entry::<G>(&first, &mut reader, &mut entry)?;
    Ok(entry)
}

/// Writes the matrix entry of an output whose first 256 triples are in `first`. `reader` gives the others.
fn write_entry<G: Xof>(first: &[u8], reader: &mut G::Reader, entry: &mut T) -> Result<(), Fault>
    requires first { length first.now ≡ 768 }
    requires front { length first.now + length (G.Reader.rest reader.old) ≡ G.FRONT }
    ensures { WritesSampled (matrix_entry (first.now ++ G.Reader.rest reader.old)) result entry.new }
{
    // a[j] = CoeffFromThreeBytes(s[0], s[1], s[2]), kept unless it is none
    Triples.fill::<G>(first, reader, &mut entry.0)
}

/// The sampler of a matrix with `L` entries in a row, numbered row by row.
#[derive(Drop)]
struct Entries<'a, const L: usize> {
    rho: &'a [u8; 32],
}

impl<'a, const L: usize, G: Xof> Sampler<G> for Entries<'a, L> {
    type Value = T;

    ghost is_sampler = { λ _. (0 < L) × (L ≤ 7) };

    ghost has_number = { λ _ n. n < 8 * L };

    ghost seed = { λ entries n. entries.rho.now ++ (n % L) ∷ (n / L) ∷ [] };

    ghost size = { λ _. 768 };

    ghost made = { λ _. matrix_entry };

    fn size(&self) -> usize {
        768
    }

    fn open(&self, n: usize) -> G::Reader {
        G::open(&[self.rho.as_slice(), &[(n % L) as u8], &[(n / L) as u8]])
    }

    fn write(&self, first: &[u8], reader: &mut G::Reader, value: &mut T) -> Result<(), Fault> {
        write_entry::<G>(first, reader, value)
    }
}

/// Writes entry `n`, which is one of the four in `ahead` or begins the next four. Where fewer are left it is made alone.
fn write_next_entry<const K: usize, const L: usize, G: Xof>(
    rho: &[u8; 32],
    n: usize,
    ahead: &mut [T; 4],
    entry: &mut T,
) -> Result<(), Fault>
    requires shape { (K ≤ 8) × (L ≤ 7) }
    requires place { n < K * L }
    requires ahead { AreAhead G.front rho.now L (K * L) n ahead.old }
    ensures { MatchResult result
        (λ _. (numbered_entry G.front rho.now L n ≡ Some entry.new) × AreAhead G.front rho.now L (K * L) (n + 1) ahead.new)
        (λ fault. (sampled_matrix G.front rho.now K L ≡ None) × (fault ≡ Fault.SamplingLimit)) }
{
    let entries = Entries::<L> { rho };
    if n / 4 * 4 + 4 > K * L {
        return Sampler::<G>::write_one(&entries, n, entry);
    }
    if n % 4 == 0 {
        Sampler::<G>::write_four(&entries, n, ahead)?;
    }
    *entry = ahead[n % 4];
    Ok(())
}

/// `ExpandA` (Algorithm 32): the matrix of transforms, with the entry at row `r` and column `s` from `rho`,
/// byte `s` and byte `r`. `K` and `L` are those of a parameter set.
///
/// Errors: `SamplingLimit` if an entry reaches its limit.
pub fn expand_a<const K: usize, const L: usize, G: Xof>(
    rho: &[u8; 32],
) -> Result<[[T; L]; K], Fault>
    requires shape { (K ≤ 8) × (L ≤ 7) }
    ensures { result ≡ ok_or (sampled_matrix G.front rho.now K L) Fault.SamplingLimit }
{
    let mut matrix = [[T0; L]; K];
    write_expanded_a::<K, L, G>(rho, &mut matrix)?;
    Ok(matrix)
}

/// `expand_a`, written into the caller's place, with values below `q` in absolute value. After an error part of it
/// may be written. Internal: serves the crate `fips204` alone.
pub fn write_expanded_a<const K: usize, const L: usize, G: Xof>(
    rho: &[u8; 32],
    matrix: &mut [[T; L]; K],
) -> Result<(), Fault>
    requires shape { (K ≤ 8) × (L ≤ 7) }
    ensures values { OnSampled G.front rho.now K L result (λ a. matrix.new ≡ a) }
    ensures range { IfOk result (λ _. MatrixWithin 8380416 matrix.new) }
{
    let mut ahead = [T0; 4];
    for r in 0..K {
        write_next_row::<K, L, G>(rho, r, &mut ahead, &mut matrix[r])?;
    }
    Ok(())
}

/// Writes row `r` of the matrix (Algorithm 32, lines 2 to 5). Its entries are made four at a time, in their place if they are
/// a row, and else so that the next row's first ones may be in `ahead` then.
pub(crate) fn write_next_row<const K: usize, const L: usize, G: Xof>(
    rho: &[u8; 32],
    r: usize,
    ahead: &mut [T; 4],
    row: &mut [T; L],
) -> Result<(), Fault>
    requires shape { (K ≤ 8) × (L ≤ 7) }
    requires place { r < K }
    requires ahead { AreAhead G.front rho.now L (K * L) (r * L) ahead.old }
    ensures { MatchResult result
        (λ _. (sampled_row G.front rho.now L r ≡ Some row.new) × AreAhead G.front rho.now L (K * L) ((r + 1) * L) ahead.new)
        (λ fault. (sampled_matrix G.front rho.now K L ≡ None) × (fault ≡ Fault.SamplingLimit)) }
{
    if L == 4 {
        Sampler::<G>::write_four(&Entries::<L> { rho }, r * L, row)?;
        return Ok(());
    }
    for s in 0..L {
        write_next_entry::<K, L, G>(rho, r * L + s, ahead, &mut row[s])?;
    }
    Ok(())
}

//! XOFs, in place of SHAKE256 and SHAKE128.
#![tactic(auto)]

ghost use Rattle.std.specs.Prelude.{◌≡◌, ◌≤◌, ◌/◌, ◌⊎◌, ℕ, List, length, take, drop, replicate};
ghost use Rattle.std.specs.List.{flat_map};
ghost use Rattle.std.proofs.Common.{rules};

use std::marker::Model;

mod counter;
mod front;
mod sha2_ctr;

pub use counter::{BlockHash, BlockReader};
pub use front::FrontReader;
pub use sha2_ctr::{
    Sha256Ctr, Sha256CtrLong, Sha256CtrReader, Sha512Ctr, Sha512CtrLong, Sha512CtrReader,
};

/// A reader of an XOF's output.
// Contracts see it as `rest`, the list of the bytes not yet read.
pub trait XofReader: Drop {
    ghost rest: { Self → List ℕ };

    /// The number of bytes not yet read.
    fn left(&self) -> usize
        ensures { result ≡ length (rest self.now) };

    /// Fills `out` with the next bytes. `out` has at most `left()` bytes.
    fn read(&mut self, out: &mut [u8])
        requires { length out.old ≤ length (rest self.old) }
        ensures given { out.new ≡ take (length out.old) (rest self.old) }
        ensures dropped { rest self.new ≡ drop (length out.old) (rest self.old) };

    /// Fills the outputs with the next bytes of four readers, as `read` of each does. The outputs are of one length, and each
    /// reader has as many bytes left; or the fourth is empty, if only three are wanted.
    ///
    /// A reader may have a body of its own, which makes the bytes of the four side by side.
    fn read_four(
        a: &mut Self,
        b: &mut Self,
        c: &mut Self,
        d: &mut Self,
        to_a: &mut [u8],
        to_b: &mut [u8],
        to_c: &mut [u8],
        to_d: &mut [u8],
    )
        requires lengths { (length to_b.old ≡ length to_a.old) × (length to_c.old ≡ length to_a.old)
            × ((length to_d.old ≡ length to_a.old) ⊎ (length to_d.old ≡ 0)) }
        requires first { length to_a.old ≤ length (rest a.old) }
        requires second { length to_b.old ≤ length (rest b.old) }
        requires third { length to_c.old ≤ length (rest c.old) }
        requires fourth { length to_d.old ≤ length (rest d.old) }
        ensures first { to_a.new ≡ take (length to_a.old) (rest a.old) }
        ensures first_left { rest a.new ≡ drop (length to_a.old) (rest a.old) }
        ensures second { to_b.new ≡ take (length to_b.old) (rest b.old) }
        ensures second_left { rest b.new ≡ drop (length to_b.old) (rest b.old) }
        ensures third { to_c.new ≡ take (length to_c.old) (rest c.old) }
        ensures third_left { rest c.new ≡ drop (length to_c.old) (rest c.old) }
        ensures fourth { to_d.new ≡ take (length to_d.old) (rest d.old) }
        ensures fourth_left { rest d.new ≡ drop (length to_d.old) (rest d.old) }
    {
        a.read(to_a);
        b.read(to_b);
        c.read(to_c);
        d.read(to_d);
    }
}

/// An XOF, in place of SHAKE256 or SHAKE128 (FIPS 204, section 3.7): the input determines an output of
/// `FRONT` bytes. Rejection sampling reaches its limit at a quarter of them (`sampling_limit`).
pub trait Xof: Sized {
    type Reader: XofReader;

    /// The number of bytes of an output, from 4096 to 1048576.
    const FRONT: usize;

    ghost FRONT: { ℕ };

    ghost front: { List ℕ → List ℕ };

    /// Opens a reader of the output over the concatenated parts; how the input is cut makes no difference.
    fn open(parts: &[&[u8]]) -> Self::Reader
        ensures { Self.Reader.rest result ≡ front (flat_map (λ part. part.now) parts.now) };

    ghost front_size: { (input : List ℕ) → length (front input) ≡ FRONT };

    ghost front_least: { 4096 ≤ FRONT };

    ghost front_most: { FRONT ≤ 1048576 };
}

/// The first `N` bytes of the XOF's output over the concatenated parts, as `H(..)` of the standard; `N` is at most
/// 4096.
pub fn hash<H: Xof, const N: usize>(parts: &[&[u8]]) -> [u8; N]
    requires { N ≤ 4096 }
    ensures { result ≡ take N (H.front (flat_map (λ part. part.now) parts.now)) }
{
    let mut out = [0u8; N];
    let mut reader = H::open(parts);
    reader.read(&mut out);
    out
}

/// The number of draws at which rejection sampling from an XOF reaches its limit: triples for a matrix
/// entry, bytes for a small polynomial, bytes for a challenge, not counting the eight of its signs. A quarter
/// of `FRONT`, rounded down: from 1024 to 262144.
pub fn sampling_limit<X: Xof>() -> usize
    ensures quarter { result ≡ X.FRONT / 4 }
    ensures least { 1024 ≤ result }
    ensures most { result ≤ 262144 }
{
    X::FRONT / 4
}

/// The XOF whose output is 4096 times the byte `B`, for every input.
pub struct Fill<const B: u8>;

/// A reader of `Fill`.
#[derive(Drop)]
pub struct FillReader<const B: u8> {
    left: usize,
}

impl<const B: u8> Model for FillReader<B> {
    ghost Value = { List ℕ };

    ghost view = { λ reader. replicate reader.left B };
}

impl<const B: u8> XofReader for FillReader<B> {
    ghost rest = { λ bytes. bytes };

    fn left(&self) -> usize {
        self.left
    }

    fn read(&mut self, out: &mut [u8]) {
        self.left -= out.len();
        out.fill(B);
    }
}

impl<const B: u8> Xof for Fill<B> {
    type Reader = FillReader<B>;

    const FRONT: usize = 4096;

    ghost FRONT = { 4096 };

    ghost front = { λ _. replicate 4096 B };

    ghost front_size = { Prim.search rules };

    ghost front_least = { Prim.search rules };

    ghost front_most = { Prim.search rules };

    fn open(_parts: &[&[u8]]) -> FillReader<B> {
        FillReader { left: 4096 }
    }
}

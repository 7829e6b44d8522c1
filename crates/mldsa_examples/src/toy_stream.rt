//! XOFs of one's own, as docs/RATTLE.md shows them: a hash in counter mode, an output that a function fills, and a reader that
//! wraps another.
#![tactic(auto)]

ghost use Rattle.std.specs.Prelude.{◌≡◌};
ghost use Rattle.std.specs.List.{flat_map};
ghost use Rattle.std.proofs.Common.{rules};
ghost use Rattle.mldsa_examples.specs.ToyHash.{toy_hash, length-toy_hash};
ghost use Rattle.mldsa_examples.specs.ToyStreams.{counter_front, length-counter_front, spread_front, length-spread_front};

use crate::toy_hash::{digest, state_of};
use fips204::xof::{BlockHash, BlockReader, FrontReader, Xof, XofReader};
use std::marker::Model;

/// The toy hash, with digests of four bytes.
pub struct Toy;

impl BlockHash<4> for Toy {
    ghost hash = { toy_hash };

    ghost digest_size = { length-toy_hash };

    fn digest(parts: &[&[u8]]) -> [u8; 4] {
        digest(parts)
    }
}

/// The toy hash in counter mode.
pub struct ToyCtr;

impl Xof for ToyCtr {
    type Reader = BlockReader<Toy, 4>;

    const FRONT: usize = 4096;

    ghost FRONT = { 4096 };

    ghost front = { counter_front };

    ghost front_size = { length-counter_front };

    ghost front_least = { Prim.search rules };

    ghost front_most = { Prim.search rules };

    fn open(parts: &[&[u8]]) -> BlockReader<Toy, 4> {
        BlockReader::new(parts, 1024)
    }
}

/// The whole output of `ToySpread` over the joined parts.
fn filled(parts: &[&[u8]]) -> [u8; 4096]
    ensures { result ≡ spread_front (flat_map (λ part. part.now) parts.now) }
{
    let state = state_of(parts) as u64;
    let mut front = [0u8; 4096];
    for place in 0..4096 {
        front[place] = ((state + place as u64) * 48_271 % 2_147_483_647 / 256 % 256) as u8;
    }
    front
}

/// The XOF whose output one function fills.
pub struct ToySpread;

impl Xof for ToySpread {
    type Reader = FrontReader<4096>;

    const FRONT: usize = 4096;

    ghost FRONT = { 4096 };

    ghost front = { spread_front };

    ghost front_size = { length-spread_front };

    ghost front_least = { Prim.search rules };

    ghost front_most = { Prim.search rules };

    fn open(parts: &[&[u8]]) -> FrontReader<4096> {
        FrontReader::new(filled(parts))
    }
}

/// A reader with a `read_four` of its own, which passes it on.
#[derive(Drop)]
pub struct WideReader {
    front: FrontReader<4096>,
}

impl Model for WideReader {
    ghost use Rattle.std.specs.Prelude.{ℕ, List};

    ghost Value = { List ℕ };

    ghost view = { λ reader. reader.front };
}

impl XofReader for WideReader {
    ghost rest = { λ bytes. bytes };

    fn left(&self) -> usize {
        self.front.left()
    }

    fn read(&mut self, out: &mut [u8]) {
        self.front.read(out);
    }

    fn read_four(
        a: &mut WideReader,
        b: &mut WideReader,
        c: &mut WideReader,
        d: &mut WideReader,
        to_a: &mut [u8],
        to_b: &mut [u8],
        to_c: &mut [u8],
        to_d: &mut [u8],
    ) {
        FrontReader::<4096>::read_four(
            &mut a.front,
            &mut b.front,
            &mut c.front,
            &mut d.front,
            to_a,
            to_b,
            to_c,
            to_d,
        );
    }
}

/// The bytes of `ToySpread`, by a reader that wraps another.
pub struct ToyWide;

impl Xof for ToyWide {
    type Reader = WideReader;

    const FRONT: usize = 4096;

    ghost FRONT = { 4096 };

    ghost front = { spread_front };

    ghost front_size = { length-spread_front };

    ghost front_least = { Prim.search rules };

    ghost front_most = { Prim.search rules };

    fn open(parts: &[&[u8]]) -> WideReader {
        WideReader {
            front: FrontReader::new(filled(parts)),
        }
    }
}

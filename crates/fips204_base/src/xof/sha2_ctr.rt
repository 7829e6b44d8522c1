//! SHA-256 and SHA-512 in counter mode, for tests: over `Sha256Ctr` no parameter set has more than 128 bits of
//! collision resistance.
#![tactic(auto)]

ghost use Rattle.sha2.specs.Sha256.{sha256};
ghost use Rattle.sha2.specs.Sha512.{sha512};
ghost use Rattle.sha2.proofs.Facts256.{length-sha256};
ghost use Rattle.sha2.proofs.Facts512.{length-sha512};
ghost use Rattle.std.proofs.Common.{rules};
ghost use Rattle.fips204_base.specs.FrontLengths.{length-sha256_front, length-sha256_long_front, length-sha512_front, length-sha512_long_front};
ghost use Rattle.fips204_base.specs.Streams.{sha256_front, sha256_long_front, sha512_front, sha512_long_front};

use crate::xof::Xof;
use crate::xof::counter::{BlockHash, BlockReader, digest_of_parts};
use sha2::{Sha256, Sha512};

impl BlockHash<32> for Sha256 {
    ghost hash = { sha256 };

    ghost digest_size = { length-sha256 };

    #[inline(always)]
    fn digest(parts: &[&[u8]]) -> [u8; 32] {
        digest_of_parts::<Sha256>(parts)
    }
}

impl BlockHash<64> for Sha512 {
    ghost hash = { sha512 };

    ghost digest_size = { length-sha512 };

    #[inline(always)]
    fn digest(parts: &[&[u8]]) -> [u8; 64] {
        digest_of_parts::<Sha512>(parts)
    }
}

/// A reader of `Sha256Ctr` or `Sha256CtrLong`.
pub type Sha256CtrReader = BlockReader<Sha256, 32>;

/// A reader of `Sha512Ctr` or `Sha512CtrLong`.
pub type Sha512CtrReader = BlockReader<Sha512, 64>;

/// SHA-256 in counter mode, for tests: 128 blocks over the digest of the input, where block `i` is SHA-256 of that
/// digest followed by `i` as four bytes, the lowest first.
pub struct Sha256Ctr;

impl Xof for Sha256Ctr {
    type Reader = Sha256CtrReader;

    const FRONT: usize = 4096;

    ghost FRONT = { 4096 };

    ghost front = { sha256_front };

    ghost front_size = { length-sha256_front };

    ghost front_least = { Prim.search rules };

    ghost front_most = { Prim.search rules };

    fn open(parts: &[&[u8]]) -> Sha256CtrReader {
        BlockReader::new(parts, 128)
    }
}

/// The XOF with the blocks of `Sha256Ctr`, 512 of them: its output has 16384 bytes.
pub struct Sha256CtrLong;

impl Xof for Sha256CtrLong {
    type Reader = Sha256CtrReader;

    const FRONT: usize = 16384;

    ghost FRONT = { 16384 };

    ghost front = { sha256_long_front };

    ghost front_size = { length-sha256_long_front };

    ghost front_least = { Prim.search rules };

    ghost front_most = { Prim.search rules };

    fn open(parts: &[&[u8]]) -> Sha256CtrReader {
        BlockReader::new(parts, 512)
    }
}

/// SHA-512 in counter mode: 64 blocks over the digest of the input, where block `i` is SHA-512 of that digest
/// followed by `i` as four bytes, the lowest first.
pub struct Sha512Ctr;

impl Xof for Sha512Ctr {
    type Reader = Sha512CtrReader;

    const FRONT: usize = 4096;

    ghost FRONT = { 4096 };

    ghost front = { sha512_front };

    ghost front_size = { length-sha512_front };

    ghost front_least = { Prim.search rules };

    ghost front_most = { Prim.search rules };

    fn open(parts: &[&[u8]]) -> Sha512CtrReader {
        BlockReader::new(parts, 64)
    }
}

/// The XOF with the blocks of `Sha512Ctr`, 256 of them: its output has 16384 bytes.
pub struct Sha512CtrLong;

impl Xof for Sha512CtrLong {
    type Reader = Sha512CtrReader;

    const FRONT: usize = 16384;

    ghost FRONT = { 16384 };

    ghost front = { sha512_long_front };

    ghost front_size = { length-sha512_long_front };

    ghost front_least = { Prim.search rules };

    ghost front_most = { Prim.search rules };

    fn open(parts: &[&[u8]]) -> Sha512CtrReader {
        BlockReader::new(parts, 256)
    }
}

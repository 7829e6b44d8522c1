//! XOFs whose whole output is one byte, which the input chooses.
#![tactic(auto)]

ghost use Rattle.std.specs.Prelude.{◌≡◌, ◌<◌, ◌+◌, ◌*◌, ◌&&◌, ℕ, List, length, take, replicate, slice_index, nat_eq, nat_lt, IfSome, MatchOption, if◌then◌else◌};
ghost use Rattle.std.specs.List.{flat_map};
ghost use Rattle.std.proofs.Common.{rules};

use fips204::xof::{FrontReader, Xof};

/// The XOF whose output is 4096 times the byte that its input chooses.
pub struct Chosen<const SIZE: u8, const BELOW: u32, const BYTE: u8>;

/// Bytes FF where the input has 32 bytes, as that of a challenge of set 44, and else 55.
pub type ByLength = Chosen<30, 65536, 0xff>;

/// Bytes 00 over the masks of the first attempt at set 44, which have numbers below 4, and else 55.
pub type Second = Chosen<64, 4, 0>;

/// `BYTE` where the joined parts have `SIZE` bytes and two more, whose number, the low one first, is below
/// `BELOW`; and else 55.
fn byte_over<const SIZE: u8, const BELOW: u32, const BYTE: u8>(parts: &[&[u8]]) -> u8
    ensures { result ≡ (λ (input : List ℕ). if nat_eq (length input) (SIZE + 2) && nat_lt (slice_index input SIZE + 256 * slice_index input (SIZE + 1)) BELOW then BYTE else 85) (flat_map (λ part. part.now) parts.now) }
{
    let size = SIZE as usize;
    let mut room = [0u8; 257];
    match joined(parts, &mut room) {
        Some(count)
            if count == size + 2 && (room[size] as u32) + 256 * (room[size + 1] as u32) < BELOW => {
            BYTE
        }
        _ => 0x55,
    }
}

impl<const SIZE: u8, const BELOW: u32, const BYTE: u8> Xof for Chosen<SIZE, BELOW, BYTE> {
    type Reader = FrontReader<4096>;

    const FRONT: usize = 4096;

    ghost FRONT = { 4096 };

    ghost front = { λ input. replicate 4096 (if nat_eq (length input) (SIZE + 2) && nat_lt (slice_index input SIZE + 256 * slice_index input (SIZE + 1)) BELOW then BYTE else 85) };

    ghost front_size = { Prim.search rules };

    ghost front_least = { Prim.search rules };

    ghost front_most = { Prim.search rules };

    fn open(parts: &[&[u8]]) -> FrontReader<4096> {
        FrontReader::new([byte_over::<SIZE, BELOW, BYTE>(parts); 4096])
    }
}

/// How many bytes the joined parts have, which then stand in the first places of `room`; none where they
/// have more than 257.
fn joined(parts: &[&[u8]], room: &mut [u8; 257]) -> Option<usize>
    ensures size { MatchOption result (257 < length (flat_map (λ part. part.now) parts.now)) (λ count. count ≡ length (flat_map (λ part. part.now) parts.now)) }
    ensures bytes { IfSome result (λ count. take count room.new ≡ flat_map (λ part. part.now) parts.now) }
{
    let mut count = 0usize;
    for part in parts {
        if part.len() > 257 - count {
            return None;
        }
        room[count..count + part.len()].copy_from_slice(part);
        count += part.len();
    }
    Some(count)
}

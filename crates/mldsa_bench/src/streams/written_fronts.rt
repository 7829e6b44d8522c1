//! XOFs whose outputs are written out.
#![tactic(auto)]

ghost use Rattle.std.specs.Prelude.{◌≡◌, ◌≤◌, ◌+◌, ℕ, map};
ghost use Rattle.std.specs.List.{range_with_len};
ghost use Rattle.std.proofs.Common.{rules};

use fips204::xof::{Xof, XofReader};
use std::marker::PhantomData;

/// A byte for each place of an output.
pub trait Pattern: Sized {
    ghost byte: { ℕ → ℕ };

    /// The byte at a place.
    fn byte_at(place: usize) -> u8
        ensures { result ≡ byte place };
}

/// The XOF whose output has the bytes of a pattern, 4096 and `MORE`, whatever its input; it is its own reader.
#[derive(Drop)]
pub struct PatternedBy<P: Pattern, const MORE: u16> {
    pattern: PhantomData<P>,
    given: usize,
    ghost within: { given ≤ 4096 + MORE },
}

/// The same with an output of 4096 bytes.
pub type Patterned<P> = PatternedBy<P, 0>;

impl<P: Pattern, const MORE: u16> XofReader for PatternedBy<P, MORE> {
    ghost use Rattle.std.specs.Prelude.{drop};

    ghost rest = { λ reader. drop reader.given (map P.byte (range_with_len 0 (4096 + MORE))) };

    fn left(&self) -> usize {
        4096 + MORE as usize - self.given
    }

    fn read(&mut self, out: &mut [u8]) {
        for i in 0..out.len() {
            out[i] = P::byte_at(self.given + i);
        }
        self.given += out.len();
    }
}

impl<P: Pattern, const MORE: u16> Xof for PatternedBy<P, MORE> {
    ghost use Rattle.std.proofs.lemmas.List.FromFn.{length-map-range_with_len};

    type Reader = Self;

    const FRONT: usize = 4096 + MORE as usize;

    ghost FRONT = { 4096 + MORE };

    ghost front = { λ _. map P.byte (range_with_len 0 (4096 + MORE)) };

    ghost front_size = { λ _. length-map-range_with_len P.byte 0 (4096 + MORE) };

    ghost front_least = { Prim.search rules };

    ghost front_most = { Prim.search rules };

    fn open(_parts: &[&[u8]]) -> Self {
        PatternedBy {
            pattern: PhantomData,
            given: 0,
        }
    }
}

/// Eight bytes `SIGNS`, bytes 255 up to place `END`, and then zeros.
pub struct Turn<const SIGNS: u8, const END: usize>;

impl<const SIGNS: u8, const END: usize> Pattern for Turn<SIGNS, END> {
    ghost use Rattle.std.specs.Prelude.{nat_lt, if◌then◌else◌};

    ghost byte = { λ place. if nat_lt place 8 then SIGNS else if nat_lt place END then 255 else 0 };

    fn byte_at(place: usize) -> u8 {
        match place {
            0..8 => SIGNS,
            _ if place < END => 255,
            _ => 0,
        }
    }
}

/// The last triple of each four, from place `START` on, is of bytes 0, and every other byte up to place `END` is 255;
/// zeros follow.
pub struct FourthTriplesTo<const START: usize, const END: usize>;

/// The same up to the end of 4096 bytes.
pub type FourthTriples<const START: usize> = FourthTriplesTo<START, 4096>;

impl<const START: usize, const END: usize> Pattern for FourthTriplesTo<START, END> {
    ghost use Rattle.std.specs.Prelude.{◌%◌, ◌||◌, ◌&&◌, nat_le, if◌then◌else◌};

    ghost byte = { λ place. if nat_le START place && nat_le 9 (place % 12) || nat_le END place then 0 else 255 };

    fn byte_at(place: usize) -> u8 {
        if START <= place && 9 <= place % 12 || END <= place {
            0
        } else {
            255
        }
    }
}

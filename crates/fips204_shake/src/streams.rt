//! SHAKE256 and SHAKE128 as the XOFs of `fips204`.
#![tactic(auto)]

ghost use Rattle.std.specs.Prelude.{◌≡◌, ℕ, List};
ghost use Rattle.std.specs.List.{flat_map};
ghost use Rattle.std.proofs.Common.{rules};
ghost use Rattle.shake.specs.Shake.{shake};
ghost use Rattle.shake.specs.State.{IsRate};
ghost use Rattle.fips204_shake.specs.Fronts.{shake256_front, shake128_front, length-shake256_front, length-shake128_front};
ghost use Rattle.fips204_shake.specs.Unbounded.{OnlyLimitsDiffer};

use fips204::laws::longer_functions;
use fips204::xof::{Xof, XofReader};
use shake::{Shake, ShakeReader};
use std::marker::Model;

/// The number of bytes of the outputs here: as many as `Xof` allows. What is not read of an output costs nothing. The limits of
/// sampling, a quarter of it, lie far above those that Appendix C of FIPS 204 asks for at least.
pub const FRONT: usize = 1_048_576;

/// A reader of an output: so many bytes of SHAKE with blocks of `R` bytes.
#[derive(Drop)]
pub struct SpongeReader<const R: usize> {
    output: ShakeReader<R>,
    left: usize,
}

impl<const R: usize> Model for SpongeReader<R> {
    ghost use Rattle.std.specs.Prelude.{ℕ, List};
    ghost use Rattle.shake.specs.Pieces.{next};

    ghost Value = { List ℕ };

    ghost view = { λ reader. next reader.output reader.left };
}

impl<const R: usize> SpongeReader<R> {
    /// A reader of the output of the joined parts.
    fn open(parts: &[&[u8]]) -> SpongeReader<R>
        requires { IsRate R }
        ensures { result ≡ shake R (flat_map (λ part. part.now) parts.now) 1048576 }
    {
        let mut hasher = Shake::<R>::new();
        for part in parts {
            hasher.update(part);
        }
        SpongeReader {
            output: hasher.finalize_xof(),
            left: FRONT,
        }
    }
}

impl<const R: usize> XofReader for SpongeReader<R> {
    ghost rest = { λ bytes. bytes };

    fn left(&self) -> usize {
        self.left
    }

    fn read(&mut self, out: &mut [u8]) {
        self.output.read(out);
        self.left -= out.len();
    }

    fn read_four(
        a: &mut SpongeReader<R>,
        b: &mut SpongeReader<R>,
        c: &mut SpongeReader<R>,
        d: &mut SpongeReader<R>,
        to_a: &mut [u8],
        to_b: &mut [u8],
        to_c: &mut [u8],
        to_d: &mut [u8],
    ) {
        ShakeReader::read_four(
            &mut a.output,
            &mut b.output,
            &mut c.output,
            &mut d.output,
            to_a,
            to_b,
            to_c,
            to_d,
        );
        a.left -= to_a.len();
        b.left -= to_b.len();
        c.left -= to_c.len();
        d.left -= to_d.len();
    }
}

/// SHAKE256, the function H of the standard.
pub struct Shake256Stream;

/// SHAKE128, the function G of the standard.
pub struct Shake128Stream;

impl Xof for Shake256Stream {
    type Reader = SpongeReader<136>;

    const FRONT: usize = FRONT;

    ghost FRONT = { 1048576 };

    ghost front = { shake256_front };

    ghost front_size = { length-shake256_front };

    ghost front_least = { Prim.search rules };

    ghost front_most = { Prim.search rules };

    fn open(parts: &[&[u8]]) -> SpongeReader<136> {
        SpongeReader::open(parts)
    }
}

impl Xof for Shake128Stream {
    type Reader = SpongeReader<168>;

    const FRONT: usize = FRONT;

    ghost FRONT = { 1048576 };

    ghost front = { shake128_front };

    ghost front_size = { length-shake128_front };

    ghost front_least = { Prim.search rules };

    ghost front_most = { Prim.search rules };

    fn open(parts: &[&[u8]]) -> SpongeReader<168> {
        SpongeReader::open(parts)
    }
}

/// That the output of the XOFs ends changes nothing but the error which says so: a law, which computes nothing. The
/// loops of FIPS 204 read as much of SHAKE256 and SHAKE128 as they need. What a call returns here, unless it is
/// `Fault::SamplingLimit`, it returns over any longer part of that output too; so does verifying with a yes, and with a no
/// if a matrix and a challenge are there, or if signature, context, identifier or digest are malformed.
pub fn only_limits_differ()
    ensures { OnlyLimitsDiffer }
{
    longer_functions();
}

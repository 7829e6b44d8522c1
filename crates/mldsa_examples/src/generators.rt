//! Random bytes of the kit's sources and generators, as the library asks for them.
//!
//! A mutation that the contracts reject: a `FromGenerator` whose generator is not asked. The kit states nothing of what
//! a source gives, so of `FromSource` it is the tests that reject this.
#![tactic(auto)]

ghost use Rattle.std.specs.Prelude.{◌≡◌, ⊤, ℕ, length};

use fips204::RngError;
use fips204::traits::CryptoRngCore;
use rand_core::TryCryptoRng;
use std::random::RandomSource;

/// A source of the kit, such as the runtime of `main`, as a generator. It returns any bytes, as many as it is asked
/// for, and fails if the source reports an error; nothing is known about when that is.
#[derive(Drop)]
pub struct FromSource<R> {
    /// The source.
    pub source: R,
}

impl<R: RandomSource> CryptoRngCore for FromSource<R> {
    ghost gives = { λ before asked bytes after. (length bytes ≡ asked) × (after ≡ before) };

    ghost refuses = { λ before asked after. after ≡ before };

    fn try_fill_bytes(&mut self, out: &mut [u8]) -> Result<(), RngError> {
        match self.source.fill_bytes(out) {
            Ok(()) => Ok(()),
            Err(_) => Err(RngError),
        }
    }
}

/// A generator of the kit that may fail, as a generator of the library. It returns the bytes that the generator may
/// give, as many as it is asked for, and fails if the generator reports an error; nothing is known about when that is.
#[derive(Drop)]
pub struct FromGenerator<R> {
    /// The generator.
    pub generator: R,
}

impl<R: TryCryptoRng> CryptoRngCore for FromGenerator<R> {
    ghost gives = { λ before asked bytes after. (length bytes ≡ asked) × R.may_fill before.generator bytes after.generator };

    ghost refuses = { λ before asked after. ⊤ };

    fn try_fill_bytes(&mut self, out: &mut [u8]) -> Result<(), RngError> {
        match self.generator.try_fill_bytes(out) {
            Ok(()) => Ok(()),
            Err(_) => Err(RngError),
        }
    }
}

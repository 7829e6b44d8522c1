//! Generators over a source and over a generator of the kit.
#![tactic(auto)]

use super::pair;
use crate::generators::{FromGenerator, FromSource};
use fips204::Fault;
use fips204::traits::{CryptoRngCore, Signer, Verifier};
use rand_core::{TryCryptoRng, TryRng};
use std::io;
use std::random::RandomSource;

/// A source of the tests: it writes one byte everywhere, or reports an error.
#[derive(Drop)]
struct Constant {
    byte: Option<u8>,
}

impl RandomSource for Constant {
    fn fill_bytes(&self, buf: &mut [u8]) -> io::Result<()> {
        match self.byte {
            Some(byte) => {
                buf.fill(byte);
                Ok(())
            }
            None => Err(io::Error::from(io::ErrorKind::Other)),
        }
    }
}

impl TryRng for Constant {
    type Error = io::Error;

    fn try_next_u32(&mut self) -> Result<u32, io::Error> {
        let mut bytes = [0; 4];
        self.fill_bytes(&mut bytes)?;
        Ok(u32::from_be_bytes(bytes))
    }

    fn try_next_u64(&mut self) -> Result<u64, io::Error> {
        let mut bytes = [0; 8];
        self.fill_bytes(&mut bytes)?;
        Ok(u64::from_be_bytes(bytes))
    }

    fn try_fill_bytes(&mut self, dst: &mut [u8]) -> Result<(), io::Error> {
        self.fill_bytes(dst)
    }
}

impl TryCryptoRng for Constant {}

/// Whether the signature with random bytes of a generator is accepted, and is that with bytes 03.
fn signs<R: CryptoRngCore>(rng: &mut R) -> Result<[bool; 2], Fault> {
    let (public, private) = pair(7)?;
    let drawn = private.try_sign_with_rng(rng, b"a message", b"test")?;
    let seeded = private.try_sign_with_seed(&[3; 32], b"a message", b"test");
    Ok([
        public.verify(b"a message", &drawn, b"test"),
        seeded == Ok(drawn),
    ])
}

/// A generator over a source of the kit signs as the call with the bytes that the source returned, and one over a generator
/// of the kit as the call with the bytes that this gave.
#[test]
fn a_source_that_gives(rt: HostRuntime) {
    let (source, generator) = (Constant { byte: Some(3) }, Constant { byte: Some(3) });
    assert!(rt; signs(&mut FromSource { source }) == Ok([true; 2]));
    assert!(rt; signs(&mut FromGenerator { generator }) == Ok([true; 2]));
}

/// A source and a generator that report an error: `SignRng`.
#[test]
fn a_source_that_refuses(rt: HostRuntime) {
    let (source, generator) = (Constant { byte: None }, Constant { byte: None });
    assert!(rt; signs(&mut FromSource { source }) == Err(Fault::SignRng));
    assert!(rt; signs(&mut FromGenerator { generator }) == Err(Fault::SignRng));
}

//! Calls that draw: a generator that fails at the first, the second or the third of four, and one that gives what is in
//! a list.
#![tactic(auto)]

ghost use Rattle.std.specs.Prelude.{◌≡◌};

use crate::keys::sets::{Keys, PairCall, Suite, TestSet, at_each_set, is_same};
use fips204::pre_hash::SHA2_256;
use fips204::traits::{CryptoRngCore, DummyRng};
use fips204::xof::Fill;
use fips204::{Fault, Input, RngError};
use std::test::Fail;

/// A generator that fails at one call, counted from 0, and every call that asks for another number of
/// bytes than 32; it gives 32 bytes 07 to every other. Where it `writes`, it has written over `out` before
/// it fails. It notes whether `out` ever held anything but zeros.
#[derive(Clone, Copy)]
pub struct RefusesAt {
    pub call: u8,
    pub writes: bool,
    pub asked: u8,
    pub saw_a_value: bool,
}

impl RefusesAt {
    /// A generator that has not been asked yet.
    pub fn new(call: u8, writes: bool) -> RefusesAt {
        RefusesAt {
            call,
            writes,
            asked: 0,
            saw_a_value: false,
        }
    }
}

impl CryptoRngCore for RefusesAt {
    ghost use Rattle.std.specs.Prelude.{◌≡◌, ◌≢◌, ◌⊎◌, replicate};

    ghost gives = { λ before asked bytes after. (asked ≡ 32) × (before.asked ≢ before.call) × (bytes ≡ replicate 32 7) × (after.call ≡ before.call) };

    ghost refuses = { λ before asked after. ((asked ≢ 32) ⊎ (before.asked ≡ before.call)) × (after.call ≡ before.call) };

    fn try_fill_bytes(&mut self, out: &mut [u8]) -> Result<(), RngError> {
        let call = self.asked;
        self.asked = call.wrapping_add(1);
        self.saw_a_value |= !out.iter().all(|byte| *byte == 0);
        if out.len() == 32 && call != self.call {
            out.fill(7);
            return Ok(());
        }
        if self.writes {
            out.fill(0xaa);
        }
        Err(RngError)
    }
}

/// A generator that gives what is in a list, one entry a call: 32 bytes, or an error. It fails every call that asks for
/// another number of bytes, and every call after the list. It counts the calls that the list serves.
#[derive(Drop)]
pub struct Listed<'a> {
    pub answers: &'a [Option<[u8; 32]>],
    pub asked: usize,
}

impl CryptoRngCore for Listed<'_> {
    ghost use Rattle.std.specs.Prelude.{◌≡◌, ◌≢◌, ◌<◌, ◌+◌, ◌⊎◌, Some, None, length, slice_index_or};

    ghost gives = { λ before asked bytes after. (asked ≡ 32) × (slice_index_or before.answers.now before.asked None ≡ Some bytes)
        × (after.asked ≡ before.asked + 1) × (after.answers.now ≡ before.answers.now) };

    ghost refuses = { λ before asked after. ((asked ≢ 32) ⊎ (slice_index_or before.answers.now before.asked None ≡ None))
        × (before.asked < length before.answers.now → after.asked ≡ before.asked + 1) × (after.answers.now ≡ before.answers.now) };

    fn try_fill_bytes(&mut self, out: &mut [u8]) -> Result<(), RngError> {
        let Some(answer) = self.answers.get(self.asked) else {
            return Err(RngError);
        };
        self.asked += 1;
        match answer {
            Some(bytes) if out.len() == 32 => {
                out.copy_from_slice(bytes);
                Ok(())
            }
            _ => Err(RngError),
        }
    }
}

/// What is signed with drawn bytes, and the error that stands for the generator's.
static DRAWN: [(Input, Fault); 6] = [
    (Input::Message(b"abc", &[]), Fault::SignRng),
    (Input::Message(b"abc", &[1; 255]), Fault::SignRng),
    (Input::Digest(&[0; 32], &[], &SHA2_256), Fault::HashRng),
    (
        Input::Digest(&[0; 32], &[1; 255], &SHA2_256),
        Fault::HashRng,
    ),
    (Input::Framed(b"abc"), Fault::InternalRng),
    (Input::Mu(&[0; 64]), Fault::InternalRng),
];

fn is_wanted(answer: Result<bool, Fault>, refused: bool, fault: Fault) -> bool {
    answer == if refused { Err(fault) } else { Ok(true) }
}

/// Whether four signatures of each input are made, but for the one whose generator fails, each of one call of the
/// generator, which is handed zeros.
fn draws<S: PartialEq + Drop, K: Keys<S>>(keys: &K, signature: &S, refusing: RefusesAt) -> bool {
    for (input, fault) in &DRAWN {
        let mut rng = refusing;
        for number in 0..4u8 {
            let answer = is_same(keys.drawn(&mut rng, true, input), signature);
            if !is_wanted(answer, number == refusing.call, *fault) {
                return false;
            }
        }
        if rng.asked != 4 || rng.saw_a_value {
            return false;
        }
    }
    true
}

fn draws_pairs<S: TestSet>(pair_call: PairCall, refusing: RefusesAt) -> bool {
    let mut rng = refusing;
    for number in 0..4u8 {
        let answer = S::is_constant(S::drawn_pair(&mut rng, pair_call));
        if !is_wanted(answer, number == refusing.call, Fault::KeyGenRng) {
            return false;
        }
    }
    rng.asked == 4 && !rng.saw_a_value
}

/// Whether every call of a set that draws does so: three for pairs, those of plain keys, and those of prepared ones.
impl Suite for RefusesAt {
    type Answer = [bool; 5];

    fn at<S: TestSet>(&self, _number: usize) -> Result<[bool; 5], Fail> {
        let (keys, signature) = S::constant()?;
        let prepared = S::prepared(&keys)?;
        Ok([
            draws_pairs::<S>(PairCall::OfTrait, *self),
            draws_pairs::<S>(PairCall::OfSet, *self),
            draws_pairs::<S>(PairCall::Shared, *self),
            draws(&keys, &signature, *self),
            draws(&prepared, &signature, *self),
        ])
    }
}

/// At each set every drawing call, plain and prepared, with a generator that fails at its first, second or third of four
/// calls: that call's error; the others sign as over constant XOFs. It is asked four times, with zeros to fill.
#[test]
fn refusing_generators(rt: HostRuntime) -> Result<(), Fail> {
    for call in 0..3u8 {
        for writes in [false, true] {
            let refusing = RefusesAt::new(call, writes);
            at_each_set::<Fill<0x55>, Fill<0>, RefusesAt>(&rt, &refusing, &[[true; 5]; 3])?;
        }
    }
    Ok(())
}

/// Whether a generator gives this place its bytes, and whether it sees a value there.
fn sees(place: &mut [u8]) -> [bool; 2] {
    let mut rng = RefusesAt::new(255, false);
    [rng.try_fill_bytes(place).is_ok(), rng.saw_a_value]
}

/// The generator of these tests looks at the place that it is handed, and gives 32 bytes at a time.
#[test]
fn generator_that_looks(rt: HostRuntime) {
    let found = [sees(&mut [0; 32]), sees(&mut [1; 32]), sees(&mut [0, 1])];
    assert_eq!(rt; found, [[true, false], [true, true], [false, true]]);
}

/// `DummyRng` asked for 0, 31, 32 and 33 bytes: it fails for all but 32, and leaves the others as they were.
#[test]
fn generator_of_one_seed(rt: HostRuntime) {
    let mut rng = DummyRng { bytes: [7; 32] };
    let mut refused = true;
    for size in [0usize, 31, 33] {
        let mut out = [0x11u8; 33];
        refused &= rng.try_fill_bytes(&mut out[..size]).is_err();
        refused &= out == [0x11; 33] && rng.bytes == [7; 32];
    }
    let mut out = [0u8; 32];
    let found = (refused, rng.try_fill_bytes(&mut out), out, rng.bytes);
    assert_eq!(rt; found, (true, Ok(()), [7; 32], [7; 32]));
}

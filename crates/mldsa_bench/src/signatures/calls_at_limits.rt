//! Every call of a set over XOFs at their limits and past them, and the masks and responses of attempts.
#![tactic(auto)]

ghost use Rattle.std.specs.Prelude.{◌≡◌, ◌≤◌, ◌+◌, ◌⊎◌, ◌≤ℤ◌, pos};

use crate::arithmetic::polynomials::slow_product;
use crate::keys::sets::{Constant44, Keys, Suite, TestSet, at_each_set, is_same};
use crate::signatures::norms_and_hints::{accepted, short};
use crate::streams::input_chosen::{ByLength, Second};
use crate::streams::written_fronts::{FourthTriples, Patterned};
use crate::values::constant_streams::{private_44, put_fields, signature_44};
use fips204::Fault;
use fips204::hashing::{expand_mask, sample_in_ball};
use fips204::ml_dsa_44::{KG, PrivateKey};
use fips204::traits::SerDes;
use fips204::types::R;
use fips204::xof::{Fill, Sha256Ctr, Xof};
use std::test::Fail;

/// The XOFs whose matrix entries keep their last coefficient from the last triple.
type LastTriple = Patterned<FourthTriples<0>>;

/// The XOFs whose matrix entries keep one coefficient fewer.
type PastLastTriple = Patterned<FourthTriples<12>>;

/// What the calls of a set return.
#[derive(Clone, Copy, PartialEq, Debug)]
pub struct Answers {
    /// Whether the pair of a seed is that over constant XOFs.
    pub pair: Result<bool, Fault>,
    /// Whether the public key of the private one is.
    pub derived: Result<bool, Fault>,
    /// Whether the private key comes back from its bytes and is consistent.
    pub read: Result<bool, Fault>,
    /// The errors of preparing the public key and the private key.
    pub unprepared: [Option<Fault>; 2],
    /// Whether plain keys sign as over constant XOFs, and accept that signature.
    pub plain: [Result<bool, Fault>; 2],
    /// The same of prepared keys.
    pub prepared: [Result<bool, Fault>; 2],
}

/// What keys over constant XOFs return.
pub const ALL: Answers = Answers {
    pair: Ok(true),
    derived: Ok(true),
    read: Ok(true),
    unprepared: [None; 2],
    plain: [Ok(true); 2],
    prepared: [Ok(true); 2],
};

/// What keys return that have no matrix.
const NO_MATRIX: Answers = Answers {
    pair: LIMIT,
    derived: LIMIT,
    read: LIMIT,
    unprepared: [Some(Fault::SamplingLimit); 2],
    plain: [LIMIT, Ok(false)],
    prepared: [LIMIT; 2],
};

const LIMIT: Result<bool, Fault> = Err(Fault::SamplingLimit);

fn signed<S: PartialEq + Drop, K: Keys<S>>(keys: &K, signature: &S) -> [Result<bool, Fault>; 2] {
    let text = &short();
    let same = is_same(keys.seeded(&[0; 32], text), signature);
    [same, Ok(keys.accepts(text, signature))]
}

fn signed_prepared<S: TestSet>(keys: &S::Plain, wanted: &S::Signature) -> [Result<bool, Fault>; 2] {
    match S::prepared(keys) {
        Ok(prepared) => signed(&prepared, wanted),
        Err(fault) => [Err(fault); 2],
    }
}

/// What the calls of a set return; the pair is of a seed of bytes of this value.
pub struct Calls(pub u8);

impl Suite for Calls {
    type Answer = Answers;

    fn at<S: TestSet>(&self, _number: usize) -> Result<Answers, Fail> {
        let (keys, signature) = S::constant()?;
        Ok(Answers {
            pair: S::is_constant(S::pair(&[self.0; 32])),
            derived: S::derives_constant(&keys),
            unprepared: S::refusals(&keys),
            plain: signed(&keys, &signature),
            prepared: signed_prepared::<S>(&keys, &signature),
            read: is_same(S::read_again(keys, 0, 0), &[true; 2]),
        })
    }
}

/// Every fourth triple 0 and the rest FF at each set: key generation, deriving, preparing, signing and
/// verifying return what they return over constant XOFs.
#[test]
fn calls_whose_matrix_ends_at_its_last_triple(rt: HostRuntime) -> Result<(), Fail> {
    at_each_set::<Fill<0x55>, LastTriple, Calls>(&rt, &Calls(7), &[ALL; 3])
}

/// Past that limit, and with `G` of bytes FF, each call returns `SamplingLimit`, also `prepare` and `is_whole`, and
/// verifying returns false.
#[test]
fn calls_whose_matrix_passes_its_limit(rt: HostRuntime) -> Result<(), Fail> {
    let refused = [NO_MATRIX; 3];
    at_each_set::<Fill<0x55>, PastLastTriple, Calls>(&rt, &Calls(7), &refused)?;
    at_each_set::<Fill<0x55>, Fill<0xff>, Calls>(&rt, &Calls(7), &refused)?;
    at_each_set::<Fill<0x55>, Fill<0xff>, Calls>(&rt, &Calls(0), &refused)?;
    at_each_set::<Sha256Ctr, Fill<0xff>, Calls>(&rt, &Calls(0), &refused)?;
    at_each_set::<Fill<0xff>, Fill<0xff>, Calls>(&rt, &Calls(0), &refused)
}

fn commitment_of_ff() -> [u8; 2420] {
    let mut signature = signature_44();
    for i in 0..32usize {
        signature[i] = 0xff;
    }
    signature
}

/// `H` of bytes FF over inputs of 32 bytes and else 55, set 44: the same keys, `SamplingLimit` in signing,
/// and false, with plain and prepared keys. `H` of bytes FF, each set: `SamplingLimit` in key generation too, and at
/// set 44 false also of a signature that begins with bytes FF.
#[test]
fn challenges_that_pass_their_limit(rt: HostRuntime) -> Result<(), Fail> {
    let one = Calls(7).at::<KG<ByLength, Fill<0>>>(0)?;
    let answer = accepted::<KG<Fill<0xff>, Fill<0>>>(&commitment_of_ff())?;
    let none = [LIMIT, Ok(false)];
    let pair = Answers {
        plain: none,
        prepared: none,
        ..ALL
    };
    let no_pair = Answers {
        pair: LIMIT,
        ..pair
    };
    assert_eq!(rt; (one, answer), (pair, [false; 2]));
    at_each_set::<Fill<0xff>, Fill<0>, Calls>(&rt, &Calls(0), &[no_pair; 3])
}

fn signing_faults<S: TestSet>(keys: &S::Plain) -> Result<[Option<Fault>; 2], Fault> {
    let (text, prepared) = (&short(), S::prepared(keys)?);
    let plain = keys.seeded(&[0; 32], text).err();
    Ok([plain, prepared.seeded(&[0; 32], text).err()])
}

/// The errors of a signature by the keys of 32 bytes 00, plain and prepared.
struct FaultsOfPair;

impl Suite for FaultsOfPair {
    type Answer = [Option<Fault>; 2];

    fn at<S: TestSet>(&self, _number: usize) -> Result<[Option<Fault>; 2], Fail> {
        Ok(signing_faults::<S>(&S::pair(&[0; 32])?)?)
    }
}

/// Both XOFs of bytes 00, each set: `TooManyAttempts`, with plain and prepared keys.
#[test]
fn keys_that_never_sign(rt: HostRuntime) -> Result<(), Fail> {
    let wanted = [[Some(Fault::TooManyAttempts); 2]; 3];
    at_each_set::<Fill<0>, Fill<0>, FaultsOfPair>(&rt, &FaultsOfPair, &wanted)
}

/// Coefficient 255 of the product of the challenge with another first polynomial of t0; and with it, the errors of
/// signing, and whether the public key is derived as over constant XOFs.
fn with_large_low_parts() -> Result<(i32, [Option<Fault>; 2], bool), Fault> {
    let R(c) = sample_in_ball::<Fill<0x55>>(39, &[0x55; 32])?;
    let (mut low, mut fields) = ([2i32; 256], [4094; 256]);
    for place in 0..38usize {
        (low[place], fields[place]) = [(4096, 0), (-4095, 8191)][place % 2];
    }
    (low[170], fields[170]) = (-4095, 8191);
    let mut bytes = private_44();
    put_fields(&mut bytes[896..1312], &fields, 13);
    let ((public, _), _) = Constant44::constant()?;
    let keys = (public, PrivateKey::try_from_bytes(bytes)?);
    let faults = signing_faults::<Constant44>(&keys)?;
    let derived = Constant44::derives_constant(&keys)?;
    Ok((slow_product(&c, &low)[255], faults, derived))
}

/// A key of set 44 with another first polynomial of t0: -4095 at odd places up to 37 and at 170, 4096 at even places
/// between. Its product with the challenge is too large, 159724 at index 255 by double sums: `TooManyAttempts`.
#[test]
fn low_parts_that_never_sign(rt: HostRuntime) {
    let many = [Some(Fault::TooManyAttempts); 2];
    assert_eq!(rt; with_large_low_parts(), Ok((159724, many, true)));
}

/// Whether every coefficient of the masks at a counter is this one.
fn masks_are<const L: usize, H: Xof>(gamma1: i32, counter: u16, coefficient: i32) -> bool
    requires gamma1 { (gamma1 ≡ pos 131072) ⊎ (gamma1 ≡ pos 524288) }
    requires numbers { counter + L ≤ 65536 }
{
    let masks = expand_mask::<L, H>(gamma1, &[0; 64], counter);
    masks.iter().all(|mask| mask.0 == [coefficient; 256])
}

/// The smallest coefficient of z where every one of the mask is `gamma1` and every one of s1 is `eta`.
fn smallest_response<H: Xof>(gamma1: i64, tau: i32, eta: i32) -> Result<i64, Fault>
    requires tau { (pos 1 ≤ℤ tau) × (tau ≤ℤ pos 64) }
{
    let R(c) = sample_in_ball::<H>(tau, &[0x55; 32])?;
    let mut smallest = gamma1;
    for residue in slow_product(&c, &[eta; 256]) {
        let centred = (i64::from(residue) + 4190208) % 8380417 - 4190208;
        smallest = smallest.min(gamma1.wrapping_add(centred));
    }
    Ok(smallest)
}

/// `H` of bytes 00 over the masks of attempt 0 and else 55, set 44: that attempt is rejected, and attempt 1
/// signs as over constant XOFs.
#[test]
fn first_attempts_that_are_rejected(rt: HostRuntime) -> Result<(), Fail> {
    let first = masks_are::<4, Second>(131072, 0, 131072);
    let smallest = smallest_response::<Second>(131072, 39, 2)?;
    let second = masks_are::<4, Second>(131072, 4, 43691);
    let found = Calls(7).at::<KG<Second, Fill<0>>>(0)?;
    assert_eq!(rt; (first, smallest, second, found), (true, 131066, true, ALL));
    Ok(())
}

/// Over bytes 00 every coefficient of the mask is gamma1, and the smallest response is 130998, 524100 and
/// 524172 at the three sets.
#[test]
fn responses_over_zeros(rt: HostRuntime) {
    let masks = [
        masks_are::<4, Fill<0>>(131072, 0, 131072),
        masks_are::<4, Fill<0>>(131072, 3252, 131072),
        masks_are::<5, Fill<0>>(524288, 0, 524288),
        masks_are::<5, Fill<0>>(524288, 4065, 524288),
        masks_are::<7, Fill<0>>(524288, 0, 524288),
        masks_are::<7, Fill<0>>(524288, 5691, 524288),
    ];
    let responses = [
        smallest_response::<Fill<0>>(131072, 39, 2),
        smallest_response::<Fill<0>>(524288, 49, 4),
        smallest_response::<Fill<0>>(524288, 60, 2),
    ];
    let wanted = [Ok(130998), Ok(524100), Ok(524172)];
    assert_eq!(rt; (masks, responses), ([true; 6], wanted));
}

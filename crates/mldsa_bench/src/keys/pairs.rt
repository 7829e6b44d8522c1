//! Key pairs, and keys through their bytes.
#![tactic(auto)]

use crate::keys::sets::{Constant44, Suite, TestSet, at_each_set};
use crate::signatures::calls_at_limits::{ALL, Calls};
use crate::values::constant_streams::{LOW_0, private_44, public_44, repeat};
use fips204::traits::{SerDes, Signer};
use fips204::xof::{Fill, Sha256Ctr, Sha512Ctr};
use fips204::{Fault, ml_dsa_44, ml_dsa_65, ml_dsa_87};
use std::test::Fail;

type Private44 = ml_dsa_44::PrivateKey<Fill<0x55>, Fill<0>>;

type Public44 = ml_dsa_44::PublicKey<Fill<0x55>, Fill<0>>;

/// The key pair of each set with `H` of bytes 55 and `G` of bytes 00, byte for byte, for any seed, and what its calls
/// return; private keys come back from their bytes, and are consistent.
#[test]
fn pairs_of_each_set(rt: HostRuntime) -> Result<(), Fail> {
    at_each_set::<Fill<0x55>, Fill<0>, Calls>(&rt, &Calls(7), &[ALL; 3])?;
    at_each_set::<Fill<0x55>, Fill<0>, Calls>(&rt, &Calls(0), &[ALL; 3])
}

/// The array whose byte `i` is `i` modulo 256.
fn counting<const N: usize>() -> [u8; N] {
    let mut bytes = [0u8; N];
    for i in 0..N {
        bytes[i] = (i % 256) as u8;
    }
    bytes
}

fn comes_back<S: SerDes<ByteArray = [u8; N]> + Drop, const N: usize>(
    bytes: &[u8; N],
) -> Result<bool, Fault> {
    Ok(S::try_from_bytes(*bytes)?.into_bytes() == *bytes)
}

/// Whether the public key of set 44 comes back where all bytes have this value.
fn comes_back_of(byte: u8) -> Result<bool, Fault> {
    comes_back::<ml_dsa_44::PublicKey<Fill<0>, Fill<0>>, 1312>(&[byte; 1312])
}

/// Public keys come back from their bytes: at each set where these count up modulo 256, and at set 44 where all have
/// one value.
#[test]
fn public_keys_come_back(rt: HostRuntime) {
    let filled = [0, 1, 0x7f, 0x80, 0xff].map(comes_back_of);
    let rising = [
        comes_back::<Public44, 1312>(&counting()),
        comes_back::<ml_dsa_65::PublicKey<Sha256Ctr, Sha512Ctr>, 1952>(&counting()),
        comes_back::<ml_dsa_87::PublicKey<Sha256Ctr, Sha512Ctr>, 2592>(&counting()),
    ];
    assert_eq!(rt; (rising, filled), ([Ok(true); 3], [Ok(true); 5]));
}

/// A copy of a private key has the key's bytes.
#[test]
fn private_keys_are_copied(rt: HostRuntime) -> Result<(), Fail> {
    let key = Private44::try_from_bytes(private_44())?;
    let copy = key.clone()?;
    let found = [copy.into_bytes(), key.into_bytes()];
    assert!(rt; found == [private_44(); 2]);
    Ok(())
}

/// Whether the recorded keys come back; and the first value of a field, up to the largest, with which the private key
/// neither comes back, as up to 2 eta, nor is `KeyRange`, as above it.
fn wrong_value<S: TestSet>(
    (at, unit): (usize, u8),
    [largest, recorded, most]: [u8; 3],
) -> Result<(bool, Option<u8>), Fault> {
    let comes_back = S::is_constant(Ok(S::constant()?.0))?;
    for field in 0..=largest {
        let bits = (field ^ recorded).wrapping_mul(unit);
        let as_wanted = match S::read_again(S::constant()?.0, at, bits) {
            Ok(found) => found[0] && field <= most,
            Err(fault) => matches!(fault, Fault::KeyRange) && field > most,
        };
        if !as_wanted {
            return Ok((comes_back, Some(field)));
        }
    }
    Ok((comes_back, None))
}

/// What `wrong_value` finds in the first field of s1 and in the last of s2.
struct FieldRanges;

impl Suite for FieldRanges {
    type Answer = [Result<(bool, Option<u8>), Fault>; 2];

    fn at<S: TestSet>(&self, number: usize) -> Result<Self::Answer, Fail> {
        let last = [(895, 32), (1535, 16), (1567, 32)][number];
        let values = [[7, 0, 4], [15, 5, 8], [7, 0, 4]][number];
        Ok([
            wrong_value::<S>((128, 1), values),
            wrong_value::<S>(last, values),
        ])
    }
}

/// The first field of s1 and the last of s2 at each set, with every value of their bits: the same bytes come
/// back up to 2 eta, and above it `KeyRange`.
#[test]
fn field_ranges_of_each_set(rt: HostRuntime) -> Result<(), Fail> {
    let wanted = [[Ok((true, None)); 2]; 3];
    at_each_set::<Fill<0x55>, Fill<0>, FieldRanges>(&rt, &FieldRanges, &wanted)
}

/// Whether the private key of 32 bytes 07 is consistent with these bits changed in a byte.
fn whole<S: TestSet>(at: usize, bits: u8) -> Result<bool, Fault> {
    Ok(S::read_again(S::pair(&[7; 32])?, at, bits)?[1])
}

/// Whether that key is consistent, and with another bit in K, `tr`, and the first and last byte of t0.
struct WholeWithBits;

impl Suite for WholeWithBits {
    type Answer = [Result<bool, Fault>; 5];

    fn at<S: TestSet>(&self, number: usize) -> Result<Self::Answer, Fail> {
        let (first, last) = [(896, 2559), (1536, 4031), (1568, 4895)][number];
        let [before, k, tr] = [whole::<S>(0, 0), whole::<S>(32, 1), whole::<S>(127, 1)];
        Ok([before, k, tr, whole::<S>(first, 1), whole::<S>(last, 1)])
    }
}

/// A generated key of each set is consistent, also with another bit in K or `tr`. With one in the first or the last
/// byte of t0 it is not.
#[test]
fn whole_keys_of_each_set(rt: HostRuntime) -> Result<(), Fail> {
    let wanted = [[true, true, true, false, false].map(Ok); 3];
    at_each_set::<Sha256Ctr, Sha512Ctr, WholeWithBits>(&rt, &WholeWithBits, &wanted)
}

fn hashes() -> Result<[[u8; 64]; 3], Fault> {
    let (public, _) = Constant44::pair(&[7; 32])?;
    let other = *Public44::try_from_bytes(counting())?.tr();
    let recorded = *Public44::try_from_bytes(public_44())?.tr();
    Ok([*public.tr(), other, recorded])
}

/// The hash of the public key that is derived where `tr` has bytes of this value, and the bytes of that key.
fn derived_with(byte: u8) -> Result<([u8; 64], [u8; 1312]), Fault> {
    let mut bytes = private_44();
    bytes[64..128].fill(byte);
    let key = Private44::try_from_bytes(bytes)?.get_public_key()?;
    Ok((*key.tr(), key.into_bytes()))
}

/// The hash of a public key of set 44 has bytes 55: in a pair, of bytes that count up, and derived of a private key.
/// With `tr` of bytes 00 in that, the derived key keeps it until it is decoded anew.
#[test]
fn hashes_of_public_keys(rt: HostRuntime) {
    let derived = [0x55, 0].map(derived_with);
    let wanted = [Ok(([0x55; 64], public_44())), Ok(([0; 64], public_44()))];
    assert_eq!(rt; (hashes(), derived), (Ok([[0x55; 64]; 3]), wanted));
}

/// Whether the recorded private key is consistent with this t0, and whether its public key is the recorded one.
fn with_low_parts(part: [u8; 13]) -> Result<[bool; 2], Fault> {
    let mut bytes = private_44();
    repeat(&mut bytes[896..], &part);
    let private = Private44::try_from_bytes(bytes)?;
    let public = private.get_public_key()?.into_bytes();
    Ok([private.is_whole()?, public == public_44()])
}

/// `get_public_key` does not look at t0, with which the key is no longer consistent.
#[test]
fn public_key_of_a_key_with_other_low_parts(rt: HostRuntime) {
    let found = [[0u8; 13], *LOW_0].map(with_low_parts);
    assert_eq!(rt; found, [Ok([false, true]); 2]);
}

//! Hints as bytes, also beside a slow decoder that is written from the definition of a spelling.
#![tactic(auto)]

ghost use Rattle.std.specs.Prelude.{◌≡◌, ◌<◌, ◌≤◌, ◌+◌, ◌≤ℤ◌, pos, nat_abs, length};

use crate::values::constant_streams::{public_44, signature_44};
use crate::values::recorded;
use fips204::conversion::{hint_bit_pack, hint_bit_unpack};
use fips204::encodings::sig_decode;
use fips204::ml_dsa_44;
use fips204::traits::{SerDes, Verifier};
use fips204::types::R;
use fips204::xof::Fill;
use std::test::Fail;

type Public44 = ml_dsa_44::PublicKey<Fill<0x55>, Fill<0>>;

/// 18, 12, 15 and 22 places, rising from 0 each time.
const MANY_PLACES: [u8; 67] = [
    0, 1, 2, 3, 4, 5, 6, 7, 8, 9, 10, 11, 12, 13, 14, 15, 16, 17, 0, 1, 2, 3, 4, 5, 6, 7, 8, 9, 10,
    11, 0, 1, 2, 3, 4, 5, 6, 7, 8, 9, 10, 11, 12, 13, 14, 0, 1, 2, 3, 4, 5, 6, 7, 8, 9, 10, 11, 12,
    13, 14, 15, 16, 17, 18, 19, 20, 21,
];

/// The hint part of a signature of set 44: these places, zeros up to byte 80, and four counts.
pub fn part_of(places: &[u8], counts: [u8; 4]) -> [u8; 84] {
    let mut part = [0u8; 84];
    let shown = places.len().min(80);
    part[..shown].copy_from_slice(&places[..shown]);
    part[80..].copy_from_slice(&counts);
    part
}

/// The numbers 0, 1, 2 and so on.
pub fn rising() -> [u8; 80] {
    let mut places = [0u8; 80];
    for i in 0..80u8 {
        places[i as usize] = i;
    }
    places
}

fn ones_of(hint: &[R; 4]) -> [usize; 4] {
    hint.map(|w| w.0.iter().filter(|x| **x == 1).count())
}

/// Whether these places and counts spell a hint of so many ones in each polynomial, which packed again over bytes FF
/// is spelled so, or none where that is wanted.
fn reads<const N: usize>(places: [u8; N], counts: [u8; 4], ones: Option<[usize; 4]>) -> bool {
    let part = part_of(&places, counts);
    let Some(hint) = hint_bit_unpack::<4>(80, &part) else {
        return ones.is_none();
    };
    let mut again = [0xff; 84];
    hint_bit_pack(80, &hint, &mut again);
    again == part && Some(ones_of(&hint)) == ones
}

/// Parts of no ones, of 80 ones in one polynomial and of 67 ones spell hints, which are packed again as they were;
/// indices that fall or repeat, indices that no total covers, a total above 80 and totals that fall spell none.
#[test]
fn parts_that_spell_hints_or_none(rt: HostRuntime) {
    let (mut late, rising) = ([0u8; 80], rising());
    late[79] = 1;
    let found = [
        reads([], [0, 0, 0, 0], Some([0, 0, 0, 0])),
        reads([], [0, 0, 0, 1], Some([0, 0, 0, 1])),
        reads([0x05, 0x00, 0xff], [1, 1, 3, 3], Some([1, 0, 2, 0])),
        reads(rising, [80, 80, 80, 80], Some([80, 0, 0, 0])),
        reads([0xff, 0x00], [1, 2, 2, 2], Some([1, 1, 0, 0])),
        reads(MANY_PLACES, [18, 30, 45, 67], Some([18, 12, 15, 22])),
        reads([0x05, 0xff, 0x00], [1, 1, 3, 3], None),
        reads([0x01], [0, 0, 0, 0], None),
        reads(late, [0, 0, 0, 0], None),
        reads(rising, [81, 81, 81, 81], None),
        reads([0x05, 0x05], [2, 2, 2, 2], None),
        reads([0x01, 0x02], [2, 1, 2, 2], None),
    ];
    assert_eq!(rt; found, [true; 12]);
}

#[tactic(auto, unfolding(fips204_base::specs::Packing::bit_length))]
fn ones_in(signature: &[u8; 2420]) -> Option<[usize; 4]> {
    let (_, _, hint) = sig_decode::<4, 4, 32, 2420>(131072, 80, signature)?;
    Some(ones_of(&hint))
}

/// The hint with a one at index 5 of polynomial 0 and at both ends of polynomial 2. The hints of two signatures of set
/// 44, by `sig_decode`: totals `16 22 36 48`, as recorded, and `12 1E 2D 43`.
#[test]
fn ones_and_their_places(rt: HostRuntime) -> Result<(), Fail> {
    let mut signature = [0u8; 2420];
    hex::decode_to_slice(recorded(0)[2], &mut signature)?;
    let mut other = signature_44();
    other[2336..2420].copy_from_slice(&part_of(&MANY_PLACES, [18, 30, 45, 67]));
    let part = part_of(&[0x05, 0x00, 0xff], [1, 1, 3, 3]);
    let hint = hint_bit_unpack::<4>(80, &part).map(|hint| hint.map(|w| w.0));
    let mut wanted = [[0; 256]; 4];
    wanted[0][5] = 1;
    wanted[2][0] = 1;
    wanted[2][255] = 1;
    let wanted = (Some(wanted), Some([22, 12, 20, 18]), Some([18, 12, 15, 22]));
    assert_eq!(rt; (hint, ones_in(&signature), ones_in(&other)), wanted);
    Ok(())
}

/// The hint that a part spells: the ones that its totals cut off, where the spelling of these is the part. That is
/// their places, polynomial by polynomial, zeros up to byte omega, and the running totals.
fn slow_hint<const K: usize>(omega: usize, part: &[u8]) -> Option<[[i32; 256]; K]>
    requires { (omega + K ≤ 255) × (omega + K ≤ length part.now) }
{
    let mut hint = [[0i32; 256]; K];
    let mut before = 0usize;
    for i in 0..K {
        let total = part[omega + i] as usize;
        for at in before..total.min(omega) {
            hint[i][part[at] as usize] = 1;
        }
        before = total;
    }
    let mut spelling = [0u8; 255];
    let mut total = 0usize;
    for i in 0..K {
        for place in 0..256usize {
            if hint[i][place] == 1 && total < omega {
                spelling[total] = place as u8;
                total += 1;
            }
        }
        spelling[omega + i] = (total % 256) as u8;
    }
    (&spelling[..omega + K] == part).then_some(hint)
}

/// Whether a part spells a hint; none where the library and the slow decoder return differently.
fn spells<const K: usize>(omega: i32, part: &[u8]) -> Option<bool>
    requires { (pos 1 ≤ℤ omega) × (nat_abs omega + K < 256) × (length part.now ≡ nat_abs omega + K) }
{
    let hint = hint_bit_unpack::<K>(omega, part);
    let slow = slow_hint::<K>(omega as usize, part);
    if let (Some(hint), Some(slow)) = (&hint, &slow) {
        for i in 0..K {
            if hint[i].0 != slow[i] {
                return None;
            }
        }
    }
    (hint.is_some() == slow.is_some()).then_some(slow.is_some())
}

fn accepts(key: &Public44, signature: &mut [u8; 2420], part: &[u8]) -> bool {
    if part.len() != 84 {
        return false;
    }
    signature[2336..2420].copy_from_slice(part);
    key.verify(b"abc", signature, &[])
}

/// How many parts spell a hint: this one, and each that differs from it in one byte. None where the library and the
/// slow decoder return one differently, or the key accepts its signature and it spells none, or the other way round.
fn spelled_about<const K: usize, const N: usize>(
    omega: i32,
    part: [u8; N],
    key: Option<&Public44>,
) -> Option<usize>
    requires { (pos 1 ≤ℤ omega) × (nat_abs omega + K < 256) × (N ≡ nat_abs omega + K) }
{
    let mut signature = signature_44();
    let mut count = 0usize;
    for at in 0..N {
        let mut changed = part;
        for other in 0..=255u8 {
            changed[at] = other;
            let spelled = spells::<K>(omega, &changed)?;
            if let Some(key) = key
                && accepts(key, &mut signature, &changed) != spelled
            {
                return None;
            }
            if spelled && (at == 0 || other != part[at]) {
                count = count.wrapping_add(1);
            }
        }
    }
    Some(count)
}

/// How many parts spell a hint about each of three: ones at all the first places of polynomial 0; at place 255 of
/// polynomial 0 and place 0 of polynomial 1; at place 0 of the last.
fn sweep<const K: usize, const N: usize>(omega: i32, key: Option<&Public44>) -> [Option<usize>; 3]
    requires sizes { (pos 1 ≤ℤ omega) × (nat_abs omega + K < 256) × (N ≡ nat_abs omega + K) }
    requires rows { 1 ≤ K }
{
    let most = omega as usize;
    let (mut rising, mut ends, mut last) = ([0u8; N], [0u8; N], [0u8; N]);
    for i in 0..N {
        rising[i] = (i.min(most) % 256) as u8;
        ends[i] = if i < most { 0 } else { 2 };
    }
    ends[0] = 255;
    ends[most] = 1;
    last[N - 1] = 1;
    [
        spelled_about::<K, N>(omega, rising, key),
        spelled_about::<K, N>(omega, ends, key),
        spelled_about::<K, N>(omega, last, key),
    ]
}

/// Three hint parts of sets 65 and 87, and every part that differs from one of them in one byte, are read as a slow
/// decoder reads them; 257, 513 and 258 spell a hint.
#[test]
fn parts_changed_in_one_byte(rt: HostRuntime) {
    let found = [sweep::<6, 61>(55, None), sweep::<8, 83>(75, None)];
    assert_eq!(rt; found, [[Some(257), Some(513), Some(258)]; 2]);
}

/// The same of set 44; and its signatures with these parts are accepted if and only if the part spells a hint.
#[test]
fn signatures_changed_in_one_byte_of_their_hint(rt: HostRuntime) {
    let found = Public44::try_from_bytes(public_44()).map(|key| sweep::<4, 84>(80, Some(&key)));
    assert_eq!(rt; found, Ok([Some(257), Some(513), Some(258)]));
}

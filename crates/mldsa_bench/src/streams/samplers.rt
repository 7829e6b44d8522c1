//! Samplers: over outputs of 4096, 4097, 4100, 5000 and 8192 bytes, which their limits follow, and over the counter XOFs.
#![tactic(auto)]

ghost use Rattle.std.specs.Prelude.{◌<◌};

use crate::streams::written_fronts::{FourthTriplesTo, Pattern, Patterned, PatternedBy, Turn};
use fips204::Fault;
use fips204::conversion::bit_unpack;
use fips204::hashing::{
    expand_a, expand_mask, expand_s, rej_bounded_poly, rej_ntt_poly, sample_in_ball,
};
use fips204::helpers::bit_length;
use fips204::xof::{Fill, Sha256Ctr, Sha512Ctr, Xof, XofReader};
use std::test::Fail;

const LIMIT: Fault = Fault::SamplingLimit;

fn entry<P: Pattern, const MORE: u16>() -> Result<[i32; 256], Fault> {
    rej_ntt_poly::<PatternedBy<P, MORE>>(&[b"abc"]).map(|entry| entry.0)
}

fn turn<const END: usize, const MORE: u16>() -> Result<[i32; 256], Fault> {
    entry::<Turn<0xff, END>, MORE>()
}

fn small<const END: usize, const MORE: u16>() -> Result<[i32; 256], Fault> {
    rej_bounded_poly::<PatternedBy<Turn<0xff, END>, MORE>>(2, &[b"abc"]).map(|w| w.0)
}

fn challenge<H: Xof>(rho: &[u8]) -> Result<[i32; 256], Fault> {
    sample_in_ball::<H>(39, rho).map(|polynomial| polynomial.0)
}

fn ball<const SIGNS: u8, const END: usize, const MORE: u16>() -> Result<[i32; 256], Fault> {
    challenge::<PatternedBy<Turn<SIGNS, END>, MORE>>(b"abc")
}

/// The challenge of -1 at one place and at each even place from 218 on, and of `odd` at each odd one.
fn challenge_with(place: usize, odd: i32) -> [i32; 256]
    requires { place < 256 }
{
    let mut wanted = [0i32; 256];
    wanted[place] = -1;
    for i in 218..256usize {
        wanted[i] = if i % 2 == 0 { -1 } else { odd };
    }
    wanted
}

/// An entry whose 256th value comes from the last triple that a quarter of the output allows is there, and from the next
/// one it is not; past the limit of 4096 bytes it is there over 4100, whose limit is one triple more, and over 8192.
#[test]
fn entries_of_longer_fronts(rt: HostRuntime) {
    // Every fourth triple is kept: 256 of the first 1024, 255 of them, or 255 and triple 1024.
    let fourth = [
        entry::<FourthTriplesTo<0, 4096>, 0>(),
        entry::<FourthTriplesTo<12, 4096>, 0>(),
        entry::<FourthTriplesTo<12, 3072>, 0>(),
        entry::<FourthTriplesTo<12, 3072>, 1>(),
        entry::<FourthTriplesTo<12, 3072>, 4>(),
        entry::<FourthTriplesTo<12, 3072>, 4096>(),
    ];
    // 256 triples of zeros, the last at the limit or one past it.
    let last = [
        turn::<2304, 0>(),
        turn::<2304, 1>(),
        turn::<2307, 4>(),
        turn::<2982, 904>(),
    ];
    let past = [
        turn::<2307, 0>(),
        turn::<2307, 1>(),
        turn::<2310, 4>(),
        turn::<2985, 904>(),
    ];
    let (zero, none) = (Ok([0; 256]), Err(LIMIT));
    let wanted = ([zero, none, none, none, zero, zero], [zero; 4], [none; 4]);
    assert_eq!(rt; (fourth, last, past), wanted);
}

/// Small polynomials at their limit and one byte past it, which is within that of 8192 bytes.
#[test]
fn small_polynomials_of_longer_fronts(rt: HostRuntime) {
    let last = [
        small::<896, 0>(),
        small::<896, 1>(),
        small::<897, 4>(),
        small::<1122, 904>(),
    ];
    let past = [
        small::<897, 0>(),
        small::<897, 1>(),
        small::<898, 4>(),
        small::<1123, 904>(),
    ];
    let wanted = ([Ok([2; 256]); 4], [Err(LIMIT); 4], Ok([2; 256]));
    assert_eq!(rt; (last, past, small::<897, 4096>()), wanted);
}

/// The same of challenges, of sign bytes FF or 55. Over bytes 55: -1 at index 85, and from 218 on -1 and 1 in turn.
#[test]
fn challenges_of_longer_fronts(rt: HostRuntime) {
    let first = [ball::<0xff, 993, 0>(), ball::<0xff, 994, 0>()];
    let past = [ball::<0x55, 994, 0>(), ball::<0x55, 994, 1>()];
    let last = [ball::<0x55, 993, 1>(), ball::<0x55, 994, 4096>()];
    let fourth = [ball::<0x55, 994, 4>(), ball::<0x55, 995, 4>()];
    let longer = [ball::<0x55, 1219, 904>(), ball::<0x55, 1220, 904>()];
    let filled = challenge::<Fill<0x55>>(&[0x55; 32]);
    let (same, turns) = (challenge_with(0, -1), challenge_with(0, 1));
    let (turns, none) = (Ok(turns), Err(LIMIT));
    let ends = [turns, none];
    let wanted = [[Ok(same), none], [none; 2], [turns; 2], ends, ends];
    let wanted = (wanted, Ok(challenge_with(85, 1)));
    assert_eq!(rt; ([first, past, last, fourth, longer], filled), wanted);
}

/// Bytes 10: at eta 2 the coefficients 2, 1 in turn, also in both vectors of `ExpandS`, at eta 4 the coefficients 4, 3.
#[test]
fn low_halves_come_first(rt: HostRuntime) -> Result<(), Fail> {
    let two = rej_bounded_poly::<Fill<0x10>>(2, &[])?;
    let four = rej_bounded_poly::<Fill<0x10>>(4, &[])?;
    let ([first, ..], [second, ..]) = expand_s::<4, 4, Fill<0x10>>(2, &[0; 64])?;
    let found = [two, four, first, second].map(|w| [w.0[0], w.0[1], w.0[2], w.0[3]]);
    let [in_two, in_four] = [[2, 1, 2, 1], [4, 3, 4, 3]];
    assert_eq!(rt; found, [in_two, in_four, in_two, in_two]);
    Ok(())
}

fn all_zero<G: Xof>() -> Result<bool, Fault> {
    let matrix = expand_a::<4, 4, G>(&[7; 32])?;
    Ok(matrix.as_flattened().iter().all(|w| w.0 == [0; 256]))
}

/// A matrix whose entries use their last triple, every fourth 0 and the rest FF; with one value fewer, `SamplingLimit`.
/// How the entries at row 0, column 1 and at row 1, column 0 of a matrix begin, over `Sha512Ctr` and 32 bytes 00.
#[test]
fn entries_of_a_matrix(rt: HostRuntime) -> Result<(), Fail> {
    assert!(rt; all_zero::<Patterned<FourthTriplesTo<0, 4096>>>() == Ok(true));
    assert!(rt; all_zero::<Patterned<FourthTriplesTo<12, 4096>>>() == Err(LIMIT));
    let [[_, right, ..], [below, ..], ..] = expand_a::<4, 4, Sha512Ctr>(&[0; 32])?;
    assert!(rt; right.0.starts_with(&[7001555, 1207596, 2204206]));
    assert!(rt; below.0.starts_with(&[7900514, 3235171, 2899941]));
    Ok(())
}

/// Whether the last polynomial of a mask of seven is unpacked from the output over `rho` and 5697 in two bytes.
#[tactic(auto, unfolding(fips204_base::specs::Packing::bit_length))]
fn last_mask<H: Xof>(rho: &[u8; 64]) -> bool {
    let mask = expand_mask::<7, H>(524288, rho, 5691);
    let mut bytes = [0u8; 640];
    H::open(&[rho.as_slice(), &[0x41, 0x16]]).read(&mut bytes);
    bit_unpack(&bytes, 524287, 524288).is_some_and(|w| w.0 == mask[6].0)
}

/// The largest counter of a mask, 5697, is the bytes `41 16` after the seed; a field of a mask has 20 bits.
#[test]
fn counter_of_the_last_mask(rt: HostRuntime) {
    let both = last_mask::<Sha256Ctr>(&[7; 64]) && last_mask::<Sha512Ctr>(&[0; 64]);
    assert_eq!(rt; (bit_length(1048575), both), (20, true));
}

//! Signatures of set 44 over constant XOFs with another field of z, or another hint part, under a plain public key
//! and under a prepared one.
#![tactic(auto)]

use crate::arithmetic::hint_parts::{part_of, rising};
use crate::keys::sets::{Constant44, Keys, TestSet};
use crate::values::constant_streams::{signature_44, signature_65};
use fips204::{Fault, Input};

/// What is accepted of the signature of set 44 with another first field of z.
fn with_first_field(field: u32) -> Result<[bool; 2], Fault> {
    let mut signature = signature_44();
    let [low, middle, high, _] = field.to_le_bytes();
    signature[32] = low;
    signature[33] = middle;
    signature[34] = signature[34] / 4 * 4 + high % 4;
    accepted::<Constant44>(&signature)
}

/// What is accepted of it with another hint part: these places, zeros up to byte 80, and four counts.
fn with_hint(places: &[u8], counts: [u8; 4]) -> Result<[bool; 2], Fault> {
    let mut signature = signature_44();
    signature[2336..2420].copy_from_slice(&part_of(places, counts));
    accepted::<Constant44>(&signature)
}

/// A short message under the empty context.
pub fn short<'a>() -> Input<'a> {
    Input::Message(b"abc", &[])
}

/// Whether the plain public key over constant XOFs accepts a signature, and whether the prepared one.
pub fn accepted<S: TestSet>(bytes: &S::Signature) -> Result<[bool; 2], Fault> {
    let input = &short();
    let (keys, _) = S::constant()?;
    let prepared = S::prepared(&keys)?;
    Ok([keys.accepts(input, bytes), prepared.accepts(input, bytes)])
}

/// The first field of z: 78 is rejected, 79 and 262065 accepted, 262066 rejected, by plain and prepared public keys.
#[test]
fn range_of_z(rt: HostRuntime) {
    let rejected = [with_first_field(78), with_first_field(262066)];
    let found = [with_first_field(79), with_first_field(262065)];
    let [yes, no] = [Ok([true; 2]), Ok([false; 2])];
    assert_eq!(rt; (rejected, found), ([no; 2], [yes; 2]));
}

/// Eight hint parts in one signature whose hash does not depend on them: accepted if and only if they spell
/// a hint, by plain and prepared public keys.
#[test]
fn hints_of_signatures(rt: HostRuntime) {
    let mut late = [0u8; 80];
    late[79] = 1;
    let [yes, no] = [Ok([true; 2]), Ok([false; 2])];
    let found = [
        with_hint(&[], [0, 0, 0, 1]),
        with_hint(&[1], [0; 4]),
        with_hint(&rising(), [80; 4]),
        with_hint(&rising(), [81; 4]),
        with_hint(&[0xff, 0x00], [1, 2, 2, 2]),
        with_hint(&[5, 5], [2; 4]),
        with_hint(&[1, 2], [2, 1, 2, 2]),
        with_hint(&late, [0; 4]),
    ];
    assert_eq!(rt; found, [yes, no, yes, no, yes, no, no, no]);
}

/// z begins with `53 55 4D` at set 44 and with `56 55 65 55 55` at set 65 over constant XOFs.
#[test]
fn first_bytes_of_z(rt: HostRuntime) {
    let (first, second) = (signature_44(), signature_65());
    let found = [&first[32..35], &second[48..53]];
    let wanted = [b"\x53\x55\x4d".as_slice(), b"\x56\x55\x65\x55\x55"];
    assert_eq!(rt; found, wanted);
}

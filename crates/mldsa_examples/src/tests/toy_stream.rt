//! The toy XOFs give the bytes that Python computes, sign and verify, and give four outputs at once.
#![tactic(auto)]

use crate::toy_stream::{ToyCtr, ToySpread, ToyWide};
use fips204::Fault;
use fips204::ml_dsa_65::KG;
use fips204::traits::{KeyGen, Signer, Verifier};
use fips204::xof::{Xof, XofReader};

/// The first 4096 bytes of an XOF over the joined parts.
fn front_of<H: Xof>(parts: &[&[u8]]) -> [u8; 4096] {
    let mut front = [0u8; 4096];
    H::open(parts).read(&mut front);
    front
}

/// Whether an XOF over `abc` begins and ends with these bytes, and gives the same where the input comes
/// in three parts.
fn has_ends<H: Xof>(first: [u8; 16], last: [u8; 8]) -> bool {
    let front = front_of::<H>(&[b"abc"]);
    let cut = front_of::<H>(&[b"a", b"", b"bc"]);
    front.starts_with(&first) && front.ends_with(&last) && front == cut
}

/// The first 16 bytes and the last 8 of both toy outputs over `abc`, whole and in three parts, computed with
/// Python from the two definitions.
#[test]
fn toy_fronts(rt: HostRuntime) {
    let first = *b"\x9d\xf3\xe0\x96\x13\xe5\x64\xed\x8e\xd6\xe8\x43\x04\xc8\x6c\x9a";
    let last = *b"\xc7\xf7\xe0\xdf\x42\xe9\x64\x36";
    let of_ctr = has_ends::<ToyCtr>(first, last);
    let first = *b"\xb0\x6d\x29\xe6\xa2\x5f\x1b\xd8\x95\x51\x0e\xca\x87\x43\x00\xbc";
    let last = *b"\xbc\x78\x35\xf1\xae\x6a\x27\xe3";
    let of_spread = has_ends::<ToySpread>(first, last);
    assert!(rt; [of_ctr, of_spread, has_ends::<ToyWide>(first, last)] == [true; 3]);
}

/// Whether what a pair over these XOFs signs is accepted.
fn signs<H: Xof, G: Xof>() -> Result<bool, Fault> {
    let (public, private) = KG::<H, G>::keygen_from_seed(&[1; 32])?;
    let signature = private.try_sign_with_seed(&[2; 32], b"a message", b"a context")?;
    Ok(public.verify(b"a message", &signature, b"a context"))
}

/// A pair over the toy XOFs signs, and the signature is accepted.
#[test]
fn toy_signatures(rt: HostRuntime) {
    let one = signs::<ToyCtr, ToyCtr>();
    let two = signs::<ToyCtr, ToySpread>();
    let three = signs::<ToyWide, ToyWide>();
    assert!(rt; [one, two, three] == [Ok(true); 3]);
}

/// The first 4096 bytes of an XOF over each of four inputs, read at once.
fn fronts_at_once<H: Xof>(a: &[u8], b: &[u8], c: &[u8], d: &[u8]) -> [[u8; 4096]; 4] {
    let mut of_a = [0u8; 4096];
    let mut of_b = [0u8; 4096];
    let mut of_c = [0u8; 4096];
    let mut of_d = [0u8; 4096];
    H::Reader::read_four(
        &mut H::open(&[a]),
        &mut H::open(&[b]),
        &mut H::open(&[c]),
        &mut H::open(&[d]),
        &mut of_a,
        &mut of_b,
        &mut of_c,
        &mut of_d,
    );
    [of_a, of_b, of_c, of_d]
}

/// Four outputs that are read at once are as each is alone.
#[test]
fn toy_fours(rt: HostRuntime) {
    let at_once = fronts_at_once::<ToyWide>(b"a", b"b", b"c", b"abc");
    let first = [front_of::<ToyWide>(&[b"a"]), front_of::<ToyWide>(&[b"b"])];
    let last = [front_of::<ToyWide>(&[b"c"]), front_of::<ToyWide>(&[b"abc"])];
    assert!(rt; at_once[0] == first[0]);
    assert!(rt; at_once[1] == first[1]);
    assert!(rt; at_once[2] == last[0]);
    assert!(rt; at_once[3] == last[1]);
}

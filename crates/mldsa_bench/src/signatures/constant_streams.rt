//! Every call that signs or verifies over constant XOFs, at each set, with plain and with prepared keys.
#![tactic(auto)]

use crate::keys::sets::{Keys, Suite, TestSet, at_each_set, is_same};
use crate::signatures::digests::REFUSED_DIGESTS;
use crate::signatures::drawing::RefusesAt;
use fips204::Fault::{self, HashCtx, SignCtx};
use fips204::Input;
use fips204::pre_hash::{SHA2_256, SHA2_512};
use fips204::xof::Fill;
use std::test::Fail;

/// What has the signature over constant XOFs, whatever is signed; and what is neither signed nor accepted for its
/// context, and why.
static INPUTS: [(Input, Option<Fault>); 20] = [
    (Input::Message(b"", &[]), None),
    (Input::Message(b"abc", &[]), None),
    (Input::Message(b"abc", &[1; 255]), None),
    (Input::Message(b"another", &[]), None),
    (Input::Message(b"another", &[1; 255]), None),
    (Input::Digest(&[5; 32], &[], &SHA2_256), None),
    (Input::Digest(&[9; 32], &[], &SHA2_256), None),
    (Input::Digest(&[9; 32], &[1; 255], &SHA2_256), None),
    (Input::Digest(&[9; 64], &[], &SHA2_512), None),
    (Input::Framed(b"abc"), None),
    (Input::Mu(&[0; 64]), None),
    (Input::Mu(&[9; 64]), None),
    (Input::Message(b"abc", &[0; 256]), Some(SignCtx)),
    (Input::Message(b"abc", &[0; 257]), Some(SignCtx)),
    (Input::Message(b"abc", &[1; 256]), Some(SignCtx)),
    (Input::Digest(&[0; 32], &[0; 256], &[]), Some(HashCtx)),
    (Input::Digest(&[0; 32], &[0; 256], &SHA2_256), Some(HashCtx)),
    (Input::Digest(&[0; 32], &[1; 256], &SHA2_256), Some(HashCtx)),
    (Input::Digest(&[5; 32], &[0; 256], &SHA2_256), Some(HashCtx)),
    (Input::Digest(&[9; 32], &[1; 256], &SHA2_256), Some(HashCtx)),
];

/// Whether each call that signs an input gives this signature, with random bytes that are given and with drawn ones, and
/// it is accepted; or all return this error, ask no generator, and it is not accepted. A hook that is not hedged draws
/// none.
fn answers<S: PartialEq + Drop, K: Keys<S>>(
    keys: &K,
    (input, fault): (&Input, Option<Fault>),
    signature: &S,
) -> bool {
    let (wanted, call, draws) = match (fault, input) {
        (Some(fault), _) => (Err(fault), 0, 0),
        (None, Input::Framed(_) | Input::Mu(_)) => (Ok(true), 255, 1),
        _ => (Ok(true), 255, 2),
    };
    let mut rng = RefusesAt::new(call, true);
    let signed = [
        is_same(keys.seeded(&[0; 32], input), signature),
        is_same(keys.seeded(&[7; 32], input), signature),
        is_same(keys.drawn(&mut rng, true, input), signature),
        is_same(keys.drawn(&mut rng, false, input), signature),
    ];
    let accepted = keys.accepts(input, signature);
    signed == [wanted; 4] && accepted == fault.is_none() && rng.asked == draws
}

/// The first input, and else the first rejected digest, that has another result: the table and the row.
fn first_wrong<S: PartialEq + Drop, K: Keys<S>>(keys: &K, signature: &S) -> Option<(u8, usize)> {
    for (row, (input, fault)) in INPUTS.iter().enumerate() {
        if !answers(keys, (input, *fault), signature) {
            return Some((0, row));
        }
    }
    for (row, (digest, oid, fault)) in REFUSED_DIGESTS.iter().enumerate() {
        let input = Input::Digest(digest, &[], oid);
        if !answers(keys, (&input, Some(*fault)), signature) {
            return Some((1, row));
        }
    }
    None
}

struct FirstWrong;

impl Suite for FirstWrong {
    type Answer = [Option<(u8, usize)>; 2];

    fn at<S: TestSet>(&self, _number: usize) -> Result<[Option<(u8, usize)>; 2], Fail> {
        let (keys, good) = S::constant()?;
        let prepared = S::prepared(&keys)?;
        Ok([first_wrong(&keys, &good), first_wrong(&prepared, &good)])
    }
}

/// The signature of each set over constant XOFs, byte for byte, by every call of plain and prepared keys,
/// with given and drawn bytes; contexts of 255 to 257 bytes; each condition on a digest.
#[test]
fn signatures_of_each_set(rt: HostRuntime) -> Result<(), Fail> {
    at_each_set::<Fill<0x55>, Fill<0>, FirstWrong>(&rt, &FirstWrong, &[[None; 2]; 3])
}

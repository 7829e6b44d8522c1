//! Key pairs and signatures over the counter XOFs, at each set, with plain and with prepared keys; and how a message
//! and a digest are framed.
#![tactic(auto)]

use crate::keys::sets::{Keys, MESSAGES, PairCall, SEEDS, Suite, TestSet, at_each_set, change};
use crate::signatures::drawing::{Listed, RefusesAt};
use crate::values::{has_text, recorded};
use fips204::pre_hash::SHA2_256;
use fips204::traits::DummyRng;
use fips204::xof::{Sha256Ctr, Sha256CtrLong, Sha512Ctr, Sha512CtrLong};
use fips204::{Fault, Input};
use sha2::{Digest, Sha256};
use std::alloc::Global;
use std::test::Fail;

/// The SHA-256 of signed digests at each set, in hex.
const DIGESTS: [&str; 3] = [
    "4309fb4dd5abe94f0f311fc405d50c307e428f4ca843ab68bacc8d87e084f95b",
    "542f532c1bf976d659e5c6dd8eeb5c4da20bb5c06cb1f6eaf31cd434c2441e6f",
    "91bf84c83703a7204ddbf8f96f6f16c93201c72afb6296ed2f4575970081d8e5",
];

/// The SHA-256 of the signatures of the message `00` with 32 bytes 00 and with 32 bytes 07 at each set, in hex.
const DRAWN: [[&str; 2]; 3] = [
    [
        "57e50e2dc7a32343b6860eee95fff548b1ad8a7fa5eee44337566cca14997d03",
        "c4096a837008a0b2c47a7940c07d55d996606580f531c95cd4069902fb0cb37b",
    ],
    [
        "544dae9e9b6887bb93bd08c9671858d1a3ad07857cf8ed5cc3d8ba732d3766b9",
        "3c56a7bc5650fe5bfd7c301f4986b67106a40b92deac05616843ff28a34667db",
    ],
    [
        "ac2234539bf12864151e2cb882c4b0ac3406499fa9ee6782fdb619da6fd92bdb",
        "7470ba4857abacb07f20cb9f796750f5fe32ab5c69b3e287d9558f1874100f63",
    ],
];

/// Whether keys sign so with 32 bytes 00, given and drawn; and whether they accept the signature, of another message,
/// under another context, and with another bit in byte 100.
fn sign_so<S: TestSet, K: Keys<S::Signature>>(
    keys: &K,
    input: &Input,
    signature: &S::Signature,
) -> [bool; 6] {
    let mut spoiled = *signature;
    change(S::bytes(&mut spoiled), 100, 1);
    [
        keys.seeded(&[0; 32], input) == Ok(*signature),
        keys.drawn(&mut DummyRng { bytes: [0; 32] }, true, input) == Ok(*signature),
        keys.accepts(input, signature),
        keys.accepts(&Input::Message(&[1], &[]), signature),
        keys.accepts(&Input::Message(&[0], &[0]), signature),
        keys.accepts(input, &spoiled),
    ]
}

/// The signature of an input with 32 bytes 00, and what plain and prepared keys return for it.
fn signed<S: TestSet>(input: &Input) -> Result<(S::Signature, [[bool; 6]; 2]), Fault> {
    let keys = S::pair(&[0; 32])?;
    let prepared = S::prepared(&keys)?;
    let signature = keys.seeded(&[0; 32], input)?;
    let plain = sign_so::<S, S::Plain>(&keys, input, &signature);
    let prepared = sign_so::<S, S::Prepared>(&prepared, input, &signature);
    Ok((signature, [plain, prepared]))
}

/// Whether the pairs of 32 bytes 00, given and drawn, have these texts in hex.
fn have_pairs<S: TestSet>(alloc: Global, texts: [&str; 3]) -> Result<[[bool; 2]; 2], Fail> {
    let given = S::have_texts(alloc, S::pair(&[0; 32])?, texts)?;
    let drawn = S::drawn_pair(&mut DummyRng { bytes: [0; 32] }, PairCall::OfTrait)?;
    Ok([given, S::have_texts(alloc, drawn, texts)?])
}

/// Whether the pairs and the signatures are as recorded; and what plain and prepared keys return for these.
#[derive(Drop)]
struct Bytes(Global);

impl Suite for Bytes {
    type Answer = ([[bool; 2]; 2], [bool; 2], [[bool; 6]; 2], [[bool; 6]; 2]);

    fn at<S: TestSet>(&self, number: usize) -> Result<Self::Answer, Fail> {
        let (alloc, recorded) = (self.0, recorded(number));
        let pairs = have_pairs::<S>(alloc, recorded)?;
        let (mut message, first) = signed::<S>(&Input::Message(&[0], &[]))?;
        let digest = Input::Digest(&[0; 32], &[], &SHA2_256);
        let (mut digest, second) = signed::<S>(&digest)?;
        let hash = Sha256::digest(S::bytes(&mut digest));
        let message = has_text(alloc, S::bytes(&mut message), recorded[2])?;
        let digest = has_text(alloc, hash.as_slice(), DIGESTS[number])?;
        Ok((pairs, [message, digest], first, second))
    }
}

/// Key pairs and signatures of a message and a digest over both kinds of counter XOFs, byte for byte or by SHA-256,
/// with seeds of 32 bytes 00 given or drawn, by plain and prepared keys; another message, context or bit is rejected.
#[test]
fn bytes_of_each_set(rt: HostRuntime) -> Result<(), Fail> {
    let suite = Bytes(rt.alloc());
    let verdicts = [true, true, true, false, false, false];
    let wanted = [([[true; 2]; 2], [true; 2], [verdicts; 2], [verdicts; 2]); 3];
    at_each_set::<Sha256Ctr, Sha512Ctr, Bytes>(&rt, &suite, &wanted)?;
    at_each_set::<Sha256CtrLong, Sha512CtrLong, Bytes>(&rt, &suite, &wanted)
}

/// Whether the message `00` is signed with the generator's next result as this text says, by SHA-256; or, without a
/// text, whether the generator's error is the result.
fn signs_next<S: TestSet, K: Keys<S::Signature>>(
    alloc: Global,
    keys: &K,
    rng: &mut Listed,
    text: Option<&str>,
) -> Result<bool, Fail> {
    match (keys.drawn(rng, true, &Input::Message(&[0], &[])), text) {
        (Ok(mut signature), Some(text)) => {
            let hash = Sha256::digest(S::bytes(&mut signature));
            Ok(has_text(alloc, hash.as_slice(), text)?)
        }
        (Err(fault), None) => Ok(fault == Fault::SignRng),
        _ => Ok(false),
    }
}

/// Whether three calls sign in turn with the entries of a list that has an error at this place, and the list is then
/// used up.
fn signs_in_turn<S: TestSet, K: Keys<S::Signature>>(
    alloc: Global,
    keys: &K,
    texts: [&str; 2],
    refused: usize,
) -> Result<[bool; 5], Fail> {
    let (first, second) = (Some([0; 32]), Some([7; 32]));
    let (answers, texts) = match refused {
        0 => (
            [None, first, second],
            [None, Some(texts[0]), Some(texts[1])],
        ),
        1 => (
            [first, None, second],
            [Some(texts[0]), None, Some(texts[1])],
        ),
        _ => (
            [first, second, None],
            [Some(texts[0]), Some(texts[1]), None],
        ),
    };
    let mut rng = Listed {
        answers: &answers,
        asked: 0,
    };
    let mut found = [false; 5];
    for call in 0..3usize {
        found[call] = signs_next::<S, K>(alloc, keys, &mut rng, texts[call])?;
    }
    found[3] = rng.asked == 3;
    found[4] = signs_next::<S, K>(alloc, keys, &mut rng, None)?;
    Ok(found)
}

/// What `signs_in_turn` finds with an error at this place, with plain and with prepared keys.
#[derive(Drop)]
struct InTurn(Global, usize);

impl Suite for InTurn {
    type Answer = [[bool; 5]; 2];

    fn at<S: TestSet>(&self, number: usize) -> Result<Self::Answer, Fail> {
        let InTurn(alloc, refused) = *self;
        let keys = S::pair(&[0; 32])?;
        let prepared = S::prepared(&keys)?;
        let texts = DRAWN[number];
        let plain = signs_in_turn::<S, S::Plain>(alloc, &keys, texts, refused)?;
        Ok([
            plain,
            signs_in_turn::<S, S::Prepared>(alloc, &prepared, texts, refused)?,
        ])
    }
}

/// Two signatures with two draws from a list, which fails before, between or after them, and then has no more entries.
#[test]
fn draws_from_a_list(rt: HostRuntime) -> Result<(), Fail> {
    for refused in 0..3usize {
        let suite = InTurn(rt.alloc(), refused);
        at_each_set::<Sha256Ctr, Sha512Ctr, InTurn>(&rt, &suite, &[[[true; 5]; 2]; 3])?;
    }
    Ok(())
}

/// The signatures of the first messages, so many, one call for each, and which of them are accepted.
fn single_calls<S: TestSet>(
    alloc: Global,
    keys: &S::Plain,
    count: usize,
) -> Result<(Vec<S::Signature>, [bool; 5]), Fail> {
    let mut signatures = Vec::new(alloc);
    let mut verdicts = [false; 5];
    for i in 0..count.min(5) {
        let input = Input::Message(MESSAGES[i], b"context");
        let signature = keys.seeded(&SEEDS[i], &input)?;
        verdicts[i] = keys.accepts(&input, &signature);
        signatures.push(signature)?;
    }
    Ok((signatures, verdicts))
}

/// Whether so many messages are signed with one call as these signatures, and rejected under a context of 256 bytes.
fn sign_each_as<S: TestSet>(
    alloc: Global,
    keys: &S::Prepared,
    signatures: &[S::Signature],
) -> Result<[bool; 2], Fail> {
    let mut answers = vec![in alloc; Err(Fault::KeyRange); signatures.len()]?;
    S::sign_each(keys, b"context", answers.as_mut_slice());
    let mut pairs = answers.iter().zip(signatures);
    let signed = pairs.all(|(answer, signature)| *answer == Ok(*signature));
    S::sign_each(keys, &[0; 256], answers.as_mut_slice());
    let refused = answers.iter().all(|answer| *answer == Err(Fault::SignCtx));
    Ok([signed, refused])
}

/// A list of the first messages, so many: whether it is signed and rejected as by single calls, and which signatures
/// are accepted by single calls, with one call, under a context of 256 bytes, and with another bit in the third.
#[derive(Drop)]
struct Lists(Global, usize);

impl Suite for Lists {
    type Answer = ([bool; 2], [[bool; 5]; 4]);

    fn at<S: TestSet>(&self, _number: usize) -> Result<Self::Answer, Fail> {
        let Lists(alloc, count) = *self;
        let keys = S::pair(&[0; 32])?;
        let prepared = S::prepared(&keys)?;
        let (mut signatures, single) = single_calls::<S>(alloc, &keys, count)?;
        let signed = sign_each_as::<S>(alloc, &prepared, signatures.as_slice())?;
        let accepted = S::verify_each(&prepared, signatures.as_slice(), b"context");
        let long = S::verify_each(&prepared, signatures.as_slice(), &[0; 256]);
        if let Some(third) = signatures.as_mut_slice().get_mut(2) {
            change(S::bytes(third), 50, 1);
        }
        let spoiled = S::verify_each(&prepared, signatures.as_slice(), b"context");
        Ok((signed, [single, accepted, long, spoiled]))
    }
}

/// Lists of 0, 1 and 5 messages under prepared keys, as by single calls; one changed signature; a context of 256 bytes.
#[test]
fn many_messages_of_each_set(rt: HostRuntime) -> Result<(), Fail> {
    let (none, all) = ([false; 5], [true; 5]);
    let first = [true, false, false, false, false];
    let spoiled = [true, true, false, true, true];
    for (count, verdicts) in [
        (0usize, [none; 4]),
        (1, [first, first, none, first]),
        (5, [all, all, none, spoiled]),
    ] {
        let lists = Lists(rt.alloc(), count);
        let wanted = [([true; 2], verdicts); 3];
        at_each_set::<Sha256Ctr, Sha512Ctr, Lists>(&rt, &lists, &wanted)?;
    }
    Ok(())
}

/// Whether an input and its framing have one signature, with one call of the generator; whether each accepts it of the
/// other; and of the third input.
fn is_framed<S: PartialEq + Drop, K: Keys<S>>(
    keys: &K,
    input: &Input,
    framed: &Input,
    other: &Input,
) -> Result<[bool; 5], Fault> {
    let mut rng = RefusesAt::new(1, false);
    let signature = keys.seeded(&[7; 32], input)?;
    let drawn = keys.drawn(&mut rng, true, framed)?;
    let (same, one) = (signature == drawn, rng.asked == 1);
    let (first, second) = (
        keys.accepts(framed, &signature),
        keys.accepts(input, &drawn),
    );
    Ok([same, one, first, second, keys.accepts(other, &drawn)])
}

/// What `is_framed` finds of `c` and of the digest of 32 bytes 09, under the context `ab`.
fn are_framed<S: PartialEq + Drop, K: Keys<S>>(keys: &K) -> [Result<[bool; 5], Fault>; 2] {
    let mut framed = [9u8; 47];
    framed[..15].copy_from_slice(b"\x01\x02ab\x06\x09\x60\x86\x48\x01\x65\x03\x04\x02\x01");
    let message = Input::Message(b"c", b"ab");
    let digest = Input::Digest(&[9; 32], b"ab", &SHA2_256);
    [
        is_framed(keys, &message, &Input::Framed(b"\x00\x02abc"), &digest),
        is_framed(keys, &digest, &Input::Framed(&framed), &message),
    ]
}

/// What `are_framed` finds with plain and with prepared keys.
struct Framed;

impl Suite for Framed {
    type Answer = [[Result<[bool; 5], Fault>; 2]; 2];

    fn at<S: TestSet>(&self, _number: usize) -> Result<Self::Answer, Fail> {
        let keys = S::pair(&[0; 32])?;
        let prepared = S::prepared(&keys)?;
        Ok([are_framed(&keys), are_framed(&prepared)])
    }
}

/// The framed message `00 02 61 62 63`, and the 47 bytes of a framed digest, by the hooks over the counter XOFs, with
/// plain and prepared keys.
#[test]
fn hooks_take_framed_messages(rt: HostRuntime) -> Result<(), Fail> {
    let wanted = [[[Ok([true, true, true, true, false]); 2]; 2]; 3];
    at_each_set::<Sha256Ctr, Sha512Ctr, Framed>(&rt, &Framed, &wanted)
}

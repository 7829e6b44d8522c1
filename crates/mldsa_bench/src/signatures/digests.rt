//! Identifiers of hashes, the conditions on digests, and the words of the errors.
#![tactic(auto)]

use fips204::Fault::{
    self, DigestLength, DigestTooLong, HashCtx, HashRng, InternalRng, KeyGenRng, KeyRange,
    OidEmpty, OidNotDer, SamplingLimit, SignCtx, SignRng, TooManyAttempts,
};
use fips204::check_pre_hash;
use fips204::pre_hash::{self, digest_len};
use std::test::Fail;

fn oid(last: u8) -> [u8; 11] {
    [
        0x06, 0x09, 0x60, 0x86, 0x48, 0x01, 0x65, 0x03, 0x04, 0x02, last,
    ]
}

fn is_known(identifier: [u8; 11], last: u8, length: usize) -> bool {
    identifier == oid(last) && digest_len(&identifier) == Some(length)
}

/// The twelve object identifiers, byte for byte, and the lengths of their digests.
#[test]
fn identifiers_and_lengths(rt: HostRuntime) {
    let known = [
        is_known(pre_hash::SHA2_256, 0x01, 32),
        is_known(pre_hash::SHA2_384, 0x02, 48),
        is_known(pre_hash::SHA2_512, 0x03, 64),
        is_known(pre_hash::SHA2_224, 0x04, 28),
        is_known(pre_hash::SHA2_512_224, 0x05, 28),
        is_known(pre_hash::SHA2_512_256, 0x06, 32),
        is_known(pre_hash::SHA3_224, 0x07, 28),
        is_known(pre_hash::SHA3_256, 0x08, 32),
        is_known(pre_hash::SHA3_384, 0x09, 48),
        is_known(pre_hash::SHA3_512, 0x0a, 64),
        is_known(pre_hash::SHAKE_128, 0x0b, 32),
        is_known(pre_hash::SHAKE_256, 0x0c, 64),
    ];
    let unknown = [oid(0x00), oid(0x0d)].map(|identifier| digest_len(&identifier));
    let short = [digest_len(&oid(0x01)[..10]), digest_len(&[])];
    assert_eq!(rt; (known, unknown, short), ([true; 12], [None; 2], [None; 2]));
}

/// An identifier of no hash that is known here.
const UNKNOWN: &[u8] = &[0x06, 0x03, 0x2a, 0x03, 0x04];

/// Digests that are rejected, with their identifiers, and why.
pub static REFUSED_DIGESTS: [(&[u8], &[u8], Fault); 13] = [
    (&[0; 32], &[], OidEmpty),
    (&[0; 32], &[0xff], OidNotDer),
    (&[0; 32], &[0x06], OidNotDer),
    (&[0; 32], &[0x06, 0x00], OidNotDer),
    (&[0; 32], &[0x04, 0x01, 0x00], OidNotDer),
    (
        &[0; 32],
        b"\x06\x09\x60\x86\x48\x01\x65\x03\x04\x02",
        OidNotDer,
    ),
    (&[0; 1025], &pre_hash::SHA2_256, DigestTooLong),
    (&[0; 1025], UNKNOWN, DigestTooLong),
    (&[], &pre_hash::SHA2_256, DigestLength),
    (&[0; 31], &pre_hash::SHA2_256, DigestLength),
    (&[5; 31], &pre_hash::SHA2_256, DigestLength),
    (&[0; 33], &pre_hash::SHA2_256, DigestLength),
    (&[9; 63], &pre_hash::SHA2_512, DigestLength),
];

/// Each error of `check_pre_hash` by itself and in its order; digests of 0, 31, 33, 1024 and 1025 bytes; identifiers of
/// 3, 129 and 130 bytes.
#[test]
fn digests_that_are_refused(rt: HostRuntime) {
    let (mut longest, mut longer) = ([0u8; 129], [0u8; 130]);
    (longest[0], longest[1], longer[0], longer[1]) = (0x06, 0x7f, 0x06, 0x80);
    let accepted = [
        check_pre_hash(&[0; 1024], UNKNOWN),
        check_pre_hash(&[0; 32], &pre_hash::SHA2_256),
        check_pre_hash(&[], &[0x06, 0x01, 0x00]),
        check_pre_hash(&[], &longest),
    ];
    let found = (accepted, check_pre_hash(&[], &longer));
    assert_eq!(rt; found, ([Ok(()); 4], Err(OidNotDer)));
    for (row, (digest, identifier, fault)) in REFUSED_DIGESTS.iter().enumerate() {
        let found = (row, check_pre_hash(digest, identifier));
        assert_eq!(rt; found, (row, Err(*fault)));
    }
}

/// The errors and their texts.
static WORDS: [(Fault, &str); 13] = [
    (KeyGenRng, "KeyGen: Random number generator failed"),
    (SignCtx, "ML-DSA.Sign: ctx too long"),
    (SignRng, "ML-DSA.Sign: random number generator failed"),
    (HashCtx, "HashML-DSA.Sign: ctx too long"),
    (OidEmpty, "HashML-DSA.Sign: OID is empty"),
    (OidNotDer, "HashML-DSA.Sign: OID is not DER encoded"),
    (
        DigestTooLong,
        "Hash of message is too long, should not be more than 1KiB",
    ),
    (
        DigestLength,
        "HashML-DSA.Sign: digest length does not match the OID",
    ),
    (HashRng, "HashML-DSA.Sign: random number generator failed"),
    (
        InternalRng,
        "ML-DSA.Sign_internal: random number generator failed",
    ),
    (TooManyAttempts, "ML-DSA.Sign: too many attempts"),
    (KeyRange, "Alg 25: s1 or s2 out of range"),
    (SamplingLimit, "sampling limit reached"),
];

/// The thirteen texts of `Fault`, by `as_str` and by `Display`.
#[test]
fn words_of_refusals(rt: HostRuntime) -> Result<(), Fail> {
    for (fault, words) in &WORDS {
        assert_eq!(rt; fault.as_str(), *words);
        assert_eq!(rt; format!(in rt.alloc(); "{fault}")?.as_str(), *words);
    }
    Ok(())
}

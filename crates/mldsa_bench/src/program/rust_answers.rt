//! What the Rust crate fips204 0.5.0 returned in 20 cases of each command at each set, over the same XOFs.
#![tactic(auto)]

use crate::program::devices::WHOLE;
use crate::program::runs::run_of;
use crate::program::rust_crate::{ANSWERS_44, ANSWERS_65, ANSWERS_87};
use crate::program::texts::parted;
use mldsa_engine::process::status;
use sha2::{Digest, Sha256};
use std::alloc::{AllocError, Global};
use std::test::Fail;

/// Hex with one of its bytes replaced, if there are so many.
fn changed(alloc: Global, text: &str, at: usize, value: u8) -> Result<String, AllocError> {
    let mut bytes = hex::decode(alloc, text).unwrap_or(Vec::new(alloc));
    if let Some(byte) = bytes.as_mut_slice().get_mut(at) {
        *byte = value;
    }
    hex::encode(alloc, bytes.as_slice())
}

/// Runs a call on an input, adds the digest of what it writes and of its status, and returns what it writes.
fn run(alloc: Global, all: &mut Sha256, call: [&str; 3], input: String) -> Result<String, Fail> {
    let (told, written) = run_of(alloc, [WHOLE; 2], call, input.as_str().as_bytes())?;
    let mut hasher = Sha256::new();
    hasher.update(written.as_slice());
    hasher.update(&[status(told.answer)]);
    all.update(&hasher.finalize());
    Ok(String::from_utf8_lossy(alloc, written.as_slice())?)
}

/// The seed, the random bytes, the message and the context of a case, in hex.
fn texts_of(alloc: Global, number: u8) -> Result<[String; 4], Fail> {
    let size = usize::from(number);
    Ok([
        hex::encode(alloc, &Sha256::digest(&[number, 0]))?,
        hex::encode(alloc, &Sha256::digest(&[number, 1]))?,
        hex::encode(alloc, &Sha256::digest(&[number, 2])[..size.min(32)])?,
        hex::encode(alloc, vec![in alloc; number; size * 27 / 2]?.as_slice())?,
    ])
}

/// The digest of what each command writes, and of its status, in a case of this number at a set; and the signature that
/// was made last, which some cases damage or verify for another message.
fn digest_of(alloc: Global, set: &str, number: u8, made: &mut String) -> Result<[u8; 32], Fail> {
    let streams = match number {
        6 | 10 | 13 => "fill55",
        _ => "sha2",
    };
    let size = usize::from(number);
    let texts = texts_of(alloc, number)?;
    let [seed, random, message, context] = &texts;
    let mut all = Sha256::new();

    let input = format!(in alloc; "{seed}\n")?;
    let pair = run(alloc, &mut all, [streams, "keygen", set], input)?;
    let (public, private) = parted(pair.as_str(), "\n");
    let at = (number % 5 == 3).then_some(128 + size);
    let at = at.unwrap_or(usize::MAX);
    let private = changed(alloc, private.trim_end(), at, 0xff)?;
    let input = format!(in alloc; "{public}\n")?;
    run(alloc, &mut all, [streams, "id", set], input)?;
    let input = format!(in alloc; "{private}\n{random}\n{context}\n{message}\n")?;
    let signed = run(alloc, &mut all, [streams, "sign", set], input)?;
    // An error is shorter than a key.
    if signed.len() > public.len() {
        *made = String::from_str(alloc, signed.trim_end())?;
    }

    let (at, value, spoken) = match number % 6 {
        1 | 4 => (37 * size, number, message),
        5 => ((made.len() / 2).wrapping_sub(1), 0xff, message),
        2 => (usize::MAX, 0, random),
        _ => (usize::MAX, 0, message),
    };
    let other = changed(alloc, made.as_str(), at, value)?;
    let input = format!(in alloc; "{public}\n{other}\n{context}\n{spoken}\n")?;
    run(alloc, &mut all, [streams, "verify", set], input)?;
    let input = format!(in alloc; "{seed}\n{random}\n{context}\n{message}\n")?;
    run(alloc, &mut all, [streams, "check", set], input)?;
    // The number says how many of the two entries are read.
    let (count, entry) = (number % 3, format!(in alloc; "{other}\n{spoken}\n")?);
    let input = format!(in alloc; "{public}\n{context}\n000{count}\n{made}\n{message}\n{entry}")?;
    run(alloc, &mut all, [streams, "batch", set], input)?;
    Ok(all.finalize())
}

/// 20 cases of each command and set: the SHA-256 of the output and the status that fips204 0.5.0 gave over
/// the same XOFs.
#[test]
fn answers_of_the_rust_crate(rt: HostRuntime) -> Result<(), Fail> {
    for (set, recorded) in [("44", ANSWERS_44), ("65", ANSWERS_65), ("87", ANSWERS_87)] {
        let mut made = String::new(rt.alloc());
        for number in 0..20u8 {
            let digest = digest_of(rt.alloc(), set, number, &mut made)?;
            let digest = hex::encode(rt.alloc(), &digest)?;
            let at = 64 * usize::from(number);
            assert_eq!(rt;
                recorded.get(at..at + 64),
                Some(digest.as_str()),
                "{set} {number}"
            );
        }
    }
    Ok(())
}

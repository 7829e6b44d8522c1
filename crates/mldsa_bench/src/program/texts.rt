//! Inputs and outputs, spelt with words for recorded bytes.
#![tactic(auto)]

use crate::values::constant_streams::{
    private_44, private_65, private_87, public_44, public_65, public_87, signature_44,
    signature_44_of_least_coefficient, signature_65, signature_87,
};
use crate::values::recorded;
use std::alloc::{AllocError, Global};

/// What a word names at a set over the counter XOFs, in hex or as a result. Any other word is itself.
fn counted<'a>(set: &str, word: &'a str) -> &'a str {
    let number = match set {
        "44" => 0,
        "65" => 1,
        _ => 2,
    };
    let [public, private, signature] = recorded(number);
    match word {
        "public" => public,
        "private" => private,
        // A private key has the hash of its public key after two seeds.
        "hash" => private.get(128..256).unwrap_or(""),
        "good" => signature,
        "other" => "no",
        _ => word,
    }
}

/// What a word names at a set over constant XOFs, in hex or as a result. Any other word is itself.
fn constant(alloc: Global, set: &str, word: &str) -> Result<String, AllocError> {
    match (word, set) {
        ("public", "44") => hex::encode(alloc, &public_44()),
        ("public", "65") => hex::encode(alloc, &public_65()),
        ("public", _) => hex::encode(alloc, &public_87()),
        ("private", "44") => hex::encode(alloc, &private_44()),
        ("private", "65") => hex::encode(alloc, &private_65()),
        ("private", _) => hex::encode(alloc, &private_87()),
        ("good", "44") => hex::encode(alloc, &signature_44()),
        ("good", "65") => hex::encode(alloc, &signature_65()),
        ("good", _) => hex::encode(alloc, &signature_87()),
        ("short", _) => {
            // All but the last byte.
            let signature = hex::encode(alloc, &signature_44())?;
            String::from_str(alloc, signature.get(..4838).unwrap_or(""))
        }
        ("signature-in-range", _) => hex::encode(alloc, &signature_44_of_least_coefficient()),
        ("key-in-range" | "key-out-of-range", _) => {
            // The first field of s1, of which 4 is the last in range.
            let mut key = private_44();
            key[128] = if word == "key-in-range" { 4 } else { 5 };
            hex::encode(alloc, &key)
        }
        ("bad", _) => {
            // The first coefficient of z is out of range.
            let mut signature = signature_44();
            signature[32..35].copy_from_slice(&[0x4e, 0x00, 0x4c]);
            hex::encode(alloc, &signature)
        }
        ("hash", _) => "5".repeat(alloc, 128),
        ("other", _) => String::from_str(alloc, "yes"),
        _ => String::from_str(alloc, word),
    }
}

/// What stands before and after the first of these marks: all and nothing where there is none.
pub fn parted<'a>(text: &'a str, mark: &str) -> (&'a str, &'a str) {
    text.split_once(mark).unwrap_or((text, ""))
}

/// What a text spells for a call: a comma is an LF, a word what it names, and `X*N` so many copies of it.
pub fn spelt(alloc: Global, call: [&str; 3], text: &str) -> Result<String, AllocError> {
    let [streams, _, set] = call;
    let mut spelt = String::new(alloc);
    for (index, line) in text.split(',').enumerate() {
        if index > 0 {
            spelt.push('\n')?;
        }
        let (word, copies) = parted(line, "*");
        let word = match streams {
            "sha2" => String::from_str(alloc, counted(set, word))?,
            _ => constant(alloc, set, word)?,
        };
        let copies = copies.parse().unwrap_or(1);
        spelt.push_str(word.repeat(alloc, copies)?.as_str())?;
    }
    Ok(spelt)
}

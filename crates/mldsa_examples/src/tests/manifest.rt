//! Files that a manifest lists, and files that it does not.
#![tactic(auto)]

use crate::manifest::{CONTEXT, digest_of, entry_of, handed_out};
use fips204::ml_dsa_65::KG;
use fips204::pre_hash::SHA2_256;
use fips204::traits::{KeyGen, Signer};
use fips204::xof::{Sha256Ctr, Sha512Ctr};
use std::test::Fail;

/// A file is handed out under its name; a longer, shorter or changed file, a file under another name, and a file of
/// a manifest with an entry less, an entry changed or another signature are not.
#[test]
fn a_manifest(rt: HostRuntime) -> Result<(), Fail> {
    let (one, two) = (&[b'1'; 32], &[b'2'; 32]);
    let (file, second) = (b"first file".as_slice(), b"second file".as_slice());
    let entries = [entry_of(one, file), entry_of(two, second)];
    let (key, owner) = KG::<Sha256Ctr, Sha512Ctr>::keygen_from_seed(&[7; 32])?;
    let digest = digest_of(&entries);
    let signature = owner.try_hash_sign_with_seed(&[0; 32], &digest, CONTEXT, &SHA2_256)?;
    assert!(rt; handed_out(&key, &entries, &signature, one, file) == Some(file));
    assert!(rt; handed_out(&key, &entries, &signature, two, second) == Some(second));
    for other in [
        b"first file!".as_slice(),
        b"first fil",
        b"fjrst file",
        second,
    ] {
        assert!(rt; handed_out(&key, &entries, &signature, one, other).is_none());
    }
    let changed = [entries[0], entry_of(two, b"another file")];
    assert!(rt; handed_out(&key, &entries[..1], &signature, one, file).is_none());
    assert!(rt; handed_out(&key, &changed, &signature, two, b"another file").is_none());
    let mut changed = signature;
    changed[0] ^= 1;
    assert!(rt; handed_out(&key, &entries, &changed, one, file).is_none());
    Ok(())
}

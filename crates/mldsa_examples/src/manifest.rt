//! A signed manifest: a list of files, each with its name, size and digest, signed as a whole, at any parameter set.
//!
//! Mutations that the contracts reject: a spelling without the size; an entry that has another size than its file; a
//! file handed out though the signature is not accepted.
#![tactic(auto)]

ghost use Rattle.std.specs.Prelude.{◌≡◌, ◌++◌, ℕ, List, MatchOption};
ghost use Rattle.std.specs.List.{All};
ghost use Rattle.sha2.specs.Hashers.{Holds256};
ghost use Rattle.sha2.specs.Sha256.{sha256};
ghost use Rattle.mldsa_examples.specs.Manifest.{entry_bytes, file_entry, spelling, IsEntry, IsHandedOut, SpellingIsOneToOne};

use fips204::pre_hash::SHA2_256;
use fips204::sets::{HasSet, Matrix, Set, SignatureSizes};
use fips204::traits::Verifier;
use fips204::types::PublicKey;
use fips204::xof::Xof;
use sha2::{Digest, Sha256};

/// What the owner's signatures are for.
pub const CONTEXT: &[u8] = b"manifest";

/// What a manifest says of a file.
#[derive(Debug, Clone, Copy, PartialEq, Eq)]
pub struct Entry {
    /// The file's name, ended by zeros.
    pub name: [u8; 32],
    /// Its number of bytes.
    pub size: u64,
    /// Its SHA-256 digest.
    pub digest: [u8; 32],
}

/// The entry of a file under a name.
pub fn entry_of(name: &[u8; 32], file: &[u8]) -> Entry
    ensures { result ≡ file_entry name.now file.now }
{
    Entry {
        name: *name,
        size: file.len() as u64,
        digest: Sha256::digest(file),
    }
}

/// Adds the bytes of an entry to what is hashed.
fn add_entry(hasher: &mut Sha256, entry: &Entry)
    ensures bytes { (before : List ℕ) → Holds256 hasher.old before → Holds256 hasher.new (before ++ entry_bytes entry.now) }
    ensures range { IsEntry entry.now }
{
    let size: u64 = entry.size;
    hasher.update(&entry.name);
    hasher.update(&size.to_be_bytes());
    hasher.update(&entry.digest);
}

/// The SHA-256 digest of a manifest's bytes, which is signed.
pub fn digest_of(entries: &[Entry]) -> [u8; 32]
    ensures digest { result ≡ sha256 (spelling entries.now) }
    ensures range { All IsEntry entries.now }
{
    let mut hasher = Sha256::new();
    for entry in entries {
        add_entry(&mut hasher, entry);
    }
    hasher.finalize()
}

/// Two manifests with the same bytes are the same manifest.
#[tactic(auto, using(crate::proofs::Manifests::one_manifest))]
pub fn one_spelling()
    ensures { SpellingIsOneToOne }
{}

/// The file if the manifest is signed and lists it under this name, with its size and digest; else none.
pub fn handed_out<'a, S, const K: usize, const L: usize, const SIG_LEN: usize, H: Xof, G: Xof>(
    key: &PublicKey<K, L, H, G>,
    entries: &[Entry],
    signature: &[u8; SIG_LEN],
    name: &[u8; 32],
    file: &'a [u8],
) -> Option<&'a [u8]>
where
    Matrix<K, L>: HasSet<Set = S>,
    S: Set<Signature = [u8; SIG_LEN]> + SignatureSizes<K, L, SIG_LEN>,
    ensures { MatchOption result
        (IsHandedOut S.set H.front G.front key.now CONTEXT.now SHA2_256 entries.now signature.now name.now file.now → ⊥)
        (λ given. (given.now ≡ file.now)
        × IsHandedOut S.set H.front G.front key.now CONTEXT.now SHA2_256 entries.now signature.now name.now file.now) }
{
    if !key.hash_verify(&digest_of(entries), signature, CONTEXT, &SHA2_256) {
        return None;
    }
    if entries.contains(&entry_of(name, file)) {
        Some(file)
    } else {
        None
    }
}

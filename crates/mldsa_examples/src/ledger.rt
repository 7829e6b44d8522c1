//! An append-only ledger: each entry signs the hash of the entry before it, and what is recorded.
//!
//! Mutations that the contracts reject: the last entry is not checked; no link is checked; a link that leaves the
//! signature out; a payload that is not signed; an appended entry without the hash of the last one.
#![tactic(auto)]

ghost use Rattle.std.specs.Prelude.{◌≡◌, ◌≤◌, ◌↔◌, ◌++◌, length, Err, IsTrue, IfOk, IfErr};
ghost use Rattle.std.specs.Vec.{vec_capacity, vec_len};
ghost use Rattle.fips204.specs.ParameterSets.{set_44};
ghost use Rattle.fips204.specs.Prepared.{prepared_public};
ghost use Rattle.mldsa_examples.specs.Ledger.{hash_before, Stands, StandsPrepared, StaysStanding, AppendsAs};

use fips204::ml_dsa_44::{PreparedPublicKey, PrivateKey, PublicKey, SIG_LEN};
use fips204::traits::Signer;
use fips204::xof::Xof;
use fips204::{Fault, laws};
use sha2::{Digest, Sha256};

/// What the owner's signatures are for.
pub const CONTEXT: &[u8] = b"ledger";

/// One entry of a ledger.
#[derive(Clone, Copy, PartialEq, Eq)]
pub struct Entry {
    /// The hash of the entry before it; zeros in the first.
    pub previous: [u8; 32],
    /// What is recorded: the SHA-256 digest of a document, say.
    pub payload: [u8; 32],
    /// The owner's signature of the two.
    pub signature: [u8; SIG_LEN],
}

/// Why nothing was appended.
#[derive(Debug, Clone, Copy, PartialEq, Eq)]
pub enum AppendFault {
    /// The key did not sign.
    Signing(Fault),
    /// No memory for one more entry.
    OutOfMemory,
}

/// The hash of the entry before a place, which the entry at that place signs; zeros before the first.
pub fn previous_hash(ledger: &[Entry], place: usize) -> [u8; 32]
    requires { place ≤ length ledger.now }
    ensures { result ≡ hash_before ledger.now place }
{
    if place == 0 {
        return [0; 32];
    }
    let mut hasher = Sha256::new();
    hasher.update(&ledger[place - 1].previous);
    hasher.update(&ledger[place - 1].payload);
    hasher.update(&ledger[place - 1].signature);
    hasher.finalize()
}

/// The bytes that an entry's signature signs.
pub fn signed_bytes(previous: &[u8; 32], payload: &[u8; 32]) -> [u8; 64]
    ensures { result ≡ previous.now ++ payload.now }
{
    let mut bytes = [0u8; 64];
    bytes[32..].copy_from_slice(payload);
    bytes[..32].copy_from_slice(previous);
    bytes
}

/// Appends an entry that the owner signs. On an error the ledger stays as it was. If the key is consistent and the
/// ledger stood under its public key, it stands.
pub fn append<H: Xof, G: Xof>(
    ledger: &mut Vec<Entry>,
    owner: &PrivateKey<H, G>,
    random: &[u8; 32],
    payload: &[u8; 32],
) -> Result<(), AppendFault>
    ensures appended { AppendsAs H.front G.front owner.now CONTEXT.now random.now payload.now ledger.old.items ledger.new.items result }
    ensures room { result ≡ Err AppendFault.OutOfMemory → vec_capacity ledger.old ≤ vec_len ledger.old }
    ensures stands { StaysStanding H.front G.front owner.now CONTEXT.now ledger.old.items ledger.new.items }
{
    let previous = previous_hash(ledger, ledger.len());
    let bytes = signed_bytes(&previous, payload);
    let signature = match owner.try_sign_with_seed(random, &bytes, CONTEXT) {
        Ok(signature) => signature,
        Err(fault) => return Err(AppendFault::Signing(fault)),
    };
    match ledger.push(Entry {
        previous,
        payload: *payload,
        signature,
    }) {
        Ok(()) => Ok(()),
        Err(_) => Err(AppendFault::OutOfMemory),
    }
}

/// Whether each entry has the hash of the one before it, and a signature that the prepared key accepts.
fn each_fits<H: Xof>(key: &PreparedPublicKey<H>, ledger: &[Entry]) -> bool
    ensures { IsTrue result ↔ StandsPrepared H.front key.now CONTEXT.now ledger.now }
{
    for place in 0..ledger.len() {
        let entry = &ledger[place];
        let bytes = signed_bytes(&entry.previous, &entry.payload);
        if entry.previous != previous_hash(ledger, place)
            || !key.verify(&bytes, &entry.signature, CONTEXT)
        {
            return false;
        }
    }
    true
}

/// Whether the ledger stands under the key: each entry has the hash of the one before it, and each signature is
/// accepted. The key is prepared once, and `Fault::SamplingLimit` says that it has no matrix. Entries that were
/// dropped at the end are not missed.
pub fn check_all<H: Xof, G: Xof>(key: &PublicKey<H, G>, ledger: &[Entry]) -> Result<bool, Fault>
    ensures answer { IfOk result (λ stands. IsTrue stands ↔ Stands H.front G.front key.now CONTEXT.now ledger.now) }
    ensures refused { IfErr result (λ fault. prepared_public set_44 G.front key.now ≡ Err fault) }
{
    laws::prepared_keys();
    Ok(each_fits(&key.prepare()?, ledger))
}

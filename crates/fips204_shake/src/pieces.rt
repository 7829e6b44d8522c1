//! The hash mu of a message that comes in pieces, which `sign_mu` and `verify_mu` take.
#![tactic(auto)]

ghost use Rattle.std.specs.Prelude.{◌≡◌, ◌<◌, ◌≤◌, ◌++◌, ℕ, List, [], length, MatchOption, MatchResult};
ghost use Rattle.fips204.specs.Framing.{plain, representative};
ghost use Rattle.fips204.specs.ParameterSets.{public_key_length, private_key_length};
ghost use Rattle.fips204.specs.Sets.{named_set};
ghost use Rattle.fips204_base.specs.declared.fault.Fault.TheVariants.{SignCtx};
ghost use Rattle.shake.specs.State.{CanBeSaved};
ghost use Rattle.fips204_shake.specs.Fronts.{shake256_front};
ghost use Rattle.fips204_shake.specs.Mu.{tr_of_private, tr_of_public};
ghost use Rattle.fips204_shake.specs.declared.bytes.refusal.Buffer.TheVariants.{PublicKey, PrivateKey};
ghost use Rattle.fips204_shake.specs.Pieces.{Hashes, HashesSaved, Begins};

use crate::bytes::{Buffer, Refusal, SetName};
use crate::streams::Shake256Stream;
use fips204::Fault;
use fips204::xof::hash;
use shake::Shake256;

/// Hashes a message in pieces (FIPS 204, Algorithm 2 to the message M', and line 6 of Algorithm 7). Contracts say by
/// `Hashes hasher tr context m` that the hasher was begun with `tr` and `context`, and has taken `m` of the message.
///
/// The hash is the one that `sign` and `verify` make of the whole message: the `mu` of a key is made with the key's `tr`.
#[derive(Drop)]
pub struct MessageHasher {
    hasher: Shake256,
}

/// How many bytes a saved hasher has.
pub const SAVED_LEN: usize = 337;

impl MessageHasher {
    /// Begins a message under a context, for the key whose `tr` this is.
    ///
    /// Errors: `Fault::SignCtx` if `context` has more than 255 bytes.
    pub fn new(tr: &[u8; 64], context: &[u8]) -> Result<MessageHasher, Fault>
        ensures { MatchResult result
            (λ hasher. (length context.now ≤ 255) × Hashes hasher tr.now context.now [])
            (λ fault. (255 < length context.now) × (fault ≡ SignCtx)) }
    {
        if context.len() > 255 {
            return Err(Fault::SignCtx);
        }
        let mut hasher = Shake256::new();
        hasher.update(tr);
        hasher.update(&[0, context.len() as u8]);
        hasher.update(context);
        Ok(MessageHasher { hasher })
    }

    /// Begins a message that the public key with these bytes is to verify.
    ///
    /// Errors: a wrong length; `Fault::SignCtx` if `context` has more than 255 bytes.
    pub fn for_public_key(
        set: SetName,
        public_key: &[u8],
        context: &[u8],
    ) -> Result<MessageHasher, Refusal>
        ensures { Begins (public_key_length (named_set set)) PublicKey public_key.now (tr_of_public shake256_front public_key.now) context.now result }
    {
        if public_key.len() != set.public_key_len() {
            return Err(Refusal::Length(Buffer::PublicKey));
        }
        let tr = hash::<Shake256Stream, 64>(&[public_key]);
        Ok(MessageHasher::new(&tr, context)?)
    }

    /// Begins a message that the private key with these bytes is to sign, under the `tr` that it keeps.
    ///
    /// Errors: a wrong length; `Fault::SignCtx` if `context` has more than 255 bytes.
    pub fn for_private_key(
        set: SetName,
        private_key: &[u8],
        context: &[u8],
    ) -> Result<MessageHasher, Refusal>
        ensures { Begins (private_key_length (named_set set)) PrivateKey private_key.now (tr_of_private private_key.now) context.now result }
    {
        if private_key.len() != set.private_key_len() {
            return Err(Refusal::Length(Buffer::PrivateKey));
        }
        let mut tr = [0; 64];
        tr.copy_from_slice(&private_key[64..128]);
        Ok(MessageHasher::new(&tr, context)?)
    }

    /// Adds a piece to the end of the message.
    pub fn update(&mut self, piece: &[u8])
        ensures { (tr context m : List ℕ) → Hashes self.old tr context m
            → Hashes self.new tr context (m ++ piece.now) }
    {
        self.hasher.update(piece);
    }

    /// The hash mu of the message.
    pub fn finalize(self) -> [u8; 64]
        ensures { (tr context m : List ℕ) → Hashes self tr context m
            → result ≡ representative shake256_front tr (plain m context) }
    {
        let mut mu = [0; 64];
        let mut reader = self.hasher.finalize_xof();
        reader.read(&mut mu);
        mu
    }

    /// Writes the hasher as bytes, from which `restore` makes it again.
    pub fn save(&self, out: &mut [u8])
        requires { length out.old ≡ 337 }
        ensures { (tr context m : List ℕ) → Hashes self.now tr context m
            → HashesSaved out.new tr context m }
    {
        self.hasher.save(out);
    }

    /// The hasher of these bytes, or none if no hasher has them: if their last byte is 0 or above 136.
    pub fn restore(saved: &[u8; SAVED_LEN]) -> Option<MessageHasher>
        ensures { MatchOption result (¬ (CanBeSaved 136 saved.now))
            (λ hasher. CanBeSaved 136 saved.now
            × ((tr context m : List ℕ) → HashesSaved saved.now tr context m → Hashes hasher tr context m)) }
    {
        let hasher = Shake256::restore(saved)?;
        Some(MessageHasher { hasher })
    }
}

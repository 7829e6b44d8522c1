//! The commands, over keys and a source of the message.
#![tactic(auto)]

ghost use Rattle.std.specs.Prelude.{◌≡◌, ◌<◌, ◌↔◌, ℕ, List, length, IfOk, IfErr};
ghost use Rattle.fips204.specs.Sets.{named_set};
ghost use Rattle.mlsign_engine.specs.Commands.{MakesTexts, IsSigned, Judges, FailsToGenerate, FailsToSign, FailsToJudge};
ghost use Rattle.mlsign_engine.specs.Messages.{GivesAll};

use crate::fault::CommandFault;
use crate::forms::{Form, private_file, public_file};
use crate::keys::KeyPair;
use crate::message::message_mu;
use crate::prepared::{SigningKey, VerifyingKey};
use crate::source::Source;
use fips204::{SetName, laws};
use fips204_shake::der::PrivateKey;
use std::alloc::Global;

/// The most bytes of a context.
const LONGEST: usize = 255;

/// The files of a pair of keys.
#[derive(Debug, Drop)]
pub struct KeyFiles {
    /// The private key, as its seed.
    pub private: Vec<u8>,
    /// The public key.
    pub public: Vec<u8>,
}

/// Makes the key pair of a seed, which is proved to be consistent, and its files in this form.
///
/// Errors: `Library` if rejection sampling reaches its limit; `Memory`.
pub fn keygen(
    alloc: Global,
    form: Form,
    algorithm: SetName,
    seed: &[u8; 32],
) -> Result<KeyFiles, CommandFault>
    ensures generated { IfOk result (λ files. MakesTexts form algorithm seed.now files.private.items files.public.items) }
    ensures fault { IfErr result (FailsToGenerate algorithm seed.now) }
{
    laws::signed_is_accepted();
    let key = PrivateKey::Seed(seed.as_slice());
    let pair = KeyPair::of_parts(alloc, algorithm, key)?;
    let private = private_file(alloc, form, algorithm, key)?;
    let public = public_file(alloc, form, algorithm, pair.public())?;
    Ok(KeyFiles { private, public })
}

/// Signs a message under a context, over these random bytes: 32 zeros give the deterministic variant. The message is all that the
/// source gives, and is not kept.
///
/// Errors, in this order: `Context` if the context has more than 255 bytes; `Message` if the source fails; and `Library` or `Memory`
/// where they arise.
pub fn sign<I: Source>(
    alloc: Global,
    key: &SigningKey,
    random: &[u8; 32],
    context: &[u8],
    input: &mut I,
) -> Result<Vec<u8>, CommandFault>
    ensures signed { IfOk result (λ signature. (message : List ℕ)
        × GivesAll I.gives I.remaining input.old input.new message
        × IsSigned (named_set key.now.algorithm) key.now.parts random.now context.now message signature.items) }
    ensures context { (result ≡ Err CommandFault.Context) ↔ (255 < length context.now) }
    ensures fault { IfErr result (FailsToSign I.gives I.remaining input.old input.new key.now random.now context.now) }
{
    laws::signed_is_accepted();
    if context.len() > LONGEST {
        return Err(CommandFault::Context);
    }
    let algorithm = key.algorithm();
    let tr = key.tr();
    let mu = message_mu(&tr, context, input)?;
    let mut signature = vec![in alloc; 0; algorithm.signature_len()]?;
    key.sign_mu(random, &mu, signature.as_mut_slice())?;
    Ok(signature)
}

/// Whether a key accepts these bytes as a signature of a message under a context. The message is all that the source gives, and is not
/// kept.
///
/// Errors, in this order: `Context` if the context has more than 255 bytes; `Message` if the source fails.
pub fn verify<I: Source>(
    key: &VerifyingKey,
    signature: &[u8],
    context: &[u8],
    input: &mut I,
) -> Result<bool, CommandFault>
    ensures judged { IfOk result (λ valid. (message : List ℕ)
        × GivesAll I.gives I.remaining input.old input.new message
        × Judges key.now signature.now context.now message valid) }
    ensures context { (result ≡ Err CommandFault.Context) ↔ (255 < length context.now) }
    ensures fault { IfErr result (FailsToJudge I.gives input.old input.new context.now) }
{
    laws::key_bytes();
    if context.len() > LONGEST {
        return Err(CommandFault::Context);
    }
    let mu = message_mu(key.tr(), context, input)?;
    match key.judge_mu(&mu, signature) {
        Ok(valid) => Ok(valid),
        // The signature has another length.
        Err(_) => Ok(false),
    }
}

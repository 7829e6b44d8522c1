//! Never called: an alias over other streams or a weakened law must break one of these proofs.
#![tactic(auto)]

ghost use Rattle.std.specs.Prelude.{◌≡◌, ◌≤◌, ◌↔◌, ℕ, IsTrue};
ghost use Rattle.fips204_base.specs.Streams.{ArePrefixes};
ghost use Rattle.fips204.specs.LongerFronts.{SamplesStay, AnswersStay, AcceptanceStays};
ghost use Rattle.fips204.specs.Framing.{plain};
ghost use Rattle.fips204.specs.ParameterSets.{ParameterSet, IsSet, set_44, set_65};
ghost use Rattle.fips204.specs.Prepared.{sign_prepared, VerifiesPrepared};
ghost use Rattle.fips204_shake.specs.Bytes.{Generates};
ghost use Rattle.fips204_shake.specs.Fronts.{shake256_front, shake128_front};
ghost use Rattle.shake.specs.Shake.{shake256, shake128};

use crate::bytes::Refusal;
use crate::streams::only_limits_differ;
use crate::{MlDsa65, ml_dsa_44};
use fips204_base::Fault;

/// A signature of a prepared key of ML-DSA-44.
pub(crate) fn signed_at_44(
    key: &ml_dsa_44::PreparedPrivateKey,
    random: &[u8; 32],
    message: &[u8],
    context: &[u8],
) -> Result<[u8; ml_dsa_44::SIG_LEN], Fault>
    ensures { result ≡ sign_prepared set_44 shake256_front key.now random.now (plain message.now context.now) }
{
    key.try_sign_with_seed(random, message, context)
}

/// The verdict of a prepared key of ML-DSA-44.
pub(crate) fn accepted_at_44(
    key: &ml_dsa_44::PreparedPublicKey,
    message: &[u8],
    signature: &[u8; ml_dsa_44::SIG_LEN],
    context: &[u8],
) -> bool
    ensures { IsTrue result ↔ VerifiesPrepared set_44 shake256_front key.now signature.now (plain message.now context.now) }
{
    key.verify(message, signature, context)
}

/// The keys that the calls of ML-DSA-65 over bytes make.
pub(crate) fn generated_at_65(
    seed: &[u8; 32],
    public_key: &mut [u8],
    private_key: &mut [u8],
) -> Result<(), Refusal>
    ensures { Generates set_65 shake256_front shake128_front seed.now public_key.old public_key.new private_key.old private_key.new result }
{
    MlDsa65::keygen(seed, public_key, private_key)
}

/// What stays the same over more of the output than the bounded ones have.
pub(crate) fn limit_parts()
    ensures fronts { (d e : ℕ) → 1048576 ≤ d → 1048576 ≤ e → ArePrefixes shake256_front (λ x. shake256 x d) × ArePrefixes shake128_front (λ x. shake128 x e) }
    ensures samples { (d e : ℕ) → 1048576 ≤ d → 1048576 ≤ e → SamplesStay shake256_front shake128_front (λ x. shake256 x d) (λ x. shake128 x e) }
    ensures answers { (p : ParameterSet) (d e : ℕ) → IsSet p → 1048576 ≤ d → 1048576 ≤ e
        → AnswersStay p shake256_front shake128_front (λ x. shake256 x d) (λ x. shake128 x e) }
    ensures verdicts { (p : ParameterSet) (d e : ℕ) → IsSet p → 1048576 ≤ d → 1048576 ≤ e
        → AcceptanceStays p shake256_front shake128_front (λ x. shake256 x d) (λ x. shake128 x e) }
{
    only_limits_differ();
}

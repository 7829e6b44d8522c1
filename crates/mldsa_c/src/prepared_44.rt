//! The exports of ML-DSA-44 with prepared keys.
#![tactic(auto)]

ghost use Rattle.fips204.specs.Framing.{plain, hashed};
ghost use Rattle.fips204.specs.ParameterSets.{set_44};
ghost use Rattle.mldsa_c.specs.Prepared.{PreparePublicKeyAnswers, VerifyPreparedAnswers, VerifyMuPreparedAnswers, PreparePrivateKeyAnswers, SignPreparedAnswers, SignMuPreparedAnswers};

use crate::numbers::WRONG_LENGTH;
use crate::statuses::{checked_array, status, verdict_status};
use fips204_shake::{Input, MlDsa44};

/// Prepares a public key for many verifications.
#[unsafe(no_mangle)]
pub extern "C" fn mldsa44_prepare_public_key(
    public_key: &[u8],
    prepared_public_key: &mut [u8],
) -> u32
    ensures { PreparePublicKeyAnswers set_44 public_key.now prepared_public_key.old prepared_public_key.new result }
{
    status(MlDsa44::prepare_public_key(public_key, prepared_public_key))
}

/// Tells whether a prepared public key accepts the signature of a message under a context.
#[unsafe(no_mangle)]
pub extern "C" fn mldsa44_verify_prepared(
    prepared_public_key: &[u8],
    message: &[u8],
    context: &[u8],
    signature: &[u8],
) -> u32
    ensures { VerifyPreparedAnswers set_44 prepared_public_key.now (plain message.now context.now) signature.now result }
{
    let signed = Input::Message(message, context);
    verdict_status(MlDsa44::verify_prepared(prepared_public_key, &signed, signature))
}

/// Tells whether a prepared public key accepts the signature of a digest under a context; `oid` names its hash function.
#[unsafe(no_mangle)]
pub extern "C" fn mldsa44_hash_verify_prepared(
    prepared_public_key: &[u8],
    digest: &[u8],
    context: &[u8],
    oid: &[u8],
    signature: &[u8],
) -> u32
    ensures { VerifyPreparedAnswers set_44 prepared_public_key.now (hashed digest.now context.now oid.now) signature.now result }
{
    let signed = Input::Digest(digest, context, oid);
    verdict_status(MlDsa44::verify_prepared(prepared_public_key, &signed, signature))
}

/// Tells whether a prepared public key accepts the signature of the hash `mu` of a framed message.
#[unsafe(no_mangle)]
pub extern "C" fn mldsa44_verify_mu_prepared(
    prepared_public_key: &[u8],
    mu: &[u8],
    signature: &[u8],
) -> u32
    ensures { VerifyMuPreparedAnswers set_44 prepared_public_key.now mu.now signature.now result }
{
    let signed = checked_array!(mu, 64);
    verdict_status(MlDsa44::verify_prepared(prepared_public_key, &Input::Mu(signed), signature))
}

/// Prepares a private key for many signatures.
#[unsafe(no_mangle)]
pub extern "C" fn mldsa44_prepare_private_key(
    private_key: &[u8],
    prepared_private_key: &mut [u8],
) -> u32
    ensures { PreparePrivateKeyAnswers set_44 private_key.now prepared_private_key.old prepared_private_key.new result }
{
    status(MlDsa44::prepare_private_key(private_key, prepared_private_key))
}

/// Signs a message under a context with a prepared private key, from 32 random bytes.
#[unsafe(no_mangle)]
pub extern "C" fn mldsa44_sign_prepared(
    prepared_private_key: &[u8],
    message: &[u8],
    context: &[u8],
    random: &[u8],
    signature: &mut [u8],
) -> u32
    ensures { SignPreparedAnswers set_44 prepared_private_key.now (plain message.now context.now) random.now signature.old signature.new result }
{
    let random = checked_array!(random, 32);
    let input = Input::Message(message, context);
    status(MlDsa44::sign_prepared(prepared_private_key, random, &input, signature))
}

/// Signs a digest under a context with a prepared private key, from 32 random bytes; `oid` names its hash function.
#[unsafe(no_mangle)]
pub extern "C" fn mldsa44_hash_sign_prepared(
    prepared_private_key: &[u8],
    digest: &[u8],
    context: &[u8],
    oid: &[u8],
    random: &[u8],
    signature: &mut [u8],
) -> u32
    ensures { SignPreparedAnswers set_44 prepared_private_key.now (hashed digest.now context.now oid.now) random.now signature.old signature.new result }
{
    let random = checked_array!(random, 32);
    let input = Input::Digest(digest, context, oid);
    status(MlDsa44::sign_prepared(prepared_private_key, random, &input, signature))
}

/// Signs the hash `mu` of a framed message, which has 64 bytes, with a prepared private key, from 32 random bytes.
#[unsafe(no_mangle)]
pub extern "C" fn mldsa44_sign_mu_prepared(
    prepared_private_key: &[u8],
    mu: &[u8],
    random: &[u8],
    signature: &mut [u8],
) -> u32
    ensures { SignMuPreparedAnswers set_44 prepared_private_key.now mu.now random.now signature.old signature.new result }
{
    let mu = checked_array!(mu, 64);
    let random = checked_array!(random, 32);
    status(MlDsa44::sign_prepared(prepared_private_key, random, &Input::Mu(mu), signature))
}

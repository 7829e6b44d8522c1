//! The exports of ML-DSA-44.
#![tactic(auto)]

ghost use Rattle.fips204.specs.Framing.{plain, hashed};
ghost use Rattle.fips204.specs.ParameterSets.{set_44};
ghost use Rattle.mldsa_c.specs.Calls.{KeygenAnswers, SignAnswers, VerifyAnswers, AcceptsAnswers, SignMuAnswers, VerifyMuAnswers, PublicKeyAnswers, CheckPrivateKeyAnswers, IsWholeAnswers, IsPairAnswers};
ghost use Rattle.mldsa_c.specs.Pieces.{Begins};
ghost use Rattle.fips204_shake.specs.Mu.{tr_of_private, tr_of_public};
ghost use Rattle.fips204_shake.specs.Fronts.{shake256_front};
ghost use Rattle.fips204.specs.ParameterSets.{public_key_length, private_key_length};

use crate::numbers::WRONG_LENGTH;
use crate::pieces;
use crate::statuses::{accepted, checked_array, status, verdict_status};
use fips204_shake::{Input, MlDsa44, SetName};

/// Makes the key pair of a seed of 32 bytes.
#[unsafe(no_mangle)]
pub extern "C" fn mldsa44_keygen(seed: &[u8], public_key: &mut [u8], private_key: &mut [u8]) -> u32
    ensures { KeygenAnswers set_44 seed.now public_key.old public_key.new private_key.old private_key.new result }
{
    let seed = checked_array!(seed, 32);
    status(MlDsa44::keygen(seed, public_key, private_key))
}

/// Signs a message under a context, from 32 random bytes.
#[unsafe(no_mangle)]
pub extern "C" fn mldsa44_sign(
    private_key: &[u8],
    message: &[u8],
    context: &[u8],
    random: &[u8],
    signature: &mut [u8],
) -> u32
    ensures { SignAnswers set_44 private_key.now (plain message.now context.now) random.now signature.old signature.new result }
{
    let random = checked_array!(random, 32);
    let input = Input::Message(message, context);
    status(MlDsa44::sign(private_key, random, &input, signature))
}

/// Tells whether a public key accepts the signature of a message under a context.
#[unsafe(no_mangle)]
pub extern "C" fn mldsa44_verify(
    public_key: &[u8],
    message: &[u8],
    context: &[u8],
    signature: &[u8],
) -> u32
    ensures { VerifyAnswers set_44 public_key.now (plain message.now context.now) signature.now result }
{
    let signed = Input::Message(message, context);
    verdict_status(MlDsa44::verify(public_key, &signed, signature))
}

/// Tells the same as `mldsa44_verify` by 1 for yes and 0 for everything else.
#[unsafe(no_mangle)]
pub extern "C" fn mldsa44_accepts(
    public_key: &[u8],
    message: &[u8],
    context: &[u8],
    signature: &[u8],
) -> u32
    ensures { AcceptsAnswers set_44 public_key.now (plain message.now context.now) signature.now result }
{
    accepted(mldsa44_verify(public_key, message, context, signature))
}

/// Signs a digest under a context, from 32 random bytes; `oid` names its hash function.
#[unsafe(no_mangle)]
pub extern "C" fn mldsa44_hash_sign(
    private_key: &[u8],
    digest: &[u8],
    context: &[u8],
    oid: &[u8],
    random: &[u8],
    signature: &mut [u8],
) -> u32
    ensures { SignAnswers set_44 private_key.now (hashed digest.now context.now oid.now) random.now signature.old signature.new result }
{
    let random = checked_array!(random, 32);
    let input = Input::Digest(digest, context, oid);
    status(MlDsa44::sign(private_key, random, &input, signature))
}

/// Tells whether a public key accepts the signature of a digest under a context; `oid` names its hash function.
#[unsafe(no_mangle)]
pub extern "C" fn mldsa44_hash_verify(
    public_key: &[u8],
    digest: &[u8],
    context: &[u8],
    oid: &[u8],
    signature: &[u8],
) -> u32
    ensures { VerifyAnswers set_44 public_key.now (hashed digest.now context.now oid.now) signature.now result }
{
    let signed = Input::Digest(digest, context, oid);
    verdict_status(MlDsa44::verify(public_key, &signed, signature))
}

/// Signs the hash `mu` of a framed message, which has 64 bytes, from 32 random bytes.
#[unsafe(no_mangle)]
pub extern "C" fn mldsa44_sign_mu(
    private_key: &[u8],
    mu: &[u8],
    random: &[u8],
    signature: &mut [u8],
) -> u32
    ensures { SignMuAnswers set_44 private_key.now mu.now random.now signature.old signature.new result }
{
    let mu = checked_array!(mu, 64);
    let random = checked_array!(random, 32);
    status(MlDsa44::sign(private_key, random, &Input::Mu(mu), signature))
}

/// Tells whether a public key accepts the signature of the hash `mu` of a framed message.
#[unsafe(no_mangle)]
pub extern "C" fn mldsa44_verify_mu(public_key: &[u8], mu: &[u8], signature: &[u8]) -> u32
    ensures { VerifyMuAnswers set_44 public_key.now mu.now signature.now result }
{
    let signed = checked_array!(mu, 64);
    verdict_status(MlDsa44::verify(public_key, &Input::Mu(signed), signature))
}

/// Computes the public key of a private one.
#[unsafe(no_mangle)]
pub extern "C" fn mldsa44_public_key(private_key: &[u8], public_key: &mut [u8]) -> u32
    ensures { PublicKeyAnswers set_44 private_key.now public_key.old public_key.new result }
{
    status(MlDsa44::public_key(private_key, public_key))
}

/// Tells whether bytes are a private key.
#[unsafe(no_mangle)]
pub extern "C" fn mldsa44_check_private_key(private_key: &[u8]) -> u32
    ensures { CheckPrivateKeyAnswers set_44 private_key.now result }
{
    status(MlDsa44::check_private_key(private_key))
}

/// Tells whether a private key is consistent.
#[unsafe(no_mangle)]
pub extern "C" fn mldsa44_is_whole(private_key: &[u8]) -> u32
    ensures { IsWholeAnswers set_44 private_key.now result }
{
    verdict_status(MlDsa44::is_whole(private_key))
}

/// Tells whether a private key and the public key that belongs to it are a pair.
#[unsafe(no_mangle)]
pub extern "C" fn mldsa44_is_pair(private_key: &[u8]) -> u32
    ensures { IsPairAnswers set_44 private_key.now result }
{
    verdict_status(MlDsa44::is_pair(private_key))
}

/// Begins a message in pieces that a public key is to verify, under a context.
#[unsafe(no_mangle)]
pub extern "C" fn mldsa44_mu_begin(public_key: &[u8], context: &[u8], state: &mut [u8]) -> u32
    ensures { Begins (public_key_length set_44) public_key.now (tr_of_public shake256_front public_key.now) context.now state.old state.new result }
{
    pieces::begin(SetName::MlDsa44, public_key, context, state)
}

/// Begins a message in pieces that a private key is to sign, under a context.
#[unsafe(no_mangle)]
pub extern "C" fn mldsa44_mu_begin_private(
    private_key: &[u8],
    context: &[u8],
    state: &mut [u8],
) -> u32
    ensures { Begins (private_key_length set_44) private_key.now (tr_of_private private_key.now) context.now state.old state.new result }
{
    pieces::begin_private(SetName::MlDsa44, private_key, context, state)
}

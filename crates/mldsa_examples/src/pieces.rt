//! A signature that is read from a file, and a message in two pieces, with no memory for the whole.
//!
//! Mutations that the contracts reject: the pieces exchanged; another context length; random bytes that are not drawn.
#![tactic(auto)]

ghost use Rattle.std.specs.Prelude.{◌≡◌, ◌≢◌, ◌↔◌, ◌++◌, length, IsTrue, MatchOption};
ghost use Rattle.fips204.specs.Framing.{plain, representative};
ghost use Rattle.fips204.specs.ParameterSets.{set_44};
ghost use Rattle.fips204.specs.Refusals.{Draws, sign_input, VerifiesInput};

use fips204::Fault;
use fips204::ml_dsa_44::{PrivateKey, PublicKey, SIG_LEN};
use fips204::traits::CryptoRngCore;
use fips204::xof::{Xof, hash};

/// What the signatures are for.
pub const CONTEXT: &[u8] = b"pieces";

/// The signature in a file's bytes, or none if they do not have the length of a signature.
pub fn signature_of(file: &[u8]) -> Option<[u8; SIG_LEN]>
    ensures { MatchOption result (length file.now ≢ SIG_LEN) (λ signature. signature ≡ file.now) }
{
    if file.len() != SIG_LEN {
        return None;
    }
    let mut signature = [0u8; SIG_LEN];
    signature.copy_from_slice(file);
    Some(signature)
}

/// The hash mu of a message in two pieces, under a key with this `tr`: a byte 0, the length of the context, the
/// context, and the message (FIPS 204, Algorithm 2).
pub fn joined_hash<H: Xof>(tr: &[u8; 64], first: &[u8], second: &[u8]) -> [u8; 64]
    ensures { result ≡ representative H.front tr.now (plain (first.now ++ second.now) CONTEXT.now) }
{
    hash::<H, 64>(&[tr, &[0, 6], CONTEXT, first, second])
}

/// Signs a message in two pieces with 32 bytes of the generator. The result is that of `try_sign_with_rng` for the
/// joined message, but for the error of the generator, `Fault::InternalRng`.
pub fn signed_joined<H: Xof, G: Xof, R: CryptoRngCore>(
    key: &PrivateKey<H, G>,
    rng: &mut R,
    first: &[u8],
    second: &[u8],
) -> Result<[u8; SIG_LEN], Fault>
    ensures { Draws R.gives R.refuses rng.old rng.new Fault.InternalRng
        (λ rnd. sign_input set_44 H.front G.front key.now rnd (plain (first.now ++ second.now) CONTEXT.now)) result }
{
    key.sign_mu(rng, &joined_hash::<H>(key.tr(), first, second), true)
}

/// Verifies the signature of a message in two pieces. The result is that of `verify` for the joined message.
pub fn accepts_joined<H: Xof, G: Xof>(
    key: &PublicKey<H, G>,
    first: &[u8],
    second: &[u8],
    signature: &[u8; SIG_LEN],
) -> bool
    ensures { IsTrue result ↔ VerifiesInput set_44 H.front G.front key.now signature.now (plain (first.now ++ second.now) CONTEXT.now) }
{
    key.verify_mu(&joined_hash::<H>(key.tr(), first, second), signature)
}

//! A licence checker: a token names a product, a last day and a customer, and is signed by the owner of a key.
//!
//! Mutations that the contracts reject: `today < token.last_day`; a spelling without the customer.
#![tactic(auto)]

ghost use Rattle.std.specs.Prelude.{◌≡◌, ◌≢◌, ◌↔◌, IsTrue};
ghost use Rattle.fips204.specs.SchemeLaws.{NamesCollision};
ghost use Rattle.fips204.specs.Framing.{frame};
ghost use Rattle.fips204.specs.ParameterSets.{set_44};
ghost use Rattle.mldsa_examples.specs.Licence.{spelling, IsToken, IsValid, SpellingIsOneToOne};

use fips204::laws;
use fips204::ml_dsa_44::{PublicKey, SIG_LEN};
use fips204::traits::Verifier;
use fips204::xof::Xof;

/// What the owner's signatures are for.
pub const CONTEXT: &[u8] = b"licence";

/// What a customer receives, together with its signature.
#[derive(Debug, Clone, Copy, PartialEq, Eq)]
pub struct Token {
    /// The product's number.
    pub product: u32,
    /// The last day on which it may be used, as a number of days.
    pub last_day: u32,
    /// The customer's name, ended by zeros.
    pub customer: [u8; 32],
}

/// The bytes that are signed for a token.
pub fn spelled(token: &Token) -> [u8; 40]
    ensures bytes { result ≡ spelling token.now }
    ensures range { IsToken token.now }
{
    let product: u32 = token.product;
    let last_day: u32 = token.last_day;
    let mut bytes = [0u8; 40];
    bytes[..4].copy_from_slice(&product.to_be_bytes());
    bytes[4..8].copy_from_slice(&last_day.to_be_bytes());
    bytes[8..].copy_from_slice(&token.customer);
    bytes
}

/// Two tokens with the same bytes are the same token.
#[tactic(auto, using(crate::proofs::Licences::one_token))]
pub fn one_spelling()
    ensures { SpellingIsOneToOne }
{}

/// Whether the token is signed by the owner of the key, and its last day has not passed.
pub fn licence_valid<H: Xof, G: Xof>(
    key: &PublicKey<H, G>,
    token: &Token,
    signature: &[u8; SIG_LEN],
    today: u32,
) -> bool
    ensures { IsTrue result ↔ IsValid H.front G.front key.now CONTEXT.now token.now signature.now today }
{
    today <= token.last_day && key.verify(&spelled(token), signature, CONTEXT)
}

/// Whether one signature is accepted for two tokens. If the tokens differ, that is a collision of the XOF
/// `H`, and the clause names the pair: its inputs come from the tokens, the key and the signature.
pub fn accepted_for_both<H: Xof, G: Xof>(
    key: &PublicKey<H, G>,
    first: &Token,
    second: &Token,
    signature: &[u8; SIG_LEN],
) -> bool
    ensures { IsTrue result → first.now ≢ second.now
        → NamesCollision set_44 H.front G.front key.now signature.now
        (frame 0 CONTEXT.now (spelling first.now)) (frame 0 CONTEXT.now (spelling second.now)) }
{
    laws::binding();
    one_spelling();
    key.verify(&spelled(first), signature, CONTEXT)
        && key.verify(&spelled(second), signature, CONTEXT)
}

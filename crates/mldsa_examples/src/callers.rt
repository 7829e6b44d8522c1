//! Functions that call the library at one parameter set, with clauses in the words of the definitions. They are proved
//! by search; those that ask whether a key accepts what another signs have files with their answers.
#![tactic(auto)]

ghost use Rattle.std.specs.Prelude.{◌≡◌, ◌≢◌, [], true, length, IsTrue, IfOk};
ghost use Rattle.fips204.specs.ParameterSets.{set_44, set_65, set_87};
ghost use Rattle.fips204.specs.Prepared.{IsWholePrepared, public_of_prepared};
ghost use Rattle.fips204.specs.Refusals.{generated, OnlySamplingLimit, sign_input};
ghost use Rattle.fips204.specs.Framing.{plain};
ghost use Rattle.fips204_base.specs.Encodings.{ArePublicParts, ArePrivateParts};
ghost use Rattle.fips204_base.specs.Vectors.{MatrixWithin};

use fips204::traits::{CryptoRngCore, DummyRng, KeyGen, RngError, Signer, pairwise_check};
use fips204::xof::Xof;
use fips204::{Fault, laws, ml_dsa_44, ml_dsa_65, ml_dsa_87};

/// Makes both keys of a seed at set 65. It returns no error but `SamplingLimit`.
#[tactic(auto, unfolding(fips204::specs::Refusals::generated))]
pub fn made_at_65<H: Xof, G: Xof>(
    xi: &[u8; 32],
) -> Result<(ml_dsa_65::PublicKey<H, G>, ml_dsa_65::PrivateKey<H, G>), Fault>
    ensures answer { result ≡ generated set_65 H.front G.front xi.now }
    ensures refusals { OnlySamplingLimit result }
{
    laws::refusals();
    ml_dsa_65::KG::<H, G>::keygen_from_seed(xi)
}

/// Signs a message under the empty context with any key that signs.
pub fn signed_by<K: Signer>(key: &K, rnd: &[u8; 32], message: &[u8]) -> Result<K::Signature, Fault>
    ensures { result ≡ K.signs key.now rnd.now (plain message.now []) }
{
    key.try_sign_with_seed(rnd, message, &[])
}

/// `signed_by` with a key of ML-DSA-87.
pub fn signed_by_87<H: Xof, G: Xof>(
    key: &ml_dsa_87::PrivateKey<H, G>,
    rnd: &[u8; 32],
    message: &[u8],
) -> Result<[u8; ml_dsa_87::SIG_LEN], Fault>
    ensures { result ≡ sign_input set_87 H.front G.front key.now rnd.now (plain message.now []) }
{
    signed_by(key, rnd, message)
}

/// Makes a pair of ML-DSA-87, signs with it and verifies.
pub fn checked_at_87<H: Xof, G: Xof>(xi: &[u8; 32], rnd: &[u8; 32]) -> Result<bool, Fault>
    ensures { IfOk result (λ verdict. IsTrue verdict) }
{
    pairwise_check::<ml_dsa_87::KG<H, G>>(xi, rnd, b"a message", &[])
}

/// Whether the public key that belongs to a consistent private key, both prepared, accepts its signature of a digest. It
/// does, if there is no error.
pub fn accepts_digest_it_signs_prepared<H: Xof>(
    sk: &ml_dsa_44::PreparedPrivateKey<H>,
    pk: &ml_dsa_44::PreparedPublicKey<H>,
    rnd: &[u8; 32],
    digest: &[u8],
    ctx: &[u8],
    oid: &[u8],
) -> Result<bool, Fault>
    requires whole { IsWholePrepared set_44 sk.now }
    requires pair { pk.now ≡ public_of_prepared set_44 sk.now }
    ensures { IfOk result (λ answer. answer ≡ true) }
{
    let signature = sk.try_hash_sign_with_seed(rnd, digest, ctx, oid)?;
    Ok(pk.hash_verify(digest, &signature, ctx, oid))
}

/// The same of framed messages.
pub fn accepts_framed_it_signs_prepared<H: Xof, R: CryptoRngCore>(
    sk: &ml_dsa_44::PreparedPrivateKey<H>,
    pk: &ml_dsa_44::PreparedPublicKey<H>,
    rng: &mut R,
    m: &[u8],
) -> Result<bool, Fault>
    requires whole { IsWholePrepared set_44 sk.now }
    requires pair { pk.now ≡ public_of_prepared set_44 sk.now }
    ensures { IfOk result (λ answer. answer ≡ true) }
{
    let signature = sk.sign_internal(rng, m, true)?;
    Ok(pk.verify_internal(m, &signature))
}

/// The same of the hashes of framed messages.
pub fn accepts_hash_it_signs_prepared<H: Xof, R: CryptoRngCore>(
    sk: &ml_dsa_44::PreparedPrivateKey<H>,
    pk: &ml_dsa_44::PreparedPublicKey<H>,
    rng: &mut R,
    mu: &[u8; 64],
) -> Result<bool, Fault>
    requires whole { IsWholePrepared set_44 sk.now }
    requires pair { pk.now ≡ public_of_prepared set_44 sk.now }
    ensures { IfOk result (λ answer. answer ≡ true) }
{
    let signature = sk.sign_mu(rng, mu, true)?;
    Ok(pk.verify_mu(mu, &signature))
}

/// The hash that a prepared public key of ML-DSA-65 keeps; the key's parts and its matrix are in range.
pub fn hash_of_prepared_public<H: Xof>(key: &ml_dsa_65::PreparedPublicKey<H>) -> [u8; 64]
    ensures hash { result ≡ key.now.parts.tr }
    ensures parts { ArePublicParts 6 key.now.parts }
    ensures matrix { MatrixWithin 8380416 key.now.matrix }
{
    *key.tr()
}

/// The same of a prepared private key.
pub fn hash_of_prepared_private<H: Xof>(key: &ml_dsa_65::PreparedPrivateKey<H>) -> [u8; 64]
    ensures hash { result ≡ key.now.parts.tr }
    ensures parts { ArePrivateParts 4 6 5 key.now.parts }
    ensures matrix { MatrixWithin 8380416 key.now.matrix }
{
    *key.tr()
}

/// Asks `DummyRng` for bytes. Those of another number than 32 stay as they were.
pub fn asked_of_dummy(rng: &mut DummyRng, out: &mut [u8]) -> Result<(), RngError>
    ensures { length out.old ≢ 32 → out.new ≡ out.old }
{
    rng.try_fill_bytes(out)
}

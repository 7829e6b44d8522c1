//! Laws about the definitions, for proofs in a crate of your own. A call of one of these functions computes
//! nothing: it states the law.
//!
//! In the laws of transforms (FIPS 204, section 2.5) polynomials are functions from an index to a residue modulo `q`.
#![tactic(auto)]

ghost use Rattle.fips204_base.specs.Transforms.{ProductOfTransforms, InverseOfTransform};
ghost use Rattle.fips204.specs.Completeness.{SignedIsAccepted, BytesTellKeys};
ghost use Rattle.fips204.specs.Constants.{ConstantsStand, LengthsStand};
ghost use Rattle.fips204.specs.LongerFronts.{CounterFrontsArePrefixes, LongerFrontsKeep};
ghost use Rattle.fips204.specs.SchemeLaws.{FramingIsOneToOne, SignatureFixesOne, HooksStandForInput};
ghost use Rattle.fips204.specs.SchemeLaws.{SignatureBindsInput, SignatureBindsHash, SignatureBindsKey};
ghost use Rattle.fips204.specs.SchemeLaws.{OtherHintCollides, HintGivesHighBits, HintStaysNear, HighBitsStay};
ghost use Rattle.fips204.specs.SchemeLaws.{ChallengeProductIsSmall, PackingIsUndone, SignatureHasOneSpelling};
ghost use Rattle.fips204.specs.SchemeLaws.{HintHasOneSpelling, RefusesOnly};
ghost use Rattle.fips204.specs.Prepared.{PreparedAnswersAsPlain};
ghost use Rattle.fips204.specs.PreparedBytes.{PreparedThroughBytes};
ghost use Rattle.fips204_base.specs.Streams.{XOF};
ghost use Rattle.fips204.specs.ParameterSets.{ParameterSet, IsSet, set_44, set_65, set_87};
ghost use Rattle.fips204.specs.Sets.{set_of};
ghost use Rattle.std.specs.Prelude.{◌≡◌, ◌≤◌, ℕ, List, length};

use crate::types::{ML_DSA_44, ML_DSA_65, ML_DSA_87, Params};
use crate::xof::Xof;

/// The public constants have the standard's values: the modulus and the root of unity, whose powers are the
/// table of the butterflies; zeros; limits; object identifiers; the lengths of keys and signatures.
pub fn constants()
    ensures values { ConstantsStand }
    ensures lengths { LengthsStand }
{}

/// The numbers of `ML_DSA_44`, `ML_DSA_65` and `ML_DSA_87`, in this order: each has the row of its name (FIPS 204,
/// Table 1). A clause of `constants` cannot name them.
pub fn rows() -> (Params, Params, Params)
    ensures { (set_of result.0 ≡ set_44) × (set_of result.1 ≡ set_65) × (set_of result.2 ≡ set_87) }
{
    (ML_DSA_44, ML_DSA_65, ML_DSA_87)
}

/// The numbers of a `Params` are those of one of the three sets, as the other laws ask.
pub fn known_set(p: &Params)
    ensures { IsSet (set_of p.now) }
{}

/// The inverse transform of the product of two transforms, value by value, is the product of the two
/// polynomials modulo `X^256 + 1` and modulo `q`.
pub fn product_of_transforms()
    ensures { ProductOfTransforms }
{}

/// The inverse transform undoes the transform, and the transform undoes its inverse, modulo `q`.
pub fn inverse_of_transform()
    ensures { InverseOfTransform }
{}

/// `UseHint(MakeHint(z, r), r)` is `HighBits(r + z)`, for residues `r` and `z` if the centred value of `z`
/// is at most gamma2 in absolute value.
pub fn use_hint_of_make_hint()
    ensures { HintGivesHighBits }
{}

/// The centred value of `r - 2 gamma2 UseHint(h, r)` is at most gamma2 in absolute value if `h` is 0, and
/// at most 2 gamma2 + 1 if it is 1.
pub fn use_hint_distance()
    ensures { HintStaysNear }
{}

/// `HighBits(r + s)` is `HighBits(r)`, for residues `r` and `s` if the centred value of `s` is at most beta in
/// absolute value, and `LowBits(r)` is below gamma2 - beta.
pub fn high_bits_stay()
    ensures { HighBitsStay }
{}

/// A challenge `c` times a polynomial `s` of norm at most eta has no coefficient above tau eta in absolute value,
/// centred.
pub fn challenge_product_bound()
    ensures { ChallengeProductIsSmall }
{}

/// Packing and unpacking undo each other, for coefficients in `[-a, b]`: a polynomial in this range is the one that its
/// bytes hold, and bytes, as many as a polynomial has, are those of the polynomial that they hold, in range or not.
pub fn packing()
    ensures { (a b : ℕ) → a ≤ 1048575 → 1 ≤ b → b ≤ 1048575 → PackingIsUndone a b }
{}

/// Two signatures with the same `c_tilde`, response and hint are the same bytes, and bytes decode to one `c_tilde`,
/// one response and one hint.
pub fn signature_spelling()
    ensures { SignatureHasOneSpelling }
{}

/// A hint with at most omega ones has exactly one spelling, and bytes spell at most one hint.
pub fn hint_spelling()
    ensures { HintHasOneSpelling }
{}

/// Framing is one to one: two messages or digests that break no condition on context, identifier and digest have
/// equal framed messages only if they have the same mode, the same context and the same message, or the same
/// mode, context, identifier and digest.
pub fn framing()
    ensures { FramingIsOneToOne }
{}

/// What the hooks sign and verify. Where an input breaks no condition, signing its hash mu, made with the private key's
/// `tr`, or its framed message, is signing that input; and verifying its mu, made with the public key's `tr`, or its
/// framed message, is verifying that input.
pub fn hooks()
    ensures { (p : ParameterSet) (H G : XOF) → HooksStandForInput p H G }
{}

/// A signature fixes one encoded `w1` under a key, whatever was signed. One signature for two inputs gives a collision
/// of `H`: if a public key accepts one signature for two inputs that differ, both messages or digests, or both framed
/// messages, either the framed messages collide in the 64 bytes of mu, or the two values of mu, each followed by this
/// `w1`, collide in the bytes of `c_tilde`. Two different values of mu, each given or that of an input, collide so too.
///
/// One signature under two keys gives a collision too: if two keys that were decoded from bytes accept one
/// signature of such inputs, they are the same key and it is the same input; or the bytes of the keys collide
/// in the 64 bytes of `tr`, or the framed messages, each after its `tr`, in those of mu, or the values of mu, each
/// followed by the `w1` of its key, in those of `c_tilde`.
///
/// So do two signatures of one input under one key that differ in their hints alone: mu, followed by the `w1` of each,
/// collides in the bytes of `c_tilde`.
pub fn binding()
    ensures fixed { SignatureFixesOne }
    ensures inputs { SignatureBindsInput }
    ensures hashes { SignatureBindsHash }
    ensures keys { SignatureBindsKey }
    ensures hints { OtherHintCollides }
{}

/// A signature made with a consistent private key verifies under the public key derived from it. The key pair of a seed
/// is such a pair: the private key is consistent, the public key is the derived one, and each is the only key that its
/// bytes decode to. This holds for messages, digests and the hashes of the hooks, and for any random bytes.
pub fn signed_is_accepted()
    ensures { SignedIsAccepted }
{}

/// Keys in range with the same bytes are the same key: two private keys, and two public keys with the same `tr`.
pub fn key_bytes()
    ensures { (p : ParameterSet) → IsSet p → BytesTellKeys p }
{}

/// A prepared key signs and verifies as the key that it was prepared from does: messages, digests, the hashes of the
/// hooks, and each entry of `sign_each` and `verify_each`. It is consistent if and only if the plain key is. If a
/// public key is derived from the plain key, preparing it gives the public key that belongs to the prepared one.
pub fn prepared_keys()
    ensures { (p : ParameterSet) (H G : List ℕ → List ℕ) → PreparedAnswersAsPlain p H G }
{}

/// The bytes of a key that was prepared have the length of the parameter set's prepared keys, and they tell it: what is
/// read from them is that key and nothing else.
pub fn prepared_bytes()
    ensures { (p : ParameterSet) (G : XOF) → IsSet p → PreparedThroughBytes p G }
{}

/// Which errors the calls have. Making a key pair, deriving a public key and preparing a key return no error but
/// `SamplingLimit`. Signing also returns `TooManyAttempts`, and of a message or a digest also the first error of
/// context, object identifier and digest.
pub fn refusals()
    ensures { (p : ParameterSet) (H G : List ℕ → List ℕ) → RefusesOnly p H G }
{}

/// Fewer blocks of an XOF in counter mode are a prefix of more. So the outputs of `Sha256Ctr` are prefixes of those of
/// `Sha256CtrLong`, those of `Sha512Ctr` prefixes of those of `Sha512CtrLong`, and likewise for XOFs of your own.
pub fn counter_fronts()
    ensures { CounterFrontsArePrefixes }
{}

/// Longer outputs keep results. If each output of `H` is a prefix of the matching output of `LongerH`, and each output
/// of `G` of that of `LongerG`, then a matrix or an entry of it, a small polynomial or a challenge that the first pair
/// samples is also sampled by the second. So these stay: a key pair, a derived public key, a prepared key, a signature,
/// the error `TooManyAttempts`, a true of a verifying call, and its false if the matrix of the key and the challenge
/// of the signature exist, if the bytes spell no hint, if `z` is too large, or if a condition on context,
/// object identifier and digest is broken. This holds for messages, digests and the hashes of the hooks.
///
/// Only the error `SamplingLimit`, and the false of a verifying call that comes from a reached limit, may change.
pub fn longer_front<H: Xof, G: Xof, LongerH: Xof, LongerG: Xof>()
    ensures { LongerFrontsKeep H.front G.front LongerH.front LongerG.front }
{}

/// The same for any functions that give outputs, the shorter ones of `H` at least 4096 bytes long: `LongerH` and
/// `LongerG` may give as many bytes as one likes.
pub fn longer_functions()
    ensures { (H G LongerH LongerG : List ℕ → List ℕ) → ((x : List ℕ) → 4096 ≤ length (H x))
        → LongerFrontsKeep H G LongerH LongerG }
{}

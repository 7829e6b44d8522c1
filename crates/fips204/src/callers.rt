//! Never called: a weakened law, or a weakened clause of a generic call, must break one of these proofs.
#![tactic(auto)]

ghost use Rattle.std.specs.Prelude.{◌≡◌, ◌≢◌, ◌↔◌, ◌<◌, ◌≤◌, ◌+◌, ◌*◌, ◌%◌, ◌^◌, ◌++◌, ℕ, pos, ◌-ℤ◌, nat_abs, length};
ghost use Rattle.std.specs.Prelude.{List, [], true, false, Some, None, Ok, Err, IfOk, IfSome, IsTrue};
ghost use Rattle.std.specs.Prelude.{replicate, slice_index_or, ◌-◌};
ghost use Rattle.fips204.specs.Framing.{plain, hashed, Input, frame, framed, represented, representative};
ghost use Rattle.fips204.specs.Keys.{IsWhole};
ghost use Rattle.fips204.specs.LongerFronts.{IsVerdictDecided};
ghost use Rattle.fips204.specs.ParameterSets.{ParameterSet, set_44};
ghost use Rattle.fips204.specs.Prepared.{sign_prepared, VerifiesPrepared, PreparedPrivate, PreparedPublic};
ghost use Rattle.fips204.specs.Prepared.{prepared_private, prepared_public};
ghost use Rattle.fips204.specs.PreparedBytes.{IsPreparedPublicOf, IsPreparedPrivateOf, prepared_public_bytes};
ghost use Rattle.fips204.specs.PreparedBytes.{prepared_private_bytes};
ghost use Rattle.fips204.specs.Refusals.{input_fault, VerifiesInput, sign_input};
ghost use Rattle.fips204.specs.SchemeLaws.{NamesCollision, framing};
ghost use Rattle.fips204_base.specs.Encodings.{PublicParts, IsSignature, Spells, all_ones, hint_bytes, PrivateParts};
ghost use Rattle.fips204_base.specs.Encodings.{ArePublicParts, ArePrivateParts, public_key_bytes};
ghost use Rattle.fips204_base.specs.Encodings.{private_key_bytes};
ghost use Rattle.fips204_base.specs.Residues.{centred, coefficients, norm};
ghost use Rattle.fips204_base.specs.Rounding.{high_bits, low_bits, make_hint, use_hint};
ghost use Rattle.fips204_base.specs.Sampling.{challenge};
ghost use Rattle.fips204_base.specs.Streams.{sha256_front, sha256_long_front, sha512_front};
ghost use Rattle.fips204_base.specs.Streams.{sha512_long_front, ArePrefixes};
ghost use Rattle.fips204_base.specs.Transforms.{bit_reversed, inverse_transform, pointwise, product, transform};
ghost use Rattle.fips204_base.specs.Vectors.{IsVector, polynomial_of};
ghost use Rattle.fips204_base.specs.declared.fault.Fault.{Fault};
ghost use Rattle.fips204_base.specs.declared.helpers.zeta_table.TheConstants.{ZETA_TABLE_MONT};
ghost use Rattle.fips204_base.specs.declared.types.R.{R};

use crate::laws::{
    binding, challenge_product_bound, constants, counter_fronts, framing, high_bits_stay,
    hint_spelling, hooks, inverse_of_transform, key_bytes, known_set, longer_front,
    longer_functions, packing, prepared_bytes, prepared_keys, product_of_transforms,
    signature_spelling, signed_is_accepted, use_hint_distance, use_hint_of_make_hint,
};
use crate::ml_dsa::key_gen_internal;
use crate::ml_dsa_44::{
    K, L, PK_LEN, PreparedPrivateKey, PreparedPublicKey, PrivateKey, PublicKey, SIG_LEN,
};
use crate::traits::{CryptoRngCore, KeyGen, SerDes, Signer, Verifier};
use crate::types::{ML_DSA_44, Params};
use crate::xof::{Fill, Sha256Ctr, Sha256CtrLong, Sha512Ctr, Sha512CtrLong, Xof};
use fips204_base::Fault;
use fips204_base::conversion::{simple_bit_pack, simple_bit_unpack};

/// Whether the derived public key of a consistent private key, prepared, accepts what the private key signs, prepared.
/// It does, if there is no error.
pub(crate) fn prepared_accepts<H: Xof, G: Xof>(
    private: &PrivateKey<H, G>,
    rnd: &[u8; 32],
    message: &[u8],
    ctx: &[u8],
) -> Result<bool, Fault>
    requires { IsWhole set_44 G.front private.now }
    ensures { IfOk result (λ answer. answer ≡ true) }
{
    prepared_keys();
    let public = private.get_public_key()?.prepare()?;
    let signature = private.prepare()?.try_sign_with_seed(rnd, message, ctx)?;
    Ok(public.verify(message, &signature, ctx))
}

/// Whether both keys of a seed, each read from its bytes, go together: the public one accepts what the private one
/// signs. It does, if there is no error.
pub(crate) fn stored_pair_accepts<H: Xof, G: Xof>(
    xi: &[u8; 32],
    rnd: &[u8; 32],
    message: &[u8],
    ctx: &[u8],
) -> Result<bool, Fault>
    ensures { IfOk result (λ answer. answer ≡ true) }
{
    signed_is_accepted();
    let (public, private) = key_gen_internal::<K, L, PK_LEN, H, G>(&ML_DSA_44, xi)?;
    let public = PublicKey::<H, G>::try_from_bytes(public.into_bytes())?;
    let private = PrivateKey::<H, G>::try_from_bytes(private.into_bytes())?;
    let signature = private.try_sign_with_seed(rnd, message, ctx)?;
    Ok(public.verify(message, &signature, ctx))
}

/// Whether both keys of any scheme, made with a generator's bytes and each read from its bytes, go together: the public
/// one accepts what the private one signs of a digest, with such bytes too. It does, if there is no error.
pub(crate) fn drawn_keys_accept<
    K,
    R: CryptoRngCore,
    const PK: usize,
    const SK: usize,
    const SIG: usize,
>(rng: &mut R, digest: &[u8], ctx: &[u8], oid: &[u8]) -> Result<bool, Fault>
where
    K: KeyGen,
    K::PublicKey: SerDes<ByteArray = [u8; PK]> + Drop,
    K::PrivateKey: SerDes<ByteArray = [u8; SK]> + Signer<Signature = [u8; SIG]> + Drop,
    ensures { IfOk result (λ answer. answer ≡ true) }
{
    let (public, private) = K::try_keygen_with_rng(rng)?;
    let public = K::PublicKey::try_from_bytes(public.into_bytes())?;
    let private = K::PrivateKey::try_from_bytes(private.into_bytes())?;
    let signature = private.try_hash_sign_with_rng(rng, digest, ctx, oid)?;
    Ok(public.hash_verify(digest, &signature, ctx, oid))
}

/// Whether the public key that belongs to a consistent private key of any kind accepts its signature of a digest. It
/// does, if there is no error.
pub(crate) fn derived_accepts_digest<K: Signer>(
    key: &K,
    rnd: &[u8; 32],
    digest: &[u8],
    ctx: &[u8],
    oid: &[u8],
) -> Result<bool, Fault>
where
    K::PublicKey: Drop,
    K::Signature: Drop,
    requires { K.whole key.now }
    ensures { IfOk result (λ answer. answer ≡ true) }
{
    let public = key.get_public_key()?;
    let signature = key.try_hash_sign_with_seed(rnd, digest, ctx, oid)?;
    Ok(public.hash_verify(digest, &signature, ctx, oid))
}

/// The same of a message that is signed with a generator's bytes.
pub(crate) fn derived_accepts_drawn<K: Signer, R: CryptoRngCore>(
    key: &K,
    rng: &mut R,
    message: &[u8],
    ctx: &[u8],
) -> Result<bool, Fault>
where
    K::PublicKey: Drop,
    K::Signature: Drop,
    requires { K.whole key.now }
    ensures { IfOk result (λ answer. answer ≡ true) }
{
    let public = key.get_public_key()?;
    let signature = key.try_sign_with_rng(rng, message, ctx)?;
    Ok(public.verify(message, &signature, ctx))
}

/// Signs under a context that is too long, with a key of any kind: rejected for that, whatever the key is.
pub(crate) fn long_context_refused<K: Signer>(
    key: &K,
    rnd: &[u8; 32],
    message: &[u8],
    ctx: &[u8],
) -> Result<K::Signature, Fault>
    requires { 255 < length ctx.now }
    ensures { result ≡ Err Fault.SignCtx }
{
    key.try_sign_with_seed(rnd, message, ctx)
}

/// Verifies under a context that is too long, with a key of any kind: no, whatever the key and the signature are.
pub(crate) fn long_context_rejected<K: Verifier>(
    key: &K,
    message: &[u8],
    signature: &K::Signature,
    ctx: &[u8],
) -> bool
    requires { 255 < length ctx.now }
    ensures { result ≡ false }
{
    key.verify(message, signature, ctx)
}

/// Bytes of a key of any kind, decoded and encoded again.
pub(crate) fn encoded_again<K: SerDes + Drop>(bytes: K::ByteArray) -> Result<K::ByteArray, Fault>
where
    K::ByteArray: Drop,
    ensures { IfOk result (λ again. again ≡ bytes) }
{
    Ok(K::try_from_bytes(bytes)?.into_bytes())
}

/// Bytes, unpacked and packed: they are as they were.
pub(crate) fn unpacked_and_packed(bytes: &[u8; 320]) -> Option<[u8; 320]>
    ensures { IfSome result (λ again. again ≡ bytes.now) }
{
    packing();
    let w = simple_bit_unpack(bytes, 1023)?;
    let mut again = [0u8; 320];
    simple_bit_pack(&w, 1023, &mut again);
    Some(again)
}

/// The second of two messages, signed by `sign_each`.
pub(crate) fn second_of_two<H: Xof>(
    key: &PreparedPrivateKey<H>,
    seeds: &[[u8; 32]; 2],
    first: &[u8],
    second: &[u8],
    ctx: &[u8],
) -> Result<[u8; SIG_LEN], Fault>
    ensures { result ≡ sign_prepared set_44 H.front key.now (slice_index_or seeds.now 1 []) (plain second.now ctx.now) }
{
    let mut answers = [Err(Fault::SamplingLimit); 2];
    key.sign_each(seeds, &[first, second], ctx, &mut answers);
    answers[1]
}

/// Whether one signature is accepted for two messages, over XOFs of one byte. Each two inputs collide there, so
/// what the clause says of a true is that the signature fixes its w1 under the key.
pub(crate) fn accepted_for_both_over_one_byte(
    key: &PublicKey<Fill<0x55>, Fill<0x55>>,
    first: &[u8],
    second: &[u8],
    signature: &[u8; SIG_LEN],
    ctx: &[u8],
) -> bool
    ensures { IsTrue result → first.now ≢ second.now
        → NamesCollision set_44 (λ _. replicate 4096 0x55) (λ _. replicate 4096 0x55) key.now signature.now
        (frame 0 ctx.now first.now) (frame 0 ctx.now second.now) }
{
    binding();
    key.verify(first, signature, ctx) && key.verify(second, signature, ctx)
}

/// Two messages or digests that break no condition are the same, part by part, if their framed messages are; and no
/// message is framed as a digest is.
pub(crate) fn one_message()
    ensures messages { (m n c d : List ℕ) → input_fault (plain m c) ≡ None → input_fault (plain n d) ≡ None
        → frame 0 c m ≡ frame 0 d n → (m ≡ n) × (c ≡ d) }
    ensures digests { (h i c d o p : List ℕ) → input_fault (hashed h c o) ≡ None → input_fault (hashed i d p) ≡ None
        → frame 1 c (o ++ h) ≡ frame 1 d (p ++ i) → (h ≡ i) × (c ≡ d) × (o ≡ p) }
    ensures kinds { (m h c d o : List ℕ) → input_fault (plain m c) ≡ None → input_fault (hashed h d o) ≡ None
        → frame 0 c m ≢ frame 1 d (o ++ h) }
{
    framing();
}

/// Parts have one spelling as a signature of ML-DSA-44, and bytes have one c_tilde, one z and one hint.
pub(crate) fn one_signature()
    ensures bytes { (first second c_tilde : List ℕ) (z h : List R) → IsSignature 131072 80 4 4 32 first c_tilde z h
        → IsSignature 131072 80 4 4 32 second c_tilde z h → first ≡ second }
    ensures parts { (bytes c_tilde other : List ℕ) (z h y g : List R) → IsSignature 131072 80 4 4 32 bytes c_tilde z h
        → IsSignature 131072 80 4 4 32 bytes other y g → (c_tilde ≡ other) × (z ≡ y) × (h ≡ g) }
{
    signature_spelling();
}

/// A hint of ML-DSA-44 has a spelling, and one alone, and bytes spell one hint.
pub(crate) fn one_hint()
    ensures spelled { (h : List R) → IsVector 4 0 1 h → length (all_ones h) ≤ 80 → Spells 80 4 h (hint_bytes 80 h) }
    ensures bytes { (first second : List ℕ) (h : List R) → Spells 80 4 h first → Spells 80 4 h second → first ≡ second }
    ensures hints { (bytes : List ℕ) (h g : List R) → Spells 80 4 h bytes → Spells 80 4 g bytes → h ≡ g }
{
    hint_spelling();
}

/// A verdict over the XOFs in counter mode that is decided stays over the longer ones.
pub(crate) fn decided_verdict()
    ensures { (pk : PublicParts) (input : Input) (signature : List ℕ)
        → IsVerdictDecided set_44 sha256_front sha512_front pk signature
        → VerifiesInput set_44 sha256_long_front sha512_long_front pk signature input
        → VerifiesInput set_44 sha256_front sha512_front pk signature input }
{
    counter_fronts();
    longer_front::<Sha256Ctr, Sha512Ctr, Sha256CtrLong, Sha512CtrLong>();
}

/// Whether the second of two signatures is accepted, by `verify_each`.
pub(crate) fn second_verdict<H: Xof>(
    key: &PreparedPublicKey<H>,
    first: &[u8],
    second: &[u8],
    signatures: &[[u8; SIG_LEN]; 2],
    ctx: &[u8],
) -> bool
    ensures { IsTrue result
        ↔ VerifiesPrepared set_44 H.front key.now (slice_index_or signatures.now 1 []) (plain second.now ctx.now) }
{
    let mut answers = [false; 2];
    key.verify_each(&[first, second], signatures, ctx, &mut answers);
    answers[1]
}

/// How many columns a parameter set with six rows has: its numbers are those of one of the three.
pub(crate) fn columns_of_six_rows(p: &Params) -> usize
    requires { p.now.k ≡ 6 }
    ensures { result ≡ 5 }
{
    known_set(p);
    p.l
}

/// The table of the butterflies, place by place.
pub(crate) fn powers_by_place()
    ensures { (m : ℕ) → m < 256
        → slice_index_or ZETA_TABLE_MONT m (pos 0) ≡ pos (1753 ^ bit_reversed m % 8380417 * 4294967296 % 8380417) }
{
    constants();
}

/// The last coefficient of a product, and of a polynomial, by way of transforms.
pub(crate) fn last_by_transforms()
    ensures product { (a b : ℕ → ℕ) → inverse_transform (pointwise (transform a) (transform b)) 255 ≡ product a b 255 }
    ensures back { (w : ℕ → ℕ) → (inverse_transform (transform w) 255 ≡ w 255 % 8380417)
        × (transform (inverse_transform w) 255 ≡ w 255 % 8380417) }
{
    product_of_transforms();
    inverse_of_transform();
}

/// Hints and high bits of ML-DSA-44, up to the bounds of the laws.
pub(crate) fn rounding_of_44()
    ensures hint { (z r : ℕ) → r < 8380417 → z < 8380417 → nat_abs (centred (pos z)) ≤ 95232
        → use_hint 95232 (make_hint 95232 z r) r ≡ high_bits 95232 ((r + z) % 8380417) }
    ensures without { (r : ℕ) → r < 8380417
        → nat_abs (centred (pos r -ℤ pos (use_hint 95232 false r * (2 * 95232)))) ≤ 95232 }
    ensures near { (r : ℕ) → r < 8380417
        → nat_abs (centred (pos r -ℤ pos (use_hint 95232 true r * (2 * 95232)))) ≤ 2 * 95232 + 1 }
    ensures same { (r s : ℕ) → r < 8380417 → s < 8380417 → nat_abs (centred (pos s)) ≤ 78
        → nat_abs (low_bits 95232 r) + 78 < 95232 → high_bits 95232 ((r + s) % 8380417) ≡ high_bits 95232 r }
{
    use_hint_of_make_hint();
    use_hint_distance();
    high_bits_stay();
}

/// A challenge of ML-DSA-44 times a polynomial of norm 2.
pub(crate) fn product_of_44()
    ensures { (front : List ℕ) (c s : R) → challenge 39 front ≡ Some c → norm s.0 ≤ 2
        → norm (polynomial_of (λ n. pos (product (coefficients c.0) (coefficients s.0) n))).0 ≤ 78 }
{
    challenge_product_bound();
}

/// Keys with the same bytes.
pub(crate) fn one_key()
    ensures private { (one two : PrivateParts) → ArePrivateParts 2 4 4 one → ArePrivateParts 2 4 4 two
        → private_key_bytes 2 one ≡ private_key_bytes 2 two → one ≡ two }
    ensures public { (one two : PublicParts) → ArePublicParts 4 one → ArePublicParts 4 two → one.tr ≡ two.tr
        → public_key_bytes one.rho one.t1 ≡ public_key_bytes two.rho two.t1 → one ≡ two }
{
    key_bytes();
}

/// How many bytes a prepared key has, and what is read from them.
pub(crate) fn prepared_key_bytes<G: Xof>()
    ensures public_length { (pk : PublicParts) (key : PreparedPublic) → ArePublicParts 4 pk
        → prepared_public set_44 G.front pk ≡ Ok key → length (prepared_public_bytes key) ≡ 17760 }
    ensures private_length { (sk : PrivateParts) (key : PreparedPrivate) → ArePrivateParts 2 4 4 sk
        → prepared_private set_44 G.front sk ≡ Ok key → length (prepared_private_bytes 2 key) ≡ 18944 }
    ensures public { (pk : PublicParts) (key other : PreparedPublic) → ArePublicParts 4 pk
        → prepared_public set_44 G.front pk ≡ Ok key
        → IsPreparedPublicOf 4 4 (prepared_public_bytes key) other ↔ (other ≡ key) }
    ensures private { (sk : PrivateParts) (key other : PreparedPrivate) → ArePrivateParts 2 4 4 sk
        → prepared_private set_44 G.front sk ≡ Ok key
        → IsPreparedPrivateOf 2 4 4 (prepared_private_bytes 2 key) other ↔ (other ≡ key) }
{
    prepared_bytes();
}

/// What the hooks return for the mu and for the framed message of an input.
pub(crate) fn hook_parts()
    ensures signed_mu { (p : ParameterSet) (H G : List ℕ → List ℕ) (sk : PrivateParts) (rnd : List ℕ) (input : Input)
        → input_fault input ≡ None
        → sign_input p H G sk rnd (represented (representative H sk.tr input)) ≡ sign_input p H G sk rnd input }
    ensures judged_mu { (p : ParameterSet) (H G : List ℕ → List ℕ) (pk : PublicParts) (signature : List ℕ)
        (input : Input) → input_fault input ≡ None
        → VerifiesInput p H G pk signature (represented (representative H pk.tr input))
        ↔ VerifiesInput p H G pk signature input }
    ensures signed_framed { (p : ParameterSet) (H G : List ℕ → List ℕ) (sk : PrivateParts) (rnd : List ℕ)
        (input : Input) (m : List ℕ) → input_fault input ≡ None → framing input ≡ Some m
        → sign_input p H G sk rnd (framed m) ≡ sign_input p H G sk rnd input }
    ensures judged_framed { (p : ParameterSet) (H G : List ℕ → List ℕ) (pk : PublicParts) (signature : List ℕ)
        (input : Input) (m : List ℕ) → input_fault input ≡ None → framing input ≡ Some m
        → VerifiesInput p H G pk signature (framed m) ↔ VerifiesInput p H G pk signature input }
{
    hooks();
}

/// A signature stays under outputs that are no `Xof`'s.
pub(crate) fn kept_by_functions<H: Xof, G: Xof>()
    ensures { (longer other : List ℕ → List ℕ) → ArePrefixes H.front longer → ArePrefixes G.front other
        → (sk : PrivateParts) (rnd signature : List ℕ) (input : Input)
        → sign_input set_44 H.front G.front sk rnd input ≡ Ok signature → sign_input set_44 longer other sk rnd input
        ≡ Ok signature }
{
    longer_functions();
}

//! Never called: a law or a definition that says less must break one of these proofs.
#![tactic(auto)]

ghost use Rattle.std.specs.Prelude.{◌≡◌, ◌<◌, ◌+◌, ◌*◌, ◌-ℤ◌, ◌<ℤ◌, ℕ, pos, ◌↔◌, ⊤};
ghost use Rattle.std.specs.Prelude.{Bool, List, None, Some, Err, Result, drop, length, take};
ghost use Rattle.std.specs.List.{All, Any};
ghost use Rattle.fips204_base.specs.Encodings.{PublicParts, PrivateParts, IsPublicKeyOf, IsPrivateKeyOf, IsSignature};
ghost use Rattle.fips204_base.specs.Encodings.{public_key_bytes, private_key_bytes, signature_bytes};
ghost use Rattle.fips204_base.specs.Packing.{unpacked, width};
ghost use Rattle.fips204_base.specs.declared.fault.Fault.TheVariants.{KeyRange};
ghost use Rattle.fips204_base.specs.declared.types.R.{R};
ghost use Rattle.fips204_base.specs.Streams.{Bytes, XOF};
ghost use Rattle.fips204.specs.Framing.{Input, framed, represented, representative};
ghost use Rattle.fips204.specs.ParameterSets.{ParameterSet, IsSet, c_tilde_length, public_key_length, private_key_length, signature_length};
ghost use Rattle.fips204.specs.Refusals.{input_fault};
ghost use Rattle.fips204.specs.SchemeLaws.{framing};
ghost use Rattle.fips204_shake.specs.Bytes.{Signs, Judges, Checks};
ghost use Rattle.fips204_shake.specs.KeyRange.{HasFieldAbove};
ghost use Rattle.fips204_shake.specs.declared.bytes.refusal.Refusal.{Refusal};
ghost use Rattle.fips204_shake.specs.declared.bytes.refusal.Refusal.TheVariants.{Library};

use crate::bytes::laws::{framed_stands_for_input, key_range, mu_stands_for_input, one_spelling};

/// What is returned of the mu and of the framed message of an input.
pub(crate) fn mu_parts()
    ensures signed { (p : ParameterSet) (H G : XOF) (sk random : Bytes) (input : Input) (old new : Bytes) (answer : Result ⊤ Refusal) → input_fault input ≡ None
        → Signs p H G sk random (represented (representative H (take 64 (drop 64 sk)) input)) old new answer ↔ Signs p H G sk random input old new answer }
    ensures judged { (p : ParameterSet) (H G : XOF) (pk : Bytes) (input : Input) (signature : Bytes) (answer : Result Bool Refusal) → input_fault input ≡ None
        → Judges p H G pk (represented (representative H (take 64 (H pk)) input)) signature answer ↔ Judges p H G pk input signature answer }
    ensures framed_signed { (p : ParameterSet) (H G : XOF) (sk random : Bytes) (input : Input) (m old new : Bytes) (answer : Result ⊤ Refusal)
        → input_fault input ≡ None → framing input ≡ Some m → Signs p H G sk random (framed m) old new answer ↔ Signs p H G sk random input old new answer }
    ensures framed_judged { (p : ParameterSet) (H G : XOF) (pk : Bytes) (input : Input) (m signature : Bytes) (answer : Result Bool Refusal)
        → input_fault input ≡ None → framing input ≡ Some m → Judges p H G pk (framed m) signature answer ↔ Judges p H G pk input signature answer }
{
    mu_stands_for_input();
    framed_stands_for_input();
}

/// Which arrays of the right length no private key has: those in which a field of s1 or s2 is above 2 eta.
pub(crate) fn range_parts()
    ensures above { (p : ParameterSet) (key : Bytes) (answer : Result ⊤ Refusal) (i : ℕ) → IsSet p → All (λ byte. byte < 256) key → length key ≡ private_key_length p
        → Checks p key answer → i < p.l + p.k → Any (λ x. x <ℤ (pos 0 -ℤ pos p.eta)) (unpacked p.eta p.eta (take (32 * width (pos p.eta) (pos p.eta))
        (drop (128 + 32 * width (pos p.eta) (pos p.eta) * i) key))).0 → answer ≡ Err (Library KeyRange) }
    ensures some { (p : ParameterSet) (key : Bytes) → IsSet p → All (λ byte. byte < 256) key
        → length key ≡ private_key_length p → Checks p key (Err (Library KeyRange)) → HasFieldAbove p key }
{
    key_range();
}

/// What the bytes of signatures and keys tell, and what tells them.
pub(crate) fn spelling_parts()
    ensures signatures { (p : ParameterSet) (bytes other c_tilde c_tilde' : Bytes) (z h z' h' : List R) → IsSet p
        → IsSignature p.gamma1 p.omega p.k p.l (c_tilde_length p) bytes c_tilde z h → (length bytes ≡ signature_length p)
        × (signature_bytes p.gamma1 p.omega c_tilde z h ≡ bytes)
        × (IsSignature p.gamma1 p.omega p.k p.l (c_tilde_length p) other c_tilde z h → other ≡ bytes)
        × (IsSignature p.gamma1 p.omega p.k p.l (c_tilde_length p) bytes c_tilde' z' h' → (c_tilde' ≡ c_tilde) × (z' ≡ z) × (h' ≡ h)) }
    ensures public_keys { (p : ParameterSet) (H : XOF) (bytes other : Bytes) (pk pk' : PublicParts) → IsSet p → IsPublicKeyOf H p.k bytes pk
        → (length bytes ≡ public_key_length p) × (public_key_bytes pk.rho pk.t1 ≡ bytes) × (IsPublicKeyOf H p.k other pk → other ≡ bytes)
        × (IsPublicKeyOf H p.k bytes pk' → pk' ≡ pk) }
    ensures private_keys { (p : ParameterSet) (bytes other : Bytes) (sk sk' : PrivateParts) → IsSet p → IsPrivateKeyOf p.eta p.k p.l bytes sk
        → (length bytes ≡ private_key_length p) × (private_key_bytes p.eta sk ≡ bytes) × (IsPrivateKeyOf p.eta p.k p.l other sk → other ≡ bytes)
        × (IsPrivateKeyOf p.eta p.k p.l bytes sk' → sk' ≡ sk) }
{
    one_spelling();
}

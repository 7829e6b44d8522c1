//! Never called: these proofs show that the laws over bytes hold of what the exports return, at each set.
#![tactic(auto)]

ghost use Rattle.std.specs.Prelude.{◌≡◌, ◌≢◌, ◌<◌, ◌↔◌, ◌⊎◌, ℕ, IsTrue, List, None, Some, length, replicate};
ghost use Rattle.std.specs.List.{concat};
ghost use Rattle.fips204.specs.Framing.{Input, plain, pre_hash_fault, representative};
ghost use Rattle.fips204.specs.ParameterSets.{ParameterSet, IsSet, public_key_length, private_key_length};
ghost use Rattle.fips204.specs.Refusals.{input_fault};
ghost use Rattle.fips204.specs.SchemeLaws.{AreFramedAlike, NamesCollision, NamesHashCollision, NamesKeyCollision, has_context};
ghost use Rattle.fips204.specs.declared.sets.SetName.{SetName};
ghost use Rattle.fips204_base.specs.declared.fault.Fault.TheVariants.{DigestLength};
ghost use Rattle.fips204_shake.specs.Binding.{OfKey};
ghost use Rattle.fips204_shake.specs.Mu.{tr_of_private, tr_of_public};
ghost use Rattle.fips204_shake.specs.Keys.{public_length};
ghost use Rattle.fips204_shake.specs.Fronts.{shake256_front, shake128_front};
ghost use Rattle.fips204_shake.specs.Pieces.{HashesSaved};
ghost use Rattle.mldsa_c.specs.Calls.{KeygenAnswers, SignAnswers, VerifyAnswers, SignMuAnswers, VerifyMuAnswers, PublicKeyAnswers, CheckPrivateKeyAnswers, IsWholeAnswers, IsPairAnswers, CheckPreHashAnswers, ArePair};
ghost use Rattle.mldsa_c.specs.Der.{PublicKeyToDer, PublicKeyFromDer, SeedToDer, SeedFromDer, Has};
ghost use Rattle.mldsa_c.specs.Pieces.{Begins, Updates, Finishes, Takes};
ghost use Rattle.mldsa_c.specs.Prepared.{PreparePublicKeyAnswers, PreparePrivateKeyAnswers, VerifyPreparedAnswers, VerifyMuPreparedAnswers, SignPreparedAnswers, SignMuPreparedAnswers};

use fips204_shake::bytes::laws;

/// What a program in C relies on beyond the clause of one export: keys of one `keygen`, or of which `is_pair` says yes, belong
/// together; the mu of a message or digest that breaks no condition stands for it; one signature for two values of mu, for two
/// inputs or under two keys names a collision; the bytes of a prepared key stand for the key.
pub fn laws_over_bytes()
    ensures inputs { (p : ParameterSet) (pk sk : List ℕ) (input : Input) (random old signature : List ℕ) (status : ℕ) → IsSet p → ArePair p pk sk
        → SignAnswers p sk input random old signature 0 → VerifyAnswers p pk input signature status → status ≡ 0 }
    ensures hashes { (p : ParameterSet) (pk sk mu random old signature : List ℕ) (status : ℕ) → IsSet p → ArePair p pk sk
        → SignMuAnswers p sk mu random old signature 0 → VerifyMuAnswers p pk mu signature status → status ≡ 0 }
    ensures checked { (p : ParameterSet) (pk sk : List ℕ) (status : ℕ) → IsSet p → ArePair p pk sk → CheckPrivateKeyAnswers p sk status → status ≡ 0 }
    ensures whole { (p : ParameterSet) (pk sk : List ℕ) (status : ℕ) → IsSet p → ArePair p pk sk → IsWholeAnswers p sk status → status ≡ 0 }
    ensures pair { (p : ParameterSet) (pk sk : List ℕ) (status : ℕ) → IsSet p → ArePair p pk sk → IsPairAnswers p sk status → status ≡ 0 }
    ensures derived { (p : ParameterSet) (pk sk old new : List ℕ) (status : ℕ) → IsSet p → ArePair p pk sk → length old ≡ public_key_length p
        → PublicKeyAnswers p sk old new status → (new ≡ pk) × (status ≡ 0) }
    ensures mu_signed { (p : ParameterSet) (key : List ℕ) (input : Input) (random old new : List ℕ) (status : ℕ)
        → IsTrue (has_context input) → input_fault input ≡ None
        → SignMuAnswers p key (representative shake256_front (tr_of_private key) input) random old new status
        ↔ SignAnswers p key input random old new status }
    ensures mu_judged { (p : ParameterSet) (key : List ℕ) (input : Input) (signature : List ℕ) (status : ℕ)
        → IsTrue (has_context input) → input_fault input ≡ None
        → VerifyMuAnswers p key (representative shake256_front (tr_of_public shake256_front key) input) signature status
        ↔ VerifyAnswers p key input signature status }
    ensures mu_bound { (p : ParameterSet) (key mu nu signature : List ℕ) → IsSet p → mu ≢ nu → VerifyMuAnswers p key mu signature 0
        → VerifyMuAnswers p key nu signature 0 → OfKey p shake256_front key (λ pk. NamesHashCollision p shake256_front shake128_front pk signature mu nu) }
    ensures inputs_bound { (p : ParameterSet) (key : List ℕ) (x y : Input) (m n signature : List ℕ) → IsSet p → AreFramedAlike x y m n → x ≢ y
        → VerifyAnswers p key x signature 0 → VerifyAnswers p key y signature 0
        → OfKey p shake256_front key (λ pk. NamesCollision p shake256_front shake128_front pk signature m n) }
    ensures keys_bound { (p : ParameterSet) (key other : List ℕ) (x y : Input) (m n signature : List ℕ) → IsSet p → AreFramedAlike x y m n
        → VerifyAnswers p key x signature 0 → VerifyAnswers p other y signature 0 → ((key ≡ other) × (x ≡ y))
        ⊎ OfKey p shake256_front key (λ pk. OfKey p shake256_front other (λ pk'. NamesKeyCollision p shake256_front shake128_front key other pk pk' signature m n)) }
    ensures prepared_judged { (p : ParameterSet) (key old prepared : List ℕ) (input : Input) (signature : List ℕ) (status : ℕ) → IsSet p
        → PreparePublicKeyAnswers p key old prepared 0 → VerifyPreparedAnswers p prepared input signature status
        → VerifyAnswers p key input signature status }
    ensures prepared_judged_mu { (p : ParameterSet) (key old prepared mu signature : List ℕ) (status : ℕ) → IsSet p
        → PreparePublicKeyAnswers p key old prepared 0 → VerifyMuPreparedAnswers p prepared mu signature status
        → VerifyMuAnswers p key mu signature status }
    ensures prepared_signed { (p : ParameterSet) (key old prepared : List ℕ) (input : Input) (random before after : List ℕ) (status : ℕ)
        → IsSet p → PreparePrivateKeyAnswers p key old prepared 0 → SignPreparedAnswers p prepared input random before after status
        → SignAnswers p key input random before after status }
    ensures prepared_signed_mu { (p : ParameterSet) (key old prepared mu random before after : List ℕ) (status : ℕ) → IsSet p
        → PreparePrivateKeyAnswers p key old prepared 0 → SignMuPreparedAnswers p prepared mu random before after status
        → SignMuAnswers p key mu random before after status }
{
    laws::pair_accepts_written();
    laws::mu_stands_for_input();
    laws::signature_binds();
    laws::prepared_stands_for_plain();
}

/// A message in pieces: signing or verifying the mu that `mldsa_mu_finish` writes is signing or verifying the joined pieces under
/// the context; and a state of zeros, which no call writes, is rejected.
pub fn message_in_pieces()
    ensures signed { (p : ParameterSet) (key context begun state taken none mu : List ℕ) (pieces : List (List ℕ)) (random old new : List ℕ) (status : ℕ)
        → Begins (private_key_length p) key (tr_of_private key) context begun state 0 → Takes state pieces taken → Finishes taken none mu 0
        → SignMuAnswers p key mu random old new status ↔ SignAnswers p key (plain (concat pieces) context) random old new status }
    ensures judged { (p : ParameterSet) (key context begun state taken none mu : List ℕ) (pieces : List (List ℕ)) (signature : List ℕ) (status : ℕ)
        → Begins (public_key_length p) key (tr_of_public shake256_front key) context begun state 0 → Takes state pieces taken → Finishes taken none mu 0
        → VerifyMuAnswers p key mu signature status ↔ VerifyAnswers p key (plain (concat pieces) context) signature status }
    ensures context { (wanted : ℕ) (key tr context old new : List ℕ) (status : ℕ) → Begins wanted key tr context old new status → length old ≡ 337
        → length key ≡ wanted → 255 < length context → (new ≡ old) × (status ≡ 4) }
    ensures zeros { (tr context m : List ℕ) → ¬ (HashesSaved (replicate 337 0) tr context m) }
    ensures forgotten { (piece new mu mu' : List ℕ) (status : ℕ) → (Updates (replicate 337 0) new piece status → (new ≡ replicate 337 0) × (status ≡ 13))
        × (length mu ≡ 64 → Finishes (replicate 337 0) mu mu' status → (mu' ≡ mu) × (status ≡ 13)) }
{
    laws::mu_stands_for_input();
}

/// An array that a call would write is as it was after every status but 0; what is returned of a digest that can't be
/// signed; and no question returns 1.
pub fn arrays_after_errors()
    ensures pairs { (p : ParameterSet) (seed v pk s sk : List ℕ) (status : ℕ) → status ≢ 0 → KeygenAnswers p seed v pk s sk status → (pk ≡ v) × (sk ≡ s) }
    ensures signatures { (p : ParameterSet) (key : List ℕ) (input : Input) (random old new : List ℕ) (status : ℕ) → status ≢ 0
        → SignAnswers p key input random old new status ⊎ SignPreparedAnswers p key input random old new status → new ≡ old }
    ensures signatures_of_mu { (p : ParameterSet) (key mu random old new : List ℕ) (status : ℕ) → status ≢ 0
        → SignMuAnswers p key mu random old new status ⊎ SignMuPreparedAnswers p key mu random old new status → new ≡ old }
    ensures keys { (p : ParameterSet) (key old new : List ℕ) (status : ℕ) → status ≢ 0
        → PublicKeyAnswers p key old new status ⊎ (PreparePublicKeyAnswers p key old new status ⊎ PreparePrivateKeyAnswers p key old new status) → new ≡ old }
    ensures states { (wanted : ℕ) (key tr context piece old new : List ℕ) (status : ℕ) → status ≢ 0
        → Begins wanted key tr context old new status ⊎ (Updates old new piece status ⊎ Finishes piece old new status) → new ≡ old }
    ensures digests { (digest oid : List ℕ) (status : ℕ) → CheckPreHashAnswers digest oid status
        → ((status ≡ 0) ↔ (pre_hash_fault digest oid ≡ None)) × (pre_hash_fault digest oid ≡ Some DigestLength → status ≡ 9) }
    ensures judged { (p : ParameterSet) (key : List ℕ) (input : Input) (signature : List ℕ) (status : ℕ)
        → VerifyAnswers p key input signature status ⊎ VerifyPreparedAnswers p key input signature status → status ≢ 1 }
    ensures judged_mu { (p : ParameterSet) (key mu signature : List ℕ) (status : ℕ)
        → VerifyMuAnswers p key mu signature status ⊎ VerifyMuPreparedAnswers p key mu signature status → status ≢ 1 }
    ensures asked { (p : ParameterSet) (key : List ℕ) (status : ℕ) → IsWholeAnswers p key status ⊎ IsPairAnswers p key status → status ≢ 1 }
{
    laws::errors_leave_arrays();
}

/// A key that was written in DER is read again: a public key, and a seed.
pub fn written_keys_are_read()
    ensures public { (set : SetName) (key none der old new : List ℕ) (status : ℕ) → PublicKeyToDer set key none der 0
        → length old ≡ public_length set → PublicKeyFromDer set der old new status → Has new status key }
    ensures seed { (set : SetName) (seed none der old new : List ℕ) (status : ℕ) → SeedToDer set seed none der 0 → length old ≡ 32
        → SeedFromDer set der old new status → Has new status seed }
{}

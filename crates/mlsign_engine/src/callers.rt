//! Never called: a weakened law must break one of these proofs.
#![tactic(auto)]

ghost use Rattle.std.specs.Prelude.{◌≡◌, ℕ, List, Bool, IfOk, IsTrue, Ok};
ghost use Rattle.fips204.specs.Sets.{named_set};
ghost use Rattle.fips204.specs.declared.sets.SetName.{SetName as Name};
ghost use Rattle.fips204_shake.specs.Keys.{FileParts};
ghost use Rattle.mlsign_engine.specs.Commands.{IsSigned, Judges, MakesTexts};
ghost use Rattle.mlsign_engine.specs.Forms.{HasPrivate, HasPublic, IsPublicIn, public_in, private_in, read_as};
ghost use Rattle.mlsign_engine.specs.Keys.{IsConsistent, PairValue, PublicValue, public_of_pair};
ghost use Rattle.mlsign_engine.specs.declared.forms.Form.{Form};
ghost use Rattle.mlsign_engine.specs.declared.pem.Kind.TheVariants.{Public};

use crate::fault::CommandFault;
use crate::forms::{Form, read_public_key};
use crate::laws::{converted_comes_back, keys_are_read, signed_is_valid};
use fips204_shake::der::SetName;
use std::alloc::Global;

/// Which keys accept what is signed with the private key of a file, and which keys files have.
pub(crate) fn valid_parts()
    ensures signed { (pair : PairValue) (random context message signature : List ℕ) (valid : Bool) → IsConsistent pair
        → IsSigned (named_set pair.algorithm) pair.parts random context message signature
        → Judges (public_of_pair pair) signature context message valid → IsTrue valid }
    ensures published { (form : Form) (pair : PairValue) (public : PublicValue) (file random context message signature : List ℕ) (valid : Bool)
        → IsConsistent pair → IsPublicIn form file pair.algorithm pair.public
        → HasPublic form pair.algorithm file public.algorithm public.bytes
        → IsSigned (named_set pair.algorithm) pair.parts random context message signature
        → Judges public signature context message valid → IsTrue valid }
    ensures generated { (form : Form) (set : Name) (pair : PairValue) (public : PublicValue)
        (seed private_file public_file random context message signature : List ℕ) (valid : Bool) → MakesTexts form set seed private_file public_file
        → HasPrivate form set private_file pair.algorithm pair.parts → HasPublic form set public_file public.algorithm public.bytes
        → IsSigned (named_set pair.algorithm) pair.parts random context message signature
        → Judges public signature context message valid → IsTrue valid }
    ensures public { (form : Form) (set found : Name) (file bytes : List ℕ) → HasPublic form set file found bytes
        → public_in form set file ≡ Ok (found, bytes) }
    ensures private { (form : Form) (set found : Name) (file : List ℕ) (parts : FileParts) → HasPrivate form set file found parts
        → private_in form set file ≡ Ok (found, parts) }
{
    signed_is_valid();
    keys_are_read();
}

/// The file of a public key, converted to another form and back: what is read of it is as it was.
pub(crate) fn public_back(
    alloc: Global,
    form: Form,
    other: Form,
    set: SetName,
    file: &[u8],
) -> Result<Vec<u8>, CommandFault>
    ensures { IfOk result (λ again. read_as form Public again.items ≡ read_as form Public file.now) }
{
    converted_comes_back();
    let first = read_public_key(alloc, form, set, file)?;
    let between = first.file(alloc, other)?;
    let second = read_public_key(alloc, other, first.algorithm(), between.as_slice())?;
    second.file(alloc, form)
}

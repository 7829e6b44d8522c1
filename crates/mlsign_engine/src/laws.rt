//! Laws about the commands. A call of such a function computes nothing: it states the law.
#![tactic(auto)]

ghost use Rattle.std.specs.Prelude.{◌≡◌, ℕ, List, Ok};
ghost use Rattle.fips204.specs.declared.sets.SetName.{SetName};
ghost use Rattle.mlsign_engine.specs.Commands.{SignedIsValid, FilesBelong, MadeFilesBelong, ComeBack};
ghost use Rattle.mlsign_engine.specs.Forms.{HasPublic, HasPrivate, public_in, private_in};
ghost use Rattle.mlsign_engine.specs.declared.forms.Form.{Form};
ghost use Rattle.fips204_shake.specs.Keys.{FileParts};

/// The key that a file has in a form is what is read of it.
pub fn keys_are_read()
    ensures public { (form : Form) (set : SetName) (file : List ℕ) (x : SetName × List ℕ) → HasPublic form set file x.0 x.1 → public_in form set file ≡ Ok x }
    ensures private { (form : Form) (set : SetName) (file : List ℕ) (x : SetName × FileParts) → HasPrivate form set file x.0 x.1
        → private_in form set file ≡ Ok x }
{}

/// A signature that `sign` made with a private key is valid for `verify`, of the same message and under the same context, with the public
/// key that belongs to it: as it is, as it is read from the file that was written of it, and from that which `keygen` wrote beside the
/// private key's, in each form.
pub fn signed_is_valid()
    ensures signed { SignedIsValid }
    ensures published { FilesBelong }
    ensures generated { MadeFilesBelong }
{}

/// A key's file that is converted to another form and back is the same: its bytes, and of a text the strict form.
pub fn converted_comes_back()
    ensures { ComeBack }
{}

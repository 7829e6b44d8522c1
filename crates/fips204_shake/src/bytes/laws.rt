//! What follows for programs from the contracts of the calls. A law computes nothing.
#![tactic(auto)]

ghost use Rattle.std.specs.Prelude.{◌≤◌, length};
ghost use Rattle.fips204.specs.ParameterSets.{ParameterSet, IsSet};
ghost use Rattle.fips204_base.specs.Streams.{Bytes, XOF};
ghost use Rattle.fips204_shake.specs.Binding.{SignatureBinds};
ghost use Rattle.fips204_shake.specs.Errors.{ErrorsLeave};
ghost use Rattle.fips204_shake.specs.KeyRange.{RangeIsOfFields};
ghost use Rattle.fips204_shake.specs.Mu.{MuStandsForInput, FramedStandsForInput};
ghost use Rattle.fips204_shake.specs.Pairs.{PairsBelong};
ghost use Rattle.fips204_shake.specs.Prepared.{PreparedStandsForPlain};
ghost use Rattle.fips204_shake.specs.Spellings.{HasOneSpelling};

use fips204::laws::{
    binding, hooks, key_bytes, prepared_bytes, prepared_keys, signature_spelling,
    signed_is_accepted,
};

/// The keys that one call of `keygen` wrote belong together, and so do a private key of which `is_pair` says yes and the
/// public key that `public_key` wrote of it: `verify` says yes to what `sign` wrote, `check_private_key`, `is_whole` and
/// `is_pair` say yes, and `public_key` writes the public key.
pub fn pair_accepts_written()
    ensures { (p : ParameterSet) (H G : XOF) → IsSet p → ((x : Bytes) → 4096 ≤ length (H x)) → PairsBelong p H G }
{
    signed_is_accepted();
}

/// Signing the hash mu of an input that breaks no condition is signing that input, where mu is made with the `tr` in the
/// private key's bytes; and verifying it is verifying that input, where mu is made with the hash of the public key's bytes.
pub fn mu_stands_for_input()
    ensures { (p : ParameterSet) (H G : XOF) → MuStandsForInput p H G }
{
    hooks();
}

/// Signing the framed message M' of an input that breaks no condition is signing that input, and verifying it is verifying
/// that input.
pub fn framed_stands_for_input()
    ensures { (p : ParameterSet) (H G : XOF) → FramedStandsForInput p H G }
{
    hooks();
}

/// One signature for two values of mu, for two inputs or under two keys gives a collision of `H`: if `verify` says yes to one
/// signature under one public key for two different values of mu, or for two inputs that differ, both messages or digests, or
/// both framed messages; or under two public keys, unless these and the inputs are the same. `laws::binding` of `fips204` says
/// which inputs collide.
pub fn signature_binds()
    ensures { (p : ParameterSet) (H G : XOF) → IsSet p → SignatureBinds p H G }
{
    binding();
    key_bytes();
}

/// With the bytes that preparing a key has written, verifying and signing return what they return with the key itself, for every
/// input, every signature and all random bytes.
pub fn prepared_stands_for_plain()
    ensures { (p : ParameterSet) (H G : XOF) → IsSet p → PreparedStandsForPlain p H G }
{
    prepared_bytes();
    prepared_keys();
}

/// An array that a call would write is as it was after every error.
pub fn errors_leave_arrays()
    ensures { (p : ParameterSet) (H G : XOF) → ErrorsLeave p H G }
{}

/// `check_private_key` returns `Fault::KeyRange` of an array of the right length if and only if a field of s1 or s2 in it is
/// above 2 eta.
pub fn key_range()
    ensures { (p : ParameterSet) → IsSet p → RangeIsOfFields p }
{}

/// Signatures, public keys and private keys have one spelling each: bytes that decode are as many as the parameter
/// set's, what they decode to encodes to them, no other array decodes to it, and they decode to nothing else.
pub fn one_spelling()
    ensures { (p : ParameterSet) (H : XOF) → IsSet p → HasOneSpelling p H }
{
    signature_spelling();
    key_bytes();
}

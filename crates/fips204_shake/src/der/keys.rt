//! Keys in DER (RFC 9881).
#![tactic(auto)]

ghost use Rattle.std.specs.Prelude.{◌≡◌, ℕ, List, Ok, length, IfOk};
ghost use Rattle.fips204.specs.declared.sets.SetName.{SetName};
ghost use Rattle.fips204_shake.specs.Keys.{FileParts, file_parts, private_choice, HasPrivateSizes};
ghost use Rattle.fips204_shake.specs.Keys.{IsPublicFile, IsPrivateFile, identifier, public_length, private_length, public_file_length, private_file_length};
ghost use Rattle.fips204_shake.specs.Reading.{Gives, sized_at, string_at, algorithm_of, algorithm_at, public_at, choice_at, private_at};

use crate::der::elements::{
    BIT_STRING, CONTEXT_0, INTEGER, OCTET_STRING, SEQUENCE, element, front, put, whole,
};
use crate::der::fault::DerFault;
use fips204::SetName;

/// How many bytes a seed has.
pub const SEED_LENGTH: usize = 32;

/// What stands before the object identifier in an AlgorithmIdentifier.
const IDENTIFIED: [u8; 2] = [SEQUENCE, 11];

/// The version 0 of a OneAsymmetricKey.
const VERSION: [u8; 3] = [INTEGER, 1, 0];

/// A private key as its file has it.
#[derive(Debug, Clone, Copy)]
pub enum PrivateKey<'a> {
    /// The seed that the key is generated from.
    Seed(&'a [u8]),
    /// The expanded key.
    Expanded(&'a [u8]),
    /// Both.
    Both { seed: &'a [u8], expanded: &'a [u8] },
}

/// The object identifier of an algorithm in DER.
fn identifier(algorithm: SetName) -> [u8; 11]
    ensures { result ≡ identifier algorithm }
{
    let last = match algorithm {
        SetName::MlDsa44 => 17,
        SetName::MlDsa65 => 18,
        SetName::MlDsa87 => 19,
    };
    [6, 9, 96, 134, 72, 1, 101, 3, 4, 3, last]
}

/// The algorithm of an AlgorithmIdentifier with these contents.
#[tactic(auto, unfolding(crate::specs::Reading::algorithm_of))]
fn algorithm_with(contents: &[u8]) -> Result<SetName, DerFault>
    ensures { result ≡ algorithm_of contents.now }
{
    if contents == identifier(SetName::MlDsa44).as_slice() {
        return Ok(SetName::MlDsa44);
    }
    if contents == identifier(SetName::MlDsa65).as_slice() {
        return Ok(SetName::MlDsa65);
    }
    if contents == identifier(SetName::MlDsa87).as_slice() {
        return Ok(SetName::MlDsa87);
    }
    Err(DerFault::OtherAlgorithm)
}

/// The algorithm that the bytes begin with, and what follows it.
#[tactic(auto, unfolding(crate::specs::Reading::algorithm_at))]
fn algorithm(bytes: &[u8]) -> Result<(SetName, &[u8]), DerFault>
    ensures { Gives (λ x. (x.0, x.1.now)) result (algorithm_at bytes.now) }
{
    let (contents, rest) = element(SEQUENCE, bytes)?;
    let algorithm = algorithm_with(contents)?;
    Ok((algorithm, rest))
}

/// The bytes, which are to be so many.
fn sized(wanted: usize, bytes: &[u8]) -> Result<&[u8], DerFault>
    ensures { Gives (λ x. x.now) result (sized_at wanted bytes.now) }
{
    if bytes.len() != wanted {
        return Err(DerFault::KeyLength);
    }
    Ok(bytes)
}

/// The contents of the element with this tag that the bytes are, which are to be so many.
#[tactic(auto, unfolding(crate::specs::Reading::string_at))]
fn string(tag: u8, size: usize, bytes: &[u8]) -> Result<&[u8], DerFault>
    ensures { Gives (λ x. x.now) result (string_at tag size bytes.now) }
{
    sized(size, whole(tag, bytes)?)
}

/// The algorithm and the bytes of a SubjectPublicKeyInfo.
#[tactic(auto, unfolding(crate::specs::Reading::public_at, crate::specs::Reading::whole_bytes_of))]
fn public_key_info(der: &[u8]) -> Result<(SetName, &[u8]), DerFault>
    ensures { Gives (λ x. (x.0, x.1.now)) result (public_at der.now) }
{
    let info = whole(SEQUENCE, der)?;
    let (algorithm, rest) = algorithm(info)?;
    let [0, bytes @ ..] = whole(BIT_STRING, rest)? else {
        return Err(DerFault::Element);
    };
    Ok((algorithm, sized(algorithm.public_key_len(), bytes)?))
}

/// The public key of a file in DER: a SubjectPublicKeyInfo (RFC 9881, section 4).
///
/// Errors: the first fault from its beginning.
pub fn read_public(der: &[u8]) -> Result<(SetName, &[u8]), DerFault>
    // What is read is what the file has.
    ensures found { IfOk result (λ x. IsPublicFile der.now x.0 x.1.now) }
    // The key of a file is read.
    ensures only { (algorithm : SetName) (bytes : List ℕ) → IsPublicFile der.now algorithm bytes
        → Gives {Y = SetName × List ℕ} (λ x. (x.0, x.1.now)) result (Ok (algorithm, bytes)) }
    // Which fault it is.
    ensures exact { Gives (λ x. (x.0, x.1.now)) result (public_at der.now) }
{
    public_key_info(der)
}

/// The private key of an ML-DSA-PrivateKey, in one of its three forms.
#[tactic(auto, unfolding(crate::specs::Reading::choice_at, crate::specs::Reading::both_at))]
fn choice(algorithm: SetName, bytes: &[u8]) -> Result<PrivateKey<'_>, DerFault>
    ensures { Gives file_parts result (choice_at algorithm bytes.now) }
{
    let size = algorithm.private_key_len();
    match bytes {
        [] => Err(DerFault::Short),
        [CONTEXT_0, ..] => Ok(PrivateKey::Seed(string(CONTEXT_0, SEED_LENGTH, bytes)?)),
        [OCTET_STRING, ..] => Ok(PrivateKey::Expanded(string(OCTET_STRING, size, bytes)?)),
        _ => {
            let (first, rest) = element(OCTET_STRING, whole(SEQUENCE, bytes)?)?;
            let seed = sized(SEED_LENGTH, first)?;
            let expanded = string(OCTET_STRING, size, rest)?;
            Ok(PrivateKey::Both { seed, expanded })
        }
    }
}

/// The algorithm and the private key of a OneAsymmetricKey.
#[tactic(auto, unfolding(crate::specs::Reading::private_at, crate::specs::Reading::version_at))]
fn asymmetric_key(der: &[u8]) -> Result<(SetName, PrivateKey<'_>), DerFault>
    ensures { Gives (λ x. (x.0, file_parts x.1)) result (private_at der.now) }
{
    let info = whole(SEQUENCE, der)?;
    let (version, rest) = element(INTEGER, info)?;
    if version != [0].as_slice() {
        return Err(DerFault::Version);
    }
    let (algorithm, rest) = algorithm(rest)?;
    Ok((algorithm, choice(algorithm, whole(OCTET_STRING, rest)?)?))
}

/// The private key of a file in DER: a OneAsymmetricKey, which PKCS #8 calls PrivateKeyInfo, without attributes (RFC
/// 9881, section 6). Whether a seed gives the expanded key beside it is not asked.
///
/// Errors: the first fault from its beginning.
pub fn read_private(der: &[u8]) -> Result<(SetName, PrivateKey<'_>), DerFault>
    // What is read is what the file has.
    ensures found { IfOk result (λ x. IsPrivateFile der.now x.0 (file_parts x.1)) }
    // The key of a file is read.
    ensures only { (algorithm : SetName) (parts : FileParts) → IsPrivateFile der.now algorithm parts
        → Gives {Y = SetName × FileParts} (λ x. (x.0, file_parts x.1)) result (Ok (algorithm, parts)) }
    // Which fault it is.
    ensures exact { Gives (λ x. (x.0, file_parts x.1)) result (private_at der.now) }
{
    asymmetric_key(der)
}

/// Writes the file of a public key in DER: a SubjectPublicKeyInfo (RFC 9881, section 4).
#[tactic(auto, unfolding(crate::specs::Keys::subject_public_key_info))]
pub fn write_public(algorithm: SetName, bytes: &[u8], der: &mut [u8])
    requires lengths { (length bytes.now ≡ public_length algorithm) × (length der.old ≡ public_file_length algorithm) }
    ensures { IsPublicFile der.new algorithm bytes.now }
{
    let size = bytes.len();
    let info = front(SEQUENCE, size + 18);
    let identifier = identifier(algorithm);
    let bits = front(BIT_STRING, size + 1);
    put(der, &[&info, &IDENTIFIED, &identifier, &bits, &[0], bytes]);
}

/// Writes the file of a private key in DER: a OneAsymmetricKey of version 0 (RFC 9881, section 6).
#[tactic(auto, using(crate::proofs::KeyFiles::private_small, crate::proofs::KeyFiles::private_long), unfolding(crate::specs::Keys::one_asymmetric_key, crate::specs::Keys::private_choice))]
pub fn write_private(algorithm: SetName, key: PrivateKey<'_>, der: &mut [u8])
    requires sizes { HasPrivateSizes (private_length algorithm) (file_parts key) }
    requires size { length der.old ≡ private_file_length (private_length algorithm) (file_parts key) }
    ensures { IsPrivateFile der.new algorithm (file_parts key.entry) }
{
    let size = algorithm.private_key_len();
    let identifier = identifier(algorithm);
    match key {
        PrivateKey::Seed(seed) => {
            let info = [SEQUENCE, 52];
            let key = [OCTET_STRING, 34, CONTEXT_0, 32];
            put(
                der,
                &[&info, &VERSION, &IDENTIFIED, &identifier, &key, seed],
            );
        }
        PrivateKey::Expanded(expanded) => {
            let info = front(SEQUENCE, size + 24);
            let key = front(OCTET_STRING, size + 4);
            let second = front(OCTET_STRING, size);
            put(
                der,
                &[
                    &info,
                    &VERSION,
                    &IDENTIFIED,
                    &identifier,
                    &key,
                    &second,
                    expanded,
                ],
            );
        }
        PrivateKey::Both { seed, expanded } => {
            let info = front(SEQUENCE, size + 62);
            let key = front(OCTET_STRING, size + 42);
            let both = front(SEQUENCE, size + 38);
            let first = [OCTET_STRING, 32];
            let second = front(OCTET_STRING, size);
            put(
                der,
                &[
                    &info,
                    &VERSION,
                    &IDENTIFIED,
                    &identifier,
                    &key,
                    &both,
                    &first,
                    seed,
                    &second,
                    expanded,
                ],
            );
        }
    }
}

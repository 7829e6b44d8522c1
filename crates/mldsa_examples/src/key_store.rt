//! A key store: a file has a byte of the version, a byte of the parameter set, and the bytes of a private or a public
//! key.
//!
//! Mutations that the contracts reject: a header that is not looked at; a public key whose `tr` is not compared; any
//! public key accepted; the set looked at before the version.
#![tactic(auto)]

ghost use Rattle.std.specs.Prelude.{◌≡◌, ◌+◌, ◌∷◌, ◌↔◌, IsTrue};
ghost use Rattle.mldsa_examples.specs.KeyStore.{file_of, public_file_of, HasBytes, IsFileOf, ChecksAs, LoadsAs, LoadsPublicAs, LoadsStored, LoadsStoredPublic};

use fips204::laws;
use fips204::ml_dsa_44::{PK_LEN, PrivateKey, PublicKey};
use fips204::traits::{SerDes, Signer};
use fips204::xof::{Xof, hash};

/// The number of bytes of a private key's file.
pub const FILE_LEN: usize = 2562;

/// The number of bytes of a public key's file.
pub const PUBLIC_FILE_LEN: usize = 1314;

/// Why a file is rejected, in order of precedence.
#[derive(Debug, Clone, Copy, PartialEq, Eq)]
pub enum LoadFault {
    /// It does not have the number of bytes of its kind.
    WrongLength,
    /// Its first byte is not 1.
    WrongHeader,
    /// Its second byte is not 44.
    WrongSet,
    /// The rest is no private key: a coefficient is out of range.
    WrongRange,
    /// No public key can be derived from the private key that a public one is checked against.
    NoMatrix,
    /// The public key does not belong to the private key.
    OtherKey,
}

/// The file of a private key.
pub fn stored<H: Xof, G: Xof>(key: PrivateKey<H, G>) -> [u8; FILE_LEN]
    ensures { result ≡ file_of key }
{
    let mut file = [0u8; FILE_LEN];
    file[..2].copy_from_slice(&[1, 44]);
    file[2..].copy_from_slice(&key.into_bytes());
    file
}

/// The file of a public key.
pub fn stored_public<H: Xof, G: Xof>(key: PublicKey<H, G>) -> [u8; PUBLIC_FILE_LEN]
    ensures { result ≡ public_file_of key }
{
    let mut file = [0u8; PUBLIC_FILE_LEN];
    file[..2].copy_from_slice(&[1, 44]);
    file[2..].copy_from_slice(&key.into_bytes());
    file
}

/// The `N` bytes after the header of a file, or the first error in its length or its header.
fn key_bytes<const N: usize>(file: &[u8]) -> Result<[u8; N], LoadFault>
    ensures { HasBytes (N + 2) file.now result }
{
    let [version, set, rest @ ..] = file else {
        return Err(LoadFault::WrongLength);
    };
    match <[u8; N]>::try_from(rest) {
        Err(_) => Err(LoadFault::WrongLength),
        Ok(_) if *version != 1 => Err(LoadFault::WrongHeader),
        Ok(_) if *set != 44 => Err(LoadFault::WrongSet),
        Ok(bytes) => Ok(bytes),
    }
}

/// The private key of a file, or the first error.
pub fn loaded<H: Xof, G: Xof>(file: &[u8]) -> Result<PrivateKey<H, G>, LoadFault>
    ensures { LoadsAs file.now result }
{
    match PrivateKey::<H, G>::try_from_bytes(key_bytes(file)?) {
        Ok(key) => Ok(key),
        Err(_) => Err(LoadFault::WrongRange),
    }
}

/// The public key of a file, or the first error.
pub fn loaded_public<H: Xof, G: Xof>(file: &[u8]) -> Result<PublicKey<H, G>, LoadFault>
    ensures { LoadsPublicAs H.front file.now result }
{
    Ok(PublicKey::<H, G>::try_from_bytes(key_bytes(file)?).unwrap())
}

/// Whether a public key has these bytes, and their hash as its `tr`.
fn has_bytes<H: Xof, G: Xof>(key: &PublicKey<H, G>, bytes: &[u8; PK_LEN]) -> bool
    ensures { IsTrue result ↔ IsFileOf H.front key.now (1 ∷ 44 ∷ bytes.now) }
{
    key.tr() == &hash::<H, 64>(&[bytes]) && &key.clone().unwrap().into_bytes() == bytes
}

/// The public key of a private key if the file is its file, or the first error.
#[tactic(auto, unfolding(fips204::specs::Refusals::derived))]
pub fn checked_public<H: Xof, G: Xof>(
    owner: &PrivateKey<H, G>,
    file: &[u8],
) -> Result<PublicKey<H, G>, LoadFault>
    ensures { ChecksAs H.front G.front owner.now file.now result }
{
    let bytes = key_bytes(file)?;
    match owner.get_public_key() {
        Ok(key) if has_bytes(&key, &bytes) => Ok(key),
        Ok(_) => Err(LoadFault::OtherKey),
        Err(_) => Err(LoadFault::NoMatrix),
    }
}

/// The file of a key in range loads as that key: a private key, and a public key that has the hash of its bytes.
pub fn stored_is_loaded()
    ensures private { LoadsStored }
    ensures public { LoadsStoredPublic }
{
    laws::key_bytes();
}

//! Files of keys, and each error of a file by itself and in its order.
#![tactic(auto)]

ghost use Rattle.std.specs.Prelude.{◌≤◌};

use super::{Owner, pair};
use crate::key_store::LoadFault::{
    NoMatrix, OtherKey, WrongHeader, WrongLength, WrongRange, WrongSet,
};
use crate::key_store::{LoadFault, PUBLIC_FILE_LEN, checked_public, loaded, stored, stored_public};
use fips204::Fault;
use fips204::ml_dsa_44::{PrivateKey, SIG_LEN};
use fips204::traits::{SerDes, Signer};
use fips204::xof::{Fill, Sha256Ctr, Sha512Ctr, Xof};
use std::test::Fail;

/// The signature of a message.
fn signed(key: &Owner) -> Result<[u8; SIG_LEN], Fault> {
    key.try_sign_with_seed(&[0; 32], b"a message", b"")
}

/// Whether a file loads as a key that makes this signature, or the error of the file.
fn signs(file: &[u8], signature: &[u8; SIG_LEN]) -> Result<bool, LoadFault> {
    let key = loaded::<Sha256Ctr, Sha512Ctr>(file)?;
    Ok(signed(&key) == Ok(*signature))
}

/// A file with another byte of its parameter set, and with another byte of its version too.
fn with_headers<const N: usize>(mut file: [u8; N]) -> [[u8; N]; 2]
    requires { 2 ≤ N }
{
    file[1] = 65;
    let set = file;
    file[0] = 2;
    [set, file]
}

/// A key loaded from its file signs the same; each error of a file by itself and in its order.
#[test]
fn a_stored_key(rt: HostRuntime) -> Result<(), Fail> {
    let (_, private) = pair(7)?;
    let signature = signed(&private)?;
    let file = stored(private);
    let mut range = file;
    range[130] = 0xff;
    let [set, version] = with_headers(range);
    assert!(rt; signs(&file, &signature) == Ok(true));
    assert!(rt; signs(&file[1..], &signature) == Err(WrongLength));
    assert!(rt; signs(&range, &signature) == Err(WrongRange));
    assert!(rt; signs(&set, &signature) == Err(WrongSet));
    assert!(rt; signs(&version, &signature) == Err(WrongHeader));
    Ok(())
}

/// The error of a public key's file that is checked against a private key.
fn check<G: Xof>(owner: &PrivateKey<Sha256Ctr, G>, file: &[u8]) -> Option<LoadFault> {
    checked_public(owner, file).err()
}

/// A public key's file belongs to its private key; each error of such a file by itself and in its order, beside its own
/// key, beside one with no matrix, and beside one of another `tr`.
#[test]
fn a_stored_public_key(rt: HostRuntime) -> Result<(), Fail> {
    let ((key, owner), (other, _)) = (pair(7)?, pair(8)?);
    let file = stored_public(key);
    let mut changed = file;
    changed[PUBLIC_FILE_LEN - 1] ^= 1;
    let [set, version] = with_headers(file);
    assert!(rt; check(&owner, &file) == None);
    assert!(rt; check(&owner, &stored_public(other)) == Some(OtherKey));
    assert!(rt; check(&owner, &changed) == Some(OtherKey));
    let mut bytes = owner.into_bytes();
    let owner = PrivateKey::<Sha256Ctr, Fill<0xff>>::try_from_bytes(bytes)?;
    assert!(rt; check(&owner, &changed) == Some(NoMatrix));
    assert!(rt; check(&owner, &set) == Some(WrongSet));
    assert!(rt; check(&owner, &version) == Some(WrongHeader));
    bytes[64] ^= 1;
    let owner = Owner::try_from_bytes(bytes)?;
    assert!(rt; check(&owner, &file) == Some(OtherKey));
    assert!(rt; check(&owner, &file[1..]) == Some(WrongLength));
    Ok(())
}

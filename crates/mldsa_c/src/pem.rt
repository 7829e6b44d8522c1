//! Keys in PEM (RFC 7468): what the exports of each set do.
#![tactic(auto)]

ghost use Rattle.mldsa_c.specs.Pem.{PublicKeyFromPem, PrivateKeyFromPem, SeedFromPem};

use crate::der;
use crate::numbers::{WRONG_LENGTH, status_of_pem};
use fips204_shake::SetName;
use fips204_shake::pem::{Kind, read};

/// The lengths of the longest files.
const PUBLIC_FILE: usize = 2614;

const PRIVATE_FILE: usize = 4962;

/// Reads a public key of a parameter set.
pub(crate) fn public_key_from_pem(set: SetName, pem: &[u8], public_key: &mut [u8]) -> u32
    ensures { PublicKeyFromPem set pem.now public_key.old public_key.new result }
{
    if public_key.len() != set.public_key_len() {
        return WRONG_LENGTH;
    }
    let mut file = [0; PUBLIC_FILE];
    match read(Kind::Public, pem, &mut file) {
        Ok(size) => der::public_key_from_der(set, &file[..size], public_key),
        Err(fault) => status_of_pem(fault),
    }
}

/// Reads a private key of a parameter set, and writes its expanded key.
pub(crate) fn private_key_from_pem(set: SetName, pem: &[u8], private_key: &mut [u8]) -> u32
    ensures { PrivateKeyFromPem set pem.now private_key.old private_key.new result }
{
    if private_key.len() != set.private_key_len() {
        return WRONG_LENGTH;
    }
    let mut file = [0; PRIVATE_FILE];
    match read(Kind::Private, pem, &mut file) {
        Ok(size) => der::private_key_from_der(set, &file[..size], private_key),
        Err(fault) => status_of_pem(fault),
    }
}

/// Reads the seed of a private key of a parameter set.
pub(crate) fn seed_from_pem(set: SetName, pem: &[u8], seed: &mut [u8]) -> u32
    ensures { SeedFromPem set pem.now seed.old seed.new result }
{
    if seed.len() != 32 {
        return WRONG_LENGTH;
    }
    let mut file = [0; PRIVATE_FILE];
    match read(Kind::Private, pem, &mut file) {
        Ok(size) => der::seed_from_der(set, &file[..size], seed),
        Err(fault) => status_of_pem(fault),
    }
}

//! The tests of the modules beside this folder, over the pairs of two XOFs.
#![tactic(auto)]

mod generators;
mod key_store;
mod ledger;
mod licence;
mod manifest;
mod pieces;
mod toy_stream;

use fips204::Fault;
use fips204::ml_dsa_44::{KG, PrivateKey, PublicKey};
use fips204::traits::KeyGen;
use fips204::xof::{Sha256Ctr, Sha512Ctr};

/// The public keys of the tests.
type Key = PublicKey<Sha256Ctr, Sha512Ctr>;

/// The private keys of the tests.
type Owner = PrivateKey<Sha256Ctr, Sha512Ctr>;

/// The pair of a seed that has this byte everywhere.
fn pair(byte: u8) -> Result<(Key, Owner), Fault> {
    KG::<Sha256Ctr, Sha512Ctr>::keygen_from_seed(&[byte; 32])
}

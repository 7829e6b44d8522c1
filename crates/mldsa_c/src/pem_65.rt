// `tools/sets` made this file from that of 44: edit that one.
//! The exports of ML-DSA-65 for keys in PEM.
#![tactic(auto)]

ghost use Rattle.fips204.specs.declared.sets.SetName.TheVariants.{MlDsa65};
ghost use Rattle.mldsa_c.specs.Pem.{PublicKeyFromPem, PrivateKeyFromPem, SeedFromPem};

use crate::pem;
use fips204_shake::SetName;

/// Reads a public key in PEM.
#[unsafe(no_mangle)]
pub extern "C" fn mldsa65_public_key_from_pem(public_key_pem: &[u8], public_key: &mut [u8]) -> u32
    ensures { PublicKeyFromPem MlDsa65 public_key_pem.now public_key.old public_key.new result }
{
    pem::public_key_from_pem(SetName::MlDsa65, public_key_pem, public_key)
}

/// Reads a private key in PEM.
#[unsafe(no_mangle)]
pub extern "C" fn mldsa65_private_key_from_pem(
    private_key_pem: &[u8],
    private_key: &mut [u8],
) -> u32
    ensures { PrivateKeyFromPem MlDsa65 private_key_pem.now private_key.old private_key.new result }
{
    pem::private_key_from_pem(SetName::MlDsa65, private_key_pem, private_key)
}

/// Reads the seed of a private key in PEM.
#[unsafe(no_mangle)]
pub extern "C" fn mldsa65_seed_from_pem(seed_pem: &[u8], seed: &mut [u8]) -> u32
    ensures { SeedFromPem MlDsa65 seed_pem.now seed.old seed.new result }
{
    pem::seed_from_pem(SetName::MlDsa65, seed_pem, seed)
}

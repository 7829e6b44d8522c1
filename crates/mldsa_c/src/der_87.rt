// `tools/sets` made this file from that of 44: edit that one.
//! The exports of ML-DSA-87 for keys in DER.
#![tactic(auto)]

ghost use Rattle.fips204.specs.declared.sets.SetName.TheVariants.{MlDsa87};
ghost use Rattle.mldsa_c.specs.Der.{PublicKeyToDer, PublicKeyFromDer, SeedToDer, PrivateKeyToDer, BothToDer, PrivateKeyFromDer, SeedFromDer};

use crate::der;
use fips204_shake::SetName;

/// Writes a public key in DER.
#[unsafe(no_mangle)]
pub extern "C" fn mldsa87_public_key_to_der(public_key: &[u8], public_key_der: &mut [u8]) -> u32
    ensures { PublicKeyToDer MlDsa87 public_key.now public_key_der.old public_key_der.new result }
{
    der::public_key_to_der(SetName::MlDsa87, public_key, public_key_der)
}

/// Reads a public key in DER.
#[unsafe(no_mangle)]
pub extern "C" fn mldsa87_public_key_from_der(public_key_der: &[u8], public_key: &mut [u8]) -> u32
    ensures { PublicKeyFromDer MlDsa87 public_key_der.now public_key.old public_key.new result }
{
    der::public_key_from_der(SetName::MlDsa87, public_key_der, public_key)
}

/// Writes a private key in DER, by its seed.
#[unsafe(no_mangle)]
pub extern "C" fn mldsa87_seed_to_der(seed: &[u8], seed_der: &mut [u8]) -> u32
    ensures { SeedToDer MlDsa87 seed.now seed_der.old seed_der.new result }
{
    der::seed_to_der(SetName::MlDsa87, seed, seed_der)
}

/// Writes a private key in DER, by its expanded key.
#[unsafe(no_mangle)]
pub extern "C" fn mldsa87_private_key_to_der(private_key: &[u8], private_key_der: &mut [u8]) -> u32
    ensures { PrivateKeyToDer MlDsa87 private_key.now private_key_der.old private_key_der.new result }
{
    der::private_key_to_der(SetName::MlDsa87, private_key, private_key_der)
}

/// Writes a private key in DER, by its seed and its expanded key.
#[unsafe(no_mangle)]
pub extern "C" fn mldsa87_both_to_der(seed: &[u8], both_der: &mut [u8]) -> u32
    ensures { BothToDer MlDsa87 seed.now both_der.old both_der.new result }
{
    der::both_to_der(SetName::MlDsa87, seed, both_der)
}

/// Reads a private key in DER.
#[unsafe(no_mangle)]
pub extern "C" fn mldsa87_private_key_from_der(
    private_key_der: &[u8],
    private_key: &mut [u8],
) -> u32
    ensures { PrivateKeyFromDer MlDsa87 private_key_der.now private_key.old private_key.new result }
{
    der::private_key_from_der(SetName::MlDsa87, private_key_der, private_key)
}

/// Reads the seed of a private key in DER.
#[unsafe(no_mangle)]
pub extern "C" fn mldsa87_seed_from_der(seed_der: &[u8], seed: &mut [u8]) -> u32
    ensures { SeedFromDer MlDsa87 seed_der.now seed.old seed.new result }
{
    der::seed_from_der(SetName::MlDsa87, seed_der, seed)
}

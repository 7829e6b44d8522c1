//! The parameter sets (FIPS 204, Tables 1 and 2): their names, with the lengths of keys and signatures, and the types
//! that implement `Set`.
#![tactic(auto)]

ghost use Rattle.std.specs.Prelude.{◌≡◌, ◌≤◌, ◌*◌};
ghost use Rattle.fips204.specs.ParameterSets.{ParameterSet, IsSet, public_key_length, private_key_length};
ghost use Rattle.fips204.specs.ParameterSets.{signature_length};
ghost use Rattle.fips204.specs.PreparedBytes.{prepared_public_length, prepared_private_length};
ghost use Rattle.fips204.specs.Sets.{HasKeySizes, HasSizes, set_of, named_set};

use crate::types::Params;
use crate::{ml_dsa_44, ml_dsa_65, ml_dsa_87};

/// A parameter set by its name.
// Contracts see it as its row of the tables.
#[derive(Debug, Clone, Copy, PartialEq, Eq)]
pub enum SetName {
    /// ML-DSA-44.
    MlDsa44,
    /// ML-DSA-65.
    MlDsa65,
    /// ML-DSA-87.
    MlDsa87,
}

impl SetName {
    /// The number of bytes of a public key.
    pub fn public_key_len(self) -> usize
        ensures { result ≡ public_key_length (named_set self) }
    {
        match self {
            SetName::MlDsa44 => ml_dsa_44::PK_LEN,
            SetName::MlDsa65 => ml_dsa_65::PK_LEN,
            SetName::MlDsa87 => ml_dsa_87::PK_LEN,
        }
    }

    /// The number of bytes of a private key.
    #[tactic(auto, unfolding(fips204_base::specs::Packing::bit_length))]
    pub fn private_key_len(self) -> usize
        ensures { result ≡ private_key_length (named_set self) }
    {
        match self {
            SetName::MlDsa44 => ml_dsa_44::SK_LEN,
            SetName::MlDsa65 => ml_dsa_65::SK_LEN,
            SetName::MlDsa87 => ml_dsa_87::SK_LEN,
        }
    }

    /// The number of bytes of a prepared public key.
    pub fn prepared_public_key_len(self) -> usize
        ensures { result ≡ prepared_public_length (named_set self) }
    {
        match self {
            SetName::MlDsa44 => ml_dsa_44::PREPARED_PK_LEN,
            SetName::MlDsa65 => ml_dsa_65::PREPARED_PK_LEN,
            SetName::MlDsa87 => ml_dsa_87::PREPARED_PK_LEN,
        }
    }

    /// The number of bytes of a prepared private key.
    #[tactic(auto, unfolding(fips204_base::specs::Packing::bit_length))]
    pub fn prepared_private_key_len(self) -> usize
        ensures { result ≡ prepared_private_length (named_set self) }
    {
        match self {
            SetName::MlDsa44 => ml_dsa_44::PREPARED_SK_LEN,
            SetName::MlDsa65 => ml_dsa_65::PREPARED_SK_LEN,
            SetName::MlDsa87 => ml_dsa_87::PREPARED_SK_LEN,
        }
    }

    /// The number of bytes of a signature.
    #[tactic(auto, unfolding(fips204_base::specs::Packing::bit_length))]
    pub fn signature_len(self) -> usize
        ensures { result ≡ signature_length (named_set self) }
    {
        match self {
            SetName::MlDsa44 => ml_dsa_44::SIG_LEN,
            SetName::MlDsa65 => ml_dsa_65::SIG_LEN,
            SetName::MlDsa87 => ml_dsa_87::SIG_LEN,
        }
    }
}

/// A parameter set: its numbers, and the byte arrays of its keys and signatures.
pub trait Set: Sized {
    /// The array of a signature.
    type Signature;

    /// The array of a public key.
    type PublicKey;

    /// The array of a private key.
    type PrivateKey;

    // The set's row of the standard's tables.
    ghost set: { ParameterSet };

    // It is one of the three.
    ghost known: { IsSet set };

    /// The numbers of the row.
    fn params() -> Params
        ensures { set_of result ≡ set };
}

/// The sizes of a parameter set's signatures: a matrix of `K` rows and `L` columns, and `SIG_LEN` bytes.
pub trait SignatureSizes<const K: usize, const L: usize, const SIG_LEN: usize>: Set {
    // They are those of the set's row.
    ghost sizes: { HasSizes Self.set K L SIG_LEN };

    // They are no larger than those of the largest set.
    ghost small: { (K ≤ 8) × (L ≤ 7) × (K * (L * 1024) ≤ 57344) × (SIG_LEN ≤ 4627) };
}

/// The sizes of a parameter set's keys: a matrix of `K` rows and `L` columns, `PK_LEN` bytes of a public key, and
/// `SK_LEN` bytes of a private one.
pub trait KeySizes<const K: usize, const L: usize, const PK_LEN: usize, const SK_LEN: usize>: Set {
    // They are those of the set's row.
    ghost key_sizes: { HasKeySizes Self.set K L PK_LEN SK_LEN };

    // They are no larger than those of the largest set.
    ghost small_keys: { (PK_LEN ≤ 2592) × (SK_LEN ≤ 4896) };
}

/// A matrix of `K` rows and `L` columns, which determines the parameter set of a key type.
pub struct Matrix<const K: usize, const L: usize>;

/// The set that has this matrix.
pub trait HasSet: Sized {
    /// The set.
    type Set;
}

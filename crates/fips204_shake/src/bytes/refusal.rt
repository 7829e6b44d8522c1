//! Why a call does nothing.
#![tactic(auto)]

ghost use Rattle.std.specs.Prelude.{◌≡◌};
ghost use Rattle.fips204_shake.specs.declared.bytes.refusal.Refusal.TheVariants.{Library};

use fips204::Fault;

/// Which argument has the wrong length.
#[derive(Debug, Clone, Copy, PartialEq, Eq)]
pub enum Buffer {
    /// That of a public key.
    PublicKey,
    /// That of a private key.
    PrivateKey,
    /// That of a signature.
    Signature,
    /// That of a prepared public key.
    PreparedPublicKey,
    /// That of a prepared private key.
    PreparedPrivateKey,
}

/// Why a call does nothing.
#[derive(Debug, Clone, Copy, PartialEq, Eq)]
pub enum Refusal {
    /// This argument does not have the length that the parameter set wants.
    Length(Buffer),
    /// The library's error.
    Library(Fault),
    /// No prepared key has these bytes: a value of the matrix is `q` or more, or a coefficient of s1 or s2 is out of range.
    NotPrepared,
}

impl From<Fault> for Refusal {
    ghost from_gives = { λ fault e. e ≡ Library fault };

    fn from(fault: Fault) -> Refusal {
        Refusal::Library(fault)
    }
}

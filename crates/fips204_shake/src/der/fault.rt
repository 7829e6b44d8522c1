//! What is wrong with the DER of a key.
#![tactic(auto)]

ghost use Rattle.std.specs.Prelude.{◌≡◌};
ghost use Rattle.fips204_shake.specs.DerFaults.{sentence};

/// Why bytes are not a key in DER: the first fault from their beginning.
#[derive(Debug, Clone, Copy, PartialEq, Eq)]
pub enum DerFault {
    /// An element is longer than what holds it.
    Short,
    /// Something follows the last element.
    Behind,
    /// Another element is expected, or a length has another form.
    Element,
    /// The version of a private key is not 0.
    Version,
    /// The algorithm is none of the three.
    OtherAlgorithm,
    /// A seed or key has another length than those of its algorithm.
    KeyLength,
}

impl DerFault {
    /// A sentence about "it", the file.
    pub fn as_str(&self) -> &'static str
        ensures { result.now ≡ sentence self.now }
    {
        match self {
            DerFault::Short => "its DER is cut short",
            DerFault::Behind => "more follows behind the end of its DER",
            DerFault::Element => "its DER is damaged",
            DerFault::Version => "it has a private key of another version",
            DerFault::OtherAlgorithm => "its key is not one of ML-DSA-44, ML-DSA-65 or ML-DSA-87",
            DerFault::KeyLength => "its key has a wrong length",
        }
    }
}

//! What is signed: the argument of `sign_input` and `accepts_input`.
#![tactic(auto)]

/// The input that is signed.
// Contracts see it as the `Input` of the definitions.
#[derive(Debug, Clone, Copy)]
pub enum Input<'a> {
    /// A message, and its context (FIPS 204, Algorithms 2 and 3).
    Message(&'a [u8], &'a [u8]),
    /// A digest, its context, and the DER object identifier of its hash function (Algorithms 4 and 5).
    Digest(&'a [u8], &'a [u8], &'a [u8]),
    /// A framed message M' (Algorithms 7 and 8).
    Framed(&'a [u8]),
    /// The hash mu of a framed message (Algorithms 7 and 8, with mu given).
    Mu(&'a [u8; 64]),
}

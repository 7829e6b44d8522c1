//! What is wrong with the text of a key.
#![tactic(auto)]

/// Why a text is no key of the wanted kind in PEM: the first fault from its beginning.
#[derive(Debug, Clone, Copy, PartialEq, Eq)]
pub enum PemFault {
    /// No first line is there.
    NotPem,
    /// It has a private key that is encrypted.
    Encrypted,
    /// It has a certificate.
    Certificate,
    /// It has a public key in place of a private one, or the other way round.
    OtherKind,
    /// Its first line has another label.
    OtherLabel,
    /// It ends before its last line does.
    CutShort,
    /// Another text follows.
    Behind,
    /// What stands between its first and its last line is not base64.
    Damaged,
    /// It spells more bytes than there is room for.
    TooLong,
}

//! Files that have a private key of whatever kind.
#![tactic(auto)]

use std::fs::{File, OpenFile};
use std::io::{self, Read};

/// How a text's first line begins.
const BEGIN: &[u8] = b"-----BEGIN ";

/// The longest label that is looked for, with what stands before it.
const LONGEST: usize = 128;

/// How many bytes are read at once.
const PIECE: usize = 65536;

/// Whether a line of a file is the first of a private key's text, whatever stands before it.
pub(crate) fn has_private_label(rt: &HostRuntime, path: &str) -> io::Result<bool> {
    let mut file = File::open(rt, path)?;
    let mut piece = Vec::new(rt.alloc());
    for _count in 0..u64::MAX {
        // A label may stand over the end of the piece before.
        let mut next = Vec::new(rt.alloc());
        next.extend_from_slice(end_of(piece.as_slice()))?;
        let count = (&mut file).take(PIECE as u64).read_to_end(&mut next)?;
        if count == 0 {
            break;
        }
        if labels_private(next.as_slice()) {
            return Ok(true);
        }
        piece = next;
    }
    Ok(false)
}

/// The end of bytes that a label may begin in.
fn end_of(bytes: &[u8]) -> &[u8] {
    &bytes[bytes.len().saturating_sub(LONGEST)..]
}

/// Whether these bytes have the first line of a private key's text.
pub(crate) fn labels_private(bytes: &[u8]) -> bool {
    for start in 0..bytes.len() {
        if let Some(rest) = bytes[start..].strip_prefix(BEGIN) {
            if is_private_label(rest) {
                return true;
            }
        }
    }
    false
}

/// Whether these bytes begin with the label of a private key.
fn is_private_label(rest: &[u8]) -> bool {
    let Some(size) = rest.iter().position(|byte| matches!(*byte, b'-' | b'\n')) else {
        return false;
    };
    let label = &rest[..size];
    label.ends_with(b"PRIVATE KEY") || label.ends_with(b"PRIVATE KEY BLOCK")
}

/// Whether a file with these bytes may be a private key that has no text: as many raw bytes as one has, or the DER of any algorithm's,
/// which begins with its version.
pub(crate) fn is_other_private_key(bytes: &[u8]) -> bool {
    if matches!(bytes.len(), 32 | 2560 | 4032 | 4896) {
        return true;
    }
    let contents = match bytes {
        [48, 129, _, contents @ ..] | [48, 130, _, _, contents @ ..] | [48, _, contents @ ..] => {
            contents
        }
        _ => return false,
    };
    matches!(contents, [2, 1, 0 | 1, ..])
}

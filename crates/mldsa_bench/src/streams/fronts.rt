//! The outputs of the XOFs. The expected bytes were computed with Python's `hashlib`.
#![tactic(auto)]

ghost use Rattle.std.specs.Prelude.{◌≤◌};

use crate::values::has_text;
use fips204::xof::{
    Fill, FrontReader, Sha256Ctr, Sha256CtrLong, Sha512Ctr, Sha512CtrLong, Xof, XofReader,
};
use hex::FromHexError;
use sha2::{Digest, Sha256, Sha512};
use std::alloc::Global;

fn front<H: Xof, const N: usize>(parts: &[&[u8]]) -> [u8; N]
    requires { N ≤ H.FRONT }
{
    let mut out = [0u8; N];
    H::open(parts).read(&mut out);
    out
}

/// Whether the output of `abc`, of `N` bytes, whole and cut in three, begins and ends with these bytes and has this
/// SHA-256, all in hex.
fn has_front<H: Xof, const N: usize>(alloc: Global, text: [&str; 3]) -> Result<bool, FromHexError>
    requires { N ≤ H.FRONT }
{
    let whole = front::<H, N>(&[b"abc", b"", b""]);
    let cut = front::<H, N>(&[b"a", b"", b"bc"]);
    let starts = whole.starts_with(hex::decode(alloc, text[0])?.as_slice());
    let ends = whole.ends_with(hex::decode(alloc, text[1])?.as_slice());
    let same = has_text(alloc, Sha256::digest(whole).as_slice(), text[2])?;
    Ok(cut == whole && starts && ends && same)
}

/// Whether a reader gives the output of `abc`, of `N` bytes, in pieces of each of these sizes, and then has none left.
fn comes_in_pieces<H: Xof, const N: usize>(sizes: &[usize]) -> bool
    requires { N ≤ H.FRONT }
{
    let whole = front::<H, N>(&[b"abc"]);
    for size in sizes {
        let mut reader = H::open(&[b"abc"]);
        let mut joined = [0u8; N];
        for piece in joined.chunks_mut((*size).max(1)) {
            if piece.len() > reader.left() {
                return false;
            }
            reader.read(piece);
        }
        if joined != whole || reader.left() != 0 {
            return false;
        }
    }
    true
}

/// SHA-256 of `abc`, which the counter XOFs start from, and the outputs of these XOFs over `abc`, whole and cut in
/// three: first and last block, and the SHA-256 of all 4096 bytes and of all 16384, from Python.
#[test]
fn sha256_counter_fronts(rt: HostRuntime) {
    let digest = "ba7816bf8f01cfea414140de5dae2223b00361a396177a9cb410ff61f20015ad";
    let start = has_text(rt.alloc(), Sha256::digest(b"abc").as_slice(), digest);
    let first = "7c9bbb36dd3046a17eaaf5cf578b09b2da8b77af4e6087533990f8266c4434d4";
    let last = "da937ab2c6ef33db074d92e4a0c771c03a09b77081ba1c81832637f8dc037344";
    let digest = "3877dda6e5b6cd94f65876837b2e9b0e4ddd74b558309906ba303e3225c47dd6";
    let short = has_front::<Sha256Ctr, 4096>(rt.alloc(), [first, last, digest]);
    let last = "ab7a852167150d7f6f8b94b218b40c9459f7af3e30f7e459cd5307bd14c5dd5f";
    let digest = "8b48cef8b2d1b9aa813f0599f6bd5cf19d7413308558ae7ce4fbcb243c576212";
    let long = has_front::<Sha256CtrLong, 16384>(rt.alloc(), [first, last, digest]);
    assert_eq!(rt; [start, short, long], [Ok(true), Ok(true), Ok(true)]);
}

/// The same of SHA-512 and its counter XOFs.
#[test]
fn sha512_counter_fronts(rt: HostRuntime) {
    let digest = "ddaf35a193617abacc417349ae20413112e6fa4e89a97ea20a9eeee64b55d39a\
2192992a274fc1a836ba3c23a3feebbd454d4423643ce80e2a9ac94fa54ca49f";
    let start = has_text(rt.alloc(), Sha512::digest(b"abc").as_slice(), digest);
    let first = "a6516db8a72d238b6601010bff0f00efa6a2b36fa1f7efc0f7c2144e5ba936e4\
c3dbf79ba1a4c9bbf5f8f9882c29bdce4ca8193517cb7dcc33eb53e39dc2abb7";
    let last = "3b890eaa8add7ec45032b357d327d38ee08ed83c0469ef386ded9b8c7a6f8708\
1e9ba0824002aa4fbe0cb94bb3c0a0493bac72b8439c85cc00865370edc1aee1";
    let digest = "54b615cc53cf77f93bd8213a0b540d245b72592e574ddb063cf641ca0259c89e";
    let short = has_front::<Sha512Ctr, 4096>(rt.alloc(), [first, last, digest]);
    let last = "a4ca646faa63c7a6aa57ac02337eab80d163637ac4e705c996777969b72d5d9c\
e10d54b4f6907338d720d91ea01fd33a596bd7424b730c69cad720339e2a8839";
    let digest = "48107536c17ee63c93e596561c9a594b3502ebe34c928ec2a4507ed68dfadc40";
    let long = has_front::<Sha512CtrLong, 16384>(rt.alloc(), [first, last, digest]);
    assert_eq!(rt; [start, short, long], [Ok(true), Ok(true), Ok(true)]);
}

/// A constant XOF is 4096 times its byte. In pieces of several sizes, around each block length and up to the whole, a
/// output has the same bytes, and none are left. A reader of an array gives its bytes in turn.
#[test]
fn fronts_in_pieces(rt: HostRuntime) {
    let sizes = [1, 7, 31, 32, 33, 63, 64, 65, 100, 200, 4095, 4096].as_slice();
    let long = [33, 100, 4096, 16384].as_slice();
    let same = [
        front::<Fill<0x55>, 4096>(&[b"abc"]) == [0x55; 4096],
        front::<Fill<0x00>, 4096>(&[]) == [0; 4096],
        comes_in_pieces::<Sha256Ctr, 4096>(sizes),
        comes_in_pieces::<Sha512Ctr, 4096>(sizes),
        comes_in_pieces::<Fill<0x55>, 4096>(sizes),
        comes_in_pieces::<Sha256CtrLong, 16384>(long),
        comes_in_pieces::<Sha512CtrLong, 16384>(long),
    ];
    let mut reader = FrontReader::new([1, 2, 3, 4, 5]);
    let (mut first, mut second) = ([0u8; 2], [0u8; 3]);
    reader.read(&mut first);
    let left = reader.left();
    reader.read(&mut second);
    let found = (first, left, second, reader.left());
    assert_eq!(rt; (same, found), ([true; 7], ([1, 2], 3, [3, 4, 5], 0)));
}

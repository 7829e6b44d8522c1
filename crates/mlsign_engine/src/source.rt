//! What gives a message.
#![tactic(auto)]

ghost use Rattle.std.specs.Prelude.{◌≡◌, ℕ, List, Option, MatchOption, true, false};
ghost use Rattle.mlsign_engine.specs.Messages.{GivesPiece};

use std::io::Read;

/// What gives a message piece by piece: a reader does, as a `Reader`.
///
/// Its `gives` lets a contract name the calls that were made, and so tell a message that could not be read.
pub trait Source: Sized {
    // The bytes that it will give from here on, where they are known.
    ghost remaining: { Self → Option (List ℕ) };

    // A call of it may return this, fill the room so, and leave it so.
    ghost gives: { Self → Option ℕ → List ℕ → Self → Type 0 };

    /// Puts the next bytes at the start of the room, and returns how many: none at the end, or if there is no room.
    /// Returns `None` if it fails.
    fn give(&mut self, room: &mut [u8]) -> Option<usize>
        ensures call { gives self.old result room.new self.new }
        ensures bytes { GivesPiece (remaining self.old) (remaining self.new) result room.new };
}

/// A reader that notes that a call failed: what a reader itself states of such a call, it may state of another too.
#[derive(Drop)]
pub struct Reader<R> {
    /// The reader.
    pub reader: R,
    /// Whether a call failed.
    pub failed: bool,
}

impl<R> Reader<R> {
    /// A reader of which no call failed.
    pub fn new(reader: R) -> Reader<R>
        ensures reader { result.reader ≡ reader }
        ensures failed { result.failed ≡ false }
    {
        Reader {
            reader,
            failed: false,
        }
    }
}

impl<R: Read> Source for Reader<R> {
    ghost remaining = { λ source. R.Read.remaining source.reader };

    // What a reader states of a call. A call that fails is noted, and no other.
    ghost gives = { λ old given room new. GivesPiece (R.Read.remaining old.reader) (R.Read.remaining new.reader) given room
        × MatchOption given (new.failed ≡ true) (λ _. new.failed ≡ old.failed) };

    fn give(&mut self, room: &mut [u8]) -> Option<usize> {
        match self.reader.read(room) {
            Ok(count) => Some(count),
            Err(_) => {
                self.failed = true;
                None
            }
        }
    }
}

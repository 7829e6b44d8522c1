//! A reader whose single bytes come from a buffer.
#![tactic(auto)]

ghost use Rattle.std.specs.Prelude.{IfSome, Some};
ghost use Rattle.std.specs.Io.{ReadsAtMost};
ghost use Rattle.std.specs.Io.KnownBytes.{ReadConsumes};

use std::io::{self, BufRead, Read};

/// A buffered reader that takes single bytes out of the buffer and reads longer pieces as the reader itself
/// does. So a file is read a byte at a time without a system call for each, and from a pipe, where only
/// single bytes are buffered, a longer piece comes in as few calls as the pipe allows. It tells none of its
/// bytes, but what a call returns stands at the start of those that the reader tells.
#[derive(Drop)]
pub struct Bytewise<B> {
    pub reader: B,
}

impl<B: BufRead> Read for Bytewise<B> {
    fn read(&mut self, room: &mut [u8]) -> io::Result<usize>
        ensures bound { ReadsAtMost result room.new }
        ensures told { IfSome (B.remaining self.old.reader)
            (λ xs. ReadConsumes (Some xs) (B.remaining self.new.reader) result room.new) }
    {
        if room.len() != 1 {
            return self.reader.read(room);
        }
        let Some(byte) = self.reader.fill_buf()?.first().copied() else {
            return Ok(0);
        };
        self.reader.consume(1);
        room[0] = byte;
        Ok(1)
    }
}

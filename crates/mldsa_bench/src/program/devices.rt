//! Readers and writers that move few bytes a call, count their calls and fail at a given one, and the
//! edges of a process that a test makes.
#![tactic(auto)]

ghost use Rattle.std.specs.Prelude.{◌≤◌, IfOk};

use std::cell::RefCell;
use std::env::FillError;
use std::fmt::Display;
use std::io::{self, Read, Write};
use std::rt::Env;

/// How a device moves bytes: at most so many a call. It counts its calls from 0, and fails at the one of this number.
#[derive(Clone, Copy)]
pub struct Pace {
    pub most: usize,
    pub calls: usize,
    pub fails_at: usize,
}

/// All that is asked for, and no failure.
pub const WHOLE: Pace = Pace {
    most: usize::MAX,
    calls: 0,
    fails_at: usize::MAX,
};

/// A byte a call, and no failure.
pub const BY_BYTES: Pace = Pace { most: 1, ..WHOLE };

/// A byte a call, and a failure at the call of this number.
pub fn stopping(fails_at: usize) -> Pace {
    Pace {
        fails_at,
        ..BY_BYTES
    }
}

impl Pace {
    /// Counts a call that could move so many bytes, and returns how many it moves.
    fn step(&mut self, bytes: usize) -> io::Result<usize>
        ensures { IfOk result (λ count. count ≤ bytes) }
    {
        let call = self.calls;
        self.calls = call.saturating_add(1);
        if call == self.fails_at {
            return Err(io::Error::from(io::ErrorKind::BrokenPipe));
        }
        Ok(bytes.min(self.most))
    }
}

/// A reader of these bytes.
#[derive(Drop)]
pub struct Trickle<'a> {
    pub bytes: &'a [u8],
    pub pace: Pace,
}

impl Read for Trickle<'_> {
    fn read(&mut self, buf: &mut [u8]) -> io::Result<usize> {
        let count = self.pace.step(self.bytes.len().min(buf.len()))?;
        buf[..count].copy_from_slice(&self.bytes[..count]);
        self.bytes = &self.bytes[count..];
        Ok(count)
    }
}

/// A writer that keeps what it takes.
#[derive(Drop)]
pub struct Drip {
    pub taken: Vec<u8>,
    pub pace: Pace,
}

impl Write for Drip {
    fn write(&mut self, buf: &[u8]) -> io::Result<usize> {
        let count = self.pace.step(buf.len())?;
        self.taken.extend_from_slice(&buf[..count])?;
        Ok(count)
    }

    fn flush(&mut self) -> io::Result<()> {
        Ok(())
    }
}

/// A process with these arguments, of which the first is the program's name, and no environment.
#[derive(Clone, Copy)]
pub struct Arguments<'a>(pub &'a [&'a [u8]]);

impl Env for Arguments<'_> {
    fn arg(&self, i: usize, buf: &mut [u8]) -> Result<usize, FillError> {
        let argument = self.0.get(i).ok_or(FillError::NotPresent)?;
        let room = buf.get_mut(..argument.len()).ok_or(FillError::TooLong)?;
        room.copy_from_slice(argument);
        Ok(argument.len())
    }

    fn var(&self, _name: &str, _buf: &mut [u8]) -> Result<usize, FillError> {
        Err(FillError::NotPresent)
    }

    fn var_at(&self, _i: usize, _buf: &mut [u8]) -> Result<usize, FillError> {
        Err(FillError::NotPresent)
    }
}

/// A standard error that keeps what is printed.
#[derive(Drop)]
pub struct KeptError(pub RefCell<String>);

impl Eprint for KeptError {
    fn eprint<D: Display + Drop>(&self, value: D) -> io::Result<()> {
        match self.0.try_borrow_mut() {
            Ok(mut text) => Ok(write!(text, "{value}")?),
            Err(_) => Err(io::Error::from(io::ErrorKind::Other)),
        }
    }

    fn eprintln<D: Display + Drop>(&self, value: D) -> io::Result<()> {
        self.eprint(value)?;
        self.eprint("\n")
    }
}

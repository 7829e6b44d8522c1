//! Devices with a mark.
#![tactic(auto)]

ghost use Rattle.std.specs.Prelude.{◌≡◌, ◌<◌, ◌≤◌, length, false, true, IfOk, MatchResult};
ghost use Rattle.std.specs.Io.KnownBytes.{ReadConsumes, WriteAppends};

use crate::fault::RunFault;
use std::io::{Read, Write};
use std::marker::Model;

/// A reader or writer with a mark, which is unset at first. A call of the device that fails sets it, and
/// nothing else does: a failure is an error, or a write that was given bytes and took none.
#[derive(Drop)]
pub struct Marked<D> {
    device: D,
    failed: bool,
}

impl<D> Model for Marked<D> {
    ghost use Rattle.mldsa_engine.specs.Devices.{MarkedDevice, marked_code};

    ghost Value = { MarkedDevice D };

    ghost coded = { marked_code D.code };

    ghost view = { λ marked. record { device = marked.device; failed = marked.failed } };
}

impl<D> Marked<D> {
    /// The device, unmarked.
    pub fn new(device: D) -> Marked<D>
        ensures device { result.device ≡ device }
        ensures unmarked { result.failed ≡ false }
    {
        Marked {
            device,
            failed: false,
        }
    }

    /// Whether the mark is set.
    pub fn failed(&self) -> bool
        ensures { result ≡ self.now.failed }
    {
        self.failed
    }

    /// The device, without its mark.
    pub fn into_device(self) -> D
        ensures { result ≡ self.device }
    {
        let Marked { device, failed: _ } = self;
        device
    }
}

impl<D: Read> Marked<D> {
    /// Reads from the device once, and returns how many bytes it gave: none at the end of the input, or if
    /// there is no room.
    pub fn read(&mut self, room: &mut [u8]) -> Result<usize, RunFault>
        requires unmarked { self.old.failed ≡ false }
        ensures mark { MatchResult result (λ _. self.new.failed ≡ false)
            (λ fault. (self.new.failed ≡ true) × (fault ≡ RunFault.Read)) }
        ensures bound { IfOk result (λ count. count ≤ length room.new) }
        ensures bytes { ReadConsumes (D.remaining self.old.device) (D.remaining self.new.device) result room.new }
    {
        match self.device.read(room) {
            Ok(count) => Ok(count),
            Err(_) => {
                self.failed = true;
                Err(RunFault::Read)
            }
        }
    }
}

impl<D: Write> Marked<D> {
    /// Writes to the device once, and returns how many bytes it took: some, unless there are none.
    pub fn write(&mut self, bytes: &[u8]) -> Result<usize, RunFault>
        requires unmarked { self.old.failed ≡ false }
        ensures mark { MatchResult result (λ _. self.new.failed ≡ false)
            (λ fault. (self.new.failed ≡ true) × (fault ≡ RunFault.Write)) }
        ensures bound { IfOk result (λ count. count ≤ length bytes.now) }
        ensures some { IfOk result (λ count. 0 < length bytes.now → 0 < count) }
        ensures bytes { WriteAppends (D.contents self.old.device) (D.contents self.new.device) result bytes.now }
    {
        match self.device.write(bytes) {
            Ok(count) if count > 0 || bytes.is_empty() => Ok(count),
            _ => {
                self.failed = true;
                Err(RunFault::Write)
            }
        }
    }
}

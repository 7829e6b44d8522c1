//! What a run writes.
#![tactic(auto)]

ghost use Rattle.std.specs.Prelude.{◌≡◌, false, true, MatchResult};
ghost use Rattle.std.specs.Io.KnownBytes.{Appends};

use crate::fault::RunFault;
use crate::marked::Marked;
use std::io::Write;

/// Writes all of these bytes: in one call of the device if it takes them all, and in none if there are none.
pub fn write_all<O: Write>(output: &mut Marked<O>, bytes: &[u8]) -> Result<(), RunFault>
    requires unmarked { output.old.failed ≡ false }
    ensures { MatchResult result
        (λ _. (output.new.failed ≡ false) × Appends (O.contents output.old.device) (O.contents output.new.device) bytes.now)
        (λ fault. (output.new.failed ≡ true) × (fault ≡ RunFault.Write)) }
{
    let mut written = 0;
    while written < bytes.len() {
        let count = output.write(&bytes[written..])?;
        written += count;
    }
    Ok(())
}

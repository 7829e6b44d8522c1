//! Runs of every command at every set that succeed, with their reads and writes counted.
#![tactic(auto)]

use crate::program::devices::{BY_BYTES, WHOLE};
use crate::program::runs::{ensure, may_vary, told};
use crate::program::texts::{parted, spelt};
use std::alloc::Global;
use std::test::Fail;

/// The reads of an input where the reader returns all that it is asked for: pieces of 4096 bytes of a line of known
/// length, and single bytes of any other, each with its LF.
fn reads_of(command: &str, input: &str) -> usize {
    let mut reads = 0usize;
    for (index, line) in input.lines().enumerate() {
        let piece = if may_vary(command, index) { 1 } else { 4096 };
        reads = reads.wrapping_add(1 + line.len() / piece);
    }
    reads
}

/// Fails with its input unless a run writes this, succeeds if that has no `no`, reads no more often than its lines
/// need, and leaves what follows unread; and the same where each device moves a byte a call.
fn goes(alloc: Global, call: [&str; 3], text: &str, output: &str) -> Result<(), Fail> {
    let mut input = spelt(alloc, call, text)?;
    let written = spelt(alloc, call, output)?;
    let answer = !written.contains("no");
    let whole = [reads_of(call[1], input.as_str()), 1];
    let by_bytes = [input.len(), written.len()];
    input.push_str("rest")?;
    for (pace, calls) in [(WHOLE, whole), (BY_BYTES, by_bytes)] {
        let told = told(alloc, [pace; 2], call, input.as_bytes(), written.as_bytes())?;
        let ended = told.answer == Ok(answer) && told.right;
        ensure(ended && told.unread == 4 && told.calls == calls, text)?;
    }
    Ok(())
}

/// Each command with its input and what it writes, with the recorded pair and signature, which belong to 32 bytes 00
/// and the message `00`; `other` is what another message or context gives.
const COMMANDS: &str = "\
keygen | 00*32, | public,private,
id | public, | public,hash,
sign | private,00*32,,00, | good,
check | 00*32,00*32,,00, | yes,
verify | public,good,,00, | yes,
verify | public,good,00*256,00, | no,
verify | public,good,,01, | other,
verify | public,good,00,00, | other,
batch | public,,0002,good,00,good,00, | yes,yes,
batch | public,,0003,good,00,good,01,good,00, | yes,other,yes,";

/// Each command at each set, over the counter XOFs, and over constant ones, where any message has the same signature:
/// byte for byte, with its reads and writes counted and what follows unread. Over the counter XOFs `no` with another
/// message or context.
#[test]
fn each_command_at_each_set(rt: HostRuntime) -> Result<(), Fail> {
    for streams in ["sha2", "fill55"] {
        for set in ["44", "65", "87"] {
            for case in COMMANDS.lines() {
                let (command, case) = parted(case, " | ");
                let (input, output) = parted(case, " | ");
                goes(rt.alloc(), [streams, command, set], input, output)?;
            }
        }
    }
    Ok(())
}

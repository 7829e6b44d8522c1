//! Each line of an input is judged before anything that follows it is read.
#![tactic(auto)]

use crate::program::devices::{BY_BYTES, WHOLE, stopping};
use crate::program::runs::{ensure, may_vary, told};
use crate::program::texts::{parted, spelt};
use mldsa_engine::RunFault;
use std::alloc::Global;
use std::test::Fail;

/// Fails unless a line that follows others ends a run in this fault, or that none follows, and nothing is written:
/// where the reader gives a byte a call and fails at the call after the line, and also where it gives all that it is
/// asked for.
fn is_judged(
    alloc: Global,
    call: [&str; 3],
    before: &str,
    line: &str,
    fault: RunFault,
) -> Result<(), Fail> {
    let rest = if line.is_empty() { "" } else { "00\n00\n00\n" };
    let input = format!(in alloc; "{before}{line}{rest}")?;
    // The end of the input takes a call.
    let reads = before.len().wrapping_add(line.len().max(1));
    let paces = [stopping(reads), BY_BYTES];
    let at_once = told(alloc, paces, call, input.as_bytes(), b"")?;
    let ended = at_once.answer == Err(fault) && at_once.right;
    ensure(ended && at_once.calls == [reads, 0], line)?;
    let whole = told(alloc, [WHOLE; 2], call, input.as_bytes(), b"")?;
    let ended = whole.answer == Err(fault) && whole.right;
    ensure(ended && whole.calls[1] == 0, line)
}

/// Fails unless each fault of each of these lines, which are good, ends a run before anything that follows is read:
/// that it is missing, that it is no hex, and unless it may have any number of bytes, that it has not as many as here.
fn faults_in_turn(alloc: Global, call: [&str; 3], input: &str) -> Result<(), Fail> {
    let mut read = 0usize;
    for (index, good) in input.lines().enumerate() {
        let (line, wants) = (index.wrapping_add(1), good.len() / 2);
        let before = input.get(..read).unwrap_or("");
        is_judged(alloc, call, before, "", RunFault::Missing { line })?;
        for bad in ["0\n", "0g\n", "00 \n", "0x\n"] {
            is_judged(alloc, call, before, bad, RunFault::NotHex { line })?;
        }
        if !may_vary(call[1], index) {
            for has in [0, 1, wants.wrapping_sub(1), wants.wrapping_add(1)] {
                let bad = format!(in alloc; "{}\n", "00".repeat(alloc, has)?)?;
                let fault = RunFault::Length { line, wants, has };
                is_judged(alloc, call, before, bad.as_str(), fault)?;
            }
        }
        read = read.wrapping_add(good.len()).wrapping_add(1);
    }
    Ok(())
}

const COMMANDS: &str = "\
id | public,
keygen | 00*32,
sign | private,00*32,00,00,
verify | public,good,00,00,
check | 00*32,00*32,00,00,
batch | public,00,0002,good,00,good,00,";

/// Readers that count their calls, at each fault and each line: no line is read before the one before it is judged.
#[test]
fn each_line_is_judged_before_the_next_is_read(rt: HostRuntime) -> Result<(), Fail> {
    for set in ["44", "65", "87"] {
        for case in COMMANDS.lines() {
            let (command, input) = parted(case, " | ");
            let input = spelt(rt.alloc(), ["sha2", command, set], input)?;
            faults_in_turn(rt.alloc(), ["fill55", command, set], input.as_str())?;
        }
    }
    Ok(())
}

/// Lines longer than expected are judged with the characters that they have: one with a digit too many is too long,
/// whatever follows.
#[test]
fn lines_that_are_too_long(rt: HostRuntime) -> Result<(), Fail> {
    let call = ["fill55", "check", "44"];
    let digits = "0".repeat(rt.alloc(), 2097153)?;
    for (line, before) in [(1usize, ""), (4, "00*32,00*32,00,")] {
        let before = spelt(rt.alloc(), call, before)?;
        let fault = RunFault::TooLong { line };
        is_judged(rt.alloc(), call, before.as_str(), digits.as_str(), fault)?;
    }
    Ok(())
}

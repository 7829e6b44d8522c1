//! Runs over devices that move a byte a call and fail at each call, and over inputs that end at each byte.
#![tactic(auto)]

use crate::program::devices::{BY_BYTES, Pace, WHOLE, stopping};
use crate::program::runs::{may_vary, told};
use crate::program::texts::{parted, spelt};
use mldsa_engine::RunFault;
use std::alloc::Global;
use std::test::Fail;

/// A call with its input, and what it writes and returns on good devices.
#[derive(Drop)]
struct Run {
    call: [&'static str; 3],
    input: String,
    written: String,
    answer: bool,
}

/// The fault of an input that is cut so, or none where the last line is good.
fn fault_of_cut(run: &Run, cut: &str) -> Option<RunFault> {
    let mut lines = cut.lines();
    for (index, good) in run.input.lines().enumerate() {
        let (line, wants) = (index.wrapping_add(1), good.len() / 2);
        let Some(read) = lines.next() else {
            return Some(RunFault::Missing { line });
        };
        let has = read.len() / 2;
        if read.len() % 2 == 1 {
            return Some(RunFault::NotHex { line });
        } else if has < wants && !may_vary(run.call[1], index) {
            return Some(RunFault::Length { line, wants, has });
        }
    }
    None
}

/// Whether the call of this number, counted from 0, is tried where a run makes `last` calls: every one of `id` on a key
/// of zeros, and else the first and the last 300, and every 53rd between.
fn is_tried(run: &Run, call: usize, last: usize) -> bool {
    let every = run.written.starts_with("00");
    every || call < 300 || call % 53 == 0 || last.saturating_sub(call) <= 300
}

/// Fails unless a run on so many first bytes of its input and devices of these paces ends as it should: in the fault of
/// a reader that fails, then in that of its lines, with nothing written, then in that of a writer that fails, after the
/// bytes of the calls before it, and else as on good devices.
fn ends_so(alloc: Global, run: &Run, paces: [Pace; 2], cut: usize) -> Result<(), Fail> {
    let [reader, writer] = paces;
    let input = run.input.get(..cut).unwrap_or("");
    let unread = input.len().saturating_sub(reader.fails_at);
    let all = run.written.as_bytes();
    let (answer, written) = if unread > 0 {
        (Err(RunFault::Read), b"".as_slice())
    } else if let Some(fault) = fault_of_cut(run, input) {
        (Err(fault), b"".as_slice())
    } else if writer.fails_at < all.len() {
        (Err(RunFault::Write), &all[..writer.fails_at])
    } else {
        (Ok(run.answer), all)
    };
    let puts = written.len().div_ceil(writer.most.max(1));
    let writes = puts.wrapping_add(usize::from(answer == Err(RunFault::Write)));
    let told = told(alloc, paces, run.call, input.as_bytes(), written)?;
    let ended = told.answer == answer && told.right;
    if ended && told.unread == unread && told.calls[1] == writes {
        return Ok(());
    }
    let ([_, command, _], fails) = (run.call, (reader.fails_at, writer.fails_at));
    let words = format!(in alloc; "{command}: {cut} bytes, {} and {}", fails.0, fails.1)?;
    Err(Fail::new(words.as_str()))
}

/// Fails unless a case ends so where the reader fails, where the input ends and where the writer fails, at each call
/// that is tried. Each end of the input is tried also by devices that move all that is asked for.
fn fails_well(alloc: Global, case: &'static str) -> Result<(), Fail> {
    let (call, case) = parted(case, " | ");
    let (input, case) = parted(case, " | ");
    let (output, status) = parted(case, " | ");
    let (streams, call) = parted(call, "/");
    let (command, set) = parted(call, "/");
    let call = [streams, command, set];
    let run = Run {
        call,
        input: spelt(alloc, call, input)?,
        written: spelt(alloc, call, output)?,
        answer: status == "0",
    };
    let last = run.input.len();
    for count in 0..=last {
        ends_so(alloc, &run, [WHOLE; 2], count)?;
        if is_tried(&run, count, last) {
            ends_so(alloc, &run, [BY_BYTES; 2], count)?;
            ends_so(alloc, &run, [stopping(count), BY_BYTES], last)?;
        }
    }
    for count in 0..=run.written.len() {
        if is_tried(&run, count, run.written.len()) {
            ends_so(alloc, &run, [BY_BYTES, stopping(count)], last)?;
        }
    }
    Ok(())
}

/// A case a line, as `goes` takes it: batches of one and of two entries among them, and an error of the library.
const CASES: &str = "\
fill55/id/44 | 0*2624, | 0*2624,5*128, | 0
fill55/id/44 | public, | public,5*128, | 0
fill55/keygen/44 | 07*32, | public,private, | 0
fill55/sign/44 | private,07*32,636f6e74657874,6d657373616765, | good, | 0
fill55/verify/44 | public,good,636f6e74657874,6d657373616765, | yes, | 0
fill55/check/44 | 00*32,00*32,,00, | yes, | 0
fill55/check/44 | 07*32,09*32,,6d657373616765, | yes, | 0
fill55/batch/44 | public,636f6e74657874,0001,good,6d657373616765, | yes, | 0
fill55/batch/44 | public,636f6e74657874,0002,good,6d657373616765,bad,, | yes,no, | 1
fillff/keygen/65 | 0*64, | sampling limit reached, | 1";

/// Each command with devices of one byte a call, which fail at each call in turn (of long inputs and outputs at a choice
/// of calls), and with the input ended there: the fault, with nothing written, or the bytes of the calls before a failed
/// write.
#[test]
fn failing_devices_of_each_command(rt: HostRuntime) -> Result<(), Fail> {
    for case in CASES.lines() {
        fails_well(rt.alloc(), case)?;
    }
    Ok(())
}

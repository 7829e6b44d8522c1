//! Runs of the program over devices of the tests.
#![tactic(auto)]

use crate::program::devices::{Drip, Pace, Trickle, WHOLE};
use crate::program::texts::{parted, spelt};
use mldsa_engine::{Marked, RunFault, from_words};
use std::alloc::{AllocError, Global};
use std::test::Fail;

/// What a run did.
#[derive(Clone, Copy)]
pub struct Ended {
    pub answer: Result<bool, RunFault>,
    /// Whether it marked the device that its fault names and no other and, where this is compared, wrote what it should.
    pub right: bool,
    /// How many bytes it left unread.
    pub unread: usize,
    /// How often it called its reader and its writer.
    pub calls: [usize; 2],
}

/// A run of a call, which is its XOFs, its command and its set, on these bytes, with a reader and a writer of these
/// paces; and what it wrote.
pub fn run_of(
    alloc: Global,
    paces: [Pace; 2],
    call: [&str; 3],
    bytes: &[u8],
) -> Result<(Ended, Vec<u8>), AllocError> {
    let mut words = Vec::new(alloc);
    for word in call {
        words.push(String::from_str(alloc, word)?)?;
    }
    let [pace, writing] = paces;
    let mut input = Marked::new(Trickle { bytes, pace });
    let (taken, pace) = (Vec::new(alloc), writing);
    let mut output = Marked::new(Drip { taken, pace });
    let answer = from_words(alloc, words.as_slice(), &mut input, &mut output);
    let read = input.failed() == (answer == Err(RunFault::Read));
    let right = read && output.failed() == (answer == Err(RunFault::Write));
    let (reader, writer) = (input.into_device(), output.into_device());
    let calls = [reader.pace.calls, writer.pace.calls];
    let unread = reader.bytes.len();
    let told = Ended {
        answer,
        right,
        unread,
        calls,
    };
    Ok((told, writer.taken))
}

/// A run beside what it should write.
pub fn told(
    alloc: Global,
    paces: [Pace; 2],
    call: [&str; 3],
    bytes: &[u8],
    written: &[u8],
) -> Result<Ended, AllocError> {
    let (mut told, taken) = run_of(alloc, paces, call, bytes)?;
    told.right = told.right && taken.as_slice() == written;
    Ok(told)
}

/// Fails with these words unless a statement holds.
pub fn ensure(holds: bool, words: &str) -> Result<(), Fail> {
    if holds { Ok(()) } else { Err(Fail::new(words)) }
}

/// Fails with its input unless a case goes so: its call, its input, its output and its status, with ` | ` between them.
/// `spelt` reads the input and the output; what stands after a bar in the input stays unread. At status 2 nothing is
/// written, and the output is the text of the fault.
pub fn goes(alloc: Global, case: &str) -> Result<(), Fail> {
    let (call, case) = parted(case, " | ");
    let (text, case) = parted(case, " | ");
    let (output, status) = parted(case, " | ");
    let (streams, call) = parted(call, "/");
    let (command, set) = parted(call, "/");
    let call = [streams, command, set];
    let (read, rest) = parted(text, "|");
    let mut input = spelt(alloc, call, read)?;
    let end = input.len();
    input.push_str(spelt(alloc, call, rest)?.as_str())?;
    let written = spelt(alloc, call, if status == "2" { "" } else { output })?;
    let (bytes, written) = (input.as_bytes(), written.as_bytes());
    let told = told(alloc, [WHOLE; 2], call, bytes, written)?;
    let ended = match told.answer {
        Ok(true) => status == "0",
        Ok(false) => status == "1",
        Err(fault) => status == "2" && format!(in alloc; "{fault}")?.as_str() == output,
    };
    ensure(
        ended && told.right && end.wrapping_add(told.unread) == input.len(),
        text,
    )
}

/// Fails unless each of these cases, a line each, goes so.
pub fn all_go(alloc: Global, cases: &str) -> Result<(), Fail> {
    for case in cases.lines() {
        goes(alloc, case)?;
    }
    Ok(())
}

/// Whether a line of a command, counted from 0, may have any number of bytes: a context or a message.
pub fn may_vary(command: &str, line: usize) -> bool {
    match command {
        "id" | "keygen" => false,
        "batch" => line == 1 || line > 3 && line % 2 == 0,
        _ => line > 1,
    }
}

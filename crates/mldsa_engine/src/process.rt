//! What the program takes from its process, and leaves to it.
#![tactic(auto)]

ghost use Rattle.std.specs.Prelude.{◌≡◌, ◌⊎◌, Bool, false, Result, IfOk, IfErr, map, string_bytes};
ghost use Rattle.std.specs.Process.{exit_status};
ghost use Rattle.mldsa_engine.specs.ProgramText.{AnswersCall, status_of};

use crate::{Marked, RunFault, from_words};
use std::env;
use std::io::{ErrorKind, Read, Write};
use std::process::ExitCode;
use std::rt::Env;

/// Returns the words after the program's name. Words that are not text make no valid call.
pub fn words<R: Env + AllocGlobal>(rt: &R) -> Result<Vec<String>, RunFault>
    ensures faults { IfErr result (λ fault. (fault ≡ RunFault.Usage) ⊎ (fault ≡ RunFault.Memory)) }
{
    let arguments = match env::args(rt) {
        Ok(arguments) => arguments,
        Err(error) if error.kind() == ErrorKind::OutOfMemory => return Err(RunFault::Memory),
        Err(_) => return Err(RunFault::Usage),
    };
    let mut words = Vec::new(rt.alloc());
    for word in arguments.skip(1) {
        words.push(word)?;
    }
    Ok(words)
}

/// The exit status of a run: 0 for success or `yes`, 1 for `no` or an error of the library, 2 for a fault.
pub fn status(answer: Result<bool, RunFault>) -> u8
    ensures { result ≡ status_of answer }
{
    match answer {
        Ok(true) => 0,
        Ok(false) => 1,
        Err(_) => 2,
    }
}

/// Runs the call that a process's words name, over its reader and its writer, and ends the run: prints its fault, if there
/// is one, as a line on standard error, and returns its exit status. Words that make no call read and write nothing.
pub fn run_words<R: AllocGlobal + Eprint, I: Read, O: Write>(
    rt: &R,
    words: Result<Vec<String>, RunFault>,
    input: &mut Marked<I>,
    output: &mut Marked<O>,
) -> ExitCode
    requires unmarked { (input.old.failed ≡ false) × (output.old.failed ≡ false) }
    ensures ran { IfOk words (λ words. (answer : Result Bool RunFault) × (exit_status result ≡ status_of answer)
        × AnswersCall (map string_bytes words.items) I.remaining input.old input.new O.contents output.old output.new answer) }
    ensures untouched { IfErr words (λ _. (exit_status result ≡ 2) × (input.new ≡ input.old) × (output.new ≡ output.old)) }
{
    match words {
        Ok(words) => end(rt, from_words(rt.alloc(), words.as_slice(), input, output)),
        Err(fault) => end(rt, Err(fault)),
    }
}

/// Ends a run: prints its fault, if there is one, as a line on standard error, and returns its exit status,
/// even if this printing fails.
pub fn end<R: Eprint>(rt: &R, answer: Result<bool, RunFault>) -> ExitCode
    ensures { exit_status result ≡ status_of answer }
{
    if let Err(fault) = answer {
        let _ = rt.eprintln(fault);
    }
    ExitCode::from(status(answer))
}

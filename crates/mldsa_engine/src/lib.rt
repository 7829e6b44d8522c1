//! The program `mldsa` as a library, generic over the XOFs, the reader and the writer.
#![tactic(auto)]

ghost use Rattle.std.specs.Prelude.{◌≡◌, ◌↔◌, false, Err, IsTrue, IfOk, IfErr, map, string_bytes};
ghost use Rattle.mldsa_engine.specs.Calls.{AreNoCall};
ghost use Rattle.mldsa_engine.specs.Devices.{KeepsWritten};
ghost use Rattle.mldsa_engine.specs.Lines.{IsLineFault};
ghost use Rattle.mldsa_engine.specs.ProgramText.{RunsOver, RunsCall, FaultOfRun, FaultOfCall, RunInTurn, CallInTurn};

mod answers;
pub mod bytewise;
pub mod call;
pub mod fault;
pub mod lines;
pub mod marked;
pub mod output;
pub mod process;

use answers::{Reply, execute};
pub use bytewise::Bytewise;
pub use call::{Streams, Task};
pub use fault::RunFault;
pub use fips204::SetName;
use fips204::xof::{Fill, Sha256Ctr, Sha512Ctr, Xof};
pub use marked::Marked;
use std::alloc::Global;
use std::io::{Read, Write};

/// Runs a command: reads the lines that it expects, then writes its whole output. Returns true for success or
/// `yes`, and false for `no` or an error of the library.
///
/// A line is judged as soon as it is read, and only then is the next one read. After a fault of a line, no
/// more was read than the lines before it and as many of its characters as it would have if it were good;
/// after another fault the input may have been read further. After a fault nothing was written, except for
/// `RunFault::Write`, after which any part of the output may be.
pub fn run<H: Xof, G: Xof, I: Read, O: Write>(
    alloc: Global,
    task: Task,
    set: SetName,
    input: &mut Marked<I>,
    output: &mut Marked<O>,
) -> Result<bool, RunFault>
    requires unmarked { (input.old.failed ≡ false) × (output.old.failed ≡ false) }
    ensures read_failed { IsTrue input.new.failed ↔ (result ≡ Err RunFault.Read) }
    ensures write_failed { IsTrue output.new.failed ↔ (result ≡ Err RunFault.Write) }
    ensures answer { IfOk result (RunsOver H.front G.front task set I.remaining input.old input.new O.contents output.old output.new) }
    ensures line_fault { IfErr result (λ fault. IsLineFault fault → FaultOfRun task set I.remaining input.old fault) }
    ensures in_turn { IfErr result (λ fault. IsLineFault fault → RunInTurn task set I.remaining input.old input.new) }
    ensures nothing_written { IfErr result (λ fault. ¬ (fault ≡ RunFault.Write) → KeepsWritten O.contents output.old output.new) }
    ensures no_usage { ¬ (result ≡ Err RunFault.Usage) }
{
    let Reply { text, success } = execute::<H, G, I>(alloc, task, set, input)?;
    output::write_all(output, text.as_slice())?;
    Ok(success)
}

/// Runs the command named by the words after the program's name, compared byte for byte. If they are no call,
/// returns `RunFault::Usage`, and nothing is read or written.
pub fn from_words<I: Read, O: Write>(
    alloc: Global,
    words: &[String],
    input: &mut Marked<I>,
    output: &mut Marked<O>,
) -> Result<bool, RunFault>
    requires unmarked { (input.old.failed ≡ false) × (output.old.failed ≡ false) }
    ensures usage { (result ≡ Err RunFault.Usage) ↔ AreNoCall (map string_bytes words.now) }
    ensures untouched { result ≡ Err RunFault.Usage → (input.new ≡ input.old) × (output.new ≡ output.old) }
    ensures read_failed { IsTrue input.new.failed ↔ (result ≡ Err RunFault.Read) }
    ensures write_failed { IsTrue output.new.failed ↔ (result ≡ Err RunFault.Write) }
    ensures answer { IfOk result (RunsCall (map string_bytes words.now) I.remaining input.old input.new O.contents output.old output.new) }
    ensures line_fault { IfErr result (λ fault. IsLineFault fault
        → FaultOfCall (map string_bytes words.now) I.remaining input.old fault) }
    ensures in_turn { IfErr result (λ fault. IsLineFault fault
        → CallInTurn (map string_bytes words.now) I.remaining input.old input.new) }
    ensures nothing_written { IfErr result (λ fault. ¬ (fault ≡ RunFault.Write) → KeepsWritten O.contents output.old output.new) }
{
    let Some((streams, task, set)) = call::call_of(words) else {
        return Err(RunFault::Usage);
    };
    match streams {
        Streams::Sha2 => run::<Sha256Ctr, Sha512Ctr, I, O>(alloc, task, set, input, output),
        Streams::Fill00 => run::<Fill<0x00>, Fill<0x00>, I, O>(alloc, task, set, input, output),
        Streams::Fill55 => run::<Fill<0x55>, Fill<0x00>, I, O>(alloc, task, set, input, output),
        Streams::FillFf => run::<Fill<0xFF>, Fill<0xFF>, I, O>(alloc, task, set, input, output),
    }
}

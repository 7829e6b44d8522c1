//! The program `mldsa`: `mldsa STREAMS COMMAND SET`, with its lines on standard input.
//!
//! The exit status is 0 for success or `yes`, 1 for `no` or an error of the library, and 2 for any
//! other error, whose text goes to standard error.
#![tactic(auto)]

use mldsa_engine::process::{run_words, words};
use mldsa_engine::{Bytewise, Marked};
use std::process::ExitCode;

fn main(rt: HostRuntime) -> ExitCode {
    // What was read ahead of a file and not taken is given back where `input` is dropped.
    let mut input = Marked::new(Bytewise {
        reader: rt.reader(),
    });
    let mut output = Marked::new(rt.stdout());
    run_words(&rt, words(&rt), &mut input, &mut output)
}

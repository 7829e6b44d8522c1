//! The program `mlsign`: keys and signatures of ML-DSA in files.
//!
//! The exit status is 0 for done or a valid signature, 1 for an invalid one, and 2 for anything else.
#![tactic(auto)]

use std::process::ExitCode;

fn main(rt: HostRuntime) -> ExitCode {
    mlsign_program::run(&rt)
}

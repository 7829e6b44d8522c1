//! The program, over devices of the tests.
#![tactic(auto)]

pub mod batches;
pub mod commands;
pub mod devices;
pub mod failing_devices;
pub mod faults;
pub mod judged_lines;
pub mod process;
pub mod runs;
pub mod rust_answers;
pub mod rust_crate;
pub mod texts;

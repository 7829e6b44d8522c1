//! Tests of the program `mlsign`: carries out the calls that the lines of standard input make, one after another, and prints how
//! each ended. The modules test what no such call shows.
#![tactic(auto)]

#[cfg(test)]
mod faults;
#[cfg(test)]
mod files;
#[cfg(test)]
mod recorded;

use anyhow::Result;
use mlsign_program::{answer, line_of};

/// Carries out the words of a line.
fn answer_line(rt: &HostRuntime, line: &str) -> Result<()> {
    let words: Vec<&str> = line.split(' ').collect(rt.alloc())?;
    println!(rt; "> {line}")?;
    match answer(rt, words.as_slice()) {
        Ok(true) => println!(rt; "0")?,
        Ok(false) => println!(rt; "1")?,
        Err(error) => println!(rt; "2: {}", line_of(rt.alloc(), &error)?)?,
    }
    Ok(())
}

fn main(rt: HostRuntime) -> Result<()> {
    for line in rt.lines(rt.alloc()) {
        answer_line(&rt, line?.as_str())?;
    }
    Ok(())
}

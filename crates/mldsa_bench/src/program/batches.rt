//! Runs of the program's `batch`.
#![tactic(auto)]

use crate::program::runs::{all_go, goes};
use crate::program::texts::spelt;
use std::test::Fail;

/// `yes` and `no` in the order of the entries, and status 0 if all are `yes`. With a context of 256 bytes and over a
/// key without a matrix each is `no`. Count `0000`: no output, status 0, and what follows stays unread. Faults come
/// before results: counts of no byte, one and three, and a signature of 2419 bytes in the last entry.
#[test]
fn answers_in_the_order_of_the_entries(rt: HostRuntime) -> Result<(), Fail> {
    let cases = "\
fill55/batch/44 | public,,0002,good,00,bad,00, | yes,no, | 1
fill55/batch/44 | public,,0002,bad,00,good,00, | no,yes, | 1
fill55/batch/44 | public,,0002,good,00,good,616e6f74686572, | yes,yes, | 0
fill55/batch/44 | public,,0001,bad,, | no, | 1
fill55/batch/44 | public,00*255,0002,good,00,good,00, | yes,yes, | 0
fill55/batch/44 | public,00*256,0002,good,00,good,00, | no,no, | 1
fillff/batch/44 | public,,0002,good,00,good,00, | no,no, | 1
fillff/batch/44 | public,,0001,good,00, | no, | 1
fillff/batch/44 | public,00*256,0001,good,00, | no, | 1
sha2/batch/44 | public,,0000, |  | 0
fill55/batch/44 | public,,0000, |  | 0
fillff/batch/44 | public,,0000, |  | 0
fill55/batch/44 | public,,0000,|good,00, |  | 0
fill55/batch/44 | public,,, | line 3: wants 2 bytes, has 0 | 2
fill55/batch/44 | public,,01, | line 3: wants 2 bytes, has 1 | 2
fill55/batch/44 | public,,000001, | line 3: wants 2 bytes, has 3 | 2
fill55/batch/44 | public,00*256,0002,good,,0*4838, | line 6: wants 2420 bytes, has 2419 | 2";
    all_go(rt.alloc(), cases)
}

/// Count `0100` is 256 entries; with one entry fewer `line 514: missing`.
#[test]
fn high_byte_of_a_count_stands_first(rt: HostRuntime) -> Result<(), Fail> {
    let alloc = rt.alloc();
    let call = "fill55/batch/44 | public,,0100,";
    let entry = spelt(alloc, ["fill55", "batch", "44"], "good,00,")?;
    let fewer = entry.repeat(alloc, 255)?;
    let case = format!(in alloc; "{call}{fewer} | line 514: missing | 2")?;
    goes(alloc, case.as_str())?;
    let yes = "yes,".repeat(alloc, 256)?;
    let case = format!(in alloc; "{call}{fewer}{entry}|rest | {yes} | 0")?;
    goes(alloc, case.as_str())
}

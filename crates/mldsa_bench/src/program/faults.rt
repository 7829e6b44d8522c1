//! Lines, words and errors: what the program returns where something is wrong, and in which order.
#![tactic(auto)]

use crate::program::devices::WHOLE;
use crate::program::runs::{all_go, goes, told};
use mldsa_engine::RunFault;
use std::test::Fail;

/// A key is printed with its hash. Upper-case hex is read, and printed in lower case. What follows the last expected
/// line stays unread, and a last line without LF is read. Lines of another length, and none, are errors. A letter past
/// f, a carriage return, a space, `0x` and an odd number of digits are `not hex`.
#[test]
fn lines_that_are_read_or_refused(rt: HostRuntime) -> Result<(), Fail> {
    let cases = "\
fill55/id/44 | 0*2624, | 0*2624,5*128, | 0
fillff/id/44 | A*2624, | a*2624,f*128, | 0
fill00/id/44 | 0*2624,|rest, | 0*2624,0*128, | 0
fill00/id/44 | 0*2624 | 0*2624,0*128, | 0
fill55/id/44 | 0*2622, | line 1: wants 1312 bytes, has 1311 | 2
fill55/id/44 | 0*63, | line 1: not hex | 2
fill55/id/44 | 0*62, | line 1: wants 1312 bytes, has 31 | 2
fill55/id/44 | , | line 1: wants 1312 bytes, has 0 | 2
fill55/id/44 |  | line 1: missing | 2
fillff/keygen/65 | 0*63, | line 1: not hex | 2
fillff/keygen/65 | 0*62, | line 1: wants 32 bytes, has 31 | 2
fillff/keygen/65 |  | line 1: missing | 2
fill55/id/44 | 0g, | line 1: not hex | 2
fill55/id/44 | 00\r, | line 1: not hex | 2
fill55/id/44 |  00, | line 1: not hex | 2
fill55/id/44 | 0x00, | line 1: not hex | 2
fill55/id/44 | 0, | line 1: not hex | 2";
    all_go(rt.alloc(), cases)
}

/// 2097153 characters are `too long`, digits or not, and their LF stays unread; 2097152 are `not hex`, or
/// `wants 1312 bytes, has 1048576`. Bytes above 127, and a carriage return after a key: `not hex`.
#[test]
fn lines_of_one_character(rt: HostRuntime) -> Result<(), Fail> {
    let call = ["fill55", "id", "44"];
    let (line, wants, has) = (1, 1312, 1048576);
    let length = RunFault::Length { line, wants, has };
    for (character, count, end, left, fault) in [
        (b'g', 2097153usize, "\n", 1usize, RunFault::TooLong { line }),
        (b'0', 2097153, "\n", 1, RunFault::TooLong { line }),
        (b'g', 2097152, "\n", 0, RunFault::NotHex { line }),
        (b'0', 2097152, "\n", 0, length),
        (0xff, 2, "\n", 0, RunFault::NotHex { line }),
        (b'0', 2624, "\r\n", 0, RunFault::NotHex { line }),
    ] {
        let mut bytes = vec![in rt.alloc(); character; count]?;
        bytes.extend_from_slice(end.as_bytes())?;
        let told = told(rt.alloc(), [WHOLE; 2], call, bytes.as_slice(), b"")?;
        assert_eq!(rt;
            (told.answer, told.right, told.unread),
            (Err(fault), true, left)
        );
    }
    Ok(())
}

/// Words that are no call: the usage fault, with nothing read.
#[test]
fn words_that_are_no_call(rt: HostRuntime) -> Result<(), Fail> {
    let usage = "usage: mldsa sha2|fill00|fill55|fillff id|keygen|sign|verify|check|batch 44|65|87";
    let calls =
        "fill55/id/45,FILL55/id/44,fill55/ID/44,fillff/Sign/65,fillff/keygen/,fill55 /id/44,//,44/id/fill55";
    for call in calls.split(',') {
        let case = format!(in rt.alloc(); "{call} | |00, | {usage} | 2")?;
        goes(rt.alloc(), case.as_str())?;
    }
    Ok(())
}

/// Errors of the library. `keygen` passes its limit at each set. `sign` rejects a key out of range before a context of
/// 256 bytes, and this by itself too, but a missing line before both; with a field at the end of its range a key signs.
/// `check` says yes, or too many attempts, or a long context, and before that the error of key generation. `verify`
/// says no over a key without a matrix, and a fifth line stays unread; of a signature of 2419 bytes, a fault, 4841
/// characters are read, as of a good one with its LF.
#[test]
fn refusals_of_the_library_in_order(rt: HostRuntime) -> Result<(), Fail> {
    let cases = "\
fillff/keygen/44 | 0*64, | sampling limit reached, | 1
fillff/keygen/65 | 0*64, | sampling limit reached, | 1
fillff/keygen/87 | 0*64, | sampling limit reached, | 1
fill55/sign/44 | f*5120,0*64,0*512,00, | Alg 25: s1 or s2 out of range, | 1
fill55/sign/44 | 0*5120,0*64,0*512,00, | ML-DSA.Sign: ctx too long, | 1
fill55/sign/44 | f*5120,0*64,0*512, | line 4: missing | 2
fill55/sign/44 | key-out-of-range,0*64,0*512,00, | Alg 25: s1 or s2 out of range, | 1
fill55/sign/44 | key-out-of-range,0*64,0*512, | line 4: missing | 2
fill55/sign/44 | key-in-range,0*64,0*512,00, | ML-DSA.Sign: ctx too long, | 1
fill55/sign/44 | key-in-range,0*64,,00, | signature-in-range, | 0
fill55/check/44 | 0*64,0*64,,00, | yes, | 0
fill00/check/44 | 0*64,0*64,,00, | ML-DSA.Sign: too many attempts, | 1
fill55/check/44 | 0*64,0*64,0*512,00, | ML-DSA.Sign: ctx too long, | 1
fillff/check/44 | 0*64,0*64,0*512,00, | sampling limit reached, | 1
fillff/verify/44 | 0*2624,0*4840,,,|00, | no, | 1
fill55/verify/44 | 0*2624,0*4838,,0|0, | line 2: wants 2420 bytes, has 2419 | 2
fill55/verify/44 | public,short,,0|0, | line 2: wants 2420 bytes, has 2419 | 2";
    all_go(rt.alloc(), cases)
}

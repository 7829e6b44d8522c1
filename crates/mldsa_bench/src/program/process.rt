//! What the program takes from its process and leaves to it: words, statuses, standard error, single bytes and writes.
#![tactic(auto)]

ghost use Rattle.std.specs.Prelude.{◌<◌};

use crate::program::devices::{Arguments, Drip, KeptError, Pace, Trickle, WHOLE};
use mldsa_engine::output::write_all;
use mldsa_engine::process::{self, end};
use mldsa_engine::{Bytewise, Marked, RunFault};
use std::alloc::Global;
use std::cell::RefCell;
use std::io::{self, BufReader, Read};
use std::process::ExitCode;
use std::test::Fail;

/// Of 0 to 20000 bytes the device is handed each in one call, which takes them or fails, and in none if there are none.
#[test]
fn writes_of_every_size(rt: HostRuntime) {
    let bytes = [0x5a; 20000];
    for size in 0..20001usize {
        for fails_at in [0, usize::MAX] {
            let pace = Pace { fails_at, ..WHOLE };
            let taken = Vec::new(rt.alloc());
            let mut output = Marked::new(Drip { taken, pace });
            let failed = write_all(&mut output, &bytes[..size]).is_err();
            let marked = output.failed();
            let Drip { taken, pace } = output.into_device();
            let calls = usize::from(size > 0);
            let fails = fails_at < calls;
            assert_eq!(rt; (failed, marked, pace.calls), (fails, fails, calls));
            assert!(rt; fails || taken.as_slice() == &bytes[..size], "{size} bytes");
        }
    }
}

/// Statuses 0 and 1, with nothing on standard error, and status 2 of each fault, with its text as a line there.
#[test]
fn statuses_and_lines_of_faults(rt: HostRuntime) -> Result<(), Fail> {
    let usage =
        "usage: mldsa sha2|fill00|fill55|fillff id|keygen|sign|verify|check|batch 44|65|87\n";
    let length = |line, wants, has| Err(RunFault::Length { line, wants, has });
    for (answer, status, text) in [
        (Ok(true), 0, ""),
        (Ok(false), 1, ""),
        (Err(RunFault::Usage), 2, usage),
        (Err(RunFault::Missing { line: 1 }), 2, "line 1: missing\n"),
        (Err(RunFault::Missing { line: 4 }), 2, "line 4: missing\n"),
        (Err(RunFault::TooLong { line: 1 }), 2, "line 1: too long\n"),
        (Err(RunFault::TooLong { line: 2 }), 2, "line 2: too long\n"),
        (Err(RunFault::TooLong { line: 3 }), 2, "line 3: too long\n"),
        (Err(RunFault::NotHex { line: 1 }), 2, "line 1: not hex\n"),
        (Err(RunFault::NotHex { line: 12 }), 2, "line 12: not hex\n"),
        (length(1, 32, 31), 2, "line 1: wants 32 bytes, has 31\n"),
        (length(2, 2420, 0), 2, "line 2: wants 2420 bytes, has 0\n"),
        (
            length(2, 2420, 2419),
            2,
            "line 2: wants 2420 bytes, has 2419\n",
        ),
        (Err(RunFault::Read), 2, "read failed\n"),
        (Err(RunFault::Write), 2, "write failed\n"),
        (Err(RunFault::Memory), 2, "out of memory\n"),
    ] {
        let error = KeptError(RefCell::new(String::new(rt.alloc())));
        assert_eq!(rt; end(&error, answer), ExitCode::from(status), "{answer:?}");
        assert_eq!(rt; error.0.into_inner().as_str(), text);
        if let Err(fault) = answer {
            assert_eq!(rt; format!(in rt.alloc(); "{fault}\n")?.as_str(), text);
        }
    }
    Ok(())
}

fn has_words(
    alloc: Global,
    arguments: &'static [&'static [u8]],
    texts: &[&str],
) -> Result<bool, RunFault> {
    let words = process::words(&(Arguments(arguments), alloc))?;
    let mut alike = words.len() == texts.len();
    for (word, text) in words.iter().zip(texts) {
        alike = alike && word.as_str() == *text;
    }
    Ok(alike)
}

const CALL: [&[u8]; 4] = [b"mldsa", b"fill55", b"id", b"44"];

/// Each of the words of a call, at its place.
const CALLS: [[&[u8]; 4]; 6] = [
    [b"mldsa", b"sha2", b"id", b"44"],
    [b"mldsa", b"fill00", b"keygen", b"65"],
    [b"mldsa", b"fill55", b"sign", b"87"],
    [b"mldsa", b"fillff", b"verify", b"44"],
    [b"mldsa", b"sha2", b"check", b"65"],
    [b"mldsa", b"sha2", b"batch", b"87"],
];

const TEXTS: [[&str; 3]; 6] = [
    ["sha2", "id", "44"],
    ["fill00", "keygen", "65"],
    ["fill55", "sign", "87"],
    ["fillff", "verify", "44"],
    ["sha2", "check", "65"],
    ["sha2", "batch", "87"],
];

/// The name of the program is left out of its words, and nothing else.
#[test]
fn words_after_the_name_of_the_program(rt: HostRuntime) {
    let alloc = rt.alloc();
    let found = [
        has_words(alloc, &CALL, &["fill55", "id", "44"]),
        has_words(alloc, &CALL[..1], &[]),
        has_words(alloc, &[], &[]),
        has_words(alloc, &[b"mldsa", b"\xff"], &[]),
    ];
    assert_eq!(rt; found, [Ok(true), Ok(true), Ok(true), Err(RunFault::Usage)]);
}

/// Each of the thirteen words of a call is given as it is.
#[test]
fn each_word_of_a_call(rt: HostRuntime) -> Result<(), Fail> {
    for (call, texts) in CALLS.iter().zip(&TEXTS) {
        assert!(rt; has_words(rt.alloc(), call, texts)?, "{texts:?}");
    }
    Ok(())
}

/// Whether reads for one byte return these, after so many calls of the reader below.
fn comes_singly(
    bytewise: &mut Bytewise<BufReader<Trickle>>,
    bytes: &[u8],
    calls: usize,
) -> io::Result<bool> {
    let mut one = [0];
    for byte in bytes {
        let count = bytewise.read(&mut one)?;
        if (count, one[0], bytewise.reader.get_ref().pace.calls) != (1, *byte, calls) {
            return Ok(false);
        }
    }
    Ok(true)
}

/// Single bytes come out of the buffer, a longer piece from the device.
#[test]
fn single_bytes_come_from_a_buffer(rt: HostRuntime) -> Result<(), Fail> {
    let bytes = b"twenty bytes to read";
    let reader = Trickle { bytes, pace: WHOLE };
    let reader = BufReader::with_capacity(rt.alloc(), 8, reader)?;
    let mut bytewise = Bytewise { reader };
    assert!(rt; comes_singly(&mut bytewise, b"twenty b", 1)?);
    let mut eight = [0; 8];
    assert_eq!(rt; (bytewise.read(&mut eight)?, eight), (8, *b"ytes to "));
    assert!(rt; comes_singly(&mut bytewise, b"read", 3)?);
    assert!(rt; bytewise.read(&mut [0])? == 0);
    Ok(())
}

/// Each of the 256 bytes is read as it is, alone and in one piece.
#[test]
fn every_byte_is_read(rt: HostRuntime) -> Result<(), Fail> {
    let mut bytes = [0u8; 512];
    for i in 0..512usize {
        bytes[i] = (i % 256) as u8;
    }
    let reader = Trickle {
        bytes: &bytes,
        pace: WHOLE,
    };
    let reader = BufReader::with_capacity(rt.alloc(), 256, reader)?;
    let mut bytewise = Bytewise { reader };
    assert!(rt; comes_singly(&mut bytewise, &bytes[..256], 1)?);
    let mut rest = [0; 256];
    assert_eq!(rt;
        (bytewise.read(&mut rest)?, rest.as_slice()),
        (256, &bytes[256..])
    );
    Ok(())
}

//! Errors of the commands that no line of standard input leads to.
#![tactic(auto)]

use crate::recorded::PUBLIC_44;
use fips204_shake::{Fault, SetName};
use mlsign_engine::{CommandFault, Form, Reader, VerifyingKey, read_public_key, verify};
use std::io::{self, ErrorKind, Read};
use std::test::*;

/// A reader whose calls fail.
#[derive(Drop)]
struct Broken;

impl Read for Broken {
    fn read(&mut self, _: &mut [u8]) -> io::Result<usize> {
        Err(io::Error::from(ErrorKind::BrokenPipe))
    }
}

/// A message that is not read is told, and the call that failed is noted; of one that is read no call is.
#[test]
fn failing_reader(rt: HostRuntime) -> Result<(), Fail> {
    let key = read_public_key(rt.alloc(), Form::Pem, SetName::MlDsa44, PUBLIC_44)?;
    let key = VerifyingKey::new(rt.alloc(), key)?;
    let mut input = Reader::new(Broken);
    assert_eq!(rt;
        verify(&key, b"", b"", &mut input),
        Err(CommandFault::Message)
    );
    assert!(rt; input.failed);
    let mut input = Reader::new(b"message".as_slice());
    assert_eq!(rt; verify(&key, b"", b"", &mut input), Ok(false));
    assert!(rt; !input.failed);
    Ok(())
}

/// Their sentences.
#[test]
fn sentences(rt: HostRuntime) -> Result<(), Fail> {
    for (fault, sentence) in [
        (
            CommandFault::Library(Fault::TooManyAttempts),
            "ML-DSA.Sign: too many attempts",
        ),
        (CommandFault::Memory, "out of memory"),
        (CommandFault::Message, "the message was not read"),
    ] {
        let text = format!(in rt.alloc(); "{fault}")?;
        assert_eq!(rt; text.as_str(), sentence);
    }
    Ok(())
}

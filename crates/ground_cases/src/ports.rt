//! Sources and sinks over std's readers and writers, a source that fails at its end, and the gate.

use case_texts::write_text;
use hpf_ports::{
    Failed, Gate, MemSource, OpenGate, ReadAll, Source, StdSink, StdSource, read_all, write_all,
};
use std::alloc::{AllocError, Global};
use std::fmt::Write;
use std::io;
use std::io::{ErrorKind, Read};

/// A reader that fails.
#[derive(Drop)]
struct Broken;

impl Read for Broken {
    fn read(&mut self, _buf: &mut [u8]) -> io::Result<usize> {
        Err(ErrorKind::Other.into())
    }
}

/// Writes what comes of reading a source to its end.
fn write_all_of(out: &mut String, outcome: &Result<Vec<u8>, ReadAll>) -> Result<(), AllocError> {
    out.push_str("  ")?;
    match outcome {
        Ok(text) => write_text(out, text)?,
        Err(ReadAll::Fault) => out.push_str("read fault")?,
        Err(ReadAll::TooLong) => out.push_str("too long")?,
        Err(ReadAll::Memory) => out.push_str("out of memory")?,
    }
    out.push_str("\n")
}

/// Writes what is read of a reader over these bytes.
pub fn write_read(alloc: Global, out: &mut String, bytes: &[u8]) -> Result<(), AllocError> {
    let mut source = StdSource::new(bytes);
    write_all_of(out, &read_all(alloc, &mut source))
}

/// Writes what is read of a reader that fails.
pub fn write_broken(alloc: Global, out: &mut String) -> Result<(), AllocError> {
    let mut source = StdSource::new(Broken);
    write_all_of(out, &read_all(alloc, &mut source))
}

/// Writes what comes of it where the bytes, and then `HI`, are written to a writer with room for eight.
pub fn write_written(out: &mut String, bytes: &[u8]) -> Result<(), AllocError> {
    let mut room = [0u8; 8];
    let mut sink = StdSink::new(room.as_mut_slice());
    let first = write_all(&mut sink, bytes);
    let second = write_all(&mut sink, b"HI");
    write!(out, "  {first:?} {second:?} ")?;
    write_text(out, room.as_slice())?;
    out.push_str("\n")
}

/// Writes what a source over these bytes gives that fails at its third call, and what two more calls give.
pub fn write_source(alloc: Global, out: &mut String, bytes: Vec<u8>) -> Result<(), AllocError> {
    let mut source = MemSource::new(bytes, 7, vec![in alloc; 3]?);
    let outcome = read_all(alloc, &mut source);
    let mut buf = [0; 1];
    let third = source.read(&mut buf);
    let fourth = source.read(&mut buf);
    write_calls(out, &outcome, third, fourth)
}

/// Writes what is read, and what two more calls give.
fn write_calls(
    out: &mut String,
    outcome: &Result<Vec<u8>, ReadAll>,
    third: Result<usize, Failed>,
    fourth: Result<usize, Failed>,
) -> Result<(), AllocError> {
    write_all_of(out, outcome)?;
    writeln!(out, "  {third:?} {fourth:?}")
}

/// Passes the open gate twice.
pub fn write_passed(out: &mut String) -> Result<(), AllocError> {
    pass_twice(&OpenGate);
    out.push_str("  passed\n")
}

fn pass_twice<G: Gate>(gate: &G) {
    gate.pass(0, 1);
    gate.pass(63, 2);
}

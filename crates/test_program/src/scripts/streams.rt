//! Readers and writers that fail.
use super::{DOCUMENT, new_core, run_to_end, script_text};
use cs_options::script::run_check;
use std::io;
use std::io::{ErrorKind, Read, Write};
use std::process::Abort;
use std::test::{Fail, *};

/// Gives some bytes, and then fails.
#[derive(Drop)]
struct FailingReader {
    left: u8,
}

impl Read for FailingReader {
    fn read(&mut self, buffer: &mut [u8]) -> io::Result<usize> {
        if self.left == 0 || buffer.is_empty() {
            return Err(io::Error::from(ErrorKind::TimedOut));
        }
        self.left -= 1;
        buffer[0] = b'\n';
        Ok(1)
    }
}

/// Takes some bytes, and then fails.
#[derive(Drop)]
struct FailingWriter {
    left: usize,
}

impl Write for FailingWriter {
    fn write(&mut self, bytes: &[u8]) -> io::Result<usize> {
        match self.left.checked_sub(bytes.len()) {
            Some(left) => {
                self.left = left;
                Ok(bytes.len())
            }
            None => Err(io::Error::from(ErrorKind::TimedOut)),
        }
    }

    fn flush(&mut self) -> io::Result<()> {
        Ok(())
    }
}

/// Takes all bytes, but can't be flushed.
#[derive(Drop)]
struct UnflushedWriter;

impl Write for UnflushedWriter {
    fn write(&mut self, bytes: &[u8]) -> io::Result<usize> {
        Ok(bytes.len())
    }

    fn flush(&mut self) -> io::Result<()> {
        Err(io::Error::from(ErrorKind::TimedOut))
    }
}

/// Asserts the exit status of a script on a new store, and how many commands were accepted.
fn ends<R: Read + Drop, W: Write>(
    rt: &(impl Abort + AllocGlobal),
    reader: R,
    writer: &mut W,
    status: u8,
    accepted: u64,
) -> Result<(), Fail> {
    let core = new_core(rt, 6)?;
    let (ended, left) = run_to_end(rt.alloc(), core, reader, writer);
    assert!(rt; ended == status);
    assert!(rt; left.expect(rt, "a core is left").accepted == accepted);
    Ok(())
}

#[test]
fn scripts_into_a_writer_that_is_not_flushed(rt: HostRuntime) -> Result<(), Fail> {
    ends(&rt, b"get x\n".as_slice(), &mut UnflushedWriter, 4, 0)?;
    ends(&rt, b"".as_slice(), &mut UnflushedWriter, 0, 0)
}

#[test]
fn a_check_into_a_writer_that_is_not_flushed(rt: HostRuntime) {
    let ended = run_check(rt.alloc(), b"{".as_slice(), &mut UnflushedWriter);
    assert!(rt; ended == 4);
}

#[test]
fn a_script_from_a_failing_reader(rt: HostRuntime) -> Result<(), Fail> {
    let mut output = Vec::new(rt.alloc());
    ends(&rt, FailingReader { left: 3 }, &mut output, 4, 0)?;
    assert!(rt; output.is_empty());
    Ok(())
}

#[test]
fn a_script_into_a_failing_writer(rt: HostRuntime) -> Result<(), Fail> {
    let text = script_text(rt.alloc(), "frob / put @a 61 / put @a 62")?;
    ends(&rt, text.as_bytes(), &mut FailingWriter { left: 16 }, 4, 2)
}

#[test]
fn a_check_from_a_failing_reader(rt: HostRuntime) {
    let mut output = Vec::new(rt.alloc());
    let ended = run_check(rt.alloc(), FailingReader { left: 3 }, &mut output);
    assert!(rt; ended == 4);
    assert!(rt; output.is_empty());
}

#[test]
fn a_check_into_a_failing_writer(rt: HostRuntime) {
    let ended = run_check(
        rt.alloc(),
        DOCUMENT.as_bytes(),
        &mut FailingWriter { left: 5 },
    );
    assert!(rt; ended == 4);
}

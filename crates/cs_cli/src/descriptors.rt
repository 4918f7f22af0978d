//! What stands in for standard input, output and error if they are closed.

use std::fs::{File, OpenOptions};
use std::io;
use std::os::fd::AsRawFd;
use std::rt::Files;

/// The numbers of standard input and standard error.
const INPUT: i32 = 0;

const ERROR: i32 = 2;

/// Files that hold the numbers of closed standard streams, so that no file of a store gets one and is written to as if
/// it were a stream. Each fails at what its stream is used for.
#[derive(Drop)]
pub struct Standing {
    pub input: Option<File>,
    pub output: Option<File>,
    pub error: Option<File>,
}

/// Opens files in place of those standard streams that are closed: one that can't be read in place of the input, and
/// such as can't be written in place of the output and of the error.
pub fn stand_in<R: Files<File = File>>(rt: &R) -> io::Result<Standing> {
    // The operating system gives the lowest number that is free.
    let input = null_up_to(rt, File::options().write(true), INPUT)?;
    let output = null_up_to(rt, File::options().read(true), ERROR)?;
    let error = null_up_to(rt, File::options().read(true), ERROR)?;
    Ok(Standing {
        input,
        output,
        error,
    })
}

/// The null device, opened so, if its number is at most this.
fn null_up_to<R: Files<File = File>>(
    rt: &R,
    options: &OpenOptions,
    greatest: i32,
) -> io::Result<Option<File>> {
    let file = options.open(rt, "/dev/null")?;
    if file.as_raw_fd() <= greatest {
        Ok(Some(file))
    } else {
        Ok(None)
    }
}

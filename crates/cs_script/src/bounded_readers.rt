//! A reader that is read a limited number of times.
ghost use Rattle.std.specs.Prelude.{◌≡◌};

use std::io;
use std::io::{ErrorKind, Read};

/// How often a script or a document may be read.
pub const READS: u64 = 4_294_967_296;

/// Fails once it was read so often.
#[derive(Drop)]
pub struct BoundedReader<R> {
    pub reader: R,
    left: u64,
}

impl<R: Read> BoundedReader<R> {
    /// So many reads go through.
    pub fn new(reader: R, reads: u64) -> Self
        ensures { result.reader ≡ reader }
    {
        BoundedReader {
            reader,
            left: reads,
        }
    }
}

impl<R: Read> Read for BoundedReader<R> {
    ghost remaining = { λ b. R.remaining b.reader };

    fn read(&mut self, buffer: &mut [u8]) -> io::Result<usize> {
        if self.left == 0 {
            return Err(io::Error::from(ErrorKind::FileTooLarge));
        }
        self.left -= 1;
        self.reader.read(buffer)
    }
}

//! What the formats of one page share.

ghost use Rattle.std.specs.Prelude.{◌≡◌, ◌+◌, ◌-◌, ◌≤◌, ◌++◌, [], length, drop};
ghost use Rattle.cs_frame.specs.Bytes.{all_zero, zeros};
ghost use Rattle.cs_frame.specs.Faults.{fault_in};
ghost use Rattle.cs_frame.specs.Pages.{digest_test, digit_test, magic_test, padded, padding_test, sealed, version_test};

use crate::faults::FormatFault;
use sha2::{Digest, Sha256};

/// A page that is being written: a text, and zeros after it.
pub(crate) struct PageBuffer {
    bytes: [u8; 4096],
    len: usize,
    ghost fits: { len ≤ 4096 },
    ghost size: { length bytes ≡ 4096 },
    ghost padding: { drop len bytes ≡ zeros (4096 - len) },
}

impl PageBuffer {
    ghost use Rattle.cs_frame.specs.Buffers.{text_of};

    pub(crate) fn new() -> PageBuffer
        ensures { text_of result ≡ [] }
    {
        PageBuffer {
            bytes: [0; 4096],
            len: 0,
        }
    }

    pub(crate) fn append(&mut self, bytes: &[u8])
        requires { length (text_of self.old) + length bytes.now ≤ 4096 }
        ensures { text_of self.new ≡ text_of self.old ++ bytes.now }
    {
        let end = self.len + bytes.len();
        self.bytes[self.len..end].copy_from_slice(bytes);
        self.len = end;
    }

    /// Writes the digest of what was written.
    pub(crate) fn seal(&mut self)
        requires { length (text_of self.old) + 32 ≤ 4096 }
        ensures { text_of self.new ≡ sealed (text_of self.old) }
    {
        let digest = Sha256::digest(&self.bytes[..self.len]);
        self.append(&digest);
    }

    pub(crate) fn finish(self) -> [u8; 4096]
        ensures { result ≡ padded (text_of self) }
    {
        let PageBuffer { bytes, len: _ } = self;
        bytes
    }
}

/// The first three bytes are this format's.
pub(crate) fn check_magic(bytes: &[u8; 4096], magic: &[u8; 3]) -> Result<(), FormatFault>
    ensures { fault_in result ≡ magic_test magic.now bytes.now }
{
    if bytes[0..3] == magic[..] {
        Ok(())
    } else {
        Err(FormatFault::BadMagic)
    }
}

/// The fourth byte is this digit.
pub(crate) fn check_digit(bytes: &[u8; 4096], digit: u8) -> Result<(), FormatFault>
    ensures { fault_in result ≡ digit_test digit bytes.now }
{
    if bytes[3] == digit {
        Ok(())
    } else {
        Err(FormatFault::BadVersion)
    }
}

/// The fourth byte is the digit 1.
pub(crate) fn check_version(bytes: &[u8; 4096]) -> Result<(), FormatFault>
    ensures { fault_in result ≡ version_test bytes.now }
{
    check_digit(bytes, b'1')
}

/// The 32 bytes from `end` on are the digest of all bytes before.
pub(crate) fn check_digest(bytes: &[u8; 4096], end: usize) -> Result<(), FormatFault>
    requires { end + 32 ≤ 4096 }
    ensures { fault_in result ≡ digest_test end bytes.now }
{
    let digest = Sha256::digest(&bytes[..end]);
    if bytes[end..end + 32] == digest[..] {
        Ok(())
    } else {
        Err(FormatFault::BadDigest)
    }
}

/// From `end` on there are zeros alone.
pub(crate) fn check_padding(bytes: &[u8; 4096], end: usize) -> Result<(), FormatFault>
    requires { end ≤ 4096 }
    ensures { fault_in result ≡ padding_test end bytes.now }
{
    if is_zero(&bytes[end..]) {
        Ok(())
    } else {
        Err(FormatFault::BadPadding)
    }
}

/// All of the bytes are 0.
pub(crate) fn is_zero(bytes: &[u8]) -> bool
    ensures { result ≡ all_zero bytes.now }
{
    bytes.iter().all(|byte| *byte == 0)
}

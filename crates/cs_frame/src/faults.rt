//! What is wrong with bytes that should spell a value, and the refusal that has the number of a fault.
ghost use Rattle.std.specs.Prelude.{◌≡◌};
ghost use Rattle.cs_frame.specs.declared.faults.FormatFault.TheVariants.{OutOfMemory};
ghost use Rattle.cs_frame.specs.Faults.{fault_number};
ghost use Rattle.cs_frame.specs.Refusals.{refusal_for};
ghost use Rattle.cs_refusal.specs.Refusals.{number_of};

use cs_refusal::Refusal;
use std::alloc::AllocError;
use thiserror::Error;

/// Why a value was refused or not read.
#[derive(Clone, Copy, Debug, PartialEq, Eq, Error)]
pub enum FormatFault {
    /// 7: the numbers of extents and of their pages aren't those of a store.
    #[error("no such geometry")]
    BadGeometry,
    /// 9: memory ran out. The bytes had no fault.
    #[error("out of memory")]
    OutOfMemory,
    /// 20: the first three bytes are another format's.
    #[error("not of this format")]
    BadMagic,
    /// 21: the digest isn't that of the bytes.
    #[error("wrong digest")]
    BadDigest,
    /// 22: a count or a length is out of range.
    #[error("a length is out of range")]
    BadLength,
    /// 23: a byte after the end isn't 0.
    #[error("bytes after the end")]
    BadPadding,
    /// 24: another version of the format, another kind of frame, or a number that no store reaches.
    #[error("not of this version")]
    BadVersion,
    /// 25: the identifiers of a run don't rise.
    #[error("identifiers out of order")]
    OutOfOrder,
    /// 26: a whole frame lies there, and it isn't the one that is meant.
    #[error("another frame")]
    Misplaced,
}

impl FormatFault {
    ghost use Rattle.cs_frame.specs.Faults.{fault_number};

    /// The number under which the fault is reported.
    pub fn number(self) -> u8
        ensures { result ≡ fault_number self }
    {
        match self {
            FormatFault::BadGeometry => 7,
            FormatFault::OutOfMemory => 9,
            FormatFault::BadMagic => 20,
            FormatFault::BadDigest => 21,
            FormatFault::BadLength => 22,
            FormatFault::BadPadding => 23,
            FormatFault::BadVersion => 24,
            FormatFault::OutOfOrder => 25,
            FormatFault::Misplaced => 26,
        }
    }
}

impl From<AllocError> for FormatFault {
    ghost from_gives = { λ _ e. e ≡ OutOfMemory };

    fn from(_: AllocError) -> Self {
        FormatFault::OutOfMemory
    }
}

/// The refusal that has a fault's number.
pub fn refusal_of_fault(fault: FormatFault) -> Refusal
    ensures same { result ≡ refusal_for fault }
    ensures number { number_of result ≡ fault_number fault }
{
    match fault {
        FormatFault::BadGeometry => Refusal::BadGeometry,
        FormatFault::OutOfMemory => Refusal::OutOfMemory,
        FormatFault::BadMagic => Refusal::BadMagic,
        FormatFault::BadDigest => Refusal::BadDigest,
        FormatFault::BadLength => Refusal::BadLength,
        FormatFault::BadPadding => Refusal::BadPadding,
        FormatFault::BadVersion => Refusal::BadVersion,
        FormatFault::OutOfOrder => Refusal::OutOfOrder,
        FormatFault::Misplaced => Refusal::Misplaced,
    }
}

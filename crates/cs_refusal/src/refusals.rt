//! Why a call was refused: the numbers and names that all layers share.
ghost use Rattle.std.specs.Prelude.{◌≡◌};
ghost use Rattle.cs_refusal.specs.Refusals.{number_of, name_of};
ghost use Rattle.cs_refusal.specs.declared.refusals.Refusal.TheVariants.{OutOfMemory};

use std::alloc::{AllocError, AllocFailed};
use thiserror::Error;

/// Why a call was refused. A refused call leaves all as it was, where its own comment says nothing else.
#[derive(Clone, Copy, Debug, PartialEq, Eq, Error)]
pub enum Refusal {
    /// 1: a read, write or flush of the device failed.
    #[error("the device failed")]
    DeviceFault,
    /// 2: the needs name an element that was not staged.
    #[error("a need was not staged")]
    UnknownNeed,
    /// 3: a version would need its own family.
    #[error("a version needs its own family")]
    OwnFamily,
    /// 4: the target names an element that was not staged.
    #[error("the target was not staged")]
    NotStaged,
    /// 5: a round is out.
    #[error("a round is out")]
    InFlight,
    /// 6: the length is no multiple of the page size.
    #[error("the length is no multiple of the page size")]
    OddLength,
    /// 7: the number of extents or of pages is out of range.
    #[error("the geometry is out of range")]
    BadGeometry,
    /// 9: memory was asked for and refused.
    #[error("out of memory")]
    OutOfMemory,
    /// 10: the text is no plan document.
    #[error("the text is no plan document")]
    BadDocument,
    /// 11: a version lacks a need of the version before it.
    #[error("needs are lost from one version to the next")]
    NotNested,
    /// 12: an element of the target is not satisfied after the last round.
    #[error("the target is not covered")]
    Uncovered,
    /// 13: a member of a round has a need that is not satisfied before it.
    #[error("a write comes before its needs")]
    TooEarly,
    /// 14: a member of the chain is not a need of the next, or the last is not of the target.
    #[error("the chain is broken")]
    ChainBroken,
    /// 15: there are more rounds than members of the chain.
    #[error("the chain is shorter than the plan")]
    ChainShort,
    /// 20: the page does not begin as its format does.
    #[error("the magic bytes are wrong")]
    BadMagic,
    /// 21: the digest is not that of the bytes.
    #[error("the digest is wrong")]
    BadDigest,
    /// 22: a length or a count is out of range.
    #[error("a length is out of range")]
    BadLength,
    /// 23: the padding is not zero.
    #[error("the padding is not zero")]
    BadPadding,
    /// 24: the version of the format, the kind or a version number is wrong.
    #[error("a version is wrong")]
    BadVersion,
    /// 25: the identifiers do not rise.
    #[error("the identifiers are out of order")]
    OutOfOrder,
    /// 26: a whole frame lies there, and it isn't the one that the locator means.
    #[error("another frame lies there")]
    Misplaced,
    /// 27: the root is older than one that a section of the superblock records as persistent.
    #[error("a newer root was lost")]
    RootLost,
    /// 29: a page of which the store has two can't be read, and it may hold the newer one.
    #[error("a page that may be the newest can't be read")]
    Unreadable,
    /// 30: no extent takes the frame; one or two empty ones may be held back for a sweep.
    #[error("no extent has room")]
    Full,
    /// 31: the shard has more than the greatest number of chunks.
    #[error("the shard is too large")]
    TooLarge,
    /// 32: the index names as many identifiers as it may.
    #[error("the index is full")]
    IndexFull,
    /// 33: BeginSweep: the extent is open, empty, being swept or not there. MoveOne, Retire, Abandon: it isn't being swept.
    #[error("the extent can't be swept")]
    NotSweepable,
    /// 34: a live chunk lies on the extent.
    #[error("a live chunk lies on the extent")]
    StillLive,
    /// 35: a number would pass its greatest value.
    #[error("a number is worn out")]
    WornOut,
    /// 36: more would live than the reserve of this opening leaves.
    #[error("the reserve would be used")]
    Reserved,
    /// 40: the store halted after a failed write or flush.
    #[error("the store is halted")]
    Halted,
    /// 41: as many events are kept as may be.
    #[error("the history is full")]
    HistoryFull,
    /// 42: no round is out, or for Issue none of it is left, or for End some of it is.
    #[error("there is no such round")]
    NoRound,
    /// 43: the device holds no store.
    #[error("the device holds no store")]
    NotAStore,
    /// 44: something waits, a round is out, the index has changes that aren't staged, or an extent is being swept.
    #[error("the store is not at rest")]
    Unsettled,
    /// 45: the device holds a store, or what is left of one, and a new one would be made over it.
    #[error("the device holds a store")]
    Occupied,
    /// 46: a file with something in it is there where a new one is to be made.
    #[error("the file is not empty")]
    NotEmpty,
}

impl Refusal {
    /// The number that operators see, as the list above has it. Each refusal has its own.
    pub fn number(self) -> u8
        ensures { result ≡ number_of self }
    {
        match self {
            Refusal::DeviceFault => 1,
            Refusal::UnknownNeed => 2,
            Refusal::OwnFamily => 3,
            Refusal::NotStaged => 4,
            Refusal::InFlight => 5,
            Refusal::OddLength => 6,
            Refusal::BadGeometry => 7,
            Refusal::OutOfMemory => 9,
            Refusal::BadDocument => 10,
            Refusal::NotNested => 11,
            Refusal::Uncovered => 12,
            Refusal::TooEarly => 13,
            Refusal::ChainBroken => 14,
            Refusal::ChainShort => 15,
            Refusal::BadMagic => 20,
            Refusal::BadDigest => 21,
            Refusal::BadLength => 22,
            Refusal::BadPadding => 23,
            Refusal::BadVersion => 24,
            Refusal::OutOfOrder => 25,
            Refusal::Misplaced => 26,
            Refusal::RootLost => 27,
            Refusal::Unreadable => 29,
            Refusal::Full => 30,
            Refusal::TooLarge => 31,
            Refusal::IndexFull => 32,
            Refusal::NotSweepable => 33,
            Refusal::StillLive => 34,
            Refusal::WornOut => 35,
            Refusal::Reserved => 36,
            Refusal::Halted => 40,
            Refusal::HistoryFull => 41,
            Refusal::NoRound => 42,
            Refusal::NotAStore => 43,
            Refusal::Unsettled => 44,
            Refusal::Occupied => 45,
            Refusal::NotEmpty => 46,
        }
    }

    /// The name that operators see, as the list above has it, in ASCII.
    pub fn name(self) -> &'static str
        ensures { result.now ≡ name_of self }
    {
        match self {
            Refusal::DeviceFault => "DeviceFault",
            Refusal::UnknownNeed => "UnknownNeed",
            Refusal::OwnFamily => "OwnFamily",
            Refusal::NotStaged => "NotStaged",
            Refusal::InFlight => "InFlight",
            Refusal::OddLength => "OddLength",
            Refusal::BadGeometry => "BadGeometry",
            Refusal::OutOfMemory => "OutOfMemory",
            Refusal::BadDocument => "BadDocument",
            Refusal::NotNested => "NotNested",
            Refusal::Uncovered => "Uncovered",
            Refusal::TooEarly => "TooEarly",
            Refusal::ChainBroken => "ChainBroken",
            Refusal::ChainShort => "ChainShort",
            Refusal::BadMagic => "BadMagic",
            Refusal::BadDigest => "BadDigest",
            Refusal::BadLength => "BadLength",
            Refusal::BadPadding => "BadPadding",
            Refusal::BadVersion => "BadVersion",
            Refusal::OutOfOrder => "OutOfOrder",
            Refusal::Misplaced => "Misplaced",
            Refusal::RootLost => "RootLost",
            Refusal::Unreadable => "Unreadable",
            Refusal::Full => "Full",
            Refusal::TooLarge => "TooLarge",
            Refusal::IndexFull => "IndexFull",
            Refusal::NotSweepable => "NotSweepable",
            Refusal::StillLive => "StillLive",
            Refusal::WornOut => "WornOut",
            Refusal::Reserved => "Reserved",
            Refusal::Halted => "Halted",
            Refusal::HistoryFull => "HistoryFull",
            Refusal::NoRound => "NoRound",
            Refusal::NotAStore => "NotAStore",
            Refusal::Unsettled => "Unsettled",
            Refusal::Occupied => "Occupied",
            Refusal::NotEmpty => "NotEmpty",
        }
    }
}

impl From<AllocError> for Refusal {
    ghost from_gives = { λ _ e. e ≡ OutOfMemory };

    fn from(_: AllocError) -> Self {
        Refusal::OutOfMemory
    }
}

impl<T: Drop> From<AllocFailed<T>> for Refusal {
    ghost from_gives = { λ _ e. e ≡ OutOfMemory };

    fn from(_: AllocFailed<T>) -> Self {
        Refusal::OutOfMemory
    }
}

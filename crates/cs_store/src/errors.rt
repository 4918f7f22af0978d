//! Why calls were refused: for each call an enum of just the refusals that it may have, under the numbers and names
//! that all layers share. Each error prints as the refusal does.
ghost use Rattle.std.specs.Prelude.{◌≡◌};
ghost use Rattle.cs_store.specs.Errors.{IsDeleteRefusal, IsGetRefusal, IsOpenRefusal, IsPutRefusal, delete_refusal, get_refusal, open_refusal, put_refusal, sweep_refusal, sync_refusal};
ghost use Rattle.cs_writeback.specs.Sweeps.{MayRefuseSweep};
ghost use Rattle.cs_writeback.specs.Syncs.{MayRefuseSync};

use cs_refusal::Refusal;
use thiserror::Error;

/// Takes a value of one enum to the variant of another enum that has the same name.
macro_rules! same_name {
    ($value:expr, $from:ident => $to:ident; $($name:ident),*) => {
        match $value {
            $($from::$name => $to::$name,)*
        }
    };
    ($value:expr, $from:ident => $to:ident; $($name:ident),*; no other) => {
        match $value {
            $($from::$name => $to::$name,)*
            _ => unreachable!(),
        }
    };
}

pub(crate) use same_name;

/// Why a put was refused.
#[derive(Clone, Copy, Debug, PartialEq, Eq, Error)]
#[error("{}", self.refusal())]
pub enum PutError {
    /// 1 DeviceFault: a write or a flush of the sync that makes room failed; the store is halted then.
    DeviceFault,
    /// 9 OutOfMemory: memory was asked for and refused.
    OutOfMemory,
    /// 30 Full: no extent has room for the chunks, or for what the sync that makes room stages.
    Full,
    /// 31 TooLarge: the shard has more than the greatest number of chunks.
    TooLarge,
    /// 32 IndexFull: the newest entries of the index would weigh more than they may. In the older formats: the index
    /// names as many identifiers as it may.
    IndexFull,
    /// 35 WornOut: a number would pass its greatest value.
    WornOut,
    /// 36 Reserved: nothing is under the identifier, and more pages would live than the reserve leaves.
    Reserved,
    /// 40 Halted: a write or a flush failed earlier.
    Halted,
    /// 41 HistoryFull: as many events are kept as may be, and an extent is being swept still, so that no checkpoint can
    /// be taken; or none may be kept at all.
    HistoryFull,
}

impl PutError {
    /// The refusal that it is, with its number and its name.
    pub fn refusal(self) -> Refusal
        ensures { result ≡ put_refusal self }
    {
        same_name!(self, PutError => Refusal;
            DeviceFault, OutOfMemory, Full, TooLarge, IndexFull, WornOut, Reserved, Halted,
            HistoryFull)
    }

    /// The error that a refusal of a put is.
    pub(crate) fn of(refusal: Refusal) -> Self
        requires { IsPutRefusal refusal }
        ensures { put_refusal result ≡ refusal }
    {
        same_name!(refusal, Refusal => PutError;
            DeviceFault, OutOfMemory, Full, TooLarge, IndexFull, WornOut, Reserved, Halted,
            HistoryFull; no other)
    }
}

/// Why a delete was refused.
#[derive(Clone, Copy, Debug, PartialEq, Eq, Error)]
#[error("{}", self.refusal())]
pub enum DeleteError {
    /// 1 DeviceFault: a write or a flush of the sync that makes room failed; the store is halted then.
    DeviceFault,
    /// 9 OutOfMemory: memory was asked for and refused.
    OutOfMemory,
    /// 30 Full: no extent has room for what the sync that makes room stages.
    Full,
    /// 35 WornOut: a number would pass its greatest value.
    WornOut,
    /// 40 Halted: a write or a flush failed earlier.
    Halted,
    /// 41 HistoryFull: as many events are kept as may be, and an extent is being swept still, so that no checkpoint can
    /// be taken; or none may be kept at all.
    HistoryFull,
}

impl DeleteError {
    /// The refusal that it is, with its number and its name.
    pub fn refusal(self) -> Refusal
        ensures { result ≡ delete_refusal self }
    {
        same_name!(self, DeleteError => Refusal;
            DeviceFault, OutOfMemory, Full, WornOut, Halted, HistoryFull)
    }

    /// The error that a refusal of a delete is.
    pub(crate) fn of(refusal: Refusal) -> Self
        requires { IsDeleteRefusal refusal }
        ensures { delete_refusal result ≡ refusal }
    {
        same_name!(refusal, Refusal => DeleteError;
            DeviceFault, OutOfMemory, Full, WornOut, Halted, HistoryFull; no other)
    }
}

/// Why a get was refused.
#[derive(Clone, Copy, Debug, PartialEq, Eq, Error)]
#[error("{}", self.refusal())]
pub enum GetError {
    /// 1 DeviceFault: a read failed.
    DeviceFault,
    /// 9 OutOfMemory: memory was asked for and refused.
    OutOfMemory,
    /// 20 BadMagic: a chunk's page doesn't begin as a frame does.
    BadMagic,
    /// 21 BadDigest: a chunk's digest isn't that of its bytes.
    BadDigest,
    /// 22 BadLength: a chunk's length is out of range.
    BadLength,
    /// 23 BadPadding: a chunk's padding isn't zero.
    BadPadding,
    /// 24 BadVersion: a chunk's format has another version, or the frame another kind.
    BadVersion,
    /// 26 Misplaced: a whole frame lies where a chunk should, and it isn't the one that the index means; never in
    /// stores of format 2.
    Misplaced,
}

impl GetError {
    /// The refusal that it is, with its number and its name.
    pub fn refusal(self) -> Refusal
        ensures { result ≡ get_refusal self }
    {
        same_name!(self, GetError => Refusal;
            DeviceFault, OutOfMemory, BadMagic, BadDigest, BadLength, BadPadding, BadVersion,
            Misplaced)
    }

    /// The error that a refusal of a get is.
    pub(crate) fn of(refusal: Refusal) -> Self
        requires { IsGetRefusal refusal }
        ensures { get_refusal result ≡ refusal }
    {
        same_name!(refusal, Refusal => GetError;
            DeviceFault, OutOfMemory, BadMagic, BadDigest, BadLength, BadPadding, BadVersion,
            Misplaced; no other)
    }
}

/// Why a sync was refused.
#[derive(Clone, Copy, Debug, PartialEq, Eq, Error)]
#[error("{}", self.refusal())]
pub enum SyncError {
    /// 1 DeviceFault: a write or a flush failed; the store is halted then.
    DeviceFault,
    /// 9 OutOfMemory: memory was asked for and refused.
    OutOfMemory,
    /// 30 Full: no extent has room for the run or the root of what the index has changed.
    Full,
    /// 35 WornOut: a number would pass its greatest value.
    WornOut,
    /// 40 Halted: a write or a flush failed earlier.
    Halted,
}

impl SyncError {
    /// The refusal that it is, with its number and its name.
    pub fn refusal(self) -> Refusal
        ensures { result ≡ sync_refusal self }
    {
        same_name!(self, SyncError => Refusal; DeviceFault, OutOfMemory, Full, WornOut, Halted)
    }

    /// The error that a refusal of a sync is.
    pub(crate) fn of(refusal: Refusal) -> Self
        requires { MayRefuseSync refusal }
        ensures { sync_refusal result ≡ refusal }
    {
        same_name!(refusal, Refusal => SyncError;
            DeviceFault, OutOfMemory, Full, WornOut, Halted; no other)
    }
}

/// Why a sweep was refused.
#[derive(Clone, Copy, Debug, PartialEq, Eq, Error)]
#[error("{}", self.refusal())]
pub enum SweepError {
    /// 1 DeviceFault: a read of a chunk that is moved failed; or a write or a flush of the sync that makes room, and
    /// the store is halted then.
    DeviceFault,
    /// 9 OutOfMemory: memory was asked for and refused.
    OutOfMemory,
    /// 20 BadMagic: a chunk's page doesn't begin as a frame does.
    BadMagic,
    /// 21 BadDigest: a chunk's digest isn't that of its bytes.
    BadDigest,
    /// 22 BadLength: a chunk's length is out of range.
    BadLength,
    /// 23 BadPadding: a chunk's padding isn't zero.
    BadPadding,
    /// 24 BadVersion: a chunk's format has another version, or the frame another kind.
    BadVersion,
    /// 26 Misplaced: a whole frame lies where a chunk should, and it isn't the one that the index means; never in
    /// stores of format 2.
    Misplaced,
    /// 30 Full: no extent has room for what is moved or staged.
    Full,
    /// 33 NotSweepable: the extent is empty, holds runs or isn't there, or a sweep isn't over. In format 2: it is open,
    /// empty, being swept or not there.
    NotSweepable,
    /// 34 StillLive: a chunk is live on the extent as it is to be retired.
    StillLive,
    /// 35 WornOut: a number would pass its greatest value.
    WornOut,
    /// 40 Halted: a write or a flush failed earlier.
    Halted,
    /// 41 HistoryFull: as many events are kept as may be, so that no further chunk is moved; or an extent is being
    /// swept still, so that no checkpoint can be taken.
    HistoryFull,
}

impl SweepError {
    /// The refusal that it is, with its number and its name.
    pub fn refusal(self) -> Refusal
        ensures { result ≡ sweep_refusal self }
    {
        same_name!(self, SweepError => Refusal;
            DeviceFault, OutOfMemory, BadMagic, BadDigest, BadLength, BadPadding, BadVersion,
            Misplaced, Full, NotSweepable, StillLive, WornOut, Halted, HistoryFull)
    }

    /// The error that a refusal of a sweep is.
    pub(crate) fn of(refusal: Refusal) -> Self
        requires { MayRefuseSweep refusal }
        ensures { sweep_refusal result ≡ refusal }
    {
        same_name!(refusal, Refusal => SweepError;
            DeviceFault, OutOfMemory, BadMagic, BadDigest, BadLength, BadPadding, BadVersion,
            Misplaced, Full, NotSweepable, StillLive, WornOut, Halted, HistoryFull; no other)
    }
}

/// Why no store was made or opened.
#[derive(Clone, Copy, Debug, PartialEq, Eq, Error)]
#[error("{}", self.refusal())]
pub enum OpenError {
    /// 1 DeviceFault: the operating system refused the file, or the device a read, a write or a flush.
    DeviceFault,
    /// 6 OddLength: the file's length is no multiple of 4,096 bytes.
    OddLength,
    /// 9 OutOfMemory: memory was asked for and refused.
    OutOfMemory,
    /// 20 BadMagic: a page of the superblock, the root or the index doesn't begin as its format does.
    BadMagic,
    /// 21 BadDigest: a digest isn't that of the bytes.
    BadDigest,
    /// 22 BadLength: a length or a count is out of range.
    BadLength,
    /// 23 BadPadding: padding isn't zero.
    BadPadding,
    /// 24 BadVersion: a format has another version, or a frame another kind.
    BadVersion,
    /// 25 OutOfOrder: the identifiers of the index don't rise.
    OutOfOrder,
    /// 26 Misplaced: a whole frame lies where a run of the index should, and it isn't the one that the root means;
    /// never in stores of format 2.
    Misplaced,
    /// 27 RootLost: the root is older than one that a section of the superblock records as persistent; never in stores
    /// of format 2.
    RootLost,
    /// 29 Unreadable: a page of which the store has two can't be read, and it may hold the newer one; never in stores
    /// of format 2, and only as a store is opened to be written.
    Unreadable,
    /// 43 NotAStore: there is no store of that many pages.
    NotAStore,
    /// 45 Occupied: a new store would be made over one, or over what is left of one.
    Occupied,
    /// 46 NotEmpty: a new file was asked for, and there is one with something in it, or what is there is no file.
    NotEmpty,
}

impl OpenError {
    /// The refusal that it is, with its number and its name.
    pub fn refusal(self) -> Refusal
        ensures { result ≡ open_refusal self }
    {
        same_name!(self, OpenError => Refusal;
            DeviceFault, OddLength, OutOfMemory, BadMagic, BadDigest, BadLength, BadPadding,
            BadVersion, OutOfOrder, Misplaced, RootLost, Unreadable, NotAStore, Occupied, NotEmpty)
    }

    /// The error that a refusal of making or opening a store is.
    pub(crate) fn of(refusal: Refusal) -> Self
        requires { IsOpenRefusal refusal }
        ensures { open_refusal result ≡ refusal }
    {
        same_name!(refusal, Refusal => OpenError;
            DeviceFault, OddLength, OutOfMemory, BadMagic, BadDigest, BadLength, BadPadding,
            BadVersion, OutOfOrder, Misplaced, RootLost, Unreadable, NotAStore, Occupied, NotEmpty; no other)
    }
}

impl From<PutError> for Refusal {
    ghost from_gives = { λ error refusal. refusal ≡ put_refusal error };

    fn from(error: PutError) -> Self {
        error.refusal()
    }
}

impl From<DeleteError> for Refusal {
    ghost from_gives = { λ error refusal. refusal ≡ delete_refusal error };

    fn from(error: DeleteError) -> Self {
        error.refusal()
    }
}

impl From<GetError> for Refusal {
    ghost from_gives = { λ error refusal. refusal ≡ get_refusal error };

    fn from(error: GetError) -> Self {
        error.refusal()
    }
}

impl From<SyncError> for Refusal {
    ghost from_gives = { λ error refusal. refusal ≡ sync_refusal error };

    fn from(error: SyncError) -> Self {
        error.refusal()
    }
}

impl From<SweepError> for Refusal {
    ghost from_gives = { λ error refusal. refusal ≡ sweep_refusal error };

    fn from(error: SweepError) -> Self {
        error.refusal()
    }
}

impl From<OpenError> for Refusal {
    ghost from_gives = { λ error refusal. refusal ≡ open_refusal error };

    fn from(error: OpenError) -> Self {
        error.refusal()
    }
}

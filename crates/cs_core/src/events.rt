//! What a core is asked, and what it answers. A reply is made twice: to answer with, and to keep in the history.
ghost use Rattle.std.specs.Prelude.{◌≡◌, IfOk, MatchBool, ◌≢◌, MatchResult};
ghost use Rattle.cs_core.specs.Answered.{IsForDevice, IsLimited};

use cs_deps::Element;
use cs_frame::ShardId;
use cs_refusal::Refusal;
use std::alloc::{AllocError, AllocFailed, Global};
use std::marker::Model;
use std::sync::Arc;

/// Memory was asked for and refused; nothing has changed.
#[derive(Clone, Copy, Debug, PartialEq, Eq)]
pub struct OutOfMemory;

impl From<AllocError> for OutOfMemory {
    fn from(_: AllocError) -> Self {
        OutOfMemory
    }
}

impl<T: Drop> From<AllocFailed<T>> for OutOfMemory {
    fn from(_: AllocFailed<T>) -> Self {
        OutOfMemory
    }
}

/// What a core is asked. Extents are named by their numbers. `Core::apply` speaks of a full history (41) and of a
/// halted core (40).
///
/// Chunks and runs of the index lie on extents of their own, and over a disk that keeps to the model only a Put is
/// refused 30.
///
/// In format 2 they may lie on one extent. There 26 never comes. A Stage merges all that is live if four runs are
/// there, and does nothing else. BeginSweep is refused 33 only of an extent that is open, empty, being swept or not
/// there. A chunk that is moved counts at once and stays where it was moved to, and Retire merges all that is live.
#[derive(Debug, Drop)]
pub enum Event {
    /// To keep these bytes under an identifier: `Accepted`. Refused 31 TooLarge, then 32 IndexFull, then 30 Full, then
    /// 35 WornOut. The index counts by the bytes of its entries, so 32 may come of an identifier that is there, too, if
    /// its shard gets more chunks.
    Put(ShardId, Bytes),
    /// For the bytes of an identifier: `Found` or `Absent`. Refused 1 DeviceFault; 20 BadMagic, 21 BadDigest, 22
    /// BadLength, 23 BadPadding or 24 BadVersion if a chunk is damaged; 26 Misplaced if a whole frame lies there that
    /// isn't the chunk's; then 22 if the chunk's payload is shorter than a head.
    Get(ShardId),
    /// To delete an identifier: `Accepted`, or `Absent` if there is nothing under it. Refused 35 WornOut.
    Delete(ShardId),
    /// To stage what the index has changed as a run, and a root over all runs: `Staged`, or `Unchanged`. The device is
    /// left alone. Refused 30 Full, then 35 WornOut.
    ///
    /// The run takes in as many of the newest runs as their sizes ask for. The root also empties the extents on which
    /// nothing lives. A root alone is staged if only a sweep that was given up left copies.
    Stage,
    /// To take a round of what may be written: `Begun`, or `Nothing`. Refused 5 InFlight if a round is out.
    Begin,
    /// To write the next member of the round to its page: `Issued`. Refused 42 NoRound if none is left; 1 DeviceFault
    /// halts the core.
    Issue,
    /// To flush, after which the round is persistent: `Ended`. Refused 42 NoRound if no round is out or some of it is
    /// left; 1 DeviceFault halts the core.
    End,
    /// To mark an extent as being swept: `Sweeping`. Refused 33 NotSweepable if it is empty, holds runs or isn't there,
    /// if any extent is being swept, or if a sweep that was given up left copies.
    BeginSweep(usize),
    /// To copy the first live chunk that isn't copied yet, by identifier and then by chunk, off an extent that is being
    /// swept: `Moved`, or `NoneLive`. It counts where it lay until the Retire. Refused 33 NotSweepable if the extent
    /// isn't being swept, 20 to 24 and 26 as a Get is, then 30 Full, then 35 WornOut; 1 DeviceFault.
    MoveOne(usize),
    /// To end the sweep of an extent: the copies count from here on, a run and a root are staged as Stage does, and the
    /// extent is emptied under that root: `Retired`. Refused 33 NotSweepable if it isn't being swept, then 34
    /// StillLive, then 30 Full, then 35 WornOut.
    Retire(usize),
    /// To sweep an extent no longer: `Abandoned`. The copies never count; they stay noted until the next root, and no
    /// other sweep begins before that. Refused 33 NotSweepable if it isn't being swept.
    Abandon(usize),
    /// Whether a command, counted from 1 since the core was opened, is persistent: `Persistent`, or `NotYet`, also for
    /// 0.
    Settle(u64),
}

impl Event {
    /// Whether it is Issue, End or MoveOne: those that use the disk, of the events that a halted core refuses. Get uses
    /// it too, and isn't refused then.
    pub fn is_for_device(&self) -> bool
        ensures { MatchBool result (IsForDevice self.now) (¬ IsForDevice self.now) }
    {
        matches!(self, Event::Issue | Event::End | Event::MoveOne(_))
    }

    /// Whether it is refused where as many events are kept as may be: those of clients, BeginSweep and MoveOne.
    pub fn is_limited(&self) -> bool
        ensures { MatchBool result (IsLimited self.now) (¬ IsLimited self.now) }
    {
        matches!(
            self,
            Event::Put(_, _)
                | Event::Get(_)
                | Event::Delete(_)
                | Event::Settle(_)
                | Event::BeginSweep(_)
                | Event::MoveOne(_)
        )
    }

    /// The same event. A put's bytes are shared.
    pub fn copy(&self) -> Result<Event, AllocError>
        ensures { IfOk result (λ e. e ≡ self.now) }
    {
        match self {
            Event::Put(id, bytes) => {
                let shared = bytes.share()?;
                Ok(Event::Put(*id, shared))
            }
            Event::Get(id) => Ok(Event::Get(*id)),
            Event::Delete(id) => Ok(Event::Delete(*id)),
            Event::Stage => Ok(Event::Stage),
            Event::Begin => Ok(Event::Begin),
            Event::Issue => Ok(Event::Issue),
            Event::End => Ok(Event::End),
            Event::BeginSweep(e) => Ok(Event::BeginSweep(*e)),
            Event::MoveOne(e) => Ok(Event::MoveOne(*e)),
            Event::Retire(e) => Ok(Event::Retire(*e)),
            Event::Abandon(e) => Ok(Event::Abandon(*e)),
            Event::Settle(n) => Ok(Event::Settle(*n)),
        }
    }
}

/// What a core answers.
#[derive(Debug, Drop)]
pub enum Reply {
    /// A put or delete has this number among those accepted since the core was opened.
    Accepted(u64),
    /// The bytes of an identifier.
    Found(Bytes),
    /// There is nothing under the identifier.
    Absent,
    /// The root of this version was staged.
    Staged(u64),
    /// The index had no change.
    Unchanged,
    /// These elements are the round that is out.
    Begun(Elements),
    /// Nothing waits.
    Nothing,
    /// This element was written to this page.
    Issued(Element, u64),
    /// The round is persistent, and so are commands up to this one.
    Ended(u64),
    /// The extent is being swept.
    Sweeping,
    /// This chunk of an identifier was moved.
    Moved(ShardId, usize),
    /// No live chunk is on the extent.
    NoneLive,
    /// The extent is empty, and frames may go there at once: each of their pages needs the root of this version.
    Retired(u64),
    /// The extent isn't being swept any more.
    Abandoned,
    /// The command is persistent.
    Persistent,
    /// It isn't; commands up to this one are.
    NotYet(u64),
    /// The event was refused, and nothing has changed; but after 1 DeviceFault an Issue or End has halted the core, and
    /// the write that failed may be among the volatile ones.
    Refused(Refusal),
}

/// The reply with the bytes of a shard, twice.
pub fn found(alloc: Global, bytes: Vec<u8>) -> Result<(Reply, Reply), OutOfMemory>
    ensures { IfOk result (λ r. (r.0 ≡ Reply.Found bytes.items) × (r.1 ≡ Reply.Found bytes.items)) }
{
    let told = Bytes::new(alloc, bytes)?;
    let noted = told.share()?;
    Ok((Reply::Found(told), Reply::Found(noted)))
}

/// The reply to a refused event, twice. 9 `OutOfMemory` has no reply: it is the `Err`.
pub fn refused(refusal: Refusal) -> Result<(Reply, Reply), OutOfMemory>
    ensures { MatchResult result (λ r. (r.0 ≡ Reply.Refused refusal) × (r.1 ≡ Reply.Refused refusal) × (refusal ≢ Refusal.OutOfMemory)) (λ _. refusal ≡ Refusal.OutOfMemory) }
{
    match refusal {
        Refusal::OutOfMemory => Err(OutOfMemory),
        other => Ok((Reply::Refused(other), Reply::Refused(other))),
    }
}

/// The bytes of a shard, in one block that all copies share.
#[derive(Debug, Drop)]
pub struct Bytes {
    block: Arc<Vec<u8>, Global>,
}

impl Model for Bytes {
    ghost use Rattle.std.specs.Arc.{arc_value};
    ghost use Rattle.std.specs.Prelude.{List, ℕ};

    ghost Value = { List ℕ };

    ghost view = { λ b. (arc_value b.block).items };
}

impl Bytes {
    /// These bytes, which stay where they are. A small block is asked for.
    pub fn new(alloc: Global, bytes: Vec<u8>) -> Result<Self, AllocError>
        ensures { IfOk result (λ b. b ≡ bytes.items) }
    {
        let block = Arc::new(alloc, bytes)?;
        Ok(Bytes { block })
    }

    /// As a slice.
    pub fn as_slice(&self) -> &[u8]
        ensures { result.now ≡ self.now }
    {
        self.block.as_slice()
    }

    /// The same bytes, shared. It asks for no memory, and is refused only if there are 2^63 - 1 copies.
    pub fn share(&self) -> Result<Bytes, AllocError>
        ensures { IfOk result (λ b. b ≡ self.now) }
    {
        let block = Arc::try_clone(&self.block)?;
        Ok(Bytes { block })
    }
}

/// The elements of a round, in the order in which they are issued.
#[derive(Debug, Drop)]
pub struct Elements {
    elements: Vec<Element>,
}

impl Model for Elements {
    ghost use Rattle.std.specs.Prelude.{List};
    ghost use Rattle.cs_deps.specs.declared.elements.Element.{Element};

    ghost Value = { List Element };

    ghost view = { λ b. b.elements.items };
}

impl Elements {
    /// These elements.
    pub fn new(elements: Vec<Element>) -> Self
        ensures { result ≡ elements.items }
    {
        Elements { elements }
    }

    /// As a slice.
    pub fn as_slice(&self) -> &[Element]
        ensures { result.now ≡ self.now }
    {
        self.elements.as_slice()
    }
}

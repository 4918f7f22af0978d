//! The node that threads share, and a look at it.
ghost use Rattle.std.specs.Prelude.{◌≡◌, [], IfErr, IfOk, MatchResult, OnErr, OnOk};
ghost use Rattle.cs_node.specs.Answers.{Settles, deleted, got};
ghost use Rattle.cs_node.specs.Locks.{IsAnswered, IsCallRefused, IsCalled, IsRefused, IsSettledBy, WhileLocked};
ghost use Rattle.cs_core.specs.Views.{IsStep};
ghost use Rattle.cs_node.specs.Starts.{start_of};
ghost use Rattle.cs_node.specs.Told.{Adds, Refuses, empty};
ghost use Rattle.cs_node.specs.Looks.{IsLookAt};

use crate::boards::{Board, NamedBoard, Naming};
use crate::gates::{Gate, Open};
use crate::locked::{Lock, Locked};
use crate::purses::Purse;
use crate::tickets::{Ack, Ticket};
use cs_core::{Bytes, Core, Event, Reply};
use cs_disk::PageDisk;
use cs_frame::ShardId;
use cs_refusal::Refusal;
use std::alloc::{AllocError, Global};
use std::sync::Wait;

/// A core under its lock, and its board. A call takes the lock for at most one event at a time: `Engine::apply`
/// requires that no event was done since the lock was taken, so code that does a second one under the same lock isn't
/// proved.
#[derive(Drop)]
pub struct Node<D: PageDisk, K: Naming> {
    pub(crate) lock: Lock<D, K>,
    pub(crate) board: NamedBoard<D, K>,
}

/// Why a ticket came back from a settle.
#[derive(Clone, Copy, Debug)]
pub enum Why {
    /// The command isn't persistent; those up to this one are.
    NotYet(u64),
    /// 41: the history is full.
    HistoryFull,
    /// 9: memory was refused.
    OutOfMemory,
}

/// A put that was refused, with its bytes.
#[derive(Debug, Drop)]
pub struct RefusedPut {
    pub why: Refusal,
    pub bytes: Bytes,
}

/// What a settle answers.
#[derive(Drop)]
pub enum Settled<K: Naming> {
    /// The command is persistent.
    Done(Ack<K>),
    /// The same ticket again, and why.
    Back(Ticket<K>, Why),
}

impl<D: PageDisk, K: Naming> Node<D, K> {
    /// A node of a board and of a core that did nothing yet.
    pub fn new(alloc: Global, board: Board<D>, core: Core<D>) -> Self
        requires board { board ≡ K.table }
        requires start { start_of core ≡ K.start }
        requires history { core.history ≡ [] }
        requires accepted { core.store.accepted ≡ 0 }
    {
        let (board, keeper) = board.name(&core);
        Node {
            lock: Lock::new(Locked::new(alloc, core, keeper)),
            board,
        }
    }

    /// A new purse, whose seat sees the frontier of that moment. 35 `WornOut` after 2^63 - 1 purses.
    pub fn purse<R: Wait>(&self, rt: &R, alloc: Global) -> Result<Purse<K>, Refusal>
        ensures ok { IfOk result (λ purse. WhileLocked D.PageDisk K.start (λ old new. (purse ≡ empty old.store.frontier) × (new ≡ old))) }
        ensures err { IfErr result (λ r. r ≡ Refusal.WornOut) }
    {
        self.lock.take(rt).give(&self.board, alloc)
    }

    /// Keeps bytes under an identifier. The ticket has the command's number.
    ///
    /// 31 `TooLarge`, 32 `IndexFull`, 30 `Full`, 35 `WornOut` and 40 `Halted` are recorded; 41 `HistoryFull` and 9
    /// `OutOfMemory` aren't. After a refusal the bytes are gone.
    pub fn put<R: Wait>(
        &self,
        rt: &R,
        purse: &mut Purse<K>,
        id: ShardId,
        bytes: Bytes,
    ) -> Result<Ticket<K>, Refusal>
        ensures ok { IfOk result (λ ticket. Adds purse.old (Event.Put id bytes) (Reply.Accepted ticket) purse.new) }
        ensures err { IfErr result (λ r. Refuses purse.old (Event.Put id bytes) r purse.new) }
        ensures step { WhileLocked D.PageDisk K.start (λ old new. IsAnswered D.PageDisk old purse.old (Event.Put id bytes) (λ n. Reply.Accepted n) result new purse.new) }
    {
        self.put_with(rt, purse, id, bytes, &Open)
    }

    /// The same with a gate, which is called under the lock.
    pub fn put_with<G: Gate, R: Wait>(
        &self,
        rt: &R,
        purse: &mut Purse<K>,
        id: ShardId,
        bytes: Bytes,
        gate: &G,
    ) -> Result<Ticket<K>, Refusal>
        ensures ok { IfOk result (λ ticket. Adds purse.old (Event.Put id bytes) (Reply.Accepted ticket) purse.new) }
        ensures err { IfErr result (λ r. Refuses purse.old (Event.Put id bytes) r purse.new) }
        ensures step { WhileLocked D.PageDisk K.start (λ old new. IsAnswered D.PageDisk old purse.old (Event.Put id bytes) (λ n. Reply.Accepted n) result new purse.new) }
    {
        self.lock
            .take(rt)
            .engine
            .put(&self.board, purse, id, bytes, gate)
    }

    /// The same as `put_with`, but a refusal returns the bytes. It waits while they have the greatest number of owners.
    pub fn offer<G: Gate, R: Wait>(
        &self,
        rt: &R,
        purse: &mut Purse<K>,
        id: ShardId,
        bytes: Bytes,
        gate: &G,
    ) -> Result<Ticket<K>, RefusedPut>
        ensures ok { IfOk result (λ ticket. Adds purse.old (Event.Put id bytes) (Reply.Accepted ticket) purse.new) }
        ensures err { IfErr result (λ e. (e.bytes ≡ bytes) × Refuses purse.old (Event.Put id bytes) e.why purse.new) }
        ensures step { WhileLocked D.PageDisk K.start (λ old new. MatchResult result (λ ticket. IsCalled D.PageDisk old purse.old (Event.Put id bytes) (Reply.Accepted ticket) new purse.new) (λ e. IsCallRefused D.PageDisk old purse.old (Event.Put id bytes) e.why new purse.new)) }
    {
        let own = shared(rt, &bytes);
        match self.put_with(rt, purse, id, own, gate) {
            Ok(ticket) => Ok(ticket),
            Err(why) => Err(RefusedPut { why, bytes }),
        }
    }

    /// Reads what is under an identifier, or None if there is nothing. The bytes are shared with the history and the
    /// purse. It waits while they have the greatest number of owners.
    ///
    /// 1 `DeviceFault`, 20 to 24 if a chunk is damaged, and 26 `Misplaced` if another frame lies there are recorded; 41
    /// `HistoryFull` and 9 `OutOfMemory` aren't.
    pub fn get<R: Wait>(
        &self,
        rt: &R,
        purse: &mut Purse<K>,
        id: ShardId,
    ) -> Result<Option<Bytes>, Refusal>
        ensures ok { IfOk result (λ found. Adds purse.old (Event.Get id) (got found) purse.new) }
        ensures err { IfErr result (λ r. Refuses purse.old (Event.Get id) r purse.new) }
        ensures step { WhileLocked D.PageDisk K.start (λ old new. IsAnswered D.PageDisk old purse.old (Event.Get id) got result new purse.new) }
    {
        self.get_with(rt, purse, id, &Open)
    }

    /// The same with a gate, which is called under the lock.
    pub fn get_with<G: Gate, R: Wait>(
        &self,
        rt: &R,
        purse: &mut Purse<K>,
        id: ShardId,
        gate: &G,
    ) -> Result<Option<Bytes>, Refusal>
        ensures ok { IfOk result (λ found. Adds purse.old (Event.Get id) (got found) purse.new) }
        ensures err { IfErr result (λ r. Refuses purse.old (Event.Get id) r purse.new) }
        ensures step { WhileLocked D.PageDisk K.start (λ old new. IsAnswered D.PageDisk old purse.old (Event.Get id) got result new purse.new) }
    {
        let there = self.lock.take(rt).engine.get(&self.board, purse, id, gate)?;
        if !there {
            return Ok(None);
        }
        let Some(found) = purse.log.found() else {
            unreachable!()
        };
        Ok(Some(shared(rt, found)))
    }

    /// Deletes an identifier. Returns None if there was nothing under it.
    ///
    /// 35 `WornOut` and 40 `Halted` are recorded; 41 `HistoryFull` and 9 `OutOfMemory` aren't.
    pub fn delete<R: Wait>(
        &self,
        rt: &R,
        purse: &mut Purse<K>,
        id: ShardId,
    ) -> Result<Option<Ticket<K>>, Refusal>
        ensures ok { IfOk result (λ ticket. Adds purse.old (Event.Delete id) (deleted ticket) purse.new) }
        ensures err { IfErr result (λ r. Refuses purse.old (Event.Delete id) r purse.new) }
        ensures step { WhileLocked D.PageDisk K.start (λ old new. IsAnswered D.PageDisk old purse.old (Event.Delete id) deleted result new purse.new) }
    {
        self.delete_with(rt, purse, id, &Open)
    }

    /// The same with a gate, which is called under the lock.
    pub fn delete_with<G: Gate, R: Wait>(
        &self,
        rt: &R,
        purse: &mut Purse<K>,
        id: ShardId,
        gate: &G,
    ) -> Result<Option<Ticket<K>>, Refusal>
        ensures ok { IfOk result (λ ticket. Adds purse.old (Event.Delete id) (deleted ticket) purse.new) }
        ensures err { IfErr result (λ r. Refuses purse.old (Event.Delete id) r purse.new) }
        ensures step { WhileLocked D.PageDisk K.start (λ old new. IsAnswered D.PageDisk old purse.old (Event.Delete id) deleted result new purse.new) }
    {
        self.lock
            .take(rt)
            .engine
            .delete(&self.board, purse, id, gate)
    }

    /// Asks under the lock whether a command is persistent: `Done` with its ack, or `Back` with the same ticket and
    /// why. 41 `HistoryFull` and 9 `OutOfMemory` aren't recorded.
    pub fn settle<R: Wait>(&self, rt: &R, purse: &mut Purse<K>, ticket: Ticket<K>) -> Settled<K>
        ensures told { Settles purse.old ticket result purse.new }
        ensures step { WhileLocked D.PageDisk K.start (λ old new. IsSettledBy D.PageDisk old purse.old ticket result new purse.new) }
    {
        self.lock
            .take(rt)
            .engine
            .settle(&self.board, purse, ticket, &Open)
    }
}

impl<D: PageDisk, K: Naming> Node<D, K> {
    /// Takes the acks of a purse, which `Rest::close` counts with those of the purses. Numbers that follow one another
    /// take the room of one, so the acks of all purses together take little. If memory is refused the purse is as it
    /// was.
    pub fn hand_in<R: Wait>(&self, rt: &R, purse: &mut Purse<K>) -> Result<(), AllocError>
        ensures ok { OnOk result (purse.new ≡ record purse.old { acks = [] }) }
        ensures err { OnErr result (purse.new ≡ purse.old) }
    {
        self.lock.take(rt).take_in(purse)
    }

    /// Gives up the sweep of an extent that was left marked, by a reclaimer that was dropped, or that its gate or a
    /// refusal ended. What was moved stays moved. A reclaimer that is still sweeping it is refused 33 `NotSweepable`
    /// then, and goes on to the next extent.
    ///
    /// 33 `NotSweepable` if it isn't being swept and 40 `Halted` are recorded; 9 `OutOfMemory` isn't.
    pub fn abandon<R: Wait>(&self, rt: &R, extent: usize) -> Result<(), Refusal>
        ensures { WhileLocked D.PageDisk K.start (λ old new. MatchResult result (λ _. IsStep D.PageDisk old (Event.Abandon extent) Reply.Abandoned new) (λ r. IsRefused D.PageDisk old (Event.Abandon extent) r new)) }
    {
        self.lock.take(rt).engine.abandon(&self.board, extent)
    }
}

/// Another owner of the same bytes. It takes no memory, and waits while they have the greatest number of owners.
fn shared<R: Wait>(rt: &R, bytes: &Bytes) -> Bytes
    ensures { result ≡ bytes.now }
{
    for _ in rt.forever() {
        if let Ok(owner) = bytes.share() {
            return owner;
        }
    }
    unreachable!()
}

/// What a node has.
#[derive(Clone, Copy, Debug, PartialEq, Eq)]
pub struct Look {
    /// How many commands were accepted since the core was opened.
    pub accepted: u64,
    /// How many of these are persistent.
    pub frontier: u64,
    /// How many events are kept, and with how many a further put, get, delete, settle, or sweep is refused 41
    /// HistoryFull.
    pub events: usize,
    pub limit: usize,
    /// How many events checkpoints replaced. Calls at places below are of no use any more (`Purse::forget`).
    pub base: u64,
    /// The lowest extent that is being swept, or None. If no reclaimer sweeps it any more, `Node::abandon` gives it up.
    pub swept: Option<usize>,
}

impl<D: PageDisk, K: Naming> Node<D, K> {
    /// What the node has at one moment. It takes the lock, and no memory, and asks nothing of the device.
    pub fn look<R: Wait>(&self, rt: &R) -> Look
        ensures { WhileLocked D.PageDisk K.start (λ old new. (new ≡ old) × IsLookAt old result) }
    {
        look_at(self.lock.take(rt).engine.core())
    }
}

/// What a core has.
fn look_at<D: PageDisk>(core: &Core<D>) -> Look
    ensures { IsLookAt core.now result }
{
    Look {
        accepted: core.accepted(),
        frontier: core.frontier(),
        events: core.history().len(),
        limit: core.limit(),
        base: core.base(),
        swept: core.swept_extent(),
    }
}

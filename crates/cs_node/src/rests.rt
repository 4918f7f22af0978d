//! A node at rest, and its close.
ghost use Rattle.std.specs.Prelude.{◌≡◌, ◌≤◌, ℕ, IfErr, IfOk};
ghost use Rattle.cs_core.specs.Meanings.{commands_said};
ghost use Rattle.cs_disk.specs.Disk.{Leaves, page};
ghost use Rattle.cs_core.specs.Views.{kept};
ghost use Rattle.cs_core.specs.law_refinement.Crashes.{IsPrefix};
ghost use Rattle.cs_node.specs.Numbers.{once_to};
ghost use Rattle.cs_node.specs.Accounts.{acknowledged_by};
ghost use Rattle.cs_node.specs.Closes.{Fails, IsClosed};
ghost use Rattle.cs_node.specs.Starts.{shape_at};
ghost use Rattle.cs_node.specs.Behind.{IsBehind};

use crate::boards::{NamedBoard, Naming};
use crate::judges::judge;
use crate::locked::{Lock, Locked};
use crate::nodes::Node;
use crate::purses::Purse;
use crate::stretches::Stretch;
use cs_core::{Core, Event, Reply};
use cs_disk::PageDisk;
use std::alloc::Global;
use std::marker::Model;

/// A node whose lock is open. Contracts see its core, how many purses it gave, and the numbers of the acks that were
/// handed in.
#[derive(Drop)]
pub struct Rest<D: PageDisk, K: Naming> {
    locked: Locked<D, K>,
    board: NamedBoard<D, K>,
}

impl<D: PageDisk, K: Naming> Model for Rest<D, K> {
    ghost use Rattle.cs_node.specs.Under.{RestView};

    ghost Value = { RestView D };

    ghost view = { λ r. record { core = r.locked.engine.core; given = r.locked.given; handed = r.locked.handed } };
}

/// Why a node wasn't closed.
#[derive(Clone, Copy, Debug)]
pub enum Unclosed {
    /// 50: so many numbers of accepted commands have no ticket and no ack in the purses, nor an ack that was handed in.
    /// 0 if only another test failed.
    Missing(u64),
    /// 9: memory was refused.
    OutOfMemory,
}

/// A node that wasn't closed, with the purses.
#[derive(Drop)]
pub struct NotClosed<D: PageDisk, K: Naming> {
    pub why: Unclosed,
    pub rest: Rest<D, K>,
    pub purses: Vec<Purse<K>>,
}

/// What a node did: its disk, how many commands were accepted, how many of them are persistent and so acknowledged, how
/// many events checkpoints replaced, and the later events with their replies, the first one first.
#[derive(Drop)]
pub struct Closed<D> {
    pub disk: D,
    pub accepted: u64,
    pub acknowledged: u64,
    pub base: u64,
    pub history: Vec<(Event, Reply)>,
}

impl<D: PageDisk, K: Naming> Node<D, K> {
    /// Opens the lock. No other thread may have the node.
    pub fn rest(self) -> Rest<D, K>
        ensures { IsBehind D.PageDisk K.start result.core }
    {
        let Node { lock, board } = self;
        let locked = lock.into_inner();
        // Called for its contract alone: what a core behind the lock keeps.
        locked.engine.core();
        Rest { locked, board }
    }
}

impl<D: PageDisk, K: Naming> Rest<D, K> {
    /// Its core, which was opened on what K names.
    pub fn core(&self) -> &Core<D>
        ensures core { result.now ≡ self.now.core }
        ensures behind { IsBehind D.PageDisk K.start self.now.core }
    {
        self.locked.engine.core()
    }

    /// How many purses the node gave.
    pub fn given(&self) -> u64
        ensures { result ≡ self.now.given }
    {
        self.locked.given()
    }

    /// The numbers of the acks that were handed in.
    pub fn handed(&self) -> &[Stretch]
        ensures { result.now ≡ self.now.handed }
    {
        self.locked.handed().stretches()
    }

    /// The core, with its disk: for a node that isn't closed.
    pub fn into_core(self) -> Core<D>
        ensures { result ≡ self.core }
    {
        let Rest { locked, board: _ } = self;
        locked.into_core()
    }

    /// Locks it again.
    pub fn resume(self) -> Node<D, K> {
        let Rest { locked, board } = self;
        Node {
            lock: Lock::new(locked),
            board,
        }
    }

    /// Closes the node if these purses account for its history:
    /// - they are all that the node gave out;
    /// - their calls are those of the history as far as it is kept, each once;
    /// - their tickets and acks, with the acks that were handed in, are the numbers of all accepted commands, each
    ///   once;
    /// - no ack is for a command that isn't persistent.
    ///
    /// The tickets for persistent commands become acks then, so that these are the persistent commands, each once.
    /// Calls of events that checkpoints replaced aren't looked at. 50 `Missing` and 9 `OutOfMemory` return the node and
    /// the purses.
    pub fn close(self, alloc: Global, purses: Vec<Purse<K>>) -> Result<Closed<D>, NotClosed<D, K>>
        ensures closed { IfOk result (λ c. IsClosed self purses.items c) }
        ensures acknowledged { IfOk result (λ c. (x : ℕ) → acknowledged_by c.acknowledged x self.handed purses.items ≡ once_to c.acknowledged x) }
        ensures behind { IsBehind D.PageDisk K.start self.core }
        // A crash of its disk leaves the map after the first n commands, n not below any number that was acknowledged.
        ensures left { D.honest self.core.disk → IfOk result (λ c. Leaves (D.state c.disk) (IsPrefix (shape_at K.start) (page K.start.opened) (commands_said self.core.history) c.acknowledged c.accepted)) }
        ensures err { IfErr result (λ e. (e.rest ≡ self) × (e.purses.items ≡ purses.items) × Fails self purses.items e.why) }
    {
        match judge(
            alloc,
            self.core(),
            self.given(),
            self.locked.handed(),
            purses.as_slice(),
        ) {
            Ok(None) => Ok(self.end()),
            Ok(Some(missing)) => Err(NotClosed {
                why: Unclosed::Missing(missing),
                rest: self,
                purses,
            }),
            Err(_) => Err(NotClosed {
                why: Unclosed::OutOfMemory,
                rest: self,
                purses,
            }),
        }
    }

    /// What the node did.
    fn end(self) -> Closed<D>
        ensures disk { result.disk ≡ self.core.disk }
        ensures accepted { result.accepted ≡ self.core.store.accepted }
        ensures acknowledged { result.acknowledged ≡ self.core.store.frontier }
        ensures within { self.core.store.frontier ≤ self.core.store.accepted }
        ensures base { result.base ≡ self.core.base }
        ensures history { result.history.items ≡ kept self.core }
    {
        let (accepted, acknowledged) = self.core().progress();
        let base = self.core().base();
        let Rest { locked, board: _ } = self;
        let (disk, history) = locked.into_core().into_parts();
        Closed {
            disk,
            accepted,
            acknowledged,
            base,
            history,
        }
    }
}

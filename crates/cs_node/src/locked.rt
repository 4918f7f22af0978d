//! What lies under the lock, and the lock.
//!
//! Under one lock at most one event is done, or one checkpoint taken. `Engine::apply` is the one function that has the
//! core do an event. It requires that none was done since the lock was taken, and says that one was done afterwards.
//! Outside this file that is known only of what `Lock::take` returns: the mutex, the core and the mark are private. So
//! a function that does a second event without taking the lock again isn't proved.
ghost use Rattle.std.specs.Prelude.{◌≡◌, ◌≢◌, ◌⊎◌, ◌+◌, ◌-◌, ◌^◌, ◌<◌, ◌≤◌, [], IfErr, IfOk, MatchOption, MatchResult, OnErr, OnOk, false, length, true};
ghost use Rattle.std.specs.Sync.Mutex.{mutex_guard_value};
ghost use Rattle.cs_core.specs.Checkpoints.{IsNotReplaced, Replaces};
ghost use Rattle.cs_core.specs.Replies.{MayAnswer};
ghost use Rattle.cs_core.specs.Views.{Applies, IsUntouched, IsStep};
ghost use Rattle.cs_node.specs.Numbers.{GainsAll};
ghost use Rattle.cs_inspect.specs.Choices.{ReadsOn};
ghost use Rattle.cs_node.specs.Behind.{IsBehind};
ghost use Rattle.cs_node.specs.Choices.{ChoosesPast};
ghost use Rattle.cs_node.specs.Locks.{Declines};
ghost use Rattle.cs_node.specs.Mirror.{knows};
ghost use Rattle.cs_node.specs.Starts.{start_of};
ghost use Rattle.cs_node.specs.Told.{empty};

use crate::boards::{NamedBoard, Naming, Reader};
use crate::choices::choose_extent;
use crate::gates::{Gate, step_of};
use crate::judges::is_full;
use crate::numbers::Numbers;
use crate::pilots::Pilot;
use crate::purses::Purse;
use cs_core::{Core, Event, OutOfMemory, Reply};
use cs_deps::LAST_NUMBER;
use cs_disk::PageDisk;
use cs_refusal::Refusal;
use std::alloc::{AllocError, Global};
use std::marker::{Model, PhantomData};
use std::snapshot::Snapshot;
use std::sync::{Mutex, MutexGuard, Wait};

/// A core, and the keeper's seat at the board that K names. Contracts see the core, and whether no event was done since
/// the lock was taken.
#[derive(Drop)]
pub struct Engine<D: PageDisk, K: Naming> {
    alloc: Global,
    core: Core<D>,
    keeper: Reader,
    // it costs no bytes
    fresh: Snapshot<bool>,
    of: PhantomData<K>,
}

impl<D: PageDisk, K: Naming> Model for Engine<D, K> {
    ghost use Rattle.std.specs.Prelude.{◌≡◌, []};
    ghost use Rattle.cs_node.specs.Mirror.{knows};
    ghost use Rattle.cs_node.specs.Starts.{start_of};
    ghost use Rattle.cs_node.specs.Under.{EngineView};

    ghost Value = { EngineView D };

    ghost view = { λ s. record { core = s.core; fresh = s.fresh.value } };

    ghost invariant = { λ s. (start_of s.core ≡ K.start) × (s.keeper.table_id ≡ K.table) × (s.keeper.id ≡ 0) × (s.keeper.me ≡ (knows K.start s.core.store.frontier, [])) };
}

/// The engine that does events, how many purses and whether the pilot the node gave out, and the numbers of the acks
/// that came back.
#[derive(Drop)]
pub struct Locked<D: PageDisk, K: Naming> {
    pub engine: Engine<D, K>,
    given: u64,
    piloted: bool,
    handed: Numbers,
}

impl<D: PageDisk, K: Naming> Model for Locked<D, K> {
    ghost use Rattle.cs_node.specs.Under.{Under};

    ghost Value = { Under D };

    ghost view = { λ s. record { engine = s.engine; given = s.given; piloted = s.piloted; handed = s.handed } };
}

/// The lock. Each time it is taken, one event may be done.
#[derive(Drop)]
pub struct Lock<D: PageDisk, K: Naming> {
    mutex: Mutex<Locked<D, K>>,
}

impl<D: PageDisk, K: Naming> Lock<D, K> {
    /// A lock that is open, with this under it.
    pub fn new(locked: Locked<D, K>) -> Self {
        Lock {
            mutex: Mutex::new(locked),
        }
    }

    /// Takes the lock, for at most one event.
    pub fn take<R: Wait>(&self, rt: &R) -> MutexGuard<'_, Locked<D, K>>
        ensures fresh { (mutex_guard_value result).engine.fresh ≡ true }
        ensures behind { IsBehind D.PageDisk K.start (mutex_guard_value result).engine.core }
    {
        let mut guard = self.mutex.lock(rt);
        guard.engine.refresh();
        guard
    }

    /// What lies under it. No other thread may have the lock.
    pub fn into_inner(self) -> Locked<D, K> {
        let Lock { mutex } = self;
        mutex.into_inner()
    }
}

impl<D: PageDisk, K: Naming> Engine<D, K> {
    /// A core, and the keeper's seat.
    fn new(alloc: Global, core: Core<D>, keeper: Reader) -> Self
        requires start { start_of core ≡ K.start }
        requires keeper { (keeper.table_id ≡ K.table) × (keeper.id ≡ 0) × (keeper.me ≡ (knows K.start core.store.frontier, [])) }
        ensures { result ≡ record { core = core; fresh = false } }
    {
        Engine {
            alloc,
            core,
            keeper,
            fresh: Snapshot::of(&false),
            of: PhantomData,
        }
    }

    /// As the lock is taken.
    fn refresh(&mut self)
        ensures fresh { self.new ≡ record self.old { fresh = true } }
        ensures behind { IsBehind D.PageDisk K.start self.new.core }
    {
        self.fresh = Snapshot::of(&true);
        // Called for its contract alone: what a core behind the lock keeps.
        self.core();
    }

    /// Does the one event of this lock. If it makes more commands persistent, the board is raised.
    fn apply(&mut self, board: &NamedBoard<D, K>, event: &Event) -> Result<Reply, OutOfMemory>
        requires fresh { self.old.fresh ≡ true }
        ensures step { IfOk result (λ reply. Applies D.PageDisk self.old.core event.now reply self.new.core) }
        ensures memory { OnErr result (IsUntouched D.PageDisk self.old.core self.new.core) }
        ensures answers { IfOk result (λ reply. MayAnswer event.now reply) }
        ensures spent { self.new.fresh ≡ false }
    {
        self.fresh = Snapshot::of(&false);
        let before = self.core.frontier();
        let reply = self.core.apply(event)?;
        if before < self.core.frontier() {
            board.raise(&mut self.keeper, &self.core);
        }
        Ok(reply)
    }

    /// Does one event, and calls the gate. Returns its reply, which may be a refusal. After 9 `OutOfMemory` or 41
    /// `HistoryFull` nothing is recorded.
    pub fn record<G: Gate>(
        &mut self,
        board: &NamedBoard<D, K>,
        event: &Event,
        gate: &G,
    ) -> Result<Reply, Refusal>
        requires fresh { self.old.fresh ≡ true }
        ensures step { IfOk result (λ reply. IsStep D.PageDisk self.old.core event.now reply self.new.core) }
        ensures answers { IfOk result (λ reply. MayAnswer event.now reply) }
        ensures recorded { IfOk result (λ reply. reply ≢ Reply.Refused Refusal.HistoryFull) }
        ensures err { IfErr result (λ r. (r ≡ Refusal.OutOfMemory) ⊎ (r ≡ Refusal.HistoryFull)) }
        ensures declined { IfErr result (λ r. Declines D.PageDisk self.old.core event.now r self.new.core) }
    {
        // Called for its contract alone: what a core behind the lock keeps.
        self.core();
        let Ok(reply) = self.apply(board, event) else {
            return Err(Refusal::OutOfMemory);
        };
        if is_full(&reply) {
            return Err(Refusal::HistoryFull);
        }
        gate.within(step_of(event));
        Ok(reply)
    }

    /// The place of the next event in the history, of which the replaced events are a part.
    pub fn place(&self) -> u64
        ensures place { result ≡ length self.now.core.history }
        ensures fits { result < 2 ^ 64 - 1 }
    {
        self.core.base() + self.core.history().len() as u64
    }

    /// Replaces the events that are kept by the state that they led to, as `Core::checkpoint`. Returns how many they
    /// were.
    pub fn checkpoint(&mut self) -> Result<u64, Refusal>
        requires fresh { self.old.fresh ≡ true }
        ensures done { MatchResult result (λ n. Replaces self.old.core n self.new.core) (λ r. IsNotReplaced self.old.core r × (self.new.core ≡ self.old.core)) }
        ensures spent { self.new.fresh ≡ false }
    {
        self.fresh = Snapshot::of(&false);
        self.core.checkpoint()
    }

    /// Chooses the extent to sweep next in format 4, or None, as `choose_extent`. It only reads: no event is done.
    pub fn choose(&mut self, passed: &[usize]) -> Result<Option<usize>, AllocError>
        ensures chosen { IfOk result (λ found. ChoosesPast D.PageDisk passed.now self.old.core self.new.core found) }
        ensures reads { ReadsOn D.PageDisk self.old.core self.new.core }
        ensures fresh { self.new.fresh ≡ self.old.fresh }
    {
        choose_extent(self.alloc, &mut self.core, passed)
    }

    /// The core, which was opened on what K names.
    pub fn core(&self) -> &Core<D>
        ensures core { result.now ≡ self.now.core }
        ensures behind { IsBehind D.PageDisk K.start self.now.core }
    {
        // Called for its contract alone: that the history is legal.
        self.core.progress();
        &self.core
    }
}

impl<D: PageDisk, K: Naming> Locked<D, K> {
    /// A core and the keeper's seat. Nothing was given out yet.
    pub fn new(alloc: Global, core: Core<D>, keeper: Reader) -> Self
        requires start { start_of core ≡ K.start }
        requires keeper { (keeper.table_id ≡ K.table) × (keeper.id ≡ 0) × (keeper.me ≡ (knows K.start core.store.frontier, [])) }
        ensures { result ≡ record { engine = record { core = core; fresh = false }; given = 0; piloted = false; handed = [] } }
    {
        Locked {
            engine: Engine::new(alloc, core, keeper),
            given: 0,
            piloted: false,
            handed: Numbers::new(alloc),
        }
    }

    /// Takes the acks of a purse. If memory is refused nothing changes.
    pub fn take_in(&mut self, purse: &mut Purse<K>) -> Result<(), AllocError>
        ensures numbers { OnOk result (GainsAll self.old.handed purse.old.acks self.new.handed) }
        ensures purse { OnOk result (purse.new ≡ record purse.old { acks = [] }) }
        ensures others { OnOk result (self.new ≡ record self.old { handed = self.new.handed }) }
        ensures err { OnErr result ((self.new ≡ self.old) × (purse.new ≡ purse.old)) }
    {
        self.handed.add_all(&mut purse.acks)?;
        Ok(())
    }

    /// The numbers of the acks that came back.
    pub fn handed(&self) -> &Numbers
        ensures { result.now ≡ self.now.handed }
    {
        &self.handed
    }

    /// A purse with a seat of its own. 35 `WornOut` after 2^63 - 1 purses.
    pub fn give(&mut self, board: &NamedBoard<D, K>, alloc: Global) -> Result<Purse<K>, Refusal>
        ensures ok { IfOk result (λ purse. (purse ≡ empty self.old.engine.core.store.frontier) × (self.new ≡ record self.old { given = self.old.given + 1 })) }
        ensures err { IfErr result (λ r. (r ≡ Refusal.WornOut) × (2 ^ 63 ≤ self.old.given + 1) × (self.new ≡ self.old)) }
    {
        if self.given >= LAST_NUMBER {
            return Err(Refusal::WornOut);
        }
        let reader = board.split(&mut self.engine.keeper);
        self.given += 1;
        Ok(Purse::new(alloc, reader))
    }

    /// The pilot with a seat of its own, or None if it was given out before.
    pub fn hire(&mut self, board: &NamedBoard<D, K>) -> Option<Pilot<K>>
        ensures { MatchOption result ((self.old.piloted ≡ true) × (self.new ≡ self.old)) (λ pilot. (self.old.piloted ≡ false) × (pilot ≡ self.old.engine.core.store.frontier) × (self.new ≡ record self.old { piloted = true })) }
    {
        if self.piloted {
            return None;
        }
        let reader = board.split(&mut self.engine.keeper);
        self.piloted = true;
        Some(Pilot::new(reader))
    }

    /// How many purses were given.
    pub fn given(&self) -> u64
        ensures { result ≡ self.now.given }
    {
        self.given
    }

    /// The core alone.
    pub fn into_core(self) -> Core<D>
        ensures { result ≡ self.engine.core }
    {
        let Locked {
            engine,
            given: _,
            piloted: _,
            handed: _,
        } = self;
        let Engine {
            alloc: _,
            core,
            keeper: _,
            fresh: _,
            of: _,
        } = engine;
        core
    }
}

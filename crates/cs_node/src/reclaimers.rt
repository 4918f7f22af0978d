//! Who sweeps extents.
ghost use Rattle.std.specs.Prelude.{ℕ, ◌≡◌, ◌⊎◌, ◌↔◌, ◌^◌, ◌-◌, ◌<◌, ◌≤◌, IfErr, IfOk, IfSome, IsTrue, MatchOption, OnErr, Some, not, true};
ghost use Rattle.cs_node.specs.Locks.{WhileLocked};
ghost use Rattle.cs_node.specs.Sweeps.{Finds, GoesOn, HasSwept, IsAfterTurns, IsApart, IsLeastFrom, IsNextAfter, IsSweepRefused, IsSweepTurn, LacksMemory, MayBegin, NoneFrom, Picks, Reclaiming, after_event, after_refusal, given_up, only_of, unbegun, with_passed, with_refused};
ghost use Rattle.cs_node.specs.Told.{is_unrecorded};

use crate::boards::{NamedBoard, Naming};
use crate::gates::{Gate, Step, step_of};
use crate::locked::Engine;
use crate::nodes::Node;
use arrayvec::ArrayVec;
use cs_core::{Core, Event, Reply};
use cs_disk::PageDisk;
use cs_inspect::is_of_chunk;
use cs_refusal::Refusal;
use std::alloc::AllocError;
use std::marker::{Model, PhantomData};
use std::sync::Wait;
use std::thread;

/// How many extents a reclaimer passes over at most.
const MOST_PASSED_OVER: usize = 16;

/// What comes next of a sweep, and of which extent.
#[derive(Clone, Copy, Debug)]
pub enum Next {
    /// The next sweep begins, of an extent that is chosen then.
    Begin,
    /// The sweep of this very extent begins.
    BeginAt(usize),
    Move(usize),
    Retire(usize),
    Abandon(usize),
}

/// Sweeps extents of one node, one after another. Contracts see how many sweeps it may still begin, the extent that it
/// began last, and what comes next. They also see which extents it passes over, and at how many events it last found
/// none to sweep.
#[derive(Drop)]
pub struct Reclaimer<K: Naming> {
    sweeps: u32,
    last: Option<usize>,
    passed: ArrayVec<usize, 16>,
    rested: Option<u64>,
    next: Next,
    of: PhantomData<K>,
}

impl<K: Naming> Model for Reclaimer<K> {
    ghost use Rattle.cs_node.specs.Sweeps.{Reclaiming};

    ghost Value = { Reclaiming };

    ghost view = { λ r. record { left = r.sweeps; begun = r.last; passed = r.passed.items; rested = r.rested; next = r.next } };
}

impl<K: Naming> Reclaimer<K> {
    /// One that begins at most so many sweeps.
    pub fn new(sweeps: u32) -> Self
        ensures { result ≡ unbegun sweeps }
    {
        Reclaimer {
            sweeps,
            last: None,
            passed: ArrayVec::new(),
            rested: None,
            next: Next::Begin,
            of: PhantomData,
        }
    }

    /// One that sweeps this extent, once. If its sweep can't begin, as when it is refused 33 `NotSweepable`, it is
    /// over.
    pub fn of(extent: usize) -> Self
        ensures { result ≡ only_of extent }
    {
        Reclaimer {
            sweeps: 0,
            last: None,
            passed: ArrayVec::new(),
            rested: None,
            next: Next::BeginAt(extent),
            of: PhantomData,
        }
    }

    /// Does one event of a sweep under one lock. The chunks of the extent are moved until none is live, and it is
    /// retired. After a move or a retirement that was refused, the next turn abandons the sweep.
    ///
    /// A sweep begins with the extent that `choose_sweep` of cs_inspect chooses, under the same lock. If it chooses
    /// none there is nothing to do, and it isn't asked again before another event was done. Asking it costs a read for
    /// each live chunk.
    ///
    /// An extent is passed over if a move was refused 1, 20 to 24 or 26. The chunk can't be read, so the extent would be
    /// chosen again and again. It is passed over until a sweep goes to its end. If a move is refused so while 16
    /// extents are passed over, no further sweep begins.
    ///
    /// In formats 1 and 2 a sweep begins with the lowest extent that may be swept above the last one. If there is none
    /// it begins with the lowest that may be swept. It goes by numbers alone and doesn't look at garbage, so it also
    /// sweeps extents without any.
    ///
    /// The refusals are those of the event, 9 `OutOfMemory`, and 41 `HistoryFull` of a sweep's begin or of a move. A
    /// sweep that isn't gone on with leaves its extent marked, which `Node::abandon` undoes.
    pub fn turn<D: PageDisk, G: Gate, R: Wait>(
        &mut self,
        rt: &R,
        node: &Node<D, K>,
        gate: &G,
    ) -> Result<Step, Refusal>
        ensures { WhileLocked D.PageDisk K.start (λ old new. IsSweepTurn D.PageDisk old self.old result new self.new) }
    {
        node.lock.take(rt).engine.sweep(&node.board, self, gate)
    }

    /// Takes turns until the gate ends it, its sweeps are used up, or a turn is refused 40 `Halted` or 41
    /// `HistoryFull`. It yields if there is nothing to do.
    pub fn run<D: PageDisk, G: Gate, R: Wait>(
        &mut self,
        rt: &R,
        node: &Node<D, K>,
        gate: &G,
    ) -> Result<(), Refusal>
        ensures ok { IfOk result (λ _. HasSwept self.new ⊎ G.ended gate.now) }
        ensures err { IfErr result (λ r. (r ≡ Refusal.Halted) ⊎ (r ≡ Refusal.HistoryFull)) }
        ensures refused { IfErr result (λ r. WhileLocked D.PageDisk K.start (λ old new. (was : Reclaiming) × IsSweepRefused D.PageDisk old was r new self.new)) }
        ensures left { self.new.left ≤ self.old.left }
        ensures turns { (n : ℕ) × IsAfterTurns D.PageDisk K.start n self.old self.new }
    {
        for _ in rt.forever() {
            if self.has_swept() || !gate.before() {
                return Ok(());
            }
            match self.turn(rt, node, gate) {
                Ok(Step::Idle) => thread::yield_now(),
                Ok(_) => {}
                Err(Refusal::Halted) => return Err(Refusal::Halted),
                Err(Refusal::HistoryFull) => return Err(Refusal::HistoryFull),
                Err(_) => {}
            }
        }
        unreachable!()
    }

    /// Whether no sweep is going on and none may be begun.
    fn has_swept(&self) -> bool
        ensures { IsTrue result ↔ HasSwept self.now }
    {
        self.sweeps == 0 && matches!(self.next, Next::Begin)
    }

    /// Whether no sweep is left to begin.
    fn is_spent(&self) -> bool
        ensures { IsTrue result ↔ (self.now.left ≡ 0) }
    {
        self.sweeps == 0
    }

    /// Whether it last found none to sweep when this was the place of the next event.
    fn has_rested_at(&self, place: u64) -> bool
        ensures { IsTrue result ↔ (self.now.rested ≡ Some place) }
    {
        self.rested == Some(place)
    }

    /// Notes that it found none to sweep when this was the place of the next event.
    fn rest_at(&mut self, place: u64)
        ensures { self.new ≡ record self.old { rested = Some place } }
    {
        self.rested = Some(place);
    }

    /// The extent that it began last.
    fn last(&self) -> Option<usize>
        ensures { result ≡ self.now.begun }
    {
        self.last
    }

    /// The extents that it passes over.
    fn passed(&self) -> &[usize]
        ensures { result.now ≡ self.now.passed }
    {
        self.passed.as_slice()
    }

    /// The event of the sweep that is going on, or the begin of the extent that was asked for. None if neither is.
    fn going_on(&self) -> Option<Event>
        ensures { MatchOption result (self.now.next ≡ Next.Begin) (λ event. GoesOn self.now event) }
    {
        match self.next {
            Next::Begin => None,
            Next::BeginAt(extent) => Some(Event::BeginSweep(extent)),
            Next::Move(extent) => Some(Event::MoveOne(extent)),
            Next::Retire(extent) => Some(Event::Retire(extent)),
            Next::Abandon(extent) => Some(Event::Abandon(extent)),
        }
    }

    /// Goes on after an event that was done.
    fn go_on(&mut self, event: &Event, reply: &Reply)
        ensures { self.new ≡ after_event self.old event.now reply.now }
    {
        match event {
            Event::BeginSweep(extent) => {
                self.sweeps = self.sweeps.saturating_sub(1);
                self.last = Some(*extent);
                self.next = Next::Move(*extent);
            }
            Event::MoveOne(extent) => {
                if let Reply::NoneLive = reply {
                    self.next = Next::Retire(*extent);
                }
            }
            Event::Retire(_) => {
                self.passed.clear();
                self.next = Next::Begin;
            }
            Event::Abandon(_) => self.next = Next::Begin,
            _ => {}
        }
    }

    /// Goes on after an event that was refused, in format 4 (`apart`) or in another one.
    fn go_on_refused(&mut self, event: &Event, refusal: Refusal, apart: bool)
        ensures { self.new ≡ after_refusal apart self.old event.now refusal }
    {
        if apart {
            self.note_refused(event, refusal);
        }
        self.give_up(event, refusal);
    }

    /// Passes over an extent if a move was refused that tells of its chunk.
    fn note_refused(&mut self, event: &Event, refusal: Refusal)
        ensures { self.new ≡ with_refused true self.old event.now refusal }
    {
        if let Event::MoveOne(extent) = event {
            if is_of_chunk(refusal) {
                self.pass_over(*extent);
            }
        }
    }

    /// Passes over an extent. If it passes over as many as it may, it begins no sweep any more.
    fn pass_over(&mut self, extent: usize)
        ensures { self.new ≡ with_passed self.old extent }
    {
        if self.passed.len() < MOST_PASSED_OVER {
            self.passed.push(extent);
        } else {
            self.sweeps = 0;
        }
    }

    /// Gives a sweep up whose event was refused.
    fn give_up(&mut self, event: &Event, refusal: Refusal)
        ensures { self.new ≡ given_up self.old event.now refusal }
    {
        match event {
            Event::MoveOne(extent) | Event::Retire(extent) => self.next = Next::Abandon(*extent),
            _ if is_recorded(refusal) => self.next = Next::Begin,
            _ => {}
        }
    }
}

impl<D: PageDisk, K: Naming> Engine<D, K> {
    /// Does the next event of a sweep. The refusals are those of the event, 9 `OutOfMemory` and 41 `HistoryFull`.
    fn sweep<G: Gate>(
        &mut self,
        board: &NamedBoard<D, K>,
        reclaimer: &mut Reclaimer<K>,
        gate: &G,
    ) -> Result<Step, Refusal>
        requires fresh { self.old.fresh ≡ true }
        ensures turn { IsSweepTurn D.PageDisk self.old.core reclaimer.old result self.new.core reclaimer.new }
    {
        let apart = self.core().extents().is_apart();
        let Ok(found) = self.next_event(reclaimer) else {
            return Err(Refusal::OutOfMemory);
        };
        let Some(event) = found else {
            return Ok(Step::Idle);
        };
        match self.work(board, &event, gate) {
            Ok(reply) => {
                reclaimer.go_on(&event, &reply);
                Ok(step_of(&event))
            }
            Err(refusal) => {
                reclaimer.go_on_refused(&event, refusal, apart);
                Err(refusal)
            }
        }
    }

    /// The event that comes next, or None if none may be done.
    fn next_event(&mut self, reclaimer: &mut Reclaimer<K>) -> Result<Option<Event>, AllocError>
        ensures found { IfOk result (λ found. Finds D.PageDisk self.old.core reclaimer.old found self.new.core reclaimer.new) }
        ensures memory { OnErr result (MayBegin reclaimer.old × LacksMemory D.PageDisk self.old.core reclaimer.old self.new.core reclaimer.new) }
        ensures fresh { self.new.fresh ≡ self.old.fresh }
    {
        if let Some(event) = reclaimer.going_on() {
            return Ok(Some(event));
        }
        match self.next_extent(reclaimer)? {
            Some(extent) => Ok(Some(Event::BeginSweep(extent))),
            None => Ok(None),
        }
    }

    /// The extent whose sweep begins if no other goes on, or None if none is left or none is to be swept.
    fn next_extent(&mut self, reclaimer: &mut Reclaimer<K>) -> Result<Option<usize>, AllocError>
        ensures picked { IfOk result (λ found. Picks D.PageDisk self.old.core reclaimer.old found self.new.core reclaimer.new) }
        ensures memory { OnErr result ((1 ≤ reclaimer.old.left) × LacksMemory D.PageDisk self.old.core reclaimer.old self.new.core reclaimer.new) }
        ensures fresh { self.new.fresh ≡ self.old.fresh }
    {
        if reclaimer.is_spent() {
            return Ok(None);
        }
        if self.core().extents().is_apart() {
            return self.choose_extent(reclaimer);
        }
        Ok(next_by_number(self.core(), reclaimer.last()))
    }

    /// The same in format 4, by the rule. It isn't asked if nothing was done since it last chose none, or if no extent
    /// may be swept.
    fn choose_extent(&mut self, reclaimer: &mut Reclaimer<K>) -> Result<Option<usize>, AllocError>
        requires apart { IsApart self.old.core }
        requires left { 1 ≤ reclaimer.old.left }
        ensures picked { IfOk result (λ found. Picks D.PageDisk self.old.core reclaimer.old found self.new.core reclaimer.new) }
        ensures memory { OnErr result ((1 ≤ reclaimer.old.left) × LacksMemory D.PageDisk self.old.core reclaimer.old self.new.core reclaimer.new) }
        ensures fresh { self.new.fresh ≡ self.old.fresh }
    {
        let place = self.place();
        if reclaimer.has_rested_at(place) {
            return Ok(None);
        }
        let Some(_) = lowest_from(self.core(), 0) else {
            return Ok(None);
        };
        match self.choose(reclaimer.passed())? {
            Some(extent) => Ok(Some(extent)),
            None => {
                reclaimer.rest_at(place);
                Ok(None)
            }
        }
    }
}

/// Whether a history records an event with this refusal.
fn is_recorded(refusal: Refusal) -> bool
    ensures { is_unrecorded refusal ≡ not result }
{
    !matches!(refusal, Refusal::OutOfMemory | Refusal::HistoryFull)
}

/// The extent that is next by the numbers, for formats 1 and 2: the lowest that may be swept above the last one, else
/// the lowest that may be swept. It looks at no garbage, so an extent full of live chunks is swept too.
fn next_by_number<D: PageDisk>(core: &Core<D>, last: Option<usize>) -> Option<usize>
    ensures { MatchOption result (NoneFrom core.now.store 0) (λ e. IsNextAfter core.now.store last e) }
{
    if let Some(extent) = last {
        let above = lowest_from(core, extent.saturating_add(1));
        if above.is_some() {
            return above;
        }
    }
    lowest_from(core, 0)
}

/// The lowest extent from this one on that may be swept.
fn lowest_from<D: PageDisk>(core: &Core<D>, from: usize) -> Option<usize>
    ensures lowest { MatchOption result (NoneFrom core.now.store from) (λ e. IsLeastFrom core.now.store from e) }
    ensures fits { IfSome result (λ e. e < 2 ^ 64 - 1) }
{
    for extent in from..core.extent_count() {
        if core.is_sweepable(extent) {
            return Some(extent);
        }
    }
    None
}

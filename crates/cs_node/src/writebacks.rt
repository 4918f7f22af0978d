//! Events of writeback, under the lock.
ghost use Rattle.std.specs.Prelude.{◌≡◌, IfErr, IfOk, MatchOption, MatchResult, None, true};
ghost use Rattle.cs_core.specs.Replies.{MayAnswer};
ghost use Rattle.cs_core.specs.Views.{IsStep};
ghost use Rattle.cs_node.specs.Dues.{IsAdvance, IsAtRest, IsDue, IsOfRound, IsStaged, IsTurn};
ghost use Rattle.cs_node.specs.Locks.{IsDone, IsRefused};

use crate::boards::{NamedBoard, Naming};
use crate::gates::{Gate, Open, Step, step_of};
use crate::locked::Engine;
use cs_core::{Core, Event, Reply};
use cs_disk::PageDisk;
use cs_refusal::Refusal;

/// The event that is next of the round that is out, or None if none is out.
pub fn round_event<D: PageDisk>(core: &Core<D>) -> Option<Event>
    ensures { MatchOption result (core.now.store.out ≡ None) (λ event. IsOfRound core.now.store event) }
{
    let (members, issued) = core.round()?;
    if issued < members.len() {
        Some(Event::Issue)
    } else {
        Some(Event::End)
    }
}

/// Which event of writeback is due, or None if nothing waits and there is nothing to stage.
pub fn due<D: PageDisk>(core: &Core<D>) -> Option<Event>
    ensures { MatchOption result (IsAtRest core.now.store) (λ event. IsDue core.now.store event) }
{
    if let Some(event) = round_event(core) {
        return Some(event);
    }
    if core.has_waiting() {
        return Some(Event::Begin);
    }
    if core.may_stage() {
        return Some(Event::Stage);
    }
    None
}

impl<D: PageDisk, K: Naming> Engine<D, K> {
    /// Does one event of the node's own, and calls the gate. Returns its reply. The event's own refusals are recorded;
    /// 9 `OutOfMemory` and 41 `HistoryFull` aren't.
    pub fn work<G: Gate>(
        &mut self,
        board: &NamedBoard<D, K>,
        event: &Event,
        gate: &G,
    ) -> Result<Reply, Refusal>
        requires fresh { self.old.fresh ≡ true }
        ensures step { IfOk result (λ reply. IsStep D.PageDisk self.old.core event.now reply self.new.core) }
        ensures answers { IfOk result (λ reply. MayAnswer event.now reply) }
        ensures done { IfOk result IsDone }
        ensures refused { IfErr result (λ r. IsRefused D.PageDisk self.old.core event.now r self.new.core) }
    {
        match self.record(board, event, gate)? {
            Reply::Refused(refusal) => Err(refusal),
            reply => Ok(reply),
        }
    }

    /// Gives up the sweep of an extent. 33 `NotSweepable`; 40 `Halted`; 9 `OutOfMemory`.
    pub fn abandon(&mut self, board: &NamedBoard<D, K>, extent: usize) -> Result<(), Refusal>
        requires fresh { self.old.fresh ≡ true }
        ensures { MatchResult result (λ _. IsStep D.PageDisk self.old.core (Event.Abandon extent) Reply.Abandoned self.new.core) (λ r. IsRefused D.PageDisk self.old.core (Event.Abandon extent) r self.new.core) }
    {
        match self.work(board, &Event::Abandon(extent), &Open) {
            Ok(_) => Ok(()),
            Err(refusal) => Err(refusal),
        }
    }

    /// Does the event of writeback that is due. The refusals are those of the event, and 9 `OutOfMemory`.
    pub fn turn<G: Gate>(&mut self, board: &NamedBoard<D, K>, gate: &G) -> Result<Step, Refusal>
        requires fresh { self.old.fresh ≡ true }
        ensures turn { IsTurn D.PageDisk self.old.core result self.new.core }
    {
        let Some(event) = due(self.core()) else {
            return Ok(Step::Idle);
        };
        match self.work(board, &event, gate) {
            Ok(_) => Ok(step_of(&event)),
            Err(refusal) => Err(refusal),
        }
    }

    /// Stages what there is to stage. Returns how many commands were accepted then.
    pub fn stage(&mut self, board: &NamedBoard<D, K>) -> Result<u64, Refusal>
        requires fresh { self.old.fresh ≡ true }
        ensures staged { IsStaged D.PageDisk self.old.core result self.new.core }
    {
        self.work(board, &Event::Stage, &Open)?;
        Ok(self.core().accepted())
    }

    /// Does the event of writeback that is due, if fewer commands are persistent than are wanted.
    pub fn advance(&mut self, board: &NamedBoard<D, K>, target: u64) -> Result<(), Refusal>
        requires fresh { self.old.fresh ≡ true }
        ensures advance { IsAdvance D.PageDisk self.old.core target result self.new.core }
    {
        if self.core().frontier() < target {
            self.turn(board, &Open)?;
        }
        Ok(())
    }
}

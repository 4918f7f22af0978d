//! Syncs: what was accepted is made persistent, round after round.
ghost use Rattle.std.specs.Prelude.{◌≡◌, [], List, None, IfErr, IfOk, OnOk, length, ◌≢◌, ◌-◌, ℕ};
ghost use Rattle.cs_writeback.specs.Histories.{Went, Goes, IsStopped};
ghost use Rattle.cs_writeback.specs.Rounds.{Turn, events_of_all, rounds_of, Finishes, IsPart, IsStoppedAtDue, Members, StopsFirst, elements_of, events_of, issues, rest_of_round, step_event};
ghost use Rattle.cs_writeback.specs.Runs.{Ran};
ghost use Rattle.cs_writeback.specs.Syncs.{AreTold, MayRefuseSync, StopsInRounds, StopsSync, Syncs};
ghost use Rattle.cs_core.specs.Calls.{IsCall};
ghost use Rattle.cs_core.specs.Stored.{members_of};
ghost use Rattle.cs_core.specs.declared.events.Event.{Event as Asked};
ghost use Rattle.cs_core.specs.declared.events.Reply.{Reply as Answer};
ghost use Rattle.cs_core.specs.declared.events.Event.TheVariants.{End};
ghost use Rattle.cs_core.specs.declared.events.Reply.TheVariants.{Ended};
ghost use Rattle.cs_writeback.specs.declared.syncs.Stop.TheVariants.{Refused as StopRefused};
ghost use Rattle.cs_deps.specs.declared.elements.Element.{Element as Name};
ghost use Rattle.cs_refusal.specs.declared.refusals.Refusal.{Refusal};
ghost use Rattle.cs_core.specs.Views.{View};

use crate::asks::ask;
use cs_core::{Core, Elements, Event, Reply};
use cs_deps::Element;
use cs_disk::PageDisk;
use cs_refusal::Refusal;
use std::convert::Infallible;

/// Why rounds ended early.
#[derive(Debug, Drop)]
pub enum Stop<E> {
    /// An event was refused.
    Refused(Refusal),
    /// A round that has ended couldn't be reported.
    Untold(E),
}

impl<E> From<Refusal> for Stop<E> {
    ghost from_gives = { λ refusal stop. stop ≡ StopRefused refusal };

    fn from(refusal: Refusal) -> Self {
        Stop::Refused(refusal)
    }
}

/// Hears of each round as it ends, in a state `S` that it changes.
pub trait Observer<S> {
    /// Why a round can't be reported.
    type Error;

    /// The state, the number of the round, from 1, its elements, and the state afterwards.
    ghost tells: { S → ℕ → List Name → S → Type 0 };

    /// Reports a round that has ended.
    fn tell(told: &mut S, number: usize, round: &[Element]) -> Result<(), Self::Error>
        ensures { OnOk result (tells told.old number round.now told.new) };
}

/// Observes nothing.
pub struct Silent;

impl<S> Observer<S> for Silent {
    type Error = Infallible;

    ghost tells = { λ before number round after. after ≡ before };

    fn tell(_told: &mut S, _number: usize, _round: &[Element]) -> Result<(), Infallible> {
        Ok(())
    }
}

/// Makes all accepted commands persistent. Returns how many of those since the core was opened are persistent then. It
/// ends the round that is out, if there is one, stages the index's changes, and runs round after round until nothing
/// waits. It costs a write for each element that waits, and a flush for each round.
///
/// 40 `Halted`; 30 `Full` or 35 `WornOut` of the Stage; 1 `DeviceFault`, which halts the store; 9 `OutOfMemory`.
/// Whatever the disk does, no other refusal comes. What became persistent until then stays so, and the next sync ends a
/// round that is out then.
pub fn sync<D: PageDisk>(core: &mut Core<D>) -> Result<u64, Refusal>
    ensures done { IfOk result (λ frontier. Syncs D.PageDisk core.old core.new × (frontier ≡ core.new.store.frontier)) }
    ensures stopped { IfErr result (λ refusal. StopsSync D.PageDisk core.old refusal core.new) }
    ensures refusals { IfErr result MayRefuseSync }
    ensures ran { Ran D.PageDisk core.old core.new }
{
    end_round(core)?;
    ask(core, &Event::Stage)?;
    match write_rounds::<D, (), Silent>(core, &mut ()) {
        Ok(_) => Ok(core.frontier()),
        Err(Stop::Refused(refusal)) => Err(refusal),
    }
}

/// Runs round after round until nothing waits, if no round is out. Reports each as it ends. Returns how many they were.
///
/// The refusals are those of `run_round`. If a round can't be reported it ends with that error. That round has ended,
/// and more may wait.
pub fn write_rounds<D: PageDisk, S, O: Observer<S>>(
    core: &mut Core<D>,
    told: &mut S,
) -> Result<usize, Stop<O::Error>>
    requires { core.old.store.out ≡ None }
    ensures done { IfOk result (λ count. (turns : List Turn) × (count ≡ length turns) × Went D.PageDisk core.old (events_of_all turns) core.new
        × AreTold O.tells 1 (rounds_of turns) told.old told.new) }
    ensures none { OnOk result (core.new.store.graph.staging.pending.waiting ≡ []) }
    ensures stopped { IfErr result (StopsInRounds D.PageDisk O.tells core.old core.new told.old told.new) }
    ensures ran { Ran D.PageDisk core.old core.new }
{
    for ended in 0..usize::MAX {
        if !core.has_waiting() {
            return Ok(ended);
        }
        let round = run_round(core)?;
        if let Err(error) = O::tell(told, ended + 1, round.as_slice()) {
            return Err(Stop::Untold(error));
        }
    }
    // Each round was recorded, and no history has so many events. Called for their contracts alone: how many there may
    // be.
    core.base();
    core.history();
    unreachable!()
}

/// Ends the round that is out. Returns how many commands are persistent then, or None if none was out. Cost and
/// refusals are those of `finish_round`; if no round is out nothing is asked.
pub fn end_round<D: PageDisk>(core: &mut Core<D>) -> Result<Option<u64>, Refusal>
    ensures done { IfOk result (λ frontier. Finishes D.PageDisk core.old frontier core.new) }
    ensures refused { IfErr result (λ refusal. StopsFirst D.PageDisk core.old refusal core.new) }
    ensures ran { Ran D.PageDisk core.old core.new }
{
    if core.round().is_none() {
        return Ok(None);
    }
    match finish_round(core) {
        Ok(frontier) => Ok(Some(frontier)),
        Err(refusal) => Err(refusal),
    }
}

/// Issues what is left of the round that is out, and ends it. Returns how many commands are persistent then. It costs a
/// write for each member that is left, and a flush.
///
/// 40 `Halted`; 1 `DeviceFault`, which halts the store; 9 `OutOfMemory`, after which the round is still out.
pub fn finish_round<D: PageDisk>(core: &mut Core<D>) -> Result<u64, Refusal>
    requires { core.old.store.out ≢ None }
    ensures done { IfOk result (λ frontier. (members : Members) × Went D.PageDisk core.old (rest_of_round members frontier) core.new) }
    ensures refused { IfErr result (λ refusal. (members : Members) × IsStoppedAtDue D.PageDisk core.old (issues members) refusal core.new) }
    ensures ran { Ran D.PageDisk core.old core.new }
{
    match issue_rest(core) {
        Ok(()) => end(core),
        Err(refusal) => Err(refusal),
    }
}

/// Issues what is left of the round that is out.
fn issue_rest<D: PageDisk>(core: &mut Core<D>) -> Result<(), Refusal>
    requires { core.old.store.out ≢ None }
    ensures done { OnOk result ((members : Members) × Went D.PageDisk core.old (issues members) core.new) }
    ensures complete { OnOk result (step_event core.new.store ≡ End) }
    ensures refused { IfErr result (λ refusal. (members : Members) × IsStoppedAtDue D.PageDisk core.old (issues members) refusal core.new) }
    ensures ran { Ran D.PageDisk core.old core.new }
{
    let left = unissued(core);
    for _ in 0..left {
        match ask(core, &Event::Issue) {
            Ok(Reply::Issued(_, _)) => {}
            Ok(_) => unreachable!(),
            Err(refusal) => return Err(refusal),
        }
    }
    Ok(())
}

/// Ends the round that is out. Returns how many commands are persistent then.
fn end<D: PageDisk>(core: &mut Core<D>) -> Result<u64, Refusal>
    ensures done { IfOk result (λ frontier. Goes D.PageDisk core.old End (Ended frontier) core.new) }
    ensures refused { IfErr result (λ refusal. IsStopped D.PageDisk core.old [] End refusal core.new) }
    ensures call { IsCall D.PageDisk core.old core.new }
{
    match ask(core, &Event::End) {
        Ok(Reply::Ended(frontier)) => Ok(frontier),
        Ok(_) => unreachable!(),
        Err(refusal) => Err(refusal),
    }
}

/// How many members of the round that is out aren't issued yet.
fn unissued<D: PageDisk>(core: &Core<D>) -> usize
    ensures { result ≡ length (members_of core.now.store.out) - core.now.store.issued }
{
    match core.round() {
        Some((members, issued)) => members.len().saturating_sub(issued),
        None => 0,
    }
}

/// Begins the next round, issues its members and ends it. Returns the members. It costs a write for each member, and a
/// flush.
///
/// The refusals are those of `finish_round`. If the Begin is refused no round is out, else the round is still out.
pub fn run_round<D: PageDisk>(core: &mut Core<D>) -> Result<Elements, Refusal>
    requires none_out { core.old.store.out ≡ None }
    requires waits { core.old.store.graph.staging.pending.waiting ≢ [] }
    ensures done { IfOk result (λ round. (turn : Turn) × (elements_of turn ≡ round) × Went D.PageDisk core.old (events_of turn) core.new) }
    ensures refused { IfErr result (λ refusal. (part : List (Asked × Answer)) × IsPart part × IsStoppedAtDue D.PageDisk core.old part refusal core.new) }
    ensures ran { Ran D.PageDisk core.old core.new }
{
    match ask(core, &Event::Begin) {
        Ok(Reply::Begun(round)) => match finish_round(core) {
            Ok(_) => Ok(round),
            Err(refusal) => Err(refusal),
        },
        Ok(_) => unreachable!(),
        Err(refusal) => Err(refusal),
    }
}

/// No sync is refused but 1 DeviceFault, 9 OutOfMemory, 30 Full, 35 WornOut or 40 Halted, whatever the disk does. So
/// none is refused 42 NoRound, 5 InFlight or 41 HistoryFull: the events that it asks for are due, and what is due is
/// never refused so.
pub fn a_sync_is_never_out_of_turn<D: PageDisk>()
    ensures { (old new : View D) (r : Refusal) → StopsSync D.PageDisk old r new → MayRefuseSync r }
{}

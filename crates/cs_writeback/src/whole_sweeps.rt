//! Sweeps: what is live on an extent is moved off it, and the extent is retired.
ghost use Rattle.std.specs.Prelude.{◌≡◌, ◌++◌, ◌∷◌, [], ℕ, List, IfErr, IfOk, length};
ghost use Rattle.cs_refusal.specs.declared.refusals.Refusal.{Refusal as Why};
ghost use Rattle.cs_frame.specs.declared.identifiers.ShardId.{ShardId};
ghost use Rattle.cs_core.specs.Calls.{IsCall};
ghost use Rattle.cs_core.specs.declared.events.Event.TheVariants.{MoveOne, Retire};
ghost use Rattle.cs_core.specs.declared.events.Reply.TheVariants.{NoneLive, Retired};
ghost use Rattle.cs_core.specs.Views.{View};
ghost use Rattle.cs_writeback.specs.Histories.{IsStopped, Went};
ghost use Rattle.cs_writeback.specs.Runs.{Ran};
ghost use Rattle.cs_writeback.specs.Sweeps.{Abandons, IsSweepRefused, MayRefuseSweep, StopsSweep, Sweeps, moves};

use crate::asks::ask;
use cs_core::{Core, Event, Reply};
use cs_disk::PageDisk;
use cs_refusal::Refusal;

/// What a sweep did.
#[derive(Clone, Copy, Debug)]
pub struct Swept {
    /// How many chunks were moved off the extent.
    pub moved: usize,
    /// The version of the root under which it was retired.
    pub root: u64,
}

/// Moves what is live on an extent and retires it. Returns how many chunks were moved, and under which root the extent
/// was retired. It reads each chunk that it moves. What it stages waits until it is written back.
///
/// A sweep that is refused after it began is abandoned. What was copied still counts where it lay. The copies are
/// garbage, and no sweep begins before the next root. In format 2 a chunk stays where it was moved to.
///
/// 33 `NotSweepable` if the extent is empty, being swept or not there, if it holds runs, or if another sweep goes on or
/// was given up since the last root (in format 2: if it is open). 41 `HistoryFull` if as many events are kept as may
/// be; 40 `Halted`. 20 to 24 if a chunk that is to be moved is damaged, 26 `Misplaced` if another frame lies in its
/// place, and then 22 if its payload is shorter than a head. 30 `Full`; 34 `StillLive`, by the Retire; 35 `WornOut`; 1
/// `DeviceFault`. 9 `OutOfMemory`, also if there was none for the Abandon: the extent is still being swept then.
/// Whatever the disk does, no other refusal comes.
pub fn sweep<D: PageDisk>(core: &mut Core<D>, extent: usize) -> Result<Swept, Refusal>
    ensures done { IfOk result (λ swept. Sweeps D.PageDisk extent core.old core.new swept.moved swept.root) }
    ensures refused { IfErr result (λ refusal. IsSweepRefused D.PageDisk extent core.old core.new refusal) }
    ensures refusals { IfErr result MayRefuseSweep }
    ensures ran { Ran D.PageDisk core.old core.new }
{
    match ask(core, &Event::BeginSweep(extent)) {
        Ok(_) => empty_or_abandon(core, extent),
        Err(refusal) => Err(refusal),
    }
}

/// The events of a sweep that began. If one is refused the sweep is abandoned.
fn empty_or_abandon<D: PageDisk>(core: &mut Core<D>, extent: usize) -> Result<Swept, Refusal>
    ensures done { IfOk result (λ swept. (moved : List (ShardId × ℕ)) × (swept.moved ≡ length moved)
        × Went D.PageDisk core.old (moves extent moved ++ (MoveOne extent, NoneLive) ∷ (Retire extent, Retired swept.root) ∷ []) core.new) }
    ensures refused { IfErr result (λ told. (mid : View D) × (r : Why) × StopsSweep D.PageDisk extent core.old mid r × Abandons D.PageDisk extent mid core.new r told) }
    ensures refusals { IfErr result MayRefuseSweep }
    ensures ran { Ran D.PageDisk core.old core.new }
{
    match empty_extent(core, extent) {
        Ok(swept) => Ok(swept),
        Err(refusal) => Err(abandon(core, extent, refusal)),
    }
}

/// Abandons a sweep that was refused. Returns that refusal, also if the Abandon is refused too, but 9 `OutOfMemory` if
/// there was no memory for the Abandon.
fn abandon<D: PageDisk>(core: &mut Core<D>, extent: usize, refusal: Refusal) -> Refusal
    requires { MayRefuseSweep refusal }
    ensures abandons { Abandons D.PageDisk extent core.old core.new refusal result }
    ensures refusals { MayRefuseSweep result }
    ensures call { IsCall D.PageDisk core.old core.new }
{
    match ask(core, &Event::Abandon(extent)) {
        Ok(_) => refusal,
        Err(Refusal::OutOfMemory) => Refusal::OutOfMemory,
        Err(_) => refusal,
    }
}

/// Moves what is live on an extent that is being swept, and retires it.
fn empty_extent<D: PageDisk>(core: &mut Core<D>, extent: usize) -> Result<Swept, Refusal>
    ensures done { IfOk result (λ swept. (moved : List (ShardId × ℕ)) × (swept.moved ≡ length moved)
        × Went D.PageDisk core.old (moves extent moved ++ (MoveOne extent, NoneLive) ∷ (Retire extent, Retired swept.root) ∷ []) core.new) }
    ensures refused { IfErr result (λ refusal. StopsSweep D.PageDisk extent core.old core.new refusal) }
    ensures refusals { IfErr result MayRefuseSweep }
    ensures ran { Ran D.PageDisk core.old core.new }
{
    let moved = match move_all(core, extent) {
        Ok(moved) => moved,
        Err(refusal) => return Err(refusal),
    };
    match ask(core, &Event::Retire(extent)) {
        Ok(Reply::Retired(root)) => Ok(Swept { moved, root }),
        Ok(_) => unreachable!(),
        Err(refusal) => Err(refusal),
    }
}

/// Moves chunk after chunk off an extent until none is live there. Returns how many they were.
fn move_all<D: PageDisk>(core: &mut Core<D>, extent: usize) -> Result<usize, Refusal>
    ensures done { IfOk result (λ count. (moved : List (ShardId × ℕ)) × (count ≡ length moved)
        × Went D.PageDisk core.old (moves extent moved ++ (MoveOne extent, NoneLive) ∷ []) core.new) }
    ensures refused { IfErr result (λ refusal. (moved : List (ShardId × ℕ)) × IsStopped D.PageDisk core.old (moves extent moved) (MoveOne extent) refusal core.new) }
    ensures refusals { IfErr result MayRefuseSweep }
    ensures ran { Ran D.PageDisk core.old core.new }
{
    // Called for its contract alone: the events that were replaced are some of all.
    core.history();
    for moved in 0..core.limit() {
        match ask(core, &Event::MoveOne(extent)) {
            Ok(Reply::Moved(_, _)) => {}
            Ok(Reply::NoneLive) => return Ok(moved),
            Ok(_) => unreachable!(),
            Err(refusal) => return Err(refusal),
        }
    }
    // Each move was recorded, so as many events are kept as may be.
    Err(Refusal::HistoryFull)
}

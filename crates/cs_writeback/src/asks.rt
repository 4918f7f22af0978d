//! Events that are asked of a core, and room for further ones.
ghost use Rattle.std.specs.Prelude.{◌≡◌, ◌⊎◌, [], IfErr, IfOk};
ghost use Rattle.cs_core.specs.Calls.{IsCall};
ghost use Rattle.cs_core.specs.Replies.{MayAnswer, MayRefuse};
ghost use Rattle.cs_writeback.specs.Histories.{Goes, IsNoRefusal, IsStopped, MakesRoom};
ghost use Rattle.cs_writeback.specs.Runs.{Ran};

use cs_core::{Core, Event, OutOfMemory, Reply};
use cs_disk::PageDisk;
use cs_refusal::Refusal;

/// Has the core do one event. Returns its reply, or its refusal. 41 `HistoryFull` if as many events are kept as may be,
/// and 9 `OutOfMemory`; neither is recorded.
pub fn ask<D: PageDisk>(core: &mut Core<D>, event: &Event) -> Result<Reply, Refusal>
    ensures done { IfOk result (λ reply. Goes D.PageDisk core.old event.now reply core.new) }
    ensures answers { IfOk result (λ reply. MayAnswer event.now reply) }
    ensures no_refusal { IfOk result (λ reply. IsNoRefusal reply) }
    ensures refused { IfErr result (λ refusal. IsStopped D.PageDisk core.old [] event.now refusal core.new) }
    ensures refusals { IfErr result (λ r. (r ≡ Refusal.OutOfMemory) ⊎ MayRefuse event.now r) }
    ensures call { IsCall D.PageDisk core.old core.new }
{
    match core.apply(event) {
        Ok(Reply::Refused(refusal)) => Err(refusal),
        Ok(reply) => Ok(reply),
        Err(OutOfMemory) => Err(Refusal::OutOfMemory),
    }
}

/// Takes a checkpoint if at least half as many events are kept as may be and the store is settled. A caller that syncs
/// often enough never meets 41 `HistoryFull`. A checkpoint takes no memory, and time for each event that is kept.
pub fn make_room<D: PageDisk>(core: &mut Core<D>)
    ensures made { MakesRoom core.old core.new }
    ensures ran { Ran D.PageDisk core.old core.new }
{
    if core.limit().div_ceil(2) <= core.history().len() {
        // If it is refused the store isn't settled, and the events stay.
        let _ = core.checkpoint();
        // Called for its contract alone: how many events may have been replaced.
        core.base();
    }
}

//! What a node answers over a disk of which one call failed.
ghost use Rattle.std.specs.Prelude.{◌≡◌, []};

use super::acts::Act;
use super::tasks::Task;
use super::{Store, Wanted, tries};
use cs_disk::{FailAt, MemoryDisk};
use cs_node::Step;
use cs_node::the_core::{Core, Limits};
use cs_refusal::Refusal;
use std::alloc::Global;
use std::process::Abort;

/// A core that did nothing yet, over the store of another one that is opened again, with the same disk.
pub fn opened_again(
    rt: &impl Abort,
    alloc: Global,
    core: Core<FailAt<MemoryDisk>>,
) -> Core<FailAt<MemoryDisk>>
    ensures { (result.history ≡ []) × (result.store.accepted ≡ 0) }
{
    match Core::open(alloc, core.into_disk(), Limits { history: 64 }) {
        Ok(core) => core,
        Err(_) => panic!(rt; "no core"),
    }
}

/// Puts, and halts in a sync. Then puts are refused 40 Halted, and whoever works on the node ends.
const HALTS: &[Act] = &[
    Act::Put(10, Ok(1)),
    Act::Poll(Some(0)),
    Act::Hire(true),
    Act::Sync(Err(Refusal::DeviceFault)),
    Act::Put(11, Err(Refusal::Halted)),
    Act::RunPilot(Some(Refusal::Halted)),
    Act::RunStream(Some(Refusal::Halted)),
    Act::Reclaim(1),
    Act::RunReclaimer(Some(Refusal::Halted)),
    Act::Settle(Ok(Some(0))),
    Act::Poll(Some(0)),
    Act::Get(10, Some(10)),
    Act::KeepTicket,
];

/// Three calls format the store, and three open it, four are the first round's writes and flush and the second round's
/// write, and two more its flush and the root's write: the thirteenth call is the flush of the root.
#[test]
fn the_flush_of_the_root_fails(rt: HostRuntime) {
    tries(
        &rt,
        rt.alloc(),
        Store::Again(13),
        Task::Plays(HALTS),
        Wanted::Counts(1, 0),
    );
}

/// Syncs two shards, and abandons their sweep.
const ABANDONS: &[Act] = &[
    Act::Put(10, Ok(1)),
    Act::KeepTicket,
    Act::Put(11, Ok(2)),
    Act::KeepTicket,
    Act::Hire(true),
    Act::Hire(false),
    Act::Sync(Ok(2)),
    Act::Reclaim(1),
    Act::Sweep(Ok(Step::BeginSweep)),
    Act::Sweep(Err(Refusal::DeviceFault)),
    Act::Sweep(Ok(Step::Abandon)),
    Act::Sweep(Ok(Step::Idle)),
];

#[test]
fn a_refused_move_is_abandoned(rt: HostRuntime) {
    tries(
        &rt,
        rt.alloc(),
        Store::Failing(12),
        Task::Plays(ABANDONS),
        Wanted::Counts(2, 2),
    );
}

//! What drives a core keeps its room, and none of it but a put is refused for want of a place.
ghost use Rattle.std.specs.Prelude.{◌≡◌, ◌≢◌, ℕ, List, [], true};
ghost use Rattle.cs_disk.specs.Disk.{Leaves, LeavesOnly, seen};
ghost use Rattle.cs_refusal.specs.declared.refusals.Refusal.{Refusal as Why};
ghost use Rattle.cs_refusal.specs.declared.refusals.Refusal.TheVariants.{Full};
ghost use Rattle.cs_disk.specs.Reads.{OnlyReads};
ghost use Rattle.cs_extent.specs.State.{shape};
ghost use Rattle.cs_frame.specs.declared.identifiers.ShardId.{ShardId};
ghost use Rattle.cs_frame.specs.Geometries.{IsGeometry};
ghost use Rattle.law_machine.specs.Format.{Four};
ghost use Rattle.law_machine.specs.Lists.{◌∈◌};
ghost use Rattle.law_machine.specs.State.{State};
ghost use Rattle.cs_core.specs.Calls.{IsCall};
ghost use Rattle.cs_core.specs.declared.events.Event.{Event as Asked};
ghost use Rattle.cs_core.specs.declared.events.Event.TheVariants.{Put};
ghost use Rattle.cs_core.specs.declared.events.Reply.{Reply as Told};
ghost use Rattle.cs_core.specs.declared.events.Reply.TheVariants.{Refused};
ghost use Rattle.cs_core.specs.Openings.{IsOpened};
ghost use Rattle.cs_core.specs.Started.{new_stored};
ghost use Rattle.cs_core.specs.Views.{IsCore, IsIn, IsStep, View};
ghost use Rattle.cs_writeback.specs.Histories.{IsStopped};
ghost use Rattle.cs_writeback.specs.Runs.{Ran};
ghost use Rattle.cs_writeback.specs.Sweeps.{IsSweepRefused};
ghost use Rattle.cs_writeback.specs.Syncs.{StopsSync};
ghost use Rattle.law_room_in_store.specs.Cores.{HasRoom, NoneWornIn};
ghost use Rattle.law_room_in_store.specs.Images.{HasGeometry};
ghost use Rattle.law_room_in_store.specs.Roomy.{IsRoomyCore, OpensWithRoom};

use cs_disk::PageDisk;

/// Cores that have room: each of which that is known, a new one in format 4, and each that is opened on an image that
/// opens with room.
pub fn some_cores_are_roomy<D: PageDisk>()
    ensures core { (v : View D) → IsCore D.PageDisk v → D.honest v.disk → HasGeometry v.store.extents
        → (shape v.store.extents).apart ≡ true → HasRoom v → IsRoomyCore D.PageDisk v }
    ensures new { (v : View D) (store : List ℕ) (device extents pages sections : ℕ) → IsCore D.PageDisk v → D.honest v.disk
        → IsGeometry (Four store device) extents pages sections → v.history ≡ [] → v.store ≡ new_stored (Four store device) extents pages sections
        → IsRoomyCore D.PageDisk v }
    ensures opened { (v w : View D) (disk : D) → IsRoomyCore D.PageDisk v → OpensWithRoom (shape v.store.extents) w.opened
        → IsCore D.PageDisk w → D.honest w.disk → D.honest disk → IsOpened (D.honest disk) w.opened w.found w.store
        → IsRoomyCore D.PageDisk w }
{}

/// Whatever calls are made of a core that has room, it has it from then on.
pub fn calls_keep_cores_roomy<D: PageDisk>()
    ensures call { (v w : View D) → IsRoomyCore D.PageDisk v → IsCall D.PageDisk v w → IsRoomyCore D.PageDisk w }
    ensures ran { (v w : View D) → IsRoomyCore D.PageDisk v → Ran D.PageDisk v w → IsRoomyCore D.PageDisk w }
    // So has a core of which no more is known than that it was opened on the same image, with the same shape.
    ensures kept { (v w : View D) → IsRoomyCore D.PageDisk v → IsCore D.PageDisk w → D.honest w.disk
        → shape w.store.extents ≡ shape v.store.extents → w.opened ≡ v.opened → IsRoomyCore D.PageDisk w }
    ensures reads { (v w : View D) → IsRoomyCore D.PageDisk v → w ≡ record v { disk = w.disk } → OnlyReads D.PageDisk v.disk w.disk
        → IsRoomyCore D.PageDisk w }
    // Of extents that aren't worn out after calls none was before them.
    ensures worn { (v w : View D) → IsRoomyCore D.PageDisk v → Ran D.PageDisk v w → NoneWornIn w → NoneWornIn v }
{}

/// Whatever a crash leaves of the disk of a core with room opens with room, and has the same shape, whatever is damaged
/// there: after its calls or in the midst of one.
pub fn crashes_leave_images_that_open_with_room<D: PageDisk>()
    ensures now { (v : View D) → IsRoomyCore D.PageDisk v → NoneWornIn v
        → Leaves (D.state v.disk) (OpensWithRoom (shape v.store.extents)) }
    ensures within { (v w : View D) → IsRoomyCore D.PageDisk v → Ran D.PageDisk v w → NoneWornIn w
        → LeavesOnly D.moment D.left_since v.disk w.disk (OpensWithRoom (shape v.store.extents)) }
    // So does what the disk reads as where there was no crash.
    ensures seen { (v : View D) → IsRoomyCore D.PageDisk v → NoneWornIn v
        → OpensWithRoom (shape v.store.extents) (seen (D.state v.disk)) }
{}

/// In no history of a core that has room is anything but a put told as refused for want of a place, whoever asked for
/// it: as long as no extent is worn out.
pub fn no_history_tells_of_want_of_room<D: PageDisk>()
    ensures { (v : View D) (x : Asked × Told) → IsRoomyCore D.PageDisk v → NoneWornIn v → x ∈ v.history → x.1 ≡ Refused Full
        → (id : ShardId) × (bytes : List ℕ) × (x.0 ≡ Put id bytes) }
{}

/// Of the events that a core is asked for nothing but a put is refused for want of a place.
pub fn only_puts_are_refused_full<D: PageDisk>()
    ensures stopped { (v w : View D) (done : List (Asked × Told)) (event : Asked) → IsRoomyCore D.PageDisk v → NoneWornIn w
        → IsStopped D.PageDisk v done event Full w → (id : ShardId) × (bytes : List ℕ) × (event ≡ Put id bytes) }
    // So it is of a core of which no more is known than what it was opened on, as one behind the lock of a node.
    ensures behind { (v old new : View D) (event : Asked) → IsRoomyCore D.PageDisk v → shape old.store.extents ≡ shape v.store.extents
        → old.opened ≡ v.opened → D.honest old.disk → ((s : State) × IsIn D.state old s) → NoneWornIn old
        → IsStep D.PageDisk old event (Refused Full) new → (id : ShardId) × (bytes : List ℕ) × (event ≡ Put id bytes) }
{}

/// No sync is refused for want of a place, however full the device is.
pub fn a_sync_is_never_refused_full<D: PageDisk>()
    ensures { (v w : View D) (r : Why) → IsRoomyCore D.PageDisk v → NoneWornIn w → StopsSync D.PageDisk v r w → r ≢ Full }
{}

/// No sweep is refused for want of a place, neither by its moves nor by its end.
pub fn a_sweep_is_never_refused_full<D: PageDisk>()
    ensures { (v w : View D) (e : ℕ) (r : Why) → IsRoomyCore D.PageDisk v → NoneWornIn w → IsSweepRefused D.PageDisk e v w r
        → r ≢ Full }
{}

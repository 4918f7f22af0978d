//! Laws of cores. Each function does nothing; its contract is the law.
ghost use Rattle.std.specs.Prelude.{◌≡◌, ◌≢◌, ◌⊎◌, ◌↔◌, ◌+◌, ℕ, List, [], Some, true};
ghost use Rattle.cs_deps.specs.Chain.{IsHeight};
ghost use Rattle.cs_deps.specs.declared.elements.Element.{Element as Item};
ghost use Rattle.cs_deps.specs.Pending.{Waits};
ghost use Rattle.cs_deps.specs.Staging.{IsKept};
ghost use Rattle.cs_disk.specs.Disk.{Image, LeavesOnly, MayLeave, State as DiskState};
ghost use Rattle.cs_extent.specs.State.{shape};
ghost use Rattle.cs_frame.specs.Formats.{formats_of};
ghost use Rattle.law_machine.specs.Apart.{MayStage as MayStageIn, by_rule};
ghost use Rattle.law_machine.specs.Element.{Bytes};
ghost use Rattle.law_machine.specs.Geometry.{marks_in};
ghost use Rattle.law_machine.specs.State.{State, map_now};
ghost use Rattle.law_refinement.specs.Crashes.{IsTornFrom};
ghost use Rattle.law_refinement.specs.Devices.{IsDiskOf};
ghost use Rattle.cs_core.specs.Lookups.{AreMeantBytes, SameOrTwoAgree};
ghost use Rattle.cs_core.specs.Meanings.{commands_said};
ghost use Rattle.cs_core.specs.Puts.{newest_command};
ghost use Rattle.cs_core.specs.Calls.{AreCalls, IsRoundDone};
ghost use Rattle.cs_core.specs.Disks.{IsDiskAfter};
ghost use Rattle.cs_core.specs.States.{IsStateOf, AreOfGeometry};
ghost use Rattle.cs_core.specs.Stored.{Stored};
ghost use Rattle.cs_core.specs.Unstaged.{MayStage};
ghost use Rattle.cs_core.specs.Views.{Applies, IsCore, IsReached, View};
ghost use Rattle.cs_core.specs.Prefixes.{IsPrefixOf, IsPrefixBetween};

use crate::events::{Event, Reply};
use cs_disk::PageDisk;

/// If nothing waits and the index's table is empty, all accepted commands are persistent.
pub fn all_accepted_is_persistent_at_rest<D: PageDisk>()
    ensures { (v : View D) → IsCore D.PageDisk v → D.honest v.disk
        → v.store.graph.staging.pending.waiting ≡ [] → v.store.index.table ≡ [] → v.store.frontier ≡ v.store.accepted }
{}

/// A store has something to stage a root for, as `Core::may_stage` reports, exactly if the machine has in the same
/// state.
pub fn what_may_be_staged_agrees()
    ensures { (v : Stored) (s : State) → IsStateOf v s
        → MayStage v ↔ by_rule (shape v.extents).apart (s.table ≢ []) (MayStageIn (shape v.extents) s) }
{}

/// A store is in a state of the machine, in a format that has marks. Bytes that the places of an identifier mean are
/// those that the map has; or one of their chunks differs from the one that the map has at its place, and the two agree
/// in the first eight bytes of their digests. The clause `meant` of `Core::apply` says that a Get returns such bytes,
/// whatever the disk reads as: a page that was written elsewhere, one that was lost, or an older one.
pub fn what_places_mean_is_what_the_map_has()
    ensures { (v : Stored) (s : State) (id : ℕ) (bytes told : List ℕ) → IsStateOf v s → marks_in v.extents.format ≡ true
        → map_now s id ≡ Some (Bytes bytes) → AreMeantBytes v id told
        → SameOrTwoAgree v id bytes told }
{}

/// A core is over any disk, in a format that has marks, and the last command to an identifier since it was opened put
/// some bytes. Bytes that its places mean are those; or one of their chunks differs from the one that was put at its
/// place, and the two agree in the first eight bytes of their digests. The clause `meant` of `Core::apply` says that a
/// Get returns such bytes.
pub fn what_places_mean_is_what_was_put<D: PageDisk>()
    ensures { (v : View D) (id : ℕ) (bytes told : List ℕ) → IsCore D.PageDisk v → marks_in v.store.extents.format ≡ true
        → newest_command (commands_said v.history) id ≡ Some (Some bytes) → AreMeantBytes v.store id told
        → SameOrTwoAgree v.store id bytes told }
{}

/// A round that begins and ends lowers by one the height of each element that waited as it began and still waits,
/// whatever is done while it is out. Of the elements with height 1 none waits then.
pub fn a_round_lowers_heights_by_one()
    ensures lower { (old new : Stored) (done : IsRoundDone old new) (x : Item) (n : ℕ) → IsKept old.graph.staging → IsKept done.last.graph.staging
        → IsHeight old.graph.staging.pending x n → Waits new.graph.staging.pending x
        → (m : ℕ) × (n ≡ m + 1) × IsHeight new.graph.staging.pending x m }
    ensures first { (old new : Stored) (done : IsRoundDone old new) (x : Item) → IsKept old.graph.staging → IsKept done.last.graph.staging
        → IsHeight old.graph.staging.pending x 1 → ¬ Waits new.graph.staging.pending x }
{}

/// Take any calls of `apply` and `checkpoint`, one after another, on a core over an honest disk. A crash may come at
/// any moment since the first one began, within a call or between two. It leaves an image that recovers the map after
/// the first n of all commands accepted so far. n is at least the frontier as the first call began. `recovers` of
/// `Core::open` says that the image is opened as that.
///
/// If the first call is the core's first, n may be any number up to all. If it is the one after the last End, n is at
/// least all that is persistent.
pub fn a_crash_of_a_run_leaves_a_prefix<D: PageDisk>()
    ensures { (old new : View D) (between : List (View D)) → IsCore D.PageDisk old → D.honest old.disk
        → AreCalls D.PageDisk old between new
        → LeavesOnly D.moment D.left_since old.disk new.disk (IsPrefixBetween old new) }
{}

/// The store is in a state that the history leads to. What an honest disk has durable is what is persistent in that
/// state, page by page. What it has volatile are the writes of the round that were issued, in order.
pub fn disks_hold_what_is_persistent<D: PageDisk>()
    ensures { (v : View D) → IsCore D.PageDisk v → D.honest v.disk
        → (s : State) × IsStateOf v.store s × IsReached (shape v.store.extents) (formats_of (shape v.store.extents)) v.opened v.history s
        × IsDiskOf (shape v.store.extents) (formats_of (shape v.store.extents)) s (D.state v.disk) }
{}

/// A crash may tear pages of frames that were being written: pages of an extent to which a write wasn't flushed.
/// Whatever it makes of these, what it leaves of an honest disk recovers the map after the first n commands, n from the
/// frontier to all. `recovers` of `Core::open` says that it is opened as that. Every other page is whole, also those of
/// the superblock and of the root.
///
/// A write that the disk refused tears its page only if the disk has it among those that aren't flushed. Each core has
/// extents of a geometry (`whole` of `Core::progress`).
pub fn what_a_torn_crash_leaves_is_recovered<D: PageDisk>()
    // Between two calls.
    ensures now { (v : View D) (left image : Image) → IsCore D.PageDisk v
        → AreOfGeometry v.store.extents → D.honest v.disk
        → MayLeave (D.state v.disk) left → IsTornFrom (shape v.store.extents) (D.state v.disk) left image → IsPrefixOf v image }
    // Within a call of `apply`, by its clauses `step` and `device`. It makes one write or one flush at most (`calls`),
    // so at each moment the disk holds what it held before or what it holds after. The numbers are those before the
    // call. A call that finds no memory leaves the disk as it was (`memory`).
    ensures within { (v w : View D) (event : Event) (reply : Reply) (disk : DiskState) (left image : Image) → IsCore D.PageDisk v
        → AreOfGeometry v.store.extents → D.honest v.disk
        → Applies D.PageDisk v event reply w → IsDiskAfter v.store (D.state v.disk) event reply (D.state w.disk)
        → (disk ≡ D.state v.disk) ⊎ (disk ≡ D.state w.disk)
        → MayLeave disk left → IsTornFrom (shape v.store.extents) disk left image → IsPrefixOf v image }
{}

//! Cores have room.
ghost use Rattle.std.specs.Prelude.{◌≡◌, ◌<◌, ℕ, List, [], true};
ghost use Rattle.cs_disk.specs.Disk.{GoesOn, Leaves, LeavesOnly, MayLeave};
ghost use Rattle.cs_extent.specs.State.{shape};
ghost use Rattle.cs_frame.specs.declared.identifiers.ShardId.{ShardId};
ghost use Rattle.cs_frame.specs.Geometries.{IsGeometry};
ghost use Rattle.cs_refusal.specs.declared.refusals.Refusal.TheVariants.{Full};
ghost use Rattle.cs_core.specs.declared.events.Event.{Event as Asked};
ghost use Rattle.cs_core.specs.declared.events.Event.TheVariants.{Put};
ghost use Rattle.cs_core.specs.declared.events.Reply.{Reply as Told};
ghost use Rattle.cs_core.specs.declared.events.Reply.TheVariants.{Refused};
ghost use Rattle.cs_core.specs.Calls.{AreCalls};
ghost use Rattle.cs_core.specs.Checkpoints.{Replaces};
ghost use Rattle.cs_core.specs.Started.{new_stored};
ghost use Rattle.cs_core.specs.Views.{Applies, IsCore, IsUntouched, View};
ghost use Rattle.law_machine.specs.Format.{Format, Four};
ghost use Rattle.law_room_in_store.specs.Cores.{HasRoom, NoneWornIn};
ghost use Rattle.law_room_in_store.specs.Images.{HasGeometry, HasRoomOn};

use cs_disk::PageDisk;

/// A core that was opened where no run is named, on which nothing was done yet, has room. One over a new store in
/// format 4 is so.
pub fn a_new_core_has_room<D: PageDisk>()
    ensures empty { (v : View D) → IsCore D.PageDisk v → D.honest v.disk → HasGeometry v.store.extents
        → (shape v.store.extents).apart ≡ true → v.history ≡ [] → v.store.index.runs ≡ [] → HasRoom v }
    ensures new { (v : View D) (store : List ℕ) (device extents pages sections : ℕ) → IsCore D.PageDisk v → D.honest v.disk
        → IsGeometry (Four store device) extents pages sections → v.history ≡ [] → v.store ≡ new_stored (Four store device) extents pages sections → HasRoom v }
    // And none of its extents is worn out.
    ensures young { (v : View D) (format : Format) (extents pages sections : ℕ) → v.store ≡ new_stored format extents pages sections
        → NoneWornIn v }
{}

/// Where a core has room, and no extent is worn out, nothing but a put is ever refused for want of a place: no Stage,
/// no move, no end of a sweep and no deletion.
pub fn nothing_but_a_put_is_refused_full<D: PageDisk>()
    ensures { (v w : View D) (event : Asked) → IsCore D.PageDisk v → D.honest v.disk → HasGeometry v.store.extents
        → (shape v.store.extents).apart ≡ true → HasRoom v → NoneWornIn v → Applies D.PageDisk v event (Refused Full) w
        → (id : ShardId) × (bytes : List ℕ) × (event ≡ Put id bytes) }
{}

/// A core with room has it after any event, after one for which there was no memory, and after a checkpoint; so after
/// any calls.
pub fn room_stays<D: PageDisk>()
    ensures event { (v w : View D) (event : Asked) (reply : Told) → HasRoom v → Applies D.PageDisk v event reply w → HasRoom w }
    ensures memory { (v w : View D) → HasRoom v → IsUntouched D.PageDisk v w → HasRoom w }
    ensures checkpoint { (v w : View D) (n : ℕ) → HasRoom v → Replaces v n w → HasRoom w }
    ensures calls { (v w : View D) (between : List (View D)) → HasRoom v → AreCalls D.PageDisk v between w → HasRoom w }
    // Of extents that aren't worn out after an event none was before it.
    ensures worn { (v w : View D) (event : Asked) (reply : Told) → IsCore D.PageDisk v → D.honest v.disk
        → HasGeometry v.store.extents → (shape v.store.extents).apart ≡ true → Applies D.PageDisk v event reply w
        → NoneWornIn w → NoneWornIn v }
{}

/// What a crash leaves of the disk of a core with room has room, whichever of the volatile writes it keeps.
pub fn what_a_crash_leaves_has_room<D: PageDisk>()
    ensures now { (v : View D) → IsCore D.PageDisk v → D.honest v.disk → HasGeometry v.store.extents
        → (shape v.store.extents).apart ≡ true → HasRoom v → NoneWornIn v
        → Leaves (D.state v.disk) (HasRoomOn (shape v.store.extents)) }
    // So has what one leaves in the midst of an event.
    ensures within { (v w : View D) (event : Asked) (reply : Told) → IsCore D.PageDisk v → D.honest v.disk
        → IsCore D.PageDisk w → D.honest w.disk → HasGeometry v.store.extents → (shape v.store.extents).apart ≡ true
        → HasRoom v → NoneWornIn w → Applies D.PageDisk v event reply w
        → GoesOn D.honest D.state D.moment D.left_since v.disk w.disk
        → LeavesOnly D.moment D.left_since v.disk w.disk (HasRoomOn (shape v.store.extents)) }
    // And a core that is opened on it has room, in whatever way.
    ensures opened { (v w : View D) → IsCore D.PageDisk v → D.honest v.disk → HasGeometry v.store.extents
        → (shape v.store.extents).apart ≡ true → HasRoom v → NoneWornIn v → MayLeave (D.state v.disk) w.opened
        → shape w.store.extents ≡ shape v.store.extents → HasRoom w }
{}

//! Whatever becomes of a core.
ghost use Rattle.std.specs.Prelude.{◌≡◌, ℕ, List, [], true};
ghost use Rattle.cs_refusal.specs.declared.refusals.Refusal.TheVariants.{Full};
ghost use Rattle.cs_extent.specs.State.{State as ExtentsState, shape};
ghost use Rattle.cs_frame.specs.declared.identifiers.ShardId.{ShardId};
ghost use Rattle.cs_frame.specs.Geometries.{IsGeometry};
ghost use Rattle.cs_core.specs.declared.events.Event.{Event as Asked};
ghost use Rattle.cs_core.specs.declared.events.Event.TheVariants.{Put};
ghost use Rattle.cs_core.specs.declared.events.Reply.TheVariants.{Refused};
ghost use Rattle.cs_core.specs.Openings.{IsOpened};
ghost use Rattle.cs_core.specs.Started.{new_stored};
ghost use Rattle.cs_core.specs.Views.{Applies, View};
ghost use Rattle.law_machine.specs.Format.{Format, Four};
ghost use Rattle.law_room_in_store.specs.Cores.{HasRoom};
ghost use Rattle.law_room_in_store.specs.Images.{HasGeometry};
ghost use Rattle.law_room_in_store.specs.Lives.{Lives};

use cs_disk::PageDisk;

/// Each store that is made or opened has a geometry, which goes with its shape; and in format 4 chunks and runs lie
/// apart.
pub fn each_store_has_a_geometry<D: PageDisk>()
    ensures new { (format : Format) (extents pages sections : ℕ) → IsGeometry format extents pages sections
        → HasGeometry (new_stored format extents pages sections).extents }
    ensures opened { (disk : D) (v : View D) → IsOpened (D.honest disk) v.opened v.found v.store → D.honest disk
        → HasGeometry v.store.extents }
    ensures shape { (x y : ExtentsState) → shape y ≡ shape x → HasGeometry x → HasGeometry y }
    ensures apart { (x : ExtentsState) (store : List ℕ) (device : ℕ) → x.format ≡ Four store device → (shape x).apart ≡ true }
{}

/// Take a core with room, and any calls, crashes and openings of what they left, until an extent was reset so often
/// that its generation is the greatest. All the time the core has room, and nothing but a put is refused for want of a
/// place.
pub fn no_core_is_ever_stuck<D: PageDisk>()
    ensures room { (v w : View D) (others : List (View D)) → HasGeometry v.store.extents
        → (shape v.store.extents).apart ≡ true → HasRoom v → Lives D.PageDisk v others w → HasRoom w }
    ensures shape { (v w : View D) (others : List (View D)) → Lives D.PageDisk v others w
        → shape w.store.extents ≡ shape v.store.extents }
    ensures full { (v w x : View D) (others : List (View D)) (event : Asked) → HasGeometry v.store.extents
        → (shape v.store.extents).apart ≡ true → HasRoom v → Lives D.PageDisk v others w
        → Applies D.PageDisk w event (Refused Full) x → (id : ShardId) × (bytes : List ℕ) × (event ≡ Put id bytes) }
    // So it is from the time on that a store is made in format 4.
    ensures new { (v w x : View D) (others : List (View D)) (event : Asked) (store : List ℕ) (device extents pages sections : ℕ)
        → IsGeometry (Four store device) extents pages sections → v.history ≡ [] → v.store ≡ new_stored (Four store device) extents pages sections
        → Lives D.PageDisk v others w → Applies D.PageDisk w event (Refused Full) x
        → (id : ShardId) × (bytes : List ℕ) × (event ≡ Put id bytes) }
{}

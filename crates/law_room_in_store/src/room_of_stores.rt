//! The typed store keeps its room, and nothing of it but a put is refused for want of a place.
ghost use Rattle.std.specs.Prelude.{◌≡◌, ◌≢◌, ◌⊎◌, ℕ, List, []};
ghost use Rattle.cs_refusal.specs.declared.refusals.Refusal.TheVariants.{Full, OutOfMemory};
ghost use Rattle.cs_extent.specs.State.{shape};
ghost use Rattle.cs_frame.specs.declared.identifiers.ShardId.{ShardId};
ghost use Rattle.law_machine.specs.State.{Command};
ghost use Rattle.cs_core.specs.declared.events.Event.TheVariants.{Abandon, Delete, Put};
ghost use Rattle.cs_core.specs.Views.{IsCore, View};
ghost use Rattle.cs_writeback.specs.Histories.{IsStopped};
ghost use Rattle.cs_writeback.specs.Syncs.{StopsSync};
ghost use Rattle.cs_store.specs.declared.errors.DeleteError.{DeleteError};
ghost use Rattle.cs_store.specs.declared.errors.DeleteError.TheVariants as delete;
ghost use Rattle.cs_store.specs.declared.errors.SweepError.{SweepError};
ghost use Rattle.cs_store.specs.declared.errors.SweepError.TheVariants as sweep;
ghost use Rattle.cs_store.specs.declared.errors.SyncError.{SyncError};
ghost use Rattle.cs_store.specs.declared.errors.SyncError.TheVariants as sync;
ghost use Rattle.cs_store.specs.Errors.{delete_refusal, sweep_refusal, sync_refusal};
ghost use Rattle.cs_store.specs.Events.{Declines, IsHalted};
ghost use Rattle.cs_store.specs.Maps.{Accepts};
ghost use Rattle.cs_inspect.specs.Choices.{ReadsOn};
ghost use Rattle.cs_store.specs.Reserves.{IsReserved, RefusesPut};
ghost use Rattle.cs_store.specs.declared.reserves.Reserve.TheVariants as reserve;
ghost use Rattle.cs_store.specs.Rooms.{IsMadeReady};
ghost use Rattle.cs_store.specs.Sweeps.{DeclinesSweep};
ghost use Rattle.law_room_in_store.specs.Cores.{NoneWornIn};
ghost use Rattle.law_room_in_store.specs.Puts.{FillsExtents};
ghost use Rattle.law_room_in_store.specs.Roomy.{IsRoomyCore};
ghost use Rattle.law_room_in_store.specs.Sweeps.{AreLeftForPuts};

use cs_disk::PageDisk;

/// A typed store that has room has it after whatever call: each is told by a clause `ran`, so `calls_keep_cores_roomy`
/// says it, or by `accepts`. Where the call only read, see `reads` there.
pub fn calls_keep_stores_roomy<D: PageDisk>()
    ensures { (v w : View D) (commands : List Command) → IsRoomyCore D.PageDisk v → Accepts D.PageDisk commands v w
        → IsCore D.PageDisk w → IsRoomyCore D.PageDisk w }
{}

/// No sync, no delete, no sweep, no reclaim and no abandon of the typed store is refused 30 Full, however full the
/// device is; neither by its own events nor by the sync that makes room for them. Their premises are the clauses
/// `refused` of these calls.
pub fn nothing_but_a_put_of_a_store_is_refused_full<D: PageDisk>()
    ensures sync { (v w : View D) (error : SyncError) → IsRoomyCore D.PageDisk v → NoneWornIn w
        → IsHalted v (sync_refusal error) w ⊎ StopsSync D.PageDisk v (sync_refusal error) w → error ≢ sync.Full }
    ensures delete { (v w : View D) (id : ShardId) (error : DeleteError) → IsRoomyCore D.PageDisk v → NoneWornIn w
        → IsHalted v (delete_refusal error) w ⊎ Declines D.PageDisk v (Delete id) (delete_refusal error) w
        → error ≢ delete.Full }
    ensures sweep { (v w : View D) (e : ℕ) (error : SweepError) → IsRoomyCore D.PageDisk v → NoneWornIn w
        → IsHalted v (sweep_refusal error) w ⊎ DeclinesSweep D.PageDisk e v w (sweep_refusal error) → error ≢ sweep.Full }
    ensures abandon { (v w : View D) (e : ℕ) (error : SweepError) → IsRoomyCore D.PageDisk v → NoneWornIn w
        → IsHalted v (sweep_refusal error) w ⊎ IsStopped D.PageDisk v [] (Abandon e) (sweep_refusal error) w
        → error ≢ sweep.Full }
    ensures reclaim { (v w : View D) (error : SweepError) → IsRoomyCore D.PageDisk v → NoneWornIn w
        → IsHalted v (sweep_refusal error) w ⊎ ((read : View D) × (extent : ℕ) × ReadsOn D.PageDisk v read
        × ((sweep_refusal error ≡ OutOfMemory) × (w ≡ read) ⊎ DeclinesSweep D.PageDisk extent read w (sweep_refusal error)))
        → error ≢ sweep.Full }
    // A put is refused so for its own frames alone, after reads at most, and never for the sync that makes room for its
    // event.
    ensures put { (v w : View D) (id : ShardId) (bytes : List ℕ) → IsRoomyCore D.PageDisk v → NoneWornIn w
        → RefusesPut D.PageDisk v id bytes Full w
        → (read : View D) × (ready : View D) × ReadsOn D.PageDisk v read × IsMadeReady D.PageDisk read ready
        × IsStopped D.PageDisk ready [] (Put id bytes) Full w }
{}

/// A put of the typed store is never refused 30 Full if n extents are left for puts and its frames fill at most n
/// extents. The sync that makes room for its event takes none of them. `how_many_extents_a_put_fills` says how many
/// they fill. A reserve may refuse the put 36 Reserved, but for a put without one: its `Reserve::None` refuses none.
pub fn a_put_of_a_store_finds_room<D: PageDisk>()
    ensures full { (v w : View D) (id : ShardId) (bytes : List ℕ) (n : ℕ) → IsRoomyCore D.PageDisk v → NoneWornIn w → AreLeftForPuts n v
        → FillsExtents (shape v.store.extents) n id bytes → RefusesPut D.PageDisk v id bytes Full w → ⊥ }
    // The premise is the clause `reserved` of `put_within`.
    ensures reserved { (v w : View D) (id : ShardId) (bytes : ℕ) → IsReserved D.PageDisk reserve.None id bytes v w → ⊥ }
{}

//! A sweep from its beginning to its end.
ghost use Rattle.std.specs.Prelude.{ℕ, ◌≡◌, ◌↔◌, ◌<◌, IsTrue, Some, false, map};
ghost use Rattle.cs_extent.specs.State.{extents_of, shape};
ghost use Rattle.cs_frame.specs.Formats.{place_of};
ghost use Rattle.cs_index.specs.State.{index_of};
ghost use Rattle.law_machine.specs.Element.{Locator as Place};
ghost use Rattle.law_machine.specs.Index.{live_at};
ghost use Rattle.law_machine.specs.Lists.{◌∈◌, nth};
ghost use Rattle.cs_core.specs.cs_reclaim.Sweeps.{IsSwept};

use crate::chunks;
use crate::stores::{Store, assert_indexed, assert_large, assert_ready, id, plays};
use crate::texts::{byte, text_of, words_of};
use cs_core::reclaim::{Sweep, a_sweep_keeps_every_shard, a_swept_extent_stays};
use cs_disk::PageDisk;
use cs_extent::Extents;
use cs_frame::{Locator, Places, ShardId};
use cs_index::Index;
use cs_refusal::Refusal;
use std::alloc::Global;
use std::process::Abort;

/// Puts a shard of one byte.
fn put(
    rt: &impl Abort,
    alloc: Global,
    store: &mut Store,
    last: u8,
    byte: u8,
) -> Result<(), Refusal> {
    let places = chunks::put(rt, alloc, store, (last, 1), &[byte])?;
    let count = places.as_slice().len();
    assert!(rt; count == 1);
    // In the older formats it has no mark.
    let place = places.as_slice()[0];
    assert!(rt; place.mark == 0);
    let places = Places::from_slice(alloc, &[place]).expect(rt, "memory");
    store.index.set(id(last), places)
}

/// Whether a place lies in the extents.
fn is_inside(place: Locator, extents: usize, pages: usize) -> bool
    ensures { IsTrue result ↔ ((place.extent < extents) × (place.page < pages)) }
{
    usize::from(place.extent) < extents && usize::from(place.page) < pages
}

/// Whether these places lie in the extents.
fn are_inside(places: &[Locator], extents: usize, pages: usize) -> bool
    ensures { IsTrue result → (k : ℕ) (l : Place) → nth (map place_of places.now) k ≡ Some l → (l.extent < extents) × (l.page < pages) }
{
    for k in 0..places.len() {
        if !is_inside(places[k], extents, pages) {
            return false;
        }
    }
    true
}

/// Whether all that is live lies in the extents.
fn all_inside(index: &Index, extents: usize, pages: usize) -> bool
    ensures { IsTrue result → (id : ℕ) (l : Place) → l ∈ live_at (index_of index.now) id → (l.extent < extents) × (l.page < pages) }
{
    let mut entries = index.entries();
    while let Some((id, places)) = entries.next_entry() {
        let _bytes = id.bytes();
        if !are_inside(places, extents, pages) {
            return false;
        }
    }
    true
}

/// Asserts that an extent is being swept, in a store of which chunks and runs may lie on one extent.
fn assert_swept(rt: &impl Abort, extents: &Extents, sweep: &Sweep)
    ensures swept { IsSwept (shape extents.now) (extents_of extents.now) sweep.now }
    ensures together { (shape extents.now).apart ≡ false }
{
    let apart = extents.is_apart();
    assert!(rt; !apart);
    let extent = sweep.extent();
    let count = extents.extent_count();
    assert!(rt; extent < count);
    let swept = extents.is_swept(extent);
    assert!(rt; swept);
    let open = extents.is_open(extent);
    assert!(rt; !open);
    let pointer = extents.pointer(extent);
    assert!(rt; 0 < pointer);
}

/// Asserts that all that is live lies in the extents.
fn assert_inside(rt: &impl Abort, index: &Index, extents: usize, pages: usize)
    ensures { (id : ℕ) (l : Place) → l ∈ live_at (index_of index.now) id → (l.extent < extents) × (l.page < pages) }
{
    let inside = all_inside(index, extents, pages);
    assert!(rt; inside);
}

/// Begins to sweep an extent.
fn begin(store: &mut Store, extent: usize) -> Result<Sweep, Refusal> {
    Sweep::begin(&mut store.extents, extent)
}

/// Ends a sweep.
fn abandon(rt: &impl Abort, store: &mut Store, sweep: Sweep) {
    let extent = sweep.extent();
    let count = store.extents.extent_count();
    assert!(rt; extent < count);
    sweep.abandon(&mut store.extents);
}

/// Moves the first live chunk.
fn move_one<D: PageDisk>(
    rt: &impl Abort,
    alloc: Global,
    store: &mut Store,
    disk: &mut D,
    sweep: &Sweep,
) -> Result<Option<(ShardId, usize)>, Refusal> {
    assert_ready(rt, store);
    assert_swept(rt, &store.extents, sweep);
    assert_indexed(rt, &store.index, &store.extents);
    let extents = store.extents.extent_count();
    let pages = store.extents.extent_pages();
    assert_inside(rt, &store.index, extents, pages);
    assert_large(rt, &store.extents, disk);
    sweep.move_one(
        alloc,
        &mut store.index,
        &mut store.extents,
        &mut store.graph,
        disk,
    )
}

/// Retires the extent.
fn retire(rt: &impl Abort, store: &mut Store, sweep: Sweep) -> Result<u64, (Refusal, Sweep)> {
    assert_ready(rt, store);
    assert_swept(rt, &store.extents, &sweep);
    assert_indexed(rt, &store.index, &store.extents);
    sweep.retire(&mut store.index, &mut store.extents, &mut store.graph, 2)
}

/// The sweep of an extent that is swept.
fn resumed(rt: &impl Abort, store: &Store, extent: usize) -> Sweep {
    Sweep::resume(&store.extents, extent).expect(rt, "a sweep")
}

/// Retires an extent, and tells by which root.
fn retires(rt: &impl Abort, store: &mut Store, extent: usize) -> Result<u64, Refusal> {
    let sweep = resumed(rt, store, extent);
    match retire(rt, store, sweep) {
        Ok(root) => Ok(root),
        Err((refusal, _)) => Err(refusal),
    }
}

/// Begins to sweep an extent, and tells which.
fn begins(store: &mut Store, extent: usize) -> Result<usize, Refusal> {
    match begin(store, extent) {
        Ok(sweep) => Ok(sweep.extent()),
        Err(refusal) => Err(refusal),
    }
}

/// What comes of the words of a line, as text.
pub fn said<D: PageDisk>(
    rt: &(impl Abort + AllocGlobal),
    store: &mut Store,
    disk: &mut D,
    line: &str,
) -> String {
    let (word, numbers) = words_of(line);
    let extent = usize::from(numbers[0]);
    let alloc = rt.alloc();
    match word {
        "shard" => text_of(
            rt,
            &put(rt, alloc, store, byte(numbers[0]), byte(numbers[1])),
        ),
        "begin" => text_of(rt, &begins(store, extent)),
        "move" => {
            let sweep = resumed(rt, store, extent);
            text_of(rt, &move_one(rt, alloc, store, disk, &sweep))
        }
        "retire" => text_of(rt, &retires(rt, store, extent)),
        _ => {
            let sweep = resumed(rt, store, extent);
            text_of(rt, &abandon(rt, store, sweep))
        }
    }
}

/// All superblock versions wait at one level, so the last of them alone keeps a page.
#[test]
fn what_lives_is_moved_before_an_extent_is_retired(rt: HostRuntime) {
    plays(&rt, 0, MOVED);
    a_swept_extent_stays();
    a_sweep_keeps_every_shard();
}

const MOVED: &str = "sweep shard 10 97 > Ok(())
sweep shard 11 98 > Ok(())
sweep begin 0 > Ok(0)
sweep move 0 > Ok(Some((ShardId([0, 0, 0, 0, 0, 0, 0, 0, 0, 0, 0, 0, 0, 0, 0, 10]), 0)))
sweep retire 0 > Err(StillLive)
sweep abandon 0 > ()
sweep begin 0 > Ok(0)
sweep move 0 > Ok(Some((ShardId([0, 0, 0, 0, 0, 0, 0, 0, 0, 0, 0, 0, 0, 0, 0, 11]), 0)))
sweep move 0 > Ok(None)
sweep retire 0 > Ok(2)
waiting > [Plain(1), Version(0, 2), Plain(2), Version(0, 3), Plain(3), Version(0, 4), Plain(4), Version(0, 5), Plain(5), Version(0, 6), Version(1, 2)]
page 1 > Some(2)
page 2 > Some(3)
page 3 > Some(4)
page 4 > Some(5)
page 5 > Some(6)
page 0.2 > None
page 0.3 > None
page 0.4 > None
page 0.5 > None
page 0.6 > Some(0)
page 1.2 > Some(1)";

#[test]
fn what_is_open_or_empty_or_swept_is_not_sweepable(rt: HostRuntime) {
    plays(&rt, 0, NOT_SWEEPABLE);
}

const NOT_SWEEPABLE: &str = "sweep shard 10 97 > Ok(())
sweep begin 0 > Err(NotSweepable)
sweep begin 1 > Err(NotSweepable)
sweep begin 6 > Err(NotSweepable)
sweep shard 11 98 > Ok(())
sweep begin 0 > Ok(0)
sweep begin 0 > Err(NotSweepable)";

//! Which geometry a new store gets.
ghost use Rattle.std.specs.Prelude.{◌≡◌, ◌↔◌, ◌⊎◌, ◌*◌, ◌-◌, ◌/◌, ◌+◌, ◌<◌, ◌≤◌, ℕ, IfErr, IfOk, IfSome, IsNone, IsSome, IsTrue};
ghost use Rattle.cs_frame.specs.Geometries.{IsGeometry, file_format, file_pages, sections_needed};
ghost use Rattle.cs_options.specs.SureRooms.{Takes, full_extents, largest_shard, put_extents, sure_room};
ghost use Rattle.cs_options.specs.Wishes.{Holds, IsEnough, NoneRoomier, NoneSuits, OfAllThatSuit, Suits, piece_bytes, usual_pages};

use crate::shard_cuts::{CHUNK_OVERHEAD, Cut, MOST_CHUNKS};
use crate::sure_rooms::{RUN_OVERHEAD, full_extents, put_extents, room_of};
use cs_frame::{Geometry, StoreId};

/// What a new store is to hold, and how large it may be.
#[derive(Clone, Copy, Debug, PartialEq, Eq)]
pub struct Wish {
    /// The most bytes that its device may have.
    pub size: u64,
    /// The bytes of the largest shard.
    pub shard_size: u64,
    /// How many identifiers of one chunk each the index has to have room for.
    pub shards: u64,
}

/// No geometry does what is wished.
#[derive(Clone, Copy, Debug, PartialEq, Eq)]
pub struct TooSmall {
    /// The least size with which one does; none if no size is enough.
    pub least: Option<u64>,
}

/// The most extents of a store.
const MOST_EXTENTS: u64 = 7_680;

/// The most pages of an extent.
const MOST_PAGES: u64 = 65_535;

/// The pages of an extent above which none is made if that is enough: 4 MiB, which is what a sweep moves at most.
const USUAL_PAGES: u64 = 1_024;

/// The extents of a section.
const SECTION_EXTENTS: u64 = 512;

/// The bytes of an entry of the index for a shard of one chunk.
const ENTRY_BYTES: u64 = 33;

/// The geometry that a new store with this identity gets, in a file as large as the store needs. Of all that do what is
/// wished it has the most pages that are sure to hold shards. Its extents have 4 MiB at most, if the wish asks for no
/// larger ones. If no geometry does what is wished, it returns the least size with which one does.
pub fn geometry_for(wish: Wish, store: StoreId) -> Result<Geometry, TooSmall>
    ensures format { IfOk result (λ geometry. geometry.format ≡ file_format store.0 geometry.extents geometry.pages geometry.sections) }
    ensures suits { IfOk result (λ geometry. Suits wish.size wish.shard_size wish.shards geometry.format geometry.extents geometry.pages geometry.sections) }
    ensures roomiest { IfOk result (λ geometry. NoneRoomier wish.size wish.shard_size wish.shards (usual_pages wish.size wish.shard_size wish.shards) (sure_room wish.shard_size geometry.extents geometry.pages)) }
    ensures small { IfOk result (λ geometry. (geometry.pages ≤ usual_pages wish.size wish.shard_size wish.shards) ⊎ OfAllThatSuit wish.size wish.shard_size wish.shards (λ _ pages. usual_pages wish.size wish.shard_size wish.shards < pages)) }
    ensures none { IfErr result (λ _. NoneSuits wish.size wish.shard_size wish.shards) }
    ensures enough { IfErr result (λ small. IfSome small.least (IsEnough wish.shard_size wish.shards)) }
    ensures least { IfErr result (λ small. (size : ℕ) → IfSome small.least (λ least. size < least) → NoneSuits size wish.shard_size wish.shards) }
{
    if let Some(geometry) = roomiest(wish, store, usual_pages(wish)) {
        return Ok(geometry);
    }
    if let Some(geometry) = roomiest(wish, store, MOST_PAGES) {
        return Ok(geometry);
    }
    Err(TooSmall {
        least: least_size(wish),
    })
}

/// How many pages an extent has at most, if that is enough.
fn usual_pages(wish: Wish) -> u64
    ensures { result ≡ usual_pages wish.size wish.shard_size wish.shards }
{
    let shards = wish.shards.max(wish.size / wish.shard_size.max(4096));
    let run = shards
        .saturating_mul(ENTRY_BYTES)
        .saturating_add(RUN_OVERHEAD);
    let spread = (wish.size / 4096).div_ceil(MOST_EXTENTS);
    USUAL_PAGES
        .max(wish.shard_size.div_ceil(4096))
        .max(spread.max(run.div_ceil(4096)))
        .min(MOST_PAGES)
}

/// Of the geometries that do what is wished, with so many pages an extent at most, the one with the most pages that are
/// sure to hold shards. Of several it is the one with the smallest extents.
fn roomiest(wish: Wish, store: StoreId, most: u64) -> Option<Geometry>
    requires { most ≤ 65535 }
    ensures format { IfSome result (λ geometry. geometry.format ≡ file_format store.0 geometry.extents geometry.pages geometry.sections) }
    ensures suits { IfSome result (λ geometry. Suits wish.size wish.shard_size wish.shards geometry.format geometry.extents geometry.pages geometry.sections) }
    ensures roomiest { IfSome result (λ geometry. NoneRoomier wish.size wish.shard_size wish.shards most (sure_room wish.shard_size geometry.extents geometry.pages)) }
    ensures small { IfSome result (λ geometry. geometry.pages ≤ most) }
    ensures none { IsNone result → OfAllThatSuit wish.size wish.shard_size wish.shards (λ _ pages. most < pages) }
{
    let mut best: Option<Geometry> = None;
    for pages in 2..most + 1 {
        best = roomier(wish.shard_size, best, with_pages(wish, store, pages));
    }
    best
}

/// The geometry of two that is sure to hold more, and the first if they hold as much.
fn roomier(shard_size: u64, one: Option<Geometry>, other: Option<Geometry>) -> Option<Geometry>
    requires one { IfSome one (λ geometry. shard_size ≤ 8 * piece_bytes geometry.pages) }
    requires other { IfSome other (λ geometry. shard_size ≤ 8 * piece_bytes geometry.pages) }
    ensures among { (result ≡ one) ⊎ (result ≡ other) }
    ensures none { IsNone result → IsNone one × IsNone other }
    ensures first { IfSome result (λ best. IfSome one (λ geometry. sure_room shard_size geometry.extents geometry.pages ≤ sure_room shard_size best.extents best.pages)) }
    ensures second { IfSome result (λ best. IfSome other (λ geometry. sure_room shard_size geometry.extents geometry.pages ≤ sure_room shard_size best.extents best.pages)) }
{
    match (one, other) {
        (Some(one), Some(other)) => {
            if room_of(one, shard_size) < room_of(other, shard_size) {
                Some(other)
            } else {
                Some(one)
            }
        }
        (Some(one), None) => Some(one),
        (None, other) => other,
    }
}

/// The geometry with so many pages an extent, and as many extents as the size allows; none if that doesn't do what is
/// wished.
fn with_pages(wish: Wish, store: StoreId, pages: u64) -> Option<Geometry>
    requires { pages ≤ 65535 }
    ensures format { IfSome result (λ geometry. geometry.format ≡ file_format store.0 geometry.extents geometry.pages geometry.sections) }
    ensures suits { IfSome result (λ geometry. Suits wish.size wish.shard_size wish.shards geometry.format geometry.extents geometry.pages geometry.sections) }
    ensures pages { IfSome result (λ geometry. geometry.pages ≡ pages) }
    ensures roomiest { IfSome result (λ geometry. OfAllThatSuit wish.size wish.shard_size wish.shards (λ extents each. each ≡ pages → sure_room wish.shard_size extents each ≤ sure_room wish.shard_size geometry.extents geometry.pages)) }
    ensures none { IsNone result → OfAllThatSuit wish.size wish.shard_size wish.shards (λ _ each. each ≡ pages → ⊥) }
{
    if !holds(wish, pages) {
        return None;
    }
    let extents = extents_on(wish.size, pages);
    if !takes_two(wish.shard_size, extents, pages) {
        return None;
    }
    // Called for its contract alone: an identity has 16 bytes.
    store.bytes();
    Geometry::for_file(store, extents, pages, None).ok()
}

/// Whether a shard of the largest size isn't too long with so many pages an extent, and the index has room.
fn holds(wish: Wish, pages: u64) -> bool
    requires { pages ≤ 65535 }
    ensures { IsTrue result ↔ Holds wish.shard_size wish.shards pages }
{
    2 <= pages
        && wish.shard_size <= MOST_CHUNKS * (4096 * pages - CHUNK_OVERHEAD)
        && wish.shards <= (4096 * pages - RUN_OVERHEAD) / ENTRY_BYTES
}

/// Whether a shard of so many bytes can be put, each shorter one too, and this one again before anything is swept.
fn takes_two(shard_size: u64, extents: u64, pages: u64) -> bool
    requires shard_size { shard_size ≤ 8 * piece_bytes pages }
    requires extents { extents ≤ 7680 }
    requires pages { (2 ≤ pages) × (pages ≤ 65535) }
    ensures { IsTrue result ↔ ((shard_size ≤ largest_shard extents pages) × Takes 2 shard_size extents pages) }
{
    let cut = Cut::of(shard_size, pages);
    shard_size <= full_extents(extents) * (4096 * pages - CHUNK_OVERHEAD)
        && 2 * cut.chunks <= put_extents(extents) * (pages / cut.longest)
}

/// How many extents of so many pages a device of so many bytes has room for.
fn extents_on(size: u64, pages: u64) -> u64
    requires { (2 ≤ pages) × (pages ≤ 65535) }
    ensures most { result ≤ 7680 }
    ensures room { 1 ≤ result → file_pages result pages (sections_needed result) ≤ size / 4096 }
    ensures greatest { (extents : ℕ) → extents ≤ 7680 → file_pages extents pages (sections_needed extents) ≤ size / 4096 → extents ≤ result }
{
    // The root has two pages, and the superblock two for each section.
    let left = (size / 4096).saturating_sub(2);
    let section = SECTION_EXTENTS * pages + 2;
    let rest = (left % section).saturating_sub(2);
    (SECTION_EXTENTS * (left / section) + rest / pages).min(MOST_EXTENTS)
}

/// The least size with which a geometry does what is wished; none if no size is enough.
fn least_size(wish: Wish) -> Option<u64>
    ensures enough { IfSome result (IsEnough wish.shard_size wish.shards) }
    ensures least { (size : ℕ) → IfSome result (λ least. size < least) → NoneSuits size wish.shard_size wish.shards }
{
    let mut least: Option<u64> = None;
    for pages in 2..MOST_PAGES + 1 {
        least = lesser(least, size_with(wish, pages));
    }
    least
}

/// The least size with which one does so with so many pages an extent.
fn size_with(wish: Wish, pages: u64) -> Option<u64>
    requires { pages ≤ 65535 }
    ensures enough { IfSome result (IsEnough wish.shard_size wish.shards) }
    ensures least { (size : ℕ) → IfSome result (λ least. size < least) → OfAllThatSuit size wish.shard_size wish.shards (λ _ each. each ≡ pages → ⊥) }
{
    if !holds(wish, pages) {
        return None;
    }
    let cut = Cut::of(wish.shard_size, pages);
    let full = wish.shard_size.div_ceil(4096 * pages - CHUNK_OVERHEAD);
    let extents = extents_for(cut.chunks, pages / cut.longest, full);
    // One section is enough for them.
    Some(4096 * (extents * pages + 4))
}

/// The least number of extents that take two shards of so many chunks, if an extent takes so many chunks, and each
/// shard that so many extents hold.
fn extents_for(chunks: u64, each: u64, full: u64) -> u64
    requires chunks { chunks ≤ 8 }
    requires each { 1 ≤ each }
    requires full { full ≤ 8 }
    ensures bounds { (5 ≤ result) × (result ≤ 20) }
    ensures enough { 2 * chunks ≤ put_extents result * each }
    ensures holds { full ≤ full_extents result }
    ensures least { (extents : ℕ) → 5 ≤ extents → 2 * chunks ≤ put_extents extents * each → full ≤ full_extents extents → result ≤ extents }
{
    let used = (2 * chunks).div_ceil(each).max((2 * full).min(8)).max(2);
    // From 16 extents on two of them may hold the index.
    if used <= 12 { used + 3 } else { used + 4 }
}

/// The lesser of two sizes.
fn lesser(one: Option<u64>, other: Option<u64>) -> Option<u64>
    ensures among { (result ≡ one) ⊎ (result ≡ other) }
    ensures first { (size : ℕ) → IfSome result (λ least. size < least) → IfSome one (λ least. size < least) }
    ensures second { (size : ℕ) → IfSome result (λ least. size < least) → IfSome other (λ least. size < least) }
{
    match (one, other) {
        (Some(one), Some(other)) => Some(one.min(other)),
        (Some(one), None) => Some(one),
        (None, other) => other,
    }
}

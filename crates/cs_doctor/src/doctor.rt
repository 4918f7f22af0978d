//! Reads the pages of a disk for a diagnosis. A page that can't be read is reported, and the reading goes on.
ghost use Rattle.std.specs.Prelude.{◌≡◌, ◌≢◌, ◌⊎◌, ◌↔◌, ◌<◌, IfOk, IfSome, None, Some, length, map};
ghost use Rattle.cs_disk.specs.Disk.{Rises, seen};
ghost use Rattle.cs_disk.specs.Reads.{OnlyReads};
ghost use Rattle.cs_mount.specs.StorePairs.{dimensions_on, pages_of, pairs_where, store_version};
ghost use Rattle.cs_salvage.specs.Missing.{AreMissing};
ghost use Rattle.cs_salvage.specs.Shards.{AreNewest};
ghost use Rattle.cs_doctor.specs.Doctor.{AreFoundAs, AreFramesOf, IsDeep, IsFoundAs, IsHalfFound, IsLook};
ghost use Rattle.cs_salvage.specs.Parts.{of_store};
ghost use Rattle.cs_doctor.specs.declared.diagnoses.Deep.TheVariants as deep;
ghost use Rattle.cs_advice.specs.declared.knowns.Content.TheVariants as content;
ghost use Rattle.cs_twin.specs.Findings.{finding_in, half_in, half_with, is_fence};
ghost use Rattle.cs_twin.specs.Pairs.{ArePairs, half};

use crate::diagnoses::{Deep, Frames, Looked, PairFound};
use cs_advice::{Content, known_of};
use cs_disk::{DiskFault, PageDisk};
use cs_frame::{FormatNumber, Geometry, Superblock, decode_section, decode_superblock};
use cs_inspect::Progress;
use cs_mount::{StoreRules, find_geometry};
use cs_salvage::{Finds, Sought, Watcher, Whose, find_parts, missing_puts, newest_whole};
use cs_twin::{Half, PageRules, Pair};
use std::alloc::{AllocError, Global};

/// How much of a disk is read for a diagnosis.
#[derive(Clone, Copy)]
pub enum Depth {
    /// What superblock, root and index name.
    Named,
    /// All pages of all extents too.
    All,
}

/// Whether all bytes are 255.
fn is_fence(bytes: &[u8; 4096]) -> bool
    ensures { result ≡ is_fence bytes.now }
{
    bytes.iter().all(|byte| *byte == 255)
}

/// What a page of a pair with these bytes holds, if they spell this version.
fn half_with(version: u64, bytes: &[u8; 4096]) -> Half
    ensures { result ≡ half_with version bytes.now }
{
    if version > 0 {
        Half::Whole(version)
    } else if is_fence(bytes) {
        Half::Fence
    } else {
        Half::Damaged
    }
}

/// What these bytes hold as a page of a pair.
fn half_from(rules: &StoreRules, pair: Pair, bytes: &[u8; 4096]) -> Result<Half, AllocError>
    ensures { IfOk result (λ half. half ≡ half_with (store_version rules.now.geometry pair.page bytes.now) bytes.now) }
{
    match rules.version_of(pair.page, bytes) {
        Ok(version) => Ok(half_with(version, bytes)),
        Err(_) => Err(AllocError),
    }
}

/// The number of a pair's page: of its twin, or its own.
fn number_of(pair: Pair, twin: bool) -> u64
    ensures { result ≡ half pair twin }
{
    if twin { pair.twin } else { pair.page }
}

/// What a page of a pair holds. None if the page can't be read.
fn read_half<D: PageDisk>(
    disk: &mut D,
    rules: &StoreRules,
    pair: Pair,
    twin: bool,
) -> Result<Option<Half>, AllocError>
    requires { half pair twin < D.page_count disk.old }
    ensures half { D.honest disk.old → IfOk result (IsHalfFound (D.failure_count disk.old) (D.failure_count disk.new) (half_in (store_version rules.now.geometry) (seen (D.state disk.old)) pair twin)) }
    ensures cause { IfOk result (λ found. found ≡ None → Rises (D.failure_count disk.old) (D.failure_count disk.new)) }
    ensures disk { OnlyReads D.PageDisk disk.old disk.new }
{
    let mut buffer = [0; 4096];
    match disk.read(number_of(pair, twin), &mut buffer) {
        Ok(()) => Ok(Some(half_from(rules, pair, &buffer)?)),
        Err(DiskFault::DeviceFault) => Ok(None),
        Err(DiskFault::OutOfMemory) => Err(AllocError),
    }
}

/// What both pages of a pair hold.
fn read_pair<D: PageDisk>(
    disk: &mut D,
    rules: &StoreRules,
    pair: Pair,
) -> Result<PairFound, AllocError>
    requires own { pair.page < D.page_count disk.old }
    requires twin { pair.twin < D.page_count disk.old }
    ensures found { D.honest disk.old → IfOk result (IsFoundAs (D.failure_count disk.old) (D.failure_count disk.new) (finding_in (store_version rules.now.geometry) (seen (D.state disk.old)) pair)) }
    ensures disk { OnlyReads D.PageDisk disk.old disk.new }
{
    let own = read_half(disk, rules, pair, false)?;
    let twin = read_half(disk, rules, pair, true)?;
    Ok(PairFound { pair, own, twin })
}

/// What the pages of these pairs hold, in order.
fn read_pairs<D: PageDisk>(
    alloc: Global,
    disk: &mut D,
    rules: &StoreRules,
    pairs: &[Pair],
) -> Result<Vec<PairFound>, AllocError>
    requires { ArePairs pairs.now (D.page_count disk.old) }
    ensures found { D.honest disk.old → IfOk result (λ found. AreFoundAs (D.failure_count disk.old) (D.failure_count disk.new) (map (finding_in (store_version rules.now.geometry) (seen (D.state disk.old))) pairs.now) found.items) }
    ensures disk { OnlyReads D.PageDisk disk.old disk.new }
{
    let mut found = Vec::new(alloc);
    for k in 0..pairs.len() {
        let read = read_pair(disk, rules, pairs[k])?;
        found.push(read)?;
    }
    Ok(found)
}

/// What the pages hold that the store of this geometry has twice.
fn find_pairs<D: PageDisk>(
    alloc: Global,
    disk: &mut D,
    geometry: &Option<Geometry>,
) -> Result<Vec<PairFound>, AllocError>
    requires { IfSome geometry.now (λ g. pages_of g ≡ D.page_count disk.old) }
    ensures found { D.honest disk.old → IfOk result (λ found. AreFoundAs (D.failure_count disk.old) (D.failure_count disk.new) (map (finding_in (store_version geometry.now) (seen (D.state disk.old))) (pairs_where geometry.now)) found.items) }
    ensures disk { OnlyReads D.PageDisk disk.old disk.new }
{
    let rules = StoreRules {
        alloc,
        geometry: *geometry,
    };
    let pairs = rules.pairs()?;
    read_pairs(alloc, disk, &rules, &pairs)
}

/// The geometry that a section of a superblock says, if it is the first one.
fn geometry_of(superblock: &Superblock) -> Option<Geometry> {
    if superblock.section != 0 {
        return None;
    }
    let extents = u64::from(superblock.extent_count);
    let pages = u64::from(superblock.pages);
    let sections = u64::from(superblock.sections);
    Geometry::of_format(superblock.format, extents, pages, Some(sections)).ok()
}

/// The geometry that a page says: page 0 in any format, another one in format 4. None if the page can't be read.
fn geometry_on<D: PageDisk>(alloc: Global, disk: &mut D, number: u64) -> Option<Geometry>
    requires { number < D.page_count disk.old }
    ensures disk { OnlyReads D.PageDisk disk.old disk.new }
{
    let mut buffer = [0; 4096];
    if disk.read(number, &mut buffer).is_err() {
        return None;
    }
    let read = if number == 0 {
        decode_superblock(alloc, &buffer)
    } else {
        decode_section(alloc, &buffer, FormatNumber::Four)
    };
    match read {
        Ok(superblock) => geometry_of(&superblock),
        Err(_) => None,
    }
}

/// The geometry that page 0 says, in any format, also if the disk has another number of pages. None if it can't be read.
pub fn first_geometry<D: PageDisk>(alloc: Global, disk: &mut D) -> Option<Geometry>
    ensures disk { OnlyReads D.PageDisk disk.old disk.new }
{
    if disk.pages() == 0 {
        return None;
    }
    geometry_on(alloc, disk, 0)
}

/// A geometry, if it asks for so many pages.
fn of_pages(geometry: Option<Geometry>, pages: u64) -> Option<Geometry>
    ensures pages { IfSome result (λ g. pages_of g ≡ pages) }
{
    match geometry {
        Some(geometry) if geometry.device_pages() == pages => Some(geometry),
        _ => None,
    }
}

/// The geometry with the disk's number of pages that page 0 says, or else the last page.
fn geometry_at_ends<D: PageDisk>(alloc: Global, disk: &mut D) -> Option<Geometry>
    requires { 0 < D.page_count disk.old }
    ensures pages { IfSome result (λ g. pages_of g ≡ D.page_count disk.old) }
    ensures disk { OnlyReads D.PageDisk disk.old disk.new }
{
    let pages = disk.pages();
    let first = geometry_on(alloc, disk, 0);
    let last = geometry_on(alloc, disk, pages - 1);
    match of_pages(first, pages) {
        Some(geometry) => Some(geometry),
        None => of_pages(last, pages),
    }
}

/// The geometry of the store of format 4 on a disk, if there is one. If page 0 or the last page can't be read, the other
/// one says it.
fn store_geometry<D: PageDisk>(alloc: Global, disk: &mut D) -> Result<Option<Geometry>, AllocError>
    requires { 0 < D.page_count disk.old }
    ensures found { D.honest disk.old → IfOk result (λ found. (found ≡ dimensions_on (D.page_count disk.old) (seen (D.state disk.old))) ⊎ Rises (D.failure_count disk.old) (D.failure_count disk.new)) }
    ensures pages { IfOk result (λ found. IfSome found (λ g. pages_of g ≡ D.page_count disk.old)) }
    ensures disk { OnlyReads D.PageDisk disk.old disk.new }
{
    match find_geometry(alloc, disk) {
        Ok(found) => Ok(found),
        Err(DiskFault::DeviceFault) => Ok(geometry_at_ends(alloc, disk)),
        Err(DiskFault::OutOfMemory) => Err(AllocError),
    }
}

/// The geometry to print: that of the store of format 4, or that which page 0 says.
fn shown_geometry<D: PageDisk>(
    alloc: Global,
    disk: &mut D,
    store: &Option<Geometry>,
    content: Content,
) -> Option<Geometry>
    requires { 0 < D.page_count disk.old }
    ensures store { (g : _) → store.now ≡ Some g → result ≡ store.now }
    ensures disk { OnlyReads D.PageDisk disk.old disk.new }
{
    match (store, content) {
        (Some(geometry), _) => Some(*geometry),
        (None, Content::TwoStores { .. }) => None,
        (None, _) => geometry_on(alloc, disk, 0),
    }
}

/// How many pages a MiB has.
const MIB: u64 = 256;

/// Passes on how many MiB a scan has read.
#[derive_where(Clone, Copy)]
struct Passed<'a, P> {
    progress: &'a P,
}

impl<P: Progress> Watcher for Passed<'_, P> {
    fn tell(&self, page: u64, end: u64) {
        self.progress
            .tell((page / MIB) as usize, (end / MIB) as usize);
    }
}

/// What these parts come to.
fn frames_of(alloc: Global, finds: Finds) -> Result<Frames, AllocError>
    ensures unreadable { IfOk result (λ frames. frames.unreadable ≡ finds.unreadable) }
    ensures parts { IfOk result (λ frames. frames.parts ≡ finds.parts) }
    ensures shards { IfOk result (λ frames. (whole : _) × AreNewest finds.parts.items whole × (frames.shards ≡ length whole)) }
    ensures missing { IfOk result (λ frames. (gaps : _) × AreMissing finds.parts.items gaps × (frames.missing ≡ length gaps)) }
{
    let Finds { parts, unreadable } = finds;
    let shards = newest_whole(alloc, &parts)?.len();
    let missing = missing_puts(alloc, &parts)?.len();
    Ok(Frames {
        unreadable,
        parts,
        shards,
        missing,
    })
}

/// The whole frames on the device of a store of these dimensions.
fn find_frames<D: PageDisk, P: Progress>(
    alloc: Global,
    disk: &mut D,
    geometry: Geometry,
    progress: &P,
) -> Result<Frames, AllocError>
    ensures frames { D.honest disk.old → IfOk result (AreFramesOf (of_store geometry) (seen (D.state disk.old)) (D.failure_count disk.old) (D.failure_count disk.new)) }
    ensures disk { OnlyReads D.PageDisk disk.old disk.new }
{
    let sought = Sought {
        geometry,
        whose: Whose::OfStore,
    };
    let passed = Passed { progress };
    let finds = find_parts(alloc, disk, &sought, 0, &passed)?;
    let frames = frames_of(alloc, finds)?;
    Ok(frames)
}

/// Reads all pages of all extents of the store with this geometry, if that is asked for.
fn read_by_depth<D: PageDisk, P: Progress>(
    alloc: Global,
    disk: &mut D,
    geometry: &Option<Geometry>,
    depth: Depth,
    progress: &P,
) -> Result<Deep, AllocError>
    ensures depth { IfOk result (λ found. (depth ≡ Depth.All) ↔ (found ≢ deep.NotAsked)) }
    ensures found { D.honest disk.old → IfOk result (IsDeep geometry.now (seen (D.state disk.old)) (D.failure_count disk.old) (D.failure_count disk.new)) }
    ensures disk { OnlyReads D.PageDisk disk.old disk.new }
{
    match (depth, geometry) {
        (Depth::Named, _) => Ok(Deep::NotAsked),
        (Depth::All, None) => Ok(Deep::NoStore),
        (Depth::All, Some(geometry)) => {
            let frames = find_frames(alloc, disk, *geometry, progress)?;
            Ok(Deep::Found(frames))
        }
    }
}

/// What is found of a disk that has pages.
fn look_further<D: PageDisk, P: Progress>(
    alloc: Global,
    disk: &mut D,
    depth: Depth,
    progress: &P,
) -> Result<Looked, AllocError>
    requires { 0 < D.page_count disk.old }
    ensures pages { IfOk result (λ looked. looked.pages ≡ D.page_count disk.old) }
    ensures some { IfOk result (λ looked. looked.content ≢ content.Empty) }
    ensures length { IfOk result (λ looked. (pages wanted : _) → looked.content ≡ content.Length pages wanted → (pages ≡ D.page_count disk.old) × (wanted ≢ pages)) }
    ensures look { D.honest disk.old → IfOk result (IsLook (D.page_count disk.old) (seen (D.state disk.old)) (D.failure_count disk.old) (D.failure_count disk.new)) }
    ensures depth { IfOk result (λ looked. (depth ≡ Depth.All) ↔ (looked.deep ≢ deep.NotAsked)) }
    ensures disk { OnlyReads D.PageDisk disk.old disk.new }
{
    let pages = disk.pages();
    let known = known_of(alloc, disk);
    let store = store_geometry(alloc, disk)?;
    let pairs = find_pairs(alloc, disk, &store)?;
    let geometry = shown_geometry(alloc, disk, &store, known.content);
    let found = read_by_depth(alloc, disk, &store, depth, progress)?;
    Ok(Looked {
        pages,
        content: known.content,
        geometry,
        pairs,
        deep: found,
    })
}

/// A disk without pages.
fn nothing(alloc: Global) -> Looked
    ensures pages { result.pages ≡ 0 }
    ensures content { result.content ≡ content.Empty }
{
    Looked {
        pages: 0,
        content: Content::Empty,
        geometry: None,
        pairs: Vec::new(alloc),
        deep: Deep::NotAsked,
    }
}

/// What is found of the pages of a disk: what it holds, and what the pages of each pair hold. If it is asked for all, also
/// which pages of the extents can't be read, and the frames on them. A page that can't be read doesn't end it.
pub fn look_into<D: PageDisk, P: Progress>(
    alloc: Global,
    disk: &mut D,
    depth: Depth,
    progress: &P,
) -> Result<Looked, AllocError>
    ensures pages { IfOk result (λ looked. looked.pages ≡ D.page_count disk.old) }
    ensures empty { IfOk result (λ looked. (looked.content ≡ content.Empty) ↔ (D.page_count disk.old ≡ 0)) }
    ensures length { IfOk result (λ looked. (pages wanted : _) → looked.content ≡ content.Length pages wanted → (pages ≡ D.page_count disk.old) × (wanted ≢ pages)) }
    // What it says of the disk's pages is so, but for reads that failed, by which the count of failures rose.
    ensures look { D.honest disk.old → 0 < D.page_count disk.old → IfOk result (IsLook (D.page_count disk.old) (seen (D.state disk.old)) (D.failure_count disk.old) (D.failure_count disk.new)) }
    ensures depth { 0 < D.page_count disk.old → IfOk result (λ looked. (depth ≡ Depth.All) ↔ (looked.deep ≢ deep.NotAsked)) }
    ensures disk { OnlyReads D.PageDisk disk.old disk.new }
{
    if disk.pages() == 0 {
        return Ok(nothing(alloc));
    }
    look_further(alloc, disk, depth, progress)
}

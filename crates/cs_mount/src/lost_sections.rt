//! Sections of a superblock that are made from what the root and its runs name.
ghost use Rattle.std.specs.Prelude.{◌≡◌, ◌+◌, ◌*◌, ◌^◌, ◌<◌, ◌≤◌, ◌++◌, ◌⊎◌, ◌≢◌, None, Some, IfErr, IfOk, OnOk, length, map, max, false, true, ℕ};
ghost use Rattle.std.specs.List.{AllByRecursion};
ghost use Rattle.cs_disk.specs.Disk.{HasCause, page, seen};
ghost use Rattle.cs_disk.specs.Reads.{OnlyReads};
ghost use Rattle.cs_core.specs.cs_chunk.Reads.{IsCaused, IsNoAnswer};
ghost use Rattle.cs_extent.specs.Sections.{AreSections};
ghost use Rattle.cs_frame.specs.declared.formats.FormatNumber.TheVariants as of_number;
ghost use Rattle.cs_frame.specs.Formats.{formats_of};
ghost use Rattle.cs_frame.specs.Geometries.{Dimensions, IsGeometry};
ghost use Rattle.cs_frame.specs.Roots.{SpellsRoot, identity_in};
ghost use Rattle.cs_frame.specs.Runs.{IsRun};
ghost use Rattle.cs_frame.specs.Superblocks.{superblock_extents, superblock_fault, superblock_record};
ghost use Rattle.cs_index.specs.State.{index_of, newest_first};
ghost use Rattle.law_machine.specs.Device.{Page};
ghost use Rattle.law_machine.specs.Element.{Map};
ghost use Rattle.law_machine.specs.Geometry.{twins_in};
ghost use Rattle.law_machine.specs.Recovery.{Recovers};
ghost use Rattle.cs_reader.specs.Openings.{IsOpeningRefusal, IsWhyNoRoot};
ghost use Rattle.cs_twin.specs.Pairs.{half, is_turned, version_at};
ghost use Rattle.cs_mount.specs.MadeSections.{AddsLive, AreMade, AreMadeOn, HasFrames, HasRoot, IsInside, IsNamedBy, IsOneWorn, StandsThere, all_made, halves_lost, listed_places, made_section, made_writes, newest_version, rows_serve, section_serves, serves, shown_half, writes_by};
ghost use Rattle.cs_mount.specs.Makings.{pair_of_section};
ghost use Rattle.cs_mount.specs.StorePairs.{dimensions_on, pages_of, store_pair, store_shape, store_version};

use crate::identities::unless_memory;
use crate::section_rows::{are_there, is_any_past, made_all, made_superblock};
use crate::store_pairs::{StoreRules, find_geometry, is_its_root, store_pair};
use cs_disk::{DiskFault, PageDisk, refusal_of_disk};
use cs_extent::Extents;
use cs_frame::{
    Format, FormatNumber, Geometry, Locator, Root, Superblock, decode_root, decode_section,
    encode_superblock, refusal_of_fault,
};
use cs_index::{Index, StoredRun};
use cs_reader::{new_graph, read_runs};
use cs_refusal::Refusal;
use cs_twin::{PageRules, Pair};
use std::alloc::{AllocError, Global};

/// The last version of a section.
const LAST_VERSION: u64 = 0x7fff_ffff_ffff_ffff;

/// Reads the runs of a root. Of the extents on which they lie all that is assumed is that they are full, and in the
/// generation that the root names.
fn read_runs_of<D: PageDisk>(
    alloc: Global,
    disk: &mut D,
    geometry: Geometry,
    places: &[Locator],
) -> Result<Vec<StoredRun>, Refusal>
    requires sized { pages_of geometry ≡ D.page_count disk.old }
    requires twins { twins_in geometry.format ≡ true }
    ensures read { D.honest disk.old → IfOk result (λ runs. AllByRecursion (StandsThere geometry (page (seen (D.state disk.old)))) (newest_first runs.items)) }
    ensures listed { IfOk result (λ runs. map (λ run. run.place) runs.items ≡ places.now) }
    ensures runs { IfOk result (λ runs. AllByRecursion (λ run. IsRun geometry.format (record { entries = run.entries })) runs.items) }
    ensures why { D.honest disk.old → (view : ℕ → Page) (n : ℕ) (m : Map) (found : Recovers (store_shape geometry) (formats_of (store_shape geometry)) view n m)
        → HasFrames geometry (page (seen (D.state disk.old))) view → listed_places found.runs ≡ places.now → IfErr result IsNoAnswer }
    ensures number { IfErr result IsOpeningRefusal }
    ensures disk { OnlyReads D.PageDisk disk.old disk.new }
    ensures cause { IsCaused (D.failure_count disk.old) (D.failure_count disk.new) result }
{
    // Called for its contract alone: what every geometry keeps.
    geometry.extents();
    let sections = made_all(alloc, geometry, places)?;
    let extents = Extents::of(alloc, &sections)?;
    let graph = new_graph(alloc, &sections, 1)?;
    // Called for its contract alone: what all extents keep.
    extents.extent_count();
    read_runs(alloc, &extents, &graph, disk, places)
}

/// Lists some more places.
fn push_all(named: &mut Vec<Locator>, locators: &[Locator]) -> Result<(), AllocError>
    ensures { OnOk result (named.new.items ≡ named.old.items ++ locators.now) }
{
    named.extend_from_slice(locators)
}

/// These places, and those of the newest entry of each identifier.
fn add_live(index: &Index, places: Vec<Locator>) -> Result<Vec<Locator>, AllocError>
    ensures { IfOk result (λ named. AddsLive (index_of index.now) places.items named.items) }
{
    let mut named = places;
    let mut read = index.entries();
    while let Some((id, locators)) = read.next_entry() {
        let _bytes = id.bytes();
        push_all(&mut named, locators)?;
    }
    Ok(named)
}

/// The places that a root and its runs name.
fn read_named<D: PageDisk>(
    alloc: Global,
    disk: &mut D,
    geometry: Geometry,
    places: Vec<Locator>,
) -> Result<Vec<Locator>, Refusal>
    requires sized { pages_of geometry ≡ D.page_count disk.old }
    requires twins { twins_in geometry.format ≡ true }
    requires few { length places.items ≤ 24 }
    ensures named { D.honest disk.old → IfOk result (λ named. IsNamedBy geometry (page (seen (D.state disk.old))) places.items named.items) }
    ensures why { D.honest disk.old → (view : ℕ → Page) (n : ℕ) (m : Map) (found : Recovers (store_shape geometry) (formats_of (store_shape geometry)) view n m)
        → HasFrames geometry (page (seen (D.state disk.old))) view → listed_places found.runs ≡ places.items → IfErr result IsNoAnswer }
    ensures number { IfErr result IsOpeningRefusal }
    ensures disk { OnlyReads D.PageDisk disk.old disk.new }
    ensures cause { IsCaused (D.failure_count disk.old) (D.failure_count disk.new) result }
{
    // Called for its contract alone: what every geometry keeps.
    geometry.extents();
    let runs = match read_runs_of(alloc, disk, geometry, &places) {
        Ok(runs) => runs,
        Err(refusal) => return Err(refusal),
    };
    match Index::load(alloc, geometry.format(), geometry.most_weight(), runs) {
        Ok(index) => Ok(add_live(&index, places)?),
        Err(refusal) => Err(refusal),
    }
}

/// Reads a half of a pair, and returns its version: 0 if it isn't whole.
fn read_half<D: PageDisk>(
    disk: &mut D,
    rules: &StoreRules,
    pair: Pair,
    twin: bool,
    buffer: &mut [u8; 4096],
) -> Result<u64, DiskFault>
    requires inside { half pair twin < D.page_count disk.old }
    ensures bytes { D.honest disk.old → OnOk result (buffer.new ≡ page (seen (D.state disk.old)) (half pair twin)) }
    ensures version { D.honest disk.old → IfOk result (λ version. version ≡ version_at (store_version rules.now.geometry) (seen (D.state disk.old)) pair twin) }
    ensures disk { OnlyReads D.PageDisk disk.old disk.new }
    ensures cause { HasCause (D.failure_count disk.old) (D.failure_count disk.new) result }
{
    let number = if twin { pair.twin } else { pair.page };
    match disk.read(number, buffer) {
        Ok(()) => rules.version_of(pair.page, buffer),
        Err(fault) => Err(fault),
    }
}

/// The versions of both halves of a pair, and in the buffer the half that shows.
fn read_halves<D: PageDisk>(
    disk: &mut D,
    rules: &StoreRules,
    pair: Pair,
    buffer: &mut [u8; 4096],
) -> Result<(u64, u64), DiskFault>
    requires own { pair.page < D.page_count disk.old }
    requires twin { pair.twin < D.page_count disk.old }
    ensures own { D.honest disk.old → IfOk result (λ versions. versions.0 ≡ version_at (store_version rules.now.geometry) (seen (D.state disk.old)) pair false) }
    ensures twin { D.honest disk.old → IfOk result (λ versions. versions.1 ≡ version_at (store_version rules.now.geometry) (seen (D.state disk.old)) pair true) }
    ensures shown { D.honest disk.old → OnOk result (buffer.new ≡ page (seen (D.state disk.old)) (half pair (is_turned (store_version rules.now.geometry) (seen (D.state disk.old)) pair))) }
    ensures disk { OnlyReads D.PageDisk disk.old disk.new }
    ensures cause { HasCause (D.failure_count disk.old) (D.failure_count disk.new) result }
{
    let mut other = [0; 4096];
    let own = match read_half(disk, rules, pair, false, &mut other) {
        Ok(own) => own,
        Err(fault) => return Err(fault),
    };
    match read_half(disk, rules, pair, true, buffer) {
        Ok(twin) => {
            if own > twin {
                *buffer = other;
            }
            Ok((own, twin))
        }
        Err(fault) => Err(fault),
    }
}

/// The root of the store of this format that these bytes spell. Refused 20 to 24 by the first test that fails, then 43
/// NotAStore if it is the root of another store.
fn root_on(alloc: Global, bytes: &[u8; 4096], format: Format) -> Result<Root, Refusal>
    ensures root { IfOk result (λ root. SpellsRoot bytes.now (identity_in format) root.version root.commands root.runs.items) }
    ensures why { IfErr result (λ r. IsNoAnswer r ⊎ IsWhyNoRoot format bytes.now r) }
    ensures number { IfErr result IsOpeningRefusal }
    ensures unasked { IfErr result (λ r. r ≢ Refusal.DeviceFault) }
{
    match decode_root(alloc, bytes, format.number()) {
        Ok(root) => {
            if is_its_root(&root, format) {
                Ok(root)
            } else {
                Err(Refusal::NotAStore)
            }
        }
        Err(fault) => Err(refusal_of_fault(fault)),
    }
}

/// Reads the root that shows.
fn read_root<D: PageDisk>(
    disk: &mut D,
    rules: &StoreRules,
    geometry: Geometry,
) -> Result<Root, Refusal>
    requires sized { pages_of geometry ≡ D.page_count disk.old }
    requires twins { twins_in geometry.format ≡ true }
    requires rules { rules.now.geometry ≡ Some geometry }
    ensures root { D.honest disk.old → IfOk result (λ root. SpellsRoot (shown_half geometry (seen (D.state disk.old)) (store_pair geometry 1)) (identity_in geometry.format) root.version root.commands root.runs.items) }
    ensures few { IfOk result (λ root. length root.runs.items ≤ 24) }
    ensures why { D.honest disk.old → IfErr result (λ r. IsNoAnswer r ⊎ IsWhyNoRoot geometry.format (shown_half geometry (seen (D.state disk.old)) (store_pair geometry 1)) r) }
    ensures number { IfErr result IsOpeningRefusal }
    ensures disk { OnlyReads D.PageDisk disk.old disk.new }
    ensures cause { IsCaused (D.failure_count disk.old) (D.failure_count disk.new) result }
{
    let mut buffer = [0; 4096];
    match read_halves(disk, rules, store_pair(geometry, 1), &mut buffer) {
        Ok(_) => root_on(rules.alloc, &buffer, geometry.format()),
        Err(fault) => Err(refusal_of_disk(fault)),
    }
}

/// A store, the version of its root, and the places that the root and its runs name.
#[derive(Drop)]
struct Named {
    rules: StoreRules,
    geometry: Geometry,
    root: u64,
    places: Vec<Locator>,
}

/// Whether a section needs nothing that is named: its frames are there, or the root is of before.
fn rows_serve(named: &Named, start: usize, superblock: &Superblock) -> bool
    ensures { result ≡ rows_serve named.now.root named.now.places.items start superblock.now.recorded superblock.now.extents.items }
{
    let rows = &superblock.extents;
    superblock.recorded > named.root
        || are_there(start, rows, &named.places)
        || is_any_past(start, rows, &named.places)
}

/// The same by the section's page, which is whole.
fn page_serves(named: &Named, start: usize, bytes: &[u8; 4096]) -> Result<bool, DiskFault>
    ensures serves { superblock_fault of_number.Four bytes.now ≡ None
        → IfOk result (λ serves. serves ≡ rows_serve named.now.root named.now.places.items start (superblock_record of_number.Four bytes.now) (superblock_extents of_number.Four bytes.now)) }
    ensures memory { IfErr result (λ fault. fault ≡ DiskFault.OutOfMemory) }
{
    match decode_section(named.rules.alloc, bytes, FormatNumber::Four) {
        Ok(superblock) => Ok(rows_serve(named, start, &superblock)),
        Err(fault) => unless_memory(fault, false),
    }
}

/// At which place the pair of a section is.
fn pair_of_section(section: u8) -> u64
    ensures { result ≡ pair_of_section section }
{
    if section == 0 {
        0
    } else {
        u64::from(section) + 1
    }
}

/// The page of a section that is made.
fn made_page(named: &Named, version: u64, section: u8) -> Result<[u8; 4096], AllocError>
    requires first { 1 ≤ version }
    requires last { version < 2 ^ 63 }
    requires section { section < named.now.geometry.sections }
    ensures { IfOk result (λ bytes. bytes ≡ made_section named.now.geometry named.now.places.items version section) }
{
    // Called for its contract alone: what every geometry keeps.
    named.geometry.extents();
    let alloc = named.rules.alloc;
    match made_superblock(alloc, named.geometry, &named.places, version, section) {
        Ok(it) => Ok(encode_superblock(&it)),
        Err(refused) => Err(refused),
    }
}

/// Lists these bytes for each half of a pair that isn't whole.
fn push_lost(
    pages: &mut Vec<(u64, [u8; 4096])>,
    pair: Pair,
    versions: (u64, u64),
    bytes: &[u8; 4096],
) -> Result<(), AllocError>
    ensures { OnOk result (pages.new.items ≡ pages.old.items ++ map (λ p. (p, bytes.now)) (halves_lost pair versions.0 versions.1)) }
{
    if versions.0 == 0 {
        pages.push((pair.page, *bytes))?;
    }
    if versions.1 == 0 {
        pages.push((pair.twin, *bytes))?;
    }
    Ok(())
}

/// Whether the newest half of a section, with these bytes and this version, is whole and needs nothing that is named.
fn does_serve(
    named: &Named,
    section: u8,
    version: u64,
    bytes: &[u8; 4096],
) -> Result<bool, DiskFault>
    ensures serves { (0 < version → superblock_fault of_number.Four bytes.now ≡ None)
        → IfOk result (λ it. it ≡ serves named.now.geometry named.now.root named.now.places.items section version bytes.now) }
    ensures memory { IfErr result (λ fault. fault ≡ DiskFault.OutOfMemory) }
{
    if version == 0 {
        return Ok(false);
    }
    let start = named.geometry.section_start(section);
    page_serves(named, start, bytes)
}

/// Lists what is written in place of a section whose halves have these versions, the newest with these bytes, if it
/// doesn't serve.
fn list_section(
    named: &Named,
    section: u8,
    versions: (u64, u64),
    bytes: &[u8; 4096],
    pages: &mut Vec<(u64, [u8; 4096])>,
) -> Result<(), Refusal>
    requires twins { twins_in named.now.geometry.format ≡ true }
    requires section { section < named.now.geometry.sections }
    ensures listed { (0 < max versions.0 versions.1 → superblock_fault of_number.Four bytes.now ≡ None)
        → OnOk result (pages.new.items ≡ pages.old.items ++ writes_by named.now.geometry named.now.root named.now.places.items section versions.0 versions.1 bytes.now) }
    ensures fit { (0 < max versions.0 versions.1 → superblock_fault of_number.Four bytes.now ≡ None)
        → OnOk result (serves named.now.geometry named.now.root named.now.places.items section (max versions.0 versions.1) bytes.now ≡ false → 1 + max versions.0 versions.1 < 2 ^ 63) }
    ensures inside { IsInside named.now.geometry pages.old.items → OnOk result (IsInside named.now.geometry pages.new.items) }
    ensures number { IfErr result (λ r. (r ≡ Refusal.OutOfMemory) ⊎ ((r ≡ Refusal.WornOut) × (2 ^ 63 ≤ 1 + max versions.0 versions.1))) }
{
    // Called for its contract alone: what every geometry keeps.
    named.geometry.extents();
    let version = versions.0.max(versions.1);
    let serves = match does_serve(named, section, version, bytes) {
        Ok(serves) => serves,
        Err(_) => return Err(Refusal::OutOfMemory),
    };
    if serves {
        return Ok(());
    }
    if version >= LAST_VERSION {
        return Err(Refusal::WornOut);
    }
    let page = made_page(named, version + 1, section)?;
    let pair = store_pair(named.geometry, pair_of_section(section));
    push_lost(pages, pair, versions, &page)?;
    Ok(())
}

/// Lists what is written in place of a section of the store on a disk, if it doesn't serve.
fn add_section<D: PageDisk>(
    disk: &mut D,
    named: &Named,
    section: u8,
    pages: &mut Vec<(u64, [u8; 4096])>,
) -> Result<(), Refusal>
    requires sized { pages_of named.now.geometry ≡ D.page_count disk.old }
    requires twins { twins_in named.now.geometry.format ≡ true }
    requires rules { named.now.rules.geometry ≡ Some named.now.geometry }
    requires section { section < named.now.geometry.sections }
    ensures added { D.honest disk.old → OnOk result (pages.new.items ≡ pages.old.items ++ made_writes named.now.geometry (seen (D.state disk.old)) named.now.root named.now.places.items section) }
    ensures fit { D.honest disk.old → OnOk result (section_serves named.now.geometry (seen (D.state disk.old)) named.now.root named.now.places.items section ≡ false → 1 + newest_version named.now.geometry (seen (D.state disk.old)) section < 2 ^ 63) }
    ensures inside { IsInside named.now.geometry pages.old.items → OnOk result (IsInside named.now.geometry pages.new.items) }
    ensures why { D.honest disk.old → IfErr result (λ r. IsNoAnswer r ⊎ ((r ≡ Refusal.WornOut) × (2 ^ 63 ≤ 1 + newest_version named.now.geometry (seen (D.state disk.old)) section))) }
    ensures number { IfErr result (λ r. IsNoAnswer r ⊎ (r ≡ Refusal.WornOut)) }
    ensures disk { OnlyReads D.PageDisk disk.old disk.new }
    ensures cause { IsCaused (D.failure_count disk.old) (D.failure_count disk.new) result }
{
    // Called for its contract alone: what every geometry keeps.
    named.geometry.extents();
    let pair = store_pair(named.geometry, pair_of_section(section));
    let mut buffer = [0; 4096];
    match read_halves(disk, &named.rules, pair, &mut buffer) {
        Ok(versions) => list_section(named, section, versions, &buffer, pages),
        Err(fault) => Err(refusal_of_disk(fault)),
    }
}

/// Lists what is written in place of the sections that don't serve.
fn list_sections<D: PageDisk>(
    disk: &mut D,
    named: &Named,
) -> Result<Vec<(u64, [u8; 4096])>, Refusal>
    requires sized { pages_of named.now.geometry ≡ D.page_count disk.old }
    requires twins { twins_in named.now.geometry.format ≡ true }
    requires rules { named.now.rules.geometry ≡ Some named.now.geometry }
    ensures made { D.honest disk.old → IfOk result (λ pages. pages.items ≡ all_made named.now.geometry (seen (D.state disk.old)) named.now.root named.now.places.items named.now.geometry.sections) }
    ensures fit { D.honest disk.old → OnOk result ((j : ℕ) → j < named.now.geometry.sections → section_serves named.now.geometry (seen (D.state disk.old)) named.now.root named.now.places.items j ≡ false → 1 + newest_version named.now.geometry (seen (D.state disk.old)) j < 2 ^ 63) }
    ensures inside { IfOk result (λ pages. IsInside named.now.geometry pages.items) }
    ensures why { D.honest disk.old → IfErr result (λ r. IsNoAnswer r ⊎ ((r ≡ Refusal.WornOut) × IsOneWorn named.now.geometry (seen (D.state disk.old)))) }
    ensures number { IfErr result (λ r. IsNoAnswer r ⊎ (r ≡ Refusal.WornOut)) }
    ensures disk { OnlyReads D.PageDisk disk.old disk.new }
    ensures cause { IsCaused (D.failure_count disk.old) (D.failure_count disk.new) result }
{
    let mut pages = Vec::new(named.rules.alloc);
    for section in 0..named.geometry.sections() {
        match add_section(disk, named, section, &mut pages) {
            Ok(()) => {}
            Err(refusal) => return Err(refusal),
        }
    }
    Ok(pages)
}

/// What is written in place of the sections of the store of this geometry that don't serve.
fn sections_of<D: PageDisk>(
    alloc: Global,
    disk: &mut D,
    geometry: Geometry,
) -> Result<Vec<(u64, [u8; 4096])>, Refusal>
    requires sized { pages_of geometry ≡ D.page_count disk.old }
    requires twins { twins_in geometry.format ≡ true }
    ensures made { D.honest disk.old → IfOk result (λ pages. AreMade geometry (seen (D.state disk.old)) pages.items) }
    ensures inside { IfOk result (λ pages. IsInside geometry pages.items) }
    ensures why { D.honest disk.old → (view : ℕ → Page) (n : ℕ) (m : Map) → Recovers (store_shape geometry) (formats_of (store_shape geometry)) view n m → HasRoot geometry (seen (D.state disk.old)) view
        → IfErr result (λ r. IsNoAnswer r ⊎ ((r ≡ Refusal.WornOut) × IsOneWorn geometry (seen (D.state disk.old)))) }
    ensures number { IfErr result (λ r. IsOpeningRefusal r ⊎ (r ≡ Refusal.WornOut)) }
    ensures disk { OnlyReads D.PageDisk disk.old disk.new }
    ensures cause { IsCaused (D.failure_count disk.old) (D.failure_count disk.new) result }
{
    // Called for its contract alone: what every geometry keeps.
    geometry.extents();
    let rules = StoreRules {
        alloc,
        geometry: Some(geometry),
    };
    let root = match read_root(disk, &rules, geometry) {
        Ok(root) => root,
        Err(refusal) => return Err(refusal),
    };
    let Root {
        store: _,
        version,
        commands: _,
        runs,
    } = root;
    let places = match read_named(alloc, disk, geometry, runs) {
        Ok(places) => places,
        Err(refusal) => return Err(refusal),
    };
    let named = Named {
        rules,
        geometry,
        root: version,
        places,
    };
    list_sections(disk, &named)
}

/// Makes the sections of a store's superblock that are lost, from the root that shows and the runs at its places. It
/// returns which pages are to be written, and with what, or to be shown so by `Remade`: nothing if no section is lost,
/// or if no store of format 4 is on the disk.
///
/// A section is lost if one of its two pages isn't whole, and the other one isn't either, or lacks a frame that is named
/// on its extents. A section that records a later root than the one that shows isn't lost, nor is one in which an extent
/// was emptied since: then the root is of before. The section that is made is newer than both pages, and is listed for
/// each page that isn't whole. It records no root. An extent on which something lives is full there, in the generation
/// that is named. Each other extent is empty, in generation 0.
///
/// The disk is only read. The store is opened as always after `remake`, or over a `Remade`. Refused as an opening is by
/// the root and its runs, and 35 WornOut if a section has the last version.
pub fn made_sections<D: PageDisk>(
    alloc: Global,
    disk: &mut D,
) -> Result<Vec<(u64, [u8; 4096])>, Refusal>
    requires { 0 < D.page_count disk.old }
    ensures made { D.honest disk.old → IfOk result (λ pages. AreMadeOn (D.page_count disk.old) (seen (D.state disk.old)) pages.items) }
    ensures inside { IfOk result (λ pages. AllByRecursion (λ w. w.0 < D.page_count disk.old) pages.items) }
    // If an image with other sections, and with this root and these pages of extents, recovers something, it is refused
    // for no other reason.
    ensures why { D.honest disk.old → (d : Dimensions) → dimensions_on (D.page_count disk.old) (seen (D.state disk.old)) ≡ Some d → (view : ℕ → Page) (n : ℕ) (m : Map) → Recovers (store_shape d) (formats_of (store_shape d)) view n m
        → HasRoot d (seen (D.state disk.old)) view → IfErr result (λ r. IsNoAnswer r ⊎ ((r ≡ Refusal.WornOut) × IsOneWorn d (seen (D.state disk.old)))) }
    ensures number { IfErr result (λ r. IsOpeningRefusal r ⊎ (r ≡ Refusal.WornOut)) }
    ensures disk { OnlyReads D.PageDisk disk.old disk.new }
    // 1 is an answer of the device.
    ensures cause { IsCaused (D.failure_count disk.old) (D.failure_count disk.new) result }
{
    match find_geometry(alloc, disk) {
        Ok(Some(geometry)) => {
            if geometry.format().has_twins() {
                sections_of(alloc, disk, geometry)
            } else {
                Ok(Vec::new(alloc))
            }
        }
        Ok(None) => Ok(Vec::new(alloc)),
        Err(fault) => Err(refusal_of_disk(fault)),
    }
}

//! The pairs of a store.
ghost use Rattle.std.specs.Prelude.{◌+◌, ◌-◌, ◌<◌, ◌↔◌, ◌≡◌, ◌≢◌, ◌≤◌, ◌⊎◌, IfErr, IfOk, IfSome, IsTrue, MatchBool, MatchResult, None, OnOk, [], ℕ};
ghost use Rattle.cs_core.specs.cs_chunk.Reads.{IsCaused, IsNoAnswer};
ghost use Rattle.cs_disk.specs.Disk.{HasCause, Image, LeavesOnly, MayLeave, Rises, flushed, page, seen};
ghost use Rattle.cs_disk.specs.Reads.{OnlyReads};
ghost use Rattle.cs_frame.specs.FirstFormat.{page_zero_fault};
ghost use Rattle.cs_frame.specs.Geometries.{IsGeometry};
ghost use Rattle.cs_frame.specs.Roots.{identity_in, identity_of};
ghost use Rattle.cs_reader.specs.Openings.{HasNumbers};
ghost use Rattle.cs_mount.specs.Identities.{AreOfTwo, IsOfOne};
ghost use Rattle.cs_mount.specs.OfStores.{IsOfStore, is_allowed};
ghost use Rattle.cs_mount.specs.Showing.{ShowsOn, findings_on, shown_on};
ghost use Rattle.cs_mount.specs.StorePairs.{IsOnPageZero, dimensions_on, first_says, geometry_of_first, pages_of, pairs_where, root_version, said_on, section_at, section_version, store_pair, store_pairs, store_version};
ghost use Rattle.cs_twin.specs.Paired.{IsSound, disk_below, left_as_shown, pairs_of, refusals_of, rules_of, state_shown};
ghost use Rattle.cs_twin.specs.Pairs.{ArePairs};

use crate::identities::{two_stores, unless_memory};
use cs_disk::{DiskFault, PageDisk, refusal_of_disk};
use cs_frame::{
    Format, FormatNumber, Geometry, Root, Superblock, decode_root, decode_section,
    decode_superblock,
};
use cs_refusal::Refusal;
use cs_twin::{Finding, PageRules, Pair, Paired};
use std::alloc::{AllocError, Global};

/// What tells of the pages of a store that lie in pairs whether they are whole: of the root, and of each section of its
/// superblock, that it is of this store. By the identity a page of another store is no page of this one. Where there
/// is no store no page is whole.
#[derive(Clone, Copy, Drop)]
pub struct StoreRules {
    pub alloc: Global,
    pub geometry: Option<Geometry>,
}

/// Whether a root has the identity of the store of this format.
pub fn is_its_root(root: &Root, format: Format) -> bool
    ensures { MatchBool result (identity_of root.now ≡ identity_in format) (identity_of root.now ≢ identity_in format) }
{
    root.store == format.store()
}

/// The version of the root of the store of this format that these bytes spell, and 0 where they spell none.
fn root_version(alloc: Global, bytes: &[u8; 4096], format: Format) -> Result<u64, DiskFault>
    ensures version { IfOk result (λ found. found ≡ root_version format bytes.now) }
    ensures memory { IfErr result (λ fault. fault ≡ DiskFault.OutOfMemory) }
{
    match decode_root(alloc, bytes, format.number()) {
        Ok(root) => {
            if is_its_root(&root, format) {
                Ok(root.version)
            } else {
                Ok(0)
            }
        }
        Err(fault) => unless_memory(fault, 0),
    }
}

/// Whether a section is this one of the store of this geometry. The format has the store's identity, and the pages of
/// the device.
pub fn is_of(superblock: &Superblock, geometry: Geometry, section: u64) -> bool
    ensures { MatchBool result (HasNumbers geometry.format geometry.extents geometry.pages geometry.sections section superblock.now) (¬ HasNumbers geometry.format geometry.extents geometry.pages geometry.sections section superblock.now) }
{
    superblock.format == geometry.format()
        && superblock.extent_count == geometry.extents()
        && superblock.pages == geometry.pages()
        && superblock.sections == geometry.sections()
        && u64::from(superblock.section) == section
}

/// The version of this section that these bytes spell, and 0 where they spell none.
fn section_version(
    alloc: Global,
    bytes: &[u8; 4096],
    geometry: Geometry,
    section: u64,
) -> Result<u64, DiskFault>
    ensures version { IfOk result (λ found. found ≡ section_version geometry section bytes.now) }
    ensures memory { IfErr result (λ fault. fault ≡ DiskFault.OutOfMemory) }
{
    match decode_section(alloc, bytes, geometry.format().number()) {
        Ok(superblock) => {
            if is_of(&superblock, geometry, section) {
                Ok(superblock.version)
            } else {
                Ok(0)
            }
        }
        Err(fault) => unless_memory(fault, 0),
    }
}

/// Which section a page holds.
fn section_at(geometry: Geometry, number: u64) -> u64
    ensures { result ≡ section_at geometry number }
{
    if number == 0 {
        0
    } else {
        number.saturating_sub(1 + u64::from(geometry.extents()) * u64::from(geometry.pages()))
    }
}

impl StoreRules {
    /// The pairs of the store, where there is one.
    pub fn pairs(&self) -> Result<Vec<Pair>, AllocError>
        ensures pairs { IfOk result (λ pairs. pairs.items ≡ pairs_where self.now.geometry) }
        ensures are { (pages : ℕ) → IfSome self.now.geometry (λ d. pages_of d ≡ pages) → IfOk result (λ pairs. ArePairs pairs.items pages) }
    {
        match self.geometry {
            Some(geometry) => pairs_of_store(self.alloc, geometry),
            None => Ok(Vec::new(self.alloc)),
        }
    }
}

impl PageRules for StoreRules {
    ghost use Rattle.cs_mount.specs.Hollow.{no_fence};

    ghost version = { λ r. store_version r.geometry };

    ghost fits = { λ r. IsOfStore r.geometry };

    ghost allowed = { λ r. is_allowed };

    fn version_of(&self, number: u64, bytes: &[u8; 4096]) -> Result<u64, DiskFault> {
        match self.geometry {
            None => Ok(0),
            Some(geometry) => {
                if number == 1 {
                    root_version(self.alloc, bytes, geometry.format())
                } else {
                    section_version(self.alloc, bytes, geometry, section_at(geometry, number))
                }
            }
        }
    }

    fn allows(&self, number: u64, bytes: &[u8; 4096]) -> bool {
        !(number == 0 && bytes[3] == b'4')
    }

    fn keep(&self) {}

    ghost fence_is_none = { λ r number. no_fence r.geometry number };
}

/// A pair of a store, from 0 on: that of section 0, that of the root, those of the other sections. The twins are the
/// last pages of the device.
pub fn store_pair(geometry: Geometry, k: u64) -> Pair
    requires { k ≤ geometry.sections }
    ensures { result ≡ store_pair geometry k }
{
    let frames = u64::from(geometry.extents()) * u64::from(geometry.pages());
    Pair {
        page: if k < 2 { k } else { frames + k },
        twin: geometry.device_pages() - (1 + k),
    }
}

/// The pairs of a store: those of section 0, of the root, and of the other sections, whose twins are the last pages
/// of the device, from the very last on downwards. In format 2 there are none.
pub fn pairs_of_store(alloc: Global, geometry: Geometry) -> Result<Vec<Pair>, AllocError>
    ensures pairs { IfOk result (λ pairs. pairs.items ≡ store_pairs geometry) }
    ensures are { IfOk result (λ pairs. ArePairs pairs.items (pages_of geometry)) }
{
    let mut pairs = Vec::new(alloc);
    if !geometry.format().has_twins() {
        return Ok(pairs);
    }
    let count = 1 + u64::from(geometry.sections());
    for k in 0..count {
        pairs.push(store_pair(geometry, k))?;
    }
    Ok(pairs)
}

/// The geometry of the store whose first section this is, if the device has so many pages as that store: none in format
/// 2.
pub(crate) fn geometry_of_first(pages: u64, superblock: &Superblock) -> Option<Geometry>
    requires { IsGeometry superblock.now.format superblock.now.extent_count superblock.now.pages superblock.now.sections }
    ensures geometry { result ≡ geometry_of_first pages superblock.now.format superblock.now.extent_count superblock.now.pages superblock.now.sections superblock.now.section }
    ensures pages { IfSome result (λ d. pages_of d ≡ pages) }
{
    if !superblock.format.has_twins() || superblock.section != 0 {
        return None;
    }
    let extents = u64::from(superblock.extent_count);
    let extent_pages = u64::from(superblock.pages);
    let sections = u64::from(superblock.sections);
    match Geometry::of_format(superblock.format, extents, extent_pages, Some(sections)) {
        Ok(geometry) => {
            if geometry.device_pages() == pages {
                Some(geometry)
            } else {
                None
            }
        }
        Err(_) => None,
    }
}

/// The section of a superblock that these bytes of page 0 spell, of whatever format; none if they aren't whole.
pub(crate) fn first_on(alloc: Global, bytes: &[u8; 4096]) -> Result<Option<Superblock>, DiskFault>
    ensures first { IfOk result (IsOnPageZero bytes.now) }
    ensures geometry { IfOk result (λ first. IfSome first (λ it. IsGeometry it.format it.extent_count it.pages it.sections)) }
    ensures memory { IfErr result (λ fault. fault ≡ DiskFault.OutOfMemory) }
{
    match decode_superblock(alloc, bytes) {
        Ok(superblock) => Ok(Some(superblock)),
        Err(fault) => unless_memory(fault, None),
    }
}

/// The geometry that these bytes of the last page spell; none if they aren't whole in format 4.
pub(crate) fn geometry_on_last(
    alloc: Global,
    pages: u64,
    bytes: &[u8; 4096],
) -> Result<Option<Geometry>, DiskFault>
    ensures geometry { IfOk result (λ found. found ≡ first_says pages bytes.now) }
    ensures pages { IfOk result (λ found. IfSome found (λ d. pages_of d ≡ pages)) }
    ensures memory { IfErr result (λ fault. fault ≡ DiskFault.OutOfMemory) }
{
    match decode_section(alloc, bytes, FormatNumber::Four) {
        Ok(superblock) => Ok(geometry_of_first(pages, &superblock)),
        Err(fault) => unless_memory(fault, None),
    }
}

/// Reads page 0 for the section of a superblock.
fn read_first<D: PageDisk>(alloc: Global, disk: &mut D) -> Result<Option<Superblock>, DiskFault>
    requires { 0 < D.page_count disk.old }
    ensures first { D.honest disk.old → IfOk result (IsOnPageZero (page (seen (D.state disk.old)) 0)) }
    ensures geometry { IfOk result (λ first. IfSome first (λ it. IsGeometry it.format it.extent_count it.pages it.sections)) }
    ensures disk { OnlyReads D.PageDisk disk.old disk.new }
    ensures cause { HasCause (D.failure_count disk.old) (D.failure_count disk.new) result }
{
    let mut buffer = [0; 4096];
    match disk.read(0, &mut buffer) {
        Ok(()) => first_on(alloc, &buffer),
        Err(fault) => Err(fault),
    }
}

/// Reads the last page for the geometry.
fn read_last<D: PageDisk>(
    alloc: Global,
    disk: &mut D,
    pages: u64,
) -> Result<Option<Geometry>, DiskFault>
    requires pages { pages ≡ D.page_count disk.old }
    requires some { 0 < pages }
    ensures geometry { D.honest disk.old → IfOk result (λ found. found ≡ first_says pages (page (seen (D.state disk.old)) (pages - 1))) }
    ensures pages { IfOk result (λ found. IfSome found (λ d. pages_of d ≡ pages)) }
    ensures disk { OnlyReads D.PageDisk disk.old disk.new }
    ensures cause { HasCause (D.failure_count disk.old) (D.failure_count disk.new) result }
{
    let mut buffer = [0; 4096];
    match disk.read(pages - 1, &mut buffer) {
        Ok(()) => geometry_on_last(alloc, pages, &buffer),
        Err(fault) => Err(fault),
    }
}

/// Whether page 0 holds the first section of a store, of whatever format and geometry.
pub fn holds_superblock<D: PageDisk>(alloc: Global, disk: &mut D) -> Result<bool, DiskFault>
    requires { 0 < D.page_count disk.old }
    ensures holds { D.honest disk.old → IfOk result (λ holds. IsTrue holds ↔ (page_zero_fault (page (seen (D.state disk.old)) 0) ≡ None)) }
    ensures disk { OnlyReads D.PageDisk disk.old disk.new }
    ensures cause { HasCause (D.failure_count disk.old) (D.failure_count disk.new) result }
{
    match read_first(alloc, disk) {
        Ok(first) => Ok(first.is_some()),
        Err(fault) => Err(fault),
    }
}

/// The geometry of the store whose first section the last page holds, whatever is on page 0; nothing if it holds none
/// of a store of format 4 with the device's pages.
pub fn find_last<D: PageDisk>(alloc: Global, disk: &mut D) -> Result<Option<Geometry>, DiskFault>
    requires { 0 < D.page_count disk.old }
    ensures found { D.honest disk.old → IfOk result (λ found. found ≡ first_says (D.page_count disk.old) (page (seen (D.state disk.old)) (D.page_count disk.old - 1))) }
    ensures disk { OnlyReads D.PageDisk disk.old disk.new }
    ensures cause { HasCause (D.failure_count disk.old) (D.failure_count disk.new) result }
{
    let pages = disk.pages();
    read_last(alloc, disk, pages)
}

/// The geometry that page 0 says if it is whole, in whatever format, and else that which the last page says. There is
/// none of a store of format 2.
fn find_said<D: PageDisk>(alloc: Global, disk: &mut D) -> Result<Option<Geometry>, DiskFault>
    requires { 0 < D.page_count disk.old }
    ensures found { D.honest disk.old → IfOk result (λ found. found ≡ said_on (D.page_count disk.old) (seen (D.state disk.old))) }
    ensures pages { IfOk result (λ found. IfSome found (λ d. pages_of d ≡ D.page_count disk.old)) }
    ensures disk { OnlyReads D.PageDisk disk.old disk.new }
    ensures cause { HasCause (D.failure_count disk.old) (D.failure_count disk.new) result }
{
    let pages = disk.pages();
    match read_first(alloc, disk) {
        Ok(Some(first)) => Ok(geometry_of_first(pages, &first)),
        Ok(None) => read_last(alloc, disk, pages),
        Err(fault) => Err(fault),
    }
}

/// The geometry of the store of format 4 on a device, if there is one. Page 0 says it if it is whole, in whatever format,
/// and else the last page does. There is none if the two pages are of different stores.
pub fn find_geometry<D: PageDisk>(
    alloc: Global,
    disk: &mut D,
) -> Result<Option<Geometry>, DiskFault>
    requires { 0 < D.page_count disk.old }
    ensures found { D.honest disk.old → IfOk result (λ found. found ≡ dimensions_on (D.page_count disk.old) (seen (D.state disk.old))) }
    ensures pages { IfOk result (λ found. IfSome found (λ d. pages_of d ≡ D.page_count disk.old)) }
    ensures disk { OnlyReads D.PageDisk disk.old disk.new }
    ensures cause { HasCause (D.failure_count disk.old) (D.failure_count disk.new) result }
{
    match two_stores(alloc, disk) {
        Ok(None) => find_said(alloc, disk),
        Ok(Some(_)) => Ok(None),
        Err(fault) => Err(fault),
    }
}

/// The geometry of the store that is opened, if there is one. Refused 43 NotAStore if page 0 and the last page are of
/// different stores.
fn find_one<D: PageDisk>(alloc: Global, disk: &mut D) -> Result<Option<Geometry>, Refusal>
    requires { 0 < D.page_count disk.old }
    ensures found { D.honest disk.old → IfOk result (λ found. found ≡ dimensions_on (D.page_count disk.old) (seen (D.state disk.old))) }
    ensures one { D.honest disk.old → OnOk result (IsOfOne (D.page_count disk.old) (seen (D.state disk.old))) }
    ensures pages { IfOk result (λ found. IfSome found (λ d. pages_of d ≡ D.page_count disk.old)) }
    ensures disk { OnlyReads D.PageDisk disk.old disk.new }
    ensures refusals { D.honest disk.old → IfErr result (λ refusal. IsNoAnswer refusal ⊎ ((refusal ≡ Refusal.NotAStore) × AreOfTwo (D.page_count disk.old) (seen (D.state disk.old)))) }
    ensures number { IfErr result (λ refusal. IsNoAnswer refusal ⊎ (refusal ≡ Refusal.NotAStore)) }
    ensures cause { IsCaused (D.failure_count disk.old) (D.failure_count disk.new) result }
{
    match two_stores(alloc, disk) {
        Ok(None) => match find_said(alloc, disk) {
            Ok(geometry) => Ok(geometry),
            Err(fault) => Err(refusal_of_disk(fault)),
        },
        Ok(Some(_)) => Err(Refusal::NotAStore),
        Err(fault) => Err(refusal_of_disk(fault)),
    }
}

/// Opens the disk of a store whose pages lie in pairs, and tells what the halves hold: the disk below is flushed.
/// If there is no store of format 4, there are no pairs, and the disk passes all calls through. If neither half of a
/// pair is whole, it shows what one of them holds.
///
/// Refused 43 NotAStore if page 0 and the last page are of different stores: then nothing is flushed. Refused 1
/// DeviceFault, and 9 OutOfMemory. If the call is refused, it returns the disk.
pub fn open_pairs<D: PageDisk>(
    alloc: Global,
    disk: D,
) -> Result<(Paired<D, StoreRules>, Vec<Finding>), (Refusal, D)>
    requires { 0 < D.page_count disk }
    ensures one { D.honest disk → OnOk result (IsOfOne (D.page_count disk) (seen (D.state disk))) }
    ensures two { D.honest disk → AreOfTwo (D.page_count disk) (seen (D.state disk)) → MatchResult result (λ opened. ⊥) (λ refused. D.state refused.1 ≡ D.state disk) }
    ensures pairs { D.honest disk → IfOk result (λ opened. pairs_of opened.0 ≡ pairs_where (dimensions_on (D.page_count disk) (seen (D.state disk)))) }
    ensures rules { D.honest disk → IfOk result (λ opened. (rules_of opened.0).geometry ≡ dimensions_on (D.page_count disk) (seen (D.state disk))) }
    ensures findings { D.honest disk → IfOk result (λ opened. opened.1.items ≡ findings_on (D.page_count disk) (seen (D.state disk))) }
    ensures shown { D.honest disk → IfOk result (λ opened. state_shown opened.0 ≡ record { durable = shown_on (D.page_count disk) (seen (D.state disk)); volatile = [] }) }
    // What shows of what a crash at some moment since might have left shows of what one before might have left.
    ensures left { D.honest disk → IfOk result (λ opened. (left : Image) → left_as_shown opened.0 (D.moment disk) left → ShowsOn (D.page_count disk) (seen (D.state disk)) (MayLeave (D.state disk)) left) }
    // For a run that began earlier.
    ensures before { D.honest disk → IfOk result (λ opened. (t : ℕ) (left : Image) → t ≤ D.moment disk → left_as_shown opened.0 t left → ShowsOn (D.page_count disk) (seen (D.state disk)) (λ image. D.left_since disk t image ⊎ MayLeave (D.state disk) image) left) }
    ensures state { D.honest disk → MatchResult result (λ opened. D.state (disk_below opened.0) ≡ flushed (D.state disk)) (λ refused. (D.state refused.1 ≡ D.state disk) ⊎ (D.state refused.1 ≡ flushed (D.state disk))) }
    ensures crash { D.honest disk → MatchResult result (λ opened. LeavesOnly D.moment D.left_since disk (disk_below opened.0) (MayLeave (D.state disk))) (λ refused. LeavesOnly D.moment D.left_since disk refused.1 (MayLeave (D.state disk))) }
    ensures calls { D.honest disk → MatchResult result (λ opened. D.moment (disk_below opened.0) ≡ D.moment disk + 1) (λ refused. D.moment refused.1 ≤ D.moment disk + 1) }
    ensures honest { MatchResult result (λ opened. D.honest disk ↔ D.honest (disk_below opened.0)) (λ refused. D.honest disk ↔ D.honest refused.1) }
    ensures pages { MatchResult result (λ opened. D.page_count (disk_below opened.0) ≡ D.page_count disk) (λ refused. D.page_count refused.1 ≡ D.page_count disk) }
    // Page 0 and the last page are of different stores, or the device or the memory refused a call.
    ensures why { D.honest disk → IfErr result (λ refused. IsNoAnswer refused.0 ⊎ ((refused.0 ≡ Refusal.NotAStore) × AreOfTwo (D.page_count disk) (seen (D.state disk)))) }
    ensures number { IfErr result (λ refused. IsNoAnswer refused.0 ⊎ (refused.0 ≡ Refusal.NotAStore)) }
    ensures cause { IfErr result (λ refused. refused.0 ≡ Refusal.DeviceFault → Rises (D.failure_count disk) (D.failure_count refused.1)) }
    ensures failures { IfOk result (λ opened. D.failure_count disk ≤ D.failure_count (disk_below opened.0)) }
    // It refused no call yet, and will refuse no read and no flush.
    ensures refusals { IfOk result (λ opened. refusals_of opened.0 ≡ 0) }
    ensures sound { IfOk result (λ opened. IsSound opened.0) }
{
    let mut disk = disk;
    let geometry = match find_one(alloc, &mut disk) {
        Ok(geometry) => geometry,
        Err(refusal) => return Err((refusal, disk)),
    };
    let rules = StoreRules { alloc, geometry };
    match rules.pairs() {
        Ok(pairs) => match Paired::open(alloc, disk, rules, pairs) {
            Ok(opened) => Ok(opened),
            Err((fault, disk)) => Err((refusal_of_disk(fault), disk)),
        },
        Err(_) => Err((Refusal::OutOfMemory, disk)),
    }
}

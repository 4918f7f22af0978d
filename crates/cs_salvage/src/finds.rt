//! Scans of a device for the parts on it, which pass over what can't be read.
ghost use Rattle.std.specs.Prelude.{◌*◌, ◌+◌, ◌++◌, ◌-◌, ◌<◌, ◌^◌, ◌≡◌, ◌≤◌, All, IfOk, IfSome, List, MatchBool, None, OnOk, [], length, true, ℕ};
ghost use Rattle.cs_disk.specs.Disk.{Image, page as device_page, seen};
ghost use Rattle.cs_disk.specs.Reads.{OnlyReads};
ghost use Rattle.cs_frame.specs.Geometries.{IsGeometry};
ghost use Rattle.cs_salvage.specs.Frames.{AreReadAs, IsOfFrame};
ghost use Rattle.cs_salvage.specs.Looks.{AreApart, AreFoundBefore, AreEnded, AreWithin, look_end, number_of};
ghost use Rattle.cs_salvage.specs.Parts.{AreParts, AreSought};
ghost use Rattle.cs_salvage.specs.Passed.{ArePassed, Avoids, RisesBy, from_on, without};
ghost use Rattle.law_machine.specs.Geometry.{heads_in};

use crate::parts::{Part, pages_there, part_in};
use crate::searches::{Sought, if_sought};
use cs_disk::{DiskFault, PageDisk};
use cs_frame::Geometry;
use std::alloc::{AllocError, Global};

/// What a scan of a device found.
#[derive(Drop)]
pub struct Finds {
    /// The parts, in the order in which they lie.
    pub parts: Vec<Part>,
    /// The numbers of the pages that couldn't be read, by rising numbers. No part has one.
    pub unreadable: Vec<u64>,
}

/// Receives reports of how far a scan is.
pub trait Watcher {
    /// The scan is at this page of the device. It ends before page `end`.
    fn tell(&self, page: u64, end: u64)
        requires { page < end };
}

/// Ignores the reports.
#[derive(Clone, Copy, Debug)]
pub struct Unwatched;

impl Watcher for Unwatched {
    fn tell(&self, _page: u64, _end: u64) {}
}

/// The bytes of a page, if it can be read.
fn read_page<D: PageDisk>(disk: &mut D, number: u64) -> Result<Option<[u8; 4096]>, AllocError>
    requires { number < D.page_count disk.old }
    ensures bytes { D.honest disk.old → IfOk result (λ found. IfSome found (λ bytes. bytes ≡ device_page (seen (D.state disk.old)) number)) }
    ensures cause { IfOk result (λ found. found ≡ None → RisesBy 1 (D.failure_count disk.old) (D.failure_count disk.new)) }
    ensures disk { OnlyReads D.PageDisk disk.old disk.new }
{
    let mut bytes = [0; 4096];
    match disk.read(number, &mut bytes) {
        Ok(()) => Ok(Some(bytes)),
        Err(DiskFault::DeviceFault) => Ok(None),
        Err(DiskFault::OutOfMemory) => Err(AllocError),
    }
}

/// Pages that were read one after another.
#[derive(Drop)]
struct Stretch {
    pages: Vec<[u8; 4096]>,
    /// Whether the page after them can't be read.
    is_cut: bool,
}

/// Reads so many pages from a number on, or those up to one that can't be read.
fn read_stretch<D: PageDisk>(
    alloc: Global,
    disk: &mut D,
    first: u64,
    most: usize,
) -> Result<Stretch, AllocError>
    requires there { first + most ≤ D.page_count disk.old }
    requires small { first + most < 2 ^ 63 }
    ensures pages { D.honest disk.old → IfOk result (λ it. AreReadAs (seen (D.state disk.old)) first (length it.pages.items) it.pages.items) }
    ensures size { IfOk result (λ it. MatchBool it.is_cut (length it.pages.items < most) (length it.pages.items ≡ most)) }
    ensures cause { IfOk result (λ it. it.is_cut ≡ true → RisesBy 1 (D.failure_count disk.old) (D.failure_count disk.new)) }
    ensures disk { OnlyReads D.PageDisk disk.old disk.new }
{
    let mut pages = Vec::with_capacity(alloc, most)?;
    for i in 0..most {
        match read_page(disk, first + i as u64)? {
            Some(bytes) => pages.push_reserved(bytes),
            None => return Ok(Stretch {
                pages,
                is_cut: true,
            }),
        }
    }
    Ok(Stretch {
        pages,
        is_cut: false,
    })
}

/// A page of an extent.
#[derive(Clone, Copy)]
pub struct Place {
    pub extent: u16,
    pub page: u16,
}

/// The extent that has a page of the device, and which of its pages it is.
fn place_at(geometry: Geometry, number: u64) -> Place
    requires from { 2 ≤ number }
    requires below { number < 2 + geometry.extents * geometry.pages }
    ensures number { number_of geometry result ≡ number }
    ensures extent { result.extent < geometry.extents }
    ensures page { result.page < geometry.pages }
    ensures known { IsGeometry geometry.format geometry.extents geometry.pages geometry.sections }
{
    let pages = u64::from(geometry.pages());
    Place {
        extent: ((number - 2) / pages) as u16,
        page: ((number - 2) % pages) as u16,
    }
}

/// The page before which a scan ends, on a device of so many pages.
pub fn end_of_scan(geometry: Geometry, count: u64) -> u64
    ensures { result ≡ look_end geometry count }
{
    let pages = u64::from(geometry.extents()) * u64::from(geometry.pages());
    count.min(2 + pages)
}

/// Adds the part that begins on the first of these pages and ends on them, if one does that is sought.
fn add_part_in(
    alloc: Global,
    sought: &Sought,
    place: Place,
    pages: &[[u8; 4096]],
    parts: &mut Vec<Part>,
) -> Result<(), AllocError>
    requires heads { heads_in sought.now.geometry.format ≡ true }
    requires known { IsGeometry sought.now.geometry.format sought.now.geometry.extents sought.now.geometry.pages sought.now.geometry.sections }
    requires some { 0 < length pages.now }
    requires extent { place.extent < sought.now.geometry.extents }
    requires fits { place.page + length pages.now ≤ sought.now.geometry.pages }
    ensures parts { (image : Image) (first : ℕ) (passed : List ℕ) → let number = number_of sought.now.geometry place in let end = number + length pages.now in
        AreReadAs image number (length pages.now) pages.now → first ≤ number → AreWithin sought.now image number (number + 1) end passed
        → AreFoundBefore sought.now image first number passed parts.old.items → OnOk result (AreFoundBefore sought.now image first (number + 1) passed parts.new.items) }
    ensures ended { let end = number_of sought.now.geometry place + length pages.now in
        AreEnded sought.now.geometry end parts.old.items → OnOk result (AreEnded sought.now.geometry end parts.new.items) }
    ensures avoid { (passed : List ℕ) → All (λ p. p < number_of sought.now.geometry place) passed
        → All (Avoids sought.now.geometry passed) parts.old.items → OnOk result (All (Avoids sought.now.geometry passed) parts.new.items) }
    ensures spelled { All IsOfFrame parts.old.items → OnOk result (All IsOfFrame parts.new.items) }
    ensures taken { AreSought sought.now parts.old.items → OnOk result (AreSought sought.now parts.new.items) }
{
    let Some(found) = part_in(alloc, place.extent, place.page, pages)? else {
        return Ok(());
    };
    match if_sought(sought, found) {
        Some(found) => Ok(parts.push(found.part)?),
        None => Ok(()),
    }
}

/// Adds the parts that begin on these pages and end on them, of those that are sought. The pages lie on an extent, from
/// a place on.
fn add_parts_in(
    alloc: Global,
    sought: &Sought,
    place: Place,
    pages: &[[u8; 4096]],
    parts: &mut Vec<Part>,
) -> Result<(), AllocError>
    requires heads { heads_in sought.now.geometry.format ≡ true }
    requires known { IsGeometry sought.now.geometry.format sought.now.geometry.extents sought.now.geometry.pages sought.now.geometry.sections }
    requires extent { place.extent < sought.now.geometry.extents }
    requires fits { place.page + length pages.now ≤ sought.now.geometry.pages }
    ensures parts { (image : Image) (first : ℕ) (passed : List ℕ) → let number = number_of sought.now.geometry place in let end = number + length pages.now in
        AreReadAs image number (length pages.now) pages.now → first ≤ number → AreWithin sought.now image number end end passed
        → AreFoundBefore sought.now image first number passed parts.old.items → OnOk result (AreFoundBefore sought.now image first end passed parts.new.items) }
    ensures ended { let end = number_of sought.now.geometry place + length pages.now in
        AreEnded sought.now.geometry end parts.old.items → OnOk result (AreEnded sought.now.geometry end parts.new.items) }
    ensures avoid { (passed : List ℕ) → All (λ p. p < number_of sought.now.geometry place) passed
        → All (Avoids sought.now.geometry passed) parts.old.items → OnOk result (All (Avoids sought.now.geometry passed) parts.new.items) }
    ensures spelled { All IsOfFrame parts.old.items → OnOk result (All IsOfFrame parts.new.items) }
    ensures taken { AreSought sought.now parts.old.items → OnOk result (AreSought sought.now parts.new.items) }
{
    for k in 0..pages.len() {
        let here = Place {
            extent: place.extent,
            page: place.page + k as u16,
        };
        add_part_in(alloc, sought, here, &pages[k..], parts)?;
    }
    Ok(())
}

/// Adds the parts that begin on the pages from one on, up to the end of its extent or of the device, or up to a page
/// that can't be read, which is named. Returns the page after them.
pub fn scan_stretch<D: PageDisk>(
    alloc: Global,
    disk: &mut D,
    sought: &Sought,
    number: u64,
    finds: &mut Finds,
) -> Result<u64, AllocError>
    requires heads { heads_in sought.now.geometry.format ≡ true }
    requires from { 2 ≤ number }
    requires before { number < look_end sought.now.geometry (D.page_count disk.old) }
    ensures next { IfOk result (λ next. (number < next) × (next ≤ look_end sought.now.geometry (D.page_count disk.old))) }
    ensures parts { D.honest disk.old → (first : ℕ) → first ≤ number
        → AreFoundBefore sought.now (seen (D.state disk.old)) first number finds.old.unreadable.items finds.old.parts.items
        → IfOk result (λ next. AreFoundBefore sought.now (seen (D.state disk.old)) first next finds.new.unreadable.items finds.new.parts.items) }
    ensures apart { (first : ℕ) → first ≤ number → AreApart sought.now.geometry first (D.page_count disk.old) number finds.old.unreadable.items finds.old.parts.items
        → IfOk result (λ next. AreApart sought.now.geometry first (D.page_count disk.old) next finds.new.unreadable.items finds.new.parts.items) }
    ensures more { IfOk result (λ _. (rest : List ℕ) × (finds.new.unreadable.items ≡ finds.old.unreadable.items ++ rest) × All (λ p. number ≤ p) rest) }
    ensures spelled { All IsOfFrame finds.old.parts.items → IfOk result (λ _. All IsOfFrame finds.new.parts.items) }
    ensures taken { AreSought sought.now finds.old.parts.items → IfOk result (λ _. AreSought sought.now finds.new.parts.items) }
    ensures cause { (before : ℕ) → RisesBy (length finds.old.unreadable.items) before (D.failure_count disk.old)
        → IfOk result (λ _. RisesBy (length finds.new.unreadable.items) before (D.failure_count disk.new)) }
    ensures disk { OnlyReads D.PageDisk disk.old disk.new }
{
    let place = place_at(sought.geometry, number);
    let most = pages_there(sought.geometry, place.page, disk.pages(), number);
    let stretch = read_stretch(alloc, disk, number, most)?;
    add_parts_in(alloc, sought, place, &stretch.pages, &mut finds.parts)?;
    let next = number + stretch.pages.len() as u64;
    if stretch.is_cut {
        finds.unreadable.push(next)?;
        return Ok(next + 1);
    }
    Ok(next)
}

/// Nothing yet.
fn no_finds(alloc: Global) -> Finds
    ensures parts { result.parts.items ≡ [] }
    ensures unreadable { result.unreadable.items ≡ [] }
{
    Finds {
        parts: Vec::new(alloc),
        unreadable: Vec::new(alloc),
    }
}

/// All parts on a device that are sought: the whole frames of chunks whose payload ends with a head that a chunk can
/// have. Each chunk that a put wrote has such a head. A payload that is shorter than a head has none, and format 2 has
/// none at all. Frames of other stores are passed over, unless those of any store are sought.
///
/// A page that can't be read is passed over and named. It is asked for once; a disk in a file asks the operating system
/// twice. A frame that has such a page isn't found, so its shard may be missing. A device that refuses every read is
/// scanned to its end all the same.
///
/// Only pages from `from_page` on are looked at, so that a scan goes on from where one ended. A frame that begins
/// before isn't found. From 0 on all are looked at. A device may be shorter than the geometry asks, or longer: it is
/// scanned as far as both go.
///
/// Superblock, root and runs aren't looked at. So a chunk may have been overwritten by a later put, or deleted, or its
/// put was never acknowledged. Each copy that a sweep made is there too.
///
/// Each page of each extent is read once. The pages of one extent lie in memory meanwhile, and each part takes some 100
/// bytes. The watcher is told before each extent, and after each page that can't be read.
///
/// It is refused only if memory is: 9 `OutOfMemory`. The disk holds what it held.
pub fn find_parts<D: PageDisk, W: Watcher>(
    alloc: Global,
    disk: &mut D,
    sought: &Sought,
    from_page: u64,
    watcher: &W,
) -> Result<Finds, AllocError>
    // On an honest disk these are all parts of what it holds, without the pages before the first and those named.
    ensures parts { D.honest disk.old → IfOk result (λ finds. AreParts sought.now (without finds.unreadable.items (from_on from_page (seen (D.state disk.old)))) finds.parts.items) }
    // Whatever the disk answers, no part is made up: each is of a frame that some pages spell, and each is sought.
    ensures spelled { IfOk result (λ finds. All IsOfFrame finds.parts.items) }
    ensures taken { IfOk result (λ finds. AreSought sought.now finds.parts.items) }
    // No part has a page that couldn't be read.
    ensures avoid { IfOk result (λ finds. All (Avoids sought.now.geometry finds.unreadable.items) finds.parts.items) }
    // The pages that are named are some of those that are looked at, each once.
    ensures passed { IfOk result (λ finds. ArePassed sought.now.geometry from_page (D.page_count disk.old) finds.unreadable.items) }
    // For each page that is named the device failed.
    ensures cause { IfOk result (λ finds. RisesBy (length finds.unreadable.items) (D.failure_count disk.old) (D.failure_count disk.new)) }
    ensures disk { OnlyReads D.PageDisk disk.old disk.new }
{
    let mut finds = no_finds(alloc);
    if !sought.geometry.format().has_heads() {
        return Ok(finds);
    }
    let end = end_of_scan(sought.geometry, disk.pages());
    let mut page = from_page.max(2);
    while page < end {
        watcher.tell(page, end);
        page = scan_stretch(alloc, disk, sought, page, &mut finds)?;
    }
    Ok(finds)
}

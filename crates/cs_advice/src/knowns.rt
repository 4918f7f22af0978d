//! What is known of a file beside how a command over it ended.
ghost use Rattle.std.specs.Prelude.{◌≡◌, ◌≢◌, ◌⊎◌, ◌↔◌, ◌<◌, ◌≤◌, Contains, IfSome, IsTrue, None, Some, true};
ghost use Rattle.cs_disk.specs.Disk.{page, seen};
ghost use Rattle.cs_disk.specs.Reads.{OnlyReads};
ghost use Rattle.cs_frame.specs.declared.formats.FormatNumber.TheVariants.{Four, Two};
ghost use Rattle.cs_twin.specs.declared.findings.Finding.{Finding as Found};
ghost use Rattle.cs_twin.specs.Findings.{held_of};
ghost use Rattle.cs_mount.specs.Identities.{stores_on};
ghost use Rattle.cs_advice.specs.declared.knowns.Content.TheVariants.{Broken, Empty, Length, Store, Superseded, Torn, TwoStores, Unknown, Written};
ghost use Rattle.cs_advice.specs.Knowns.{IsContentOf, IsFirstOf, IsRootPage, IsSuperseded, Names, NamesStore, begins_superseded};

use cs_disk::{PageDisk, SystemFault};
use cs_frame::{FormatNumber, StoreId, Superblock, decode_root, decode_section, decode_superblock};
use cs_mount::{Finding, holds_superblock, look, two_stores};
use std::alloc::Global;

/// The page of the root.
const ROOT: u64 = 1;

/// How a superblock begins in the format that is read no more.
const SUPERSEDED: &[u8; 4] = b"CSS3";

/// How many of the last pages are read for a superblock.
const LAST: u64 = 1_024;

/// What is on a device.
#[derive(Clone, Copy, Debug, PartialEq, Eq)]
pub enum Content {
    /// It wasn't looked at.
    Unknown,
    /// It has no page.
    Empty,
    /// No store is recognised.
    Foreign,
    /// A superblock names a store of this format and of the device's pages.
    Store { format: FormatNumber },
    /// A superblock names a store of `wanted` pages, and the device has `pages`.
    Length { pages: u64, wanted: u64 },
    /// A store of which neither page of this pair is whole.
    Torn { page: u64, twin: u64 },
    /// A store of format 2, which has one copy of each page, and its root or a section of its superblock isn't whole.
    Broken,
    /// What is left of a store: its root is whole, and no page that was read is its superblock.
    Left,
    /// Pages of two stores: page 0 is of the first, and the last page is of the other.
    TwoStores { first: StoreId, last: StoreId },
    /// A store of a format that is read no more.
    Superseded,
    /// Something: this page of a device on which a store was to be made isn't zeros.
    Written { page: u64 },
}

/// What is known of a file: its pages, and why the system refused a call.
#[derive(Clone, Copy, Debug, PartialEq, Eq)]
pub struct Known {
    pub content: Content,
    pub system: Option<SystemFault>,
}

impl Known {
    /// This page of a device on which a store was to be made isn't zeros.
    pub fn of_written(page: u64) -> Self
        ensures { (result.content ≡ Written page) × (result.system ≡ None) }
    {
        Known {
            content: Content::Written { page },
            system: None,
        }
    }

    /// Only the content is known.
    fn of_content(content: Content) -> Self
        ensures { (result.content ≡ content) × (result.system ≡ None) }
    {
        Known {
            content,
            system: None,
        }
    }

    /// Nothing is known.
    pub fn nothing() -> Self
        ensures { (result.content ≡ Unknown) × (result.system ≡ None) }
    {
        Known::of_system(None)
    }

    /// Only why the system refused the last call is known, as `last_fault` of a file's disk reports it.
    pub fn of_system(system: Option<SystemFault>) -> Self
        ensures { (result.content ≡ Unknown) × (result.system ≡ system) }
    {
        Known {
            content: Content::Unknown,
            system,
        }
    }
}

/// The store that a superblock names.
#[derive(Clone, Copy)]
struct Named {
    format: FormatNumber,
    pages: u64,
    sections: u8,
}

/// The store that a section of a superblock names, if it is the first section.
fn named_by(superblock: &Superblock) -> Option<Named>
    ensures { IfSome result (λ named. IsFirstOf superblock.now named.format named.pages) }
{
    if superblock.section != 0 {
        return None;
    }
    Some(Named {
        format: superblock.format.number(),
        pages: superblock.format.device_pages(
            superblock.extent_count,
            superblock.pages,
            superblock.sections,
        ),
        sections: superblock.sections,
    })
}

/// The store that the bytes of page 0 name, of any format.
fn named_at_first(alloc: Global, bytes: &[u8; 4096]) -> Option<Named>
    ensures { IfSome result (λ named. Names 0 bytes.now named.format named.pages) }
{
    match decode_superblock(alloc, bytes) {
        Ok(superblock) => named_by(&superblock),
        Err(_) => None,
    }
}

/// The store that the bytes of another page name, if the page is that store's last one. It has the second copy.
fn named_at_last(alloc: Global, number: u64, bytes: &[u8; 4096]) -> Option<Named>
    ensures { IfSome result (λ named. Names number bytes.now named.format named.pages) }
{
    let Ok(superblock) = decode_section(alloc, bytes, FormatNumber::Four) else {
        return None;
    };
    match named_by(&superblock) {
        Some(named) if named.pages.saturating_sub(1) == number => Some(named),
        _ => None,
    }
}

/// The store that the bytes of this page name.
fn named_in(alloc: Global, number: u64, bytes: &[u8; 4096]) -> Option<Named>
    ensures { IfSome result (λ named. Names number bytes.now named.format named.pages) }
{
    if number == 0 {
        named_at_first(alloc, bytes)
    } else {
        named_at_last(alloc, number, bytes)
    }
}

/// The store that a page names. A page that can't be read names none.
fn named_on<D: PageDisk>(alloc: Global, disk: &mut D, number: u64) -> Option<Named>
    requires { number < D.page_count disk.old }
    ensures named { D.honest disk.old → IfSome result (λ named. Names number (page (seen (D.state disk.old)) number) named.format named.pages) }
    ensures disk { OnlyReads D.PageDisk disk.old disk.new }
{
    let mut buffer = [0; 4096];
    match disk.read(number, &mut buffer) {
        Ok(()) => named_in(alloc, number, &buffer),
        Err(_) => None,
    }
}

/// The store that one of the last pages names, but for page 0.
fn named_at_end<D: PageDisk>(alloc: Global, disk: &mut D) -> Option<Named>
    ensures named { D.honest disk.old → IfSome result (λ named. NamesStore (D.page_count disk.old) (seen (D.state disk.old)) named.format named.pages) }
    ensures disk { OnlyReads D.PageDisk disk.old disk.new }
{
    let pages = disk.pages();
    for back in 1..pages.min(LAST) {
        match named_on(alloc, disk, pages - back) {
            Some(named) => return Some(named),
            None => {}
        }
    }
    None
}

/// The store that a page of the device names: page 0, or else one of the last.
fn find_named<D: PageDisk>(alloc: Global, disk: &mut D) -> Option<Named>
    requires { 0 < D.page_count disk.old }
    ensures named { D.honest disk.old → IfSome result (λ named. NamesStore (D.page_count disk.old) (seen (D.state disk.old)) named.format named.pages) }
    ensures disk { OnlyReads D.PageDisk disk.old disk.new }
{
    match named_on(alloc, disk, 0) {
        Some(named) => Some(named),
        None => named_at_end(alloc, disk),
    }
}

/// Whether the bytes of page 1 are a root, of a format of this number.
fn is_root_in(alloc: Global, bytes: &[u8; 4096], number: FormatNumber) -> bool
    ensures { IsTrue result → IsRootPage bytes.now }
{
    let Ok(_root) = decode_root(alloc, bytes, number) else {
        return false;
    };
    true
}

/// Whether the bytes of page 1 are a root, of any format.
fn is_root(alloc: Global, bytes: &[u8; 4096]) -> bool
    ensures { IsTrue result → IsRootPage bytes.now }
{
    if is_root_in(alloc, bytes, FormatNumber::Two) {
        return true;
    }
    is_root_in(alloc, bytes, FormatNumber::Four)
}

/// Whether a page is a root. A page that can't be read isn't.
fn is_root_on<D: PageDisk>(alloc: Global, disk: &mut D, number: u64) -> bool
    requires { number < D.page_count disk.old }
    ensures root { D.honest disk.old → IsTrue result → IsRootPage (page (seen (D.state disk.old)) number) }
    ensures disk { OnlyReads D.PageDisk disk.old disk.new }
{
    let mut buffer = [0; 4096];
    match disk.read(number, &mut buffer) {
        Ok(()) => is_root(alloc, &buffer),
        Err(_) => false,
    }
}

/// Whether these bytes begin as a superblock does in the format that is read no more.
fn begins_superseded(bytes: &[u8; 4096]) -> bool
    ensures { result ≡ begins_superseded bytes.now }
{
    bytes[0..4] == SUPERSEDED[..]
}

/// Whether a page begins so. A page that can't be read doesn't.
fn is_superseded_on<D: PageDisk>(disk: &mut D, number: u64) -> bool
    requires { number < D.page_count disk.old }
    ensures begins { D.honest disk.old → IsTrue result → begins_superseded (page (seen (D.state disk.old)) number) ≡ true }
    ensures disk { OnlyReads D.PageDisk disk.old disk.new }
{
    let mut buffer = [0; 4096];
    match disk.read(number, &mut buffer) {
        Ok(()) => begins_superseded(&buffer),
        Err(_) => false,
    }
}

/// Whether page 0 begins so, or isn't whole while the last page does.
fn is_superseded<D: PageDisk>(alloc: Global, disk: &mut D) -> bool
    requires { 0 < D.page_count disk.old }
    ensures superseded { D.honest disk.old → IsTrue result → IsSuperseded (D.page_count disk.old) (seen (D.state disk.old)) }
    ensures disk { OnlyReads D.PageDisk disk.old disk.new }
{
    if is_superseded_on(disk, 0) {
        return true;
    }
    let last = disk.pages() - 1;
    match holds_superblock(alloc, disk) {
        Ok(false) => is_superseded_on(disk, last),
        _ => false,
    }
}

/// What a device holds on which no page is a superblock.
fn content_without<D: PageDisk>(alloc: Global, disk: &mut D) -> Content
    ensures some { result ≢ Empty }
    ensures length { (pages wanted : _) → result ≢ Length pages wanted }
    ensures content { D.honest disk.old → 0 < D.page_count disk.old → IsContentOf (D.page_count disk.old) (seen (D.state disk.old)) result }
    ensures disk { OnlyReads D.PageDisk disk.old disk.new }
{
    if disk.pages() <= ROOT {
        return Content::Foreign;
    }
    if is_superseded(alloc, disk) {
        return Content::Superseded;
    }
    if is_root_on(alloc, disk, ROOT) {
        return Content::Left;
    }
    Content::Foreign
}

/// What a device holds of whose pairs this was found. It has a store of its pages, of which superblock and root lie
/// twice.
fn content_of_findings(findings: &[Finding]) -> Content
    ensures { (result ≡ Store Four) ⊎ ((it : Found) × Contains findings.now it × ((held_of it).version ≡ 0) × (result ≡ Torn it.pair.page it.pair.twin)) }
{
    for finding in findings {
        if finding.held().version == 0 {
            return Content::Torn {
                page: finding.pair.page,
                twin: finding.pair.twin,
            };
        }
    }
    Content::Store {
        format: FormatNumber::Four,
    }
}

/// What a device holds that has a store of its pages, of which superblock and root lie twice.
fn content_of_pairs<D: PageDisk>(alloc: Global, disk: &mut D) -> Content
    ensures some { result ≢ Empty }
    ensures length { (pages wanted : _) → result ≢ Length pages wanted }
    ensures content { D.honest disk.old → NamesStore (D.page_count disk.old) (seen (D.state disk.old)) Four (D.page_count disk.old) → IsContentOf (D.page_count disk.old) (seen (D.state disk.old)) result }
    ensures disk { OnlyReads D.PageDisk disk.old disk.new }
{
    match look(alloc, disk) {
        Ok(findings) => content_of_findings(&findings),
        Err(_) => Content::Store {
            format: FormatNumber::Four,
        },
    }
}

/// Whether a page of a store of format 2 is whole: its root, or a section of its superblock.
fn is_whole<D: PageDisk>(alloc: Global, disk: &mut D, number: u64) -> bool
    requires { number < D.page_count disk.old }
    ensures disk { OnlyReads D.PageDisk disk.old disk.new }
{
    let mut buffer = [0; 4096];
    match disk.read(number, &mut buffer) {
        Ok(()) if number == ROOT => decode_root(alloc, &buffer, FormatNumber::Two).is_ok(),
        Ok(()) => decode_section(alloc, &buffer, FormatNumber::Two).is_ok(),
        Err(_) => false,
    }
}

/// Whether the last pages, up to the end, are all sections of a store of format 2.
fn are_sections<D: PageDisk>(alloc: Global, disk: &mut D, first: u64) -> bool
    ensures disk { OnlyReads D.PageDisk disk.old disk.new }
{
    for number in first..disk.pages() {
        if !is_whole(alloc, disk, number) {
            return false;
        }
    }
    true
}

/// What a device holds that has a store of format 2 of its pages and of so many sections: those but the first are its
/// last pages.
fn content_of_sections<D: PageDisk>(alloc: Global, disk: &mut D, sections: u8) -> Content
    ensures kind { (result ≡ Store Two) ⊎ (result ≡ Broken) }
    ensures disk { OnlyReads D.PageDisk disk.old disk.new }
{
    let pages = disk.pages();
    let first = pages.saturating_add(1).saturating_sub(u64::from(sections));
    if pages > ROOT && is_whole(alloc, disk, ROOT) && are_sections(alloc, disk, first) {
        Content::Store {
            format: FormatNumber::Two,
        }
    } else {
        Content::Broken
    }
}

/// What a device of some pages holds of which a page names this store, with as many pages.
fn content_of_named<D: PageDisk>(alloc: Global, disk: &mut D, named: Named) -> Content
    ensures some { result ≢ Empty }
    ensures length { (pages wanted : _) → result ≢ Length pages wanted }
    ensures content { D.honest disk.old → NamesStore (D.page_count disk.old) (seen (D.state disk.old)) named.format (D.page_count disk.old) → IsContentOf (D.page_count disk.old) (seen (D.state disk.old)) result }
    ensures disk { OnlyReads D.PageDisk disk.old disk.new }
{
    match named.format {
        FormatNumber::Four => content_of_pairs(alloc, disk),
        FormatNumber::Two => content_of_sections(alloc, disk, named.sections),
    }
}

/// What a device of some pages holds that doesn't hold pages of two stores.
fn content_of_one<D: PageDisk>(alloc: Global, disk: &mut D) -> Content
    requires { 0 < D.page_count disk.old }
    ensures some { result ≢ Empty }
    ensures length { (pages wanted : _) → result ≡ Length pages wanted → (pages ≡ D.page_count disk.old) × (wanted ≢ pages) }
    ensures content { D.honest disk.old → IsContentOf (D.page_count disk.old) (seen (D.state disk.old)) result }
    ensures disk { OnlyReads D.PageDisk disk.old disk.new }
{
    let pages = disk.pages();
    match find_named(alloc, disk) {
        None => content_without(alloc, disk),
        Some(named) if named.pages != pages => Content::Length {
            pages,
            wanted: named.pages,
        },
        Some(named) => content_of_named(alloc, disk, named),
    }
}

/// What a device of some pages holds.
fn content_of<D: PageDisk>(alloc: Global, disk: &mut D) -> Content
    requires { 0 < D.page_count disk.old }
    ensures some { result ≢ Empty }
    ensures length { (pages wanted : _) → result ≡ Length pages wanted → (pages ≡ D.page_count disk.old) × (wanted ≢ pages) }
    ensures content { D.honest disk.old → IsContentOf (D.page_count disk.old) (seen (D.state disk.old)) result }
    ensures disk { OnlyReads D.PageDisk disk.old disk.new }
{
    match two_stores(alloc, disk) {
        Ok(Some((first, last))) => Content::TwoStores { first, last },
        _ => content_of_one(alloc, disk),
    }
}

/// What is known of a device by its pages: which store a superblock on it names, and whether that is of the device's
/// pages. It reads page 0 and the last page, and others of the last pages if page 0 isn't a superblock. It also reads
/// the pages that a store has twice. Pages that can't be read are taken for damaged ones.
pub fn known_of<D: PageDisk>(alloc: Global, disk: &mut D) -> Known
    ensures empty { (result.content ≡ Empty) ↔ (D.page_count disk.old ≡ 0) }
    ensures length { (pages wanted : _) → result.content ≡ Length pages wanted → (pages ≡ D.page_count disk.old) × (wanted ≢ pages) }
    ensures content { D.honest disk.old → IsContentOf (D.page_count disk.old) (seen (D.state disk.old)) result.content }
    // Page 0 and the last page are of these two stores.
    ensures two { (first last : _) → D.honest disk.old → result.content ≡ TwoStores first last → stores_on (D.page_count disk.old) (seen (D.state disk.old)) ≡ Some (first.0, last.0) }
    ensures superseded { D.honest disk.old → result.content ≡ Superseded → IsSuperseded (D.page_count disk.old) (seen (D.state disk.old)) }
    ensures system { result.system ≡ None }
    ensures disk { OnlyReads D.PageDisk disk.old disk.new }
{
    if disk.pages() == 0 {
        return Known::of_content(Content::Empty);
    }
    Known::of_content(content_of(alloc, disk))
}

//! The head of a store, read page by page: its superblock section by section, and then its root.
ghost use Rattle.std.specs.Prelude.{◌≡◌, ◌≢◌, ◌+◌, ◌*◌, ◌^◌, ◌<◌, ◌≤◌, ◌⊎◌, ℕ, List, IfErr, IfOk, MatchBool, length, map, slice_index};
ghost use Rattle.cs_chunk.specs.Reads.{IsCaused, IsNoAnswer};
ghost use Rattle.cs_disk.specs.Disk.{page, seen};
ghost use Rattle.cs_disk.specs.Reads.{OnlyReads};
ghost use Rattle.cs_extent.specs.Sections.{AreSections, format_of, pages_of, rows_of};
ghost use Rattle.cs_frame.specs.Geometries.{device_pages};
ghost use Rattle.cs_frame.specs.Roots.{SpellsRoot, identity_in, identity_of};
ghost use Rattle.cs_reader.specs.Heads.{IsHeadRead, IsWhyNoHead};
ghost use Rattle.cs_reader.specs.ImageReads.{AreSectionsRead};
ghost use Rattle.cs_reader.specs.Loads.{graph_at};
ghost use Rattle.cs_reader.specs.Openings.{AreRecordedBy, HasNumbers, IsOpeningRefusal, IsWhyNoFirst, IsWhyNoRoot, IsWhyNoSection, IsWhyNoSections, SpellsFirst, SpellsFurther};

use cs_deps::Graph;
use cs_disk::{PageDisk, refusal_of_disk};
use cs_extent::Extents;
use cs_frame::{
    Format, Root, Superblock, decode_root, decode_section, decode_superblock, refusal_of_fault,
};
use cs_refusal::Refusal;
use std::alloc::{AllocError, Global};

/// What superblock and root say of a store.
#[derive(Drop)]
pub struct Head {
    /// As the sections of the superblock record them.
    pub extents: Extents,
    /// Nothing waits in it.
    pub graph: Graph,
    pub root: Root,
    /// Whether a section records a later root.
    pub root_lost: bool,
}

/// What each section of a superblock says of the whole.
#[derive(Drop)]
struct Numbers {
    format: Format,
    extents: u16,
    pages: u16,
    sections: u8,
}

/// Reads section 0. Refused 43 NotAStore if page 0 has another one.
fn read_first<D: PageDisk>(alloc: Global, disk: &mut D) -> Result<Superblock, Refusal>
    requires { 0 < D.page_count disk.old }
    ensures first { IfOk result (λ it. it.section ≡ 0) }
    ensures read { D.honest disk.old → IfOk result (λ it. SpellsFirst (page (seen (D.state disk.old)) 0) it) }
    ensures some { IfOk result (λ it. (bytes : List ℕ) × SpellsFirst bytes it) }
    ensures why { D.honest disk.old → IfErr result (λ r. IsNoAnswer r ⊎ IsWhyNoFirst (page (seen (D.state disk.old)) 0) r) }
    ensures number { IfErr result IsOpeningRefusal }
    ensures disk { OnlyReads D.PageDisk disk.old disk.new }
    ensures cause { IsCaused (D.failure_count disk.old) (D.failure_count disk.new) result }
{
    let mut buffer = [0; 4096];
    match disk.read(0, &mut buffer) {
        Ok(()) => {}
        Err(fault) => return Err(refusal_of_disk(fault)),
    }
    let first = match decode_superblock(alloc, &buffer) {
        Ok(first) => first,
        Err(fault) => return Err(refusal_of_fault(fault)),
    };
    if first.section != 0 {
        return Err(Refusal::NotAStore);
    }
    Ok(first)
}

/// Whether a section is this one of a superblock with these numbers.
fn has_numbers(superblock: &Superblock, numbers: &Numbers, section: u8) -> bool
    ensures { MatchBool result (HasNumbers numbers.now.format numbers.now.extents numbers.now.pages numbers.now.sections section superblock.now) (¬ HasNumbers numbers.now.format numbers.now.extents numbers.now.pages numbers.now.sections section superblock.now) }
{
    superblock.format == numbers.format
        && superblock.extent_count == numbers.extents
        && superblock.pages == numbers.pages
        && superblock.sections == numbers.sections
        && superblock.section == section
}

/// Reads a further section of a superblock with these numbers. Refused 43 NotAStore if its page has another section in this format, or one of
/// another superblock, as that of another store is.
fn read_section<D: PageDisk>(
    alloc: Global,
    disk: &mut D,
    numbers: &Numbers,
    section: u8,
) -> Result<Superblock, Refusal>
    requires inside { section < numbers.now.sections }
    requires room { 1 + numbers.now.extents * numbers.now.pages + numbers.now.sections ≤ D.page_count disk.old }
    ensures numbers { IfOk result (HasNumbers numbers.now.format numbers.now.extents numbers.now.pages numbers.now.sections section) }
    ensures some { IfOk result (λ it. (bytes : List ℕ) × SpellsFurther bytes it) }
    ensures read { D.honest disk.old → IfOk result (λ it. SpellsFurther (page (seen (D.state disk.old)) (1 + numbers.now.extents * numbers.now.pages + section)) it) }
    ensures why { D.honest disk.old → IfErr result (λ r. IsNoAnswer r ⊎ IsWhyNoSection numbers.now.format numbers.now.extents numbers.now.pages numbers.now.sections section (page (seen (D.state disk.old)) (1 + numbers.now.extents * numbers.now.pages + section)) r) }
    ensures number { IfErr result IsOpeningRefusal }
    ensures disk { OnlyReads D.PageDisk disk.old disk.new }
    ensures cause { IsCaused (D.failure_count disk.old) (D.failure_count disk.new) result }
{
    let frames = u64::from(numbers.extents) * u64::from(numbers.pages);
    let mut buffer = [0; 4096];
    match disk.read(1 + frames + u64::from(section), &mut buffer) {
        Ok(()) => {}
        Err(fault) => return Err(refusal_of_disk(fault)),
    }
    let superblock = match decode_section(alloc, &buffer, numbers.format.number()) {
        Ok(superblock) => superblock,
        Err(fault) => return Err(refusal_of_fault(fault)),
    };
    if !has_numbers(&superblock, numbers, section) {
        return Err(Refusal::NotAStore);
    }
    Ok(superblock)
}

/// Reads the further sections of a superblock whose first was read, one after another, and returns all of them.
fn read_sections<D: PageDisk>(
    alloc: Global,
    disk: &mut D,
    first: Superblock,
) -> Result<Vec<Superblock>, Refusal>
    requires place { first.section ≡ 0 }
    requires some { (bytes : List ℕ) × SpellsFirst bytes first }
    requires sized { D.page_count disk.old ≡ device_pages first.format first.extent_count first.pages first.sections }
    requires read { D.honest disk.old → SpellsFirst (page (seen (D.state disk.old)) 0) first }
    ensures are { IfOk result (λ sections. AreSections sections.items) }
    ensures sized { IfOk result (λ sections. D.page_count disk.old ≡ device_pages (format_of sections.items) (length (rows_of sections.items)) (pages_of sections.items) (length sections.items)) }
    ensures read { D.honest disk.old → IfOk result (λ sections. AreSectionsRead (page (seen (D.state disk.old))) (format_of sections.items) (map (λ it. it.version) sections.items) (map (λ it. it.recorded) sections.items) (pages_of sections.items) (rows_of sections.items)) }
    ensures why { D.honest disk.old → IfErr result (λ r. IsNoAnswer r ⊎ IsWhyNoSections (page (seen (D.state disk.old))) first.format first.extent_count first.pages first.sections r) }
    ensures number { IfErr result IsOpeningRefusal }
    ensures disk { OnlyReads D.PageDisk disk.old disk.new }
    ensures cause { IsCaused (D.failure_count disk.old) (D.failure_count disk.new) result }
{
    let numbers = Numbers {
        format: first.format,
        extents: first.extent_count,
        pages: first.pages,
        sections: first.sections,
    };
    let mut sections = Vec::with_capacity(alloc, usize::from(numbers.sections))?;
    sections.push_reserved(first);
    for k in 1..numbers.sections {
        match read_section(alloc, disk, &numbers, k) {
            Ok(superblock) => sections.push_reserved(superblock),
            Err(refusal) => return Err(refusal),
        }
    }
    Ok(sections)
}

/// Whether a root is that of the store of this format.
fn is_root_of(root: &Root, format: Format) -> bool
    ensures { MatchBool result (identity_of root.now ≡ identity_in format) (identity_of root.now ≢ identity_in format) }
{
    root.store == format.store()
}

/// The root that page 1 spells, of the store of this format. Refused 20 to 24 by the first test that fails, then 43
/// NotAStore if it is the root of another store. 1 DeviceFault and 9 OutOfMemory may come in place of any. The disk is
/// only read.
fn read_root<D: PageDisk>(alloc: Global, disk: &mut D, format: Format) -> Result<Root, Refusal>
    requires { 1 < D.page_count disk.old }
    ensures read { D.honest disk.old → IfOk result (λ it. SpellsRoot (page (seen (D.state disk.old)) 1) (identity_in format) it.version it.commands it.runs.items) }
    ensures some { IfOk result (λ it. (bytes : List ℕ) × SpellsRoot bytes (identity_in format) it.version it.commands it.runs.items) }
    ensures why { D.honest disk.old → IfErr result (λ r. IsNoAnswer r ⊎ IsWhyNoRoot format (page (seen (D.state disk.old)) 1) r) }
    ensures number { IfErr result IsOpeningRefusal }
    ensures disk { OnlyReads D.PageDisk disk.old disk.new }
    ensures cause { IsCaused (D.failure_count disk.old) (D.failure_count disk.new) result }
{
    let mut buffer = [0; 4096];
    match disk.read(1, &mut buffer) {
        Ok(()) => {}
        Err(fault) => return Err(refusal_of_disk(fault)),
    }
    let root = match decode_root(alloc, &buffer, format.number()) {
        Ok(root) => root,
        Err(fault) => return Err(refusal_of_fault(fault)),
    };
    if !is_root_of(&root, format) {
        return Err(Refusal::NotAStore);
    }
    Ok(root)
}

/// Whether a section records a later root than one of this version.
fn is_root_lost(sections: &[Superblock], root: u64) -> bool
    ensures { MatchBool result ((j : ℕ) × (j < length sections.now) × (root < slice_index (map (λ it. it.recorded) sections.now) j))
        (AreRecordedBy (length sections.now) (map (λ it. it.recorded) sections.now) root) }
{
    for k in 0..sections.len() {
        let section = &sections[k];
        if root < section.recorded {
            return true;
        }
    }
    false
}

/// The graph of a store whose sections and root have these versions, with nothing staged. Its second family is the root's.
pub fn new_graph(alloc: Global, sections: &[Superblock], root: u64) -> Result<Graph, AllocError>
    requires sections { AreSections sections.now }
    requires root { root < 2 ^ 63 }
    ensures { IfOk result (λ graph. graph ≡ graph_at (map (λ it. it.version) sections.now) root) }
{
    let mut versions = Vec::with_capacity(alloc, sections.len() + 1)?;
    for section in sections {
        versions.push_reserved(section.version);
    }
    versions.insert(1, root)?;
    let graph = Graph::new(alloc, &versions)?;
    Ok(graph)
}

/// Reads the root of a store with these sections, whatever they record of it.
fn read_with_sections<D: PageDisk>(
    alloc: Global,
    disk: &mut D,
    sections: &[Superblock],
) -> Result<Head, Refusal>
    requires are { AreSections sections.now }
    requires enough { 1 < D.page_count disk.old }
    requires sized { D.page_count disk.old ≡ device_pages (format_of sections.now) (length (rows_of sections.now)) (pages_of sections.now) (length sections.now) }
    requires sections { D.honest disk.old → AreSectionsRead (page (seen (D.state disk.old))) (format_of sections.now) (map (λ it. it.version) sections.now) (map (λ it. it.recorded) sections.now) (pages_of sections.now) (rows_of sections.now) }
    ensures head { IfOk result (IsHeadRead (D.honest disk.old) (D.page_count disk.old) (page (seen (D.state disk.old)))) }
    ensures why { D.honest disk.old → IfErr result (λ r. IsNoAnswer r ⊎ IsWhyNoHead (D.page_count disk.old) (page (seen (D.state disk.old))) r) }
    ensures number { IfErr result IsOpeningRefusal }
    ensures disk { OnlyReads D.PageDisk disk.old disk.new }
    ensures cause { IsCaused (D.failure_count disk.old) (D.failure_count disk.new) result }
{
    let first = &sections[0];
    let root = match read_root(alloc, disk, first.format) {
        Ok(root) => root,
        Err(refusal) => return Err(refusal),
    };
    let extents = Extents::of(alloc, sections)?;
    let graph = new_graph(alloc, sections, root.version)?;
    let root_lost = is_root_lost(sections, root.version);
    Ok(Head {
        extents,
        graph,
        root,
        root_lost,
    })
}

/// Reads the head of a store: its superblock section by section, and then its root, whatever the sections record of it.
///
/// Refused by the first test that fails:
///
/// - 20 to 24 for page 0.
/// - 43 NotAStore if page 0 has another section than the first, or if the disk has another number of pages than the
///   superblock says.
/// - For each further section 20 to 24 for its page, then 43 if that has another section, or one of another superblock or
///   store.
/// - 20 to 24 for page 1, then 43 if it has the root of another store.
///
/// 1 DeviceFault and 9 OutOfMemory may come in place of any.
pub fn read_head<D: PageDisk>(alloc: Global, disk: &mut D) -> Result<Head, Refusal>
    requires { 10 ≤ D.page_count disk.old }
    ensures head { IfOk result (IsHeadRead (D.honest disk.old) (D.page_count disk.old) (page (seen (D.state disk.old)))) }
    ensures why { D.honest disk.old → IfErr result (λ r. IsNoAnswer r ⊎ IsWhyNoHead (D.page_count disk.old) (page (seen (D.state disk.old))) r) }
    ensures number { IfErr result IsOpeningRefusal }
    ensures disk { OnlyReads D.PageDisk disk.old disk.new }
    ensures cause { IsCaused (D.failure_count disk.old) (D.failure_count disk.new) result }
{
    let first = match read_first(alloc, disk) {
        Ok(first) => first,
        Err(refusal) => return Err(refusal),
    };
    if disk.pages()
        != first
            .format
            .device_pages(first.extent_count, first.pages, first.sections)
    {
        return Err(Refusal::NotAStore);
    }
    match read_sections(alloc, disk, first) {
        Ok(sections) => read_with_sections(alloc, disk, &sections),
        Err(refusal) => Err(refusal),
    }
}

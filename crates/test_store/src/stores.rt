//! The parts of a store, and what is done with them and asked of them by scripts: the first word of a line names a
//! part, and others are asked of the graph.
ghost use Rattle.std.specs.Prelude.{ℕ, ◌≡◌, ◌≤◌, ◌+◌, ◌*◌, IfOk, false, length, replicate, slice_index};
ghost use Rattle.cs_extent.specs.Appended.{IsReady};
ghost use Rattle.cs_extent.specs.Sections.{AreSections};
ghost use Rattle.cs_extent.specs.State.{extents_of, shape};
ghost use Rattle.cs_frame.specs.Geometries.{section_length};

use crate::disks::memory;
use crate::graphs::shown;
use crate::texts::{is_said, sides};
use crate::{chunks, extents, indexes, sweeps};
use cs_deps::Graph;
use cs_disk::{FailAt, PageDisk};
use cs_extent::Extents;
use cs_frame::{FormatNumber, Geometry, ShardId, StoreId, Superblock};
use cs_index::Index;
use std::alloc::{AllocError, Global};
use std::process::Abort;

/// An index with the extents where its shards and runs lie, and the graph that all is staged in.
#[derive(Drop)]
pub struct Store {
    pub index: Index,
    pub extents: Extents,
    pub graph: Graph,
    ghost staged: { (e : ℕ) → (extents_of extents).reset e ≤ slice_index graph.staging.latest 1 },
}

/// The identity of the stores of format 4, which docs/FORMATS.md has in its worked pages.
pub const STORE: StoreId = StoreId([0, 1, 2, 3, 4, 5, 6, 7, 8, 9, 10, 11, 12, 13, 14, 15]);

/// An identifier whose last byte is this.
pub fn id(last: u8) -> ShardId {
    ShardId([0, 0, 0, 0, 0, 0, 0, 0, 0, 0, 0, 0, 0, 0, 0, last])
}

/// A geometry of so many extents of 2 pages, and of so many sections.
pub fn geometry(rt: &impl Abort, extents: u64, sections: u64) -> Geometry {
    Geometry::with_sections(extents, 2, sections).expect(rt, "a geometry")
}

/// A section of a new store's superblock.
fn new_section(alloc: Global, geometry: Geometry, section: u8) -> Result<Superblock, AllocError>
    ensures format { IfOk result (λ it. it.format ≡ geometry.format) }
    ensures version { IfOk result (λ it. it.version ≡ 1) }
    ensures record { IfOk result (λ it. it.recorded ≡ 0) }
    ensures extents { IfOk result (λ it. it.extent_count ≡ geometry.extents) }
    ensures pages { IfOk result (λ it. it.pages ≡ geometry.pages) }
    ensures sections { IfOk result (λ it. it.sections ≡ geometry.sections) }
    ensures section { IfOk result (λ it. it.section ≡ section) }
    ensures rows { IfOk result (λ it. it.extents.items ≡ replicate {A = ℕ × ℕ} (section_length geometry.extents geometry.sections section) (0, 0)) }
{
    Ok(Superblock {
        format: geometry.format(),
        version: 1,
        recorded: 0,
        extent_count: geometry.extents(),
        pages: geometry.pages(),
        sections: geometry.sections(),
        section,
        extents: vec![in alloc; (0, 0); geometry.section_length(section)]?,
    })
}

/// All sections of a new store's superblock, in order.
fn new_sections(alloc: Global, geometry: Geometry) -> Result<Vec<Superblock>, AllocError>
    ensures { IfOk result (λ sections. AreSections sections.items) }
{
    let count = geometry.sections();
    let mut sections = Vec::with_capacity(alloc, usize::from(count))?;
    for k in 0..count {
        match new_section(alloc, geometry, k) {
            Ok(superblock) => sections.push_reserved(superblock),
            Err(fault) => return Err(fault),
        }
    }
    Ok(sections)
}

/// The graph of a store of one section or of three, with version 1 of each section and of the root persistent.
fn new_graph(rt: &impl Abort, alloc: Global, sections: u8) -> Graph {
    let graph = match sections {
        1 => Graph::new(alloc, &[1, 1]),
        _ => Graph::new(alloc, &[1, 1, 1, 1]),
    };
    graph.expect(rt, "memory")
}

/// The extents of an empty store.
pub fn new_extents(rt: &impl Abort, alloc: Global, geometry: Geometry) -> Extents
    ensures { (e : ℕ) → (extents_of result).reset e ≡ 0 }
{
    let sections = new_sections(alloc, geometry).expect(rt, "memory");
    Extents::of(alloc, &sections).expect(rt, "memory")
}

/// An empty store whose index may weigh so much, and whose versions are staged in this graph.
pub fn store_of(
    rt: &impl Abort,
    alloc: Global,
    geometry: Geometry,
    limit: u16,
    graph: Graph,
) -> Store {
    let extents = new_extents(rt, alloc, geometry);
    let index = Index::load(
        alloc,
        geometry.format(),
        usize::from(limit),
        Vec::new(alloc),
    )
    .expect(rt, "an index");
    Store {
        index,
        extents,
        graph,
    }
}

/// Asserts that a graph has a family for each section of the superblock and one for the root.
fn assert_families(rt: &impl Abort, extents: &Extents, graph: &Graph)
    ensures { length graph.now.staging.latest ≡ 1 + (shape extents.now).sections }
{
    let families = graph.families();
    let sections = extents.geometry().sections();
    assert!(rt; families == 1 + usize::from(sections));
}

/// Asserts that the next frame may be appended to a store.
pub fn assert_ready(rt: &impl Abort, store: &Store)
    ensures { IsReady store.now.extents store.now.graph.staging }
{
    assert_families(rt, &store.extents, &store.graph);
}

/// Asserts that the index is that of a store of format 2 whose extents have two pages, in which each entry weighs one,
/// so that it names at most a hundred identifiers.
pub fn assert_indexed(rt: &impl Abort, index: &Index, extents: &Extents)
    ensures format { index.now.format ≡ (shape extents.now).format }
    ensures limit { index.now.limit ≡ (shape extents.now).most_weight }
    ensures together { (shape extents.now).apart ≡ false }
{
    let apart = extents.is_apart();
    assert!(rt; !apart);
    let geometry = extents.geometry();
    let pages = extents.extent_pages();
    assert!(rt; pages == 2);
    let format = geometry.format().number();
    assert!(rt; format == FormatNumber::Two);
    let of_index = index.format().number();
    assert!(rt; of_index == FormatNumber::Two);
    let limit = index.limit();
    assert!(rt; limit == 100);
}

/// Asserts that a disk has the pages of a store.
pub fn assert_large<D: PageDisk>(rt: &impl Abort, extents: &Extents, disk: &D)
    ensures { 2 + (shape extents.now).extents * (shape extents.now).pages ≤ D.page_count disk.now }
{
    let count = extents.extent_count();
    let pages = extents.extent_pages();
    assert!(rt; 2 + (count as u64) * (pages as u64) <= disk.pages());
}

/// What comes of a line, as text.
fn said<D: PageDisk>(
    rt: &(impl Abort + AllocGlobal),
    store: &mut Store,
    disk: &mut D,
    line: &str,
) -> String {
    let (part, words) = line.split_once(' ').unwrap_or((line, ""));
    match part {
        "chunk" => chunks::said(rt, store, disk, words),
        "extent" => extents::said(rt, store, words),
        "index" => indexes::said(rt, store, words),
        "sweep" => sweeps::said(rt, store, disk, words),
        _ => shown(rt, &store.graph, line),
    }
}

/// Does what a script says.
fn play<D: PageDisk>(
    rt: &(impl Abort + AllocGlobal),
    store: &mut Store,
    disk: &mut D,
    script: &str,
) {
    for line in script.lines() {
        let (words, wanted) = sides(rt, line);
        is_said(rt, &said(rt, store, disk, words), wanted, line);
    }
}

/// Does what a script says on an empty store over an empty disk of which a call fails.
fn plays_on(
    rt: &(impl Abort + AllocGlobal),
    geometry: Geometry,
    limit: u16,
    call: u64,
    script: &str,
) {
    let graph = new_graph(rt, rt.alloc(), geometry.sections());
    let mut store = store_of(rt, rt.alloc(), geometry, limit, graph);
    let mut disk = FailAt::new(memory(rt, geometry.device_pages()), call);
    play(rt, &mut store, &mut disk, script);
}

/// Does what a script says on an empty store of 6 extents over an empty disk of which a call fails.
pub fn plays(rt: &(impl Abort + AllocGlobal), call: u64, script: &str) {
    plays_on(rt, geometry(rt, 6, 1), 100, call, script);
}

/// Does what a script says on an empty store of format 2 whose index has at most so many identifiers.
pub fn plays_small(rt: &(impl Abort + AllocGlobal), limit: u16, script: &str) {
    plays_on(rt, geometry(rt, 6, 1), limit, 0, script);
}

/// Does what a script says on an empty store of 12 extents, which take five runs.
pub fn plays_large(rt: &(impl Abort + AllocGlobal), script: &str) {
    plays_on(rt, geometry(rt, 12, 1), 100, 0, script);
}

/// Does what a script says on an empty store of format 4, of 6 extents of 2 pages and of so many sections, whose index
/// may weigh 100 bytes.
pub fn plays_fourth(rt: &(impl Abort + AllocGlobal), sections: u64, script: &str) {
    let fourth = Geometry::for_file(STORE, 6, 2, Some(sections)).expect(rt, "a geometry");
    plays_on(rt, fourth, 100, 0, script);
}

/// Does what a script says on an empty store of 6 extents, of which each of three sections has two.
pub fn plays_divided(rt: &(impl Abort + AllocGlobal), script: &str) {
    plays_on(rt, geometry(rt, 6, 3), 100, 0, script);
}

//! What is staged with a frame.
ghost use Rattle.std.specs.Prelude.{◌≡◌, ◌+◌, ◌^◌, ◌<◌, ◌≤◌, ◌↔◌, Some, length, slice_index, ◌⊎◌, ℕ};
ghost use Rattle.cs_deps.specs.declared.elements.Element.{Element as Item};
ghost use Rattle.cs_deps.specs.Named.{Named, Names, IsSmall, ListsNone};
ghost use Rattle.cs_deps.specs.Staging.{staged_after};
ghost use Rattle.cs_deps.specs.State.{AddsOnly, write_of};
ghost use Rattle.law_machine.specs.Geometry.{pages_first_in};
ghost use Rattle.cs_extent.specs.Frames.{ArePagesStaged, AreWritten, IsFrameStaged, IsNextPlain, IsOfFrame, IsSectionStaged, IsVersionUpTo, AddsOnlyOf, family_of, next_section, own_first, root_family, IsRootNeed, IsSectionNeed, root_pages};

use cs_deps::{Dependency, Element, Graph};
use cs_frame::Geometry;
use std::alloc::Global;

/// Stages one page of a frame, which needs versions 1 to `root` of the root.
fn stage_page(graph: &mut Graph, alloc: Global, page: u64, bytes: &[u8; 4096], root: u64)
    requires room { 0 < graph.old.room }
    requires number { graph.old.staging.staged + 1 < 2 ^ 63 }
    requires root { root ≤ slice_index graph.old.staging.latest root_family }
    ensures staged { (needs : Named) × ((x : Item) → Names needs x ↔ IsVersionUpTo root_family root x) × (graph.new.staging ≡ record { pending = staged_after graph.old.staging.pending (Element.Plain (graph.old.staging.staged + 1)) needs; staged = graph.old.staging.staged + 1; latest = graph.old.staging.latest }) }
    ensures write { write_of graph.new (Element.Plain (graph.old.staging.staged + 1)) ≡ Some (page, bytes.now) }
    ensures others { AddsOnly graph.old graph.new (Element.Plain (graph.old.staging.staged + 1)) }
    ensures round { graph.new.round ≡ graph.old.round }
    ensures left { graph.old.room ≤ graph.new.room + 1 }
{
    match graph.stage_plain(page, bytes, on_versions(alloc, ROOT, root)) {
        Ok(_) => {}
        Err(_) => unreachable!(),
    }
}

/// Stages the pages of a frame, in order, to the pages of the device from `first` on. Each needs versions 1 to `root`
/// of the root.
fn stage_pages(graph: &mut Graph, alloc: Global, frame: &[[u8; 4096]], first: u64, root: u64)
    requires room { length frame.now ≤ graph.old.room }
    requires numbers { graph.old.staging.staged + length frame.now < 2 ^ 63 }
    requires pages { first + length frame.now < 2 ^ 63 }
    requires root { root ≤ slice_index graph.old.staging.latest root_family }
    ensures staged { ArePagesStaged graph.old.staging graph.new.staging (length frame.now) root }
    ensures writes { AreWritten graph.new graph.old.staging.staged (length frame.now) (λ i. first + i) frame.now }
    ensures others { AddsOnlyOf graph.old graph.new (IsNextPlain graph.old.staging (length frame.now)) }
    ensures round { graph.new.round ≡ graph.old.round }
    ensures left { graph.old.room ≤ graph.new.room + length frame.now }
{
    for i in 0..frame.len() {
        stage_page(graph, alloc, first + i as u64, &frame[i], root);
    }
}

/// Stages the next version of a section, to its page. It needs the plain writes from `first` on and versions 1 to
/// `need` of the root.
fn stage_section(
    graph: &mut Graph,
    alloc: Global,
    place: FramePlace,
    bytes: &[u8; 4096],
    first: u64,
)
    requires families { family_of place.section < length graph.old.staging.latest }
    requires room { 0 < graph.old.room }
    requires number { slice_index graph.old.staging.latest (family_of place.section) + 1 < 2 ^ 63 }
    requires first { 1 ≤ first }
    requires root { place.need ≤ slice_index graph.old.staging.latest root_family }
    ensures staged { IsSectionStaged graph.old.staging graph.new.staging place.section first place.need }
    ensures write { write_of graph.new (next_section graph.old.staging place.section) ≡ Some (place.section_page, bytes.now) }
    ensures others { AddsOnly graph.old graph.new (next_section graph.old.staging place.section) }
    ensures round { graph.new.round ≡ graph.old.round }
    ensures left { graph.old.room ≤ graph.new.room + 1 }
{
    let needs = section_needs(alloc, first, graph.last_plain(), place.need);
    match graph.stage_version(
        section_family(place.section),
        place.section_page,
        bytes,
        needs,
    ) {
        Ok(_) => {}
        Err(_) => unreachable!(),
    }
}

/// The first plain write that a section's version needs of its own, before the pages of its frame are staged. It comes
/// after the last of them if page writes don't come first.
fn first_needed(graph: &Graph, geometry: Geometry, pages: usize) -> u64
    requires { graph.now.staging.staged + pages < 2 ^ 63 }
    ensures first { result ≡ own_first (pages_first_in geometry.format) geometry.sections graph.now.staging.staged pages }
    ensures some { 1 ≤ result }
{
    if !geometry.format().pages_first() {
        graph.last_plain() + pages as u64 + 1
    } else if geometry.sections() == 1 {
        1
    } else {
        graph.last_plain() + 1
    }
}

/// Where a frame goes, with the version of the section that records it, and which versions of the root they need.
#[derive(Clone, Copy)]
pub struct FramePlace {
    pub geometry: Geometry,
    /// The page of the device where the frame begins.
    pub first: u64,
    /// The last version of the root that its pages need.
    pub root: u64,
    pub section: u8,
    /// The page of the device that the section's version goes to.
    pub section_page: u64,
    /// The last version of the root that the section's version needs.
    pub need: u64,
}

/// Stages a frame and then the version of its section, of these bytes. The version needs the plain writes that it
/// counts if those come first.
pub fn stage_frame(
    graph: &mut Graph,
    alloc: Global,
    frame: &[[u8; 4096]],
    place: FramePlace,
    bytes: &[u8; 4096],
)
    requires families { family_of place.section < length graph.old.staging.latest }
    requires room { length frame.now + 1 ≤ graph.old.room }
    requires numbers { graph.old.staging.staged + length frame.now < 2 ^ 63 }
    requires version { slice_index graph.old.staging.latest (family_of place.section) + 1 < 2 ^ 63 }
    requires pages { place.first + length frame.now < 2 ^ 63 }
    requires root { place.root ≤ slice_index graph.old.staging.latest root_family }
    requires need { place.need ≤ slice_index graph.old.staging.latest root_family }
    ensures staged { IsFrameStaged graph.old.staging graph.new.staging (pages_first_in place.geometry.format) place.geometry.sections place.section (length frame.now) place.root place.need }
    ensures writes { AreWritten graph.new graph.old.staging.staged (length frame.now) (λ i. place.first + i) frame.now }
    ensures write { write_of graph.new (next_section graph.old.staging place.section) ≡ Some (place.section_page, bytes.now) }
    ensures others { AddsOnlyOf graph.old graph.new (IsOfFrame graph.old.staging place.section (length frame.now)) }
    ensures round { graph.new.round ≡ graph.old.round }
    ensures left { graph.old.room ≤ graph.new.room + (length frame.now + 1) }
{
    let own = first_needed(graph, place.geometry, frame.len());
    stage_pages(graph, alloc, frame, place.first, place.root);
    stage_section(graph, alloc, place, bytes, own);
}

/// The family of the root's versions.
pub const ROOT: usize = 1;

/// The family of a section's versions: section 0 has the first family, and each other one its own after the root's.
pub fn section_family(section: u8) -> usize
    ensures { result ≡ family_of section }
{
    if section == 0 {
        0
    } else {
        usize::from(section) + 1
    }
}

/// Names versions 1 to `version` of a section or of the root.
pub fn on_versions(alloc: Global, family: usize, version: u64) -> Dependency
    requires { family < 16 }
    ensures names { (x : Item) → Names result x ↔ IsVersionUpTo family version x }
    ensures none { ListsNone result }
    ensures small { IsSmall result }
{
    match Dependency::on_version(alloc, family, version) {
        Ok(versions) => versions,
        Err(_) => unreachable!(),
    }
}

/// Names what a section's version needs of its own: the plain writes from `first` to `last`, and versions 1 to `root`
/// of the root.
pub fn section_needs(alloc: Global, first: u64, last: u64, root: u64) -> Dependency
    requires { 1 ≤ first }
    ensures { (x : Item) → Names result x ↔ IsSectionNeed first last root x }
{
    with_versions(&writes_from(alloc, first, last), alloc, ROOT, root)
}

/// Names the plain writes from `first` to `last`. If there are none it lists no span.
fn writes_from(alloc: Global, first: u64, last: u64) -> Dependency
    requires { 1 ≤ first }
    ensures plain { (n : ℕ) → Names result (Item.Plain n) ↔ ((first ≤ n) × (n ≤ last)) }
    ensures version { (f v : ℕ) → ¬ Names result (Item.Version f v) }
    ensures small { IsSmall result }
{
    if last < first {
        Dependency::none(alloc)
    } else if first <= 1 {
        Dependency::through(alloc, last)
    } else {
        Dependency::on_writes(alloc, first, last)
    }
}

/// Names what a root needs of its own: of each section the versions that were staged, and all plain writes that were
/// staged if page writes don't come first. Takes no memory.
pub fn root_needs(alloc: Global, graph: &Graph, pages_first: bool) -> Dependency
    requires { length graph.now.staging.latest ≤ 16 }
    ensures names { (x : Item) → Names result x ↔ IsRootNeed (root_pages pages_first graph.now.staging.staged) graph.now.staging.latest x }
    ensures small { IsSmall result }
{
    let mut needs = Dependency::through(alloc, last_needed(graph, pages_first));
    for family in 0..graph.families() {
        needs = with_versions(&needs, alloc, family, section_version(graph, family));
    }
    needs
}

/// The last plain write that a root needs of its own, 0 if it needs none.
fn last_needed(graph: &Graph, pages_first: bool) -> u64
    ensures { result ≡ root_pages pages_first graph.now.staging.staged }
{
    if pages_first { 0 } else { graph.last_plain() }
}

/// The last version of a section's family, and 0 for the root's.
fn section_version(graph: &Graph, family: usize) -> u64
    requires { family < length graph.now.staging.latest }
    ensures root { family ≡ root_family → result ≡ 0 }
    ensures section { ¬ (family ≡ root_family) → result ≡ slice_index graph.now.staging.latest family }
{
    if family == ROOT {
        0
    } else {
        graph.last_version(family)
    }
}

/// Names what these needs name, and versions 1 to `version` of a family.
fn with_versions(needs: &Dependency, alloc: Global, family: usize, version: u64) -> Dependency
    requires family { family < 16 }
    requires small { IsSmall needs.now }
    ensures names { (x : Item) → Names result x ↔ (Names needs.now x ⊎ IsVersionUpTo family version x) }
    ensures small { IsSmall result }
{
    match needs.and(&on_versions(alloc, family, version)) {
        Ok(both) => both,
        Err(_) => unreachable!(),
    }
}

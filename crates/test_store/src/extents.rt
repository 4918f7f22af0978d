//! The worked rows of allocation, and each public function once.
ghost use Rattle.std.specs.Prelude.{◌^◌, ◌≤◌, ◌<◌, All, length};

use crate::stores::{
    Store, assert_ready, geometry, new_extents, plays, plays_divided, plays_fourth, store_of,
};
use crate::texts::{byte, prints, text_of, words_of};
use cs_deps::{Dependency, Element, Graph};
use cs_extent::{
    Extents, Purpose, ROOT, joining_adds_nothing_to_one_section, needs_never_fall, one_place,
    pages_are_given_once, root_needs, section_family,
};
use cs_frame::{FormatNumber, Locator, decode_section};
use cs_refusal::Refusal;
use std::alloc::Global;
use std::process::Abort;

/// Appends a frame.
fn append(
    rt: &impl Abort,
    store: &mut Store,
    frame: &[[u8; 4096]],
    purpose: Purpose,
) -> Result<(Locator, Dependency), Refusal> {
    let pages = store.extents.extent_pages();
    assert!(rt; 1 <= frame.len());
    assert!(rt; frame.len() <= pages);
    assert_ready(rt, store);
    store.extents.append(&mut store.graph, frame, purpose)
}

/// Appends a frame, and tells its extent, its page and its generation, and the page of the device that its last plain
/// write goes to.
fn place_of(
    rt: &impl Abort,
    store: &mut Store,
    frame: &[[u8; 4096]],
    purpose: Purpose,
) -> Result<((u16, u16, u32), Option<u64>), Refusal> {
    match append(rt, store, frame, purpose) {
        Ok((place, _)) => Ok((
            (place.extent, place.page, place.generation),
            last_page(store),
        )),
        Err(refusal) => Err(refusal),
    }
}

/// The page of the device that the last plain write goes to.
fn last_page(store: &Store) -> Option<u64> {
    store
        .graph
        .page_of(Element::Plain(store.graph.last_plain()))
}

/// Stages the next version of the root, which needs what was staged of all sections, and all plain writes where those
/// don't come first.
fn stage_root(
    rt: &impl Abort,
    alloc: Global,
    store: &mut Store,
    pages_first: bool,
) -> Result<u64, Refusal> {
    let families = store.graph.families();
    assert!(rt; 1 < families);
    assert!(rt; families <= 16);
    let needs = root_needs(alloc, &store.graph, pages_first);
    store.graph.stage_version(ROOT, 1, &[0; 4096], needs)
}

/// Empties an extent.
fn reset(rt: &impl Abort, store: &mut Store, extent: usize, root: u64) -> Result<(), Refusal> {
    let count = store.extents.extent_count();
    assert!(rt; extent < count);
    assert!(rt; !store.extents.is_open(extent));
    assert!(rt; 0 < store.extents.pointer(extent));
    let families = store.graph.families();
    assert!(rt; 1 < families);
    assert!(rt; root <= store.graph.last_version(1));
    assert!(rt; root < 1 << 63);
    store.extents.reset(extent, root)
}

/// Makes room for a frame of two pages.
fn reserve(store: &mut Store) -> bool {
    store.extents.reserve(&mut store.graph, 1, 2).is_ok()
}

/// Whether the superblock that an append stages is named by what it answers. The frame begins the first extent.
fn names_superblock(rt: &impl Abort, store: &mut Store) -> bool {
    let (place, superblock) = append(rt, store, &[[7; 4096], [8; 4096]], Purpose::Put).expect(
        rt, "a place",
    );
    assert!(rt; place.extent == 0);
    assert!(rt; place.page == 0);
    assert!(rt; place.generation == 0);
    superblock.names(Element::Version(0, 2))
}

/// Whether a frame of one page fits for a put, whether two of them do, and whether one of two pages does.
fn fits(rt: &impl Abort, store: &Store) -> (bool, bool, bool) {
    let pages = store.extents.extent_pages();
    assert!(rt; pages == 2);
    (
        store.extents.fits(&[1], Purpose::Put),
        store.extents.fits(&[1, 1], Purpose::Put),
        store.extents.fits(&[2], Purpose::Put),
    )
}

/// How many extents there are and how many of them are empty, and the pointer and the generation of an extent.
fn state(rt: &impl Abort, store: &Store, extent: usize) -> ((usize, usize), (usize, u32)) {
    let count = store.extents.extent_count();
    assert!(rt; extent < count);
    let pointer = store.extents.pointer(extent);
    let generation = store.extents.generation(extent);
    ((count, store.extents.empty_count()), (pointer, generation))
}

/// What a version of a section says that waits.
fn spelled(rt: &(impl Abort + AllocGlobal), graph: &Graph, section: u8, version: u16) -> String {
    let element = Element::Version(section_family(section), u64::from(version));
    let page = graph.bytes_of(element).expect(rt, "a page");
    let spelled = decode_section(rt.alloc(), page, FormatNumber::Two).expect(rt, "a section");
    text_of(rt, &(spelled.version, spelled.section, &spelled.extents))
}

/// Stages the next version of the root by the rule of the store's format.
fn stage_own_root(rt: &impl Abort, alloc: Global, store: &mut Store) -> Result<u64, Refusal> {
    let pages_first = store.extents.pages_first();
    stage_root(rt, alloc, store, pages_first)
}

/// How many extents there are, of how many pages, and of how many sections.
fn dimensions(extents: &Extents) -> (u16, u16, u8) {
    let geometry = extents.geometry();
    (geometry.extents(), geometry.pages(), geometry.sections())
}

/// What comes of the words of a line, as text.
pub fn said(rt: &(impl Abort + AllocGlobal), store: &mut Store, line: &str) -> String {
    let (word, numbers) = words_of(line);
    let extent = usize::from(numbers[0]);
    match word {
        "put" => text_of(rt, &place_of(rt, store, &[[7; 4096]], Purpose::Put)),
        "run" => text_of(rt, &place_of(rt, store, &[[7; 4096]], Purpose::Run)),
        "move" => text_of(rt, &place_of(rt, store, &[[7; 4096]], Purpose::Move)),
        "reset" => text_of(rt, &reset(rt, store, extent, u64::from(numbers[1]))),
        "state" => text_of(rt, &state(rt, store, extent)),
        "fits" => text_of(rt, &fits(rt, store)),
        "root" => text_of(rt, &stage_root(rt, rt.alloc(), store, true)),
        "own" => text_of(rt, &stage_own_root(rt, rt.alloc(), store)),
        "whole" => text_of(rt, &stage_root(rt, rt.alloc(), store, false)),
        "two" => text_of(rt, &names_superblock(rt, store)),
        "reserve" => text_of(rt, &reserve(store)),
        "dimensions" => text_of(rt, &dimensions(&store.extents)),
        _ => spelled(rt, &store.graph, byte(numbers[0]), numbers[1]),
    }
}

#[test]
fn frames_fill_the_extents(rt: HostRuntime) {
    plays(&rt, 0, FILL);
}

const FILL: &str = "extent put > Ok(((0, 0, 0), Some(2)))
extent put > Ok(((0, 1, 0), Some(3)))
extent put > Ok(((1, 0, 0), Some(4)))
extent put > Ok(((1, 1, 0), Some(5)))
extent put > Ok(((2, 0, 0), Some(6)))
extent put > Ok(((2, 1, 0), Some(7)))
extent put > Ok(((3, 0, 0), Some(8)))
extent fits > (true, false, false)
extent put > Ok(((3, 1, 0), Some(9)))
extent put > Err(Full)
extent run > Ok(((4, 0, 0), Some(10)))
extent run > Ok(((4, 1, 0), Some(11)))
extent run > Err(Full)
extent move > Ok(((5, 0, 0), Some(12)))
extent move > Ok(((5, 1, 0), Some(13)))
extent move > Err(Full)";

/// A frame in an extent that is emptied needs the root that emptied it, and so does the superblock of the frame before.
#[test]
fn a_reset_extent_is_used_again(rt: HostRuntime) {
    plays(&rt, 0, RESET);
}

const RESET: &str = "extent put > Ok(((0, 0, 0), Some(2)))
extent put > Ok(((0, 1, 0), Some(3)))
extent put > Ok(((1, 0, 0), Some(4)))
extent root > Ok(2)
extent reset 0 2 > Ok(())
extent state 0 > ((6, 5), (0, 1))
extent put > Ok(((1, 1, 0), Some(5)))
last > (4, 2, 5)
names 0.5 1.2 > true
names 4 1.2 > false
extent put > Ok(((0, 0, 1), Some(2)))
page 5 > Some(2)
names 5 1.2 > true";

/// A frame of two pages, and the superblock, which needs it.
#[test]
fn a_frame_of_two_pages_is_recorded(rt: HostRuntime) {
    plays(&rt, 0, TWO_PAGES);
}

const TWO_PAGES: &str = "extent reserve > true
extent two > true
extent state 0 > ((6, 5), (2, 0))
page 1 > Some(2)
page 2 > Some(3)
page 0.2 > Some(0)
names 0.2 2 > true
byte 1 > Some(7)
extent spelled 0 2 > (2, 0, [(2, 0), (0, 0), (0, 0), (0, 0), (0, 0), (0, 0)])
extent dimensions > (6, 2, 1)";

/// Each of three sections has two extents: its versions record these and need what is written there, and are on a page
/// of their own. A root needs the versions, and all plain writes too where those don't come first.
#[test]
fn frames_of_several_sections(rt: HostRuntime) {
    plays_divided(&rt, DIVIDED);
}

const DIVIDED: &str = "extent dimensions > (6, 2, 3)
extent put > Ok(((0, 0, 0), Some(2)))
extent put > Ok(((0, 1, 0), Some(3)))
extent put > Ok(((1, 0, 0), Some(4)))
extent put > Ok(((1, 1, 0), Some(5)))
extent put > Ok(((2, 0, 0), Some(6)))
extent put > Ok(((2, 1, 0), Some(7)))
extent put > Ok(((3, 0, 0), Some(8)))
extent run > Ok(((3, 1, 0), Some(9)))
extent run > Ok(((4, 0, 0), Some(10)))
page 0.5 > Some(0)
page 2.5 > Some(14)
page 3.2 > Some(15)
extent spelled 0 5 > (5, 0, [(2, 0), (2, 0)])
extent spelled 1 5 > (5, 1, [(2, 0), (2, 0)])
extent spelled 2 2 > (2, 2, [(1, 0), (0, 0)])
names 0.5 1 > true
names 0.5 4 > true
names 0.5 5 > false
names 2.5 4 > false
names 2.5 5 > true
names 2.5 8 > true
names 3.2 8 > false
names 3.2 9 > true
extent root > Ok(2)
names 1.2 0.5 > true
names 1.2 2.5 > true
names 1.2 3.2 > true
names 1.2 9 > false
extent whole > Ok(3)
names 1.3 3.2 > true
names 1.3 1 > true
names 1.3 9 > true
names 1.3 10 > false";

/// If chunks and runs lie apart, the superblock doesn't need the pages that it shows. Each root needs all pages that
/// were staged before it.
#[test]
fn the_root_needs_the_pages(rt: HostRuntime) {
    plays_fourth(&rt, 1, APART);
}

const APART: &str = "extent two > true
names 0.2 1 > false
names 0.2 2 > false
extent own > Ok(2)
names 1.2 0.2 > true
names 1.2 1 > true
names 1.2 2 > true
extent put > Ok(((1, 0, 0), Some(4)))
names 0.3 3 > false
names 1.2 3 > false
extent own > Ok(3)
names 1.3 0.3 > true
names 1.3 3 > true";

/// So it is of several sections: a root needs the pages of all of them.
#[test]
fn the_root_needs_all_sections_pages(rt: HostRuntime) {
    plays_fourth(&rt, 3, APART_DIVIDED);
}

const APART_DIVIDED: &str = "extent put > Ok(((0, 0, 0), Some(2)))
extent put > Ok(((0, 1, 0), Some(3)))
extent put > Ok(((1, 0, 0), Some(4)))
extent put > Ok(((1, 1, 0), Some(5)))
extent put > Ok(((2, 0, 0), Some(6)))
names 0.5 1 > false
names 0.5 4 > false
names 2.2 5 > false
extent own > Ok(2)
names 1.2 0.5 > true
names 1.2 2.2 > true
names 1.2 1 > true
names 1.2 5 > true";

/// The section of an extent that was emptied says so with its next version, and no version of another section needs the
/// root that emptied it.
#[test]
fn a_reset_of_one_section(rt: HostRuntime) {
    plays_divided(&rt, RESET_OF_ONE);
}

const RESET_OF_ONE: &str = "extent put > Ok(((0, 0, 0), Some(2)))
extent put > Ok(((0, 1, 0), Some(3)))
extent put > Ok(((1, 0, 0), Some(4)))
extent put > Ok(((1, 1, 0), Some(5)))
extent put > Ok(((2, 0, 0), Some(6)))
extent root > Ok(2)
extent reset 0 2 > Ok(())
extent put > Ok(((2, 1, 0), Some(7)))
names 2.3 1.2 > false
names 0.5 1.2 > false
extent put > Ok(((0, 0, 1), Some(2)))
names 7 1.2 > true
names 0.6 1.2 > true
names 0.6 7 > true
names 0.6 6 > false
extent spelled 0 6 > (6, 0, [(1, 1), (2, 0)])";

/// Whether frames may be appended, or why not.
type Answer = Result<(), Refusal>;

/// Whether frames may be appended: two that fill the extents of the first of three sections, one more, which goes to
/// the second one, and five, which need one extent more than puts may take.
fn may_append(rt: &impl Abort, store: &Store) -> (Answer, Answer, Answer) {
    assert_ready(rt, store);
    let pages = store.extents.extent_pages();
    assert!(rt; pages == 2);
    let extents = &store.extents;
    let graph = &store.graph;
    (
        extents.may_append(graph, &[2, 2], Purpose::Put),
        extents.may_append(graph, &[2, 2, 1], Purpose::Put),
        extents.may_append(graph, &[2, 2, 2, 2, 1], Purpose::Put),
    )
}

/// Asserts whether they may in a store of three sections of which these versions are persistent.
fn appends(rt: &(impl Abort + AllocGlobal), persistent: &[u64], wanted: &str)
    requires families { (1 ≤ length persistent.now) × (length persistent.now ≤ 16) }
    requires numbers { All (λ v. v < 2 ^ 63) persistent.now }
{
    let graph = Graph::new(rt.alloc(), persistent).expect(rt, "memory");
    let store = store_of(rt, rt.alloc(), geometry(rt, 6, 3), 100, graph);
    prints(rt, &may_append(rt, &store), wanted);
}

/// Of each section the latest version counts, and only where it gets another one. That there is no place is told first.
#[test]
fn sections_wear_out_one_by_one(rt: HostRuntime) {
    let last: u64 = 0x7fff_ffff_ffff_ffff;
    appends(&rt, &[1, 1, last, 1], "(Ok(()), Err(WornOut), Err(Full))");
    appends(&rt, &[1, 1, 1, last], "(Ok(()), Ok(()), Err(Full))");
    appends(
        &rt,
        &[last - 1, 1, 1, 1],
        "(Err(WornOut), Err(WornOut), Err(Full))",
    );
}

#[test]
fn laws() {
    pages_are_given_once();
    one_place();
    needs_never_fall();
    joining_adds_nothing_to_one_section();
}

/// Marks an extent as swept, and asserts that another one isn't.
fn marks(rt: &impl Abort, extents: &mut Extents) {
    let count = extents.extent_count();
    assert!(rt; count == 6);
    extents.set_swept(3, true);
    assert!(rt; extents.is_swept(3));
    assert!(rt; !extents.is_swept(2));
}

#[test]
fn a_mark_is_that_of_one_extent(rt: HostRuntime) {
    let mut extents = new_extents(&rt, rt.alloc(), geometry(&rt, 6, 1));
    marks(&rt, &mut extents);
}

//! Worked rows of the index, and each public function once.
ghost use Rattle.std.specs.Prelude.{◌≡◌, ◌<◌, ◌^◌};

use crate::stores::{
    Store, assert_indexed, assert_ready, id, plays_divided, plays_fourth, plays_large, plays_small,
};
use crate::texts::{byte, text_of, words_of};
use cs_deps::{Element, Graph};
use cs_extent::Purpose;
use cs_frame::{FormatNumber, Locator, Places, decode_root};
use cs_index::{Entries, Index};
use cs_refusal::Refusal;
use std::alloc::Global;
use std::process::Abort;

/// The place of a chunk, of mark 0, as in the older formats.
fn place(page: u16) -> Locator
    ensures { result.mark ≡ 0 }
{
    Locator {
        extent: 0,
        page,
        generation: 0,
        mark: 0,
    }
}

/// Gives an identifier one locator.
fn set(
    rt: &impl Abort,
    alloc: Global,
    index: &mut Index,
    last: u8,
    page: u16,
) -> Result<(), Refusal> {
    let locators = Places::from_slice(alloc, &[place(page)]).expect(rt, "memory");
    index.set(id(last), locators)
}

/// Whether an index has no room for so many locators of an identifier.
fn is_full(rt: &impl Abort, index: &Index, last: u8, chunks: usize) -> bool {
    assert!(rt; chunks <= 8);
    index.is_full_for(id(last), chunks)
}

/// Replaces one locator of an identifier by another.
fn replace(
    rt: &impl Abort,
    alloc: Global,
    index: &mut Index,
    last: u8,
    (old, new): (u16, u16),
) -> bool {
    let locators = Places::from_slice(alloc, &[place(new)]).expect(rt, "memory");
    index
        .replace_if(id(last), &[place(old)], locators)
        .expect(rt, "memory")
}

/// Stages the index, with so many commands.
fn stage(rt: &impl Abort, store: &mut Store, commands: u64) -> Result<Option<u64>, Refusal>
    requires { commands < 2 ^ 63 }
{
    assert_ready(rt, store);
    assert_indexed(rt, &store.index, &store.extents);
    store
        .index
        .stage(&mut store.extents, &mut store.graph, commands)
}

/// Merges the index of a store of which chunks and runs may lie on one extent, with so many commands.
fn merge(rt: &impl Abort, store: &mut Store, commands: u64) -> Result<u64, Refusal>
    requires { commands < 2 ^ 63 }
{
    assert_ready(rt, store);
    assert_indexed(rt, &store.index, &store.extents);
    store.index.stage_merged(
        &mut store.extents,
        &mut store.graph,
        commands,
        Purpose::Move,
    )
}

/// The last byte of the next identifier.
fn next(entries: &mut Entries) -> Option<u8> {
    match entries.next_entry() {
        Some((found, _)) => Some(found.0[15]),
        None => None,
    }
}

/// The last bytes of the first three identifiers.
fn listed(index: &Index) -> (Option<u8>, Option<u8>, Option<u8>) {
    let mut entries = index.entries();
    (next(&mut entries), next(&mut entries), next(&mut entries))
}

/// How many commands and how many runs a root has that is version 6.
fn root(rt: &impl Abort, alloc: Global, graph: &Graph) -> (u64, usize) {
    let page = graph.bytes_of(Element::Version(1, 6)).expect(rt, "a page");
    let root = decode_root(alloc, page, FormatNumber::Two).expect(rt, "a root");
    (root.commands, root.runs.len())
}

/// What comes of the words of a line, as text.
pub fn said(rt: &(impl Abort + AllocGlobal), store: &mut Store, line: &str) -> String {
    let (word, numbers) = words_of(line);
    let alloc = rt.alloc();
    match word {
        "stage" => text_of(rt, &stage(rt, store, u64::from(numbers[0]))),
        "merge" => text_of(rt, &merge(rt, store, u64::from(numbers[0]))),
        "root" => text_of(rt, &root(rt, alloc, &store.graph)),
        _ => said_of(rt, &mut store.index, word, numbers),
    }
}

/// What comes of the words of a line for an index alone, as text.
fn said_of(
    rt: &(impl Abort + AllocGlobal),
    index: &mut Index,
    word: &str,
    numbers: [u16; 4],
) -> String {
    let alloc = rt.alloc();
    let last = byte(numbers[0]);
    match word {
        "set" => text_of(rt, &set(rt, alloc, index, last, numbers[1])),
        "replace" => text_of(
            rt,
            &replace(rt, alloc, index, last, (numbers[1], numbers[2])),
        ),
        "erase" => text_of(rt, &index.erase(id(last)).expect(rt, "memory")),
        "at" => text_of(rt, &index.lookup(id(last))),
        "listed" => text_of(rt, &listed(index)),
        "counts" => text_of(rt, &(index.named_count(), index.run_count())),
        "weight" => text_of(rt, &(index.weight(), index.limit())),
        "full" => text_of(rt, &is_full(rt, index, last, usize::from(numbers[1]))),
        "reserve" => text_of(rt, &index.reserve(usize::from(numbers[0])).is_ok()),
        _ => text_of(rt, &index.is_table_empty()),
    }
}

#[test]
fn a_deletion_is_an_entry(rt: HostRuntime) {
    plays_small(&rt, 3, DELETION);
}

const DELETION: &str = "index reserve 3 > true
index empty > true
index set 2 5 > Ok(())
index set 1 6 > Ok(())
index at 2 > Some([Locator { extent: 0, page: 5, generation: 0, mark: 0 }])
index listed > (Some(1), Some(2), None)
index erase 2 > true
index erase 2 > false
index erase 3 > false
index at 2 > Some([])
index at 3 > None
index counts > (2, 0)";

#[test]
fn other_locators_stay(rt: HostRuntime) {
    plays_small(&rt, 3, OTHERS);
}

const OTHERS: &str = "index set 1 5 > Ok(())
index replace 1 4 6 > false
index at 1 > Some([Locator { extent: 0, page: 5, generation: 0, mark: 0 }])
index replace 2 5 6 > false
index replace 1 5 6 > true
index at 1 > Some([Locator { extent: 0, page: 6, generation: 0, mark: 0 }])";

#[test]
fn the_limit_is_for_new_identifiers(rt: HostRuntime) {
    plays_small(&rt, 2, LIMIT);
}

const LIMIT: &str = "index set 1 5 > Ok(())
index set 2 5 > Ok(())
index erase 1 > true
index set 3 5 > Err(IndexFull)
index set 1 7 > Ok(())";

/// An entry of a chunk weighs 33, and a deletion 17, which makes room of 16. An identifier that is named may be refused
/// more chunks.
#[test]
fn the_limit_is_a_weight(rt: HostRuntime) {
    plays_fourth(&rt, 1, WEIGHT);
}

const WEIGHT: &str = "index weight > (0, 100)
index set 1 5 > Ok(())
index set 2 5 > Ok(())
index set 3 5 > Ok(())
index weight > (99, 100)
index set 4 5 > Err(IndexFull)
index set 3 6 > Ok(())
index full 3 1 > false
index full 3 2 > true
index erase 1 > true
index weight > (83, 100)
index set 4 5 > Err(IndexFull)
index full 1 1 > false
index full 1 2 > true
index erase 2 > true
index weight > (67, 100)
index full 4 1 > false
index full 4 2 > true
index set 4 5 > Ok(())
index weight > (100, 100)
index counts > (4, 0)
index set 1 5 > Err(IndexFull)
index full 5 0 > true
index erase 3 > true
index erase 4 > true
index weight > (68, 100)
index full 5 0 > false
index full 5 1 > true
index set 2 7 > Ok(())
index weight > (84, 100)";

#[test]
fn five_stages_leave_one_run(rt: HostRuntime) {
    plays_large(&rt, FIVE_STAGES);
}

const FIVE_STAGES: &str = "index stage 0 > Ok(None)
index set 1 5 > Ok(())
index stage 1 > Ok(Some(2))
index empty > true
index counts > (1, 1)
index set 2 5 > Ok(())
index stage 2 > Ok(Some(3))
index empty > true
index counts > (2, 2)
index set 3 5 > Ok(())
index stage 3 > Ok(Some(4))
index empty > true
index counts > (3, 3)
index set 4 5 > Ok(())
index stage 4 > Ok(Some(5))
index empty > true
index counts > (4, 4)
index erase 4 > true
index stage 5 > Ok(Some(6))
index counts > (3, 1)
index at 3 > Some([Locator { extent: 0, page: 5, generation: 0, mark: 0 }])
index at 4 > None
index root > (5, 1)";

/// No write is staged for the run of an index of deletions alone.
#[test]
fn deletions_alone_leave_no_run(rt: HostRuntime) {
    plays_large(&rt, DELETIONS);
}

const DELETIONS: &str = "index set 1 5 > Ok(())
index stage 1 > Ok(Some(2))
index empty > true
index counts > (1, 1)
index erase 1 > true
plains > 1
index merge 2 > Ok(3)
plains > 1
index counts > (0, 0)";

/// A root needs the latest version of each section, also of one that its run isn't recorded by.
#[test]
fn a_root_needs_all_sections(rt: HostRuntime) {
    plays_divided(&rt, DIVIDED);
}

const DIVIDED: &str = "extent put > Ok(((0, 0, 0), Some(2)))
extent put > Ok(((0, 1, 0), Some(3)))
extent put > Ok(((1, 0, 0), Some(4)))
extent put > Ok(((1, 1, 0), Some(5)))
index set 1 5 > Ok(())
index stage 4 > Ok(Some(2))
names 1.2 0.5 > true
names 1.2 2.2 > true
names 1.2 5 > false
all > [[Plain(1), Plain(2), Plain(3), Plain(4), Plain(5)], [Version(0, 5), Version(2, 2)], [Version(1, 2)]] [Plain(1), Version(0, 5), Version(1, 2)]";

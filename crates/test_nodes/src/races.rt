//! Races, of which each ends with all numbers equal, or with what is missing.
ghost use Rattle.std.specs.Prelude.{◌≡◌, [], IfOk};
ghost use Rattle.cs_node.specs.Starts.{start_of};

use cs_disk::{MemoryDisk, PageDisk};
use cs_frame::Geometry;
use cs_mount::{MountOptions, Mounted};
use cs_node::the_core::Core;
use cs_node::{Board, Job, Naming, Node};
use cs_race::{Returned, new_core, racers_of, run_race};
use cs_words::Race;
use std::alloc::Global;
use std::marker::Brand;
use std::process::Abort;
use std::sync::Wait;
use std::test::{Fail, *};
use std::thread::Threads;

/// Asserts what a race prints, and its exit status.
fn races(
    rt: &(impl Threads + Wait + Sync + Abort + AllocGlobal),
    race: Option<Race>,
    wanted: &str,
    status: u8,
) {
    let race = race.expect(rt, "a race");
    let core = new_core(rt.alloc()).expect(rt, "a core");
    let mut output = Vec::new(rt.alloc());
    assert!(rt; run_race(rt, rt.alloc(), core, race, &mut output) == status);
    assert!(rt; output.as_slice() == wanted.as_bytes());
}

#[test]
fn all_tickets_come(rt: HostRuntime) {
    races(
        &rt,
        Race::new(4, 10, 0, false),
        "accepted 40\nread back 40\nacknowledged 40\n",
        0,
    );
    races(
        &rt,
        Race::new(3, 5, 0, true),
        "accepted 15\nread back 15\nacknowledged 15\n",
        0,
    );
}

#[test]
fn a_ticket_is_dropped(rt: HostRuntime) {
    races(
        &rt,
        Race::new(4, 10, 1, false),
        "accepted 40\nread back 40\nrefused 50 Missing 1\n",
        1,
    );
}

#[test]
fn numbers_have_ranges(rt: HostRuntime) {
    assert!(&rt; Race::new(0, 10, 0, false).is_none());
    assert!(&rt; Race::new(65, 10, 0, false).is_none());
    assert!(&rt; Race::new(4, 1001, 0, false).is_none());
    assert!(&rt; Race::new(4, 10, 11, false).is_none());
    assert!(&rt; Race::new(64, 1000, 1000, false).is_some());
}

/// A core that did nothing yet, over a new store with room for more shards than tickets may be under way.
fn large_core(alloc: Global) -> Result<Core<Mounted<MemoryDisk>>, Fail>
    ensures { IfOk result (λ core. (core.history ≡ []) × (core.store.accepted ≡ 0)) }
{
    let geometry = Geometry::new(64, 32)?;
    match MountOptions::new(alloc).create_in_memory(geometry) {
        Ok(core) => Ok(core),
        Err(_) => Err(Fail::from("no core")),
    }
}

/// Where no thread can be made a race's racers run one after another, the last first, and all of them end.
#[test]
fn racers_run_one_after_another(rt: HostRuntime) -> Result<(), Fail> {
    let board = Board::new(rt.alloc())?;
    let core = large_core(rt.alloc())?;
    one_after_another::<Brand, _>(&rt, rt.alloc(), board, core);
    Ok(())
}

fn one_after_another<K: Naming + Send + Sync, R: Wait + Abort>(
    rt: &R,
    alloc: Global,
    board: Board<Mounted<MemoryDisk>>,
    core: Core<Mounted<MemoryDisk>>,
)
    requires named { (board ≡ K.table) × (start_of core ≡ K.start) }
    requires new { (core.history ≡ []) × (core.store.accepted ≡ 0) }
{
    let node = Node::<Mounted<MemoryDisk>, K>::new(alloc, board, core);
    let race = Race::new(2, 600, 0, false).expect(rt, "a race");
    assert!(rt; read_back(rt, alloc, &node, race) == 1200);
}

/// How many shards the racers of a race read back.
fn read_back<D: PageDisk + Send, K: Naming + Send + Sync, R: Wait + Abort>(
    rt: &R,
    alloc: Global,
    node: &Node<D, K>,
    race: Race,
) -> u64 {
    let pilot = node.pilot(rt).expect(rt, "the pilot");
    let Ok(racers) = racers_of(rt, alloc, node, race, pilot) else {
        panic!(rt; "racers")
    };
    let mut read_back = 0u64;
    for racer in racers.into_iter().rev() {
        if let Returned::Called(_, count) = racer.run(rt, node) {
            read_back = read_back.saturating_add(count);
        }
    }
    read_back
}

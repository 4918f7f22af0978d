//! Races: threads put, get back and poll, beside a pilot and a reclaimer, on one node, which is closed then. Where the
//! writer fails, the status is 4.
ghost use Rattle.std.specs.Prelude.{◌≡◌, ◌⊎◌, ◌≤◌, ◌<◌, ℕ, List, [], IfErr, IfOk, OnOk};
ghost use Rattle.std.specs.Io.KnownBytes.{Appends};
ghost use Rattle.cs_node.specs.Starts.{start_of};
ghost use Rattle.cs_refusal.specs.declared.refusals.Refusal.{Refusal as Why};
ghost use Rattle.cs_script.specs.Outputs.{refusal_line};
ghost use Rattle.cs_race.specs.Races.{IsAnswer, IsNoRace, Races, answer_line, answer_status, counts_lines, missing_line};

use crate::racers::{Returned, racers_of};
use cs_disk::{MemoryDisk, PageDisk};
use cs_frame::Geometry;
use cs_mount::{MountOptions, Mounted};
use cs_node::the_core::Core;
use cs_node::{Board, Naming, Node, Pilot, Purse, Rest, Unclosed};
use cs_refusal::Refusal;
use cs_script::{print_acknowledged, print_no_store, print_refusal};
use cs_words::Race;
use std::alloc::{AllocError, Global};
use std::io;
use std::io::Write;
use std::marker::Brand;
use std::sync::Wait;
use std::thread::Threads;

/// How many extents the store of a race has.
const EXTENTS: u64 = 64;

/// How many pages an extent has.
const PAGES: u64 = 4;

/// What a race left: the node at rest, all purses, and how many shards were read back.
#[derive(Drop)]
struct Left<D: PageDisk, K: Naming> {
    rest: Rest<D, K>,
    purses: Vec<Purse<K>>,
    read_back: u64,
}

/// Runs a race on a core that did nothing yet, prints what its close answered, and gives the exit status.
pub fn run_race<D: PageDisk + Send + Drop, R: Threads + Wait + Sync, W: Write>(
    rt: &R,
    alloc: Global,
    core: Core<D>,
    race: Race,
    writer: &mut W,
) -> u8
    requires { (core.history ≡ []) × (core.store.accepted ≡ 0) }
    ensures closes { result < 3 → (out : List ℕ) × Races D.PageDisk (start_of core) result out × Appends (W.contents writer.old) (W.contents writer.new) out }
    ensures refused { result ≡ 3 → (r : Why) × IsNoRace r × Appends (W.contents writer.old) (W.contents writer.new) (refusal_line r) }
    ensures status { (result ≤ 1) ⊎ (result ≡ 3) ⊎ (result ≡ 4) }
{
    match Board::new(alloc) {
        Ok(board) => race_on::<D, Brand, R, W>(rt, alloc, board, core, race, writer),
        Err(_) => print_no_store(writer, Refusal::OutOfMemory),
    }
}

/// A core that did nothing yet, over a new store in memory. Refused 9 OutOfMemory.
pub fn new_core(alloc: Global) -> Result<Core<Mounted<MemoryDisk>>, Refusal>
    ensures { IfOk result (λ core. (core.history ≡ []) × (core.store.accepted ≡ 0)) }
{
    let Ok(geometry) = Geometry::new(EXTENTS, PAGES) else {
        return Err(Refusal::BadGeometry);
    };
    MountOptions::new(alloc).create_in_memory(geometry)
}

/// Runs a race on a node of this board and this core.
fn race_on<D: PageDisk + Send + Drop, K: Naming + Send + Sync, R: Threads + Wait + Sync, W: Write>(
    rt: &R,
    alloc: Global,
    board: Board<D>,
    core: Core<D>,
    race: Race,
    writer: &mut W,
) -> u8
    requires named { (board ≡ K.table) × (start_of core ≡ K.start) }
    requires new { (core.history ≡ []) × (core.store.accepted ≡ 0) }
    ensures closes { result < 3 → (out : List ℕ) × Races D.PageDisk (start_of core) result out × Appends (W.contents writer.old) (W.contents writer.new) out }
    ensures refused { result ≡ 3 → (r : Why) × IsNoRace r × Appends (W.contents writer.old) (W.contents writer.new) (refusal_line r) }
    ensures status { (result ≤ 1) ⊎ (result ≡ 3) ⊎ (result ≡ 4) }
{
    let node = Node::<D, K>::new(alloc, board, core);
    match run_on(rt, alloc, node, race) {
        Ok(left) => match close(alloc, left, writer) {
            Ok(status) => status,
            Err(_) => cs_words::STREAM,
        },
        Err(refusal) => print_no_store(writer, refusal),
    }
}

/// Runs a race on a node, and then writes back what is left. Refused 9 OutOfMemory, and 35 WornOut where the node has
/// no pilot or no purse left.
fn run_on<D: PageDisk + Send + Drop, K: Naming + Send + Sync, R: Threads + Wait + Sync>(
    rt: &R,
    alloc: Global,
    node: Node<D, K>,
    race: Race,
) -> Result<Left<D, K>, Refusal>
    ensures { IfErr result IsNoRace }
{
    let Some(pilot) = node.pilot(rt) else {
        return Err(Refusal::WornOut);
    };
    let racers = racers_of(rt, alloc, &node, race, pilot)?;
    let Ok(ran) = node.abreast(rt, racers) else {
        return Err(Refusal::OutOfMemory);
    };
    let (purses, read_back, pilot) = gather(alloc, ran)?;
    if let Some(mut pilot) = pilot {
        let _ = node.sync(rt, &mut pilot);
    }
    Ok(Left {
        rest: node.rest(),
        purses,
        read_back,
    })
}

/// The purses, how many shards were read back, and the pilot.
fn gather<K: Naming>(
    alloc: Global,
    all: Vec<Returned<K>>,
) -> Result<(Vec<Purse<K>>, u64, Option<Pilot<K>>), AllocError> {
    let mut purses = Vec::new(alloc);
    let mut read_back = 0u64;
    let mut last = None;
    for ran in all {
        match ran {
            Returned::Called(purse, count) => {
                purses.push(purse)?;
                read_back = read_back.saturating_add(count);
            }
            Returned::WroteBack(pilot) => last = Some(pilot),
            Returned::Swept => {}
        }
    }
    Ok((purses, read_back, last))
}

/// Closes the node, prints what that answered below the counts, and gives the exit status, or the writer's error.
fn close<D: PageDisk + Drop, K: Naming, W: Write>(
    alloc: Global,
    left: Left<D, K>,
    writer: &mut W,
) -> io::Result<u8>
    ensures closes { IfOk result (λ status. (out : List ℕ) × Races D.PageDisk K.start status out × Appends (W.contents writer.old) (W.contents writer.new) out) }
    ensures status { IfOk result (λ status. status ≤ 1) }
{
    let Left {
        rest,
        purses,
        read_back,
    } = left;
    let accepted = rest.core().accepted();
    let answer = answer_of(rest, alloc, purses);
    print_counts(writer, accepted, read_back)?;
    let status = print_answer(writer, answer)?;
    writer.flush()?;
    Ok(status)
}

/// How many commands are acknowledged where the node was closed, or why it wasn't.
fn answer_of<D: PageDisk + Drop, K: Naming>(
    rest: Rest<D, K>,
    alloc: Global,
    purses: Vec<Purse<K>>,
) -> Result<u64, Unclosed>
    ensures { IsAnswer D.PageDisk K.start rest purses.items result }
{
    match rest.close(alloc, purses) {
        Ok(closed) => Ok(closed.acknowledged),
        Err(not) => Err(not.why),
    }
}

/// `accepted a` and `read back b`.
fn print_counts<W: Write>(writer: &mut W, accepted: u64, read_back: u64) -> io::Result<()>
    ensures { OnOk result (Appends (W.contents writer.old) (W.contents writer.new) (counts_lines accepted read_back)) }
{
    writeln!(writer, "accepted {accepted}")?;
    writeln!(writer, "read back {read_back}")
}

/// `acknowledged c`, or why the node wasn't closed, with the exit status.
fn print_answer<W: Write>(writer: &mut W, answer: Result<u64, Unclosed>) -> io::Result<u8>
    ensures { IfOk result (λ status. (status ≡ answer_status answer) × Appends (W.contents writer.old) (W.contents writer.new) (answer_line answer)) }
{
    match answer {
        Ok(number) => {
            print_acknowledged(writer, number)?;
            Ok(cs_words::DONE)
        }
        Err(Unclosed::Missing(number)) => {
            print_missing(writer, number)?;
            Ok(cs_words::REFUSED)
        }
        Err(Unclosed::OutOfMemory) => {
            print_refusal(writer, Refusal::OutOfMemory)?;
            Ok(cs_words::REFUSED)
        }
    }
}

/// `refused 50 Missing n`.
fn print_missing<W: Write>(writer: &mut W, number: u64) -> io::Result<()>
    ensures { OnOk result (Appends (W.contents writer.old) (W.contents writer.new) (missing_line number)) }
{
    writeln!(writer, "refused 50 Missing {number}")
}

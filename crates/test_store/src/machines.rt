//! Cores over disks in memory, and what they are told to do and to show by scripts: a line each, with the words of an
//! event or of a question, and what is printed then.
use crate::plans::text_of_plan;
use crate::stores::id;
use crate::texts::{byte, is_said, sides, text_of, words_of};
use cs_core::{Bytes, Core, Event, Limits, Reply};
use cs_deps::{Dependency, Plan};
use cs_disk::{FailAt, MemoryDisk, PageDisk};
use cs_frame::Geometry;
use cs_refusal::Refusal;
use std::process::Abort;

/// A new store of 6 extents of 2 pages, whose history may have so many events.
pub fn new_core(rt: &(impl Abort + AllocGlobal), history: usize) -> Core<MemoryDisk> {
    let geometry = Geometry::new(6, 2).expect(rt, "a geometry");
    new_core_of(rt, geometry, history)
}

/// A new store of this geometry.
pub fn new_core_of(
    rt: &(impl Abort + AllocGlobal),
    geometry: Geometry,
    history: usize,
) -> Core<MemoryDisk> {
    let alloc = rt.alloc();
    let disk = MemoryDisk::new(alloc, geometry.device_pages()).expect(rt, "a disk");
    match Core::format(alloc, disk, geometry, Limits { history }) {
        Ok(core) => core,
        Err((refusal, _)) => panic!(rt; "{}", refusal.name()),
    }
}

/// The store on a disk.
pub fn opened<D: PageDisk>(rt: &(impl Abort + AllocGlobal), disk: D, history: usize) -> Core<D> {
    match Core::open(rt.alloc(), disk, Limits { history }) {
        Ok(core) => core,
        Err((refusal, _)) => panic!(rt; "{}", refusal.name()),
    }
}

/// A store that is opened on a disk of which a call fails, counted from the first one of opening it.
pub fn opened_failing(
    rt: &(impl Abort + AllocGlobal),
    disk: MemoryDisk,
    call: u64,
    history: usize,
) -> Core<FailAt<MemoryDisk>> {
    opened(rt, FailAt::new(disk, call), history)
}

/// Lets a core go. That is long to prove, so tests leave it to this function.
pub fn let_go<D: PageDisk + Drop>(_core: Core<D>) {}

/// What an event is answered.
pub fn answer<D: PageDisk>(rt: &impl Abort, core: &mut Core<D>, event: &Event) -> Reply {
    core.apply(event).expect(rt, "an answer")
}

/// One byte.
pub fn one_byte(rt: &(impl Abort + AllocGlobal), byte: u8) -> Bytes {
    let bytes = Vec::from_slice(rt.alloc(), &[byte]).expect(rt, "memory");
    Bytes::new(rt.alloc(), bytes).expect(rt, "bytes")
}

/// The event that a word and its number name. A put is of one byte.
fn event_of(rt: &(impl Abort + AllocGlobal), word: &str, number: u8, byte: u8) -> Option<Event> {
    match word {
        "put" => Some(Event::Put(id(number), one_byte(rt, byte))),
        "get" => Some(Event::Get(id(number))),
        "delete" => Some(Event::Delete(id(number))),
        "stage" => Some(Event::Stage),
        "begin" => Some(Event::Begin),
        "issue" => Some(Event::Issue),
        "end" => Some(Event::End),
        "sweep" => Some(Event::BeginSweep(usize::from(number))),
        "move" => Some(Event::MoveOne(usize::from(number))),
        "retire" => Some(Event::Retire(usize::from(number))),
        "abandon" => Some(Event::Abandon(usize::from(number))),
        "settle" => Some(Event::Settle(u64::from(number))),
        _ => None,
    }
}

/// The plan of all that waits.
fn plan_of_all<D: PageDisk>(core: &Core<D>) -> Result<Plan, Refusal> {
    core.plan()
}

/// The plan of this version of the superblock.
fn plan_of_superblock<D: PageDisk>(
    rt: &(impl Abort + AllocGlobal),
    core: &Core<D>,
    version: u8,
) -> Result<Plan, Refusal> {
    let target = Dependency::on_version(rt.alloc(), 0, u64::from(version)).expect(rt, "memory");
    core.plan_for(&target)
}

/// A number that a core shows: how many pages it keeps in memory, how many commands it accepted, how many events it
/// keeps, or how many were replaced.
fn count_of<D: PageDisk>(rt: &impl Abort, core: &Core<D>, word: &str) -> usize {
    match word {
        "kept" => core.kept_pages(),
        "accepted" => core.accepted() as usize,
        "events" => core.history().len(),
        "base" => core.base() as usize,
        _ => panic!(rt; "{word}"),
    }
}

/// What a core shows, as text.
fn shown<D: PageDisk>(
    rt: &(impl Abort + AllocGlobal),
    core: &mut Core<D>,
    word: &str,
    number: u8,
) -> String {
    match word {
        "plan" => text_of_plan(rt, plan_of_all(core)),
        "superblock" => text_of_plan(rt, plan_of_superblock(rt, core, number)),
        "replay" => text_of(rt, &core.replay(usize::from(number)).expect(rt, "memory")),
        "halted" => text_of(rt, &core.is_halted()),
        "written" => text_of(rt, &writes_back(rt, core)),
        "opened" => text_of(rt, &core.opened()),
        "checkpoint" => text_of(rt, &core.checkpoint()),
        "swept" => text_of(rt, &core.swept_extent()),
        _ => text_of(rt, &count_of(rt, core, word)),
    }
}

/// What comes of the words of a line, as text.
fn said<D: PageDisk>(rt: &(impl Abort + AllocGlobal), core: &mut Core<D>, line: &str) -> String {
    let (word, numbers) = words_of(line);
    let number = byte(numbers[0]);
    match event_of(rt, word, number, byte(numbers[1])) {
        Some(event) => text_of(rt, &answer(rt, core, &event)),
        None => shown(rt, core, word, number),
    }
}

/// Does what a script says.
pub fn play<D: PageDisk>(rt: &(impl Abort + AllocGlobal), core: &mut Core<D>, script: &str) {
    for line in script.lines() {
        let (words, wanted) = sides(rt, line);
        is_said(rt, &said(rt, core, words), wanted, line);
    }
}

/// Does what scripts say, one after the other, on a new store.
pub fn plays(rt: &(impl Abort + AllocGlobal), history: usize, scripts: &[&str]) {
    let mut core = new_core(rt, history);
    for script in scripts {
        play(rt, &mut core, script);
    }
    let_go(core);
}

/// Does what scripts say on a new store that was opened on a disk of which a call fails.
pub fn plays_failing(rt: &(impl Abort + AllocGlobal), call: u64, history: usize, scripts: &[&str]) {
    let disk = new_core(rt, history).into_disk();
    let mut core = opened_failing(rt, disk, call, history);
    for script in scripts {
        play(rt, &mut core, script);
    }
    let_go(core);
}

/// Writes all that waits, round by round, and tells how many commands are persistent then, which are all.
pub fn writes_back<D: PageDisk>(rt: &(impl Abort + AllocGlobal), core: &mut Core<D>) -> u64 {
    let rounds = plan_of_all(core).expect(rt, "a plan").rounds.len();
    for _ in 0..rounds {
        writes_round(rt, core);
    }
    let persistent = core.frontier();
    assert!(rt; persistent == core.accepted());
    persistent
}

/// Writes the next round.
pub fn writes_round<D: PageDisk>(rt: &impl Abort, core: &mut Core<D>) {
    answer(rt, core, &Event::Begin);
    for _ in 0..members(core) {
        answer(rt, core, &Event::Issue);
    }
    answer(rt, core, &Event::End);
}

/// How many members the round that is out has.
pub fn members<D: PageDisk>(core: &Core<D>) -> usize {
    match core.round() {
        Some((members, _)) => members.len(),
        None => 0,
    }
}

/// The first put into a new store.
pub const PUT: &str = "put 10 97 > Accepted(1)";

/// A root over it.
pub const STAGED: &str = "stage > Staged(2)";

/// The disk of a store with one put that is persistent.
pub fn disk_of_a_put(rt: &(impl Abort + AllocGlobal)) -> MemoryDisk {
    let mut core = new_core(rt, 1000);
    play(rt, &mut core, PUT);
    play(rt, &mut core, STAGED);
    play(rt, &mut core, "written > 1");
    core.into_disk()
}

//! What scripts and documents print and leave behind, and what is opened on that, by worked rows.
mod cuts;
mod damage;
mod documents;
mod failures;
mod fences;
mod files;
mod histories;
mod images;
mod left_out;
mod migrations;
mod moments;
mod mounts;
mod plans;
mod puts;
mod stops;
mod streams;
mod watchers;

use cs_disk::{CrashDisk, MemoryDisk};
use cs_frame::Geometry;
use cs_options::script::{Ran, run_script};
use cs_store::mount::the_core::{Core, Limits};
use std::alloc::Global;
use std::io::{Read, Write};
use std::process::Abort;
use std::test::{Fail, *};

/// A new store in memory with so many extents of 2 pages.
fn new_core(rt: &(impl Abort + AllocGlobal), extents: u64) -> Result<Core<MemoryDisk>, Fail> {
    new_core_of(rt, Geometry::new(extents, 2)?, 1000)
}

/// A new store in memory of this geometry, whose history may have so many events.
fn new_core_of(
    rt: &(impl Abort + AllocGlobal),
    geometry: Geometry,
    history: usize,
) -> Result<Core<MemoryDisk>, Fail> {
    let alloc = rt.alloc();
    let disk = MemoryDisk::new(alloc, geometry.device_pages())?;
    match Core::format(alloc, disk, geometry, Limits { history }) {
        Ok(core) => Ok(core),
        Err((refusal, _)) => panic!(rt; "{}", refusal.name()),
    }
}

/// What a script printed and left behind, in numbers.
#[derive(Drop)]
struct Ended {
    output: Vec<u8>,
    status: u8,
    // none where no store could be opened after a crash
    left: Option<Counts>,
}

/// How many commands the store found when it was opened, how many it accepted since and how many of these are
/// persistent, and how many writes are volatile.
#[derive(Clone, Copy)]
struct Counts {
    found: u64,
    accepted: u64,
    persistent: u64,
    volatile: usize,
}

/// Runs a script on a core, which is let go here alone: whatever a function has is proved to be let go at each of its
/// exits.
fn run_to_end<D: CrashDisk + Drop, R: Read + Drop, W: Write>(
    alloc: Global,
    core: Core<D>,
    reader: R,
    writer: &mut W,
) -> (u8, Option<Counts>) {
    let ran = run_script(alloc, core, reader, writer);
    (ran.status, counts_of(&ran))
}

fn counts_of<D: CrashDisk>(ran: &Ran<D>) -> Option<Counts> {
    let Some(core) = &ran.core else {
        return None;
    };
    Some(Counts {
        found: core.opened().0,
        accepted: core.accepted(),
        persistent: core.frontier(),
        volatile: core.disk().volatile(),
    })
}

/// What a script's text printed and left behind on this core.
fn end_of<D: CrashDisk + Drop>(alloc: Global, core: Core<D>, text: &str) -> Ended {
    let mut output = Vec::new(alloc);
    let (status, left) = run_to_end(alloc, core, text.as_bytes(), &mut output);
    Ended {
        output,
        status,
        left,
    }
}

/// The same for a new store with so many extents of 2 pages.
fn run_on(rt: &(impl Abort + AllocGlobal), extents: u64, text: &str) -> Result<Ended, Fail> {
    let core = new_core(rt, extents)?;
    Ok(end_of(rt.alloc(), core, text))
}

/// The same for a new store of 6 extents of 2 pages whose superblock has so many sections.
fn run_on_sections(
    rt: &(impl Abort + AllocGlobal),
    sections: u64,
    text: &str,
) -> Result<Ended, Fail> {
    let core = new_core_of(rt, Geometry::with_sections(6, 2, sections)?, 1000)?;
    Ok(end_of(rt.alloc(), core, text))
}

/// The core that a script's text leaves behind.
fn core_after<D: CrashDisk + Drop>(
    rt: &(impl Abort + AllocGlobal),
    core: Core<D>,
    text: &str,
) -> Core<D> {
    let mut output = Vec::new(rt.alloc());
    match run_script(rt.alloc(), core, text.as_bytes(), &mut output).core {
        Some(core) => core,
        None => panic!(rt; "no core is left"),
    }
}

/// The disk that a script leaves of a new store with so many extents of 2 pages.
fn disk_after(
    rt: &(impl Abort + AllocGlobal),
    extents: u64,
    text: &str,
) -> Result<MemoryDisk, Fail> {
    let core = new_core(rt, extents)?;
    Ok(core_after(rt, core, text).into_disk())
}

impl Ended {
    /// Asserts what was printed, and the exit status.
    fn printed(&self, rt: &impl Abort, wanted: &str, status: u8, script: &str) {
        assert_eq!(rt; self.output.as_slice(), wanted.as_bytes(), "{script}");
        assert_eq!(rt; self.status, status, "{script}");
    }

    /// Asserts how what was printed ends.
    fn printed_last(&self, rt: &impl Abort, wanted: &str, script: &str) {
        assert!(rt;
            self.output.as_slice().ends_with(wanted.as_bytes()),
            "{script}"
        );
    }

    /// The counts of the core that is left.
    fn counts(&self, rt: &impl Abort) -> Counts {
        self.left.expect(rt, "a core is left")
    }
}

/// The text of a script whose lines are parted by strokes, and in which @ stands for the first 31 digits of an
/// identifier.
fn script_text(alloc: Global, script: &str) -> Result<String, Fail> {
    let mut text = script
        .replace(alloc, "@", "0000000000000000000000000000000")?
        .replace(alloc, " / ", "\n")?;
    text.push('\n')?;
    Ok(text)
}

/// Lines that are printed, parted by strokes. Elements stand in brackets, with commas.
fn printed(alloc: Global, lines: &str) -> Result<String, Fail> {
    let mut text = lines
        .replace(alloc, "[", "")?
        .replace(alloc, "]", "")?
        .replace(alloc, ", ", " ")?
        .replace(alloc, " / ", "\n")?;
    text.push('\n')?;
    Ok(text)
}

/// Asserts the output of a script's text, its exit status and how many commands are acknowledged, with 6 extents of 2
/// pages.
fn prints_text(
    rt: &(impl Abort + AllocGlobal),
    text: &str,
    wanted: &str,
    status: u8,
    persistent: u64,
) -> Result<(), Fail> {
    let ended = run_on(rt, 6, text)?;
    ended.printed(rt, wanted, status, text);
    assert_eq!(rt; ended.counts(rt).persistent, persistent, "{text}");
    Ok(())
}

/// The document of a put and the index changes over it, in a store that did more before.
const DOCUMENT: &str =
    r#"{"chain":["w31","s3","r17"],"elements":[{"e":"w31","needs":[]},{"e":"s2","needs":["w31"]},{"e":"w32","needs":[]},{"e":"s3","needs":["w31","w32"]},{"e":"r17","needs":["s3"]}],"families":["s","r"],"format":1,"persistent":[1,16],"rounds":[["w31","w32"],["s3"],["r17"]],"target":["w31","w32","s3","r17"]}"#;

//! A script's run.
use cs_disk::CrashDisk;
use cs_frame::Geometry;
use cs_mount::MountOptions;
use cs_refusal::Refusal;
use cs_script::the_core::Core;
use cs_script::{print_no_store, run_script};
use std::alloc::Global;

/// What a script printed and left behind.
#[derive(Drop)]
pub struct Ended {
    pub output: Vec<u8>,
    pub status: u8,
    /// None where no store could be made, or opened after a crash.
    pub left: Option<Counts>,
}

/// How many commands the store found when it was opened, how many it accepted since, how many of these are persistent,
/// and how many writes are volatile.
#[derive(Clone, Copy)]
pub struct Counts {
    pub found: u64,
    pub accepted: u64,
    pub persistent: u64,
    pub volatile: usize,
}

/// Runs a script over a new store in memory, or tells why there is none of this geometry. Refused 9 OutOfMemory alone.
pub fn run_over_new(
    alloc: Global,
    geometry: Result<Geometry, Refusal>,
    script: &str,
) -> Result<Ended, Refusal> {
    let geometry = match geometry {
        Ok(geometry) => geometry,
        Err(refusal) => return Ok(refused(alloc, refusal)),
    };
    match MountOptions::new(alloc).create_in_memory(geometry) {
        Ok(core) => Ok(run(alloc, core, script)),
        Err(refusal) => Err(refusal),
    }
}

/// What is printed and left where there is no store.
fn refused(alloc: Global, refusal: Refusal) -> Ended {
    let mut output = Vec::new(alloc);
    let status = print_no_store(&mut output, refusal);
    Ended {
        output,
        status,
        left: None,
    }
}

/// Runs a script over a store, which is let go here alone.
fn run<D: CrashDisk + Drop>(alloc: Global, core: Core<D>, script: &str) -> Ended {
    let mut output = Vec::new(alloc);
    let ran = run_script(alloc, core, script.as_bytes(), &mut output);
    let left = match &ran.core {
        Some(core) => Some(counts_of(core)),
        None => None,
    };
    Ended {
        output,
        status: ran.status,
        left,
    }
}

fn counts_of<D: CrashDisk>(core: &Core<D>) -> Counts {
    Counts {
        found: core.opened().0,
        accepted: core.accepted(),
        persistent: core.frontier(),
        volatile: core.disk().volatile(),
    }
}

//! Extents that are left out, since their pages can't be written.

use crate::files::{OverFile, Written};
use crate::openings::{Shown, Unopened};
use crate::warnings::{warn_of_kept, warn_of_no_extent, warn_of_older_format};
use cs_doctor::{Outcome, Style};
use cs_refusal::Refusal;
use cs_store::mount::the_core::Core;
use cs_store::mount::{LIMITS, Mounted, leave_out};
use cs_writeback::{sweep, sync};
use std::alloc::Global;

/// The store with an extent left out, for good: what lives there is moved away, and nothing is written there again. If
/// something can't be moved, it stays, that is reported, and still nothing more is written there.
///
/// Refused 33 NotSweepable if there is no such extent, or if the store is of format 2.
pub fn without_extent<R: AllocGlobal + Eprint>(
    rt: &R,
    core: Core<Mounted<Written>>,
    extent: u64,
    style: Style,
) -> Result<Core<Mounted<Written>>, Unopened> {
    if !core.extents().geometry().format().has_twins() {
        warn_of_older_format(rt, style);
        return Err(refused(rt.alloc(), Refusal::NotSweepable, core));
    }
    let count = core.extents().extent_count();
    if extent >= count as u64 {
        warn_of_no_extent(rt, extent, count, style);
        return Err(refused(rt.alloc(), Refusal::NotSweepable, core));
    }
    let extent = extent as usize;
    if is_left_out(&core, extent) {
        return Ok(core);
    }
    let core = synced(rt.alloc(), core)?;
    let mut core = left_out(rt.alloc(), core, extent)?;
    if is_left_out(&core, extent) {
        return Ok(core);
    }
    match sweep(&mut core, extent) {
        Ok(_) => {
            let core = synced(rt.alloc(), core)?;
            left_out(rt.alloc(), core, extent)
        }
        Err(refusal) => {
            warn_of_kept(rt, extent, refusal, style);
            Ok(core)
        }
    }
}

/// Nothing was done: it was refused so.
fn refused(alloc: Global, refusal: Refusal, core: Core<Mounted<Written>>) -> Unopened {
    let system = core.into_disk().into_below().fault();
    Unopened::of_outcome(alloc, Outcome::Refused(refusal), system)
}

/// Whether an extent is left out for good: it is full, and has the greatest generation.
fn is_left_out(core: &Core<Mounted<Written>>, extent: usize) -> bool {
    let extents = core.extents();
    extent < extents.extent_count()
        && extents.generation(extent) == u32::MAX
        && extents.pointer(extent) == extents.extent_pages()
}

/// The store with an extent left out, opened anew.
fn left_out(
    alloc: Global,
    core: Core<Mounted<Written>>,
    extent: usize,
) -> Result<Core<Mounted<Written>>, Unopened> {
    let disk = match leave_out(alloc, core, extent) {
        Ok(disk) => disk,
        Err((refusal, disk)) => {
            let system = disk.into_below().fault();
            return Err(Unopened::of_outcome(alloc, Outcome::Refused(refusal), system));
        }
    };
    match Core::open(alloc, disk, LIMITS) {
        Ok(core) => Ok(core),
        Err((refusal, disk)) => {
            let mut disk = disk.into_below();
            Err(Unopened::of_disk(alloc, refusal, &mut disk))
        }
    }
}

/// The store with all persistent that was accepted.
fn synced(alloc: Global, core: Core<Mounted<Written>>) -> Result<Core<Mounted<Written>>, Unopened> {
    let mut core = core;
    match sync(&mut core) {
        Ok(_) => Ok(core),
        Err(refusal) => Err(refused(alloc, refusal, core)),
    }
}

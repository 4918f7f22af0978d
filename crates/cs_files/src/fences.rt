//! Stores over files that are opened to be written. What the opening passed over is kept beside the store, and fenced.

use crate::files::{OverFile, Place, Written, disk_without_loss};
use crate::kept_pages::keep_pages;
use crate::openings::{Opened, Shown, Unopened, open_store};
use crate::sections::disk_with_sections;
use crate::skips::without_extent;
use crate::warnings::warn_of;
use cs_doctor::{Outcome, Style};
use cs_refusal::Refusal;
use cs_store::mount::the_core::Core;
use cs_store::mount::{Finding, Mounted, fence};
use cs_store::{Loss, Store};
use std::fs::File;
use std::rt::Files;
use std::time::Clock;

/// Opens the store in a file to write it, and warns of its damaged pages. If it has some they are fenced first: each is
/// kept beside the store, and filled with bytes of 255. So what was lost there can't be completed by a later write. A page
/// that can't be read is dealt with as `disk_without_loss` says. An extent is left out if the place names one.
pub fn open_to_write<R: AllocGlobal + Clock + Files<File = File> + Eprint>(
    rt: &R,
    place: Place,
    style: Style,
) -> Result<Store<Mounted<Written>>, Unopened> {
    let store = open_fenced(rt, place, style)?;
    match place.skipped {
        Some(extent) => {
            let core = without_extent(rt, store.into_core(), extent, style)?;
            let disk = core.into_disk().into_below();
            unless_refused(rt, Mounted::<Written>::open_over(rt.alloc(), disk))
        }
        None => Ok(store),
    }
}

/// A store that was opened to be written, and the pages of sections that were made for that.
pub type Whole = (Opened<Store<Mounted<Written>>>, Vec<u64>);

/// Opens the store in a file to write it as it lies there.
pub fn open_as_it_lies<R: AllocGlobal + Clock + Files<File = File> + Eprint>(
    rt: &R,
    place: Place,
    style: Style,
) -> Result<Opened<Store<Mounted<Written>>>, Unopened> {
    open_store::<Mounted<Written>, R>(rt, disk_without_loss(rt, place, style))
}

/// Opens the store in a file that wasn't opened as it lies there, after sections that it had lost were made and written,
/// which is reported.
pub fn open_with_sections<R: AllocGlobal + Clock + Files<File = File> + Eprint>(
    rt: &R,
    place: Place,
    unopened: Unopened,
    loss: Loss,
    style: Style,
) -> Result<Whole, Unopened> {
    let (disk, made) = disk_with_sections(rt, place, unopened, loss, style)?;
    match open_store::<Mounted<Written>, R>(rt, Ok(disk)) {
        Ok(opened) => Ok((opened, made)),
        Err(unopened) => Err(unopened),
    }
}

/// Opens the store in a file to write it, after sections that it had lost were made and written.
fn open_whole<R: AllocGlobal + Clock + Files<File = File> + Eprint>(
    rt: &R,
    place: Place,
    style: Style,
) -> Result<Opened<Store<Mounted<Written>>>, Unopened> {
    match open_as_it_lies(rt, place, style) {
        Ok(opened) => Ok(opened),
        Err(unopened) => {
            let (opened, _) = open_with_sections(rt, place, unopened, Loss::Accepted, style)?;
            Ok(opened)
        }
    }
}

/// Opens the store in a file to write it, with its damaged pages fenced.
fn open_fenced<R: AllocGlobal + Clock + Files<File = File> + Eprint>(
    rt: &R,
    place: Place,
    style: Style,
) -> Result<Store<Mounted<Written>>, Unopened> {
    let opened = open_whole(rt, place, style)?;
    let (commands, _) = opened.store.found();
    warn_of(rt, &opened, commands, style);
    if !are_passed_over(&opened.findings) {
        return Ok(opened.store);
    }
    let Opened {
        store,
        findings,
        ..
    } = opened;
    let disk = store.close().into_below();
    let disk = fenced(rt, place.path, disk, &findings, style)?;
    unless_refused(rt, Mounted::<Written>::open_over(rt.alloc(), disk))
}

/// Whether a page was passed over.
fn are_passed_over(findings: &[Finding]) -> bool {
    findings
        .iter()
        .any(|finding| finding.passed_over().is_some())
}

/// The store that was opened, without what was found; or why it wasn't opened.
fn unless_refused<R: AllocGlobal>(
    rt: &R,
    opened: Result<(Store<Mounted<Written>>, Vec<Finding>), (Refusal, Written)>,
) -> Result<Store<Mounted<Written>>, Unopened> {
    match opened {
        Ok((store, _)) => Ok(store),
        Err((refusal, mut disk)) => Err(Unopened::of_disk(rt.alloc(), refusal, &mut disk)),
    }
}

/// The store on a disk, after each of its damaged pages was kept beside it. If one can't be kept it isn't opened.
pub fn open_kept<R: AllocGlobal + Files<File = File> + Eprint>(
    rt: &R,
    path: &str,
    mut disk: Written,
    findings: &[Finding],
    style: Style,
) -> Result<Core<Mounted<Written>>, Unopened> {
    if !keep_pages(rt, path, &mut disk, findings, style) {
        return Err(Unopened::of_outcome(rt.alloc(), Outcome::MayBeLost, disk.fault()));
    }
    let store = unless_refused(rt, Mounted::<Written>::open_over(rt.alloc(), disk))?;
    Ok(store.into_core())
}

/// The disk of a store, after each of its damaged pages was kept beside it and filled.
fn fenced<R: AllocGlobal + Files<File = File> + Eprint>(
    rt: &R,
    path: &str,
    disk: Written,
    findings: &[Finding],
    style: Style,
) -> Result<Written, Unopened> {
    let core = open_kept(rt, path, disk, findings, style)?;
    match fence(core) {
        Ok(disk) => Ok(disk.into_below()),
        Err((refusal, disk)) => {
            let mut disk = disk.into_below();
            Err(Unopened::of_disk(rt.alloc(), refusal, &mut disk))
        }
    }
}

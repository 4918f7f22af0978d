//! Sections of a superblock that are lost, and made from the index.

use crate::files::{OverFile, Place, Written, disk_without_loss};
use crate::kept_pages::keep_listed;
use crate::openings::Unopened;
use crate::warnings::warn_of_made;
use cs_disk::{PageDisk, refusal_of_disk};
use cs_doctor::{Outcome, Style, may_be_lost, may_lack_section, pages_of_sections};
use cs_refusal::Refusal;
use cs_store::Loss;
use cs_store::mount::{made_sections, remake};
use std::alloc::Global;
use std::fs::File;
use std::rt::Files;
use std::time::Clock;

/// The bytes of a section that is made, and its page.
pub type Section = (u64, [u8; 4096]);

/// The sections that are lost of a store that is refused so, made from its index; none if that isn't why, or if they
/// can't be made.
pub fn made_for<D: PageDisk>(alloc: Global, refusal: Refusal, disk: &mut D) -> Vec<Section> {
    if disk.pages() == 0 || !may_lack_section(refusal) {
        return Vec::new(alloc);
    }
    made_sections(alloc, disk).unwrap_or(Vec::new(alloc))
}

/// The pages of these sections; none if there is no memory for them.
pub fn pages_of(alloc: Global, made: &[Section]) -> Vec<u64> {
    pages_of_sections(alloc, made).unwrap_or(Vec::new(alloc))
}

/// Makes the sections that a store has lost, and writes them.
fn write_made<D: PageDisk>(alloc: Global, disk: &mut D) -> Result<(), Refusal> {
    if disk.pages() == 0 {
        return Err(Refusal::NotAStore);
    }
    let made = match made_sections(alloc, disk) {
        Ok(made) => made,
        Err(refusal) => return Err(refusal),
    };
    match remake(disk, &made) {
        Ok(()) => Ok(()),
        Err(fault) => Err(refusal_of_disk(fault)),
    }
}

/// The disk of a store that wasn't opened, to be written, after the sections were made and written that it had lost, and
/// the pages of these. What was on them is kept beside the store first. If it has lost none, it stays unopened. So it does
/// if the newest root may be lost too, and that isn't accepted: the sections would be those of an older root.
pub fn disk_with_sections<R: AllocGlobal + Clock + Files<File = File> + Eprint>(
    rt: &R,
    place: Place,
    unopened: Unopened,
    loss: Loss,
    style: Style,
) -> Result<(Written, Vec<u64>), Unopened> {
    let Outcome::NoStore(refusal) = unopened.outcome else {
        return Err(unopened);
    };
    if !may_lack_section(refusal) {
        return Err(unopened);
    }
    let mut disk = disk_without_loss(rt, place, style)?;
    let made = made_for(rt.alloc(), refusal, &mut disk);
    if made.is_empty() {
        return Err(unopened);
    }
    if loss == Loss::Refused && may_be_lost(&unopened.findings) {
        return Err(unopened.stopped());
    }
    let Ok(pages) = pages_of_sections(rt.alloc(), &made) else {
        let refused = Outcome::NoStore(Refusal::OutOfMemory);
        return Err(Unopened::of_outcome(rt.alloc(), refused, disk.fault()));
    };
    if !keep_listed(rt, place.path, &mut disk, &pages, style) {
        return Err(Unopened::of_outcome(rt.alloc(), Outcome::MayBeLost, disk.fault()));
    }
    match write_made(rt.alloc(), &mut disk) {
        Ok(()) => {
            warn_of_made(rt, &pages, style);
            Ok((disk, pages))
        }
        Err(refusal) => Err(Unopened::of_disk(rt.alloc(), refusal, &mut disk)),
    }
}

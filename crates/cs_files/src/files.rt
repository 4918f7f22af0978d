//! The files of stores as the commands ask for them. They are opened and made by `file_openers` of cs_store.

use crate::openings::Unopened;
use crate::warnings::{warn_of_length, warn_of_other, warn_of_unreadable};
use clap::ArgMatches;
use cs_disk::{Access, FileFault, PageDisk, ReadOnly, refusal_of_disk};
use cs_doctor::{Content, Outcome, Style, warn};
use cs_frame::{Geometry, StoreId};
use cs_refusal::Refusal;
use cs_store::file_openers::{
    create_emptied, create_new, first_pages, open_device, open_waiting, open_whole_pages,
};
pub use cs_store::file_openers::{
    FileToRead as Read, FileToWrite as Written, OverFile, is_block_device, is_special, sync_folder,
};
use cs_store::mount::{Chosen, Remade, find_geometry, two_stores, unreadable_halves};
use cs_store::{Loss, pages_said, ready_to_write};
use std::alloc::Global;
use std::fs::File;
use std::rt::Files;
use std::time::Clock;

/// A file of a store, or a device, what it is opened for, and for how many seconds at most it is waited for.
#[derive(Clone, Copy)]
pub struct Place<'a> {
    pub path: &'a str,
    pub access: Access,
    pub wait: u64,
    /// Only the store with this identity is read. Of two stores on one device the other one is hidden.
    pub id: Option<StoreId>,
    /// How many pages the device of the store is said to have.
    pub device_pages: Option<u64>,
    /// Whether a page that can't be read, and may hold the newest root, is given up so that the store can be written.
    pub loss: Loss,
    /// An extent that is left out before anything else is written.
    pub skipped: Option<u64>,
}

/// Whether the options accept that a page that can't be read is given up.
pub fn loss_of(options: &ArgMatches) -> Loss {
    if options.get_flag("accept-loss") {
        Loss::Accepted
    } else {
        Loss::Refused
    }
}

/// The least number of pages that a device of a store has.
const LEAST_PAGES: u64 = 10;

/// The file at a place, all of it. While another process has it open it is tried again, up to the end of the time.
pub fn whole_disk<R: AllocGlobal + Clock + Files<File = File>>(
    rt: &R,
    place: Place,
) -> Result<Written, FileFault> {
    open_waiting(rt, rt.alloc(), place.path, place.access, place.wait)
}

/// How many pages the device had when its store was made, as page 0 says; none if it doesn't, or if the last page is of
/// another store.
pub fn pages_made<D: PageDisk>(alloc: Global, disk: &mut D) -> Option<u64> {
    if disk.pages() == 0 {
        return None;
    }
    match two_stores(alloc, disk) {
        Ok(None) => pages_said(alloc, disk).unwrap_or(None),
        _ => None,
    }
}

/// The first pages of a file, as many as the device of its store had; that is reported if the file has more.
fn first_of<R: AllocGlobal + Eprint>(
    rt: &R,
    disk: Written,
    pages: Option<u64>,
    style: Style,
) -> Written {
    let all = disk.pages();
    match pages {
        Some(pages) if pages < all => {
            warn_of_length(rt, all, pages, style);
            first_pages(disk, pages)
        }
        _ => disk,
    }
}

/// The pages of a disk that its store had when it was made; all of them if that isn't known.
fn pages_of_store<R: AllocGlobal + Eprint>(
    rt: &R,
    disk: Written,
    place: Place,
    style: Style,
) -> Written {
    let mut disk = disk;
    let pages = match place.device_pages {
        Some(pages) => Some(pages),
        None => pages_made(rt.alloc(), &mut disk),
    };
    first_of(rt, disk, pages, style)
}

/// The file at a place, to be read and written as its access says. One that is opened for reading refuses each write
/// itself.
pub fn disk_to_write<R: AllocGlobal + Clock + Files<File = File> + Eprint>(
    rt: &R,
    place: Place,
    style: Style,
) -> Result<Written, Unopened> {
    match whole_disk(rt, place) {
        Ok(disk) => Ok(pages_of_store(rt, disk, place, style)),
        Err(fault) => Err(Unopened::of_file(rt.alloc(), fault)),
    }
}

/// What is read of a disk, if its file was opened.
fn read_on<R: AllocGlobal + Eprint>(
    rt: &R,
    disk: Result<Written, FileFault>,
    place: Place,
    style: Style,
) -> Result<Read, Unopened> {
    let disk = match disk {
        Ok(disk) => disk,
        Err(fault) => return Err(Unopened::of_file(rt.alloc(), fault)),
    };
    match place.id {
        Some(id) => disk_of_store(rt, disk, place, id, style),
        None => {
            let disk = pages_of_store(rt, disk, place, style);
            readable_of(rt, disk, None, style)
        }
    }
}

/// The file at a place, to be read alone, over which sections that are lost may show as they are made.
pub fn disk_to_open<R: AllocGlobal + Clock + Files<File = File> + Eprint>(
    rt: &R,
    place: Place,
    style: Style,
) -> Result<Remade<Read>, Unopened> {
    let disk = read_on(rt, whole_disk(rt, place), place, style)?;
    Ok(Remade::new(disk, Vec::new(rt.alloc())))
}

/// The file at a place, to be read alone for what can be salvaged of it. If its length is odd, it ends with its last
/// whole page, which is reported. If neither page of a pair can be read, no page is hidden.
pub fn disk_to_salvage<R: AllocGlobal + Clock + Files<File = File> + Eprint>(
    rt: &R,
    place: Place,
    style: Style,
) -> Result<Read, Unopened> {
    let read = read_on(rt, whole_pages(rt, place, style), place, style);
    if place.id.is_none() && is_refused_by_device(&read) {
        return disk_to_scan(rt, place, style);
    }
    read
}

/// Whether a disk wasn't opened since the device refused a read.
fn is_refused_by_device(read: &Result<Read, Unopened>) -> bool {
    match read {
        Ok(_) => false,
        Err(unopened) => unopened.outcome == Outcome::NoStore(Refusal::DeviceFault),
    }
}

/// The same, all of it. No page is looked at.
pub fn disk_to_scan<R: AllocGlobal + Clock + Files<File = File> + Eprint>(
    rt: &R,
    place: Place,
    style: Style,
) -> Result<Read, Unopened> {
    match whole_pages(rt, place, style) {
        Ok(disk) => Ok(Chosen::all(rt.alloc(), ReadOnly::new(disk))),
        Err(fault) => Err(Unopened::of_file(rt.alloc(), fault)),
    }
}

/// The whole pages of the file at a place.
fn whole_pages<R: AllocGlobal + Clock + Files<File = File> + Eprint>(
    rt: &R,
    place: Place,
    style: Style,
) -> Result<Written, FileFault> {
    match whole_disk(rt, place) {
        Err(FileFault::OddLength) => {
            warn(
                rt,
                "the length of the file is no multiple of 4096 bytes: what comes after its last whole page is left out",
                style,
            );
            open_whole_pages(rt, rt.alloc(), place.path, place.access)
        }
        opened => opened,
    }
}

/// The file at a place, to be written, each page of which can be read of which the store has two. If one can't be, it
/// isn't opened, unless the loss is accepted: then the page is filled with bytes of 255, and the other one counts.
pub fn disk_without_loss<R: AllocGlobal + Clock + Files<File = File> + Eprint>(
    rt: &R,
    place: Place,
    style: Style,
) -> Result<Written, Unopened> {
    let mut disk = disk_to_write(rt, place, style)?;
    match ready_to_write(rt.alloc(), &mut disk, place.loss) {
        Ok(lost) => {
            warn_of_unreadable(rt, &lost, style);
            Ok(disk)
        }
        Err(refusal) => {
            if refusal == Refusal::Unreadable {
                name_unreadable(rt, &mut disk, style);
            }
            Err(Unopened::of_disk(rt.alloc(), refusal, &mut disk))
        }
    }
}

/// Reports the pages of which the store has two and that can't be read.
fn name_unreadable<R: AllocGlobal + Eprint>(rt: &R, disk: &mut Written, style: Style) {
    if disk.pages() < LEAST_PAGES {
        return;
    }
    if let Ok(unread) = unreadable_halves(rt.alloc(), disk) {
        warn_of_unreadable(rt, &unread, style);
    }
}

/// What can be read of a file, and of two stores the one with this identity. A page of which the store has two is hidden
/// if it can't be read, and that is reported.
fn readable_of<R: AllocGlobal + Eprint>(
    rt: &R,
    disk: Written,
    id: Option<StoreId>,
    style: Style,
) -> Result<Read, Unopened> {
    let (shown, unread) = shown_of(rt, disk, id)?;
    warn_of_unreadable(rt, &unread, style);
    Ok(shown)
}

/// The same, of which only the store with this identity shows. If it isn't there, no store is.
fn disk_of_store<R: AllocGlobal + Eprint>(
    rt: &R,
    disk: Written,
    place: Place,
    id: StoreId,
    style: Style,
) -> Result<Read, Unopened> {
    let (disk, pages) = match place.device_pages {
        Some(pages) => (disk, Some(pages)),
        None => {
            // What page 0 says counts only if it is of this store.
            let (mut shown, _) = shown_of(rt, disk, Some(id))?;
            let pages = pages_made(rt.alloc(), &mut shown);
            (shown.into_disk().into_disk(), pages)
        }
    };
    let mut shown = readable_of(rt, first_of(rt, disk, pages, style), Some(id), style)?;
    match identity_on(rt, &mut shown) {
        Some(found) if found == id => Ok(shown),
        found => Err(another(rt, shown.into_disk(), id, found, style)),
    }
}

/// What can be read of a file, and of two stores the one with this identity; and the pages of the store's pairs that are
/// hidden, as they can't be read. A file of fewer pages than a store has is shown as it is.
fn shown_of<R: AllocGlobal>(
    rt: &R,
    disk: Written,
    id: Option<StoreId>,
) -> Result<(Read, Vec<u64>), Unopened> {
    if disk.pages() < LEAST_PAGES {
        let shown = Chosen::all(rt.alloc(), ReadOnly::new(disk));
        return Ok((shown, Vec::new(rt.alloc())));
    }
    match Chosen::readable(rt.alloc(), ReadOnly::new(disk), id) {
        Ok(readable) => Ok(readable),
        Err((fault, disk)) => {
            let refused = Outcome::NoStore(refusal_of_disk(fault));
            let system = disk.below().fault();
            Err(Unopened::of_outcome(rt.alloc(), refused, system))
        }
    }
}

/// The identity of the store that a disk shows.
pub fn identity_on<R: AllocGlobal>(rt: &R, shown: &mut Read) -> Option<StoreId> {
    if shown.pages() == 0 {
        return None;
    }
    match find_geometry(rt.alloc(), shown) {
        Ok(Some(geometry)) => geometry.format().store(),
        _ => None,
    }
}

/// Why the store with this identity isn't read: another one was found, which is reported if it could be opened, or none.
fn another<R: AllocGlobal + Eprint>(
    rt: &R,
    disk: ReadOnly<Written>,
    id: StoreId,
    found: Option<StoreId>,
    style: Style,
) -> Unopened {
    let mut disk = Chosen::all(rt.alloc(), disk);
    let unopened = Unopened::of_disk(rt.alloc(), Refusal::NotAStore, &mut disk);
    match unopened.known.content {
        Content::Store { .. } => {
            warn_of_other(rt, id, found, style);
            let refused = Outcome::NoStore(Refusal::NotAStore);
            Unopened::of_outcome(rt.alloc(), refused, disk.fault())
        }
        _ => unopened,
    }
}

/// A new file with these permissions for a store of this geometry. One that is there with something in it stays as it
/// is.
pub fn new_disk<R: AllocGlobal + Files<File = File>>(
    rt: &R,
    path: &str,
    geometry: Geometry,
    mode: u32,
) -> Result<Written, FileFault> {
    create_new(rt, rt.alloc(), path, geometry.device_pages(), mode)
}

/// A block device, or a file that plays one, with all of its pages, on which a store is made.
pub fn device_disk<R: AllocGlobal + Files<File = File>>(
    rt: &R,
    path: &str,
) -> Result<Written, FileFault> {
    open_device(rt, rt.alloc(), path)
}

/// A file for a store of this geometry, in place of what is there. Refused 1 DeviceFault alone.
pub fn emptied_disk<R: AllocGlobal + Files<File = File>>(
    rt: &R,
    path: &str,
    geometry: Geometry,
) -> Result<Written, Refusal> {
    match create_emptied(rt, rt.alloc(), path, geometry.device_pages()) {
        Ok(disk) => Ok(disk),
        Err(_) => Err(Refusal::DeviceFault),
    }
}

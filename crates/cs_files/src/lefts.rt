//! What is in a file, or on a device, that is made anew.

use crate::files::{Place, Written, whole_disk};
use crate::openings::Shown;
use crate::warnings::warn_text;
use cs_disk::{FileFault, SystemFault};
use cs_doctor::{Content, Style, known_of};
use cs_store::mount::{MountOptions, Mounted};
use std::alloc::AllocError;
use std::fs::File;
use std::rt::Files;
use std::time::Clock;

/// What is in a file.
#[derive(Clone, Copy, PartialEq, Eq)]
pub enum Left {
    /// No store that is recognised, or there is no file.
    Nothing,
    /// The operating system doesn't let it be written.
    Refused(SystemFault),
    /// A store that opens.
    Store(Store),
    /// A store that doesn't open, or what is left of one.
    Rest,
}

/// A store that opens.
#[derive(Clone, Copy, PartialEq, Eq)]
pub struct Store {
    format: u8,
    extents: u16,
    pages: u16,
    commands: u64,
    shards: usize,
}

/// What is in the file at a place.
pub fn left_in<R: AllocGlobal + Clock + Files<File = File>>(rt: &R, place: Place) -> Left {
    match whole_disk(rt, place) {
        Ok(disk) => {
            let (left, _) = left_on(rt, disk);
            left
        }
        Err(FileFault::System(SystemFault::NotThere)) => Left::Nothing,
        Err(FileFault::System(fault)) => Left::Refused(fault),
        Err(_) => Left::Nothing,
    }
}

/// What is on a disk, and the disk.
pub fn left_on<R: AllocGlobal>(rt: &R, disk: Written) -> (Left, Written) {
    match MountOptions::new(rt.alloc()).open(disk) {
        Ok((core, _)) => {
            let geometry = core.extents().geometry();
            let (commands, shards) = core.opened();
            let store = Store {
                format: geometry.format().number().value(),
                extents: geometry.extents(),
                pages: geometry.pages(),
                commands,
                shards,
            };
            let mounted: Mounted<Written> = core.into_disk();
            (Left::Store(store), mounted.into_below())
        }
        Err((_, mut disk)) => {
            let left = left_by(known_of(rt.alloc(), &mut disk).content);
            (left, disk)
        }
    }
}

/// What is in a file whose pages hold this, and no store that opens.
fn left_by(content: Content) -> Left {
    match content {
        Content::Unknown | Content::Empty | Content::Foreign => Left::Nothing,
        _ => Left::Rest,
    }
}

/// What was in a file, in words; nothing if that was no store.
fn words_of<R: AllocGlobal>(rt: &R, left: Left) -> Option<Result<String, AllocError>> {
    match left {
        Left::Store(store) => {
            let Store {
                format,
                extents,
                pages,
                commands,
                shards,
            } = store;
            Some(format!(in rt.alloc();
                "a store of format {format}, {extents} extents of {pages} pages, {commands} commands, {shards} shards"
            ))
        }
        Left::Rest => Some(format!(in rt.alloc(); "what is left of a store")),
        Left::Nothing | Left::Refused(_) => None,
    }
}

/// Reports what was in a file that was emptied, if that was a store.
pub fn tell_left<R: AllocGlobal + Eprint>(rt: &R, path: &str, left: Left) {
    let _ = match words_of(rt, left) {
        Some(Ok(words)) => eprintln!(rt; "emptied {path}: it held {words}"),
        Some(Err(_)) => eprintln!(rt; "emptied {path}: it held a store"),
        None => Ok(()),
    };
}

/// Reports what is given up in a file or on a device: the first page that isn't zeros, if it is known, and the store if
/// there was one.
pub fn warn_of_left<R: AllocGlobal + Eprint>(
    rt: &R,
    path: &str,
    page: Option<u64>,
    left: Left,
    style: Style,
) {
    if let Some(page) = page {
        let text = format!(in rt.alloc(); "page {page} of {path} is not zeros");
        warn_text(rt, text, style);
    }
    let text = match words_of(rt, left) {
        Some(Ok(words)) => format!(in rt.alloc(); "{path} held {words}: it is given up"),
        Some(Err(error)) => Err(error),
        None => format!(in rt.alloc(); "{path} held no store that is recognised: it is given up"),
    };
    warn_text(rt, text, style);
}

//! Damaged pages that are kept beside a store before they are written over.

use crate::files::sync_folder;
use crate::warnings::warn_text;
use cs_disk::PageDisk;
use cs_doctor::Style;
use cs_store::mount::Finding;
use std::alloc::AllocError;
use std::fs::File;
use std::io::{ErrorKind, Read, Write};
use std::os::unix::fs::OpenOptionsExt;
use std::rt::Files;
use std::{fs, io};

/// How many files may be beside a store with bytes that one page of it had.
const MOST: u8 = 99;

/// Keeps each page that was passed over as a file beside the store. It is named as the store, with `.page-` and the
/// page's number after it, and synced. If a file of that name has other bytes, `.2` is tried after the name, and so on
/// up to `.99`. A file that is there stays as it is. Returns whether all were kept; the first that wasn't is reported.
pub fn keep_pages<D: PageDisk, R: AllocGlobal + Files<File = File> + Eprint>(
    rt: &R,
    path: &str,
    disk: &mut D,
    findings: &[Finding],
    style: Style,
) -> bool {
    for finding in findings {
        if let Some(page) = finding.passed_over() {
            if !is_kept(rt, path, disk, page, style) {
                return false;
            }
        }
    }
    true
}

/// Keeps each of these pages, as `keep_pages`. One that can't be read has nothing to keep.
pub fn keep_listed<D: PageDisk, R: AllocGlobal + Files<File = File> + Eprint>(
    rt: &R,
    path: &str,
    disk: &mut D,
    pages: &[u64],
    style: Style,
) -> bool {
    let mut bytes = [0; 4096];
    for page in pages {
        if *page >= disk.pages() || disk.read(*page, &mut bytes).is_err() {
            continue;
        }
        if !is_kept(rt, path, disk, *page, style) {
            return false;
        }
    }
    true
}

/// Keeps a page, and returns whether it was kept.
fn is_kept<D: PageDisk, R: AllocGlobal + Files<File = File> + Eprint>(
    rt: &R,
    path: &str,
    disk: &mut D,
    page: u64,
    style: Style,
) -> bool {
    let mut bytes = [0; 4096];
    if page >= disk.pages() || disk.read(page, &mut bytes).is_err() {
        warn_text(
            rt,
            format!(in rt.alloc(); "page {page} can't be read, so it isn't kept"),
            style,
        );
        return false;
    }
    for copy in 1..=MOST {
        let Ok(name) = name_of(rt, path, page, copy) else {
            return false;
        };
        match keep_as(rt, &name, &bytes) {
            Ok(Name::Taken) => {}
            Ok(Name::Holds) => {
                let text = format!(in rt.alloc(); "page {page} is kept as {name}");
                warn_text(rt, text, style);
                return true;
            }
            Err(error) => {
                let text = format!(in rt.alloc(); "page {page} can't be kept as {name}: {error}");
                warn_text(rt, text, style);
                return false;
            }
        }
    }
    let text = format!(in rt.alloc();
        "page {page} can't be kept as {path}.page-{page}: the name is taken, and so are those with .2 to .{MOST} after it; move away what is there"
    );
    warn_text(rt, text, style);
    false
}

/// The name of a file with bytes that a page of a store had: the first such file, the second, and so on.
fn name_of<R: AllocGlobal>(rt: &R, path: &str, page: u64, copy: u8) -> Result<String, AllocError> {
    if copy == 1 {
        format!(in rt.alloc(); "{path}.page-{page}")
    } else {
        format!(in rt.alloc(); "{path}.page-{page}.{copy}")
    }
}

/// What is under a name.
enum Name {
    /// A file with a page's bytes.
    Holds,
    /// Something else.
    Taken,
}

/// Writes these bytes as a new file, and syncs it. What is there already stays as it is.
fn keep_as<R: Files<File = File>>(rt: &R, path: &str, bytes: &[u8; 4096]) -> io::Result<Name> {
    match write_new(rt, path, bytes) {
        Ok(()) => {}
        Err(error) if error.kind() == ErrorKind::AlreadyExists => {
            if !holds(rt, path, bytes) {
                return Ok(Name::Taken);
            }
        }
        Err(error) => return Err(error),
    }
    sync_folder(rt, path)?;
    Ok(Name::Holds)
}

/// Writes a new file, and syncs it. If that fails no file is left.
fn write_new<R: Files<File = File>>(rt: &R, path: &str, bytes: &[u8; 4096]) -> io::Result<()> {
    let mut options = File::options();
    options.write(true).create_new(true).mode(0o600);
    let mut file = options.open(rt, path)?;
    let written = write_synced(&mut file, bytes);
    if written.is_err() {
        let _ = fs::remove_file(rt, path);
    }
    written
}

/// Writes to a file, and syncs it.
fn write_synced(file: &mut File, bytes: &[u8; 4096]) -> io::Result<()> {
    file.write_all(bytes)?;
    file.sync_all()
}

/// Whether a file has just these bytes. It is synced, since whoever wrote it may not have come to that.
fn holds<R: Files<File = File>>(rt: &R, path: &str, bytes: &[u8; 4096]) -> bool {
    match fs::symlink_metadata(rt, path) {
        Ok(about) if about.is_file() && about.len() == 4096 => {
            is_alike(rt, path, bytes).unwrap_or(false)
        }
        _ => false,
    }
}

/// Whether a file of 4,096 bytes has these, after it was synced.
fn is_alike<R: Files<File = File>>(rt: &R, path: &str, bytes: &[u8; 4096]) -> io::Result<bool> {
    let mut file = File::open(rt, path)?;
    let mut there = [0; 4096];
    file.read_exact(&mut there)?;
    file.sync_all()?;
    Ok(there == *bytes)
}

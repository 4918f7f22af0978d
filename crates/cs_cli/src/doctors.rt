//! The command `doctor`.
ghost use Rattle.std.specs.Prelude.{◌≤◌};

use cs_disk::{Access, FileFault, PageDisk, ReadOnly, SystemFault, refusal_of_disk};
use cs_files::files::{OverFile, Place, Read, Written, identity_on, pages_made, whole_disk};
use cs_files::manners::Manner;
use cs_files::openings::Unopened;
use cs_files::progress::Told;
use cs_files::warnings::{explain_unopened, warn_of_other};
use cs_files::{
    Chosen, Depth, FileDiagnosis, Known, Outcome, Style, diagnose, explain, first_geometry,
    first_pages, report,
};
use cs_frame::StoreId;
use cs_refusal::Refusal;
use std::alloc::AllocError;
use std::fs::File;
use std::io::BufWriter;
use std::rt::Files;
use std::time::Clock;
use std::{fs, io};

/// Diagnoses the store in a file, prints what was found and what to type next, and gives the exit status. The file is
/// opened for reading.
pub fn doctor_file<R: AllocGlobal + Clock + Files<File = File> + Print + Eprint>(
    rt: &R,
    place: Place,
    depth: Depth,
    manner: Manner,
) -> u8
    ensures { result ≤ 7 }
{
    match found_in(rt, place, depth, manner) {
        Ok(found) => print_found(rt, place.path, &found, manner),
        Err(unopened) => explain_unopened(rt, &unopened, manner.style),
    }
}

/// Prints what was found of the file with this name, and gives the exit status.
fn print_found<R: AllocGlobal + Print + Eprint>(
    rt: &R,
    path: &str,
    found: &FileDiagnosis,
    manner: Manner,
) -> u8
    ensures { result ≤ 7 }
{
    let outcome = match (
        BufWriter::new(rt.alloc(), io::writer(rt)),
        shell_word(rt, path),
    ) {
        (Ok(mut writer), Ok(word)) => {
            match report(rt.alloc(), found, &word, manner.style, &mut writer) {
                Ok(()) => return found.status(),
                Err(outcome) => outcome,
            }
        }
        _ => Outcome::Refused(Refusal::OutOfMemory),
    };
    explain(rt, outcome, &Known::nothing(), manner.style)
}

/// What is found of a file. Refused if the store of `--id` isn't there, or if memory is refused.
fn found_in<R: AllocGlobal + Clock + Files<File = File> + Eprint>(
    rt: &R,
    place: Place,
    depth: Depth,
    manner: Manner,
) -> Result<FileDiagnosis, Unopened> {
    match whole_disk(rt, place) {
        Ok(disk) => found_on(rt, disk, place, depth, manner),
        Err(FileFault::System(SystemFault::InUse)) => Ok(in_use(rt, place)),
        Err(FileFault::System(fault)) => Ok(FileDiagnosis::Unopened(fault)),
        Err(FileFault::OddLength) => Ok(odd_length(rt, place.path)),
        Err(FileFault::NotEmpty) => Ok(FileDiagnosis::Unopened(SystemFault::Failed)),
    }
}

/// What is found of an open file.
fn found_on<R: AllocGlobal + Clock + Files<File = File> + Eprint>(
    rt: &R,
    disk: Written,
    place: Place,
    depth: Depth,
    manner: Manner,
) -> Result<FileDiagnosis, Unopened> {
    let file_pages = disk.pages();
    let shown = shown_of(rt, disk, place, manner.style)?;
    let told = Told::new(rt, manner);
    match diagnose(rt.alloc(), shown, file_pages, depth, &told) {
        Ok((found, _)) => Ok(FileDiagnosis::Found(found)),
        Err(_) => Err(refused(rt, Refusal::OutOfMemory, None)),
    }
}

/// Why nothing is found.
fn refused<R: AllocGlobal>(rt: &R, refusal: Refusal, system: Option<SystemFault>) -> Unopened {
    Unopened::of_outcome(rt.alloc(), Outcome::NoStore(refusal), system)
}

/// The first pages of a file, as many as the device of its store had, to be read alone.
fn shown_of<R: AllocGlobal + Eprint>(
    rt: &R,
    disk: Written,
    place: Place,
    style: Style,
) -> Result<Read, Unopened> {
    let mut disk = disk;
    let pages = match place.device_pages {
        Some(pages) => Some(pages),
        None => pages_made(rt.alloc(), &mut disk),
    };
    let disk = match pages {
        Some(pages) if pages < disk.pages() => first_pages(disk, pages),
        _ => disk,
    };
    let disk = ReadOnly::new(disk);
    match place.id {
        Some(id) => store_shown(rt, disk, id, style),
        None => Ok(Chosen::all(rt.alloc(), disk)),
    }
}

/// The store with this identity, of two on a disk. If it isn't there, that is reported. Of an empty file nothing is
/// hidden.
fn store_shown<R: AllocGlobal + Eprint>(
    rt: &R,
    disk: ReadOnly<Written>,
    id: StoreId,
    style: Style,
) -> Result<Read, Unopened> {
    if disk.pages() == 0 {
        return Ok(Chosen::all(rt.alloc(), disk));
    }
    let mut shown = match Chosen::of_store(rt.alloc(), disk, id) {
        Ok(shown) => shown,
        Err((fault, disk)) => {
            let system = disk.below().fault();
            return Err(refused(rt, refusal_of_disk(fault), system));
        }
    };
    match identity_on(rt, &mut shown) {
        Some(found) if found == id => Ok(shown),
        found => {
            warn_of_other(rt, id, found, style);
            Err(refused(rt, Refusal::NotAStore, shown.below().below().fault()))
        }
    }
}

/// What is found of a file that another process has open: its length, and what page 0 says. It is read without a lock.
fn in_use<R: AllocGlobal + Clock + Files<File = File>>(rt: &R, place: Place) -> FileDiagnosis {
    let unlocked = Place {
        access: Access::ReadUnlocked,
        wait: 0,
        ..place
    };
    match whole_disk(rt, unlocked) {
        Ok(mut disk) => FileDiagnosis::InUse {
            pages: disk.pages(),
            geometry: first_geometry(rt.alloc(), &mut disk),
        },
        Err(_) => FileDiagnosis::Unopened(SystemFault::InUse),
    }
}

/// What is found of a file whose length is no multiple of 4,096 bytes.
fn odd_length<R: Files<File = File>>(rt: &R, path: &str) -> FileDiagnosis {
    let bytes = match fs::metadata(rt, path) {
        Ok(about) => about.len(),
        Err(_) => 0,
    };
    FileDiagnosis::OddLength { bytes }
}

/// Whether a letter means itself to a shell.
fn is_plain(letter: char) -> bool {
    letter.is_ascii_alphanumeric()
        || matches!(letter, '/' | '.' | '_' | '-' | '+' | ',' | ':' | '@' | '%')
}

/// A path as one word of a shell, which no command takes for an option.
fn shell_word<R: AllocGlobal>(rt: &R, path: &str) -> Result<String, AllocError> {
    let mut word = String::new(rt.alloc());
    if path.starts_with('-') {
        word.push_str("./")?;
    }
    if path.chars().all(is_plain) {
        word.push_str(path)?;
        return Ok(word);
    }
    word.push_str("'")?;
    for letter in path.chars() {
        if letter == '\'' {
            word.push_str("'\\''")?;
        } else {
            word.push(letter)?;
        }
    }
    word.push_str("'")?;
    Ok(word)
}

//! The command `copy`.
ghost use Rattle.std.specs.Prelude.{◌≤◌, IfErr};

use crate::creates::{FILE, geometry_asked, hex_of, identity_made, mode_given, plural_of};
use clap::ArgMatches;
use cs_disk::{FileFault, SystemFault};
use cs_files::files::{OverFile, Place, Read, Written, disk_to_open, new_disk, sync_folder};
use cs_files::manners::Manner;
use cs_files::openings::{Shown, Unopened, open_store};
use cs_files::progress::Told;
use cs_files::warnings::{explain_unopened, warn_of, warn_text};
use cs_files::{Known, Mounted, OpenOptions, Outcome, Remade, Store, Style, explain};
use cs_frame::{Geometry, StoreId};
use cs_options::{Sizing, sizing_of};
use cs_refusal::Refusal;
use cs_tools::copy;
use std::fs::File;
use std::io::Write;
use std::os::unix::fs::MetadataExt;
use std::random::RandomSource;
use std::rt::Files;
use std::time::Clock;
use std::{fs, io};

/// The store that is read.
type Source = Store<Mounted<Remade<Read>>>;

/// The store that is made.
type Target = Store<Mounted<Written>>;

/// How often a larger geometry is tried.
const LARGER: u32 = 24;

/// Copies the store in a file into a new one, and gives the exit status.
pub fn copy_file<R: AllocGlobal + Clock + Files<File = File> + RandomSource + Print + Eprint>(
    rt: &R,
    place: Place,
    target: &str,
    options: &ArgMatches,
    manner: Manner,
) -> u8
    ensures { result ≤ 7 }
{
    let id = match identity_made(rt, manner) {
        Ok(id) => id,
        Err(status) => return status,
    };
    let asked = match geometry_said(rt, options, id, manner) {
        Ok(asked) => asked,
        Err(status) => return status,
    };
    let Some(mode) = mode_given(rt, options) else {
        return cs_words::COMMAND_LINE;
    };
    if are_same(rt, place.path, target) {
        let _ = eprintln!(rt; "error: FROM and TO are the same file");
        return cs_words::COMMAND_LINE;
    }
    if is_taken(rt, target) {
        let refused = Outcome::Refused(Refusal::NotEmpty);
        return explain(rt, refused, &Known::nothing(), manner.style);
    }
    let disk = disk_to_open(rt, place, manner.style);
    let opened = match open_store::<Mounted<Remade<Read>>, R>(rt, disk) {
        Ok(opened) => opened,
        Err(unopened) => return explain_unopened(rt, &unopened, manner.style),
    };
    let (commands, _) = opened.store.found();
    warn_of(rt, &opened, commands, manner.style);
    let job = Job {
        source: opened.store,
        target,
        mode,
        id,
    };
    copy_opened(rt, job, asked, manner)
}

/// The geometry that the options ask for, none if they ask for nothing; or the exit status if they ask for one that
/// there isn't.
fn geometry_said<R: Eprint>(
    rt: &R,
    options: &ArgMatches,
    id: StoreId,
    manner: Manner,
) -> Result<Option<Geometry>, u8>
    ensures { IfErr result (λ status. status ≤ 7) }
{
    if sizing_of(options) == Sizing::Unsaid {
        return Ok(None);
    }
    match geometry_asked(rt, options, id, FILE, manner) {
        Ok(geometry) => Ok(Some(geometry)),
        Err(status) => Err(status),
    }
}

/// What is copied, into which file, with which permissions, and the identity of the new store.
#[derive(Drop)]
struct Job<'a> {
    source: Source,
    target: &'a str,
    mode: u32,
    id: StoreId,
}

/// Whether two paths are one, or lead to one file.
fn are_same<R: Files<File = File>>(rt: &R, from: &str, to: &str) -> bool {
    if from == to {
        return true;
    }
    match (fs::metadata(rt, from), fs::metadata(rt, to)) {
        (Ok(from), Ok(to)) => from.dev() == to.dev() && from.ino() == to.ino(),
        _ => false,
    }
}

/// Whether there is something under a name that isn't an empty file.
fn is_taken<R: Files<File = File>>(rt: &R, path: &str) -> bool {
    match fs::symlink_metadata(rt, path) {
        Ok(about) => !about.is_file() || about.len() > 0,
        Err(_) => false,
    }
}

/// Copies the store that was opened, and gives the exit status.
fn copy_opened<R: AllocGlobal + Clock + Files<File = File> + Print + Eprint>(
    rt: &R,
    mut job: Job,
    asked: Option<Geometry>,
    manner: Manner,
) -> u8
    ensures { result ≤ 7 }
{
    let copied = match asked {
        Some(geometry) => copy_into(rt, &mut job, geometry, manner),
        None => copy_into_enough(rt, &mut job, manner),
    };
    match copied {
        Ok(geometry) => tell_copied(rt, &job, geometry, manner),
        Err(unmade) => {
            let fault = job.source.close().into_below().fault();
            explain_unopened(rt, &unmade.with_fault(fault), manner.style)
        }
    }
}

/// Copies into a new store of the geometry that the source has, or where that is too small, of a larger one.
fn copy_into_enough<R: AllocGlobal + Clock + Files<File = File> + Eprint>(
    rt: &R,
    job: &mut Job,
    manner: Manner,
) -> Result<Geometry, Unopened> {
    let old = job.source.geometry();
    let mut extents = u64::from(old.extents()).max(5);
    let mut pages = u64::from(old.pages());
    for _ in 0..LARGER {
        let Ok(geometry) = Geometry::for_file(job.id, extents, pages, None) else {
            break;
        };
        match copy_into(rt, job, geometry, manner) {
            Err(unmade) if unmade.outcome == Outcome::Refused(Refusal::Full) && extents < 7_680 => {
                extents = (2 * extents).min(7_680);
            }
            Err(unmade) if asks_for_more(unmade.outcome) && pages < 65_535 => {
                pages = (2 * pages).min(65_535);
            }
            copied => return copied,
        }
    }
    let unmade = Outcome::Refused(Refusal::Full);
    Err(Unopened::of_outcome(rt.alloc(), unmade, None))
}

/// Whether a larger store may take what this one didn't.
fn asks_for_more(outcome: Outcome) -> bool {
    match outcome {
        Outcome::Refused(refusal) => {
            matches!(
                refusal,
                Refusal::Full | Refusal::TooLarge | Refusal::IndexFull
            )
        }
        _ => false,
    }
}

/// Copies into a new store of this geometry, which is made under another name and given its own when all of it is
/// there. If it fails no file is left.
fn copy_into<R: AllocGlobal + Clock + Files<File = File> + Eprint>(
    rt: &R,
    job: &mut Job,
    geometry: Geometry,
    manner: Manner,
) -> Result<Geometry, Unopened> {
    let Ok(path) = format!(in rt.alloc(); "{}.copying", job.target) else {
        let refused = Outcome::NoStore(Refusal::OutOfMemory);
        return Err(Unopened::of_outcome(rt.alloc(), refused, None));
    };
    let disk = match new_disk(rt, &path, geometry, job.mode) {
        Ok(disk) => disk,
        Err(fault) => return Err(unmade(rt, &path, fault, manner)),
    };
    let copied = match OpenOptions::new(rt.alloc()).geometry(geometry).create(disk) {
        Ok(store) => fill(rt, job, &path, store, manner),
        Err((refusal, mut disk)) => Err(Unopened::of_disk(rt.alloc(), refusal, &mut disk)),
    };
    if copied.is_err() {
        let _ = fs::remove_file(rt, &path);
    }
    match copied {
        Ok(()) => Ok(geometry),
        Err(unmade) => Err(unmade),
    }
}

/// The new file wasn't made, which is reported; what was begun of it is removed.
fn unmade<R: AllocGlobal + Files<File = File> + Eprint>(
    rt: &R,
    path: &str,
    fault: FileFault,
    manner: Manner,
) -> Unopened {
    match fault {
        FileFault::NotEmpty => warn_text(
            rt,
            format!(in rt.alloc();
                "{path} is there: if a copy that ended early left it, remove it"
            ),
            manner.style,
        ),
        // The file was made, and left with nothing in it.
        FileFault::System(SystemFault::NoRoom | SystemFault::Failed) => {
            let _ = fs::remove_file(rt, path);
        }
        _ => {}
    }
    Unopened::of_file(rt.alloc(), fault)
}

/// Copies all shards into an empty store in a file, which is given its name when all of it is there.
fn fill<R: AllocGlobal + Clock + Files<File = File> + Eprint>(
    rt: &R,
    job: &mut Job,
    path: &str,
    mut store: Target,
    manner: Manner,
) -> Result<(), Unopened> {
    let told = Told::new(rt, manner);
    let outcome = copy(&mut job.source, &mut store, &told);
    if outcome != Outcome::Done {
        let fault = store.close().into_below().fault();
        return Err(Unopened::of_outcome(rt.alloc(), outcome, fault));
    }
    // The file is locked until it has its name.
    match name(rt, path, job.target) {
        Ok(()) => Ok(()),
        Err(error) => {
            let fault = FileFault::System(SystemFault::of(&error));
            Err(Unopened::of_file(rt.alloc(), fault))
        }
    }
}

/// Gives a file its name, and syncs the folder, so that a crash leaves it so.
fn name<R: Files<File = File>>(rt: &R, from: &str, to: &str) -> io::Result<()> {
    fs::rename(rt, from, to)?;
    sync_folder(rt, to)
}

/// Prints what was copied, and gives the exit status.
fn tell_copied<R: Print + Eprint>(rt: &R, job: &Job, geometry: Geometry, manner: Manner) -> u8
    ensures { result ≤ 7 }
{
    let (_, shards) = job.source.found();
    let printed = print_copied(shards, geometry, manner.style, &mut io::writer(rt));
    let outcome = match printed {
        Ok(()) => Outcome::Done,
        Err(_) => Outcome::Failed,
    };
    explain(rt, outcome, &Known::nothing(), manner.style)
}

/// Prints what was copied, with the writer's error.
fn print_copied<W: Write>(
    shards: usize,
    geometry: Geometry,
    style: Style,
    writer: &mut W,
) -> io::Result<()> {
    let extents = geometry.extents();
    let pages = geometry.pages();
    let sections = geometry.sections();
    let bytes = geometry.device_pages().saturating_mul(4096);
    let plural = plural_of(sections);
    let id = hex_of(geometry);
    match style {
        Style::Text => writeln!(
            writer,
            "copied {shards} shards: format 4, id {id}, {extents} extents of {pages} pages, {sections} section{plural}: {bytes} bytes"
        )?,
        Style::Json => writeln!(
            writer,
            "{{\"copied\":{shards},\"format\":4,\"id\":\"{id}\",\"extents\":{extents},\"pages\":{pages},\"sections\":{sections},\"bytes\":{bytes}}}"
        )?,
    }
    writer.flush()
}

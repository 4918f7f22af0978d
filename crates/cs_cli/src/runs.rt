//! The command `run`.
ghost use Rattle.std.specs.Prelude.{◌≤◌};

use crate::creates::NO_RANDOM;
use crate::watchers::Reporter;
use clap::ArgMatches;
use cs_disk::{Access, CrashDisk, SystemFault};
use cs_files::fences::open_to_write;
use cs_files::files::{Place, Written, disk_to_write, emptied_disk, loss_of};
use cs_files::lefts::{Left, left_in, tell_left};
use cs_files::manners::Manner;
use cs_files::openings::{Opened, Shown, Unopened, open_store};
use cs_files::progress::{tell_ended, tell_making};
use cs_files::warnings::{tell_unopened, warn_of, warn_of_older};
use cs_files::{
    AsOf, Core, Known, MountOptions, Mounted, NO_IDENTITY, Outcome, Store, Style, new_identity,
    tell, warn,
};
use cs_options::script::{Onward, print_no_store, run_over_watched};
use cs_options::{device_pages_of, geometry_of, skipped_of, wait_of};
use cs_refusal::Refusal;
use std::fs::File;
use std::io;
use std::io::{BufWriter, Write};
use std::random::RandomSource;
use std::rt::Files;
use std::time::Clock;

/// Runs the script on standard input over the store that the options name, and gives the exit status.
pub fn run_standard_input<
    R: AllocGlobal + Clock + Files<File = File> + RandomSource + Input + Print + Eprint,
>(rt: &R, options: &ArgMatches, terminal: bool) -> u8
where
    R::Reader: Drop,
    ensures { result ≤ 4 }
{
    let manner = Manner {
        style: Style::Text,
        terminal,
    };
    match BufWriter::new(rt.alloc(), io::writer(rt)) {
        Ok(mut writer) => run_on(rt, options, manner, &mut writer),
        Err(_) => print_no_store(&mut io::writer(rt), Refusal::OutOfMemory),
    }
}

/// The same with this writer.
fn run_on<R: AllocGlobal + Clock + Files<File = File> + RandomSource + Input + Eprint, W: Write>(
    rt: &R,
    options: &ArgMatches,
    manner: Manner,
    writer: &mut W,
) -> u8
where
    R::Reader: Drop,
    ensures { result ≤ 4 }
{
    let onward = onward_of(options);
    let Some(path) = options.get_str("file") else {
        let store = match geometry_of(options, NO_IDENTITY) {
            Ok(geometry) => MountOptions::new(rt.alloc()).create_in_memory(geometry),
            Err(refusal) => Err(refusal),
        };
        return run_over_a(rt, told(rt, store), onward, writer);
    };
    if options.get_flag("as-of") {
        let place = place_of(path, Access::Read, options);
        return run_over_a(rt, in_older_file(rt, place, manner), onward, writer);
    }
    let place = place_of(path, Access::Write, options);
    if options.get_flag("new") {
        run_over_a(rt, in_new_file(rt, place, options, manner), onward, writer)
    } else {
        run_over_a(rt, in_old_file(rt, place, manner), onward, writer)
    }
}

/// A file that is opened so, as the options ask for.
fn place_of<'a>(path: &'a str, access: Access, options: &ArgMatches) -> Place<'a> {
    Place {
        path,
        access,
        wait: wait_of(options),
        id: None,
        device_pages: device_pages_of(options),
        loss: loss_of(options),
        skipped: skipped_of(options),
    }
}

/// Whether a script goes on after a line that is refused or can't be read.
fn onward_of(options: &ArgMatches) -> Onward {
    if options.get_flag("strict") {
        Onward::Stop
    } else {
        Onward::GoOn
    }
}

/// Runs the script on standard input over this store.
fn run_over_a<D: CrashDisk + Drop, R: AllocGlobal + Input + Eprint, W: Write>(
    rt: &R,
    store: Result<Core<D>, Refusal>,
    onward: Onward,
    writer: &mut W,
) -> u8
where
    R::Reader: Drop,
    ensures { result ≤ 4 }
{
    let mut reporter = Reporter { rt, onward };
    run_over_watched(rt.alloc(), store, rt.reader(), writer, &mut reporter)
}

/// The store, or why there is none, after that was explained.
fn told<T, R: Eprint>(rt: &R, store: Result<T, Refusal>) -> Result<T, Refusal> {
    if let Err(refusal) = &store {
        tell(
            rt,
            Outcome::NoStore(*refusal),
            &Known::nothing(),
            Style::Text,
        );
    }
    store
}

/// The store in a file that is there, with warnings of its damaged pages.
fn in_old_file<R: AllocGlobal + Clock + Files<File = File> + Eprint>(
    rt: &R,
    place: Place,
    manner: Manner,
) -> Result<Core<Mounted<Written>>, Refusal> {
    match open_to_write(rt, place, manner.style) {
        Ok(store) => Ok(store.into_core()),
        Err(unopened) => untold(rt, &unopened, manner),
    }
}

/// The store in a file that is there, as of the newest root that is whole. The file is opened for reading alone.
fn in_older_file<R: AllocGlobal + Clock + Files<File = File> + Eprint>(
    rt: &R,
    place: Place,
    manner: Manner,
) -> Result<Core<AsOf<Mounted<Written>>>, Refusal> {
    let opened = open_store::<AsOf<Mounted<Written>>, R>(
        rt,
        disk_to_write(rt, place, manner.style),
    );
    if opened.is_ok() {
        warn_of_older(rt, manner.style);
    }
    core_told(rt, opened, manner)
}

/// The core of a store that was opened, with warnings of its damaged pages, or the refusal, after it was explained.
fn core_told<E: Shown + Drop, R: AllocGlobal + Eprint>(
    rt: &R,
    opened: Result<Opened<Store<E>>, Unopened>,
    manner: Manner,
) -> Result<Core<E>, Refusal> {
    match opened {
        Ok(opened) => {
            let (commands, _) = opened.store.found();
            warn_of(rt, &opened, commands, manner.style);
            Ok(opened.store.into_core())
        }
        Err(unopened) => untold(rt, &unopened, manner),
    }
}

/// No store, by the refusal for which it wasn't opened, after that was explained.
fn untold<T, R: AllocGlobal + Eprint>(
    rt: &R,
    unopened: &Unopened,
    manner: Manner,
) -> Result<T, Refusal> {
    tell_unopened(rt, unopened, manner.style);
    Err(refusal_in(unopened.outcome))
}

/// The refusal that a script prints of a store that isn't opened.
fn refusal_in(outcome: Outcome) -> Refusal {
    match outcome {
        Outcome::NoStore(refusal) | Outcome::Refused(refusal) | Outcome::Unread(refusal) => refusal,
        _ => Refusal::DeviceFault,
    }
}

/// A new store in a file, in place of what is there, of the geometry that the options ask for. Refused 7 BadGeometry
/// before the file is touched. On a terminal a large one is announced before it is made. If the file had a store, it is
/// reported what it was.
fn in_new_file<R: AllocGlobal + Clock + Files<File = File> + RandomSource + Eprint>(
    rt: &R,
    place: Place,
    options: &ArgMatches,
    manner: Manner,
) -> Result<Core<Mounted<Written>>, Refusal> {
    let Ok(id) = new_identity(rt) else {
        warn(rt, NO_RANDOM, Style::Text);
        return refused_by(rt, SystemFault::Failed);
    };
    let geometry = told(rt, geometry_of(options, id))?;
    let left = left_in(rt, place);
    if left == Left::Refused(SystemFault::InUse) {
        return refused_by(rt, SystemFault::InUse);
    }
    let pages = geometry.device_pages();
    tell_making(rt, place.path, pages, manner);
    let disk = emptied_disk(rt, place.path, geometry);
    tell_ended(rt, place.path, pages, manner, &disk);
    match (disk, left) {
        (Ok(disk), _) => {
            tell_left(rt, place.path, left);
            match MountOptions::new(rt.alloc()).create(disk, geometry) {
                Ok(core) => Ok(core),
                Err((refusal, _)) => told(rt, Err(refusal)),
            }
        }
        (Err(_), Left::Refused(fault)) => refused_by(rt, fault),
        (Err(refusal), _) => told(rt, Err(refusal)),
    }
}

/// No store, since the operating system refused the file so, which is explained.
fn refused_by<T, R: Eprint>(rt: &R, fault: SystemFault) -> Result<T, Refusal> {
    tell(rt, Outcome::Unopened(fault), &Known::nothing(), Style::Text);
    Err(Refusal::DeviceFault)
}

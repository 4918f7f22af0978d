//! The command `create --force` over a file.
ghost use Rattle.std.specs.Prelude.{◌≤◌, IfErr};

use crate::creates::{Told, create_in_file, geometry_in_file, mode_given, tell_made};
use crate::devices::make_on;
use clap::ArgMatches;
use cs_disk::{Access, FileFault, SystemFault};
use cs_files::files::{Place, emptied_disk, is_block_device};
use cs_files::lefts::{Left, left_in, warn_of_left};
use cs_files::manners::Manner;
use cs_files::openings::Unopened;
use cs_files::progress::{tell_ended, tell_making};
use cs_files::{Loss, Outcome};
use cs_frame::Geometry;
use std::fs;
use std::fs::File;
use std::random::RandomSource;
use std::rt::Files;
use std::time::Clock;

/// Makes a new store in a file in place of what is there, which is reported, and gives the exit status. If nothing is
/// there it is made as without `--force`.
pub fn create_over_file<
    R: AllocGlobal + Clock + Files<File = File> + RandomSource + Print + Eprint,
>(rt: &R, path: &str, options: &ArgMatches, manner: Manner) -> u8
    ensures { result ≤ 7 }
{
    if !has_bytes(rt, path) || is_block_device(rt, path) {
        return create_in_file(rt, path, options, manner);
    }
    if mode_given(rt, options).is_none() {
        return cs_words::COMMAND_LINE;
    }
    let geometry = match geometry_in_file(rt, options, manner) {
        Ok(geometry) => geometry,
        Err(status) => return status,
    };
    tell_made(
        rt,
        path,
        Told::of(geometry, options),
        make_over(rt, path, geometry, manner),
        manner,
    )
}

/// Whether a file with something in it is under a name, or a folder.
fn has_bytes<R: Files<File = File>>(rt: &R, path: &str) -> bool {
    match fs::metadata(rt, path) {
        Ok(about) => about.is_dir() || about.len() > 0,
        Err(_) => false,
    }
}

/// Makes an empty store in a file in place of what is there.
fn make_over<R: AllocGlobal + Clock + Files<File = File> + Eprint>(
    rt: &R,
    path: &str,
    geometry: Geometry,
    manner: Manner,
) -> Result<(), Unopened> {
    let place = Place {
        path,
        access: Access::Write,
        wait: 0,
        id: None,
        device_pages: None,
        loss: Loss::Refused,
        skipped: None,
    };
    let left = left_in(rt, place);
    if let Left::Refused(fault) = left {
        return Err(Unopened::of_file(rt.alloc(), FileFault::System(fault)));
    }
    let pages = geometry.device_pages();
    tell_making(rt, path, pages, manner);
    let disk = emptied_disk(rt, path, geometry);
    tell_ended(rt, path, pages, manner, &disk);
    match disk {
        Ok(disk) => {
            warn_of_left(rt, path, None, left, manner.style);
            make_on(rt, disk, geometry)
        }
        Err(refusal) => {
            let outcome = Outcome::NoStore(refusal);
            Err(Unopened::of_outcome(rt.alloc(), outcome, Some(SystemFault::Failed)))
        }
    }
}

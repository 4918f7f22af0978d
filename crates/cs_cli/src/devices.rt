//! The command `create --device`.
ghost use Rattle.std.specs.Prelude.{◌≤◌, IfErr};

use crate::creates::{Room, Told, geometry_asked, identity_made, mode_given, tell_made};
use clap::ArgMatches;
use cs_disk::{PageDisk, refusal_of_disk};
use cs_files::files::{OverFile, Written, device_disk};
use cs_files::lefts::{left_on, warn_of_left};
use cs_files::manners::Manner;
use cs_files::openings::Unopened;
use cs_files::warnings::explain_unopened;
use cs_files::{Known, MountOptions, Outcome, Style, explain, first_written};
use cs_frame::Geometry;
use cs_options::on_device;
use cs_refusal::Refusal;
use std::fs::File;
use std::random::RandomSource;
use std::rt::Files;

/// Makes a new store on a device, whose size stays, and gives the exit status.
pub fn create_on_device<R: AllocGlobal + Files<File = File> + RandomSource + Print + Eprint>(
    rt: &R,
    path: &str,
    options: &ArgMatches,
    manner: Manner,
) -> u8
    ensures { result ≤ 7 }
{
    if mode_given(rt, options).is_none() {
        return cs_words::COMMAND_LINE;
    }
    let disk = match device_disk(rt, path) {
        Ok(disk) => disk,
        Err(fault) => return explain_unopened(
            rt,
            &Unopened::of_file(rt.alloc(), fault),
            manner.style,
        ),
    };
    let geometry = match geometry_on(rt, options, disk.pages(), manner) {
        Ok(geometry) => geometry,
        Err(status) => return status,
    };
    let disk = match freed(rt, path, disk, options.get_flag("force"), manner) {
        Ok(disk) => disk,
        Err(status) => return status,
    };
    tell_made(
        rt,
        path,
        Told::of(geometry, options),
        make_on(rt, disk, geometry),
        manner,
    )
}

/// The geometry that the options ask for on a device of so many pages, by default one that takes all of it; or the exit
/// status if none does.
fn geometry_on<R: RandomSource + Eprint>(
    rt: &R,
    options: &ArgMatches,
    pages: u64,
    manner: Manner,
) -> Result<Geometry, u8>
    ensures { IfErr result (λ status. status ≤ 7) }
{
    let id = identity_made(rt, manner)?;
    let bytes = pages.saturating_mul(4096);
    let room = Room {
        usual: bytes,
        most: bytes,
    };
    let geometry = geometry_asked(rt, options, id, room, manner)?;
    match on_device(geometry, pages) {
        Ok(geometry) => Ok(geometry),
        Err(refusal) => Err(tell_short(rt, refusal, pages, geometry.device_pages(), manner)),
    }
}

/// Reports that a device has fewer pages than a geometry needs, and gives the exit status.
fn tell_short<R: Eprint>(rt: &R, refusal: Refusal, pages: u64, needed: u64, manner: Manner) -> u8
    ensures { result ≤ 7 }
{
    let number = refusal.number();
    let name = refusal.name();
    let _ = match manner.style {
        Style::Text => eprintln!(rt;
            "refused {number} {name}: the device has {pages} pages, and the store needs {needed}\nGive fewer extents or pages, or none: the store is then as large as fits."
        ),
        Style::Json => eprintln!(rt;
            "{{\"refused\":{number},\"name\":\"{name}\",\"text\":\"the device has {pages} pages, and the store needs {needed}\",\"advice\":\"Give fewer extents or pages, or none: the store is then as large as fits.\"}}"
        ),
    };
    cs_words::REFUSED
}

/// The device, if nothing is written at its ends, or what is there is given up, which is reported; or the exit status.
fn freed<R: AllocGlobal + Eprint>(
    rt: &R,
    path: &str,
    disk: Written,
    is_forced: bool,
    manner: Manner,
) -> Result<Written, u8>
    ensures { IfErr result (λ status. status ≤ 7) }
{
    let mut disk = disk;
    match first_written(&mut disk) {
        Ok(None) => Ok(disk),
        Ok(Some(page)) if is_forced => {
            let (left, disk) = left_on(rt, disk);
            warn_of_left(rt, path, Some(page), left, manner.style);
            Ok(disk)
        }
        Ok(Some(page)) => {
            let outcome = Outcome::Refused(Refusal::NotEmpty);
            Err(explain(rt, outcome, &Known::of_written(page), manner.style))
        }
        Err(fault) => {
            let outcome = Outcome::NoStore(refusal_of_disk(fault));
            Err(explain(rt, outcome, &Known::of_system(disk.fault()), manner.style))
        }
    }
}

/// Makes an empty store on a disk, over whatever is there.
pub fn make_on<R: AllocGlobal>(rt: &R, disk: Written, geometry: Geometry) -> Result<(), Unopened> {
    match MountOptions::new(rt.alloc()).create_over(disk, geometry) {
        Ok(_) => Ok(()),
        Err((refusal, mut disk)) => Err(Unopened::of_disk(rt.alloc(), refusal, &mut disk)),
    }
}

//! The command `bench`: over a file that it makes and removes.
ghost use Rattle.std.specs.Prelude.{◌≤◌};

use crate::creates::identity_made;
use clap::ArgMatches;
use cs_disk::FileFault;
use cs_files::files::{OverFile, new_disk};
use cs_files::manners::Manner;
use cs_files::openings::Shown;
use cs_files::progress::Told;
use cs_files::{Known, MountOptions, Outcome, explain};
use cs_frame::Geometry;
use cs_options::{Measure, geometry_of, measure_of};
use cs_tools::{Load, bench};
use std::fs::File;
use std::random::RandomSource;
use std::rt::Files;
use std::time::Clock;
use std::{fs, io};

/// Measures over a new file, removes it, and gives the exit status.
pub fn bench_in_file<R: AllocGlobal + Clock + Files<File = File> + RandomSource + Print + Eprint>(
    rt: &R,
    path: &str,
    options: &ArgMatches,
    manner: Manner,
) -> u8
    ensures { result ≤ 7 }
{
    let Some(measure) = measure_of(options) else {
        let _ = eprintln!(rt;
            "error: calls are 1 to 100,000, batch 1 to 10,000, and bytes at most 8,388,280"
        );
        return cs_words::COMMAND_LINE;
    };
    let id = match identity_made(rt, manner) {
        Ok(id) => id,
        Err(status) => return status,
    };
    let Ok(geometry) = geometry_of(options, id) else {
        let _ = eprintln!(rt;
            "error: a store has 5 to 7,680 extents of 2 to 65,535 pages, or in format 2 4 to 2,048 of 2 to 256"
        );
        return cs_words::COMMAND_LINE;
    };
    match bench_new(rt, path, geometry, measure, manner) {
        Ok((outcome, known)) => explain(rt, outcome, &known, manner.style),
        Err(FileFault::NotEmpty) => {
            let _ = eprintln!(rt; "error: {path} is there already; name a file that isn't");
            cs_words::COMMAND_LINE
        }
        Err(fault) => explain(rt, Outcome::of_file(fault), &Known::nothing(), manner.style),
    }
}

/// Measures over a new file, and removes it.
fn bench_new<R: AllocGlobal + Clock + Files<File = File> + Print + Eprint>(
    rt: &R,
    path: &str,
    geometry: Geometry,
    measure: Measure,
    manner: Manner,
) -> Result<(Outcome, Known), FileFault> {
    let load = Load {
        calls: measure.calls,
        bytes: measure.bytes as usize,
        batch: measure.batch,
    };
    let disk = new_disk(rt, path, geometry, 0o600)?;
    let ended = match MountOptions::new(rt.alloc()).create(disk, geometry) {
        Ok(mut core) => {
            let told = Told::new(rt, manner);
            let mut writer = io::writer(rt);
            let outcome = bench(
                rt,
                rt.alloc(),
                &mut core,
                load,
                &told,
                manner.style,
                &mut writer,
            );
            (
                outcome,
                Known::of_system(core.into_disk().into_below().fault()),
            )
        }
        Err((refusal, disk)) => (Outcome::NoStore(refusal), Known::of_system(disk.fault())),
    };
    let _ = fs::remove_file(rt, path);
    Ok(ended)
}

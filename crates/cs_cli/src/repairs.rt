//! The command `scrub --repair`.
ghost use Rattle.std.specs.Prelude.{◌≤◌};

use cs_files::fences::{Whole, open_as_it_lies, open_kept, open_with_sections};
use cs_files::files::{OverFile, Place, Written};
use cs_files::manners::Manner;
use cs_files::openings::{Opened, Shown, Unopened};
use cs_files::progress::Told;
use cs_files::warnings::{explain_unopened, warn_of};
use cs_files::{Core, Finding, Known, LIMITS, Loss, Mounted, Outcome, explain, may_be_lost, mend};
use cs_refusal::Refusal;
use cs_tools::{FoundPages, scrub, stop_repair};
use std::fs::File;
use std::io;
use std::io::BufWriter;
use std::rt::Files;
use std::time::Clock;

/// A store whose damaged pages were written anew.
#[derive(Drop)]
struct MendedStore {
    core: Core<Mounted<Written>>,
    /// What was found of its pages before.
    findings: Vec<Finding>,
}

/// Writes the damaged pages of the superblock and of the root anew from their other copies, scrubs the store in a file,
/// and gives the exit status.
pub fn repair_file<R: AllocGlobal + Clock + Files<File = File> + Print + Eprint>(
    rt: &R,
    place: Place,
    manner: Manner,
) -> u8
    ensures { result ≤ 7 }
{
    let (opened, made) = match open_to_repair(rt, place, manner) {
        Ok(opened) => opened,
        Err(unopened) => return explain_unopened(rt, &unopened, manner.style),
    };
    let (commands, _) = opened.store.found();
    warn_of(rt, &opened, commands, manner.style);
    let Opened {
        store,
        findings,
        ..
    } = opened;
    let core = store.into_core();
    if place.loss == Loss::Refused && may_be_lost(&findings) {
        let outcome = stop(rt, &core, &findings, manner);
        return explain(rt, outcome, &Known::nothing(), manner.style);
    }
    match mended(rt, place, core, findings, manner) {
        Ok(mended) => scrub_mended(rt, mended, &made, manner),
        Err(unopened) => explain_unopened(rt, &unopened, manner.style),
    }
}

/// Opens the store in a file to repair it. If a section is lost it is made and written first, as `disk_with_sections` says.
fn open_to_repair<R: AllocGlobal + Clock + Files<File = File> + Eprint>(
    rt: &R,
    place: Place,
    manner: Manner,
) -> Result<Whole, Unopened> {
    match open_as_it_lies(rt, place, manner.style) {
        Ok(opened) => Ok((opened, Vec::new(rt.alloc()))),
        Err(unopened) => open_with_sections(rt, place, unopened, place.loss, manner.style),
    }
}

/// Prints that a repair could make a loss final, and stops.
fn stop<R: AllocGlobal + Print>(
    rt: &R,
    core: &Core<Mounted<Written>>,
    findings: &[Finding],
    manner: Manner,
) -> Outcome {
    match BufWriter::new(rt.alloc(), io::writer(rt)) {
        Ok(mut writer) => stop_repair(core, findings, manner.style, &mut writer),
        Err(_) => Outcome::Failed,
    }
}

/// The store of which each damaged page that has a whole other copy was written anew; where a loss is accepted, after
/// it was kept beside the store.
fn mended<R: AllocGlobal + Files<File = File> + Eprint>(
    rt: &R,
    place: Place,
    core: Core<Mounted<Written>>,
    findings: Vec<Finding>,
    manner: Manner,
) -> Result<MendedStore, Unopened> {
    let core = match place.loss {
        Loss::Refused => core,
        Loss::Accepted => {
            let disk = core.into_disk().into_below();
            open_kept(rt, place.path, disk, &findings, manner.style)?
        }
    };
    match mend(core) {
        Ok(disk) => match Core::open(rt.alloc(), disk, LIMITS) {
            Ok(core) => Ok(MendedStore { core, findings }),
            Err((refusal, disk)) => Err(unmended(rt, refusal, disk)),
        },
        Err((refusal, disk)) => Err(unmended(rt, refusal, disk)),
    }
}

/// The store wasn't repaired, or wasn't opened after it, since that was refused so.
fn unmended<R: AllocGlobal>(rt: &R, refusal: Refusal, disk: Mounted<Written>) -> Unopened {
    let mut disk = disk.into_below();
    Unopened::of_disk(rt.alloc(), refusal, &mut disk)
}

/// Scrubs a store whose damaged pages were written anew, and these of sections that were made, and gives the exit status.
fn scrub_mended<R: AllocGlobal + Clock + Print + Eprint>(
    rt: &R,
    mended: MendedStore,
    made: &[u64],
    manner: Manner,
) -> u8
    ensures { result ≤ 7 }
{
    let MendedStore { mut core, findings } = mended;
    let pages = FoundPages {
        findings: &findings,
        made,
        mended: true,
    };
    let told = Told::new(rt, manner);
    let outcome = match BufWriter::new(rt.alloc(), io::writer(rt)) {
        Ok(mut writer) => scrub(
            rt.alloc(),
            &mut core,
            &pages,
            &told,
            manner.style,
            &mut writer,
        ),
        Err(_) => Outcome::Failed,
    };
    let known = Known::of_system(core.into_disk().into_below().fault());
    explain(rt, outcome, &known, manner.style)
}

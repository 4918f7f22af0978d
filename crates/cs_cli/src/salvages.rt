//! The commands over what can be read of a store in a file that is damaged.
ghost use Rattle.std.specs.Prelude.{◌≤◌};

use crate::salvage_warnings::{warn_of_rescue, warn_of_salvage};
use cs_files::files::{OverFile, Place, Read, disk_to_open, disk_to_salvage, disk_to_scan};
use cs_files::heads::scan;
use cs_files::manners::Manner;
use cs_files::openings::{Opened, Remaking, Shown, Unopened};
use cs_files::progress::{Scanning, Told};
use cs_files::sections::{Section, made_for, pages_of};
use cs_files::warnings::{explain_unopened, warn_of};
use cs_files::{
    Known, Mounted, Outcome, Remade, Rescue, Scanned, Skipping, Sought, Whose, explain, may_be_lost,
};
use cs_frame::{Geometry, ShardId};
use cs_options::Listing;
use cs_refusal::Refusal;
use cs_tools::{
    Named, Salvaged, explain_got, export_salvaged, geometry_of_one, get_rescued, list_rescued,
    look_up, open_rescue, salvage,
};
use std::alloc::Global;
use std::fs::File;
use std::io;
use std::io::BufWriter;
use std::rt::Files;
use std::time::Clock;

/// What a salvage by frames is asked for.
#[derive(Clone, Copy)]
pub struct Asked {
    pub whose: Whose,
    /// The first page that is looked at.
    pub from_page: u64,
    /// The geometry of the store, if it is given.
    pub geometry: Option<Geometry>,
}

/// Prints a script that puts the shards that the frames in a file spell, those of its store or of any, and gives the
/// exit status.
pub fn export_frames<R: AllocGlobal + Clock + Files<File = File> + Print + Eprint>(
    rt: &R,
    place: Place,
    asked: Asked,
    manner: Manner,
) -> u8
    ensures { result ≤ 7 }
{
    match scanned_in(rt, place, asked, manner) {
        Ok(scan) => print_salvaged(rt, scan, manner),
        Err(unopened) => explain_unopened(rt, &unopened, manner.style),
    }
}

/// A file that was scanned.
#[derive(Drop)]
struct Scan {
    disk: Read,
    /// What the frames in it hold.
    found: Salvaged,
    /// What the index says of that; none if it can't be read, or if the geometry was given.
    named: Option<Named>,
}

/// The file at a place, after a scan of its frames.
fn scanned_in<R: AllocGlobal + Clock + Files<File = File> + Eprint>(
    rt: &R,
    place: Place,
    asked: Asked,
    manner: Manner,
) -> Result<Scan, Unopened> {
    let (mut disk, geometry) = salvaged_by(rt, place, asked.geometry, manner)?;
    let sought = Sought {
        geometry,
        whose: asked.whose,
    };
    let scanning = Scanning::new(rt, geometry, manner);
    match salvage(rt.alloc(), &mut disk, sought, asked.from_page, &scanning) {
        Ok(found) => {
            let (disk, named) = if asked.geometry.is_some() {
                (disk, None)
            } else {
                named_on(rt.alloc(), disk, &found)
            };
            Ok(Scan { disk, found, named })
        }
        Err(_) => {
            let refused = Outcome::NoStore(Refusal::OutOfMemory);
            Err(Unopened::of_outcome(rt.alloc(), refused, disk.fault()))
        }
    }
}

/// The file at a place, and the geometry by which it is salvaged: the one that is given, else that of its store.
fn salvaged_by<R: AllocGlobal + Clock + Files<File = File> + Eprint>(
    rt: &R,
    place: Place,
    given: Option<Geometry>,
    manner: Manner,
) -> Result<(Read, Geometry), Unopened> {
    if let Some(geometry) = given {
        return Ok((disk_to_scan(rt, place, manner.style)?, geometry));
    }
    let mut disk = disk_to_salvage(rt, place, manner.style)?;
    match geometry_of_one(rt.alloc(), &mut disk) {
        Ok(geometry) => Ok((disk, geometry)),
        Err(refusal) => Err(Unopened::of_disk(rt.alloc(), refusal, &mut disk)),
    }
}

/// Prints the script of what was found, with warnings of what may be wrong, and gives the exit status.
fn print_salvaged<R: AllocGlobal + Clock + Print + Eprint>(rt: &R, scan: Scan, manner: Manner) -> u8
    ensures { result ≤ 7 }
{
    let Scan { disk, found, named } = scan;
    let mut disk = disk;
    warn_of_salvage(rt, &found, &named, manner.style);
    let told = Told::new(rt, manner);
    let outcome = match BufWriter::new(rt.alloc(), io::writer(rt)) {
        Ok(mut writer) => {
            export_salvaged(rt.alloc(), &mut disk, &found, &named, &told, &mut writer)
        }
        Err(_) => Outcome::Failed,
    };
    explain(rt, outcome, &Known::of_system(disk.fault()), manner.style)
}

/// What the index on a disk says of the shards that were found there, if its root can be read. Pages that couldn't be
/// read aren't asked for again.
fn named_on(alloc: Global, disk: Read, found: &Salvaged) -> (Read, Option<Named>) {
    let Ok(unreadable) = Vec::from_slice(alloc, &found.unreadable) else {
        return (disk, None);
    };
    match open_rescue(alloc, Skipping::new(disk, unreadable)) {
        Ok((rescue, findings)) => {
            let named = look_up(alloc, &rescue, &findings, &found.shards).ok();
            (rescue.into_disk().into_disk().into_disk(), named)
        }
        Err((_, disk)) => (disk.into_disk(), None),
    }
}

/// What can be got of a store in a file.
type Rescued = Rescue<Mounted<Remade<Read>>>;

/// What can be got of the store in a file, with warnings of what can't.
fn rescue_in_file<R: AllocGlobal + Clock + Files<File = File> + Eprint>(
    rt: &R,
    place: Place,
    manner: Manner,
) -> Result<Rescued, Unopened> {
    let opened = rescued(rt, disk_to_open(rt, place, manner.style)?)?;
    let rescue = &opened.store;
    warn_of(rt, &opened, rescue.commands(), manner.style);
    let root = if rescue.root_lost() {
        Some(rescue.version())
    } else {
        None
    };
    warn_of_rescue(rt, root, rescue.damaged(), manner.style);
    Ok(opened.store)
}

/// What can be got of the store on a disk. If the newest root may be the one that is damaged, the device is scanned
/// first for the commands that are on it.
fn rescued<R: AllocGlobal + Clock>(
    rt: &R,
    disk: Remade<Read>,
) -> Result<Opened<Rescued>, Unopened> {
    let opened = rescue_on(rt.alloc(), disk, None)?;
    if !may_be_lost(&opened.findings) {
        return Ok(opened);
    }
    let Opened { store, made, .. } = opened;
    let mut disk = store.into_disk().into_below();
    let scanned = scan(rt, &mut disk);
    // The disk shows the sections that were made.
    let mut opened = rescue_on(rt.alloc(), disk, scanned)?;
    opened.made = made;
    Ok(opened)
}

/// What can be got of the store on a disk, of which a scan found this.
fn rescue_on(
    alloc: Global,
    disk: Remade<Read>,
    scanned: Option<Scanned>,
) -> Result<Opened<Rescued>, Unopened> {
    let (refusal, mut disk) = match open_rescue(alloc, disk) {
        Ok((store, findings)) => {
            if store.damaged().is_none() {
                return Ok(Opened {
                    store,
                    findings,
                    scanned,
                    made: Vec::new(alloc),
                });
            }
            // By an older section a run may seem to be gone.
            (Refusal::NotAStore, store.into_disk().into_below())
        }
        Err(refused) => refused,
    };
    let made = made_for(alloc, refusal, &mut disk);
    if made.is_empty() {
        return rescue_as_it_lies(alloc, disk, scanned);
    }
    rescue_with(alloc, refusal, disk, made, scanned)
}

/// What can be got of the store on a disk by its pages as they lie there.
fn rescue_as_it_lies(
    alloc: Global,
    disk: Remade<Read>,
    scanned: Option<Scanned>,
) -> Result<Opened<Rescued>, Unopened> {
    match open_rescue(alloc, disk) {
        Ok((store, findings)) => Ok(Opened {
            store,
            findings,
            scanned,
            made: Vec::new(alloc),
        }),
        Err((refusal, mut disk)) => Err(Unopened::of_disk(alloc, refusal, &mut disk)),
    }
}

/// The same of a disk that was refused so, with these sections in place of those that are lost.
fn rescue_with(
    alloc: Global,
    refusal: Refusal,
    disk: Remade<Read>,
    made: Vec<Section>,
    scanned: Option<Scanned>,
) -> Result<Opened<Rescued>, Unopened> {
    let pages = pages_of(alloc, &made);
    let shown = match disk.with(made) {
        Ok(shown) => shown,
        Err(mut disk) => return Err(Unopened::of_disk(alloc, refusal, &mut disk)),
    };
    match open_rescue(alloc, shown) {
        Ok((store, findings)) => Ok(Opened {
            store,
            findings,
            scanned,
            made: pages,
        }),
        Err((refusal, mut disk)) => Err(Unopened::of_disk(alloc, refusal, &mut disk)),
    }
}

/// Lists the shards that can be known of, and gives the exit status.
pub fn list_rest<R: AllocGlobal + Clock + Files<File = File> + Print + Eprint>(
    rt: &R,
    place: Place,
    listing: Listing,
    manner: Manner,
) -> u8
    ensures { result ≤ 7 }
{
    let rescue = match rescue_in_file(rt, place, manner) {
        Ok(rescue) => rescue,
        Err(unopened) => return explain_unopened(rt, &unopened, manner.style),
    };
    let Listing { from, most, .. } = listing;
    let outcome = match BufWriter::new(rt.alloc(), io::writer(rt)) {
        Ok(mut writer) => list_rescued(
            rt.alloc(),
            &rescue,
            from,
            most as usize,
            manner.style,
            &mut writer,
        ),
        Err(_) => Outcome::Failed,
    };
    let known = Known::of_system(rescue.into_disk().into_below().fault());
    explain(rt, outcome, &known, manner.style)
}

/// Writes out a shard, if it can be read, and gives the exit status.
pub fn get_rest<R: AllocGlobal + Clock + Files<File = File> + Print + Eprint>(
    rt: &R,
    place: Place,
    id: ShardId,
    manner: Manner,
) -> u8
    ensures { result ≤ 7 }
{
    let mut rescue = match rescue_in_file(rt, place, manner) {
        Ok(rescue) => rescue,
        Err(unopened) => return explain_unopened(rt, &unopened, manner.style),
    };
    let Ok(mut writer) = BufWriter::new(rt.alloc(), io::writer(rt)) else {
        return explain(rt, Outcome::Failed, &Known::nothing(), manner.style);
    };
    let got = get_rescued(rt.alloc(), &mut rescue, id, &mut writer);
    let known = Known::of_system(rescue.into_disk().into_below().fault());
    explain_got(rt, got, &known, manner.style)
}

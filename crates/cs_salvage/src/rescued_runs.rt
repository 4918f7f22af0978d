//! The runs of a root, read from the newest on.
ghost use Rattle.std.specs.Prelude.{◌≡◌, ◌≢◌, ◌+◌, ◌*◌, ◌-◌, ◌<◌, ◌≤◌, ◌⊎◌, ◌∷◌, [], IfErr, IfOk, IfSome, MatchBool, MatchOption, OnOk, Some, length, slice_get};
ghost use Rattle.std.specs.List.{AllByRecursion};
ghost use Rattle.cs_chunk.specs.Reads.{IsCaused, IsNoAnswer, pages_in};
ghost use Rattle.cs_disk.specs.Disk.{HasCause, page, seen};
ghost use Rattle.cs_disk.specs.Reads.{OnlyReads};
ghost use Rattle.cs_extent.specs.State.{shape};
ghost use Rattle.cs_frame.specs.FormatNumbers.{number_in};
ghost use Rattle.cs_frame.specs.FormatRuns.{SpellsRun};
ghost use Rattle.cs_frame.specs.Frames.{payload_in};
ghost use Rattle.cs_frame.specs.Runs.{IsRun, entries_of as spelled_entries};
ghost use Rattle.cs_reader.specs.ImageReads.{IsLocated};
ghost use Rattle.cs_salvage.specs.Founds.{NothingWaits};
ghost use Rattle.cs_salvage.specs.Runs.{AreNewestRead, HasMeantRun, HasNoRun, HasRightDigest, IsDamageCaused, IsMeantFront, IsOtherHeader, IsRunRescued, IsWhyNoRun, NoneBeforeNoise};

use crate::parts::read_pages;
use cs_deps::Graph;
use cs_disk::{DiskFault, PageDisk, refusal_of_disk};
use cs_extent::Extents;
use cs_frame::{
    Format, FormatFault, FormatNumber, FrameKind, Locator, decode_frame_header,
    decode_meant_header, decode_run,
};
use cs_index::StoredRun;
use cs_reader::{is_located, read_run};
use cs_refusal::Refusal;
use sha2::{Digest, Sha256};
use std::alloc::{AllocError, Global};

/// A run that couldn't be read.
#[derive(Clone, Copy, Debug, PartialEq, Eq)]
pub struct DamagedRun {
    /// Where the root has it.
    pub place: Locator,
    /// Why it couldn't be: 1 if the device failed, 20 to 25 if it is damaged. 26 if another frame or a run of another
    /// store lies there, or if the place isn't located any more. It isn't 23 if only the zeros behind its payload are
    /// damaged: then it is read.
    pub refusal: Refusal,
}

/// The runs that were read, oldest first, and the one before them that couldn't be.
#[derive(Drop)]
pub struct NewestRuns {
    pub runs: Vec<StoredRun>,
    pub damaged: Option<DamagedRun>,
}

/// The pages of the frame of a run that begins at a place, as its header counts them. None if the first page isn't
/// that of the run that the place means.
fn read_meant_pages<D: PageDisk>(
    alloc: Global,
    extents: &Extents,
    disk: &mut D,
    place: Locator,
) -> Result<Option<Vec<[u8; 4096]>>, DiskFault>
    requires device { 2 + (shape extents.now).extents * (shape extents.now).pages ≤ D.page_count disk.old }
    requires extent { place.extent < (shape extents.now).extents }
    requires page { place.page < (shape extents.now).pages }
    ensures pages { D.honest disk.old → let all = pages_in extents.now (page (seen (D.state disk.old))) place in
        IfOk result (λ found. MatchOption found (IsOtherHeader extents.now.format place.mark all) (λ pages. IsMeantFront extents.now.format place.mark all pages.items)) }
    ensures some { IfOk result (λ found. IfSome found (λ pages. 0 < length pages.items)) }
    ensures disk { OnlyReads D.PageDisk disk.old disk.new }
    ensures cause { HasCause (D.failure_count disk.old) (D.failure_count disk.new) result }
{
    let geometry = extents.geometry();
    let end = extents.end_of(usize::from(place.extent), usize::from(place.page));
    let there = end - usize::from(place.page);
    let number = geometry.device_page(place.extent, place.page);
    let mut first = [0; 4096];
    match disk.read(number, &mut first) {
        Ok(()) => {}
        Err(fault) => return Err(fault),
    }
    let format = geometry.format();
    let Ok(header) = decode_meant_header(format, FrameKind::Run, place.mark, &first, there) else {
        return Ok(None);
    };
    match read_pages(alloc, disk, number, &first, header.pages()) {
        Ok(pages) => Ok(Some(pages)),
        Err(fault) => Err(fault),
    }
}

/// The payload of the run's frame that these pages are, if its digest is right, whatever follows it.
fn payload_before_noise(number: FormatNumber, pages: &[[u8; 4096]]) -> Option<&[u8]>
    requires { 0 < length pages.now }
    ensures { MatchOption result (¬ HasRightDigest number pages.now) (λ payload. HasRightDigest number pages.now × (payload.now ≡ payload_in pages.now)) }
{
    let Ok(header) = decode_frame_header(number, FrameKind::Run, &pages[0], pages.len()) else {
        return None;
    };
    let bytes = pages[..header.pages()].as_flattened();
    let end = 41 + header.payload_len as usize;
    if bytes[9..41] == Sha256::digest(&bytes[41..end])[..] {
        Some(&bytes[41..end])
    } else {
        None
    }
}

/// The run in these pages, which are those of its frame, whatever follows its payload. None if there is none.
fn run_before_noise(
    alloc: Global,
    format: Format,
    place: Locator,
    pages: &[[u8; 4096]],
) -> Result<Option<StoredRun>, AllocError>
    requires { 0 < length pages.now }
    ensures run { IfOk result (λ found. MatchOption found (HasNoRun format pages.now)
        (λ run. HasRightDigest (number_in format) pages.now × SpellsRun (payload_in pages.now) format (spelled_entries run.entries.items))) }
    ensures place { IfOk result (λ found. IfSome found (λ run. run.place ≡ place)) }
    ensures bounds { IfOk result (λ found. IfSome found (λ run. IsRun format (record { entries = run.entries }))) }
{
    let Some(payload) = payload_before_noise(format.number(), pages) else {
        return Ok(None);
    };
    match decode_run(alloc, format, payload) {
        Ok(run) => Ok(Some(StoredRun {
            place,
            entries: run.entries,
        })),
        Err(FormatFault::OutOfMemory) => Err(AllocError),
        Err(_) => Ok(None),
    }
}

/// Reads the run at a place of whose frame all is right but the zeros after its payload. Refused 23 BadPadding if
/// there is none.
fn read_before_noise<D: PageDisk>(
    alloc: Global,
    extents: &Extents,
    disk: &mut D,
    place: Locator,
) -> Result<StoredRun, Refusal>
    requires device { 2 + (shape extents.now).extents * (shape extents.now).pages ≤ D.page_count disk.old }
    requires located { IsLocated extents.now place }
    ensures read { D.honest disk.old → IfOk result (λ run. HasMeantRun extents.now (page (seen (D.state disk.old))) place (spelled_entries run.entries.items)) }
    ensures place { IfOk result (λ run. run.place ≡ place) }
    ensures run { IfOk result (λ run. IsRun (shape extents.now).format (record { entries = run.entries })) }
    ensures why { D.honest disk.old → IfErr result (λ r. IsNoAnswer r ⊎ ((r ≡ Refusal.BadPadding) × NoneBeforeNoise extents.now (page (seen (D.state disk.old))) place)) }
    ensures disk { OnlyReads D.PageDisk disk.old disk.new }
    ensures cause { IsCaused (D.failure_count disk.old) (D.failure_count disk.new) result }
{
    // Called for its contract alone: what all extents keep.
    extents.extent_count();
    let pages = match read_meant_pages(alloc, extents, disk, place) {
        Ok(Some(pages)) => pages,
        Ok(None) => return Err(Refusal::BadPadding),
        Err(fault) => return Err(refusal_of_disk(fault)),
    };
    match run_before_noise(alloc, extents.geometry().format(), place, &pages)? {
        Some(run) => Ok(run),
        None => Err(Refusal::BadPadding),
    }
}

/// Whether it is refused for the zeros behind a payload.
fn is_padding(refusal: Refusal) -> bool
    ensures { MatchBool result (refusal ≡ Refusal.BadPadding) (refusal ≢ Refusal.BadPadding) }
{
    match refusal {
        Refusal::BadPadding => true,
        _ => false,
    }
}

/// Reads the run at a place, while nothing waits. If only the zeros behind its payload are damaged it is read. Refused
/// 26 Misplaced if the place isn't located, before the device is asked.
fn read_located<D: PageDisk>(
    alloc: Global,
    extents: &Extents,
    graph: &Graph,
    disk: &mut D,
    place: Locator,
) -> Result<StoredRun, Refusal>
    requires device { 2 + (shape extents.now).extents * (shape extents.now).pages ≤ D.page_count disk.old }
    requires none { NothingWaits graph.now }
    ensures read { D.honest disk.old → IfOk result (λ run. IsRunRescued extents.now (page (seen (D.state disk.old))) run) }
    ensures place { IfOk result (λ run. run.place ≡ place) }
    ensures run { IfOk result (λ run. IsRun (shape extents.now).format (record { entries = run.entries })) }
    ensures why { D.honest disk.old → IfErr result (λ r. IsNoAnswer r ⊎ IsWhyNoRun extents.now (page (seen (D.state disk.old))) place r) }
    ensures disk { OnlyReads D.PageDisk disk.old disk.new }
    ensures cause { IsCaused (D.failure_count disk.old) (D.failure_count disk.new) result }
{
    // Called for its contract alone: what all extents keep.
    extents.extent_count();
    if !is_located(extents, place) {
        return Err(Refusal::Misplaced);
    }
    let refusal = match read_run(alloc, extents, graph, disk, place) {
        Ok(run) => return Ok(run),
        Err(refusal) => refusal,
    };
    if !is_padding(refusal) {
        return Err(refusal);
    }
    read_before_noise(alloc, extents, disk, place)
}

/// The runs that were read before one was refused so. 9 OutOfMemory is passed on: reading again may go further.
fn stopped_at(runs: Vec<StoredRun>, place: Locator, refusal: Refusal) -> Result<NewestRuns, Refusal>
    ensures runs { IfOk result (λ found. found.runs ≡ runs) }
    ensures damaged { IfOk result (λ found. found.damaged ≡ Some (record { place = place; refusal = refusal })) }
    ensures answered { IfOk result (λ _. refusal ≢ Refusal.OutOfMemory) }
    ensures memory { IfErr result (λ r. r ≡ Refusal.OutOfMemory) }
{
    match refusal {
        Refusal::OutOfMemory => Err(Refusal::OutOfMemory),
        _ => Ok(NewestRuns {
            runs,
            damaged: Some(DamagedRun { place, refusal }),
        }),
    }
}

/// No run yet.
fn no_runs(alloc: Global) -> Vec<StoredRun>
    ensures { result.items ≡ [] }
{
    Vec::new(alloc)
}

/// The place with number k from the end on, counted from 0.
fn place_from_end(places: &[Locator], k: usize) -> Locator
    requires { k < length places.now }
    ensures { slice_get places.now (length places.now - 1 - k) ≡ Some result }
{
    places[places.len() - 1 - k]
}

/// Puts a run before the others.
fn put_first(runs: &mut Vec<StoredRun>, run: StoredRun) -> Result<(), AllocError>
    ensures { OnOk result (runs.new.items ≡ run ∷ runs.old.items) }
{
    runs.insert(0, run)?;
    Ok(())
}

/// Reads the runs at these places, which are listed oldest first, from the newest on, up to one that can't be read. If
/// only the zeros after a run's payload are damaged, it is read. Refused 9 OutOfMemory alone.
pub fn read_newest<D: PageDisk>(
    alloc: Global,
    extents: &Extents,
    graph: &Graph,
    disk: &mut D,
    places: &[Locator],
) -> Result<NewestRuns, Refusal>
    requires device { 2 + (shape extents.now).extents * (shape extents.now).pages ≤ D.page_count disk.old }
    requires none { NothingWaits graph.now }
    ensures newest { IfOk result (λ found. AreNewestRead (D.honest disk.old) extents.now (page (seen (D.state disk.old))) places.now found.runs.items found.damaged) }
    ensures runs { IfOk result (λ found. AllByRecursion (λ run. IsRun (shape extents.now).format (record { entries = run.entries })) found.runs.items) }
    ensures memory { IfErr result (λ r. r ≡ Refusal.OutOfMemory) }
    ensures disk { OnlyReads D.PageDisk disk.old disk.new }
    ensures cause { IfOk result (λ found. IsDamageCaused (D.failure_count disk.old) (D.failure_count disk.new) found.damaged) }
{
    let mut runs = no_runs(alloc);
    for k in 0..places.len() {
        let place = place_from_end(places, k);
        match read_located(alloc, extents, graph, disk, place) {
            Ok(run) => put_first(&mut runs, run)?,
            Err(refusal) => return stopped_at(runs, place, refusal),
        }
    }
    Ok(NewestRuns {
        runs,
        damaged: None,
    })
}

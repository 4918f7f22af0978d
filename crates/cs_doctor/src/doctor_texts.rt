//! A diagnosis as text.
ghost use Rattle.std.specs.Prelude.{◌≡◌, ◌++◌, IfOk, OnOk, flat_map, string_bytes};
ghost use Rattle.cs_doctor.specs.DoctorReports.{HasMade, TellsMade, made_line};

use crate::diagnoses::{
    Deep, Diagnosis, FileDiagnosis, Frames, HeadFound, Opening, PairFound, RootFound, RunFound,
    StoreFound,
};
use crate::diagnosis_counts::{DamageCounts, Frontier, damages_of, frontier_of};
use cs_advice::{Content, meaning, system_text};
use cs_frame::{Geometry, Locator};
use cs_refusal::Refusal;
use cs_twin::Half;
use std::alloc::{AllocError, Global};
use uuid::Uuid;

/// The most pages that are listed.
const LISTED: usize = 16;

/// The lines of a diagnosis, but for the commands to type next.
pub fn page_of(alloc: Global, found: &FileDiagnosis) -> Result<String, AllocError>
    ensures { IfOk result (λ text. TellsMade found.now (string_bytes text)) }
{
    match found {
        FileDiagnosis::Unopened(fault) => {
            let why = system_text(*fault);
            format!(in alloc; "the file can't be opened: {why}\n")
        }
        FileDiagnosis::InUse { pages, geometry } => in_use_lines(alloc, *pages, geometry),
        FileDiagnosis::OddLength { bytes } => {
            format!(in alloc; "length {bytes} bytes, no multiple of 4096\n")
        }
        FileDiagnosis::Found(diagnosis) => lines_of(alloc, diagnosis),
    }
}

/// The lines of a file that another process has open.
fn in_use_lines(
    alloc: Global,
    pages: u64,
    geometry: &Option<Geometry>,
) -> Result<String, AllocError> {
    let mut text = format!(in alloc; "in use: another process has the file open\n")?;
    add_geometry(alloc, &mut text, geometry)?;
    let line = length_text(alloc, pages, geometry)?;
    text.push_str(&line)?;
    Ok(text)
}

/// The line of the length of a file that has so many pages, against those that a geometry asks for.
fn length_text(
    alloc: Global,
    pages: u64,
    geometry: &Option<Geometry>,
) -> Result<String, AllocError> {
    match geometry {
        Some(geometry) => {
            let wanted = geometry.device_pages();
            format!(in alloc; "length {pages} pages, and the superblock says {wanted}\n")
        }
        None => format!(in alloc; "length {pages} pages\n"),
    }
}

/// The lines of what was found of a disk.
fn lines_of(alloc: Global, found: &Diagnosis) -> Result<String, AllocError>
    ensures { IfOk result (λ text. HasMade found.now.made.items (string_bytes text)) }
{
    let mut text = lines_of_pages(alloc, found)?;
    add_all_made(alloc, &mut text, &found.made)?;
    let rest = lines_of_store(alloc, found)?;
    text.push_str(&rest)?;
    Ok(text)
}

/// The lines of the geometry, the length and the pairs.
fn lines_of_pages(alloc: Global, found: &Diagnosis) -> Result<String, AllocError> {
    let mut text = String::new(alloc);
    add_geometry(alloc, &mut text, &found.looked.geometry)?;
    add_content(alloc, &mut text, found)?;
    for k in 0..found.looked.pairs.len() {
        add_pair(alloc, &mut text, k, found.looked.pairs[k])?;
    }
    Ok(text)
}

/// The lines of root and index, of all frames, and the last one.
fn lines_of_store(alloc: Global, found: &Diagnosis) -> Result<String, AllocError> {
    let mut text = String::new(alloc);
    add_store(alloc, &mut text, &found.store)?;
    add_deep(alloc, &mut text, &found.store.head, &found.looked.deep)?;
    let line = verdict_of(found);
    text.push_str(line)?;
    Ok(text)
}

/// The last line.
fn verdict_of(found: &Diagnosis) -> &'static str {
    match found.store.opening {
        Opening::Opened { .. } if found.is_sound() => "sound\n",
        Opening::Opened { .. } => "degraded\n",
        Opening::Refused { .. } => "not to be opened\n",
    }
}

/// Adds the line of a store's format, identity and geometry.
fn add_geometry(
    alloc: Global,
    text: &mut String,
    geometry: &Option<Geometry>,
) -> Result<(), AllocError> {
    let Some(geometry) = geometry else {
        return text.push_str("no geometry: no superblock can be read that says one\n");
    };
    let format = geometry.format().number().value();
    let extents = geometry.extents();
    let pages = geometry.pages();
    let sections = geometry.sections();
    let store = match geometry.format().store() {
        Some(id) => {
            let id = Uuid::from_bytes(id.0).simple();
            format!(in alloc; ", id {id}")?
        }
        None => String::new(alloc),
    };
    let line = format!(in alloc;
        "format {format}{store}, {extents} extents of {pages} pages, sections {sections}\n"
    )?;
    text.push_str(&line)
}

/// Adds the line of the length, and of what the disk holds.
fn add_content(alloc: Global, text: &mut String, found: &Diagnosis) -> Result<(), AllocError> {
    let all = found.file_pages;
    let pages = found.looked.pages;
    let line = match found.looked.content {
        Content::Empty => format!(in alloc; "length 0: the file is empty\n")?,
        Content::Length { wanted, .. } => {
            format!(in alloc; "length {all} pages, and the superblock says {wanted}\n")?
        }
        Content::Store { .. } if all == pages => {
            format!(in alloc; "length {all} pages, as the superblock says\n")?
        }
        Content::Store { .. } => {
            format!(in alloc; "length {all} pages, and the superblock says {pages}\n")?
        }
        Content::TwoStores { first, last } => {
            let first = Uuid::from_bytes(first.0).simple();
            let last = Uuid::from_bytes(last.0).simple();
            format!(in alloc;
                "length {all} pages, of two stores: {first} on page 0, {last} on the last page\n"
            )?
        }
        other => {
            let what = words_of(other);
            format!(in alloc; "length {all} pages: {what}\n")?
        }
    };
    text.push_str(&line)
}

/// What a disk holds of which no length is known.
fn words_of(content: Content) -> &'static str {
    match content {
        Content::Superseded => "a store of an earlier version, which this one doesn't read",
        Content::Torn { .. } => "a store, and neither page of a pair is whole",
        Content::Broken => "a store of format 2, and a page that it needs is damaged",
        Content::Left => "a root, and no superblock",
        _ => "no store that is recognised",
    }
}

/// Adds the line of a pair.
fn add_pair(
    alloc: Global,
    text: &mut String,
    k: usize,
    found: PairFound,
) -> Result<(), AllocError> {
    let page = found.pair.page;
    let twin = found.pair.twin;
    let own = half_text(alloc, found.own)?;
    let other = half_text(alloc, found.twin)?;
    let name = pair_name(alloc, k)?;
    let line = format!(in alloc; "{name}: page {page} {own}, page {twin} {other}\n")?;
    text.push_str(&line)
}

/// Adds the lines of the pages on which a section was made.
fn add_all_made(alloc: Global, text: &mut String, made: &[u64]) -> Result<(), AllocError>
    ensures { OnOk result (string_bytes text.new ≡ string_bytes text.old ++ flat_map made_line made.now) }
{
    for k in 0..made.len() {
        add_made(alloc, text, made[k])?;
    }
    Ok(())
}

/// Adds the line of a page on which a section was made.
fn add_made(alloc: Global, text: &mut String, page: u64) -> Result<(), AllocError>
    ensures { OnOk result (string_bytes text.new ≡ string_bytes text.old ++ made_line page) }
{
    let line = format!(in alloc; "section on page {page} lost, made from the index\n")?;
    text.push_str(&line)
}

/// The name of a pair: the first is that of section 0, the second that of the root.
pub fn pair_name(alloc: Global, k: usize) -> Result<String, AllocError> {
    match k {
        0 => format!(in alloc; "section 0"),
        1 => format!(in alloc; "root"),
        _ => {
            let section = k.saturating_sub(1);
            format!(in alloc; "section {section}")
        }
    }
}

/// What a page of a pair holds.
fn half_text(alloc: Global, half: Option<Half>) -> Result<String, AllocError> {
    match half {
        Some(Half::Whole(version)) => format!(in alloc; "version {version}"),
        Some(Half::Fence) => format!(in alloc; "fence"),
        Some(Half::Damaged) => format!(in alloc; "damaged"),
        None => format!(in alloc; "can't be read"),
    }
}

/// Adds the lines of a store: its root, its runs, and what its index names.
fn add_store(alloc: Global, text: &mut String, found: &StoreFound) -> Result<(), AllocError> {
    match found.head.root {
        Some(root) => add_root(alloc, text, root)?,
        None => text.push_str("root: it can't be read, or the superblock can't\n")?,
    }
    for k in 0..found.head.runs.len() {
        add_run(alloc, text, found.head.runs[k])?;
    }
    for k in 0..found.head.worn.len() {
        let extent = found.head.worn[k];
        let line = format!(in alloc; "extent {extent}: worn, never emptied any more\n")?;
        text.push_str(&line)?;
    }
    add_opening(alloc, text, &found.opening)
}

/// Adds the line of the root that was read.
fn add_root(alloc: Global, text: &mut String, root: RootFound) -> Result<(), AllocError> {
    let RootFound {
        version,
        commands,
        lost,
    } = root;
    let why = if lost {
        "; a newer root was persistent and is lost"
    } else {
        ""
    };
    let line = format!(in alloc; "root version {version}, commands {commands}{why}\n")?;
    text.push_str(&line)
}

/// Adds the line of a run.
fn add_run(alloc: Global, text: &mut String, run: RunFound) -> Result<(), AllocError> {
    let Locator { extent, page, .. } = run.place;
    let line = match run.entries {
        Ok(entries) => format!(in alloc; "run extent {extent} page {page} entries {entries}\n")?,
        Err(refusal) => {
            let why = refused_text(alloc, refusal)?;
            format!(in alloc; "run extent {extent} page {page} {why}\n")?
        }
    };
    text.push_str(&line)
}

/// The number and the name of a refusal, and what it is.
fn refused_text(alloc: Global, refusal: Refusal) -> Result<String, AllocError> {
    let number = refusal.number();
    let name = refusal.name();
    let what = meaning(refusal);
    format!(in alloc; "refused {number} {name}: {what}")
}

/// Adds the lines of what the index names.
fn add_opening(alloc: Global, text: &mut String, opening: &Opening) -> Result<(), AllocError> {
    match opening {
        Opening::Opened { shards, scrubbed } => {
            let counts = damages_of(alloc, &scrubbed.damages)?;
            let damaged = counts.shards.len();
            let line = format!(in alloc; "shards {shards}, damaged {damaged}\n")?;
            text.push_str(&line)?;
            add_failing(alloc, text, &counts)
        }
        Opening::Refused { refusal, rest } => {
            let why = refused_text(alloc, *refusal)?;
            let line = format!(in alloc; "{why}\n")?;
            text.push_str(&line)?;
            match rest {
                Some(rest) => {
                    let shards = rest.shards;
                    let unread = rest.unread;
                    let line = format!(in alloc;
                        "shards {shards} named by the runs that can be read, damaged {unread}\n"
                    )?;
                    text.push_str(&line)
                }
                None => Ok(()),
            }
        }
    }
}

/// The line of an extent with a page that the device refuses to read.
fn failing_text(alloc: Global, extent: u16) -> Result<String, AllocError> {
    format!(in alloc;
        "extent {extent}: a page can't be read (put, del, reclaim and run leave the extent out by --skip-extent {extent})\n"
    )
}

/// Adds a line for each extent with frames that the device refuses to read.
fn add_failing(alloc: Global, text: &mut String, counts: &DamageCounts) -> Result<(), AllocError> {
    for k in 0..counts.failing.len() {
        let line = failing_text(alloc, counts.failing[k])?;
        text.push_str(&line)?;
    }
    Ok(())
}

/// Adds the lines of what was found by all pages.
fn add_deep(
    alloc: Global,
    text: &mut String,
    head: &HeadFound,
    deep: &Deep,
) -> Result<(), AllocError> {
    match deep {
        Deep::NotAsked => Ok(()),
        Deep::NoStore => {
            text.push_str(
                "frames on the device: not looked for, as no store of format 4 is found\n",
            )
        }
        Deep::Found(frames) => add_frames(alloc, text, head, frames),
    }
}

/// Adds the lines of the frames on the device.
fn add_frames(
    alloc: Global,
    text: &mut String,
    head: &HeadFound,
    frames: &Frames,
) -> Result<(), AllocError> {
    let pages = unreadable_text(alloc, &frames.unreadable)?;
    text.push_str(&pages)?;
    let shards = frames.shards;
    let missing = frames.missing;
    let line = format!(in alloc;
        "frames on the device: whole shards {shards}, newest puts that aren't whole {missing}\n"
    )?;
    text.push_str(&line)?;
    match head.root {
        Some(root) => {
            let frontier = frontier_of(&frames.parts, root.commands);
            let line = frontier_text(alloc, root.commands, frontier)?;
            text.push_str(&line)
        }
        None => Ok(()),
    }
}

/// The line of the pages of extents that can't be read.
fn unreadable_text(alloc: Global, pages: &[u64]) -> Result<String, AllocError> {
    let count = pages.len();
    let mut text = format!(in alloc; "pages of extents that can't be read {count}")?;
    if count > 0 {
        text.push_str(":")?;
    }
    for number in pages.iter().take(LISTED) {
        let next = format!(in alloc; " {number}")?;
        text.push_str(&next)?;
    }
    if count > LISTED {
        text.push_str(" ..")?;
    }
    text.push_str("\n")?;
    Ok(text)
}

/// The line of the frames whose commands the root doesn't count.
fn frontier_text(alloc: Global, commands: u64, frontier: Frontier) -> Result<String, AllocError> {
    let Frontier { above, greatest } = frontier;
    if above == 0 {
        return format!(in alloc; "frames of commands above {commands}: 0\n");
    }
    format!(in alloc;
        "frames of commands above {commands}: {above}, up to command {greatest}: a newer root was lost, or these were never acknowledged\n"
    )
}

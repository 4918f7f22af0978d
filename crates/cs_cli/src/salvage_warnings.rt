//! What is printed on standard error of what was read of a store that doesn't open.

use cs_files::warnings::{warn_of_count, warn_text};
use cs_files::{DamagedRun, Missing, Naming, Style, count_of, warn};
use cs_frame::Locator;
use cs_tools::{Named, Salvaged};
use uuid::Uuid;

/// Warns of what isn't known of a store that was read for what can be got of it, as of the root of this version: where
/// a later one is recorded, and where a run can't be read.
pub fn warn_of_rescue<R: AllocGlobal + Eprint>(
    rt: &R,
    root: Option<u64>,
    damaged: Option<DamagedRun>,
    style: Style,
) {
    if let Some(root) = root {
        let text = format!(in rt.alloc();
            "a newer root was persistent: this is as of root {root}, and what it names may have been written over"
        );
        warn_text(rt, text, style);
    }
    if let Some(DamagedRun { place, refusal }) = damaged {
        let Locator { extent, page, .. } = place;
        let number = refusal.number();
        let name = refusal.name();
        let text = format!(in rt.alloc();
            "the run at extent {extent} page {page} is refused {number} {name}; nothing is known of what it and older runs alone name"
        );
        warn_text(rt, text, style);
    }
}

/// Warns of what may be among the shards that frames spell, of what the index says of them, of which of their newest
/// puts aren't whole, and of what wasn't looked at.
pub fn warn_of_salvage<R: AllocGlobal + Eprint>(
    rt: &R,
    found: &Salvaged,
    named: &Option<Named>,
    style: Style,
) {
    warn(
        rt,
        "these are the newest whole shards that frames in the file spell; shards that were deleted since, or never acknowledged, may be among them",
        style,
    );
    match named {
        Some(named) => warn_of_names(rt, named, style),
        None => warn(
            rt,
            "the index is not read: it is not known which of these shards were deleted since or never acknowledged, nor whether others are missing",
            style,
        ),
    }
    for missing in &found.missing {
        warn_of_missing(rt, *missing, style);
    }
    warn_of_pages_left(rt, found, style);
}

/// Warns that the newest put of an identifier isn't whole.
fn warn_of_missing<R: AllocGlobal + Eprint>(rt: &R, missing: Missing, style: Style) {
    let name = Uuid::from_bytes(missing.put.id.0).hyphenated();
    let command = missing.put.command;
    let why = if missing.ambiguous {
        "ambiguous: two puts have that number"
    } else {
        "not whole"
    };
    let text = format!(in rt.alloc(); "{name}: its newest put, command {command}, is {why}");
    warn_text(rt, text, style);
}

/// Warns of the shards that the index hasn't as they were found, and of those that weren't found.
fn warn_of_names<R: AllocGlobal + Eprint>(rt: &R, named: &Named, style: Style) {
    let count = |naming: Naming| count_of(&named.namings, naming);
    warn_of_count(
        rt,
        count(Naming::Deleted),
        "of these shards were deleted, by the index",
        style,
    );
    warn_of_count(
        rt,
        count(Naming::Unnamed),
        "of these shards are not in the index: they were deleted, or never acknowledged",
        style,
    );
    warn_of_count(
        rt,
        count(Naming::Otherwise),
        "of these shards are not as the index has them: they are older, or were never acknowledged",
        style,
    );
    warn_of_count(
        rt,
        count(Naming::Unknown),
        "of these shards are not in what can be read of the index: it is not known whether they were deleted",
        style,
    );
    warn_of_count(
        rt,
        named.lacking,
        "shards that the index has were not found",
        style,
    );
    if !named.is_whole {
        warn(
            rt,
            "a part of the index cannot be read, or a newer root is lost or may be: there may be more changes",
            style,
        );
    }
}

/// Warns of what a salvage didn't look at: pages that can't be read, those before the first, and those that a short
/// file lacks.
fn warn_of_pages_left<R: AllocGlobal + Eprint>(rt: &R, found: &Salvaged, style: Style) {
    for page in &found.unreadable {
        let text = format!(in rt.alloc();
            "page {page} cannot be read: frames that have it are not found"
        );
        warn_text(rt, text, style);
    }
    let geometry = found.sought.geometry;
    let end = 2 + u64::from(geometry.extents()) * u64::from(geometry.pages());
    let count = found.unreadable.len();
    if count > 0 {
        let text = format!(in rt.alloc(); "in all {count} of the pages up to {end} cannot be read");
        warn_text(rt, text, style);
    }
    let from = found.from_page;
    if from > 2 {
        let text = format!(in rt.alloc(); "pages before page {from} were not looked at");
        warn_text(rt, text, style);
    }
    let pages = found.device_pages;
    if pages < end {
        let text = format!(in rt.alloc();
            "the file ends at page {pages}, and the extents at page {end}: frames between them are missing"
        );
        warn_text(rt, text, style);
    }
}

//! The rows of a superblock's sections: as they are made from what is named, and whether they have it.
ghost use Rattle.std.specs.Prelude.{◌≡◌, ◌≤◌, IfOk};
ghost use Rattle.std.specs.List.{AllByRecursion, list_all, list_any};
ghost use Rattle.cs_mount.specs.MadeSections.{AreMadeFrom, is_past, is_there, made_row, made_rows};

use cs_frame::{Geometry, Locator, Superblock};
use std::alloc::{AllocError, Global};

/// Pointer and generation of an extent by the places that are named: it is full, in the generation of the first of them
/// that lies there. If none does it is empty.
pub fn made_row(pages: u16, named: &[Locator], extent: usize) -> (u16, u32)
    ensures row { result ≡ made_row pages named.now extent }
    ensures fits { result.0 ≤ pages }
{
    for k in 0..named.len() {
        let place = named[k];
        if usize::from(place.extent) == extent {
            return (pages, place.generation);
        }
    }
    (0, 0)
}

/// Those of each extent of a section.
pub fn made_rows(
    alloc: Global,
    geometry: Geometry,
    named: &[Locator],
    section: u8,
) -> Result<Vec<(u16, u32)>, AllocError>
    ensures rows { IfOk result (λ rows. rows.items ≡ made_rows geometry named.now section) }
    ensures fits { IfOk result (λ rows. AllByRecursion (λ row. row.0 ≤ geometry.pages) rows.items) }
{
    let start = geometry.section_start(section);
    let count = geometry.section_length(section);
    let mut rows = Vec::with_capacity(alloc, count)?;
    for k in 0..count {
        rows.push_reserved(made_row(geometry.pages(), named, start + k));
    }
    Ok(rows)
}

/// A section that is made: it records no root.
pub fn made_superblock(
    alloc: Global,
    geometry: Geometry,
    named: &[Locator],
    version: u64,
    section: u8,
) -> Result<Superblock, AllocError>
    ensures version { IfOk result (λ it. it.version ≡ version) }
    ensures recorded { IfOk result (λ it. it.recorded ≡ 0) }
    ensures format { IfOk result (λ it. it.format ≡ geometry.format) }
    ensures extents { IfOk result (λ it. it.extent_count ≡ geometry.extents) }
    ensures pages { IfOk result (λ it. it.pages ≡ geometry.pages) }
    ensures sections { IfOk result (λ it. it.sections ≡ geometry.sections) }
    ensures section { IfOk result (λ it. it.section ≡ section) }
    ensures rows { IfOk result (λ it. it.extents.items ≡ made_rows geometry named.now section) }
    ensures fits { IfOk result (λ it. AllByRecursion (λ row. row.0 ≤ geometry.pages) it.extents.items) }
{
    let extents = made_rows(alloc, geometry, named, section)?;
    Ok(Superblock {
        format: geometry.format(),
        version,
        recorded: 0,
        extent_count: geometry.extents(),
        pages: geometry.pages(),
        sections: geometry.sections(),
        section,
        extents,
    })
}

/// All sections of a superblock, each made so.
pub fn made_all(
    alloc: Global,
    geometry: Geometry,
    named: &[Locator],
) -> Result<Vec<Superblock>, AllocError>
    ensures are { IfOk result (λ sections. AreMadeFrom geometry named.now geometry.sections sections.items) }
{
    let mut sections = Vec::with_capacity(alloc, usize::from(geometry.sections()))?;
    for section in 0..geometry.sections() {
        match made_superblock(alloc, geometry, named, 1, section) {
            Ok(it) => sections.push_reserved(it),
            Err(refused) => return Err(refused),
        }
    }
    Ok(sections)
}

/// Whether a place lies on none of the extents from this one on that have these rows, or its frame is there.
pub fn is_there(start: usize, rows: &[(u16, u32)], place: Locator) -> bool
    ensures { result ≡ is_there start rows.now place }
{
    let extent = usize::from(place.extent);
    if extent < start || extent - start >= rows.len() {
        return true;
    }
    let row = rows[extent - start];
    row.1 == place.generation && place.page < row.0
}

/// Whether a place lies on one of these extents, in an earlier generation than the extent has.
pub fn is_past(start: usize, rows: &[(u16, u32)], place: Locator) -> bool
    ensures { result ≡ is_past start rows.now place }
{
    let extent = usize::from(place.extent);
    if extent < start || extent - start >= rows.len() {
        return false;
    }
    place.generation < rows[extent - start].1
}

/// Whether all of these places have their frames there.
pub fn are_there(start: usize, rows: &[(u16, u32)], named: &[Locator]) -> bool
    ensures { result ≡ list_all (is_there start rows.now) named.now }
{
    named.iter().all(|place| is_there(start, rows, *place))
}

/// Whether one of these places is in an earlier generation than its extent has.
pub fn is_any_past(start: usize, rows: &[(u16, u32)], named: &[Locator]) -> bool
    ensures { result ≡ list_any (is_past start rows.now) named.now }
{
    named.iter().any(|place| is_past(start, rows, *place))
}

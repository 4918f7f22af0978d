//! What the sections of a superblock record of the extents.
ghost use Rattle.std.specs.Prelude.{◌≡◌, IfOk, length};
ghost use Rattle.cs_extent.specs.Sections.{AreSections, format_of, pages_of, rows_of};

use cs_frame::{Geometry, Superblock};
use std::alloc::{AllocError, Global};

/// The dimensions that sections speak of.
pub fn geometry_of(sections: &[Superblock]) -> Geometry
    requires { AreSections sections.now }
    ensures format { result.format ≡ format_of sections.now }
    ensures extents { result.extents ≡ length (rows_of sections.now) }
    ensures pages { result.pages ≡ pages_of sections.now }
    ensures sections { result.sections ≡ length sections.now }
{
    let first = &sections[0];
    let extents = u64::from(first.extent_count);
    let (pages, sections) = (u64::from(first.pages), u64::from(first.sections));
    match Geometry::of_format(first.format, extents, pages, Some(sections)) {
        Ok(geometry) => geometry,
        Err(_) => unreachable!(),
    }
}

/// What sections record of their extents, one list after the other.
pub fn joined(alloc: Global, sections: &[Superblock]) -> Result<Vec<(u16, u32)>, AllocError>
    ensures { IfOk result (λ rows. rows.items ≡ rows_of sections.now) }
{
    let mut rows = Vec::new(alloc);
    for section in sections {
        rows.extend_from_slice(&section.extents)?;
    }
    Ok(rows)
}

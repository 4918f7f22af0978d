//! What the options of a salvage ask for.
ghost use Rattle.std.specs.Prelude.{◌≡◌, Err, IfErr, IfOk, IfSome, None, Ok, codes, unwrap_or};
ghost use Rattle.cs_frame.specs.Geometries.{file_format, sections_needed};
ghost use Rattle.cs_options.specs.Asked.{number_at};
ghost use Rattle.cs_options.specs.Salvages.{IsHalfGiven, IsLostGeometry, NoneIsGiven};

use crate::options::number_given;
use clap::ArgMatches;
use cs_frame::{Geometry, StoreId};

/// The first page that is looked at. Default: 0, so all are.
pub fn from_page_of(options: &ArgMatches) -> u64
    ensures { result ≡ unwrap_or (number_at options.now (codes "from-page")) 0 }
{
    number_given(options, "from-page").unwrap_or(0)
}

/// Why the options give no geometry.
#[derive(Clone, Copy, Debug, PartialEq, Eq)]
pub enum NoGeometry {
    /// Of the numbers of extents and of their pages only one is given, or neither, but that of the sections.
    Half,
    /// No store has these numbers.
    Bad,
}

/// The geometry of a store whose superblock is lost, as the options give it: that of a store of format 4 with this
/// identity, in a file as large as it needs. None if they give none.
pub fn lost_geometry_of(
    options: &ArgMatches,
    store: StoreId,
) -> Result<Option<Geometry>, NoGeometry>
    ensures none { result ≡ Ok None → NoneIsGiven options.now }
    ensures given { IfOk result (λ found. IfSome found (IsLostGeometry options.now store.0)) }
    ensures half { result ≡ Err NoGeometry.Half → IsHalfGiven options.now }
{
    let extents = number_given(options, "extents");
    let pages = number_given(options, "pages");
    let sections = number_given(options, "sections");
    match (extents, pages, sections) {
        (None, None, None) => Ok(None),
        (Some(extents), Some(pages), sections) => geometry_with(store, extents, pages, sections),
        _ => Err(NoGeometry::Half),
    }
}

/// The geometry of a store of format 4 with these numbers.
fn geometry_with(
    store: StoreId,
    extents: u64,
    pages: u64,
    sections: Option<u64>,
) -> Result<Option<Geometry>, NoGeometry>
    ensures some { result ≡ Ok None → ⊥ }
    ensures given { IfOk result (λ found. IfSome found (λ g. (g.extents ≡ extents) × (g.pages ≡ pages) × (g.sections ≡ unwrap_or sections (sections_needed extents))
        × (g.format ≡ file_format store.0 extents pages (unwrap_or sections (sections_needed extents))))) }
    ensures bad { IfErr result (λ why. why ≡ NoGeometry.Bad) }
{
    match Geometry::for_file(store, extents, pages, sections) {
        Ok(geometry) => Ok(Some(geometry)),
        Err(_) => Err(NoGeometry::Bad),
    }
}

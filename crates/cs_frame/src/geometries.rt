//! How many extents a store has, of how many pages, which of them each section of its superblock has, and where all
//! of it lies.

ghost use Rattle.std.specs.Prelude.{◌≡◌, ◌↔◌, ◌+◌, ◌-◌, ◌*◌, ◌/◌, ◌^◌, ◌<◌, ◌≤◌, ◌==◌, if◌then◌else◌, IfOk, IfErr, IsOk, IsTrue, unwrap_or};
ghost use Rattle.law_machine.specs.Format.{Two};
ghost use Rattle.law_machine.specs.Geometry.{chunk_bytes_in, most_weight_in};
ghost use Rattle.cs_frame.specs.Geometries.{Dimensions, IsGeometry, device_pages, file_format, file_pages, in_bounds, is_divided, section_length, section_size, section_start, sections_needed};

use crate::faults::FormatFault;
use crate::formats::{Format, head_bytes};
use crate::identities::StoreId;
use std::marker::Model;

/// The greatest number of extents of a section, so that what it spells and its digest have room on a page.
pub const GREATEST_SECTION_EXTENTS: u16 = 512;

/// The greatest number of extents of a superblock of the first format, which is one page.
pub const GREATEST_SUPERBLOCK_EXTENTS: u16 = 512;

/// The least number of pages of an extent.
pub const LEAST_PAGES: u16 = 2;

/// The pages of a file that is made for a store of format 4: one for each page of an extent, and two for the root and
/// for each section.
pub fn file_pages(extents: u16, pages: u16, sections: u8) -> u64
    ensures { result ≡ file_pages extents pages sections }
{
    2 + u64::from(extents) * u64::from(pages) + 2 * u64::from(sections)
}

/// So many extents of so many pages are in the bounds of a format, where `greatest` is the greatest number of extents.
pub(crate) fn are_in_bounds(format: Format, greatest: u16, extents: u64, pages: u64) -> bool
    ensures { result ≡ in_bounds format greatest extents pages }
{
    u64::from(format.least_extents()) <= extents
        && extents <= u64::from(greatest)
        && u64::from(LEAST_PAGES) <= pages
        && pages <= u64::from(format.greatest_pages())
}

/// The extents of each section but the last, which may have fewer.
fn extents_each(extents: u16, sections: u8) -> usize
    requires { 1 ≤ sections }
    ensures size { result ≡ section_size extents sections }
    ensures bound { result < 2 ^ 17 }
{
    (usize::from(extents) + (usize::from(sections) - 1)) / usize::from(sections)
}

/// So many sections of a format can have so many extents.
pub(crate) fn can_be_divided(format: Format, extents: u16, sections: u8) -> bool
    ensures { result ≡ is_divided format extents sections }
{
    if sections < 1 || sections > format.greatest_sections() {
        return false;
    }
    let size = extents_each(extents, sections);
    size <= usize::from(GREATEST_SECTION_EXTENTS)
        && usize::from(sections - 1) * size < usize::from(extents)
}

/// How many extents a section has.
pub(crate) fn extents_in_section(extents: u16, sections: u8, section: u8) -> usize
    requires { 1 ≤ sections }
    ensures { result ≡ section_length extents sections section }
{
    let size = extents_each(extents, sections);
    let left = usize::from(extents).saturating_sub(usize::from(section) * size);
    size.min(left)
}

/// So many sections as a store of so many extents needs at least.
fn sections_needed(extents: u64) -> u64
    ensures { result ≡ sections_needed extents }
{
    extents.div_ceil(u64::from(GREATEST_SECTION_EXTENTS))
}

/// There is a store of this format of so many extents, pages and sections.
fn is_geometry(format: Format, extents: u64, pages: u64, sections: u64) -> bool
    ensures { IsTrue result ↔ IsGeometry format extents pages sections }
{
    if !are_in_bounds(format, format.greatest_extents(), extents, pages) {
        return false;
    }
    if sections > u64::from(format.greatest_sections()) {
        return false;
    }
    can_be_divided(format, extents as u16, sections as u8)
        && format.has_device(extents as u16, pages as u16, sections as u8)
}

/// The geometry of a store. Section 0 of the superblock is on page 0 of the device and the root on page 1. The pages
/// of the extents follow, one extent after another, and after them the superblock's other sections. In format 4 the
/// last pages of the device are kept for a second copy of the root and of each section.
#[derive(Clone, Copy, Debug, PartialEq, Eq)]
pub struct Geometry {
    format: Format,
    extents: u16,
    pages: u16,
    sections: u8,
}

impl Model for Geometry {
    ghost Value = { Dimensions };

    ghost view = { λ g. record { format = g.format; extents = g.extents; pages = g.pages; sections = g.sections } };

    ghost invariant = { λ g. IsGeometry g.format g.extents g.pages g.sections };

    ghost inverse = { λ d. record { format = d.format; extents = d.extents; pages = d.pages; sections = d.sections } };
}

impl Geometry {
    /// A store of a format of `extents` extents of `pages` pages each. Its superblock has `sections` sections,
    /// default as few as it may. All but the last have as many extents, at most 512. The last has what is left, at
    /// least one.
    pub fn of_format(
        format: Format,
        extents: u64,
        pages: u64,
        sections: Option<u64>,
    ) -> Result<Geometry, FormatFault>
        ensures valid { IsOk result ↔ IsGeometry format extents pages (unwrap_or sections (sections_needed extents)) }
        ensures format { IfOk result (λ geometry. geometry.format ≡ format) }
        ensures extents { IfOk result (λ geometry. geometry.extents ≡ extents) }
        ensures pages { IfOk result (λ geometry. geometry.pages ≡ pages) }
        ensures sections { IfOk result (λ geometry. geometry.sections ≡ unwrap_or sections (sections_needed extents)) }
        ensures fault { IfErr result (λ fault. fault ≡ FormatFault.BadGeometry) }
    {
        let sections = sections.unwrap_or(sections_needed(extents));
        if is_geometry(format, extents, pages, sections) {
            Ok(Geometry {
                format,
                extents: extents as u16,
                pages: pages as u16,
                sections: sections as u8,
            })
        } else {
            Err(FormatFault::BadGeometry)
        }
    }

    /// A store of format 4 with this identity, in a file as large as the store needs.
    pub fn for_file(
        store: StoreId,
        extents: u64,
        pages: u64,
        sections: Option<u64>,
    ) -> Result<Geometry, FormatFault>
        ensures valid { IsOk result ↔ (let count = unwrap_or sections (sections_needed extents) in
            IsGeometry (file_format store.0 extents pages count) extents pages count) }
        ensures format { IfOk result (λ geometry.
            geometry.format ≡ file_format store.0 extents pages (unwrap_or sections (sections_needed extents))) }
        ensures extents { IfOk result (λ geometry. geometry.extents ≡ extents) }
        ensures pages { IfOk result (λ geometry. geometry.pages ≡ pages) }
        ensures sections { IfOk result (λ geometry. geometry.sections ≡ unwrap_or sections (sections_needed extents)) }
        ensures fault { IfErr result (λ fault. fault ≡ FormatFault.BadGeometry) }
    {
        let sections = sections.unwrap_or(sections_needed(extents));
        if extents > 65535 || pages > 65535 || sections > 255 {
            return Err(FormatFault::BadGeometry);
        }
        let size = file_pages(extents as u16, pages as u16, sections as u8);
        Geometry::of_format(Format::four(store, size), extents, pages, Some(sections))
    }

    /// A store of format 2 of `extents` extents, 4 to 2,048, of `pages` pages, 2 to 256. Its superblock has as few
    /// sections as it may.
    pub fn new(extents: u64, pages: u64) -> Result<Geometry, FormatFault>
        ensures valid { IsOk result ↔ IsGeometry Two extents pages (sections_needed extents) }
        ensures format { IfOk result (λ geometry. geometry.format ≡ Two) }
        ensures extents { IfOk result (λ geometry. geometry.extents ≡ extents) }
        ensures pages { IfOk result (λ geometry. geometry.pages ≡ pages) }
        ensures sections { IfOk result (λ geometry. geometry.sections ≡ sections_needed extents) }
        ensures fault { IfErr result (λ fault. fault ≡ FormatFault.BadGeometry) }
    {
        Geometry::of_format(Format::two(), extents, pages, None)
    }

    /// A store of format 2 of `extents` extents, 4 to 2,048, of `pages` pages, 2 to 256. Its superblock has `sections`
    /// sections, 1 to 8. All but the last have as many extents, at most 512. The last has what is left, at least one.
    pub fn with_sections(extents: u64, pages: u64, sections: u64) -> Result<Geometry, FormatFault>
        ensures valid { IsOk result ↔ IsGeometry Two extents pages sections }
        ensures format { IfOk result (λ geometry. geometry.format ≡ Two) }
        ensures extents { IfOk result (λ geometry. geometry.extents ≡ extents) }
        ensures pages { IfOk result (λ geometry. geometry.pages ≡ pages) }
        ensures sections { IfOk result (λ geometry. geometry.sections ≡ sections) }
        ensures fault { IfErr result (λ fault. fault ≡ FormatFault.BadGeometry) }
    {
        Geometry::of_format(Format::two(), extents, pages, Some(sections))
    }

    /// The format of the store.
    pub fn format(self) -> Format
        ensures format { result ≡ self.format }
        ensures geometry { IsGeometry self.format self.extents self.pages self.sections }
    {
        self.format
    }

    /// The number of extents.
    pub fn extents(self) -> u16
        ensures extents { result ≡ self.extents }
        ensures geometry { IsGeometry self.format self.extents self.pages self.sections }
    {
        self.extents
    }

    /// The pages of an extent.
    pub fn pages(self) -> u16
        ensures pages { result ≡ self.pages }
        ensures geometry { IsGeometry self.format self.extents self.pages self.sections }
    {
        self.pages
    }

    /// The sections of the superblock.
    pub fn sections(self) -> u8
        ensures sections { result ≡ self.sections }
        ensures geometry { IsGeometry self.format self.extents self.pages self.sections }
    {
        self.sections
    }

    /// The pages of the device.
    pub fn device_pages(self) -> u64
        ensures { result ≡ device_pages self.format self.extents self.pages self.sections }
    {
        self.format
            .device_pages(self.extents, self.pages, self.sections)
    }

    /// The page of the device that is a page of an extent.
    pub fn device_page(self, extent: u16, page: u16) -> u64
        requires extent { extent < self.extents }
        requires page { page < self.pages }
        ensures { result ≡ 2 + extent * self.pages + page }
    {
        2 + u64::from(extent) * u64::from(self.pages) + u64::from(page)
    }

    /// The page of the device that has a section of the superblock.
    pub fn section_page(self, section: u8) -> u64
        ensures { result ≡ (if section == 0 then 0 else 1 + self.extents * self.pages + section) }
    {
        if section == 0 {
            0
        } else {
            1 + u64::from(self.extents) * u64::from(self.pages) + u64::from(section)
        }
    }

    /// The section that an extent belongs to.
    pub fn section_of(self, extent: u16) -> u8
        requires { extent < self.extents }
        ensures section { result ≡ extent / section_size self.extents self.sections }
        ensures inside { result < self.sections }
    {
        (usize::from(extent) / extents_each(self.extents, self.sections)) as u8
    }

    /// The first extent of a section.
    pub fn section_start(self, section: u8) -> usize
        ensures { result ≡ section_start self.extents self.sections section }
    {
        usize::from(section) * extents_each(self.extents, self.sections)
    }

    /// How many extents a section has.
    pub fn section_length(self, section: u8) -> usize
        ensures { result ≡ section_length self.extents self.sections section }
    {
        extents_in_section(self.extents, self.sections, section)
    }

    /// The bytes of payload that a frame of one whole extent has.
    pub fn payload_bytes(self) -> usize
        ensures { result ≡ 4096 * self.pages - 41 }
    {
        4096 * usize::from(self.pages) - 41
    }

    /// The greatest piece of a shard in one chunk, in bytes. It is the payload of a frame of one whole extent,
    /// without the head in a format that has heads.
    pub fn chunk_bytes(self) -> usize
        ensures { result ≡ chunk_bytes_in self.format self.pages }
    {
        self.payload_bytes() - head_bytes(self.format)
    }

    /// What the newest entries of all identifiers may weigh: those of a run that takes one whole extent. A frame's
    /// header has 41 bytes, a run's count 4, and in format 4 the front of the identity 8. There an entry weighs its
    /// bytes. In format 2 it has 81 and weighs one.
    pub fn most_weight(self) -> usize
        ensures { result ≡ most_weight_in self.format self.pages }
    {
        let bytes = 4096 * usize::from(self.pages) - 45;
        if self.format.has_marks() {
            bytes - 8
        } else {
            bytes / 81
        }
    }
}

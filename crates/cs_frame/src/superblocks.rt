//! The superblock in sections, a page for each, in the format of the store, with pointer and generation of each extent.
ghost use Rattle.std.specs.Prelude.{◌≡◌, ◌+◌, ◌*◌, ◌^◌, ◌<◌, ◌≤◌, ℕ, List, None, Ok, Err, IfOk, length, slice_index, ◌/◌, ◌++◌, nat_le};
ghost use Rattle.law_machine.specs.Format.{Format as Written};
ghost use Rattle.cs_frame.specs.FormatNumbers.{number_in};
ghost use Rattle.cs_frame.specs.Geometries.{FitsFormat, section_length};
ghost use Rattle.std.specs.List.{AllByRecursion, list_all};
ghost use Rattle.cs_frame.specs.Buffers.{text_of};
ghost use Rattle.cs_frame.specs.Bytes.{IsPage, number};
ghost use Rattle.cs_frame.specs.Faults.{HasFault, OkUnlessMemory, fault_in};
ghost use Rattle.cs_frame.specs.Superblocks.{FitsRecord, IsSection, IsSuperblock, SpellsSuperblock, extents_said, format_in, pages_said, section_passes, section_test, spelled_store, superblock_end, superblock_extents, superblock_fault, superblock_fields, superblock_pointer_test, superblock_record, superblock_start, superblock_version};
ghost use Rattle.cs_frame.specs.Pointers.{FitsGeneration, extent_in, extents_from, pointers_test, spelled_extent, spelled_extents, superblock_range_test};
ghost use Rattle.std.specs.Simd.{first_chunks};

use crate::faults::FormatFault;
use crate::formats::{Format, FormatNumber, Known};
use crate::geometries::{Geometry, are_in_bounds, can_be_divided, extents_in_section};
use crate::identities::StoreId;
use crate::pages::{PageBuffer, check_digest, check_digit, check_magic, check_padding};
use byteorder::{BigEndian, ByteOrder};
use std::alloc::{AllocError, Global};

/// One section of a superblock as of one version.
#[derive(Debug, Drop)]
pub struct Superblock {
    /// The format of the store. In format 4 it has the store's identity and the pages that its device had when it was
    /// made.
    pub format: Format,
    /// From 1 to 2^63 - 1.
    pub version: u64,
    /// The version of the root that was persistent when the section was staged. In format 2, whose sections don't
    /// record it, 0.
    pub recorded: u64,
    /// The extents of the store, all sections together, from 5 to 7,680, in format 2 from 4 to 2,048.
    pub extent_count: u16,
    /// The pages of an extent, from 2 to 65,535, in format 2 to 256.
    pub pages: u16,
    /// How many sections the superblock has, from 1 to 15, in format 2 to 8. All but the last have as many extents,
    /// at most 512, and the last has what is left.
    pub sections: u8,
    /// Which of them this is, from 0.
    pub section: u8,
    /// Of each extent of the section, the pointer and the generation: how many of its pages are given, and how often
    /// it was reset.
    pub extents: Vec<(u16, u32)>,
}

/// What a page of a section says before its extents.
#[derive(Clone, Copy)]
struct SectionHead {
    format: Format,
    version: u64,
    recorded: u64,
    extent_count: u16,
    pages: u16,
    sections: u8,
    section: u8,
}

/// Writes what a section says of the store and the root.
fn append_store(page: &mut PageBuffer, format: Format, recorded: u64)
    requires { length (text_of page.old) + 32 ≤ 4096 }
    ensures { text_of page.new ≡ text_of page.old ++ spelled_store format recorded }
{
    match format.known() {
        Known::Two => {}
        Known::Four {
            store,
            device_pages,
        } => {
            page.append(&device_pages.to_be_bytes());
            page.append(&store.bytes());
            page.append(&recorded.to_be_bytes());
        }
    }
}

/// The page of a section up to its digest.
fn unsealed(head: SectionHead, extents: &[(u16, u32)]) -> PageBuffer
    requires { 6 * length extents.now ≤ 3072 }
    ensures text { text_of result ≡ superblock_fields head.format head.version head.recorded head.extent_count head.pages head.sections head.section extents.now }
    ensures generations { AllByRecursion FitsGeneration extents.now }
{
    let mut page = PageBuffer::new();
    page.append(b"CSS");
    page.append(&[head.format.number().section_digit()]);
    page.append(&head.version.to_be_bytes());
    page.append(&head.extent_count.to_be_bytes());
    page.append(&head.pages.to_be_bytes());
    page.append(&[head.sections]);
    page.append(&[head.section]);
    append_store(&mut page, head.format, head.recorded);
    append_extents(&mut page, extents);
    page
}

/// The page that spells a section of so many extents, pages and sections.
fn spelled_page(head: SectionHead, extents: &[(u16, u32)]) -> [u8; 4096]
    requires { IsSection head.format head.version head.recorded head.extent_count head.pages head.sections head.section extents.now }
    ensures { SpellsSuperblock result head.format head.version head.recorded head.extent_count head.pages head.sections head.section extents.now }
{
    let mut page = unsealed(head, extents);
    page.seal();
    page.finish()
}

/// The page that spells a section of a superblock as of one version.
pub fn encode_superblock(superblock: &Superblock) -> [u8; 4096]
    requires { IsSuperblock superblock.now }
    ensures { let it = superblock.now in
        SpellsSuperblock result it.format it.version it.recorded it.extent_count it.pages it.sections it.section it.extents.items }
{
    let head = SectionHead {
        format: superblock.format,
        version: superblock.version,
        recorded: superblock.recorded,
        extent_count: superblock.extent_count,
        pages: superblock.pages,
        sections: superblock.sections,
        section: superblock.section,
    };
    spelled_page(head, &superblock.extents)
}

/// The page that spells a section of a store's superblock, which records this version of the root and whose extents
/// have these pointers and generations.
pub fn encode_section(
    version: u64,
    recorded: u64,
    geometry: Geometry,
    section: u8,
    extents: &[(u16, u32)],
) -> [u8; 4096]
    requires version { (1 ≤ version) × (version < 2 ^ 63) }
    requires record { FitsRecord geometry.format recorded }
    requires section { section < geometry.sections }
    requires count { length extents.now ≡ section_length geometry.extents geometry.sections section }
    requires pointers { AllByRecursion (λ extent. extent.0 ≤ geometry.pages) extents.now }
    ensures { SpellsSuperblock result geometry.format version recorded geometry.extents geometry.pages geometry.sections section extents.now }
{
    let head = SectionHead {
        format: geometry.format(),
        version,
        recorded,
        extent_count: geometry.extents(),
        pages: geometry.pages(),
        sections: geometry.sections(),
        section,
    };
    spelled_page(head, extents)
}

/// The format that a page of a section names, where its number is this.
fn format_of(page: &[u8; 4096], number: FormatNumber) -> Format
    ensures { result ≡ format_in number page.now }
{
    match number {
        FormatNumber::Two => Format::two(),
        FormatNumber::Four => {
            let mut id = [0; 16];
            id.copy_from_slice(&page[26..42]);
            Format::four(StoreId(id), BigEndian::read_u64(&page[18..26]))
        }
    }
}

/// What a page of a section records.
fn recorded_of(page: &[u8; 4096], number: FormatNumber) -> u64
    ensures { result ≡ superblock_record number page.now }
{
    match number {
        FormatNumber::Two => 0,
        FormatNumber::Four => BigEndian::read_u64(&page[42..50]),
    }
}

/// Where the extents begin in a page of a section.
fn start_of(number: FormatNumber) -> usize
    ensures start { result ≡ superblock_start number }
    ensures small { result ≤ 50 }
{
    match number {
        FormatNumber::Two => 18,
        FormatNumber::Four => 50,
    }
}

/// Where the digest begins in a page of a section.
fn end_of(page: &[u8; 4096], number: FormatNumber) -> usize
    requires { 1 ≤ slice_index page.now 16 }
    ensures { result ≡ superblock_end number page.now }
{
    start_of(number)
        + 6 * extents_in_section(BigEndian::read_u16(&page[12..14]), page[16], page[17])
}

/// What a page says of the dimensions of a store, and which section it is.
#[derive(Clone, Copy)]
struct Said {
    extents: u16,
    pages: u16,
    sections: u8,
    section: u8,
}

/// So many extents of so many pages have a superblock of so many sections in this format, and this is one of them.
/// The device has room.
fn is_section(format: Format, said: Said) -> bool
    ensures { result ≡ section_passes format said.extents said.pages said.sections said.section }
{
    are_in_bounds(
        format,
        format.greatest_extents(),
        u64::from(said.extents),
        u64::from(said.pages),
    ) && can_be_divided(format, said.extents, said.sections)
        && said.section < said.sections
        && format.has_device(said.extents, said.pages, said.sections)
}

/// The dimensions that a page says are those of a store.
fn check_section(page: &[u8; 4096], number: FormatNumber) -> Result<(), FormatFault>
    ensures fault { fault_in result ≡ section_test number page.now }
    ensures sections { IfOk result (λ _. 1 ≤ slice_index page.now 16) }
    ensures end { IfOk result (λ _. superblock_end number page.now + 32 ≤ 4096) }
{
    let said = Said {
        extents: BigEndian::read_u16(&page[12..14]),
        pages: BigEndian::read_u16(&page[14..16]),
        sections: page[16],
        section: page[17],
    };
    if is_section(format_of(page, number), said) {
        Ok(())
    } else {
        Err(FormatFault::BadLength)
    }
}

/// No pointer is past the extent's pages.
fn check_pointers(page: &[u8; 4096], number: FormatNumber) -> Result<(), FormatFault>
    requires sections { 1 ≤ slice_index page.now 16 }
    requires end { superblock_end number page.now + 32 ≤ 4096 }
    ensures { fault_in result ≡ superblock_pointer_test number page.now }
{
    let pages = BigEndian::read_u16(&page[14..16]);
    check_pointers_in(&page[start_of(number)..end_of(page, number)], pages)
}

/// Makes the tests of a section's page in order.
fn check_page(page: &[u8; 4096], number: FormatNumber) -> Result<(), FormatFault>
    ensures fault { fault_in result ≡ superblock_fault number page.now }
    ensures sections { IfOk result (λ _. 1 ≤ slice_index page.now 16) }
    ensures end { IfOk result (λ _. superblock_end number page.now + 32 ≤ 4096) }
    ensures page { IsPage page.now }
{
    check_magic(page, b"CSS")?;
    check_digit(page, number.section_digit())?;
    check_section(page, number)?;
    let end = end_of(page, number);
    check_digest(page, end)?;
    check_range(page)?;
    check_pointers(page, number)?;
    check_padding(page, end + 32)
}

/// The section that a page without a fault spells.
fn section_from(
    alloc: Global,
    page: &[u8; 4096],
    number: FormatNumber,
) -> Result<Superblock, AllocError>
    requires sections { 1 ≤ slice_index page.now 16 }
    requires end { superblock_end number page.now + 32 ≤ 4096 }
    ensures format { IfOk result (λ it. it.format ≡ format_in number page.now) }
    ensures version { IfOk result (λ it. it.version ≡ superblock_version page.now) }
    ensures record { IfOk result (λ it. it.recorded ≡ superblock_record number page.now) }
    ensures extent_count { IfOk result (λ it. it.extent_count ≡ extents_said page.now) }
    ensures pages { IfOk result (λ it. it.pages ≡ pages_said page.now) }
    ensures counts { IfOk result (λ it. it.sections ≡ slice_index page.now 16) }
    ensures section { IfOk result (λ it. it.section ≡ slice_index page.now 17) }
    ensures extents { IfOk result (λ it. it.extents.items ≡ superblock_extents number page.now) }
{
    let extents = extents_of(alloc, &page[start_of(number)..end_of(page, number)])?;
    Ok(Superblock {
        format: format_of(page, number),
        version: BigEndian::read_u64(&page[4..12]),
        recorded: recorded_of(page, number),
        extent_count: BigEndian::read_u16(&page[12..14]),
        pages: BigEndian::read_u16(&page[14..16]),
        sections: page[16],
        section: page[17],
        extents,
    })
}

/// The section that a page spells in the format of this number, which is the store's. The first test that fails gives
/// the fault. The tests in order:
///
/// - 20 BadMagic: the first three bytes
/// - 24 BadVersion: the fourth byte, which is the format's digit
/// - 22 BadLength: the numbers of extents, pages and sections, and in format 4 the device's pages
/// - 21 BadDigest
/// - 24 BadVersion: the range of the version
/// - 22 BadLength: the pointers
/// - 23 BadPadding: the zeros at the end
///
/// 9 OutOfMemory comes only for a page that spells a section.
pub fn decode_section(
    alloc: Global,
    page: &[u8; 4096],
    number: FormatNumber,
) -> Result<Superblock, FormatFault>
    // What is read has a format of this number, and is spelled by the page.
    ensures number { IfOk result (λ it. number_in it.format ≡ number) }
    ensures spelled { IfOk result (λ it.
        SpellsSuperblock page.now it.format it.version it.recorded it.extent_count it.pages it.sections it.section it.extents.items) }
    // What the page spells is read, unless memory runs out.
    ensures read { (format : Written) (version recorded extents pages sections section : ℕ) (written : List (ℕ × ℕ)) → number_in format ≡ number
        → SpellsSuperblock page.now format version recorded extents pages sections section written
        → OkUnlessMemory result (λ it. (it.format ≡ format) × (it.version ≡ version) × (it.recorded ≡ recorded) × (it.extent_count ≡ extents)
        × (it.pages ≡ pages) × (it.sections ≡ sections) × (it.section ≡ section) × (it.extents.items ≡ written)) }
    // Each other fault is that of the first test that fails.
    ensures fault { HasFault result (superblock_fault number page.now) }
    ensures memory { result ≡ Err FormatFault.OutOfMemory → superblock_fault number page.now ≡ None }
{
    check_page(page, number)?;
    Ok(section_from(alloc, page, number)?)
}

fn append_extent(page: &mut PageBuffer, extent: (u16, u32))
    requires { length (text_of page.old) + 6 ≤ 4096 }
    ensures text { text_of page.new ≡ text_of page.old ++ spelled_extent extent }
    ensures generation { FitsGeneration extent }
{
    page.append(&extent.0.to_be_bytes());
    page.append(&extent.1.to_be_bytes());
}

/// Appends what spells these pointers and generations.
pub(crate) fn append_extents(page: &mut PageBuffer, extents: &[(u16, u32)])
    requires { length (text_of page.old) + 6 * length extents.now ≤ 4096 }
    ensures text { text_of page.new ≡ text_of page.old ++ spelled_extents extents.now }
    ensures generations { AllByRecursion FitsGeneration extents.now }
{
    for extent in extents {
        append_extent(page, *extent);
    }
}

/// The version is in range.
pub(crate) fn check_range(page: &[u8; 4096]) -> Result<(), FormatFault>
    ensures { fault_in result ≡ superblock_range_test page.now }
{
    let version = BigEndian::read_u64(&page[4..12]);
    if 1 <= version && version < 1 << 63 {
        Ok(())
    } else {
        Err(FormatFault::BadVersion)
    }
}

fn extent_from(bytes: &[u8; 6]) -> (u16, u32)
    ensures { result ≡ extent_in bytes.now }
{
    (
        BigEndian::read_u16(&bytes[0..2]),
        BigEndian::read_u32(&bytes[2..6]),
    )
}

/// No pointer in these bytes is above `pages`.
fn has_pointers(bytes: &[u8], pages: u16) -> bool
    ensures { result ≡ list_all (λ piece. nat_le (extent_in piece).0 pages)
        (first_chunks 6 (length bytes.now / 6) bytes.now) }
{
    let (spelled, _) = bytes.as_chunks::<6>();
    spelled.iter().all(|bytes| extent_from(bytes).0 <= pages)
}

/// The pointers and generations that these bytes spell, 6 bytes each.
pub(crate) fn extents_of(alloc: Global, bytes: &[u8]) -> Result<Vec<(u16, u32)>, AllocError>
    ensures { IfOk result (λ v. v.items ≡ extents_from bytes.now) }
{
    let (spelled, _) = bytes.as_chunks::<6>();
    let mut extents = Vec::with_capacity(alloc, spelled.len())?;
    for bytes in spelled {
        extents.push_reserved(extent_from(bytes));
    }
    Ok(extents)
}

/// No pointer that these bytes spell is above `pages`.
pub(crate) fn check_pointers_in(bytes: &[u8], pages: u16) -> Result<(), FormatFault>
    ensures { fault_in result ≡ pointers_test pages (extents_from bytes.now) }
{
    if has_pointers(bytes, pages) {
        Ok(())
    } else {
        Err(FormatFault::BadLength)
    }
}

//! What page 0 spells: section 0 of the superblock, or a superblock of the first format. That one is one page for all
//! extents, and is no longer written.

ghost use Rattle.std.specs.Prelude.{◌≡◌, ◌+◌, ◌*◌, ◌≤◌, ℕ, List, None, Ok, Err, IfOk, length, slice_index};
ghost use Rattle.law_machine.specs.Format.{Format as Written, Two};
ghost use Rattle.cs_frame.specs.Bytes.{IsPage, number};
ghost use Rattle.cs_frame.specs.Faults.{HasFault, OkUnlessMemory, fault_in};
ghost use Rattle.cs_frame.specs.FirstFormat.{IsOfFirstFormat, SpellsFirstFormat, SpellsPageZero, first_format_bounds_test, first_format_end, first_format_extents, first_format_fault, first_format_pointer_test, page_zero_fault, zero_format};
ghost use Rattle.cs_frame.specs.Superblocks.{SpellsSuperblock};

use crate::faults::FormatFault;
use crate::formats::{Format, FormatNumber};
use crate::geometries::{GREATEST_SUPERBLOCK_EXTENTS, are_in_bounds};
use crate::pages::{check_digest, check_magic, check_padding, check_version};
use crate::superblocks::{Superblock, check_pointers_in, check_range, decode_section, extents_of};
use byteorder::{BigEndian, ByteOrder};
use std::alloc::{AllocError, Global};

/// Where the digest begins in a page of so many extents.
fn end_of(page: &[u8; 4096]) -> usize
    ensures { result ≡ first_format_end page.now }
{
    16 + 6 * usize::from(BigEndian::read_u16(&page[12..14]))
}

/// So many extents of so many pages have a superblock of the first format.
fn check_bounds(page: &[u8; 4096]) -> Result<(), FormatFault>
    ensures fault { fault_in result ≡ first_format_bounds_test page.now }
    ensures end { IfOk result (λ _. first_format_end page.now ≤ 3088) }
{
    let extents = BigEndian::read_u16(&page[12..14]);
    let pages = BigEndian::read_u16(&page[14..16]);
    if are_in_bounds(
        Format::two(),
        GREATEST_SUPERBLOCK_EXTENTS,
        u64::from(extents),
        u64::from(pages),
    ) {
        Ok(())
    } else {
        Err(FormatFault::BadLength)
    }
}

/// No pointer is past the extent's pages.
fn check_pointers(page: &[u8; 4096]) -> Result<(), FormatFault>
    requires { first_format_end page.now ≤ 3088 }
    ensures { fault_in result ≡ first_format_pointer_test page.now }
{
    let pages = BigEndian::read_u16(&page[14..16]);
    check_pointers_in(&page[16..end_of(page)], pages)
}

/// Makes the tests of the first format in order.
fn check_first_format(page: &[u8; 4096]) -> Result<(), FormatFault>
    ensures fault { fault_in result ≡ first_format_fault page.now }
    ensures end { IfOk result (λ _. first_format_end page.now ≤ 3088) }
    ensures page { IsPage page.now }
{
    check_magic(page, b"CSS")?;
    check_version(page)?;
    check_bounds(page)?;
    let end = end_of(page);
    check_digest(page, end)?;
    check_range(page)?;
    check_pointers(page)?;
    check_padding(page, end + 32)
}

/// The superblock that a page without a fault spells, as the one section that it is.
fn first_format_from(alloc: Global, page: &[u8; 4096]) -> Result<Superblock, AllocError>
    requires { first_format_end page.now ≤ 3088 }
    ensures format { IfOk result (λ it. it.format ≡ Two) }
    ensures version { IfOk result (λ it. it.version ≡ number 4 12 page.now) }
    ensures record { IfOk result (λ it. it.recorded ≡ 0) }
    ensures extent_count { IfOk result (λ it. it.extent_count ≡ number 12 14 page.now) }
    ensures pages { IfOk result (λ it. it.pages ≡ number 14 16 page.now) }
    ensures sections { IfOk result (λ it. it.sections ≡ 1) }
    ensures section { IfOk result (λ it. it.section ≡ 0) }
    ensures extents { IfOk result (λ it. it.extents.items ≡ first_format_extents page.now) }
{
    let extents = extents_of(alloc, &page[16..end_of(page)])?;
    Ok(Superblock {
        format: Format::two(),
        version: BigEndian::read_u64(&page[4..12]),
        recorded: 0,
        extent_count: BigEndian::read_u16(&page[12..14]),
        pages: BigEndian::read_u16(&page[14..16]),
        sections: 1,
        section: 0,
        extents,
    })
}

/// The superblock that a page of the first format spells. The first test that fails is answered.
fn decode_first_format(alloc: Global, page: &[u8; 4096]) -> Result<Superblock, FormatFault>
    ensures spelled { IfOk result (λ it.
        IsOfFirstFormat page.now it.format it.version it.recorded it.extent_count it.pages it.sections it.section it.extents.items) }
    ensures read { (version pages : ℕ) (extents : List (ℕ × ℕ)) → SpellsFirstFormat page.now version pages extents
        → OkUnlessMemory result (λ it. (it.format ≡ Two) × (it.version ≡ version) × (it.recorded ≡ 0) × (it.extent_count ≡ length extents)
        × (it.pages ≡ pages) × (it.sections ≡ 1) × (it.section ≡ 0) × (it.extents.items ≡ extents)) }
    ensures fault { HasFault result (first_format_fault page.now) }
    ensures memory { result ≡ Err FormatFault.OutOfMemory → first_format_fault page.now ≡ None }
{
    check_first_format(page)?;
    Ok(first_format_from(alloc, page)?)
}

/// The format whose tests of a section are made on page 0, by the digit that is its fourth byte.
fn section_number(page: &[u8; 4096]) -> FormatNumber
    ensures { result ≡ zero_format page.now }
{
    if page[3] == b'4' {
        FormatNumber::Four
    } else {
        FormatNumber::Two
    }
}

/// What page 0 spells: a section of the superblock in the format of the store, or a superblock of the first format,
/// which is one section. The fourth byte names the format whose tests are made. The first test that fails gives the
/// fault. The tests in order:
///
/// - 20 BadMagic: the first three bytes
/// - 24 BadVersion: the fourth byte, which is the digit of a format
/// - 22 BadLength: the numbers of extents, pages and sections, and in format 4 the device's pages
/// - 21 BadDigest
/// - 24 BadVersion: the range of the version
/// - 22 BadLength: the pointers
/// - 23 BadPadding: the zeros at the end
///
/// 9 OutOfMemory comes only for a page that has a spelling.
pub fn decode_superblock(alloc: Global, page: &[u8; 4096]) -> Result<Superblock, FormatFault>
    // What is read is spelled by the page, in the store's format or in the first.
    ensures spelled { IfOk result (λ it.
        SpellsPageZero page.now it.format it.version it.recorded it.extent_count it.pages it.sections it.section it.extents.items) }
    // What the page spells is read, unless memory runs out.
    ensures read { (format : Written) (version recorded extents pages sections section : ℕ) (written : List (ℕ × ℕ))
        → SpellsSuperblock page.now format version recorded extents pages sections section written
        → OkUnlessMemory result (λ it. (it.format ≡ format) × (it.version ≡ version) × (it.recorded ≡ recorded) × (it.extent_count ≡ extents)
        × (it.pages ≡ pages) × (it.sections ≡ sections) × (it.section ≡ section) × (it.extents.items ≡ written)) }
    // So is what it spells in the first format.
    ensures read_first { (version pages : ℕ) (extents : List (ℕ × ℕ)) → SpellsFirstFormat page.now version pages extents
        → OkUnlessMemory result (λ it. (it.format ≡ Two) × (it.version ≡ version) × (it.recorded ≡ 0) × (it.extent_count ≡ length extents)
        × (it.pages ≡ pages) × (it.sections ≡ 1) × (it.section ≡ 0) × (it.extents.items ≡ extents)) }
    // Each other fault is that of the first test that fails.
    ensures fault { HasFault result (page_zero_fault page.now) }
    ensures memory { result ≡ Err FormatFault.OutOfMemory → page_zero_fault page.now ≡ None }
{
    if page[3] == b'1' {
        decode_first_format(alloc, page)
    } else {
        decode_section(alloc, page, section_number(page))
    }
}

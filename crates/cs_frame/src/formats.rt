//! The formats in which stores are written, and the rules of each: the one place that asks which format a store has.

ghost use Rattle.std.specs.Prelude.{◌≡◌, ◌≢◌, ◌^◌, ◌<◌, ◌≤◌, MatchOption, option_map};
ghost use Rattle.cs_frame.specs.FormatNumbers.{counted_as, format_known, greatest_runs, is_marked, number_in, page_digit, section_digit};
ghost use Rattle.cs_frame.specs.Geometries.{FitsFormat, device_pages, greatest_extents, greatest_pages, greatest_sections, has_device, least_extents, weight_bytes};
ghost use Rattle.cs_frame.specs.Roots.{identity_in};
ghost use Rattle.cs_frame.specs.Runs.{greatest_chunks};
ghost use Rattle.cs_frame.specs.Superblocks.{FitsRecord, record_in};
ghost use Rattle.law_machine.specs.Format.{Four, Two};
ghost use Rattle.law_machine.specs.Geometry.{apart_in, by_size_in, fills_in, head_bytes_in, heads_in, marks_in, pages_first_in, records_in, twins_in, weigh_in};
ghost use Rattle.law_machine.specs.Pieces.{evenly_in};

use crate::geometries::file_pages;
use crate::identities::StoreId;
use crate::run_frames::run_bytes;
use std::marker::Model;

/// The number of a format: what is known of a page whose store isn't known yet.
#[derive(Clone, Copy, Debug, PartialEq, Eq)]
pub enum FormatNumber {
    Two,
    Four,
}

impl FormatNumber {
    /// The format of this number, 2 or 4.
    pub fn of(number: u64) -> Option<FormatNumber>
        ensures { MatchOption result ((number ≢ 2) × (number ≢ 4)) (λ found. counted_as found ≡ number) }
    {
        match number {
            2 => Some(FormatNumber::Two),
            4 => Some(FormatNumber::Four),
            _ => None,
        }
    }

    /// The number, 2 or 4.
    pub fn value(self) -> u8
        ensures { result ≡ counted_as self }
    {
        match self {
            FormatNumber::Two => 2,
            FormatNumber::Four => 4,
        }
    }

    /// Whether locators have marks.
    pub fn has_marks(self) -> bool
        ensures { result ≡ is_marked self }
    {
        match self {
            FormatNumber::Two => false,
            FormatNumber::Four => true,
        }
    }

    /// The greatest number of runs of a root.
    pub fn greatest_runs(self) -> usize
        ensures { result ≡ greatest_runs self }
    {
        match self {
            FormatNumber::Two => 4,
            FormatNumber::Four => 24,
        }
    }

    /// The fourth byte of a section of the superblock.
    pub(crate) fn section_digit(self) -> u8
        ensures { result ≡ section_digit self }
    {
        match self {
            FormatNumber::Two => b'2',
            FormatNumber::Four => b'4',
        }
    }

    /// The fourth byte of a root and of a frame.
    pub(crate) fn page_digit(self) -> u8
        ensures { result ≡ page_digit self }
    {
        match self {
            FormatNumber::Two => b'1',
            FormatNumber::Four => b'4',
        }
    }
}

/// The formats, and what each says of its store.
#[derive(Clone, Copy, Debug, PartialEq, Eq)]
pub(crate) enum Known {
    Two,
    Four {
        store: StoreId,
        /// The pages that the device had when the store was made.
        device_pages: u64,
    },
}

/// A format in which stores are written, with the rules that they go by. The rules say where frames go, what is staged
/// before what, and what is spelled. A format is made from page 0 or from the options.
///
/// In format 2 chunks and runs may lie on one extent, and a section of the superblock needs the pages that it counts.
/// In format 4 they lie apart, places have marks, chunks have heads, and the pages of superblock and root lie twice.
/// There the bytes of a shard are cut in even pieces. A store of format 4 has an identity, and says how many pages its
/// device had when it was made.
#[derive(Clone, Copy, Debug, PartialEq, Eq)]
pub struct Format {
    known: Known,
}

impl Model for Format {
    ghost use Rattle.law_machine.specs.Format.{Format as Written};
    ghost use Rattle.cs_frame.specs.FormatNumbers.{format_known, known_again, known_as};
    ghost use Rattle.cs_frame.specs.Geometries.{FitsFormat};

    ghost Value = { Written };

    ghost view = { λ f. format_known f.known };

    ghost invariant = { λ f. FitsFormat (format_known f.known) };

    ghost inverse = { λ written. record { known = known_as written } };

    ghost inverse_ok = { λ f h i. record { known = known_again f.known i } };
}

impl Format {
    /// Format 2.
    pub fn two() -> Format
        ensures { result ≡ Two }
    {
        Format { known: Known::Two }
    }

    /// Format 4, of the store with this identity, whose device had so many pages when it was made.
    pub fn four(store: StoreId, device_pages: u64) -> Format
        ensures { result ≡ Four store.0 device_pages }
    {
        Format {
            known: Known::Four {
                store,
                device_pages,
            },
        }
    }

    /// Its number.
    pub fn number(self) -> FormatNumber
        ensures number { result ≡ number_in self }
        ensures fits { FitsFormat self }
    {
        match self.known {
            Known::Two => FormatNumber::Two,
            Known::Four { .. } => FormatNumber::Four,
        }
    }

    /// Which it is, and what it says of its store.
    pub(crate) fn known(self) -> Known
        ensures view { format_known result ≡ self }
        ensures fits { FitsFormat self }
    {
        self.known
    }

    /// The identity of the store, which it has in format 4.
    pub fn store(self) -> Option<StoreId>
        ensures store { option_map (λ id. id.0) result ≡ identity_in self }
        ensures fits { FitsFormat self }
    {
        match self.known {
            Known::Two => None,
            Known::Four { store, .. } => Some(store),
        }
    }

    /// The pages of the device. In format 4 these are as many as it had when the store was made. In format 2 they are
    /// those of so many extents of so many pages, and so many sections.
    pub fn device_pages(self, extents: u16, pages: u16, sections: u8) -> u64
        ensures { result ≡ device_pages self extents pages sections }
    {
        match self.known {
            Known::Two => 1 + u64::from(extents) * u64::from(pages) + u64::from(sections),
            Known::Four { device_pages, .. } => device_pages,
        }
    }

    /// The device has room for so many extents of so many pages and so many sections, each of which lies twice with
    /// the root. In format 2 nothing is said of the device.
    pub(crate) fn has_device(self, extents: u16, pages: u16, sections: u8) -> bool
        ensures { result ≡ has_device self extents pages sections }
    {
        match self.known {
            Known::Two => true,
            Known::Four { device_pages, .. } => file_pages(extents, pages, sections)
                <= device_pages,
        }
    }

    /// Whether a root needs all that was staged before it, and a section the pages that it counts, as it does in
    /// format 2. Else a root needs all plain writes that were staged before it.
    pub fn pages_first(self) -> bool
        ensures { result ≡ pages_first_in self }
    {
        match self.known {
            Known::Two => true,
            Known::Four { .. } => false,
        }
    }

    /// Whether chunks and runs lie apart.
    pub fn lies_apart(self) -> bool
        ensures { result ≡ apart_in self }
    {
        match self.known {
            Known::Two => false,
            Known::Four { .. } => true,
        }
    }

    /// Whether an extent that was found with pages is filled up after them.
    pub fn fills_up(self) -> bool
        ensures { result ≡ fills_in self }
    {
        match self.known {
            Known::Two => false,
            Known::Four { .. } => true,
        }
    }

    /// Whether a Stage merges the newest runs by their sizes.
    pub fn merges_by_size(self) -> bool
        ensures { result ≡ by_size_in self }
    {
        match self.known {
            Known::Two => false,
            Known::Four { .. } => true,
        }
    }

    /// Whether locators have marks.
    pub fn has_marks(self) -> bool
        ensures { result ≡ marks_in self }
    {
        match self.known {
            Known::Two => false,
            Known::Four { .. } => true,
        }
    }

    /// Whether the payload of a chunk has a head.
    pub fn has_heads(self) -> bool
        ensures { result ≡ heads_in self }
    {
        match self.known {
            Known::Two => false,
            Known::Four { .. } => true,
        }
    }

    /// Whether the bytes of a shard are cut in even pieces. If not, all but the last are as long as may be.
    pub fn cuts_evenly(self) -> bool
        ensures { result ≡ evenly_in self }
    {
        match self.known {
            Known::Two => false,
            Known::Four { .. } => true,
        }
    }

    /// Whether a section records the version of the root that was persistent when it was staged.
    pub fn has_records(self) -> bool
        ensures { result ≡ records_in self }
    {
        match self.known {
            Known::Two => false,
            Known::Four { .. } => true,
        }
    }

    /// Whether the root and each section of the superblock lie on two pages.
    pub fn has_twins(self) -> bool
        ensures { result ≡ twins_in self }
    {
        match self.known {
            Known::Two => false,
            Known::Four { .. } => true,
        }
    }

    /// The least number of extents of a store.
    pub fn least_extents(self) -> u16
        ensures { result ≡ least_extents self }
    {
        match self.known {
            Known::Two => 4,
            Known::Four { .. } => 5,
        }
    }

    /// The greatest number of extents of a store.
    pub fn greatest_extents(self) -> u16
        ensures { result ≡ greatest_extents self }
    {
        match self.known {
            Known::Two => 2048,
            Known::Four { .. } => 7680,
        }
    }

    /// The greatest number of sections of a superblock.
    pub fn greatest_sections(self) -> u8
        ensures number { result ≡ greatest_sections self }
        ensures fits { FitsFormat self }
    {
        match self.known {
            Known::Two => 8,
            Known::Four { .. } => 15,
        }
    }

    /// The greatest number of pages of an extent.
    pub fn greatest_pages(self) -> u16
        ensures { result ≡ greatest_pages self }
    {
        match self.known {
            Known::Two => 256,
            Known::Four { .. } => 65535,
        }
    }

    /// The greatest number of runs of a root.
    pub fn greatest_runs(self) -> usize
        ensures { result ≡ greatest_runs (number_in self) }
    {
        self.number().greatest_runs()
    }
}

/// What a section records in a format where this version of the root is persistent: 0 where it has no bytes for it.
pub fn record_in(format: Format, root: u64) -> u64
    ensures record { result ≡ record_in format root }
    ensures fits { FitsRecord format result }
{
    match format.known {
        Known::Two => 0,
        Known::Four { .. } => root,
    }
}

/// How many bytes a head has: 34, and none in a format that has no heads.
pub fn head_bytes(format: Format) -> usize
    ensures bytes { result ≡ head_bytes_in format }
    ensures small { result ≤ 34 }
{
    match format.known {
        Known::Two => 0,
        Known::Four { .. } => 34,
    }
}

/// What an entry of so many chunks weighs in a format. A deletion has none. In format 4 an entry weighs as many bytes
/// as it takes, and in format 2 one.
pub fn entry_weight(format: Format, chunks: usize) -> usize
    requires { chunks ≤ greatest_chunks }
    ensures value { result ≡ weigh_in format chunks }
    ensures some { 1 ≤ result }
    ensures small { result ≤ 145 }
{
    match format.known {
        Known::Two => 1,
        Known::Four { .. } => 17 + 16 * chunks,
    }
}

/// How many bytes the payload has of a run whose entries weigh so much.
pub fn weight_bytes(format: Format, weight: usize) -> usize
    requires { weight < 2 ^ 32 }
    ensures { result ≡ weight_bytes format weight }
{
    match format.known {
        Known::Two => run_bytes(weight),
        Known::Four { .. } => 12 + weight,
    }
}

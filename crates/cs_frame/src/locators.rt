//! Where a frame lies, and where those of a shard lie.
ghost use Rattle.std.specs.Prelude.{◌≡◌, ◌+◌, ◌*◌, ◌≤◌, ◌++◌, false, length, true, IfOk, ◌<◌, ◌∷◌, [], IsOk, slice_set};
ghost use Rattle.cs_frame.specs.Locators.{AreUnmarked, FitsLocator, KeepMarks, locator_in, locator_size, locators_in, spelled_locators};
ghost use Rattle.cs_frame.specs.FormatNumbers.{is_marked};
ghost use Rattle.std.specs.List.{AllByRecursion};
ghost use Rattle.cs_frame.specs.Buffers.{text_of};
ghost use Rattle.cs_frame.specs.Places.{HasPlaceFor};

use crate::formats::FormatNumber;
use crate::pages::PageBuffer;
use byteorder::{BigEndian, ByteOrder};
use std::alloc::{AllocError, Global};
use std::marker::Model;
use std::{fmt, slice};

/// The place of a frame: its first page, in one generation of an extent.
#[derive(Clone, Copy, Debug, PartialEq, Eq)]
pub struct Locator {
    /// The number of the extent.
    pub extent: u16,
    /// The page within the extent.
    pub page: u16,
    /// How often the extent had been reset when the frame was written.
    pub generation: u32,
    /// The mark of the frame that is meant, 0 in a format that has no marks.
    pub mark: u64,
}

pub(crate) fn locator_from(bytes: &[u8; 8]) -> Locator
    ensures { result ≡ locator_in false bytes.now }
{
    Locator {
        extent: BigEndian::read_u16(&bytes[0..2]),
        page: BigEndian::read_u16(&bytes[2..4]),
        generation: BigEndian::read_u32(&bytes[4..8]),
        mark: 0,
    }
}

pub(crate) fn marked_from(bytes: &[u8; 16]) -> Locator
    ensures { result ≡ locator_in true bytes.now }
{
    Locator {
        extent: BigEndian::read_u16(&bytes[0..2]),
        page: BigEndian::read_u16(&bytes[2..4]),
        generation: BigEndian::read_u32(&bytes[4..8]),
        mark: BigEndian::read_u64(&bytes[8..16]),
    }
}

/// The locators that these bytes spell, 8 bytes each.
fn unmarked_from(alloc: Global, bytes: &[u8]) -> Result<Vec<Locator>, AllocError>
    ensures { IfOk result (λ v. v.items ≡ locators_in false bytes.now) }
{
    let (spelled, _) = bytes.as_chunks::<8>();
    let mut locators = Vec::with_capacity(alloc, spelled.len())?;
    for bytes in spelled {
        locators.push_reserved(locator_from(bytes));
    }
    Ok(locators)
}

/// The locators that these bytes spell, 16 bytes each.
fn all_marked_from(alloc: Global, bytes: &[u8]) -> Result<Vec<Locator>, AllocError>
    ensures { IfOk result (λ v. v.items ≡ locators_in true bytes.now) }
{
    let (spelled, _) = bytes.as_chunks::<16>();
    let mut locators = Vec::with_capacity(alloc, spelled.len())?;
    for bytes in spelled {
        locators.push_reserved(marked_from(bytes));
    }
    Ok(locators)
}

/// The locators that these bytes spell in the format of this number.
pub(crate) fn locators_from(
    alloc: Global,
    number: FormatNumber,
    bytes: &[u8],
) -> Result<Vec<Locator>, AllocError>
    ensures { IfOk result (λ v. v.items ≡ locators_in (is_marked number) bytes.now) }
{
    if number.has_marks() {
        all_marked_from(alloc, bytes)
    } else {
        unmarked_from(alloc, bytes)
    }
}

impl Locator {
    ghost use Rattle.cs_frame.specs.Locators.{FitsLocator, spelled_locator};

    /// Its 8 bytes.
    pub(crate) fn bytes(self) -> [u8; 8]
        requires { self.mark ≡ 0 }
        ensures bytes { result ≡ spelled_locator false self }
        ensures fits { FitsLocator false self }
    {
        let mut bytes = [0; 8];
        BigEndian::write_u16(&mut bytes[0..2], self.extent);
        BigEndian::write_u16(&mut bytes[2..4], self.page);
        BigEndian::write_u32(&mut bytes[4..8], self.generation);
        bytes
    }

    /// Its 16 bytes.
    pub(crate) fn marked_bytes(self) -> [u8; 16]
        ensures bytes { result ≡ spelled_locator true self }
        ensures fits { FitsLocator true self }
    {
        let mut bytes = [0; 16];
        BigEndian::write_u16(&mut bytes[0..2], self.extent);
        BigEndian::write_u16(&mut bytes[2..4], self.page);
        BigEndian::write_u32(&mut bytes[4..8], self.generation);
        BigEndian::write_u64(&mut bytes[8..16], self.mark);
        bytes
    }
}

/// Writes locators, 8 bytes each.
fn append_unmarked(page: &mut PageBuffer, locators: &[Locator])
    requires room { length (text_of page.old) + 8 * length locators.now ≤ 4096 }
    requires unmarked { AreUnmarked locators.now }
    ensures text { text_of page.new ≡ text_of page.old ++ spelled_locators false locators.now }
    ensures fit { AllByRecursion (FitsLocator false) locators.now }
{
    for locator in locators {
        page.append(&locator.bytes());
    }
}

/// Writes locators, 16 bytes each.
fn append_marked(page: &mut PageBuffer, locators: &[Locator])
    requires { length (text_of page.old) + 16 * length locators.now ≤ 4096 }
    ensures text { text_of page.new ≡ text_of page.old ++ spelled_locators true locators.now }
    ensures fit { AllByRecursion (FitsLocator true) locators.now }
{
    for locator in locators {
        page.append(&locator.marked_bytes());
    }
}

/// Writes locators as the format of this number has them.
pub(crate) fn append_locators(page: &mut PageBuffer, number: FormatNumber, locators: &[Locator])
    requires room { length (text_of page.old) + locator_size (is_marked number) * length locators.now ≤ 4096 }
    requires marks { KeepMarks (is_marked number) locators.now }
    ensures text { text_of page.new ≡ text_of page.old ++ spelled_locators (is_marked number) locators.now }
    ensures fit { AllByRecursion (FitsLocator (is_marked number)) locators.now }
{
    if number.has_marks() {
        append_marked(page, locators);
    } else {
        append_unmarked(page, locators);
    }
}

/// Some locators: none or one in place, more of them elsewhere in memory.
#[derive(Drop)]
pub enum Held {
    Nothing,
    One(Locator),
    Many(Box<Vec<Locator>>),
}

/// The locators of a shard's chunks, in order. Most shards have one chunk, and an index has an entry for each shard:
/// none and one take no memory beside these two words.
#[derive(Drop)]
pub struct Places {
    held: Held,
}

impl Model for Places {
    ghost use Rattle.cs_frame.specs.Places.{Listed, listed_by};

    ghost Value = { Listed };

    ghost view = { λ p. listed_by p.held };
}

impl Places {
    /// No locators. It takes no memory.
    pub fn none() -> Self
        ensures { result ≡ record { items = []; capacity = 1 } }
    {
        Places {
            held: Held::Nothing,
        }
    }

    /// No locators yet, with room for so many. Up to one it takes no memory.
    pub fn with_room(alloc: Global, count: usize) -> Result<Self, AllocError>
        ensures items { IfOk result (λ places. places.items ≡ []) }
        ensures room { IfOk result (λ places. count ≤ places.capacity) }
        ensures memory { count ≤ 1 → IsOk result }
    {
        if count <= 1 {
            return Ok(Self::none());
        }
        let places = Vec::with_capacity(alloc, count)?;
        Ok(Places {
            held: Held::Many(Box::new(alloc, places)?),
        })
    }

    /// These locators. Up to one it takes no memory.
    pub fn from_slice(alloc: Global, places: &[Locator]) -> Result<Self, AllocError>
        ensures same { IfOk result (λ made. made.items ≡ places.now) }
        ensures memory { length places.now ≤ 1 → IsOk result }
    {
        let held = match places {
            [] => Held::Nothing,
            [only] => Held::One(*only),
            _ => Held::Many(Box::new(alloc, Vec::from_slice(alloc, places)?)?),
        };
        Ok(Places { held })
    }

    /// The locators.
    pub fn as_slice(&self) -> &[Locator]
        ensures value { result.now ≡ self.now.items }
    {
        match &self.held {
            Held::Nothing => &[],
            Held::One(place) => slice::from_ref(place),
            Held::Many(places) => places.as_slice(),
        }
    }

    /// Adds a locator behind the others, where there is room for it.
    pub fn push_reserved(&mut self, place: Locator)
        requires { HasPlaceFor self.old 1 }
        ensures items { self.new.items ≡ self.old.items ++ place ∷ [] }
        ensures capacity { self.new.capacity ≡ self.old.capacity }
    {
        match &mut self.held {
            Held::Many(places) => places.push_reserved(place),
            _ => self.held = Held::One(place),
        }
    }

    /// Gives a chunk another locator.
    pub fn set(&mut self, chunk: usize, place: Locator)
        requires { chunk < length self.old.items }
        ensures { self.new.items ≡ slice_set self.old.items chunk place }
    {
        match &mut self.held {
            Held::Nothing => {}
            Held::One(only) => *only = place,
            Held::Many(places) => places[chunk] = place,
        }
    }
}

/// The locators that these bytes spell, 8 bytes each.
pub(crate) fn places_from(alloc: Global, bytes: &[u8]) -> Result<Places, AllocError>
    ensures { IfOk result (λ places. places.items ≡ locators_in false bytes.now) }
{
    let (spelled, _) = bytes.as_chunks::<8>();
    let mut places = Places::with_room(alloc, spelled.len())?;
    for bytes in spelled {
        places.push_reserved(locator_from(bytes));
    }
    Ok(places)
}

/// The locators that these bytes spell, 16 bytes each.
pub(crate) fn marked_places_from(alloc: Global, bytes: &[u8]) -> Result<Places, AllocError>
    ensures { IfOk result (λ places. places.items ≡ locators_in true bytes.now) }
{
    let (spelled, _) = bytes.as_chunks::<16>();
    let mut places = Places::with_room(alloc, spelled.len())?;
    for bytes in spelled {
        places.push_reserved(marked_from(bytes));
    }
    Ok(places)
}

impl fmt::Debug for Places {
    fn fmt<W: fmt::Write>(&self, f: &mut fmt::Formatter<W>) -> fmt::Result {
        fmt::Debug::fmt(&self.as_slice(), f)
    }
}

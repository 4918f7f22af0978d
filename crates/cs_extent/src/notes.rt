//! What is noted of the extents if chunks and runs lie apart.
ghost use Rattle.std.specs.Prelude.{◌≡◌, ◌↔◌, ◌<◌, ◌≤◌, ◌^◌, ◌==◌, if◌then◌else◌, ℕ, true, Some, None, IfOk, IfErr, OnOk, OnErr, IsTrue, length};
ghost use Rattle.law_machine.specs.Extents.{emptied, forgotten, other_than, reach};
ghost use Rattle.law_machine.specs.Geometry.{apart_in, fills_in};
ghost use Rattle.cs_extent.specs.Kinds.{is_of_runs};
ghost use Rattle.cs_extent.specs.Notes.{noted_in};
ghost use Rattle.cs_extent.specs.Purposes.{reason_of};
ghost use Rattle.cs_extent.specs.State.{IsWhole, extents_of, found_at, shape};

use crate::extents::Extents;
use crate::kinds::Kind;
use crate::purposes::Purpose;
use cs_frame::Format;
use std::alloc::{AllocError, Global};

impl Extents {
    /// Whether chunks and runs lie apart: an extent holds the one or the other, never both.
    pub fn is_apart(&self) -> bool
        ensures { result ≡ (shape self.now).apart }
    {
        self.geometry().format().lies_apart()
    }

    /// Whether an extent holds runs.
    pub fn holds_runs(&self, extent: usize) -> bool
        requires { extent < (shape self.now).extents }
        ensures { result ≡ (extents_of self.now).of_runs extent }
    {
        self.of_runs[extent]
    }

    /// How many pages of an extent were given as the store was opened, 0 once it was reset.
    pub fn found(&self, extent: usize) -> usize
        requires { extent < (shape self.now).extents }
        ensures { result ≡ (extents_of self.now).found extent }
    {
        usize::from(self.found[extent])
    }

    /// Whether extents are filled up: frames are appended after the pages that were found on an extent, and a frame
    /// that begins among them ends there too.
    pub fn fills(&self) -> bool
        ensures { result ≡ (shape self.now).fills }
    {
        self.geometry().format().fills_up()
    }

    /// How far a frame may reach that begins at a page of an extent: to the end of the pages that were found, if it
    /// begins among them and extents are filled up, else to the extent's end.
    pub fn end_of(&self, extent: usize, page: usize) -> usize
        requires { extent < (shape self.now).extents }
        ensures end { result ≡ reach (shape self.now) ((extents_of self.now).found extent) page }
        ensures fits { result ≤ (shape self.now).pages }
        ensures above { page < (shape self.now).pages → page < result }
    {
        self.extent_count();
        let found = self.found(extent);
        if self.fills() && page < found {
            return found;
        }
        self.extent_pages()
    }

    /// The extent that frames are appended to.
    pub fn open_extent(&self) -> Option<usize>
        ensures opened { result ≡ (extents_of self.now).open_extent }
        ensures whole { IsWhole self.now }
    {
        self.open_extent
    }

    /// The extent that the sweep opened.
    pub fn fresh(&self) -> Option<usize>
        ensures { result ≡ (extents_of self.now).fresh }
    {
        self.fresh
    }

    /// The extent to which the last copy of any sweep went.
    pub fn last_copied(&self) -> Option<usize>
        ensures { result ≡ (extents_of self.now).last }
    {
        self.last
    }

    /// Notes what an extent holds.
    pub fn set_kind(&mut self, extent: usize, kind: Kind)
        requires { extent < (shape self.old).extents }
        ensures extents { extents_of self.new ≡ record (extents_of self.old) { of_runs = λ d. if d == extent then is_of_runs kind else (extents_of self.old).of_runs d } }
        ensures shape { shape self.new ≡ shape self.old }
    {
        self.of_runs[extent] = kind.is_of_runs();
    }

    /// No frame is appended to an extent any more because it is the open one, or the one to which the last copy went.
    pub fn set_aside(&mut self, extent: usize)
        ensures extents { extents_of self.new ≡ record (extents_of self.old) { open_extent = other_than extent (extents_of self.old).open_extent; last = other_than extent (extents_of self.old).last } }
        ensures shape { shape self.new ≡ shape self.old }
    {
        self.open_extent = other_than(extent, self.open_extent);
        self.last = other_than(extent, self.last);
    }

    /// No extent is one that a sweep opened any more.
    pub fn rest(&mut self)
        ensures extents { extents_of self.new ≡ record (extents_of self.old) { fresh = None } }
        ensures shape { shape self.new ≡ shape self.old }
    {
        self.fresh = None;
    }

    /// Notes that a frame went to an extent for this purpose, of which so many pages were given before.
    pub(crate) fn note(&mut self, purpose: Purpose, extent: usize, given: usize)
        requires exists { extent < (shape self.old).extents }
        requires given { 0 < (extents_of self.old).pointer extent }
        ensures notes { self.new ≡ noted_in (reason_of purpose) extent given self.old }
        ensures there { extent < length self.old.of_runs }
    {
        match purpose {
            Purpose::Put => self.open_extent = Some(extent),
            Purpose::Run | Purpose::Merge => self.of_runs[extent] = true,
            Purpose::Move => {
                self.fresh = fresh_after(extent, given, self.fresh);
                self.last = Some(extent);
            }
        }
    }
}

/// The extent that the sweep opened, once a copy went to this one, of which so many pages were given before.
fn fresh_after(extent: usize, given: usize, fresh: Option<usize>) -> Option<usize>
    ensures { result ≡ (if given == 0 then Some extent else fresh) }
{
    if given == 0 { Some(extent) } else { fresh }
}

/// The extent, but none if it is this one.
pub fn other_than(extent: usize, of: Option<usize>) -> Option<usize>
    ensures { result ≡ other_than extent of }
{
    match of {
        Some(other) => unless_equal(extent, other),
        None => None,
    }
}

/// The other extent, but none if it is this one.
fn unless_equal(extent: usize, other: usize) -> Option<usize>
    ensures { result ≡ (if other == extent then None else Some other) }
{
    if other == extent { None } else { Some(other) }
}

/// How many pages of each extent count as found when a store of this format is opened: all that are given, but none in
/// format 2.
pub fn found_at(
    alloc: Global,
    written: &[(u16, u32)],
    format: Format,
) -> Result<Vec<u16>, AllocError>
    ensures { IfOk result (λ found. found.items ≡ found_at (apart_in format) written.now) }
{
    if !format.lies_apart() {
        let none = vec![in alloc; 0; written.len()]?;
        return Ok(none);
    }
    let mut found = Vec::with_capacity(alloc, written.len())?;
    for extent in written {
        found.push(extent.0)?;
    }
    Ok(found)
}

//! How many bytes the frames of chunks have, kept in memory by their places, so that no header needs to be read twice.
ghost use Rattle.std.specs.Prelude.{◌≡◌, ◌<◌, ◌≤◌, ℕ, Some, None, [], if◌then◌else◌, ◌==◌, vec_len, vec_capacity, IfOk, OnErr, OnOk};
ghost use Rattle.cs_frame.specs.declared.locators.Locator.{Locator as Place};
ghost use Rattle.cs_core.specs.Lengths.{Rise, frame_on, noted_at, noted_by, noted_in, noted_then};

use cs_frame::Locator;
use std::alloc::{AllocError, Global};
use std::marker::Model;

/// A frame of which is noted how many bytes its payload has: the page where it begins, and its mark.
#[derive(Clone, Copy, Debug)]
pub(crate) struct Frame {
    pub mark: u64,
    pub count: u32,
    pub page: u16,
}

/// What is noted of an extent in one of its generations: frames, by rising pages.
#[derive(Drop)]
struct Row {
    generation: u32,
    frames: Vec<Frame>,
}

impl Model for Row {
    ghost use Rattle.cs_core.specs.Lengths as noted;

    ghost Value = { noted.Row };

    ghost view = { λ r. record { generation = r.generation; frames = r.frames.items } };

    ghost invariant = { λ r. noted.Rise r.frames.items };
}

impl Row {
    /// Of which nothing is noted.
    fn empty(alloc: Global) -> Row
        ensures { result ≡ record { generation = 0; frames = [] } }
    {
        Row {
            generation: 0,
            frames: Vec::new(alloc),
        }
    }

    /// What is noted for a place in it.
    fn get(&self, place: Locator) -> Option<u32>
        ensures { result ≡ noted_in self.now place }
    {
        if self.generation != place.generation {
            return None;
        }
        match frame_at(&self.frames, place.page) {
            Some(frame) => if frame.mark == place.mark {
                Some(frame.count)
            } else {
                None
            },
            None => None,
        }
    }

    /// Notes how many bytes the frame has at a place in it. If memory is refused nothing has changed.
    fn note(&mut self, place: Locator, count: u32) -> Result<(), AllocError>
        ensures ok { OnOk result ((l : Place) → noted_in self.new l ≡ noted_by (noted_in self.old) place count l) }
        ensures err { OnErr result (self.new ≡ self.old) }
    {
        self.frames.reserve(1)?;
        if self.generation != place.generation {
            self.frames.clear();
            self.generation = place.generation;
        }
        let frame = Frame {
            mark: place.mark,
            count,
            page: place.page,
        };
        put_frame(&mut self.frames, frame);
        Ok(())
    }
}

/// The frame that is noted of a page.
fn frame_at(frames: &[Frame], page: u16) -> Option<Frame>
    requires { Rise frames.now }
    ensures { result ≡ frame_on frames.now page }
{
    match frames.binary_search_by_key(&page, |frame| frame.page) {
        Ok(k) => Some(frames[k]),
        Err(_) => None,
    }
}

/// Notes a frame in place of the one on its page.
fn put_frame(frames: &mut Vec<Frame>, frame: Frame)
    requires rise { Rise frames.old.items }
    requires room { vec_len frames.old < vec_capacity frames.old }
    ensures rise { Rise frames.new.items }
    ensures put { (page : ℕ) → frame_on frames.new.items page ≡ (if frame.page == page then Some frame else frame_on frames.old.items page) }
{
    match frames.binary_search_by_key(&frame.page, |noted| noted.page) {
        Ok(k) => frames[k] = frame,
        Err(k) => {
            let _ = frames.insert(k, frame);
        }
    }
}

/// Adds rows of which nothing is noted until there are so many.
fn grow(alloc: Global, rows: &mut Vec<Row>, count: usize) -> Result<(), AllocError>
    ensures same { (l : Place) → noted_at rows.new.items l ≡ noted_at rows.old.items l }
    ensures enough { OnOk result (count ≤ vec_len rows.new) }
{
    while rows.len() < count {
        rows.push(Row::empty(alloc))?;
    }
    Ok(())
}

/// Notes it in the row of its extent, which is added if it is missing.
fn note_in(alloc: Global, rows: &mut Vec<Row>, place: Locator, count: u32) -> Result<(), AllocError>
    ensures ok { OnOk result ((l : Place) → noted_at rows.new.items l ≡ noted_then (noted_at rows.old.items) place count l) }
    ensures err { OnErr result ((l : Place) → noted_at rows.new.items l ≡ noted_at rows.old.items l) }
{
    let extent = usize::from(place.extent);
    grow(alloc, rows, extent + 1)?;
    let row = &mut rows[extent];
    row.note(place, count)
}

/// How many bytes the payloads of frames have, by the places where they begin. Of each extent one generation is kept.
/// If a place of another generation is noted, what was noted of the extent goes. So no more is noted than was appended
/// since the extent was emptied: 16 bytes for each frame, and as many again as a vector may reserve.
#[derive(Drop)]
pub struct Lengths {
    alloc: Global,
    rows: Vec<Row>,
}

impl Model for Lengths {
    ghost use Rattle.std.specs.Prelude.{List};
    ghost use Rattle.cs_core.specs.Lengths as noted;

    ghost Value = { List noted.Row };

    ghost view = { λ x. x.rows.items };
}

impl Lengths {
    /// Nothing is noted. It asks for no memory.
    pub fn none(alloc: Global) -> Lengths
        ensures { result ≡ [] }
    {
        Lengths {
            alloc,
            rows: Vec::new(alloc),
        }
    }

    /// How many bytes are noted for this very place. It is searched for.
    pub fn get(&self, place: Locator) -> Option<u32>
        ensures { result ≡ noted_at self.now place }
    {
        match self.rows.get(usize::from(place.extent)) {
            Some(row) => row.get(place),
            None => None,
        }
    }

    /// Notes how many bytes the frame has that begins at a place. What was noted of another generation of its extent
    /// goes. If memory is refused nothing has changed.
    pub fn note(&mut self, place: Locator, count: u32) -> Result<(), AllocError>
        ensures ok { OnOk result ((l : Place) → noted_at self.new l ≡ noted_then (noted_at self.old) place count l) }
        ensures err { OnErr result ((l : Place) → noted_at self.new l ≡ noted_at self.old l) }
    {
        note_in(self.alloc, &mut self.rows, place, count)
    }
}

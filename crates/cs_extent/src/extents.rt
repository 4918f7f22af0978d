//! The extents of a store.
ghost use Rattle.std.specs.Prelude.{◌≡◌, ℕ, ◌+◌, ◌-◌, ◌*◌, ◌<◌, ◌≤◌, ◌^◌, ◌↔◌, ◌⊎◌, ◌==◌, if◌then◌else◌, false, true, IfOk, IfErr, OnOk, OnErr, IsOk, IsTrue, List, count_by, Some, None, length, replicate, slice_index};
ghost use Rattle.law_machine.specs.Device.{mark_of};
ghost use Rattle.law_machine.specs.Extents.{emptied, empties, forgotten, marked, taken_by};
ghost use Rattle.law_machine.specs.Lists.{with};
ghost use Rattle.cs_frame.specs.Superblocks.{FitsRecord};
ghost use Rattle.cs_extent.specs.Appended.{IsAppended, IsReady};
ghost use Rattle.cs_extent.specs.Frames.{IsWorn, NamesNextSection, greatest, next_place, root_family, root_recorded};
ghost use Rattle.cs_extent.specs.Places.{GoesIn};
ghost use Rattle.cs_extent.specs.Purposes.{reason_of};
ghost use Rattle.cs_extent.specs.Sections.{AreSections, format_of, pages_of, rows_of};
ghost use Rattle.cs_extent.specs.State.{IsWhole, SpellsExtents, extents_of, need_of, extents_at, shape};
ghost use Rattle.cs_extent.specs.Worn.{IsFrameWorn};

use crate::notes::{found_at, other_than};
use crate::numbers::is_worn;
use crate::purposes::Purpose;
use crate::recorded_extents::{geometry_of, joined};
use crate::staged_frames::{FramePlace, ROOT, on_versions, section_family, stage_frame};
use cs_deps::{Dependency, Graph};
use cs_frame::{Geometry, Locator, Superblock, encode_section, frame_mark, record_in};
use cs_refusal::Refusal;
use std::alloc::{AllocError, Global};
use std::marker::Model;

/// Which pages of the extents are given, which extent frames are appended to, and what was reset since the store was
/// opened.
#[derive(Drop)]
pub struct Extents {
    geometry: Geometry,
    /// Of each extent how many of its pages are given, and its generation.
    pub(crate) written: Vec<(u16, u32)>,
    /// Of each extent the version of the root of its last reset since open, 0 for none.
    pub(crate) resets: Vec<u64>,
    /// Which extents are being swept; opening forgets it.
    swept: Vec<bool>,
    pub(crate) open_extent: Option<usize>,
    /// Which extents hold runs; none in format 2.
    pub(crate) of_runs: Vec<bool>,
    /// How many pages of each extent were given when the store was opened, 0 after a reset and in format 2.
    pub(crate) found: Vec<u16>,
    /// The extent that the sweep opened; none in format 2.
    pub(crate) fresh: Option<usize>,
    /// The extent to which the last copy of any sweep went; none in format 2.
    pub(crate) last: Option<usize>,
}

impl Model for Extents {
    ghost use Rattle.cs_extent.specs.State.{State, IsSound};

    ghost Value = { State };

    ghost view = { λ x. record { format = x.geometry.format; pages = x.geometry.pages; sections = x.geometry.sections; written = x.written.items; resets = x.resets.items; swept = x.swept.items; open_extent = x.open_extent; of_runs = x.of_runs.items; found = x.found.items; fresh = x.fresh; last = x.last } };

    ghost invariant = { λ x. IsSound x.geometry (record { format = x.geometry.format; pages = x.geometry.pages; sections = x.geometry.sections; written = x.written.items; resets = x.resets.items; swept = x.swept.items; open_extent = x.open_extent; of_runs = x.of_runs.items; found = x.found.items; fresh = x.fresh; last = x.last }) };
}

/// The greatest generation of an extent.
pub const LAST_GENERATION: u32 = 0xffff_ffff;

impl Extents {
    /// The extents that the sections of a superblock record, in order: none is open, none was reset, and none is being
    /// swept. None holds runs, until `set_kind` says so. Takes memory for each extent.
    pub fn of(alloc: Global, sections: &[Superblock]) -> Result<Self, AllocError>
        requires { AreSections sections.now }
        ensures { IfOk result (λ x. x ≡ extents_at (format_of sections.now) (pages_of sections.now) (length sections.now) (rows_of sections.now)) }
    {
        let geometry = geometry_of(sections);
        let written = joined(alloc, sections)?;
        let resets = vec![in alloc; 0; written.len()]?;
        let swept = vec![in alloc; false; written.len()]?;
        let of_runs = vec![in alloc; false; written.len()]?;
        let found = found_at(alloc, &written, geometry.format())?;
        Ok(Extents {
            geometry,
            written,
            resets,
            swept,
            open_extent: None,
            of_runs,
            found,
            fresh: None,
            last: None,
        })
    }

    /// The dimensions of the store.
    pub fn geometry(&self) -> Geometry
        ensures format { result.format ≡ (shape self.now).format }
        ensures extents { result.extents ≡ (shape self.now).extents }
        ensures pages { result.pages ≡ (shape self.now).pages }
        ensures sections { result.sections ≡ (shape self.now).sections }
        ensures whole { IsWhole self.now }
    {
        self.geometry
    }

    /// Whether a section's version needs the plain writes that it counts, as it does in format 2. Else a root needs all
    /// plain writes that were staged before it.
    pub fn pages_first(&self) -> bool
        ensures { result ≡ (shape self.now).pages_first }
    {
        self.geometry.format().pages_first()
    }

    /// How many extents there are.
    pub fn extent_count(&self) -> usize
        ensures count { result ≡ (shape self.now).extents }
        ensures whole { IsWhole self.now }
    {
        self.written.len()
    }

    /// How many pages each extent has.
    pub fn extent_pages(&self) -> usize
        ensures { result ≡ (shape self.now).pages }
    {
        usize::from(self.geometry.pages())
    }

    /// How many pages of an extent are given.
    pub fn pointer(&self, extent: usize) -> usize
        requires { extent < (shape self.now).extents }
        ensures { result ≡ (extents_of self.now).pointer extent }
    {
        usize::from(self.written[extent].0)
    }

    /// How often an extent was reset.
    pub fn generation(&self, extent: usize) -> u32
        requires { extent < (shape self.now).extents }
        ensures { result ≡ (extents_of self.now).generation extent }
    {
        self.written[extent].1
    }

    /// Whether frames are appended to an extent.
    pub fn is_open(&self, extent: usize) -> bool
        requires { extent < (shape self.now).extents }
        ensures { IsTrue result ↔ ((extents_of self.now).open_extent ≡ Some extent) }
    {
        match self.open_extent {
            Some(open) => open == extent,
            None => false,
        }
    }

    /// Whether an extent is being swept.
    pub fn is_swept(&self, extent: usize) -> bool
        requires { extent < (shape self.now).extents }
        ensures { result ≡ (extents_of self.now).swept extent }
    {
        self.swept[extent]
    }

    /// Marks an extent as being swept, or no longer.
    pub fn set_swept(&mut self, extent: usize, swept: bool)
        requires { extent < (shape self.old).extents }
        ensures extents { extents_of self.new ≡ marked (extents_of self.old) extent swept }
        ensures shape { shape self.new ≡ shape self.old }
    {
        self.swept[extent] = swept;
    }

    /// Empties an extent, under the version of the root that was staged for it. Nothing is staged: the next version of
    /// its section records it. An open before that version is persistent finds the extent as it was. The extent is no
    /// longer one of runs, none of its pages counts as found, and no frame follows another on it. Format 2 notes none
    /// of these.
    ///
    /// 35 `WornOut` if its generation is the greatest, 4,294,967,295.
    pub fn reset(&mut self, extent: usize, root: u64) -> Result<(), Refusal>
        requires exists { extent < (shape self.old).extents }
        requires closed { (shape self.old).apart ≡ false → ¬ ((extents_of self.old).open_extent ≡ Some extent) }
        requires written { (shape self.old).apart ≡ false → 0 < (extents_of self.old).pointer extent }
        requires root { root < 2 ^ 63 }
        ensures extents { OnOk result (extents_of self.new ≡ forgotten (shape self.old).apart (emptied (extents_of self.old) extent root) extent) }
        ensures shape { shape self.new ≡ shape self.old }
        ensures worn { (result ≡ Err Refusal.WornOut) ↔ ((extents_of self.old).generation extent ≡ (shape self.old).greatest_generation) }
        ensures refusals { IfErr result (λ r. r ≡ Refusal.WornOut) }
        ensures refused { OnErr result (self.new ≡ self.old) }
    {
        let apart = self.is_apart();
        let entry = &mut self.written[extent];
        if entry.1 == LAST_GENERATION {
            return Err(Refusal::WornOut);
        }
        entry.0 = 0;
        entry.1 += 1;
        self.resets[extent] = root;
        if apart {
            self.of_runs[extent] = false;
            self.found[extent] = 0;
            self.open_extent = other_than(extent, self.open_extent);
            self.last = other_than(extent, self.last);
        }
        Ok(())
    }

    /// How many extents are empty. Costs a pass over the extents.
    pub fn empty_count(&self) -> usize
        ensures { result ≡ empties (extents_of self.now).pointer (shape self.now).extents }
    {
        count_empty(&self.written)
    }

    /// Whether no page of an extent is given.
    pub(crate) fn is_empty(&self, extent: usize) -> bool
        requires { extent < (shape self.now).extents }
        ensures { IsTrue result ↔ ((extents_of self.now).pointer extent ≡ 0) }
    {
        self.pointer(extent) == 0
    }

    /// The mark of a frame, 0 in a format that has no marks.
    fn mark_of(&self, frame: &[[u8; 4096]]) -> u64
        requires { 1 ≤ length frame.now }
        ensures { result ≡ mark_of (shape self.now) frame.now }
    {
        frame_mark(self.geometry().format(), &frame[0])
    }

    /// Where a frame begins that goes to an extent.
    fn next_place(&self, extent: usize, frame: &[[u8; 4096]]) -> Locator
        requires exists { extent < (shape self.now).extents }
        requires some { 1 ≤ length frame.now }
        ensures { result ≡ next_place (extents_of self.now) extent (mark_of (shape self.now) frame.now) }
    {
        let (page, generation) = self.written[extent];
        Locator {
            extent: extent as u16,
            page,
            generation,
            mark: self.mark_of(frame),
        }
    }

    /// The page of the device where a frame begins that goes to an extent.
    fn first_page(&self, extent: usize) -> u64
        requires exists { extent < (shape self.now).extents }
        requires room { (extents_of self.now).pointer extent < (shape self.now).pages }
        ensures page { result ≡ (shape self.now).address extent ((extents_of self.now).pointer extent) }
        ensures small { result < 2 ^ 32 }
    {
        let (page, _) = self.written[extent];
        self.geometry().device_page(extent as u16, page)
    }

    /// The version of the root under which an extent was last reset since open, 0 if it wasn't.
    fn root_of(&self, extent: usize) -> u64
        requires { extent < (shape self.now).extents }
        ensures { result ≡ (extents_of self.now).reset extent }
    {
        self.resets[extent]
    }

    /// The section that an extent belongs to.
    pub(crate) fn section(&self, extent: usize) -> u8
        requires { extent < (shape self.now).extents }
        ensures section { result ≡ (shape self.now).section extent }
        ensures inside { result < (shape self.now).sections }
    {
        self.geometry.section_of(extent as u16)
    }

    /// The greatest version of the root that an extent of a section was reset under since open, 0 without one.
    fn need(&self, section: u8) -> u64
        requires { section < (shape self.now).sections }
        ensures { result ≡ need_of self.now section }
    {
        let start = self.geometry.section_start(section);
        let count = self.geometry.section_length(section);
        greatest_of(&self.resets, start, count)
    }

    /// Takes pages of an extent from its pointer on, for a frame of this purpose.
    fn take(&mut self, extent: usize, pages: usize, purpose: Purpose)
        requires exists { extent < (shape self.old).extents }
        requires some { 1 ≤ pages }
        requires room { (extents_of self.old).pointer extent + pages ≤ (shape self.old).pages }
        ensures extents { extents_of self.new ≡ taken_by (shape self.old) (shape self.old).apart (reason_of purpose) (extents_of self.old) extent pages }
        ensures shape { shape self.new ≡ shape self.old }
    {
        let given = self.pointer(extent);
        self.advance(extent, pages);
        if self.is_apart() {
            self.note(purpose, extent, given);
        } else {
            self.open_unless_full(extent);
        }
    }

    /// Moves an extent's pointer on.
    fn advance(&mut self, extent: usize, pages: usize)
        requires exists { extent < (shape self.old).extents }
        requires room { (extents_of self.old).pointer extent + pages ≤ (shape self.old).pages }
        ensures extents { extents_of self.new ≡ record (extents_of self.old) { pointer = with (extents_of self.old).pointer extent ((extents_of self.old).pointer extent + pages) } }
        ensures shape { shape self.new ≡ shape self.old }
        ensures kinds { length self.new.of_runs ≡ length self.old.of_runs }
    {
        let entry = &mut self.written[extent];
        entry.0 += pages as u16;
    }

    /// What a version of a section records that is staged now: the version of the root that is persistent, 0 in
    /// format 2.
    fn recorded(&self, graph: &Graph) -> u64
        requires { root_family < length graph.now.staging.latest }
        ensures record { result ≡ root_recorded (shape self.now).format graph.now.staging }
        ensures fits { FitsRecord (shape self.now).format result }
    {
        record_in(self.geometry.format(), graph.persistent_version(ROOT))
    }

    /// The page that spells this version of a section, which records this version of the root.
    fn section_bytes(&self, section: u8, version: u64, recorded: u64) -> [u8; 4096]
        requires section { section < (shape self.now).sections }
        requires version { (1 ≤ version) × (version < 2 ^ 63) }
        requires record { FitsRecord (shape self.now).format recorded }
        ensures { SpellsExtents self.now section version recorded result }
    {
        let start = self.geometry.section_start(section);
        let end = start + self.geometry.section_length(section);
        encode_section(
            version,
            recorded,
            self.geometry,
            section,
            &self.written[start..end],
        )
    }

    /// Where a frame goes that takes the next pages of an extent, and what it needs.
    fn frame_place(&self, extent: usize) -> FramePlace
        requires exists { extent < (shape self.now).extents }
        requires room { (extents_of self.now).pointer extent < (shape self.now).pages }
        ensures first { result.first ≡ (shape self.now).address extent ((extents_of self.now).pointer extent) }
        ensures small { result.first < 2 ^ 32 }
        ensures root { result.root ≡ (extents_of self.now).reset extent }
        ensures section { result.section ≡ (shape self.now).section extent }
        ensures inside { result.section < (shape self.now).sections }
        ensures page { result.section_page ≡ (shape self.now).section_page result.section }
        ensures need { result.need ≡ need_of self.now result.section }
        ensures format { result.geometry.format ≡ (shape self.now).format }
        ensures sections { result.geometry.sections ≡ (shape self.now).sections }
        ensures whole { IsWhole self.now }
    {
        let geometry = self.geometry();
        let section = self.section(extent);
        FramePlace {
            geometry,
            first: self.first_page(extent),
            root: self.root_of(extent),
            section,
            section_page: geometry.section_page(section),
            need: self.need(section),
        }
    }

    /// Gives the pages of a frame, and stages it there.
    fn give(
        &mut self,
        graph: &mut Graph,
        frame: &[[u8; 4096]],
        extent: usize,
        purpose: Purpose,
    ) -> (Locator, Dependency)
        requires goes { GoesIn self.old (reason_of purpose) (length frame.now) extent }
        requires exists { extent < (shape self.old).extents }
        requires some { 1 ≤ length frame.now }
        requires fits { (extents_of self.old).pointer extent + length frame.now ≤ (shape self.old).pages }
        requires ready { IsReady self.old graph.old.staging }
        requires numbers { ¬ IsWorn graph.old.staging ((shape self.old).section extent) (length frame.now) }
        requires room { length frame.now + 1 ≤ graph.old.room }
        ensures appended { IsAppended self.old graph.old (reason_of purpose) frame.now result.0 self.new graph.new }
        ensures dependency { NamesNextSection graph.old.staging ((shape self.old).section extent) result.1 }
        ensures place { result.0.extent ≡ extent }
        ensures ready { IsReady self.new graph.new.staging }
        ensures left { graph.old.room ≤ graph.new.room + (length frame.now + 1) }
    {
        let alloc = *self.resets.allocator();
        let locator = self.next_place(extent, frame);
        let place = self.frame_place(extent);
        let family = section_family(place.section);
        let version = graph.last_version(family) + 1;
        let recorded = self.recorded(graph);
        self.take(extent, frame.len(), purpose);
        let bytes = self.section_bytes(place.section, version, recorded);
        stage_frame(graph, alloc, frame, place, &bytes);
        (locator, on_versions(alloc, family, version))
    }

    /// Appends a frame: stages each of its pages as one plain write, and then a version of its extent's section. The
    /// version counts the pages and records the root that is persistent. Each page needs the root of its extent's last
    /// reset since open, if there is one. The version needs what the one before it needs, and the greatest such root of
    /// the section's extents. Every root that is staged later needs the frame's pages.
    ///
    /// In format 2 the version itself needs the frame's pages, and so they are persistent once it is. If there
    /// is one section alone it needs all plain writes so far. It records no root.
    ///
    /// Returns where the frame begins, and a dependency that names this version of the section and all before it.
    ///
    /// 30 `Full` if no extent takes the frame, then 35 `WornOut` if a number would pass 2^63 - 1, then 9 `OutOfMemory`:
    /// memory is asked for as room in the graph alone. Costs a few passes over the extents, the frame's pages and one
    /// page that spells the section.
    pub fn append(
        &mut self,
        graph: &mut Graph,
        frame: &[[u8; 4096]],
        purpose: Purpose,
    ) -> Result<(Locator, Dependency), Refusal>
        requires pages { (1 ≤ length frame.now) × (length frame.now ≤ (shape self.old).pages) }
        requires ready { IsReady self.old graph.old.staging }

        // The frame lies behind the pointer of the extent that takes it, and all of it is staged.
        ensures appended { IfOk result (λ r. IsAppended self.old graph.old (reason_of purpose) frame.now r.0 self.new graph.new) }
        ensures shape { shape self.new ≡ shape self.old }
        ensures dependency { IfOk result (λ r. NamesNextSection graph.old.staging ((shape self.old).section r.0.extent) r.1) }
        ensures round { graph.new.round ≡ graph.old.round }

        // Whatever the answer, the next append may be made.
        ensures ready { IsReady self.new graph.new.staging }

        ensures full { (result ≡ Err Refusal.Full) ↔ ((e : ℕ) → ¬ GoesIn self.old (reason_of purpose) (length frame.now) e) }
        ensures worn { (result ≡ Err Refusal.WornOut) ↔ IsFrameWorn self.old (reason_of purpose) graph.old.staging (length frame.now) }
        ensures refusals { IfErr result (λ r. (r ≡ Refusal.Full) ⊎ (r ≡ Refusal.WornOut) ⊎ (r ≡ Refusal.OutOfMemory)) }
        ensures refused { OnErr result (self.new ≡ self.old) }
        ensures unstaged { OnErr result (graph.new ≡ record graph.old { room = graph.new.room }) }

        // A frame takes the room of one staging more than it has pages, and asks for no memory where there is so much.
        ensures memory { length frame.now + 1 ≤ graph.old.room → ¬ (result ≡ Err Refusal.OutOfMemory) }
        ensures kept { OnErr result (graph.old.room ≤ graph.new.room) }
        ensures room { graph.old.room ≤ graph.new.room + (length frame.now + 1) }
    {
        let Some(extent) = self.place_for(frame.len(), purpose) else {
            return Err(Refusal::Full);
        };
        if is_worn(graph, self.section(extent), frame.len()) {
            return Err(Refusal::WornOut);
        }
        match graph.reserve(frame.len() + 1) {
            Ok(()) => Ok(self.give(graph, frame, extent, purpose)),
            Err(_) => Err(Refusal::OutOfMemory),
        }
    }

    /// Makes room in the graph, so that appends of so many frames, with so many pages in all, ask for no memory. What
    /// the extents hold never grows.
    pub fn reserve(&self, graph: &mut Graph, frames: usize, pages: usize) -> Result<(), AllocError>
        requires { frames + pages < 2 ^ 64 }
        ensures room { OnOk result (frames + pages ≤ graph.new.room) }
        ensures kept { graph.old.room ≤ graph.new.room }
        ensures rest { graph.new ≡ record graph.old { room = graph.new.room } }
        ensures memory { frames + pages ≤ graph.old.room → IsOk result }
    {
        // One staging a page, and one a frame for its section.
        graph.reserve(frames + pages)
    }
}

/// How many of these extents are empty.
fn count_empty(extents: &[(u16, u32)]) -> usize
    ensures { result ≡ count_by (λ extent. extent.0 == 0) extents.now }
{
    extents.iter().filter(|extent| extent.0 == 0).count()
}

/// The greatest of so many of these numbers from one place on, 0 if there are none.
fn greatest_of(numbers: &[u64], start: usize, count: usize) -> u64
    requires { start + count ≤ length numbers.now }
    ensures { result ≡ greatest (λ i. slice_index numbers.now (start + i)) count }
{
    let mut most: u64 = 0;
    for i in 0..count {
        most = most.max(numbers[start + i]);
    }
    most
}

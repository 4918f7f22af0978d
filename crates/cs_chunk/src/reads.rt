//! Reads of frames.
ghost use Rattle.std.specs.Prelude.{◌≡◌, ◌⊎◌, ◌+◌, ◌*◌, ◌-◌, ◌^◌, ◌<◌, ◌≤◌, ℕ, List, IfErr, IfOk, IfSome, IsOk, IsSome, MatchResult, None, OnOk, length, All};
ghost use Rattle.cs_chunk.specs.Chunks.{IsFrameIn, IsMeant, end_in, kind_of, AreChunksIn, AreMeant};
ghost use Rattle.cs_chunk.specs.Lengths.{IsHeaderIn, IsHeaderRefusal, IsOfFaultOrMark, header_fault_in, length_at, AreHeadersIn, IsOfHeaderIn, lengths_at};
ghost use Rattle.cs_chunk.specs.Newest.{AreNewest, IsReadAs};
ghost use Rattle.cs_chunk.specs.Reads.{AnswersFault, AreReadAs, IsCaused, IsFrameFront, IsFrameRefusal, IsNoAnswer, IsOfFault, IsReadRefusal, fault_in, pages_in, IsOfChunkIn};
ghost use Rattle.cs_refusal.specs.Refusals.{number_of};
ghost use Rattle.cs_deps.specs.State.{NoneOn};
ghost use Rattle.cs_disk.specs.Disk.{Image, seen};
ghost use Rattle.cs_disk.specs.Reads.{OnlyReads};
ghost use Rattle.cs_extent.specs.State.{IsWhole, shape};
ghost use Rattle.cs_frame.specs.FormatNumbers.{number_in};
ghost use Rattle.cs_frame.specs.Formats.{formats_of};
ghost use Rattle.cs_frame.specs.Frames.{SpellsFrame, kind_byte, page_count};
ghost use Rattle.cs_frame.specs.MeantFrames.{meant_fault};
ghost use Rattle.law_machine.specs.Index.{joined_bodies};

use cs_deps::Graph;
use cs_disk::{PageDisk, refusal_of_disk};
use cs_extent::Extents;
use cs_frame::{
    Format, FrameKind, Locator, ReadFrame, chunk_body, decode_frame_header, decode_meant_header,
    head_bytes, read_frame_in, refusal_of_fault,
};
use cs_refusal::Refusal;
use std::alloc::Global;

/// Reads a page: the newest plain write to it that waits, or what the device has if none waits.
fn read_page<D: PageDisk>(
    graph: &Graph,
    disk: &mut D,
    number: u64,
    buffer: &mut [u8; 4096],
) -> Result<(), Refusal>
    requires { number < D.page_count disk.old }
    // If a write to the page waits, the device isn't asked.
    ensures waiting { ¬ NoneOn graph.now number → IsOk result × (disk.new ≡ disk.old) }
    ensures page { D.honest disk.old → OnOk result (IsReadAs graph.now (seen (D.state disk.old)) number buffer.new) }
    ensures refusals { IfErr result IsNoAnswer }
    ensures disk { OnlyReads D.PageDisk disk.old disk.new }
    ensures cause { IsCaused (D.failure_count disk.old) (D.failure_count disk.new) result }
{
    if let Some(bytes) = graph.newest_on(number) {
        *buffer = *bytes;
        return Ok(());
    }
    match disk.read(number, buffer) {
        Ok(()) => Ok(()),
        Err(fault) => Err(refusal_of_disk(fault)),
    }
}

/// Reads so many pages from a number on. The first of them was read already.
fn read_pages<D: PageDisk>(
    alloc: Global,
    graph: &Graph,
    disk: &mut D,
    first: u64,
    page: &[u8; 4096],
    count: usize,
) -> Result<Vec<[u8; 4096]>, Refusal>
    requires there { first + count ≤ D.page_count disk.old }
    requires some { 1 ≤ count }
    requires small { first + count < 2 ^ 63 }
    ensures pages { D.honest disk.old → IsReadAs graph.now (seen (D.state disk.old)) first page.now
        → IfOk result (λ pages. AreReadAs graph.now (seen (D.state disk.old)) first count pages.items) }
    ensures size { IfOk result (λ pages. length pages.items ≡ count) }
    ensures refusals { IfErr result IsNoAnswer }
    ensures disk { OnlyReads D.PageDisk disk.old disk.new }
    ensures cause { IsCaused (D.failure_count disk.old) (D.failure_count disk.new) result }
{
    let mut pages = Vec::with_capacity(alloc, count)?;
    pages.push_reserved(*page);
    for i in 1..count {
        let mut buffer = [0; 4096];
        match read_page(graph, disk, first + i as u64, &mut buffer) {
            Ok(()) => {}
            Err(refusal) => return Err(refusal),
        }
        pages.push_reserved(buffer);
    }
    Ok(pages)
}

/// The number of the page of the device where a place lies.
fn page_number(extents: &Extents, locator: Locator) -> u64
    requires extent { locator.extent < (shape extents.now).extents }
    requires page { locator.page < (shape extents.now).pages }
    ensures number { result ≡ (shape extents.now).address locator.extent locator.page }
    ensures inside { result + ((shape extents.now).pages - locator.page) ≤ 2 + (shape extents.now).extents * (shape extents.now).pages }
    ensures small { result < 2 ^ 32 }
    ensures whole { IsWhole extents.now }
{
    extents.geometry().device_page(locator.extent, locator.page)
}

/// The format of the store.
pub(crate) fn format_of(extents: &Extents) -> Format
    ensures { result ≡ (shape extents.now).format }
{
    extents.geometry().format()
}

/// How far a frame may reach that begins at a place.
fn end_of(extents: &Extents, locator: Locator) -> usize
    requires extent { locator.extent < (shape extents.now).extents }
    requires page { locator.page < (shape extents.now).pages }
    ensures end { result ≡ end_in extents.now locator }
    ensures fits { result ≤ (shape extents.now).pages }
    ensures above { locator.page < result }
{
    extents.end_of(usize::from(locator.extent), usize::from(locator.page))
}

/// The frame of a mark in these pages, which is long enough for what it holds.
fn framed(
    format: Format,
    kind: FrameKind,
    mark: u64,
    pages: Vec<[u8; 4096]>,
) -> Result<ReadFrame, Refusal>
    requires { 0 < length pages.items }
    ensures spelled { IfOk result (λ payload. SpellsFrame (number_in format) (kind_byte kind) pages.items payload) }
    ensures fault { AnswersFault (meant_fault format (kind_byte kind) mark pages.items) result }
    ensures refusals { IfErr result IsFrameRefusal }
{
    match read_frame_in(format, kind, mark, pages) {
        Ok(frame) => Ok(frame),
        Err(fault) => Err(refusal_of_fault(fault)),
    }
}

/// A copy of the payload of a frame.
fn copied(alloc: Global, frame: &ReadFrame) -> Result<Vec<u8>, Refusal>
    ensures same { IfOk result (λ payload. payload.items ≡ frame.now) }
    ensures memory { IfErr result (λ r. r ≡ Refusal.OutOfMemory) }
{
    match Vec::from_slice(alloc, frame.payload()) {
        Ok(payload) => Ok(payload),
        Err(_) => Err(Refusal::OutOfMemory),
    }
}

/// As many pages as the header at a place counts. The header's tests are made before the second page is read (20, 22
/// and 24). Digest and padding aren't tested. 1 `DeviceFault` and 9 `OutOfMemory` may come, too.
fn read_frame_pages<D: PageDisk>(
    alloc: Global,
    extents: &Extents,
    graph: &Graph,
    disk: &mut D,
    kind: FrameKind,
    locator: Locator,
) -> Result<Vec<[u8; 4096]>, Refusal>
    requires extent { locator.extent < (shape extents.now).extents }
    requires page { locator.page < (shape extents.now).pages }
    requires device { 2 + (shape extents.now).extents * (shape extents.now).pages ≤ D.page_count disk.old }
    ensures pages { D.honest disk.old → (view : ℕ → List ℕ) → AreNewest graph.now (seen (D.state disk.old)) view
        → IfOk result (λ pages. IsFrameFront (pages_in extents.now view locator) pages.items) }
    ensures fault { D.honest disk.old → (view : ℕ → List ℕ) → AreNewest graph.now (seen (D.state disk.old)) view
        → IfErr result (λ r. IsNoAnswer r ⊎ IsOfFault (fault_in extents.now view kind locator) r) }
    ensures some { IfOk result (λ pages. 0 < length pages.items) }
    ensures fits { IfOk result (λ pages. locator.page + length pages.items ≤ end_in extents.now locator) }
    ensures refusals { IfErr result IsReadRefusal }
    ensures whole { IsWhole extents.now }
    ensures disk { OnlyReads D.PageDisk disk.old disk.new }
    ensures cause { IsCaused (D.failure_count disk.old) (D.failure_count disk.new) result }
{
    let number = page_number(extents, locator);
    let there = end_of(extents, locator) - usize::from(locator.page);
    let mut first = [0; 4096];
    match read_page(graph, disk, number, &mut first) {
        Ok(()) => {}
        Err(refusal) => return Err(refusal),
    }
    match decode_frame_header(format_of(extents).number(), kind, &first, there) {
        Ok(header) => read_pages(alloc, graph, disk, number, &first, header.pages()),
        Err(fault) => Err(refusal_of_fault(fault)),
    }
}

/// The frame that begins at a place, in the pages that are read of it. Each page is read once. If a write to it waits,
/// the newest such write is read and the device isn't asked. The header's tests are made before the second page is
/// read.
///
/// 20 `BadMagic`, 21 `BadDigest`, 22 `BadLength`, 23 `BadPadding` or 24 `BadVersion`, the first test that fails, if no
/// frame of this kind begins there. 26 `Misplaced` if one does and it isn't the one that the place means. Then 22 if it
/// is a chunk's and its payload is shorter than a head. 1 `DeviceFault` if a read failed. 9 `OutOfMemory`. The disk
/// holds what it held.
pub fn frame_at<D: PageDisk>(
    alloc: Global,
    extents: &Extents,
    graph: &Graph,
    disk: &mut D,
    kind: FrameKind,
    locator: Locator,
) -> Result<ReadFrame, Refusal>
    requires extent { locator.extent < (shape extents.now).extents }
    requires page { locator.page < (shape extents.now).pages }
    requires device { 2 + (shape extents.now).extents * (shape extents.now).pages ≤ D.page_count disk.old }

    // What is read is the payload of a frame there.
    ensures payload { D.honest disk.old → (view : ℕ → List ℕ) → AreNewest graph.now (seen (D.state disk.old)) view
        → IfOk result (λ payload. IsFrameIn extents.now view (kind_of kind) locator payload) }
    // If there is a frame, its payload is read, unless the device or memory refuses.
    ensures read { D.honest disk.old → (view : ℕ → List ℕ) (payload : List ℕ) → AreNewest graph.now (seen (D.state disk.old)) view
        → IsFrameIn extents.now view (kind_of kind) locator payload → MatchResult result (λ found. found ≡ payload) IsNoAnswer }
    // Each other refusal is that of the first test that fails.
    ensures fault { D.honest disk.old → (view : ℕ → List ℕ) → AreNewest graph.now (seen (D.state disk.old)) view
        → AnswersFault (fault_in extents.now view kind locator) result }
    ensures refusals { IfErr result IsReadRefusal }
    // Whatever the device returns, the frame of what is read reaches no further than it may, and lies in the extent.
    ensures reach { IfOk result (λ payload. locator.page + length ((formats_of (shape extents.now)).frame (kind_of kind) payload) ≤ end_in extents.now locator) }
    ensures size { IfOk result (λ payload. locator.page + length ((formats_of (shape extents.now)).frame (kind_of kind) payload) ≤ (shape extents.now).pages) }
    // And it is the one that the place means.
    ensures meant { IfOk result (λ payload. IsMeant (shape extents.now) (kind_of kind) locator payload) }

    ensures disk { OnlyReads D.PageDisk disk.old disk.new }
    ensures cause { IsCaused (D.failure_count disk.old) (D.failure_count disk.new) result }
    ensures whole { IsWhole extents.now }
{
    match read_frame_pages(alloc, extents, graph, disk, kind, locator) {
        Ok(pages) => framed(format_of(extents), kind, locator.mark, pages),
        Err(refusal) => Err(refusal),
    }
}

/// The payload of the frame that `frame_at` reads, copied out of its pages; refused as that is.
pub fn read_frame<D: PageDisk>(
    alloc: Global,
    extents: &Extents,
    graph: &Graph,
    disk: &mut D,
    kind: FrameKind,
    locator: Locator,
) -> Result<Vec<u8>, Refusal>
    requires extent { locator.extent < (shape extents.now).extents }
    requires page { locator.page < (shape extents.now).pages }
    requires device { 2 + (shape extents.now).extents * (shape extents.now).pages ≤ D.page_count disk.old }
    ensures payload { D.honest disk.old → (view : ℕ → List ℕ) → AreNewest graph.now (seen (D.state disk.old)) view
        → IfOk result (λ payload. IsFrameIn extents.now view (kind_of kind) locator payload.items) }
    ensures read { D.honest disk.old → (view : ℕ → List ℕ) (payload : List ℕ) → AreNewest graph.now (seen (D.state disk.old)) view
        → IsFrameIn extents.now view (kind_of kind) locator payload → MatchResult result (λ found. found.items ≡ payload) IsNoAnswer }
    ensures fault { D.honest disk.old → (view : ℕ → List ℕ) → AreNewest graph.now (seen (D.state disk.old)) view
        → AnswersFault (fault_in extents.now view kind locator) result }
    ensures refusals { IfErr result IsReadRefusal }
    ensures reach { IfOk result (λ payload. locator.page + length ((formats_of (shape extents.now)).frame (kind_of kind) payload.items) ≤ end_in extents.now locator) }
    ensures size { IfOk result (λ payload. locator.page + length ((formats_of (shape extents.now)).frame (kind_of kind) payload.items) ≤ (shape extents.now).pages) }
    ensures meant { IfOk result (λ payload. IsMeant (shape extents.now) (kind_of kind) locator payload.items) }
    ensures disk { OnlyReads D.PageDisk disk.old disk.new }
    ensures cause { IsCaused (D.failure_count disk.old) (D.failure_count disk.new) result }
    ensures whole { IsWhole extents.now }
{
    match frame_at(alloc, extents, graph, disk, kind, locator) {
        Ok(frame) => copied(alloc, &frame),
        Err(refusal) => Err(refusal),
    }
}

/// How many bytes the payload has of the frame that begins at a place, by the frame's first page alone. If a write to
/// that page waits, the newest such write is read and the device isn't asked. Only the header's tests are made: there
/// is a length also if digest or padding are damaged. It asks for no memory itself.
///
/// 20 `BadMagic`, 24 `BadVersion` or 22 `BadLength`, the first test that fails, if no header of this kind is there. 26
/// `Misplaced` if one is and it isn't that of the frame that the place means. 1 `DeviceFault` or 9 `OutOfMemory` if the
/// disk refused the read so. The disk holds what it held.
pub fn read_length<D: PageDisk>(
    extents: &Extents,
    graph: &Graph,
    disk: &mut D,
    kind: FrameKind,
    locator: Locator,
) -> Result<u32, Refusal>
    requires extent { locator.extent < (shape extents.now).extents }
    requires page { locator.page < (shape extents.now).pages }
    requires device { 2 + (shape extents.now).extents * (shape extents.now).pages ≤ D.page_count disk.old }

    // The length is the one that the header says.
    ensures told { D.honest disk.old → (view : ℕ → List ℕ) → AreNewest graph.now (seen (D.state disk.old)) view
        → IfOk result (λ count. count ≡ length_at (shape extents.now) view locator) }
    // If there is a frame, its payload's length is returned, unless the device or memory refuses.
    ensures read { D.honest disk.old → (view : ℕ → List ℕ) (payload : List ℕ) → AreNewest graph.now (seen (D.state disk.old)) view
        → IsFrameIn extents.now view (kind_of kind) locator payload → MatchResult result (λ count. count ≡ length payload) IsNoAnswer }
    // Each other refusal is that of the first of the header's tests that fails.
    ensures header { D.honest disk.old → (view : ℕ → List ℕ) → AreNewest graph.now (seen (D.state disk.old)) view
        → AnswersFault (header_fault_in extents.now view kind locator) result }
    // So it is that of the frame's first test that fails, or 26 of a frame that has a fault.
    ensures fault { D.honest disk.old → (view : ℕ → List ℕ) → AreNewest graph.now (seen (D.state disk.old)) view
        → IfErr result (λ r. IsNoAnswer r ⊎ IsOfFaultOrMark (fault_in extents.now view kind locator) r) }
    ensures refusals { IfErr result IsHeaderRefusal }
    // Whatever the device returns, a frame of so many bytes reaches no further than it may, and lies in the extent.
    ensures reach { IfOk result (λ count. locator.page + page_count count ≤ end_in extents.now locator) }
    ensures size { IfOk result (λ count. locator.page + page_count count ≤ (shape extents.now).pages) }

    ensures disk { OnlyReads D.PageDisk disk.old disk.new }
    ensures cause { IsCaused (D.failure_count disk.old) (D.failure_count disk.new) result }
{
    let number = page_number(extents, locator);
    let there = end_of(extents, locator) - usize::from(locator.page);
    let mut first = [0; 4096];
    match read_page(graph, disk, number, &mut first) {
        Ok(()) => {}
        Err(refusal) => return Err(refusal),
    }
    match decode_meant_header(format_of(extents), kind, locator.mark, &first, there) {
        Ok(header) => Ok(header.payload_len),
        Err(fault) => Err(refusal_of_fault(fault)),
    }
}

/// How many bytes the payload has of the frame that begins at a place, as `read_length` returns it, by the newest write
/// to the frame's first page that waits. None if no write to it waits, or if one of the header's tests fails. The device
/// isn't asked.
pub fn waiting_length(
    extents: &Extents,
    graph: &Graph,
    kind: FrameKind,
    locator: Locator,
) -> Option<u32>
    requires extent { locator.extent < (shape extents.now).extents }
    requires page { locator.page < (shape extents.now).pages }
    // Whatever the device holds, the length is the one that the header says.
    ensures said { (image : Image) (view : ℕ → List ℕ) → AreNewest graph.now image view → IfSome result (IsHeaderIn extents.now view kind locator) }
    // If a write to the page waits and the header passes, there is a length.
    ensures there { (image : Image) (view : ℕ → List ℕ) → AreNewest graph.now image view → header_fault_in extents.now view kind locator ≡ None
        → IsSome result ⊎ NoneOn graph.now ((shape extents.now).address locator.extent locator.page) }
    ensures size { IfSome result (λ count. locator.page + page_count count ≤ (shape extents.now).pages) }
{
    let number = page_number(extents, locator);
    let there = end_of(extents, locator) - usize::from(locator.page);
    let Some(first) = graph.newest_on(number) else {
        return None;
    };
    match decode_meant_header(format_of(extents), kind, locator.mark, first, there) {
        Ok(header) => Some(header.payload_len),
        Err(_) => None,
    }
}

/// The bytes of a shard whose chunks have their frames at these places: their payloads without the heads, one after
/// another.
///
/// The first refusal is returned: 20 to 24 and 26 as `read_frame` does, 1 `DeviceFault`, 9 `OutOfMemory`. No frame
/// after it is read.
pub fn read_chunks<D: PageDisk>(
    alloc: Global,
    extents: &Extents,
    graph: &Graph,
    disk: &mut D,
    locators: &[Locator],
) -> Result<Vec<u8>, Refusal>
    requires places { All (λ l. (l.extent < (shape extents.now).extents) × (l.page < (shape extents.now).pages)) locators.now }
    requires device { 2 + (shape extents.now).extents * (shape extents.now).pages ≤ D.page_count disk.old }

    // What is read is the bytes of chunks there.
    ensures bytes { D.honest disk.old → (view : ℕ → List ℕ) → AreNewest graph.now (seen (D.state disk.old)) view
        → IfOk result (λ bytes. (cs : List (List ℕ)) × AreChunksIn extents.now view locators.now cs × (bytes.items ≡ joined_bodies (formats_of (shape extents.now)) cs)) }
    // If there are chunks, their bytes are read, unless the device or memory refuses.
    ensures read { D.honest disk.old → (view : ℕ → List ℕ) (cs : List (List ℕ)) → AreNewest graph.now (seen (D.state disk.old)) view
        → AreChunksIn extents.now view locators.now cs → MatchResult result (λ bytes. bytes.items ≡ joined_bodies (formats_of (shape extents.now)) cs) IsNoAnswer }
    // Each other refusal is that of the first place that has no chunk.
    ensures fault { D.honest disk.old → (view : ℕ → List ℕ) → AreNewest graph.now (seen (D.state disk.old)) view
        → IfErr result (IsOfChunkIn extents.now view locators.now) }
    ensures refusals { IfErr result IsReadRefusal }
    // Whatever the device returns, what is read is the bytes of chunks that the places mean.
    ensures meant { IfOk result (λ bytes. (cs : List (List ℕ)) × AreMeant (shape extents.now) locators.now cs × (bytes.items ≡ joined_bodies (formats_of (shape extents.now)) cs)) }

    ensures disk { OnlyReads D.PageDisk disk.old disk.new }
    ensures cause { IsCaused (D.failure_count disk.old) (D.failure_count disk.new) result }
{
    let mut bytes = Vec::new(alloc);
    // Called for its contract alone: what all extents keep.
    extents.extent_count();
    let format = format_of(extents);
    for k in 0..locators.len() {
        let locator = locators[k];
        match frame_at(alloc, extents, graph, disk, FrameKind::Chunk, locator) {
            Ok(chunk) => bytes.extend_from_slice(chunk_body(format, chunk.payload()))?,
            Err(refusal) => return Err(refusal),
        }
    }
    Ok(bytes)
}

/// How many bytes a shard has whose chunks have their frames at these places, by the first page of each frame alone.
///
/// The first refusal is returned: 20, 22, 24 and 26 as `read_length` does, 1 `DeviceFault`, 9 `OutOfMemory`. No page
/// after it is read. If digest or padding of a chunk are damaged, there is a length. A chunk that is shorter than a
/// head, which no put makes, counts as none.
pub fn read_lengths<D: PageDisk>(
    extents: &Extents,
    graph: &Graph,
    disk: &mut D,
    locators: &[Locator],
) -> Result<usize, Refusal>
    requires few { length locators.now ≤ 8 }
    requires places { All (λ l. (l.extent < (shape extents.now).extents) × (l.page < (shape extents.now).pages)) locators.now }
    requires device { 2 + (shape extents.now).extents * (shape extents.now).pages ≤ D.page_count disk.old }

    // The length is what the headers say together, but for the heads.
    ensures told { D.honest disk.old → (view : ℕ → List ℕ) → AreNewest graph.now (seen (D.state disk.old)) view
        → IfOk result (λ count. AreHeadersIn extents.now view locators.now × (count ≡ lengths_at (shape extents.now) view locators.now)) }
    // If there are chunks, the length of their bytes is returned, unless the device or memory refuses.
    ensures read { D.honest disk.old → (view : ℕ → List ℕ) (cs : List (List ℕ)) → AreNewest graph.now (seen (D.state disk.old)) view
        → AreChunksIn extents.now view locators.now cs → MatchResult result (λ count. count ≡ length (joined_bodies (formats_of (shape extents.now)) cs)) IsNoAnswer }
    // Each other refusal is that of the first place that has no chunk's header.
    ensures header { D.honest disk.old → (view : ℕ → List ℕ) → AreNewest graph.now (seen (D.state disk.old)) view
        → IfErr result (IsOfHeaderIn extents.now view locators.now) }
    ensures refusals { IfErr result IsHeaderRefusal }

    ensures disk { OnlyReads D.PageDisk disk.old disk.new }
    ensures cause { IsCaused (D.failure_count disk.old) (D.failure_count disk.new) result }
{
    let mut total: usize = 0;
    // Called for its contract alone: what all extents keep.
    extents.extent_count();
    let head = head_bytes(format_of(extents));
    for k in 0..locators.len() {
        match read_length(extents, graph, disk, FrameKind::Chunk, locators[k]) {
            Ok(count) => total += (count as usize).saturating_sub(head),
            Err(refusal) => return Err(refusal),
        }
    }
    Ok(total)
}

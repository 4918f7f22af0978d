//! Parts of shards: the whole frames of chunks that are on a device, and what they hold.
ghost use Rattle.std.specs.Prelude.{◌*◌, ◌+◌, ◌-◌, ◌<◌, ◌^◌, ◌≡◌, ◌≤◌, All, IfOk, IfSome, List, MatchBool, MatchOption, OnOk, length, min, true, ℕ};
ghost use Rattle.std.specs.List.{AllZip};
ghost use Rattle.cs_disk.specs.Disk.{HasCause, page as device_page, seen};
ghost use Rattle.cs_disk.specs.Reads.{OnlyReads};
ghost use Rattle.cs_frame.specs.Frames.{SpellsFrame};
ghost use Rattle.cs_frame.specs.Geometries.{IsGeometry};
ghost use Rattle.cs_salvage.specs.Frames.{AreReadAs, IsFrontOf, IsMeant, IsOfFrame, IsPartIn, IsSpelled, pages_at};
ghost use Rattle.cs_salvage.specs.Parts.{EndsWith, IsChunkAt, IsNumbered, IsPart, IsSought, IsSpellable, NoPartAt, formats_in};
ghost use Rattle.cs_salvage.specs.Shards.{put_of};
ghost use Rattle.law_machine.specs.Geometry.{heads_in};
ghost use Rattle.law_machine.specs.Index.{joined_bodies};

use crate::searches::{Sought, Whose, if_sought};
use crate::whole_shards::WholeShard;
use cs_disk::{DiskFault, PageDisk};
use cs_frame::{
    ChunkHead, FormatFault, FormatNumber, FoundHead, FrameKind, Geometry, ShardId, chunk_body,
    decode_frame, decode_frame_header, decode_head, frame_pages,
};
use std::alloc::{AllocError, Global};

/// A put of a shard, as the heads of its chunks name it.
#[derive(Clone, Copy, Debug, PartialEq, Eq)]
pub struct Put {
    /// The identifier of the shard.
    pub id: ShardId,
    /// The number of the command.
    pub command: u64,
}

/// A whole frame of a chunk on the device.
#[derive(Clone, Copy, Debug, PartialEq, Eq)]
pub struct Part {
    /// The extent that has it.
    pub extent: u16,
    /// The page of the extent on which it begins.
    pub page: u16,
    /// How many pages it has.
    pub pages: usize,
    /// The head that its payload ends with.
    pub head: ChunkHead,
    /// The first eight bytes of the identity of the store that wrote it.
    pub store: [u8; 8],
    /// The digest of its payload.
    pub digest: [u8; 32],
}

impl Part {
    /// The put that it is a part of.
    pub fn put(&self) -> Put
        ensures { result ≡ put_of self.now }
    {
        Put {
            id: self.head.id,
            command: self.head.command,
        }
    }
}

/// The payload of a part, if it is as it was found.
fn payload_of<D: PageDisk>(
    alloc: Global,
    disk: &mut D,
    sought: &Sought,
    part: Part,
) -> Result<Option<Vec<u8>>, DiskFault>
    ensures payload { D.honest disk.old → IfOk result (λ found. MatchOption found
        ((payload : List ℕ) → IsPart sought.now (seen (D.state disk.old)) part payload → ⊥)
        (λ payload. IsPart sought.now (seen (D.state disk.old)) part payload.items)) }
    ensures meant { IfOk result (λ found. IfSome found (λ payload. IsMeant part payload.items)) }
    ensures disk { OnlyReads D.PageDisk disk.old disk.new }
    ensures cause { HasCause (D.failure_count disk.old) (D.failure_count disk.new) result }
{
    let found = match part_at(alloc, disk, sought, part.extent, part.page) {
        Ok(Some(found)) => found,
        Ok(None) => return Ok(None),
        Err(fault) => return Err(fault),
    };
    if found.part == part {
        Ok(Some(found.payload))
    } else {
        Ok(None)
    }
}

/// The bytes of a whole shard: its parts' payloads without their heads, which are read again, one after another. None
/// if a part isn't there any more as it was found.
///
/// 1 `DeviceFault` if a read failed, 9 `OutOfMemory`. The disk holds what it held.
pub fn read_whole<D: PageDisk>(
    alloc: Global,
    disk: &mut D,
    sought: &Sought,
    shard: &WholeShard,
) -> Result<Option<Vec<u8>>, DiskFault>
    ensures bytes { D.honest disk.old → IfOk result (λ found. MatchOption found
        ((payloads : List (List ℕ)) → AllZip (IsPart sought.now (seen (D.state disk.old))) shard.now.parts.items payloads → ⊥)
        (λ bytes. (payloads : List (List ℕ)) × AllZip (IsPart sought.now (seen (D.state disk.old))) shard.now.parts.items payloads
        × (bytes.items ≡ joined_bodies (formats_in sought.now.geometry) payloads))) }
    // Whatever the disk answers, they are bytes that the parts mean, by their digests and their heads.
    ensures meant { IfOk result (λ found. IfSome found (λ bytes. (payloads : List (List ℕ)) × AllZip IsMeant shard.now.parts.items payloads
        × (bytes.items ≡ joined_bodies (formats_in sought.now.geometry) payloads))) }
    ensures disk { OnlyReads D.PageDisk disk.old disk.new }
    ensures cause { HasCause (D.failure_count disk.old) (D.failure_count disk.new) result }
{
    let mut bytes = Vec::new(alloc);
    let geometry = sought.geometry;
    let format = geometry.format();
    for part in &shard.parts {
        match payload_of(alloc, disk, sought, *part) {
            Ok(Some(payload)) => bytes.extend_from_slice(chunk_body(format, &payload))?,
            Ok(None) => return Ok(None),
            Err(fault) => return Err(fault),
        }
    }
    Ok(Some(bytes))
}

/// The most chunks of a shard.
const MOST_CHUNKS: u8 = 8;

/// A part, and the payload of its frame.
#[derive(Drop)]
pub struct FoundPart {
    pub part: Part,
    pub payload: Vec<u8>,
}

/// Reads so many pages from a number on; the first of them was read already.
pub fn read_pages<D: PageDisk>(
    alloc: Global,
    disk: &mut D,
    first: u64,
    page: &[u8; 4096],
    count: usize,
) -> Result<Vec<[u8; 4096]>, DiskFault>
    requires there { first + count ≤ D.page_count disk.old }
    requires some { 1 ≤ count }
    requires small { first + count < 2 ^ 63 }
    ensures pages { D.honest disk.old → page.now ≡ device_page (seen (D.state disk.old)) first
        → IfOk result (λ pages. AreReadAs (seen (D.state disk.old)) first count pages.items) }
    ensures size { IfOk result (λ pages. length pages.items ≡ count) }
    ensures disk { OnlyReads D.PageDisk disk.old disk.new }
    ensures cause { HasCause (D.failure_count disk.old) (D.failure_count disk.new) result }
{
    let mut pages = Vec::with_capacity(alloc, count)?;
    pages.push_reserved(*page);
    for i in 1..count {
        let mut buffer = [0; 4096];
        match disk.read(first + i as u64, &mut buffer) {
            Ok(()) => {}
            Err(fault) => return Err(fault),
        }
        pages.push_reserved(buffer);
    }
    Ok(pages)
}

/// How many pages there are from a page of the device on which is a page of an extent: as many as the extent has left,
/// and no more than the device has.
pub fn pages_there(geometry: Geometry, page: u16, count: u64, number: u64) -> usize
    requires { page < geometry.pages }
    ensures { result ≡ min (geometry.pages - page) (count - number) }
{
    let on_extent = u64::from(geometry.pages() - page);
    count.saturating_sub(number).min(on_extent) as usize
}

/// As many pages from a place on as the header of a chunk's frame counts. There are none without a header, or if they
/// don't end on the extent and on the device.
/// The header is tested before the second page is read. Digest and padding aren't tested.
fn read_frame_pages<D: PageDisk>(
    alloc: Global,
    disk: &mut D,
    geometry: Geometry,
    extent: u16,
    page: u16,
) -> Result<Option<Vec<[u8; 4096]>>, DiskFault>
    requires extent { extent < geometry.extents }
    requires page { page < geometry.pages }
    ensures pages { D.honest disk.old → IfOk result (λ found. MatchOption found
        ((payload : List ℕ) → IsChunkAt geometry (seen (D.state disk.old)) extent page payload → ⊥)
        (λ pages. IsFrontOf (pages_at geometry (seen (D.state disk.old)) extent page) pages.items)) }
    ensures some { IfOk result (λ found. IfSome found (λ pages. 0 < length pages.items)) }
    ensures disk { OnlyReads D.PageDisk disk.old disk.new }
    ensures cause { HasCause (D.failure_count disk.old) (D.failure_count disk.new) result }
{
    let number = geometry.device_page(extent, page);
    let there = pages_there(geometry, page, disk.pages(), number);
    if there == 0 {
        return Ok(None);
    }
    let mut first = [0; 4096];
    match disk.read(number, &mut first) {
        Ok(()) => {}
        Err(fault) => return Err(fault),
    }
    let format = geometry.format().number();
    let Ok(header) = decode_frame_header(format, FrameKind::Chunk, &first, there) else {
        return Ok(None);
    };
    match read_pages(alloc, disk, number, &first, header.pages()) {
        Ok(pages) => Ok(Some(pages)),
        Err(fault) => Err(fault),
    }
}

/// The payload of the chunk's frame of format 4 that begins in these pages, if a whole one does.
fn payload_in(alloc: Global, pages: &[[u8; 4096]]) -> Result<Option<Vec<u8>>, AllocError>
    requires { 0 < length pages.now }
    ensures { IfOk result (λ found. MatchOption found
        ((payload : List ℕ) → SpellsFrame FormatNumber.Four 0 pages.now payload → ⊥)
        (λ payload. SpellsFrame FormatNumber.Four 0 pages.now payload.items)) }
{
    match decode_frame(alloc, FormatNumber::Four, FrameKind::Chunk, pages) {
        Ok(payload) => Ok(Some(payload)),
        Err(FormatFault::OutOfMemory) => Err(AllocError),
        Err(_) => Ok(None),
    }
}

/// Whether a chunk can have this head.
fn is_of_chunk(found: FoundHead) -> bool
    ensures numbered { MatchBool result (IsNumbered found.head) (IsNumbered found.head → ⊥) }
    ensures spellable { IsSpellable found.head found.store }
{
    found.head.number < found.head.count && found.head.count <= MOST_CHUNKS
}

/// The part that these pages of a frame and its payload are, if the payload ends with a head that a chunk can have.
fn part_of(extent: u16, page: u16, pages: &[[u8; 4096]], payload: &[u8]) -> Option<Part>
    requires some { 0 < length pages.now }
    requires spelled { SpellsFrame FormatNumber.Four 0 pages.now payload.now }
    ensures part { MatchOption result
        ((part : Part) → EndsWith part.head part.store payload.now → IsSpellable part.head part.store → IsNumbered part.head → ⊥)
        (λ part. IsPartIn pages.now part payload.now) }
    ensures place { IfSome result (λ part. (part.extent ≡ extent) × (part.page ≡ page)) }
{
    let found = decode_head(payload)?;
    if !is_of_chunk(found) {
        return None;
    }
    let store = found.store;
    let mut digest = [0; 32];
    digest.copy_from_slice(&pages[0][9..41]);
    Some(Part {
        extent,
        page,
        pages: frame_pages(payload.len()),
        head: found.head,
        store,
        digest,
    })
}

/// The part whose frame begins in these pages, with its payload, if a whole one does.
pub fn part_in(
    alloc: Global,
    extent: u16,
    page: u16,
    pages: &[[u8; 4096]],
) -> Result<Option<FoundPart>, AllocError>
    requires { 0 < length pages.now }
    ensures part { IfOk result (λ found. MatchOption found
        ((part : Part) (payload : List ℕ) → IsPartIn pages.now part payload → ⊥)
        (λ it. IsPartIn pages.now it.part it.payload.items)) }
    ensures place { IfOk result (λ found. IfSome found (λ it. (it.part.extent ≡ extent) × (it.part.page ≡ page))) }
{
    let Some(payload) = payload_in(alloc, pages)? else {
        return Ok(None);
    };
    match part_of(extent, page, pages, &payload) {
        Some(part) => Ok(Some(FoundPart { part, payload })),
        None => Ok(None),
    }
}

/// The part that begins at a place, of any store, with its payload, if one does.
fn any_part_at<D: PageDisk>(
    alloc: Global,
    disk: &mut D,
    geometry: Geometry,
    extent: u16,
    page: u16,
) -> Result<Option<FoundPart>, DiskFault>
    ensures part { D.honest disk.old → IfOk result (λ found. MatchOption found
        (NoPartAt (record { geometry = geometry; whose = Whose.OfAny }) (seen (D.state disk.old)) extent page)
        (λ it. IsPart (record { geometry = geometry; whose = Whose.OfAny }) (seen (D.state disk.old)) it.part it.payload.items)) }
    // Whatever the disk answers, it is the part of a frame.
    ensures spelled { IfOk result (λ found. IfSome found (λ it. IsSpelled it.part it.payload.items)) }
    ensures heads { IfOk result (λ found. IfSome found (λ _. heads_in geometry.format ≡ true)) }
    ensures place { IfOk result (λ found. IfSome found (λ it. (it.part.extent ≡ extent) × (it.part.page ≡ page))) }
    ensures known { IsGeometry geometry.format geometry.extents geometry.pages geometry.sections }
    ensures disk { OnlyReads D.PageDisk disk.old disk.new }
    ensures cause { HasCause (D.failure_count disk.old) (D.failure_count disk.new) result }
{
    if !geometry.format().has_heads() || extent >= geometry.extents() || page >= geometry.pages() {
        return Ok(None);
    }
    match read_frame_pages(alloc, disk, geometry, extent, page) {
        Ok(Some(pages)) => Ok(part_in(alloc, extent, page, &pages)?),
        Ok(None) => Ok(None),
        Err(fault) => Err(fault),
    }
}

/// The part that begins at a place, with its payload, if one does that is sought.
pub fn part_at<D: PageDisk>(
    alloc: Global,
    disk: &mut D,
    sought: &Sought,
    extent: u16,
    page: u16,
) -> Result<Option<FoundPart>, DiskFault>
    ensures part { D.honest disk.old → IfOk result (λ found. MatchOption found
        (NoPartAt sought.now (seen (D.state disk.old)) extent page)
        (λ it. IsPart sought.now (seen (D.state disk.old)) it.part it.payload.items)) }
    // Whatever the disk answers, it is the part of a frame, and is sought.
    ensures spelled { IfOk result (λ found. IfSome found (λ it. IsSpelled it.part it.payload.items)) }
    ensures taken { IfOk result (λ found. IfSome found (λ it. IsSought sought.now it.part.store)) }
    ensures place { IfOk result (λ found. IfSome found (λ it. (it.part.extent ≡ extent) × (it.part.page ≡ page))) }
    ensures known { IsGeometry sought.now.geometry.format sought.now.geometry.extents sought.now.geometry.pages sought.now.geometry.sections }
    ensures disk { OnlyReads D.PageDisk disk.old disk.new }
    ensures cause { HasCause (D.failure_count disk.old) (D.failure_count disk.new) result }
{
    match any_part_at(alloc, disk, sought.geometry, extent, page) {
        Ok(Some(found)) => Ok(if_sought(sought, found)),
        Ok(None) => Ok(None),
        Err(fault) => Err(fault),
    }
}

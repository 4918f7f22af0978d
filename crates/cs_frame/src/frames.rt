//! Frames: a payload with its digest, in whole pages, and a frame as it was read.
ghost use Rattle.std.specs.Prelude.{◌≡◌, ◌+◌, ◌++◌, ◌^◌, ◌<◌, ◌≤◌, ℕ, List, None, Ok, Err, IfOk, length, vec_len};
ghost use Rattle.cs_frame.specs.Bytes.{EachHas, IsBytes};
ghost use Rattle.cs_frame.specs.Faults.{HasFault, OkUnlessMemory, fault_in};
ghost use Rattle.law_machine.specs.Geometry.{digest_number, mark_in};
ghost use Rattle.sha2.specs.Sha256.{sha256};
ghost use Rattle.cs_frame.specs.FormatNumbers.{number_in};
ghost use Rattle.cs_frame.specs.Frames.{SpellsFrame, bytes_in, first_page, frame_count, frame_fault, header_fault, kind_byte, page_count, payload_in, payload_length, spelled_frame};
ghost use Rattle.cs_frame.specs.Heads.{is_long_in};
ghost use Rattle.cs_frame.specs.MeantFrames.{long_test, mark_test, meant_fault, meant_header_fault};

use crate::faults::FormatFault;
use crate::formats::{Format, FormatNumber, Known, head_bytes};
use crate::pages::{check_digit, check_magic, is_zero};
use byteorder::{BigEndian, ByteOrder};
use sha2::{Digest, Sha256};
use std::alloc::{AllocError, Global};
use std::marker::Model;

/// What a frame holds.
#[derive(Clone, Copy, Debug, PartialEq, Eq)]
pub enum FrameKind {
    /// A chunk of a shard.
    Chunk,
    /// A run of the index.
    Run,
}

impl FrameKind {
    fn byte(self) -> u8
        ensures { result ≡ kind_byte self }
    {
        match self {
            FrameKind::Chunk => 0,
            FrameKind::Run => 1,
        }
    }
}

/// What a frame's first page says of the pages after it.
#[derive(Clone, Copy, Debug, PartialEq, Eq)]
pub struct FrameHeader {
    /// The bytes of the payload.
    pub payload_len: u32,
}

impl FrameHeader {
    /// The pages of the frame, the first included.
    pub fn pages(self) -> usize
        ensures { result ≡ page_count self.payload_len }
    {
        frame_pages(self.payload_len as usize)
    }
}

/// How many pages a frame with so many bytes of payload takes.
pub fn frame_pages(payload_len: usize) -> usize
    requires { payload_len < 2 ^ 32 }
    ensures { result ≡ page_count payload_len }
{
    (41 + payload_len).div_ceil(4096)
}

/// The digest of two parts, one behind the other.
fn digest_of(front: &[u8], behind: &[u8]) -> [u8; 32]
    ensures { result ≡ sha256 (front.now ++ behind.now) }
{
    let mut hasher = Sha256::new();
    hasher.update(front);
    hasher.update(behind);
    hasher.finalize()
}

/// The pages that spell the frame whose payload is two parts, one behind the other, which aren't joined before.
pub(crate) fn encode_parts(
    alloc: Global,
    number: FormatNumber,
    kind: FrameKind,
    front: &[u8],
    behind: &[u8],
) -> Result<Vec<[u8; 4096]>, AllocError>
    requires { length front.now + length behind.now < 2 ^ 32 }
    ensures spelled { IfOk result (λ pages. pages.items ≡ spelled_frame number (kind_byte kind) (front.now ++ behind.now)) }
    ensures count { IfOk result (λ pages. vec_len pages ≡ page_count (length front.now + length behind.now)) }
{
    let payload_len = front.len() + behind.len();
    let size = 4096 * frame_pages(payload_len);
    let mut bytes = Vec::with_capacity(alloc, size)?;
    bytes.extend_from_slice(b"CSF")?;
    bytes.push(number.page_digit())?;
    bytes.push(kind.byte())?;
    bytes.extend_from_slice(&(payload_len as u32).to_be_bytes())?;
    bytes.extend_from_slice(&digest_of(front, behind))?;
    bytes.extend_from_slice(front)?;
    bytes.extend_from_slice(behind)?;
    bytes.resize(size, 0)?;
    let (pages, _) = bytes.as_chunks::<4096>();
    Vec::from_slice(alloc, pages)
}

/// The pages that spell a frame.
pub fn encode_frame(
    alloc: Global,
    number: FormatNumber,
    kind: FrameKind,
    payload: &[u8],
) -> Result<Vec<[u8; 4096]>, AllocError>
    requires { length payload.now < 2 ^ 32 }
    ensures spelled { IfOk result (λ pages. pages.items ≡ spelled_frame number (kind_byte kind) payload.now) }
    ensures count { IfOk result (λ pages. vec_len pages ≡ page_count (length payload.now)) }
{
    encode_parts(alloc, number, kind, &[], payload)
}

/// The length of the payload, by a frame's first page.
fn payload_len(first: &[u8; 4096]) -> u32
    ensures { result ≡ payload_length first.now }
{
    BigEndian::read_u32(&first[5..9])
}

/// The header in a frame's first page. A reader calls it before it reads further pages: `there` pages
/// lie from the first as far as the frame may reach, and the frame's pages are among them.
pub fn decode_frame_header(
    number: FormatNumber,
    kind: FrameKind,
    first: &[u8; 4096],
    there: usize,
) -> Result<FrameHeader, FormatFault>
    ensures fault { fault_in result ≡ header_fault number (kind_byte kind) first.now there }
    ensures length { IfOk result (λ header. header.payload_len ≡ payload_length first.now) }
    ensures room { IfOk result (λ header. page_count header.payload_len ≤ there) }
{
    check_magic(first, b"CSF")?;
    check_digit(first, number.page_digit())?;
    if first[4] != kind.byte() {
        return Err(FormatFault::BadVersion);
    }
    let header = FrameHeader {
        payload_len: payload_len(first),
    };
    if header.pages() > there {
        return Err(FormatFault::BadLength);
    }
    Ok(header)
}

/// The first eight bytes of the digest in a frame's first page.
fn digest_front(first: &[u8; 4096]) -> u64
    ensures { result ≡ digest_number first.now }
{
    BigEndian::read_u64(&first[9..17])
}

/// The mark of the frame whose first page this is, 0 in a format that has no marks.
pub fn frame_mark(format: Format, first: &[u8; 4096]) -> u64
    ensures { result ≡ mark_in format first.now }
{
    match format.known() {
        Known::Two => 0,
        Known::Four { .. } => digest_front(first),
    }
}

/// That the frame whose first page this is has a mark: else it is another one, 26 Misplaced.
pub(crate) fn check_mark(format: Format, mark: u64, first: &[u8; 4096]) -> Result<(), FormatFault>
    ensures { fault_in result ≡ mark_test format mark first.now }
{
    if frame_mark(format, first) == mark {
        Ok(())
    } else {
        Err(FormatFault::Misplaced)
    }
}

/// Whether the frame that begins with this page is long enough: a chunk's payload has room for a head.
fn is_long(format: Format, first: &[u8; 4096]) -> bool
    ensures { result ≡ is_long_in format first.now }
{
    if first[4] == FrameKind::Chunk.byte() {
        head_bytes(format) <= payload_len(first) as usize
    } else {
        true
    }
}

/// The frame that begins with this page is long enough for what it holds, else 22 BadLength.
fn check_long(format: Format, first: &[u8; 4096]) -> Result<(), FormatFault>
    ensures { fault_in result ≡ long_test format first.now }
{
    if is_long(format, first) {
        Ok(())
    } else {
        Err(FormatFault::BadLength)
    }
}

/// As `decode_frame_header`, and then that it is the header of the frame of this mark: else 26 Misplaced.
pub fn decode_meant_header(
    format: Format,
    kind: FrameKind,
    mark: u64,
    first: &[u8; 4096],
    there: usize,
) -> Result<FrameHeader, FormatFault>
    ensures fault { fault_in result ≡ meant_header_fault format (kind_byte kind) mark first.now there }
    ensures length { IfOk result (λ header. header.payload_len ≡ payload_length first.now) }
    ensures room { IfOk result (λ header. page_count header.payload_len ≤ there) }
{
    let header = decode_frame_header(format.number(), kind, first, there)?;
    check_mark(format, mark, first)?;
    Ok(header)
}

/// The payload in the pages of a frame. Makes the tests in order.
pub(crate) fn payload_of(
    number: FormatNumber,
    kind: FrameKind,
    pages: &[[u8; 4096]],
) -> Result<&[u8], FormatFault>
    requires { 0 < length pages.now }
    ensures fault { fault_in result ≡ frame_fault number (kind_byte kind) pages.now }
    ensures payload { IfOk result (λ payload. payload.now ≡ payload_in pages.now) }
    ensures size { IfOk result (λ payload. length payload.now ≡ payload_length (first_page pages.now)) }
    ensures short { IfOk result (λ payload. length payload.now < 2 ^ 32) }
    ensures room { IfOk result (λ _. frame_count pages.now ≤ length pages.now) }
    ensures pages { EachHas 4096 pages.now }
    ensures bytes { IfOk result (λ _. IsBytes (bytes_in pages.now)) }
{
    let header = decode_frame_header(number, kind, &pages[0], pages.len())?;
    let bytes = pages[..header.pages()].as_flattened();
    let end = 41 + header.payload_len as usize;
    if bytes[9..41] != Sha256::digest(&bytes[41..end])[..] {
        return Err(FormatFault::BadDigest);
    }
    if !is_zero(&bytes[end..]) {
        return Err(FormatFault::BadPadding);
    }
    Ok(&bytes[41..end])
}

/// The payload of the frame that begins in the first of these pages, which lie from it to the end of its extent. Pages
/// after the frame's own, as the header counts them, are not read and may be left out. The first test that fails gives
/// the fault. The tests in order:
///
/// - 20 BadMagic: the first three bytes
/// - 24 BadVersion: the fourth byte, which is the format's digit, and the kind
/// - 22 BadLength: the frame's pages are there
/// - 21 BadDigest: the digest of the payload
/// - 23 BadPadding: the zeros at the end
///
/// 9 OutOfMemory comes only for pages that begin with a frame.
pub fn decode_frame(
    alloc: Global,
    number: FormatNumber,
    kind: FrameKind,
    pages: &[[u8; 4096]],
) -> Result<Vec<u8>, FormatFault>
    requires { 0 < length pages.now }
    // What is read is spelled by the pages.
    ensures spelled { IfOk result (λ payload. SpellsFrame number (kind_byte kind) pages.now payload.items) }
    // What the pages spell is read, unless memory runs out.
    ensures read { (payload : List ℕ) → SpellsFrame number (kind_byte kind) pages.now payload
        → OkUnlessMemory result (λ found. found.items ≡ payload) }
    // Each other fault is that of the first test that fails.
    ensures fault { HasFault result (frame_fault number (kind_byte kind) pages.now) }
    ensures memory { result ≡ Err FormatFault.OutOfMemory → frame_fault number (kind_byte kind) pages.now ≡ None }
{
    let payload = payload_of(number, kind, pages)?;
    Ok(Vec::from_slice(alloc, payload)?)
}

/// The payload of a frame, in the pages that were read of it: it isn't copied.
#[derive(Drop)]
pub struct ReadFrame {
    pages: Vec<[u8; 4096]>,
    /// How many bytes of them are the payload, behind the header.
    size: usize,
}

impl Model for ReadFrame {
    ghost use Rattle.std.specs.Prelude.{ℕ, ◌≡◌, ◌^◌, ◌<◌, ◌≤◌, List, length};
    ghost use Rattle.cs_frame.specs.Frames.{first_page, page_count, payload_in, payload_length};

    ghost Value = { List ℕ };

    ghost view = { λ f. payload_in f.pages.items };

    ghost invariant = { λ f. (f.size ≡ payload_length (first_page f.pages.items)) × (page_count f.size ≤ length f.pages.items) × (f.size < 2 ^ 32) };
}

impl ReadFrame {
    /// The payload.
    pub fn payload(&self) -> &[u8]
        ensures value { result.now ≡ self.now }
    {
        let bytes = self.pages[..frame_pages(self.size)].as_flattened();
        &bytes[41..41 + self.size]
    }
}

/// As `decode_frame`, but the payload stays in these pages, so that no memory is asked for.
fn whole_frame_in(
    number: FormatNumber,
    kind: FrameKind,
    pages: Vec<[u8; 4096]>,
) -> Result<ReadFrame, FormatFault>
    requires { 0 < length pages.items }
    ensures spelled { IfOk result (λ payload. SpellsFrame number (kind_byte kind) pages.items payload) }
    ensures fault { fault_in result ≡ frame_fault number (kind_byte kind) pages.items }
{
    let size = match payload_of(number, kind, &pages) {
        Ok(payload) => payload.len(),
        Err(fault) => return Err(fault),
    };
    Ok(ReadFrame { pages, size })
}

/// The frame of a mark in these pages, which the payload stays in. No memory is asked for. It is tested as by
/// `decode_frame`. Then come 26 Misplaced if it has another mark, and 22 BadLength if a chunk's payload has no room for
/// a head.
pub fn read_frame_in(
    format: Format,
    kind: FrameKind,
    mark: u64,
    pages: Vec<[u8; 4096]>,
) -> Result<ReadFrame, FormatFault>
    requires { 0 < length pages.items }
    ensures spelled { IfOk result (λ payload. SpellsFrame (number_in format) (kind_byte kind) pages.items payload) }
    ensures fault { fault_in result ≡ meant_fault format (kind_byte kind) mark pages.items }
{
    let meant = check_mark(format, mark, &pages[0]);
    let long = check_long(format, &pages[0]);
    let frame = whole_frame_in(format.number(), kind, pages)?;
    meant?;
    long?;
    Ok(frame)
}

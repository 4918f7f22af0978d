//! Chunks: a piece of a shard's bytes, and the head after it that says whose chunk it is.
ghost use Rattle.std.specs.Prelude.{◌≡◌, ◌+◌, ◌-◌, ◌^◌, ◌<◌, IfOk, MatchOption, drop, length, vec_len};
ghost use Rattle.cs_frame.specs.FormatNumbers.{number_in};
ghost use Rattle.cs_frame.specs.Frames.{page_count, spelled_frame};
ghost use Rattle.cs_frame.specs.Heads.{body_in, chunk_in, spelled_head};
ghost use Rattle.cs_frame.specs.Identifiers.{id_number};
ghost use Rattle.law_machine.specs.Geometry.{head_bytes_in};

use crate::formats::{Format, Known, head_bytes};
use crate::frames::{FrameKind, encode_parts};
use crate::identifiers::ShardId;
use byteorder::{BigEndian, ByteOrder};
use std::alloc::{AllocError, Global};

/// What the head of a chunk says of the shard.
#[derive(Clone, Copy, Debug, PartialEq, Eq)]
pub struct ChunkHead {
    /// The identifier of the shard.
    pub id: ShardId,
    /// The chunk's number in the shard, from 0 on.
    pub number: u8,
    /// How many chunks the shard has.
    pub count: u8,
    /// The number of the command that put the shard.
    pub command: u64,
}

/// A head as it was read: what it says of the shard, and of the store.
#[derive(Clone, Copy, Debug, PartialEq, Eq)]
pub struct FoundHead {
    pub head: ChunkHead,
    /// The first eight bytes of the store's identity.
    pub store: [u8; 8],
}

/// The bytes that spell a head in the store whose identity begins with these bytes.
pub fn encode_head(head: ChunkHead, store: [u8; 8]) -> [u8; 34]
    ensures { result ≡ spelled_head (id_number head.id) head.number head.count head.command store }
{
    let mut bytes = [0; 34];
    bytes[26..34].copy_from_slice(&store);
    bytes[..16].copy_from_slice(&head.id.bytes());
    bytes[16] = head.number;
    bytes[17] = head.count;
    BigEndian::write_u64(&mut bytes[18..26], head.command);
    bytes
}

/// The head that these bytes spell.
fn head_from(bytes: &[u8]) -> FoundHead
    requires { length bytes.now ≡ 34 }
    ensures { bytes.now ≡ spelled_head (id_number result.head.id) result.head.number result.head.count result.head.command result.store }
{
    let mut id = [0; 16];
    id.copy_from_slice(&bytes[..16]);
    let mut store = [0; 8];
    store.copy_from_slice(&bytes[26..]);
    FoundHead {
        head: ChunkHead {
            id: ShardId(id),
            number: bytes[16],
            count: bytes[17],
            command: BigEndian::read_u64(&bytes[18..26]),
        },
        store,
    }
}

/// The head that a payload ends with. There is none where it is shorter than a head. What the head says isn't tested.
pub fn decode_head(payload: &[u8]) -> Option<FoundHead>
    ensures { MatchOption result (length payload.now < 34)
        (λ found. drop (length payload.now - 34) payload.now
        ≡ spelled_head (id_number found.head.id) found.head.number found.head.count found.head.command found.store) }
{
    if payload.len() < 34 {
        return None;
    }
    Some(head_from(&payload[payload.len() - 34..]))
}

/// The piece of a shard's bytes in the payload of a chunk: all before its head, where the format has heads.
pub fn chunk_body(format: Format, payload: &[u8]) -> &[u8]
    ensures { result.now ≡ body_in format payload.now }
{
    let end = payload.len().saturating_sub(head_bytes(format));
    &payload[..end]
}

/// The pages of a chunk's frame, whose payload is a piece of the shard's bytes and then the head, where the format
/// has heads.
pub fn encode_chunk(
    alloc: Global,
    format: Format,
    head: ChunkHead,
    piece: &[u8],
) -> Result<Vec<[u8; 4096]>, AllocError>
    requires { head_bytes_in format + length piece.now < 2 ^ 32 }
    ensures spelled { IfOk result (λ pages. pages.items
        ≡ spelled_frame (number_in format) 0 (chunk_in format (id_number head.id) head.number head.count head.command piece.now)) }
    ensures count { IfOk result (λ pages. vec_len pages ≡ page_count (head_bytes_in format + length piece.now)) }
{
    let number = format.number();
    match format.known() {
        Known::Two => encode_parts(alloc, number, FrameKind::Chunk, piece, &[]),
        Known::Four { store, .. } => {
            let bytes = encode_head(head, store.front());
            encode_parts(alloc, number, FrameKind::Chunk, piece, &bytes)
        }
    }
}

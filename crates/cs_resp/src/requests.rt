//! Reading requests.
ghost use Rattle.std.specs.Prelude.{◌≡◌, ◌↔◌, ◌++◌, List, ℕ, length, IfOk};
ghost use Rattle.cs_resp.specs.Spelling.{spelled_request, texts};
ghost use Rattle.cs_resp.specs.Requests.{IsNoRequest, IsPartOfRequest, IsSpelledBy, IsWholeOf, IsWithin};
ghost use Rattle.cs_resp.specs.Reading.{Gives, GivesOrStops, Tells, argument_at, arguments_at, bulk_sign_at, longest, request_at, text_at, too_long};
ghost use Rattle.cs_resp.specs.declared.faults.Fault.{Fault};
ghost use Rattle.cs_resp.specs.declared.progress.Progress.TheVariants.{More, Wrong};

use crate::faults::{End, Fault, Stop};
use crate::limits::Limits;
use crate::numbers::{byte, line_end, number};
use crate::progress::Progress;
use std::alloc::{AllocError, Global};

/// Reads the request at the front of the bytes, an array of bulk strings. What follows the request isn't read. The call
/// takes time in proportion to the bytes that it reads, and memory for the arguments.
pub fn parse_request(alloc: Global, bytes: &[u8], limits: Limits) -> Result<Progress, AllocError>
    // What is read is spelled so by the bytes that it takes.
    ensures whole { IfOk result (λ p. IsSpelledBy limits bytes.now p) }
    // What is spelled so is read, whatever follows it.
    ensures again { IfOk result (λ p. (request : List (List ℕ)) (rest : List ℕ) → IsWithin limits request
        → bytes.now ≡ spelled_request request ++ rest → IsWholeOf request (length (spelled_request request)) p) }
    // More is asked for exactly if the bytes are the beginning of a request, and not the whole of it.
    ensures more { IfOk result (λ p. (p ≡ More) ↔ IsPartOfRequest limits bytes.now) }
    // A fault is named exactly if no request stands at the beginning, whatever follows.
    ensures wrong { IfOk result (λ p. ((fault : Fault) × (p ≡ Wrong fault)) ↔ IsNoRequest limits bytes.now) }
    // Which fault it is.
    ensures exact { IfOk result (λ p. Tells bytes.now (request_at limits bytes.now) p) }
{
    let _largest = limits.largest();
    read_request(alloc, bytes, limits)
}

/// What the bytes begin with.
fn read_request(alloc: Global, bytes: &[u8], limits: Limits) -> Result<Progress, AllocError>
    ensures { IfOk result (λ p. Tells bytes.now (request_at limits bytes.now) p) }
{
    let _largest = limits.largest();
    match request(alloc, bytes, limits) {
        Ok((request, rest)) => Ok(Progress::Whole {
            request,
            used: bytes.len() - rest.len(),
        }),
        Err(Stop::Memory) => Err(AllocError),
        Err(Stop::Ends(End::More)) => Ok(Progress::More),
        Err(Stop::Ends(End::Wrong(fault))) => Ok(Progress::Wrong(fault)),
    }
}

/// A request, and what follows it.
#[tactic(auto, unfolding(crate::specs::Reading::request_at))]
fn request(alloc: Global, bytes: &[u8], limits: Limits) -> Result<(Vec<Vec<u8>>, &[u8]), Stop>
    ensures { GivesOrStops (λ x. (texts x.0.items, x.1.now)) result (request_at limits bytes.now) }
{
    let rest = byte(bytes, b'*', Fault::NotAnArray)?;
    let (count, rest) = number(rest, limits.arguments, Fault::TooManyArguments)?;
    arguments(alloc, rest, limits, count)
}

/// So many arguments, and what follows them.
fn arguments(
    alloc: Global,
    bytes: &[u8],
    limits: Limits,
    count: u32,
) -> Result<(Vec<Vec<u8>>, &[u8]), Stop>
    ensures { GivesOrStops (λ x. (texts x.0.items, x.1.now)) result (arguments_at limits count limits.bytes bytes.now) }
{
    let mut request = Vec::new(alloc);
    let mut room = limits.bytes as usize;
    let mut rest = bytes;
    for _ in 0..count {
        let (word, after) = argument(alloc, rest, limits, room)?;
        room = room.saturating_sub(word.len());
        request.push(word)?;
        rest = after;
    }
    Ok((request, rest))
}

/// An argument if all that are left may have so many bytes together, and what follows it.
#[tactic(auto, unfolding(crate::specs::Reading::argument_at))]
fn argument(
    alloc: Global,
    bytes: &[u8],
    limits: Limits,
    room: usize,
) -> Result<(Vec<u8>, &[u8]), Stop>
    ensures { GivesOrStops (λ x. (x.0.items, x.1.now)) result (argument_at limits room bytes.now) }
{
    let rest = bulk_sign(bytes)?;
    let most = longest(limits, room);
    let fault = too_long(limits, room);
    let (length, rest) = number(rest, most, fault)?;
    text(alloc, rest, length)
}

/// What follows the sign of a bulk string.
fn bulk_sign(bytes: &[u8]) -> Result<&[u8], End>
    ensures { Gives (λ rest. rest.now) result (bulk_sign_at bytes.now) }
{
    match bytes {
        [] => Err(End::More),
        [b'$', rest @ ..] => Ok(rest),
        [b'*', ..] => Err(End::Wrong(Fault::NestedArray)),
        [_, ..] => Err(End::Wrong(Fault::NotABulk)),
    }
}

/// How long an argument may be if all that are left may have so many bytes together.
fn longest(limits: Limits, room: usize) -> u32
    ensures { result ≡ longest limits room }
{
    if limits.bulk as usize <= room {
        limits.bulk
    } else {
        room as u32
    }
}

/// The fault of an argument that is longer.
fn too_long(limits: Limits, room: usize) -> Fault
    ensures { result ≡ too_long limits room }
{
    if limits.bulk as usize <= room {
        Fault::BulkTooLong
    } else {
        Fault::RequestTooLong
    }
}

/// So many bytes before a line break, and what follows that.
#[tactic(auto, unfolding(crate::specs::Reading::text_at))]
fn text(alloc: Global, bytes: &[u8], length: u32) -> Result<(Vec<u8>, &[u8]), Stop>
    ensures { GivesOrStops (λ x. (x.0.items, x.1.now)) result (text_at length bytes.now) }
{
    if bytes.len() < length as usize {
        return Err(Stop::Ends(End::More));
    }
    let (front, rest) = bytes.split_at(length as usize);
    let rest = line_end(rest, Fault::NoBulkEnd)?;
    let text = Vec::from_slice(alloc, front)?;
    Ok((text, rest))
}

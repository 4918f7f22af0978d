//! The calls of a node that a hand makes for its acts, and what they leave in it.
use super::acts::Hand;
use cs_disk::PageDisk;
use cs_frame::ShardId;
use cs_node::the_core::Bytes;
use cs_node::*;
use cs_refusal::Refusal;
use std::alloc::Global;
use std::sync::Wait;

/// The identifier that ends with this byte.
pub fn id(last: u8) -> ShardId {
    let mut bytes = [0; 16];
    bytes[15] = last;
    ShardId(bytes)
}

/// So many times this byte, None where there is no memory.
pub fn bytes_of(alloc: Global, byte: u8, count: usize) -> Option<Bytes> {
    let bytes = vec![in alloc; byte; count].ok()?;
    Bytes::new(alloc, bytes).ok()
}

/// Puts this byte under the identifier that ends with the other one.
pub fn put<D: PageDisk, K: Naming, R: Wait>(
    rt: &R,
    node: &Node<D, K>,
    hand: &mut Hand<K>,
    last: u8,
    byte: u8,
) -> Result<u64, Refusal> {
    let Some(bytes) = bytes_of(hand.alloc, byte, 1) else {
        return Err(Refusal::OutOfMemory);
    };
    match node.put(rt, &mut hand.purse, id(last), bytes) {
        Ok(ticket) => Ok(hand.receive(ticket)),
        Err(refusal) => Err(refusal),
    }
}

/// Puts so many times a byte under the identifier that ends with it, with a gate.
pub fn put_told<D: PageDisk, K: Naming, R: Wait, G: Gate>(
    rt: &R,
    node: &Node<D, K>,
    hand: &mut Hand<K>,
    gate: &G,
    last: u8,
    count: usize,
) -> Result<u64, Refusal> {
    let Some(bytes) = bytes_of(hand.alloc, last, count) else {
        return Err(Refusal::OutOfMemory);
    };
    match node.put_with(rt, &mut hand.purse, id(last), bytes, gate) {
        Ok(ticket) => Ok(hand.receive(ticket)),
        Err(refusal) => Err(refusal),
    }
}

/// What is under the identifier that ends with this byte.
pub fn get<D: PageDisk, K: Naming, R: Wait>(
    rt: &R,
    node: &Node<D, K>,
    hand: &mut Hand<K>,
    last: u8,
) -> Result<Option<Bytes>, Refusal> {
    node.get(rt, &mut hand.purse, id(last))
}

/// Whether this one byte was found, or nothing.
pub fn is_content(found: &Result<Option<Bytes>, Refusal>, wanted: Option<u8>) -> bool {
    match (found, wanted) {
        (Ok(Some(bytes)), Some(byte)) => bytes.as_slice() == [byte].as_slice(),
        (Ok(None), None) => true,
        _ => false,
    }
}

/// Deletes what is under the identifier that ends with this byte.
pub fn delete<D: PageDisk, K: Naming, R: Wait>(
    rt: &R,
    node: &Node<D, K>,
    hand: &mut Hand<K>,
    last: u8,
) -> Result<Option<u64>, Refusal> {
    match node.delete(rt, &mut hand.purse, id(last)) {
        Ok(Some(ticket)) => Ok(Some(hand.receive(ticket))),
        Ok(None) => Ok(None),
        Err(refusal) => Err(refusal),
    }
}

/// Polls the ticket in the hand.
pub fn poll<D: PageDisk, K: Naming>(
    node: &Node<D, K>,
    hand: &mut Hand<K>,
) -> Result<Option<u64>, Refusal> {
    let Some(ticket) = hand.ticket.take() else {
        return Err(Refusal::NotStaged);
    };
    match hand.purse.poll(node, ticket) {
        Polled::Done(ack) => {
            hand.ack = Some(ack);
            Ok(None)
        }
        Polled::Back(ticket, known) => {
            hand.ticket = Some(ticket);
            Ok(Some(known))
        }
    }
}

/// Settles the ticket in the hand.
pub fn settle<D: PageDisk, K: Naming, R: Wait>(
    rt: &R,
    node: &Node<D, K>,
    hand: &mut Hand<K>,
) -> Result<Option<u64>, Refusal> {
    let Some(ticket) = hand.ticket.take() else {
        return Err(Refusal::NotStaged);
    };
    match node.settle(rt, &mut hand.purse, ticket) {
        Settled::Done(ack) => {
            hand.ack = Some(ack);
            Ok(None)
        }
        Settled::Back(ticket, why) => {
            hand.ticket = Some(ticket);
            answer_of(why)
        }
    }
}

/// Why a ticket came back.
fn answer_of(why: Why) -> Result<Option<u64>, Refusal> {
    match why {
        Why::NotYet(known) => Ok(Some(known)),
        Why::HistoryFull => Err(Refusal::HistoryFull),
        Why::OutOfMemory => Err(Refusal::OutOfMemory),
    }
}

/// Puts the ticket in the hand into the purse.
pub fn keep_ticket<K: Naming>(hand: &mut Hand<K>) -> bool {
    let Some(ticket) = hand.ticket.take() else {
        return false;
    };
    let is_kept = hand.purse.keep_ticket(ticket).is_ok();
    if is_kept {
        hand.kept = hand.kept.saturating_add(1);
    }
    is_kept
}

/// Puts the ack in the hand, which has this number, into the purse.
pub fn keep_ack<K: Naming>(hand: &mut Hand<K>, number: u64) -> bool {
    let Some(ack) = hand.ack.take() else {
        return false;
    };
    let found = ack.number();
    hand.purse.keep_ack(ack).is_ok() && found == number
}

/// Whether the purse's calls have these places.
pub fn are_places<K: Naming>(hand: &Hand<K>, wanted: &[u64]) -> bool {
    match hand.purse.places(hand.alloc) {
        Ok(found) => found.as_slice() == wanted,
        Err(_) => false,
    }
}

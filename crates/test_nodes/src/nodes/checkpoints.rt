//! What a node does past the limit of its history, and what it forgets.
use super::acts::{Act, Hand, sync};
use super::calls::{bytes_of, get, id, is_content, keep_ack, put, settle};
use cs_disk::PageDisk;
use cs_node::*;
use cs_refusal::Refusal;
use std::sync::Wait;

/// Does an act, and tells whether it was answered as it says.
pub fn is_settled<D: PageDisk, K: Naming, R: Wait>(
    rt: &R,
    node: &Node<D, K>,
    hand: &mut Hand<K>,
    act: Act,
) -> bool {
    match act {
        Act::Checkpoint(wanted) => checkpoint(rt, node, hand) == wanted,
        Act::Look(accepted, frontier, events, base) => {
            is_look(&node.look(rt), accepted, frontier, events, base)
        }
        Act::Forget => forget(rt, node, hand),
        Act::Abandon(extent, wanted) => node.abandon(rt, extent) == wanted,
        Act::ReclaimOf(extent) => {
            hand.reclaimer = Reclaimer::of(extent);
            true
        }
        Act::Offer(last, wanted) => offer(rt, node, hand, last) == wanted,
        Act::Hundred => hundred(rt, node, hand),
        _ => false,
    }
}

/// Takes a checkpoint by the pilot in the hand.
fn checkpoint<D: PageDisk, K: Naming, R: Wait>(
    rt: &R,
    node: &Node<D, K>,
    hand: &mut Hand<K>,
) -> Result<u64, Refusal> {
    match &mut hand.pilot {
        Some(pilot) => node.checkpoint(rt, pilot),
        None => Err(Refusal::NotStaged),
    }
}

/// Whether a look tells these numbers, and that no extent is being swept.
fn is_look(look: &Look, accepted: u64, frontier: u64, events: usize, base: u64) -> bool {
    let told = (look.accepted, look.frontier, look.events, look.base);
    told == (accepted, frontier, events, base) && look.swept.is_none()
}

/// Hands the acks of the purse in, and forgets its calls below the base. Whether it has no ack then.
fn forget<D: PageDisk, K: Naming, R: Wait>(rt: &R, node: &Node<D, K>, hand: &mut Hand<K>) -> bool {
    hand.purse.forget(node.look(rt).base);
    node.hand_in(rt, &mut hand.purse).is_ok() && hand.purse.acks().is_empty()
}

/// Offers one byte under the identifier that ends with it. Where it is refused the byte has to come back.
fn offer<D: PageDisk, K: Naming, R: Wait>(
    rt: &R,
    node: &Node<D, K>,
    hand: &mut Hand<K>,
    last: u8,
) -> Result<u64, Refusal> {
    let Some(bytes) = bytes_of(hand.alloc, last, 1) else {
        return Err(Refusal::OutOfMemory);
    };
    match node.offer(rt, &mut hand.purse, id(last), bytes, &Open) {
        Ok(ticket) => Ok(hand.receive(ticket)),
        Err(refused) if refused.bytes.as_slice() == [last].as_slice() => Err(refused.why),
        Err(_) => Err(Refusal::BadDocument),
    }
}

/// A hundred puts, each with a checkpoint. Whether each was answered as it has to be.
fn hundred<D: PageDisk, K: Naming, R: Wait>(rt: &R, node: &Node<D, K>, hand: &mut Hand<K>) -> bool {
    for byte in 0..100 {
        if !is_put_and_replaced(rt, node, hand, byte) {
            return false;
        }
    }
    true
}

/// One of them: the byte is put and got back, becomes persistent, and what was done is replaced.
fn is_put_and_replaced<D: PageDisk, K: Naming, R: Wait>(
    rt: &R,
    node: &Node<D, K>,
    hand: &mut Hand<K>,
    byte: u8,
) -> bool {
    let number = u64::from(byte) + 1;
    put(rt, node, hand, 10, byte) == Ok(number)
        && is_content(&get(rt, node, hand, 10), Some(byte))
        && sync(rt, node, hand) == Ok(number)
        && settle(rt, node, hand) == Ok(None)
        && keep_ack(hand, number)
        && checkpoint(rt, node, hand).is_ok()
        && forget(rt, node, hand)
        && node.look(rt).events == 0
        && hand.purse.calls().is_empty()
}

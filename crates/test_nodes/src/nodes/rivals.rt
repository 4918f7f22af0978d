//! Threads that put, get and delete the same shards.
use super::acts::{Act, new_hand, plays, sync};
use super::tasks::{Ended, Gave, Task, abreast, give};
use super::threads::add;
use super::{Store, Wanted, tries};
use cs_disk::PageDisk;
use cs_frame::ShardId;
use cs_node::the_core::{Bytes, Event, Reply};
use cs_node::*;
use std::alloc::Global;
use std::process::Abort;
use std::sync::Wait;
use std::thread::Threads;

/// Puts, gets and deletes three shards over and over, with contents that differ from those of the two others.
const FIRST: &[Act] = &[Act::Rival(16)];

const SECOND: &[Act] = &[Act::Rival(32)];

const THIRD: &[Act] = &[Act::Rival(48)];

/// The pilot, which is given once.
const HIRES: &[Act] = &[Act::Hire(true), Act::Hire(false)];

/// Gets all three shards.
const GETS: &[Act] = &[Act::GetAny(0), Act::GetAny(1), Act::GetAny(2)];

/// What three such threads did beside one another, after which all of it is synced and got once more.
pub fn contend<D: PageDisk + Send, K: Naming + Send + Sync, R: Threads + Wait + Abort + Sync>(
    rt: &R,
    alloc: Global,
    node: &Node<D, K>,
) -> Gave<K> {
    let mut rivals = Vec::new(alloc);
    add(rt, &mut rivals, new_hand(rt, alloc, node), FIRST);
    add(rt, &mut rivals, new_hand(rt, alloc, node), SECOND);
    add(rt, &mut rivals, new_hand(rt, alloc, node), THIRD);
    let mut gave = abreast(rt, alloc, node, rivals);
    sync_and_get(rt, alloc, node, &mut gave);
    gave
}

/// Syncs all that was accepted, and gets all three shards.
fn sync_and_get<D: PageDisk, K: Naming, R: Wait + Abort>(
    rt: &R,
    alloc: Global,
    node: &Node<D, K>,
    gave: &mut Gave<K>,
) {
    let mut hand = new_hand(rt, alloc, node);
    plays(rt, node, &mut hand, &Open, HIRES);
    assert!(rt; sync(rt, node, &mut hand) == Ok(gave.number));
    plays(rt, node, &mut hand, &Open, GETS);
    give(rt, gave, hand);
}

/// Whether an event asks about the identifier that ends with this byte.
fn is_of(event: &Event, last: u8) -> bool {
    match event {
        Event::Put(id, _) | Event::Get(id) | Event::Delete(id) => ends_with(id, last),
        _ => false,
    }
}

/// Whether an identifier ends with this byte.
fn ends_with(id: &ShardId, last: u8) -> bool {
    id.0[15] == last
}

/// The one byte.
fn byte_of(bytes: &Bytes) -> Option<u8> {
    bytes.as_slice().first().copied()
}

/// Whether this is what has to be answered where this byte, or nothing, is under the identifier.
fn is_right(held: Option<u8>, event: &Event, reply: &Reply) -> bool {
    match (event, reply) {
        (Event::Put(_, _), Reply::Accepted(_)) => true,
        (Event::Get(_), Reply::Found(bytes)) => held.is_some() && held == byte_of(bytes),
        (Event::Delete(_), Reply::Accepted(_)) => held.is_some(),
        (Event::Get(_), Reply::Absent) | (Event::Delete(_), Reply::Absent) => held.is_none(),
        _ => false,
    }
}

/// What is under the identifier after such an event.
fn held_after(held: Option<u8>, event: &Event) -> Option<u8> {
    match event {
        Event::Put(_, bytes) => byte_of(bytes),
        Event::Delete(_) => None,
        _ => held,
    }
}

/// Asserts that all that was asked about the identifier that ends with this byte was answered by what was put and
/// deleted before.
fn is_as_put<R: Abort>(rt: &R, history: &[(Event, Reply)], last: u8) {
    let mut held: Option<u8> = None;
    for entry in history {
        if is_of(&entry.0, last) {
            assert!(rt; is_right(held, &entry.0, &entry.1));
            held = held_after(held, &entry.0);
        }
    }
}

/// Asserts that the accepted commands of a history are numbered from 1, and gives how many they are.
fn accepted_in<R: Abort>(rt: &R, history: &[(Event, Reply)]) -> u64 {
    let mut last = 0;
    for entry in history {
        if let Reply::Accepted(number) = &entry.1 {
            assert!(rt; number.checked_sub(1) == Some(last));
            last = *number;
        }
    }
    last
}

/// Asserts that all accepted commands are counted and persistent, and that all three shards were answered by what was
/// put and deleted.
pub fn is_agreed<R: Abort>(rt: &R, ended: &Ended) {
    let accepted = accepted_in(rt, ended.history.as_slice());
    assert!(rt; ended.number == accepted);
    assert!(rt; ended.accepted == accepted);
    assert!(rt; ended.acknowledged == accepted);
    for last in 0..3 {
        is_as_put(rt, ended.history.as_slice(), last);
    }
}

#[test]
fn threads_agree_on_the_shards_that_all_of_them_put(rt: HostRuntime) {
    tries(&rt, rt.alloc(), Store::Wide, Task::Rivals, Wanted::Agreed);
}

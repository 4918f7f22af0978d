//! The calls of one thread, with what each was told.
ghost use Rattle.std.specs.Prelude.{◌≡◌, ◌-◌, ◌+◌, ◌^◌, ◌≤◌, ◌<◌, ◌↔◌, ◌++◌, ◌∷◌, [], IfOk, IsTrue, MatchOption, OnOk, None, Some, map, max};
ghost use Rattle.cs_node.specs.Told.{Below, Rising, call, floor_of, found_last, from_place, told_by};

use cs_core::{Bytes, Event, Reply};
use std::alloc::{AllocError, Global};
use std::marker::Model;

/// A call: its place in the node's history, from 0, with its event and its reply.
#[derive(Debug, Drop)]
pub struct Call {
    pub place: u64,
    pub event: Event,
    pub reply: Reply,
}

/// The calls of one thread that weren't forgotten, the first one first. Contracts see these calls, up to which command
/// they and the forgotten ones said that all are persistent, the place after that of the last call, and for how many
/// more there is room.
#[derive(Drop)]
pub struct Log {
    calls: Vec<Call>,
    // the place after that of the last call, also of a forgotten one
    next: u64,
    // the greatest number that a call told of, also a forgotten one
    floor: u64,
}

impl Model for Log {
    ghost use Rattle.std.specs.Prelude.{◌≡◌, ◌-◌, length, vec_capacity};
    ghost use Rattle.std.specs.Prelude.{◌≤◌};
    ghost use Rattle.cs_node.specs.Told.{Below, Logged, Rising, floor_of};

    ghost Value = { Logged };

    ghost view = { λ l. record { calls = l.calls.items; floor = l.floor; next = l.next; room = vec_capacity l.calls - length l.calls.items } };

    ghost invariant = { λ l. Below l.next l.calls.items × Rising l.calls.items × (floor_of l.calls.items ≤ l.floor) };
}

impl Log {
    /// No calls.
    pub fn new(alloc: Global) -> Self
        ensures calls { result.calls ≡ [] }
        ensures floor { result.floor ≡ 0 }
        ensures next { result.next ≡ 0 }
    {
        Log {
            calls: Vec::new(alloc),
            next: 0,
            floor: 0,
        }
    }

    /// The calls, the first one first.
    pub fn calls(&self) -> &[Call]
        ensures calls { result.now ≡ self.now.calls }
        ensures rising { Rising self.now.calls }
        ensures floor { floor_of self.now.calls ≤ self.now.floor }
    {
        self.calls.as_slice()
    }

    /// The greatest number that a call told of, also a forgotten one.
    pub fn floor(&self) -> u64
        ensures { result ≡ self.now.floor }
    {
        self.floor
    }

    /// Whether the place is above those of all calls, also of forgotten ones.
    pub fn is_above(&self, place: u64) -> bool
        ensures exact { IsTrue result ↔ (self.now.next ≤ place) }
        ensures above { IsTrue result → Below place self.now.calls }
    {
        self.next <= place
    }

    /// Makes room for one call more.
    pub fn reserve(&mut self) -> Result<(), AllocError>
        ensures calls { self.new.calls ≡ self.old.calls }
        ensures floor { self.new.floor ≡ self.old.floor }
        ensures next { self.new.next ≡ self.old.next }
        ensures room { OnOk result (1 ≤ self.new.room) }
    {
        self.calls.reserve(1)
    }

    /// Adds a call, for which there is room.
    pub fn push(&mut self, place: u64, event: Event, reply: Reply)
        requires room { 1 ≤ self.old.room }
        requires above { Below place self.old.calls }
        requires fits { place < 2 ^ 64 - 1 }
        ensures calls { self.new.calls ≡ self.old.calls ++ call place event reply ∷ [] }
        ensures floor { self.new.floor ≡ max self.old.floor (told_by event reply) }
        ensures next { self.new.next ≡ place + 1 }
    {
        self.next = place + 1;
        self.floor = self.floor.max(told(&event, &reply));
        self.calls.push_reserved(Call {
            place,
            event,
            reply,
        });
    }

    /// Forgets the calls at places below this one.
    pub fn forget(&mut self, base: u64)
        ensures calls { self.new.calls ≡ from_place base self.old.calls }
        ensures floor { self.new.floor ≡ self.old.floor }
        ensures next { self.new.next ≡ self.old.next }
    {
        self.calls.retain(|call| base <= call.place);
    }

    /// The bytes that the last call found, or None.
    pub fn found(&self) -> Option<&Bytes>
        ensures { MatchOption result (found_last self.now.calls ≡ None) (λ bytes. found_last self.now.calls ≡ Some bytes.now) }
    {
        match self.calls.last() {
            Some(call) => match &call.reply {
                Reply::Found(bytes) => Some(bytes),
                _ => None,
            },
            None => None,
        }
    }
}

/// Up to which command a call said that all are persistent.
fn told(event: &Event, reply: &Reply) -> u64
    ensures { result ≡ told_by event.now reply.now }
{
    match event {
        Event::Settle(number) => match reply {
            Reply::Persistent => *number,
            Reply::NotYet(frontier) => *frontier,
            _ => 0,
        },
        _ => 0,
    }
}

/// The places of calls.
pub fn places_of(alloc: Global, calls: &[Call]) -> Result<Vec<u64>, AllocError>
    ensures { IfOk result (λ places. places.items ≡ map (λ c. c.place) calls.now) }
{
    let mut places = Vec::with_capacity(alloc, calls.len())?;
    for call in calls {
        places.push_reserved(call.place);
    }
    Ok(places)
}

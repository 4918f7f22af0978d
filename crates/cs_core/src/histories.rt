//! What went before: events with their replies, what these put and deleted, and the roots that were staged.
ghost use Rattle.std.specs.Prelude.{◌≡◌, ◌+◌, ◌^◌, ◌<◌, ◌≤◌, ◌++◌, ◌∷◌, [], OnOk, drop, length, IfOk, take};
ghost use Rattle.cs_core.specs.Histories.{Recorded, events_before};
ghost use Rattle.cs_core.specs.Replays.{change_said, replayed};

use crate::events::{Bytes, Event, Reply};
use cs_frame::ShardId;
use std::alloc::{AllocError, Global};
use std::collections::VecDeque;
use std::marker::Model;
use std::snapshot::Snapshot;

/// The events that checkpoints replaced, with their replies. Only clauses see them: the value takes no memory but its
/// own tag, and asks for none when more join it.
#[derive(Drop)]
pub enum Before {
    Nothing,
    Then(Snapshot<Before>, Snapshot<Vec<(Event, Reply)>>),
}

/// The events with their replies. Contracts see all of them, how many checkpoints replaced, and for how many more there
/// is room.
#[derive(Drop)]
pub struct History {
    before: Before,
    base: u64,
    kept: Vec<(Event, Reply)>,
}

impl Model for History {
    ghost use Rattle.std.specs.Prelude.{◌≡◌, ◌-◌, ◌^◌, ◌<◌, ◌++◌, length, vec_capacity};
    ghost use Rattle.cs_core.specs.Histories.{Recorded, events_before};

    ghost Value = { Recorded };

    ghost view = { λ h. record { all = events_before h.before ++ h.kept.items; base = h.base; room = vec_capacity h.kept - length h.kept.items } };

    ghost invariant = { λ h. (h.base ≡ length (events_before h.before)) × (h.base < 2 ^ 63) };
}

impl History {
    /// No events.
    pub fn new(alloc: Global) -> Self
        ensures all { result.all ≡ [] }
        ensures base { result.base ≡ 0 }
    {
        History {
            before: Before::Nothing,
            base: 0,
            kept: Vec::new(alloc),
        }
    }

    /// The events that are kept, the first one first.
    pub fn kept(&self) -> &[(Event, Reply)]
        ensures kept { result.now ≡ drop self.now.base self.now.all }
        ensures replaced { self.now.base ≤ length self.now.all }
    {
        &self.kept
    }

    /// How many events were replaced.
    pub fn base(&self) -> u64
        ensures base { result ≡ self.now.base }
        ensures fits { result < 2 ^ 63 }
    {
        self.base
    }

    /// How many events there were, those that were replaced too.
    pub fn total(&self) -> u64
        ensures { result ≡ length self.now.all }
    {
        self.base + self.kept.len() as u64
    }

    /// Makes room for one event more.
    pub fn reserve(&mut self) -> Result<(), AllocError>
        ensures all { self.new.all ≡ self.old.all }
        ensures base { self.new.base ≡ self.old.base }
        ensures room { OnOk result (1 ≤ self.new.room) }
    {
        self.kept.reserve(1)
    }

    /// Adds an event, for which there is room.
    pub fn push(&mut self, event: Event, reply: Reply)
        requires { 1 ≤ self.old.room }
        ensures all { self.new.all ≡ self.old.all ++ (event, reply) ∷ [] }
        ensures base { self.new.base ≡ self.old.base }
    {
        self.kept.push_reserved((event, reply));
    }

    /// Drops the events that are kept. Returns how many they were. It takes no memory, and time for each.
    pub fn replace(&mut self) -> u64
        requires { length self.old.all < 2 ^ 63 }
        ensures count { result ≡ length (drop self.old.base self.old.all) }
        ensures all { self.new.all ≡ self.old.all }
        ensures base { self.new.base ≡ length self.old.all }
    {
        let count = self.kept.len() as u64;
        self.before = Before::Then(Snapshot::of(&self.before), Snapshot::of(&self.kept));
        self.base += count;
        self.kept.clear();
        count
    }

    /// The events that are kept.
    pub fn into_kept(self) -> Vec<(Event, Reply)>
        ensures { result.items ≡ drop self.base self.all }
    {
        let History {
            before: _,
            base: _,
            kept,
        } = self;
        kept
    }
}

/// What the first so many events put or deleted, each identifier with its bytes or None, the first of them first.
pub fn replay_events(
    alloc: Global,
    events: &[(Event, Reply)],
    count: usize,
) -> Result<Vec<(ShardId, Option<Bytes>)>, AllocError>
    ensures { IfOk result (λ changes. changes.items ≡ replayed (take count events.now)) }
{
    let mut changes = Vec::new(alloc);
    let last = count.min(events.len());
    for k in 0..last {
        let entry = &events[k];
        push_change(&mut changes, &entry.0, &entry.1)?;
    }
    Ok(changes)
}

/// Adds what an accepted event put under an identifier, or that it deleted it.
fn push_change(
    changes: &mut Vec<(ShardId, Option<Bytes>)>,
    event: &Event,
    reply: &Reply,
) -> Result<(), AllocError>
    ensures { OnOk result (changes.new.items ≡ changes.old.items ++ change_said event.now reply.now) }
{
    let Reply::Accepted(_) = reply else {
        return Ok(());
    };
    match event {
        Event::Put(id, bytes) => {
            let shared = bytes.share()?;
            changes.push((*id, Some(shared)))?;
            Ok(())
        }
        Event::Delete(id) => {
            changes.push((*id, None))?;
            Ok(())
        }
        _ => Ok(()),
    }
}

/// A root that was staged, or read as the store was opened.
#[derive(Clone, Copy, Debug)]
pub struct Root {
    /// Its version.
    pub version: u64,
    /// How many of the commands accepted since the store was opened it includes.
    pub commands: u64,
}

/// The root that a store begins on, as it notes it: it includes none of the commands that are accepted since.
pub fn first_root(alloc: Global, version: u64) -> Result<VecDeque<Root>, AllocError>
    ensures { IfOk result (λ roots. roots.items ≡ record { version = version; commands = 0 } ∷ []) }
{
    let mut roots = VecDeque::new(alloc);
    roots.push_back(Root {
        version,
        commands: 0,
    })?;
    Ok(roots)
}

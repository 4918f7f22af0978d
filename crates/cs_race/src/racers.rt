//! What the threads of a race do.
ghost use Rattle.std.specs.Prelude.{◌<◌, IfErr};
ghost use Rattle.cs_race.specs.Races.{IsNoRace};

use crate::traffic::Traffic;
use cs_disk::PageDisk;
use cs_frame::ShardId;
use cs_node::the_core::Bytes;
use cs_node::{
    Dock, Gate, Job, Naming, Node, Open, Pilot, Polled, Purse, Ramp, Reclaimer, Step, Stream,
    Ticket, ferry,
};
use cs_refusal::Refusal;
use cs_words::Race;
use std::alloc::{AllocError, Global};
use std::sync::{Arc, Wait};

/// How many tickets may be under way.
const PLACES: usize = 1024;

/// How many sweeps the reclaimer begins at most.
const SWEEPS: u32 = 8;

/// What one thread does.
#[derive(Drop)]
pub enum Racer<K: Naming> {
    Put(Putter<K>),
    Acknowledge(Acknowledger<K>),
    WriteBack(Writer<K>),
    Sweep(Sweeper<K>),
}

/// What one thread hands back.
#[derive(Drop)]
pub enum Returned<K: Naming> {
    /// A purse, and how many shards were read back.
    Called(Purse<K>, u64),
    WroteBack(Pilot<K>),
    Swept,
}

/// Puts shards, gets each back at once, and sends the tickets off.
#[derive(Drop)]
pub struct Putter<K: Naming> {
    alloc: Global,
    race: Race,
    thread: u64,
    purse: Purse<K>,
    ramp: Ramp<K>,
    traffic: Arc<Traffic, Global>,
    ghost among: { thread < 64 },
}

/// Polls each ticket that comes, and once more after the last one came.
#[derive(Drop)]
pub struct Acknowledger<K: Naming> {
    purse: Purse<K>,
    dock: Dock<K>,
    waiting: Vec<Ticket<K>>,
    finish: Finish,
}

/// Writes back until all tickets were polled.
#[derive(Drop)]
pub struct Writer<K: Naming> {
    pilot: Pilot<K>,
    streams: bool,
    until: Until,
}

/// Sweeps until all tickets were polled.
#[derive(Drop)]
pub struct Sweeper<K: Naming> {
    reclaimer: Reclaimer<K>,
    until: Until,
}

/// The gate of the workers.
#[derive(Drop)]
struct Until {
    traffic: Arc<Traffic, Global>,
}

impl Gate for Until {
    fn before(&self) -> bool {
        !self.traffic.has_ended()
    }

    fn within(&self, _step: Step) {}
}

/// Ends the traffic once it is let go, also where no ticket was ever polled since memory for the threads was refused.
struct Finish {
    traffic: Arc<Traffic, Global>,
}

impl Drop for Finish {
    fn drop(self) {
        let Finish { traffic } = self;
        traffic.end();
    }
}

/// All that run in a race, each ahead of those that it waits for: where a thread can't be made what stands behind is
/// done first, so all of them end then too. Refused 9 OutOfMemory, and 35 WornOut where the node has no purse left.
pub fn racers_of<D: PageDisk, K: Naming, R: Wait>(
    rt: &R,
    alloc: Global,
    node: &Node<D, K>,
    race: Race,
    pilot: Pilot<K>,
) -> Result<Vec<Racer<K>>, Refusal>
    ensures { IfErr result IsNoRace }
{
    let traffic = Arc::new(alloc, Traffic::new())?;
    let (ramp, dock) = ferry(alloc, PLACES)?;
    let mut callers = putters(rt, alloc, node, race, &ramp, &traffic)?;
    let purse = node.purse(rt, alloc)?;
    let mut racers = Vec::new(alloc);
    racers.reserve(3)?;
    racers.push_reserved(Racer::Sweep(Sweeper {
        reclaimer: Reclaimer::new(SWEEPS),
        until: Until {
            traffic: Arc::try_clone(&traffic)?,
        },
    }));
    racers.push_reserved(Racer::WriteBack(Writer {
        pilot,
        streams: race.streams(),
        until: Until {
            traffic: Arc::try_clone(&traffic)?,
        },
    }));
    racers.push_reserved(Racer::Acknowledge(Acknowledger {
        purse,
        dock,
        waiting: Vec::new(alloc),
        finish: Finish { traffic },
    }));
    racers.append(&mut callers)?;
    Ok(racers)
}

/// Those that put, each with a ramp of its own. Refused as `racers_of`.
fn putters<D: PageDisk, K: Naming, R: Wait>(
    rt: &R,
    alloc: Global,
    node: &Node<D, K>,
    race: Race,
    ramp: &Ramp<K>,
    traffic: &Arc<Traffic, Global>,
) -> Result<Vec<Racer<K>>, Refusal>
    ensures { IfErr result IsNoRace }
{
    let mut racers = Vec::new(alloc);
    for thread in 0..race.threads() {
        racers.reserve(1)?;
        racers.push_reserved(Racer::Put(Putter {
            alloc,
            race,
            thread,
            purse: node.purse(rt, alloc)?,
            ramp: ramp.another()?,
            traffic: Arc::try_clone(traffic)?,
        }));
    }
    Ok(racers)
}

impl<D: PageDisk + Send, K: Naming + Send + Sync> Job<Node<D, K>> for Racer<K> {
    type Out = Returned<K>;

    fn run<R: Wait>(self, rt: &R, node: &Node<D, K>) -> Returned<K> {
        match self {
            Racer::Put(putter) => putter.run(rt, node),
            Racer::Acknowledge(acknowledger) => acknowledger.run(rt, node),
            Racer::WriteBack(writer) => writer.run(rt, node),
            Racer::Sweep(mut sweeper) => {
                let _ = sweeper.reclaimer.run(rt, node, &sweeper.until);
                Returned::Swept
            }
        }
    }
}

impl<K: Naming> Putter<K> {
    /// Puts all its shards. A refused put isn't tried again.
    fn run<D: PageDisk, R: Wait>(self, rt: &R, node: &Node<D, K>) -> Returned<K> {
        let Putter {
            alloc,
            race,
            thread,
            mut purse,
            ramp,
            traffic,
        } = self;
        let mut dropped = if thread == 0 { race.dropped() } else { 0 };
        let mut read_back = 0u64;
        for i in 0..race.puts() {
            let number = thread * 1000 + i + 1;
            let Some(ticket) = put(rt, alloc, node, &mut purse, number) else {
                continue;
            };
            if reads_back(rt, node, &mut purse, number) {
                read_back = read_back.saturating_add(1);
            }
            if dropped > 0 {
                dropped -= 1;
            } else if let Err(ticket) = send(rt, &traffic, &ramp, ticket) {
                let _ = purse.keep_ticket(ticket);
            }
        }
        Returned::Called(purse, read_back)
    }
}

/// Sends a ticket off. It comes back where nobody takes it.
fn send<K: Naming, R: Wait>(
    rt: &R,
    traffic: &Traffic,
    ramp: &Ramp<K>,
    ticket: Ticket<K>,
) -> Result<(), Ticket<K>> {
    if traffic.has_room(PLACES) {
        ramp.carry(rt, ticket)
    } else {
        Err(ticket)
    }
}

/// The identifier of a number.
fn id_of(number: u64) -> ShardId {
    let mut id = [0; 16];
    id[8..].copy_from_slice(&number.to_be_bytes());
    ShardId(id)
}

/// Puts the number in 8 bytes under its identifier. None where that was refused.
fn put<D: PageDisk, K: Naming, R: Wait>(
    rt: &R,
    alloc: Global,
    node: &Node<D, K>,
    purse: &mut Purse<K>,
    number: u64,
) -> Option<Ticket<K>> {
    let bytes = payload(alloc, number).ok()?;
    node.put(rt, purse, id_of(number), bytes).ok()
}

/// The number in 8 bytes, the greatest first.
fn payload(alloc: Global, number: u64) -> Result<Bytes, AllocError> {
    let bytes = Vec::from_slice(alloc, &number.to_be_bytes())?;
    Bytes::new(alloc, bytes)
}

/// Whether the number's identifier has the number under it.
fn reads_back<D: PageDisk, K: Naming, R: Wait>(
    rt: &R,
    node: &Node<D, K>,
    purse: &mut Purse<K>,
    number: u64,
) -> bool {
    match node.get(rt, purse, id_of(number)) {
        Ok(Some(bytes)) => bytes.as_slice() == number.to_be_bytes().as_slice(),
        _ => false,
    }
}

impl<K: Naming> Acknowledger<K> {
    /// Polls the tickets. What isn't acknowledged at last it keeps as a ticket.
    fn run<D: PageDisk, R: Wait>(self, rt: &R, node: &Node<D, K>) -> Returned<K> {
        let Acknowledger {
            mut purse,
            dock,
            mut waiting,
            finish,
        } = self;
        finish.traffic.attend();
        for _ in rt.forever() {
            let Some(ticket) = dock.next(rt) else {
                break;
            };
            if let Some(ticket) = poll(node, &mut purse, ticket) {
                if let Err(failed) = waiting.push(ticket) {
                    let _ = purse.keep_ticket(failed.value);
                }
            }
        }
        for ticket in waiting {
            if let Some(ticket) = poll(node, &mut purse, ticket) {
                let _ = purse.keep_ticket(ticket);
            }
        }
        drop(finish);
        Returned::Called(purse, 0)
    }
}

/// Polls a ticket, and keeps its ack or gives it back.
fn poll<D: PageDisk, K: Naming>(
    node: &Node<D, K>,
    purse: &mut Purse<K>,
    ticket: Ticket<K>,
) -> Option<Ticket<K>> {
    match purse.poll(node, ticket) {
        Polled::Done(ack) => {
            let _ = purse.keep_ack(ack);
            None
        }
        Polled::Back(ticket, _) => Some(ticket),
    }
}

impl<K: Naming> Writer<K> {
    /// Writes back until the gate ends it or a turn is refused, and gives the pilot back.
    fn run<D: PageDisk, R: Wait>(self, rt: &R, node: &Node<D, K>) -> Returned<K> {
        let Writer {
            mut pilot,
            streams,
            until,
        } = self;
        if !streams {
            let _ = pilot.run(rt, node, &until);
            return Returned::WroteBack(pilot);
        }
        let mut stream = Stream::new(pilot);
        let _ = stream.run(rt, node, &until);
        Returned::WroteBack(stream.into_pilot())
    }
}

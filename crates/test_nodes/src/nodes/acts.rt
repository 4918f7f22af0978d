//! What tests do on a node, by scripts: each call of a node stands in one function, and a test says which calls come,
//! and what each is to answer. These functions have no end but the one at their foot, and so little has to be proved of
//! what they hold.
use super::calls::{
    are_places, delete, get, is_content, keep_ack, keep_ticket, poll, put, put_told, settle,
};
use super::checkpoints::is_settled;
use super::threads::{Signals, is_raised};
use cs_disk::PageDisk;
use cs_node::*;
use cs_refusal::Refusal;
use std::alloc::Global;
use std::process::Abort;
use std::sync::Wait;
use std::sync::atomic::Ordering;
use std::thread;

/// What a hand does, and what has to be answered. Where it isn't, the hand does no more.
#[derive(Clone, Copy)]
pub enum Act {
    /// Puts this byte under the identifier that ends with it. The ticket, which has this number, is in the hand then.
    Put(u8, Result<u64, Refusal>),
    /// The same where the ticket may have any number.
    PutAny(u8),
    /// Puts so many times this byte. The gate is told of that.
    PutTold(u8, usize, Result<u64, Refusal>),
    /// The one byte under an identifier, or nothing.
    Get(u8, Option<u8>),
    /// The same whatever there is.
    GetAny(u8),
    /// The number of the ticket, or nothing.
    Delete(u8, Option<u64>),
    /// Whether the command of the ticket in the hand is persistent: None, and the ack is in the hand then, or up to
    /// which number commands are.
    Poll(Option<u64>),
    /// The same under the lock.
    Settle(Result<Option<u64>, Refusal>),
    /// Keeps the ticket.
    KeepTicket,
    /// Keeps the ack, which has this number.
    KeepAck(u64),
    /// The places of the purse's calls.
    Places(&'static [u64]),
    /// Whether the pilot is given. It is in the hand then.
    Hire(bool),
    /// How many commands are persistent after a sync.
    Sync(Result<u64, Refusal>),
    /// A turn of the pilot.
    Fly(Step),
    /// A turn of a stream.
    Stream(Step),
    /// A turn of the reclaimer.
    Sweep(Result<Step, Refusal>),
    /// From now on the reclaimer is one that makes so many sweeps.
    Reclaim(u32),
    /// A run of the pilot, and why it was refused.
    RunPilot(Option<Refusal>),
    /// A run of a stream.
    RunStream(Option<Refusal>),
    /// A run of the reclaimer.
    RunReclaimer(Option<Refusal>),
    /// Waits until a gate was reached.
    Await,
    /// Tells the gate that this hand was answered.
    Tell,
    /// Sends the ticket off.
    Carry,
    /// Lets the ramp go.
    EndRamp,
    /// Keeps all tickets that come.
    TakeAll,
    /// Puts, gets and deletes over and over. By this mark its contents differ from those of others.
    Rival(u8),
    /// Puts a hundred shards, of which the gate is told, and keeps their tickets.
    PutHundred,
    /// So many turns of the pilot that most have nothing to do.
    FlyOften,
    /// How many events a checkpoint replaced.
    Checkpoint(Result<u64, Refusal>),
    /// How many commands were accepted and are persistent, how many events are kept, and how many were replaced.
    Look(u64, u64, usize, u64),
    /// Hands the acks of the purse in, and forgets its calls below the base.
    Forget,
    /// Gives the sweep of an extent up.
    Abandon(usize, Result<(), Refusal>),
    /// From now on the reclaimer is one of this extent.
    ReclaimOf(usize),
    /// Puts this byte as `Put` does. Where it is refused it comes back.
    Offer(u8, Result<u64, Refusal>),
    /// Puts other bytes under one identifier a hundred times, each of which becomes persistent, with a checkpoint each
    /// time.
    Hundred,
}

/// What one thread has that calls a node.
#[derive(Drop)]
pub struct Hand<K: Naming> {
    pub alloc: Global,
    pub purse: Purse<K>,
    pub ticket: Option<Ticket<K>>,
    pub ack: Option<Ack<K>>,
    pub pilot: Option<Pilot<K>>,
    pub reclaimer: Reclaimer<K>,
    pub ramp: Option<Ramp<K>>,
    pub dock: Option<Dock<K>>,
    pub signals: Option<Signals>,
    // how many tickets it kept
    pub kept: u64,
    // how many acts were answered as they had to be
    pub acts: u64,
    // the place of the one that wasn't
    pub wrong: Option<u64>,
}

/// A hand with a new purse and nothing else.
pub fn new_hand<D: PageDisk, K: Naming, R: Wait + Abort>(
    rt: &R,
    alloc: Global,
    node: &Node<D, K>,
) -> Hand<K> {
    hand_of(alloc, node.purse(rt, alloc).expect(rt, "a purse"))
}

/// A hand with this purse and nothing else.
pub fn hand_of<K: Naming>(alloc: Global, purse: Purse<K>) -> Hand<K> {
    Hand {
        alloc,
        purse,
        ticket: None,
        ack: None,
        pilot: None,
        reclaimer: Reclaimer::new(0),
        ramp: None,
        dock: None,
        signals: None,
        kept: 0,
        acts: 0,
        wrong: None,
    }
}

/// Asserts that all acts of a hand were answered as they had to be.
pub fn is_right<K: Naming>(rt: &impl Abort, hand: &Hand<K>) {
    assert!(rt; hand.wrong == None);
}

/// Does acts up to the first one that is answered otherwise.
pub fn play<D: PageDisk, K: Naming, R: Wait, G: Gate>(
    rt: &R,
    node: &Node<D, K>,
    hand: &mut Hand<K>,
    gate: &G,
    acts: &[Act],
) {
    for act in acts {
        if !is_answered(rt, node, hand, gate, *act) {
            hand.wrong = Some(hand.acts);
            return;
        }
        hand.acts = hand.acts.saturating_add(1);
    }
}

/// Does acts, each of which has to be answered as it says.
pub fn plays<D: PageDisk, K: Naming, R: Wait + Abort, G: Gate>(
    rt: &R,
    node: &Node<D, K>,
    hand: &mut Hand<K>,
    gate: &G,
    acts: &[Act],
) {
    play(rt, node, hand, gate, acts);
    is_right(rt, hand);
}

/// Does an act, and tells whether it was answered as it says.
fn is_answered<D: PageDisk, K: Naming, R: Wait, G: Gate>(
    rt: &R,
    node: &Node<D, K>,
    hand: &mut Hand<K>,
    gate: &G,
    act: Act,
) -> bool {
    match act {
        Act::Put(last, wanted) => put(rt, node, hand, last, last) == wanted,
        Act::PutAny(last) => put(rt, node, hand, last, last).is_ok(),
        Act::PutTold(last, count, wanted) => put_told(rt, node, hand, gate, last, count) == wanted,
        Act::Get(last, wanted) => is_content(&get(rt, node, hand, last), wanted),
        Act::GetAny(last) => get(rt, node, hand, last).is_ok(),
        Act::Delete(last, wanted) => delete(rt, node, hand, last) == Ok(wanted),
        Act::Poll(wanted) => poll(node, hand) == Ok(wanted),
        Act::Settle(wanted) => settle(rt, node, hand) == wanted,
        Act::KeepTicket => keep_ticket(hand),
        Act::KeepAck(number) => keep_ack(hand, number),
        Act::Places(wanted) => are_places(hand, wanted),
        Act::Hire(given) => hire(rt, node, hand) == given,
        Act::Sync(wanted) => sync(rt, node, hand) == wanted,
        _ => is_worked(rt, node, hand, gate, act),
    }
}

/// The same for the acts of workers.
fn is_worked<D: PageDisk, K: Naming, R: Wait, G: Gate>(
    rt: &R,
    node: &Node<D, K>,
    hand: &mut Hand<K>,
    gate: &G,
    act: Act,
) -> bool {
    match act {
        Act::Fly(_) | Act::RunPilot(_) | Act::FlyOften => is_flown(rt, node, hand, gate, act),
        Act::Stream(_) | Act::RunStream(_) => is_streamed(rt, node, hand, gate, act),
        Act::Sweep(wanted) => hand.reclaimer.turn(rt, node, gate) == wanted,
        Act::Reclaim(sweeps) => {
            hand.reclaimer = Reclaimer::new(sweeps);
            true
        }
        Act::RunReclaimer(wanted) => hand.reclaimer.run(rt, node, gate).err() == wanted,
        _ => is_shared(rt, node, hand, gate, act),
    }
}

/// The same for the acts of threads beside one another.
fn is_shared<D: PageDisk, K: Naming, R: Wait, G: Gate>(
    rt: &R,
    node: &Node<D, K>,
    hand: &mut Hand<K>,
    gate: &G,
    act: Act,
) -> bool {
    match act {
        Act::Await => is_reached(hand),
        Act::Tell => tell(hand),
        Act::Carry => carry(rt, hand),
        Act::EndRamp => {
            hand.ramp = None;
            true
        }
        Act::TakeAll => take_all(rt, hand),
        Act::Rival(mark) => rival(rt, node, hand, mark),
        Act::PutHundred => put_hundred(rt, node, hand, gate),
        _ => is_settled(rt, node, hand, act),
    }
}

impl<K: Naming> Hand<K> {
    /// Takes a ticket into the hand, and tells its number.
    pub fn receive(&mut self, ticket: Ticket<K>) -> u64 {
        let number = ticket.number();
        self.ticket = Some(ticket);
        number
    }
}

/// Takes the pilot into the hand, if it is given.
fn hire<D: PageDisk, K: Naming, R: Wait>(rt: &R, node: &Node<D, K>, hand: &mut Hand<K>) -> bool {
    match node.pilot(rt) {
        Some(pilot) => {
            hand.pilot = Some(pilot);
            true
        }
        None => false,
    }
}

/// Syncs by the pilot in the hand.
pub fn sync<D: PageDisk, K: Naming, R: Wait>(
    rt: &R,
    node: &Node<D, K>,
    hand: &mut Hand<K>,
) -> Result<u64, Refusal> {
    match &mut hand.pilot {
        Some(pilot) => node.sync(rt, pilot),
        None => Err(Refusal::NotStaged),
    }
}

/// The same for the acts of the pilot in the hand.
fn is_flown<D: PageDisk, K: Naming, R: Wait, G: Gate>(
    rt: &R,
    node: &Node<D, K>,
    hand: &mut Hand<K>,
    gate: &G,
    act: Act,
) -> bool {
    let Some(mut pilot) = hand.pilot.take() else {
        return false;
    };
    let answered = match act {
        Act::Fly(wanted) => pilot.turn(rt, node, gate) == Ok(wanted),
        Act::RunPilot(wanted) => pilot.run(rt, node, gate).err() == wanted,
        _ => fly_often(rt, node, &mut pilot, gate),
    };
    hand.pilot = Some(pilot);
    answered
}

/// The same for the acts of a stream with the pilot in the hand.
fn is_streamed<D: PageDisk, K: Naming, R: Wait, G: Gate>(
    rt: &R,
    node: &Node<D, K>,
    hand: &mut Hand<K>,
    gate: &G,
    act: Act,
) -> bool {
    let Some(pilot) = hand.pilot.take() else {
        return false;
    };
    let mut stream = Stream::new(pilot);
    let answered = match act {
        Act::Stream(wanted) => stream.turn(rt, node, gate) == Ok(wanted),
        Act::RunStream(wanted) => stream.run(rt, node, gate).err() == wanted,
        _ => false,
    };
    hand.pilot = Some(stream.into_pilot());
    answered
}

/// Waits until the gate was reached.
fn is_reached<K: Naming>(hand: &Hand<K>) -> bool {
    match &hand.signals {
        Some(signals) => is_raised(&signals.reached),
        None => false,
    }
}

/// Tells the gate that this hand was answered.
fn tell<K: Naming>(hand: &Hand<K>) -> bool {
    match &hand.signals {
        Some(signals) => {
            signals.answered.store(1, Ordering::SeqCst);
            true
        }
        None => false,
    }
}

/// Sends the ticket off.
fn carry<K: Naming, R: Wait>(rt: &R, hand: &mut Hand<K>) -> bool {
    let Some(ticket) = hand.ticket.take() else {
        return false;
    };
    match &hand.ramp {
        Some(ramp) => ramp.carry(rt, ticket).is_ok(),
        None => false,
    }
}

/// Keeps all tickets that come.
fn take_all<K: Naming, R: Wait>(rt: &R, hand: &mut Hand<K>) -> bool {
    for _ in rt.forever() {
        hand.ticket = next_of(rt, hand);
        if !keep_ticket(hand) {
            break;
        }
    }
    true
}

/// The next ticket that comes.
fn next_of<K: Naming, R: Wait>(rt: &R, hand: &Hand<K>) -> Option<Ticket<K>> {
    match &hand.dock {
        Some(dock) => dock.next(rt),
        None => None,
    }
}

/// Puts, gets and deletes three shards over and over, and keeps the tickets.
fn rival<D: PageDisk, K: Naming, R: Wait>(
    rt: &R,
    node: &Node<D, K>,
    hand: &mut Hand<K>,
    mark: u8,
) -> bool {
    for turn in 0..12u8 {
        let content = mark | turn;
        let _number = put(rt, node, hand, content % 3, content);
        keep_ticket(hand);
        let _found = get(rt, node, hand, content % 2);
        let _deleted = delete(rt, node, hand, content % 2);
        keep_ticket(hand);
    }
    true
}

/// Puts a hundred shards with a gate, and keeps their tickets.
fn put_hundred<D: PageDisk, K: Naming, R: Wait, G: Gate>(
    rt: &R,
    node: &Node<D, K>,
    hand: &mut Hand<K>,
    gate: &G,
) -> bool {
    for last in 0..100u8 {
        let _number = put_told(rt, node, hand, gate, last, 1);
        keep_ticket(hand);
    }
    true
}

/// Takes so many turns of the pilot that most have nothing to do.
fn fly_often<D: PageDisk, K: Naming, R: Wait, G: Gate>(
    rt: &R,
    node: &Node<D, K>,
    pilot: &mut Pilot<K>,
    gate: &G,
) -> bool {
    for _ in 0..20_000 {
        if pilot.turn(rt, node, gate).is_err() {
            return false;
        }
        thread::yield_now();
    }
    true
}

impl<K: Naming> Hand<K> {
    /// Its purse. All else is let go.
    pub fn into_purse(self) -> Purse<K> {
        self.purse
    }
}

/// A hand that does these acts in a thread.
#[derive(Drop)]
pub struct Player<K: Naming, G> {
    pub hand: Hand<K>,
    pub gate: G,
    pub acts: &'static [Act],
}

impl<D: PageDisk + Send, K: Naming + Send + Sync, G: Gate + Send + Drop> Job<Node<D, K>>
    for Player<K, G> {
    type Out = Hand<K>;

    fn run<R: Wait>(self, rt: &R, node: &Node<D, K>) -> Hand<K> {
        let Player {
            mut hand,
            gate,
            acts,
        } = self;
        play(rt, node, &mut hand, &gate, acts);
        hand
    }
}

//! What one thread was told, and what it asks without the lock.
ghost use Rattle.std.specs.Prelude.{◌≡◌, ◌≤◌, ◌↔◌, [], IfErr, IfOk, IsTrue, OnOk, map, max};
ghost use Rattle.cs_core.specs.declared.events.Event.{Event};
ghost use Rattle.cs_core.specs.declared.events.Reply.{Reply};
ghost use Rattle.cs_node.specs.Mirror.{knows};
ghost use Rattle.cs_node.specs.Numbers.{Gains, Within};
ghost use Rattle.cs_node.specs.Told.{Adds, Holdings, Rising, empty, floor_of, from_place, told_by};
ghost use Rattle.cs_node.specs.Answers.{Tells};
ghost use Rattle.cs_node.specs.Behind.{IsFrontierOfSome};

use crate::boards::{Naming, Reader};
use crate::logs::{Call, Log, places_of};
use crate::nodes::Node;
use crate::numbers::Numbers;
use crate::stretches::Stretch;
use crate::tickets::{Ack, Ticket};
use cs_disk::PageDisk;
use std::alloc::{AllocError, Global};
use std::marker::{Model, PhantomData};

/// The calls of a thread, with its tickets and acks. Contracts see these, but for the calls that it forgot, and up to
/// which command it was told that all are persistent. They also see the view of its seat at the board: the number that
/// it last saw there, at first what the keeper's seat knew.
///
/// Tickets and acks take the room of one if their numbers follow one another. Calls take the room of their bytes until
/// they are forgotten.
#[derive(Drop)]
pub struct Purse<K: Naming> {
    pub(crate) log: Log,
    pub(crate) tickets: Numbers,
    pub(crate) acks: Numbers,
    pub(crate) reader: Reader,
    pub(crate) of: PhantomData<K>,
}

impl<K: Naming> Model for Purse<K> {
    ghost use Rattle.std.specs.Prelude.{◌≡◌, []};
    ghost use Rattle.cs_node.specs.Mirror.{knows};
    ghost use Rattle.cs_node.specs.Told.{Holdings};

    ghost Value = { Holdings };

    ghost view = { λ p. record { calls = p.log.calls; tickets = p.tickets; acks = p.acks; floor = p.log.floor; seen = p.reader.me.0.number } };

    ghost invariant = { λ p. (p.reader.table_id ≡ K.table) × (p.reader.me ≡ (knows K.start p.reader.me.0.number, [])) };
}

impl<K: Naming> Purse<K> {
    pub(crate) fn new(alloc: Global, reader: Reader) -> Self
        requires { (reader.table_id ≡ K.table) × (reader.me ≡ (knows K.start reader.me.0.number, [])) }
        ensures { result ≡ empty reader.me.0.number }
    {
        Purse {
            log: Log::new(alloc),
            tickets: Numbers::new(alloc),
            acks: Numbers::new(alloc),
            reader,
            of: PhantomData,
        }
    }

    /// The places of its calls in the node's history, from 0, rising, but for the calls that it forgot.
    pub fn places(&self, alloc: Global) -> Result<Vec<u64>, AllocError>
        ensures places { IfOk result (λ places. places.items ≡ map (λ c. c.place) self.now.calls) }
        ensures rising { Rising self.now.calls }
    {
        places_of(alloc, self.log.calls())
    }

    /// Its calls, the first one first, but for those that it forgot.
    pub fn calls(&self) -> &[Call]
        ensures calls { result.now ≡ self.now.calls }
        ensures floor { floor_of self.now.calls ≤ self.now.floor }
    {
        self.log.calls()
    }

    /// Up to which command it was told that all are persistent: the greatest number that a call told of, also a
    /// forgotten one.
    pub fn floor(&self) -> u64
        ensures { result ≡ self.now.floor }
    {
        self.log.floor()
    }

    /// Forgets its calls at places below this one: with the base of `Node::look`, those of events that checkpoints
    /// replaced. With a greater number it forgets calls that `Rest::close` asks for, which is refused then.
    pub fn forget(&mut self, base: u64)
        ensures { self.new ≡ record self.old { calls = from_place base self.old.calls } }
    {
        self.log.forget(base);
    }

    /// The numbers of its tickets.
    pub fn tickets(&self) -> &[Stretch]
        ensures { result.now ≡ self.now.tickets }
    {
        self.tickets.stretches()
    }

    /// The numbers of its acks, but for those that it handed in.
    pub fn acks(&self) -> &[Stretch]
        ensures { result.now ≡ self.now.acks }
    {
        self.acks.stretches()
    }

    /// Whether none of its acks is above this number.
    pub(crate) fn has_acks_within(&self, most: u64) -> bool
        ensures { IsTrue result ↔ Within most self.now.acks }
    {
        self.acks.is_within(most)
    }

    /// Puts a ticket in, or returns it if there is no memory.
    pub fn keep_ticket(&mut self, ticket: Ticket<K>) -> Result<(), Ticket<K>>
        ensures ok { OnOk result (Gains ticket self.old.tickets self.new.tickets) }
        ensures others { OnOk result (self.new ≡ record self.old { tickets = self.new.tickets }) }
        ensures err { IfErr result (λ t. (t ≡ ticket) × (self.new ≡ self.old)) }
    {
        match self.tickets.add(ticket.number()) {
            Ok(()) => Ok(()),
            Err(_) => Err(ticket),
        }
    }

    /// Puts an ack in, or returns it if there is no memory.
    pub fn keep_ack(&mut self, ack: Ack<K>) -> Result<(), Ack<K>>
        ensures ok { OnOk result (Gains ack self.old.acks self.new.acks) }
        ensures others { OnOk result (self.new ≡ record self.old { acks = self.new.acks }) }
        ensures err { IfErr result (λ a. (a ≡ ack) × (self.new ≡ self.old)) }
    {
        match self.acks.add(ack.number()) {
            Ok(()) => Ok(()),
            Err(_) => Err(ack),
        }
    }
}

/// The greatest number that a purse was told of never falls with a call, and is no less than what the call told of.
pub fn the_floor_rises()
    ensures { (old new : Holdings) (e : Event) (r : Reply) → Adds old e r new → (old.floor ≤ new.floor) × (told_by e r ≤ new.floor) }
{}

/// What a poll answers: an ack, or the ticket with the number of the last command that is known to be persistent.
#[derive(Drop)]
pub enum Polled<K: Naming> {
    Done(Ack<K>),
    Back(Ticket<K>, u64),
}

impl<K: Naming> Purse<K> {
    /// Whether a command is known to be persistent, by the board or by what the purse's calls told. It takes no lock
    /// and no memory, waits for nobody, and loads one word.
    pub fn poll<D: PageDisk>(&mut self, node: &Node<D, K>, ticket: Ticket<K>) -> Polled<K>
        ensures told { Tells (max self.new.seen self.old.floor) ticket result }
        ensures later { self.old.seen ≤ self.new.seen }
        ensures frontier { IsFrontierOfSome D.PageDisk K.start self.new.seen }
        ensures same { self.new ≡ record self.old { seen = self.new.seen } }
    {
        let word = node.board.look(&mut self.reader);
        let known = word.max(self.log.floor());
        if ticket.number() <= known {
            Polled::Done(ticket.into_ack())
        } else {
            Polled::Back(ticket, known)
        }
    }
}

//! Receipts for accepted and for persistent commands, and how tickets go from thread to thread.
ghost use Rattle.std.specs.Prelude.{◌≡◌, ◌≤◌, IfErr};

use crate::boards::Naming;
use crossbeam_channel::{Receiver, SendError, Sender, bounded};
use std::alloc::{AllocError, Global};
use std::marker::{Model, PhantomData};
use std::sync::Wait;

/// For an accepted command. Contracts see its number. It can't be copied.
#[derive(Drop)]
pub struct Ticket<K: Naming> {
    number: u64,
    of: PhantomData<K>,
}

impl<K: Naming> Model for Ticket<K> {
    ghost use Rattle.std.specs.Prelude.{ℕ, ◌≤◌};

    ghost Value = { ℕ };

    ghost view = { λ t. t.number };

    ghost invariant = { λ t. 1 ≤ t.number };
}

/// For a persistent command. Contracts see its number. It can't be copied.
#[derive(Drop)]
pub struct Ack<K: Naming> {
    number: u64,
    of: PhantomData<K>,
}

impl<K: Naming> Model for Ack<K> {
    ghost use Rattle.std.specs.Prelude.{ℕ, ◌≤◌};

    ghost Value = { ℕ };

    ghost view = { λ a. a.number };

    ghost invariant = { λ a. 1 ≤ a.number };
}

impl<K: Naming> Ticket<K> {
    pub(crate) fn new(number: u64) -> Self
        requires { 1 ≤ number }
        ensures { result ≡ number }
    {
        Ticket {
            number,
            of: PhantomData,
        }
    }

    /// The command's number among those accepted since the core was opened, from 1.
    pub fn number(&self) -> u64
        ensures number { result ≡ self.now }
        ensures positive { 1 ≤ result }
    {
        self.number
    }

    pub(crate) fn into_ack(self) -> Ack<K>
        ensures { result ≡ self }
    {
        let Ticket { number, of: _ } = self;
        Ack {
            number,
            of: PhantomData,
        }
    }
}

impl<K: Naming> Ack<K> {
    /// The command's number among those accepted since the core was opened, from 1.
    pub fn number(&self) -> u64
        ensures number { result ≡ self.now }
        ensures positive { 1 ≤ result }
    {
        self.number
    }
}

/// Takes tickets in.
#[derive(Drop)]
pub struct Ramp<K: Naming> {
    sender: Sender<Ticket<K>>,
}

/// Hands tickets out.
#[derive(Drop)]
pub struct Dock<K: Naming> {
    receiver: Receiver<Ticket<K>>,
}

/// A channel for tickets that holds so many of them. A ticket that is lost in it is missing when the node is closed.
pub fn ferry<K: Naming>(alloc: Global, capacity: usize) -> Result<(Ramp<K>, Dock<K>), AllocError>
    requires { (1 ≤ capacity) × (capacity ≤ 1024) }
{
    let (sender, receiver) = bounded(alloc, capacity)?;
    Ok((Ramp { sender }, Dock { receiver }))
}

impl<K: Naming> Ramp<K> {
    /// Another ramp to the same dock.
    pub fn another(&self) -> Result<Ramp<K>, AllocError> {
        let sender = self.sender.clone()?;
        Ok(Ramp { sender })
    }

    /// Sends a ticket. It waits while the channel is full. The ticket comes back if the dock is gone or memory was
    /// refused.
    pub fn carry<R: Wait>(&self, rt: &R, ticket: Ticket<K>) -> Result<(), Ticket<K>>
        ensures { IfErr result (λ t. t ≡ ticket) }
    {
        match self.sender.send(rt, ticket) {
            Ok(()) => Ok(()),
            Err(SendError::Disconnected(back)) => Err(back),
            Err(SendError::OutOfMemory(back)) => Err(back),
        }
    }
}

impl<K: Naming> Dock<K> {
    /// The next ticket, for which it waits, or None once no ramp is left and none is in the channel.
    pub fn next<R: Wait>(&self, rt: &R) -> Option<Ticket<K>> {
        self.receiver.recv(rt).ok()
    }
}

//! Events of clients, under the lock.
ghost use Rattle.std.specs.Prelude.{◌≡◌, ◌≢◌, ◌⊎◌, ◌-◌, ◌^◌, ◌<◌, ◌≤◌, IfErr, IfOk, MatchResult, OnOk, length, true};
ghost use Rattle.cs_core.specs.Replies.{MayAnswer};
ghost use Rattle.cs_core.specs.Views.{IsStep};
ghost use Rattle.cs_node.specs.Answers.{Gets, Settles, deleted};
ghost use Rattle.cs_node.specs.Locks.{Declines, IsAnswered, IsCallRefused, IsGot, IsSettledBy};
ghost use Rattle.cs_node.specs.Told.{Adds, Below, Refuses};

use crate::boards::{NamedBoard, Naming};
use crate::gates::Gate;
use crate::locked::Engine;
use crate::logs::Log;
use crate::nodes::{Settled, Why};
use crate::purses::Purse;
use crate::tickets::Ticket;
use cs_core::{Bytes, Event, Reply};
use cs_disk::PageDisk;
use cs_frame::ShardId;
use cs_refusal::Refusal;

impl<D: PageDisk, K: Naming> Engine<D, K> {
    /// Does one event for a purse, which has room for the call then. Returns its place and its reply. After 9
    /// `OutOfMemory` or 41 `HistoryFull` nothing is recorded.
    fn ask<G: Gate>(
        &mut self,
        board: &NamedBoard<D, K>,
        log: &mut Log,
        event: &Event,
        gate: &G,
    ) -> Result<(u64, Reply), Refusal>
        requires fresh { self.old.fresh ≡ true }
        ensures step { IfOk result (λ told. IsStep D.PageDisk self.old.core event.now told.1 self.new.core) }
        ensures place { IfOk result (λ told. told.0 ≡ length self.old.core.history) }
        ensures answers { IfOk result (λ told. MayAnswer event.now told.1) }
        ensures above { IfOk result (λ told. Below told.0 log.old.calls × (told.0 < 2 ^ 64 - 1)) }
        ensures recorded { IfOk result (λ told. told.1 ≢ Reply.Refused Refusal.HistoryFull) }
        ensures room { OnOk result (1 ≤ log.new.room) }
        ensures calls { log.new.calls ≡ log.old.calls }
        ensures floor { log.new.floor ≡ log.old.floor }
        ensures err { IfErr result (λ r. (r ≡ Refusal.OutOfMemory) ⊎ (r ≡ Refusal.HistoryFull)) }
        ensures declined { IfErr result (λ r. Declines D.PageDisk self.old.core event.now r self.new.core) }
    {
        let place = self.place();
        if !log.is_above(place) || log.reserve().is_err() {
            return Err(Refusal::OutOfMemory);
        }
        let reply = self.record(board, event, gate)?;
        Ok((place, reply))
    }

    /// Keeps bytes under an identifier.
    pub fn put<G: Gate>(
        &mut self,
        board: &NamedBoard<D, K>,
        purse: &mut Purse<K>,
        id: ShardId,
        bytes: Bytes,
        gate: &G,
    ) -> Result<Ticket<K>, Refusal>
        requires fresh { self.old.fresh ≡ true }
        ensures ok { IfOk result (λ ticket. Adds purse.old (Event.Put id bytes) (Reply.Accepted ticket) purse.new) }
        ensures err { IfErr result (λ r. Refuses purse.old (Event.Put id bytes) r purse.new) }
        ensures step { IsAnswered D.PageDisk self.old.core purse.old (Event.Put id bytes) (λ n. Reply.Accepted n) result self.new.core purse.new }
    {
        let event = Event::Put(id, bytes);
        let (place, reply) = self.ask(board, &mut purse.log, &event, gate)?;
        match reply {
            Reply::Accepted(number) => {
                purse.log.push(place, event, Reply::Accepted(number));
                Ok(Ticket::new(number))
            }
            Reply::Refused(refusal) => {
                purse.log.push(place, event, Reply::Refused(refusal));
                Err(refusal)
            }
            _ => unreachable!(),
        }
    }

    /// Reads what is under an identifier.
    pub fn get<G: Gate>(
        &mut self,
        board: &NamedBoard<D, K>,
        purse: &mut Purse<K>,
        id: ShardId,
        gate: &G,
    ) -> Result<bool, Refusal>
        requires fresh { self.old.fresh ≡ true }
        ensures ok { IfOk result (λ there. Gets purse.old id there purse.new) }
        ensures err { IfErr result (λ r. Refuses purse.old (Event.Get id) r purse.new) }
        ensures step { MatchResult result (λ there. IsGot D.PageDisk self.old.core purse.old id there self.new.core purse.new) (λ r. IsCallRefused D.PageDisk self.old.core purse.old (Event.Get id) r self.new.core purse.new) }
    {
        let event = Event::Get(id);
        let (place, reply) = self.ask(board, &mut purse.log, &event, gate)?;
        match reply {
            Reply::Found(bytes) => {
                purse.log.push(place, event, Reply::Found(bytes));
                Ok(true)
            }
            Reply::Absent => {
                purse.log.push(place, event, Reply::Absent);
                Ok(false)
            }
            Reply::Refused(refusal) => {
                purse.log.push(place, event, Reply::Refused(refusal));
                Err(refusal)
            }
            _ => unreachable!(),
        }
    }

    /// Deletes an identifier.
    pub fn delete<G: Gate>(
        &mut self,
        board: &NamedBoard<D, K>,
        purse: &mut Purse<K>,
        id: ShardId,
        gate: &G,
    ) -> Result<Option<Ticket<K>>, Refusal>
        requires fresh { self.old.fresh ≡ true }
        ensures ok { IfOk result (λ ticket. Adds purse.old (Event.Delete id) (deleted ticket) purse.new) }
        ensures err { IfErr result (λ r. Refuses purse.old (Event.Delete id) r purse.new) }
        ensures step { IsAnswered D.PageDisk self.old.core purse.old (Event.Delete id) deleted result self.new.core purse.new }
    {
        let event = Event::Delete(id);
        let (place, reply) = self.ask(board, &mut purse.log, &event, gate)?;
        match reply {
            Reply::Accepted(number) => {
                purse.log.push(place, event, Reply::Accepted(number));
                Ok(Some(Ticket::new(number)))
            }
            Reply::Absent => {
                purse.log.push(place, event, Reply::Absent);
                Ok(None)
            }
            Reply::Refused(refusal) => {
                purse.log.push(place, event, Reply::Refused(refusal));
                Err(refusal)
            }
            _ => unreachable!(),
        }
    }

    /// Asks whether a command is persistent.
    pub fn settle<G: Gate>(
        &mut self,
        board: &NamedBoard<D, K>,
        purse: &mut Purse<K>,
        ticket: Ticket<K>,
        gate: &G,
    ) -> Settled<K>
        requires fresh { self.old.fresh ≡ true }
        ensures told { Settles purse.old ticket result purse.new }
        ensures step { IsSettledBy D.PageDisk self.old.core purse.old ticket result self.new.core purse.new }
    {
        let event = Event::Settle(ticket.number());
        match self.ask(board, &mut purse.log, &event, gate) {
            Ok((place, Reply::Persistent)) => {
                purse.log.push(place, event, Reply::Persistent);
                Settled::Done(ticket.into_ack())
            }
            Ok((place, Reply::NotYet(frontier))) => {
                purse.log.push(place, event, Reply::NotYet(frontier));
                Settled::Back(ticket, Why::NotYet(frontier))
            }
            Err(Refusal::HistoryFull) => Settled::Back(ticket, Why::HistoryFull),
            Err(Refusal::OutOfMemory) => Settled::Back(ticket, Why::OutOfMemory),
            _ => unreachable!(),
        }
    }
}

//! Who writes back.
ghost use Rattle.std.specs.Prelude.{◌≡◌, ◌≤◌, [], IfErr, IfOk, IfSome, MatchResult};
ghost use Rattle.cs_core.specs.Checkpoints.{IsNotReplaced, Replaces};
ghost use Rattle.cs_node.specs.Behind.{IsFrontierOfSome};
ghost use Rattle.cs_node.specs.Dues.{IsSyncRefused, IsTurn, IsTurnRefused, Syncs};
ghost use Rattle.cs_node.specs.Locks.{WhileLocked};
ghost use Rattle.cs_node.specs.Mirror.{knows};

use crate::boards::{NamedBoard, Naming, Reader};
use crate::gates::{Gate, Step};
use crate::nodes::Node;
use cs_disk::PageDisk;
use cs_refusal::Refusal;
use std::marker::{Model, PhantomData};
use std::sync::Wait;
use std::thread;

/// Does a node's writeback. There is one. Contracts see the view of its seat at the board: the number that it last saw
/// there, at first what the keeper's seat knew.
#[derive(Drop)]
pub struct Pilot<K: Naming> {
    reader: Reader,
    of: PhantomData<K>,
}

impl<K: Naming> Model for Pilot<K> {
    ghost use Rattle.std.specs.Prelude.{ℕ, ◌≡◌, []};
    ghost use Rattle.cs_node.specs.Mirror.{knows};

    ghost Value = { ℕ };

    ghost view = { λ p. p.reader.me.0.number };

    ghost invariant = { λ p. (p.reader.table_id ≡ K.table) × (p.reader.me ≡ (knows K.start p.reader.me.0.number, [])) };
}

impl<K: Naming> Pilot<K> {
    pub(crate) fn new(reader: Reader) -> Self
        requires { (reader.table_id ≡ K.table) × (reader.me ≡ (knows K.start reader.me.0.number, [])) }
        ensures { result ≡ reader.me.0.number }
    {
        Pilot {
            reader,
            of: PhantomData,
        }
    }

    /// Loads the word of the board, which the seat's view is then.
    fn see<D: PageDisk>(&mut self, board: &NamedBoard<D, K>) -> u64
        ensures seen { self.new ≡ result }
        ensures later { self.old ≤ result }
        ensures frontier { IsFrontierOfSome D.PageDisk K.start result }
    {
        board.look(&mut self.reader)
    }

    /// Does the event of writeback that is due, under one lock. A round that is out goes on and ends; else a new one
    /// begins if something waits; else what the index has changed is staged, or a root alone if a sweep that was given
    /// up left copies; else there is nothing to do.
    ///
    /// The refusals are those of the event, and 9 `OutOfMemory`.
    pub fn turn<D: PageDisk, G: Gate, R: Wait>(
        &mut self,
        rt: &R,
        node: &Node<D, K>,
        gate: &G,
    ) -> Result<Step, Refusal>
        ensures turn { WhileLocked D.PageDisk K.start (λ old new. IsTurn D.PageDisk old result new) }
        ensures seen { self.new ≡ self.old }
    {
        node.lock.take(rt).engine.turn(&node.board, gate)
    }

    /// Takes turns until the gate ends it or a turn is refused. It yields if there is nothing to do.
    pub fn run<D: PageDisk, G: Gate, R: Wait>(
        &mut self,
        rt: &R,
        node: &Node<D, K>,
        gate: &G,
    ) -> Result<(), Refusal>
        ensures ok { IfOk result (λ _. G.ended gate.now) }
        ensures err { IfErr result (λ r. WhileLocked D.PageDisk K.start (λ old new. IsTurnRefused D.PageDisk old r new)) }
        ensures seen { self.new ≡ self.old }
    {
        for _ in rt.forever() {
            if !gate.before() {
                return Ok(());
            }
            if self.turn(rt, node, gate)? == Step::Idle {
                thread::yield_now();
            }
        }
        unreachable!()
    }
}

impl<D: PageDisk, K: Naming> Node<D, K> {
    /// Replaces the events that are kept by the state that they led to, and drops their bytes. Returns how many they
    /// were. Puts, gets, deletes, settles and sweeps that were refused 41 `HistoryFull` are taken again. `look` says
    /// the base then, below which purses may forget their calls. It takes no memory, and time for each event, under the
    /// lock.
    ///
    /// 40 `Halted`. Then 44 `Unsettled` if something waits, a round is out, the index has changes that aren't staged,
    /// or an extent is being swept: turns of the pilot up to an idle one and the end of the sweeps mend that. Then 35
    /// `WornOut` after 2^63 - 1 events.
    pub fn checkpoint<R: Wait>(&self, rt: &R, pilot: &mut Pilot<K>) -> Result<u64, Refusal>
        ensures replaced { WhileLocked D.PageDisk K.start (λ old new. MatchResult result (λ n. Replaces old n new) (λ r. IsNotReplaced old r × (new ≡ old))) }
        ensures seen { pilot.new ≡ pilot.old }
    {
        let _ = pilot;
        self.lock.take(rt).engine.checkpoint()
    }

    /// The pilot, whose seat sees the frontier of that moment, or None if it was given out before.
    pub fn pilot<R: Wait>(&self, rt: &R) -> Option<Pilot<K>>
        ensures { IfSome result (λ pilot. WhileLocked D.PageDisk K.start (λ old new. (pilot ≡ old.store.frontier) × (new ≡ old))) }
    {
        self.lock.take(rt).hire(&self.board)
    }

    /// Stages what there is to stage, and writes back until all commands that were accepted by then are persistent:
    /// first what is left of the round that is out, and then round by round, each event under a lock of its own.
    /// Returns how many are persistent by the board, as the pilot's seat saw it. If all were persistent already, a root
    /// that it staged waits for the pilot's next turns.
    ///
    /// The refusals are those of its events, and 9 `OutOfMemory`. The events before a refusal stand.
    pub fn sync<R: Wait>(&self, rt: &R, pilot: &mut Pilot<K>) -> Result<u64, Refusal>
        ensures ok { IfOk result (λ frontier. (frontier ≡ pilot.new) × Syncs D.PageDisk K.start frontier) }
        ensures later { pilot.old ≤ pilot.new }
        ensures frontier { IfOk result (λ frontier. IsFrontierOfSome D.PageDisk K.start frontier) }
        ensures err { IfErr result (λ r. WhileLocked D.PageDisk K.start (λ old new. IsSyncRefused D.PageDisk old r new)) }
    {
        let target = self.lock.take(rt).engine.stage(&self.board)?;
        for _ in rt.forever() {
            let frontier = pilot.see(&self.board);
            if target <= frontier {
                return Ok(frontier);
            }
            self.lock.take(rt).engine.advance(&self.board, target)?;
        }
        unreachable!()
    }
}

//! Puts and deletes, and the room for further events that they make.
ghost use Rattle.std.specs.Prelude.{◌↔◌, ◌∷◌, ◌≡◌, ◌≤◌, ◌⊎◌, Err, IfErr, IfOk, IfSome, MatchOption, MatchResult, None, OnOk, Some, [], length, suc, true};
ghost use Rattle.cs_core.specs.Meanings.{command_said};
ghost use Rattle.cs_core.specs.Prefixes.{IsPrefixBetween, IsPrefixOf};
ghost use Rattle.cs_core.specs.Replies.{MayAnswer, MayRefuse};
ghost use Rattle.cs_core.specs.declared.events.Event.TheVariants.{Delete, Put};
ghost use Rattle.cs_core.specs.declared.events.Reply.TheVariants.{Absent, Accepted};
ghost use Rattle.cs_disk.specs.Disk.{Leaves, LeavesOnly};
ghost use Rattle.cs_index.specs.State.{id_number};
ghost use Rattle.cs_inspect.specs.Choices.{ReadsOn};
ghost use Rattle.cs_store.specs.Errors.{IsDeleteRefusal, IsPutRefusal, delete_refusal, put_refusal};
ghost use Rattle.cs_store.specs.Events.{Declines, DeclinesCopy, Does, DoesFrom, IsHalted};
ghost use Rattle.cs_store.specs.Maps.{Accepts, HasMap};
ghost use Rattle.cs_store.specs.Reserves.{IsReserved, PutsAfterReads, PutsWithin, RefusesPut};
ghost use Rattle.cs_store.specs.Rooms.{Empties, HasNoRoom, IsMadeReady, IsNoRoom, IsSweeping, StaysFull, room_refusal};
ghost use Rattle.cs_writeback.specs.Histories.{IsNoRefusal};
ghost use Rattle.cs_writeback.specs.Runs.{Ran};
ghost use Rattle.law_machine.specs.Element.{Map};
ghost use Rattle.law_machine.specs.State.{changed};

use crate::errors::{DeleteError, PutError};
use crate::reserves::{Reserve, heed};
use crate::stores::Store;
use cs_disk::PageDisk;
use cs_frame::ShardId;
use cs_mount::the_core::{Bytes, Core, Event, Reply};
use cs_refusal::Refusal;
use cs_writeback::{ask, make_room, sync};
use std::alloc::{AllocError, Global};

/// A copy of these bytes.
fn copy_of(alloc: Global, bytes: &[u8]) -> Result<Bytes, AllocError>
    ensures { IfOk result (λ copy. copy ≡ bytes.now) }
{
    let copy = Vec::from_slice(alloc, bytes)?;
    Bytes::new(alloc, copy)
}

impl<D: PageDisk> Store<D> {
    /// Keeps these bytes under an identifier, in place of what was there, and gives the number that the put has among
    /// the commands accepted since the store was opened. It is persistent once `sync` answers that number or a greater
    /// one, and a crash before may lose it.
    ///
    /// The bytes are copied once, and staged in memory. Most puts ask the disk for nothing. If as many events are kept
    /// as may be, all that was accepted is made persistent first, as by `sync`.
    ///
    /// It goes by the reserve of the store (`reserve`). If more pages may live with a new identifier than the reserve
    /// leaves, as far as is known without a look, it looks as `put_within` does. That is rare: the store counts what it
    /// puts.
    ///
    /// Refused 31 TooLarge, 36 Reserved, 32 IndexFull, 30 Full, 35 WornOut, 40 Halted, 9 OutOfMemory; 1 DeviceFault from
    /// that sync; and 41 HistoryFull where as many events are kept as may be and an extent is being swept still. The map
    /// is as it was then.
    pub fn put(&mut self, id: ShardId, bytes: &[u8]) -> Result<u64, PutError>
        // It is done after reads at most.
        ensures done { IfOk result (λ n. PutsAfterReads D.PageDisk self.old id bytes.now n self.new) }
        ensures refused { IfErr result (λ error. RefusesPut D.PageDisk self.old id bytes.now (put_refusal error) self.new) }
        // It is refused 36 only by a reserve, and never if something is under the identifier.
        ensures reserved { IfErr result (λ error. error ≡ PutError.Reserved → (held : Reserve) × IsReserved D.PageDisk held id (length bytes.now) self.old self.new) }
        // So nothing but reads was done then.
        ensures kept { IfErr result (λ error. error ≡ PutError.Reserved → ReadsOn D.PageDisk self.old self.new) }
        // A halted store refuses it, and nothing is asked of the core: no event more is kept.
        ensures halted { self.old.store.halted ≡ true → (result ≡ Err PutError.Halted) × (self.new ≡ self.old) }
        // It is refused 41 only where no event may be kept at all, or an extent is being swept.
        ensures full { D.honest self.old.disk → IfErr result (λ error. error ≡ PutError.HistoryFull → HasNoRoom self.new) }
        ensures number { D.honest self.old.disk → IfOk result (λ n. n ≡ suc self.old.store.accepted) }
        ensures accepted { IfOk result (λ n. self.new.store.accepted ≡ n) }
        // It alone was accepted where it is done, and nothing where it is refused.
        ensures accepts { MatchResult result (λ _. Accepts D.PageDisk ((id_number id, Some bytes.now) ∷ []) self.old self.new) (λ _. Accepts D.PageDisk [] self.old self.new) }
        ensures map { (m : Map) → HasMap self.old m → MatchResult result (λ _. HasMap self.new (changed m (id_number id, Some bytes.now))) (λ _. HasMap self.new m) }
        // It is made of calls of the core, one after another.
        ensures ran { Ran D.PageDisk self.old self.new }
        ensures rises { self.old.store.frontier ≤ self.new.store.frontier }
        // A crash at any moment of it leaves the map after some of the commands, none of those left out that were
        // persistent before.
        ensures crash { D.honest self.old.disk → LeavesOnly D.moment D.left_since self.old.disk self.new.disk (IsPrefixBetween self.old self.new) }
        // A crash after it does so for the commands and the frontier then.
        ensures left { D.honest self.new.disk → Leaves (D.state self.new.disk) (IsPrefixOf self.new) }
        ensures honest { D.honest self.old.disk ↔ D.honest self.new.disk }
    {
        let reserve = self.held.reserve_for(self.core.extents(), bytes.len());
        self.put_within(reserve, id, bytes)
    }

    /// Keeps these bytes under an identifier, as `put` does, by this reserve in place of the store's.
    ///
    /// If the reserve holds something back and nothing is under the identifier, it looks first: it reads the first page
    /// of each live chunk of which the store doesn't know the length, and takes memory for a list of all chunks. A chunk
    /// whose header can't be read doesn't count as live.
    ///
    /// Refused 40 Halted before anything is read. A shard that has too many bytes is refused 31 TooLarge and not 36. The
    /// other refusals are those of `put`. Memory that the look is refused is 9 OutOfMemory too, with nothing but reads
    /// done.
    pub fn put_within(
        &mut self,
        reserve: Reserve,
        id: ShardId,
        bytes: &[u8],
    ) -> Result<u64, PutError>
        // It is done after reads at most.
        ensures done { IfOk result (λ n. PutsAfterReads D.PageDisk self.old id bytes.now n self.new) }
        // By these reads no more pages live with it than the reserve leaves. Or nothing is held back, or something was
        // under the identifier, and nothing was read.
        ensures within { IfOk result (λ n. PutsWithin D.PageDisk reserve self.old id bytes.now n self.new) }
        ensures refused { IfErr result (λ error. RefusesPut D.PageDisk self.old id bytes.now (put_refusal error) self.new) }
        // It is refused 36 only if more pages would live than the reserve leaves, and never if something is under the
        // identifier.
        ensures reserved { IfErr result (λ error. error ≡ PutError.Reserved → IsReserved D.PageDisk reserve id (length bytes.now) self.old self.new) }
        // So nothing but reads was done then.
        ensures kept { IfErr result (λ error. error ≡ PutError.Reserved → ReadsOn D.PageDisk self.old self.new) }
        // A halted store refuses it, and nothing is asked of the core: no event more is kept.
        ensures halted { self.old.store.halted ≡ true → (result ≡ Err PutError.Halted) × (self.new ≡ self.old) }
        // It is refused 41 only where no event may be kept at all, or an extent is being swept.
        ensures full { D.honest self.old.disk → IfErr result (λ error. error ≡ PutError.HistoryFull → HasNoRoom self.new) }
        ensures number { D.honest self.old.disk → IfOk result (λ n. n ≡ suc self.old.store.accepted) }
        ensures accepted { IfOk result (λ n. self.new.store.accepted ≡ n) }
        // It alone was accepted where it is done, and nothing where it is refused.
        ensures accepts { MatchResult result (λ _. Accepts D.PageDisk ((id_number id, Some bytes.now) ∷ []) self.old self.new) (λ _. Accepts D.PageDisk [] self.old self.new) }
        ensures map { (m : Map) → HasMap self.old m → MatchResult result (λ _. HasMap self.new (changed m (id_number id, Some bytes.now))) (λ _. HasMap self.new m) }
        // It is made of calls of the core, one after another.
        ensures ran { Ran D.PageDisk self.old self.new }
        ensures rises { self.old.store.frontier ≤ self.new.store.frontier }
        // A crash at any moment of it leaves the map after some of the commands, none of those left out that were
        // persistent before.
        ensures crash { D.honest self.old.disk → LeavesOnly D.moment D.left_since self.old.disk self.new.disk (IsPrefixBetween self.old self.new) }
        // A crash after it does so for the commands and the frontier then.
        ensures left { D.honest self.new.disk → Leaves (D.state self.new.disk) (IsPrefixOf self.new) }
        ensures honest { D.honest self.old.disk ↔ D.honest self.new.disk }
    {
        // Called for its contract alone: which state of the machine the store is in.
        self.core.progress();
        if self.core.is_halted() {
            return Err(PutError::Halted);
        }
        let put = put_by(self.alloc, &mut self.core, reserve, id, bytes);
        // Called for its contract alone: what a crash leaves now.
        self.core.progress();
        match put {
            Ok((number, live)) => {
                self.held.count(self.core.extents(), live, bytes.len());
                Ok(number)
            }
            Err(refusal) => Err(PutError::of(refusal)),
        }
    }

    /// Deletes what is under an identifier, and gives the number that the delete has among the commands accepted since
    /// the store was opened; None where there is nothing under it, and then nothing is accepted. It is persistent once
    /// `sync` answers that number or a greater one.
    ///
    /// The disk is asked for nothing, but where as many events are kept as may be, when all that was accepted is made
    /// persistent first, as by `sync`.
    ///
    /// Refused 35 WornOut, 40 Halted, 9 OutOfMemory; 1 DeviceFault or 30 Full from that sync; and 41 HistoryFull where
    /// as many events are kept as may be and an extent is being swept still. The map is as it was then.
    pub fn delete(&mut self, id: ShardId) -> Result<Option<u64>, DeleteError>
        ensures done { IfOk result (λ deleted. MatchOption deleted (Does D.PageDisk self.old (Delete id) Absent self.new) (λ n. Does D.PageDisk self.old (Delete id) (Accepted n) self.new)) }
        ensures refused { IfErr result (λ error. IsHalted self.old (delete_refusal error) self.new ⊎ Declines D.PageDisk self.old (Delete id) (delete_refusal error) self.new) }
        // A halted store refuses it, and nothing is asked of the core: no event more is kept.
        ensures halted { self.old.store.halted ≡ true → (result ≡ Err DeleteError.Halted) × (self.new ≡ self.old) }
        // It is refused 41 only where no event may be kept at all, or an extent is being swept.
        ensures full { D.honest self.old.disk → IfErr result (λ error. error ≡ DeleteError.HistoryFull → HasNoRoom self.new) }
        ensures number { D.honest self.old.disk → IfOk result (λ deleted. MatchOption deleted (self.new.store.accepted ≡ self.old.store.accepted) (λ n. n ≡ suc self.old.store.accepted)) }
        ensures accepted { IfOk result (λ deleted. IfSome deleted (λ n. self.new.store.accepted ≡ n)) }
        // It alone was accepted where it has a number, and nothing where it has none or is refused.
        ensures accepts { MatchResult result (λ deleted. MatchOption deleted (Accepts D.PageDisk [] self.old self.new) (λ _. Accepts D.PageDisk ((id_number id, None) ∷ []) self.old self.new)) (λ _. Accepts D.PageDisk [] self.old self.new) }
        // Where there is nothing under it the map stays as it was.
        ensures map { (m : Map) → HasMap self.old m → MatchResult result (λ deleted. MatchOption deleted (HasMap self.new m) (λ _. HasMap self.new (changed m (id_number id, None)))) (λ _. HasMap self.new m) }
        // Nothing is accepted just where there is nothing under the identifier.
        ensures absent { (m : Map) → HasMap self.old m → D.honest self.old.disk → IfOk result (λ deleted. (deleted ≡ None) ↔ (m (id_number id) ≡ None)) }
        // It is made of calls of the core, one after another.
        ensures ran { Ran D.PageDisk self.old self.new }
        ensures rises { self.old.store.frontier ≤ self.new.store.frontier }
        // A crash at any moment of it leaves the map after some of the commands, none of those left out that were
        // persistent before.
        ensures crash { D.honest self.old.disk → LeavesOnly D.moment D.left_since self.old.disk self.new.disk (IsPrefixBetween self.old self.new) }
        // A crash after it does so for the commands and the frontier then.
        ensures left { D.honest self.new.disk → Leaves (D.state self.new.disk) (IsPrefixOf self.new) }
        ensures honest { D.honest self.old.disk ↔ D.honest self.new.disk }
    {
        // Called for their contracts alone: which state of the machine the store is in, and what all extents keep.
        self.core.progress();
        self.core.extents().extent_count();
        if self.core.is_halted() {
            return Err(DeleteError::Halted);
        }
        match ask_ready(&mut self.core, &Event::Delete(id)) {
            Ok(Reply::Accepted(number)) => Ok(Some(number)),
            Ok(Reply::Absent) => Ok(None),
            Ok(_) => unreachable!(),
            Err(refusal) => Err(DeleteError::of(refusal)),
        }
    }
}

/// Looks whether a shard is within a reserve, and then keeps these bytes. Returns the number of the put, and how many
/// pages lived before, if that was counted.
fn put_by<D: PageDisk>(
    alloc: Global,
    core: &mut Core<D>,
    reserve: Reserve,
    id: ShardId,
    bytes: &[u8],
) -> Result<(u64, Option<usize>), Refusal>
    ensures within { IfOk result (λ put. PutsWithin D.PageDisk reserve core.old id bytes.now put.0 core.new) }
    ensures refused { IfErr result (λ refusal. RefusesPut D.PageDisk core.old id bytes.now refusal core.new) }
    ensures reserved { IfErr result (λ refusal. refusal ≡ Refusal.Reserved → IsReserved D.PageDisk reserve id (length bytes.now) core.old core.new × ReadsOn D.PageDisk core.old core.new) }
    ensures refusals { IfErr result IsPutRefusal }
    ensures full { D.honest core.old.disk → IfErr result (λ refusal. refusal ≡ Refusal.HistoryFull → HasNoRoom core.new) }
    ensures number { D.honest core.old.disk → IfOk result (λ put. put.0 ≡ suc core.old.store.accepted) }
    ensures accepted { IfOk result (λ put. core.new.store.accepted ≡ put.0) }
    ensures accepts { MatchResult result (λ _. Accepts D.PageDisk ((id_number id, Some bytes.now) ∷ []) core.old core.new) (λ _. Accepts D.PageDisk [] core.old core.new) }
    ensures ran { Ran D.PageDisk core.old core.new }
{
    // Called for its contract alone: what a crash leaves now.
    core.progress();
    match heed(alloc, core, reserve, id, bytes.len()) {
        Ok(live) => match put_ready(alloc, core, id, bytes) {
            Ok(number) => Ok((number, live)),
            Err(refusal) => Err(refusal),
        },
        Err(refusal) => Err(refusal),
    }
}

/// Copies the bytes, makes room for the put and has the core do it.
fn put_ready<D: PageDisk>(
    alloc: Global,
    core: &mut Core<D>,
    id: ShardId,
    bytes: &[u8],
) -> Result<u64, Refusal>
    ensures done { IfOk result (λ n. Does D.PageDisk core.old (Put id bytes.now) (Accepted n) core.new) }
    ensures refused { IfErr result (λ refusal. DeclinesCopy D.PageDisk core.old (Put id bytes.now) refusal core.new) }
    ensures refusals { IfErr result (λ refusal. IsDeleteRefusal refusal ⊎ MayRefuse (Put id bytes.now) refusal) }
    ensures full { D.honest core.old.disk → IfErr result (λ refusal. refusal ≡ Refusal.HistoryFull → HasNoRoom core.new) }
    ensures number { D.honest core.old.disk → IfOk result (λ n. n ≡ suc core.old.store.accepted) }
    ensures accepted { IfOk result (λ n. core.new.store.accepted ≡ n) }
    ensures accepts { MatchResult result (λ _. Accepts D.PageDisk ((id_number id, Some bytes.now) ∷ []) core.old core.new) (λ _. Accepts D.PageDisk [] core.old core.new) }
    ensures ran { Ran D.PageDisk core.old core.new }
{
    // Called for its contract alone: which state of the machine the core is in.
    core.progress();
    let Ok(copy) = copy_of(alloc, bytes) else {
        return Err(Refusal::OutOfMemory);
    };
    match ask_ready(core, &Event::Put(id, copy)) {
        Ok(Reply::Accepted(number)) => Ok(number),
        Ok(_) => unreachable!(),
        Err(refusal) => Err(refusal),
    }
}

/// Makes room for an event and has the core do it.
pub(crate) fn ask_ready<D: PageDisk>(core: &mut Core<D>, event: &Event) -> Result<Reply, Refusal>
    ensures done { IfOk result (λ reply. Does D.PageDisk core.old event.now reply core.new) }
    ensures machine { D.honest core.old.disk → IfOk result (λ reply. DoesFrom D.PageDisk core.old event.now reply core.new) }
    ensures answers { IfOk result (λ reply. MayAnswer event.now reply) }
    ensures no_refusal { IfOk result IsNoRefusal }
    ensures declined { IfErr result (λ refusal. Declines D.PageDisk core.old event.now refusal core.new) }
    ensures refusals { IfErr result (λ refusal. IsDeleteRefusal refusal ⊎ MayRefuse event.now refusal) }
    ensures full { D.honest core.old.disk → IfErr result (λ refusal. refusal ≡ Refusal.HistoryFull → HasNoRoom core.new) }
    ensures accepts { MatchResult result (λ reply. Accepts D.PageDisk (command_said event.now reply) core.old core.new) (λ _. Accepts D.PageDisk [] core.old core.new) }
    ensures ran { Ran D.PageDisk core.old core.new }
    ensures left { D.honest core.new.disk → Leaves (D.state core.new.disk) (IsPrefixOf core.new) }
{
    match make_ready(core) {
        Ok(()) => {
            // Called for its contract alone: which state of the machine the core is in.
            core.progress();
            let asked = ask(core, event);
            // And what a crash leaves now.
            core.progress();
            asked
        }
        Err(refusal) => {
            core.progress();
            Err(refusal)
        }
    }
}

/// Makes room for an event: takes a checkpoint where at least half as many events are kept as may be and the store is
/// settled; and where as many are kept as may be all the same, syncs and then takes one. So most calls cost nothing,
/// one in so many goes through the events that are kept, and who never syncs pays for a sync once in as many events as
/// may be kept.
///
/// Refused as a sync is, 1 DeviceFault, 9 OutOfMemory, 30 Full, 35 WornOut or 40 Halted; and 41 HistoryFull where an
/// extent is being swept still.
pub(crate) fn make_ready<D: PageDisk>(core: &mut Core<D>) -> Result<(), Refusal>
    ensures ready { OnOk result (IsMadeReady D.PageDisk core.old core.new) }
    ensures no_room { IfErr result (λ refusal. IsNoRoom D.PageDisk core.old refusal core.new) }
    ensures refusals { IfErr result IsDeleteRefusal }
    ensures full { IfErr result (λ refusal. refusal ≡ Refusal.HistoryFull → IsSweeping core.new) }
    ensures accepts { Accepts D.PageDisk [] core.old core.new }
    ensures ran { Ran D.PageDisk core.old core.new }
{
    make_room(core);
    if core.history().len() < core.limit() {
        return Ok(());
    }
    empty(core)
}

/// Makes all persistent, and replaces the events that are kept.
fn empty<D: PageDisk>(core: &mut Core<D>) -> Result<(), Refusal>
    ensures empties { OnOk result (Empties D.PageDisk core.old core.new) }
    ensures stays { IfErr result (λ refusal. StaysFull D.PageDisk core.old refusal core.new) }
    ensures refusals { IfErr result IsDeleteRefusal }
    ensures full { IfErr result (λ refusal. refusal ≡ Refusal.HistoryFull → IsSweeping core.new) }
    ensures ran { Ran D.PageDisk core.old core.new }
{
    match sync(core) {
        Ok(_) => {}
        Err(refusal) => return Err(refusal),
    }
    match core.checkpoint() {
        Ok(_) => Ok(()),
        Err(refusal) => Err(told(refusal)),
    }
}

/// How it is told that no checkpoint could be taken.
fn told(refusal: Refusal) -> Refusal
    ensures { result ≡ room_refusal refusal }
{
    match refusal {
        Refusal::Unsettled => Refusal::HistoryFull,
        other => other,
    }
}

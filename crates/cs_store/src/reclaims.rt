//! Sweeps (garbage collection of one extent each), and which extents are worth one.
ghost use Rattle.std.specs.Prelude.{◌↔◌, ◌∷◌, ◌≡◌, ◌≤◌, ◌⊎◌, Err, IfErr, IfOk, List, None, Ok, OnOk, Some, [], false, true, ℕ};
ghost use Rattle.cs_chunk.specs.Newest.{AreNewest};
ghost use Rattle.cs_core.specs.Prefixes.{IsPrefixBetween, IsPrefixOf};
ghost use Rattle.cs_core.specs.Views.{View};
ghost use Rattle.cs_core.specs.declared.events.Event.TheVariants.{Abandon};
ghost use Rattle.cs_core.specs.declared.events.Reply.TheVariants.{Abandoned};
ghost use Rattle.cs_disk.specs.Disk.{Leaves, LeavesOnly, seen};
ghost use Rattle.cs_extent.specs.State.{extents_of};
ghost use Rattle.cs_index.specs.State.{index_of};
ghost use Rattle.cs_inspect.specs.Choices.{ReadsOn};
ghost use Rattle.cs_inspect.specs.Chunks.{AreLiveChunks, Chunk};
ghost use Rattle.cs_inspect.specs.Uses.{heads_of};
ghost use Rattle.cs_refusal.specs.declared.refusals.Refusal.TheVariants.{OutOfMemory};
ghost use Rattle.cs_store.specs.Errors.{IsDeleteRefusal, sweep_refusal};
ghost use Rattle.cs_store.specs.Events.{IsHalted};
ghost use Rattle.cs_store.specs.Maps.{Accepts, HasMap};
ghost use Rattle.cs_store.specs.Reclaims.{DeclinesChosen, ReclaimsChosen};
ghost use Rattle.cs_store.specs.Sweeps.{DeclinesSweep, SweepsReady};
ghost use Rattle.cs_writeback.specs.Histories.{IsStopped, Went};
ghost use Rattle.cs_writeback.specs.Runs.{Ran};
ghost use Rattle.cs_writeback.specs.Sweeps.{MayRefuseSweep};
ghost use Rattle.law_machine.specs.Element.{Map};
ghost use Rattle.law_machine.specs.Extents.{marked};
ghost use Rattle.law_machine.specs.Index.{names};

use crate::errors::SweepError;
use crate::puts::make_ready;
use crate::stores::Store;
use cs_disk::PageDisk;
use cs_inspect::{Choice, choose_sweep};
use cs_mount::the_core::{Core, Event};
use cs_refusal::Refusal;
use cs_writeback::{Swept, ask, sweep};
use std::alloc::Global;

/// An extent that was swept.
#[derive(Clone, Copy, Debug, PartialEq, Eq)]
pub struct Reclaimed {
    /// Its number.
    pub extent: usize,
    /// How many of its pages no shard had.
    pub dead: usize,
    /// How many chunks were moved off it.
    pub moved: usize,
    /// The version of the root under which it was retired.
    pub root: u64,
}

impl<D: PageDisk> Store<D> {
    /// Sweeps the extent that is to be swept next, and says what it freed; None where none is. It sweeps as `sweep`
    /// does; a `sync` makes it persistent. To choose, it reads the first page of each live chunk, and takes memory for a
    /// list of them.
    ///
    /// Where what lives on two extents that hold chunks has room on one, it is one of these; sweeps of such two give an
    /// extent, the first one or the second. Else it is the extent on which least lives of those with dead pages. Where no
    /// page is dead, it is the extent on which least lives, if all of it is sure to go to others (`next_to_sweep` of
    /// cs_inspect). So None is said only where nothing is dead on any extent that can be swept, and no sweep is sure to
    /// gain.
    ///
    /// A caller whose put is refused 30 Full goes on while the put is refused so and `reclaim` gives an extent, with a
    /// `sync` behind each. That ends: while nothing is put or deleted there are at most as many sweeps as extents have
    /// dead pages, and two for each extent that is gained.
    ///
    /// In the older formats it is the extent with most pages that no shard has, where these are more than the index
    /// takes that the sweep writes anew. So each call that answers something frees pages, and a loop that ends at None
    /// ends.
    ///
    /// Refused as `sweep` is. 33 NotSweepable comes while an extent is marked still (`abandon`), and after a sweep that
    /// was given up until a `sync`. In format 2 it isn't to come, since only an extent is chosen that can be swept; the
    /// contracts leave it open.
    pub fn reclaim(&mut self) -> Result<Option<Reclaimed>, SweepError>
        // What is chosen is chosen by the extents as they are and the headers of their chunks, which are read first,
        // and then it is swept.
        ensures chosen { D.honest self.old.disk → ReclaimsChosen D.PageDisk self.old result self.new }
        ensures none { result ≡ Ok None → ReadsOn D.PageDisk self.old self.new }
        ensures done { IfOk result (λ found. (swept : Reclaimed) → found ≡ Some swept → (read : View D) × ReadsOn D.PageDisk self.old read × SweepsReady D.PageDisk swept.extent read self.new swept.moved swept.root) }
        ensures refused { IfErr result (λ error. IsHalted self.old (sweep_refusal error) self.new ⊎ ((read : View D) × (extent : ℕ) × ReadsOn D.PageDisk self.old read × ((sweep_refusal error ≡ OutOfMemory) × (self.new ≡ read) ⊎ DeclinesSweep D.PageDisk extent read self.new (sweep_refusal error)))) }
        // One that is declined was chosen so too.
        ensures declined { D.honest self.old.disk → (view : ℕ → List ℕ) (chunks : List Chunk) → AreNewest self.old.store.graph (seen (D.state self.old.disk)) view → AreLiveChunks (index_of self.old.store.index) chunks
            → IfErr result (λ error. IsHalted self.old (sweep_refusal error) self.new ⊎ DeclinesChosen D.PageDisk (heads_of self.old.store.extents view chunks) (names (index_of self.old.store.index)) self.old (sweep_refusal error) self.new) }
        // A halted store refuses it, and nothing is asked of the core: no event more is kept.
        ensures halted { self.old.store.halted ≡ true → (result ≡ Err SweepError.Halted) × (self.new ≡ self.old) }
        // No command is accepted.
        ensures accepts { Accepts D.PageDisk [] self.old self.new }
        ensures map { (m : Map) → HasMap self.old m → HasMap self.new m }
        // It is made of calls of the core, one after another.
        ensures ran { Ran D.PageDisk self.old self.new }
        ensures rises { self.old.store.frontier ≤ self.new.store.frontier }
        // A crash at any moment of it leaves the map after some of the commands, none of those left out that were
        // persistent before.
        ensures crash { D.honest self.old.disk → LeavesOnly D.moment D.left_since self.old.disk self.new.disk (IsPrefixBetween self.old self.new) }
        // A crash after it does so for the commands and the frontier then.
        ensures left { D.honest self.new.disk → Leaves (D.state self.new.disk) (IsPrefixOf self.new) }
        ensures honest { D.honest self.old.disk ↔ D.honest self.new.disk }
    {
        // Called for its contract alone: which state of the machine the store is in.
        self.core.progress();
        if self.core.is_halted() {
            return Err(SweepError::Halted);
        }
        let reclaimed = reclaim_ready(self.alloc, &mut self.core);
        // Called for its contract alone: what a crash leaves now.
        self.core.progress();
        match reclaimed {
            Ok(found) => Ok(found),
            Err(refusal) => Err(SweepError::of(refusal)),
        }
    }
}

/// Finds the extent that is worth sweeping, and sweeps it.
fn reclaim_ready<D: PageDisk>(
    alloc: Global,
    core: &mut Core<D>,
) -> Result<Option<Reclaimed>, Refusal>
    ensures chosen { D.honest core.old.disk → ReclaimsChosen D.PageDisk core.old result core.new }
    ensures none { result ≡ Ok None → ReadsOn D.PageDisk core.old core.new }
    ensures done { IfOk result (λ found. (swept : Reclaimed) → found ≡ Some swept → (read : View D) × ReadsOn D.PageDisk core.old read × SweepsReady D.PageDisk swept.extent read core.new swept.moved swept.root) }
    ensures refused { IfErr result (λ refusal. (read : View D) × (extent : ℕ) × ReadsOn D.PageDisk core.old read × ((refusal ≡ OutOfMemory) × (core.new ≡ read) ⊎ DeclinesSweep D.PageDisk extent read core.new refusal)) }
    ensures declined { D.honest core.old.disk → (view : ℕ → List ℕ) (chunks : List Chunk) → AreNewest core.old.store.graph (seen (D.state core.old.disk)) view → AreLiveChunks (index_of core.old.store.index) chunks
        → IfErr result (λ refusal. DeclinesChosen D.PageDisk (heads_of core.old.store.extents view chunks) (names (index_of core.old.store.index)) core.old refusal core.new) }
    ensures refusals { IfErr result (λ refusal. IsDeleteRefusal refusal ⊎ MayRefuseSweep refusal) }
    ensures accepts { Accepts D.PageDisk [] core.old core.new }
    ensures ran { Ran D.PageDisk core.old core.new }
{
    // Called for its contract alone: what a crash leaves now.
    core.progress();
    let Ok(found) = choose_sweep(alloc, core) else {
        return Err(Refusal::OutOfMemory);
    };
    let Some(Choice { extent, dead }) = found else {
        return Ok(None);
    };
    match sweep_ready(core, extent) {
        Ok(swept) => Ok(Some(Reclaimed {
            extent,
            dead,
            moved: swept.moved,
            root: swept.root,
        })),
        Err(refusal) => Err(refusal),
    }
}

/// Makes room for a sweep and has the core do it.
pub(crate) fn sweep_ready<D: PageDisk>(core: &mut Core<D>, extent: usize) -> Result<Swept, Refusal>
    ensures done { IfOk result (λ swept. SweepsReady D.PageDisk extent core.old core.new swept.moved swept.root) }
    ensures declined { IfErr result (λ refusal. DeclinesSweep D.PageDisk extent core.old core.new refusal) }
    ensures refusals { IfErr result (λ refusal. IsDeleteRefusal refusal ⊎ MayRefuseSweep refusal) }
    ensures accepts { Accepts D.PageDisk [] core.old core.new }
    ensures ran { Ran D.PageDisk core.old core.new }
{
    match make_ready(core) {
        Ok(()) => sweep(core, extent),
        Err(refusal) => Err(refusal),
    }
}

impl<D: PageDisk> Store<D> {
    /// Moves what is live on an extent off it and retires it, so that its pages can be written anew once that is
    /// persistent, and gives how many chunks were moved and under which root it was retired. Each chunk is read and
    /// staged again. A sweep that is refused after it began is abandoned; what was moved lies where it lay then. In
    /// format 2 it stays where it is.
    ///
    /// Refused 33 NotSweepable where the extent is empty, holds runs or isn't there, where any extent is being swept,
    /// and after a sweep that was given up until a `sync` (in format 2 where it is open, empty, being swept or not
    /// there); 1 DeviceFault; 9 OutOfMemory, where the extent may be being swept still; 20 BadMagic, 21 BadDigest, 22
    /// BadLength, 23 BadPadding or 24 BadVersion where a chunk is damaged, and 26 Misplaced where another frame lies
    /// there, of the chunk that `first_on` tells; 30 Full; 34 StillLive; 35 WornOut; 40 Halted; and 41 HistoryFull
    /// where more chunks are to be moved than further events may be kept, of which it makes sure of one alone: sync
    /// ahead of it, or sweep again.
    pub fn sweep(&mut self, extent: usize) -> Result<Swept, SweepError>
        ensures done { IfOk result (λ swept. SweepsReady D.PageDisk extent self.old self.new swept.moved swept.root) }
        ensures refused { IfErr result (λ error. IsHalted self.old (sweep_refusal error) self.new ⊎ DeclinesSweep D.PageDisk extent self.old self.new (sweep_refusal error)) }
        // A halted store refuses it, and nothing is asked of the core: no event more is kept.
        ensures halted { self.old.store.halted ≡ true → (result ≡ Err SweepError.Halted) × (self.new ≡ self.old) }
        // No command is accepted.
        ensures accepts { Accepts D.PageDisk [] self.old self.new }
        ensures map { (m : Map) → HasMap self.old m → HasMap self.new m }
        // It is made of calls of the core, one after another.
        ensures ran { Ran D.PageDisk self.old self.new }
        ensures rises { self.old.store.frontier ≤ self.new.store.frontier }
        // A crash at any moment of it leaves the map after some of the commands, none of those left out that were
        // persistent before.
        ensures crash { D.honest self.old.disk → LeavesOnly D.moment D.left_since self.old.disk self.new.disk (IsPrefixBetween self.old self.new) }
        // A crash after it does so for the commands and the frontier then.
        ensures left { D.honest self.new.disk → Leaves (D.state self.new.disk) (IsPrefixOf self.new) }
        ensures honest { D.honest self.old.disk ↔ D.honest self.new.disk }
    {
        // Called for its contract alone: which state of the machine the store is in.
        self.core.progress();
        if self.core.is_halted() {
            return Err(SweepError::Halted);
        }
        let swept = sweep_ready(&mut self.core, extent);
        // Called for its contract alone: what a crash leaves now.
        self.core.progress();
        match swept {
            Ok(swept) => Ok(swept),
            Err(refusal) => Err(SweepError::of(refusal)),
        }
    }

    /// Takes the mark off an extent that is being swept: what a sweep leaves to do that was refused 9 OutOfMemory.
    /// Where one is marked no checkpoint can be taken, so that puts are refused 41 HistoryFull at last. What was moved
    /// lies where it lay; in format 2 it stays where it is. Neither the disk nor room for an event is needed.
    ///
    /// Refused 33 NotSweepable where the extent isn't marked, 40 Halted and 9 OutOfMemory.
    pub fn abandon(&mut self, extent: usize) -> Result<(), SweepError>
        ensures done { OnOk result (Went D.PageDisk self.old ((Abandon extent, Abandoned) ∷ []) self.new) }
        // The extent isn't marked any more, and nothing else of the extents has changed.
        ensures mark { D.honest self.old.disk → OnOk result (extents_of self.new.store.extents ≡ marked (extents_of self.old.store.extents) extent false) }
        ensures refused { IfErr result (λ error. IsHalted self.old (sweep_refusal error) self.new ⊎ IsStopped D.PageDisk self.old [] (Abandon extent) (sweep_refusal error) self.new) }
        // A halted store refuses it, and nothing is asked of the core: no event more is kept.
        ensures halted { self.old.store.halted ≡ true → (result ≡ Err SweepError.Halted) × (self.new ≡ self.old) }
        ensures refusals { IfErr result (λ error. (error ≡ SweepError.NotSweepable) ⊎ (error ≡ SweepError.Halted) ⊎ (error ≡ SweepError.OutOfMemory)) }
        // No command is accepted.
        ensures accepts { Accepts D.PageDisk [] self.old self.new }
        ensures map { (m : Map) → HasMap self.old m → HasMap self.new m }
        // It is made of calls of the core, one after another.
        ensures ran { Ran D.PageDisk self.old self.new }
        ensures rises { self.old.store.frontier ≤ self.new.store.frontier }
        // A crash at any moment of it leaves the map after some of the commands, none of those left out that were
        // persistent before.
        ensures crash { D.honest self.old.disk → LeavesOnly D.moment D.left_since self.old.disk self.new.disk (IsPrefixBetween self.old self.new) }
        // A crash after it does so for the commands and the frontier then.
        ensures left { D.honest self.new.disk → Leaves (D.state self.new.disk) (IsPrefixOf self.new) }
        ensures honest { D.honest self.old.disk ↔ D.honest self.new.disk }
    {
        // Called for its contract alone: which state of the machine the store is in.
        self.core.progress();
        if self.core.is_halted() {
            return Err(SweepError::Halted);
        }
        let asked = ask(&mut self.core, &Event::Abandon(extent));
        // Called for its contract alone: what a crash leaves now.
        self.core.progress();
        match asked {
            Ok(_) => Ok(()),
            Err(refusal) => Err(SweepError::of(refusal)),
        }
    }
}

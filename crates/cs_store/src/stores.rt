//! Stores, how they are synced, and how they are closed. `OpenOptions` makes and opens them.
ghost use Rattle.std.specs.Prelude.{◌↔◌, ◌≡◌, ◌≤◌, ◌⊎◌, Err, IfErr, IfOk, [], true};
ghost use Rattle.cs_core.specs.Prefixes.{IsPrefixBetween, IsPrefixOf};
ghost use Rattle.cs_disk.specs.Disk.{Leaves, LeavesOnly};
ghost use Rattle.cs_store.specs.Errors.{sync_refusal};
ghost use Rattle.cs_store.specs.Events.{IsHalted};
ghost use Rattle.cs_store.specs.Maps.{Accepts, HasMap};
ghost use Rattle.cs_writeback.specs.Runs.{Ran};
ghost use Rattle.cs_writeback.specs.Syncs.{StopsSync, Syncs};
ghost use Rattle.law_machine.specs.Element.{Map};

use crate::errors::SyncError;
use crate::reserves::{Held, Reserve};
use cs_disk::PageDisk;
use cs_mount::Finding;
use cs_mount::the_core::Core;
use cs_writeback::sync;
use std::alloc::Global;
use std::marker::Model;

/// A store over its disk: a map from identifiers to bytes.
#[derive(Drop)]
pub struct Store<D: PageDisk> {
    pub(crate) alloc: Global,
    pub(crate) core: Core<D>,
    /// What it holds back.
    pub(crate) held: Held,
    /// What the pages held of which it has two, as it was opened from a file; else empty.
    pub(crate) findings: Vec<Finding>,
    /// The pages of sections that were made, as it was opened from a file; else empty.
    pub(crate) made: Vec<u64>,
}

impl<D: PageDisk> Model for Store<D> {
    ghost use Rattle.cs_core.specs.Views.{View};

    ghost Value = { View D };

    ghost view = { λ s. s.core };
}

impl<D: PageDisk> Store<D> {
    /// What the pages held of which the store has two, before it was opened by `open_file` or `open_older_file`: those
    /// of the root, which show as page 1, and of each section of the superblock. `Finding::passed_over` names a page
    /// that was damaged. `open_file` filled it with bytes of 255.
    ///
    /// The list is empty for a store that was made, and for one of the older formats. It is also empty for one that
    /// `open`, `open_to_write` or `open_older` opened: they return it beside the store, with a contract. The value of a
    /// store is its core's, so no clause speaks of this list.
    pub fn findings(&self) -> &[Finding] {
        &self.findings
    }

    /// The pages of the sections that `open_file` made of the root and its runs, since they were lost
    /// (`ready_sections`). The list is empty if none was, and for a store that was made or opened otherwise. The value of
    /// a store is its core's, so no clause speaks of this list.
    pub fn made_sections(&self) -> &[u64] {
        &self.made
    }

    /// The reserve by which `put` goes, as the options said that made or opened the store (`OpenOptions::reserve`), or as
    /// was set since (`set_reserve`). The value of a store is its core's, so no clause speaks of the reserve.
    pub fn reserve(&self) -> Reserve {
        self.held.reserve
    }

    /// Goes by another reserve from now on, and nothing else changes.
    pub fn set_reserve(&mut self, reserve: Reserve)
        ensures { self.new ≡ self.old }
    {
        self.held.reserve = reserve;
    }

    /// The store, with what an opening found beside it.
    pub(crate) fn noted(self, findings: Vec<Finding>, made: Vec<u64>) -> Self
        ensures { result ≡ self }
    {
        let mut store = self;
        store.findings = findings;
        store.made = made;
        store
    }

    /// The disk, with which the store ends. Nothing is written: what isn't persistent is lost, so `sync` first.
    pub fn close(self) -> D
        ensures { result ≡ self.disk }
    {
        let Store {
            alloc: _,
            core,
            held: _,
            findings: _,
            made: _,
        } = self;
        core.into_disk()
    }

    /// The core of the store, for calls that close one otherwise, as `seal` of cs_mount does. Nothing is written.
    pub fn into_core(self) -> Core<D>
        ensures { result ≡ self }
    {
        let Store {
            alloc: _,
            core,
            held: _,
            findings: _,
            made: _,
        } = self;
        core
    }

    /// Makes all accepted commands persistent, and gives how many they are since the store was opened. It is a write
    /// for each element that waits, and a flush a round.
    ///
    /// Refused 1 DeviceFault, 9 OutOfMemory, 30 Full, 35 WornOut or 40 Halted. The map is as it was then, and what was
    /// persistent stays so; the next sync goes on where this one stopped, unless the store is halted.
    pub fn sync(&mut self) -> Result<u64, SyncError>
        ensures done { IfOk result (λ frontier. Syncs D.PageDisk self.old self.new × (frontier ≡ self.new.store.frontier)) }
        // What it gives is the number of commands accepted, so the whole map is persistent.
        ensures all { D.honest self.old.disk → IfOk result (λ frontier. frontier ≡ self.new.store.accepted) }
        ensures refused { IfErr result (λ error. IsHalted self.old (sync_refusal error) self.new ⊎ StopsSync D.PageDisk self.old (sync_refusal error) self.new) }
        // A halted store refuses it, and nothing is asked of the core: no event more is kept.
        ensures halted { self.old.store.halted ≡ true → (result ≡ Err SyncError.Halted) × (self.new ≡ self.old) }
        ensures same { D.honest self.old.disk → self.new.store.accepted ≡ self.old.store.accepted }
        // No command is accepted.
        ensures accepts { Accepts D.PageDisk [] self.old self.new }
        ensures map { (m : Map) → HasMap self.old m → HasMap self.new m }
        // It is made of calls of the core, one after another.
        ensures ran { Ran D.PageDisk self.old self.new }
        ensures rises { self.old.store.frontier ≤ self.new.store.frontier }
        // A crash at any moment of it leaves the map after some of the commands, none of those left out that were
        // persistent before.
        ensures crash { D.honest self.old.disk → LeavesOnly D.moment D.left_since self.old.disk self.new.disk (IsPrefixBetween self.old self.new) }
        // A crash after it does so for the commands and the frontier then.
        ensures left { D.honest self.new.disk → Leaves (D.state self.new.disk) (IsPrefixOf self.new) }
        ensures honest { D.honest self.old.disk ↔ D.honest self.new.disk }
    {
        // Called for its contract alone: which state of the machine the store is in.
        self.core.progress();
        if self.core.is_halted() {
            return Err(SyncError::Halted);
        }
        let synced = sync(&mut self.core);
        // Called for its contract alone: what a crash leaves now.
        self.core.progress();
        match synced {
            Ok(frontier) => Ok(frontier),
            Err(refusal) => Err(SyncError::of(refusal)),
        }
    }
}

//! The graph of what was staged.
ghost use Rattle.std.specs.Prelude.{◌≡◌, ℕ, ◌+◌, ◌^◌, ◌≤◌, ◌<◌, ◌⊎◌, ◌↔◌, [], IfOk, IfErr, OnOk, OnErr, IsOk, IsSome, IsTrue, ◌-◌, MatchOption, All, map, length, slice_index, option_map, option_copied, Some, None};
ghost use Rattle.cs_deps.specs.declared.elements.Element.{Element as Item};
ghost use Rattle.cs_deps.specs.Named.{Names, NamesFamily, IsNumbered, IsWithin, StandsFor};
ghost use Rattle.cs_deps.specs.Staging.{IsSatisfied, staged_after, IsVersionStaged, IsKept, settled};
ghost use Rattle.cs_deps.specs.View.{pending_of};
ghost use Rattle.cs_deps.specs.Pending.{Waits, WaitsAt, IsPersistent};
ghost use Rattle.cs_deps.specs.Wanted.{AreWanted};
ghost use Rattle.cs_deps.specs.State.{State, write_of, after, everything, IsNewestOn, IsOut, IsQueue, IsWhole, KeepsBytes, AddsOnly, AddsNone, AreCounted, NoneOn};

mod heights;

use crate::cleaning::{clean, count_ended, raise_floors};
use crate::dependencies::Dependency;
use crate::elements::{Element, LAST_NUMBER};
use crate::levels::Levels;
use crate::records::{Backlog, Record, clear, give_up, make_room, note, noted, record_of};
use crate::rounds::raise_all;
use crate::views::GraphView;
use crate::waiting::{copy_all, elements_of, needs_of};
use crate::wanted::{Wanted, wanted_of};
use cs_refusal::Refusal;
use slab::Slab;
use std::alloc::{AllocError, Global};
use std::collections::HashMap;
use std::marker::Model;
use std::mem;

/// What is persistent, what waits with its needs and its page write, and the round that is out.
///
/// Plain writes are numbered from 1, versions of each family from the one that was persistent at first; the last number
/// of either is 2^63 - 1. There are 1 to 16 families. Page numbers are the caller's: any will do, and they
/// serve only to find the newest plain write to a page.
#[derive(Drop)]
pub struct Graph {
    /// The greatest persistent version of each family.
    persistent: Vec<u64>,
    /// The last staged version of each family.
    latest: Vec<u64>,
    /// The last staged plain write.
    staged: u64,
    /// What waits in the order of staging, each element with the needs that it was staged with. A version that has become
    /// persistent stays while a later one of its family waits, which needs what it needed; and some stay that are of no use.
    entries: Backlog,
    /// The page writes of what stands in the ready queues, under the keys that are kept with the levels.
    records: Slab<Record>,
    /// For each page the number of the newest plain write that has a record.
    newest: HashMap<u64, u64>,
    /// The members of the round that is out.
    round: Option<Vec<Element>>,
    /// So many more entries and records have their place already.
    room: usize,
    /// The level of each element that waits, and the queue of each level.
    levels: Levels,
}

impl Model for Graph {
    ghost use Rattle.std.specs.Prelude.{nat_eq, option_map, vec_len, vec_capacity};
    ghost use Rattle.std.specs.HashMap.{get, spare};
    ghost use Rattle.cs_deps.specs.State.{State};
    ghost use Rattle.cs_deps.specs.Entries.{state_of, IsHeld};
    ghost use Rattle.cs_deps.specs.Levels.{live_of};
    ghost use Rattle.cs_deps.specs.Records.{writes_of};

    ghost Value = { State };

    ghost view = { λ g. state_of g.persistent.items (live_of g.levels g.entries.floors.items g.entries.list.items) g.staged g.latest.items (option_map (λ r. r.items) g.round) (writes_of g.records.slots) g.room };

    ghost invariant = { λ g. IsHeld (state_of g.persistent.items (live_of g.levels g.entries.floors.items g.entries.list.items) g.staged g.latest.items (option_map (λ r. r.items) g.round) (writes_of g.records.slots) g.room) (live_of g.levels g.entries.floors.items g.entries.list.items) g.entries.list.items g.entries.floors.items (vec_len g.entries.list) (vec_capacity g.entries.list) (vec_len g.entries.places) g.records (λ p. get nat_eq g.newest p) (spare g.newest) g.levels };
}

impl Graph {
    /// A graph of as many families as there are numbers, each with that version persistent, in which nothing waits and
    /// no plain write is staged.
    pub fn new(alloc: Global, persistent: &[u64]) -> Result<Self, AllocError>
        requires families { (1 ≤ length persistent.now) × (length persistent.now ≤ 16) }
        requires numbers { All (λ v. v < 2 ^ 63) persistent.now }
        ensures { IfOk result (λ g. g ≡ record { staging = record { pending = record { persistent = persistent.now; waiting = [] }; staged = 0; latest = persistent.now }; round = None; pages = []; room = 0 }) }
    {
        let latest = persistent.to_vec(alloc)?;
        let levels = Levels::new(alloc, persistent)?;
        let floors = persistent.to_vec(alloc)?;
        let persistent = persistent.to_vec(alloc)?;
        Ok(Graph {
            persistent,
            latest,
            staged: 0,
            entries: Backlog::new(alloc, floors),
            records: Slab::new(alloc),
            newest: HashMap::new(alloc),
            round: None,
            room: 0,
            levels,
        })
    }

    /// Makes room for so many stagings in all: as many of the next calls that stage are not refused 9, whatever they
    /// need. Each of them takes one from the room. Where memory is refused the graph stays as it is.
    pub fn reserve(&mut self, stagings: usize) -> Result<(), AllocError>
        ensures room { OnOk result (stagings ≤ self.new.room) }
        ensures kept { self.old.room ≤ self.new.room }
        ensures rest { self.new ≡ record self.old { room = self.new.room } }
        ensures memory { stagings ≤ self.old.room → IsOk result }
    {
        let room = make_room(
            &mut self.entries,
            &mut self.records,
            &mut self.newest,
            &mut self.levels,
            self.room,
            stagings,
        )?;
        self.room = room;
        Ok(())
    }

    /// Stages a plain write with these needs. It gets the next number, and waits.
    ///
    /// Refused 2 UnknownNeed where the needs name what was not staged, else 35 WornOut where the last number is given.
    /// 9 OutOfMemory is answered only where there is no room and no memory. The work is that of testing the needs, and one
    /// look at what is kept for each write of a span that they list.
    pub fn stage_plain(
        &mut self,
        page: u64,
        bytes: &[u8; 4096],
        needs: Dependency,
    ) -> Result<u64, Refusal>
        ensures number { IfOk result (λ n. n ≡ self.old.staging.staged + 1) }
        ensures staged { IfOk result (λ n. self.new.staging ≡ record { pending = staged_after self.old.staging.pending (Element.Plain n) needs; staged = n; latest = self.old.staging.latest }) }
        ensures round { OnOk result (self.new.round ≡ self.old.round) }
        ensures write { IfOk result (λ n. write_of self.new (Element.Plain n) ≡ Some (page, bytes.now)) }
        ensures others { IfOk result (λ n. AddsOnly self.old self.new (Element.Plain n)) }
        ensures unknown { (result ≡ Err Refusal.UnknownNeed) ↔ ¬ IsWithin needs self.old.staging.staged self.old.staging.latest }
        ensures worn { (result ≡ Err Refusal.WornOut) ↔ (IsWithin needs self.old.staging.staged self.old.staging.latest × (2 ^ 63 ≤ self.old.staging.staged + 1)) }
        ensures refusals { IfErr result (λ r. (r ≡ Refusal.UnknownNeed) ⊎ (r ≡ Refusal.WornOut) ⊎ (r ≡ Refusal.OutOfMemory)) }
        ensures refused { OnErr result (self.new ≡ self.old) }
        ensures memory { 0 < self.old.room → ¬ (result ≡ Err Refusal.OutOfMemory) }
        ensures room { self.old.room ≤ self.new.room + 1 }
    {
        if !self.is_staged(&needs) {
            mem::drop(needs);
            return Err(Refusal::UnknownNeed);
        }
        if self.staged >= LAST_NUMBER {
            mem::drop(needs);
            return Err(Refusal::WornOut);
        }
        match make_room(
            &mut self.entries,
            &mut self.records,
            &mut self.newest,
            &mut self.levels,
            self.room,
            1,
        ) {
            Ok(made) => {
                let number = self.staged + 1;
                let best = self.levels.top(&needs);
                let older = noted(&self.newest, page);
                note(&mut self.newest, page, number);
                let key = self.records.insert_reserved(Record {
                    element: Element::Plain(number),
                    page,
                    bytes: *bytes,
                    older,
                });
                self.entries.push_reserved(Element::Plain(number), needs);
                self.levels.push_plain(self.staged, best, key);
                self.room = made - 1;
                self.staged = number;
                Ok(number)
            }
            Err(_) => {
                mem::drop(needs);
                Err(Refusal::OutOfMemory)
            }
        }
    }

    /// The last version of a family, where the next one may be staged with these needs.
    fn last_before(&self, family: usize, needs: &Dependency) -> Result<u64, Refusal>
        requires { family < length self.now.staging.latest }
        ensures last { IfOk result (λ last. last ≡ slice_index self.now.staging.latest family) }
        ensures more { IfOk result (λ last. last + 1 < 2 ^ 63) }
        ensures within { OnOk result (IsWithin needs.now self.now.staging.staged self.now.staging.latest) }
        ensures others { OnOk result (¬ NamesFamily needs.now family) }
        ensures unknown { (result ≡ Err Refusal.UnknownNeed) ↔ ¬ IsWithin needs.now self.now.staging.staged self.now.staging.latest }
        ensures own { (result ≡ Err Refusal.OwnFamily) ↔ (IsWithin needs.now self.now.staging.staged self.now.staging.latest × NamesFamily needs.now family) }
        ensures worn { (result ≡ Err Refusal.WornOut) ↔ (IsWithin needs.now self.now.staging.staged self.now.staging.latest × (¬ NamesFamily needs.now family) × (2 ^ 63 ≤ slice_index self.now.staging.latest family + 1)) }
        ensures refusals { IfErr result (λ r. (r ≡ Refusal.UnknownNeed) ⊎ (r ≡ Refusal.OwnFamily) ⊎ (r ≡ Refusal.WornOut)) }
    {
        if !self.is_staged(needs) {
            return Err(Refusal::UnknownNeed);
        }
        if needs.names_family(family) {
            return Err(Refusal::OwnFamily);
        }
        let last = self.latest[family];
        if last >= LAST_NUMBER {
            return Err(Refusal::WornOut);
        }
        Ok(last)
    }

    /// Stages the next version of a family with these needs and those of the version before it, and answers its number.
    /// It waits.
    ///
    /// Refused 2 UnknownNeed where the needs name what was not staged, else 3 OwnFamily where they name a version of the
    /// same family, else 35 WornOut where the family's last number is given. 9 OutOfMemory is answered only where there is
    /// no room and no memory. The work is that of testing the needs, and one look at what is kept for each write of a span that
    /// they list: nothing is joined until it is asked for.
    pub fn stage_version(
        &mut self,
        family: usize,
        page: u64,
        bytes: &[u8; 4096],
        needs: Dependency,
    ) -> Result<u64, Refusal>
        requires { family < length self.old.staging.latest }
        ensures staged { IfOk result (λ v. IsVersionStaged self.old.staging family v needs self.new.staging) }
        ensures round { OnOk result (self.new.round ≡ self.old.round) }
        ensures write { IfOk result (λ v. write_of self.new (Element.Version family v) ≡ Some (page, bytes.now)) }
        ensures others { IfOk result (λ v. AddsOnly self.old self.new (Element.Version family v)) }
        ensures unknown { (result ≡ Err Refusal.UnknownNeed) ↔ ¬ IsWithin needs self.old.staging.staged self.old.staging.latest }
        ensures own { (result ≡ Err Refusal.OwnFamily) ↔ (IsWithin needs self.old.staging.staged self.old.staging.latest × NamesFamily needs family) }
        ensures worn { (result ≡ Err Refusal.WornOut) ↔ (IsWithin needs self.old.staging.staged self.old.staging.latest × (¬ NamesFamily needs family) × (2 ^ 63 ≤ slice_index self.old.staging.latest family + 1)) }
        ensures refusals { IfErr result (λ r. (r ≡ Refusal.UnknownNeed) ⊎ (r ≡ Refusal.OwnFamily) ⊎ (r ≡ Refusal.WornOut) ⊎ (r ≡ Refusal.OutOfMemory)) }
        ensures refused { OnErr result (self.new ≡ self.old) }
        ensures memory { 0 < self.old.room → ¬ (result ≡ Err Refusal.OutOfMemory) }
        ensures room { self.old.room ≤ self.new.room + 1 }
    {
        let before = self.last_before(family, &needs)?;
        match make_room(
            &mut self.entries,
            &mut self.records,
            &mut self.newest,
            &mut self.levels,
            self.room,
            1,
        ) {
            Ok(made) => {
                let version = before + 1;
                let best = self.levels.top(&needs);
                let kept = self.levels.next_of(family, before, best);
                // An earlier version of the same level is never written, since this one stands for it: its page goes.
                clear(&mut self.records, self.levels.replaced(family, kept.level));
                let key = self.records.insert_reserved(Record {
                    element: Element::Version(family, version),
                    page,
                    bytes: *bytes,
                    older: 0,
                });
                self.entries
                    .push_reserved(Element::Version(family, version), needs);
                self.levels.push_version(family, before, kept, key);
                self.room = made - 1;
                self.latest[family] = version;
                Ok(version)
            }
            Err(_) => {
                mem::drop(needs);
                Err(Refusal::OutOfMemory)
            }
        }
    }

    /// What is persistent and what waits, as plain data. For each waiting version it goes through all that waits.
    pub fn view(&self) -> Result<GraphView, AllocError>
        ensures view { IfOk result (λ view. pending_of view ≡ self.now.staging.pending) }
        ensures kept { IsOk result → IsKept self.now.staging }
    {
        let alloc = *self.persistent.allocator();
        let waiting = copy_all(
            alloc,
            &self.entries.list,
            &self.levels,
            &self.entries.floors,
            &self.persistent,
        )?;
        let persistent = self.persistent.to_vec(alloc)?;
        Ok(GraphView {
            persistent,
            waiting,
        })
    }

    /// The waiting elements in the order of their staging, without their needs.
    pub fn waiting(&self) -> Result<Vec<Element>, AllocError>
        ensures { IfOk result (λ xs. xs.items ≡ map (λ w. w.0) self.now.staging.pending.waiting) }
    {
        let alloc = *self.persistent.allocator();
        elements_of(
            alloc,
            &self.entries.list,
            &self.levels,
            &self.entries.floors,
            &self.persistent,
        )
    }

    /// What a waiting element needs, a version also what the versions before it needed; None where it does not wait. It
    /// goes through all that waits.
    pub fn needs_of(&self, element: Element) -> Result<Option<Dependency>, AllocError>
        ensures { IfOk result (λ found. MatchOption found (¬ Waits self.now.staging.pending element) (λ d. (k : ℕ) × WaitsAt self.now.staging.pending k element d)) }
    {
        let alloc = *self.persistent.allocator();
        needs_of(
            alloc,
            &self.entries.list,
            &self.levels,
            &self.entries.floors,
            &self.persistent,
            element,
        )
    }

    /// What a target needs of what waits: of the waiting elements those that it names, and again and again what they need. What
    /// else it names isn't said. It goes through what waits, the last first, and once more for each family.
    pub fn wanted(&self, target: &Dependency) -> Result<Wanted, AllocError>
        ensures { IfOk result (λ d. AreWanted self.now.staging.pending target.now d) }
    {
        let alloc = *self.persistent.allocator();
        let count = self.levels.plains.len();
        let target = Wanted::new(alloc, self.levels.dropped, count, target)?;
        wanted_of(
            alloc,
            &self.entries.list,
            &self.levels,
            &self.entries.floors,
            &self.persistent,
            target,
        )
    }

    /// The bytes of an element's page write, as they were staged. It takes no memory and seeks nothing.
    pub fn bytes_of(&self, element: Element) -> Option<&[u8; 4096]>
        ensures bytes { option_copied result ≡ option_map (λ w. w.1) (write_of self.now element) }
        ensures kept { KeepsBytes self.now element → IsSome result }
    {
        match record_of(&self.records, self.levels.kept(element), element) {
            Some(record) => Some(&record.bytes),
            None => None,
        }
    }

    /// The page that an element's write goes to, as it was staged. It takes no memory and seeks nothing.
    pub fn page_of(&self, element: Element) -> Option<u64>
        ensures page { result ≡ option_map (λ w. w.0) (write_of self.now element) }
        ensures kept { KeepsBytes self.now element → IsSome result }
    {
        match record_of(&self.records, self.levels.kept(element), element) {
            Some(record) => Some(record.page),
            None => None,
        }
    }

    /// The bytes of the newest waiting plain write to a page. It is looked up by its page, and takes no memory.
    pub fn newest_on(&self, page: u64) -> Option<&[u8; 4096]>
        ensures newest { MatchOption result (NoneOn self.now page) (λ bytes. IsNewestOn self.now page bytes.now) }
        ensures whole { IsWhole self.now }
    {
        match self.newest.get(&page) {
            Some(number) => self.bytes_of(Element::Plain(*number)),
            None => None,
        }
    }

    /// How many page writes are kept; where no round is out, one for each plain write that waits, and at each height one for
    /// each family of which a version waits there. No memory is taken, and nothing is sought.
    pub fn kept_pages(&self) -> usize
        ensures { self.now.round ≡ None → AreCounted self.now result }
    {
        self.records.len()
    }

    /// Takes a round, all that waits at height 1 in the order of `queue(1)`: its members may be written, and it is out until it
    /// is settled. It takes no memory.
    pub fn take_round(&mut self, round: Vec<Element>)
        requires none { self.old.round ≡ None }
        requires first { IsQueue self.old.staging.pending 1 round.items }
        ensures staging { self.new.staging ≡ self.old.staging }
        ensures round { self.new.round ≡ Some round.items }
        ensures writes { AddsNone self.old self.new }
        ensures room { self.new.room ≡ self.old.room }
    {
        self.levels.take();
        self.round = Some(round);
    }

    /// Puts the round that is out into the persistent set, once its writes have been flushed. Its members and what they
    /// stand for wait no more, and their bytes go.
    ///
    /// Over all calls the work is linear in the members and in what ends with them, and each goes through the families; only where a
    /// page's earlier write is settled may finding the one before go down the numbers. What is kept is at most twice what waits, and what
    /// waiting versions take over from persistent ones. It takes no memory.
    pub fn settle_round(&mut self)
        requires out { IsSome self.old.round }
        ensures settled { self.new.staging ≡ record { pending = after self.old; staged = self.old.staging.staged; latest = self.old.staging.latest } }
        ensures round { self.new.round ≡ None }
        ensures adds { (x : Item) → IsNumbered self.old.staging.staged self.old.staging.latest x → IsPersistent self.new.staging.pending x ↔ (IsPersistent self.old.staging.pending x ⊎ ((y : Item) × IsOut self.old y × StandsFor y x)) }
        ensures writes { AddsNone self.old self.new }
        ensures room { self.new.room ≡ self.old.room }
    {
        if let Some(round) = self.round.take() {
            let ended = count_ended(&round, &self.persistent);
            give_up(&mut self.records, &mut self.newest, &self.levels, &round);
            self.levels.settle();
            raise_all(&mut self.persistent, &round);
            // What is of no use any more goes: what is kept by number from the front, entries once half of them have ended.
            self.levels.trim(self.staged, &self.latest);
            raise_floors(&mut self.entries.floors, &self.persistent, &self.latest);
            clean(&mut self.entries, ended, &self.levels, &self.persistent);
        }
    }

    /// How many families there are, 1 to 16.
    pub fn families(&self) -> usize
        ensures count { result ≡ length self.now.staging.latest }
        ensures whole { IsWhole self.now }
    {
        self.latest.len()
    }

    /// The number of the last plain write that was staged, 0 before the first; at most 2^63 - 1.
    pub fn last_plain(&self) -> u64
        ensures { result ≡ self.now.staging.staged }
    {
        self.staged
    }

    /// The last version of a family that was staged, before the first the one that was persistent from the start; at most
    /// 2^63 - 1.
    pub fn last_version(&self, family: usize) -> u64
        requires { family < length self.now.staging.latest }
        ensures { result ≡ slice_index self.now.staging.latest family }
    {
        self.latest[family]
    }

    /// The greatest version of a family that is persistent; at most 2^63 - 1.
    pub fn persistent_version(&self, family: usize) -> u64
        requires { family < length self.now.staging.latest }
        ensures { result ≡ slice_index self.now.staging.pending.persistent family }
    {
        self.persistent[family]
    }

    /// Whether a round is out: taken, and not yet settled.
    pub fn is_out(&self) -> bool
        ensures { IsTrue result ↔ IsSome self.now.round }
    {
        self.round.is_some()
    }

    /// The members of the round that is out, in its order, None where none is. It takes no memory.
    pub fn round(&self) -> Option<&[Element]>
        ensures { MatchOption result (self.now.round ≡ None) (λ xs. self.now.round ≡ Some xs.now) }
    {
        match &self.round {
            Some(round) => Some(round.as_slice()),
            None => None,
        }
    }

    /// Names all that was staged. It takes memory for one number a family.
    pub fn everything(&self) -> Result<Dependency, AllocError>
        ensures { IfOk result (λ d. d ≡ everything self.now.staging) }
    {
        let alloc = *self.persistent.allocator();
        Dependency::everything(alloc, self.staged, &self.latest)
    }

    /// Whether all that a dependency names was staged. It takes no memory.
    pub fn is_staged(&self, needs: &Dependency) -> bool
        ensures { IsTrue result ↔ IsWithin needs.now self.now.staging.staged self.now.staging.latest }
    {
        needs.is_within(self.staged, &self.latest)
    }

    /// Whether all that a dependency names is staged and persistent. The work is one look at what is kept for each write of a
    /// listed span, for all those up to a number together, and for each family; what waits is not gone through. It takes no
    /// memory.
    pub fn is_persistent(&self, needs: &Dependency) -> bool
        ensures { IsTrue result ↔ ((x : Item) → Names needs.now x → IsSatisfied self.now.staging x) }
    {
        if !self.is_staged(needs) {
            return false;
        }
        needs.versions_within(&self.persistent) && self.levels.have_named_ended(needs)
    }
}

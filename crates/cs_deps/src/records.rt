//! What is kept of what was staged: the page writes, the newest to each page, and each element with its own needs.
ghost use Rattle.std.specs.Prelude.{◌≡◌, ◌≢◌, ℕ, ◌+◌, ◌≤◌, ◌<◌, Contains, nat_eq, IfOk, IfSome, IsOk, max, Some, None, vec_len, vec_capacity, ◌==◌, ◌↔◌, if◌then◌else◌, IsSome, IsTrue, [], ◌∷◌, ◌++◌, MatchOption, OnOk, slice_get};
ghost use Rattle.std.specs.HashMap.{get as get_number, spare};
ghost use Rattle.cs_deps.specs.Newest.{AreKeyed, AreNewest, IsPut, IsLastUpTo, IsGivenUp, number_or_none};
ghost use Rattle.slab.specs.Slab.{get, slab_len, HasRoomFor, Slab as SlabOf};
ghost use Rattle.cs_deps.specs.declared.elements.Element.{Element as Item};
ghost use Rattle.cs_deps.specs.declared.levels.Kept.{Kept as KeptOf};
ghost use Rattle.cs_deps.specs.declared.records.Record.{Record as RecordOf};
ghost use Rattle.cs_deps.specs.Levels.{kept_by, HasRoom, IsSameBut};
ghost use Rattle.cs_deps.specs.Named.{Named};
ghost use Rattle.cs_deps.specs.State.{IsListed};

use crate::dependencies::Dependency;
use crate::elements::Element;
use crate::levels::{Kept, Levels};
use crate::needs::Needs;
use slab::Slab;
use std::alloc::{AllocError, Global};
use std::collections::HashMap;

/// An element's page write.
#[derive(Drop)]
pub struct Record {
    pub element: Element,
    pub page: u64,
    pub bytes: [u8; 4096],
    /// Of a plain write: no earlier one to its page that has a record has a number above this; 0 where none had one.
    pub older: u64,
}

/// The record under the key that is kept of an element, where it is still that element's.
pub fn record_of(records: &Slab<Record>, kept: Option<Kept>, element: Element) -> Option<&Record>
    ensures some { IfSome result (λ r. (k : KeptOf) × (kept ≡ Some k) × (get records.now k.key ≡ Some r.now) × (r.now.element ≡ element)) }
    ensures none { result ≡ None → (k : KeptOf) (r : RecordOf) → kept ≡ Some k → get records.now k.key ≡ Some r → r.element ≢ element }
{
    match kept {
        Some(kept) => record_at(records, kept.key, element),
        None => None,
    }
}

/// The record under a key, where it is this element's.
fn record_at(records: &Slab<Record>, key: usize, element: Element) -> Option<&Record>
    ensures some { IfSome result (λ r. (get records.now key ≡ Some r.now) × (r.now.element ≡ element)) }
    ensures none { result ≡ None → (r : RecordOf) → get records.now key ≡ Some r → r.element ≢ element }
{
    match records.get(key) {
        Some(record) => if record.element.is_same(element) {
            Some(record)
        } else {
            None
        },
        None => None,
    }
}

/// Gives up the record of one element.
fn give_up_one(
    records: &mut Slab<Record>,
    newest: &mut HashMap<u64, u64>,
    levels: &Levels,
    element: Element,
)
    requires keyed { AreKeyed levels.now records.old }
    ensures less { (key : ℕ) (r : RecordOf) → get records.new key ≡ Some r → get records.old key ≡ Some r }
    ensures gone { (k : KeptOf) → kept_by levels.now element ≡ Some k → get records.new k.key ≡ None }
    ensures rest { (key : ℕ) (r : RecordOf) → get records.old key ≡ Some r → ((k : KeptOf) → kept_by levels.now element ≡ Some k → k.key ≢ key) → get records.new key ≡ Some r }
    ensures count { slab_len records.new ≤ slab_len records.old }
    ensures capacity { records.new.capacity ≡ records.old.capacity }
    ensures newest { AreNewest records.old (get_number nat_eq newest.old) → AreNewest records.new (get_number nat_eq newest.new) }
    ensures spare { spare newest.old ≤ spare newest.new }
{
    if let Some(kept) = levels.kept(element) {
        if let Some(gone) = records.try_remove(kept.key) {
            lower(newest, records, levels, &gone);
        }
    }
}

/// Gives up the records of a round.
pub fn give_up(
    records: &mut Slab<Record>,
    newest: &mut HashMap<u64, u64>,
    levels: &Levels,
    round: &[Element],
)
    requires keyed { AreKeyed levels.now records.old }
    ensures less { (key : ℕ) (r : RecordOf) → get records.new key ≡ Some r → get records.old key ≡ Some r }
    ensures gone { (x : Item) (k : KeptOf) → Contains round.now x → kept_by levels.now x ≡ Some k → get records.new k.key ≡ None }
    ensures rest { (key : ℕ) (r : RecordOf) → get records.old key ≡ Some r → ((x : Item) (k : KeptOf) → Contains round.now x → kept_by levels.now x ≡ Some k → k.key ≢ key) → get records.new key ≡ Some r }
    ensures count { slab_len records.new ≤ slab_len records.old }
    ensures capacity { records.new.capacity ≡ records.old.capacity }
    ensures newest { AreNewest records.old (get_number nat_eq newest.old) → AreNewest records.new (get_number nat_eq newest.new) }
    ensures spare { spare newest.old ≤ spare newest.new }
{
    for k in 0..round.len() {
        give_up_one(records, newest, levels, round[k]);
    }
}

/// Gives up what stands under a key, where one is given.
pub fn clear(records: &mut Slab<Record>, key: Option<usize>)
    ensures none { key ≡ None → records.new ≡ records.old }
    ensures gone { IfSome key (λ k. get records.new k ≡ None) }
    ensures others { (other : ℕ) → key ≢ Some other → get records.new other ≡ get records.old other }
    ensures count { slab_len records.new ≤ slab_len records.old }
    ensures capacity { records.new.capacity ≡ records.old.capacity }
{
    if let Some(key) = key {
        records.try_remove(key);
    }
}

/// Makes room for more stagings, where there is less, and tells for how many there is.
pub fn make_room(
    entries: &mut Backlog,
    records: &mut Slab<Record>,
    newest: &mut HashMap<u64, u64>,
    levels: &mut Levels,
    room: usize,
    stagings: usize,
) -> Result<usize, AllocError>
    requires entries_fit { vec_len entries.old.list + room ≤ vec_capacity entries.old.list }
    requires places_fit { room ≤ vec_len entries.old.places }
    requires records_fit { HasRoomFor records.old room }
    requires newest_fit { room ≤ spare newest.old }
    requires levels_fit { HasRoom levels.old room }
    ensures entries { entries.new.list.items ≡ entries.old.list.items }
    ensures floors { entries.new.floors.items ≡ entries.old.floors.items }
    ensures records { records.new ≡ record records.old { capacity = records.new.capacity } }
    ensures newest { (p : ℕ) → get_number nat_eq newest.new p ≡ get_number nat_eq newest.old p }
    ensures levels { IsSameBut levels.old levels.new }
    ensures entry_count { vec_len entries.new.list ≡ vec_len entries.old.list }
    ensures more_entries { vec_capacity entries.old.list ≤ vec_capacity entries.new.list }
    ensures more_places { vec_len entries.old.places ≤ vec_len entries.new.places }
    ensures more_records { records.old.capacity ≤ records.new.capacity }
    ensures more_newest { spare newest.old ≤ spare newest.new }
    ensures room { IfOk result (λ made. made ≡ max room stagings) }
    ensures memory { stagings ≤ room → IsOk result }
    ensures entries_fit { IfOk result (λ made. vec_len entries.new.list + made ≤ vec_capacity entries.new.list) }
    ensures places_fit { IfOk result (λ made. made ≤ vec_len entries.new.places) }
    ensures records_fit { IfOk result (λ made. HasRoomFor records.new made) }
    ensures newest_fit { IfOk result (λ made. made ≤ spare newest.new) }
    ensures levels_fit { IfOk result (λ made. HasRoom levels.new made) }
{
    levels.reserve(stagings)?;
    entries.reserve(stagings)?;
    records.reserve(stagings)?;
    newest.reserve(stagings)?;
    Ok(room.max(stagings))
}

/// The number that is noted for a page, 0 where none is.
pub fn noted(newest: &HashMap<u64, u64>, page: u64) -> u64
    ensures { result ≡ number_or_none (get_number nat_eq newest.now page) }
{
    match newest.get(&page) {
        Some(number) => *number,
        None => 0,
    }
}

/// Notes a number for a page.
pub fn note(newest: &mut HashMap<u64, u64>, page: u64, number: u64)
    requires { 0 < spare newest.old }
    ensures numbers { (q : ℕ) → get_number nat_eq newest.new q ≡ (if page == q then Some number else get_number nat_eq newest.old q) }
    ensures spare { spare newest.old ≤ spare newest.new + 1 }
{
    // There is room, so nothing is refused.
    match newest.insert(page, number) {
        Ok(_) => {}
        Err(_) => {}
    }
}

/// Notes another number for a page that has one, or none. It takes no memory.
fn change(newest: &mut HashMap<u64, u64>, page: u64, found: Option<u64>)
    requires { IsSome (get_number nat_eq newest.old page) }
    ensures numbers { (q : ℕ) → get_number nat_eq newest.new q ≡ (if page == q then found else get_number nat_eq newest.old q) }
    ensures spare { spare newest.old ≤ spare newest.new }
{
    match found {
        Some(number) => if let Some(place) = newest.get_mut(&page) {
            *place = number;
        },
        None => {
            newest.remove(&page);
        }
    }
}

/// Whether this number is noted for a page.
fn is_noted(newest: &HashMap<u64, u64>, page: u64, number: u64) -> bool
    ensures { IsTrue result ↔ (get_number nat_eq newest.now page ≡ Some number) }
{
    match newest.get(&page) {
        Some(last) => *last == number,
        None => false,
    }
}

/// Whether this plain write has a record, and goes to this page.
fn is_put(records: &Slab<Record>, levels: &Levels, page: u64, number: u64) -> bool
    requires keyed { AreKeyed levels.now records.now }
    ensures { IsTrue result ↔ IsPut records.now page number }
{
    let element = Element::Plain(number);
    match record_of(records, levels.kept(element), element) {
        Some(record) => record.page == page,
        None => false,
    }
}

/// The greatest number up to this one of a plain write to a page of which a record is kept. It goes down the numbers to it.
fn last_up_to(records: &Slab<Record>, levels: &Levels, page: u64, last: u64) -> Option<u64>
    requires keyed { AreKeyed levels.now records.now }
    ensures { IsLastUpTo records.now page last result }
{
    let mut number = last;
    while number > levels.dropped {
        if is_put(records, levels, page, number) {
            return Some(number);
        }
        number -= 1;
    }
    None
}

/// Where a record was given up that was the newest to its page, notes the one before it. It takes no memory.
pub fn lower(newest: &mut HashMap<u64, u64>, records: &Slab<Record>, levels: &Levels, gone: &Record)
    requires keyed { AreKeyed levels.now records.now }
    ensures newest { (old : SlabOf RecordOf) (key : ℕ) → AreKeyed levels.now old → AreNewest old (get_number nat_eq newest.old) → IsGivenUp old records.now key gone.now → AreNewest records.now (get_number nat_eq newest.new) }
    ensures spare { spare newest.old ≤ spare newest.new }
{
    if let Element::Plain(number) = gone.element {
        if is_noted(newest, gone.page, number) {
            change(
                newest,
                gone.page,
                last_up_to(records, levels, gone.page, gone.older),
            );
        }
    }
}

/// Elements with their own needs, and memory for those of more.
#[derive(Drop)]
pub struct Backlog {
    /// In the order of staging. Some are of no use any more: those of plain writes that are persistent, and those of versions up to
    /// their family's floor.
    pub list: Vec<(Element, Needs)>,
    /// Of each family the last version that was staged when none of it waited; what that and those before it needed no later one
    /// needs.
    pub floors: Vec<u64>,
    /// So many elements have ended since the list was cleaned.
    pub ended: u64,
    /// A place for the needs of each element that there is room for, should they be many.
    pub places: Vec<Box<Dependency>>,
}

/// Adds a place.
fn add_place(places: &mut Vec<Box<Dependency>>) -> Result<(), AllocError>
    ensures fewer { vec_len places.old ≤ vec_len places.new }
    ensures more { OnOk result (vec_len places.new ≡ vec_len places.old + 1) }
{
    let alloc = *places.allocator();
    let place = Box::new(alloc, Dependency::empty(alloc))?;
    places.push(place)?;
    Ok(())
}

/// Adds places until there are so many.
fn fill(places: &mut Vec<Box<Dependency>>, count: usize) -> Result<(), AllocError>
    ensures fewer { vec_len places.old ≤ vec_len places.new }
    ensures enough { OnOk result (count ≤ vec_len places.new) }
    ensures memory { count ≤ vec_len places.old → IsOk result }
{
    for _ in places.len()..count {
        add_place(places)?;
    }
    Ok(())
}

/// The index in the list of an element's entry, from 0; None where it has none. Compares with each.
pub fn place_of(entries: &[(Element, Needs)], element: Element) -> Option<usize>
    ensures { MatchOption result (¬ IsListed entries.now element) (λ k. (d : Named) × (slice_get entries.now k ≡ Some (element, d))) }
{
    for k in 0..entries.len() {
        let entry = &entries[k];
        if entry.0.is_same(element) {
            return Some(k);
        }
    }
    None
}

impl Backlog {
    /// None, and room for none, with these floors.
    pub fn new(alloc: Global, floors: Vec<u64>) -> Self
        ensures items { result.list.items ≡ [] }
        ensures floors { result.floors.items ≡ floors.items }
        ensures len { vec_len result.list ≡ 0 }
    {
        Backlog {
            list: Vec::new(alloc),
            floors,
            ended: 0,
            places: Vec::new(alloc),
        }
    }

    /// Makes room for so many more.
    pub fn reserve(&mut self, stagings: usize) -> Result<(), AllocError>
        ensures items { self.new.list.items ≡ self.old.list.items }
        ensures floors { self.new.floors.items ≡ self.old.floors.items }
        ensures len { vec_len self.new.list ≡ vec_len self.old.list }
        ensures capacity { vec_capacity self.old.list ≤ vec_capacity self.new.list }
        ensures places { vec_len self.old.places ≤ vec_len self.new.places }
        ensures room { OnOk result (vec_len self.new.list + stagings ≤ vec_capacity self.new.list) }
        ensures place_room { OnOk result (stagings ≤ vec_len self.new.places) }
        ensures memory { vec_len self.old.list + stagings ≤ vec_capacity self.old.list → stagings ≤ vec_len self.old.places → IsOk result }
    {
        self.list.reserve(stagings)?;
        fill(&mut self.places, stagings)
    }

    /// Adds an element with what it needs.
    pub fn push_reserved(&mut self, element: Element, needs: Dependency)
        requires list { vec_len self.old.list < vec_capacity self.old.list }
        requires places { 0 < vec_len self.old.places }
        ensures items { self.new.list.items ≡ self.old.list.items ++ (element, needs) ∷ [] }
        ensures floors { self.new.floors.items ≡ self.old.floors.items }
        ensures len { vec_len self.new.list ≡ vec_len self.old.list + 1 }
        ensures capacity { vec_capacity self.new.list ≡ vec_capacity self.old.list }
        ensures places { vec_len self.new.places + 1 ≡ vec_len self.old.places }
    {
        if let Some(place) = self.places.pop() {
            self.list
                .push_reserved((element, Needs::within(needs, place)));
        }
    }
}

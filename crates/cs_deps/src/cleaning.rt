//! What is of no use any more goes, many at a time: entries, what persistent versions needed, and levels from the front.
ghost use Rattle.std.specs.Prelude.{◌≡◌, ℕ, ◌≤◌, ◌<◌, List, length, slice_index, vec_len, vec_capacity, true, IfOk, IfSome, Some, slice_get, IsTrue, ◌∷◌, ◌+◌, ◌≢◌, All};
ghost use Rattle.cs_deps.specs.declared.elements.Element.{Element as Item};
ghost use Rattle.cs_deps.specs.State.{IsListed};
ghost use Rattle.cs_deps.specs.Entries.{waiting_of, AreCurrent, nothing};
ghost use Rattle.cs_deps.specs.Levels.{level_by, live_of, floor_of, AreLive, family_at};
ghost use Rattle.cs_deps.specs.Named.{Named};
ghost use Rattle.cs_deps.specs.declared.levels.Levels.{Levels as LevelsOf};
ghost use Rattle.cs_deps.specs.Spent.{is_spent, carried_with, IsFolded};
ghost use Rattle.std.specs.VecDeque.{deque_len, deque_capacity};
ghost use Rattle.cs_deps.specs.declared.levels.Kept.{Kept as KeptOf};
ghost use Rattle.cs_deps.specs.Trimmed.{IsTrimmedList};

use crate::dependencies::{Dependency, version_at};
use crate::elements::Element;
use crate::levels::{Kept, Levels};
use crate::needs::Needs;
use crate::records::Backlog;
use crate::rounds::stands;
use crate::waiting::is_live;
use std::alloc::{AllocError, Global};
use std::collections::VecDeque;

/// How many elements end with a member of a round: a version ends with those before it.
fn ended_with(element: Element, persistent: &[u64]) -> u64 {
    match element {
        Element::Plain(_) => 1,
        Element::Version(family, version) => {
            version.saturating_sub(version_at(persistent, family))
        }
    }
}

/// How many elements end with a round, where these versions were persistent before.
pub fn count_ended(round: &[Element], persistent: &[u64]) -> u64 {
    let mut count: u64 = 0;
    for y in round {
        count = count.saturating_add(ended_with(*y, persistent));
    }
    count
}

/// The floor of a family: its last version where none waits, and else the floor that it had. Entries of versions up to the
/// floor are of no use any more: no version that waits needs what they say.
fn next_floor(persistent: u64, latest: u64, floor: u64) -> u64
    ensures { result ≡ floor_of persistent latest floor }
{
    if persistent < latest { floor } else { latest }
}

/// Raises the floor of each family of which nothing waits to its last version, as a later one needs nothing of those up to it; the
/// others keep theirs.
pub fn raise_floors(floors: &mut Vec<u64>, persistent: &[u64], latest: &[u64])
    requires count { length floors.old.items ≡ length latest.now }
    ensures each { (f : ℕ) → slice_index floors.new.items f ≡ floor_of (slice_index persistent.now f) (slice_index latest.now f) (slice_index floors.old.items f) }
    ensures count { length floors.new.items ≡ length floors.old.items }
{
    for family in 0..floors.len() {
        floors[family] = next_floor(
            version_at(persistent, family),
            version_at(latest, family),
            floors[family],
        );
    }
}

/// Takes away the entries that are of no use.
fn keep_live(entries: &mut Vec<(Element, Needs)>, levels: &Levels, floors: &[u64])
    ensures items { entries.new.items ≡ live_of levels.now floors.now entries.old.items }
    ensures count { vec_len entries.new ≤ vec_len entries.old }
    ensures capacity { vec_capacity entries.new ≡ vec_capacity entries.old }
{
    entries.retain(|w| is_live(levels, floors, w.0));
}

/// Takes away the entries that are of no use, and folds those of persistent versions.
fn clean_list(
    entries: &mut Vec<(Element, Needs)>,
    levels: &Levels,
    floors: &[u64],
    persistent: &[u64],
)
    ensures waiting { waiting_of persistent.now (live_of levels.now floors.now entries.new.items) ≡ waiting_of persistent.now (live_of levels.now floors.now entries.old.items) }
    ensures current { (latest : List ℕ) → AreCurrent persistent.now latest (live_of levels.now floors.now entries.old.items) → AreCurrent persistent.now latest (live_of levels.now floors.now entries.new.items) }
    ensures plains { (n : ℕ) → IsListed entries.new.items (Item.Plain n) → levels.now.ended < level_by levels.now (Item.Plain n) }
    ensures count { vec_len entries.new ≤ vec_len entries.old }
    ensures capacity { vec_capacity entries.new ≡ vec_capacity entries.old }
{
    keep_live(entries, levels, floors);
    fold_all(entries, persistent);
}

/// Cleans the list once at least half as many elements as it has entries have ended since it was cleaned, these with them.
/// So over all calls the work is linear in what ended, once for each family, and the list has at most twice the entries of what
/// waits and of what the last cleaning left of persistent versions.
pub fn clean(entries: &mut Backlog, ended: u64, levels: &Levels, persistent: &[u64])
    ensures waiting { waiting_of persistent.now (live_of levels.now entries.new.floors.items entries.new.list.items) ≡ waiting_of persistent.now (live_of levels.now entries.old.floors.items entries.old.list.items) }
    ensures current { (latest : List ℕ) → AreCurrent persistent.now latest (live_of levels.now entries.old.floors.items entries.old.list.items) → AreCurrent persistent.now latest (live_of levels.now entries.new.floors.items entries.new.list.items) }
    ensures plains { (last : ℕ) → ((n : ℕ) → levels.now.ended < level_by levels.now (Item.Plain n) → n ≤ last) → ((n : ℕ) → IsListed entries.old.list.items (Item.Plain n) → n ≤ last) → (n : ℕ) → IsListed entries.new.list.items (Item.Plain n) → n ≤ last }
    ensures floors { entries.new.floors.items ≡ entries.old.floors.items }
    ensures count { vec_len entries.new.list ≤ vec_len entries.old.list }
    ensures capacity { vec_capacity entries.new.list ≡ vec_capacity entries.old.list }
    ensures places { vec_len entries.new.places ≡ vec_len entries.old.places }
{
    entries.ended = entries.ended.saturating_add(ended);
    if entries.ended < entries.list.len() as u64 / 2 {
        return;
    }
    entries.ended = 0;
    clean_list(&mut entries.list, levels, &entries.floors, persistent);
}

/// Whether an entry is that of a version of a family up to this one, and its needs list no span and take no memory.
fn is_spent(entry: &(Element, Needs), family: usize, version: u64) -> bool
    ensures { result ≡ is_spent family version entry.now }
{
    stands(Element::Version(family, version), entry.0) && entry.1.is_foldable()
}

/// The index of such an entry, of one that has a place for many needs where there is one; None where there is no such entry.
fn place_of_spent(entries: &[(Element, Needs)], family: usize, version: u64) -> Option<usize>
    ensures { IfSome result (λ k. (w : Item × Named) × (slice_get entries.now k ≡ Some w) × (is_spent family version w ≡ true)) }
{
    let mut spent = None;
    for k in 0..entries.len() {
        let entry = &entries[k];
        if is_spent(entry, family, version) {
            if entry.1.has_place() {
                return Some(k);
            }
            spent = Some(k);
        }
    }
    spent
}

/// What all such entries need. It takes no memory.
fn carried(
    alloc: Global,
    entries: &[(Element, Needs)],
    family: usize,
    version: u64,
) -> Result<Dependency, AllocError>
    ensures { IfOk result (λ all. all ≡ carried_with family version nothing entries.now) }
{
    let mut all = Dependency::empty(alloc);
    for k in 0..entries.len() {
        let entry = &entries[k];
        if is_spent(entry, family, version) {
            entry.1.join_into(alloc, &mut all)?;
        }
    }
    Ok(all)
}

/// Puts one entry in the place of all such entries. It takes no memory: together they name versions of no more families than one of
/// them does, so where all of it needs a place, one of them has one, and that place is used again.
fn fold(entries: &mut Vec<(Element, Needs)>, family: usize, version: u64)
    ensures items { IsFolded family version entries.old.items entries.new.items }
    ensures count { vec_len entries.new ≤ vec_len entries.old }
    ensures capacity { vec_capacity entries.new ≡ vec_capacity entries.old }
{
    let alloc = *entries.allocator();
    let Some(k) = place_of_spent(entries, family, version) else {
        return;
    };
    let Ok(all) = carried(alloc, entries, family, version) else {
        return;
    };
    if !entries[k].1.hold(all) {
        return;
    }
    let (_, needs) = entries.remove(k);
    entries.retain(|w| !is_spent(w, family, version));
    entries.push_reserved((Element::Version(family, version), needs));
}

/// The same of one family, up to its persistent version.
fn fold_family(entries: &mut Vec<(Element, Needs)>, persistent: &[u64], family: usize)
    ensures waiting { waiting_of persistent.now entries.new.items ≡ waiting_of persistent.now entries.old.items }
    ensures current { (latest : List ℕ) → AreCurrent persistent.now latest entries.old.items → AreCurrent persistent.now latest entries.new.items }
    ensures live { (l : LevelsOf) (floors : List ℕ) → AreLive l floors entries.old.items → AreLive l floors entries.new.items }
    ensures count { vec_len entries.new ≤ vec_len entries.old }
    ensures capacity { vec_capacity entries.new ≡ vec_capacity entries.old }
{
    fold(entries, family, version_at(persistent, family));
}

/// Of each family puts one entry in the place of those of its persistent versions whose needs list no span and take no memory; the
/// others stay until the family's floor rises. What waits and what it needs stays. It takes no memory, and goes through the entries
/// for each family.
pub fn fold_all(entries: &mut Vec<(Element, Needs)>, persistent: &[u64])
    ensures waiting { waiting_of persistent.now entries.new.items ≡ waiting_of persistent.now entries.old.items }
    ensures current { (latest : List ℕ) → AreCurrent persistent.now latest entries.old.items → AreCurrent persistent.now latest entries.new.items }
    ensures live { (l : LevelsOf) (floors : List ℕ) → AreLive l floors entries.old.items → AreLive l floors entries.new.items }
    ensures count { vec_len entries.new ≤ vec_len entries.old }
    ensures capacity { vec_capacity entries.new ≡ vec_capacity entries.old }
{
    for family in 0..persistent.len() {
        fold_family(entries, persistent, family);
    }
}

/// Takes away the first of a list as long as their level is not above the base.
pub fn trim_list(list: &mut VecDeque<Kept>, base: u64)
    ensures list { IsTrimmedList base list.old.items list.new.items }
    ensures room { deque_len list.new ≤ deque_len list.old }
    ensures capacity { deque_capacity list.new ≡ deque_capacity list.old }
{
    for _ in 0..list.len() {
        if !is_settled(list, base) {
            return;
        }
        list.pop_front();
    }
}

/// Whether a list has a first, and the level of that is not above the base.
fn is_settled(list: &VecDeque<Kept>, base: u64) -> bool
    ensures { IsTrue result → (k : KeptOf) × (ks : List KeptOf) × (list.now.items ≡ k ∷ ks) × (k.level ≤ base) }
{
    match list.front() {
        Some(kept) => kept.level <= base,
        None => false,
    }
}

/// Takes away the first of a family's list, and tells where it begins, as its last number is this.
fn trim_family(versions: &mut Vec<VecDeque<Kept>>, family: usize, base: u64, last: u64) -> u64
    requires inside { family < length versions.old.items }
    requires last { length (family_at versions.old.items family) ≤ last }
    ensures here { IsTrimmedList base (family_at versions.old.items family) (family_at versions.new.items family) }
    ensures start { result + length (family_at versions.new.items family) ≡ last }
    ensures there { (f : ℕ) → f ≢ family → family_at versions.new.items f ≡ family_at versions.old.items f }
    ensures count { length versions.new.items ≡ length versions.old.items }
    ensures room { (n : ℕ) → All (λ q. deque_len q + n ≤ deque_capacity q) versions.old.items → All (λ q. deque_len q + n ≤ deque_capacity q) versions.new.items }
{
    trim_list(&mut versions[family], base);
    last - versions[family].len() as u64
}

/// Takes away the first of a family's list, where it has one.
fn trim_one(
    versions: &mut Vec<VecDeque<Kept>>,
    starts: &mut Vec<u64>,
    family: usize,
    base: u64,
    latest: &[u64],
)
    requires inside { family < length versions.old.items }
    requires counts { (f : ℕ) → slice_index starts.old.items f + length (family_at versions.old.items f) ≡ slice_index latest.now f }
    ensures lists { (f : ℕ) → IsTrimmedList base (family_at versions.old.items f) (family_at versions.new.items f) }
    ensures counts { (f : ℕ) → slice_index starts.new.items f + length (family_at versions.new.items f) ≡ slice_index latest.now f }
    ensures count { length versions.new.items ≡ length versions.old.items }
    ensures room { (n : ℕ) → All (λ q. deque_len q + n ≤ deque_capacity q) versions.old.items → All (λ q. deque_len q + n ≤ deque_capacity q) versions.new.items }
{
    if family < starts.len() {
        starts[family] = trim_family(versions, family, base, version_at(latest, family));
    }
}

/// Takes away the first of each family's list.
pub fn trim_each(
    versions: &mut Vec<VecDeque<Kept>>,
    starts: &mut Vec<u64>,
    base: u64,
    latest: &[u64],
)
    requires counts { (f : ℕ) → slice_index starts.old.items f + length (family_at versions.old.items f) ≡ slice_index latest.now f }
    ensures lists { (f : ℕ) → IsTrimmedList base (family_at versions.old.items f) (family_at versions.new.items f) }
    ensures counts { (f : ℕ) → slice_index starts.new.items f + length (family_at versions.new.items f) ≡ slice_index latest.now f }
    ensures count { length versions.new.items ≡ length versions.old.items }
    ensures room { (n : ℕ) → All (λ q. deque_len q + n ≤ deque_capacity q) versions.old.items → All (λ q. deque_len q + n ≤ deque_capacity q) versions.new.items }
{
    for family in 0..versions.len() {
        trim_one(versions, starts, family, base, latest);
    }
}

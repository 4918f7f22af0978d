//! Levels that are kept as elements are staged, and the ready queue of each level.

ghost use Rattle.std.specs.Prelude.{nat_lt, IsTrue, IsOk, IfOk, IfSome, OnOk, None, ◌≡◌, [], ◌^◌, ℕ, ◌+◌, ◌≤◌, ◌<◌, ◌⊎◌, ◌↔◌, All, Some, length, slice_index};
ghost use Rattle.std.specs.VecDeque.{deque_len, deque_capacity};
ghost use Rattle.cs_deps.specs.declared.levels.Kept.{Kept as KeptOf};
ghost use Rattle.cs_deps.specs.Trimmed.{IsTrimmed};
ghost use Rattle.cs_deps.specs.Named.{IsInSpan, IsInSpans};
ghost use Rattle.cs_deps.specs.Levels.{kept_by, top_of, family_at, level_by, row_at, IsBest, HasRoom, keyed, next_version, IsPlainPushed, IsVersionPushed, IsNew, IsSameBut, IsLevelsSettled};

use crate::cleaning::{trim_each, trim_list};
use crate::dependencies::{Dependency, version_at};
use crate::elements::Element;
use crate::keeps::{kept_at, keyed, level_at, link, next_plain, next_version};
use crate::rows::{widen, with_plain, with_version};
use crate::spans::Span;
use std::alloc::{AllocError, Global};
use std::collections::VecDeque;

/// The last level that may be given.
const LIMIT: u64 = 0x8000_0000_0000_0000;

/// What is kept of one element.
#[derive(Clone, Copy)]
pub struct Kept {
    /// Its height as it was staged and the number of rounds that had been taken by then, added up.
    pub level: u64,
    /// A need that is one level lower, None where nothing that it needed waited.
    pub before: Option<Element>,
    /// Of a plain write the next one of its level, 0 where there is none.
    pub next: u64,
    /// The greatest level of the plain writes up to this one, and the least that has it.
    pub top: u64,
    pub least: u64,
    /// The key of its page write in the graph's records. Once a later version of its family has its level, another write may
    /// stand there.
    pub key: usize,
}

/// The ready queue of a level: its first and last plain write, 0 where there is none, and of each family its greatest version, 0
/// where there is none.
#[derive(Clone, Copy)]
pub struct Row {
    pub first: u64,
    pub last: u64,
    pub versions: [u64; 16],
}

/// A level, and an element that has it.
#[derive(Clone, Copy)]
pub struct Best {
    pub level: u64,
    pub before: Option<Element>,
}

/// The levels of what waits.
#[derive(Drop)]
pub struct Levels {
    /// How many rounds with a member have ended.
    pub ended: u64,
    /// `ended`, and one more while such a round is out.
    pub base: u64,
    /// What is kept of the plain writes, by number, from the one after `dropped` on.
    pub plains: VecDeque<Kept>,
    pub dropped: u64,
    /// What is kept of the versions of each family, by number, from the one after its `starts` on.
    pub versions: Vec<VecDeque<Kept>>,
    pub starts: Vec<u64>,
    /// Ready queues, from the level after `ended` on.
    pub rows: VecDeque<Row>,
}

/// The higher of two.
fn better(best: Best, level: u64, element: Element) -> Best
    ensures low { best.level ≤ result.level }
    ensures above { level ≤ result.level }
    ensures reached { (result ≡ best) ⊎ ((result.level ≡ level) × (result.before ≡ Some element) × (0 < level)) }
{
    if best.level < level {
        Best {
            level,
            before: Some(element),
        }
    } else {
        best
    }
}

/// Whether a plain write goes before what was found.
fn goes_before(best: Best, level: u64, number: u64) -> bool
    ensures yes { IsTrue result → best.level ≤ level }
    ensures no { best.level < level → IsTrue result }
{
    best.level < level
        || (best.level == level
            && matches!(best.before, Some(Element::Plain(least)) if number < least))
}

/// Nothing is kept of so many families.
fn no_versions(alloc: Global, families: usize) -> Result<Vec<VecDeque<Kept>>, AllocError>
    ensures count { IfOk result (λ qs. length qs.items ≡ families) }
    ensures empty { IfOk result (λ qs. (f : ℕ) → family_at qs.items f ≡ []) }
{
    let mut versions = Vec::new(alloc);
    for _ in 0..families {
        versions.push(VecDeque::new(alloc))?;
    }
    Ok(versions)
}

/// Makes room for so many more in each family.
fn reserve_each(versions: &mut Vec<VecDeque<Kept>>, stagings: usize) -> Result<(), AllocError>
    ensures lists { (f : ℕ) → family_at versions.new.items f ≡ family_at versions.old.items f }
    ensures count { length versions.new.items ≡ length versions.old.items }
    ensures room { OnOk result (All (λ q. deque_len q + stagings ≤ deque_capacity q) versions.new.items) }
    ensures kept { (n : ℕ) → All (λ q. deque_len q + n ≤ deque_capacity q) versions.old.items → All (λ q. deque_len q + n ≤ deque_capacity q) versions.new.items }
    ensures memory { All (λ q. deque_len q + stagings ≤ deque_capacity q) versions.old.items → IsOk result }
{
    for family in 0..versions.len() {
        reserve_one(&mut versions[family], stagings)?;
    }
    Ok(())
}

/// Makes room for so many more.
fn reserve_one(list: &mut VecDeque<Kept>, stagings: usize) -> Result<(), AllocError>
    ensures items { list.new.items ≡ list.old.items }
    ensures len { deque_len list.new ≡ deque_len list.old }
    ensures room { OnOk result (deque_len list.new + stagings ≤ deque_capacity list.new) }
    ensures capacity { deque_capacity list.old ≤ deque_capacity list.new }
    ensures memory { deque_len list.old + stagings ≤ deque_capacity list.old → IsOk result }
{
    list.reserve(stagings)
}

impl Levels {
    /// No level is kept, and each family begins after its number.
    pub fn new(alloc: Global, starts: &[u64]) -> Result<Self, AllocError>
        ensures { IfOk result (λ l. IsNew starts.now l) }
    {
        let versions = no_versions(alloc, starts.len())?;
        let starts = starts.to_vec(alloc)?;
        Ok(Levels {
            ended: 0,
            base: 0,
            plains: VecDeque::new(alloc),
            dropped: 0,
            versions,
            starts,
            rows: VecDeque::new(alloc),
        })
    }

    /// What is kept of an element.
    pub fn kept(&self, element: Element) -> Option<Kept>
        ensures { result ≡ kept_by self.now element }
    {
        match element {
            Element::Plain(number) => kept_at(&self.plains, self.dropped, number),
            Element::Version(family, version) => self.kept_version(family, version),
        }
    }

    /// What is kept of a version.
    fn kept_version(&self, family: usize, version: u64) -> Option<Kept>
        ensures { result ≡ kept_by self.now (Element.Version family version) }
    {
        if family < self.versions.len() {
            let start = version_at(&self.starts, family);
            kept_at(&self.versions[family], start, version)
        } else {
            None
        }
    }

    /// Whether a plain write waits or is one of the round that is out: its level is above the rounds that ended.
    pub fn is_above(&self, number: u64) -> bool
        ensures { result ≡ nat_lt self.now.ended (level_by self.now (Element.Plain number)) }
    {
        let level = level_at(self.kept(Element::Plain(number)));
        self.ended < level
    }

    /// Whether no plain write up to a number waits, nor is one of the round that is out: the greatest level of them is kept.
    fn has_ended_through(&self, through: u64) -> bool
        ensures { IsTrue result ↔ (top_of (kept_by self.now (Element.Plain through)) ≤ self.now.ended) }
    {
        match self.kept(Element::Plain(through)) {
            Some(kept) => kept.top <= self.ended,
            None => true,
        }
    }

    /// Whether a plain write neither waits nor is one of the round that is out.
    fn has_ended(&self, number: u64) -> bool
        ensures { IsTrue result ↔ (level_by self.now (Element.Plain number) ≤ self.now.ended) }
    {
        !self.is_above(number)
    }

    /// Whether none of a span's plain writes waits or is one of the round that is out. It looks at each until one does.
    fn has_span_ended(&self, span: Span) -> bool
        ensures { IsTrue result ↔ ((n : ℕ) → IsInSpan n span → level_by self.now (Element.Plain n) ≤ self.now.ended) }
    {
        for number in span.first..=span.last {
            if !self.has_ended(number) {
                return false;
            }
        }
        true
    }

    /// Whether none of these spans' plain writes waits or is one of the round that is out.
    fn have_ended(&self, spans: &[Span]) -> bool
        ensures { IsTrue result ↔ ((n : ℕ) → IsInSpans spans.now n → level_by self.now (Element.Plain n) ≤ self.now.ended) }
    {
        for span in spans {
            if !self.has_span_ended(*span) {
                return false;
            }
        }
        true
    }

    /// Whether no plain write that a dependency names waits or is one of the round that is out. It takes one look for those up to
    /// its number, and one for each write of a listed span.
    pub fn have_named_ended(&self, needs: &Dependency) -> bool
        ensures { IsTrue result ↔ ((top_of (kept_by self.now (Element.Plain needs.now.through)) ≤ self.now.ended) × ((n : ℕ) → IsInSpans needs.now.spans n → level_by self.now (Element.Plain n) ≤ self.now.ended)) }
    {
        self.has_ended_through(needs.through_number()) && self.have_ended(needs.spans())
    }

    /// The higher of what was found so far and the highest plain write up to a number.
    fn top_through(&self, best: Best, through: u64) -> Best
        ensures low { best.level ≤ result.level }
        ensures above { (k : KeptOf) → kept_by self.now (Element.Plain through) ≡ Some k → k.top ≤ result.level }
        ensures reached { (result ≡ best) ⊎ ((k : KeptOf) × (kept_by self.now (Element.Plain through) ≡ Some k) × (result.before ≡ Some (Element.Plain k.least)) × (result.level ≡ k.top)) }
    {
        match self.kept(Element::Plain(through)) {
            Some(kept) => better(best, kept.top, Element::Plain(kept.least)),
            None => best,
        }
    }

    /// The higher of what was found so far and one plain write, at one level the one of the smaller number.
    fn top_plain(&self, best: Best, number: u64) -> Best
        ensures low { best.level ≤ result.level }
        ensures above { level_by self.now (Element.Plain number) ≤ result.level }
        ensures reached { (result ≡ best) ⊎ ((result.before ≡ Some (Element.Plain number)) × (level_by self.now (Element.Plain number) ≡ result.level)) }
    {
        let level = level_at(self.kept(Element::Plain(number)));
        if goes_before(best, level, number) {
            Best {
                level,
                before: Some(Element::Plain(number)),
            }
        } else {
            best
        }
    }

    /// The highest of what was found so far and a span's plain writes.
    fn top_span(&self, best: Best, span: Span) -> Best
        ensures low { best.level ≤ result.level }
        ensures above { (n : ℕ) → IsInSpan n span → level_by self.now (Element.Plain n) ≤ result.level }
        ensures reached { (result ≡ best) ⊎ ((n : ℕ) × IsInSpan n span × (result.before ≡ Some (Element.Plain n)) × (level_by self.now (Element.Plain n) ≡ result.level)) }
    {
        let mut top = best;
        for number in span.first..=span.last {
            top = self.top_plain(top, number);
        }
        top
    }

    /// The highest of what was found so far and the plain writes of the listed spans.
    fn top_listed(&self, best: Best, spans: &[Span]) -> Best
        ensures low { best.level ≤ result.level }
        ensures above { (n : ℕ) → IsInSpans spans.now n → level_by self.now (Element.Plain n) ≤ result.level }
        ensures reached { (result ≡ best) ⊎ ((n : ℕ) × IsInSpans spans.now n × (result.before ≡ Some (Element.Plain n)) × (level_by self.now (Element.Plain n) ≡ result.level)) }
    {
        let mut top = best;
        for span in spans {
            top = self.top_span(top, *span);
        }
        top
    }

    /// The higher of what was found so far and one version.
    fn top_version(&self, best: Best, family: usize, version: u64) -> Best
        ensures low { best.level ≤ result.level }
        ensures above { level_by self.now (Element.Version family version) ≤ result.level }
        ensures reached { (result ≡ best) ⊎ ((result.before ≡ Some (Element.Version family version)) × (level_by self.now (Element.Version family version) ≡ result.level) × (1 ≤ version)) }
    {
        let element = Element::Version(family, version);
        better(best, level_at(self.kept(element)), element)
    }

    /// The highest of what was found so far and the versions that are named.
    fn top_versions(&self, best: Best, needs: &Dependency) -> Best
        ensures low { best.level ≤ result.level }
        ensures above { (f : ℕ) → level_by self.now (Element.Version f (slice_index needs.now.least f)) ≤ result.level }
        ensures reached { (result ≡ best) ⊎ ((f : ℕ) × (result.before ≡ Some (Element.Version f (slice_index needs.now.least f))) × (level_by self.now (Element.Version f (slice_index needs.now.least f)) ≡ result.level) × (1 ≤ slice_index needs.now.least f)) }
    {
        let mut top = best;
        for family in 0..self.versions.len() {
            top = self.top_version(top, family, needs.least_of(family));
        }
        top
    }

    /// The greatest level of what is named, and an element that has it: the plain write of the smallest number, and where
    /// there is none the greatest version that is named of the first family that has one. The base, and none, where nothing that is named waits.
    /// It takes one look for the plain writes up to its number, one for each write of a listed span, and one for each family.
    pub fn top(&self, needs: &Dependency) -> Best
        ensures { IsBest (kept_by self.now) self.now.base needs.now result.level result.before }
    {
        let none = Best {
            level: self.base,
            before: None,
        };
        let some = self.top_through(none, needs.through_number());
        let more = self.top_listed(some, needs.spans());
        self.top_versions(more, needs)
    }

    /// Keeps the plain write after number `last`, one level above the highest of its needs.
    pub fn push_plain(&mut self, last: u64, best: Best, key: usize)
        requires low { self.old.ended ≤ best.level }
        requires high { best.level ≤ self.old.ended + length self.old.rows.items }
        requires last { last ≡ self.old.dropped + length self.old.plains.items }
        requires plains { deque_len self.old.plains < deque_capacity self.old.plains }
        requires rows { deque_len self.old.rows < deque_capacity self.old.rows }
        requires limit { (self.old.ended + length self.old.rows.items < 2 ^ 63) × (last < 2 ^ 63) }
        ensures pushed { (i : ℕ) → self.old.ended + i ≡ best.level → IsPlainPushed self.old self.new last i best.before key }
        ensures room { (n : ℕ) → HasRoom self.old (n + 1) → HasRoom self.new n }
    {
        let before = kept_at(&self.plains, self.dropped, last);
        let number = last + 1;
        let place = (best.level - self.ended) as usize;
        widen(&mut self.rows, place);
        let row = self.rows[place];
        link(&mut self.plains, self.dropped, row.last, number);
        self.rows[place] = with_plain(row, number);
        self.plains.push_back_reserved(next_plain(
            before,
            number,
            best.level + 1,
            best.before,
            key,
        ));
    }

    /// What is to be kept of the version behind the last one: one level over what it needs, and no lower than that one.
    pub fn next_of(&self, family: usize, last: u64, best: Best) -> Kept
        requires limit { best.level < 2 ^ 63 }
        ensures { result ≡ next_version (kept_by self.now (Element.Version family last)) self.now.base (best.level + 1) best.before }
    {
        let before = self.kept_version(family, last);
        next_version(before, self.base, best.level + 1, best.before)
    }

    /// The version of a family in the queue of a level, 0 where there is none.
    fn queued(&self, family: usize, level: u64) -> u64
        requires low { self.now.ended < level }
        requires family { family < 16 }
        ensures { (i : ℕ) → self.now.ended + i + 1 ≡ level → result ≡ slice_index (row_at self.now.rows.items i).versions family }
    {
        let place = level - self.ended - 1;
        if place < self.rows.len() as u64 {
            self.rows[place as usize].versions[family]
        } else {
            0
        }
    }

    /// The key of the version of a family in the queue of a level, which a greater one takes the place of.
    pub fn replaced(&self, family: usize, level: u64) -> Option<usize>
        requires low { self.now.ended < level }
        requires family { family < 16 }
        ensures some { (i : ℕ) → self.now.ended + i + 1 ≡ level → IfSome result (λ key. (k : KeptOf) × (0 < slice_index (row_at self.now.rows.items i).versions family) × (kept_by self.now (Element.Version family (slice_index (row_at self.now.rows.items i).versions family)) ≡ Some k) × (k.key ≡ key)) }
        ensures none { (i : ℕ) → self.now.ended + i + 1 ≡ level → result ≡ None → (slice_index (row_at self.now.rows.items i).versions family ≡ 0) ⊎ (kept_by self.now (Element.Version family (slice_index (row_at self.now.rows.items i).versions family)) ≡ None) }
    {
        let version = self.queued(family, level);
        if version == 0 {
            return None;
        }
        match self.kept_version(family, version) {
            Some(kept) => Some(kept.key),
            None => None,
        }
    }

    /// Keeps the version behind the last one, as it is to be kept, under its key.
    pub fn push_version(&mut self, family: usize, last: u64, kept: Kept, key: usize)
        requires inside { family < length self.old.versions.items }
        requires family { family < 16 }
        requires low { self.old.ended < kept.level }
        requires high { kept.level ≤ self.old.ended + length self.old.rows.items + 1 }
        requires last { last ≡ slice_index self.old.starts.items family + length (family_at self.old.versions.items family) }
        requires versions { All (λ q. deque_len q < deque_capacity q) self.old.versions.items }
        requires rows { deque_len self.old.rows < deque_capacity self.old.rows }
        requires limit { last < 2 ^ 63 }
        ensures pushed { (i : ℕ) → self.old.ended + i + 1 ≡ kept.level → IsVersionPushed self.old self.new family last i (keyed key kept) }
        ensures room { (n : ℕ) → HasRoom self.old (n + 1) → HasRoom self.new n }
    {
        let place = (kept.level - self.ended - 1) as usize;
        widen(&mut self.rows, place);
        let row = self.rows[place];
        self.rows[place] = with_version(row, family, last + 1);
        self.versions[family].push_back_reserved(keyed(kept, key));
    }

    /// Makes room for so many more elements.
    pub fn reserve(&mut self, stagings: usize) -> Result<(), AllocError>
        requires limit { self.old.ended + length self.old.rows.items ≤ 2 ^ 63 }
        ensures same { IsSameBut self.old self.new }
        ensures room { OnOk result (HasRoom self.new stagings) }
        ensures memory { HasRoom self.old stagings → IsOk result }
    {
        let left = LIMIT - (self.ended + self.rows.len() as u64);
        if left < stagings as u64 {
            return Err(AllocError);
        }
        self.plains.reserve(stagings)?;
        self.rows.reserve(stagings)?;
        reserve_each(&mut self.versions, stagings)
    }

    /// A round is taken: where something waits the base rises over the first level, so that heights are counted as if the round had ended.
    pub fn take(&mut self)
        requires limit { self.old.ended + length self.old.rows.items ≤ 2 ^ 63 }
        ensures empty { length self.old.rows.items ≡ 0 → self.new ≡ self.old }
        ensures one { 0 < length self.old.rows.items → self.new ≡ record self.old { base = self.old.ended + 1 } }
    {
        if self.rows.len() > 0 {
            self.base = self.ended + 1;
        }
    }

    /// The round is settled: its level counts as ended, and its queue goes. Where none was taken nothing changes.
    pub fn settle(&mut self)
        requires some { self.old.ended < self.old.base → 0 < length self.old.rows.items }
        requires near { self.old.base ≤ self.old.ended + 1 }
        ensures none { self.old.base ≤ self.old.ended → self.new ≡ self.old }
        ensures one { self.old.ended < self.old.base → IsLevelsSettled self.old self.new }
    {
        if self.ended < self.base {
            self.ended = self.base;
            self.rows.pop_front();
        }
    }

    /// Lets go what is kept of the elements that were staged first, as far as none is above the base, where so many were
    /// staged. Each goes once: over all calls the work is linear in what was staged, and in the families.
    pub fn trim(&mut self, staged: u64, latest: &[u64])
        requires plains { self.old.dropped + length self.old.plains.items ≡ staged }
        requires versions { (f : ℕ) → slice_index self.old.starts.items f + length (family_at self.old.versions.items f) ≡ slice_index latest.now f }
        ensures { IsTrimmed self.old self.new }
    {
        trim_list(&mut self.plains, self.base);
        self.dropped = staged - self.plains.len() as u64;
        trim_each(&mut self.versions, &mut self.starts, self.base, latest);
    }
}

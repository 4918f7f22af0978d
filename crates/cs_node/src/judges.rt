//! Whether purses, and what they handed in, account for a core.
ghost use Rattle.std.specs.Prelude.{◌≡◌, ℕ, ◌≤◌, ◌<◌, ◌+◌, ◌↔◌, List, drop, min, length, slice_index, All, IfOk, IsTrue, ◌-◌, ◌==◌, cond, vec_len, slice_index_or};
ghost use Rattle.cs_core.specs.declared.events.Event.{Event as Asked};
ghost use Rattle.cs_core.specs.declared.events.Reply.{Reply as Answer};
ghost use Rattle.cs_core.specs.Views.{kept};
ghost use Rattle.cs_node.specs.Numbers.{Within, times};
ghost use Rattle.cs_node.specs.Accounts.{AcksWithin, AreCalls, Judges, called_at, held, Stands, times_at, wanted};

use crate::accounting::account;
use crate::boards::Naming;
use crate::logs::Call;
use crate::numbers::Numbers;
use crate::purses::Purse;
use crate::stretches::Stretch;
use cs_core::{Core, Event, Reply};
use cs_deps::Element;
use cs_disk::PageDisk;
use cs_refusal::Refusal;
use std::alloc::{AllocError, Global};

/// Whether the purses, with what they handed in, account for a core: None if they do, else how many numbers they lack.
pub fn judge<D: PageDisk, K: Naming>(
    alloc: Global,
    core: &Core<D>,
    given: u64,
    handed: &Numbers,
    purses: &[Purse<K>],
) -> Result<Option<u64>, AllocError>
    ensures { IfOk result (λ o. Judges core.now given handed.now purses.now o) }
{
    let (accepted, frontier) = core.progress();
    let calls = count_calls(alloc, core.base(), core.history().len(), purses)?;
    let numbers = account(accepted, all_numbers(alloc, handed, purses)?);
    let here = purses.len() as u64 == given;
    let called = calls_agree(core.base(), core.history(), &calls, purses);
    let within = are_acks_within(frontier, handed, purses);
    if all_four(here, called, numbers.is_whole, within) {
        Ok(None)
    } else {
        Ok(Some(numbers.missing))
    }
}

fn all_four(a: bool, b: bool, c: bool, d: bool) -> bool
    ensures { IsTrue result ↔ (IsTrue a × IsTrue b × IsTrue c × IsTrue d) }
{
    a && b && c && d
}

/// By marks of places, whether the calls are those of the history, of which the events before `base` aren't kept.
fn calls_agree<K: Naming>(
    base: u64,
    kept: &[(Event, Reply)],
    marks: &[u8],
    purses: &[Purse<K>],
) -> bool
    requires len { length marks.now ≡ length kept.now }
    requires marked { (k : ℕ) → k < length kept.now → slice_index marks.now k ≡ min 2 (called_at (base + k) purses.now) }
    ensures { (history : List (Asked × Answer)) → base ≤ length history → kept.now ≡ drop base history → IsTrue result ↔ AreCalls base history purses.now }
{
    stand_in(base, kept, purses) && as_wanted(kept, marks)
}

/// All numbers: those handed in, and those of the purses' tickets and acks.
fn all_numbers<K: Naming>(
    alloc: Global,
    handed: &Numbers,
    purses: &[Purse<K>],
) -> Result<Vec<Stretch>, AllocError>
    ensures { IfOk result (λ all. (x : ℕ) → times x all.items ≡ held x handed.now purses.now) }
{
    let mut all = Vec::from_slice(alloc, handed.stretches())?;
    for purse in purses {
        all.extend_from_slice(purse.tickets())?;
        all.extend_from_slice(purse.acks())?;
    }
    Ok(all)
}

/// Whether no ack is above this number, handed in or not.
fn are_acks_within<K: Naming>(most: u64, handed: &Numbers, purses: &[Purse<K>]) -> bool
    ensures { IsTrue result ↔ AcksWithin most handed.now purses.now }
{
    handed.is_within(most) && have_acks_within(most, purses)
}

/// Whether no purse has an ack above this number.
fn have_acks_within<K: Naming>(most: u64, purses: &[Purse<K>]) -> bool
    ensures { IsTrue result ↔ All (λ h. Within most h.acks) purses.now }
{
    for purse in purses {
        if !purse.has_acks_within(most) {
            return false;
        }
    }
    true
}

/// Whether a call at a place from `base` on stands in the history, of which the events before that aren't kept.
fn stands(base: u64, kept: &[(Event, Reply)], call: &Call) -> bool
    ensures { (history : List (Asked × Answer)) → base ≤ length history → kept.now ≡ drop base history → IsTrue result ↔ (base ≤ call.now.place → Stands history call.now) }
{
    if call.place < base {
        return true;
    }
    match kept.get((call.place - base) as usize) {
        Some(entry) => is_same_event(&entry.0, &call.event) && is_same_reply(&entry.1, &call.reply),
        None => false,
    }
}

/// Whether each of the calls does.
fn all_stand(base: u64, kept: &[(Event, Reply)], calls: &[Call]) -> bool
    ensures { (history : List (Asked × Answer)) → base ≤ length history → kept.now ≡ drop base history → IsTrue result ↔ All (λ c. base ≤ c.place → Stands history c) calls.now }
{
    calls.iter().all(|call| stands(base, kept, call))
}

/// Whether each call of the purses does.
fn stand_in<K: Naming>(base: u64, kept: &[(Event, Reply)], purses: &[Purse<K>]) -> bool
    ensures { (history : List (Asked × Answer)) → base ≤ length history → kept.now ≡ drop base history → IsTrue result ↔ All (λ h. All (λ c. base ≤ c.place → Stands history c) h.calls) purses.now }
{
    purses
        .iter()
        .all(|purse| all_stand(base, kept, purse.calls()))
}

// Once more: none, once, or more than once.
fn bump(tally: &mut [u8], at: usize)
    requires { at < length tally.old }
    ensures { (k : ℕ) → k < length tally.old → slice_index tally.new k ≡ cond (at == k) (min 2 (slice_index tally.old k + 1)) (slice_index tally.old k) }
{
    tally[at] = if tally[at] == 0 { 1 } else { 2 };
}

// One call more, if it is at a place from `base` on.
fn count_place(base: u64, tally: &mut [u8], place: u64)
    ensures { (k : ℕ) → k < length tally.old → slice_index tally.new k ≡ cond (place == base + k) (min 2 (slice_index tally.old k + 1)) (slice_index tally.old k) }
{
    if base <= place && place - base < tally.len() as u64 {
        bump(tally, (place - base) as usize);
    }
}

fn count_places(base: u64, tally: &mut [u8], calls: &[Call])
    ensures { (k : ℕ) → k < length tally.old → slice_index tally.old k ≤ 2 → slice_index tally.new k ≡ min 2 (slice_index tally.old k + times_at (base + k) calls.now) }
{
    for call in calls {
        count_place(base, tally, call.place);
    }
}

/// How often each place from `base` on is called, up to 2.
fn count_calls<K: Naming>(
    alloc: Global,
    base: u64,
    places: usize,
    purses: &[Purse<K>],
) -> Result<Vec<u8>, AllocError>
    ensures { IfOk result (λ t. (vec_len t ≡ places) × ((k : ℕ) → k < places → slice_index t.items k ≡ min 2 (called_at (base + k) purses.now))) }
{
    let mut tally = vec![in alloc; 0u8; places]?;
    for purse in purses {
        count_places(base, &mut tally, purse.calls());
    }
    Ok(tally)
}

fn is_wanted(event: &Event) -> u8
    ensures { result ≡ wanted event.now }
{
    match event {
        Event::Put(_, _) | Event::Get(_) | Event::Delete(_) | Event::Settle(_) => 1,
        _ => 0,
    }
}

/// Whether each place is called as often as its event wants.
fn as_wanted(history: &[(Event, Reply)], tally: &[u8]) -> bool
    requires { length tally.now ≡ length history.now }
    ensures { IsTrue result ↔ ((k : ℕ) (d : Asked × Answer) → k < length history.now → slice_index tally.now k ≡ wanted (slice_index_or history.now k d).0) }
{
    for i in 0..history.len() {
        if tally[i] != is_wanted(&history[i].0) {
            return false;
        }
    }
    true
}

/// Whether two events are the same.
fn is_same_event(a: &Event, b: &Event) -> bool
    ensures { IsTrue result ↔ (a.now ≡ b.now) }
{
    match (a, b) {
        (Event::Put(i, x), Event::Put(j, y)) => *i == *j && x.as_slice() == y.as_slice(),
        (Event::Get(i), Event::Get(j)) => *i == *j,
        (Event::Delete(i), Event::Delete(j)) => *i == *j,
        (Event::Stage, Event::Stage) => true,
        (Event::Begin, Event::Begin) => true,
        (Event::Issue, Event::Issue) => true,
        (Event::End, Event::End) => true,
        (Event::BeginSweep(e), Event::BeginSweep(f)) => *e == *f,
        (Event::MoveOne(e), Event::MoveOne(f)) => *e == *f,
        (Event::Retire(e), Event::Retire(f)) => *e == *f,
        (Event::Abandon(e), Event::Abandon(f)) => *e == *f,
        (Event::Settle(m), Event::Settle(n)) => *m == *n,
        _ => false,
    }
}

/// Whether two refusals are the same.
fn is_same_refusal(a: Refusal, b: Refusal) -> bool
    ensures { IsTrue result ↔ (a ≡ b) }
{
    a == b
}

/// Whether two lists of elements are the same.
fn are_same(a: &[Element], b: &[Element]) -> bool
    ensures { IsTrue result ↔ (a.now ≡ b.now) }
{
    if a.len() != b.len() {
        return false;
    }
    for i in 0..a.len() {
        if !a[i].is_same(b[i]) {
            return false;
        }
    }
    true
}

/// Whether a reply is that of a full history, which isn't recorded.
pub fn is_full(reply: &Reply) -> bool
    ensures { IsTrue result ↔ (reply.now ≡ Reply.Refused Refusal.HistoryFull) }
{
    matches!(reply, Reply::Refused(Refusal::HistoryFull))
}

/// Whether two replies are the same.
fn is_same_reply(a: &Reply, b: &Reply) -> bool
    ensures { IsTrue result ↔ (a.now ≡ b.now) }
{
    match (a, b) {
        (Reply::Accepted(m), Reply::Accepted(n)) => *m == *n,
        (Reply::Found(x), Reply::Found(y)) => x.as_slice() == y.as_slice(),
        (Reply::Absent, Reply::Absent) => true,
        (Reply::Staged(m), Reply::Staged(n)) => *m == *n,
        (Reply::Unchanged, Reply::Unchanged) => true,
        (Reply::Begun(x), Reply::Begun(y)) => are_same(x.as_slice(), y.as_slice()),
        (Reply::Nothing, Reply::Nothing) => true,
        (Reply::Issued(x, p), Reply::Issued(y, q)) => x.is_same(*y) && *p == *q,
        (Reply::Ended(m), Reply::Ended(n)) => *m == *n,
        (Reply::Sweeping, Reply::Sweeping) => true,
        (Reply::Moved(i, m), Reply::Moved(j, n)) => *i == *j && *m == *n,
        (Reply::NoneLive, Reply::NoneLive) => true,
        (Reply::Retired(m), Reply::Retired(n)) => *m == *n,
        (Reply::Abandoned, Reply::Abandoned) => true,
        (Reply::Persistent, Reply::Persistent) => true,
        (Reply::NotYet(m), Reply::NotYet(n)) => *m == *n,
        (Reply::Refused(r), Reply::Refused(s)) => is_same_refusal(*r, *s),
        _ => false,
    }
}

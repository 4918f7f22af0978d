//! A disk in pairs.
ghost use Rattle.std.specs.Prelude.{◌≡◌};
ghost use Rattle.cs_disk.specs.Disk.{IsWhole, seen};
ghost use Rattle.cs_twin.specs.Fitting.{IsFit};
ghost use Rattle.cs_twin.specs.Laws.{ShowsKept};
ghost use Rattle.cs_twin.specs.Kept.{TakesWrite};
ghost use Rattle.cs_twin.specs.Noted.{AreNotes, AreRight, IsUndoubted, failed, refused_of};
ghost use Rattle.cs_twin.specs.Pairs.{ArePairs, left_shown, shown_state};

use crate::findings::{Filling, Finding, read_findings};
use crate::notes::Notes;
use crate::pairs::{PageRules, Pair, Place};
use cs_disk::{CrashDisk, DiskFault, PageDisk};
use std::alloc::Global;

/// A disk over another one, below which some pages lie twice. It shows each pair as one page, that of its newest half
/// that is whole, and the twins as zeros, which can't be written. A write to a pair goes to the half that isn't the
/// newest of the durable image. So what a flush made durable is never written over, and of a write that a crash or
/// damage spoils the older half is left.
///
/// A write to a pair is refused 1 DeviceFault, and counted, if the bytes aren't whole, or if their version isn't
/// greater than that of any half. So is a write to a twin, and one to another page of bytes that the rules don't
/// allow there.
///
/// So is each write to a pair while a half of the pairs is neither whole nor a fence, as after a crash or damage.
/// `fence` or `repair_all` fills it first, so that no write can complete what was torn there.
///
/// If the disk below refuses a write to a pair, it isn't known which half is the newest. Pairs are neither read nor
/// written after that, and nothing is flushed, until the disk is opened anew.
///
/// It is honest where the disk below is. It keeps 50 bytes for each pair. The first read or write of a pair after the
/// opening, and after a crash, reads all pairs.
#[derive(Drop)]
pub struct Paired<D: PageDisk, R: PageRules> {
    disk: D,
    rules: R,
    pairs: Vec<Pair>,
    notes: Notes,
    ghost apart: { ArePairs pairs.items (D.page_count disk) },
    ghost noted: { AreNotes pairs.items notes },
    ghost right: { D.honest disk → AreRight (R.version rules) pairs.items notes (D.state disk) },
    ghost fit: { D.honest disk → IsFit R.PageRules rules pairs.items (D.page_count disk) (D.state disk) },
    // What follows from these is said to the trait's laws.
    ghost shows: { D.honest disk → ShowsKept (R.version rules) pairs.items (D.state disk) },
    ghost whole: { D.honest disk → IsWhole (shown_state (R.version rules) pairs.items (D.state disk)) },
}

impl<D: PageDisk, R: PageRules> Paired<D, R> {
    ghost use Rattle.std.specs.Prelude.{◌↔◌, ◌≢◌, ◌⊎◌, ◌+◌, ◌<◌, ◌≤◌, [], ℕ, None, Some, IfErr, IfOk, MatchResult, OnOk, length, map, slice_get};
    ghost use Rattle.std.specs.List.{AllByRecursion};
    ghost use Rattle.cs_disk.specs.Disk.{HasCause, LeavesOnly, MayLeave, Rises, StaysSound, flushed, page};
    ghost use Rattle.cs_disk.specs.Reads.{OnlyReads};
    ghost use Rattle.cs_twin.specs.declared.pairs.Pair.{Pair};
    ghost use Rattle.cs_twin.specs.Fences.{AreFenced, AreOverKnown, AreWhole, IsGuarded};
    ghost use Rattle.cs_twin.specs.Findings.{finding_in, passed_over};
    ghost use Rattle.cs_twin.specs.Paired.{IsSound, disk_below, failures_of, left_as_shown, moment_of, pairs_of, refusals_of, rules_of, state_shown, versions_of};
    ghost use Rattle.cs_twin.specs.Pairs.{AreNoOlder, fence, half, held_in, is_turned};

    /// A disk in these pairs: it flushes the disk below, and has what the rules keep of it. What lies in the pairs is
    /// read later.
    pub fn new(alloc: Global, disk: D, rules: R, pairs: Vec<Pair>) -> Result<Self, (DiskFault, D)>
    where
        R: Drop,
        requires pairs { ArePairs pairs.items (D.page_count disk) }
        requires fits { D.honest disk → R.fits rules pairs.items (D.page_count disk) (seen (D.state disk)) }
        ensures pairs { IfOk result (λ p. pairs_of p ≡ pairs.items) }
        ensures rules { IfOk result (λ p. rules_of p ≡ rules) }
        ensures state { D.honest disk → MatchResult result (λ p. D.state (disk_below p) ≡ flushed (D.state disk)) (λ refused. D.state refused.1 ≡ D.state disk) }
        ensures crash { D.honest disk → MatchResult result (λ p. LeavesOnly D.moment D.left_since disk (disk_below p) (MayLeave (D.state disk))) (λ refused. LeavesOnly D.moment D.left_since disk refused.1 (MayLeave (D.state disk))) }
        // A flush, and no write.
        ensures calls { D.honest disk → MatchResult result (λ p. D.moment (disk_below p) ≡ D.moment disk + 1) (λ refused. D.moment refused.1 ≤ D.moment disk + 1) }
        ensures honest { MatchResult result (λ p. D.honest disk ↔ D.honest (disk_below p)) (λ refused. D.honest disk ↔ D.honest refused.1) }
        ensures pages { MatchResult result (λ p. D.page_count (disk_below p) ≡ D.page_count disk) (λ refused. D.page_count refused.1 ≡ D.page_count disk) }
        ensures failures { IfOk result (λ p. D.failure_count disk ≤ D.failure_count (disk_below p)) }
        ensures cause { IfErr result (λ refused. refused.0 ≡ DiskFault.DeviceFault → Rises (D.failure_count disk) (D.failure_count refused.1)) }
        ensures refusals { IfOk result (λ p. refusals_of p ≡ 0) }
        ensures sound { IfOk result (λ p. IsSound p) }
    {
        let notes = match Notes::new(alloc, pairs.len()) {
            Ok(notes) => notes,
            Err(_) => return Err((DiskFault::OutOfMemory, disk)),
        };
        let mut disk = disk;
        match disk.flush() {
            Ok(()) => Ok(Paired {
                disk,
                rules,
                pairs,
                notes,
            }),
            Err(fault) => Err((fault, disk)),
        }
    }

    /// Reads both halves of each pair, and tells what they hold, in the order of the pairs.
    pub fn findings(&mut self, alloc: Global) -> Result<Vec<Finding>, DiskFault>
        ensures findings { D.honest (disk_below self.old) → IfOk result (λ found. found.items ≡ map (finding_in (R.version (rules_of self.old)) (seen (D.state (disk_below self.old)))) (pairs_of self.old)) }
        ensures pairs { pairs_of self.new ≡ pairs_of self.old }
        ensures rules { rules_of self.new ≡ rules_of self.old }
        ensures disk { OnlyReads D.PageDisk (disk_below self.old) (disk_below self.new) }
        ensures cause { HasCause (D.failure_count (disk_below self.old)) (D.failure_count (disk_below self.new)) result }
        ensures sound { StaysSound IsSound refusals_of self.old self.new }
        ensures refusals { refusals_of self.new ≡ refusals_of self.old }
    {
        read_findings(alloc, &mut self.disk, &self.rules, &self.pairs)
    }

    /// Fills the half of each pair that is passed over with a fence, bytes of 255. No later write can complete what
    /// was torn there. What shows stays as it is, and a crash meanwhile leaves what one before might have left.
    ///
    /// It flushes first, also if there is nothing to fill. Then it reads both halves of each pair. For each page that
    /// is passed over it writes a fence and flushes.
    ///
    /// After an Err the first of them may be filled and the rest not, and it can be called again. But if a fence was
    /// written and not flushed, pairs are neither read nor written, and nothing is flushed, until the disk is opened
    /// anew.
    pub fn fence(&mut self) -> Result<(), DiskFault>
        // No page is passed over any more.
        ensures fenced { D.honest (disk_below self.old) → OnOk result (AllByRecursion (λ x. passed_over (finding_in (versions_of self.old) (seen (D.state (disk_below self.new))) x) ≡ None) (pairs_of self.old)) }
        // What was passed over is a fence, and no other page is written.
        ensures filled { D.honest (disk_below self.old) → OnOk result (AllByRecursion (λ x. (number : ℕ) → passed_over (finding_in (versions_of self.old) (seen (D.state (disk_below self.old))) x) ≡ Some number → page (seen (D.state (disk_below self.new))) number ≡ fence) (pairs_of self.old)) }
        ensures untouched { D.honest (disk_below self.old) → OnOk result ((number : ℕ) → AllByRecursion (λ x. passed_over (finding_in (versions_of self.old) (seen (D.state (disk_below self.old))) x) ≢ Some number) (pairs_of self.old) → page (seen (D.state (disk_below self.new))) number ≡ page (seen (D.state (disk_below self.old))) number) }
        // If the newest half of each pair is whole, each half is whole or a fence now, and pairs are written again.
        ensures known { D.honest (disk_below self.old) → OnOk result (AllByRecursion (λ x. 0 < (held_in (versions_of self.old) (seen (D.state (disk_below self.old))) x).version) (pairs_of self.old) → AreFenced (versions_of self.old) (pairs_of self.old) (D.state (disk_below self.new)).durable) }
        ensures durable { D.honest (disk_below self.old) → OnOk result ((D.state (disk_below self.new)).volatile ≡ []) }
        ensures shown { D.honest (disk_below self.old) → seen (state_shown self.new) ≡ seen (state_shown self.old) }
        ensures crash { D.honest (disk_below self.old) → LeavesOnly moment_of left_as_shown self.old self.new (MayLeave (state_shown self.old)) }
        ensures honest { D.honest (disk_below self.old) ↔ D.honest (disk_below self.new) }
        ensures pages { D.page_count (disk_below self.new) ≡ D.page_count (disk_below self.old) }
        ensures pairs { pairs_of self.new ≡ pairs_of self.old }
        ensures rules { rules_of self.new ≡ rules_of self.old }
        ensures cause { HasCause (failures_of self.old) (failures_of self.new) result }
        // Where no write was in doubt it is refused by the disk below alone.
        ensures refusals { IsSound self.old → refusals_of self.new ≡ refusals_of self.old }
        // It stays sound, so it goes on reading and writing pairs.
        ensures sound { IsSound self.old → OnOk result (IsSound self.new) }
    {
        self.notes
            .fill_all(&mut self.disk, &self.rules, &self.pairs, Filling::Fence)
    }

    /// Writes the damaged half of each pair anew whose other half is whole, pair by pair. It writes a fence first, so
    /// that a torn copy can't complete what was lost, and then what the other half holds. What shows stays as it is,
    /// and a crash meanwhile leaves what one before might have left.
    ///
    /// It flushes first, and reads both halves of each pair. For each damaged one it reads the other once more,
    /// writes a fence, flushes, writes the copy, and flushes.
    ///
    /// After an Err the first of the damaged halves may be written anew and the rest not, and it can be called again.
    /// But if a page was written and not flushed, pairs are neither read nor written, and nothing is flushed, until
    /// the disk is opened anew.
    pub fn repair_all(&mut self) -> Result<(), DiskFault>
        // No page is passed over any more.
        ensures whole { D.honest (disk_below self.old) → OnOk result (AllByRecursion (λ x. passed_over (finding_in (versions_of self.old) (seen (D.state (disk_below self.new))) x) ≡ None) (pairs_of self.old)) }
        // What was passed over is written with what the newest half holds, and no other page is.
        ensures copied { D.honest (disk_below self.old) → OnOk result (AllByRecursion (λ x. (number : ℕ) → passed_over (finding_in (versions_of self.old) (seen (D.state (disk_below self.old))) x) ≡ Some number → page (seen (D.state (disk_below self.new))) number ≡ page (seen (D.state (disk_below self.old))) (half x (is_turned (versions_of self.old) (seen (D.state (disk_below self.old))) x))) (pairs_of self.old)) }
        ensures untouched { D.honest (disk_below self.old) → OnOk result ((number : ℕ) → AllByRecursion (λ x. passed_over (finding_in (versions_of self.old) (seen (D.state (disk_below self.old))) x) ≢ Some number) (pairs_of self.old) → page (seen (D.state (disk_below self.new))) number ≡ page (seen (D.state (disk_below self.old))) number) }
        ensures durable { D.honest (disk_below self.old) → OnOk result ((D.state (disk_below self.new)).volatile ≡ []) }
        ensures shown { D.honest (disk_below self.old) → seen (state_shown self.new) ≡ seen (state_shown self.old) }
        ensures crash { D.honest (disk_below self.old) → LeavesOnly moment_of left_as_shown self.old self.new (MayLeave (state_shown self.old)) }
        ensures honest { D.honest (disk_below self.old) ↔ D.honest (disk_below self.new) }
        ensures pages { D.page_count (disk_below self.new) ≡ D.page_count (disk_below self.old) }
        ensures pairs { pairs_of self.new ≡ pairs_of self.old }
        ensures rules { rules_of self.new ≡ rules_of self.old }
        ensures cause { HasCause (failures_of self.old) (failures_of self.new) result }
        // Where no write was in doubt it is refused by the disk below alone.
        ensures refusals { IsSound self.old → refusals_of self.new ≡ refusals_of self.old }
        // It stays sound, so it goes on reading and writing pairs.
        ensures sound { IsSound self.old → OnOk result (IsSound self.new) }
    {
        self.notes
            .fill_all(&mut self.disk, &self.rules, &self.pairs, Filling::Copy)
    }

    /// A disk in these pairs, and what their halves hold: it flushes the disk below, and reads the pairs. A pair
    /// neither half of which is whole shows its twin. The disk comes back where it is refused.
    pub fn open(
        alloc: Global,
        disk: D,
        rules: R,
        pairs: Vec<Pair>,
    ) -> Result<(Self, Vec<Finding>), (DiskFault, D)>
    where
        R: Drop,
        requires pairs { ArePairs pairs.items (D.page_count disk) }
        requires fits { D.honest disk → R.fits rules pairs.items (D.page_count disk) (seen (D.state disk)) }
        ensures pairs { IfOk result (λ opened. pairs_of opened.0 ≡ pairs.items) }
        ensures rules { IfOk result (λ opened. rules_of opened.0 ≡ rules) }
        ensures findings { D.honest disk → IfOk result (λ opened. opened.1.items ≡ map (finding_in (R.version rules) (seen (D.state disk))) pairs.items) }
        ensures state { D.honest disk → MatchResult result (λ opened. D.state (disk_below opened.0) ≡ flushed (D.state disk)) (λ refused. (D.state refused.1 ≡ D.state disk) ⊎ (D.state refused.1 ≡ flushed (D.state disk))) }
        ensures crash { D.honest disk → MatchResult result (λ opened. LeavesOnly D.moment D.left_since disk (disk_below opened.0) (MayLeave (D.state disk))) (λ refused. LeavesOnly D.moment D.left_since disk refused.1 (MayLeave (D.state disk))) }
        ensures calls { D.honest disk → MatchResult result (λ opened. D.moment (disk_below opened.0) ≡ D.moment disk + 1) (λ refused. D.moment refused.1 ≤ D.moment disk + 1) }
        ensures honest { MatchResult result (λ opened. D.honest disk ↔ D.honest (disk_below opened.0)) (λ refused. D.honest disk ↔ D.honest refused.1) }
        ensures pages { MatchResult result (λ opened. D.page_count (disk_below opened.0) ≡ D.page_count disk) (λ refused. D.page_count refused.1 ≡ D.page_count disk) }
        ensures failures { IfOk result (λ opened. D.failure_count disk ≤ D.failure_count (disk_below opened.0)) }
        ensures cause { IfErr result (λ refused. refused.0 ≡ DiskFault.DeviceFault → Rises (D.failure_count disk) (D.failure_count refused.1)) }
        ensures refusals { IfOk result (λ opened. refusals_of opened.0 ≡ 0) }
        ensures sound { IfOk result (λ opened. IsSound opened.0) }
    {
        let mut paired = match Paired::new(alloc, disk, rules, pairs) {
            Ok(paired) => paired,
            Err(refused) => return Err(refused),
        };
        match paired.findings(alloc) {
            Ok(found) => Ok((paired, found)),
            Err(fault) => Err((fault, paired.into_disk())),
        }
    }

    /// The disk below.
    pub fn disk(&self) -> &D
        ensures disk { result.now ≡ disk_below self.now }
        ensures pairs { ArePairs (pairs_of self.now) (D.page_count (disk_below self.now)) }
        // Its volatile writes to pairs go to the halves that aren't the newest of its durable image, and are newer,
        // or the same, or fences.
        ensures no_older { D.honest (disk_below self.now) → AreNoOlder (R.version (rules_of self.now)) (pairs_of self.now) (D.state (disk_below self.now)) }
        // If a whole page waits to be written to a pair, each half of it is whole or a fence.
        ensures guarded { D.honest (disk_below self.now) → IsGuarded (versions_of self.now) (pairs_of self.now) (D.state (disk_below self.now)) }
        // No fence waits but while a write is in doubt.
        ensures no_fence { D.honest (disk_below self.now) → IsSound self.now → AreWhole (versions_of self.now) (pairs_of self.now) (D.state (disk_below self.now)) }
        ensures over_known { D.honest (disk_below self.now) → IsSound self.now → AreOverKnown (versions_of self.now) (pairs_of self.now) (D.state (disk_below self.now)) }
    {
        &self.disk
    }

    /// The disk below.
    pub fn into_disk(self) -> D
    where
        R: Drop,
        ensures { result ≡ disk_below self }
    {
        let Paired {
            disk,
            rules: _,
            pairs: _,
            notes: _,
        } = self;
        disk
    }
}

impl<D: PageDisk, R: PageRules> PageDisk for Paired<D, R> {
    ghost use Rattle.std.proofs.Common.{◌∙◌};
    ghost use Rattle.cs_twin.specs.Laws.{counts_pairs, only_pairs, sized_shown};

    ghost honest = { λ p. D.honest p.disk };

    ghost state = { λ p. shown_state (R.version p.rules) p.pairs.items (D.state p.disk) };

    ghost device = { λ p. D.state p.disk };

    ghost page_count = { λ p. D.page_count p.disk };

    ghost failure_count = { λ p. failed (D.failure_count p.disk) p.notes };

    ghost refusal_count = { λ p. refused_of p.notes };

    ghost sound = { λ p. IsUndoubted p.notes };

    ghost takes = { λ p. TakesWrite (R.version p.rules) (R.allowed p.rules) p.pairs.items (seen (D.state p.disk)) };

    ghost moment = { λ p. D.moment p.disk };

    ghost left_since = { λ p. left_shown (R.version p.rules) p.pairs.items (D.left_since p.disk) };

    fn pages(&self) -> u64 {
        self.disk.pages()
    }

    fn failures(&self) -> u64 {
        self.disk.failures().saturating_add(self.notes.refused)
    }

    fn read(&mut self, number: u64, buffer: &mut [u8; 4096]) -> Result<(), DiskFault> {
        match Place::of(&self.pairs, number) {
            Place::Own => self.disk.read(number, buffer),
            Place::OfTwin => {
                *buffer = [0; 4096];
                Ok(())
            }
            Place::OfPair(k) => {
                self.notes
                    .read_newest(&mut self.disk, &self.rules, &self.pairs, k, buffer)
            }
        }
    }

    fn write(&mut self, number: u64, bytes: &[u8; 4096]) -> Result<(), DiskFault> {
        match Place::of(&self.pairs, number) {
            Place::Own => {
                if self.rules.allows(number, bytes) {
                    self.disk.write(number, bytes)
                } else {
                    self.notes.refuse()
                }
            }
            Place::OfTwin => self.notes.refuse(),
            Place::OfPair(k) => {
                self.notes
                    .write_newer(&mut self.disk, &self.rules, &self.pairs, k, bytes)
            }
        }
    }

    fn flush(&mut self) -> Result<(), DiskFault> {
        // Called for its contract alone: what is kept by a flush.
        self.rules.keep();
        self.notes.flush(&mut self.disk, &self.rules, &self.pairs)
    }

    ghost sized = { λ p h. sized_shown (R.version p.rules) p.pairs.items (D.state p.disk).durable ∙ D.sized p.disk h };

    ghost whole = { λ p h. p.whole h };

    ghost counts_now = { λ p t c h le now. counts_pairs (R.version p.rules) p.pairs.items (D.state p.disk) (p.shows h) (D.left_since p.disk) t (λ image is. D.counts_now p.disk t image h le is) c now };

    ghost only_now = { λ p c h left. only_pairs (R.version p.rules) p.pairs.items (D.state p.disk) (p.shows h) (D.left_since p.disk) (D.moment p.disk) (λ image is. D.only_now p.disk image h is) c left };
}

impl<D: CrashDisk, R: PageRules> CrashDisk for Paired<D, R> {
    ghost use Rattle.std.proofs.Common.{sym, ◌∙◌};
    ghost use Rattle.std.proofs.lemmas.List.{length-map};
    ghost use Rattle.cs_twin.specs.Pairs.{shown_write};

    ghost can_crash = { λ p. D.can_crash p.disk };

    ghost volatile_count = { λ p. D.volatile_count p.disk };

    fn crashable(&self) -> bool {
        self.disk.crashable()
    }

    fn volatile(&self) -> usize {
        self.disk.volatile()
    }

    fn crash(self, mask: &[bool]) -> Self {
        if !self.disk.crashable() {
            return self;
        }
        let Paired {
            disk,
            rules,
            pairs,
            mut notes,
        } = self;
        notes.forget();
        // Called for its contract alone: what is kept by a crash.
        rules.keep();
        Paired {
            disk: disk.crash(mask),
            rules,
            pairs,
            notes,
        }
    }

    ghost counted = { λ p h can. D.counted p.disk h can ∙ sym (length-map (D.state p.disk).volatile (shown_write (R.version p.rules) p.pairs.items)) };
}

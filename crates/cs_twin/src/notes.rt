//! What is noted of pairs.
ghost use Rattle.std.specs.Prelude.{◌≡◌, if◌then◌else◌};

use crate::findings::{Filling, fill, read_damaged, read_held};
use crate::pairs::{Held, PageRules, Pair, half_of};
use cs_disk::{DiskFault, PageDisk};
use std::alloc::{AllocError, Global};

/// Whether the notes count.
#[derive(Clone, Copy)]
pub enum Trust {
    /// Nothing was read yet since the disk was opened, or since it crashed.
    Unread,
    /// They say what the pairs hold, each half of which is whole or a fence.
    Read,
    /// They say what the pairs hold, and a half of them is neither whole nor a fence: no pair is written until it is.
    Unfenced,
    /// A write to a pair failed: it may be among the volatile ones or not.
    Doubted,
}

/// What the notes are worth after the pairs were read.
fn trust_in(known: bool) -> Trust
    ensures { result ≡ (if known then Trust.Read else Trust.Unfenced) }
{
    if known { Trust::Read } else { Trust::Unfenced }
}

/// What is noted of each pair, and how many calls were refused without the device.
#[derive(Drop)]
pub struct Notes {
    /// Which half is the newest of the durable image.
    pub durable: Vec<Held>,
    /// Which half is the newest of what the disk reads as.
    pub newest: Vec<Held>,
    pub trust: Trust,
    /// Up to 2^64 - 1, where it stays.
    pub refused: u64,
}

impl Notes {
    ghost use Rattle.std.specs.Prelude.{◌≡◌, ◌<◌, ◌+◌, ◌-◌, ◌^◌, ◌↔◌, ◌⊎◌, [], Bool, List, Some, IfOk, IsErrOf, OnErr, OnOk, length, min, not, slice_get};
    ghost use Rattle.cs_disk.specs.Disk.{Counts, GoesOn, HasCause, LeavesOnly, MayLeave, StaysSound, flushed, page, seen, written};
    ghost use Rattle.cs_disk.specs.Reads.{OnlyReads};
    ghost use Rattle.cs_twin.specs.declared.pairs.Pair.{Pair};
    ghost use Rattle.cs_twin.specs.Fences.{AreFenced};
    ghost use Rattle.cs_twin.specs.Findings.{AreLaidOver, finding_in, laid_over, passed_over};
    ghost use Rattle.cs_twin.specs.Fillings.{filling_of};
    ghost use Rattle.cs_twin.specs.Fitting.{IsFit};
    ghost use Rattle.cs_twin.specs.Noted.{AreNotes, AreRight, IsRead, IsUndoubted, failed, refused_of};
    ghost use Rattle.cs_twin.specs.Pairs.{ArePairs, IsNewer, half, is_turned, shown, shown_state};

    /// Notes of so many pairs, of which nothing was read yet.
    pub fn new(alloc: Global, count: usize) -> Result<Self, AllocError>
        ensures durable { IfOk result (λ notes. length notes.durable.items ≡ count) }
        ensures newest { IfOk result (λ notes. length notes.newest.items ≡ count) }
        ensures trust { IfOk result (λ notes. notes.trust ≡ Trust.Unread) }
        ensures refused { IfOk result (λ notes. notes.refused ≡ 0) }
    {
        let none = Held {
            turned: false,
            version: 0,
        };
        Ok(Notes {
            durable: vec![in alloc; none; count]?,
            newest: vec![in alloc; none; count]?,
            trust: Trust::Unread,
            refused: 0,
        })
    }

    /// Counts a call that is refused without the device.
    pub fn refuse(&mut self) -> Result<(), DiskFault>
        ensures fault { result ≡ Err DiskFault.DeviceFault }
        ensures notes { self.new ≡ record self.old { refused = min (self.old.refused + 1) (2 ^ 64 - 1) } }
    {
        self.refused = self.refused.saturating_add(1);
        Err(DiskFault::DeviceFault)
    }

    /// After a crash nothing that is noted counts.
    pub fn forget(&mut self)
        ensures { self.new ≡ record self.old { trust = Trust.Unread } }
    {
        self.trust = Trust::Unread;
    }

    /// Reads the pairs where nothing was read yet; refused where a write is in doubt.
    fn refresh<D: PageDisk, R: PageRules>(
        &mut self,
        disk: &mut D,
        rules: &R,
        pairs: &[Pair],
    ) -> Result<(), DiskFault>
        requires pairs { ArePairs pairs.now (D.page_count disk.old) }
        requires notes { AreNotes pairs.now self.old }
        requires right { D.honest disk.old → AreRight (R.version rules.now) pairs.now self.old (D.state disk.old) }
        ensures read { OnOk result (IsRead self.new.trust) }
        ensures notes { AreNotes pairs.now self.new }
        ensures right { D.honest disk.new → AreRight (R.version rules.now) pairs.now self.new (D.state disk.new) }
        ensures disk { OnlyReads D.PageDisk disk.old disk.new }
        ensures cause { HasCause (failed (D.failure_count disk.old) self.old) (failed (D.failure_count disk.new) self.new) result }
        ensures sound { StaysSound IsUndoubted refused_of self.old self.new }
    {
        match self.trust {
            Trust::Read | Trust::Unfenced => Ok(()),
            Trust::Doubted => self.refuse(),
            Trust::Unread => match read_held(disk, rules, pairs, &mut self.newest) {
                Ok(known) => {
                    self.durable.copy_from_slice(&self.newest);
                    self.trust = trust_in(known);
                    Ok(())
                }
                Err(fault) => Err(fault),
            },
        }
    }

    /// Reads the newest half of a pair.
    pub fn read_newest<D: PageDisk, R: PageRules>(
        &mut self,
        disk: &mut D,
        rules: &R,
        pairs: &[Pair],
        k: usize,
        buffer: &mut [u8; 4096],
    ) -> Result<(), DiskFault>
        requires inside { k < length pairs.now }
        requires pairs { ArePairs pairs.now (D.page_count disk.old) }
        requires notes { AreNotes pairs.now self.old }
        requires right { D.honest disk.old → AreRight (R.version rules.now) pairs.now self.old (D.state disk.old) }
        ensures bytes { D.honest disk.old → (x : Pair) → slice_get pairs.now k ≡ Some x
            → OnOk result (buffer.new ≡ page (seen (D.state disk.old)) (half x (is_turned (R.version rules.now) (seen (D.state disk.old)) x))) }
        ensures notes { AreNotes pairs.now self.new }
        ensures right { D.honest disk.new → AreRight (R.version rules.now) pairs.now self.new (D.state disk.new) }
        ensures disk { OnlyReads D.PageDisk disk.old disk.new }
        ensures cause { HasCause (failed (D.failure_count disk.old) self.old) (failed (D.failure_count disk.new) self.new) result }
        ensures sound { StaysSound IsUndoubted refused_of self.old self.new }
    {
        match self.refresh(disk, rules, pairs) {
            Ok(()) => disk.read(half_of(pairs[k], self.newest[k].turned), buffer),
            Err(fault) => Err(fault),
        }
    }

    /// Writes the half of a pair that isn't the newest of the durable image, where the notes count. Refused where the
    /// bytes aren't whole, or their version isn't greater than that of any half.
    fn write_half<D: PageDisk, R: PageRules>(
        &mut self,
        disk: &mut D,
        rules: &R,
        pairs: &[Pair],
        k: usize,
        bytes: &[u8; 4096],
    ) -> Result<(), DiskFault>
        requires inside { k < length pairs.now }
        requires pairs { ArePairs pairs.now (D.page_count disk.old) }
        requires notes { AreNotes pairs.now self.old }
        requires read { self.old.trust ≡ Trust.Read }
        requires right { D.honest disk.old → AreRight (R.version rules.now) pairs.now self.old (D.state disk.old) }
        ensures ok { D.honest disk.old → (x : Pair) → slice_get pairs.now k ≡ Some x → OnOk result
            (D.state disk.new ≡ written (D.state disk.old) (half x (not (is_turned (R.version rules.now) (D.state disk.old).durable x))) bytes.now) }
        ensures fault { D.honest disk.old → (x : Pair) → slice_get pairs.now k ≡ Some x → (D.state disk.new ≡ D.state disk.old)
            ⊎ ((0 < R.version rules.now x.page bytes.now) × (D.state disk.new ≡ written (D.state disk.old) (half x (not (is_turned (R.version rules.now) (D.state disk.old).durable x))) bytes.now)) }
        ensures memory { D.honest disk.old → IsErrOf result DiskFault.OutOfMemory → D.state disk.new ≡ D.state disk.old }
        ensures count { D.honest disk.old → Counts result (D.moment disk.old) (D.moment disk.new) }
        ensures time { GoesOn D.honest D.state D.moment D.left_since disk.old disk.new }
        ensures honest { D.honest disk.old ↔ D.honest disk.new }
        ensures pages { D.page_count disk.new ≡ D.page_count disk.old }
        ensures notes { AreNotes pairs.now self.new }
        ensures right { D.honest disk.new → AreRight (R.version rules.now) pairs.now self.new (D.state disk.new) }
        ensures cause { HasCause (failed (D.failure_count disk.old) self.old) (failed (D.failure_count disk.new) self.new) result }
        ensures whole { (x : Pair) → slice_get pairs.now k ≡ Some x → OnOk result (0 < R.version rules.now x.page bytes.now) }
        ensures taken { D.honest disk.old → (x : Pair) → slice_get pairs.now k ≡ Some x → IsNewer (R.version rules.now) (seen (D.state disk.old)) x bytes.now → refused_of self.new ≡ refused_of self.old }
        ensures sound { OnOk result (IsUndoubted self.new) }
        ensures unwritten { IsUndoubted self.old → IsErrOf result DiskFault.OutOfMemory → IsUndoubted self.new }
    {
        let pair = pairs[k];
        let version = match rules.version_of(pair.page, bytes) {
            Ok(version) => version,
            Err(fault) => return Err(fault),
        };
        if version <= self.newest[k].version {
            return self.refuse();
        }
        let twin = !self.durable[k].turned;
        match disk.write(half_of(pair, twin), bytes) {
            Ok(()) => {
                self.newest[k] = Held {
                    turned: twin,
                    version,
                };
                Ok(())
            }
            Err(DiskFault::OutOfMemory) => Err(DiskFault::OutOfMemory),
            Err(DiskFault::DeviceFault) => {
                self.trust = Trust::Doubted;
                Err(DiskFault::DeviceFault)
            }
        }
    }

    /// Writes a pair, as it shows. Refused while a half of the pairs is neither whole nor a fence.
    pub fn write_newer<D: PageDisk, R: PageRules>(
        &mut self,
        disk: &mut D,
        rules: &R,
        pairs: &[Pair],
        k: usize,
        bytes: &[u8; 4096],
    ) -> Result<(), DiskFault>
        requires inside { k < length pairs.now }
        requires pairs { ArePairs pairs.now (D.page_count disk.old) }
        requires notes { AreNotes pairs.now self.old }
        requires right { D.honest disk.old → AreRight (R.version rules.now) pairs.now self.old (D.state disk.old) }
        ensures ok { D.honest disk.old → (x : Pair) → slice_get pairs.now k ≡ Some x → OnOk result
            (shown_state (R.version rules.now) pairs.now (D.state disk.new) ≡ written (shown_state (R.version rules.now) pairs.now (D.state disk.old)) x.page bytes.now) }
        ensures fault { D.honest disk.old → (x : Pair) → slice_get pairs.now k ≡ Some x
            → (shown_state (R.version rules.now) pairs.now (D.state disk.new) ≡ shown_state (R.version rules.now) pairs.now (D.state disk.old))
            ⊎ (shown_state (R.version rules.now) pairs.now (D.state disk.new) ≡ written (shown_state (R.version rules.now) pairs.now (D.state disk.old)) x.page bytes.now) }
        // Below it goes to a half, or, where it is refused, nowhere.
        ensures below_ok { D.honest disk.old → (x : Pair) → slice_get pairs.now k ≡ Some x → OnOk result ((twin : Bool) × (D.state disk.new ≡ written (D.state disk.old) (half x twin) bytes.now)) }
        ensures below { D.honest disk.old → (x : Pair) → slice_get pairs.now k ≡ Some x → (D.state disk.new ≡ D.state disk.old) ⊎ (twin : Bool) × (D.state disk.new ≡ written (D.state disk.old) (half x twin) bytes.now) }
        ensures memory { D.honest disk.old → IsErrOf result DiskFault.OutOfMemory → D.state disk.new ≡ D.state disk.old }
        ensures count { D.honest disk.old → Counts result (D.moment disk.old) (D.moment disk.new) }
        ensures time { GoesOn D.honest D.state D.moment D.left_since disk.old disk.new }
        ensures honest { D.honest disk.old ↔ D.honest disk.new }
        ensures pages { D.page_count disk.new ≡ D.page_count disk.old }
        ensures notes { AreNotes pairs.now self.new }
        ensures right { D.honest disk.new → AreRight (R.version rules.now) pairs.now self.new (D.state disk.new) }
        ensures cause { HasCause (failed (D.failure_count disk.old) self.old) (failed (D.failure_count disk.new) self.new) result }
        ensures whole { (x : Pair) → slice_get pairs.now k ≡ Some x → OnOk result (0 < R.version rules.now x.page bytes.now) }
        ensures taken { D.honest disk.old → IsUndoubted self.old → AreFenced (R.version rules.now) pairs.now (seen (D.state disk.old)) → (x : Pair) → slice_get pairs.now k ≡ Some x → IsNewer (R.version rules.now) (seen (D.state disk.old)) x bytes.now → refused_of self.new ≡ refused_of self.old }
        ensures sound { OnOk result (IsUndoubted self.new) }
        ensures unwritten { IsUndoubted self.old → IsErrOf result DiskFault.OutOfMemory → IsUndoubted self.new }
    {
        match self.refresh(disk, rules, pairs) {
            Ok(()) => match self.trust {
                Trust::Read => self.write_half(disk, rules, pairs, k, bytes),
                Trust::Unread | Trust::Unfenced | Trust::Doubted => self.refuse(),
            },
            Err(fault) => Err(fault),
        }
    }

    /// Flushes the disk: the newest halves are then the newest of the durable image. Refused where a write is in doubt.
    pub fn flush<D: PageDisk, R: PageRules>(
        &mut self,
        disk: &mut D,
        rules: &R,
        pairs: &[Pair],
    ) -> Result<(), DiskFault>
        requires pairs { ArePairs pairs.now (D.page_count disk.old) }
        requires notes { AreNotes pairs.now self.old }
        requires right { D.honest disk.old → AreRight (R.version rules.now) pairs.now self.old (D.state disk.old) }
        ensures ok { D.honest disk.old → OnOk result (D.state disk.new ≡ flushed (D.state disk.old)) }
        ensures err { D.honest disk.old → OnErr result (D.state disk.new ≡ D.state disk.old) }
        ensures count { D.honest disk.old → Counts result (D.moment disk.old) (D.moment disk.new) }
        ensures time { GoesOn D.honest D.state D.moment D.left_since disk.old disk.new }
        ensures honest { D.honest disk.old ↔ D.honest disk.new }
        ensures pages { D.page_count disk.new ≡ D.page_count disk.old }
        ensures notes { AreNotes pairs.now self.new }
        ensures right { D.honest disk.new → AreRight (R.version rules.now) pairs.now self.new (D.state disk.new) }
        ensures cause { HasCause (failed (D.failure_count disk.old) self.old) (failed (D.failure_count disk.new) self.new) result }
        ensures sound { StaysSound IsUndoubted refused_of self.old self.new }
    {
        if let Trust::Doubted = self.trust {
            return self.refuse();
        }
        match disk.flush() {
            Ok(()) => {
                self.durable.copy_from_slice(&self.newest);
                Ok(())
            }
            Err(fault) => Err(fault),
        }
    }

    /// Fills the half of a pair that is passed over, and flushes. It isn't known what is durable if that fails.
    fn refill<D: PageDisk, R: PageRules>(
        &mut self,
        disk: &mut D,
        rules: &R,
        pairs: &[Pair],
        k: usize,
        filling: Filling,
    ) -> Result<(), DiskFault>
        requires inside { k < length pairs.now }
        requires pairs { ArePairs pairs.now (D.page_count disk.old) }
        requires notes { AreNotes pairs.now self.old }
        requires right { D.honest disk.old → AreRight (R.version rules.now) pairs.now self.old (D.state disk.old) }
        requires settled { D.honest disk.old → (D.state disk.old).volatile ≡ [] }
        ensures laid { D.honest disk.old → (x : Pair) → slice_get pairs.now k ≡ Some x → OnOk result (D.state disk.new ≡ record { durable = laid_over (R.version rules.now) (D.state disk.old).durable x (filling_of (R.version rules.now) filling (D.state disk.old).durable x); volatile = [] }) }
        ensures shown { D.honest disk.old → shown (R.version rules.now) pairs.now (seen (D.state disk.new)) ≡ shown (R.version rules.now) pairs.now (D.state disk.old).durable }
        ensures crash { D.honest disk.old → LeavesOnly D.moment D.left_since disk.old disk.new (λ left. shown (R.version rules.now) pairs.now left ≡ shown (R.version rules.now) pairs.now (D.state disk.old).durable) }
        ensures fit { D.honest disk.old → IsFit R.PageRules rules.now pairs.now (D.page_count disk.old) (D.state disk.old) → IsFit R.PageRules rules.now pairs.now (D.page_count disk.old) (D.state disk.new) }
        ensures honest { D.honest disk.old ↔ D.honest disk.new }
        ensures pages { D.page_count disk.new ≡ D.page_count disk.old }
        ensures notes { AreNotes pairs.now self.new }
        ensures right { D.honest disk.new → AreRight (R.version rules.now) pairs.now self.new (D.state disk.new) }
        ensures cause { HasCause (failed (D.failure_count disk.old) self.old) (failed (D.failure_count disk.new) self.new) result }
        ensures refused { refused_of self.new ≡ refused_of self.old }
        ensures sound { IsUndoubted self.old → OnOk result (IsUndoubted self.new) }
    {
        // Called for its contract alone: what is kept by a write and a flush.
        rules.keep();
        let mut bytes = [0; 4096];
        match read_damaged(disk, rules, pairs[k], &mut bytes) {
            Ok(Some(page)) => match fill(disk, page, &bytes, filling) {
                Ok(()) => {
                    self.trust = Trust::Unread;
                    Ok(())
                }
                Err(fault) => {
                    self.trust = Trust::Doubted;
                    Err(fault)
                }
            },
            Ok(None) => Ok(()),
            Err(fault) => Err(fault),
        }
    }

    /// Fills the half of each pair that is passed over, and flushes after each of them.
    fn refill_all<D: PageDisk, R: PageRules>(
        &mut self,
        disk: &mut D,
        rules: &R,
        pairs: &[Pair],
        filling: Filling,
    ) -> Result<(), DiskFault>
        requires pairs { ArePairs pairs.now (D.page_count disk.old) }
        requires notes { AreNotes pairs.now self.old }
        requires right { D.honest disk.old → AreRight (R.version rules.now) pairs.now self.old (D.state disk.old) }
        requires settled { D.honest disk.old → (D.state disk.old).volatile ≡ [] }
        ensures laid { D.honest disk.old → OnOk result (AreLaidOver (R.version rules.now) (filling_of (R.version rules.now) filling) pairs.now (D.state disk.old).durable (D.state disk.new).durable) }
        ensures settled { D.honest disk.old → OnOk result ((D.state disk.new).volatile ≡ []) }
        ensures shown { D.honest disk.old → shown (R.version rules.now) pairs.now (seen (D.state disk.new)) ≡ shown (R.version rules.now) pairs.now (D.state disk.old).durable }
        ensures crash { D.honest disk.old → LeavesOnly D.moment D.left_since disk.old disk.new (λ left. shown (R.version rules.now) pairs.now left ≡ shown (R.version rules.now) pairs.now (D.state disk.old).durable) }
        ensures fit { D.honest disk.old → IsFit R.PageRules rules.now pairs.now (D.page_count disk.old) (D.state disk.old) → IsFit R.PageRules rules.now pairs.now (D.page_count disk.old) (D.state disk.new) }
        ensures honest { D.honest disk.old ↔ D.honest disk.new }
        ensures pages { D.page_count disk.new ≡ D.page_count disk.old }
        ensures notes { AreNotes pairs.now self.new }
        ensures right { D.honest disk.new → AreRight (R.version rules.now) pairs.now self.new (D.state disk.new) }
        ensures cause { HasCause (failed (D.failure_count disk.old) self.old) (failed (D.failure_count disk.new) self.new) result }
        ensures refused { refused_of self.new ≡ refused_of self.old }
        ensures sound { IsUndoubted self.old → OnOk result (IsUndoubted self.new) }
    {
        for k in 0..pairs.len() {
            match self.refill(disk, rules, pairs, k, filling) {
                Ok(()) => {}
                Err(fault) => return Err(fault),
            }
        }
        Ok(())
    }

    /// Flushes the disk, and fills the half of each pair that is passed over. Refused while a write is in doubt.
    pub fn fill_all<D: PageDisk, R: PageRules>(
        &mut self,
        disk: &mut D,
        rules: &R,
        pairs: &[Pair],
        filling: Filling,
    ) -> Result<(), DiskFault>
        requires pairs { ArePairs pairs.now (D.page_count disk.old) }
        requires notes { AreNotes pairs.now self.old }
        requires right { D.honest disk.old → AreRight (R.version rules.now) pairs.now self.old (D.state disk.old) }
        ensures laid { D.honest disk.old → OnOk result (AreLaidOver (R.version rules.now) (filling_of (R.version rules.now) filling) pairs.now (seen (D.state disk.old)) (seen (D.state disk.new))) }
        ensures settled { D.honest disk.old → OnOk result ((D.state disk.new).volatile ≡ []) }
        ensures shown { D.honest disk.old → seen (shown_state (R.version rules.now) pairs.now (D.state disk.new)) ≡ seen (shown_state (R.version rules.now) pairs.now (D.state disk.old)) }
        ensures crash { D.honest disk.old → LeavesOnly D.moment D.left_since disk.old disk.new (λ left. MayLeave (shown_state (R.version rules.now) pairs.now (D.state disk.old)) (shown (R.version rules.now) pairs.now left)) }
        ensures fit { D.honest disk.old → IsFit R.PageRules rules.now pairs.now (D.page_count disk.old) (D.state disk.old) → IsFit R.PageRules rules.now pairs.now (D.page_count disk.old) (D.state disk.new) }
        ensures honest { D.honest disk.old ↔ D.honest disk.new }
        ensures pages { D.page_count disk.new ≡ D.page_count disk.old }
        ensures notes { AreNotes pairs.now self.new }
        ensures right { D.honest disk.new → AreRight (R.version rules.now) pairs.now self.new (D.state disk.new) }
        ensures cause { HasCause (failed (D.failure_count disk.old) self.old) (failed (D.failure_count disk.new) self.new) result }
        ensures refused { IsUndoubted self.old → refused_of self.new ≡ refused_of self.old }
        ensures sound { IsUndoubted self.old → OnOk result (IsUndoubted self.new) }
    {
        // Called for its contract alone: what is kept by a flush.
        rules.keep();
        self.flush(disk, rules, pairs)?;
        self.refill_all(disk, rules, pairs, filling)
    }
}

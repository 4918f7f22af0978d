//! What the halves of pairs hold, and how they are read and repaired.
ghost use Rattle.std.specs.Prelude.{◌≡◌, ◌&&◌, if◌then◌else◌, ◌<◌, IfOk, OnOk, IfErr, length, map, ◌⊎◌, ◌↔◌, IfSome, OnErr};
ghost use Rattle.cs_twin.specs.Findings.{are_known, finding_in, half_in, half_version, half_with, held_of, is_damaged, is_fence, is_known, passed_over};
ghost use Rattle.cs_twin.specs.Fillings.{IsFilling, LeavesFilling, filled_with};
ghost use Rattle.cs_disk.specs.Disk.{HasCause, seen, LeavesOnly, MayLeave, flushed, page, written};
ghost use Rattle.cs_disk.specs.Reads.{OnlyReads};
ghost use Rattle.cs_twin.specs.Pairs.{ArePairs, half, held_in, is_turned};

use crate::pairs::{Held, PageRules, Pair, half_of};
use cs_disk::{DiskFault, PageDisk};
use std::alloc::Global;

/// What one half of a pair holds.
#[derive(Clone, Copy, Debug, PartialEq, Eq)]
pub enum Half {
    /// It is whole, and has this version, from 1 on.
    Whole(u64),
    /// All its bytes are 255: it was passed over once, and filled before anything was written.
    Fence,
    /// Anything else: torn, or damaged.
    Damaged,
}

impl Half {
    /// The version of what it holds, 0 if it isn't whole.
    pub fn version(self) -> u64
        ensures { result ≡ half_version self }
    {
        match self {
            Half::Whole(version) => version,
            Half::Fence | Half::Damaged => 0,
        }
    }

    /// It is neither whole nor a fence.
    fn is_damaged(self) -> bool
        ensures { result ≡ is_damaged self }
    {
        match self {
            Half::Damaged => true,
            Half::Whole(_) | Half::Fence => false,
        }
    }
}

/// What both halves of a pair hold.
#[derive(Clone, Copy, Debug, PartialEq, Eq)]
pub struct Finding {
    pub pair: Pair,
    /// What the page holds that has the pair's number.
    pub own: Half,
    /// What its twin holds.
    pub twin: Half,
}

impl Finding {
    /// Which half is the newest.
    pub fn held(self) -> Held
        ensures { result ≡ held_of self }
    {
        let turned = self.own.version() <= self.twin.version();
        Held {
            turned,
            version: if turned {
                self.twin.version()
            } else {
                self.own.version()
            },
        }
    }

    /// The page that is passed over since it is damaged, if the other half is whole. A fence is no damage.
    pub fn passed_over(self) -> Option<u64>
        ensures { result ≡ passed_over self }
    {
        let newest = self.held();
        if newest.version > 0 && self.other(newest.turned).is_damaged() {
            Some(half_of(self.pair, !newest.turned))
        } else {
            None
        }
    }

    /// Each half is whole or a fence.
    fn is_known(self) -> bool
        ensures { result ≡ is_known self }
    {
        !self.own.is_damaged() && !self.twin.is_damaged()
    }

    /// What the other half holds.
    fn other(self, twin: bool) -> Half
        ensures { result ≡ (if twin then self.own else self.twin) }
    {
        if twin { self.own } else { self.twin }
    }
}

/// All of the bytes are 255.
fn is_fence(bytes: &[u8]) -> bool
    ensures { result ≡ is_fence bytes.now }
{
    bytes.iter().all(|byte| *byte == 255)
}

/// What a half with these bytes holds, if they spell this version.
fn half_with(version: u64, bytes: &[u8]) -> Half
    ensures { result ≡ half_with version bytes.now }
{
    if version > 0 {
        Half::Whole(version)
    } else if is_fence(bytes) {
        Half::Fence
    } else {
        Half::Damaged
    }
}

/// What these bytes hold as a half of a pair.
fn half_from<R: PageRules>(rules: &R, pair: Pair, bytes: &[u8; 4096]) -> Result<Half, DiskFault>
    ensures half { IfOk result (λ it. it ≡ half_with (R.version rules.now pair.page bytes.now) bytes.now) }
    ensures memory { IfErr result (λ fault. fault ≡ DiskFault.OutOfMemory) }
{
    match rules.version_of(pair.page, bytes) {
        Ok(version) => Ok(half_with(version, bytes)),
        Err(fault) => Err(fault),
    }
}

/// Reads a half of a pair.
fn read_half<D: PageDisk, R: PageRules>(
    disk: &mut D,
    rules: &R,
    pair: Pair,
    twin: bool,
) -> Result<Half, DiskFault>
    requires { half pair twin < D.page_count disk.old }
    ensures half { D.honest disk.old → IfOk result (λ it. it ≡ half_in (R.version rules.now) (seen (D.state disk.old)) pair twin) }
    ensures disk { OnlyReads D.PageDisk disk.old disk.new }
    ensures cause { HasCause (D.failure_count disk.old) (D.failure_count disk.new) result }
{
    let mut buffer = [0; 4096];
    match disk.read(half_of(pair, twin), &mut buffer) {
        Ok(()) => half_from(rules, pair, &buffer),
        Err(fault) => Err(fault),
    }
}

/// Reads both halves of a pair.
pub fn read_pair<D: PageDisk, R: PageRules>(
    disk: &mut D,
    rules: &R,
    pair: Pair,
) -> Result<Finding, DiskFault>
    requires own { pair.page < D.page_count disk.old }
    requires twin { pair.twin < D.page_count disk.old }
    ensures pair { IfOk result (λ it. it.pair ≡ pair) }
    ensures finding { D.honest disk.old → IfOk result (λ it. it ≡ finding_in (R.version rules.now) (seen (D.state disk.old)) pair) }
    ensures disk { OnlyReads D.PageDisk disk.old disk.new }
    ensures cause { HasCause (D.failure_count disk.old) (D.failure_count disk.new) result }
{
    let own = match read_half(disk, rules, pair, false) {
        Ok(own) => own,
        Err(fault) => return Err(fault),
    };
    match read_half(disk, rules, pair, true) {
        Ok(twin) => Ok(Finding { pair, own, twin }),
        Err(fault) => Err(fault),
    }
}

/// Reads both halves of each pair, and tells what they hold, in the order of the pairs. Nothing is flushed or written.
///
/// Refused 1 DeviceFault, and 9 OutOfMemory.
pub fn read_findings<D: PageDisk, R: PageRules>(
    alloc: Global,
    disk: &mut D,
    rules: &R,
    pairs: &[Pair],
) -> Result<Vec<Finding>, DiskFault>
    requires { ArePairs pairs.now (D.page_count disk.old) }
    ensures findings { D.honest disk.old → IfOk result (λ found. found.items ≡ map (finding_in (R.version rules.now) (seen (D.state disk.old))) pairs.now) }
    ensures disk { OnlyReads D.PageDisk disk.old disk.new }
    ensures cause { HasCause (D.failure_count disk.old) (D.failure_count disk.new) result }
{
    let mut found = Vec::with_capacity(alloc, pairs.len())?;
    for pair in pairs {
        match read_pair(disk, rules, *pair) {
            Ok(finding) => found.push_reserved(finding),
            Err(fault) => return Err(fault),
        }
    }
    Ok(found)
}

/// Whether some pairs and one more are known.
fn are_both_known(known: bool, finding: Finding) -> bool
    ensures { result ≡ (known && is_known finding) }
{
    known && finding.is_known()
}

/// Reads both halves of each pair, and notes which is the newest. Answers whether each half of each pair is whole or
/// a fence.
pub fn read_held<D: PageDisk, R: PageRules>(
    disk: &mut D,
    rules: &R,
    pairs: &[Pair],
    held: &mut [Held],
) -> Result<bool, DiskFault>
    requires pairs { ArePairs pairs.now (D.page_count disk.old) }
    requires size { length held.old ≡ length pairs.now }
    ensures known { D.honest disk.old → IfOk result (λ known. known ≡ are_known (R.version rules.now) (seen (D.state disk.old)) pairs.now) }
    ensures held { D.honest disk.old → OnOk result (held.new ≡ map (held_in (R.version rules.now) (seen (D.state disk.old))) pairs.now) }
    ensures disk { OnlyReads D.PageDisk disk.old disk.new }
    ensures cause { HasCause (D.failure_count disk.old) (D.failure_count disk.new) result }
{
    let mut known = true;
    for k in 0..pairs.len() {
        match read_pair(disk, rules, pairs[k]) {
            Ok(finding) => {
                held[k] = finding.held();
                known = are_both_known(known, finding);
            }
            Err(fault) => return Err(fault),
        }
    }
    Ok(known)
}

/// Reads both halves of a pair. Where one is damaged and the other whole, it answers the damaged one's page, and the
/// buffer has what the whole one holds.
pub fn read_damaged<D: PageDisk, R: PageRules>(
    disk: &mut D,
    rules: &R,
    pair: Pair,
    buffer: &mut [u8; 4096],
) -> Result<Option<u64>, DiskFault>
    requires own { pair.page < D.page_count disk.old }
    requires twin { pair.twin < D.page_count disk.old }
    ensures damaged { D.honest disk.old → IfOk result (λ damaged. damaged ≡ passed_over (finding_in (R.version rules.now) (seen (D.state disk.old)) pair)) }
    ensures bytes { D.honest disk.old → IfOk result (λ damaged. IfSome damaged (λ _. buffer.new ≡ page (seen (D.state disk.old)) (half pair (is_turned (R.version rules.now) (seen (D.state disk.old)) pair)))) }
    ensures inside { IfOk result (λ damaged. IfSome damaged (λ number. number < D.page_count disk.old)) }
    ensures disk { OnlyReads D.PageDisk disk.old disk.new }
    ensures cause { HasCause (D.failure_count disk.old) (D.failure_count disk.new) result }
{
    let finding = match read_pair(disk, rules, pair) {
        Ok(finding) => finding,
        Err(fault) => return Err(fault),
    };
    match finding.passed_over() {
        Some(number) => match disk.read(half_of(pair, finding.held().turned), buffer) {
            Ok(()) => Ok(Some(number)),
            Err(fault) => Err(fault),
        },
        None => Ok(None),
    }
}

/// Writes a page, and flushes.
pub fn write_through<D: PageDisk>(
    disk: &mut D,
    number: u64,
    bytes: &[u8; 4096],
) -> Result<(), DiskFault>
    requires { number < D.page_count disk.old }
    ensures ok { D.honest disk.old → OnOk result (D.state disk.new ≡ flushed (written (D.state disk.old) number bytes.now)) }
    ensures err { D.honest disk.old → OnErr result ((D.state disk.new ≡ D.state disk.old) ⊎ (D.state disk.new ≡ written (D.state disk.old) number bytes.now)) }
    ensures crash { D.honest disk.old → LeavesOnly D.moment D.left_since disk.old disk.new (MayLeave (written (D.state disk.old) number bytes.now)) }
    ensures honest { D.honest disk.old ↔ D.honest disk.new }
    ensures pages { D.page_count disk.new ≡ D.page_count disk.old }
    ensures cause { HasCause (D.failure_count disk.old) (D.failure_count disk.new) result }
{
    match disk.write(number, bytes) {
        Ok(()) => disk.flush(),
        Err(fault) => Err(fault),
    }
}

/// What a half that is passed over is filled with.
#[derive(Clone, Copy)]
pub enum Filling {
    /// A fence.
    Fence,
    /// A fence, and then what the newest half holds.
    Copy,
}

/// Writes a fence over a page and flushes; for a copy it writes these bytes over it then, and flushes again.
pub fn fill<D: PageDisk>(
    disk: &mut D,
    number: u64,
    bytes: &[u8; 4096],
    filling: Filling,
) -> Result<(), DiskFault>
    requires { number < D.page_count disk.old }
    ensures ok { D.honest disk.old → OnOk result (D.state disk.new ≡ filled_with filling (D.state disk.old) number bytes.now) }
    ensures err { D.honest disk.old → OnErr result (IsFilling filling (D.state disk.old) (D.state disk.new) number bytes.now) }
    ensures crash { D.honest disk.old → LeavesOnly D.moment D.left_since disk.old disk.new (LeavesFilling filling (D.state disk.old) number bytes.now) }
    ensures honest { D.honest disk.old ↔ D.honest disk.new }
    ensures pages { D.page_count disk.new ≡ D.page_count disk.old }
    ensures cause { HasCause (D.failure_count disk.old) (D.failure_count disk.new) result }
{
    match write_through(disk, number, &[255; 4096]) {
        Ok(()) => match filling {
            Filling::Fence => Ok(()),
            Filling::Copy => write_through(disk, number, bytes),
        },
        Err(fault) => Err(fault),
    }
}

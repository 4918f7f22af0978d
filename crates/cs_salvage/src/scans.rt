//! Scans of a device for the greatest number of a command, which pass over what can't be read and can be cut short.
ghost use Rattle.std.specs.Prelude.{◌≡◌, ◌⊎◌, ◌<◌, ◌≤◌, IfOk, IsTrue, MatchBool, Some, [], length, true, ℕ};
ghost use Rattle.std.specs.List.{AllPairs};
ghost use Rattle.cs_disk.specs.Disk.{seen};
ghost use Rattle.cs_disk.specs.Reads.{OnlyReads};
ghost use Rattle.cs_salvage.specs.Greatest.{BeginsWithin, CountsOn, IsGreatestBefore, IsGreatestOf, IsOfAFrame, IsOfOneOutside, IsScanOf, IsWithinLast};
ghost use Rattle.cs_salvage.specs.Looks.{AreApart, look_end};
ghost use Rattle.cs_salvage.specs.Parts.{IsBefore};
ghost use Rattle.cs_salvage.specs.Passed.{ArePassed, RisesBy, without};
ghost use Rattle.cs_salvage.specs.declared.parts.Part.{Part};
ghost use Rattle.law_machine.specs.Geometry.{heads_in};

use crate::finds::{Finds, end_of_scan, scan_stretch};
use crate::parts::Part;
use crate::searches::Sought;
use cs_disk::PageDisk;
use std::alloc::{AllocError, Global};

/// Says whether a scan is to go on.
pub trait Patience {
    /// That it lasts: the scan is to go on whenever it asks. It isn't known of any, unless an impl says so.
    ghost lasts: { Self → Type 0 } = { λ _. ⊥ };

    /// Whether the scan is to go on.
    fn goes_on(&self) -> bool
        ensures { lasts self.now → IsTrue result };
}

/// What a scan found.
#[derive(Drop)]
pub struct Scanned {
    /// The greatest number of a command, 0 if there is none. Commands are counted from 1, as a root counts them.
    pub greatest: u64,
    /// Whether the scan came to the end of the last extent.
    pub is_whole: bool,
    /// The numbers of the pages that couldn't be read, by rising numbers. No frame that has one was looked at.
    pub unreadable: Vec<u64>,
}

/// Whether a part begins within another one, after its first page.
fn begins_within(outer: &Part, part: &Part) -> bool
    ensures { MatchBool result (BeginsWithin outer.now part.now) (BeginsWithin outer.now part.now → ⊥) }
{
    outer.extent == part.extent
        && outer.page < part.page
        && usize::from(part.page - outer.page) < outer.pages
}

/// What was counted of parts, one after another.
#[derive(Clone, Copy)]
struct Counted {
    /// The greatest number so far, 0 if there was no part.
    greatest: u64,
    /// The last part that counts.
    last: Option<Part>,
}

/// Whether a part begins within the last one that counts.
fn is_within_last(counted: &Counted, part: &Part) -> bool
    ensures { MatchBool result (IsWithinLast counted.now part.now) (IsWithinLast counted.now part.now → ⊥) }
{
    match &counted.last {
        Some(outer) => begins_within(outer, part),
        None => false,
    }
}

/// What is counted with a part more. One that begins within the last one doesn't count.
fn with_part(counted: Counted, part: &Part) -> Counted
    ensures { CountsOn counted part.now result }
{
    if is_within_last(&counted, part) {
        return counted;
    }
    Counted {
        greatest: counted.greatest.max(part.head.command),
        last: Some(*part),
    }
}

/// The greatest number of a command among parts, 0 if there is none. A part that begins within another one doesn't
/// count: it lies in the bytes of a shard.
fn greatest_of(parts: &[Part]) -> u64
    ensures greatest { IsGreatestOf parts.now result }
    // If they come in the order in which they lie, it is that of one outside of the others.
    ensures outside { AllPairs IsBefore parts.now → IsOfOneOutside parts.now result }
{
    let mut counted = Counted {
        greatest: 0,
        last: None,
    };
    for k in 0..parts.len() {
        counted = with_part(counted, &parts[k]);
    }
    counted.greatest
}

/// How far a scan is, and what it found.
#[derive(Drop)]
struct Scan {
    /// The page of the device that comes next.
    page: u64,
    greatest: u64,
    unreadable: Vec<u64>,
}

/// What is known with a stretch more: the pages up to the end of an extent, or up to one that can't be read.
fn scan_on<D: PageDisk>(
    alloc: Global,
    disk: &mut D,
    sought: &Sought,
    scan: Scan,
) -> Result<Scan, AllocError>
    requires heads { heads_in sought.now.geometry.format ≡ true }
    requires from { 2 ≤ scan.page }
    requires before { scan.page < look_end sought.now.geometry (D.page_count disk.old) }
    requires apart { AreApart sought.now.geometry 0 (D.page_count disk.old) scan.page scan.unreadable.items [] }
    ensures next { IfOk result (λ now. (scan.page < now.page) × (now.page ≤ look_end sought.now.geometry (D.page_count disk.old))) }
    ensures scanned { D.honest disk.old → IsGreatestBefore sought.now (seen (D.state disk.old)) scan.page scan.unreadable.items scan.greatest
        → IfOk result (λ now. IsGreatestBefore sought.now (seen (D.state disk.old)) now.page now.unreadable.items now.greatest) }
    ensures apart { IfOk result (λ now. AreApart sought.now.geometry 0 (D.page_count disk.old) now.page now.unreadable.items []) }
    ensures spelled { IsOfAFrame sought.now scan.greatest → IfOk result (λ now. IsOfAFrame sought.now now.greatest) }
    ensures cause { (before : ℕ) → RisesBy (length scan.unreadable.items) before (D.failure_count disk.old)
        → IfOk result (λ now. RisesBy (length now.unreadable.items) before (D.failure_count disk.new)) }
    ensures disk { OnlyReads D.PageDisk disk.old disk.new }
{
    let mut finds = Finds {
        parts: Vec::new(alloc),
        unreadable: scan.unreadable,
    };
    let page = scan_stretch(alloc, disk, sought, scan.page, &mut finds)?;
    let Finds { parts, unreadable } = finds;
    Ok(Scan {
        page,
        greatest: scan.greatest.max(greatest_of(&parts)),
        unreadable,
    })
}

/// The greatest number of a command that the head of a part on a device names, of the parts that are sought. A part that
/// begins within another one, in the bytes of a shard, doesn't count. So a store whose root counts fewer commands than
/// this has lost some of them, or they were never acknowledged.
///
/// Reads extent after extent, as long as patience lasts: it is asked before each extent, and after each page that can't
/// be read. Such a page is passed over and named. It is asked for once; a disk in a file asks the operating system twice.
/// A frame that has such a page isn't looked at.
///
/// Each page is read once. The pages of one extent lie in memory meanwhile, and each part on it takes some 100 bytes.
///
/// It is refused only if memory is: 9 `OutOfMemory`. The disk holds what it held.
pub fn scan_commands<D: PageDisk, P: Patience>(
    alloc: Global,
    disk: &mut D,
    sought: &Sought,
    patience: &P,
) -> Result<Scanned, AllocError>
    // On an honest disk it is that of the parts on it, without the pages that are named.
    ensures scanned { D.honest disk.old → IfOk result (λ scanned. IsScanOf sought.now (without scanned.unreadable.items (seen (D.state disk.old))) scanned) }
    // It is cut short only if patience doesn't last.
    ensures whole { P.lasts patience.now → IfOk result (λ scanned. scanned.is_whole ≡ true) }
    // Whatever the disk answers, no number is made up.
    ensures spelled { IfOk result (λ scanned. IsOfAFrame sought.now scanned.greatest) }
    // The pages that are named are some of those of the extents, each once.
    ensures passed { IfOk result (λ scanned. ArePassed sought.now.geometry 0 (D.page_count disk.old) scanned.unreadable.items) }
    // For each page that is named the device failed.
    ensures cause { IfOk result (λ scanned. RisesBy (length scanned.unreadable.items) (D.failure_count disk.old) (D.failure_count disk.new)) }
    ensures disk { OnlyReads D.PageDisk disk.old disk.new }
{
    if !sought.geometry.format().has_heads() {
        return Ok(Scanned {
            greatest: 0,
            is_whole: true,
            unreadable: Vec::new(alloc),
        });
    }
    let end = end_of_scan(sought.geometry, disk.pages());
    let mut scan = Scan {
        page: 2,
        greatest: 0,
        unreadable: Vec::new(alloc),
    };
    while scan.page < end {
        if !patience.goes_on() {
            return Ok(Scanned {
                greatest: scan.greatest,
                is_whole: false,
                unreadable: scan.unreadable,
            });
        }
        scan = scan_on(alloc, disk, sought, scan)?;
    }
    Ok(Scanned {
        greatest: scan.greatest,
        is_whole: true,
        unreadable: scan.unreadable,
    })
}

//! Stores that are opened as of an older root.
ghost use Rattle.std.specs.Prelude.{◌≡◌, ◌≢◌, ◌⊎◌, ◌↔◌, ◌+◌, ◌<◌, ◌≤◌, [], Err, IfErr, IfOk, MatchResult, None, OnOk, Some};
ghost use Rattle.cs_core.specs.cs_chunk.Reads.{IsCaused, IsNoAnswer};
ghost use Rattle.cs_reader.specs.Openings.{IsOpeningRefusal, IsWhyNotOpened};
ghost use Rattle.cs_core.specs.Openings.{IsOpened};
ghost use Rattle.cs_disk.specs.Disk.{Image, MayLeave, Rises, flushed, page, seen};
ghost use Rattle.cs_disk.specs.Reads.{OnlyReads};
ghost use Rattle.cs_mount.specs.Identities.{AreOfTwo};
ghost use Rattle.cs_mount.specs.Older.{ShowsOlderOn, older_on, root_found};
ghost use Rattle.cs_mount.specs.OlderDisks.{left_lowered, refused_of, shown_below, state_lowered};
ghost use Rattle.cs_twin.specs.Paired.{IsSound, disk_below, refusals_of};
ghost use Rattle.cs_mount.specs.Showing.{findings_on};
ghost use Rattle.cs_mount.specs.StorePairs.{dimensions_on, pages_of};

use crate::as_of::AsOf;
use crate::mount_options::{MountOptions, Mounted};
use crate::store_pairs::{find_geometry, open_pairs};
use cs_core::Core;
use cs_disk::{PageDisk, refusal_of_disk};
use cs_frame::Geometry;
use cs_refusal::Refusal;
use cs_twin::Finding;
use std::alloc::Global;

/// Where the findings of a store tell of its root.
const ROOT: usize = 1;

/// The version of the newest root that is whole, by what the pairs of a store hold: 0 where none is.
fn newest_root(found: &[Finding]) -> u64
    ensures { result ≡ root_found found.now }
{
    match found.get(ROOT) {
        Some(finding) => finding.held().version,
        None => 0,
    }
}

/// The geometry of the store that is on a disk. Refused 43 NotAStore if there is none of format 4, or if page 0 and the
/// last page are of different stores.
fn find_older<D: PageDisk>(alloc: Global, disk: &mut D) -> Result<Geometry, Refusal>
    requires { 0 < D.page_count disk.old }
    ensures found { D.honest disk.old → IfOk result (λ found. Some found ≡ dimensions_on (D.page_count disk.old) (seen (D.state disk.old))) }
    ensures sized { IfOk result (λ found. pages_of found ≡ D.page_count disk.old) }
    ensures disk { OnlyReads D.PageDisk disk.old disk.new }
    ensures none { D.honest disk.old → IfErr result (λ refusal. IsNoAnswer refusal ⊎ ((refusal ≡ Refusal.NotAStore) × (dimensions_on (D.page_count disk.old) (seen (D.state disk.old)) ≡ None))) }
    ensures number { IfErr result IsOpeningRefusal }
    ensures cause { IsCaused (D.failure_count disk.old) (D.failure_count disk.new) result }
{
    match find_geometry(alloc, disk) {
        Ok(Some(geometry)) => Ok(geometry),
        Ok(None) => Err(Refusal::NotAStore),
        Err(fault) => Err(refusal_of_disk(fault)),
    }
}

/// The disk of the store of this geometry as of the newest root that is whole, and what the pages hold that it has
/// twice. The disk comes back where it is refused.
fn show_older<D: PageDisk + Drop>(
    alloc: Global,
    disk: D,
    geometry: Geometry,
) -> Result<(AsOf<Mounted<D>>, Vec<Finding>), (Refusal, D)>
    requires some { 10 ≤ D.page_count disk }
    requires sized { pages_of geometry ≡ D.page_count disk }
    ensures shown { D.honest disk → Some geometry ≡ dimensions_on (D.page_count disk) (seen (D.state disk)) → IfOk result (λ shown. state_lowered shown.0 ≡ record { durable = older_on (D.page_count disk) (seen (D.state disk)); volatile = [] }) }
    ensures left { D.honest disk → Some geometry ≡ dimensions_on (D.page_count disk) (seen (D.state disk)) → IfOk result (λ shown. (left : Image) → left_lowered shown.0 (D.moment disk) left → ShowsOlderOn (D.page_count disk) (seen (D.state disk)) (MayLeave (D.state disk)) left) }
    ensures findings { D.honest disk → IfOk result (λ shown. shown.1.items ≡ findings_on (D.page_count disk) (seen (D.state disk))) }
    ensures unwritten { D.honest disk → MatchResult result (λ shown. D.state (disk_below (shown_below shown.0)) ≡ flushed (D.state disk)) (λ refused. (D.state refused.1 ≡ D.state disk) ⊎ (D.state refused.1 ≡ flushed (D.state disk))) }
    ensures calls { D.honest disk → MatchResult result (λ shown. D.moment (disk_below (shown_below shown.0)) ≡ D.moment disk + 1) (λ refused. D.moment refused.1 ≤ D.moment disk + 1) }
    ensures honest { MatchResult result (λ shown. D.honest disk ↔ D.honest (disk_below (shown_below shown.0))) (λ refused. D.honest disk ↔ D.honest refused.1) }
    ensures pages { MatchResult result (λ shown. D.page_count (disk_below (shown_below shown.0)) ≡ D.page_count disk) (λ refused. D.page_count refused.1 ≡ D.page_count disk) }
    ensures refusals { IfErr result (λ refused. IsNoAnswer refused.0 ⊎ (refused.0 ≡ Refusal.NotAStore)) }
    ensures none { D.honest disk → IfErr result (λ refused. IsNoAnswer refused.0 ⊎ ((refused.0 ≡ Refusal.NotAStore) × AreOfTwo (D.page_count disk) (seen (D.state disk)))) }
    ensures cause { IfErr result (λ refused. refused.0 ≡ Refusal.DeviceFault → Rises (D.failure_count disk) (D.failure_count refused.1)) }
    ensures failures { IfOk result (λ shown. D.failure_count disk ≤ D.failure_count (disk_below (shown_below shown.0))) }
    ensures unrefused { IfOk result (λ shown. (refusals_of (shown_below shown.0) ≡ 0) × (refused_of shown.0 ≡ 0)) }
    ensures sound { IfOk result (λ shown. IsSound (shown_below shown.0)) }
{
    // Called for its contract alone: what every geometry keeps.
    geometry.extents();
    match open_pairs(alloc, disk) {
        Ok((paired, found)) => {
            let root = newest_root(&found);
            Ok((AsOf::new(alloc, paired, geometry, root), found))
        }
        Err((refusal, disk)) => Err((refusal, disk)),
    }
}

impl MountOptions {
    /// Opens the store on a disk as of the newest root that is whole, though a newer one was persistent: so some
    /// commands that were acknowledged are lost. It returns what the pages hold of which the store has two. Nothing is
    /// written, here or through the core.
    ///
    /// What that root names may have been written over since: then the opening is refused, or reading the shards that
    /// are so. If the call is refused, it returns the disk. 43 NotAStore: there is no store of format 4, or
    /// page 0 and the last page are of different stores. The other refusals are those of `open`, but for 27 RootLost.
    pub fn open_older<D: PageDisk + Drop>(
        self,
        disk: D,
    ) -> Result<(Core<AsOf<Mounted<D>>>, Vec<Finding>), (Refusal, D)>
        ensures new { IfOk result (λ opened. (opened.0.history ≡ []) × (opened.0.base ≡ 0) × (opened.0.limit ≡ self.history)) }
        // What it shows, by which it is opened: no section of it records a later root than the newest that is whole.
        ensures image { D.honest disk → IfOk result (λ opened. (opened.0.opened ≡ older_on (D.page_count disk) (seen (D.state disk))) × (state_lowered opened.0.disk ≡ record { durable = older_on (D.page_count disk) (seen (D.state disk)); volatile = [] })) }
        ensures store { IfOk result (λ opened. IsOpened (D.honest disk) opened.0.opened opened.0.found opened.0.store) }
        ensures there { D.honest disk → OnOk result (dimensions_on (D.page_count disk) (seen (D.state disk)) ≢ None) }
        ensures findings { D.honest disk → IfOk result (λ opened. opened.1.items ≡ findings_on (D.page_count disk) (seen (D.state disk))) }
        // No store of format 4 is there, or what it shows is refused by the first test that fails.
        ensures refusals { D.honest disk → IfErr result (λ refused. IsNoAnswer refused.0 ⊎ ((refused.0 ≡ Refusal.NotAStore) × (dimensions_on (D.page_count disk) (seen (D.state disk)) ≡ None)) ⊎ IsWhyNotOpened (D.page_count disk) (page (older_on (D.page_count disk) (seen (D.state disk)))) refused.0) }
        ensures number { IfErr result (λ refused. IsOpeningRefusal refused.0) }
        ensures small { D.page_count disk < 10 → result ≡ Err (Refusal.NotAStore, disk) }
        // 1 is an answer of the device.
        ensures cause { IfErr result (λ refused. refused.0 ≡ Refusal.DeviceFault → Rises (D.failure_count disk) (D.failure_count refused.1)) }
        // Nothing is written, whether it is opened or not: the device holds what it held, or that made durable.
        ensures unwritten { D.honest disk → MatchResult result (λ opened. D.state (disk_below (shown_below opened.0.disk)) ≡ flushed (D.state disk)) (λ refused. (D.state refused.1 ≡ D.state disk) ⊎ (D.state refused.1 ≡ flushed (D.state disk))) }
        // A crash meanwhile leaves what shows so as what one before it might have left.
        ensures crash { D.honest disk → IfOk result (λ opened. (left : Image) → left_lowered opened.0.disk (D.moment disk) left → ShowsOlderOn (D.page_count disk) (seen (D.state disk)) (MayLeave (D.state disk)) left) }
        // Two flushes, and no write; where it is refused two at most.
        ensures calls { D.honest disk → MatchResult result (λ opened. D.moment (disk_below (shown_below opened.0.disk)) ≡ D.moment disk + 2) (λ refused. D.moment refused.1 ≤ D.moment disk + 2) }
        ensures honest { MatchResult result (λ opened. D.honest disk ↔ D.honest (disk_below (shown_below opened.0.disk))) (λ refused. D.honest disk ↔ D.honest refused.1) }
        ensures pages { MatchResult result (λ opened. D.page_count (disk_below (shown_below opened.0.disk)) ≡ D.page_count disk) (λ refused. D.page_count refused.1 ≡ D.page_count disk) }
    {
        let MountOptions { alloc, limits } = self;
        if disk.pages() < 10 {
            return Err((Refusal::NotAStore, disk));
        }
        let mut disk = disk;
        let geometry = match find_older(alloc, &mut disk) {
            Ok(geometry) => geometry,
            Err(refusal) => return Err((refusal, disk)),
        };
        match show_older(alloc, disk, geometry) {
            Ok((older, found)) => match Core::open(alloc, older, limits) {
                Ok(core) => Ok((core, found)),
                Err((refusal, older)) => Err((refusal, older.into_disk().into_disk())),
            },
            Err((refusal, disk)) => Err((refusal, disk)),
        }
    }
}

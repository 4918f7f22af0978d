//! Stores that are opened as of an older root.
ghost use Rattle.std.specs.Prelude.{◌+◌, ◌<◌, ◌↔◌, ◌≡◌, ◌≢◌, ◌≤◌, ◌⊎◌, Err, IfErr, IfOk, MatchResult, None, OnOk, []};
ghost use Rattle.cs_chunk.specs.Reads.{IsNoAnswer};
ghost use Rattle.cs_core.specs.Openings.{IsOpened};
ghost use Rattle.cs_disk.specs.Disk.{Image, MayLeave, Rises, flushed, page, seen};
ghost use Rattle.cs_mount.specs.Older.{ShowsOlderOn, older_on};
ghost use Rattle.cs_mount.specs.OlderDisks.{left_lowered, shown_below, state_lowered};
ghost use Rattle.cs_mount.specs.Showing.{findings_on};
ghost use Rattle.cs_mount.specs.StorePairs.{dimensions_on};
ghost use Rattle.cs_reader.specs.Openings.{IsOpeningRefusal, IsWhyNotOpened};
ghost use Rattle.cs_twin.specs.Paired.{disk_below};

use crate::errors::OpenError;
use crate::file_openers::open_store_file;
use crate::options::OpenOptions;
use crate::reserves::Held;
use crate::stores::Store;
use cs_disk::{FileDisk, PageDisk};
use cs_mount::{AsOf, Finding, MountOptions, Mounted};
use cs_refusal::Refusal;
use std::fs::File;
use std::rt::Files;

impl OpenOptions {
    /// Opens the store on a disk as of the newest root that is whole, though a newer one was persistent, so that `open`
    /// refuses it 27 RootLost. What was put and acknowledged since is lost, and what was there before may
    /// be written over. Nothing is written: a sync is refused 1 DeviceFault, after which the store is halted. It also
    /// returns what the pages hold of which the store has two, as `open` does.
    ///
    /// If the call is refused, it returns the disk. 43 NotAStore: there is no store of format 4, or page 0 and the
    /// last page are of different stores. The other refusals are those of `open`, but for 27 RootLost.
    pub fn open_older<D: PageDisk + Drop>(
        self,
        disk: D,
    ) -> Result<(Store<AsOf<Mounted<D>>>, Vec<Finding>), (Refusal, D)>
        ensures new { IfOk result (λ opened. (opened.0.history ≡ []) × (opened.0.base ≡ 0) × (opened.0.limit ≡ self.limits.history)) }
        // What it shows, by which it is opened: no section of it records a later root than the newest that is whole.
        ensures image { D.honest disk → IfOk result (λ opened. (opened.0.opened ≡ older_on (D.page_count disk) (seen (D.state disk))) × (state_lowered opened.0.disk ≡ record { durable = older_on (D.page_count disk) (seen (D.state disk)); volatile = [] })) }
        ensures store { IfOk result (λ opened. IsOpened (D.honest disk) opened.0.opened opened.0.found opened.0.store) }
        ensures there { D.honest disk → OnOk result (dimensions_on (D.page_count disk) (seen (D.state disk)) ≢ None) }
        ensures findings { D.honest disk → IfOk result (λ opened. opened.1.items ≡ findings_on (D.page_count disk) (seen (D.state disk))) }
        // No store of format 4 is there, or what it shows is refused by the first test that fails.
        ensures refusals { D.honest disk → IfErr result (λ refused. IsNoAnswer refused.0 ⊎ ((refused.0 ≡ Refusal.NotAStore) × (dimensions_on (D.page_count disk) (seen (D.state disk)) ≡ None)) ⊎ IsWhyNotOpened (D.page_count disk) (page (older_on (D.page_count disk) (seen (D.state disk)))) refused.0) }
        ensures number { IfErr result (λ refused. IsOpeningRefusal refused.0) }
        ensures small { D.page_count disk < 10 → result ≡ Err (Refusal.NotAStore, disk) }
        // 1 is an answer of the device.
        ensures cause { IfErr result (λ refused. refused.0 ≡ Refusal.DeviceFault → Rises (D.failure_count disk) (D.failure_count refused.1)) }
        // Nothing is written, whether it is opened or not: the device holds what it held, or that made durable.
        ensures unwritten { D.honest disk → MatchResult result (λ opened. D.state (disk_below (shown_below opened.0.disk)) ≡ flushed (D.state disk)) (λ refused. (D.state refused.1 ≡ D.state disk) ⊎ (D.state refused.1 ≡ flushed (D.state disk))) }
        // A crash meanwhile leaves what shows so as what one before it might have left.
        ensures crash { D.honest disk → IfOk result (λ opened. (left : Image) → left_lowered opened.0.disk (D.moment disk) left → ShowsOlderOn (D.page_count disk) (seen (D.state disk)) (MayLeave (D.state disk)) left) }
        // Two flushes, and no write; if it is refused, two at most.
        ensures calls { D.honest disk → MatchResult result (λ opened. D.moment (disk_below (shown_below opened.0.disk)) ≡ D.moment disk + 2) (λ refused. D.moment refused.1 ≤ D.moment disk + 2) }
        ensures honest { MatchResult result (λ opened. D.honest disk ↔ D.honest (disk_below (shown_below opened.0.disk))) (λ refused. D.honest disk ↔ D.honest refused.1) }
        ensures pages { MatchResult result (λ opened. D.page_count (disk_below (shown_below opened.0.disk)) ≡ D.page_count disk) (λ refused. D.page_count refused.1 ≡ D.page_count disk) }
    {
        let OpenOptions {
            alloc,
            limits,
            reserve,
            ..
        } = self;
        let options = MountOptions::new(alloc).limits(limits);
        match options.open_older(disk) {
            Ok((core, findings)) => {
                let older = Store {
                    alloc,
                    core,
                    held: Held::by(reserve),
                    findings: Vec::new(alloc),
                    made: Vec::new(alloc),
                };
                Ok((older, findings))
            }
            Err(refused) => Err(refused),
        }
    }

    /// Opens the store that is in a file as `open_older` does. The file is locked as long as the store lives.
    ///
    /// The refusals are those of `open_file`, but for 27 RootLost and 29 Unreadable. 43 NotAStore also means that the
    /// store is of format 2. As at `open_file`, no clause can say what the operating system answers.
    pub fn open_older_file<R: Files<File = File>>(
        self,
        rt: &R,
        path: &str,
    ) -> Result<Store<AsOf<Mounted<FileDisk>>>, OpenError>
        ensures new { IfOk result (λ opened. (opened.history ≡ []) × (opened.base ≡ 0) × (opened.limit ≡ self.limits.history)) }
        ensures store { IfOk result (λ opened. IsOpened ⊥ opened.opened opened.found opened.store) }
        ensures refusals { IfErr result (λ error. (error ≢ OpenError.Occupied) × (error ≢ OpenError.NotEmpty) × (error ≢ OpenError.Unreadable)) }
    {
        let disk = match open_store_file(rt, self.alloc, path) {
            Ok(disk) => disk,
            Err(error) => return Err(error),
        };
        match self.open_older(disk) {
            Ok((mut store, findings)) => {
                store.findings = findings;
                Ok(store)
            }
            Err((refusal, _)) => Err(OpenError::of(refusal)),
        }
    }
}

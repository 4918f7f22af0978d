//! How stores are made and opened: by methods of one type, `OpenOptions`.
ghost use Rattle.std.specs.Prelude.{◌+◌, ◌<◌, ◌↔◌, ◌≡◌, ◌≢◌, ◌≤◌, ◌⊎◌, Err, IfErr, IfOk, MatchResult, None, OnOk, Some, [], false, true};
ghost use Rattle.cs_chunk.specs.Reads.{IsNoAnswer};
ghost use Rattle.cs_core.specs.Openings.{IfStoreOn, IsOpened};
ghost use Rattle.cs_core.specs.Started.{IsNewOn, new_stored};
ghost use Rattle.cs_disk.specs.Disk.{Image, Leaves, MayLeave, Rises, flushed, page, seen};
ghost use Rattle.cs_disk.specs.Files.{file_pages};
ghost use Rattle.cs_extent.specs.State.{shape};
ghost use Rattle.cs_frame.specs.Geometries.{file_format};
ghost use Rattle.cs_mount.specs.Identities.{AreOfTwo, IsOfOne};
ghost use Rattle.cs_mount.specs.Looks.{IsTaken};
ghost use Rattle.cs_mount.specs.Makings.{HoldsBoth, LeavesLaying};
ghost use Rattle.cs_mount.specs.Showing.{ShowsOn, findings_on, shown_by, shown_on};
ghost use Rattle.cs_mount.specs.StorePairs.{blank_disk, dimensions_on, pages_of, store_pairs, store_version};
ghost use Rattle.cs_reader.specs.Counts.{HasCount};
ghost use Rattle.cs_reader.specs.Openings.{IsOpeningRefusal, IsWhyNotOpened};
ghost use Rattle.cs_store.specs.Identities.{no_identity};
ghost use Rattle.cs_store.specs.Maps.{HasMap};
ghost use Rattle.cs_twin.specs.Paired.{disk_below, left_as_shown, state_shown};
ghost use Rattle.cs_twin.specs.Pairs.{Shows, shown_state};
ghost use Rattle.law_machine.specs.Geometry.{twins_in};

use crate::errors::OpenError;
use crate::file_openers::{create_store_file, open_store_file};
use crate::identities::{NO_IDENTITY, geometry_in_file};
use crate::reserves::{DEFAULT_RESERVE, Held, Reserve};
use crate::stores::Store;
use cs_disk::{FileDisk, MemoryDisk, PageDisk};
use cs_frame::Geometry;
use cs_mount::the_core::Limits;
use cs_mount::{Finding, LIMITS, MountOptions, Mounted};
use cs_refusal::Refusal;
use std::alloc::Global;
use std::fs::File;
use std::marker::Model;
use std::random::RandomSource;
use std::rt::Files;

/// What an opening for writing does about a page of which the store has two, if it can't be read. The page may hold the
/// newest root, and may be read again later.
#[derive(Clone, Copy, Debug, PartialEq, Eq)]
pub enum Loss {
    /// The opening is refused 29 Unreadable, and nothing is written.
    Refused,
    /// The page is given up: it is filled with bytes of 255, and the store is opened by the other one. If the page held
    /// the newest root, the commands of its sync are lost.
    Accepted,
}

/// Options for making or opening a store, and the calls that do it: the one way to a store. Contracts see the limits,
/// the geometry, whether a loss is accepted, and the reserve.
///
/// `create`, `create_in_memory` and `create_file` make a new store of the options' geometry. `open` and `open_file`
/// open one that is there, `open_older` and `open_older_file` as of an older root; they take the geometry from the
/// disk.
#[derive(Debug, Drop)]
pub struct OpenOptions {
    pub(crate) alloc: Global,
    pub(crate) limits: Limits,
    pub(crate) geometry: Geometry,
    pub(crate) loss: Loss,
    pub(crate) reserve: Reserve,
}

impl Model for OpenOptions {
    ghost use Rattle.cs_store.specs.Opening.{Opening};

    ghost Value = { Opening };

    ghost view = { λ o. record { limits = o.limits; geometry = o.geometry; loss = o.loss; reserve = o.reserve } };
}

/// The default geometry, of a store with an identity of zeros.
fn default_geometry() -> Geometry
    ensures { result ≡ record { format = file_format no_identity 64 256 1; extents = 64; pages = 256; sections = 1 } }
{
    match Geometry::for_file(NO_IDENTITY, 64, 256, None) {
        Ok(geometry) => geometry,
        Err(_) => unreachable!(),
    }
}

impl OpenOptions {
    /// The default options: `LIMITS`, `DEFAULT_RESERVE`, and a geometry with 64 extents of 256 pages and an identity of
    /// zeros.
    ///
    /// Such a store takes 64 MiB of memory or of a file. It has room for 31,773 identifiers if their shards have one
    /// chunk each, for shards of 8,388,008 bytes at most, and for some 30 MiB of shards in all.
    pub fn new(alloc: Global) -> Self
        ensures limits { result.limits.history ≡ 65536 }
        ensures loss { result.loss ≡ Loss.Refused }
        ensures reserve { result.reserve ≡ Reserve.Percent 15 }
        ensures geometry { result.geometry ≡ record { format = file_format no_identity 64 256 1; extents = 64; pages = 256; sections = 1 } }
    {
        OpenOptions {
            alloc,
            limits: LIMITS,
            geometry: default_geometry(),
            loss: Loss::Refused,
            reserve: DEFAULT_RESERVE,
        }
    }

    /// These options with other limits. With limits of 0 events no command is ever taken.
    pub fn limits(self, limits: Limits) -> Self
        ensures limits { result.limits ≡ limits }
        ensures geometry { result.geometry ≡ self.geometry }
        ensures loss { result.loss ≡ self.loss }
        ensures reserve { result.reserve ≡ self.reserve }
    {
        let mut options = self;
        options.limits = limits;
        options
    }

    /// These options with another geometry for a new store (`Geometry::for_file`). It has the identity of the store,
    /// which should be another one for each store: `new_identity` and `identified`. A store that is opened keeps its
    /// own geometry.
    ///
    /// A store has 5 to 7,680 extents of 2 to 65,535 pages. One of format 2 has 4 to 2,048 extents of 2 to 256 pages.
    /// The pages of an extent bound how many identifiers there may be, and how large a shard. A store of format 2 can
    /// run out of room for good, and a torn page of its superblock or its root loses it.
    pub fn geometry(self, geometry: Geometry) -> Self
        ensures limits { result.limits ≡ self.limits }
        ensures geometry { result.geometry ≡ geometry }
        ensures loss { result.loss ≡ self.loss }
        ensures reserve { result.reserve ≡ self.reserve }
    {
        let mut options = self;
        options.geometry = geometry;
        options
    }

    /// These options, by which an opening for writing does this about a page that can't be read (default:
    /// `Loss::Refused`).
    pub fn accept_loss(self, loss: Loss) -> Self
        ensures limits { result.limits ≡ self.limits }
        ensures geometry { result.geometry ≡ self.geometry }
        ensures loss { result.loss ≡ loss }
        ensures reserve { result.reserve ≡ self.reserve }
    {
        let mut options = self;
        options.loss = loss;
        options
    }

    /// These options with another reserve (default: `DEFAULT_RESERVE`). It is no part of the store: each opening has its
    /// own.
    pub fn reserve(self, reserve: Reserve) -> Self
        ensures limits { result.limits ≡ self.limits }
        ensures geometry { result.geometry ≡ self.geometry }
        ensures loss { result.loss ≡ self.loss }
        ensures reserve { result.reserve ≡ reserve }
    {
        let mut options = self;
        options.reserve = reserve;
        options
    }

    /// Makes a new store of the options' geometry on a disk, with nothing in it. It writes both pages of the root and
    /// of each section of the superblock, section 0 last, makes them durable, and opens the store. So a crash leaves
    /// what was there, no store, or the new one. In format 2 there is one page of each.
    ///
    /// If the call is refused, it returns the disk. 43 NotAStore: the disk hasn't the geometry's pages. 45 Occupied: a
    /// store is on it, or what is left of one (`MountOptions::create` of cs_mount), and nothing is written or flushed.
    /// 1 DeviceFault: the disk refused a call; and 9 OutOfMemory.
    pub fn create<D: PageDisk + Drop>(self, disk: D) -> Result<Store<Mounted<D>>, (Refusal, D)>
        ensures new { IfOk result (λ made. (made.history ≡ []) × (made.base ≡ 0) × (made.limit ≡ self.limits.history)) }
        ensures store { D.honest disk → IfOk result (λ made. made.store ≡ new_stored self.geometry.format self.geometry.extents self.geometry.pages self.geometry.sections) }
        ensures found { D.honest disk → IfOk result (λ made. made.found ≡ (0, 0)) }
        // It has no shard.
        ensures map { D.honest disk → IfOk result (λ made. HasMap made (λ id. None)) }
        ensures written { D.honest disk → IfOk result (λ made. IsNewOn self.geometry.format self.geometry.extents self.geometry.pages self.geometry.sections (shown_state (store_version (Some self.geometry)) (store_pairs self.geometry) (flushed (D.state disk))) (state_shown made.disk)) }
        // So it is on pages of zeros.
        ensures zeros { D.honest disk → D.state disk ≡ blank_disk self.geometry → IfOk result (λ made. IsNewOn self.geometry.format self.geometry.extents self.geometry.pages self.geometry.sections (blank_disk self.geometry) (state_shown made.disk)) }
        ensures not_a_store { IfErr result (λ refused. (refused.0 ≡ Refusal.NotAStore) ↔ (D.page_count disk ≢ pages_of self.geometry)) }
        ensures pages { MatchResult result (λ made. D.page_count (disk_below made.disk) ≡ D.page_count disk) (λ refused. D.page_count refused.1 ≡ D.page_count disk) }
        ensures honest { MatchResult result (λ made. D.honest disk ↔ D.honest (disk_below made.disk)) (λ refused. D.honest disk ↔ D.honest refused.1) }
        ensures sized { OnOk result (D.page_count disk ≡ pages_of self.geometry) }
        ensures refusals { IfErr result (λ refused. (refused.0 ≡ Refusal.NotAStore) ⊎ (refused.0 ≡ Refusal.Occupied) ⊎ (refused.0 ≡ Refusal.DeviceFault) ⊎ (refused.0 ≡ Refusal.OutOfMemory)) }
        ensures same { D.page_count disk ≢ pages_of self.geometry → result ≡ Err (Refusal.NotAStore, disk) }
        // It is refused 45 only where a store is there, or what is left of one.
        ensures occupied { D.honest disk → IfErr result (λ refused. refused.0 ≡ Refusal.Occupied → IsTaken (D.page_count disk) (seen (D.state disk)) (store_version (Some self.geometry)) (store_pairs self.geometry)) }
        // Of an honest disk the device alone refuses it 1.
        ensures cause { D.honest disk → IfErr result (λ refused. refused.0 ≡ Refusal.DeviceFault → Rises (D.failure_count disk) (D.failure_count refused.1)) }
        // No store is made there, and it is as it was then.
        ensures taken { D.honest disk → IsTaken (D.page_count disk) (seen (D.state disk)) (store_version (Some self.geometry)) (store_pairs self.geometry) → MatchResult result (λ made. ⊥) (λ refused. D.state refused.1 ≡ D.state disk) }
        // Both pages of each pair hold version 1, so an opening finds all of them whole. In format 2 there are no
        // pairs.
        ensures both { D.honest disk → twins_in self.geometry.format ≡ true → IfOk result (λ made. HoldsBoth self.geometry (D.state (disk_below made.disk))) }
        // A crash meanwhile leaves what shows as one of the steps of a making: `a_crash_of_a_making` of cs_mount.
        ensures crash { D.honest disk → twins_in self.geometry.format ≡ true → IfOk result (λ made. (left : Image) → left_as_shown made.disk (D.moment disk) left → Shows (store_version (Some self.geometry)) (store_pairs self.geometry) (LeavesLaying self.geometry (D.state disk)) left) }
        // So does one after a refusal.
        ensures left { D.honest disk → twins_in self.geometry.format ≡ true → IfErr result (λ refused. Leaves (D.state refused.1) (LeavesLaying self.geometry (D.state disk))) }
    {
        let OpenOptions {
            alloc,
            limits,
            geometry,
            reserve,
            ..
        } = self;
        let options = MountOptions::new(alloc).limits(limits);
        match options.create(disk, geometry) {
            Ok(core) => Ok(Store {
                alloc,
                core,
                held: Held::by(reserve),
                findings: Vec::new(alloc),
                made: Vec::new(alloc),
            }),
            Err(refused) => Err(refused),
        }
    }

    /// The same, and whatever the disk holds is given up: it isn't refused 45 Occupied. In format 2 it does what
    /// `create` does, and can be refused so.
    pub fn create_over<D: PageDisk + Drop>(self, disk: D) -> Result<Store<Mounted<D>>, (Refusal, D)>
        ensures new { IfOk result (λ made. (made.history ≡ []) × (made.base ≡ 0) × (made.limit ≡ self.limits.history)) }
        ensures store { D.honest disk → IfOk result (λ made. made.store ≡ new_stored self.geometry.format self.geometry.extents self.geometry.pages self.geometry.sections) }
        ensures found { D.honest disk → IfOk result (λ made. made.found ≡ (0, 0)) }
        // It has no shard.
        ensures map { D.honest disk → IfOk result (λ made. HasMap made (λ id. None)) }
        ensures written { D.honest disk → IfOk result (λ made. IsNewOn self.geometry.format self.geometry.extents self.geometry.pages self.geometry.sections (shown_state (store_version (Some self.geometry)) (store_pairs self.geometry) (flushed (D.state disk))) (state_shown made.disk)) }
        // So it is on pages of zeros.
        ensures zeros { D.honest disk → D.state disk ≡ blank_disk self.geometry → IfOk result (λ made. IsNewOn self.geometry.format self.geometry.extents self.geometry.pages self.geometry.sections (blank_disk self.geometry) (state_shown made.disk)) }
        ensures not_a_store { IfErr result (λ refused. (refused.0 ≡ Refusal.NotAStore) ↔ (D.page_count disk ≢ pages_of self.geometry)) }
        ensures pages { MatchResult result (λ made. D.page_count (disk_below made.disk) ≡ D.page_count disk) (λ refused. D.page_count refused.1 ≡ D.page_count disk) }
        ensures honest { MatchResult result (λ made. D.honest disk ↔ D.honest (disk_below made.disk)) (λ refused. D.honest disk ↔ D.honest refused.1) }
        ensures sized { OnOk result (D.page_count disk ≡ pages_of self.geometry) }
        ensures refusals { IfErr result (λ refused. (refused.0 ≡ Refusal.NotAStore) ⊎ ((refused.0 ≡ Refusal.Occupied) × (twins_in self.geometry.format ≡ false)) ⊎ (refused.0 ≡ Refusal.DeviceFault) ⊎ (refused.0 ≡ Refusal.OutOfMemory)) }
        ensures same { D.page_count disk ≢ pages_of self.geometry → result ≡ Err (Refusal.NotAStore, disk) }
        // Of an honest disk the device alone refuses it 1.
        ensures cause { D.honest disk → IfErr result (λ refused. refused.0 ≡ Refusal.DeviceFault → Rises (D.failure_count disk) (D.failure_count refused.1)) }
        // Both pages of each pair hold version 1, so an opening finds all of them whole. In format 2 there are no
        // pairs.
        ensures both { D.honest disk → twins_in self.geometry.format ≡ true → IfOk result (λ made. HoldsBoth self.geometry (D.state (disk_below made.disk))) }
        // A crash meanwhile leaves what shows as one of the steps of a making: `a_crash_of_a_making` of cs_mount.
        ensures crash { D.honest disk → twins_in self.geometry.format ≡ true → IfOk result (λ made. (left : Image) → left_as_shown made.disk (D.moment disk) left → Shows (store_version (Some self.geometry)) (store_pairs self.geometry) (LeavesLaying self.geometry (D.state disk)) left) }
        // So does one after a refusal.
        ensures left { D.honest disk → twins_in self.geometry.format ≡ true → IfErr result (λ refused. Leaves (D.state refused.1) (LeavesLaying self.geometry (D.state disk))) }
    {
        let OpenOptions {
            alloc,
            limits,
            geometry,
            reserve,
            ..
        } = self;
        let options = MountOptions::new(alloc).limits(limits);
        match options.create_over(disk, geometry) {
            Ok(core) => Ok(Store {
                alloc,
                core,
                held: Held::by(reserve),
                findings: Vec::new(alloc),
                made: Vec::new(alloc),
            }),
            Err(refused) => Err(refused),
        }
    }

    /// Opens the store on a disk, as it was made persistent or as a crash left it: flushes, and reads the superblock,
    /// the root and the index's runs. Each section and the root have two pages, but in the older formats, and it takes
    /// the newest that is whole. It also returns what these pages hold: `Finding::passed_over` names a page that wasn't
    /// taken.
    ///
    /// Nothing is written. If a page was passed over, the first sync is refused 1 DeviceFault: the store has to be
    /// opened by `open_to_write` first, or mended (`mend` of cs_mount).
    ///
    /// If the call is refused, it returns the disk. 43 NotAStore: no store of that many pages is on it, or page 0 and
    /// the last page are of different stores. 20 to 26: a page is damaged, and if the store has two of it, both are. 27
    /// RootLost: the newest root that is whole is older than one that was persistent. 1 DeviceFault, and 9 OutOfMemory.
    pub fn open<D: PageDisk + Drop>(
        self,
        disk: D,
    ) -> Result<(Store<Mounted<D>>, Vec<Finding>), (Refusal, D)>
        ensures new { IfOk result (λ opened. (opened.0.history ≡ []) × (opened.0.base ≡ 0) × (opened.0.limit ≡ self.limits.history)) }
        ensures image { D.honest disk → IfOk result (λ opened. (opened.0.opened ≡ shown_on (D.page_count disk) (seen (D.state disk))) × (state_shown opened.0.disk ≡ record { durable = shown_on (D.page_count disk) (seen (D.state disk)); volatile = [] })) }
        ensures store { IfOk result (λ opened. IsOpened (D.honest disk) opened.0.opened opened.0.found opened.0.store) }
        // Page 0 and the last page aren't of different stores.
        ensures one { D.honest disk → OnOk result (IsOfOne (D.page_count disk) (seen (D.state disk))) }
        // If they are, it is refused 43 before anything is flushed, unless the device or the memory refuses a call.
        ensures two { D.honest disk → AreOfTwo (D.page_count disk) (seen (D.state disk))
            → MatchResult result (λ opened. ⊥) (λ refused. (IsNoAnswer refused.0 ⊎ (refused.0 ≡ Refusal.NotAStore)) × (D.state refused.1 ≡ D.state disk)) }
        // Where the disk shows a store of some geometry with this map, that store is opened and has this map.
        ensures recovers { D.honest disk → IsOfOne (D.page_count disk) (seen (D.state disk)) → IfStoreOn (D.page_count disk) (page (shown_on (D.page_count disk) (seen (D.state disk))))
            (λ S n m. MatchResult result (λ opened. (shape opened.0.store.extents ≡ S) × (opened.0.found.0 ≡ n) × HasCount (λ id. m id ≢ None) opened.0.found.1 × HasMap opened.0 m) (λ refused. IsNoAnswer refused.0)) }
        ensures findings { D.honest disk → IfOk result (λ opened. opened.1.items ≡ findings_on (D.page_count disk) (seen (D.state disk))) }
        ensures refusals { D.honest disk → IfErr result (λ refused. IsNoAnswer refused.0 ⊎ ((refused.0 ≡ Refusal.NotAStore) × AreOfTwo (D.page_count disk) (seen (D.state disk))) ⊎ IsWhyNotOpened (D.page_count disk) (page (shown_on (D.page_count disk) (seen (D.state disk)))) refused.0) }
        // Whatever the disk answers.
        ensures number { IfErr result (λ refused. IsOpeningRefusal refused.0) }
        ensures small { D.page_count disk < 10 → result ≡ Err (Refusal.NotAStore, disk) }
        // 1 is an answer of the device.
        ensures cause { IfErr result (λ refused. refused.0 ≡ Refusal.DeviceFault → Rises (D.failure_count disk) (D.failure_count refused.1)) }
        // Nothing is written, whether it is opened or not: the device holds what it held, or that made durable.
        ensures unwritten { D.honest disk → MatchResult result (λ opened. D.state (disk_below opened.0.disk) ≡ flushed (D.state disk)) (λ refused. (D.state refused.1 ≡ D.state disk) ⊎ (D.state refused.1 ≡ flushed (D.state disk))) }
        // Two flushes, and no write; if it is refused, two at most.
        ensures calls { D.honest disk → MatchResult result (λ opened. D.moment (disk_below opened.0.disk) ≡ D.moment disk + 2) (λ refused. D.moment refused.1 ≤ D.moment disk + 2) }
        // A crash meanwhile leaves what shows as what one before it might have left.
        ensures crash { D.honest disk → IfOk result (λ opened. (left : Image) → left_as_shown opened.0.disk (D.moment disk) left → ShowsOn (D.page_count disk) (seen (D.state disk)) (MayLeave (D.state disk)) left) }
        // So it does if it is refused, if there is a store of format 4 on the disk.
        ensures crash_refused { D.honest disk → dimensions_on (D.page_count disk) (seen (D.state disk)) ≢ None → IfErr result (λ refused. (left : Image) → D.left_since refused.1 (D.moment disk) left
            → ShowsOn (D.page_count disk) (seen (D.state disk)) (MayLeave (D.state disk)) (shown_by (D.page_count disk) (seen (D.state disk)) left)) }
        ensures honest { MatchResult result (λ opened. D.honest disk ↔ D.honest (disk_below opened.0.disk)) (λ refused. D.honest disk ↔ D.honest refused.1) }
        ensures pages { MatchResult result (λ opened. D.page_count (disk_below opened.0.disk) ≡ D.page_count disk) (λ refused. D.page_count refused.1 ≡ D.page_count disk) }
    {
        let OpenOptions {
            alloc,
            limits,
            reserve,
            ..
        } = self;
        let options = MountOptions::new(alloc).limits(limits);
        match options.open(disk) {
            Ok((core, findings)) => {
                let store = Store {
                    alloc,
                    core,
                    held: Held::by(reserve),
                    findings: Vec::new(alloc),
                    made: Vec::new(alloc),
                };
                Ok((store, findings))
            }
            Err(refused) => Err(refused),
        }
    }

    // No clause can say what the operating system answers, so bodies of `create_file`, `open_file` and
    // `open_older_file` that always refuse, or take another file, would be proved too. A program that is tested makes a
    // file, and opens it again.

    /// Makes a new store in a new file, with nothing in it. A file that is there is taken if it is empty, and refused
    /// if something is in it. The file is locked as long as the store lives. It is synced, 4,096 bytes for each page of
    /// the disk. All of them are written up to a gibibyte; a larger file takes room as its pages are written.
    ///
    /// The store gets a new identity (`new_identity`), unless the options' geometry has one that isn't zeros.
    ///
    /// The process has to have its descriptors 0 to 2 open, on whatever: else the file gets the number of a standard
    /// stream, and what is printed is written into the store.
    ///
    /// Refused 46 NotEmpty if a file with something in it is there, or what is there is no file: nothing is written
    /// then. Refused 1 DeviceFault, 9 OutOfMemory, and 45 Occupied if another process wrote a store into it meanwhile,
    /// which asked for no lock. After these three the file may be there, with anything in it. If the system gives no
    /// random bytes it is refused 1 DeviceFault too, and no file is made.
    pub fn create_file<R: Files<File = File> + RandomSource>(
        self,
        rt: &R,
        path: &str,
    ) -> Result<Store<Mounted<FileDisk>>, OpenError>
        ensures new { IfOk result (λ made. (made.history ≡ []) × (made.base ≡ 0) × (made.limit ≡ self.limits.history)) }
        ensures pages { IfOk result (λ made. file_pages (disk_below made.disk) ≡ pages_of self.geometry) }
        ensures refusals { IfErr result (λ error. (error ≡ OpenError.DeviceFault) ⊎ (error ≡ OpenError.OutOfMemory) ⊎ (error ≡ OpenError.Occupied) ⊎ (error ≡ OpenError.NotEmpty)) }
    {
        let Ok(geometry) = geometry_in_file(rt, self.geometry) else {
            return Err(OpenError::DeviceFault);
        };
        let disk = match create_store_file(rt, self.alloc, path, geometry.device_pages()) {
            Ok(disk) => disk,
            Err(error) => return Err(error),
        };
        match self.geometry(geometry).create(disk) {
            Ok(store) => Ok(store),
            Err((refusal, _)) => Err(OpenError::of(refusal)),
        }
    }

    /// Opens the store that is in a file, as it was made persistent or as a crash left it, by `open_to_write`. The file
    /// is locked as long as the store lives. Descriptors 0 to 2 have to be open, as at `create_file`.
    ///
    /// The file may be longer than when the store was made, if page 0 is whole. What comes after the pages that it had
    /// is neither read nor written.
    ///
    /// If the store has two of a page, and one of them is damaged, that one is written over with bytes of 255.
    /// `findings` reports which it was. Copy the file before if you want to look at the page.
    ///
    /// If the store isn't opened so, and a section of its superblock is lost, the section is made of the root and its
    /// runs, and written (`ready_sections`). `made_sections` reports its pages.
    ///
    /// Refused 1 DeviceFault if the operating system refuses a call, for example if there is no such file or another
    /// process has it; 6 OddLength; 43 NotAStore if no store of that many pages is in it, or its first and last pages
    /// are of different stores; 20 to 26 for a page that is damaged; 27 RootLost if the root is older than one that was
    /// persistent; 29 Unreadable if a page can't be read of which the store has two, and its loss isn't accepted
    /// (`accept_loss`); and 9 OutOfMemory. The file then shows what it showed, and it is as it was, but that after 1 or 9
    /// damaged pages may have been written over.
    pub fn open_file<R: Files<File = File>>(
        self,
        rt: &R,
        path: &str,
    ) -> Result<Store<Mounted<FileDisk>>, OpenError>
        ensures new { IfOk result (λ opened. (opened.history ≡ []) × (opened.base ≡ 0) × (opened.limit ≡ self.limits.history)) }
        ensures store { IfOk result (λ opened. IsOpened ⊥ opened.opened opened.found opened.store) }
        ensures refusals { IfErr result (λ error. (error ≢ OpenError.Occupied) × (error ≢ OpenError.NotEmpty)) }
    {
        let disk = match open_store_file(rt, self.alloc, path) {
            Ok(disk) => disk,
            Err(error) => return Err(error),
        };
        match self.open_or_remake(disk) {
            Ok(store) => Ok(store),
            Err((refusal, _)) => Err(OpenError::of(refusal)),
        }
    }

    /// Makes a new store in memory, with nothing in it. It takes 4,096 bytes for each page of the disk. Refused 9
    /// OutOfMemory alone.
    pub fn create_in_memory(self) -> Result<Store<Mounted<MemoryDisk>>, OpenError>
        ensures new { IfOk result (λ made. (made.history ≡ []) × (made.base ≡ 0) × (made.limit ≡ self.limits.history)) }
        ensures store { IfOk result (λ made. made.store ≡ new_stored self.geometry.format self.geometry.extents self.geometry.pages self.geometry.sections) }
        ensures found { IfOk result (λ made. made.found ≡ (0, 0)) }
        // It has no shard.
        ensures map { IfOk result (λ made. HasMap made (λ id. None)) }
        // The superblock and the root are written and durable, on pages of zeros.
        ensures written { IfOk result (λ made. IsNewOn self.geometry.format self.geometry.extents self.geometry.pages self.geometry.sections (blank_disk self.geometry) (state_shown made.disk)) }
        ensures refusals { IfErr result (λ error. error ≡ OpenError.OutOfMemory) }
    {
        let OpenOptions {
            alloc,
            limits,
            geometry,
            reserve,
            ..
        } = self;
        let options = MountOptions::new(alloc).limits(limits);
        match options.create_in_memory(geometry) {
            Ok(core) => Ok(Store {
                alloc,
                core,
                held: Held::by(reserve),
                findings: Vec::new(alloc),
                made: Vec::new(alloc),
            }),
            Err(_) => Err(OpenError::OutOfMemory),
        }
    }
}

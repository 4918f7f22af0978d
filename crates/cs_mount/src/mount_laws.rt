//! What crashes leave of stores over disks in pairs.
ghost use Rattle.std.specs.Prelude.{◌-◌, ◌<◌, ◌≡◌, ◌≢◌, ◌≤◌, ◌⊎◌, Bool, List, None, Some, length, slice_get, true, ℕ};
ghost use Rattle.cs_core.specs.Prefixes.{IsPrefixOf};
ghost use Rattle.cs_disk.specs.Disk.{Image, MayLeave, State, page};
ghost use Rattle.cs_frame.specs.FirstFormat.{first_format_fault, page_zero_fault, zero_format};
ghost use Rattle.cs_frame.specs.declared.formats.FormatNumber.{FormatNumber};
ghost use Rattle.cs_frame.specs.Geometries.{Dimensions, IsGeometry};
ghost use Rattle.law_machine.specs.Geometry.{twins_in};
ghost use Rattle.cs_frame.specs.Bytes.{IsPage};
ghost use Rattle.cs_frame.specs.Roots.{root_fault};
ghost use Rattle.cs_frame.specs.Superblocks.{superblock_extents, superblock_fault};
ghost use Rattle.cs_mount.specs.Sectors.{HasFencedSector};
ghost use Rattle.std.specs.List.{AllByRecursion};
ghost use Rattle.cs_mount.specs.Identities.{IsOfOne};
ghost use Rattle.cs_mount.specs.Makings.{HasNewStore, IsBlankedFrom, IsCleared, IsTornLaying, LeavesLaying, half_laid};
ghost use Rattle.cs_mount.specs.Showing.{shown_of, shown_on};
ghost use Rattle.cs_mount.specs.StorePairs.{dimensions_on, pages_of, section_version, store_pairs, store_version};
ghost use Rattle.cs_mount.specs.Torn.{IfRecovered, MayTearStore, dimensions_of};
ghost use Rattle.cs_mount.specs.TornStores.{LeavesTorn};
ghost use Rattle.cs_reader.specs.Openings.{IsWhyNotOpened};
ghost use Rattle.cs_twin.specs.Fences.{AreFences, AreOverKnown, AreWhole, AreWrittenOnce};
ghost use Rattle.cs_twin.specs.Paired.{IsSound, disk_below, pairs_of, state_shown, versions_of};
ghost use Rattle.cs_twin.specs.Pairs.{AreNoOlder, fence, half, shown, shown_state};
ghost use Rattle.cs_twin.specs.Tears.{HasWaitingWrite, IsLeft, IsNotWhole, MayTear};
ghost use Rattle.cs_twin.specs.declared.pairs.Pair.{Pair};
ghost use Rattle.cs_twin.specs.declared.paired.Paired.{Paired};

use crate::mount_options::Mounted;
use cs_core::Core;
use cs_disk::PageDisk;
use cs_refusal::Refusal;
use cs_twin::PageRules;

/// A crash of the device below may tear the pages that were being written, at any byte. What an opening shows of what
/// it leaves recovers the map after the first n commands, n from the frontier to all. It is never of two stores.
/// `recovers` of `MountOptions::open` says that it is opened as that.
///
/// The device is honest but for these tears, and the crash comes between two calls. One thing is assumed of digests: a mixture of two pages, each whole or a fence, is whole
/// only as one of them. `told` of `MayTear` says so, and `IsTold` of page 0 and of the last page.
pub fn a_torn_crash_is_opened<D: PageDisk>(core: &Core<Mounted<D>>)
    ensures prefix { D.honest (disk_below core.now.disk) → twins_in core.now.store.extents.format ≡ true
        → (image : Image) → MayTearStore (dimensions_of core.now.store.extents) (D.state (disk_below core.now.disk)) image
        → IsPrefixOf core.now (shown_on (pages_of (dimensions_of core.now.store.extents)) image) }
    // What it leaves isn't of two stores.
    ensures one { D.honest (disk_below core.now.disk) → twins_in core.now.store.extents.format ≡ true
        → (image : Image) → MayTearStore (dimensions_of core.now.store.extents) (D.state (disk_below core.now.disk)) image
        → IfRecovered core.now (IsOfOne (pages_of (dimensions_of core.now.store.extents)) image) }
{
    core.progress();
}

/// Between two flushes a core writes each pair of its store once, and only whole pages. A fence waits only within
/// `fence` and `mend`.
pub fn a_core_writes_a_half_once<D: PageDisk>(core: &Core<Mounted<D>>)
    ensures once { D.honest (disk_below core.now.disk) → twins_in core.now.store.extents.format ≡ true → pairs_of core.now.disk ≡ store_pairs (dimensions_of core.now.store.extents)
        → AreWrittenOnce (pairs_of core.now.disk) (D.state (disk_below core.now.disk)) }
    ensures whole { D.honest (disk_below core.now.disk) → twins_in core.now.store.extents.format ≡ true → pairs_of core.now.disk ≡ store_pairs (dimensions_of core.now.store.extents)
        → AreWhole (versions_of core.now.disk) (pairs_of core.now.disk) (D.state (disk_below core.now.disk)) }
{
    core.progress();
}

/// A crash that tears pages leaves a store's disk. It shows as what a crash that tears nothing may leave, but for pages
/// of frames, and spare ones, that were being written. A core writes no spare page. `torn_pages_show_a_crash` of
/// cs_twin says it of any pairs.
pub fn torn_stores_show_a_crash()
    ensures { (V : ℕ → List ℕ → ℕ) (d : Dimensions) (s : State) (c : Image) → IsGeometry d.format d.extents d.pages d.sections → twins_in d.format ≡ true
        → length s.durable ≡ pages_of d → AreNoOlder V (store_pairs d) s → AreOverKnown V (store_pairs d) s → AreWrittenOnce (store_pairs d) s → MayTear V (store_pairs d) s c
        → LeavesTorn d (shown_state V (store_pairs d) s) (shown V (store_pairs d) c) }
{}

/// So does an honest disk in the pairs of such a store, as the layers above see it. Each pair was written once since
/// the last flush, and no write is in doubt.
pub fn torn_disks_show_a_crash<D: PageDisk, R: PageRules>()
    ensures { (p : Paired D R D.PageDisk R.PageRules) (d : Dimensions) (c : Image) → IsGeometry d.format d.extents d.pages d.sections → twins_in d.format ≡ true
        → pairs_of p ≡ store_pairs d → D.page_count (disk_below p) ≡ pages_of d → D.honest (disk_below p) → IsSound p → AreWrittenOnce (pairs_of p) (D.state (disk_below p))
        → MayTear (versions_of p) (store_pairs d) (D.state (disk_below p)) c
        → LeavesTorn d (state_shown p) (shown (versions_of p) (store_pairs d) c) }
{}

/// The dimensions of a store are found if page 0 is whole, and the last page isn't of another store. They are also
/// found if page 0 is whole in no format, and the last page is whole.
pub fn the_geometry_is_found()
    ensures by_zero { (d : Dimensions) (image : Image) → twins_in d.format ≡ true → 0 < section_version d 0 (page image 0) → IsOfOne (pages_of d) image → dimensions_on (pages_of d) image ≡ Some d }
    ensures by_last { (d : Dimensions) (image : Image) → twins_in d.format ≡ true → page_zero_fault (page image 0) ≢ None → 0 < section_version d 0 (page image (pages_of d - 1)) → dimensions_on (pages_of d) image ≡ Some d }
{}

/// An opening shows what such a crash leaves by the pairs of the store. It finds the store's dimensions again, if they
/// are found on what was durable and section 0 shows there. What is left isn't of two stores.
pub fn torn_stores_are_found_again()
    ensures shown { (d : Dimensions) (s : State) (c : Image) → IsGeometry d.format d.extents d.pages d.sections → twins_in d.format ≡ true → length s.durable ≡ pages_of d → AreNoOlder (store_version (Some d)) (store_pairs d) s
        → AreOverKnown (store_version (Some d)) (store_pairs d) s → AreWrittenOnce (store_pairs d) s
        → MayTearStore d s c → dimensions_on (pages_of d) s.durable ≡ Some d → 0 < section_version d 0 (page (shown_of d s.durable) 0) → shown_on (pages_of d) c ≡ shown_of d c }
    ensures one { (d : Dimensions) (s : State) (c : Image) → IsGeometry d.format d.extents d.pages d.sections → twins_in d.format ≡ true → length s.durable ≡ pages_of d → AreNoOlder (store_version (Some d)) (store_pairs d) s
        → AreOverKnown (store_version (Some d)) (store_pairs d) s → AreWrittenOnce (store_pairs d) s
        → MayTearStore d s c → dimensions_on (pages_of d) s.durable ≡ Some d → IsOfOne (pages_of d) c }
{}

/// What a crash may leave while a new store is laid on a disk in this state, as `lay_store` says. It is what one before
/// might have left, but that page 0 and the last page may hold zeros. Or these two pages hold zeros. Or an opening
/// finds the new store, of no commands and no shard.
pub fn a_crash_of_a_making()
    ensures { (d : Dimensions) (s : State) (c : Image) → IsGeometry d.format d.extents d.pages d.sections → twins_in d.format ≡ true → length s.durable ≡ pages_of d → LeavesLaying d s c
        → ((before : Image) × MayLeave s before × IsBlankedFrom (pages_of d) before c) ⊎ IsCleared (pages_of d) c ⊎ HasNewStore d c }
{}

/// If page 0 and the last page hold zeros no store is found, and an opening is refused 20 BadMagic.
pub fn a_cleared_disk_holds_no_store()
    ensures found { (pages : ℕ) (image : Image) → IsCleared pages image → dimensions_on pages image ≡ None }
    ensures why { (pages : ℕ) (image : Image) → 10 ≤ pages → length image ≡ pages → IsCleared pages image → IsWhyNotOpened pages (page (shown_on pages image)) Refusal.BadMagic }
{}

/// A crash that tears pages in the last step of a making, while section 0 is written, leaves no store or the new one.
/// A torn page mixes zeros with the new page, and zeros are no fence. So it is a premise that each of the two pages is
/// the new one, or is whole in no format.
pub fn a_torn_making()
    ensures { (d : Dimensions) (s : State) (c : Image) → IsGeometry d.format d.extents d.pages d.sections → twins_in d.format ≡ true → length s.durable ≡ pages_of d → IsTornLaying d (half_laid d s).durable c
        → (dimensions_on (pages_of d) c ≡ None) ⊎ HasNewStore d c }
{}

/// A page of bytes of 255 is whole in no format, as no page of any store.
pub fn a_fence_is_whole_in_no_format()
    ensures zero { page_zero_fault fence ≢ None }
    ensures pairs { (d : Dimensions) (number : ℕ) → store_version (Some d) number fence ≡ 0 }
{}

/// A page of which one sector is fenced, as a torn fence may leave it, is whole in no format. The one exception is a
/// section with an extent of the greatest pointer, 65,535, and the greatest generation, 2^32 - 1.
pub fn a_fenced_sector_is_whole_in_no_format()
    ensures root { (number : FormatNumber) (bytes : List ℕ) → IsPage bytes → HasFencedSector bytes → root_fault number bytes ≢ None }
    ensures section { (number : FormatNumber) (bytes : List ℕ) → IsPage bytes → HasFencedSector bytes → AllByRecursion (λ extent. extent ≢ (65535, 4294967295)) (superblock_extents number bytes)
        → superblock_fault number bytes ≢ None }
    ensures first { (bytes : List ℕ) → IsPage bytes → HasFencedSector bytes → first_format_fault bytes ≢ None }
    ensures zero { (bytes : List ℕ) → IsPage bytes → HasFencedSector bytes → AllByRecursion (λ extent. extent ≢ (65535, 4294967295)) (superblock_extents (zero_format bytes) bytes) → page_zero_fault bytes ≢ None }
{}

/// If fences alone were being written to the pairs of a store, each pair shows after a crash what it showed. Each half
/// holds what was there, or the fence; or it was being written, and isn't whole.
pub fn a_torn_fence_of_a_store_shows_the_same()
    ensures { (d : Dimensions) (s : State) (c : Image) → IsGeometry d.format d.extents d.pages d.sections → length s.durable ≡ pages_of d → AreNoOlder (store_version (Some d)) (store_pairs d) s
        → AreFences (store_pairs d) s → length c ≡ length s.durable
        → ((k : ℕ) (x : Pair) (twin : Bool) → slice_get (store_pairs d) k ≡ Some x
        → IsLeft s (half x twin) (page c (half x twin)) ⊎ (HasWaitingWrite s (half x twin) × IsNotWhole (store_version (Some d)) (store_pairs d) (half x twin) (page c (half x twin))))
        → (k : ℕ) (x : Pair) → slice_get (store_pairs d) k ≡ Some x → page (shown_of d c) x.page ≡ page (shown_of d s.durable) x.page }
{}

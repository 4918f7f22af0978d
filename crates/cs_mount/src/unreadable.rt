//! The halves of a store's pairs that can't be read.
ghost use Rattle.std.specs.Prelude.{◌≡◌, ◌≢◌, ◌⊎◌, ◌++◌, ◌-◌, ◌<◌, ◌||◌, ◌≤◌, ◌∷◌, [], Bool, IfErr, IfOk, IfSome, MatchBool, None, OnOk, Some, false, if◌then◌else◌, length, option_map, option_to_list, slice_get, true, ℕ};
ghost use Rattle.cs_disk.specs.Disk.{HasCause, Rises, page, seen};
ghost use Rattle.cs_disk.specs.Reads.{OnlyReads};
ghost use Rattle.cs_mount.specs.Hidden.{hidden_at, is_among, without_hidden};
ghost use Rattle.cs_mount.specs.Identities.{both_said, identity_said};
ghost use Rattle.cs_mount.specs.Makings.{zero_page};
ghost use Rattle.cs_mount.specs.StorePairs.{dimensions_on, pages_of, store_pairs};
ghost use Rattle.cs_mount.specs.Unreadable.{AreEnds, AreHalves, AreOfStore, AreOneEnd, NoneIsFound, RisesBy, dimensions_by, end_hidden_for, halves_unread, other_hidden};
ghost use Rattle.cs_twin.specs.Pairs.{ArePairs, half};
ghost use Rattle.law_machine.specs.Geometry.{twins_in};

use crate::identities::{if_two, says_another, store_said};
use crate::store_pairs::{first_on, geometry_of_first, geometry_on_last, pairs_of_store};
use cs_disk::{DiskFault, PageDisk};
use cs_frame::{Geometry, StoreId};
use cs_twin::Pair;
use std::alloc::Global;

/// At which place the pair of the root is.
const ROOT: usize = 1;

/// Reads a page. If the disk refuses to, the buffer holds zeros, and the page is added to the list. Returns whether it
/// was read.
fn read_or_add<D: PageDisk>(
    disk: &mut D,
    number: u64,
    buffer: &mut [u8; 4096],
    unread: &mut Vec<u64>,
) -> Result<bool, DiskFault>
    requires { number < D.page_count disk.old }
    ensures bytes { D.honest disk.old → IfOk result (λ read. buffer.new ≡ (if read then page (seen (D.state disk.old)) number else zero_page)) }
    ensures added { IfOk result (λ read. unread.new.items ≡ (if read then unread.old.items else unread.old.items ++ number ∷ [])) }
    ensures counted { OnOk result ((before : ℕ) → RisesBy (length unread.old.items) before (D.failure_count disk.old) → RisesBy (length unread.new.items) before (D.failure_count disk.new)) }
    ensures rises { IfOk result (λ read. read ≡ false → Rises (D.failure_count disk.old) (D.failure_count disk.new)) }
    ensures disk { OnlyReads D.PageDisk disk.old disk.new }
    ensures memory { IfErr result (λ fault. fault ≡ DiskFault.OutOfMemory) }
{
    match disk.read(number, buffer) {
        Ok(()) => Ok(true),
        Err(DiskFault::DeviceFault) => {
            *buffer = [0; 4096];
            match unread.push(number) {
                Ok(()) => Ok(false),
                Err(_) => Err(DiskFault::OutOfMemory),
            }
        }
        Err(DiskFault::OutOfMemory) => Err(DiskFault::OutOfMemory),
    }
}

/// Adds those halves of a pair to the list that the disk refuses to read. Returns whether it reads one of them.
fn add_unread<D: PageDisk>(
    disk: &mut D,
    pair: Pair,
    unread: &mut Vec<u64>,
) -> Result<bool, DiskFault>
    requires own { pair.page < D.page_count disk.old }
    requires twin { pair.twin < D.page_count disk.old }
    ensures added { IfOk result (λ read. (own : Bool) × (twin : Bool) × (read ≡ (own || twin)) × (unread.new.items ≡ unread.old.items ++ halves_unread pair own twin)) }
    ensures counted { OnOk result ((before : ℕ) → RisesBy (length unread.old.items) before (D.failure_count disk.old) → RisesBy (length unread.new.items) before (D.failure_count disk.new)) }
    ensures twice { IfOk result (λ read. read ≡ false → RisesBy 2 (D.failure_count disk.old) (D.failure_count disk.new)) }
    ensures disk { OnlyReads D.PageDisk disk.old disk.new }
    ensures memory { IfErr result (λ fault. fault ≡ DiskFault.OutOfMemory) }
{
    let mut buffer = [0; 4096];
    match read_or_add(disk, pair.page, &mut buffer, unread) {
        Ok(own) => match read_or_add(disk, pair.twin, &mut buffer, unread) {
            Ok(twin) => Ok(own || twin),
            Err(fault) => Err(fault),
        },
        Err(fault) => Err(fault),
    }
}

/// The same of a pair of which, if it is needed, one half has to be read: else it is refused 1 DeviceFault.
fn add_if_needed<D: PageDisk>(
    disk: &mut D,
    pair: Pair,
    needed: bool,
    unread: &mut Vec<u64>,
) -> Result<(), DiskFault>
    requires own { pair.page < D.page_count disk.old }
    requires twin { pair.twin < D.page_count disk.old }
    ensures added { OnOk result ((own : Bool) × (twin : Bool) × (needed ≡ true → (own || twin) ≡ true) × (unread.new.items ≡ unread.old.items ++ halves_unread pair own twin)) }
    ensures counted { OnOk result ((before : ℕ) → RisesBy (length unread.old.items) before (D.failure_count disk.old) → RisesBy (length unread.new.items) before (D.failure_count disk.new)) }
    ensures disk { OnlyReads D.PageDisk disk.old disk.new }
    ensures cause { HasCause (D.failure_count disk.old) (D.failure_count disk.new) result }
    ensures twice { IfErr result (λ fault. fault ≡ DiskFault.DeviceFault → RisesBy 2 (D.failure_count disk.old) (D.failure_count disk.new)) }
{
    match add_unread(disk, pair, unread) {
        Ok(read) => {
            if needed && !read {
                Err(DiskFault::DeviceFault)
            } else {
                Ok(())
            }
        }
        Err(fault) => Err(fault),
    }
}

/// Adds those halves of the pairs but the first to the list that the disk refuses to read. Refused 1 DeviceFault if
/// neither half of the root is read.
fn add_others<D: PageDisk>(
    disk: &mut D,
    pairs: &[Pair],
    unread: &mut Vec<u64>,
) -> Result<(), DiskFault>
    requires pairs { ArePairs pairs.now (D.page_count disk.old) }
    requires first { AreHalves pairs.now 1 unread.old.items }
    ensures halves { OnOk result (AreHalves pairs.now (length pairs.now) unread.new.items) }
    // The halves of the first pair are in the list as they were.
    ensures same { OnOk result ((x : Pair) (twin : Bool) → slice_get pairs.now 0 ≡ Some x → is_among unread.new.items (half x twin) ≡ is_among unread.old.items (half x twin)) }
    ensures counted { OnOk result ((before : ℕ) → RisesBy (length unread.old.items) before (D.failure_count disk.old) → RisesBy (length unread.new.items) before (D.failure_count disk.new)) }
    ensures disk { OnlyReads D.PageDisk disk.old disk.new }
    ensures cause { HasCause (D.failure_count disk.old) (D.failure_count disk.new) result }
    ensures twice { IfErr result (λ fault. fault ≡ DiskFault.DeviceFault → RisesBy 2 (D.failure_count disk.old) (D.failure_count disk.new)) }
{
    for k in 1..pairs.len() {
        match add_if_needed(disk, pairs[k], k == ROOT, unread) {
            Ok(()) => {}
            Err(fault) => return Err(fault),
        }
    }
    Ok(())
}

/// What page 0 and the last page hold: zeros for one that can't be read, and it is in the list.
#[derive(Drop)]
struct Ends {
    zero: [u8; 4096],
    last: [u8; 4096],
    unread: Vec<u64>,
}

/// Reads page 0 and the last page. Refused 1 DeviceFault if the disk reads neither.
fn read_ends<D: PageDisk>(alloc: Global, disk: &mut D) -> Result<Ends, DiskFault>
    requires { 10 ≤ D.page_count disk.old }
    ensures ends { D.honest disk.old → IfOk result (λ ends. AreEnds (D.page_count disk.old) ends.unread.items (seen (D.state disk.old)) ends.zero ends.last) }
    ensures unread { IfOk result (λ ends. AreOneEnd (D.page_count disk.old) ends.unread.items) }
    ensures counted { IfOk result (λ ends. RisesBy (length ends.unread.items) (D.failure_count disk.old) (D.failure_count disk.new)) }
    ensures disk { OnlyReads D.PageDisk disk.old disk.new }
    ensures cause { HasCause (D.failure_count disk.old) (D.failure_count disk.new) result }
    ensures twice { IfErr result (λ fault. fault ≡ DiskFault.DeviceFault → RisesBy 2 (D.failure_count disk.old) (D.failure_count disk.new)) }
{
    let mut ends = Ends {
        zero: [0; 4096],
        last: [0; 4096],
        unread: Vec::new(alloc),
    };
    let number = disk.pages() - 1;
    match read_or_add(disk, 0, &mut ends.zero, &mut ends.unread) {
        Ok(first) => match read_or_add(disk, number, &mut ends.last, &mut ends.unread) {
            Ok(last) => {
                if first || last {
                    Ok(ends)
                } else {
                    Err(DiskFault::DeviceFault)
                }
            }
            Err(fault) => Err(fault),
        },
        Err(fault) => Err(fault),
    }
}

/// The page to hide so that the store of this identity shows, by what the two ends hold.
fn find_other(
    alloc: Global,
    pages: u64,
    id: Option<StoreId>,
    ends: &Ends,
) -> Result<Option<u64>, DiskFault>
    requires { 0 < pages }
    ensures other { IfOk result (λ other. other ≡ end_hidden_for pages (option_map (λ it. it.0) id) ends.now.zero ends.now.last) }
    ensures memory { IfErr result (λ fault. fault ≡ DiskFault.OutOfMemory) }
{
    let Some(id) = id else {
        return Ok(None);
    };
    match store_said(alloc, &ends.zero) {
        Ok(said) => {
            if says_another(id, said) {
                return Ok(Some(0));
            }
        }
        Err(fault) => return Err(fault),
    }
    match store_said(alloc, &ends.last) {
        Ok(said) => Ok(if says_another(id, said) {
            Some(pages - 1)
        } else {
            None
        }),
        Err(fault) => Err(fault),
    }
}

/// Fills the bytes of a page with zeros if it is the one to hide.
fn hide(other: Option<u64>, number: u64, bytes: &mut [u8; 4096])
    ensures { bytes.new ≡ hidden_at (option_to_list other) number bytes.old }
{
    if other == Some(number) {
        *bytes = [0; 4096];
    }
}

/// Whether these bytes are sections of two stores in format 4.
fn are_two(alloc: Global, zero: &[u8; 4096], last: &[u8; 4096]) -> Result<bool, DiskFault>
    ensures two { IfOk result (λ two. MatchBool two (both_said (identity_said zero.now) (identity_said last.now) ≢ None) (both_said (identity_said zero.now) (identity_said last.now) ≡ None)) }
    ensures memory { IfErr result (λ fault. fault ≡ DiskFault.OutOfMemory) }
{
    match store_said(alloc, zero) {
        Ok(Some(first)) => match store_said(alloc, last) {
            Ok(said) => Ok(if_two(first, said).is_some()),
            Err(fault) => Err(fault),
        },
        Ok(None) => Ok(false),
        Err(fault) => Err(fault),
    }
}

/// The geometry of the store of format 4 on a device of so many pages, by what page 0 and the last page hold.
fn geometry_by(
    alloc: Global,
    pages: u64,
    zero: &[u8; 4096],
    last: &[u8; 4096],
) -> Result<Option<Geometry>, DiskFault>
    ensures found { IfOk result (λ found. found ≡ dimensions_by pages zero.now last.now) }
    ensures memory { IfErr result (λ fault. fault ≡ DiskFault.OutOfMemory) }
{
    match are_two(alloc, zero, last) {
        Ok(true) => return Ok(None),
        Ok(false) => {}
        Err(fault) => return Err(fault),
    }
    match first_on(alloc, zero) {
        Ok(Some(first)) => Ok(geometry_of_first(pages, &first)),
        Ok(None) => geometry_on_last(alloc, pages, last),
        Err(fault) => Err(fault),
    }
}

/// What was found by the ends of a device: the page to hide so that the chosen store shows, the geometry of the store
/// that shows then, and the end that couldn't be read.
#[derive(Drop)]
struct Found {
    other: Option<u64>,
    geometry: Option<Geometry>,
    unread: Vec<u64>,
}

/// Reads page 0 and the last page for the store that shows.
fn find_store<D: PageDisk>(
    alloc: Global,
    disk: &mut D,
    id: Option<StoreId>,
) -> Result<Found, DiskFault>
    requires { 10 ≤ D.page_count disk.old }
    ensures other { D.honest disk.old → IfOk result (λ found. found.other ≡ other_hidden (D.page_count disk.old) (option_map (λ it. it.0) id) found.unread.items (seen (D.state disk.old))) }
    ensures geometry { D.honest disk.old → IfOk result (λ found. found.geometry ≡ dimensions_on (D.page_count disk.old) (without_hidden (option_to_list found.other ++ found.unread.items) (seen (D.state disk.old)))) }
    ensures pages { IfOk result (λ found. IfSome found.geometry (λ d. (pages_of d ≡ D.page_count disk.old) × (twins_in d.format ≡ true))) }
    ensures unread { IfOk result (λ found. AreOneEnd (D.page_count disk.old) found.unread.items) }
    ensures counted { IfOk result (λ found. RisesBy (length found.unread.items) (D.failure_count disk.old) (D.failure_count disk.new)) }
    ensures disk { OnlyReads D.PageDisk disk.old disk.new }
    ensures cause { HasCause (D.failure_count disk.old) (D.failure_count disk.new) result }
    ensures twice { IfErr result (λ fault. fault ≡ DiskFault.DeviceFault → RisesBy 2 (D.failure_count disk.old) (D.failure_count disk.new)) }
{
    let pages = disk.pages();
    let mut ends = match read_ends(alloc, disk) {
        Ok(ends) => ends,
        Err(fault) => return Err(fault),
    };
    let other = match find_other(alloc, pages, id, &ends) {
        Ok(other) => other,
        Err(fault) => return Err(fault),
    };
    hide(other, 0, &mut ends.zero);
    hide(other, pages - 1, &mut ends.last);
    match geometry_by(alloc, pages, &ends.zero, &ends.last) {
        Ok(geometry) => Ok(Found {
            other,
            geometry,
            unread: ends.unread,
        }),
        Err(fault) => Err(fault),
    }
}

/// The halves of the pairs of this store that the disk refuses to read, given which of its ends it refused. Refused 1
/// DeviceFault if it reads neither half of the root.
fn find_halves<D: PageDisk>(
    alloc: Global,
    disk: &mut D,
    geometry: Geometry,
    unread: Vec<u64>,
) -> Result<Vec<u64>, DiskFault>
    requires sized { pages_of geometry ≡ D.page_count disk.old }
    requires twins { twins_in geometry.format ≡ true }
    requires end { AreOneEnd (D.page_count disk.old) unread.items }
    ensures halves { IfOk result (λ all. AreHalves (store_pairs geometry) (length (store_pairs geometry)) all.items) }
    ensures inside { IfOk result (λ all. (p : ℕ) → is_among all.items p ≡ true → p < D.page_count disk.old) }
    // Of the ends there are no others in the list.
    ensures zero { IfOk result (λ all. is_among all.items 0 ≡ is_among unread.items 0) }
    ensures last { IfOk result (λ all. is_among all.items (D.page_count disk.old - 1) ≡ is_among unread.items (D.page_count disk.old - 1)) }
    ensures counted { IfOk result (λ all. (before : ℕ) → RisesBy (length unread.items) before (D.failure_count disk.old) → RisesBy (length all.items) before (D.failure_count disk.new)) }
    ensures disk { OnlyReads D.PageDisk disk.old disk.new }
    ensures cause { HasCause (D.failure_count disk.old) (D.failure_count disk.new) result }
    ensures twice { IfErr result (λ fault. fault ≡ DiskFault.DeviceFault → RisesBy 2 (D.failure_count disk.old) (D.failure_count disk.new)) }
{
    let mut unread = unread;
    let Ok(pairs) = pairs_of_store(alloc, geometry) else {
        return Err(DiskFault::OutOfMemory);
    };
    match add_others(disk, &pairs, &mut unread) {
        Ok(()) => Ok(unread),
        Err(fault) => Err(fault),
    }
}

/// What is hidden if no store of format 4 was found: no page for a read that failed. Refused 1 DeviceFault if page 0
/// wasn't read, or, if a store was chosen, either end.
fn without_store(alloc: Global, found: Found, chosen: bool) -> Result<Found, DiskFault>
    ensures none { IfOk result (λ it. it.unread.items ≡ []) }
    ensures other { IfOk result (λ it. ((found.unread.items ≡ []) × (it.other ≡ found.other)) ⊎ ((chosen ≡ false) × (it.other ≡ None))) }
    ensures unread { IfErr result (λ fault. (fault ≡ DiskFault.DeviceFault) × (0 < length found.unread.items)) }
{
    if found.unread.is_empty() {
        return Ok(found);
    }
    if chosen || found.unread.contains(&0) {
        return Err(DiskFault::DeviceFault);
    }
    Ok(Found {
        other: None,
        geometry: None,
        unread: Vec::new(alloc),
    })
}

/// The page to hide so that the store of this identity shows, if one is given, and the halves of the store's pairs that
/// the disk refuses to read.
pub(crate) fn find_unreadable<D: PageDisk>(
    alloc: Global,
    disk: &mut D,
    id: Option<StoreId>,
) -> Result<(Option<u64>, Vec<u64>), DiskFault>
    requires { 10 ≤ D.page_count disk.old }
    ensures hidden { D.honest disk.old → IfOk result (λ found. found.0 ≡ other_hidden (D.page_count disk.old) (option_map (λ it. it.0) id) found.1.items (seen (D.state disk.old))) }
    ensures halves { D.honest disk.old → IfOk result (λ found. AreOfStore (D.page_count disk.old) (option_to_list found.0 ++ found.1.items) found.1.items (seen (D.state disk.old))) }
    ensures inside { IfOk result (λ found. (p : ℕ) → is_among found.1.items p ≡ true → p < D.page_count disk.old) }
    ensures counted { IfOk result (λ found. RisesBy (length found.1.items) (D.failure_count disk.old) (D.failure_count disk.new)) }
    ensures disk { OnlyReads D.PageDisk disk.old disk.new }
    ensures cause { HasCause (D.failure_count disk.old) (D.failure_count disk.new) result }
    ensures why { D.honest disk.old → IfErr result (λ fault. fault ≡ DiskFault.DeviceFault → RisesBy 2 (D.failure_count disk.old) (D.failure_count disk.new) ⊎ NoneIsFound (D.page_count disk.old) (option_map (λ it. it.0) id) (seen (D.state disk.old))) }
{
    let found = match find_store(alloc, disk, id) {
        Ok(found) => found,
        Err(fault) => return Err(fault),
    };
    match found.geometry {
        Some(geometry) => match find_halves(alloc, disk, geometry, found.unread) {
            Ok(unread) => Ok((found.other, unread)),
            Err(fault) => Err(fault),
        },
        None => match without_store(alloc, found, id.is_some()) {
            Ok(found) => Ok((found.other, found.unread)),
            Err(fault) => Err(fault),
        },
    }
}

/// The halves of the store's pairs that the disk refuses to read, for an opening that writes. Such a half may hold the
/// newest root, and it may be read again later. `fence_pages` fills these pages if their loss is accepted. Then the
/// store can be opened. Nothing is flushed or written here.
///
/// The store is found by page 0 and the last page, as an opening finds it. If no store of format 4 is found, there are
/// no pairs, and nothing is returned.
///
/// Refused 1 DeviceFault if neither page 0 nor the last page can be read, or neither page of the root. So it is if no
/// store of format 4 is found, and page 0 can't be read. A device that refuses every read is therefore refused 1.
/// Refused 9 OutOfMemory.
pub fn unreadable_halves<D: PageDisk>(alloc: Global, disk: &mut D) -> Result<Vec<u64>, DiskFault>
    requires { 10 ≤ D.page_count disk.old }
    // None is returned, or each is a half of a pair of the store that shows without them, and section 0 and the root
    // show.
    ensures halves { D.honest disk.old → IfOk result (λ unread. AreOfStore (D.page_count disk.old) unread.items unread.items (seen (D.state disk.old))) }
    ensures inside { IfOk result (λ unread. (p : ℕ) → is_among unread.items p ≡ true → p < D.page_count disk.old) }
    // Each of them is a read that failed. So none is returned where no read failed.
    ensures counted { IfOk result (λ unread. RisesBy (length unread.items) (D.failure_count disk.old) (D.failure_count disk.new)) }
    ensures disk { OnlyReads D.PageDisk disk.old disk.new }
    ensures cause { HasCause (D.failure_count disk.old) (D.failure_count disk.new) result }
    // It is refused 1 only if two reads failed, or one of page 0 or the last page, without which no store is found.
    ensures why { D.honest disk.old → IfErr result (λ fault. fault ≡ DiskFault.DeviceFault → RisesBy 2 (D.failure_count disk.old) (D.failure_count disk.new) ⊎ NoneIsFound (D.page_count disk.old) None (seen (D.state disk.old))) }
{
    match find_unreadable(alloc, disk, None) {
        Ok((_, unread)) => Ok(unread),
        Err(fault) => Err(fault),
    }
}

//! The command `export` over the frames of a device alone.
ghost use Rattle.std.specs.Prelude.{◌≡◌, ◌≢◌, ◌⊎◌, ◌+◌, ◌*◌, ◌<◌, Err, IfErr, IfOk, List, MatchBool, MatchOption, [], None, Some, length, true, false};
ghost use Rattle.std.specs.Io.KnownBytes.{Appends};
ghost use Rattle.std.specs.List.{AllByRecursion, AllZip, list_all, list_any};
ghost use Rattle.cs_chunk.specs.Reads.{IsCaused};
ghost use Rattle.cs_disk.specs.Disk.{HasCause, seen};
ghost use Rattle.cs_disk.specs.Reads.{OnlyReads};
ghost use Rattle.cs_frame.specs.Geometries.{Dimensions, IsGeometry};
ghost use Rattle.cs_mount.specs.Identities.{AreOfTwo, IsOfOne};
ghost use Rattle.cs_mount.specs.StorePairs.{dimensions_on, pages_of};
ghost use Rattle.cs_salvage.specs.Missing.{AreMissing};
ghost use Rattle.cs_salvage.specs.Namings.{AreCounted, IsNaming};
ghost use Rattle.cs_salvage.specs.Passed.{ArePassed, RisesBy};
ghost use Rattle.cs_salvage.specs.Shards.{AreNewest};
ghost use Rattle.cs_tools.specs.Exports.{Shard, is_whole, piece_lines, shard_line};
ghost use Rattle.cs_advice.specs.Losses.{may_hide_root};
ghost use Rattle.cs_tools.specs.Salvages.{AreAllFound, AreToldOf, HasNoGeometry, IsInDoubt, IsJustThese, IsMeantBy, IsMeantSalvage, IsOfOtherLength, IsSalvaged, IsSure, IsToldOf, IsWholeScan, IsWrittenOut, MeansSalvage, Salvages, SaysFirst, Stands, dimensions_in};
ghost use Rattle.cs_advice.specs.declared.outcomes.Outcome.TheVariants.{Damaged, Done, Failed};

use crate::exports::{LINES, print_put, print_remark};
use cs_advice::{Outcome, may_be_lost};
use cs_disk::{DiskFault, PageDisk, refusal_of_disk};
use cs_frame::{FormatFault, FormatNumber, Geometry, ShardId, Superblock, decode_section};
use cs_inspect::{Progress, ids_from};
use cs_refusal::Refusal;
use cs_salvage::{
    Finds, Missing, Naming, Rescue, Sought, Watcher, WholeShard, count_of, find_parts, lacking,
    missing_puts, newest_whole, read_whole,
};
use cs_store::mount::{Finding, find_geometry, two_stores};
use std::alloc::{AllocError, Global};
use std::io;
use std::io::Write;

/// What the frames on a device hold.
#[derive(Drop)]
pub struct Salvaged {
    /// The geometry of the store, and whether frames of other stores were taken too.
    pub sought: Sought,
    /// The first page that was looked at. A frame that begins before it isn't found.
    pub from_page: u64,
    /// How many pages the device has.
    pub device_pages: u64,
    /// The pages that couldn't be read, by rising numbers. A frame that has one isn't found.
    pub unreadable: Vec<u64>,
    /// The newest whole shard of each identifier.
    pub shards: Vec<WholeShard>,
    /// The newest puts that aren't whole.
    pub missing: Vec<Missing>,
}

/// What was found on a device of so many pages, looked at from one on.
fn spelled_by(
    alloc: Global,
    sought: Sought,
    from_page: u64,
    device_pages: u64,
    finds: Finds,
) -> Result<Salvaged, AllocError>
    ensures sought { IfOk result (λ found. found.sought ≡ sought) }
    ensures from { IfOk result (λ found. found.from_page ≡ from_page) }
    ensures pages { IfOk result (λ found. found.device_pages ≡ device_pages) }
    ensures unreadable { IfOk result (λ found. found.unreadable.items ≡ finds.unreadable.items) }
    ensures shards { IfOk result (λ found. AreNewest finds.parts.items found.shards.items) }
    ensures missing { IfOk result (λ found. AreMissing finds.parts.items found.missing.items) }
{
    let Finds { parts, unreadable } = finds;
    let shards = newest_whole(alloc, &parts)?;
    let missing = missing_puts(alloc, &parts)?;
    Ok(Salvaged {
        sought,
        from_page,
        device_pages,
        unreadable,
        shards,
        missing,
    })
}

/// Reads all frames on a device from a page on, and returns which shards they hold: of the store of a geometry, whose
/// identity they have, or of any store. Superblock, root and runs aren't read. A page that can't be read is passed over.
/// A device that is shorter than the geometry asks, or longer, is read as far as both go.
///
/// It is refused only if memory is: 9 OutOfMemory.
pub fn salvage<D: PageDisk, W: Watcher>(
    alloc: Global,
    disk: &mut D,
    sought: Sought,
    from_page: u64,
    watcher: &W,
) -> Result<Salvaged, AllocError>
    ensures found { D.honest disk.old → IfOk result (IsSalvaged (seen (D.state disk.old))) }
    // Those of other identities are left out, or taken, as the caller asks.
    ensures sought { IfOk result (λ found. found.sought ≡ sought) }
    ensures from { IfOk result (λ found. found.from_page ≡ from_page) }
    ensures pages { IfOk result (λ found. found.device_pages ≡ D.page_count disk.old) }
    // Whatever the disk answers: the pages that are named are some of those that are looked at, and for each the device failed.
    ensures passed { IfOk result (λ found. ArePassed sought.geometry from_page (D.page_count disk.old) found.unreadable.items) }
    ensures cause { IfOk result (λ found. RisesBy (length found.unreadable.items) (D.failure_count disk.old) (D.failure_count disk.new)) }
    ensures disk { OnlyReads D.PageDisk disk.old disk.new }
{
    let device_pages = disk.pages();
    let finds = find_parts(alloc, disk, &sought, from_page, watcher)?;
    spelled_by(alloc, sought, from_page, device_pages, finds)
}

/// The geometry of the store whose first section this is, if that store's device has another number of pages.
fn other_geometry(superblock: &Superblock, pages: u64) -> Option<Geometry>
    requires { IsGeometry superblock.now.format superblock.now.extent_count superblock.now.pages superblock.now.sections }
    ensures { MatchOption result (superblock.now.section ≡ 0 → pages_of (dimensions_in superblock.now) ≢ pages → ⊥)
        (λ g. (g ≡ dimensions_in superblock.now) × (superblock.now.section ≡ 0) × (pages_of g ≢ pages)) }
{
    if superblock.section != 0 {
        return None;
    }
    let extents = u64::from(superblock.extent_count);
    let extent_pages = u64::from(superblock.pages);
    let sections = u64::from(superblock.sections);
    match Geometry::of_format(superblock.format, extents, extent_pages, Some(sections)) {
        Ok(geometry) => {
            if geometry.device_pages() == pages {
                None
            } else {
                Some(geometry)
            }
        }
        Err(_) => None,
    }
}

/// None by a page with this fault; refused if memory ran out.
fn none_of(fault: FormatFault) -> Result<Option<Geometry>, DiskFault>
    ensures none { IfOk result (λ found. (found ≡ None) × (fault ≢ FormatFault.OutOfMemory)) }
    ensures memory { IfErr result (λ refused. refused ≡ DiskFault.OutOfMemory) }
{
    match fault {
        FormatFault::OutOfMemory => Err(DiskFault::OutOfMemory),
        FormatFault::BadGeometry
        | FormatFault::BadMagic
        | FormatFault::BadDigest
        | FormatFault::BadLength
        | FormatFault::BadPadding
        | FormatFault::BadVersion
        | FormatFault::OutOfOrder
        | FormatFault::Misplaced => Ok(None),
    }
}

/// The geometry of the store of format 4 that these bytes of page 0 say, if its device has another number of pages.
fn cut_geometry(
    alloc: Global,
    bytes: &[u8; 4096],
    pages: u64,
) -> Result<Option<Geometry>, DiskFault>
    ensures said { IfOk result (λ found. MatchOption found ((g : Dimensions) → SaysFirst bytes.now g → pages_of g ≢ pages → ⊥) (λ g. SaysFirst bytes.now g × (pages_of g ≢ pages))) }
    ensures memory { IfErr result (λ fault. fault ≡ DiskFault.OutOfMemory) }
{
    match decode_section(alloc, bytes, FormatNumber::Four) {
        Ok(superblock) => Ok(other_geometry(&superblock, pages)),
        Err(fault) => none_of(fault),
    }
}

/// The same of a device, by its page 0.
fn find_cut<D: PageDisk>(alloc: Global, disk: &mut D) -> Result<Option<Geometry>, DiskFault>
    requires { 0 < D.page_count disk.old }
    ensures said { D.honest disk.old → IfOk result (λ found. MatchOption found ((g : Dimensions) → IsOfOtherLength (D.page_count disk.old) (seen (D.state disk.old)) g → ⊥) (IsOfOtherLength (D.page_count disk.old) (seen (D.state disk.old)))) }
    ensures disk { OnlyReads D.PageDisk disk.old disk.new }
    ensures cause { HasCause (D.failure_count disk.old) (D.failure_count disk.new) result }
{
    let pages = disk.pages();
    let mut buffer = [0; 4096];
    match disk.read(0, &mut buffer) {
        Ok(()) => cut_geometry(alloc, &buffer, pages),
        Err(fault) => Err(fault),
    }
}

/// The geometry by which a device is salvaged: that of the store of format 4 that is there. One whole copy of the first
/// section is enough. If none is there, page 0 may say the geometry of a store on a device of another length: the file
/// was cut, or lengthened.
///
/// It is refused 43 NotAStore if there is neither. It is refused 1 DeviceFault, or 9 OutOfMemory.
fn geometry_to_salvage<D: PageDisk>(alloc: Global, disk: &mut D) -> Result<Geometry, Refusal>
    ensures geometry { D.honest disk.old → IfOk result (λ found. (dimensions_on (D.page_count disk.old) (seen (D.state disk.old)) ≡ Some found)
        ⊎ IsOfOtherLength (D.page_count disk.old) (seen (D.state disk.old)) found) }
    ensures refusals { IfErr result (λ r. (r ≡ Refusal.NotAStore) ⊎ (r ≡ Refusal.DeviceFault) ⊎ (r ≡ Refusal.OutOfMemory)) }
    // It is refused 43 only if there is neither.
    ensures no_store { D.honest disk.old → 0 < D.page_count disk.old → result ≡ Err Refusal.NotAStore → dimensions_on (D.page_count disk.old) (seen (D.state disk.old)) ≡ None }
    ensures not_cut { D.honest disk.old → 0 < D.page_count disk.old → result ≡ Err Refusal.NotAStore → (g : Dimensions) → IsOfOtherLength (D.page_count disk.old) (seen (D.state disk.old)) g → ⊥ }
    ensures cause { IsCaused (D.failure_count disk.old) (D.failure_count disk.new) result }
    ensures disk { OnlyReads D.PageDisk disk.old disk.new }
{
    if disk.pages() == 0 {
        return Err(Refusal::NotAStore);
    }
    match find_geometry(alloc, disk) {
        Ok(Some(geometry)) => return Ok(geometry),
        Ok(None) => {}
        Err(fault) => return Err(refusal_of_disk(fault)),
    }
    match find_cut(alloc, disk) {
        Ok(Some(geometry)) => Ok(geometry),
        Ok(None) => Err(Refusal::NotAStore),
        Err(fault) => Err(refusal_of_disk(fault)),
    }
}

/// The geometry by which a device of one store is salvaged: that of the store of format 4 that is there. One whole copy
/// of the first section is enough. If none is there, page 0 may say the geometry of a store on a device of another
/// length: the file was cut, or lengthened.
///
/// It is refused 43 NotAStore if there is neither, and if page 0 and the last page are of two stores: it isn't known
/// which one is meant. It is refused 1 DeviceFault, or 9 OutOfMemory.
pub fn geometry_of_one<D: PageDisk>(alloc: Global, disk: &mut D) -> Result<Geometry, Refusal>
    ensures geometry { D.honest disk.old → IfOk result (λ found. (dimensions_on (D.page_count disk.old) (seen (D.state disk.old)) ≡ Some found)
        ⊎ IsOfOtherLength (D.page_count disk.old) (seen (D.state disk.old)) found) }
    // A device of two stores is refused, whatever page 0 says.
    ensures one { D.honest disk.old → IfOk result (λ _. IsOfOne (D.page_count disk.old) (seen (D.state disk.old))) }
    // It is refused 43 only if it is one of two stores, or if there is no geometry.
    ensures no_store { D.honest disk.old → 0 < D.page_count disk.old → result ≡ Err Refusal.NotAStore
        → AreOfTwo (D.page_count disk.old) (seen (D.state disk.old)) ⊎ HasNoGeometry (D.page_count disk.old) (seen (D.state disk.old)) }
    ensures refusals { IfErr result (λ r. (r ≡ Refusal.NotAStore) ⊎ (r ≡ Refusal.DeviceFault) ⊎ (r ≡ Refusal.OutOfMemory)) }
    ensures cause { IsCaused (D.failure_count disk.old) (D.failure_count disk.new) result }
    ensures disk { OnlyReads D.PageDisk disk.old disk.new }
{
    if disk.pages() == 0 {
        return Err(Refusal::NotAStore);
    }
    match two_stores(alloc, disk) {
        Ok(None) => geometry_to_salvage(alloc, disk),
        Ok(Some(_)) => Err(Refusal::NotAStore),
        Err(fault) => Err(refusal_of_disk(fault)),
    }
}

/// What the index says of the shards that were salvaged.
#[derive(Drop)]
pub struct Named {
    /// What it says of each, in order.
    pub namings: Vec<Naming>,
    /// How many shards it names that aren't among them.
    pub lacking: usize,
    /// Whether all its runs were read, and no newer root is missed or may be.
    pub is_whole: bool,
}

/// Whether all that the index of a root names was read, and no newer root is missed or may be.
fn is_all_known<D: PageDisk>(rescue: &Rescue<D>, findings: &[Finding]) -> bool
    ensures { MatchBool result ((rescue.now.found.damaged ≡ None) × (rescue.now.found.lost ≡ false) × (list_any may_hide_root findings.now ≡ false)) (Unit {0}) }
{
    rescue.damaged().is_none() && !rescue.root_lost() && !may_be_lost(findings)
}

/// What the runs that could be read say of these shards, which are in the order of their identifiers. Of the pages that
/// the store has twice this was found.
pub fn look_up<D: PageDisk>(
    alloc: Global,
    rescue: &Rescue<D>,
    findings: &[Finding],
    shards: &[WholeShard],
) -> Result<Named, AllocError>
    ensures namings { IfOk result (λ named. AllZip (IsNaming rescue.now.found) shards.now named.namings.items) }
    // If none is lacking, each identifier that the runs name is one of theirs.
    ensures found { IfOk result (λ named. named.lacking ≡ 0 → AreAllFound rescue.now.found shards.now) }
    ensures whole { IfOk result (λ named. named.is_whole ≡ true → (rescue.now.found.damaged ≡ None) × (rescue.now.found.lost ≡ false) × (list_any may_hide_root findings.now ≡ false)) }
{
    let ids = ids_from(alloc, rescue.index(), ShardId([0; 16]), usize::MAX)?;
    let namings = rescue.namings(alloc, shards)?;
    Ok(Named {
        namings,
        lacking: lacking(&ids, shards),
        is_whole: is_all_known(rescue, findings),
    })
}

/// Whether all frames of a store were looked at: from the first page on, none was passed over, and the device has all.
fn is_whole_scan(found: &Salvaged) -> bool
    ensures { MatchBool result (IsWholeScan found.now) (IsWholeScan found.now → ⊥) }
{
    let geometry = found.sought.geometry;
    let pages = 2 + u64::from(geometry.extents()) * u64::from(geometry.pages());
    found.unreadable.is_empty() && found.from_page <= 2 && pages <= found.device_pages
}

/// Whether the index has just these shards, each as it was found, as far as that can be known.
fn is_sure(named: &Option<Named>) -> bool
    ensures { MatchBool result (IsSure named.now) (IsSure named.now → ⊥) }
{
    match named {
        Some(named) => is_just_these(named),
        None => false,
    }
}

/// Whether the index has just these shards, each as it was found.
fn is_just_these(named: &Named) -> bool
    ensures { MatchBool result (IsJustThese named.now) (IsJustThese named.now → ⊥) }
{
    if !named.is_whole || named.lacking != 0 {
        return false;
    }
    are_as_found(&named.namings)
}

/// Whether each of these is that a shard is in the index as it was found.
#[tactic(auto, using(crate::proofs::Salvaging::as_many, crate::proofs::Salvaging::not_as_many))]
fn are_as_found(namings: &[Naming]) -> bool
    ensures { MatchBool result (AreCounted Naming.AsItIs namings.now (length namings.now)) (AreCounted Naming.AsItIs namings.now (length namings.now) → ⊥) }
{
    let count = count_of(namings, Naming::AsItIs);
    if count == namings.len() {
        return true;
    }
    false
}

/// Prints a script that puts these shards by identifier, with a sync after each 1,000 of them and at the end. A remark
/// replaces a shard that can't be read. Deleted shards may be among them. A shard whose newest put is lost has an older
/// one. It ends as damaged if there is no shard, if any is missing or may be wrong, or if that isn't known: as done only
/// if all frames were looked at, and the index has just these shards.
pub fn export_salvaged<D: PageDisk, P: Progress, W: Write>(
    alloc: Global,
    disk: &mut D,
    found: &Salvaged,
    named: &Option<Named>,
    progress: &P,
    writer: &mut W,
) -> Outcome
    ensures script { D.honest disk.old → IsSalvaged (seen (D.state disk.old)) found.now → Salvages (seen (D.state disk.old)) found.now named.now (D.failure_count disk.old) (D.failure_count disk.new) (W.contents writer.old) (W.contents writer.new) result }
    // Whatever the disk does, each `put` line has bytes that the shard's parts mean, a remark reports 1 only if the disk's count of
    // failures rose, and it is done only if there is a shard, all could be read, nothing is missing, and the index has just these.
    ensures meant { MeansSalvage found.now named.now (D.failure_count disk.old) (D.failure_count disk.new) (W.contents writer.old) (W.contents writer.new) result }
    ensures ends { (result ≡ Done) ⊎ (result ≡ Damaged) ⊎ (result ≡ Failed) }
    ensures disk { OnlyReads D.PageDisk disk.old disk.new }
{
    match print_shards(alloc, disk, found, progress, writer) {
        Ok(whole) => outcome_of(whole, found, named),
        Err(_) => Outcome::Failed,
    }
}

/// How an export ends whose lines were written: as damaged if not all could be read, something is missing, there was
/// nothing to print, not all was looked at, or the index has others or may have.
fn outcome_of(whole: bool, found: &Salvaged, named: &Option<Named>) -> Outcome
    ensures { ((result ≡ Done) × (whole ≡ true) × (found.now.shards.items ≢ []) × (found.now.missing.items ≡ []) × IsWholeScan found.now × IsSure named.now) ⊎ ((result ≡ Damaged) × IsInDoubt found.now named.now whole) }
{
    if !is_whole_scan(found) {
        return Outcome::Damaged;
    }
    if !is_sure(named) {
        return Outcome::Damaged;
    }
    if whole && !found.shards.is_empty() && found.missing.is_empty() {
        Outcome::Done
    } else {
        Outcome::Damaged
    }
}

/// Prints the lines of these shards, and returns whether all could be read.
fn print_shards<D: PageDisk, P: Progress, W: Write>(
    alloc: Global,
    disk: &mut D,
    found: &Salvaged,
    progress: &P,
    writer: &mut W,
) -> io::Result<bool>
    ensures script { D.honest disk.old → AllByRecursion (Stands found.now.sought (seen (D.state disk.old))) found.now.shards.items
        → IfOk result (IsWrittenOut (seen (D.state disk.old)) found.now (D.failure_count disk.old) (D.failure_count disk.new) (W.contents writer.old) (W.contents writer.new)) }
    ensures meant { IfOk result (IsMeantSalvage found.now (D.failure_count disk.old) (D.failure_count disk.new) (W.contents writer.old) (W.contents writer.new)) }
    ensures disk { OnlyReads D.PageDisk disk.old disk.new }
{
    let mut whole = true;
    let mut done: usize = 0;
    for piece in found.shards.chunks(LINES) {
        progress.tell(done, found.shards.len());
        let read = print_piece(alloc, disk, &found.sought, piece, writer)?;
        whole &= read;
        done = done.saturating_add(piece.len());
    }
    progress.tell(done, found.shards.len());
    writer.flush()?;
    Ok(whole)
}

/// Prints the lines of these shards and a sync, and returns whether all could be read.
fn print_piece<D: PageDisk, W: Write>(
    alloc: Global,
    disk: &mut D,
    sought: &Sought,
    shards: &[WholeShard],
    writer: &mut W,
) -> io::Result<bool>
    ensures lines { D.honest disk.old → AllByRecursion (Stands sought.now (seen (D.state disk.old))) shards.now
        → IfOk result (λ whole. (told : List Shard) × AreToldOf sought.now (seen (D.state disk.old)) (D.failure_count disk.old) (D.failure_count disk.new) shards.now told
        × (whole ≡ list_all is_whole told) × Appends (W.contents writer.old) (W.contents writer.new) (piece_lines told)) }
    ensures meant { IfOk result (λ whole. (told : List Shard) × AllZip (IsMeantBy sought.now (D.failure_count disk.old) (D.failure_count disk.new)) shards.now told × (whole ≡ list_all is_whole told)
        × Appends (W.contents writer.old) (W.contents writer.new) (piece_lines told)) }
    ensures disk { OnlyReads D.PageDisk disk.old disk.new }
{
    let mut whole = true;
    for shard in shards {
        let read = print_shard(alloc, disk, sought, shard, writer)?;
        whole &= read;
    }
    writeln!(writer, "sync")?;
    Ok(whole)
}

/// Prints the line of a shard, and returns whether it could be read.
fn print_shard<D: PageDisk, W: Write>(
    alloc: Global,
    disk: &mut D,
    sought: &Sought,
    shard: &WholeShard,
    writer: &mut W,
) -> io::Result<bool>
    ensures line { D.honest disk.old → Stands sought.now (seen (D.state disk.old)) shard.now
        → IfOk result (λ whole. (told : Shard) × IsToldOf sought.now (seen (D.state disk.old)) (D.failure_count disk.old) (D.failure_count disk.new) shard.now told
        × (whole ≡ is_whole told) × Appends (W.contents writer.old) (W.contents writer.new) (shard_line told)) }
    // Whatever the disk does, a `put` line has bytes that the shard's parts mean.
    ensures meant { IfOk result (λ whole. (told : Shard) × IsMeantBy sought.now (D.failure_count disk.old) (D.failure_count disk.new) shard.now told × (whole ≡ is_whole told) × Appends (W.contents writer.old) (W.contents writer.new) (shard_line told)) }
    ensures disk { OnlyReads D.PageDisk disk.old disk.new }
{
    match read_whole(alloc, disk, sought, shard) {
        Ok(Some(bytes)) => {
            print_put(writer, shard.put.id, &bytes)?;
            Ok(true)
        }
        // Something wrote to the device meanwhile.
        Ok(None) => {
            print_remark(writer, shard.put.id, Refusal::Misplaced)?;
            Ok(false)
        }
        Err(fault) => {
            print_remark(writer, shard.put.id, refusal_of_disk(fault))?;
            Ok(false)
        }
    }
}

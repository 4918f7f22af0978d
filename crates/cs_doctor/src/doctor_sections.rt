//! Opens a store of which a section of the superblock is lost, for a diagnosis.
ghost use Rattle.std.specs.Prelude.{◌≡◌, ◌≢◌, ◌⊎◌, ◌↔◌, ◌<◌, ◌≤◌, [], IfOk, map, true};
ghost use Rattle.cs_disk.specs.Disk.{seen};
ghost use Rattle.cs_disk.specs.Reads.{OnlyReads};
ghost use Rattle.cs_mount.specs.MadeSections.{AreMadeOn};
ghost use Rattle.cs_doctor.specs.DoctorStores.{IsOpeningFound, IsOpeningShown, LacksSections, may_lack, may_lack_section, opens};

use crate::diagnoses::{Opening, StoreFound};
use crate::doctor_stores::find_store;
use cs_disk::PageDisk;
use cs_inspect::Progress;
use cs_mount::{Remade, made_sections};
use cs_refusal::Refusal;
use std::alloc::{AllocError, Global};

/// What is found of a store.
#[derive(Drop)]
pub struct SectionsFound {
    /// The pages on which a section is lost, if the store opens only with these sections made from its index.
    pub made: Vec<u64>,
    pub store: StoreFound,
}

/// This was found of a store as it lies on its disk.
pub fn as_it_lies(alloc: Global, store: StoreFound) -> SectionsFound
    ensures made { result.made.items ≡ [] }
    ensures store { result.store ≡ store }
{
    SectionsFound {
        made: Vec::new(alloc),
        store,
    }
}

/// Whether a store that is refused so may lack a section: a page isn't whole, or no superblock is found.
pub fn may_lack_section(refusal: Refusal) -> bool
    ensures { result ≡ may_lack_section refusal }
{
    match refusal {
        Refusal::BadMagic
        | Refusal::BadDigest
        | Refusal::BadLength
        | Refusal::BadPadding
        | Refusal::BadVersion
        | Refusal::NotAStore => true,
        _ => false,
    }
}

/// Whether a store is refused, and may lack a section.
fn may_lack(opening: &Opening) -> bool
    ensures { result ≡ may_lack opening.now }
{
    match opening {
        Opening::Opened { .. } => false,
        Opening::Refused { refusal, .. } => may_lack_section(*refusal),
    }
}

/// Whether a store opens.
fn opens(opening: &Opening) -> bool
    ensures { result ≡ opens opening.now }
{
    match opening {
        Opening::Opened { .. } => true,
        Opening::Refused { .. } => false,
    }
}

/// What is found of a store: this, if it opens with sections that are made on these pages. Else it is what was found of
/// it as it lies.
fn if_it_opens(
    alloc: Global,
    opened: StoreFound,
    made: Vec<u64>,
    before: StoreFound,
) -> SectionsFound
    ensures { ((opens opened.opening ≡ true) × (result.made.items ≡ made.items) × (result.store ≡ opened)) ⊎ ((result.made.items ≡ []) × (result.store ≡ before)) }
{
    if opens(&opened.opening) {
        SectionsFound {
            made,
            store: opened,
        }
    } else {
        as_it_lies(alloc, before)
    }
}

/// The sections that are lost, as they are made for a disk, each with its page. None if they can't be made.
fn sections_of<D: PageDisk>(
    alloc: Global,
    disk: &mut D,
) -> Result<Vec<(u64, [u8; 4096])>, AllocError>
    requires { 0 < D.page_count disk.old }
    ensures made { D.honest disk.old → IfOk result (λ writes. writes.items ≢ [] → AreMadeOn (D.page_count disk.old) (seen (D.state disk.old)) writes.items) }
    ensures disk { OnlyReads D.PageDisk disk.old disk.new }
{
    match made_sections(alloc, disk) {
        Ok(writes) => Ok(writes),
        Err(Refusal::OutOfMemory) => Err(AllocError),
        Err(_) => Ok(Vec::new(alloc)),
    }
}

/// The pages of these sections.
pub fn pages_of_sections(
    alloc: Global,
    writes: &[(u64, [u8; 4096])],
) -> Result<Vec<u64>, AllocError>
    ensures { IfOk result (λ pages. pages.items ≡ map (λ w. w.0) writes.now) }
{
    let mut pages = Vec::new(alloc);
    for k in 0..writes.len() {
        let entry = &writes[k];
        pages.push(entry.0)?;
    }
    Ok(pages)
}

/// What is found of the store on a disk that shows these sections, if it opens so. Else it is what was found of it as it
/// lies.
fn find_remade<D: PageDisk + Drop, P: Progress>(
    alloc: Global,
    disk: D,
    before: StoreFound,
    writes: Vec<(u64, [u8; 4096])>,
    progress: &P,
) -> Result<(SectionsFound, D), AllocError>
    requires size { 10 ≤ D.page_count disk }
    requires lacks { D.honest disk → LacksSections (D.page_count disk) (seen (D.state disk)) before.opening writes.items }
    ensures opening { D.honest disk → IfOk result (λ found. IsOpeningFound (D.page_count disk) (seen (D.state disk)) found.0.made.items found.0.store.opening) }
    ensures honest { IfOk result (λ found. D.honest disk ↔ D.honest found.1) }
    ensures size { IfOk result (λ found. D.page_count found.1 ≡ D.page_count disk) }
{
    let made = pages_of_sections(alloc, &writes)?;
    let shown = Remade::new(disk, writes);
    match find_store(alloc, shown, progress) {
        Ok((opened, shown)) => Ok((if_it_opens(alloc, opened, made, before), shown.into_disk())),
        Err(_) => Err(AllocError),
    }
}

/// What is found of the store on a disk with the sections that are lost, if there are some, and if it opens so. Else it
/// is what was found of it as it lies.
fn find_by_sections<D: PageDisk + Drop, P: Progress>(
    alloc: Global,
    disk: D,
    before: StoreFound,
    progress: &P,
) -> Result<(SectionsFound, D), AllocError>
    requires size { 10 ≤ D.page_count disk }
    requires refused { may_lack before.opening ≡ true }
    requires found { D.honest disk → IsOpeningShown (D.page_count disk) (seen (D.state disk)) before.opening }
    ensures opening { D.honest disk → IfOk result (λ found. IsOpeningFound (D.page_count disk) (seen (D.state disk)) found.0.made.items found.0.store.opening) }
    ensures honest { IfOk result (λ found. D.honest disk ↔ D.honest found.1) }
    ensures size { IfOk result (λ found. D.page_count found.1 ≡ D.page_count disk) }
{
    let mut disk = disk;
    let writes = sections_of(alloc, &mut disk)?;
    if writes.is_empty() {
        return Ok((as_it_lies(alloc, before), disk));
    }
    find_remade(alloc, disk, before, writes, progress)
}

/// What is found of the store on a disk, as by `find_store`. If it is refused, and opens with the sections that are lost
/// (`made_sections`), that is what is found, and the pages of these sections.
pub fn find_with_sections<D: PageDisk + Drop, P: Progress>(
    alloc: Global,
    disk: D,
    progress: &P,
) -> Result<(SectionsFound, D), AllocError>
    requires { 10 ≤ D.page_count disk }
    ensures opening { D.honest disk → IfOk result (λ found. IsOpeningFound (D.page_count disk) (seen (D.state disk)) found.0.made.items found.0.store.opening) }
    ensures honest { IfOk result (λ found. D.honest disk ↔ D.honest found.1) }
    ensures size { IfOk result (λ found. D.page_count found.1 ≡ D.page_count disk) }
{
    match find_store(alloc, disk, progress) {
        Ok((store, disk)) => {
            if may_lack(&store.opening) {
                find_by_sections(alloc, disk, store, progress)
            } else {
                Ok((as_it_lies(alloc, store), disk))
            }
        }
        Err(_) => Err(AllocError),
    }
}

//! The diagnosis of the store on a disk.
ghost use Rattle.std.specs.Prelude.{◌≡◌, ◌↔◌, ◌<◌, [], IfOk, None};
ghost use Rattle.cs_disk.specs.Disk.{seen};
ghost use Rattle.cs_mount.specs.Hidden.{without_hidden};
ghost use Rattle.cs_mount.specs.Unreadable.{AreOfStore};
ghost use Rattle.cs_doctor.specs.Doctor.{IsLook};
ghost use Rattle.cs_doctor.specs.DoctorStores.{IsOpeningFound};
ghost use Rattle.cs_doctor.specs.declared.diagnoses.Opening.TheVariants as opening;
ghost use Rattle.cs_advice.specs.declared.knowns.Content.TheVariants as content;

use crate::diagnoses::Diagnosis;
use crate::doctor::{Depth, look_into};
use crate::doctor_sections::{SectionsFound, as_it_lies, find_with_sections};
use crate::doctor_stores::refused;
use cs_disk::{DiskFault, PageDisk};
use cs_inspect::Progress;
use cs_mount::Chosen;
use cs_refusal::Refusal;
use std::alloc::{AllocError, Global};

/// What is found of a store, and which pages were passed over.
#[derive(Drop)]
struct FoundStore {
    hidden: Vec<u64>,
    found: SectionsFound,
}

/// Nothing is found of a store that is refused so.
fn no_store(alloc: Global, refusal: Refusal) -> FoundStore
    ensures hidden { result.hidden.items ≡ [] }
    ensures made { result.found.made.items ≡ [] }
    ensures opening { result.found.store.opening ≡ opening.Refused refusal None }
{
    FoundStore {
        hidden: Vec::new(alloc),
        found: as_it_lies(alloc, refused(alloc, refusal)),
    }
}

/// What is found of the store on a disk. Pages of pairs that can't be read are passed over. If the store opens only with
/// sections that are made from its index, it is opened so.
fn find_readable<D: PageDisk + Drop, P: Progress>(
    alloc: Global,
    disk: D,
    progress: &P,
) -> Result<(FoundStore, D), AllocError>
    ensures opening { D.honest disk → IfOk result (λ found. IsOpeningFound (D.page_count disk) (without_hidden found.0.hidden.items (seen (D.state disk))) found.0.found.made.items found.0.found.store.opening) }
    ensures hidden { D.honest disk → IfOk result (λ found. AreOfStore (D.page_count disk) found.0.hidden.items found.0.hidden.items (seen (D.state disk))) }
    ensures honest { IfOk result (λ found. D.honest disk ↔ D.honest found.1) }
    ensures size { IfOk result (λ found. D.page_count found.1 ≡ D.page_count disk) }
{
    if disk.pages() < 10 {
        return Ok((no_store(alloc, Refusal::NotAStore), disk));
    }
    match Chosen::readable(alloc, disk, None) {
        Ok((shown, hidden)) => match find_with_sections(alloc, shown, progress) {
            Ok((found, shown)) => Ok((FoundStore { hidden, found }, shown.into_disk())),
            Err(_) => Err(AllocError),
        },
        Err((DiskFault::DeviceFault, disk)) => Ok((no_store(alloc, Refusal::DeviceFault), disk)),
        Err((DiskFault::OutOfMemory, _)) => Err(AllocError),
    }
}

/// The diagnosis of the store on a disk, by what its pages hold, and by what root and index name. `file_pages` is how
/// many pages the file or the device has, of which the disk is the first. A page that can't be read, or a store that
/// doesn't open, doesn't end it: what can be read is reported. It fails only if memory is refused.
///
/// A store that lacks a section of its superblock may open with that section made from its index. Then this is what is
/// reported, with the pages on which sections were made.
///
/// The disk is read (`look_into`), and a store is opened over a disk that refuses each write (`find_with_sections` over a
/// `Chosen`), for which the disk is flushed.
pub fn diagnose<D: PageDisk + Drop, P: Progress>(
    alloc: Global,
    disk: D,
    file_pages: u64,
    depth: Depth,
    progress: &P,
) -> Result<(Diagnosis, D), AllocError>
    ensures file { IfOk result (λ found. found.0.file_pages ≡ file_pages) }
    ensures pages { IfOk result (λ found. found.0.looked.pages ≡ D.page_count disk) }
    ensures empty { IfOk result (λ found. (found.0.looked.content ≡ content.Empty) ↔ (D.page_count disk ≡ 0)) }
    // What it says of the pages is what they hold.
    ensures look { D.honest disk → 0 < D.page_count disk → IfOk result (λ found. (after : _) × IsLook (D.page_count disk) (seen (D.state disk)) (D.failure_count disk) after found.0.looked) }
    // What it says of the store is what an opening and a scrub of it say, by the pages that weren't passed over. If
    // sections were made, the store is refused as it lies, and opens with them.
    ensures opening { D.honest disk → IfOk result (λ found. IsOpeningFound (D.page_count disk) (without_hidden found.0.hidden.items (seen (D.state disk))) found.0.made.items found.0.store.opening) }
    // None was passed over, or each is a half of a pair of that store, and of section 0 and the root one half shows.
    ensures hidden { D.honest disk → IfOk result (λ found. AreOfStore (D.page_count disk) found.0.hidden.items found.0.hidden.items (seen (D.state disk))) }
    ensures honest { IfOk result (λ found. D.honest disk ↔ D.honest found.1) }
    ensures size { IfOk result (λ found. D.page_count found.1 ≡ D.page_count disk) }
{
    let mut disk = disk;
    let looked = look_into(alloc, &mut disk, depth, progress)?;
    match find_readable(alloc, disk, progress) {
        Ok((found, disk)) => {
            let FoundStore { hidden, found } = found;
            let SectionsFound { made, store } = found;
            let diagnosis = Diagnosis {
                file_pages,
                looked,
                hidden,
                made,
                store,
            };
            Ok((diagnosis, disk))
        }
        Err(_) => Err(AllocError),
    }
}

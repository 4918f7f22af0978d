//! Stores that are made, and that aren't.
use cs_disk::{MemoryDisk, PageDisk};
use cs_frame::{Format, Geometry, StoreId};
use cs_refusal::Refusal;
use cs_store::mount::the_core::{Core, Limits};
use cs_store::mount::{Chosen, MountOptions, first_written, open_pairs, two_stores};
use std::alloc::Global;
use std::process::Abort;
use std::test::{Fail, *};

const LIMITS: Limits = Limits { history: 100 };

/// The identities of two stores.
const FIRST: StoreId = StoreId([1; 16]);

const SECOND: StoreId = StoreId([2; 16]);

/// The disk on which a store was made, or why none was, and the disk.
fn made<D: PageDisk + Drop>(alloc: Global, disk: D, geometry: Geometry) -> Result<D, (Refusal, D)> {
    match MountOptions::new(alloc).create(disk, geometry) {
        Ok(core) => Ok(core.into_disk().into_disk()),
        Err(refused) => Err(refused),
    }
}

/// How many commands the store on a disk includes.
fn commands_on<D: PageDisk + Drop>(alloc: Global, disk: D) -> Option<u64> {
    match MountOptions::new(alloc).open(disk) {
        Ok((core, _)) => Some(core.opened().0),
        Err(_) => None,
    }
}

/// Why the core makes no store over a disk as its pairs show it.
fn why_not_formatted<D: PageDisk + Drop>(
    alloc: Global,
    disk: D,
    geometry: Geometry,
) -> Option<Refusal> {
    if disk.pages() == 0 {
        return Some(Refusal::NotAStore);
    }
    match open_pairs(alloc, disk) {
        Ok((paired, _)) => match Core::format(alloc, paired, geometry, LIMITS) {
            Ok(_) => None,
            Err((refusal, _)) => Some(refusal),
        },
        Err(_) => Some(Refusal::NotAStore),
    }
}

#[test]
fn no_store_is_made_over_another(rt: HostRuntime) -> Result<(), Fail> {
    let alloc = rt.alloc();
    let geometry = Geometry::for_file(FIRST, 6, 2, None)?;
    match made(alloc, MemoryDisk::new(alloc, 16)?, geometry) {
        Ok(disk) => match made(alloc, disk, geometry) {
            Ok(_) => panic!(&rt; "made over another"),
            Err((refusal, disk)) => {
                assert_eq!(&rt; refusal, Refusal::Occupied);
                assert_eq!(&rt; commands_on(alloc, disk), Some(0));
            }
        },
        Err((refusal, _)) => panic!(&rt; "{}", refusal.name()),
    }
    Ok(())
}

#[test]
fn a_store_needs_pairs(rt: HostRuntime) -> Result<(), Fail> {
    let alloc = rt.alloc();
    let fourth = Geometry::for_file(FIRST, 6, 2, None)?;
    let why = why_not_formatted(alloc, MemoryDisk::new(alloc, 16)?, fourth);
    assert_eq!(&rt; why, Some(Refusal::DeviceFault));
    let second = Geometry::of_format(Format::two(), 6, 2, None)?;
    let why = why_not_formatted(alloc, MemoryDisk::new(alloc, 14)?, second);
    assert_eq!(&rt; why, None);
    Ok(())
}

/// The bytes of a new store of 6 extents of 2 pages.
fn new_image(rt: &(impl Abort + AllocGlobal), store: StoreId) -> Result<Vec<u8>, Fail> {
    let alloc = rt.alloc();
    let geometry = Geometry::for_file(store, 6, 2, None)?;
    match made(alloc, MemoryDisk::new(alloc, 16)?, geometry) {
        Ok(disk) => Ok(Vec::from_slice(alloc, disk.image())?),
        Err((refusal, _)) => panic!(rt; "{}", refusal.name()),
    }
}

/// A disk whose last page is of the second store, and all others are of the first one.
fn disk_of_two(rt: &(impl Abort + AllocGlobal)) -> Result<MemoryDisk, Fail> {
    let mut image = new_image(rt, FIRST)?;
    let second = new_image(rt, SECOND)?;
    assert!(rt; image.len() == 16 * 4096);
    assert!(rt; second.len() == 16 * 4096);
    image[15 * 4096..].copy_from_slice(&second[15 * 4096..]);
    Ok(MemoryDisk::of_image(rt.alloc(), image)?)
}

/// Both are named, and neither is opened unless it is chosen.
#[test]
fn a_disk_of_two_stores_is_refused(rt: HostRuntime) -> Result<(), Fail> {
    let alloc = rt.alloc();
    let mut disk = disk_of_two(&rt)?;
    assert!(&rt; 0 < disk.pages());
    assert!(&rt; two_stores(alloc, &mut disk).is_ok_and(|found| found == Some((FIRST, SECOND))));
    match MountOptions::new(alloc).open(Chosen::all(alloc, disk)) {
        Ok(_) => panic!(&rt; "opened"),
        Err((refusal, _)) => assert_eq!(&rt; refusal, Refusal::NotAStore),
    }
    Ok(())
}

/// Of the first store the last page alone is missing. Of the second one only that is there, and the root is of another
/// store.
#[test]
fn one_store_of_two_is_chosen(rt: HostRuntime) -> Result<(), Fail> {
    let alloc = rt.alloc();
    let disk = disk_of_two(&rt)?;
    assert!(&rt; 0 < disk.pages());
    let disk = match Chosen::of_store(alloc, disk, FIRST) {
        Ok(chosen) => chosen,
        Err(_) => panic!(&rt; "memory"),
    };
    assert!(&rt; disk.below().pages() == 16);
    match MountOptions::new(alloc).open(disk) {
        Ok((core, findings)) => {
            assert_eq!(&rt; core.opened().0, 0);
            assert!(&rt; findings.iter().any(|it| it.passed_over() == Some(15)));
        }
        Err((refusal, _)) => panic!(&rt; "{}", refusal.name()),
    }
    let disk = disk_of_two(&rt)?;
    assert!(&rt; 0 < disk.pages());
    match Chosen::of_store(alloc, disk, SECOND) {
        Ok(chosen) => match MountOptions::new(alloc).open(chosen) {
            Ok(_) => panic!(&rt; "opened"),
            Err((refusal, disk)) => {
                assert_eq!(&rt; refusal, Refusal::NotAStore);
                assert!(&rt; disk.into_disk().pages() == 16);
            }
        },
        Err(_) => panic!(&rt; "memory"),
    }
    Ok(())
}

#[test]
fn the_first_page_that_is_written(rt: HostRuntime) -> Result<(), Fail> {
    let alloc = rt.alloc();
    let mut disk = MemoryDisk::new(alloc, 600)?;
    assert!(&rt; first_written(&mut disk).is_ok_and(|page| page.is_none()));
    let page = [9; 4096];
    assert!(&rt; disk.pages() == 600);
    assert!(&rt; disk.write(300, &page).is_ok());
    assert!(&rt; first_written(&mut disk).is_ok_and(|page| page.is_none()));
    assert!(&rt; disk.write(344, &page).is_ok());
    assert!(&rt; first_written(&mut disk).is_ok_and(|page| page == Some(344)));
    Ok(())
}

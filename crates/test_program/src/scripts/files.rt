//! Stores in files.
use super::{printed, script_text};
use cs_disk::{Access, CrashDisk, FileDisk, OpenFault, PageDisk};
use cs_frame::{Geometry, ShardId, StoreId};
use cs_options::script::run_over;
use cs_refusal::Refusal;
use cs_store::mount::the_core::Core;
use cs_store::mount::{MountOptions, Mounted};
use cs_store::{OpenOptions, pages_said};
use std::alloc::Global;
use std::fs::File;
use std::process::Abort;
use std::rt::Files;
use std::test::Fail;

/// Asserts what a script's text prints over the store in a file, and its exit status.
fn prints_over<D: CrashDisk + Drop>(
    rt: &(impl Abort + AllocGlobal),
    store: Result<Core<D>, Refusal>,
    text: &str,
    wanted: &str,
    status: u8,
) {
    let mut output = Vec::new(rt.alloc());
    let ended = run_over(rt.alloc(), store, text.as_bytes(), &mut output);
    assert_eq!(rt; output.as_slice(), wanted.as_bytes(), "{text}");
    assert_eq!(rt; ended, status, "{text}");
}

/// Makes a store of 6 extents of 2 pages in a file, and puts a shard.
fn make(rt: &(impl Abort + AllocGlobal + Files<File = File>), path: &str) -> Result<(), Fail> {
    let text = script_text(rt.alloc(), "put @a 61 / sync")?;
    let wanted = printed(
        rt.alloc(),
        "put 1 / round 1: [w1, w2] / round 2: [s3] / round 3: [r2] / chain: [w1, s3, r2] / flushes 3 / acknowledged 1",
    )?;
    let store = new_in_file(rt, rt.alloc(), path, Geometry::new(6, 2)?);
    prints_over(rt, store, &text, &wanted, 0);
    Ok(())
}

/// A new store in a file, which is made, or emptied where it is there.
pub fn new_in_file<R: Files<File = File>>(
    rt: &R,
    alloc: Global,
    path: &str,
    geometry: Geometry,
) -> Result<Core<Mounted<FileDisk>>, Refusal> {
    let Ok(disk) = FileDisk::create(rt, alloc, path, geometry.device_pages()) else {
        return Err(Refusal::DeviceFault);
    };
    match MountOptions::new(alloc).create(disk, geometry) {
        Ok(core) => Ok(core),
        Err((refusal, _)) => Err(refusal),
    }
}

/// The store that is in a file.
fn open_in_file<R: Files<File = File>>(
    rt: &R,
    alloc: Global,
    path: &str,
) -> Result<Core<Mounted<FileDisk>>, Refusal> {
    let disk = match FileDisk::open(rt, alloc, path) {
        Ok(disk) => disk,
        Err(OpenFault::DeviceFault) => return Err(Refusal::DeviceFault),
        Err(OpenFault::OddLength) => return Err(Refusal::OddLength),
    };
    match MountOptions::new(alloc).open(disk) {
        Ok((core, _)) => Ok(core),
        Err((refusal, _)) => Err(refusal),
    }
}

/// Asserts what a script prints over the store that is in the file, and its exit status.
fn opens(
    rt: &(impl Abort + AllocGlobal + Files<File = File>),
    path: &str,
    script: &str,
    lines: &str,
    status: u8,
) -> Result<(), Fail> {
    let text = script_text(rt.alloc(), script)?;
    let wanted = printed(rt.alloc(), lines)?;
    let store = open_in_file(rt, rt.alloc(), path);
    prints_over(rt, store, &text, &wanted, status);
    Ok(())
}

/// What was synced is there when the file is opened again, and what wasn't isn't.
#[test]
fn a_store_in_a_file(rt: HostRuntime) -> Result<(), Fail> {
    let path = "cs_cli_store";
    make(&rt, path)?;
    opens(
        &rt,
        path,
        "get @a / sync",
        "value 61 / chain: - / flushes 0 / acknowledged 0",
        0,
    )?;
    opens(
        &rt,
        path,
        "put @b 62 / plan",
        "put 1 / round 1: [w1, w2] / round 2: [s5] / round 3: [r3] / chain: [w1, s5, r3] / flushes 3",
        0,
    )?;
    opens(&rt, path, "get @a / get @b", "value 61 / absent", 0)?;
    make(&rt, path)?;
    std::fs::remove_file(&rt, path)?;
    Ok(())
}

/// A file can't crash, so these lines aren't readable.
#[test]
fn step_and_crash_on_a_file(rt: HostRuntime) -> Result<(), Fail> {
    let path = "cs_cli_steps";
    make(&rt, path)?;
    opens(
        &rt,
        path,
        "put @b 62 / step / crash - / crash 0 / get @b",
        "put 1 / bad line / bad line / bad line / value 62",
        1,
    )?;
    std::fs::remove_file(&rt, path)?;
    Ok(())
}

/// Asserts why a file of so many bytes of a store isn't opened.
fn refused_of_length(
    rt: &(impl Abort + AllocGlobal + Files<File = File>),
    length: usize,
    line: &str,
) -> Result<(), Fail> {
    let path = "cs_cli_cut";
    make(rt, path)?;
    let mut bytes = std::fs::read(rt, path)?;
    bytes.resize(length, 0)?;
    std::fs::write(rt, path, bytes.as_slice())?;
    opens(rt, path, "get @a", line, 3)?;
    std::fs::remove_file(rt, path)?;
    Ok(())
}

#[test]
fn files_that_hold_no_store(rt: HostRuntime) -> Result<(), Fail> {
    refused_of_length(&rt, 13 * 4096, "refused 43 NotAStore")?;
    refused_of_length(&rt, 15 * 4096, "refused 43 NotAStore")?;
    refused_of_length(&rt, 14 * 4096 + 1, "refused 6 OddLength")?;
    refused_of_length(&rt, 0, "refused 43 NotAStore")?;
    opens(&rt, "cs_cli_none", "get @a", "refused 1 DeviceFault", 3)?;
    opens(&rt, ".", "get @a", "refused 1 DeviceFault", 3)
}

/// A file that can't be made.
#[test]
fn no_store_is_made(rt: HostRuntime) -> Result<(), Fail> {
    let text = script_text(rt.alloc(), "get @a")?;
    let path = "no_such_folder/store";
    let store = new_in_file(&rt, rt.alloc(), path, Geometry::new(6, 2)?);
    prints_over(&rt, store, &text, "refused 1 DeviceFault\n", 3);
    Ok(())
}

/// A store of 16 pages in a new file, which has four pages more then.
fn new_on_longer<R: Abort + AllocGlobal + Files<File = File>>(
    rt: &R,
    path: &str,
) -> Result<(), Fail> {
    let geometry = Geometry::for_file(StoreId([3; 16]), 6, 2, None)?;
    assert!(rt; new_in_file(rt, rt.alloc(), path, geometry).is_ok());
    let mut bytes = std::fs::read(rt, path)?;
    for _ in 0..4 {
        bytes.extend_from_slice(&[9; 4096])?;
    }
    std::fs::write(rt, path, bytes.as_slice())?;
    Ok(())
}

/// Page 0 says how many pages the device had when its store was made.
#[test]
fn the_pages_of_a_longer_device(rt: HostRuntime) -> Result<(), Fail> {
    let path = "cs_cli_pages";
    new_on_longer(&rt, path)?;
    match FileDisk::open_device(&rt, rt.alloc(), path, Access::Write) {
        Ok(mut device) => {
            assert!(&rt; device.pages() == 20);
            let said = pages_said(rt.alloc(), &mut device);
            assert!(&rt; said.is_ok_and(|said| said == Some(16)));
            assert!(&rt; device.first_pages(16).pages() == 16);
        }
        Err(_) => panic!(&rt; "no device"),
    }
    std::fs::remove_file(&rt, path)?;
    Ok(())
}

/// A store on a longer device is used, and the pages after its own stay as they are.
#[test]
fn a_store_on_a_longer_device(rt: HostRuntime) -> Result<(), Fail> {
    let path = "cs_cli_longer";
    new_on_longer(&rt, path)?;
    match OpenOptions::new(rt.alloc()).open_file(&rt, path) {
        Ok(mut store) => {
            assert!(&rt; store.put(ShardId([1; 16]), b"a rope").is_ok());
            assert!(&rt; store.sync().is_ok());
        }
        Err(_) => panic!(&rt; "not opened"),
    }
    let bytes = std::fs::read(&rt, path)?;
    assert!(&rt; bytes.ends_with(&[9; 4096]));
    std::fs::remove_file(&rt, path)?;
    Ok(())
}

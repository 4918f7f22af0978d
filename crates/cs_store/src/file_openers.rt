//! Files as disks of stores: beside the disk in a file itself, the only module that opens and makes files of stores.
//!
//! No clause can say what the operating system answers, so a body that opens another file, or empties one, would be
//! proved here too. What is here is kept short for that, and nothing else may call what opens or makes a `FileDisk`. A
//! trial tries a wrong body of each function.
ghost use Rattle.std.specs.Prelude.{◌<◌, ◌≡◌, ◌≢◌, ◌^◌, ◌⊎◌, IfErr, IfOk, IsOkUnless, min};
ghost use Rattle.cs_disk.specs.Files.{file_failures, file_pages};
ghost use Rattle.cs_store.specs.Devices.{IsFileRefusal};

use crate::devices::pages_said;
use crate::errors::OpenError;
use cs_disk::{Access, DiskFault, FileDisk, FileFault, OpenFault, PageDisk, ReadOnly, SystemFault};
use cs_mount::{Chosen, Remade, two_stores};
use std::alloc::Global;
use std::fs::File;
use std::os::unix::fs::FileTypeExt;
use std::rt::Files;
use std::time::{Clock, Duration};
use std::{fs, io, thread};

/// A disk over a file that is read and written.
pub type FileToWrite = FileDisk;

/// A disk over a file that is only read, of which one of two stores may be hidden.
pub type FileToRead = Chosen<ReadOnly<FileDisk>>;

/// A disk over a file.
pub trait OverFile: PageDisk {
    /// What the operating system said as it refused a call last.
    fn fault(&self) -> Option<SystemFault>;
}

impl OverFile for FileDisk {
    fn fault(&self) -> Option<SystemFault> {
        self.last_fault()
    }
}

impl OverFile for Chosen<ReadOnly<FileDisk>> {
    fn fault(&self) -> Option<SystemFault> {
        self.below().below().last_fault()
    }
}

impl OverFile for Remade<Chosen<ReadOnly<FileDisk>>> {
    fn fault(&self) -> Option<SystemFault> {
        self.below().fault()
    }
}

/// The permissions of a new file, less those that the process gives to no file.
const MODE: u32 = 0o666;

/// How often a second a file that is in use is tried again.
const TRIES: u64 = 20;

/// Opens a file that is there, all of it. If another process has it open as a disk, it is tried again for up to so many
/// seconds.
///
/// Refused 1 DeviceFault with what the operating system said, and 6 OddLength.
pub fn open_waiting<R: Clock + Files<File = File>>(
    rt: &R,
    alloc: Global,
    path: &str,
    access: Access,
    seconds: u64,
) -> Result<FileDisk, FileFault>
    ensures pages { IfOk result (λ d. file_pages d < 2 ^ 52) }
    ensures failures { IfOk result (λ d. file_failures d ≡ 0) }
    ensures fault { IfErr result (λ fault. fault ≢ FileFault.NotEmpty) }
{
    for _ in 0..seconds.saturating_mul(TRIES) {
        match FileDisk::open_for(rt, alloc, path, access) {
            Err(FileFault::System(SystemFault::InUse)) => {
                thread::sleep(rt, Duration::from_millis(1_000 / TRIES));
            }
            opened => return opened,
        }
    }
    FileDisk::open_for(rt, alloc, path, access)
}

/// The first pages of a disk over a file, at most so many. What comes after them is neither read nor written.
pub fn first_pages(disk: FileDisk, pages: u64) -> FileDisk
    ensures pages { file_pages result ≡ min (file_pages disk) pages }
    ensures failures { file_failures result ≡ file_failures disk }
{
    disk.first_pages(pages)
}

/// Makes a file of so many pages of zeros, with these permissions, less those that the process gives to no file.
///
/// Nothing that is there is lost: refused 46 NotEmpty if a file with something in it is there, or something that is no
/// file. Refused 1 DeviceFault with what the operating system said; a file with nothing in it may be there then.
pub fn create_new<R: Files<File = File>>(
    rt: &R,
    alloc: Global,
    path: &str,
    pages: u64,
    mode: u32,
) -> Result<FileDisk, FileFault>
    ensures pages { IfOk result (λ d. file_pages d ≡ pages) }
    ensures failures { IfOk result (λ d. file_failures d ≡ 0) }
    ensures fault { IfErr result (λ fault. fault ≢ FileFault.OddLength) }
{
    FileDisk::create_new(rt, alloc, path, pages, mode)
}

/// Makes a file of so many pages of zeros in place of what is there, but not while another process has that open as a
/// disk. Refused 1 DeviceFault alone; a file of any length may be there then.
pub fn create_emptied<R: Files<File = File>>(
    rt: &R,
    alloc: Global,
    path: &str,
    pages: u64,
) -> Result<FileDisk, OpenFault>
    ensures pages { IfOk result (λ d. file_pages d ≡ pages) }
    ensures failures { IfOk result (λ d. file_failures d ≡ 0) }
    ensures fault { IsOkUnless result OpenFault.DeviceFault }
{
    FileDisk::create(rt, alloc, path, pages)
}

/// Opens a block device, or a file that plays one, with all of its pages, to make a store on it. Its size stays.
///
/// Refused 1 DeviceFault with what the operating system said. A file whose length is no multiple of 4,096 bytes is
/// refused 6 OddLength: each later command would be.
pub fn open_device<R: Files<File = File>>(
    rt: &R,
    alloc: Global,
    path: &str,
) -> Result<FileDisk, FileFault>
    ensures pages { IfOk result (λ d. file_pages d < 2 ^ 52) }
    ensures failures { IfOk result (λ d. file_failures d ≡ 0) }
    ensures fault { IfErr result (λ fault. fault ≢ FileFault.NotEmpty) }
{
    match fs::metadata(rt, path) {
        Ok(about) if about.is_file() && about.len() % 4096 != 0 => Err(FileFault::OddLength),
        _ => FileDisk::open_device(rt, alloc, path, Access::Write),
    }
}

/// Opens a file that is there with as many whole pages as it has, to salvage what is on them: its length may be odd. To
/// be only read it needn't be one that may be written.
///
/// Refused 1 DeviceFault with what the operating system said.
pub fn open_whole_pages<R: Files<File = File>>(
    rt: &R,
    alloc: Global,
    path: &str,
    access: Access,
) -> Result<FileDisk, FileFault>
    ensures pages { IfOk result (λ d. file_pages d < 2 ^ 52) }
    ensures failures { IfOk result (λ d. file_failures d ≡ 0) }
    ensures fault { IfErr result (λ fault. (fault ≢ FileFault.NotEmpty) × (fault ≢ FileFault.OddLength)) }
{
    FileDisk::open_device(rt, alloc, path, access)
}

/// Makes the file of a new store. Refused 46 NotEmpty, so that nothing that is there is lost, and 1 DeviceFault.
pub(crate) fn create_store_file<R: Files<File = File>>(
    rt: &R,
    alloc: Global,
    path: &str,
    pages: u64,
) -> Result<FileDisk, OpenError>
    ensures pages { IfOk result (λ d. file_pages d ≡ pages) }
    ensures refusals { IfErr result (λ error. (error ≡ OpenError.DeviceFault) ⊎ (error ≡ OpenError.NotEmpty)) }
{
    match FileDisk::create_new(rt, alloc, path, pages, MODE) {
        Ok(disk) => Ok(disk),
        Err(FileFault::NotEmpty) => Err(OpenError::NotEmpty),
        Err(_) => Err(OpenError::DeviceFault),
    }
}

/// Opens the file of a store, to read and write it. If page 0 says how many pages the file had when the store was made,
/// no more of them are read or written.
///
/// Refused 1 DeviceFault, 6 OddLength and 9 OutOfMemory. A longer file is refused 43 NotAStore if its first and last
/// pages are of different stores.
pub(crate) fn open_store_file<R: Files<File = File>>(
    rt: &R,
    alloc: Global,
    path: &str,
) -> Result<FileDisk, OpenError>
    ensures { IfErr result IsFileRefusal }
{
    let mut disk = match FileDisk::open(rt, alloc, path) {
        Ok(disk) => disk,
        Err(OpenFault::DeviceFault) => return Err(OpenError::DeviceFault),
        Err(OpenFault::OddLength) => return Err(OpenError::OddLength),
    };
    match pages_said(alloc, &mut disk) {
        Ok(Some(pages)) => store_pages(alloc, disk, pages),
        // If page 0 can't be read, it is for the opening of the store to refuse it.
        Ok(None) | Err(DiskFault::DeviceFault) => Ok(disk),
        Err(DiskFault::OutOfMemory) => Err(OpenError::OutOfMemory),
    }
}

/// The pages of a store's file that it had as the store was made. It is refused as `open_store_file`.
fn store_pages(alloc: Global, disk: FileDisk, pages: u64) -> Result<FileDisk, OpenError>
    ensures { IfErr result IsFileRefusal }
{
    if disk.pages() <= pages {
        return Ok(disk);
    }
    let mut disk = disk;
    match two_stores(alloc, &mut disk) {
        Ok(None) => Ok(first_pages(disk, pages)),
        Ok(Some(_)) => Err(OpenError::NotAStore),
        Err(fault) => Err(error_of(fault)),
    }
}

/// The error that a fault of the disk is.
fn error_of(fault: DiskFault) -> OpenError
    ensures { IsFileRefusal result }
{
    match fault {
        DiskFault::DeviceFault => OpenError::DeviceFault,
        DiskFault::OutOfMemory => OpenError::OutOfMemory,
    }
}

/// Whether what is under a name is a pipe or a character device, which no store lies in, and whose opening may wait for
/// ever: no regular file, folder or block device.
pub fn is_special<R: Files<File = File>>(rt: &R, path: &str) -> bool {
    match fs::metadata(rt, path) {
        Ok(about) => !about.is_file() && !about.is_dir() && !about.file_type().is_block_device(),
        Err(_) => false,
    }
}

/// Whether a block device is under a name.
pub fn is_block_device<R: Files<File = File>>(rt: &R, path: &str) -> bool {
    match fs::metadata(rt, path) {
        Ok(about) => about.file_type().is_block_device(),
        Err(_) => false,
    }
}

/// Syncs the folder of a file, so that a crash leaves the file's name.
pub fn sync_folder<R: Files<File = File>>(rt: &R, path: &str) -> io::Result<()> {
    let folder = match path.rsplit_once('/') {
        None => File::open(rt, ".")?,
        Some(("", _)) => File::open(rt, "/")?,
        Some((folder, _)) => File::open(rt, folder)?,
    };
    folder.sync_all()
}

// A disk in a file, and how files are opened and made.
ghost use Rattle.std.specs.Prelude.{◌≡◌, ◌≢◌, ◌<◌, ◌^◌, ◌↔◌, ◌*◌, [], Err, IsOk, IfErr, IfOk, IsOkUnless, OnErr, OnOk, Some, List, ℕ, min};
ghost use Rattle.std.specs.BTreeMap.{IsEmpty, get};
ghost use Rattle.std.specs.Ordering.{nat_cmp};
ghost use Rattle.cs_disk.specs.Ahead.{pages_ahead};
ghost use Rattle.cs_disk.specs.Unflushed.{bytes_at};
ghost use Rattle.cs_disk.specs.Disk.{HasCause};

use crate::ahead::Ahead;
use crate::unflushed::Unflushed;
use crate::{CrashDisk, DiskFault, FileFault, OpenFault, PageDisk, SystemFault};
use std::alloc::Global;
use std::fs::{File, TryLockError};
use std::io;
use std::io::{ErrorKind, Seek, SeekFrom};
use std::os::unix::fs::{FileExt, FileTypeExt, OpenOptionsExt};
use std::rt::Files;

/// A disk in a file, page 0 first. No clause can say what a file holds, so nothing says that it is honest: what is
/// proved of an honest disk is carried over to it by an argument outside the contracts, with the premise that the operating system keeps to
/// the model, `sync_data` being the flush of a file whose length doesn't change. No crash of it can be tried out.
///
/// A write stays in memory up to the next flush, so it may be refused 9 OutOfMemory; what was never flushed is lost with the
/// value, as after a crash. A flush writes the last write to each page, in the order of the pages and adjacent ones in one call where they came
/// in that order, and makes one `sync_data`. Where one of these calls fails, all of it is kept, and the next flush writes it again.
/// A read is the last write to the page that is kept, else what the file has there. Where pages are read one after another, up to 64 are
/// taken from the file in one call, and answer the reads that follow, up to the next flush.
///
/// A call of the operating system that fails is 1 DeviceFault, and counted; `last_fault` tells why it did.
///
/// The file is locked for as long as the value lives, so that one process at a time writes it, and nobody reads it then (`Access`). The lock binds those that
/// ask for it, as this type does.
#[derive(Drop)]
pub struct FileDisk {
    file: File,
    unflushed: Unflushed,
    ahead: Ahead,
    pages: u64,
    access: Access,
    failures: Failures,
    ghost small: { pages < 2 ^ 52 },
}

impl FileDisk {
    ghost use Rattle.cs_disk.specs.Files.{file_pages, file_failures};

    // A body that always refuses, or opens another file, would be proved too, here and in the next three: no clause can say what the operating
    // system answers. A test opens a file that is there.
    /// Opens a file that is there to read and write it, with as many pages as its length has. Refused 1 DeviceFault where the operating
    /// system refuses it, as where there is none, where it is a folder or may not be written, and where another process has
    /// it open as a disk; and 6 OddLength where its length is no multiple of 4,096 bytes.
    pub fn open<R: Files<File = File>>(rt: &R, alloc: Global, path: &str) -> Result<Self, OpenFault>
        ensures pages { IfOk result (λ d. file_pages d < 2 ^ 52) }
        ensures failures { IfOk result (λ d. file_failures d ≡ 0) }
    {
        match FileDisk::open_for(rt, alloc, path, Access::Write) {
            Ok(disk) => Ok(disk),
            Err(FileFault::OddLength) => Err(OpenFault::OddLength),
            Err(_) => Err(OpenFault::DeviceFault),
        }
    }

    /// Opens a file that is there, with as many pages as its length has, and tells what the operating system said where it refuses it.
    /// Refused 1 DeviceFault and 6 OddLength as `open` is; to be only read a file needn't be one that may be written.
    pub fn open_for<R: Files<File = File>>(
        rt: &R,
        alloc: Global,
        path: &str,
        access: Access,
    ) -> Result<Self, FileFault>
        ensures pages { IfOk result (λ d. file_pages d < 2 ^ 52) }
        ensures failures { IfOk result (λ d. file_failures d ≡ 0) }
        ensures fault { IfErr result (λ fault. fault ≢ FileFault.NotEmpty) }
    {
        match existing(rt, path, access) {
            Ok((file, length)) if length % 4096 == 0 => {
                Ok(FileDisk::over(alloc, file, length / 4096, access))
            }
            Ok(_) => Err(FileFault::OddLength),
            Err(fault) => Err(FileFault::System(fault)),
        }
    }

    /// Opens a block device, or a file of any length, with as many whole pages as it has. Its length stays as it is.
    /// Refused 1 DeviceFault alone; to be only read it needn't be one that may be written.
    pub fn open_device<R: Files<File = File>>(
        rt: &R,
        alloc: Global,
        path: &str,
        access: Access,
    ) -> Result<Self, FileFault>
        ensures pages { IfOk result (λ d. file_pages d < 2 ^ 52) }
        ensures failures { IfOk result (λ d. file_failures d ≡ 0) }
        ensures fault { IfErr result (λ fault. (fault ≢ FileFault.NotEmpty) × (fault ≢ FileFault.OddLength)) }
    {
        match existing(rt, path, access) {
            Ok((file, length)) => Ok(FileDisk::over(alloc, file, length / 4096, access)),
            Err(fault) => Err(FileFault::System(fault)),
        }
    }

    /// The first pages of the file alone, at most so many, for a store that was made when its device had no more. What
    /// comes after them is neither read nor written.
    pub fn first_pages(self, pages: u64) -> Self
        ensures pages { file_pages result ≡ min (file_pages self) pages }
        ensures failures { file_failures result ≡ file_failures self }
    {
        let mut disk = self;
        disk.pages = disk.pages.min(pages);
        disk
    }

    /// Makes a file of so many pages of zeros, writes all of it where that is a gibibyte or less, and syncs it and its folder. One that is there is emptied, but
    /// not while another process has it open as a disk. Refused 1 DeviceFault alone, also where so many pages are more than a
    /// file can have, and where the device hasn't room for them; a file may be there then, of any length.
    pub fn create<R: Files<File = File>>(
        rt: &R,
        alloc: Global,
        path: &str,
        pages: u64,
    ) -> Result<Self, OpenFault>
        ensures pages { IfOk result (λ d. file_pages d ≡ pages) }
        ensures failures { IfOk result (λ d. file_failures d ≡ 0) }
        ensures fault { IsOkUnless result OpenFault.DeviceFault }
    {
        if pages.checked_mul(4096).is_none() {
            return Err(OpenFault::DeviceFault);
        }
        match file_of_zeros(rt, path, pages) {
            Ok(file) => Ok(FileDisk::over(alloc, file, pages, Access::Write)),
            Err(_) => Err(OpenFault::DeviceFault),
        }
    }

    /// Makes a file of so many pages of zeros as `create` does, with these permissions, less those that the process gives to no file. Nothing that is there is lost:
    /// refused 46 NotEmpty where there is a file with something in it, or what is there is no file; a link to a file that isn't there isn't
    /// followed. Refused 1 DeviceFault else, as `create`, and a file may be there then with nothing in it.
    pub fn create_new<R: Files<File = File>>(
        rt: &R,
        alloc: Global,
        path: &str,
        pages: u64,
        mode: u32,
    ) -> Result<Self, FileFault>
        ensures pages { IfOk result (λ d. file_pages d ≡ pages) }
        ensures failures { IfOk result (λ d. file_failures d ≡ 0) }
        ensures fault { IfErr result (λ fault. fault ≢ FileFault.OddLength) }
    {
        if pages.checked_mul(4096).is_none() {
            return Err(FileFault::System(SystemFault::NoRoom));
        }
        match new_file(rt, path, pages, mode) {
            Ok(file) => Ok(FileDisk::over(alloc, file, pages, Access::Write)),
            Err(NewFault::NotEmpty) => Err(FileFault::NotEmpty),
            Err(NewFault::System(fault)) => Err(FileFault::System(fault)),
        }
    }

    /// What the operating system said as the last read, write or flush was refused 1 DeviceFault; none where none was.
    pub fn last_fault(&self) -> Option<SystemFault> {
        self.failures.last
    }

    /// A disk over a file of so many pages, of which nothing was read or written.
    fn over(alloc: Global, file: File, pages: u64, access: Access) -> Self
        requires { pages < 2 ^ 52 }
        ensures pages { file_pages result ≡ pages }
        ensures failures { file_failures result ≡ 0 }
    {
        FileDisk {
            file,
            unflushed: Unflushed::new(alloc),
            ahead: Ahead::new(alloc),
            pages,
            access,
            failures: Failures::none(),
        }
    }
}

impl FileDisk {
    /// Reads a page: the last write to it that is kept, else what the file has there.
    fn read_newest(&mut self, number: u64, buffer: &mut [u8; 4096]) -> io::Result<()>
        requires { number < self.old.pages }
        ensures ok { (bytes : List ℕ) → bytes_at self.old.unflushed.pages.items (get nat_cmp self.old.unflushed.newest (number * 4096)) ≡ Some bytes → IsOk result }
        ensures kept { (bytes : List ℕ) → bytes_at self.old.unflushed.pages.items (get nat_cmp self.old.unflushed.newest (number * 4096)) ≡ Some bytes → buffer.new ≡ bytes }
        ensures pages { self.new.pages ≡ self.old.pages }
        ensures failures { self.new.failures ≡ self.old.failures }
    {
        if let Some(bytes) = self.unflushed.newest(number * 4096) {
            self.ahead.follows(number);
            *buffer = *bytes;
            return Ok(());
        }
        self.ahead.read(&self.file, self.pages, number, buffer)
    }

    /// Writes to the file what is kept, syncs it, and forgets what was kept. Where one of these calls fails, all of it is kept. What was
    /// read ahead is forgotten before.
    fn write_out(&mut self) -> io::Result<()>
        ensures kept { IfErr result (λ _. self.new.unflushed.pages.items ≡ self.old.unflushed.pages.items) }
        ensures same_places { OnErr result (self.new.unflushed.newest.entries ≡ self.old.unflushed.newest.entries) }
        ensures forgotten { OnOk result (IsEmpty self.new.unflushed.newest) }
        ensures ahead { pages_ahead self.new.ahead ≡ 0 }
        ensures pages { self.new.pages ≡ self.old.pages }
        ensures failures { self.new.failures ≡ self.old.failures }
    {
        self.ahead.forget();
        self.unflushed.write_to(&self.file)?;
        self.file.sync_data()?;
        self.unflushed.clear();
        Ok(())
    }
}

/// How many calls failed, and what the operating system said of the last one.
#[derive(Drop)]
struct Failures {
    count: u64,
    last: Option<SystemFault>,
}

impl Failures {
    /// None.
    fn none() -> Self
        ensures { result.count ≡ 0 }
    {
        Failures {
            count: 0,
            last: None,
        }
    }

    /// Counts a call that failed so, and answers 1 DeviceFault for it.
    fn counted(&mut self, fault: SystemFault) -> Result<(), DiskFault>
        ensures refused { result ≡ Err DiskFault.DeviceFault }
        ensures cause { HasCause self.old.count self.new.count result }
    {
        self.count = self.count.saturating_add(1);
        self.last = Some(fault);
        Err(DiskFault::DeviceFault)
    }

    /// Counts a call that failed, and answers 1 DeviceFault for it.
    fn of(&mut self, answer: io::Result<()>) -> Result<(), DiskFault>
        ensures ok { IsOk result ↔ IsOk answer }
        ensures cause { HasCause self.old.count self.new.count result }
    {
        match answer {
            Ok(()) => Ok(()),
            Err(error) => self.counted(SystemFault::of(&error)),
        }
    }
}

impl PageDisk for FileDisk {
    ghost honest = { λ _. ⊥ };

    ghost state = { λ _. record { durable = []; volatile = [] } };

    ghost device = { λ _. record { durable = []; volatile = [] } };

    ghost page_count = { λ d. d.pages };

    ghost failure_count = { λ d. d.failures.count };

    ghost refusal_count = { λ _. 0 };

    ghost sound = { λ _. Unit {0} };

    ghost takes = { λ _ _ _. Unit {0} };

    ghost moment = { λ _. 0 };

    ghost left_since = { λ _ _ _. ⊥ };

    fn pages(&self) -> u64 {
        self.pages
    }

    fn failures(&self) -> u64 {
        self.failures.count
    }

    // The body `Ok(())` would be proved here, in `write` and in `flush`, since nothing says that the disk is honest, nor
    // that a call of the operating system fails. A test reads back what was written.
    fn read(&mut self, number: u64, buffer: &mut [u8; 4096]) -> Result<(), DiskFault> {
        let answer = self.read_newest(number, buffer);
        self.failures.of(answer)
    }

    /// Keeps the write in memory. Of a file that is only read it is refused.
    fn write(&mut self, number: u64, bytes: &[u8; 4096]) -> Result<(), DiskFault> {
        if self.access != Access::Write {
            return self.failures.counted(SystemFault::ReadOnly);
        }
        self.unflushed.keep(number * 4096, bytes)?;
        Ok(())
    }

    /// Writes out what is kept, and syncs the file. Of a file that is only read nothing is asked of the operating system.
    fn flush(&mut self) -> Result<(), DiskFault> {
        if self.access != Access::Write {
            return Ok(());
        }
        let answer = self.write_out();
        self.failures.of(answer)
    }

    ghost sized = { λ d h. absurd h };

    ghost whole = { λ d h. absurd h };

    ghost counts_now = { λ d t c h le now. absurd h };

    ghost only_now = { λ d c h left. absurd h };
}

impl CrashDisk for FileDisk {
    ghost can_crash = { λ _. ⊥ };

    ghost volatile_count = { λ _. 0 };

    fn crashable(&self) -> bool {
        false
    }

    fn volatile(&self) -> usize {
        0
    }

    fn crash(self, _mask: &[bool]) -> Self {
        self
    }

    ghost counted = { λ d h can. absurd h };
}

/// What a file is opened for.
#[derive(Clone, Copy, Debug, PartialEq, Eq)]
pub enum Access {
    /// It is read and written, and locked, so that no other process uses it.
    Write,
    /// It is only read, beside others that only read it. It is locked against those that write.
    Read,
    /// It is only read, and not locked, for file systems without locks. While another process writes it, anything may be read.
    ReadUnlocked,
}

/// Why a new file wasn't made.
pub enum NewFault {
    System(SystemFault),
    /// There is something in it, or it is no file.
    NotEmpty,
}

impl From<io::Error> for NewFault {
    fn from(error: io::Error) -> Self {
        NewFault::System(SystemFault::of(&error))
    }
}

impl From<TryLockError> for NewFault {
    fn from(error: TryLockError) -> Self {
        NewFault::from(io::Error::from(error))
    }
}

// Of these functions no clause can say more than their types do; a test calls them.
/// A file that is there, locked as this access asks for, and its length in bytes; of a block device that of its whole pages.
pub fn existing<R: Files<File = File>>(
    rt: &R,
    path: &str,
    access: Access,
) -> Result<(File, u64), SystemFault> {
    let mut options = File::options();
    options.read(true).write(access == Access::Write);
    let file = options.open(rt, path)?;
    match access {
        Access::Write => file.try_lock()?,
        Access::Read => file.try_lock_shared()?,
        Access::ReadUnlocked => {}
    }
    let about = file.metadata()?;
    if about.is_dir() {
        return Err(SystemFault::Folder);
    }
    if about.file_type().is_block_device() {
        let size = size_of_device(&file)?;
        return Ok((file, size));
    }
    Ok((file, about.len()))
}

/// The bytes of the whole pages of a block device. Its metadata don't say how large it is, so its end is sought.
fn size_of_device(file: &File) -> io::Result<u64> {
    let mut device = file;
    let size = device.seek(SeekFrom::End(0))?;
    Ok(size - size % 4096)
}

/// Up to how many pages a new file is written full: a gibibyte.
const MOST_FILLED: u64 = 262_144;

/// A new or emptied file of so many pages of zeros, locked.
pub fn file_of_zeros<R: Files<File = File>>(rt: &R, path: &str, pages: u64) -> io::Result<File> {
    let mut options = File::options();
    options.read(true).write(true).create(true);
    let file = options.open(rt, path)?;
    file.try_lock()?;
    file.set_len(0)?;
    make_zeros(rt, path, &file, pages)?;
    Ok(file)
}

/// A new file of so many pages of zeros with these permissions, locked; or one that was there with nothing in it, whose permissions stay. Where
/// the pages can't be written the file is left empty.
pub fn new_file<R: Files<File = File>>(
    rt: &R,
    path: &str,
    pages: u64,
    mode: u32,
) -> Result<File, NewFault> {
    let file = file_of_nothing(rt, path, mode)?;
    match make_zeros(rt, path, &file, pages) {
        Ok(()) => Ok(file),
        Err(error) => {
            let _ = file.set_len(0);
            Err(NewFault::from(error))
        }
    }
}

/// A new file with these permissions, or one that is there, with nothing in it, locked. A link to a file that isn't there isn't followed.
fn file_of_nothing<R: Files<File = File>>(rt: &R, path: &str, mode: u32) -> Result<File, NewFault> {
    let mut options = File::options();
    options.read(true).write(true).create_new(true).mode(mode);
    match options.open(rt, path) {
        Ok(file) => {
            file.try_lock()?;
            Ok(file)
        }
        Err(error) if error.kind() == ErrorKind::AlreadyExists => empty_file(rt, path),
        Err(error) => Err(NewFault::from(error)),
    }
}

/// A file that is there with nothing in it, locked.
fn empty_file<R: Files<File = File>>(rt: &R, path: &str) -> Result<File, NewFault> {
    let file = File::options().read(true).write(true).open(rt, path)?;
    file.try_lock()?;
    let about = file.metadata()?;
    if about.is_file() && about.len() == 0 {
        Ok(file)
    } else {
        Err(NewFault::NotEmpty)
    }
}

/// Makes an empty file one of so many pages of zeros. Up to a gibibyte it is written full, so that no later flush has to find room for
/// it; a larger one gets its length alone, and takes room on the device as its pages are written. Its folder is synced too, so that a crash
/// leaves its name there.
fn make_zeros<R: Files<File = File>>(
    rt: &R,
    path: &str,
    file: &File,
    pages: u64,
) -> io::Result<()> {
    if pages <= MOST_FILLED {
        fill(file, pages)?;
    } else {
        file.set_len(pages.saturating_mul(4096))?;
    }
    file.sync_all()?;
    folder_of(rt, path)?.sync_all()
}

/// Writes so many pages of zeros, 16 in a call.
fn fill(file: &File, pages: u64) -> io::Result<()> {
    let zeros = [0; 16 * 4096];
    for group in 0..pages / 16 {
        file.write_all_at(&zeros, group.saturating_mul(16 * 4096))?;
    }
    for page in pages - pages % 16..pages {
        file.write_all_at(&zeros[..4096], page.saturating_mul(4096))?;
    }
    Ok(())
}

/// The folder that a file stands in.
fn folder_of<R: Files<File = File>>(rt: &R, path: &str) -> io::Result<File> {
    match path.rsplit_once('/') {
        None => File::open(rt, "."),
        Some(("", _)) => File::open(rt, "/"),
        Some((folder, _)) => File::open(rt, folder),
    }
}

// Why a call was refused.
ghost use Rattle.std.specs.Prelude.{◌≡◌};
ghost use Rattle.cs_disk.specs.declared.fault.DiskFault.TheVariants.{OutOfMemory};
ghost use Rattle.cs_disk.specs.declared.fault.ImageFault.TheVariants.{OutOfMemory as ImageOutOfMemory};
ghost use Rattle.cs_disk.specs.Faults.{disk_fault_number};
ghost use Rattle.cs_refusal.specs.Refusals.{number_of};

use cs_refusal::Refusal;
use std::alloc::{AllocError, AllocFailed};
use std::fs::TryLockError;
use std::io;
use std::io::ErrorKind;
use thiserror::Error;

/// Why a call on a disk was refused.
#[derive(Clone, Copy, Debug, PartialEq, Eq, Error)]
pub enum DiskFault {
    /// Refusal 1: the device failed. The call raised the count of failures, or found it at its end.
    #[error("the device failed")]
    DeviceFault,
    /// Refusal 9: memory was asked for and refused. The disk is as it was.
    #[error("out of memory")]
    OutOfMemory,
}

impl DiskFault {
    /// The number that is printed with it: 1 or 9.
    pub fn number(self) -> u8
        ensures { result ≡ disk_fault_number self }
    {
        match self {
            DiskFault::DeviceFault => 1,
            DiskFault::OutOfMemory => 9,
        }
    }
}

impl From<AllocError> for DiskFault {
    ghost from_gives = { λ _ e. e ≡ OutOfMemory };

    fn from(_: AllocError) -> Self {
        DiskFault::OutOfMemory
    }
}

impl<T: Drop> From<AllocFailed<T>> for DiskFault {
    ghost from_gives = { λ _ e. e ≡ OutOfMemory };

    fn from(_: AllocFailed<T>) -> Self {
        DiskFault::OutOfMemory
    }
}

/// Why bytes weren't taken as an image.
#[derive(Clone, Copy, Debug, PartialEq, Eq, Error)]
pub enum ImageFault {
    /// Refusal 6: the number of bytes is no multiple of 4,096.
    #[error("the length is no multiple of 4,096 bytes")]
    OddLength,
    /// Refusal 9: memory was asked for and refused.
    #[error("out of memory")]
    OutOfMemory,
}

impl ImageFault {
    ghost use Rattle.cs_disk.specs.Faults.{image_fault_number};

    /// The number that is printed with it: 6 or 9.
    pub fn number(self) -> u8
        ensures { result ≡ image_fault_number self }
    {
        match self {
            ImageFault::OddLength => 6,
            ImageFault::OutOfMemory => 9,
        }
    }
}

impl From<AllocError> for ImageFault {
    ghost from_gives = { λ _ e. e ≡ ImageOutOfMemory };

    fn from(_: AllocError) -> Self {
        ImageFault::OutOfMemory
    }
}

/// Why a file wasn't opened or made.
#[derive(Clone, Copy, Debug, PartialEq, Eq, Error)]
pub enum OpenFault {
    /// Refusal 1: the operating system refused a call on the file or its folder.
    #[error("the device failed")]
    DeviceFault,
    /// Refusal 6: the file's length is no multiple of 4,096 bytes.
    #[error("the length is no multiple of 4,096 bytes")]
    OddLength,
}

impl OpenFault {
    ghost use Rattle.cs_disk.specs.Faults.{open_fault_number};

    /// The number that is printed with it: 1 or 6.
    pub fn number(self) -> u8
        ensures { result ≡ open_fault_number self }
    {
        match self {
            OpenFault::DeviceFault => 1,
            OpenFault::OddLength => 6,
        }
    }
}

/// Why the operating system refused a call on a file, as far as it tells whoever has to do something about it.
#[derive(Clone, Copy, Debug, PartialEq, Eq, Error)]
pub enum SystemFault {
    /// There is no file of that name, or no folder for it.
    #[error("there is no such file")]
    NotThere,
    /// The permissions of the file, or of its folder, don't allow it.
    #[error("permission denied")]
    NotAllowed,
    /// It is a folder.
    #[error("it is a folder")]
    Folder,
    /// Another process has the file open as a disk.
    #[error("another process has it open")]
    InUse,
    /// The file system, or what its user may have of it, is full, or the file would be larger than it takes.
    #[error("no room is left on the file system")]
    NoRoom,
    /// The file system is read-only, or the file was opened for reading alone.
    #[error("it can only be read")]
    ReadOnly,
    /// Anything else, as a device that answers with an error.
    #[error("the device failed")]
    Failed,
}

impl SystemFault {
    // No clause can say what the operating system answers; a trial makes each of these.
    /// What an error of the operating system means here.
    pub fn of(error: &io::Error) -> Self {
        match error.kind() {
            ErrorKind::NotFound | ErrorKind::NotADirectory => SystemFault::NotThere,
            ErrorKind::PermissionDenied => SystemFault::NotAllowed,
            ErrorKind::IsADirectory => SystemFault::Folder,
            ErrorKind::WouldBlock => SystemFault::InUse,
            ErrorKind::StorageFull | ErrorKind::QuotaExceeded | ErrorKind::FileTooLarge => {
                SystemFault::NoRoom
            }
            ErrorKind::ReadOnlyFilesystem => SystemFault::ReadOnly,
            _ => SystemFault::Failed,
        }
    }
}

/// Why a file wasn't opened or made as a disk, and what the operating system said where it refused a call.
#[derive(Clone, Copy, Debug, PartialEq, Eq, Error)]
pub enum FileFault {
    /// Refusal 1: the operating system refused a call on the file or its folder.
    #[error("{0}")]
    System(SystemFault),
    /// Refusal 6: the file's length is no multiple of 4,096 bytes.
    #[error("the length is no multiple of 4,096 bytes")]
    OddLength,
    /// Refusal 46: a new file was asked for, and one with something in it is there, or what is there is no file.
    #[error("the file is not empty")]
    NotEmpty,
}

impl FileFault {
    ghost use Rattle.cs_disk.specs.Faults.{file_fault_number};

    /// The number that is printed with it: 1, 6 or 46.
    pub fn number(self) -> u8
        ensures { result ≡ file_fault_number self }
    {
        match self {
            FileFault::System(_) => 1,
            FileFault::OddLength => 6,
            FileFault::NotEmpty => 46,
        }
    }
}

impl From<io::Error> for SystemFault {
    fn from(error: io::Error) -> Self {
        SystemFault::of(&error)
    }
}

impl From<TryLockError> for SystemFault {
    fn from(error: TryLockError) -> Self {
        SystemFault::from(io::Error::from(error))
    }
}

/// The refusal that has the number of a disk's fault.
pub fn refusal_of_disk(fault: DiskFault) -> Refusal
    ensures { number_of result ≡ disk_fault_number fault }
{
    match fault {
        DiskFault::DeviceFault => Refusal::DeviceFault,
        DiskFault::OutOfMemory => Refusal::OutOfMemory,
    }
}

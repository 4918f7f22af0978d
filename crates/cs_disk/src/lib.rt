//! Disks of pages of 4,096 bytes, with what a crash may leave of them: in memory, in a file, with one call that
//! fails, and such as are only read.
#![tactic(auto)]

mod ahead;
mod contents;
mod disk;
mod fail_at;
mod fault;
mod file;
mod memory;
mod past;
mod read_only;
mod unflushed;

pub use disk::{CrashDisk, PageDisk};
pub use fail_at::FailAt;
pub use fault::{DiskFault, FileFault, ImageFault, OpenFault, SystemFault, refusal_of_disk};
pub use file::{Access, FileDisk};
pub use memory::MemoryDisk;
pub use read_only::ReadOnly;

/// The bytes of a page.
pub const PAGE_BYTES: usize = 4096;

//! A disk that shows a store as of an older root.
ghost use Rattle.std.specs.Prelude.{◌≡◌, ◌+◌, ◌-◌, ◌^◌, IsOkUnless, OnOk, min};
ghost use Rattle.cs_disk.specs.Disk.{IsWhole};
ghost use Rattle.cs_mount.specs.Lowered.{is_of_section, lowered_at, lowered_page, lowered_state};
ghost use Rattle.cs_mount.specs.Repaged.{RepagesKept, left_repaged};

use crate::identities::unless_memory;
use cs_disk::{CrashDisk, DiskFault, PageDisk};
use cs_frame::{FormatNumber, Geometry, Superblock, decode_section, encode_superblock};
use std::alloc::Global;

/// A disk over which a store opens, though a newer root was persistent than is whole: it shows each section of the
/// superblock as if that root hadn't been persistent as it was written. Nothing is written by way of it: a write is
/// refused 1 DeviceFault, and counted.
///
/// It is honest where the disk below is. That is said of its calls alone: what it shows was maybe never all there at
/// once, as what that root names may have been written over since.
#[derive(Drop)]
pub struct AsOf<D: PageDisk> {
    alloc: Global,
    disk: D,
    geometry: Geometry,
    root: u64,
    refused: u64,
    // What the trait's laws are told.
    ghost lowers: { RepagesKept (lowered_at geometry root) (D.state disk) },
    ghost whole: { D.honest disk → IsWhole (lowered_state geometry root (D.state disk)) },
}

impl<D: PageDisk> AsOf<D> {
    ghost use Rattle.cs_mount.specs.OlderDisks.{dimensions_of, refused_of, root_of, shown_below};

    /// The disk of a store of this geometry, as of the root of this version.
    pub fn new(alloc: Global, disk: D, geometry: Geometry, root: u64) -> Self
        ensures below { shown_below result ≡ disk }
        ensures geometry { dimensions_of result ≡ geometry }
        ensures root { root_of result ≡ root }
        ensures refused { refused_of result ≡ 0 }
    {
        AsOf {
            alloc,
            disk,
            geometry,
            root,
            refused: 0,
        }
    }

    /// The disk below.
    pub fn into_disk(self) -> D
        ensures { result ≡ shown_below self }
    {
        let AsOf {
            alloc: _,
            disk,
            geometry: _,
            root: _,
            refused: _,
        } = self;
        disk
    }
}

/// Whether this page has a section of the superblock of such a store: its twins aren't counted.
fn is_of_section(geometry: Geometry, number: u64) -> bool
    ensures { result ≡ is_of_section geometry number }
{
    let frames = u64::from(geometry.extents()) * u64::from(geometry.pages());
    number == 0 || number > frames + 1
}

/// Spells a section anew where it records a later root than this one, as if this one had been persistent.
fn lowered(superblock: Superblock, root: u64) -> Superblock
    ensures record { result ≡ record superblock { recorded = min superblock.recorded root } }
{
    let mut superblock = superblock;
    superblock.recorded = superblock.recorded.min(root);
    superblock
}

/// Spells a section anew where it records a later root than this one, as if this one had been persistent. Bytes that
/// spell no section stay. Refused 9 OutOfMemory alone.
fn lower(alloc: Global, root: u64, bytes: &mut [u8; 4096]) -> Result<(), DiskFault>
    ensures lowered { OnOk result (bytes.new ≡ lowered_page root bytes.old) }
    ensures memory { IsOkUnless result DiskFault.OutOfMemory }
{
    match decode_section(alloc, bytes, FormatNumber::Four) {
        Ok(superblock) => {
            *bytes = encode_superblock(&lowered(superblock, root));
            Ok(())
        }
        Err(fault) => unless_memory(fault, ()),
    }
}

/// The same of the page of this number, where it is one of a section's.
fn lower_page(
    alloc: Global,
    geometry: Geometry,
    root: u64,
    number: u64,
    bytes: &mut [u8; 4096],
) -> Result<(), DiskFault>
    ensures lowered { OnOk result (bytes.new ≡ lowered_at geometry root number bytes.old) }
    ensures memory { IsOkUnless result DiskFault.OutOfMemory }
{
    if is_of_section(geometry, number) {
        lower(alloc, root, bytes)
    } else {
        Ok(())
    }
}

impl<D: PageDisk> PageDisk for AsOf<D> {
    ghost use Rattle.std.proofs.Common.{◌∙◌};
    ghost use Rattle.cs_mount.specs.Repaged.{counts_repaged, only_repaged, sized_repaged};

    ghost honest = { λ d. D.honest d.disk };

    ghost state = { λ d. lowered_state d.geometry d.root (D.state d.disk) };

    ghost device = { λ d. D.device d.disk };

    ghost page_count = { λ d. D.page_count d.disk };

    ghost failure_count = { λ d. min (D.failure_count d.disk + d.refused) (2 ^ 64 - 1) };

    ghost refusal_count = { λ d. D.refusal_count d.disk + d.refused };

    ghost sound = { λ d. D.sound d.disk };

    ghost takes = { λ _ _ _. ⊥ };

    ghost moment = { λ d. D.moment d.disk };

    ghost left_since = { λ d. left_repaged (lowered_at d.geometry d.root) (D.left_since d.disk) };

    fn pages(&self) -> u64 {
        self.disk.pages()
    }

    fn failures(&self) -> u64 {
        self.disk.failures().saturating_add(self.refused)
    }

    fn read(&mut self, number: u64, buffer: &mut [u8; 4096]) -> Result<(), DiskFault> {
        match self.disk.read(number, buffer) {
            Ok(()) => lower_page(self.alloc, self.geometry, self.root, number, buffer),
            Err(fault) => Err(fault),
        }
    }

    fn write(&mut self, _number: u64, _bytes: &[u8; 4096]) -> Result<(), DiskFault> {
        self.refused = self.refused.saturating_add(1);
        Err(DiskFault::DeviceFault)
    }

    /// Flushes the disk below, though nothing was written by way of this one.
    fn flush(&mut self) -> Result<(), DiskFault> {
        self.disk.flush()
    }

    ghost sized = { λ d h. sized_repaged (lowered_at d.geometry d.root) (D.state d.disk).durable ∙ D.sized d.disk h };

    ghost whole = { λ d h. d.whole h };

    ghost counts_now = { λ d t c h le now. counts_repaged (lowered_at d.geometry d.root) (D.state d.disk) d.lowers (D.left_since d.disk) t (λ image is. D.counts_now d.disk t image h le is) c now };

    ghost only_now = { λ d c h left. only_repaged (lowered_at d.geometry d.root) (D.state d.disk) d.lowers (D.left_since d.disk) (D.moment d.disk) (λ image is. D.only_now d.disk image h is) c left };
}

impl<D: PageDisk> CrashDisk for AsOf<D> {
    ghost can_crash = { λ _. ⊥ };

    ghost volatile_count = { λ _. 0 };

    fn crashable(&self) -> bool {
        false
    }

    fn volatile(&self) -> usize {
        0
    }

    fn crash(self, _mask: &[bool]) -> Self {
        self
    }

    ghost counted = { λ d h can. absurd can };
}

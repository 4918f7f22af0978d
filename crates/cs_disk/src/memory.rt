// A disk in memory.
ghost use Rattle.std.specs.Prelude.{All, ◌≡◌, ◌<◌, length, IsOk, IfOk, IsOkUnless};
ghost use Rattle.cs_disk.specs.Disk.{Counts, page, seen, flushed, Elapses, IsBytes};
ghost use Rattle.std.proofs.Common.{inl, refl};
ghost use Rattle.cs_disk.specs.Past.{state_of, past_states, LeftSince, only_now as only_held};

use crate::contents::{Contents, newest};
use crate::past::Past;
use crate::{CrashDisk, DiskFault, ImageFault, PageDisk};
use std::alloc::Global;

/// A disk in memory. It is honest, and it never answers 1 DeviceFault.
///
/// What it held before each write and flush is kept, so that clauses can name what a crash at any moment would have
/// left. That record is made of values that clauses alone see: it takes no memory when the program runs, however many
/// calls there are.
///
/// A page takes 4,096 bytes of memory, a volatile write 4,104. A read and a flush go through all volatile writes. Only
/// `new`, `of_image` and `write` ask for memory.
#[derive(Drop)]
pub struct MemoryDisk {
    alloc: Global,
    contents: Contents,
    past: Past,
    // Pages and writes of 4,096 bytes: the types say so of values, and these fields say it to the trait's law `whole`.
    ghost durable: { All (λ bytes. length bytes ≡ 4096) contents.durable.items },
    ghost volatile: { All (λ w. length w.1 ≡ 4096) contents.volatile.items },
    ghost durable_bytes: { All (λ bytes. IsBytes bytes) contents.durable.items },
    ghost volatile_bytes: { All (λ w. IsBytes w.1) contents.volatile.items },
}

impl MemoryDisk {
    ghost use Rattle.std.specs.Prelude.{◌/◌, ◌%◌, ◌≢◌, ◌↔◌, [], replicate, IsErrOf};
    ghost use Rattle.std.specs.List.{flat_map};
    ghost use Rattle.std.specs.Simd.{first_chunks};
    ghost use Rattle.cs_disk.specs.Memory.{memory_state};

    /// A disk of so many pages of zeros, all of them durable. Refused 9 OutOfMemory alone.
    pub fn new(alloc: Global, pages: u64) -> Result<Self, DiskFault>
        ensures durable { IfOk result (λ d. (memory_state d).durable ≡ replicate pages (replicate 4096 0)) }
        ensures volatile { IfOk result (λ d. (memory_state d).volatile ≡ []) }
        ensures memory { IsOkUnless result DiskFault.OutOfMemory }
    {
        let mut durable = Vec::with_capacity(alloc, pages as usize)?;
        for _ in 0..pages {
            durable.push([0; 4096])?;
        }
        Ok(MemoryDisk {
            alloc,
            contents: Contents {
                durable,
                volatile: Vec::new(alloc),
            },
            past: Past::Start,
        })
    }

    /// A disk whose durable image is these bytes, page 0 first. Refused 6 OddLength where their number is no multiple
    /// of 4,096, and otherwise 9 OutOfMemory alone: the bytes are copied.
    pub fn of_image(alloc: Global, bytes: Vec<u8>) -> Result<Self, ImageFault>
        ensures durable { IfOk result (λ d. flat_map (λ p. p) (memory_state d).durable ≡ bytes.items) }
        ensures pages { IfOk result (λ d. (memory_state d).durable ≡ first_chunks 4096 (length bytes.items / 4096) bytes.items) }
        ensures volatile { IfOk result (λ d. (memory_state d).volatile ≡ []) }
        ensures odd { IsErrOf result ImageFault.OddLength ↔ (length bytes.items % 4096 ≢ 0) }
    {
        let (pages, rest) = bytes.as_chunks::<4096>();
        if !rest.is_empty() {
            return Err(ImageFault::OddLength);
        }
        are_bytes(&bytes);
        let durable = Vec::from_slice(alloc, pages)?;
        Ok(MemoryDisk {
            alloc,
            contents: Contents {
                durable,
                volatile: Vec::new(alloc),
            },
            past: Past::Start,
        })
    }

    /// The durable bytes, page 0 first, with no volatile write in them. Nothing is copied.
    pub fn image(&self) -> &[u8]
        ensures { result.now ≡ flat_map (λ p. p) (memory_state self.now).durable }
    {
        self.contents.durable.as_flattened()
    }
}

/// Tells clauses that the elements of a slice of bytes are bytes. It has no effect.
fn are_bytes(bytes: &[u8])
    ensures { IsBytes bytes.now }
{
    let _count = bytes.len();
}

impl PageDisk for MemoryDisk {
    ghost use Rattle.cs_disk.specs.Memory.{memory_state, memory_moment, memory_left_since};

    ghost honest = { λ _. Unit {0} };

    ghost state = { λ d. state_of d.contents };

    ghost device = { λ d. state_of d.contents };

    ghost page_count = { λ d. length d.contents.durable.items };

    ghost failure_count = { λ _. 0 };

    ghost refusal_count = { λ _. 0 };

    ghost sound = { λ _. Unit {0} };

    ghost takes = { λ _ _ _. Unit {0} };

    ghost moment = { λ d. length (past_states d.past) };

    ghost left_since = { λ d. LeftSince (past_states d.past) (state_of d.contents) };

    fn pages(&self) -> u64 {
        self.contents.durable.len() as u64
    }

    fn failures(&self) -> u64 {
        0
    }

    /// Asks for no memory, and is never refused.
    fn read(&mut self, number: u64, buffer: &mut [u8; 4096]) -> Result<(), DiskFault>
        requires { number < length (memory_state self.old).durable }
        ensures always { IsOk result }
        ensures bytes { buffer.new ≡ page (seen (memory_state self.old)) number }
        ensures unchanged { self.new ≡ self.old }
    {
        *buffer = *newest(&self.contents.durable, &self.contents.volatile, number);
        Ok(())
    }

    fn write(&mut self, number: u64, bytes: &[u8; 4096]) -> Result<(), DiskFault> {
        self.past.note(&self.contents);
        self.contents.volatile.push((number, *bytes))?;
        Ok(())
    }

    /// Asks for no memory, and is never refused.
    fn flush(&mut self) -> Result<(), DiskFault>
        ensures always { IsOk result }
        ensures ok { memory_state self.new ≡ flushed (memory_state self.old) }
        ensures count { Counts result (memory_moment self.old) (memory_moment self.new) }
        ensures time { Elapses (memory_moment self.old) (memory_moment self.new) (memory_left_since self.old) (memory_left_since self.new) (memory_state self.new) }
        ensures pages { length (memory_state self.new).durable ≡ length (memory_state self.old).durable }
    {
        self.past.note(&self.contents);
        self.contents.make_durable();
        Ok(())
    }

    ghost sized = { λ d h. refl };

    ghost whole = { λ d h. record { durable = d.durable; volatile = d.volatile; durable_bytes = d.durable_bytes; volatile_bytes = d.volatile_bytes } };

    ghost counts_now = { λ d t c h le now. inl now };

    ghost only_now = { λ d c h left. only_held (past_states d.past) (state_of d.contents) c left };
}

impl CrashDisk for MemoryDisk {
    ghost can_crash = { λ _. Unit {0} };

    ghost volatile_count = { λ d. length d.contents.volatile.items };

    fn crashable(&self) -> bool {
        true
    }

    fn volatile(&self) -> usize {
        self.contents.volatile.len()
    }

    fn crash(mut self, mask: &[bool]) -> Self {
        self.contents.keep(mask);
        self
    }

    ghost counted = { λ d h can. refl };
}

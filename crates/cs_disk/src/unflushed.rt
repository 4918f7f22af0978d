// The page writes of a file that wait for the next flush.
ghost use Rattle.std.specs.Prelude.{◌≡◌, ◌++◌, ◌∷◌, [], OnErr, OnOk, Some, length, option_map};
ghost use Rattle.std.specs.BTreeMap.{IsEmpty, Updates, get};
ghost use Rattle.std.specs.Ordering.{nat_cmp};
ghost use Rattle.cs_disk.specs.Unflushed.{bytes_at};

use std::alloc::{AllocError, Global};
use std::collections::BTreeMap;
use std::fs::File;
use std::io;
use std::io::ErrorKind;
use std::os::unix::fs::FileExt;

/// The page writes since the last flush that succeeded, with the bytes in the order in which they came. So many as there are
/// between two flushes lie in memory, 4,096 bytes each, and for each place that was written some 30 more.
#[derive(Drop)]
pub struct Unflushed {
    pages: Vec<[u8; 4096]>,
    /// For each place in the file, in bytes, that was written, where in `pages` the last write to it stands.
    newest: BTreeMap<u64, usize>,
}

impl Unflushed {
    /// No writes.
    pub fn new(alloc: Global) -> Self
        ensures pages { result.pages.items ≡ [] }
        ensures newest { IsEmpty result.newest }
    {
        Unflushed {
            pages: Vec::new(alloc),
            newest: BTreeMap::new(alloc),
        }
    }

    /// Keeps a write. Where memory for it is refused nothing has changed.
    pub fn keep(&mut self, offset: u64, bytes: &[u8; 4096]) -> Result<(), AllocError>
        ensures pages { OnOk result (self.new.pages.items ≡ self.old.pages.items ++ bytes.now ∷ []) }
        ensures newest { OnOk result (Updates nat_cmp self.old.newest self.new.newest offset (Some (length self.old.pages.items))) }
        ensures same_pages { OnErr result (self.new.pages.items ≡ self.old.pages.items) }
        ensures same_newest { OnErr result (self.new.newest.entries ≡ self.old.newest.entries) }
    {
        self.pages.reserve(1)?;
        self.newest.insert(offset, self.pages.len())?;
        self.pages.push_reserved(*bytes);
        Ok(())
    }

    /// The bytes of the last write to a place of the file.
    pub fn newest(&self, offset: u64) -> Option<&[u8; 4096]>
        ensures { option_map (λ bytes. bytes.now) result ≡ bytes_at self.now.pages.items (get nat_cmp self.now.newest offset) }
    {
        self.pages.get(*self.newest.get(&offset)?)
    }

    /// Writes the last of them to each place to the file, in the order of the places: those that are side by side and came one after
    /// another go out in one call. They are kept all the same.
    pub fn write_to(&self, file: &File) -> io::Result<()> {
        // The first group has no page, and writing it writes nothing.
        let mut group = Group {
            offset: 0,
            next: 0,
            start: 0,
            end: 0,
        };
        for (offset, place) in &self.newest {
            if *offset == group.next && *place == group.end {
                group.next = offset.saturating_add(4096);
                group.end = place.saturating_add(1);
            } else {
                write_group(file, &self.pages, &group)?;
                group = Group {
                    offset: *offset,
                    next: offset.saturating_add(4096),
                    start: *place,
                    end: place.saturating_add(1),
                };
            }
        }
        write_group(file, &self.pages, &group)
    }

    /// Forgets them.
    pub fn clear(&mut self)
        ensures pages { self.new.pages.items ≡ [] }
        ensures newest { IsEmpty self.new.newest }
    {
        self.pages.clear();
        self.newest.clear();
    }
}

/// Writes that are side by side in the file, from one offset up to the next, and in memory.
#[derive(Clone, Copy)]
struct Group {
    offset: u64,
    next: u64,
    start: usize,
    end: usize,
}

/// Writes a group's pages to the file, in one call where the operating system takes them all.
fn write_group(file: &File, pages: &[[u8; 4096]], group: &Group) -> io::Result<()> {
    match pages.get(group.start..group.end) {
        Some(pages) => file.write_all_at(pages.as_flattened(), group.offset),
        // Each place has its page.
        None => Err(io::Error::from(ErrorKind::InvalidInput)),
    }
}

//! Devices in memory, of 5 extents of 3 pages, on which frames lie.

use cs_disk::{MemoryDisk, PageDisk};
use cs_frame::{ChunkHead, Geometry, StoreId, encode_chunk};
use cs_salvage::{
    Finds, Part, Put, Skipping, Sought, Unwatched, WholeShard, Whose, ambiguous, find_parts,
    missing_puts, newest_whole, read_whole,
};
use std::process::Abort;

/// The device, with no frame on it.
#[derive(Drop)]
pub struct Device {
    pub disk: MemoryDisk,
    pub geometry: Geometry,
}

/// The geometry of a store of format 4 with this identity.
pub fn geometry_of(rt: &impl Abort, store: StoreId) -> Geometry {
    Geometry::for_file(store, 5, 3, None).expect(rt, "a geometry")
}

/// A device of zeros.
pub fn new_device(rt: &(impl Abort + AllocGlobal), geometry: Geometry) -> Device {
    sized_device(rt, geometry, geometry.device_pages())
}

/// A device of zeros of so many pages, whatever the geometry asks for.
pub fn sized_device(rt: &(impl Abort + AllocGlobal), geometry: Geometry, pages: u64) -> Device {
    let disk = MemoryDisk::new(rt.alloc(), pages).expect(rt, "memory");
    Device { disk, geometry }
}

/// The number of a page of an extent.
fn number_of(rt: &impl Abort, device: &Device, (extent, page): (u16, u16)) -> u64 {
    let extents = device.geometry.extents();
    assert!(rt; extent < extents);
    let length = device.geometry.pages();
    assert!(rt; page < length);
    device.geometry.device_page(extent, page)
}

/// Writes a chunk's frame that begins on a page of an extent.
pub fn put(
    rt: &(impl Abort + AllocGlobal),
    device: &mut Device,
    place: (u16, u16),
    head: ChunkHead,
    piece: &[u8],
) {
    assert!(rt; piece.len() < 20_000);
    let pages = encode_chunk(rt.alloc(), device.geometry.format(), head, piece).expect(
        rt, "memory",
    );
    let mut number = number_of(rt, device, place);
    for page in &pages {
        write(rt, device, number, page);
        number = number.wrapping_add(1);
    }
}

/// Writes a page.
pub fn write(rt: &impl Abort, device: &mut Device, number: u64, page: &[u8; 4096]) {
    let pages = device.disk.pages();
    assert!(rt; number < pages);
    device.disk.write(number, page).expect(rt, "memory");
}

/// Turns a bit in a page of an extent.
pub fn damage(rt: &impl Abort, device: &mut Device, place: (u16, u16), byte: usize) {
    let number = number_of(rt, device, place);
    let pages = device.disk.pages();
    assert!(rt; number < pages);
    let mut page = [0; 4096];
    device.disk.read(number, &mut page).expect(rt, "memory");
    assert!(rt; byte < 4096);
    page[byte] ^= 1;
    write(rt, device, number, &page);
}

/// All parts on the device of its store.
pub fn parts(rt: &(impl Abort + AllocGlobal), device: &mut Device) -> Vec<Part> {
    parts_of(rt, device, Whose::OfStore)
}

/// All parts on the device of its store, or of any.
pub fn parts_of(rt: &(impl Abort + AllocGlobal), device: &mut Device, whose: Whose) -> Vec<Part> {
    let sought = Sought {
        geometry: device.geometry,
        whose,
    };
    find_parts(rt.alloc(), &mut device.disk, &sought, 0, &Unwatched)
        .expect(rt, "memory")
        .parts
}

/// What is found on a device of which these pages can't be read, from a page on. Each of those that is looked at fails.
pub fn found_without(
    rt: &(impl Abort + AllocGlobal),
    device: Device,
    unreadable: &[u64],
    from_page: u64,
) -> Finds {
    let sought = Sought {
        geometry: device.geometry,
        whose: Whose::OfStore,
    };
    let pages = Vec::from_slice(rt.alloc(), unreadable).expect(rt, "memory");
    let mut disk = Skipping::new(device.disk, pages);
    let finds = find_parts(rt.alloc(), &mut disk, &sought, from_page, &Unwatched).expect(
        rt, "memory",
    );
    assert!(rt; disk.failures() == finds.unreadable.len() as u64);
    finds
}

/// The bytes of a shard, where its parts are as they were found.
pub fn bytes(
    rt: &(impl Abort + AllocGlobal),
    device: &mut Device,
    shard: &WholeShard,
) -> Option<Vec<u8>> {
    let sought = Sought {
        geometry: device.geometry,
        whose: Whose::OfStore,
    };
    read_whole(rt.alloc(), &mut device.disk, &sought, shard).expect(rt, "memory")
}

/// A put in words.
fn words(rt: &(impl Abort + AllocGlobal), put: &Put) -> String {
    let last = put.id.0[15];
    let command = put.command;
    format!(in rt.alloc(); "{last} by {command}").expect(rt, "memory")
}

/// What is salvaged, in words.
pub fn salvaged(rt: &(impl Abort + AllocGlobal), device: &mut Device) -> String {
    let alloc = rt.alloc();
    let parts = parts(rt, device);
    let mut text = String::new(alloc);
    for shard in &newest_whole(alloc, &parts).expect(rt, "memory") {
        let put = words(rt, &shard.put);
        text.push_str(&put).expect(rt, "memory");
        for part in &shard.parts {
            let place = format!(in alloc; " {}:{}", part.extent, part.page).expect(rt, "memory");
            text.push_str(&place).expect(rt, "memory");
        }
        match bytes(rt, device, shard) {
            Some(bytes) => {
                let first = bytes.first().copied().unwrap_or(0);
                let last = bytes.last().copied().unwrap_or(0);
                let read = format!(in alloc; " {} bytes {first}..{last}; ", bytes.len()).expect(
                    rt, "memory",
                );
                text.push_str(&read).expect(rt, "memory");
            }
            None => text.push_str(" gone; ").expect(rt, "memory"),
        }
    }
    for put in &ambiguous(alloc, &parts).expect(rt, "memory") {
        text.push_str("ambiguous ").expect(rt, "memory");
        let put = words(rt, put);
        text.push_str(&put).expect(rt, "memory");
        text.push_str("; ").expect(rt, "memory");
    }
    text
}

/// The newest puts that aren't whole, in words.
pub fn missing(rt: &(impl Abort + AllocGlobal), device: &mut Device) -> String {
    let alloc = rt.alloc();
    let parts = parts(rt, device);
    let mut text = String::new(alloc);
    for it in &missing_puts(alloc, &parts).expect(rt, "memory") {
        let put = words(rt, &it.put);
        text.push_str(&put).expect(rt, "memory");
        let end = if it.ambiguous { " ambiguous; " } else { "; " };
        text.push_str(end).expect(rt, "memory");
    }
    text
}

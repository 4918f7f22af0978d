//! What is salvaged of a device.
use crate::devices::{
    Device, bytes, damage, found_without, geometry_of, missing, new_device, parts, parts_of, put,
    salvaged, sized_device,
};
use crate::stores::{STORE, id};
use cs_frame::{ChunkHead, Geometry, StoreId};
use cs_salvage::{Whose, newest_whole, what_stands_is_whole, whole_shards_are_what_was_put};
use std::process::Abort;

/// The head of a chunk of the shard with this last byte.
fn head(last: u8, number: u8, count: u8, command: u64) -> ChunkHead {
    ChunkHead {
        id: id(last),
        number,
        count,
        command,
    }
}

/// Asserts what is salvaged.
fn gives(rt: &(impl Abort + AllocGlobal), device: &mut Device, wanted: &str) {
    let text = salvaged(rt, device);
    assert!(rt; text.as_str() == wanted);
}

/// A device with two shards: 1 has three chunks, of which the first has two pages, and lies scattered; 2 was put twice,
/// the older put has two chunks.
fn two_shards(rt: &(impl Abort + AllocGlobal)) -> Device {
    let mut device = new_device(rt, geometry_of(rt, STORE));
    put(rt, &mut device, (3, 0), head(1, 0, 3, 7), &[5; 5000]);
    put(rt, &mut device, (0, 2), head(1, 1, 3, 7), &[6, 6]);
    put(rt, &mut device, (0, 0), head(1, 2, 3, 7), &[9]);
    put(rt, &mut device, (1, 0), head(2, 0, 2, 4), &[1]);
    put(rt, &mut device, (1, 1), head(2, 1, 2, 4), &[2]);
    put(rt, &mut device, (1, 2), head(2, 0, 1, 6), &[3, 4]);
    device
}

#[test]
fn the_newest_of_each_identifier_is_salvaged(rt: HostRuntime) {
    let mut device = two_shards(&rt);
    gives(
        &rt,
        &mut device,
        "1 by 7 3:0 0:2 0:0 5003 bytes 5..9; 2 by 6 1:2 2 bytes 3..4; ",
    );
}

#[test]
fn where_a_part_is_damaged_an_older_put_is_salvaged(rt: HostRuntime) {
    let mut device = two_shards(&rt);
    // A bit of the payload's second page, of the header, and of the padding.
    damage(&rt, &mut device, (3, 1), 7);
    damage(&rt, &mut device, (1, 2), 3);
    gives(&rt, &mut device, "2 by 4 1:0 1:1 2 bytes 1..2; ");
    damage(&rt, &mut device, (1, 1), 4095);
    gives(&rt, &mut device, "");
}

#[test]
fn a_copy_is_the_same_part(rt: HostRuntime) {
    let mut device = two_shards(&rt);
    put(&rt, &mut device, (4, 1), head(1, 1, 3, 7), &[6, 6]);
    damage(&rt, &mut device, (0, 2), 40);
    gives(
        &rt,
        &mut device,
        "1 by 7 3:0 4:1 0:0 5003 bytes 5..9; 2 by 6 1:2 2 bytes 3..4; ",
    );
}

#[test]
fn two_payloads_of_one_head_are_ambiguous(rt: HostRuntime) {
    let mut device = two_shards(&rt);
    put(&rt, &mut device, (4, 1), head(2, 0, 1, 6), &[3, 5]);
    // The number of chunks differs.
    put(&rt, &mut device, (4, 2), head(1, 0, 1, 7), &[5]);
    gives(
        &rt,
        &mut device,
        "2 by 4 1:0 1:1 2 bytes 1..2; ambiguous 1 by 7; ambiguous 2 by 6; ",
    );
}

#[test]
fn a_newest_put_that_is_not_whole_is_missing(rt: HostRuntime) {
    let mut device = two_shards(&rt);
    assert!(rt; missing(&rt, &mut device).as_str() == "");
    // An older put of 2 is whole, and of 2 by 6 there are two payloads.
    damage(&rt, &mut device, (3, 1), 7);
    put(&rt, &mut device, (4, 1), head(2, 0, 1, 6), &[3, 5]);
    assert!(rt; missing(&rt, &mut device).as_str() == "1 by 7; 2 by 6 ambiguous; ");
    // Of 2 by 6 there is nothing left.
    damage(&rt, &mut device, (4, 1), 60);
    damage(&rt, &mut device, (1, 2), 60);
    assert!(rt; missing(&rt, &mut device).as_str() == "1 by 7; ");
}

#[test]
fn heads_that_no_put_writes_are_no_parts(rt: HostRuntime) {
    let mut device = new_device(&rt, geometry_of(&rt, STORE));
    put(&rt, &mut device, (0, 0), head(1, 1, 1, 7), &[5]);
    put(&rt, &mut device, (0, 1), head(1, 0, 9, 7), &[5]);
    // It would end on the next extent.
    put(&rt, &mut device, (1, 2), head(2, 0, 1, 7), &[5; 5000]);
    assert!(rt; parts(&rt, &mut device).is_empty());
}

#[test]
fn an_older_format_has_no_parts(rt: HostRuntime) {
    let older = Geometry::new(5, 3).expect(&rt, "a geometry");
    let mut device = new_device(&rt, older);
    put(&rt, &mut device, (0, 0), head(1, 0, 1, 7), &[5; 100]);
    assert!(rt; parts(&rt, &mut device).is_empty());
}

/// What another store left on the device is a part only if those of any store are sought.
#[test]
fn parts_of_another_store_are_left_out(rt: HostRuntime) {
    let mut device = two_shards(&rt);
    device.geometry = geometry_of(&rt, StoreId([7; 16]));
    assert!(rt; parts(&rt, &mut device).is_empty());
    put(&rt, &mut device, (4, 1), head(2, 0, 1, 3), &[8]);
    gives(&rt, &mut device, "2 by 3 4:1 1 bytes 8..8; ");
    assert!(rt; parts_of(&rt, &mut device, Whose::OfAny).len() == 7);
}

#[test]
fn a_part_that_is_written_over_is_gone(rt: HostRuntime) {
    let mut device = two_shards(&rt);
    let found = parts(&rt, &mut device);
    put(&rt, &mut device, (1, 2), head(2, 0, 1, 6), &[3, 5]);
    for shard in &newest_whole(rt.alloc(), &found).expect(&rt, "memory") {
        let is_there = bytes(&rt, &mut device, shard).is_some();
        assert!(rt; is_there == (shard.put.id == id(1)));
    }
    whole_shards_are_what_was_put();
    what_stands_is_whole();
}

/// Asserts how many parts are found on a device with two shards of which these pages can't be read, from a page on, and
/// how many pages are named.
fn finds(
    rt: &(impl Abort + AllocGlobal),
    unreadable: &[u64],
    from_page: u64,
    parts: usize,
    named: usize,
) {
    let finds = found_without(rt, two_shards(rt), unreadable, from_page);
    assert!(rt; finds.parts.len() == parts);
    assert!(rt; finds.unreadable.len() == named);
    for page in &finds.unreadable {
        assert!(rt; unreadable.contains(page));
    }
}

#[test]
fn a_page_that_cannot_be_read_is_passed_over(rt: HostRuntime) {
    finds(&rt, &[], 0, 6, 0);
    // The second page of a part, and one on which none lies.
    finds(&rt, &[12], 0, 5, 1);
    finds(&rt, &[3, 16], 0, 6, 2);
    // Superblock and root, and what comes after the extents, aren't looked at.
    finds(&rt, &[0, 1, 17], 0, 6, 0);
    finds(
        &rt,
        &[2, 3, 4, 5, 6, 7, 8, 9, 10, 11, 12, 13, 14, 15, 16],
        0,
        0,
        15,
    );
}

#[test]
fn a_scan_goes_on_from_a_page(rt: HostRuntime) {
    finds(&rt, &[3, 6], 5, 3, 1);
    finds(&rt, &[], 6, 3, 0);
    finds(&rt, &[], 12, 0, 0);
    finds(&rt, &[], 100, 0, 0);
}

/// A device of so many pages has two parts, one on the first page and one on page 8, as far as it goes.
fn has_parts(rt: &(impl Abort + AllocGlobal), pages: u64, parts: usize) {
    let mut device = sized_device(rt, geometry_of(rt, STORE), pages);
    put(rt, &mut device, (0, 0), head(1, 0, 1, 7), &[5]);
    if pages > 8 {
        put(rt, &mut device, (2, 0), head(2, 0, 1, 8), &[6]);
    }
    assert!(rt; found_without(rt, device, &[], 0).parts.len() == parts);
}

#[test]
fn a_device_of_another_length_is_scanned_as_far_as_it_goes(rt: HostRuntime) {
    has_parts(&rt, 3, 1);
    has_parts(&rt, 9, 2);
    has_parts(&rt, 100, 2);
}

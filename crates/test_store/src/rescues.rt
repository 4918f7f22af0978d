//! Stores in memory of which a run is damaged, or whose root is an older one.
use crate::damage::{page, set_page, why_not_opened};
use crate::machines::{answer, new_core_of, one_byte, opened, writes_back};
use crate::stores::{STORE, id};
use cs_core::{Core, Event};
use cs_disk::MemoryDisk;
use cs_frame::{FormatNumber, Geometry, Locator, decode_root};
use cs_refusal::Refusal;
use cs_salvage::{
    Naming, Rescue, RescueRefusal, Sought, Unwatched, WholeShard, Whose, count_of, find_parts,
    lacking, newest_whole,
};
use std::process::Abort;

/// The geometry of a store of 8 extents of 4 pages.
fn geometry(rt: &impl Abort) -> Geometry {
    Geometry::for_file(STORE, 8, 4, Some(2)).expect(rt, "a geometry")
}

/// A new store of this geometry.
fn new_core(rt: &(impl Abort + AllocGlobal)) -> Core<MemoryDisk> {
    new_core_of(rt, geometry(rt), 1000)
}

/// Puts one byte under each of these identifiers, the same for all.
fn put(rt: &(impl Abort + AllocGlobal), core: &mut Core<MemoryDisk>, ids: &[u8], byte: u8) {
    for last in ids {
        answer(rt, core, &Event::Put(id(*last), one_byte(rt, byte)));
    }
}

/// Makes all that was put and deleted persistent.
fn sync(rt: &(impl Abort + AllocGlobal), core: &mut Core<MemoryDisk>) {
    answer(rt, core, &Event::Stage);
    writes_back(rt, core);
}

/// The runs of the root on a disk, oldest first.
fn runs(rt: &(impl Abort + AllocGlobal), disk: &mut MemoryDisk) -> Vec<Locator> {
    let bytes = page(rt, disk, 1);
    decode_root(rt.alloc(), &bytes, FormatNumber::Four)
        .expect(rt, "a root")
        .runs
}

/// Turns a bit of the frame at a place.
fn damage(rt: &impl Abort, disk: &mut MemoryDisk, place: Locator) {
    let number = 2 + u64::from(place.extent) * 4 + u64::from(place.page);
    let mut bytes = page(rt, disk, number);
    bytes[60] ^= 1;
    set_page(rt, disk, number, &bytes);
}

/// What can be got of a disk.
fn rescued(rt: &(impl Abort + AllocGlobal), disk: MemoryDisk) -> Rescue<MemoryDisk> {
    match Rescue::open(rt.alloc(), disk) {
        Ok(rescue) => rescue,
        Err((refusal, _)) => panic!(rt; "{}", refusal.name()),
    }
}

/// What is got of an identifier: its one byte, 0 where there is nothing, or the number of the refusal, 1,000 more.
fn got(rt: &(impl Abort + AllocGlobal), rescue: &mut Rescue<MemoryDisk>, last: u8) -> u16 {
    match rescue.get(rt.alloc(), id(last)) {
        Ok(Some(bytes)) => {
            assert!(rt; bytes.len() == 1);
            u16::from(bytes[0])
        }
        Ok(None) => 0,
        Err(refusal) => 1000 + u16::from(refusal.number()),
    }
}

/// A store whose index is two runs: the older one names 1 to 4, the newer one 1 again, 5, and 2 as deleted.
fn two_runs(rt: &(impl Abort + AllocGlobal)) -> MemoryDisk {
    let mut core = new_core(rt);
    put(rt, &mut core, &[1, 2, 3, 4, 6, 7, 8, 9], 97);
    sync(rt, &mut core);
    put(rt, &mut core, &[1, 5], 98);
    answer(rt, &mut core, &Event::Delete(id(2)));
    sync(rt, &mut core);
    core.into_disk()
}

#[test]
fn what_each_run_has(rt: HostRuntime) {
    let mut disk = two_runs(&rt);
    let places = runs(&rt, &mut disk);
    assert!(rt; places.len() == 2);
    let mut rescue = rescued(&rt, disk);
    assert!(rt; rescue.damaged() == None);
    assert!(rt; !rescue.root_lost());
    assert!(rt; rescue.commands() == 11);
    for (last, wanted) in [(1, 98), (2, 0), (3, 97), (4, 97), (5, 98), (10, 0)] {
        assert_eq!(rt; got(&rt, &mut rescue, last), wanted, "{last}");
    }
    let mut disk = rescue.into_disk();

    damage(&rt, &mut disk, places[0]);
    let (refusal, disk) = why_not_opened(rt.alloc(), disk);
    assert!(rt; refusal == 21);
    let mut rescue = rescued(&rt, disk);
    let damaged = rescue.damaged().expect(&rt, "a damaged run");
    assert!(rt; damaged.place == places[0]);
    assert!(rt; damaged.refusal == Refusal::BadDigest);
    for (last, wanted) in [(1, 98), (2, 0), (3, 1028), (4, 1028), (5, 98), (10, 1028)] {
        assert_eq!(rt; got(&rt, &mut rescue, last), wanted, "{last}");
    }
    let mut disk = rescue.into_disk();

    damage(&rt, &mut disk, places[1]);
    let mut rescue = rescued(&rt, disk);
    let damaged = rescue.damaged().expect(&rt, "a damaged run");
    assert!(rt; damaged.place == places[1]);
    for last in [1, 2, 3, 4, 5, 10] {
        assert_eq!(rt; got(&rt, &mut rescue, last), 1028, "{last}");
    }
}

/// The shards that frames on a disk spell.
fn shards(rt: &(impl Abort + AllocGlobal), disk: &mut MemoryDisk) -> Vec<WholeShard> {
    let sought = Sought {
        geometry: geometry(rt),
        whose: Whose::OfStore,
    };
    let finds = find_parts(rt.alloc(), disk, &sought, 0, &Unwatched).expect(rt, "memory");
    newest_whole(rt.alloc(), &finds.parts).expect(rt, "memory")
}

/// Asserts of how many shards the runs that can be read have the parts, of how many a deletion, and of how many it
/// isn't known.
fn names(
    rt: &(impl Abort + AllocGlobal),
    rescue: &Rescue<MemoryDisk>,
    shards: &[WholeShard],
    counts: (usize, usize, usize),
) {
    let namings = rescue.namings(rt.alloc(), shards).expect(rt, "memory");
    assert!(rt; count_of(&namings, Naming::AsItIs) == counts.0);
    assert!(rt; count_of(&namings, Naming::Deleted) == counts.1);
    assert!(rt; count_of(&namings, Naming::Unknown) == counts.2);
    assert!(rt; namings.len() == shards.len());
}

#[test]
fn what_the_index_says_of_shards(rt: HostRuntime) {
    let mut disk = two_runs(&rt);
    let places = runs(&rt, &mut disk);
    let found = shards(&rt, &mut disk);
    let rescue = rescued(&rt, disk);
    names(&rt, &rescue, &found, (8, 1, 0));
    let mut disk = rescue.into_disk();

    assert!(rt; places.len() == 2);
    damage(&rt, &mut disk, places[0]);
    let rescue = rescued(&rt, disk);
    names(&rt, &rescue, &found, (2, 1, 6));
    assert!(rt; lacking(&[id(1), id(5), id(9)], &found) == 0);
    assert!(rt; lacking(&[id(0), id(5), id(10)], &found) == 2);
}

/// The root of before is put back, after more was made persistent.
#[test]
fn a_root_that_was_lost(rt: HostRuntime) {
    let mut core = new_core(&rt);
    put(&rt, &mut core, &[1, 2], 97);
    sync(&rt, &mut core);
    let mut disk = core.into_disk();
    let root = page(&rt, &mut disk, 1);
    let mut core = opened(&rt, disk, 1000);
    put(&rt, &mut core, &[1, 3], 98);
    sync(&rt, &mut core);
    put(&rt, &mut core, &[4], 98);
    sync(&rt, &mut core);
    let mut disk = core.into_disk();
    set_page(&rt, &mut disk, 1, &root);
    let (refusal, disk) = why_not_opened(rt.alloc(), disk);
    assert!(rt; refusal == 27);
    let mut rescue = rescued(&rt, disk);
    assert!(rt; rescue.root_lost());
    assert!(rt; rescue.damaged() == None);
    assert!(rt; rescue.commands() == 2);
    for (last, wanted) in [(1, 97), (2, 97), (3, 0), (4, 0)] {
        assert_eq!(rt; got(&rt, &mut rescue, last), wanted, "{last}");
    }
}

/// A refusal of its own, and those of all layers.
#[test]
fn names_and_numbers(rt: HostRuntime) {
    assert!(rt; RescueRefusal::RunLost.number() == 28);
    assert!(rt; RescueRefusal::RunLost.name() == "RunLost");
    assert!(rt; RescueRefusal::Refused(Refusal::Misplaced).number() == 26);
    assert!(rt; RescueRefusal::Refused(Refusal::Misplaced).name() == "Misplaced");
}

//! The geometries that new stores get, and the sizes that ask for them.
use cs_frame::{FormatNumber, Geometry, StoreId};
use cs_options::{Wish, geometry_for, largest_shard, size_of, sure_bytes};
use cs_store::{NO_IDENTITY, identified, new_identity};
use std::process::Abort;
use std::test::{Fail, *};

/// Sizes as they are written, and what they stand for.
const SIZES: &[(&str, Option<u64>)] = &[
    ("0", Some(0)),
    ("1000", Some(1_000)),
    ("1K", Some(1_024)),
    ("64M", Some(67_108_864)),
    ("10G", Some(10_737_418_240)),
    ("2T", Some(2_199_023_255_552)),
    ("18446744073709551615", Some(18_446_744_073_709_551_615)),
    ("18446744073709551616", None),
    ("16777216T", None),
    ("10g", None),
    ("1.5G", None),
    ("1KB", None),
    ("-1", None),
    ("+1", None),
    (" 1", None),
    ("K", None),
    ("", None),
];

#[test]
fn the_sizes_of_texts(rt: HostRuntime) -> Result<(), Fail> {
    for (text, wanted) in SIZES {
        assert_eq!(&rt; size_of(text), *wanted);
    }
    Ok(())
}

/// The identity of the stores.
const STORE: StoreId = StoreId([7; 16]);

/// What is wished: a size, that of the largest shard, and how many shards. And how many extents of how many pages a
/// store gets for that.
const WISHES: &[((u64, u64, u64), (u16, u16))] = &[
    ((67_108_864, 1_048_576, 1), (56, 292)),
    ((10_737_418_240, 1_048_576, 1), (2_562, 1_023)),
    ((1_099_511_627_776, 1_048_576, 1), (7_680, 34_952)),
    ((1_048_576, 4_096, 1), (126, 2)),
    // A million identifiers need 8,057 pages.
    ((10_737_418_240, 1_048_576, 1_000_000), (325, 8_057)),
    // So do shards that are small: as many as have room are to have identifiers.
    ((10_737_418_240, 4_096, 1), (252, 10_402)),
    ((10_737_418_240, 67_108_864, 1), (160, 16_383)),
    ((4_194_304, 1_048_576, 1), (10, 102)),
    ((2_719_744, 1_048_576, 1), (20, 33)),
    ((73_728, 1, 1), (7, 2)),
    ((57_344, 1, 1), (5, 2)),
];

/// The geometry of a store for this.
fn chosen(rt: &impl Abort, wish: (u64, u64, u64)) -> Result<(u16, u16), Fail> {
    let (size, shard_size, shards) = wish;
    let wish = Wish {
        size,
        shard_size,
        shards,
    };
    let geometry = geometry_for(wish, STORE).expect(rt, "a geometry");
    assert_eq!(rt; geometry.format().number(), FormatNumber::Four);
    assert_eq!(rt; geometry.format().store(), Some(STORE));
    Ok((geometry.extents(), geometry.pages()))
}

#[test]
fn the_geometries_of_wishes(rt: HostRuntime) -> Result<(), Fail> {
    for (wish, wanted) in WISHES {
        assert_eq!(&rt; chosen(&rt, *wish)?, *wanted);
    }
    Ok(())
}

/// The least sizes of a size of shards and a number of them.
const LEAST: &[((u64, u64), Option<u64>)] = &[
    ((1_048_576, 1), Some(2_719_744)),
    ((67_108_864, 1), Some(167_870_464)),
    ((1_048_576, 100_000), Some(16_523_264)),
    ((1, 1), Some(57_344)),
    ((4_294_967_296, 1), None),
];

#[test]
fn the_least_size_of_a_wish(rt: HostRuntime) -> Result<(), Fail> {
    for ((shard_size, shards), wanted) in LEAST {
        let wish = Wish {
            size: wanted.unwrap_or(1_099_511_627_776).saturating_sub(1),
            shard_size: *shard_size,
            shards: *shards,
        };
        let small = geometry_for(wish, STORE).expect_err(&rt, "too small");
        assert_eq!(&rt; small.least, *wanted);
    }
    Ok(())
}

/// How many bytes a store of so many extents of so many pages is sure to hold in shards of a size.
const ROOMS: &[((u64, u64, u64), Option<u64>)] = &[
    // 60 extents of 256 pages are for puts, and each has less than 33 pages left if one of eight chunks has no room:
    // 13,440 pages are sure, and a shard has 264.
    ((64, 256, 1_048_576), Some(52_428_800)),
    ((56, 292, 1_048_576), Some(53_477_376)),
    ((64, 256, 1), Some(15_360)),
    // The index names 246 of them.
    ((2_000, 2, 1), Some(246)),
    ((20, 33, 1_048_576), Some(0)),
    ((64, 256, 8_388_008), Some(0)),
    ((64, 256, 8_388_009), None),
];

#[test]
fn the_room_of_geometries(rt: HostRuntime) -> Result<(), Fail> {
    for ((extents, pages, shard_size), wanted) in ROOMS {
        let geometry = Geometry::for_file(STORE, *extents, *pages, None)?;
        assert_eq!(&rt; sure_bytes(geometry, *shard_size), *wanted);
    }
    Ok(())
}

/// The longest shards that stores of so many extents of so many pages take.
const LARGEST: &[((u64, u64), u64)] = &[
    ((64, 256), 8_388_008),
    ((11, 256), 8_388_008),
    ((10, 102), 1_253_151),
    ((5, 2), 8_117),
];

#[test]
fn the_largest_shards_of_geometries(rt: HostRuntime) -> Result<(), Fail> {
    for ((extents, pages), wanted) in LARGEST {
        let geometry = Geometry::for_file(STORE, *extents, *pages, None)?;
        assert_eq!(&rt; largest_shard(geometry), *wanted);
    }
    Ok(())
}

/// A store that is made in a file gets sixteen random bytes. A store of format 2 has no identity.
#[test]
fn the_identity_of_a_new_store(rt: HostRuntime) -> Result<(), Fail> {
    let id = new_identity(&rt).expect(&rt, "random bytes");
    assert!(&rt; id != NO_IDENTITY);
    let geometry = identified(Geometry::for_file(NO_IDENTITY, 6, 2, Some(2))?, id);
    assert_eq!(&rt; geometry.format().store(), Some(id));
    assert_eq!(&rt; geometry.sections(), 2);
    assert_eq!(&rt; geometry.device_pages(), 18);
    let older = identified(Geometry::new(6, 2)?, id);
    assert_eq!(&rt; older.format().store(), None);
    Ok(())
}

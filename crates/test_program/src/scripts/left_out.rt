//! A typed store of which an extent is left out: what lives there is moved, and nothing is written there any more.
use cs_disk::{MemoryDisk, PageDisk};
use cs_frame::{Geometry, ShardId, StoreId};
use cs_refusal::Refusal;
use cs_store::mount::Mounted;
use cs_store::{OpenOptions, Store};
use std::process::Abort;
use std::test::{Fail, *};

/// The shard that each of these stores has.
const ID: ShardId = ShardId([1; 16]);

/// A new store in memory with 6 extents of 2 pages and one shard. Its chunk lies on extent 0.
fn store_with_a_rope(rt: &(impl Abort + AllocGlobal)) -> Result<Store<Mounted<MemoryDisk>>, Fail> {
    let geometry = Geometry::for_file(StoreId([0; 16]), 6, 2, None)?;
    match OpenOptions::new(rt.alloc())
        .geometry(geometry)
        .create_in_memory()
    {
        Ok(mut store) => {
            assert!(rt; store.put(ID, b"a rope").is_ok());
            assert!(rt; store.sync().is_ok());
            Ok(store)
        }
        Err(error) => panic!(rt; "{}", error),
    }
}

/// Asserts that the shard is there still, and that extent 0 is left out for good.
fn has_moved<D: PageDisk>(rt: &impl Abort, store: &mut Store<D>) {
    assert!(rt; store.first_on(0).is_none());
    match store.extent(0) {
        Some(look) => {
            assert!(rt; look.pointer == 2);
            assert!(rt; look.generation == u32::MAX);
        }
        None => panic!(rt; "no extent 0"),
    }
    match store.get(ID) {
        Ok(Some(bytes)) => assert!(rt; &bytes[..] == b"a rope".as_slice()),
        _ => panic!(rt; "no rope"),
    }
}

/// The store with extent 0 left out.
fn without_0(rt: &impl Abort, store: Store<Mounted<MemoryDisk>>) -> Store<Mounted<MemoryDisk>> {
    match store.leave_out(0) {
        Ok(store) => store,
        Err((refusal, _)) => panic!(rt; "{}", refusal.name()),
    }
}

/// What lives there is read, and can be moved away.
#[test]
fn an_extent_is_left_out(rt: HostRuntime) -> Result<(), Fail> {
    let mut store = without_0(&rt, store_with_a_rope(&rt)?);
    assert!(&rt; store.first_on(0).is_some());
    assert!(&rt; store.sweep(0).is_ok());
    assert!(&rt; store.sync().is_ok());
    let mut store = without_0(&rt, store);
    has_moved(&rt, &mut store);
    Ok(())
}

/// There are 6 extents, from 0 to 5.
#[test]
fn an_extent_that_isnt_there_is_not_left_out(rt: HostRuntime) -> Result<(), Fail> {
    match store_with_a_rope(&rt)?.leave_out(6) {
        Ok(_) => panic!(&rt; "left out"),
        Err((refusal, _)) => assert!(&rt; refusal == Refusal::NotSweepable),
    }
    Ok(())
}

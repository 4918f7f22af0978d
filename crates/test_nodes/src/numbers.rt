//! What no contract says: that calls succeed where memory is ample, that numbers which follow one another take one
//! stretch, and worked examples of accounts.
use cs_node::{Account, Numbers, Stretch, account};
use std::alloc::{AllocError, Global};
use std::test::Fail;

/// The numbers of a list, added one after another.
fn added(alloc: Global, list: &[u64]) -> Result<Numbers, AllocError> {
    let mut numbers = Numbers::new(alloc);
    for number in list {
        numbers.add(*number)?;
    }
    Ok(numbers)
}

fn stretch(first: u64, last: u64) -> Stretch {
    Stretch { first, last }
}

#[test]
fn a_number_is_there_as_often_as_it_was_added(rt: HostRuntime) -> Result<(), Fail> {
    let numbers = added(rt.alloc(), &[2, 4, 3, 3])?;
    assert!(rt; numbers.stretches() == [stretch(2, 4), stretch(3, 3)].as_slice());
    assert!(rt; numbers.is_within(4));
    assert!(rt; !numbers.is_within(3));
    Ok(())
}

#[test]
fn numbers_in_any_order_become_one_stretch(rt: HostRuntime) -> Result<(), Fail> {
    let numbers = added(rt.alloc(), &[5, 1, 3, 2, 0, 4])?;
    assert!(rt; numbers.stretches() == [stretch(0, 5)].as_slice());
    Ok(())
}

#[test]
fn the_greatest_number_is_one_like_others(rt: HostRuntime) -> Result<(), Fail> {
    let numbers = added(rt.alloc(), &[u64::MAX, 0, u64::MAX - 1, u64::MAX])?;
    let all = [
        stretch(0, 0),
        stretch(u64::MAX - 1, u64::MAX),
        stretch(u64::MAX, u64::MAX),
    ];
    assert!(rt; numbers.stretches() == all.as_slice());
    assert!(rt; numbers.is_within(u64::MAX));
    assert!(rt; !numbers.is_within(u64::MAX - 1));
    Ok(())
}

#[test]
fn all_numbers_of_another_are_moved(rt: HostRuntime) -> Result<(), Fail> {
    let mut numbers = added(rt.alloc(), &[1, 3, 5])?;
    let mut others = added(rt.alloc(), &[4, 2, 7])?;
    numbers.add_all(&mut others)?;
    assert!(rt; numbers.stretches() == [stretch(1, 5), stretch(7, 7)].as_slice());
    assert!(rt; others.stretches() == [].as_slice());
    Ok(())
}

fn account_of(alloc: Global, most: u64, list: &[Stretch]) -> Result<Account, AllocError> {
    Ok(account(most, list.to_vec(alloc)?))
}

fn whole() -> Account {
    Account {
        is_whole: true,
        missing: 0,
    }
}

fn lacks(missing: u64) -> Account {
    Account {
        is_whole: false,
        missing,
    }
}

#[test]
fn a_gap_is_counted(rt: HostRuntime) -> Result<(), Fail> {
    let list = [stretch(5, 5), stretch(1, 3)];
    assert!(rt; account_of(rt.alloc(), 5, &list)? == lacks(1));
    assert!(rt; account_of(rt.alloc(), 3, &list)? == lacks(0));
    assert!(rt; account_of(rt.alloc(), 8, &list)? == lacks(4));
    Ok(())
}

#[test]
fn a_number_twice_is_not_whole(rt: HostRuntime) -> Result<(), Fail> {
    let twice = [stretch(3, 3), stretch(1, 2), stretch(3, 4)];
    assert!(rt; account_of(rt.alloc(), 4, &twice)? == lacks(0));
    let inside = [stretch(2, 2), stretch(1, 4)];
    assert!(rt; account_of(rt.alloc(), 4, &inside)? == lacks(0));
    assert!(rt; account_of(rt.alloc(), 6, &inside)? == lacks(2));
    Ok(())
}

#[test]
fn numbers_are_whole_from_1_on(rt: HostRuntime) -> Result<(), Fail> {
    assert!(rt; account_of(rt.alloc(), 0, &[])? == whole());
    assert!(rt; account_of(rt.alloc(), 2, &[])? == lacks(2));
    assert!(rt; account_of(rt.alloc(), 0, &[stretch(0, 0)])? == lacks(0));
    assert!(rt; account_of(rt.alloc(), 2, &[stretch(0, 2)])? == lacks(0));
    assert!(rt;
        account_of(
            rt.alloc(),
            2,
            &[stretch(2, 2), stretch(7, 6), stretch(1, 1)]
        )? == whole()
    );
    Ok(())
}

#[test]
fn accounts_go_to_the_greatest_number(rt: HostRuntime) -> Result<(), Fail> {
    let all = stretch(1, u64::MAX);
    assert!(rt; account_of(rt.alloc(), u64::MAX, &[all])? == whole());
    assert!(rt; account_of(rt.alloc(), u64::MAX - 1, &[all])? == lacks(0));
    assert!(rt; account_of(rt.alloc(), u64::MAX, &[all, all])? == lacks(0));
    assert!(rt; account_of(rt.alloc(), u64::MAX, &[])? == lacks(u64::MAX));
    assert!(rt;
        account_of(rt.alloc(), u64::MAX, &[stretch(u64::MAX, u64::MAX)])? == lacks(u64::MAX - 1)
    );
    Ok(())
}

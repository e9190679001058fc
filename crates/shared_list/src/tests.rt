use crate::SharedList;
use std::alloc::{AllocError, Global};
use std::marker::{Send, Sync};
use std::test::Fail;
use std::thread::join;

fn is_shared<T: Send + Sync>(_value: &T) -> bool {
    true
}

/// Every list of items that threads may share is one that threads may share.
fn is_shared_list<T: Clone + Send + Sync>(list: &SharedList<T>) -> bool {
    is_shared(list)
}

/// The item that belongs at a place.
fn item_at(place: usize) -> u64 {
    (place as u64).wrapping_mul(10)
}

/// Makes an item the last of a list, at a place that is not behind its end.
fn put(
    alloc: Global,
    list: &mut SharedList<u64>,
    place: usize,
    item: u64,
) -> Result<(), AllocError> {
    if place <= list.len() {
        list.put_last(alloc, place, item)
    } else {
        Err(AllocError)
    }
}

/// Lengthens a list to some length, each place with its item.
fn lengthen(alloc: Global, list: &mut SharedList<u64>, len: usize) -> Result<(), AllocError> {
    for place in list.len()..len {
        put(alloc, list, place, item_at(place))?;
    }
    Ok(())
}

/// How many of the first `len` places don't have their item, and how many of as many behind them have one.
fn wrong(list: &SharedList<u64>, len: usize) -> usize {
    let mut wrong = 0usize;
    for place in 0..len {
        if list.get(place).copied() != Some(item_at(place)) {
            wrong = wrong.wrapping_add(1);
        }
        if list.get(place.wrapping_add(len)).is_some() {
            wrong = wrong.wrapping_add(1);
        }
    }
    wrong
}

#[test]
fn a_list_is_read_by_place(rt: HostRuntime) -> Result<(), Fail> {
    let mut list = SharedList::<u64>::new();
    assert_eq!(rt; list.len(), 0);
    assert_eq!(rt; list.get(0).copied(), None);
    put(rt.alloc(), &mut list, 0, 7)?;
    assert_eq!(rt; list.len(), 1);
    assert_eq!(rt; list.get(0).copied(), Some(7));
    put(rt.alloc(), &mut list, 1, 8)?;
    assert_eq!(rt; list.get(0).copied(), Some(7));
    assert_eq!(rt; list.get(1).copied(), Some(8));
    assert_eq!(rt; list.get(2).copied(), None);
    put(rt.alloc(), &mut list, 0, 9)?;
    assert_eq!(rt; list.len(), 1);
    assert_eq!(rt; list.get(0).copied(), Some(9));
    assert_eq!(rt; list.get(1).copied(), None);
    Ok(())
}

/// 10,000 items fill two nodes and a part of a third.
#[test]
fn forks_stay_while_a_list_grows(rt: HostRuntime) -> Result<(), Fail> {
    let lengths = [0, 1, 63, 64, 65, 100, 4095, 4096, 4097, 8192, 9999];
    let mut list = SharedList::new();
    let mut forks = Vec::new(rt.alloc());
    for len in lengths {
        lengthen(rt.alloc(), &mut list, len)?;
        forks.push(list.fork(rt.alloc())?)?;
    }
    lengthen(rt.alloc(), &mut list, 10_000)?;
    assert_eq!(rt; list.len(), 10_000);
    assert_eq!(rt; wrong(&list, 10_000), 0);
    assert_eq!(rt; forks.len(), lengths.len());
    for (fork, len) in forks.iter().zip(lengths) {
        assert_eq!(rt; fork.len(), len);
        assert_eq!(rt; wrong(fork, len), 0);
    }
    Ok(())
}

/// At each of these places the list is cut, with its memory to itself and shared.
#[test]
fn put_last_cuts_a_list(rt: HostRuntime) -> Result<(), Fail> {
    let mut whole = SharedList::new();
    lengthen(rt.alloc(), &mut whole, 9000)?;
    for place in [
        8999, 8192, 8191, 5000, 4160, 4097, 4096, 4095, 65, 64, 63, 1, 0,
    ] {
        let mut list = whole.fork(rt.alloc())?;
        put(rt.alloc(), &mut list, place, 1)?;
        assert_eq!(rt; list.len(), place + 1);
        assert_eq!(rt; list.get(place).copied(), Some(1));
        assert_eq!(rt; wrong(&list, place), usize::from(place > 0));
        put(rt.alloc(), &mut list, place, item_at(place))?;
        lengthen(rt.alloc(), &mut list, 9000)?;
        assert_eq!(rt; wrong(&list, 9000), 0);
        put(rt.alloc(), &mut list, place, item_at(place))?;
        assert_eq!(rt; list.len(), place + 1);
        assert_eq!(rt; wrong(&list, place + 1), 0);
        assert_eq!(rt; wrong(&whole, 9000), 0);
    }
    Ok(())
}

/// A fork grows in another way than its source.
#[test]
fn two_forks_grow_apart(rt: HostRuntime) -> Result<(), Fail> {
    let mut source = SharedList::new();
    lengthen(rt.alloc(), &mut source, 100)?;
    let mut fork = source.fork(rt.alloc())?;
    put(rt.alloc(), &mut fork, 100, 5)?;
    put(rt.alloc(), &mut fork, 101, 6)?;
    put(rt.alloc(), &mut source, 90, 4)?;
    assert_eq!(rt; source.len(), 91);
    assert_eq!(rt; wrong(&source, 90), 1);
    assert_eq!(rt; source.get(90).copied(), Some(4));
    assert_eq!(rt; fork.len(), 102);
    assert_eq!(rt; wrong(&fork, 100), 2);
    assert_eq!(rt; fork.get(100).copied(), Some(5));
    assert_eq!(rt; fork.get(101).copied(), Some(6));
    Ok(())
}

/// One thread reads a list while the other lengthens a fork of it.
#[test]
fn threads_share_a_list(rt: HostRuntime) -> Result<(), Fail> {
    let mut list = SharedList::new();
    lengthen(rt.alloc(), &mut list, 300)?;
    assert!(rt; is_shared_list(&list));
    let mut fork = list.fork(rt.alloc())?;
    let alloc = rt.alloc();
    let (seen, grown) = join(
        &rt,
        || wrong(&list, 300),
        || lengthen(alloc, &mut fork, 400),
    );
    grown?;
    assert_eq!(rt; seen, 0);
    assert_eq!(rt; wrong(&list, 300), 0);
    assert_eq!(rt; wrong(&fork, 400), 0);
    Ok(())
}

/// Made for a run in which one allocation fails: whichever it is, the list stays as it was, and the call succeeds the
/// second time.
#[test]
fn want_of_memory_leaves_the_list(rt: HostRuntime) -> Result<(), Fail> {
    let mut list = SharedList::new();
    for place in 0..130usize {
        if put(rt.alloc(), &mut list, place, item_at(place)).is_err() {
            assert_eq!(rt; list.len(), place);
            assert_eq!(rt; wrong(&list, place), 0);
            put(rt.alloc(), &mut list, place, item_at(place))?;
        }
    }
    let mut fork = match list.fork(rt.alloc()) {
        Ok(fork) => fork,
        Err(AllocError) => list.fork(rt.alloc())?,
    };
    if put(rt.alloc(), &mut fork, 70, item_at(70)).is_err() {
        assert_eq!(rt; wrong(&fork, 130), 0);
        put(rt.alloc(), &mut fork, 70, item_at(70))?;
    }
    assert_eq!(rt; wrong(&list, 130), 0);
    assert_eq!(rt; fork.len(), 71);
    assert_eq!(rt; wrong(&fork, 71), 0);
    Ok(())
}

use crate::SharedMap;
use std::alloc::{AllocError, Global};
use std::marker::{Send, Sync};
use std::test::Fail;
use std::thread::join;

/// A key whose order is derived.
#[derive(Clone, Copy, Debug, PartialEq, Eq, PartialOrd, Ord)]
struct Square {
    column: u8,
    row: u8,
}

fn is_shared<T: Send + Sync>(_value: &T) -> bool {
    true
}

/// Every map of keys and values that threads may share is one that threads may share.
fn is_shared_map<K: Ord + Clone + Send + Sync, V: Clone + Send + Sync>(
    map: &SharedMap<K, V>,
) -> bool {
    is_shared(map)
}

/// The map with ten times each of some keys.
fn filled(alloc: Global, keys: &[u64]) -> Result<SharedMap<u64, u64>, AllocError> {
    let mut map = SharedMap::new();
    for key in keys {
        map = map.with(alloc, *key, key.wrapping_mul(10))?;
    }
    Ok(map)
}

/// The same map, made by changes in place.
fn inserted(alloc: Global, keys: &[u64]) -> Result<SharedMap<u64, u64>, AllocError> {
    let mut map = SharedMap::new();
    for key in keys {
        map.insert(alloc, *key, key.wrapping_mul(10))?;
    }
    Ok(map)
}

/// How many of the numbers from 0 up to `count` don't have ten times themselves, and how many have it twice as far.
fn wrong(map: &SharedMap<u64, u64>, count: u64) -> u64 {
    let mut wrong = 0u64;
    for key in 0..count {
        if map.get(&key).copied() != Some(key.wrapping_mul(10)) {
            wrong = wrong.wrapping_add(1);
        }
        if map.get(&key.wrapping_add(count)).is_some() {
            wrong = wrong.wrapping_add(1);
        }
    }
    wrong
}

#[test]
fn a_map_changes_at_one_key(rt: HostRuntime) -> Result<(), Fail> {
    let m0 = SharedMap::<u64, u64>::new();
    let m1 = m0.with(rt.alloc(), 3, 30)?;
    let m2 = m1.with(rt.alloc(), 3, 31)?;
    let m3 = m2.fork(rt.alloc())?;
    assert_eq!(rt; m0.get(&3).copied(), None);
    assert_eq!(rt; m1.get(&3).copied(), Some(30));
    assert_eq!(rt; m2.get(&3).copied(), Some(31));
    assert_eq!(rt; m3.get(&3).copied(), Some(31));
    assert_eq!(rt; m0.len(), 0);
    assert_eq!(rt; m1.len(), 1);
    assert_eq!(rt; m2.len(), 1);
    assert_eq!(rt; m3.len(), 1);
    Ok(())
}

/// 5,000 keys fill more than one node of 64 full leaves.
#[test]
fn many_keys_are_kept(rt: HostRuntime) -> Result<(), Fail> {
    let mut keys = Vec::new(rt.alloc());
    for i in 0..5000u64 {
        keys.push(i)?;
    }
    let rising = filled(rt.alloc(), &keys)?;
    keys.reverse();
    let falling = filled(rt.alloc(), &keys)?;
    keys.clear();
    for i in 0..5000u64 {
        keys.push(i.wrapping_mul(1789) % 5000)?;
    }
    let jumping = filled(rt.alloc(), &keys)?;
    for map in [&rising, &falling, &jumping] {
        assert_eq!(rt; map.len(), 5000);
        assert_eq!(rt; wrong(map, 5000), 0);
    }
    let changed = rising.with(rt.alloc(), 2500, 7)?;
    assert_eq!(rt; changed.get(&2500).copied(), Some(7));
    assert_eq!(rt; changed.len(), 5000);
    assert_eq!(rt; wrong(&changed, 5000), 1);
    assert_eq!(rt; wrong(&rising, 5000), 0);
    Ok(())
}

#[test]
fn insert_keeps_many_keys(rt: HostRuntime) -> Result<(), Fail> {
    let mut keys = Vec::new(rt.alloc());
    for i in 0..2000u64 {
        keys.push(i)?;
    }
    let mut rising = inserted(rt.alloc(), &keys)?;
    keys.reverse();
    let falling = inserted(rt.alloc(), &keys)?;
    keys.clear();
    for i in 0..2000u64 {
        keys.push(i.wrapping_mul(1789) % 2000)?;
    }
    let jumping = inserted(rt.alloc(), &keys)?;
    for map in [&rising, &falling, &jumping] {
        assert_eq!(rt; map.len(), 2000);
        assert_eq!(rt; wrong(map, 2000), 0);
    }
    rising.insert(rt.alloc(), 1000, 7)?;
    assert_eq!(rt; rising.get(&1000).copied(), Some(7));
    assert_eq!(rt; rising.len(), 2000);
    assert_eq!(rt; wrong(&rising, 2000), 1);
    Ok(())
}

/// Rising keys fill a leaf, and falling ones below them come into leaves that aren't the last.
#[test]
fn falling_keys_are_kept_below_rising_ones(rt: HostRuntime) -> Result<(), Fail> {
    let mut keys = Vec::new(rt.alloc());
    for i in 2000..2064u64 {
        keys.push(i)?;
    }
    for i in 0..2000u64 {
        keys.push(1999u64.wrapping_sub(i))?;
    }
    let made = filled(rt.alloc(), &keys)?;
    let changed = inserted(rt.alloc(), &keys)?;
    for map in [&made, &changed] {
        assert_eq!(rt; map.len(), 2064);
        assert_eq!(rt; wrong(map, 2064), 0);
    }
    Ok(())
}

/// The fork shares each leaf, the last, which has room, and the first, which is full.
#[test]
fn insert_leaves_a_fork_as_it_was(rt: HostRuntime) -> Result<(), Fail> {
    let mut keys = Vec::new(rt.alloc());
    for i in 0..300u64 {
        keys.push(i)?;
    }
    let mut map = inserted(rt.alloc(), &keys)?;
    let fork = map.fork(rt.alloc())?;
    map.insert(rt.alloc(), 299, 1)?;
    map.insert(rt.alloc(), 300, 3000)?;
    map.insert(rt.alloc(), 0, 1)?;
    map.insert(rt.alloc(), 0, 2)?;
    assert_eq!(rt; map.len(), 301);
    assert_eq!(rt; map.get(&299).copied(), Some(1));
    assert_eq!(rt; map.get(&300).copied(), Some(3000));
    assert_eq!(rt; map.get(&0).copied(), Some(2));
    assert_eq!(rt; wrong(&map, 301), 2);
    assert_eq!(rt; fork.len(), 300);
    assert_eq!(rt; wrong(&fork, 300), 0);
    Ok(())
}

#[test]
fn keys_may_be_of_any_ordered_type(rt: HostRuntime) -> Result<(), Fail> {
    let corner = Square { column: 1, row: 1 };
    let edge = Square { column: 1, row: 2 };
    let map = SharedMap::new()
        .with(rt.alloc(), edge, 'e')?
        .with(rt.alloc(), corner, 'c')?;
    assert_eq!(rt; map.get(&corner).copied(), Some('c'));
    assert_eq!(rt; map.get(&edge).copied(), Some('e'));
    assert_eq!(rt; map.get(&Square { column: 2, row: 1 }).copied(), None);
    assert_eq!(rt; map.len(), 2);
    Ok(())
}

/// One thread reads the old map while the other makes a new map from it.
#[test]
fn threads_share_a_map(rt: HostRuntime) -> Result<(), Fail> {
    let mut keys = Vec::new(rt.alloc());
    for i in 0..300u64 {
        keys.push(i)?;
    }
    let map = filled(rt.alloc(), &keys)?;
    assert!(rt; is_shared_map(&map));
    let alloc = rt.alloc();
    let (seen, changed) = join(&rt, || wrong(&map, 300), || map.with(alloc, 299, 1));
    let changed = changed?;
    assert_eq!(rt; seen, 0);
    assert_eq!(rt; wrong(&map, 300), 0);
    assert_eq!(rt; changed.get(&299).copied(), Some(1));
    assert_eq!(rt; wrong(&changed, 300), 1);
    Ok(())
}

/// Made for a run in which one allocation fails: whichever it is, the old map stays and the call succeeds the second
/// time.
#[test]
fn want_of_memory_leaves_the_old_map(rt: HostRuntime) -> Result<(), Fail> {
    let mut map = SharedMap::new();
    for key in 0..70u64 {
        map = match map.with(rt.alloc(), key, key.wrapping_mul(10)) {
            Ok(next) => next,
            Err(AllocError) => {
                assert_eq!(rt; map.len(), key);
                assert_eq!(rt; wrong(&map, key), 0);
                map.with(rt.alloc(), key, key.wrapping_mul(10))?
            }
        };
    }
    let fork = match map.fork(rt.alloc()) {
        Ok(fork) => fork,
        Err(AllocError) => map.fork(rt.alloc())?,
    };
    assert_eq!(rt; wrong(&map, 70), 0);
    assert_eq!(rt; wrong(&fork, 70), 0);
    assert_eq!(rt; fork.len(), 70);
    Ok(())
}

/// Made for a run in which one allocation fails: whichever it is, `insert` leaves the map as it was, and succeeds the
/// second time.
#[test]
fn want_of_memory_leaves_the_map_itself(rt: HostRuntime) -> Result<(), Fail> {
    let mut map = SharedMap::new();
    for key in 0..70u64 {
        if map.insert(rt.alloc(), key, key.wrapping_mul(10)).is_err() {
            assert_eq!(rt; map.len(), key);
            assert_eq!(rt; wrong(&map, key), 0);
            map.insert(rt.alloc(), key, key.wrapping_mul(10))?;
        }
    }
    assert_eq!(rt; map.len(), 70);
    assert_eq!(rt; wrong(&map, 70), 0);
    Ok(())
}

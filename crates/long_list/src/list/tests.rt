//! What a list keeps, and the room that it has for it.

use super::*;
use std::process::Abort;

/// One more at the end. False if there is no memory.
fn push(list: &mut LongList<u64>, last: u64) -> bool {
    if list.len() == u64::MAX || list.reserve(1).is_err() {
        return false;
    }
    list.push_reserved(last);
    true
}

/// A list of the numbers below `count`, if there is memory.
fn numbers(alloc: Global, count: u64) -> Option<LongList<u64>> {
    let mut list = LongList::new(alloc);
    for number in 0..count {
        if !push(&mut list, number) {
            return None;
        }
    }
    Some(list)
}

/// Forgets so many, and says whether each was the number of its place.
fn forgets(list: &mut LongList<u64>, count: u64) -> bool {
    for _ in 0..count {
        let next = list.forgotten();
        if list.forget() != Some(next) {
            return false;
        }
    }
    true
}

#[test]
fn others_keep_their_places(rt: HostRuntime) {
    let Some(mut list) = numbers(rt.alloc(), 3) else {
        return;
    };
    assert!(rt; forgets(&mut list, 2));
    assert!(rt; list.get(1).is_none());
    assert!(rt; list.get(2) == Some(&2));
    if list.forgotten() <= 2 && 2 < list.len() {
        list.put(2, 7);
    }
    assert_eq!(rt; list.len(), 3);
    assert_eq!(rt; list.forget(), Some(7));
    assert_eq!(rt; list.forget(), None);
    assert_eq!(rt; list.forgotten(), 3);
}

#[test]
fn room_is_given_back(rt: HostRuntime) {
    let Some(mut list) = numbers(rt.alloc(), 1_000) else {
        return;
    };
    assert!(rt; 1_000 <= list.kept.capacity());
    assert!(rt; forgets(&mut list, 990));
    assert!(rt; list.kept.capacity() <= LEAST_ROOM);
    assert!(rt; list.get(999) == Some(&999));
}

// No program calls `listed`. Here it is called with no set, with a few, and with as many as a list has room for.

use super::*;
use bits::{empty_sets, first_difference};

#[test]
fn lists_no_sets(rt: HostRuntime) {
    assert_eq!(rt; listed(&[]).len(), 0);
}

#[test]
fn lists_sets_as_they_stand(rt: HostRuntime) {
    let sets = [
        with(empty(), 5),
        empty(),
        with(with(empty(), SET_WIDTH - 1), 0),
    ];
    let list = listed(&sets);
    assert_eq!(rt; list.len(), 3);
    for (set, entry) in sets.iter().zip(list.as_slice()) {
        assert_eq!(rt; first_difference(*set, *entry), SET_WIDTH);
    }
}

#[test]
fn lists_as_many_sets_as_fit(rt: HostRuntime) {
    let mut sets = empty_sets();
    for (element, set) in sets.iter_mut().enumerate() {
        *set = with(empty(), element);
    }
    let list = listed(&sets);
    assert!(rt; list.is_full());
    for (element, set) in list.as_slice().iter().enumerate() {
        assert_eq!(rt; first_difference(*set, with(empty(), element)), SET_WIDTH);
    }
}

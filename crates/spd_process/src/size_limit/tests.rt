// What the system tells of limits and places, as texts.

use super::*;
use std::test::Fail;

const LIMITS: &str =
    "Limit                     Soft Limit           Hard Limit           Units     \n\
Max cpu time              unlimited            unlimited            seconds   \n\
Max file size             1024                 unlimited            bytes     \n\
Max data size             7                    unlimited            bytes     \n";

#[test]
fn limits_and_places_are_read(rt: HostRuntime) {
    let unlimited = "Max file size             unlimited            unlimited            bytes\n";
    assert_eq!(rt; most_in(LIMITS), Some(1024));
    assert_eq!(rt; most_in(unlimited), None);
    assert_eq!(rt; most_in(""), None);
    let states = [
        ("pos:\t123\nflags:\t0100001\nmnt_id:\t26\n", Some(123)),
        ("pos:\t123\nflags:\t0102001\nmnt_id:\t26\n", Some(77)),
        ("pos:\t0\nflags:\t02\n", Some(0)),
        ("pos:\t5\n", None),
        ("flags:\t01\n", None),
        ("", None),
    ];
    for (state, place) in states {
        assert_eq!(rt; place_in(state, 77), place, "{state}");
    }
}

#[test]
fn a_test_has_room_for_its_output(rt: HostRuntime) {
    assert!(rt; SizeLimit::of_output(&rt).has_room());
    assert!(rt; SizeLimit::of_errors(&rt).has_room());
}

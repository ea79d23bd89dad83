// Handles of a locked list on one thread.

ghost use Rattle.std.specs.Prelude.{◌≡◌, ◌≤◌, ◌+◌, length};

use spd_ready::{LockedList, Ready, Take};
use std::process::Abort;
use std::sync::Wait;

/// Pushes these vertices.
fn push_all<Q: Ready>(rt: &impl Wait, ready: &mut Q, vertices: &[u32])
    requires { Q.pushed ready.old + length vertices.now ≤ Q.room ready.old }
    ensures pushed { Q.pushed ready.new ≡ Q.pushed ready.old + length vertices.now }
    ensures room { Q.room ready.new ≡ Q.room ready.old }
{
    for vertex in vertices {
        ready.push(rt, *vertex);
    }
}

/// Takes once for each of these, and compares.
fn take_all<Q: Ready>(rt: &(impl Wait + Abort), ready: &mut Q, takes: &[Take])
    ensures pushed { Q.pushed ready.new ≡ Q.pushed ready.old }
    ensures room { Q.room ready.new ≡ Q.room ready.old }
{
    for take in takes {
        assert_eq!(rt; ready.take(rt), *take);
    }
}

#[test]
fn one_list_for_all_handles(rt: HostRuntime) {
    let list = LockedList::new(rt.alloc(), 4).expect(&rt, "memory");
    let mut first = list.handle();
    let mut second = list.handle();
    take_all(&rt, &mut first, &[Take::Empty]);
    push_all(&rt, &mut first, &[7, 8, 9]);
    take_all(&rt, &mut second, &[Take::Got(9)]);
    take_all(&rt, &mut first, &[Take::Got(8), Take::Got(7), Take::Empty]);
    take_all(&rt, &mut second, &[Take::Empty]);
}

#[test]
fn a_full_list_adds_nothing(rt: HostRuntime) {
    let list = LockedList::new(rt.alloc(), 2).expect(&rt, "memory");
    let mut first = list.handle();
    let mut second = list.handle();
    push_all(&rt, &mut first, &[1, 2]);
    push_all(&rt, &mut second, &[3]);
    take_all(&rt, &mut second, &[Take::Got(2), Take::Got(1), Take::Empty]);
    push_all(&rt, &mut second, &[4]);
    take_all(&rt, &mut first, &[Take::Got(4), Take::Empty]);
}

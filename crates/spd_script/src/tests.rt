// Regions of scripted bodies, at each bound of moves.

ghost use Rattle.std.specs.Prelude.{◌<◌};

use crate::{Script, steps_of};
use spd_region::{Region, run_within};
use spd_words::{Body, Event, FinishKind, Given, NO_FAULT};
use std::alloc::{AllocError, Global};
use std::test::Fail;

/// What a region of this kind has whose first vertex does the steps of this text.
fn run(alloc: Global, kind: FinishKind, text: &str, moves: u64) -> Result<Region, AllocError>
    requires { 0 < moves }
{
    let steps = steps_of(alloc, text.as_bytes())?;
    run_within(alloc, kind, Script::new(kind, steps), moves)
}

/// For each bound up to one more than its moves a region has the same gift and fault, and draws as
/// many moves as it may.
#[test]
fn a_region_has_the_same_at_each_bound(rt: HostRuntime) -> Result<(), Fail> {
    let alloc = rt.alloc();
    let (plain, sum) = (FinishKind::Plain, FinishKind::Sum);
    let (least, greatest) = (FinishKind::Least, FinishKind::Greatest);
    let table: [(FinishKind, &str, i64, u64, u32); 28] = [
        // Offers, by each kind.
        (plain, "35", 0, NO_FAULT, 1),
        (sum, "35", 8, NO_FAULT, 1),
        (least, "35", 3, NO_FAULT, 1),
        (greatest, "35", 5, NO_FAULT, 1),
        (plain, "", 0, NO_FAULT, 1),
        (sum, "", 0, NO_FAULT, 1),
        (least, "", 9223372036854775807, NO_FAULT, 1),
        (greatest, "", -9223372036854775808, NO_FAULT, 1),
        // Asyncs beside their rest.
        (sum, "1(2(3))4", 10, NO_FAULT, 3),
        (least, "7(5(9))8", 5, NO_FAULT, 3),
        (sum, "(1)(2)(3)(4)", 10, NO_FAULT, 5),
        // The least of several faults, wherever it comes.
        (sum, "(7!)(3!)5!", 0, 3, 3),
        (sum, "3!(7!)5!", 0, 3, 2),
        (sum, "5!(7!)3!2", 2, 3, 2),
        (sum, "(7!(3!6))9!1", 7, 3, 3),
        // The gift of a finish, by its kind.
        (sum, "(46)P1", 1, NO_FAULT, 2),
        (sum, "(46)S1", 11, NO_FAULT, 2),
        (sum, "(46)L1", 5, NO_FAULT, 2),
        (sum, "(46)G1", 7, NO_FAULT, 2),
        (greatest, "()L", 9223372036854775807, NO_FAULT, 2),
        // Asyncs and finishes inside a finish.
        (sum, "((1)2(3))S4", 10, NO_FAULT, 4),
        (sum, "((12)S2)G4", 7, NO_FAULT, 3),
        // A finish with a fault ends what waits for it, its asyncs behind it among it.
        (sum, "1(45!)S2(3)", 1, 5, 2),
        (sum, "((6!)P9)(4!)", 0, 4, 4),
        // One that is passed over.
        (sum, "(45!)S?2", 2, NO_FAULT, 2),
        (sum, "((5!)S1)S?2(3)", 5, NO_FAULT, 4),
        (sum, "(8!)P?(7!)P(6!)P", 0, 7, 3),
        (greatest, "((3)(8)(5!))G?(4)", 4, NO_FAULT, 6),
    ];
    for (kind, text, gift, fault, moves) in table {
        let moves = u64::from(moves);
        for bound in 1..moves + 2 {
            let want = Region {
                given: Given { gift, fault },
                moves: moves.min(bound),
            };
            assert_eq!(rt;
                run(alloc, kind, text, bound)?,
                want,
                "{text} within {bound}"
            );
        }
    }
    Ok(())
}

/// Want of memory in a vertex is told, whether it runs inside or not.
#[test]
fn want_of_memory_is_told(rt: HostRuntime) -> Result<(), Fail> {
    let alloc = rt.alloc();
    for text in ["~", "1(2)3~", "1(2~)3", "(4~)S1", "((4~)S)P"] {
        for bound in 1..4 {
            let told = run(alloc, FinishKind::Sum, text, bound).is_err();
            assert!(rt; told, "{text} within {bound}");
        }
    }
    Ok(())
}

/// Resumed with want of memory a body tells it, and with anything else it goes on.
#[test]
fn a_body_goes_on_with_what_it_is_resumed_with(rt: HostRuntime) -> Result<(), Fail> {
    let alloc = rt.alloc();
    for (fault, want) in [(0, "memory"), (NO_FAULT, "offer 7"), (3, "fault 3")] {
        let steps = steps_of(alloc, b"(1)S2")?;
        let mut body = Script::new(FinishKind::Sum, steps);
        let Event::Finish(..) = body.advance(alloc) else {
            panic!(rt; "no finish");
        };
        body.resume(7, fault);
        let told = match body.advance(alloc) {
            Event::NoMemory => "memory",
            Event::Offer(7) => "offer 7",
            Event::Fault(3) => "fault 3",
            _ => "another",
        };
        assert_eq!(rt; told, want);
    }
    Ok(())
}

// What regions give, and how many moves they draw, on so many workers and within each bound of moves.

use crate::gates::Noting;
use crate::running::{Case, run, run_body, run_boxed};
use crate::starving::Starving;
use spd_words::{FinishKind, NO_FAULT};
use spd_work::Open;
use std::test::Fail;

const WORKERS: [u32; 5] = [1, 2, 3, 8, 64];

/// Gift, fault and moves, worked out by hand, are the same on any number of workers, and within any bound of
/// moves, where the moves are as many as the bound has: behind it a body goes on inside the vertex that came
/// to it; and the same where each body lies behind a pointer. This refuses each body that no clause does: one
/// that answers want of memory in place of all else, and one that never comes to an end, as where a ready
/// vertex is never pushed.
#[test]
fn a_region_gives_the_same_on_any_number_of_workers(rt: HostRuntime) -> Result<(), Fail> {
    let (plain, sum) = (FinishKind::Plain, FinishKind::Sum);
    let (least, greatest) = (FinishKind::Least, FinishKind::Greatest);
    let table: [(FinishKind, &str, i64, u64, u32); 14] = [
        // Offers, by each kind, and none.
        (plain, "35", 0, NO_FAULT, 1),
        (sum, "35", 8, NO_FAULT, 1),
        (least, "35", 3, NO_FAULT, 1),
        (greatest, "35", 5, NO_FAULT, 1),
        (greatest, "", -9223372036854775808, NO_FAULT, 1),
        // Asyncs beside their rest, and inside one another.
        (sum, "1(2(3))4", 10, NO_FAULT, 3),
        (sum, "(1)(2)(3)(4)", 10, NO_FAULT, 5),
        // Finishes of other kinds, and one inside another.
        (sum, "(46)L1", 5, NO_FAULT, 2),
        (sum, "((12)S2)G4", 7, NO_FAULT, 3),
        (sum, "((1)2(3))S4", 10, NO_FAULT, 4),
        // The least of several faults, and one that is passed over.
        (sum, "(7!(3!6))9!1", 7, 3, 3),
        (sum, "1(45!)S2(3)", 1, 5, 2),
        (sum, "(45!)S?2", 2, NO_FAULT, 2),
        (greatest, "((3)(8)(5!))G?(4)", 4, NO_FAULT, 6),
    ];
    for (kind, text, gift, fault, moves) in table {
        for bound in 1..moves + 2 {
            for workers in WORKERS {
                let case = Case { kind, text };
                let end = run(&rt, rt.alloc(), case, bound, workers, &Open)?;
                let given = (end.gift, end.fault, end.closed.moves());
                let want = (gift, fault, moves.min(bound));
                assert_eq!(rt; given, want, "{text} within {bound}, on {workers}");
                let boxed = run_boxed(&rt, rt.alloc(), case, bound, workers, &Open)?;
                let given = (boxed.gift, boxed.fault, boxed.closed.moves());
                assert_eq!(rt; given, want, "{text} within {bound}, on {workers}, boxed");
            }
        }
    }
    Ok(())
}

/// Want of memory in a body is the answer of the region, wherever the body stands, also beside a fault.
/// This refuses a region that gives what it has so far, and one that never answers since a vertex without
/// memory never signals.
#[test]
fn want_of_memory_is_the_answer(rt: HostRuntime) {
    let kind = FinishKind::Sum;
    for text in ["~", "1(2)3~", "1(2~)3", "((1)2~)3", "(4~)S1", "(3!)(~)4"] {
        for bound in 1..5 {
            for workers in WORKERS {
                let case = Case { kind, text };
                let told = run(&rt, rt.alloc(), case, bound, workers, &Open).is_err();
                assert!(rt; told, "{text} within {bound}, on {workers}");
            }
        }
    }
}

/// The same where it comes in a finish, that is a vertex whose body waits for it, or inside where no
/// move is left. This refuses a worker that goes on behind a finish without memory, or stops there.
#[test]
fn want_of_memory_in_a_finish_is_the_answer(rt: HostRuntime) {
    for moves in 1..4u32 {
        for workers in WORKERS {
            let noting = Noting::new(rt.alloc(), 2 * moves).expect(&rt, "memory");
            let kind = FinishKind::Sum;
            let body = Starving::new();
            let told = run_body(&rt, rt.alloc(), kind, body, moves, workers, &noting).is_err();
            assert!(rt; told, "within {moves}, on {workers}");
            let starts = u64::from(2 * moves.min(2));
            assert_eq!(rt; noting.starts(), starts, "within {moves}, on {workers}");
        }
    }
}

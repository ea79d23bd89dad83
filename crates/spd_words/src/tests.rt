// Words and plans, row by row.

use super::*;
use std::test::Fail;

/// The most moves of a plan, and the most nodes that may be asked for.
const MOST: u32 = 262_144;

#[test]
fn words_hold_their_fields(rt: HostRuntime) -> Result<(), Fail> {
    let node = NodeWord::pack(1, 1);
    assert_eq!(rt; node, 4_294_967_297);
    assert_eq!(rt; (NodeWord::twice(node), NodeWord::version(node)), (1, 1));
    let pair = PairWord::pack(0, 2, 0, 0, 8);
    assert_eq!(rt; pair, 536_870_920);
    assert_eq!(rt;
        (
            PairWord::claims(pair),
            PairWord::total(pair),
            PairWord::kind(pair)
        ),
        (0, 2, 0)
    );
    assert_eq!(rt; (PairWord::first(pair), PairWord::second(pair)), (0, 8));
    let vertex = VertexWord::pack(2, 0, 1, 0, 8);
    assert_eq!(rt; vertex, 4_398_046_511_114);
    assert_eq!(rt;
        (VertexWord::state(vertex), VertexWord::side(vertex)),
        (2, 0)
    );
    assert_eq!(rt;
        (
            VertexWord::pair(vertex),
            VertexWord::finish(vertex),
            VertexWord::inc(vertex)
        ),
        (1, 0, 8)
    );
    Ok(())
}

#[test]
fn the_greatest_fields_leave_the_others_alone(rt: HostRuntime) -> Result<(), Fail> {
    let node = NodeWord::pack(u32::MAX, 0);
    assert_eq!(rt;
        (NodeWord::twice(node), NodeWord::version(node)),
        (u32::MAX, 0)
    );
    let node = NodeWord::pack(0, u32::MAX);
    assert_eq!(rt;
        (NodeWord::twice(node), NodeWord::version(node)),
        (0, u32::MAX)
    );
    let pair = PairWord::pack(3, 0, 3, 0, 1_048_575);
    assert_eq!(rt;
        (
            PairWord::claims(pair),
            PairWord::total(pair),
            PairWord::kind(pair)
        ),
        (3, 0, 3)
    );
    assert_eq!(rt;
        (PairWord::first(pair), PairWord::second(pair)),
        (0, 1_048_575)
    );
    let vertex = VertexWord::pack(3, 0, 262_143, 0, 1_048_575);
    assert_eq!(rt;
        (VertexWord::state(vertex), VertexWord::side(vertex)),
        (3, 0)
    );
    assert_eq!(rt;
        (VertexWord::pair(vertex), VertexWord::finish(vertex)),
        (262_143, 0)
    );
    assert_eq!(rt; VertexWord::inc(vertex), 1_048_575);
    Ok(())
}

#[test]
fn a_plan_keeps_its_bounds(rt: HostRuntime) -> Result<(), Fail> {
    let rows: [(Scheme, u32, u32, Result<u32, PlanFault>); 8] = [
        (Scheme::Grow, 0, 0, Err(PlanFault::Moves)),
        (Scheme::Grow, 1, MOST + 1, Err(PlanFault::Grown)),
        (Scheme::Grow, MOST + 1, MOST + 1, Err(PlanFault::Moves)),
        (Scheme::Flat, 1, MOST + 1, Ok(10)),
        (Scheme::Level, 1, MOST + 1, Ok(16)),
        (Scheme::Grow, 1, 2, Ok(16)),
        (Scheme::Grow, MOST, MOST, Ok(2_621_443)),
        (Scheme::Level, MOST, 0, Ok(3_407_875)),
    ];
    for (scheme, moves, grown, want) in rows {
        let words = Plan::new(scheme, moves, grown).map(|plan| plan.words());
        assert_eq!(rt;
            words,
            want,
            "{scheme:?} with {moves} moves and {grown} nodes"
        );
    }
    Ok(())
}

#[test]
fn each_word_of_a_table_has_a_place_of_its_own(rt: HostRuntime) -> Result<(), Fail> {
    let plan = Plan::new(Scheme::Grow, 2, 3)?;
    let mut place = 3;
    for node in 0..5 {
        assert_eq!(rt; plan.node_place(node), place, "node {node}");
        place += 1;
    }
    for node in 0..5 {
        assert_eq!(rt; plan.child_place(node), place, "children of {node}");
        place += 1;
    }
    for node in 2..5 {
        assert_eq!(rt; plan.parent_place(node), place, "parent of {node}");
        place += 1;
    }
    for pair in 0..2 {
        assert_eq!(rt; plan.pair_place(pair), place, "pair {pair}");
        place += 1;
    }
    for vertex in 0..4 {
        assert_eq!(rt; plan.vertex_place(vertex), place, "vertex {vertex}");
        place += 1;
    }
    for finish in 0..2 {
        assert_eq!(rt; plan.gift_place(finish), place, "gift of {finish}");
        place += 1;
    }
    for finish in 0..2 {
        assert_eq!(rt; plan.fault_place(finish), place, "code of {finish}");
        place += 1;
    }
    assert_eq!(rt; plan.words(), place);
    Ok(())
}

// Deep, wide and long finishes, which give the same by all ways.

use crate::jobs::code_of;
use crate::ways::{expect_unbounded, expect_within, faultless};
use std::alloc::{AllocError, Global};
use std::process::Abort;
use std::test::Fail;

/// A program of a finish with this text in it so many times.
fn repeated(alloc: Global, piece: &str, times: u32) -> Result<String, AllocError> {
    let mut text = String::from_str(alloc, "main { let s = finish sum {")?;
    for _ in 0..times {
        text.push_str(piece)?;
    }
    text.push_str(" } }")?;
    Ok(text)
}

/// A program of async and finish blocks that stand so deep in one another below a finish, each
/// with an offer of 1, all of which reach that finish.
fn nested(alloc: Global, depth: u32) -> Result<String, AllocError> {
    let mut text = String::from_str(alloc, "main { let s = finish sum {")?;
    for level in 0..depth {
        if level % 2 == 0 {
            text.push_str(" async { offer 1;")?;
        } else {
            text.push_str(format!(in alloc; " let n{level} = finish sum {{ offer 1;")?.as_str())?;
        }
    }
    for level in (0..depth).rev() {
        if level % 2 == 0 {
            text.push_str(" }")?;
        } else {
            text.push_str(format!(in alloc; " }} offer n{level};")?.as_str())?;
        }
    }
    text.push_str(" } }")?;
    Ok(text)
}

/// Asserts the gift and the moves of the finish with which a program begins.
fn expect_family(
    rt: &(impl Abort + AllocGlobal),
    text: &str,
    gift: i64,
    moves: u64,
    row: &str,
) -> Result<(), AllocError> {
    let code = code_of(rt, text.as_bytes());
    let has = faultless(gift, moves);
    expect_unbounded(rt, &code, has, row)?;
    for bound in [1, 2, (moves / 2).max(1), moves.max(1)] {
        assert!(rt; bound > 0);
        expect_within(rt, &code, has, bound, row)?;
    }
    Ok(())
}

#[test]
fn families_give_the_same(rt: HostRuntime) -> Result<(), Fail> {
    let alloc = rt.alloc();
    for (depth, gift, moves) in [(1, 1, 2), (2, 2, 3), (29, 29, 30), (30, 30, 31)] {
        let text = nested(alloc, depth)?;
        expect_family(&rt, text.as_str(), gift, moves, "a nest")?;
    }
    let text = repeated(alloc, " async { offer 1; }", 1000)?;
    expect_family(&rt, text.as_str(), 1000, 1001, "asyncs in one finish")?;
    let text = repeated(alloc, " finish { async { offer 9; } } offer 1;", 1000)?;
    expect_family(&rt, text.as_str(), 1000, 2001, "a chain of finishes")?;
    Ok(())
}

// Programs over columns that are made by hand: what they print, and how they end.

use crate::jobs::code_of;
use crate::ways::{expect_unbounded_over, faultless};
use spd_check::Code;
use spd_data::{Column, Data, Ints, Texts};
use spd_io::MemSink;
use spd_machine::ElideRegions;
use spd_spine::{End, RunError, run_main};
use std::alloc::{AllocError, Global};
use std::process::Abort;
use std::test::Fail;

/// What a column holds.
#[derive(Clone, Copy, Debug)]
enum Cells {
    Ints(&'static [i64]),
    Texts(&'static [&'static [u8]]),
}

/// A program with its columns, what it prints and how it ends.
struct ColumnRow {
    text: &'static [u8],
    columns: &'static [Cells],
    prints: &'static [u8],
    end: End,
}

/// The columns of these cells.
fn data_of(alloc: Global, columns: &[Cells]) -> Result<Data, AllocError> {
    let mut data = Data::new(alloc);
    for cells in columns {
        match cells {
            Cells::Ints(values) => data.push(Column::Ints(Ints::from_slice(alloc, values)?))?,
            Cells::Texts(entries) => {
                let mut texts = Texts::new(alloc);
                for entry in *entries {
                    texts.push(entry)?;
                }
                data.push(Column::Texts(texts))?;
            }
        }
    }
    Ok(data)
}

/// How main of a program over columns ends, by the elision of its finishes and calls.
fn end_of(alloc: Global, code: &Code, columns: &Data, out: &mut MemSink) -> Result<End, RunError> {
    run_main(alloc, code.tree(), columns, &mut ElideRegions, out)
}

/// Asserts what a program over columns prints, and how it ends.
fn expect_row(rt: &(impl Abort + AllocGlobal), row: &ColumnRow) -> Result<(), AllocError> {
    let code = code_of(rt, row.text);
    let columns = data_of(rt.alloc(), row.columns)?;
    let mut out = MemSink::new(rt.alloc(), 256)?;
    let told = String::from_utf8_lossy(rt.alloc(), row.text)?;
    let end = end_of(rt.alloc(), &code, &columns, &mut out);
    assert_eq!(rt; end, Ok(row.end), "{told}");
    assert_eq!(rt; out.bytes(), row.prints, "{told}");
    Ok(())
}

/// Columns of one int column.
const PRICES: &[Cells] = &[Cells::Ints(&[10, -4, 7])];

/// Columns of one text column.
const NAMES: &[Cells] = &[Cells::Texts(&[b"ab", b"", b"a\xFFb"])];

static INTS: [ColumnRow; 8] = [
    ColumnRow {
        text: b"column c: int from \"p.csv\" field \"price\";\nmain { print len(c), \" \", c[0], \" \", c[1], \" \", c[2]; }",
        columns: PRICES,
        prints: b"3 10 -4 7\n",
        end: End::Done,
    },
    // Both ends of 64 bits.
    ColumnRow {
        text: b"column c: int from \"p.csv\" field \"x\"; main { print c[0]; print c[1]; }",
        columns: &[Cells::Ints(&[i64::MIN, i64::MAX])],
        prints: b"-9223372036854775808\n9223372036854775807\n",
        end: End::Done,
    },
    // An index outside at the lines 3 and 2, whose code is the line times 8 and 2.
    ColumnRow {
        text: b"column c: int from \"p.csv\" field \"x\";\nmain { print c[2];\nprint \"a\", c[3]; }",
        columns: PRICES,
        prints: b"7\n",
        end: End::Fault(26),
    },
    ColumnRow {
        text: b"column c: int from \"p.csv\" field \"x\";\nmain { let x = c[-1]; print x; }",
        columns: PRICES,
        prints: b"",
        end: End::Fault(18),
    },
    ColumnRow {
        text: b"column c: int from \"p.csv\" field \"x\"; main { print len(c); let x = c[0]; }",
        columns: &[Cells::Ints(&[])],
        prints: b"0\n",
        end: End::Fault(10),
    },
    // The operand comes before the index.
    ColumnRow {
        text: b"column c: int from \"p.csv\" field \"x\"; main { let x = c[9 / 0]; }",
        columns: PRICES,
        prints: b"",
        end: End::Fault(9),
    },
    // A column is found by its name.
    ColumnRow {
        text: b"column c: int from \"p.csv\" field \"x\"; lines t from \"t\"; column d: int from \"p.csv\" field \"y\"; main { print d[0], c[0], len(t); }",
        columns: &[Cells::Ints(&[1]), Cells::Texts(&[]), Cells::Ints(&[2])],
        prints: b"210\n",
        end: End::Done,
    },
    // A fault in an async of a finish, at line 2.
    ColumnRow {
        text: b"column c: int from \"p.csv\" field \"x\";\nmain { finish { for i in 0..9 { async { offer c[i]; } } }\nprint 1; }",
        columns: PRICES,
        prints: b"",
        end: End::Fault(18),
    },
];

static TEXTS: [ColumnRow; 8] = [
    ColumnRow {
        text: b"column t: text from \"p.csv\" field \"n\"; main { print size(t, 0), size(t, 1), size(t, 2); print at(t, 0, 1), \" \", at(t, 2, 1); }",
        columns: NAMES,
        prints: b"203\n98 255\n",
        end: End::Done,
    },
    ColumnRow {
        text: b"lines t from \"n\"; main { print same(t, 0, \"ab\"), same(t, 0, \"a\"), same(t, 0, \"abc\"), same(t, 0, \"\"), same(t, 1, \"\"), same(t, 1, \"a\"); }",
        columns: NAMES,
        prints: b"100010\n",
        end: End::Done,
    },
    ColumnRow {
        text: b"lines t from \"n\"; main { print begins(t, 0, \"ab\"), begins(t, 0, \"a\"), begins(t, 0, \"abc\"), begins(t, 0, \"b\"), begins(t, 0, \"\"), begins(t, 1, \"\"), begins(t, 1, \"a\"); }",
        columns: NAMES,
        prints: b"1100110\n",
        end: End::Done,
    },
    // An entry that isn't there, at line 2; a byte that isn't there, at line 3.
    ColumnRow {
        text: b"lines t from \"n\";\nmain { print size(t, 3); }",
        columns: NAMES,
        prints: b"",
        end: End::Fault(18),
    },
    ColumnRow {
        text: b"lines t from \"n\";\nmain {\nprint at(t, 0, 2); }",
        columns: NAMES,
        prints: b"",
        end: End::Fault(26),
    },
    ColumnRow {
        text: b"lines t from \"n\"; main { print at(t, 0, -1); }",
        columns: NAMES,
        prints: b"",
        end: End::Fault(10),
    },
    // Both operands come before an index.
    ColumnRow {
        text: b"lines t from \"n\"; main { print at(t, 9, 1 / 0); }",
        columns: NAMES,
        prints: b"",
        end: End::Fault(9),
    },
    ColumnRow {
        text: b"lines t from \"n\"; main { print same(t, -1, \"\"), begins(t, 1 / 0, \"\"); }",
        columns: NAMES,
        prints: b"",
        end: End::Fault(10),
    },
];

/// The sum of a column by halves.
static HALVES: ColumnRow = ColumnRow {
    text: b"column price: int from \"p.csv\" field \"price\";
task add(lo, hi) {
  if hi - lo < 2 {
    if lo < hi { offer price[lo]; }
  } else {
    let mid = (lo + hi) / 2;
    async { run add(lo, mid); }
    run add(mid, hi);
  }
}
main {
  let s = finish sum { run add(0, len(price)); }
  print s;
}
",
    columns: PRICES,
    prints: b"13\n",
    end: End::Done,
};

/// The lines that begin with an `a`.
const BEGINNINGS: &[u8] =
    b"lines t from \"n.txt\"; main { let c = finish sum { for i in 0..len(t) { async { offer begins(t, i, \"a\"); } } } print c; }";

#[test]
fn entries_of_int_columns(rt: HostRuntime) -> Result<(), Fail> {
    for row in &INTS {
        expect_row(&rt, row)?;
    }
    Ok(())
}

#[test]
fn entries_of_text_columns(rt: HostRuntime) -> Result<(), Fail> {
    for row in &TEXTS {
        expect_row(&rt, row)?;
    }
    Ok(())
}

#[test]
fn finishes_over_columns_by_all_ways(rt: HostRuntime) -> Result<(), Fail> {
    expect_row(&rt, &HALVES)?;
    let columns = data_of(rt.alloc(), PRICES)?;
    expect_unbounded_over(
        &rt,
        &code_of(&rt, HALVES.text),
        &columns,
        faultless(13, 3),
        "halves",
    )?;
    let lines: &[Cells] = &[Cells::Texts(&[b"a x", b"b", b"a y"])];
    let columns = data_of(rt.alloc(), lines)?;
    expect_unbounded_over(
        &rt,
        &code_of(&rt, BEGINNINGS),
        &columns,
        faultless(2, 4),
        "lines",
    )?;
    Ok(())
}

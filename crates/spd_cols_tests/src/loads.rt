// Columns that programs declare, loaded from files in memory.

use spd_cols::{DataFault, DataKind, LoadFault, load};
use spd_data::{Column, Data};
use spd_io::MemShelf;
use spd_parse::parse;
use spd_syntax::{Program, lex};
use std::alloc::Global;
use std::process::Abort;
use std::test::Fail;

/// A text's program.
fn program_of(alloc: Global, text: &[u8]) -> Result<Program, Fail> {
    let tokens = lex(alloc, text)?;
    Ok(parse(alloc, text, tokens.as_slice())?)
}

/// Two files, two columns of the first and one of the second.
static TEXT: &[u8] = b"column a: int from \"p.csv\" field \"a\";\n\
    column b: text from \"p.csv\" field \"b\";\nlines c from \"n.txt\";\nmain { }";

/// The bytes of both files, where they are there, and the fault.
type Row = (Option<&'static [u8]>, Option<&'static [u8]>, LoadFault);

static REFUSED: [Row; 6] = [
    (None, Some(b"x\n"), LoadFault::Failed { column: 0 }),
    (Some(b"a,b\n1,x\n"), None, LoadFault::Failed { column: 2 }),
    // the first file is refused, and the second isn't read
    (
        Some(b"a,b\nx,x\n"),
        None,
        LoadFault::Refused {
            column: 0,
            fault: DataFault {
                row: 1,
                kind: DataKind::NotInt,
            },
        },
    ),
    (
        Some(b"a,c\n1,x\n"),
        None,
        LoadFault::Refused {
            column: 1,
            fault: DataFault {
                row: 0,
                kind: DataKind::NoField,
            },
        },
    ),
    (
        Some(b"b\n1\n"),
        Some(b""),
        LoadFault::Refused {
            column: 0,
            fault: DataFault {
                row: 0,
                kind: DataKind::NoField,
            },
        },
    ),
    (None, None, LoadFault::Failed { column: 0 }),
];

/// What the program loads over these files.
fn load_over(
    alloc: Global,
    first: Option<&[u8]>,
    second: Option<&[u8]>,
    failing: Option<u32>,
) -> Result<Result<Data, LoadFault>, Fail> {
    let mut shelf = MemShelf::new(alloc);
    if let Some(bytes) = first {
        shelf.add(alloc, "p.csv", bytes)?;
    }
    if let Some(bytes) = second {
        shelf.add(alloc, "n.txt", bytes)?;
    }
    if let Some(call) = failing {
        shelf.fail_at(call)?;
    }
    let program = program_of(alloc, TEXT)?;
    Ok(load(alloc, &program, &mut shelf))
}

fn expect_fault(
    rt: &(impl Abort + AllocGlobal),
    loaded: Result<Data, LoadFault>,
    fault: LoadFault,
) {
    match loaded {
        Ok(_) => panic!(rt; "columns in place of {fault:?}"),
        Err(found) => assert_eq!(rt; found, fault),
    }
}

fn expect_texts(rt: &impl Abort, column: &Column, expected: &[&[u8]]) {
    let Column::Texts(found) = column else {
        panic!(rt; "no texts");
    };
    assert_eq!(rt; found.len() as usize, expected.len());
    for place in 0..found.len() {
        assert_eq!(rt; found.get(place), expected[place as usize]);
    }
}

#[test]
fn columns_stand_in_the_order_of_their_declarations(rt: HostRuntime) -> Result<(), Fail> {
    let loaded = load_over(rt.alloc(), Some(b"b,a\nx,1\ny,2\n"), Some(b"p\r\nq"), None)?;
    let Ok(data) = loaded else {
        panic!(rt; "a fault");
    };
    assert_eq!(rt; data.len(), 3);
    let Column::Ints(a) = data.get(0) else {
        panic!(rt; "no ints");
    };
    assert_eq!(rt; a.as_slice(), [1, 2].as_slice());
    expect_texts(&rt, data.get(1), &[b"x", b"y"]);
    expect_texts(&rt, data.get(2), &[b"p", b"q"]);
    Ok(())
}

#[test]
fn the_first_file_that_fails_or_is_refused_is_told(rt: HostRuntime) -> Result<(), Fail> {
    for (first, second, fault) in &REFUSED {
        expect_fault(&rt, load_over(rt.alloc(), *first, *second, None)?, *fault);
    }
    Ok(())
}

#[test]
fn a_read_that_fails_is_told(rt: HostRuntime) -> Result<(), Fail> {
    let first = b"a,b\n1,x\n".as_slice();
    let loaded = load_over(rt.alloc(), Some(first), Some(b""), Some(2))?;
    expect_fault(&rt, loaded, LoadFault::Failed { column: 1 });
    let loaded = load_over(rt.alloc(), Some(first), Some(b""), Some(3))?;
    expect_fault(&rt, loaded, LoadFault::Failed { column: 2 });
    // the call behind the last
    assert!(rt; load_over(rt.alloc(), Some(first), Some(b""), Some(4))?.is_ok());
    Ok(())
}

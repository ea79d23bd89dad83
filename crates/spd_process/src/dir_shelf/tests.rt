// The shelf over real files.

use super::*;
use std::test::Fail;
use std::{env, process};

#[test]
fn a_folder_shelf_reads_files_up_to_the_limit(rt: HostRuntime) -> Result<(), Fail> {
    let alloc = rt.alloc();
    let name = format!(in alloc; "spd_{}.sp", process::id(rt.process()))?;
    let path = env::temp_dir(&rt)?.join(alloc, name.as_str())?;
    let path = path.as_str();
    fs::write(&rt, path, b"main { }\n")?;
    let mut shelf = DirShelf::new(alloc, &rt);
    let exact = shelf.read(alloc, path, 9);
    let unlimited = shelf.read(alloc, path, usize::MAX);
    let too_long = shelf.read(alloc, path, 8);
    fs::remove_file(&rt, path)?;
    let missing = shelf.read(alloc, path, 9);
    let folder = shelf.read(alloc, ".", 9);
    assert_eq!(rt; exact.as_deref(), Ok(b"main { }\n".as_slice()));
    assert_eq!(rt; unlimited.as_deref(), Ok(b"main { }\n".as_slice()));
    assert_eq!(rt; too_long, Err(ShelfFault::TooLong));
    assert_eq!(rt; missing, Err(ShelfFault::Failed));
    assert_eq!(rt; folder, Err(ShelfFault::Failed));
    Ok(())
}

#[test]
fn one_byte_more_than_the_limit_is_read_at_most(rt: HostRuntime) -> Result<(), Fail> {
    let mut reader = b"main { }\n".as_slice();
    let read = read_within(rt.alloc(), &mut reader, 5);
    assert_eq!(rt; read, Err(ShelfFault::TooLong));
    assert_eq!(rt; reader, b" }\n".as_slice());
    Ok(())
}

use super::*;
use rec_base::{MemDock, MemSource, Name, Piece};
use std::alloc::Global;
use std::test::Fail;

// A dock with two files of one name.
fn dock_of(alloc: Global, fail_say: u64) -> Result<MemDock, Fail> {
    let mut files = Vec::new(alloc);
    for text in [b"one".as_slice(), b"four".as_slice()] {
        let piece = Piece::Give(Blob::from_bytes(alloc, text)?);
        let name = Name::File(Word::from_bytes(alloc, b"a")?);
        files.push((name, MemSource::new(vec![in alloc; piece]?)))?;
    }
    let fail_says = vec![in alloc; fail_say]?;
    Ok(MemDock::new(
        alloc,
        files,
        64,
        Vec::new(alloc),
        Vec::new(alloc),
        fail_says,
    )?)
}

#[test]
fn inputs_of_one_name_are_read_in_order(rt: HostRuntime) -> Result<(), Fail> {
    let mut dock = dock_of(rt.alloc(), 0)?;
    let name = Word::from_bytes(rt.alloc(), b"a")?;
    let one = read_input(rt.alloc(), &mut dock, &name, 3);
    assert!(rt; one.is_ok_and(|text| text.bytes() == b"one".as_slice()));
    let two = read_input(rt.alloc(), &mut dock, &name, 3);
    assert!(rt; two.is_err_and(|fault| fault == InputFault::TooLong));
    let none = read_input(rt.alloc(), &mut dock, &name, 3);
    assert!(rt; none.is_err_and(|fault| fault == InputFault::Open));
    Ok(())
}

#[test]
fn lines_are_said(rt: HostRuntime) -> Result<(), Fail> {
    let mut dock = dock_of(rt.alloc(), 2)?;
    assert!(rt; say_line(&mut dock, "a line").is_ok());
    say_fault(&mut dock, "not said");
    say_fault(&mut dock, usage_line(3));
    assert_eq!(rt; dock.printed(), b"a line\nfault 2 usage 3\n".as_slice());
    Ok(())
}

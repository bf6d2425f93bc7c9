//! Each desk, with a file written in pieces.
use desk_io::{Desk, DeskError, MemoryDesk, RealDesk, SureDesk};
use std::process::Abort;
use std::test::Fail;

/// Writes a file in two pieces, over what it had, and reads its end back.
fn writes_and_reads<D: Desk>(rt: &impl Abort, desk: &mut D) -> Result<(), Fail> {
    desk.append("F", b"front 0\n")?;
    desk.start("F")?;
    desk.append("F", b"front 1\n")?;
    desk.append("F", b"complete\n")?;
    let len = desk.length("F")?;
    assert!(rt; len == 17);
    let mut end = [0u8; 9];
    desk.fill("F", 8, &mut end)?;
    assert!(rt; end == *b"complete\n");
    Ok(())
}

#[test]
fn a_desk_in_memory_fails_by_number(rt: HostRuntime) -> Result<(), Fail> {
    let alloc = rt.alloc();
    let name = String::from_str(alloc, "A")?;
    let bytes = Vec::from_slice(alloc, b"arch 1\n")?;
    let files = vec![in alloc; (name, bytes)]?;
    let failing = vec![in alloc; 7, 9]?;
    let mut desk = MemoryDesk::new(alloc, files, failing);
    writes_and_reads(&rt, &mut desk)?;
    assert_eq!(rt; desk.append("F", b"x"), Err(DeskError::Failed));
    desk.say(b"front ")?;
    assert_eq!(rt; desk.say(b"x"), Err(DeskError::Failed));
    desk.say(b"complete 1\n")?;
    assert_eq!(rt; desk.length("B"), Err(DeskError::Failed));
    assert_eq!(rt; desk.said(), b"front complete 1\n".as_slice());
    assert!(rt; desk.content("F") == Some(b"front 1\ncomplete\n".as_slice()));
    assert!(rt; desk.content("A") == Some(b"arch 1\n".as_slice()));
    assert!(rt; desk.content("B") == None);
    Ok(())
}

#[test]
fn a_sure_desk_never_fails(rt: HostRuntime) -> Result<(), Fail> {
    let alloc = rt.alloc();
    let mut desk = SureDesk::new(alloc, Vec::new(alloc));
    writes_and_reads(&rt, &mut desk)?;
    desk.say(b"front complete 1\n")?;
    assert_eq!(rt; desk.length("B"), Ok(0));
    assert_eq!(rt; desk.said(), b"front complete 1\n".as_slice());
    assert!(rt; desk.content("F") == Some(b"front 1\ncomplete\n".as_slice()));
    assert!(rt; desk.content("B") == None);
    Ok(())
}

#[test]
fn a_real_desk_keeps_files(rt: HostRuntime) -> Result<(), Fail> {
    let mut desk = RealDesk::new(&rt);
    writes_and_reads(&rt, &mut desk)?;
    desk.say(b"front complete 1\n")?;
    let mut past = [0u8; 2];
    assert_eq!(rt; desk.fill("F", 16, &mut past), Err(DeskError::Failed));
    assert_eq!(rt; desk.length("absent"), Err(DeskError::Failed));
    assert_eq!(rt; desk.length("."), Err(DeskError::Failed));
    assert_eq!(rt; desk.fill(".", 0, &mut []), Err(DeskError::Failed));
    Ok(())
}

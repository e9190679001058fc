use super::*;

/// The first bytes of the input of the next link.
fn accept_and_take<D: Doors>(doors: &mut D, into: &mut [u8]) -> Result<usize, Failed>
where
    D::In: Drop,
    D::Out: Drop,
{
    let (mut input, mut output) = doors.accept()?;
    output.flush()?;
    input.take(into)
}

/// A link whose caller sends the bytes.
fn link(rt: HostRuntime, bytes: &[u8]) -> Result<MemoryLink, Fail> {
    let input = Vec::from_slice(rt.alloc(), bytes)?;
    let never = Vec::new(rt.alloc());
    let source = MemorySource::new(input, Vec::new(rt.alloc()), never);
    let sink = MemorySink::new(rt.alloc(), 8, 8, Vec::new(rt.alloc()));
    Ok(MemoryLink::new(source, sink))
}

#[test]
fn doors_in_memory_give_their_links_in_order(rt: HostRuntime) -> Result<(), Fail> {
    let links = vec![in rt.alloc(); link(rt, b"a")?, link(rt, b"bc")?]?;
    let failing = vec![in rt.alloc(); 0, 3]?;
    let mut doors = MemoryDoors::new(rt.alloc(), links, failing);
    let mut into = [0; 4];
    assert_eq!(rt; doors.listen("here"), Err(Failed));
    assert_eq!(rt; doors.listen("here"), Ok(()));
    assert_eq!(rt; accept_and_take(&mut doors, &mut into), Ok(1));
    assert_eq!(rt; &into[..1], b"a".as_slice());
    // It fails where it is asked to, and the link is there still.
    assert_eq!(rt; accept_and_take(&mut doors, &mut into), Err(Failed));
    assert_eq!(rt; accept_and_take(&mut doors, &mut into), Ok(2));
    assert_eq!(rt; &into[..2], b"bc".as_slice());
    // No link is left.
    assert_eq!(rt; accept_and_take(&mut doors, &mut into), Err(Failed));
    Ok(())
}

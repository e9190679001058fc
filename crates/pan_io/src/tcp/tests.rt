//! Both ends of a link in one process.

use super::*;
use crate::put::put_all;
use std::io::{Read, Write};
use std::net::Shutdown;
use std::test::Fail;

#[test]
fn line_there_and_back(rt: HostRuntime) -> Result<(), Fail> {
    let mut doors = TcpDoors::new(rt.alloc(), &rt);
    // It does not listen yet, and this is no address.
    assert!(rt; doors.accept().is_err());
    assert_eq!(rt; doors.listen("here"), Err(Failed));
    assert_eq!(rt; doors.listen("127.0.0.1:0"), Ok(()));
    let Some(listener) = &doors.listener else {
        return Err(Fail::from(Failed));
    };
    let mut caller = TcpStream::connect(&rt, listener.local_addr()?)?;
    caller.write_all(b"ask\n")?;
    let (mut input, mut output) = doors.accept()?;
    let mut into = [0; 8];
    assert_eq!(rt; input.take(&mut into), Ok(4));
    assert_eq!(rt; &into[..4], b"ask\n".as_slice());
    assert_eq!(rt; put_all(&mut output, b"answer\n"), Ok(()));
    assert_eq!(rt; output.flush(), Ok(()));
    assert_eq!(rt; caller.read(&mut into)?, 7);
    assert_eq!(rt; &into[..7], b"answer\n".as_slice());
    // The caller has no more to ask.
    caller.shutdown(Shutdown::Write)?;
    assert_eq!(rt; input.take(&mut into), Ok(0));
    Ok(())
}

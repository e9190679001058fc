//! Input that is refused: each refusal has its name, the numbers go on, and nothing changes.

use crate::{Status, panto_run};
use pan_io::{MemoryShelf, MemorySink, MemorySource};
use std::alloc::{AllocError, Global};
use std::test::Fail;
use std::thread::Threads;
use worker_gate::OpenGate;

/// `stat` with an unknown field of so many lists inside one another.
fn push_nested(input: &mut Vec<u8>, alloc: Global, lists: usize) -> Result<(), AllocError> {
    input.extend_from_slice(b"stat {\"x\":")?;
    input.extend_from_slice(&vec![in alloc; b'['; lists]?)?;
    input.extend_from_slice(&vec![in alloc; b']'; lists]?)?;
    input.extend_from_slice(b"}\n")
}

/// The output of `run` over an input that gives seven bytes a call.
fn answered<R: Threads + Sync>(
    rt: &R,
    alloc: Global,
    input: Vec<u8>,
) -> Result<(Status, Vec<u8>), AllocError> {
    let words = vec![in alloc; String::from_str(alloc, "run")?]?;
    let mut shelf = MemoryShelf::new(Vec::new(alloc), Vec::new(alloc));
    let mut input = MemorySource::new(input, vec![in alloc; 7]?, Vec::new(alloc));
    let mut output = MemorySink::new(alloc, 0, 10_000, Vec::new(alloc));
    let mut notes = MemorySink::new(alloc, 0, 100, Vec::new(alloc));
    let status = panto_run(
        rt,
        alloc,
        &words,
        &mut shelf,
        &mut input,
        &mut output,
        &mut notes,
        &OpenGate,
    );
    Ok((status, Vec::from_slice(alloc, output.bytes())?))
}

#[test]
fn refused_lines_change_nothing(rt: HostRuntime) -> Result<(), Fail> {
    let alloc = rt.alloc();
    let mut input = Vec::from_slice(
        alloc,
        b"env.add {\"text\":1}\nenv.add {\"text\":\"prim a : b();\"}\n",
    )?;
    input.extend_from_slice(
        b"env.add {\"text\":\"prim a : *;\",\"envId\":18446744073709551615}\n",
    )?;
    input.extend_from_slice(b"env.add {\"text\":\"prim a : *; prim a : *;\"}\nstat \xff\n")?;
    push_nested(&mut input, alloc, 126)?;
    push_nested(&mut input, alloc, 127)?;
    input.extend_from_slice(b"env.catalog\nstat\n")?;
    let wanted = "{\"error\":\"field\",\"field\":\"text\",\"seq\":0}\n\
        {\"at\":9,\"error\":\"unknownName\",\"item\":0,\"name\":\"b\",\"seq\":1}\n\
        {\"error\":\"unknownEnv\",\"id\":18446744073709551615,\"seq\":2}\n\
        {\"error\":\"nameTaken\",\"item\":1,\"name\":\"a\",\"seq\":3}\n\
        {\"error\":\"json\",\"seq\":4}\n\
        {\"envs\":1,\"live\":0,\"seq\":5,\"states\":0}\n\
        {\"error\":\"json\",\"seq\":6}\n\
        {\"names\":[],\"seq\":7}\n\
        {\"envs\":1,\"live\":0,\"seq\":8,\"states\":0}\n";
    let (status, output) = answered(&rt, alloc, input)?;
    assert_eq!(rt; output.as_slice(), wanted.as_bytes());
    assert_eq!(rt; status.code(), 0);
    Ok(())
}

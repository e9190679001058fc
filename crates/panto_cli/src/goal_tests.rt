//! Worked proofs, line by line.

use crate::panto_run;
use pan_io::{MemoryShelf, MemorySink, MemorySource};
use std::alloc::{AllocError, Global};
use std::test::Fail;
use std::thread::Threads;
use worker_gate::OpenGate;

/// The output of `run` on these lines, of which each call gives 64 bytes, and its status code.
fn replies<R: Threads + Sync>(
    rt: &R,
    alloc: Global,
    lines: &[u8],
) -> Result<(Vec<u8>, u8), AllocError> {
    let words = vec![in alloc; String::from_str(alloc, "run")?]?;
    let mut shelf = MemoryShelf::new(Vec::new(alloc), Vec::new(alloc));
    let bytes = Vec::from_slice(alloc, lines)?;
    let mut input = MemorySource::new(bytes, vec![in alloc; 64]?, Vec::new(alloc));
    let mut output = MemorySink::new(alloc, 3, 10_000, Vec::new(alloc));
    let mut notes = MemorySink::new(alloc, 0, 100, Vec::new(alloc));
    let status = panto_run(
        rt,
        alloc,
        &words,
        &mut shelf,
        &mut input,
        &mut output,
        &mut notes,
        &OpenGate,
    );
    let code = status.code();
    Ok((Vec::from_slice(alloc, output.bytes())?, code))
}

#[test]
fn a_proof_of_the_identity(rt: HostRuntime) -> Result<(), Fail> {
    let alloc = rt.alloc();
    let lines = b"goal.start {\"expr\":\"(A : *) -> A -> A\"}\n\
        goal.move {\"stateId\":0,\"move\":\"intro A\"}\n\
        goal.move {\"stateId\":1,\"move\":\"intro x\"}\n\
        goal.move {\"stateId\":2,\"move\":\"exact x\"}\n\
        goal.print {\"stateId\":3}\n\
        goal.print {\"stateId\":0}\n";
    let wanted: &[u8] =
        b"{\"dormant\":[],\"goals\":[{\"coupled\":[],\"goal\":0,\"target\":\"(%0 : *) -> %0 -> %0\",\"vars\":[]}],\"seq\":0,\"solved\":false,\"stateId\":0}\n\
        {\"dormant\":[],\"goals\":[{\"coupled\":[],\"goal\":1,\"target\":\"A -> A\",\"vars\":[{\"name\":\"A\",\"type\":\"*\"}]}],\"seq\":1,\"solved\":false,\"stateId\":1}\n\
        {\"dormant\":[],\"goals\":[{\"coupled\":[],\"goal\":2,\"target\":\"A\",\"vars\":[{\"name\":\"A\",\"type\":\"*\"},{\"name\":\"x\",\"type\":\"A\"}]}],\"seq\":2,\"solved\":false,\"stateId\":2}\n\
        {\"dormant\":[],\"goals\":[],\"seq\":3,\"solved\":true,\"stateId\":3}\n\
        {\"dormant\":[],\"goals\":[],\"seq\":4,\"solved\":true,\"term\":\"fun (%0 : *) => fun (%1 : %0) => %1\",\"type\":\"(%0 : *) -> %0 -> %0\"}\n\
        {\"dormant\":[],\"goals\":[{\"coupled\":[],\"goal\":0,\"target\":\"(%0 : *) -> %0 -> %0\",\"vars\":[]}],\"seq\":5,\"solved\":false,\"type\":\"(%0 : *) -> %0 -> %0\"}\n";
    let (output, code) = replies(&rt, alloc, lines)?;
    assert_eq!(rt; output.as_slice(), wanted);
    assert_eq!(rt; code, 0);
    Ok(())
}

#[test]
fn refused_moves_change_nothing(rt: HostRuntime) -> Result<(), Fail> {
    let alloc = rt.alloc();
    let lines = b"goal.start {\"expr\":\"(A : *) -> A -> A\"}\n\
        goal.move {\"stateId\":0,\"move\":\"intro A\"}\n\
        goal.move {\"stateId\":1,\"move\":\"intro A\"}\n\
        goal.move {\"stateId\":1,\"move\":\"exact A\"}\n\
        goal.move {\"stateId\":1,\"goalId\":1,\"move\":\"exact A\"}\n\
        goal.move {\"stateId\":1,\"move\":\"assumption\"}\n\
        goal.move {\"stateId\":1,\"move\":\"intro\"}\n\
        goal.move {\"stateId\":9,\"move\":\"intro x\"}\n\
        goal.start {\"expr\":\"fun (x : *) => x\"}\n\
        stat\n\
        goal.delete {\"stateId\":0}\n\
        goal.print {\"stateId\":0}\n\
        goal.tries {\"stateId\":1,\"tries\":[]}\n";
    let wanted: &[u8] =
        b"{\"dormant\":[],\"goals\":[{\"coupled\":[],\"goal\":0,\"target\":\"(%0 : *) -> %0 -> %0\",\"vars\":[]}],\"seq\":0,\"solved\":false,\"stateId\":0}\n\
        {\"dormant\":[],\"goals\":[{\"coupled\":[],\"goal\":1,\"target\":\"A -> A\",\"vars\":[{\"name\":\"A\",\"type\":\"*\"}]}],\"seq\":1,\"solved\":false,\"stateId\":1}\n\
        {\"error\":\"nameTaken\",\"name\":\"A\",\"seq\":2}\n\
        {\"error\":\"mismatch\",\"found\":\"*\",\"seq\":3,\"wanted\":\"%0 -> %0\"}\n\
        {\"count\":1,\"error\":\"noGoal\",\"index\":1,\"seq\":4}\n\
        {\"error\":\"noAssumption\",\"seq\":5}\n\
        {\"at\":5,\"error\":\"syntax\",\"seq\":6}\n\
        {\"error\":\"unknownState\",\"id\":9,\"seq\":7}\n\
        {\"error\":\"notType\",\"seq\":8,\"term\":\"fun (%0 : *) => %0\"}\n\
        {\"envs\":1,\"live\":2,\"seq\":9,\"states\":2}\n\
        {\"deleted\":0,\"seq\":10}\n\
        {\"error\":\"unknownState\",\"id\":0,\"seq\":11}\n\
        {\"error\":\"field\",\"field\":\"tries\",\"seq\":12}\n";
    let (output, code) = replies(&rt, alloc, lines)?;
    assert_eq!(rt; output.as_slice(), wanted);
    assert_eq!(rt; code, 0);
    Ok(())
}

#[test]
fn states_that_are_not_there(rt: HostRuntime) -> Result<(), Fail> {
    let alloc = rt.alloc();
    let lines = b"goal.move {\"stateId\":18446744073709551615,\"move\":\"intro x\"}\n\
        goal.start {\"expr\":\"* -> *\"}\n\
        goal.move {\"stateId\":0,\"move\":\"intro \xff\"}\n\
        goal.move {\"stateId\":0,\"move\":\"intro A\",\"fuel\":0}\n\
        goal.move {\"stateId\":0,\"move\":\"intro A\",\"goalId\":18446744073709551615}\n\
        reset\n\
        goal.print {\"stateId\":0}\n\
        goal.move {\"stateId\":0,\"move\":\"intro A\"}\n\
        goal.start {\"expr\":\"* -> *\",\"envId\":1}\n\
        stat\n";
    let wanted: &[u8] = b"{\"error\":\"unknownState\",\"id\":18446744073709551615,\"seq\":0}\n\
        {\"dormant\":[],\"goals\":[{\"coupled\":[],\"goal\":0,\"target\":\"* -> *\",\"vars\":[]}],\"seq\":1,\"solved\":false,\"stateId\":0}\n\
        {\"error\":\"json\",\"seq\":2}\n\
        {\"error\":\"fuel\",\"seq\":3}\n\
        {\"count\":1,\"error\":\"noGoal\",\"index\":18446744073709551615,\"seq\":4}\n\
        {\"deleted\":1,\"seq\":5}\n\
        {\"error\":\"unknownState\",\"id\":0,\"seq\":6}\n\
        {\"error\":\"unknownState\",\"id\":0,\"seq\":7}\n\
        {\"error\":\"unknownEnv\",\"id\":1,\"seq\":8}\n\
        {\"envs\":1,\"live\":0,\"seq\":9,\"states\":1}\n";
    let (output, code) = replies(&rt, alloc, lines)?;
    assert_eq!(rt; output.as_slice(), wanted);
    assert_eq!(rt; code, 0);
    Ok(())
}

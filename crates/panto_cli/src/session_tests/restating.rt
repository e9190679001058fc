//! Moves that state a goal anew or cut it.

use super::{NEGATION, replies};
use std::test::Fail;

#[test]
fn a_definition_is_unfolded(rt: HostRuntime) -> Result<(), Fail> {
    let alloc = rt.alloc();
    let lines = b"goal.start {\"expr\":\"(A : *) -> A -> not(not(A))\"}\n\
        goal.move {\"stateId\":0,\"move\":\"intro A\"}\n\
        goal.move {\"stateId\":1,\"move\":\"intro x\"}\n\
        goal.move {\"stateId\":2,\"move\":\"unfold not\"}\n\
        goal.move {\"stateId\":3,\"move\":\"intro h\"}\n\
        goal.move {\"stateId\":4,\"move\":\"apply h x\"}\n\
        goal.print {\"stateId\":5}\n";
    let wanted: &[u8] =
        b"{\"dormant\":[],\"goals\":[{\"coupled\":[],\"goal\":0,\"target\":\"(%0 : *) -> %0 -> not(not(%0))\",\"vars\":[]}],\"seq\":0,\"solved\":false,\"stateId\":0}\n\
        {\"dormant\":[],\"goals\":[{\"coupled\":[],\"goal\":1,\"target\":\"A -> not(not(A))\",\"vars\":[{\"name\":\"A\",\"type\":\"*\"}]}],\"seq\":1,\"solved\":false,\"stateId\":1}\n\
        {\"dormant\":[],\"goals\":[{\"coupled\":[],\"goal\":2,\"target\":\"not(not(A))\",\"vars\":[{\"name\":\"A\",\"type\":\"*\"},{\"name\":\"x\",\"type\":\"A\"}]}],\"seq\":2,\"solved\":false,\"stateId\":2}\n\
        {\"dormant\":[],\"goals\":[{\"coupled\":[],\"goal\":3,\"target\":\"(A -> falsum()) -> falsum()\",\"vars\":[{\"name\":\"A\",\"type\":\"*\"},{\"name\":\"x\",\"type\":\"A\"}]}],\"seq\":3,\"solved\":false,\"stateId\":3}\n\
        {\"dormant\":[],\"goals\":[{\"coupled\":[],\"goal\":4,\"target\":\"falsum()\",\"vars\":[{\"name\":\"A\",\"type\":\"*\"},{\"name\":\"x\",\"type\":\"A\"},{\"name\":\"h\",\"type\":\"A -> falsum()\"}]}],\"seq\":4,\"solved\":false,\"stateId\":4}\n\
        {\"dormant\":[],\"goals\":[],\"seq\":5,\"solved\":true,\"stateId\":5}\n\
        {\"dormant\":[],\"goals\":[],\"seq\":6,\"solved\":true,\"term\":\"fun (%0 : *) => fun (%1 : %0) => fun (%2 : %0 -> falsum()) => %2 %1\",\"type\":\"(%0 : *) -> %0 -> not(not(%0))\"}\n";
    let (output, code) = replies(&rt, alloc, NEGATION, lines)?;
    assert_eq!(rt; output.as_slice(), wanted);
    assert_eq!(rt; code, 0);
    Ok(())
}

#[test]
fn a_goal_is_stated_anew_cut_and_assumed(rt: HostRuntime) -> Result<(), Fail> {
    let alloc = rt.alloc();
    let lines = b"goal.start {\"expr\":\"(A : *) -> A -> not(not(A))\"}\n\
        goal.move {\"stateId\":0,\"move\":\"intro A\"}\n\
        goal.move {\"stateId\":1,\"move\":\"intro x\"}\n\
        goal.move {\"stateId\":2,\"move\":\"change not(A) -> falsum()\"}\n\
        goal.move {\"stateId\":2,\"move\":\"have y : A\"}\n\
        goal.move {\"stateId\":4,\"move\":\"assumption\"}\n\
        goal.move {\"stateId\":2,\"move\":\"unfold A\"}\n\
        goal.move {\"stateId\":2,\"move\":\"unfold falsum\"}\n\
        goal.move {\"stateId\":2,\"move\":\"assumption\"}\n";
    let wanted: &[u8] =
        b"{\"dormant\":[],\"goals\":[{\"coupled\":[],\"goal\":0,\"target\":\"(%0 : *) -> %0 -> not(not(%0))\",\"vars\":[]}],\"seq\":0,\"solved\":false,\"stateId\":0}\n\
        {\"dormant\":[],\"goals\":[{\"coupled\":[],\"goal\":1,\"target\":\"A -> not(not(A))\",\"vars\":[{\"name\":\"A\",\"type\":\"*\"}]}],\"seq\":1,\"solved\":false,\"stateId\":1}\n\
        {\"dormant\":[],\"goals\":[{\"coupled\":[],\"goal\":2,\"target\":\"not(not(A))\",\"vars\":[{\"name\":\"A\",\"type\":\"*\"},{\"name\":\"x\",\"type\":\"A\"}]}],\"seq\":2,\"solved\":false,\"stateId\":2}\n\
        {\"dormant\":[],\"goals\":[{\"coupled\":[],\"goal\":3,\"target\":\"not(A) -> falsum()\",\"vars\":[{\"name\":\"A\",\"type\":\"*\"},{\"name\":\"x\",\"type\":\"A\"}]}],\"seq\":3,\"solved\":false,\"stateId\":3}\n\
        {\"dormant\":[],\"goals\":[{\"coupled\":[],\"goal\":3,\"target\":\"A\",\"vars\":[{\"name\":\"A\",\"type\":\"*\"},{\"name\":\"x\",\"type\":\"A\"}]},{\"coupled\":[],\"goal\":4,\"target\":\"not(not(A))\",\"vars\":[{\"name\":\"A\",\"type\":\"*\"},{\"name\":\"x\",\"type\":\"A\"},{\"name\":\"y\",\"type\":\"A\"}]}],\"seq\":4,\"solved\":false,\"stateId\":4}\n\
        {\"dormant\":[],\"goals\":[{\"coupled\":[],\"goal\":4,\"target\":\"not(not(A))\",\"vars\":[{\"name\":\"A\",\"type\":\"*\"},{\"name\":\"x\",\"type\":\"A\"},{\"name\":\"y\",\"type\":\"A\"}]}],\"seq\":5,\"solved\":false,\"stateId\":5}\n\
        {\"error\":\"notDefined\",\"name\":\"A\",\"seq\":6}\n\
        {\"error\":\"noOccurrence\",\"name\":\"falsum\",\"seq\":7}\n\
        {\"error\":\"noAssumption\",\"seq\":8}\n";
    let (output, code) = replies(&rt, alloc, NEGATION, lines)?;
    assert_eq!(rt; output.as_slice(), wanted);
    assert_eq!(rt; code, 0);
    Ok(())
}

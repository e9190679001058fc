//! States that go on with dormant goals, and states that are deleted.

use super::{ORDER, replies};
use std::test::Fail;

#[test]
fn dormant_goals_become_active(rt: HostRuntime) -> Result<(), Fail> {
    let alloc = rt.alloc();
    let lines = b"goal.start {\"expr\":\"le(a(), b())\"}\n\
        goal.move {\"auto\":false,\"stateId\":0,\"move\":\"refine trans(a(), ?, b(), ?, ?)\"}\n\
        goal.move {\"auto\":false,\"goalId\":1,\"stateId\":1,\"move\":\"exact ac()\"}\n\
        goal.continue {\"branch\":1,\"target\":2}\n\
        goal.continue {\"branch\":0,\"target\":1}\n\
        goal.start {\"expr\":\"N()\"}\n\
        goal.continue {\"branch\":4,\"target\":2}\n\
        goal.resume {\"goals\":[3],\"stateId\":2}\n\
        goal.resume {\"goals\":[1],\"stateId\":2}\n\
        goal.resume {\"goals\":[9],\"stateId\":2}\n\
        goal.resume {\"goals\":[3,18446744073709551615,1],\"stateId\":2}\n\
        goal.move {\"stateId\":3,\"move\":\"exact cb()\"}\n\
        goal.print {\"stateId\":6}\n";
    let wanted: &[u8] =
        b"{\"dormant\":[],\"goals\":[{\"coupled\":[],\"goal\":0,\"target\":\"le(a(), b())\",\"vars\":[]}],\"seq\":0,\"solved\":false,\"stateId\":0}\n\
        {\"dormant\":[],\"goals\":[{\"coupled\":[2,3],\"goal\":1,\"target\":\"N()\",\"vars\":[]},{\"coupled\":[1,3],\"goal\":2,\"target\":\"le(a(), ?1[])\",\"vars\":[]},{\"coupled\":[1,2],\"goal\":3,\"target\":\"le(?1[], b())\",\"vars\":[]}],\"seq\":1,\"solved\":false,\"stateId\":1}\n\
        {\"dormant\":[3],\"goals\":[],\"seq\":2,\"solved\":false,\"stateId\":2}\n\
        {\"dormant\":[],\"goals\":[{\"coupled\":[],\"goal\":3,\"target\":\"le(c(), b())\",\"vars\":[]}],\"seq\":3,\"solved\":false,\"stateId\":3}\n\
        {\"count\":3,\"error\":\"targetHasGoals\",\"seq\":4}\n\
        {\"dormant\":[],\"goals\":[{\"coupled\":[],\"goal\":0,\"target\":\"N()\",\"vars\":[]}],\"seq\":5,\"solved\":false,\"stateId\":4}\n\
        {\"error\":\"rootDiffers\",\"seq\":6}\n\
        {\"dormant\":[],\"goals\":[{\"coupled\":[],\"goal\":3,\"target\":\"le(c(), b())\",\"vars\":[]}],\"seq\":7,\"solved\":false,\"stateId\":5}\n\
        {\"error\":\"goalAssigned\",\"goal\":1,\"seq\":8}\n\
        {\"error\":\"goalUndeclared\",\"goal\":9,\"seq\":9}\n\
        {\"error\":\"goalUndeclared\",\"goal\":18446744073709551615,\"seq\":10}\n\
        {\"dormant\":[],\"goals\":[],\"seq\":11,\"solved\":true,\"stateId\":6}\n\
        {\"dormant\":[],\"goals\":[],\"seq\":12,\"solved\":true,\"term\":\"trans(a(), c(), b(), ac(), cb())\",\"type\":\"le(a(), b())\"}\n";
    let (output, code) = replies(&rt, alloc, ORDER, lines)?;
    assert_eq!(rt; output.as_slice(), wanted);
    assert_eq!(rt; code, 0);
    Ok(())
}

#[test]
fn deleted_states_are_not_there(rt: HostRuntime) -> Result<(), Fail> {
    let alloc = rt.alloc();
    let lines = b"goal.start {\"expr\":\"(A : *) -> A -> A\"}\n\
        goal.move {\"stateId\":0,\"move\":\"intro A\"}\n\
        goal.delete {\"stateId\":0}\n\
        goal.move {\"stateId\":0,\"move\":\"intro B\"}\n\
        goal.continue {\"target\":1,\"branch\":0}\n\
        goal.delete {\"stateId\":0}\n\
        goal.move {\"stateId\":1,\"move\":\"intro x\"}\n\
        reset\n\
        goal.resume {\"stateId\":2,\"goals\":[]}\n\
        stat\n";
    let wanted: &[u8] =
        b"{\"dormant\":[],\"goals\":[{\"coupled\":[],\"goal\":0,\"target\":\"(%0 : *) -> %0 -> %0\",\"vars\":[]}],\"seq\":0,\"solved\":false,\"stateId\":0}\n\
        {\"dormant\":[],\"goals\":[{\"coupled\":[],\"goal\":1,\"target\":\"A -> A\",\"vars\":[{\"name\":\"A\",\"type\":\"*\"}]}],\"seq\":1,\"solved\":false,\"stateId\":1}\n\
        {\"deleted\":0,\"seq\":2}\n\
        {\"error\":\"unknownState\",\"id\":0,\"seq\":3}\n\
        {\"error\":\"unknownState\",\"id\":0,\"seq\":4}\n\
        {\"error\":\"unknownState\",\"id\":0,\"seq\":5}\n\
        {\"dormant\":[],\"goals\":[{\"coupled\":[],\"goal\":2,\"target\":\"A\",\"vars\":[{\"name\":\"A\",\"type\":\"*\"},{\"name\":\"x\",\"type\":\"A\"}]}],\"seq\":6,\"solved\":false,\"stateId\":2}\n\
        {\"deleted\":2,\"seq\":7}\n\
        {\"error\":\"unknownState\",\"id\":2,\"seq\":8}\n\
        {\"envs\":1,\"live\":0,\"seq\":9,\"states\":3}\n";
    let (output, code) = replies(&rt, alloc, b"", lines)?;
    assert_eq!(rt; output.as_slice(), wanted);
    assert_eq!(rt; code, 0);
    Ok(())
}

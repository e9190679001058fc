//! Moves whose texts are elaborated.

use super::{NEGATION, ORDER, replies};
use std::test::Fail;

const NUMBERS: &[u8] =
    b"prim N : *; prim z : N(); prim s (x : N()) : N(); prim eq (x : N()) (y : N()) : *; prim refl (x : N()) : eq(x, x); def K (x : N()) := N() : *; prim mk (x : N()) (w : K(x)) (p : eq(x, s(w))) : N(); prim ex (y : N()) (p : (x : N()) -> eq(x, y)) : N(); prim all (y : N()) (p : N() -> eq(y, y)) : N();";

#[test]
fn a_goal_is_found_by_another(rt: HostRuntime) -> Result<(), Fail> {
    let alloc = rt.alloc();
    let lines = b"goal.start {\"expr\":\"le(a(), b())\"}\n\
        goal.move {\"stateId\":0,\"move\":\"refine trans(a(), ?, b(), ?, ?)\"}\n\
        goal.move {\"stateId\":1,\"goalId\":1,\"move\":\"exact ac()\"}\n\
        goal.move {\"stateId\":2,\"move\":\"exact cb()\"}\n\
        goal.print {\"stateId\":3}\n\
        goal.print {\"stateId\":1}\n";
    let wanted: &[u8] =
        b"{\"dormant\":[],\"goals\":[{\"coupled\":[],\"goal\":0,\"target\":\"le(a(), b())\",\"vars\":[]}],\"seq\":0,\"solved\":false,\"stateId\":0}\n\
        {\"dormant\":[],\"goals\":[{\"coupled\":[2,3],\"goal\":1,\"target\":\"N()\",\"vars\":[]},{\"coupled\":[1,3],\"goal\":2,\"target\":\"le(a(), ?1[])\",\"vars\":[]},{\"coupled\":[1,2],\"goal\":3,\"target\":\"le(?1[], b())\",\"vars\":[]}],\"seq\":1,\"solved\":false,\"stateId\":1}\n\
        {\"dormant\":[],\"goals\":[{\"coupled\":[],\"goal\":3,\"target\":\"le(c(), b())\",\"vars\":[]}],\"seq\":2,\"solved\":false,\"stateId\":2}\n\
        {\"dormant\":[],\"goals\":[],\"seq\":3,\"solved\":true,\"stateId\":3}\n\
        {\"dormant\":[],\"goals\":[],\"seq\":4,\"solved\":true,\"term\":\"trans(a(), c(), b(), ac(), cb())\",\"type\":\"le(a(), b())\"}\n\
        {\"dormant\":[],\"goals\":[{\"coupled\":[2,3],\"goal\":1,\"target\":\"N()\",\"vars\":[]},{\"coupled\":[1,3],\"goal\":2,\"target\":\"le(a(), ?1[])\",\"vars\":[]},{\"coupled\":[1,2],\"goal\":3,\"target\":\"le(?1[], b())\",\"vars\":[]}],\"seq\":5,\"solved\":false,\"type\":\"le(a(), b())\"}\n";
    let (output, code) = replies(&rt, alloc, ORDER, lines)?;
    assert_eq!(rt; output.as_slice(), wanted);
    assert_eq!(rt; code, 0);
    Ok(())
}

#[test]
fn fuel_of_a_move(rt: HostRuntime) -> Result<(), Fail> {
    let alloc = rt.alloc();
    let lines = b"goal.start {\"expr\":\"le(a(), b())\"}\n\
        goal.move {\"stateId\":0,\"move\":\"refine trans(a(), ?, b(), ?, ?)\"}\n\
        goal.move {\"stateId\":1,\"goalId\":1,\"move\":\"exact ac()\",\"fuel\":8}\n\
        goal.move {\"stateId\":1,\"goalId\":1,\"move\":\"exact ac()\",\"fuel\":7}\n\
        goal.move {\"auto\":false,\"goalId\":1,\"stateId\":1,\"move\":\"exact ac()\"}\n";
    let wanted: &[u8] =
        b"{\"dormant\":[],\"goals\":[{\"coupled\":[],\"goal\":0,\"target\":\"le(a(), b())\",\"vars\":[]}],\"seq\":0,\"solved\":false,\"stateId\":0}\n\
        {\"dormant\":[],\"goals\":[{\"coupled\":[2,3],\"goal\":1,\"target\":\"N()\",\"vars\":[]},{\"coupled\":[1,3],\"goal\":2,\"target\":\"le(a(), ?1[])\",\"vars\":[]},{\"coupled\":[1,2],\"goal\":3,\"target\":\"le(?1[], b())\",\"vars\":[]}],\"seq\":1,\"solved\":false,\"stateId\":1}\n\
        {\"dormant\":[],\"goals\":[{\"coupled\":[],\"goal\":3,\"target\":\"le(c(), b())\",\"vars\":[]}],\"seq\":2,\"solved\":false,\"stateId\":2}\n\
        {\"error\":\"fuel\",\"seq\":3}\n\
        {\"dormant\":[3],\"goals\":[],\"seq\":4,\"solved\":false,\"stateId\":3}\n";
    let (output, code) = replies(&rt, alloc, ORDER, lines)?;
    assert_eq!(rt; output.as_slice(), wanted);
    assert_eq!(rt; code, 0);
    Ok(())
}

#[test]
fn an_argument_is_a_new_goal(rt: HostRuntime) -> Result<(), Fail> {
    let alloc = rt.alloc();
    let lines = b"goal.start {\"expr\":\"(A : *) -> not(A) -> A -> falsum()\"}\n\
        goal.move {\"stateId\":0,\"move\":\"intro A\"}\n\
        goal.move {\"stateId\":1,\"move\":\"intro h\"}\n\
        goal.move {\"stateId\":2,\"move\":\"intro x\"}\n\
        goal.move {\"stateId\":3,\"move\":\"apply h\"}\n\
        goal.move {\"stateId\":4,\"move\":\"exact x\"}\n\
        goal.print {\"stateId\":5}\n";
    let wanted: &[u8] =
        b"{\"dormant\":[],\"goals\":[{\"coupled\":[],\"goal\":0,\"target\":\"(%0 : *) -> not(%0) -> %0 -> falsum()\",\"vars\":[]}],\"seq\":0,\"solved\":false,\"stateId\":0}\n\
        {\"dormant\":[],\"goals\":[{\"coupled\":[],\"goal\":1,\"target\":\"not(A) -> A -> falsum()\",\"vars\":[{\"name\":\"A\",\"type\":\"*\"}]}],\"seq\":1,\"solved\":false,\"stateId\":1}\n\
        {\"dormant\":[],\"goals\":[{\"coupled\":[],\"goal\":2,\"target\":\"A -> falsum()\",\"vars\":[{\"name\":\"A\",\"type\":\"*\"},{\"name\":\"h\",\"type\":\"not(A)\"}]}],\"seq\":2,\"solved\":false,\"stateId\":2}\n\
        {\"dormant\":[],\"goals\":[{\"coupled\":[],\"goal\":3,\"target\":\"falsum()\",\"vars\":[{\"name\":\"A\",\"type\":\"*\"},{\"name\":\"h\",\"type\":\"not(A)\"},{\"name\":\"x\",\"type\":\"A\"}]}],\"seq\":3,\"solved\":false,\"stateId\":3}\n\
        {\"dormant\":[],\"goals\":[{\"coupled\":[],\"goal\":4,\"target\":\"A\",\"vars\":[{\"name\":\"A\",\"type\":\"*\"},{\"name\":\"h\",\"type\":\"not(A)\"},{\"name\":\"x\",\"type\":\"A\"}]}],\"seq\":4,\"solved\":false,\"stateId\":4}\n\
        {\"dormant\":[],\"goals\":[],\"seq\":5,\"solved\":true,\"stateId\":5}\n\
        {\"dormant\":[],\"goals\":[],\"seq\":6,\"solved\":true,\"term\":\"fun (%0 : *) => fun (%1 : not(%0)) => fun (%2 : %0) => %1 %2\",\"type\":\"(%0 : *) -> not(%0) -> %0 -> falsum()\"}\n";
    let (output, code) = replies(&rt, alloc, NEGATION, lines)?;
    assert_eq!(rt; output.as_slice(), wanted);
    assert_eq!(rt; code, 0);
    Ok(())
}

#[test]
fn a_cycle_through_a_type(rt: HostRuntime) -> Result<(), Fail> {
    let alloc = rt.alloc();
    let lines = b"goal.start {\"expr\":\"N()\"}\n\
        goal.move {\"stateId\":0,\"move\":\"refine mk(?, ?, ?)\"}\n\
        goal.move {\"goalId\":2,\"stateId\":1,\"move\":\"exact refl(_)\"}\n\
        goal.move {\"stateId\":0,\"move\":\"refine mk(_, ?, ?)\"}\n";
    let wanted: &[u8] =
        b"{\"dormant\":[],\"goals\":[{\"coupled\":[],\"goal\":0,\"target\":\"N()\",\"vars\":[]}],\"seq\":0,\"solved\":false,\"stateId\":0}\n\
        {\"dormant\":[],\"goals\":[{\"coupled\":[2,3],\"goal\":1,\"target\":\"N()\",\"vars\":[]},{\"coupled\":[1,3],\"goal\":2,\"target\":\"K(?1[])\",\"vars\":[]},{\"coupled\":[1,2],\"goal\":3,\"target\":\"eq(?1[], s(?2[]))\",\"vars\":[]}],\"seq\":1,\"solved\":false,\"stateId\":1}\n\
        {\"error\":\"cycle\",\"goal\":1,\"seq\":2}\n\
        {\"at\":10,\"error\":\"unsolved\",\"seq\":3}\n";
    let (output, code) = replies(&rt, alloc, NUMBERS, lines)?;
    assert_eq!(rt; output.as_slice(), wanted);
    assert_eq!(rt; code, 0);
    Ok(())
}

#[test]
fn a_variable_out_of_scope(rt: HostRuntime) -> Result<(), Fail> {
    let alloc = rt.alloc();
    let lines = b"goal.start {\"expr\":\"N()\"}\n\
        goal.move {\"stateId\":0,\"move\":\"refine ex(?, ?)\"}\n\
        goal.move {\"goalId\":1,\"stateId\":1,\"move\":\"intro x\"}\n\
        goal.move {\"stateId\":2,\"move\":\"exact refl(_)\"}\n";
    let wanted: &[u8] =
        b"{\"dormant\":[],\"goals\":[{\"coupled\":[],\"goal\":0,\"target\":\"N()\",\"vars\":[]}],\"seq\":0,\"solved\":false,\"stateId\":0}\n\
        {\"dormant\":[],\"goals\":[{\"coupled\":[2],\"goal\":1,\"target\":\"N()\",\"vars\":[]},{\"coupled\":[1],\"goal\":2,\"target\":\"(%0 : N()) -> eq(%0, ?1[])\",\"vars\":[]}],\"seq\":1,\"solved\":false,\"stateId\":1}\n\
        {\"dormant\":[],\"goals\":[{\"coupled\":[1],\"goal\":3,\"target\":\"eq(x, ?1[])\",\"vars\":[{\"name\":\"x\",\"type\":\"N()\"}]},{\"coupled\":[3],\"goal\":1,\"target\":\"N()\",\"vars\":[]}],\"seq\":2,\"solved\":false,\"stateId\":2}\n\
        {\"error\":\"scope\",\"goal\":1,\"level\":0,\"seq\":3}\n";
    let (output, code) = replies(&rt, alloc, NUMBERS, lines)?;
    assert_eq!(rt; output.as_slice(), wanted);
    assert_eq!(rt; code, 0);
    Ok(())
}

#[test]
fn a_hole_is_pruned(rt: HostRuntime) -> Result<(), Fail> {
    let alloc = rt.alloc();
    let lines = b"goal.start {\"expr\":\"N()\"}\n\
        goal.move {\"stateId\":0,\"move\":\"refine all(?, ?)\"}\n\
        goal.move {\"goalId\":1,\"stateId\":1,\"move\":\"intro x\"}\n\
        goal.move {\"stateId\":2,\"move\":\"exact refl(s(_))\"}\n\
        goal.move {\"stateId\":3,\"move\":\"exact z()\"}\n\
        goal.print {\"stateId\":4}\n";
    let wanted: &[u8] =
        b"{\"dormant\":[],\"goals\":[{\"coupled\":[],\"goal\":0,\"target\":\"N()\",\"vars\":[]}],\"seq\":0,\"solved\":false,\"stateId\":0}\n\
        {\"dormant\":[],\"goals\":[{\"coupled\":[2],\"goal\":1,\"target\":\"N()\",\"vars\":[]},{\"coupled\":[1],\"goal\":2,\"target\":\"N() -> eq(?1[], ?1[])\",\"vars\":[]}],\"seq\":1,\"solved\":false,\"stateId\":1}\n\
        {\"dormant\":[],\"goals\":[{\"coupled\":[1],\"goal\":3,\"target\":\"eq(?1[], ?1[])\",\"vars\":[{\"name\":\"x\",\"type\":\"N()\"}]},{\"coupled\":[3],\"goal\":1,\"target\":\"N()\",\"vars\":[]}],\"seq\":2,\"solved\":false,\"stateId\":2}\n\
        {\"dormant\":[],\"goals\":[{\"coupled\":[],\"goal\":5,\"target\":\"N()\",\"vars\":[]}],\"seq\":3,\"solved\":false,\"stateId\":3}\n\
        {\"dormant\":[],\"goals\":[],\"seq\":4,\"solved\":true,\"stateId\":4}\n\
        {\"dormant\":[],\"goals\":[],\"seq\":5,\"solved\":true,\"term\":\"all(s(z()), fun (%0 : N()) => refl(s(z())))\",\"type\":\"N()\"}\n";
    let (output, code) = replies(&rt, alloc, NUMBERS, lines)?;
    assert_eq!(rt; output.as_slice(), wanted);
    assert_eq!(rt; code, 0);
    Ok(())
}

#[test]
fn a_redex_stays_in_the_proof(rt: HostRuntime) -> Result<(), Fail> {
    let alloc = rt.alloc();
    let lines = b"goal.start {\"expr\":\"(A : *) -> A -> A\"}\n\
        goal.move {\"stateId\":0,\"move\":\"intro A\"}\n\
        goal.move {\"stateId\":1,\"move\":\"intro x\"}\n\
        goal.move {\"stateId\":2,\"move\":\"exact ((fun (B : *) => fun (y : B) => y) A x)\"}\n\
        goal.print {\"stateId\":3}\n";
    let wanted: &[u8] =
        b"{\"dormant\":[],\"goals\":[{\"coupled\":[],\"goal\":0,\"target\":\"(%0 : *) -> %0 -> %0\",\"vars\":[]}],\"seq\":0,\"solved\":false,\"stateId\":0}\n\
        {\"dormant\":[],\"goals\":[{\"coupled\":[],\"goal\":1,\"target\":\"A -> A\",\"vars\":[{\"name\":\"A\",\"type\":\"*\"}]}],\"seq\":1,\"solved\":false,\"stateId\":1}\n\
        {\"dormant\":[],\"goals\":[{\"coupled\":[],\"goal\":2,\"target\":\"A\",\"vars\":[{\"name\":\"A\",\"type\":\"*\"},{\"name\":\"x\",\"type\":\"A\"}]}],\"seq\":2,\"solved\":false,\"stateId\":2}\n\
        {\"dormant\":[],\"goals\":[],\"seq\":3,\"solved\":true,\"stateId\":3}\n\
        {\"dormant\":[],\"goals\":[],\"seq\":4,\"solved\":true,\"term\":\"fun (%0 : *) => fun (%1 : %0) => (fun (%2 : *) => fun (%3 : %2) => %3) %0 %1\",\"type\":\"(%0 : *) -> %0 -> %0\"}\n";
    let (output, code) = replies(&rt, alloc, b"", lines)?;
    assert_eq!(rt; output.as_slice(), wanted);
    assert_eq!(rt; code, 0);
    Ok(())
}

#[test]
fn a_head_that_is_no_pattern(rt: HostRuntime) -> Result<(), Fail> {
    let alloc = rt.alloc();
    let lines = b"env.add {\"text\":\"prim app (F : N() -> *) (x : N()) : F x;\"}\n\
        goal.start {\"envId\":1,\"expr\":\"le(a(), b())\"}\n\
        goal.move {\"stateId\":0,\"move\":\"exact app(_, a())\"}\n\
        goal.move {\"stateId\":0,\"move\":\"exact app(?, a())\"}\n\
        goal.move {\"stateId\":0,\"move\":\"apply ?\"}\n\
        goal.move {\"stateId\":0,\"move\":\"refine le(a())\"}\n\
        goal.move {\"stateId\":0,\"move\":\"exact y\"}\n\
        goal.move {\"stateId\":0,\"move\":\"exact a() b()\"}\n\
        goal.move {\"stateId\":0,\"move\":\"exact ac()\"}\n\
        goal.move {\"stateId\":0,\"move\":\"intro x\"}\n";
    let wanted: &[u8] = b"{\"envId\":1,\"seq\":0}\n\
        {\"dormant\":[],\"goals\":[{\"coupled\":[],\"goal\":0,\"target\":\"le(a(), b())\",\"vars\":[]}],\"seq\":1,\"solved\":false,\"stateId\":0}\n\
        {\"error\":\"notPattern\",\"goal\":1,\"seq\":2}\n\
        {\"at\":10,\"error\":\"unsolved\",\"seq\":3}\n\
        {\"at\":6,\"error\":\"noExpected\",\"seq\":4}\n\
        {\"at\":7,\"error\":\"wrongCount\",\"given\":1,\"name\":\"le\",\"seq\":5,\"wanted\":2}\n\
        {\"at\":6,\"error\":\"unknownName\",\"name\":\"y\",\"seq\":6}\n\
        {\"error\":\"notFunction\",\"seq\":7,\"term\":\"a()\",\"type\":\"N()\"}\n\
        {\"error\":\"mismatch\",\"found\":\"c()\",\"seq\":8,\"wanted\":\"b()\"}\n\
        {\"error\":\"notProduct\",\"seq\":9}\n";
    let (output, code) = replies(&rt, alloc, ORDER, lines)?;
    assert_eq!(rt; output.as_slice(), wanted);
    assert_eq!(rt; code, 0);
    Ok(())
}

//! Sessions over both stores of terms: each reply is the same.

use command_set::{Environment, Program};
use ld_terms::{Terms, TreeTerms};
use pan_io::{MemorySink, SureSource};
use session_maker::make_session;
use session_server::run_session;
use state_tree::Tree;
use std::alloc::{AllocError, Global};
use std::test::Fail;
use std::thread::Threads;
use term_store::HashTerms;
use worker_gate::OpenGate;

/// How many lines a session has at most.
const MOST_LINES: u32 = 1_000;

/// The replies to a text over the empty book, with the terms in a store like this one.
fn replies<R: Threads + Sync, T: Terms + Drop + Send + Sync>(
    rt: &R,
    alloc: Global,
    terms: T,
    text: &[u8],
) -> Result<Vec<u8>, AllocError>
where
    T::Handle: Send + Sync,
{
    let mut source = SureSource::new(Vec::from_slice(alloc, text)?);
    let mut sink = MemorySink::new(alloc, usize::MAX, usize::MAX, Vec::new(alloc));
    let mut tree = Tree::open(alloc, Environment::empty(alloc, terms)?, MOST_LINES)?;
    let _end = run_session(
        rt,
        alloc,
        &Program::new(),
        &mut tree,
        1,
        &mut source,
        &mut sink,
        &OpenGate,
    );
    Vec::from_slice(alloc, sink.bytes())
}

/// Whether the replies over both stores are the same, no fewer than the lines, and end like this.
fn agree<R: Threads + Sync>(
    rt: &R,
    alloc: Global,
    text: &[u8],
    end: &[u8],
) -> Result<bool, AllocError> {
    let plain = replies(rt, alloc, TreeTerms::new(alloc)?, text)?;
    let shared = replies(rt, alloc, HashTerms::new(alloc)?, text)?;
    let all = count_lines(&plain) >= count_lines(text);
    Ok(all && plain.ends_with(end) && plain == shared)
}

fn count_lines(text: &[u8]) -> usize {
    let mut count = 0usize;
    for byte in text {
        if *byte == b'\n' {
            count = count.wrapping_add(1);
        }
    }
    count
}

#[test]
fn generated_sessions(rt: HostRuntime) -> Result<(), Fail> {
    let alloc = rt.alloc();
    for seed in 0..5 {
        let text = make_session(alloc, seed, 20)?;
        assert!(rt; agree(&rt, alloc, text.as_slice(), b"}\n")?);
    }
    Ok(())
}

#[test]
fn a_session_of_expressions_and_items(rt: HostRuntime) -> Result<(), Fail> {
    let alloc = rt.alloc();
    let text = b"expr.echo {\"expr\":\"fun (A : *) => fun (x : A) => x\"}\n\
        expr.echo {\"expr\":\"(fun (A : *) => A) *\"}\n\
        expr.echo {\"expr\":\"* *\"}\n\
        expr.echo {\"expr\":\"(A -> \"}\n\
        env.add {\"text\":\"prim N : *; prim z : N(); prim s (x : N()) : N(); prim eq (x : N()) (y : N()) : *; prim refl (x : N()) : eq(x, x); def two := s(s(z())) : N();\"}\n\
        env.add {\"envId\":1,\"text\":\"def four := s(s(two())) : N(); def N := * : *;\"}\n\
        env.add {\"envId\":1,\"text\":\"def four := s(s(two())) : N();\"}\n\
        env.inspect {\"envId\":2,\"name\":\"four\"}\n\
        env.inspect {\"envId\":1,\"name\":\"four\"}\n\
        env.catalog {\"envId\":2}\n\
        expr.echo {\"envId\":2,\"expr\":\"refl(four())\"}\n\
        expr.echo {\"envId\":2,\"expr\":\"fun (p : eq(four(), s(s(s(s(z())))))) => p\",\"fuel\":2}\n\
        expr.echo {\"envId\":2,\"expr\":\"fun (p : eq(four(), s(s(s(s(z())))))) => p\"}\n\
        expr.echo {\"envId\":2,\"expr\":\"eq(z())\"}\n\
        stat\n";
    let end =
        b"\"name\":\"eq\",\"seq\":13,\"wanted\":2}\n{\"envs\":3,\"live\":0,\"seq\":14,\"states\":0}\n";
    assert!(rt; agree(&rt, alloc, text, end)?);
    Ok(())
}

#[test]
fn a_session_of_moves(rt: HostRuntime) -> Result<(), Fail> {
    let alloc = rt.alloc();
    let text =
        b"env.add {\"text\":\"prim N : *; prim a : N(); prim b : N(); prim c : N(); prim le (x : N()) (y : N()) : *; prim trans (x : N()) (y : N()) (z : N()) (p : le(x, y)) (q : le(y, z)) : le(x, z); prim ac : le(a(), c()); prim cb : le(c(), b()); def falsum := (A : *) -> A : *; def not (A : *) := A -> falsum() : *;\"}\n\
        goal.start {\"envId\":1,\"expr\":\"le(a(), b())\"}\n\
        goal.move {\"auto\":false,\"stateId\":0,\"move\":\"refine trans(a(), ?, b(), ?, ?)\"}\n\
        goal.move {\"auto\":false,\"goalId\":1,\"stateId\":1,\"move\":\"exact ac()\"}\n\
        goal.continue {\"branch\":1,\"target\":2}\n\
        goal.continue {\"branch\":0,\"target\":1}\n\
        goal.resume {\"goals\":[3],\"stateId\":2}\n\
        goal.resume {\"goals\":[9],\"stateId\":2}\n\
        goal.move {\"stateId\":3,\"move\":\"exact cb()\"}\n\
        goal.print {\"stateId\":5}\n\
        goal.start {\"envId\":1,\"expr\":\"(A : *) -> A -> not(not(A))\"}\n\
        goal.move {\"stateId\":6,\"move\":\"intro A\"}\n\
        goal.move {\"stateId\":7,\"move\":\"intro x\"}\n\
        goal.move {\"stateId\":8,\"move\":\"unfold not\"}\n\
        goal.move {\"stateId\":9,\"move\":\"intro f\"}\n\
        goal.move {\"stateId\":10,\"move\":\"apply f\"}\n\
        goal.tries {\"stateId\":9,\"tries\":[{\"move\":\"intro f\"},{\"move\":\"exact x\"},{\"move\":\"assumption\"},{\"move\":\"have h : A\"}]}\n\
        goal.print {\"stateId\":11}\n\
        goal.delete {\"stateId\":9}\n\
        goal.print {\"stateId\":9}\n\
        goal.move {\"stateId\":11,\"move\":\"assumption\"}\n\
        goal.print {\"stateId\":14}\n\
        stat\n\
        reset\n\
        stat\n";
    let end =
        b"{\"dormant\":[],\"goals\":[],\"seq\":24,\"solved\":true,\"term\":\"fun (%0 : *) => fun (%1 : %0) => fun (%2 : %0 -> falsum()) => %2 %1\",\"type\":\"(%0 : *) -> %0 -> not(not(%0))\"}\n\
        {\"envs\":2,\"live\":14,\"seq\":25,\"states\":15}\n\
        {\"deleted\":14,\"seq\":26}\n\
        {\"envs\":2,\"live\":0,\"seq\":27,\"states\":15}\n";
    assert!(rt; agree(&rt, alloc, text, end)?);
    Ok(())
}

/// Twenty rounds of `box` over one number in two places, from this state of a goal on: each makes the proof three times as
/// large. Then the number is told and the proof printed.
fn repeated_parts(
    alloc: Global,
    goal: &str,
    first: u32,
    number: &str,
) -> Result<Vec<u8>, AllocError> {
    let mut text = Vec::from_slice(
        alloc,
        b"env.add {\"text\":\"prim N : *; prim z : N(); prim eq (x : N()) (y : N()) : *; prim refl (x : N()) : eq(x, x); prim box (x : N()) (y : N()) (p : eq(x, y)) : N();\"}\n",
    )?;
    text.extend_from_slice(goal.as_bytes())?;
    let mut state = first;
    for _ in 0..20 {
        let exact = state.wrapping_add(1);
        let lines = format!(in alloc;
            "goal.move {{\"stateId\":{state},\"move\":\"refine box(?, ?, ?)\"}}\n\
            goal.move {{\"stateId\":{exact},\"goalId\":2,\"move\":\"exact refl(_)\"}}\n"
        )?;
        text.extend_from_slice(lines.as_bytes())?;
        state = state.wrapping_add(2);
    }
    let solved = state.wrapping_add(1);
    let lines = format!(in alloc;
        "goal.move {{\"stateId\":{state},\"move\":\"exact {number}\"}}\ngoal.print {{\"stateId\":{solved}}}\n"
    )?;
    text.extend_from_slice(lines.as_bytes())?;
    Ok(text)
}

#[test]
fn parts_that_stand_many_times(rt: HostRuntime) -> Result<(), Fail> {
    let alloc = rt.alloc();
    let goal = "goal.start {\"envId\":1,\"expr\":\"N()\"}\n";
    let text = repeated_parts(alloc, goal, 0, "z()")?;
    let end =
        b"{\"dormant\":[],\"goals\":[],\"seq\":43,\"solved\":true,\"term\":{\"depth\":41,\"nodes\":6973568801},\"type\":\"N()\"}\n";
    assert!(rt; agree(&rt, alloc, &text, end)?);
    Ok(())
}

#[test]
fn parts_that_stand_many_times_in_a_context(rt: HostRuntime) -> Result<(), Fail> {
    let alloc = rt.alloc();
    let goal = "goal.start {\"envId\":1,\"expr\":\"(n : N()) -> N()\"}\n\
        goal.move {\"stateId\":0,\"move\":\"intro n\"}\n";
    let text = repeated_parts(alloc, goal, 1, "n")?;
    let end =
        b"{\"dormant\":[],\"goals\":[],\"seq\":44,\"solved\":true,\"term\":{\"depth\":42,\"nodes\":6973568803},\"type\":\"N() -> N()\"}\n";
    assert!(rt; agree(&rt, alloc, &text, end)?);
    Ok(())
}

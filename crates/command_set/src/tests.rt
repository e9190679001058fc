//! The replies of commands, worked over a store.

use crate::{Environment, Program, ProofState};
use ld_terms::{List, TreeTerms};
use repl_json::{Ask, Body, Request};
use state_tree::{Found, Work, Worked};
use std::alloc::{AllocError, Global};
use std::test::Fail;

type PlainEnvironment = Environment<TreeTerms>;

type PlainState = ProofState<TreeTerms>;

const ORDER: &[u8] =
    b"prim N : *; prim a : N(); prim b : N(); prim c : N(); prim le (x : N()) (y : N()) : *; prim trans (x : N()) (y : N()) (z : N()) (p : le(x, y)) (q : le(y, z)) : le(x, z); prim ac : le(a(), c()); prim cb : le(c(), b());";

const APP: &[u8] = b"prim app (F : N() -> *) (x : N()) : F x;";

/// The reply of the first entry, which makes environment 1 if it makes one.
fn line(alloc: Global, body: &Body) -> Result<Vec<u8>, AllocError> {
    let mut text = Vec::from_slice(alloc, body.first.as_slice())?;
    if body.id_first {
        text.extend_from_slice(b"1")?;
        text.extend_from_slice(body.second.as_slice())?;
        text.extend_from_slice(b"0")?;
        text.extend_from_slice(body.third.as_slice())?;
    } else {
        text.extend_from_slice(b"0")?;
        text.extend_from_slice(body.second.as_slice())?;
    }
    Ok(text)
}

fn work(
    alloc: Global,
    env: &PlainEnvironment,
    ask: Ask,
) -> Result<Worked<PlainEnvironment, PlainState>, AllocError> {
    let request = Request { after: 0, ask };
    let found = Found {
        env: Some(env.clone()?),
        one: None,
        two: None,
    };
    Ok(Program::new().work(alloc, &request, &found))
}

/// The reply to a command, and nothing where memory ran out.
fn said(alloc: Global, env: &PlainEnvironment, ask: Ask) -> Result<Vec<u8>, AllocError> {
    match work(alloc, env, ask)? {
        Worked::Said(body) => line(alloc, &body),
        Worked::NewEnv(_, body) => line(alloc, &body),
        Worked::NewState(_, body) => line(alloc, &body),
        Worked::Memory => Ok(Vec::new(alloc)),
    }
}

fn add(alloc: Global, text: &[u8]) -> Result<Ask, AllocError> {
    Ok(Ask::EnvAdd {
        env: 0,
        text: List::from_slice(alloc, text)?,
        fuel: 100_000,
    })
}

fn echo(alloc: Global, text: &[u8]) -> Result<Ask, AllocError> {
    Ok(Ask::Echo {
        env: 0,
        expr: List::from_slice(alloc, text)?,
        fuel: 100_000,
    })
}

fn inspect(alloc: Global, name: &[u8]) -> Result<Ask, AllocError> {
    Ok(Ask::EnvInspect {
        env: 0,
        name: List::from_slice(alloc, name)?,
    })
}

/// The environment with the items of a text, and the same one where there is none.
fn with_items(
    alloc: Global,
    env: PlainEnvironment,
    text: &[u8],
) -> Result<PlainEnvironment, AllocError> {
    match work(alloc, &env, add(alloc, text)?)? {
        Worked::NewEnv(made, _) => Ok(made),
        _ => Ok(env),
    }
}

#[test]
fn replies(rt: HostRuntime) -> Result<(), Fail> {
    let alloc = rt.alloc();
    let empty = Environment::empty(alloc, TreeTerms::new(alloc)?)?;
    let rows: [(&[u8], &[u8]); 6] = [
        (
            b"fun (A : *) => fun (x : A) => x",
            b"{\"expr\":\"fun (%0 : *) => fun (%1 : %0) => %1\",\"seq\":0,\"type\":\"(%0 : *) -> %0 -> %0\"}",
        ),
        (b"*", b"{\"expr\":\"*\",\"seq\":0,\"type\":\"#\"}"),
        (
            b"(fun (A : *) => A) *",
            b"{\"error\":\"mismatch\",\"found\":\"#\",\"seq\":0,\"wanted\":\"*\"}",
        ),
        (
            b"* *",
            b"{\"error\":\"notFunction\",\"seq\":0,\"term\":\"*\",\"type\":\"#\"}",
        ),
        (
            b"fun (x : *) => *",
            b"{\"error\":\"notType\",\"seq\":0,\"term\":\"#\"}",
        ),
        (b"(A -> ", b"{\"at\":6,\"error\":\"syntax\",\"seq\":0}"),
    ];
    for (text, wanted) in rows {
        let found = said(alloc, &empty, echo(alloc, text)?)?;
        assert!(rt; found.as_slice() == wanted);
    }
    Ok(())
}

#[test]
fn environments(rt: HostRuntime) -> Result<(), Fail> {
    let alloc = rt.alloc();
    let empty = Environment::empty(alloc, TreeTerms::new(alloc)?)?;
    let order = with_items(alloc, empty, ORDER)?;
    let found = said(alloc, &order, add(alloc, APP)?)?;
    assert!(rt; found.as_slice() == b"{\"envId\":1,\"seq\":0}".as_slice());
    let found = said(alloc, &order, echo(alloc, b"le(a())")?)?;
    assert!(rt;
        found.as_slice()
            == b"{\"at\":0,\"error\":\"wrongCount\",\"given\":1,\"name\":\"le\",\"seq\":0,\"wanted\":2}".as_slice()
    );
    let catalog: &[u8] =
        b"{\"names\":[\"N\",\"a\",\"b\",\"c\",\"le\",\"trans\",\"ac\",\"cb\"],\"seq\":0}";
    let found = said(alloc, &order, Ask::EnvCatalog { env: 0 })?;
    assert!(rt; found.as_slice() == catalog);
    let found = said(alloc, &order, add(alloc, b"prim N : *;")?)?;
    assert!(rt;
        found.as_slice()
            == b"{\"error\":\"nameTaken\",\"item\":0,\"name\":\"N\",\"seq\":0}".as_slice()
    );
    let found = said(alloc, &order, inspect(alloc, b"app")?)?;
    assert!(rt;
        found.as_slice() == b"{\"error\":\"unknownName\",\"name\":\"app\",\"seq\":0}".as_slice()
    );
    let applied = with_items(alloc, order, APP)?;
    let found = said(alloc, &applied, inspect(alloc, b"app")?)?;
    assert!(rt;
        found.as_slice()
            == b"{\"kind\":\"prim\",\"params\":[{\"name\":\"F\",\"type\":\"N() -> *\"},{\"name\":\"x\",\"type\":\"N()\"}],\"seq\":0,\"type\":\"F x\"}".as_slice()
    );
    Ok(())
}

/// The state that a request makes, and its reply, which is that of the first entry and makes state 0 where it makes one.
fn step(
    alloc: Global,
    env: Option<&PlainEnvironment>,
    state: Option<PlainState>,
    ask: Ask,
) -> Result<(Option<PlainState>, Vec<u8>), AllocError> {
    let request = Request { after: 0, ask };
    let env = match env {
        Some(env) => Some(env.clone()?),
        None => None,
    };
    let found = Found {
        env,
        one: state,
        two: None,
    };
    match Program::new().work(alloc, &request, &found) {
        Worked::NewState(made, body) => {
            let mut text = line(alloc, &body)?;
            text.extend_from_slice(b"0")?;
            text.extend_from_slice(body.third.as_slice())?;
            Ok((Some(made), text))
        }
        Worked::Said(body) => Ok((None, line(alloc, &body)?)),
        _ => Ok((None, Vec::new(alloc))),
    }
}

fn move_by(alloc: Global, text: &[u8]) -> Result<Ask, AllocError> {
    Ok(Ask::Move {
        state: 0,
        goal: 0,
        text: List::from_slice(alloc, text)?,
        fuel: 100_000,
        auto: true,
    })
}

#[test]
fn a_proof(rt: HostRuntime) -> Result<(), Fail> {
    let alloc = rt.alloc();
    let empty = Environment::empty(alloc, TreeTerms::new(alloc)?)?;
    let start = Ask::Start {
        env: 0,
        expr: List::from_slice(alloc, b"(A : *) -> A -> A")?,
        fuel: 100_000,
    };
    let (mut state, found) = step(alloc, Some(&empty), None, start)?;
    let wanted: &[u8] =
        b"{\"dormant\":[],\"goals\":[{\"coupled\":[],\"goal\":0,\"target\":\"(%0 : *) -> %0 -> %0\",\"vars\":[]}],\"seq\":0,\"solved\":false,\"stateId\":0}";
    assert!(rt; found.as_slice() == wanted);
    let rows: [(&[u8], &[u8]); 3] = [
        (
            b"intro A",
            b"{\"dormant\":[],\"goals\":[{\"coupled\":[],\"goal\":1,\"target\":\"A -> A\",\"vars\":[{\"name\":\"A\",\"type\":\"*\"}]}],\"seq\":0,\"solved\":false,\"stateId\":0}",
        ),
        (
            b"intro x",
            b"{\"dormant\":[],\"goals\":[{\"coupled\":[],\"goal\":2,\"target\":\"A\",\"vars\":[{\"name\":\"A\",\"type\":\"*\"},{\"name\":\"x\",\"type\":\"A\"}]}],\"seq\":0,\"solved\":false,\"stateId\":0}",
        ),
        (
            b"exact x",
            b"{\"dormant\":[],\"goals\":[],\"seq\":0,\"solved\":true,\"stateId\":0}",
        ),
    ];
    for (text, wanted) in rows {
        let (next, found) = step(alloc, None, state, move_by(alloc, text)?)?;
        assert!(rt; found.as_slice() == wanted);
        state = next;
    }
    let (_, found) = step(alloc, None, state, Ask::Print { state: 0 })?;
    let wanted: &[u8] =
        b"{\"dormant\":[],\"goals\":[],\"seq\":0,\"solved\":true,\"term\":\"fun (%0 : *) => fun (%1 : %0) => %1\",\"type\":\"(%0 : *) -> %0 -> %0\"}";
    assert!(rt; found.as_slice() == wanted);
    Ok(())
}

//! Trees over numbers, run.

ghost use Rattle.std.specs.Prelude.{◌≡◌, false, IfOk};
ghost use Rattle.state_tree.specs.Again.{is_bad};
ghost use Rattle.state_tree.specs.Toy.{toy_value, said_body, state_body, env_body};
ghost use Rattle.state_tree.specs.Value.{Gives, value_at};
ghost use Rattle.state_tree.specs.ToyReplies.{toy_replies};

use crate::{Found, Gave, Outcome, Tree, Work, Worked, make_ready, refuse_ready};
use ld_terms::List;
use repl_json::{Ask, Body, Line, Request, bad_body};
use std::alloc::{AllocError, Global};
use std::test::Fail;

struct Toy;

fn body_of(alloc: Global, first: &[u8], second: &[u8], third: &[u8]) -> Result<Body, AllocError>
    ensures { IfOk result (λ body. body ≡ record { first = first.now; second = second.now; third = third.now; id_first = false }) }
{
    Ok(Body {
        first: List::from_slice(alloc, first)?,
        second: List::from_slice(alloc, second)?,
        third: List::from_slice(alloc, third)?,
        id_first: false,
    })
}

#[tactic(auto, unfolding(crate::specs::Toy::said_body))]
fn say(alloc: Global) -> Result<Body, AllocError>
    ensures { IfOk result (λ body. body ≡ said_body) }
{
    body_of(alloc, b"{\"seq\":", b"}", b"")
}

#[tactic(auto, unfolding(crate::specs::Toy::state_body))]
fn say_state(alloc: Global) -> Result<Body, AllocError>
    ensures { IfOk result (λ body. body ≡ state_body) }
{
    body_of(alloc, b"{\"seq\":", b",\"stateId\":", b"}")
}

#[tactic(auto, unfolding(crate::specs::Toy::env_body))]
fn say_env(alloc: Global) -> Result<Body, AllocError>
    ensures { IfOk result (λ body. body ≡ env_body) }
{
    let mut body = body_of(alloc, b"{\"envId\":", b",\"seq\":", b"}")?;
    body.id_first = true;
    Ok(body)
}

fn try_work(
    alloc: Global,
    ask: &Ask,
    found: &Found<u64, u64>,
) -> Result<Worked<u64, u64>, AllocError>
    ensures { IfOk result (λ worked. Gives (value_at toy_value ask.now found.now) worked) }
{
    match ask {
        Ask::Bad(bad) => Ok(Worked::Said(bad_body(alloc, bad)?)),
        Ask::Start { fuel, .. } => Ok(Worked::NewState(*fuel, say_state(alloc)?)),
        Ask::EnvAdd { fuel, .. } => Ok(Worked::NewEnv(*fuel, say_env(alloc)?)),
        Ask::Move { goal, .. } => match found.one {
            Some(n) if n < 1_000_000 && *goal < 1_000_000 => {
                Ok(Worked::NewState(n + *goal, say_state(alloc)?))
            }
            _ => Ok(Worked::Said(say(alloc)?)),
        },
        _ => Ok(Worked::Said(say(alloc)?)),
    }
}

impl Work for Toy {
    type Env = u64;

    type State = u64;

    ghost value = { toy_value };

    fn work(&self, alloc: Global, request: &Request, found: &Found<u64, u64>) -> Worked<u64, u64> {
        match try_work(alloc, &request.ask, found) {
            Ok(worked) => worked,
            Err(_) => Worked::Memory,
        }
    }

    ghost replies = { toy_replies };

    ghost env_clones = { λ x y h. h };

    ghost state_clones = { λ x y h. h };
}

fn request(ask: Ask) -> Request
    ensures { result.ask ≡ ask }
{
    Request { after: 0, ask }
}

fn start(alloc: Global) -> Ask
    ensures { is_bad result ≡ false }
{
    Ask::Start {
        env: 0,
        expr: List::of(Vec::new(alloc)),
        fuel: 3,
    }
}

/// Looks a request up, does its work and enters it.
#[tactic(auto, using(crate::proofs::Looks::holds_found))]
fn enter(alloc: Global, tree: &mut Tree<Toy>, ask: Ask) -> Result<Outcome<Toy>, AllocError>
    requires { is_bad ask ≡ false }
{
    let request = request(ask);
    let found = tree.look(&request)?;
    let ready = make_ready(alloc, &Toy, request, found);
    Ok(tree.enter(0, ready))
}

#[test]
fn deletes(rt: HostRuntime) -> Result<(), Fail> {
    let alloc = rt.alloc();
    let mut tree = Tree::<Toy>::open(alloc, 7, 10)?;
    let made = enter(alloc, &mut tree, start(alloc))?;
    assert!(rt;
        matches!(
            &made,
            Outcome::Entered(Line::Given {
                seq: 0,
                id: Some(0),
                ..
            })
        )
    );
    let deleted = enter(alloc, &mut tree, Ask::Delete { state: 0 })?;
    assert!(rt; matches!(&deleted, Outcome::Entered(Line::Deleted { id: 0, seq: 1 })));
    let printed = enter(alloc, &mut tree, Ask::Print { state: 0 })?;
    assert!(rt;
        matches!(
            &printed,
            Outcome::Entered(Line::UnknownState { id: 0, seq: 2 })
        )
    );
    let reset = enter(alloc, &mut tree, Ask::Reset)?;
    assert!(rt; matches!(&reset, Outcome::Entered(Line::Reset { deleted: 0, seq: 3 })));
    let stat = enter(alloc, &mut tree, Ask::Stat)?;
    assert!(rt;
        matches!(
            &stat,
            Outcome::Entered(Line::Stat {
                envs: 1,
                live: 0,
                seq: 4,
                states: 1
            })
        )
    );
    Ok(())
}

#[test]
fn full(rt: HostRuntime) -> Result<(), Fail> {
    let alloc = rt.alloc();
    let mut tree = Tree::<Toy>::open(alloc, 7, 1)?;
    let refused = tree.enter(5, refuse_ready(request(Ask::Print { state: 0 })));
    assert!(rt;
        matches!(
            &refused,
            Outcome::Entered(Line::UnknownState { id: 0, seq: 0 })
        )
    );
    let full = enter(alloc, &mut tree, Ask::Stat)?;
    assert!(rt; matches!(&full, Outcome::Full { entries: 1 }));
    assert_eq!(rt; tree.length(), 1);
    let journal = tree.into_journal();
    assert!(rt; journal[0].pass == 5 && journal[0].gave == Gave::Answer);
    Ok(())
}

#[test]
fn looks_again(rt: HostRuntime) -> Result<(), Fail> {
    let alloc = rt.alloc();
    let mut tree = Tree::<Toy>::open(alloc, 7, 10)?;
    let print = request(Ask::Print { state: 0 });
    let early = tree.look(&print)?;
    let late = make_ready(alloc, &Toy, print, early);
    assert!(rt; late.refused());
    let first = request(start(alloc));
    let found = tree.look(&first)?;
    let made = tree.enter(0, make_ready(alloc, &Toy, first, found));
    assert!(rt; matches!(&made, Outcome::Entered(_)));
    match tree.enter(1, late) {
        Outcome::Again { ready, id } => {
            assert_eq!(rt; id, 0);
            let request = ready.into_request();
            let found = tree.look(&request)?;
            let printed = tree.enter(1, make_ready(alloc, &Toy, request, found));
            assert!(rt;
                matches!(
                    &printed,
                    Outcome::Entered(Line::Given {
                        seq: 1,
                        id: None,
                        ..
                    })
                )
            );
        }
        _ => panic!(rt; "no Again"),
    }
    Ok(())
}

fn crosses<T: Send + Sync>(_it: &T) {}

#[test]
fn crosses_threads(rt: HostRuntime) -> Result<(), Fail> {
    let alloc = rt.alloc();
    crosses(&Tree::<Toy>::open(alloc, 7, 1)?);
    crosses(&refuse_ready::<Toy>(request(Ask::Stat)));
    Ok(())
}

//! What stands in the way of a request.

ghost use Rattle.std.specs.Prelude.{◌≡◌};
ghost use Rattle.state_tree.specs.Again.{env_check as env_check_of, state_check as state_check_of};
ghost use Rattle.state_tree.specs.Holdings.{check_of, plain};

use crate::holdings::Holdings;
use crate::slot::Slot;
use repl_json::{Ask, Line, Request};

/// Which of the ids that a request names count as found.
#[derive(Debug, Clone, Copy, PartialEq, Eq, Drop)]
pub struct Known {
    pub env: bool,
    pub one: bool,
    pub two: bool,
}

/// What stands in the way at an id: nothing, it isn't usable, or the look missed what is made now.
#[derive(Debug, Clone, Copy, PartialEq, Eq, Drop)]
pub enum IdCheck {
    Usable,
    Gone(u64),
    Missed(u64),
}

/// What a request comes to before its command is read: the id is to be looked for again, it has this reply, or nothing stands in
/// its way.
#[derive(Drop)]
pub enum Check {
    Again(u64),
    Early(Line),
    Open,
}

pub fn env_check(count: usize, named: Option<u64>, found: bool) -> IdCheck
    ensures { result ≡ env_check_of count named found }
{
    match named {
        None => IdCheck::Usable,
        Some(id) if id >= count as u64 => IdCheck::Gone(id),
        Some(_) if found => IdCheck::Usable,
        Some(id) => IdCheck::Missed(id),
    }
}

pub fn state_check<S>(slots: &[Slot<S>], named: Option<u64>, found: bool) -> IdCheck
    ensures { result ≡ state_check_of slots.now named found }
{
    let Some(id) = named else {
        return IdCheck::Usable;
    };
    match slots.get(id as usize) {
        None => IdCheck::Gone(id),
        Some(_) if !found => IdCheck::Missed(id),
        Some(slot) if slot.live => IdCheck::Usable,
        Some(_) => IdCheck::Gone(id),
    }
}

/// Tests a request in the order of the server's cases.
pub fn check_request<E, S>(holdings: &Holdings<E, S>, request: &Request, known: Known) -> Check
    ensures { result ≡ check_of (plain holdings.now) request.now known }
{
    let ask = &request.ask;
    if let Ask::Bad(_) = ask {
        return Check::Open;
    }
    let seq = holdings.journal.len() as u64;
    if seq < request.after {
        return Check::Early(Line::Ahead { length: seq, seq });
    }
    match env_check(holdings.envs.len(), ask.env_named(), known.env) {
        IdCheck::Missed(id) => return Check::Again(id),
        IdCheck::Gone(id) => return Check::Early(Line::UnknownEnv { id, seq }),
        IdCheck::Usable => {}
    }
    match state_check(&holdings.states, ask.one_named(), known.one) {
        IdCheck::Missed(id) => return Check::Again(id),
        IdCheck::Gone(id) => return Check::Early(Line::UnknownState { id, seq }),
        IdCheck::Usable => {}
    }
    match state_check(&holdings.states, ask.two_named(), known.two) {
        IdCheck::Missed(id) => Check::Again(id),
        IdCheck::Gone(id) => Check::Early(Line::UnknownState { id, seq }),
        IdCheck::Usable => Check::Open,
    }
}

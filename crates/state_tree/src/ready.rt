//! Requests with their results.

ghost use Rattle.std.specs.Prelude.{◌≡◌, ◌&&◌, true, false};
ghost use Rattle.state_tree.specs.Again.{is_bad};
ghost use Rattle.state_tree.specs.Holdings.{plain, check_of};
ghost use Rattle.state_tree.specs.Prepared.{IsPrepared, is_refused, nothing, known_by, is_flag, has_part, has_all as has_all_of};
ghost use Rattle.state_tree.specs.Value.{Gives, value_at};

use crate::check::{Check, Known, check_request};
use crate::holdings::Holdings;
use crate::work::{Found, Work, Worked};
use repl_json::{Ask, Request};
use std::alloc::Global;
use std::marker::Model;

/// A request with what was found of the things it names, and the result of its work. The result is the value of the request on what
/// was found, or want of memory.
///
/// Contracts see the request, what was found, whether the request was given up without a look, and the result.
#[derive(Drop)]
pub struct Ready<W: Work> {
    request: Request,
    found: Found<W::Env, W::State>,
    given_up: bool,
    worked: Worked<W::Env, W::State>,
}

impl<W: Work> Model for Ready<W> {
    ghost use Rattle.std.specs.Prelude.{◌≡◌, true};
    ghost use Rattle.state_tree.specs.Prepared.{Prepared, IsPrepared};

    ghost Value = { Prepared W.Env W.State };

    ghost view = { λ s. record { request = s.request; found = s.found; given_up = s.given_up; worked = s.worked } };

    ghost invariant = { λ s. IsPrepared W.value (record { request = s.request; found = s.found; given_up = s.given_up; worked = s.worked }) };
}

/// Whether each id that is named was found.
fn has_all<E, S>(ask: &Ask, found: &Found<E, S>) -> bool
    ensures { result ≡ has_all_of ask.now found.now }
{
    (ask.env_named().is_none() || found.env.is_some())
        && (ask.one_named().is_none() || found.one.is_some())
        && (ask.two_named().is_none() || found.two.is_some())
}

/// Does the work where all was found and there is work to do.
fn work_on<W: Work>(
    alloc: Global,
    work: &W,
    request: &Request,
    found: &Found<W::Env, W::State>,
) -> Worked<W::Env, W::State>
    ensures gives { Gives (value_at W.value request.now.ask found.now) result }
    ensures flag { is_flag request.now.ask ≡ true → result ≡ Worked.Memory }
    ensures missed { has_all_of request.now.ask found.now ≡ false → result ≡ Worked.Memory }
{
    match &request.ask {
        Ask::Delete { .. } | Ask::Reset | Ask::Stat => Worked::Memory,
        ask if !has_all(ask, found) => Worked::Memory,
        _ => work.work(alloc, request, found),
    }
}

/// Does the work of a request on what a look found. Want of memory is a result too.
///
/// No work runs where an id that the request names wasn't found, or for `goal.delete`, `reset` and `stat`; the result is then want of
/// memory, which entering doesn't read.
pub fn make_ready<W: Work>(
    alloc: Global,
    work: &W,
    request: Request,
    found: Found<W::Env, W::State>,
) -> Ready<W>
    ensures request { result.request ≡ request }
    ensures found { result.found ≡ found }
    ensures given_up { result.given_up ≡ false }
    ensures flag { is_flag request.ask ≡ true → is_refused result ≡ true }
    ensures missed { has_all_of request.ask found ≡ false → is_refused result ≡ true }
    ensures prepared { IsPrepared W.value result }
{
    let worked = work_on(alloc, work, &request, &found);
    Ready {
        request,
        found,
        given_up: false,
        worked,
    }
}

/// Gives a request up for want of memory, without a look. Its result is want of memory, and each id that it names counts as found.
/// Takes no memory.
pub fn refuse_ready<W: Work>(request: Request) -> Ready<W>
    // A request that its line alone decides isn't answered by want of memory.
    requires { is_bad request.ask ≡ false }
    ensures request { result.request ≡ request }
    ensures found { result.found ≡ nothing }
    ensures given_up { result.given_up ≡ true }
    ensures refused { is_refused result ≡ true }
    ensures prepared { IsPrepared W.value result }
{
    Ready {
        request,
        found: Found {
            env: None,
            one: None,
            two: None,
        },
        given_up: true,
        worked: Worked::Memory,
    }
}

impl<W: Work> Ready<W> {
    /// Whether the result is want of memory. Takes no memory.
    pub fn refused(&self) -> bool
        ensures { result ≡ is_refused self.now }
    {
        matches!(&self.worked, Worked::Memory)
    }

    /// The request alone. Takes no memory.
    pub fn into_request(self) -> Request
        ensures { result ≡ self.request }
    {
        self.request
    }

    /// What stands in its way in a tree that holds these.
    pub(crate) fn check(&self, holdings: &Holdings<W::Env, W::State>) -> Check
        ensures check { result ≡ check_of (plain holdings.now) self.now.request (known_by self.now) }
        ensures prepared { IsPrepared W.value self.now }
    {
        let known = if self.given_up {
            Known {
                env: true,
                one: true,
                two: true,
            }
        } else {
            Known {
                env: self.found.env.is_some(),
                one: self.found.one.is_some(),
                two: self.found.two.is_some(),
            }
        };
        check_request(holdings, &self.request, known)
    }

    /// The request and its result.
    pub(crate) fn into_parts(self) -> (Request, Worked<W::Env, W::State>)
        ensures { result ≡ (self.request, self.worked) }
    {
        (self.request, self.worked)
    }
}

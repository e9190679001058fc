//! The making ready of one request, as a job that any worker may run.

ghost use Rattle.std.specs.Prelude.{◌≡◌, true, false, is_some, IfOk, OnOk, IfErr};
ghost use Rattle.state_tree.specs.Again.{is_bad};
ghost use Rattle.state_tree.specs.Enters.{tree_of};
ghost use Rattle.state_tree.specs.Prepared.{is_refused};
ghost use Rattle.session_server.specs.Links.{IsLinked};
ghost use Rattle.session_server.specs.Made.{IsLooked, Makes};
ghost use Rattle.session_server.specs.Desks.{OthersComeTo, Went, Wore};

use crate::desk::Desk;
use repl_json::{Ask, Request};
use state_tree::{Found, Outcome, Ready, Work, make_ready, refuse_ready};
use std::alloc::{AllocError, Global};
use turn_lock::Worn;
use worker_gate::Job;

/// A request that was looked up and is to be made ready.
#[derive(Drop)]
pub struct Prepare<'a, W: Work> {
    alloc: Global,
    work: &'a W,
    /// The request.
    pub request: Request,
    /// What its look found; nothing where the look found no memory.
    pub found: Option<Found<W::Env, W::State>>,
    ghost looked: { is_bad request.ask ≡ true → is_some found ≡ true },
}

/// Looks a request up.
pub fn look_up<
    'a,
    W: Work,
    D: Desk<Env = W::Env, State = W::State, Ready = Ready<W>, Outcome = Outcome<W>>,
>(
    alloc: Global,
    work: &'a W,
    desk: &D,
    place: &mut D::Place,
    request: Request,
) -> Result<Prepare<'a, W>, Worn>
    requires linked { IsLinked W.value (D.meaning desk.now) (D.finds desk.now) (D.fits desk.now) (D.enters desk.now) }
    requires own { D.is_own desk.now place.old }
    ensures own { D.is_own desk.now place.new }
    ensures others { OthersComeTo (D.meaning desk.now) place.old place.new }
    ensures went { OnOk result (Went (D.meaning desk.now) place.old place.new) }
    ensures wore { IfErr result (λ worn. Wore (D.meaning desk.now) worn.turns place.old place.new) }
    ensures request { IfOk result (λ job. job.request ≡ request) }
    ensures looked { IfOk result (λ job. IsLooked (tree_of W.value ((D.meaning desk.now).view place.new)) job.request job.found) }
{
    match desk.look(place, &request) {
        Ok(found) => Ok(Prepare {
            alloc,
            work,
            request,
            found,
        }),
        Err(worn) => Err(worn),
    }
}

/// Whether its line alone decides what a request is answered.
fn is_bad(ask: &Ask) -> bool
    ensures { result ≡ is_bad ask.now }
{
    matches!(ask, Ask::Bad(_))
}

impl<'a, W: Work> Prepare<'a, W> {
    /// Does the work of the request on what was found. Where the look found no memory the request is given up.
    pub fn make(self) -> Ready<W>
        ensures { Makes W.value self.entry.request self.entry.found result }
    {
        let Prepare {
            alloc,
            work,
            request,
            found,
        } = self;
        match found {
            Some(found) => make_ready(alloc, work, request, found),
            None => refuse_ready(request),
        }
    }
}

/// Fails where memory is wanted for the reply to a line that is no request: that reply is never `memory`.
impl<'a, W: Work + Sync> Job for Prepare<'a, W>
where
    W::Env: Send,
    W::State: Send,
{
    ghost use Rattle.std.specs.Prelude.{IfOk};
    ghost use Rattle.session_server.specs.Made.{MakesFit};

    type Done = Result<Ready<W>, AllocError>;

    ghost gives = { λ job done. IfOk done (λ ready. MakesFit W.value job.request job.found ready) };

    fn run(self) -> Result<Ready<W>, AllocError> {
        let bad = is_bad(&self.request.ask);
        let ready = self.make();
        if bad && ready.refused() {
            return Err(AllocError);
        }
        Ok(ready)
    }
}

//! Sessions that run beside each other, each begun when it comes.

ghost use Rattle.std.specs.Prelude.{◌≡◌, ◌≤◌, ◌<◌, ◌+◌, ℕ, IfSome, IfNone, vec_len, vec_capacity};
ghost use Rattle.std.specs.Thread.{IsSync, IsSend};
ghost use Rattle.link_server.specs.Beside.{AreRun, HasRun};

use std::thread::{Threads, join_mut};

/// Where sessions come from, which run over what all of them share.
pub trait Queue<C, S> {
    /// How many may still come.
    ghost left: { Self → ℕ };

    /// Its sessions can run over what is shared.
    ghost fits: { C → Self → Type 0 };

    /// The name of what it borrows.
    ghost borrows: { Self → ℕ };

    /// A session can run.
    ghost can_run: { C → S → Type 0 };

    /// It gave this session.
    ghost gives: { Self → S → Self → Type 0 };

    /// It gives no more.
    ghost ends: { Self → Self → Type 0 };

    /// The next session, once it has come.
    fn next(&mut self, shared: &C) -> Option<S>
        requires fits { fits shared.now self.old }
        ensures fits { fits shared.now self.new }
        ensures same { borrows self.new ≡ borrows self.old }
        ensures fewer { IfSome result (λ session. left self.new < left self.old) }
        ensures ready { IfSome result (can_run shared.now) }
        ensures given { IfSome result (λ session. gives self.old session self.new) }
        ensures ended { IfNone result (ends self.old self.new) };
}

/// Runs a session in its place.
fn run_in_place<C, S: Drop, F: Fn(&C, S) -> S>(serve: &F, shared: &C, place: &mut Option<S>)
    requires { IfSome place.old (λ session. (c : _) → c.now ≡ shared.now → F.pre serve.now c session) }
    ensures { HasRun (λ old new. (c : _) × (c.now ≡ shared.now) × F.post serve.now c old new) place.old place.new }
{
    if let Some(session) = place.take() {
        *place = Some(serve(shared, session));
    }
}

/// Runs a session, on a thread of its own where one can be made and else last, and beside it all that are still to come.
#[cycle(sessions)]
fn run_beside<R: Threads + Sync, C: Sync, S: Send + Drop, Q: Queue<C, S>, F: Fn(&C, S) -> S + Sync>(
    rt: &R,
    shared: &C,
    queue: &mut Q,
    place: &mut Option<S>,
    done: &mut Vec<S>,
    serve: &F,
)
    requires ready { IfSome place.old (Q.can_run shared.now) }
    requires fits { Q.fits shared.now queue.old }
    requires room { vec_len done.old + Q.left queue.old ≤ vec_capacity done.old }
    requires runs { (c : _) (session : S) → c.now ≡ shared.now → Q.can_run shared.now session → F.pre serve.now c session }
    ensures ran { HasRun (λ old new. (c : _) × (c.now ≡ shared.now) × F.post serve.now c old new) place.old place.new }
    ensures all { AreRun Q.gives (λ old new. (c : _) × (c.now ≡ shared.now) × F.post serve.now c old new) Q.ends queue.old queue.new done.old.items done.new.items }
    ensures count { vec_len done.new ≤ vec_len done.old + Q.left queue.old }
    ensures capacity { vec_capacity done.new ≡ vec_capacity done.old }
    ensures same { Q.borrows queue.new ≡ Q.borrows queue.old }
{
    join_mut(
        rt,
        &mut ||
            requires { IfSome place.now (λ session. (c : _) → c.now ≡ shared.now → F.pre serve.now c session) }
            ensures { HasRun (λ old new. (c : _) × (c.now ≡ shared.entry.now) × F.post serve.entry.now c old new) place.entry.now place.exit.now }
        { run_in_place(serve, shared, place) },
        &mut ||
            requires { IsSync R.row × IsSync C.row × IsSend S.row × IsSync F.row × Q.fits shared.now queue.now × (vec_len done.now + Q.left queue.now ≤ vec_capacity done.now)
                × ((c : _) (session : S) → c.now ≡ shared.now → Q.can_run shared.now session → F.pre serve.now c session) }
            ensures { AreRun Q.gives (λ old new. (c : _) × (c.now ≡ shared.entry.now) × F.post serve.entry.now c old new) Q.ends queue.entry.now queue.exit.now done.entry.now.items done.exit.now.items
                × (vec_len done.exit.now ≤ vec_len done.entry.now + Q.left queue.entry.now) × (vec_capacity done.exit.now ≡ vec_capacity done.entry.now)
                × (Q.borrows queue.exit.now ≡ Q.borrows queue.entry.now) }
        { run_all(rt, shared, queue, done, serve) },
    );
}

/// Runs all sessions of a queue, each begun when it comes. All have ended when this returns; the one that came first is then the last.
#[cycle(sessions)]
pub fn run_all<
    R: Threads + Sync,
    C: Sync,
    S: Send + Drop,
    Q: Queue<C, S>,
    F: Fn(&C, S) -> S + Sync,
>(rt: &R, shared: &C, queue: &mut Q, done: &mut Vec<S>, serve: &F)
    requires fits { Q.fits shared.now queue.old }
    requires room { vec_len done.old + Q.left queue.old ≤ vec_capacity done.old }
    // A session that can run can be served, and what serving may give is what it has done.
    requires runs { (c : _) (session : S) → c.now ≡ shared.now → Q.can_run shared.now session → F.pre serve.now c session }
    ensures all { AreRun Q.gives (λ old new. (c : _) × (c.now ≡ shared.now) × F.post serve.now c old new) Q.ends queue.old queue.new done.old.items done.new.items }
    ensures count { vec_len done.new ≤ vec_len done.old + Q.left queue.old }
    ensures capacity { vec_capacity done.new ≡ vec_capacity done.old }
    ensures same { Q.borrows queue.new ≡ Q.borrows queue.old }
{
    if let Some(session) = queue.next(shared) {
        let mut place = Some(session);
        run_beside(rt, shared, queue, &mut place, done, serve);
        if let Some(session) = place {
            done.push_reserved(session);
        }
    }
}

//! The requests of a line are answered.

ghost use Rattle.std.specs.Prelude.{◌≡◌, ℕ, ◌≤◌, ◌<◌, List, Err, length, is_some};
ghost use Rattle.pan_io.specs.Faults.{Rose};
ghost use Rattle.session_server.specs.Links.{IsLinked};
ghost use Rattle.session_server.specs.Input.{requests_of_line};
ghost use Rattle.session_server.specs.Answers.{AnswersLine};
ghost use Rattle.session_server.specs.Desks.{GoesBy};

use crate::answer::{Halt, enter_all};
use crate::desk::Desk;
use crate::prepare::prepare_all;
use crate::workers::Workers;
use pan_io::Sink;
use repl_json::{Ask, Bad, Request, is_blank_line, read_request};
use state_tree::{Outcome, Ready, Work};
use std::thread::Threads;
use worker_gate::Gate;

/// Makes the requests of a line ready, and then enters them.
fn answer_requests<
    R: Threads + Sync,
    W: Work + Sync,
    D: Desk<Env = W::Env, State = W::State, Ready = Ready<W>, Outcome = Outcome<W>>,
    K: Sink,
    G: Gate,
>(
    workers: &Workers<'_, R, W, G>,
    desk: &D,
    place: &mut D::Place,
    requests: Vec<Request>,
    sink: &mut K,
) -> Result<(), Halt>
where
    W::Env: Send,
    W::State: Send,
    requires linked { IsLinked W.value (D.meaning desk.now) (D.finds desk.now) (D.fits desk.now) (D.enters desk.now) }
    requires own { D.is_own desk.now place.old }
    ensures own { D.is_own desk.now place.new }
    ensures goes { GoesBy (D.meaning desk.now) place.old place.new result }
    ensures answers { AnswersLine W.value (D.meaning desk.now).alone (D.meaning desk.now).pass ((D.meaning desk.now).view place.old) ((D.meaning desk.now).view place.new) (K.taken sink.old) (K.taken sink.new) requests.items result }
    ensures tells { is_some (K.taken sink.new) ≡ is_some (K.taken sink.old) }
    ensures later { K.faults sink.old ≤ K.faults sink.new }
    ensures rose { result ≡ Err Halt.Write → Rose (K.faults sink.old) (K.faults sink.new) }
{
    match prepare_all(workers, desk, place, requests) {
        Ok(readies) => enter_all(workers.alloc, workers.work, desk, place, readies, sink),
        Err(halt) => Err(halt),
    }
}

/// Answers a line that was kept whole.
#[tactic(auto, unfolding(crate::specs::Input::requests_of_line), using(crate::proofs::AnswerLemmas::answered_none, crate::proofs::GoingLemmas::went_none))]
pub fn answer_line<
    R: Threads + Sync,
    W: Work + Sync,
    D: Desk<Env = W::Env, State = W::State, Ready = Ready<W>, Outcome = Outcome<W>>,
    K: Sink,
    G: Gate,
>(
    workers: &Workers<'_, R, W, G>,
    desk: &D,
    place: &mut D::Place,
    line: &[u8],
    sink: &mut K,
) -> Result<(), Halt>
where
    W::Env: Send,
    W::State: Send,
    requires linked { IsLinked W.value (D.meaning desk.now) (D.finds desk.now) (D.fits desk.now) (D.enters desk.now) }
    requires own { D.is_own desk.now place.old }
    requires length { length line.now ≤ 65536 }
    ensures own { D.is_own desk.now place.new }
    ensures goes { GoesBy (D.meaning desk.now) place.old place.new result }
    ensures answers { AnswersLine W.value (D.meaning desk.now).alone (D.meaning desk.now).pass ((D.meaning desk.now).view place.old) ((D.meaning desk.now).view place.new) (K.taken sink.old) (K.taken sink.new) (requests_of_line line.now) result }
    ensures tells { is_some (K.taken sink.new) ≡ is_some (K.taken sink.old) }
    ensures later { K.faults sink.old ≤ K.faults sink.new }
    ensures rose { result ≡ Err Halt.Write → Rose (K.faults sink.old) (K.faults sink.new) }
{
    if is_blank_line(line) {
        return Ok(());
    }
    let Ok(requests) = read_request(workers.alloc, line) else {
        return Err(Halt::Memory);
    };
    answer_requests(workers, desk, place, requests.into_vec(), sink)
}

/// Answers a line of this many bytes, which is too long to be read.
#[tactic(auto, unfolding(crate::specs::Input::requests_of_line), using(crate::proofs::AnswerLemmas::answered_none, crate::proofs::GoingLemmas::went_none))]
pub fn answer_long<
    R: Threads + Sync,
    W: Work + Sync,
    D: Desk<Env = W::Env, State = W::State, Ready = Ready<W>, Outcome = Outcome<W>>,
    K: Sink,
    G: Gate,
>(
    workers: &Workers<'_, R, W, G>,
    desk: &D,
    place: &mut D::Place,
    len: u64,
    sink: &mut K,
) -> Result<(), Halt>
where
    W::Env: Send,
    W::State: Send,
    requires linked { IsLinked W.value (D.meaning desk.now) (D.finds desk.now) (D.fits desk.now) (D.enters desk.now) }
    requires own { D.is_own desk.now place.old }
    requires length { 65536 < len }
    ensures own { D.is_own desk.now place.new }
    ensures goes { GoesBy (D.meaning desk.now) place.old place.new result }
    ensures answers { (line : List ℕ) → length line ≡ len →
        AnswersLine W.value (D.meaning desk.now).alone (D.meaning desk.now).pass ((D.meaning desk.now).view place.old) ((D.meaning desk.now).view place.new) (K.taken sink.old) (K.taken sink.new) (requests_of_line line) result }
    ensures tells { is_some (K.taken sink.new) ≡ is_some (K.taken sink.old) }
    ensures later { K.faults sink.old ≤ K.faults sink.new }
    ensures rose { result ≡ Err Halt.Write → Rose (K.faults sink.old) (K.faults sink.new) }
{
    let ask = Ask::Bad(Bad::LineTooLong { length: len });
    let Ok(requests) = vec![in workers.alloc; Request { after: 0, ask }] else {
        return Err(Halt::Memory);
    };
    answer_requests(workers, desk, place, requests, sink)
}

//! The loop over the lines of an input.

ghost use Rattle.std.specs.Prelude.{◌≡◌, ◌<◌, ◌≤◌, ◌^◌, List, ℕ, length, Option, ◌⊎◌, is_some};
ghost use Rattle.pan_io.specs.Faults.{Rose};
ghost use Rattle.state_tree.specs.TreeModel.{TreeModel};
ghost use Rattle.session_server.specs.Links.{IsLinked};
ghost use Rattle.session_server.specs.PassSession.{Serves};
ghost use Rattle.session_server.specs.Desks.{GoesStep, GoesTo};
ghost use Rattle.session_server.specs.Progress.{Runs, Steps, step_of};

use crate::answer::Halt;
use crate::desk::Desk;
use crate::line::{answer_line, answer_long};
use crate::workers::Workers;
use pan_io::{Lines, Sink, Source, Stop, Taken};
use state_tree::{Outcome, Ready, Work};
use std::thread::Threads;
use worker_gate::Gate;

/// How a session ended.
#[derive(Debug, Clone, Copy, PartialEq, Eq, Drop)]
pub enum End {
    /// The input was read to its end and every reply was written.
    Done,
    /// The source failed.
    ReadFault,
    /// The sink failed.
    WriteFault,
    /// The journal holds all its entries, and a further request was to be entered.
    Full { entries: u32 },
    /// All turns of the lock were drawn. Only a session over a board ends so.
    Worn { turns: u64 },
    /// The session took this many bytes, and the source gave a further one.
    Long { bytes: u64 },
    /// Memory was wanted to read a line or to make its requests ready; nothing of that line was entered.
    Memory,
}

/// The session goes on, or it has ended.
#[derive(Debug, Clone, Copy, PartialEq, Eq, Drop)]
pub enum Step {
    Next,
    Stop(End),
}

fn settle(answered: Result<(), Halt>) -> Step
    ensures { result ≡ step_of answered }
{
    match answered {
        Ok(()) => Step::Next,
        Err(Halt::Write) => Step::Stop(End::WriteFault),
        Err(Halt::Full { entries }) => Step::Stop(End::Full { entries }),
        Err(Halt::Worn { turns }) => Step::Stop(End::Worn { turns }),
        Err(Halt::Memory) => Step::Stop(End::Memory),
    }
}

/// Takes a line and answers it.
fn answer_next<
    R: Threads + Sync,
    W: Work + Sync,
    D: Desk<Env = W::Env, State = W::State, Ready = Ready<W>, Outcome = Outcome<W>>,
    S: Source,
    K: Sink,
    G: Gate,
>(
    workers: &Workers<'_, R, W, G>,
    desk: &D,
    place: &mut D::Place,
    lines: &mut Lines,
    source: &mut S,
    sink: &mut K,
) -> Step
where
    W::Env: Send,
    W::State: Send,
    requires linked { IsLinked W.value (D.meaning desk.now) (D.finds desk.now) (D.fits desk.now) (D.enters desk.now) }
    requires own { D.is_own desk.now place.old }
    ensures own { D.is_own desk.now place.new }
    ensures goes { GoesStep (D.meaning desk.now) place.old place.new result }
    ensures step { (start out : Option (List ℕ)) (first : TreeModel W.Env) →
        Runs W.value (D.meaning desk.now).alone (D.meaning desk.now).pass start (S.left source.old) first ((D.meaning desk.now).view place.old) out (K.taken sink.old) lines.old →
        Steps W.value (D.meaning desk.now).alone (D.meaning desk.now).pass start (S.left source.new) first ((D.meaning desk.now).view place.new) out (K.taken sink.new) lines.old lines.new result }
    ensures most { lines.new.used ≤ 2 ^ 40 }
    ensures tells_in { is_some (S.left source.new) ≡ is_some (S.left source.old) }
    ensures tells_out { is_some (K.taken sink.new) ≡ is_some (K.taken sink.old) }
    ensures later_in { S.faults source.old ≤ S.faults source.new }
    ensures later_out { K.faults sink.old ≤ K.faults sink.new }
    ensures read { result ≡ Step.Stop End.ReadFault → Rose (S.faults source.old) (S.faults source.new)
        ⊎ (lines.old.stop ≡ Stop.Faulted) }
    ensures write { result ≡ Step.Stop End.WriteFault → Rose (K.faults sink.old) (K.faults sink.new) }
{
    match lines.take(source) {
        Taken::Line => settle(answer_line(workers, desk, place, lines.line(), sink)),
        Taken::TooLong(len) => settle(answer_long(workers, desk, place, len, sink)),
        Taken::End => Step::Stop(End::Done),
        Taken::ReadFault => Step::Stop(End::ReadFault),
        Taken::Long(bytes) => Step::Stop(End::Long { bytes }),
    }
}

/// Answers the requests of an input, until the input ends or the session can't go on.
pub fn run<
    R: Threads + Sync,
    W: Work + Sync,
    D: Desk<Env = W::Env, State = W::State, Ready = Ready<W>, Outcome = Outcome<W>>,
    S: Source,
    K: Sink,
    G: Gate,
>(
    workers: &Workers<'_, R, W, G>,
    desk: &D,
    place: &mut D::Place,
    source: &mut S,
    sink: &mut K,
) -> End
where
    W::Env: Send,
    W::State: Send,
    requires linked { IsLinked W.value (D.meaning desk.now) (D.finds desk.now) (D.fits desk.now) (D.enters desk.now) }
    requires own { D.is_own desk.now place.old }
    ensures own { D.is_own desk.now place.new }
    ensures goes { GoesTo (D.meaning desk.now) place.old place.new result }
    ensures serves { Serves W.value (D.meaning desk.now).alone (D.meaning desk.now).pass (S.left source.old) (S.left source.new)
        ((D.meaning desk.now).view place.old) ((D.meaning desk.now).view place.new) (K.taken sink.old) (K.taken sink.new) result }
    ensures read { result ≡ End.ReadFault → Rose (S.faults source.old) (S.faults source.new) }
    ensures write { result ≡ End.WriteFault → Rose (K.faults sink.old) (K.faults sink.new) }
    ensures tells_in { is_some (S.left source.new) ≡ is_some (S.left source.old) }
    ensures tells_out { is_some (K.taken sink.new) ≡ is_some (K.taken sink.old) }
    ensures later_in { S.faults source.old ≤ S.faults source.new }
    ensures later_out { K.faults sink.old ≤ K.faults sink.new }
{
    let Ok(mut lines) = Lines::new(workers.alloc) else {
        return End::Memory;
    };
    'lines: loop {
        match answer_next(workers, desk, place, &mut lines, source, sink) {
            Step::Next => {}
            Step::Stop(end) => return end,
        }
    }
}

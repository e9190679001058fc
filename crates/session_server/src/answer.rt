//! Prepared requests are entered, and their replies written.

ghost use Rattle.std.specs.Prelude.{◌≡◌, ◌≤◌, ◌<◌, Err, [], ◌∷◌, vec_len, OnOk, OnErr, IfSome, IfNone, is_some};
ghost use Rattle.std.specs.Io.KnownBytes.{Appends};
ghost use Rattle.pan_io.specs.Faults.{Rose, HasCause};
ghost use Rattle.pan_io.specs.Put.{AppendsPrefix};
ghost use Rattle.repl_json.specs.Reply.{text};
ghost use Rattle.state_tree.specs.Enters.{tree_of};
ghost use Rattle.session_server.specs.Links.{IsLinked};
ghost use Rattle.session_server.specs.Answers.{Answers, IsReplied, Tries, IsFit, AreFit, requests_in_readies};
ghost use Rattle.session_server.specs.Desks.{GoesBy};

use crate::desk::Desk;
use crate::prepare::prepare;
use pan_io::{Failed, Sink};
use repl_json::{Line, finish_line};
use state_tree::{Outcome, Ready, Work};
use std::alloc::Global;

/// Why requests were not answered.
#[derive(Debug, Clone, Copy, PartialEq, Eq, Drop)]
pub enum Halt {
    /// The sink failed in a reply.
    Write,
    /// The journal holds all its entries.
    Full { entries: u32 },
    /// All turns of the lock were drawn.
    Worn { turns: u64 },
    /// There was no memory to make a line's requests ready.
    Memory,
}

/// What one try to enter a request comes to.
#[derive(Drop)]
pub enum Tried<W: Work> {
    /// It is the newest entry, with this reply.
    Entered(Line),
    /// Its look had missed what was made meanwhile. It was looked up again.
    Missed(Ready<W>),
}

/// Writes a reply and sends it off. Takes no memory.
pub fn send<K: Sink>(line: &Line, sink: &mut K) -> Result<(), Failed>
    ensures ok { OnOk result (Appends (K.taken sink.old) (K.taken sink.new) (text line.now)) }
    ensures failed { OnErr result (AppendsPrefix (K.taken sink.old) (K.taken sink.new) (text line.now)) }
    ensures tells { is_some (K.taken sink.new) ≡ is_some (K.taken sink.old) }
    ensures cause { HasCause (K.faults sink.old) (K.faults sink.new) result }
{
    finish_line(line, sink)?;
    sink.flush()
}

/// Enters a prepared request, or looks it up again.
fn enter_once<
    W: Work,
    D: Desk<Env = W::Env, State = W::State, Ready = Ready<W>, Outcome = Outcome<W>>,
>(
    alloc: Global,
    work: &W,
    desk: &D,
    place: &mut D::Place,
    ready: Ready<W>,
) -> Result<Tried<W>, Halt>
    requires linked { IsLinked W.value (D.meaning desk.now) (D.finds desk.now) (D.fits desk.now) (D.enters desk.now) }
    requires own { D.is_own desk.now place.old }
    requires fit { IsFit (tree_of W.value ((D.meaning desk.now).view place.old)) ready }
    ensures own { D.is_own desk.now place.new }
    ensures goes { GoesBy (D.meaning desk.now) place.old place.new result }
    ensures tried { Tries W.value (D.meaning desk.now).alone (D.meaning desk.now).pass ((D.meaning desk.now).view place.old) ((D.meaning desk.now).view place.new) ready result }
{
    match desk.enter(place, ready) {
        Ok(Outcome::Entered(line)) => Ok(Tried::Entered(line)),
        Ok(Outcome::Full { entries }) => Err(Halt::Full { entries }),
        Ok(Outcome::Again { ready, .. }) => {
            match prepare(alloc, work, desk, place, ready.into_request()) {
                Ok(again) => Ok(Tried::Missed(again)),
                Err(worn) => Err(Halt::Worn { turns: worn.turns }),
            }
        }
        Err(worn) => Err(Halt::Worn { turns: worn.turns }),
    }
}

/// Enters a prepared request. What a look missed is looked up again: at most once for each id that the request names, since what was
/// made stays made.
fn enter_prepared<
    W: Work,
    D: Desk<Env = W::Env, State = W::State, Ready = Ready<W>, Outcome = Outcome<W>>,
>(alloc: Global, work: &W, desk: &D, place: &mut D::Place, ready: Ready<W>) -> Result<Line, Halt>
    requires linked { IsLinked W.value (D.meaning desk.now) (D.finds desk.now) (D.fits desk.now) (D.enters desk.now) }
    requires own { D.is_own desk.now place.old }
    requires fit { IsFit (tree_of W.value ((D.meaning desk.now).view place.old)) ready }
    ensures own { D.is_own desk.now place.new }
    ensures goes { GoesBy (D.meaning desk.now) place.old place.new result }
    ensures replied { IsReplied W.value (D.meaning desk.now).alone (D.meaning desk.now).pass ((D.meaning desk.now).view place.old) ((D.meaning desk.now).view place.new) ready.request result }
{
    let mut ready = ready;
    'tries: loop {
        match enter_once(alloc, work, desk, place, ready) {
            Ok(Tried::Entered(line)) => return Ok(line),
            Ok(Tried::Missed(again)) => ready = again,
            Err(halt) => return Err(halt),
        }
    }
}

/// Enters a prepared request and writes its reply.
fn enter_ready<
    W: Work,
    D: Desk<Env = W::Env, State = W::State, Ready = Ready<W>, Outcome = Outcome<W>>,
    K: Sink,
>(
    alloc: Global,
    work: &W,
    desk: &D,
    place: &mut D::Place,
    ready: Ready<W>,
    sink: &mut K,
) -> Result<(), Halt>
    requires linked { IsLinked W.value (D.meaning desk.now) (D.finds desk.now) (D.fits desk.now) (D.enters desk.now) }
    requires own { D.is_own desk.now place.old }
    requires fit { IsFit (tree_of W.value ((D.meaning desk.now).view place.old)) ready }
    ensures own { D.is_own desk.now place.new }
    ensures goes { GoesBy (D.meaning desk.now) place.old place.new result }
    ensures answers { Answers W.value (D.meaning desk.now).alone (D.meaning desk.now).pass ((D.meaning desk.now).view place.old) ((D.meaning desk.now).view place.new) (K.taken sink.old) (K.taken sink.new) (ready.request ∷ []) result }
    ensures tells { is_some (K.taken sink.new) ≡ is_some (K.taken sink.old) }
    ensures later { K.faults sink.old ≤ K.faults sink.new }
    ensures rose { result ≡ Err Halt.Write → Rose (K.faults sink.old) (K.faults sink.new) }
{
    match enter_prepared(alloc, work, desk, place, ready) {
        Ok(line) => match send(&line, sink) {
            Ok(()) => Ok(()),
            Err(_) => Err(Halt::Write),
        },
        Err(halt) => Err(halt),
    }
}

/// Takes the first of them.
fn take_first<W: Work>(readies: &mut Vec<Ready<W>>) -> Option<Ready<W>>
    ensures items { IfSome result (λ ready. readies.old.items ≡ ready ∷ readies.new.items) }
    ensures len { IfSome result (λ ready. vec_len readies.new < vec_len readies.old) }
    ensures none { IfNone result (readies.old.items ≡ []) }
{
    if readies.is_empty() {
        return None;
    }
    Some(readies.remove(0))
}

/// Enters prepared requests in their order.
pub fn enter_all<
    W: Work,
    D: Desk<Env = W::Env, State = W::State, Ready = Ready<W>, Outcome = Outcome<W>>,
    K: Sink,
>(
    alloc: Global,
    work: &W,
    desk: &D,
    place: &mut D::Place,
    readies: Vec<Ready<W>>,
    sink: &mut K,
) -> Result<(), Halt>
    requires linked { IsLinked W.value (D.meaning desk.now) (D.finds desk.now) (D.fits desk.now) (D.enters desk.now) }
    requires own { D.is_own desk.now place.old }
    requires fit { AreFit (tree_of W.value ((D.meaning desk.now).view place.old)) readies.items }
    ensures own { D.is_own desk.now place.new }
    ensures goes { GoesBy (D.meaning desk.now) place.old place.new result }
    ensures answers { Answers W.value (D.meaning desk.now).alone (D.meaning desk.now).pass ((D.meaning desk.now).view place.old) ((D.meaning desk.now).view place.new) (K.taken sink.old) (K.taken sink.new) (requests_in_readies readies.items) result }
    ensures tells { is_some (K.taken sink.new) ≡ is_some (K.taken sink.old) }
    ensures later { K.faults sink.old ≤ K.faults sink.new }
    ensures rose { result ≡ Err Halt.Write → Rose (K.faults sink.old) (K.faults sink.new) }
{
    let mut readies = readies;
    'readies: loop {
        match take_first(&mut readies) {
            Some(ready) => match enter_ready(alloc, work, desk, place, ready, sink) {
                Ok(()) => {}
                Err(halt) => return Err(halt),
            },
            None => return Ok(()),
        }
    }
}

//! A session that has a tree alone.

ghost use Rattle.std.specs.Prelude.{◌≡◌, ◌<◌, ◌≤◌, List, length, is_some};
ghost use Rattle.pan_io.specs.Faults.{Rose};
ghost use Rattle.state_tree.specs.declared.work.Entry.{Entry};
ghost use Rattle.session_server.specs.Session.{Session};
ghost use Rattle.session_server.specs.Entered.{Adds};
ghost use Rattle.session_server.specs.MemoryLines.{ShowsMemory};

use crate::desk::Alone;
use crate::run::{End, run};
use crate::workers::Workers;
use pan_io::{Sink, Source};
use state_tree::{Tree, Work};
use std::alloc::Global;
use std::marker::PhantomData;
use std::thread::Threads;
use worker_gate::Gate;

/// Answers the requests of an input, as pass 0, until the input ends or the session can't go on.
///
/// The requests of a line are made ready by 1 to 64 workers, each on a thread of its own where one can be started. The gate is told of
/// each under the number 0, by its position in its line, before its work is done.
///
/// The entries added are, in order and each once, requests of the input by the end: at `Done` all of them. What was written is the
/// replies of the one-thread server to these entries, a line each, so that the memory lines in it tell which entries say `Memory`. The
/// book and the number of entries stay.
pub fn run_session<R: Threads + Sync, W: Work + Sync, S: Source, K: Sink, G: Gate>(
    rt: &R,
    alloc: Global,
    work: &W,
    tree: &mut Tree<W>,
    workers: u32,
    source: &mut S,
    sink: &mut K,
    gate: &G,
) -> End
where
    W::Env: Send,
    W::State: Send,
    requires { (0 < workers) × (workers ≤ 64) }
    // Which entries were added and what was written, by the end. It is never `Worn`.
    ensures session { Session W.value (S.left source.old) (S.left source.new) tree.old tree.new (K.taken sink.old) (K.taken sink.new) result }
    // Which of them say `Memory`: exactly those whose lines are memory lines.
    ensures shown { (entries : List Entry) → Adds tree.old tree.new entries →
        ShowsMemory (length tree.old.journal) entries (K.taken sink.old) (K.taken sink.new) result }
    // The causes of faults.
    ensures read { result ≡ End.ReadFault → Rose (S.faults source.old) (S.faults source.new) }
    ensures write { result ≡ End.WriteFault → Rose (K.faults sink.old) (K.faults sink.new) }
    // No call changes whether an end tells its bytes, and no count falls.
    ensures tells_in { is_some (S.left source.new) ≡ is_some (S.left source.old) }
    ensures tells_out { is_some (K.taken sink.new) ≡ is_some (K.taken sink.old) }
    ensures later_in { S.faults source.old ≤ S.faults source.new }
    ensures later_out { K.faults sink.old ≤ K.faults sink.new }
{
    // The length tells that the entries are a legal history.
    let _length = tree.length();
    let workers = Workers {
        rt,
        alloc,
        work,
        count: workers,
        gate,
    };
    let end = run(&workers, &Alone { of: PhantomData }, tree, source, sink);
    let _length = tree.length();
    end
}

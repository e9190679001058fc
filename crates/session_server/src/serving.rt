//! A session over a board that many sessions share.

ghost use Rattle.std.specs.Prelude.{◌≡◌, ◌<◌, ◌≤◌, ◌++◌, List, length, is_some};
ghost use Rattle.pan_io.specs.Faults.{Rose};
ghost use Rattle.state_tree.specs.declared.work.Entry.{Entry};
ghost use Rattle.shared_board.specs.Boards.{IsBoardPassOf};
ghost use Rattle.shared_board.specs.Calls.{OnlySeesMore, tree_with};
ghost use Rattle.session_server.specs.PassSession.{PassSession};
ghost use Rattle.session_server.specs.Turns.{TurnsBy};
ghost use Rattle.session_server.specs.MemoryLines.{ShowsOwnMemory};

use crate::desk::AtBoard;
use crate::run::{End, run};
use crate::workers::Workers;
use pan_io::{Sink, Source};
use shared_board::{Board, BoardPass};
use state_tree::Work;
use std::alloc::Global;
use std::sync::Wait;
use std::thread::Threads;
use worker_gate::Gate;

/// Answers the requests of an input, as this pass of the board, until the input ends or the session can't go on. It may wait for
/// turns, and no work is done while it holds one.
///
/// The requests of a line are made ready by 1 to 64 workers, each on a thread of its own where one can be started. The gate is told of
/// each under the number of the pass, by its position in its line, before its work is done.
///
/// The view of the pass grows. The entries of the pass that it has then seen beyond the old view are, in order and each once, requests of
/// the input by the end: at `Done` all of them. All other entries there are those of other passes. What was written is the replies of the
/// one-thread server to the entries of the pass, a line each, behind all entries before them.
pub fn serve_session<R: Threads + Wait + Sync, W: Work + Sync, S: Source, K: Sink, G: Gate>(
    rt: &R,
    alloc: Global,
    work: &W,
    board: &Board<W>,
    pass: &mut BoardPass<W>,
    workers: u32,
    source: &mut S,
    sink: &mut K,
    gate: &G,
) -> End
where
    W::Env: Send,
    W::State: Send,
    requires own { IsBoardPassOf W.value board.now pass.old }
    requires workers { (0 < workers) × (workers ≤ 64) }
    // The pass is still the board's, and only its view and its found number changed.
    ensures own { IsBoardPassOf W.value board.now pass.new }
    ensures same { OnlySeesMore pass.old pass.new }
    // Which requests the pass entered and what was written, by the end.
    ensures session { PassSession W.value pass.old.number (S.left source.old) (S.left source.new)
        (tree_with board.now.lock.the_ground pass.old.seen) (tree_with board.now.lock.the_ground pass.new.seen) (K.taken sink.old) (K.taken sink.new) result }
    // It is worn exactly where a turn was asked for after the last.
    ensures turns { TurnsBy pass.old pass.new result }
    // Which of the pass's entries say `Memory`: exactly those whose lines are memory lines.
    ensures shown { (since : List Entry) → pass.old.seen ++ since ≡ pass.new.seen →
        ShowsOwnMemory pass.old.number (length pass.old.seen) since (K.taken sink.old) (K.taken sink.new) result }
    // The causes of faults.
    ensures read { result ≡ End.ReadFault → Rose (S.faults source.old) (S.faults source.new) }
    ensures write { result ≡ End.WriteFault → Rose (K.faults sink.old) (K.faults sink.new) }
    // No call changes whether an end tells its bytes, and no count falls.
    ensures tells_in { is_some (S.left source.new) ≡ is_some (S.left source.old) }
    ensures tells_out { is_some (K.taken sink.new) ≡ is_some (K.taken sink.old) }
    ensures later_in { S.faults source.old ≤ S.faults source.new }
    ensures later_out { K.faults sink.old ≤ K.faults sink.new }
{
    let workers = Workers {
        rt,
        alloc,
        work,
        count: workers,
        gate,
    };
    let desk = AtBoard {
        rt,
        board,
        number: pass.number(),
    };
    run(&workers, &desk, pass, source, sink)
}

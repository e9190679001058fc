//! Reads up to the end of a line.

ghost use Rattle.std.specs.Prelude.{◌≡◌, ℕ, ◌≤◌, ◌<◌, List, ◌++◌, ◌^◌, All, false, length, take, slice_index, IfNone, IfSome, is_some};
ghost use Rattle.pan_io.specs.Faults.{Rose};
ghost use Rattle.pan_io.specs.Kept.{Holds};
ghost use Rattle.pan_io.specs.Cut.{Cuts};
ghost use Rattle.pan_io.specs.Text.{is_line_end};
ghost use Rattle.pan_io.specs.Waiting.{UsesRun};

use crate::draft::Draft;
use crate::input::{Input, Ready};
use crate::source::Source;

/// Where a line ends: at its line end, at the end of the input, or not yet.
#[derive(Debug, Clone, Copy, PartialEq, Eq, Drop)]
pub enum Cut {
    /// At its line end, which was used with it.
    Whole,
    /// At the end of the input. The line may have no byte.
    Last,
    /// Not yet: the source failed.
    Fault,
    /// Not yet: the session has used as many bytes as it may.
    Long,
}

/// Moves the next line into the draft.
pub fn cut_line<S: Source>(input: &mut Input, draft: &mut Draft, source: &mut S) -> Cut
    ensures line { (raw : List ℕ) × Holds draft.new raw
        × Cuts (S.left source.old) (S.left source.new) input.old input.new result raw }
    ensures most { input.new.used ≤ 2 ^ 40 }
    ensures tells { is_some (S.left source.new) ≡ is_some (S.left source.old) }
    ensures later { S.faults source.old ≤ S.faults source.new }
    ensures fault { result ≡ Cut.Fault → Rose (S.faults source.old) (S.faults source.new) }
{
    draft.clear();
    'runs: loop {
        match input.ready(source) {
            Ready::Bytes => {
                if move_run(input, draft) {
                    return Cut::Whole;
                }
            }
            Ready::End => return Cut::Last,
            Ready::Fault => return Cut::Fault,
            Ready::Long => return Cut::Long,
        }
    }
}

/// Moves the bytes that wait into the draft, up to a line end, and says whether there was one.
fn move_run(input: &mut Input, draft: &mut Draft) -> bool
    requires waits { 0 < length input.old.pending }
    requires room { input.old.used < 2 ^ 40 }
    requires short { draft.old.count ≤ input.old.used }
    ensures run { (run : List ℕ) × UsesRun input.old input.new result run
        × ((raw : List ℕ) → Holds draft.old raw → Holds draft.new (raw ++ run)) }
    ensures most { input.new.used ≤ 2 ^ 40 }
{
    let run = input.run();
    match line_end_in(run) {
        Some(len) => {
            draft.extend(&run[..len]);
            input.skip(len + 1);
            true
        }
        None => {
            let len = run.len();
            draft.extend(run);
            input.skip(len);
            false
        }
    }
}

/// The place of the first line end.
fn line_end_in(run: &[u8]) -> Option<usize>
    ensures none { IfNone result (All (λ byte. is_line_end byte ≡ false) run.now) }
    ensures within { IfSome result (λ at. at < length run.now) }
    ensures first { IfSome result (λ at. All (λ byte. is_line_end byte ≡ false) (take at run.now)) }
    ensures found { IfSome result (λ at. slice_index run.now at ≡ 10) }
{
    let mut at = 0;
    'bytes: while at < run.len() {
        if run[at] == 10 {
            return Some(at);
        }
        at += 1;
    }
    None
}

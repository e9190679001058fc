//! The lines of a source.

ghost use Rattle.std.specs.Prelude.{◌≡◌, ℕ, ◌≤◌, ◌≢◌, ◌⊎◌, ◌^◌, List, [], Option, IfOk, is_some};
ghost use Rattle.pan_io.specs.Faults.{Rose};
ghost use Rattle.pan_io.specs.Kept.{Holds};
ghost use Rattle.pan_io.specs.Reader.{IsKind};

use crate::cut::{Cut, cut_line};
use crate::draft::{Draft, MAX_LINE};
use crate::input::{Input, MAX_BYTES};
use crate::source::Source;
use crate::taken::{Stop, Taken};
use std::alloc::{AllocError, Global};
use std::marker::Model;

/// Reads the lines of a source. A line ends at byte 0x0A or at the end of the input, and one 0x0D
/// directly before that end is no part of it.
#[derive(Drop)]
pub struct Lines {
    input: Input,
    draft: Draft,
    shown: usize,
    stop: Stop,
}

impl Model for Lines {
    ghost use Rattle.std.specs.Prelude.{take, ◌≤◌, ◌^◌};
    ghost use Rattle.pan_io.specs.Reader.{Reader};

    ghost Value = { Reader };

    ghost view = { λ lines. record { pending = lines.input.pending; used = lines.input.used; line = take lines.shown lines.draft.front; stop = lines.stop } };

    ghost invariant = { λ lines. (lines.shown ≤ 65536) × (lines.input.used ≤ 2 ^ 40) };
}

impl Lines {
    ghost use Rattle.pan_io.specs.Reader.{Takes, Repeats};
    ghost use Rattle.pan_io.specs.History.{History, Continues};

    /// A reader that has used no byte. It takes all the memory that reading needs.
    pub fn new(alloc: Global) -> Result<Lines, AllocError>
        ensures pending { IfOk result (λ lines. lines.pending ≡ []) }
        ensures used { IfOk result (λ lines. lines.used ≡ 0) }
        ensures line { IfOk result (λ lines. lines.line ≡ []) }
        ensures stop { IfOk result (λ lines. lines.stop ≡ Stop.Open) }
        ensures history { IfOk result (λ lines. (left : Option (List ℕ)) → History left left lines [] []) }
    {
        let input = Input::new(alloc)?;
        let draft = Draft::new(alloc)?;
        Ok(Lines {
            input,
            draft,
            shown: 0,
            stop: Stop::Open,
        })
    }

    /// The line that the last `take` gave. Before the first one, and after `TooLong`, `ReadFault`
    /// or `Long`, there are no bytes; after `End` neither, unless the input's last line had no line
    /// end: `End` leaves that line shown.
    pub fn line(&self) -> &[u8]
        ensures { result.now ≡ self.now.line }
    {
        self.draft.front(self.shown)
    }

    /// Takes the next line, and no memory. After `End`, `ReadFault` or `Long` each later call
    /// answers the same and reads nothing.
    pub fn take<S: Source>(&mut self, source: &mut S) -> Taken
        // What was used and what it gave.
        ensures line { self.old.stop ≡ Stop.Open → (raw end : List ℕ)
            × Takes (S.left source.old) (S.left source.new) self.old self.new result raw end }
        ensures again { self.old.stop ≢ Stop.Open → Repeats self.old.stop result
            × (self.new ≡ self.old) × (source.new ≡ source.old) }

        // The same of the whole session.
        ensures history { (start : Option (List ℕ)) (seen : List ℕ) (lines : List (List ℕ))
            → History start (S.left source.old) self.old seen lines
            → Continues start (S.left source.new) self.old self.new lines result }
        ensures most { self.new.used ≤ 2 ^ 40 }

        // The source.
        ensures tells { is_some (S.left source.new) ≡ is_some (S.left source.old) }
        ensures later { S.faults source.old ≤ S.faults source.new }
        ensures fault { result ≡ Taken.ReadFault →
            Rose (S.faults source.old) (S.faults source.new) ⊎ (self.old.stop ≡ Stop.Faulted) }
    {
        match self.stop {
            Stop::Open => self.take_open(source),
            Stop::Ended => Taken::End,
            Stop::Faulted => Taken::ReadFault,
            Stop::Exceeded => Taken::Long(MAX_BYTES),
        }
    }

    /// The same for a reader that has not stopped.
    fn take_open<S: Source>(&mut self, source: &mut S) -> Taken
        requires { self.old.stop ≡ Stop.Open }
        ensures line { (raw : List ℕ) × (end : List ℕ)
            × Takes (S.left source.old) (S.left source.new) self.old self.new result raw end }
        ensures most { self.new.used ≤ 2 ^ 40 }
        ensures tells { is_some (S.left source.new) ≡ is_some (S.left source.old) }
        ensures later { S.faults source.old ≤ S.faults source.new }
        ensures fault { result ≡ Taken.ReadFault → Rose (S.faults source.old) (S.faults source.new) }
    {
        self.shown = 0;
        match cut_line(&mut self.input, &mut self.draft, source) {
            Cut::Whole => {
                self.shown = self.draft.kept_len();
                kind_of(&self.draft)
            }
            Cut::Last => {
                self.stop = Stop::Ended;
                if self.draft.is_empty() {
                    return Taken::End;
                }
                self.shown = self.draft.kept_len();
                kind_of(&self.draft)
            }
            Cut::Fault => {
                self.stop = Stop::Faulted;
                Taken::ReadFault
            }
            Cut::Long => {
                self.stop = Stop::Exceeded;
                Taken::Long(MAX_BYTES)
            }
        }
    }
}

/// A line that is kept whole, or the length of one that is not.
fn kind_of(draft: &Draft) -> Taken
    ensures { (raw : List ℕ) → Holds draft.now raw → IsKind result raw }
{
    let len = draft.line_len();
    if len > MAX_LINE {
        Taken::TooLong(len)
    } else {
        Taken::Line
    }
}

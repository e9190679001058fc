// The lock, its passes and its notes.
ghost use Rattle.std.specs.Prelude.{◌≡◌, ◌<◌, ◌≤◌, ◌+◌, max, length, IfOk, OnOk, IfErr, OnErr, [], ◌∷◌, ◌++◌, ℕ, List, false, All, Contains};
ghost use Rattle.std.specs.Fn.{FnOnceTakesAtMut, FnOnceReturnsAtMut};
ghost use Rattle.turn_lock.specs.Journals.{DifferByOthers, longer};
ghost use Rattle.turn_lock.specs.Meanings.{MAX_TURNS, first_pass, IsPassOf, IsNoteOf, Finds, Grows};

use crate::rule::{LockSeat, LockTable};
use crate::sharing::{join_note, join_pass, read_count, split_note, split_pass, split_retired};
use crate::storied::Storied;
use crate::turning::{draw_ticket, use_turn};
use atomic_table::Table;
use std::alloc::{AllocError, Global};
use std::marker::{Brand, Model};
use std::snapshot::Snapshot;
use std::sync::Wait;
use std::thread::Threads;

const TURN_LIMIT: u64 = 4_611_686_018_427_387_904;

/// The lock has had all its turns: 4,611,686,018,427,387,904 or more were drawn before.
#[derive(Clone, Copy, Debug, PartialEq, Eq)]
pub struct Worn {
    /// The pass's found number: how many turns a draw found drawn before.
    pub turns: u64,
}

/// A value that passes take turns at, in the order of the tickets that they draw. It means the list and the ground that
/// `open` found in the value. It has 4,611,686,018,427,387,904 turns.
#[derive(Drop)]
pub struct Shared<T: Storied> {
    table: LockTable<T>,
}

impl<T: Storied> Model for Shared<T> {
    ghost use Rattle.std.specs.Prelude.{◌≡◌};
    ghost use Rattle.turn_lock.specs.Meanings.{SharedMeaning};

    ghost Value = { SharedMeaning T.Entry T.Ground };

    ghost view = { λ s. record { table = s.table.shared.table_id; journal = T.entries s.table.shared.key.value; the_ground = T.ground_of s.table.shared.key.value } };

    ghost invariant = { λ s. (s.table.shared.table_id.words ≡ 3) × (s.table.shared.table_id.slots ≡ 1) };
}

/// The right to take turns at the lock that made it, one at a time. It means its number, its view (the entries that it
/// has seen), the numbers that it gave to passes and those that it took back, how many notes it told and learnt, and its
/// found number, the greatest number of turns that a draw found drawn before, as far as the pass knows. Its own numbers
/// are its number and those that it took back.
#[derive(Drop)]
pub struct Pass<T: Storied> {
    seat: LockSeat<T>,
    number: u32,
    found: u64,
}

impl<T: Storied> Model for Pass<T> {
    ghost use Rattle.std.specs.Prelude.{◌≡◌, ◌<◌};
    ghost use Rattle.turn_lock.specs.Meanings.{PassMeaning};
    ghost use Rattle.turn_lock.specs.Views.{pass_meaning, IsAtRest};

    ghost Value = { PassMeaning T.Entry T.Ground };

    ghost view = { λ p. pass_meaning p.seat.table_id p.seat.me.0 };

    ghost invariant = { λ p. IsAtRest p.seat.me × (p.number ≡ p.seat.me.0.number) × (p.number < 64) × (p.found ≡ p.seat.me.0.found) };
}

/// What a pass had seen, for another pass to learn. It holds a copy of that pass's view and its found number.
#[derive(Drop)]
pub struct Note<T: Storied> {
    seat: LockSeat<T>,
    found: u64,
}

impl<T: Storied> Model for Note<T> {
    ghost use Rattle.std.specs.Prelude.{◌≡◌};
    ghost use Rattle.turn_lock.specs.Meanings.{NoteMeaning};
    ghost use Rattle.turn_lock.specs.Views.{note_meaning, IsNoteSeat};

    ghost Value = { NoteMeaning T.Entry T.Ground };

    ghost view = { λ n. note_meaning n.seat.table_id n.seat.me.0 };

    ghost invariant = { λ n. IsNoteSeat n.seat.me × (n.found ≡ n.seat.me.0.found) };
}

impl<T: Storied> Shared<T> {
    /// Puts the value under a lock, and gives the pass with number 0, which has seen the value's list. The list has to
    /// be shorter than 4,611,686,018,427,387,904. No other call of the lock takes memory.
    ///
    /// # Errors
    ///
    /// `AllocError` where there is no memory for the lock; the value is dropped.
    pub fn open(alloc: Global, value: T) -> Result<(Shared<T>, Pass<T>), AllocError>
    where
        T: Drop,
        requires short { length (T.entries value) < MAX_TURNS }
        ensures opened { IfOk result (λ r. (r.0.journal ≡ T.entries value) × (r.0.the_ground ≡ T.ground_of value)) }
        ensures pass { IfOk result (λ r. r.1 ≡ first_pass r.0) }
    {
        let about = Snapshot::of(&value);
        let count = value.length();
        let mut slots = Vec::new(alloc);
        slots.push(value)?;
        let Ok((table, seat)) = Table::new(alloc, &[0, 0, count], slots, &about) else {
            return Err(AllocError);
        };
        let pass = Pass {
            seat,
            number: 0,
            found: 0,
        };
        Ok((Shared { table }, pass))
    }

    /// Waits for a turn, asleep while other passes have theirs, and calls `f` on the value. `f` finds the ground that
    /// `open` found, and a list that goes on from what the pass has seen by entries that carry none of its own numbers.
    /// It has to keep the ground, and to extend the list by at most one entry, which carries the pass's number.
    ///
    /// # Errors
    ///
    /// `Worn` exactly where 4,611,686,018,427,387,904 turns were drawn before. `f` is not called then.
    pub fn turn<R, F: FnOnce(&mut T) -> R, W: Threads + Wait + Sync>(
        &self,
        rt: &W,
        pass: &mut Pass<T>,
        f: F,
    ) -> Result<R, Worn>
        requires own { IsPassOf self.now pass.old }
        requires calls { (x : T) → Finds T.entries T.pass_of T.ground_of self.now pass.old x → FnOnceTakesAtMut F.FnOnce f x }
        requires keeps { (x y : T) (r : R) → Finds T.entries T.pass_of T.ground_of self.now pass.old x → FnOnceReturnsAtMut F.FnOnce f x r y → Grows T.entries T.pass_of T.ground_of pass.old.number x y }
        // the pass has seen what `f` left, and its found number may rise
        ensures same { pass.new ≡ record pass.old { seen = pass.new.seen; found = pass.new.found } }
        ensures later { pass.old.found ≤ pass.new.found }
        ensures ok { IfOk result (λ r. (x : T) × (y : T) × Finds T.entries T.pass_of T.ground_of self.now pass.old x × FnOnceReturnsAtMut F.FnOnce f x r y × (pass.new.seen ≡ T.entries y)) }
        ensures in_time { OnOk result (pass.new.found < MAX_TURNS) }
        ensures worn { IfErr result (λ w. (w.turns ≡ pass.new.found) × (MAX_TURNS ≤ pass.new.found)) }
        ensures unseen { OnErr result (pass.new.seen ≡ pass.old.seen) }
        // a pass that found the lock worn draws no more
        ensures worn_stays { MAX_TURNS ≤ pass.old.found → pass.new ≡ pass.old }
    {
        if pass.found >= TURN_LIMIT {
            return Err(Worn { turns: pass.found });
        }
        let ticket = draw_ticket(&self.table, &mut pass.seat);
        pass.found = ticket;
        if ticket >= TURN_LIMIT {
            return Err(Worn { turns: ticket });
        }
        Ok(use_turn(rt, &self.table, &mut pass.seat, ticket, f))
    }

    /// Gives a number to a new pass, which has seen what `pass` has seen and has told and learnt no note. Only pass 0
    /// gives numbers, each from 1 to 63 and once.
    pub fn split(&self, pass: &mut Pass<T>, number: u32) -> Pass<T>
        requires own { IsPassOf self.now pass.old }
        requires root { pass.old.number ≡ 0 }
        requires number { (0 < number) × (number < 64) × (¬ Contains pass.old.gave number) }
        ensures pass { pass.new ≡ record pass.old { gave = pass.old.gave ++ number ∷ [] } }
        ensures new { result ≡ record pass.old { number = number; gave = []; took = []; told = 0; learnt = 0 } }
    {
        read_count(&self.table, &mut pass.seat);
        let mut seat = split_pass::<Brand, T>(&self.table, &mut pass.seat, number);
        read_count(&self.table, &mut seat);
        Pass {
            seat,
            number,
            found: pass.found,
        }
    }

    /// Takes a pass back, with its numbers and its counts of notes. `pass` has to be pass 0, and it has then seen the
    /// longer of the two views. The other view is a beginning of that one, and what follows it carries no own number of
    /// the pass that had seen less.
    pub fn join(&self, pass: &mut Pass<T>, other: Pass<T>)
        requires own { IsPassOf self.now pass.old }
        requires other { IsPassOf self.now other }
        requires root { pass.old.number ≡ 0 }
        ensures pass { pass.new ≡ record pass.old { seen = longer pass.old.seen other.seen; took = pass.old.took ++ (other.number ∷ other.took); told = pass.old.told + other.told; learnt = pass.old.learnt + other.learnt; found = max pass.old.found other.found } }
        ensures prefix { DifferByOthers T.pass_of pass.old.seen (pass.old.number ∷ pass.old.took) other.seen (other.number ∷ other.took) }
    {
        let Pass {
            seat,
            number: _,
            found,
        } = other;
        join_pass(&self.table, &mut pass.seat, seat);
        pass.found = pass.found.max(found);
    }

    /// Tells what the pass has seen: the note holds a copy of its view, which stays as it was.
    pub fn tell(&self, pass: &mut Pass<T>) -> Note<T>
        requires own { IsPassOf self.now pass.old }
        ensures pass { pass.new ≡ record pass.old { told = pass.old.told + 1 } }
        ensures note { result ≡ record { table = pass.old.table; the_ground = pass.old.the_ground; seen = pass.old.seen; found = pass.old.found } }
    {
        read_count(&self.table, &mut pass.seat);
        let seat = split_note(&self.table, &mut pass.seat);
        Note {
            seat,
            found: pass.found,
        }
    }

    /// Takes a note in. The pass has then seen the longer of its view and the note's. The other one is a beginning of
    /// that one, and what is new to the pass carries none of its own numbers.
    pub fn learn(&self, pass: &mut Pass<T>, note: Note<T>)
        requires own { IsPassOf self.now pass.old }
        requires note { IsNoteOf self.now note }
        ensures pass { pass.new ≡ record pass.old { seen = longer pass.old.seen note.seen; learnt = pass.old.learnt + 1; found = max pass.old.found note.found } }
        ensures prefix { DifferByOthers T.pass_of pass.old.seen (pass.old.number ∷ pass.old.took) note.seen [] }
    {
        let Note { seat, found } = note;
        join_note(&self.table, &mut pass.seat, seat);
        pass.found = pass.found.max(found);
    }

    /// Ends the lock, and gives the value back, with the ground that `open` found and a list that is all that the pass
    /// has seen. The pass has to be pass 0, to have taken back all numbers that it gave, and to have learnt as many notes
    /// as it told, those of the joined passes counted. It is given back to be read. That it is no longer open marks that
    /// it belongs to no lock any more; everything else of its meaning is as it was.
    pub fn close(self, pass: Pass<T>) -> (T, Pass<T>)
        requires own { IsPassOf self pass }
        requires root { pass.number ≡ 0 }
        requires numbers { (n : ℕ) → Contains pass.gave n → Contains pass.took n }
        requires notes { pass.told ≡ pass.learnt }
        ensures value { (T.ground_of result.0 ≡ self.the_ground) × (T.entries result.0 ≡ pass.seen) }
        // each entry since `open` carries one of the pass's own numbers
        ensures made { (since : List T.Entry) × (self.journal ++ since ≡ pass.seen) × All (λ e. Contains (pass.number ∷ pass.took) (T.pass_of e)) since }
        ensures pass { result.1 ≡ record pass { is_open = false } }
    {
        let Shared { table } = self;
        let Pass {
            mut seat,
            number,
            found,
        } = pass;
        let retired = split_retired(&table, &mut seat);
        let mut closed = table.close_with(seat);
        let value = closed.take(0);
        closed.free();
        let pass = Pass {
            seat: retired,
            number,
            found,
        };
        (value, pass)
    }
}

impl<T: Storied> Pass<T> {
    /// The pass's number, from 0 to 63.
    pub fn number(&self) -> u32
        ensures is { result ≡ self.now.number }
        ensures small { result < 64 }
    {
        self.number
    }
}

//! How views are handed from pass to pass: split, join and read.
//!
//! Each call of the lock that hands a view on is made of such steps: `split` of a read, a split, and a read by the
//! new pass; `tell` of a read and a split; `join` and `learn` of a join and a read.
//!
//! What is given is recorded in the split itself, in the view of the seat that gives it: the number of the new pass,
//! or one note more that it told. So there is no moment at which a pass or a note is out and no view tells of it.
//! What is taken back is recorded in the join: the counts of notes, the greater found number, and the other view,
//! which is kept beside the pass's own. The read after the join compares the two views, keeps the longer one, and
//! moves the numbers that came with the other view to those that the pass took back.
//!
//! The reads of `split` and `tell` change no view, and no contract uses what they find: the record does not rest on
//! them. They are there because the steps of these calls have them, as the points at which the pass looks at the
//! journal before it gives, and the new pass before its first turn. Each tells that the pass has seen no more entries
//! than there are.
ghost use Rattle.std.specs.Prelude.{◌≡◌, ℕ, ◌<◌, ◌≤◌, [], length, Contains};
ghost use Rattle.turn_lock.specs.declared.view.Stage.TheVariants.{Idle};
ghost use Rattle.turn_lock.specs.Journals.{DifferByOthers};
ghost use Rattle.turn_lock.specs.Views.{own_numbers, IsNoteSeat};
ghost use Rattle.turn_lock.specs.Steps.{IsSeatAt, after_giving, new_pass, after_telling, new_note, retired_view, after_learning, after_joining, after_comparing};

use crate::rule::{COUNT, LockSeat, LockTable};
use crate::storied::Storied;
use crate::view::View;
use atomic_table::{Join, Play, Split};
use std::marker::{Brand, PhantomData};

/// A number that only proofs know. Each call picks one.
pub trait Numbered {
    ghost number: { ℕ };
}

impl Numbered for Brand {
    ghost number = { 0 };
}

// Pass 0 gives a number to a new pass.
pub struct Give<N> {
    of: PhantomData<N>,
}

impl<E, G, N: Numbered> Split<View<E, G>> for Give<N> {
    ghost use Rattle.turn_lock.specs.Steps.{after_giving, new_pass};

    ghost left = { after_giving N.number };

    ghost right = { new_pass N.number };
}

pub fn split_pass<N: Numbered, T: Storied>(
    table: &LockTable<T>,
    seat: &mut LockSeat<T>,
    _number: u32,
) -> LockSeat<T>
    requires table { IsSeatAt table.now.shared.table_id seat.old.table_id }
    requires pick { _number ≡ N.number }
    requires idle { (seat.old.me.0.stage ≡ Idle) × (seat.old.me.0.number ≡ 0) }
    requires number { (0 < _number) × (_number < 64) × (¬ Contains seat.old.me.0.gave _number) }
    ensures seat { (seat.new.table_id ≡ seat.old.table_id) × (seat.new.id ≡ seat.old.id) × (seat.new.me ≡ (after_giving _number seat.old.me.0, seat.old.me.1)) }
    ensures new { (result.table_id ≡ seat.old.table_id) × (result.me ≡ (new_pass _number seat.old.me.0, [])) }
{
    table.shared.split_seat::<Give<N>>(seat)
}

// A pass tells a note.
pub struct Tell;

impl<E, G> Split<View<E, G>> for Tell {
    ghost use Rattle.turn_lock.specs.Steps.{after_telling, new_note};

    ghost left = { after_telling };

    ghost right = { new_note };
}

pub fn split_note<T: Storied>(table: &LockTable<T>, seat: &mut LockSeat<T>) -> LockSeat<T>
    requires table { IsSeatAt table.now.shared.table_id seat.old.table_id }
    requires idle { seat.old.me.0.stage ≡ Idle }
    ensures seat { (seat.new.table_id ≡ seat.old.table_id) × (seat.new.id ≡ seat.old.id) × (seat.new.me ≡ (after_telling seat.old.me.0, seat.old.me.1)) }
    ensures new { (result.table_id ≡ seat.old.table_id) × (result.me ≡ (new_note seat.old.me.0, [])) }
{
    table.shared.split_seat::<Tell>(seat)
}

// A pass keeps what it knows, without the right to draw.
pub struct Retire;

impl<E, G> Split<View<E, G>> for Retire {
    ghost use Rattle.turn_lock.specs.Steps.{retired_view};

    ghost left = { λ v. v };

    ghost right = { retired_view };
}

pub fn split_retired<T: Storied>(table: &LockTable<T>, seat: &mut LockSeat<T>) -> LockSeat<T>
    requires table { IsSeatAt table.now.shared.table_id seat.old.table_id }
    requires idle { seat.old.me.0.stage ≡ Idle }
    ensures seat { (seat.new.table_id ≡ seat.old.table_id) × (seat.new.id ≡ seat.old.id) × (seat.new.me ≡ seat.old.me) }
    ensures retired { (result.table_id ≡ seat.old.table_id) × (result.me ≡ (retired_view seat.old.me.0, [])) }
{
    table.shared.split_seat::<Retire>(seat)
}

// A pass compares what it took in with what it has seen.
pub struct Compare;

impl<T: Storied> Play<T, View<T::Entry, T::Ground>> for Compare {
    ghost use Rattle.turn_lock.specs.Steps.{Compares};

    ghost then = { Compares T.pass_of };
}

pub fn compare_views<T: Storied>(table: &LockTable<T>, seat: &mut LockSeat<T>)
    requires table { IsSeatAt table.now.shared.table_id seat.old.table_id }
    requires idle { seat.old.me.0.stage ≡ Idle }
    ensures seat { (seat.new.table_id ≡ seat.old.table_id) × (seat.new.id ≡ seat.old.id) × (seat.new.me.1 ≡ seat.old.me.1) }
    ensures view { seat.new.me.0 ≡ after_comparing seat.old.me.0 }
    ensures differ { DifferByOthers T.pass_of seat.old.me.0.seen (own_numbers seat.old.me.0) seat.old.me.0.pending seat.old.me.0.pending_numbers }
{
    table.shared.load::<Compare>(seat, COUNT);
}

// A pass takes in a note.
pub struct Learn;

impl<E, G> Join<View<E, G>> for Learn {
    ghost use Rattle.turn_lock.specs.Views.{spent_view};
    ghost use Rattle.turn_lock.specs.Steps.{after_learning};

    ghost both = { after_learning };

    ghost spent = { spent_view };
}

pub fn join_note<T: Storied>(table: &LockTable<T>, seat: &mut LockSeat<T>, note: LockSeat<T>)
    requires table { IsSeatAt table.now.shared.table_id seat.old.table_id }
    requires idle { (seat.old.me.0.stage ≡ Idle) × (seat.old.me.1 ≡ []) × (seat.old.me.0.pending_numbers ≡ []) }
    requires note { (note.table_id ≡ table.now.shared.table_id) × IsNoteSeat note.me }
    ensures seat { (seat.new.table_id ≡ seat.old.table_id) × (seat.new.me.1 ≡ []) }
    ensures view { seat.new.me.0 ≡ after_comparing (after_learning seat.old.me.0 note.me.0) }
    ensures differ { DifferByOthers T.pass_of seat.old.me.0.seen (own_numbers seat.old.me.0) note.me.0.seen [] }
{
    table.shared.join_seat::<Learn>(seat, note);
    compare_views(table, seat);
}

// A pass takes in another, with its numbers.
pub struct TakeIn;

impl<E, G> Join<View<E, G>> for TakeIn {
    ghost use Rattle.turn_lock.specs.Views.{spent_view};
    ghost use Rattle.turn_lock.specs.Steps.{after_joining};

    ghost both = { after_joining };

    ghost spent = { spent_view };
}

pub fn join_pass<T: Storied>(table: &LockTable<T>, seat: &mut LockSeat<T>, other: LockSeat<T>)
    requires table { IsSeatAt table.now.shared.table_id seat.old.table_id }
    requires idle { (seat.old.me.0.stage ≡ Idle) × (seat.old.me.1 ≡ []) }
    requires other { (other.table_id ≡ table.now.shared.table_id) × (other.me.1 ≡ []) × (other.me.0.stage ≡ Idle) }
    ensures seat { (seat.new.table_id ≡ seat.old.table_id) × (seat.new.me.1 ≡ []) }
    ensures view { seat.new.me.0 ≡ after_comparing (after_joining seat.old.me.0 other.me.0) }
    ensures differ { DifferByOthers T.pass_of seat.old.me.0.seen (own_numbers seat.old.me.0) other.me.0.seen (own_numbers other.me.0) }
{
    table.shared.join_seat::<TakeIn>(seat, other);
    compare_views(table, seat);
}

// A read by a pass that took nothing in: how many entries the journal has.
pub struct Read;

impl<T: Storied> Play<T, View<T::Entry, T::Ground>> for Read {
    ghost use Rattle.turn_lock.specs.Steps.{Reads};

    ghost then = { Reads };
}

pub fn read_count<T: Storied>(table: &LockTable<T>, seat: &mut LockSeat<T>) -> u64
    requires table { IsSeatAt table.now.shared.table_id seat.old.table_id }
    requires idle { seat.old.me.0.stage ≡ Idle }
    ensures seat { (seat.new.table_id ≡ seat.old.table_id) × (seat.new.id ≡ seat.old.id) × (seat.new.me ≡ seat.old.me) }
    ensures count { length seat.old.me.0.seen ≤ result }
{
    table.shared.load::<Read>(seat, COUNT)
}

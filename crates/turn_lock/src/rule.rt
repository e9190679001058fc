// The lock's table: three words, a slot for the value, and the rule that holds between any two steps.
use crate::storied::Storied;
use crate::view::View;
use atomic_table::{Seat, Table, TableRule};
use std::alloc::Global;
use std::snapshot::Snapshot;

/// The rule of the lock. It reads the value that the lock was opened with.
pub struct TurnRule;

impl<T: Storied> TableRule<T, View<T::Entry, T::Ground>, Snapshot<T>> for TurnRule {
    ghost use Rattle.turn_lock.specs.Views.{first_view};
    ghost use Rattle.turn_lock.specs.LockRule.{LockRule};

    ghost holds = { λ key. LockRule T.entries T.pass_of T.ground_of key.value };

    ghost first = { λ key. first_view (T.entries key.value) (T.ground_of key.value) };
}

pub type LockTable<T> = Table<
    T,
    View<<T as Storied>::Entry, <T as Storied>::Ground>,
    Snapshot<T>,
    TurnRule,
    Global,
>;

pub type LockSeat<T> = Seat<T, View<<T as Storied>::Entry, <T as Storied>::Ground>>;

// How many turns were drawn.
pub const NEXT: usize = 0;

// The ticket whose turn it is.
pub const SERVING: usize = 1;

// How many entries the journal has.
pub const COUNT: usize = 2;

// The slot of the value.
pub const VALUE: usize = 0;

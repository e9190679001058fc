// One turn: draw, watch, take, enter and pass on, in this order.
ghost use Rattle.std.specs.Prelude.{◌≡◌, ◌<◌, ◌≤◌, ◌∷◌, ◌++◌, [], Some, length, IsTrue, ◌↔◌};
ghost use Rattle.std.specs.Fn.{FnOnceTakesAtMut, FnOnceReturnsAtMut};
ghost use Rattle.turn_lock.specs.declared.view.Stage.TheVariants.{Idle, Waiting, Called, Holding};
ghost use Rattle.turn_lock.specs.Meanings.{MAX_TURNS, Grows};
ghost use Rattle.turn_lock.specs.Views.{HoldsSlot};
ghost use Rattle.turn_lock.specs.Steps.{IsSeatAt, after_draw, after_watch, after_take, after_enter, after_pass_on, after_turn, Found, Leaves};

use crate::rule::{COUNT, LockSeat, LockTable, NEXT, SERVING, VALUE};
use crate::storied::Storied;
use crate::view::View;
use atomic_table::Play;
use std::sync::Wait;

pub struct Draw;

impl<T: Storied> Play<T, View<T::Entry, T::Ground>> for Draw {
    ghost use Rattle.turn_lock.specs.Steps.{Draws};

    ghost then = { Draws };
}

// Draws a ticket: the number of turns that were drawn before.
pub fn draw_ticket<T: Storied>(table: &LockTable<T>, seat: &mut LockSeat<T>) -> u64
    requires table { IsSeatAt table.now.shared.table_id seat.old.table_id }
    requires idle { seat.old.me.0.stage ≡ Idle }
    requires early { seat.old.me.0.found < MAX_TURNS }
    ensures seat { (seat.new.table_id ≡ seat.old.table_id) × (seat.new.id ≡ seat.old.id) × (seat.new.me.1 ≡ seat.old.me.1) }
    ensures view { seat.new.me.0 ≡ after_draw result seat.old.me.0 }
    ensures later { seat.old.me.0.found ≤ result }
{
    table.shared.fetch_add::<Draw>(seat, NEXT, 1)
}

pub struct Watch;

impl<T: Storied> Play<T, View<T::Entry, T::Ground>> for Watch {
    ghost use Rattle.turn_lock.specs.Steps.{Watches};

    ghost then = { Watches };
}

// Looks whose turn it is.
pub fn watch_serving<T: Storied>(table: &LockTable<T>, seat: &mut LockSeat<T>, _ticket: u64) -> u64
    requires table { IsSeatAt table.now.shared.table_id seat.old.table_id }
    requires waits { seat.old.me.0.stage ≡ Waiting _ticket }
    ensures seat { (seat.new.table_id ≡ seat.old.table_id) × (seat.new.id ≡ seat.old.id) × (seat.new.me.1 ≡ seat.old.me.1) }
    ensures view { seat.new.me.0 ≡ after_watch result seat.old.me.0 }
{
    table.shared.load::<Watch>(seat, SERVING)
}

pub struct Take;

impl<T: Storied> Play<T, View<T::Entry, T::Ground>> for Take {
    ghost use Rattle.turn_lock.specs.Steps.{Takes};

    ghost then = { Takes T.entries T.pass_of T.ground_of };
}

// Takes the value from its slot.
pub fn take_value<T: Storied>(table: &LockTable<T>, seat: &mut LockSeat<T>, _ticket: u64)
    requires table { IsSeatAt table.now.shared.table_id seat.old.table_id }
    requires called { seat.old.me.0.stage ≡ Called _ticket }
    ensures seat { (seat.new.table_id ≡ seat.old.table_id) × (seat.new.id ≡ seat.old.id) }
    ensures took { (x : T) × (seat.new.me.1 ≡ (0, x) ∷ seat.old.me.1) × (seat.new.me.0 ≡ after_take _ticket (T.entries x) seat.old.me.0) × Found T.entries T.pass_of T.ground_of seat.old.me.0 x }
{
    table.shared.fetch_add::<Take>(seat, SERVING, 0);
}

pub struct Enter;

impl<T: Storied> Play<T, View<T::Entry, T::Ground>> for Enter {
    ghost use Rattle.turn_lock.specs.Steps.{Enters};

    ghost then = { Enters T.entries };
}

// Puts the entry that the value has gained into the journal.
pub fn enter_entry<T: Storied>(table: &LockTable<T>, seat: &mut LockSeat<T>, _ticket: u64)
    requires table { IsSeatAt table.now.shared.table_id seat.old.table_id }
    requires holding { (seat.old.me.0.stage ≡ Holding _ticket) × (seat.old.me.0.pending_numbers ≡ []) }
    requires entry { (x : T) × (e : T.Entry) × (seat.old.me.1 ≡ (0, x) ∷ []) × (T.entries x ≡ seat.old.me.0.seen ++ e ∷ []) × (T.pass_of e ≡ seat.old.me.0.number) }
    ensures seat { (seat.new.table_id ≡ seat.old.table_id) × (seat.new.id ≡ seat.old.id) × (seat.new.me.1 ≡ seat.old.me.1) }
    ensures view { (x : T) → seat.old.me.1 ≡ (0, x) ∷ [] → seat.new.me.0 ≡ after_enter _ticket (T.entries x) seat.old.me.0 }
{
    table.shared.fetch_add::<Enter>(seat, COUNT, 1);
}

pub struct PassOn;

impl<T: Storied> Play<T, View<T::Entry, T::Ground>> for PassOn {
    ghost use Rattle.turn_lock.specs.Steps.{PassesOn};

    ghost then = { PassesOn };
}

// Gives the value back to its slot, calls the next ticket, and wakes those that sleep.
pub fn pass_on<T: Storied>(table: &LockTable<T>, seat: &mut LockSeat<T>)
    requires table { IsSeatAt table.now.shared.table_id seat.old.table_id }
    requires holds { HoldsSlot seat.old.me.0.stage }
    requires slot { (x : T) × (seat.old.me.1 ≡ (0, x) ∷ []) × (T.entries x ≡ seat.old.me.0.seen) × (Some (T.ground_of x) ≡ seat.old.me.0.the_ground) }
    ensures seat { (seat.new.table_id ≡ seat.old.table_id) × (seat.new.id ≡ seat.old.id) × (seat.new.me.1 ≡ []) }
    ensures view { seat.new.me.0 ≡ after_pass_on seat.old.me.0 }
{
    table.shared.fetch_add::<PassOn>(seat, SERVING, 1);
    table.shared.wake_all(SERVING);
}

// Waits for the ticket, asleep while others have their turns, and takes the value.
pub fn await_turn<T: Storied, W: Wait>(
    rt: &W,
    table: &LockTable<T>,
    seat: &mut LockSeat<T>,
    ticket: u64,
)
    requires table { IsSeatAt table.now.shared.table_id seat.old.table_id }
    requires waits { (seat.old.me.0.stage ≡ Waiting ticket) × (seat.old.me.1 ≡ []) }
    ensures seat { (seat.new.table_id ≡ seat.old.table_id) × (seat.new.id ≡ seat.old.id) }
    ensures took { (x : T) × (seat.new.me.1 ≡ (0, x) ∷ []) × (seat.new.me.0 ≡ after_take ticket (T.entries x) seat.old.me.0) × Found T.entries T.pass_of T.ground_of seat.old.me.0 x }
{
    for _ in rt.forever() {
        let serving = watch_serving(table, seat, ticket);
        if serving == ticket {
            take_value(table, seat, ticket);
            return;
        }
        // A thread sleeps on the low half of the word, which each turn changes.
        table
            .shared
            .park(rt, SERVING, (serving & 0xffff_ffff) as u32);
    }
    unreachable!()
}

// Calls f on the value, and says whether its list grew.
pub fn call_on_value<T: Storied, R, F: FnOnce(&mut T) -> R>(
    table: &LockTable<T>,
    seat: &mut LockSeat<T>,
    f: F,
) -> (R, bool)
    requires table { IsSeatAt table.now.shared.table_id seat.old.table_id }
    requires slot { (x : T) × (seat.old.me.1 ≡ (0, x) ∷ []) × FnOnceTakesAtMut F.FnOnce f x }
    ensures seat { (seat.new.table_id ≡ seat.old.table_id) × (seat.new.id ≡ seat.old.id) × (seat.new.me.0 ≡ seat.old.me.0) }
    ensures called { (x : T) × (y : T) × (seat.old.me.1 ≡ (0, x) ∷ []) × (seat.new.me.1 ≡ (0, y) ∷ []) × FnOnceReturnsAtMut F.FnOnce f x result.0 y × (IsTrue result.1 ↔ (length (T.entries x) < length (T.entries y))) }
{
    let value = seat.slot_mut(&table.shared, VALUE);
    let before = value.length();
    let answer = f(value);
    let after = value.length();
    (answer, before < after)
}

// Enters the entry if there is one, and passes the turn on.
pub fn leave_turn<T: Storied>(table: &LockTable<T>, seat: &mut LockSeat<T>, ticket: u64, grew: bool)
    requires table { IsSeatAt table.now.shared.table_id seat.old.table_id }
    requires holding { (seat.old.me.0.stage ≡ Holding ticket) × (seat.old.me.0.pending_numbers ≡ []) }
    requires left { (y : T) × (seat.old.me.1 ≡ (0, y) ∷ []) × Leaves T.entries T.pass_of T.ground_of seat.old.me.0 y grew }
    ensures seat { (seat.new.table_id ≡ seat.old.table_id) × (seat.new.id ≡ seat.old.id) }
    ensures view { (y : T) → seat.old.me.1 ≡ (0, y) ∷ [] → seat.new.me ≡ (after_turn (T.entries y) seat.old.me.0, []) }
{
    if grew {
        enter_entry(table, seat, ticket);
        pass_on(table, seat);
    } else {
        pass_on(table, seat);
    }
}

// Waits for the ticket, calls f on the value, and passes the turn on.
pub fn use_turn<T: Storied, R, F: FnOnce(&mut T) -> R, W: Wait>(
    rt: &W,
    table: &LockTable<T>,
    seat: &mut LockSeat<T>,
    ticket: u64,
    f: F,
) -> R
    requires table { IsSeatAt table.now.shared.table_id seat.old.table_id }
    requires waits { (seat.old.me.0.stage ≡ Waiting ticket) × (seat.old.me.1 ≡ []) × (seat.old.me.0.pending_numbers ≡ []) }
    requires calls { (x : T) → Found T.entries T.pass_of T.ground_of seat.old.me.0 x → FnOnceTakesAtMut F.FnOnce f x }
    requires keeps { (x y : T) (r : R) → Found T.entries T.pass_of T.ground_of seat.old.me.0 x → FnOnceReturnsAtMut F.FnOnce f x r y → Grows T.entries T.pass_of T.ground_of seat.old.me.0.number x y }
    ensures seat { (seat.new.table_id ≡ seat.old.table_id) × (seat.new.id ≡ seat.old.id) }
    ensures done { (x : T) × (y : T) × Found T.entries T.pass_of T.ground_of seat.old.me.0 x × FnOnceReturnsAtMut F.FnOnce f x result y × (seat.new.me ≡ (after_turn (T.entries y) seat.old.me.0, [])) }
{
    await_turn(rt, table, seat, ticket);
    let (answer, grew) = call_on_value(table, seat, f);
    leave_turn(table, seat, ticket, grew);
    answer
}

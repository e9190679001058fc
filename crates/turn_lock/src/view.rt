// What the seat of a pass or a note at the lock's table knows. It is of use to proofs alone: no value of these types is made.
use std::collections::LinkedList;

// Where the seat stands. The numbers are tickets.
pub enum Stage {
    // joined with another seat, or of a lock that was closed
    Spent,
    Note,
    // a pass between two calls
    Idle,
    // it drew the ticket and waits for its turn
    Waiting(u64),
    // it saw that its turn has come
    Called(u64),
    // it has taken the value from the slot
    Holding(u64),
    // and has put an entry into the journal
    Entered(u64),
}

pub struct View<E, G> {
    pub stage: Stage,
    pub number: u64,
    pub the_ground: Option<G>,
    // the entries that it has seen
    pub seen: LinkedList<E>,
    // a view that was joined and is not compared yet, and the numbers that came with it
    pub pending: LinkedList<E>,
    pub pending_numbers: LinkedList<u64>,
    // the numbers that it gave to passes, and those that it took back
    pub gave: LinkedList<u64>,
    pub took: LinkedList<u64>,
    // how many notes it told and learnt
    pub told: u64,
    pub learnt: u64,
    // the greatest number of turns that a draw found drawn before, as far as it knows
    pub found: u64,
}

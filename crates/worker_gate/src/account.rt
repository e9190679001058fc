//! The rule of a deque: the positions that were put into it are those that it holds and those that its passes took.
ghost use Rattle.std.specs.Prelude.{◌≡◌, ℕ, ◌+◌, ◌-◌, ◌<◌, ◌≤◌, [], ◌++◌, map, length};
ghost use Rattle.worker_gate.specs.Accounts.{weigh, account, Balanced, Took};

use crate::job::Job;
use crate::task::{Batch, Task};
use crossbeam_deque::protocol::{Join, Outcome, Protocol, Split};
use std::collections::LinkedList;

/// What one pass of a deque has done: the positions that it put and took. Of 1024 parts of the right to know the whole it has some, and
/// the owner has all of them before the workers start and after they end. It exists in proofs alone.
pub struct Account {
    pub parts: u64,
    pub put: LinkedList<u32>,
    pub taken: LinkedList<u32>,
}

/// Each position that was put is in the deque, or with exactly one pass that took it.
pub struct EachOnce;

impl<J: Job, K: Batch<J>> Protocol<Task<J, K>, Account> for EachOnce {
    ghost use Rattle.std.specs.Prelude.{[], map};
    ghost use Rattle.worker_gate.specs.Accounts.{account, Balanced};

    ghost holds = { λ items views. Balanced (map (λ t. t.at) items) views };

    ghost first = { account 1024 [] [] };

    ghost guest = { account 0 [] [] };
}

/// A task is put at the back.
pub struct Puts;

impl<J: Job, K: Batch<J>> Outcome<Task<J, K>, Account> for Puts {
    ghost then = { λ v xs w. w ≡ account v.parts (v.put ++ map (λ t. t.at) xs) v.taken };
}

/// The owner takes a task, or finds none.
pub struct Takes;

impl<J: Job, K: Batch<J>> Outcome<Task<J, K>, Account> for Takes {
    ghost then = { λ v xs w. Took v (map (λ t. t.at) xs) w × (v.parts ≡ 1024 → length w.taken ≤ length w.put) };

    ghost empty = { λ v. v.parts ≡ 1024 → (h : ℕ → ℕ) → weigh h v.put ≡ weigh h v.taken };
}

/// Another worker takes a task.
pub struct Steals;

impl<J: Job, K: Batch<J>> Outcome<Task<J, K>, Account> for Steals {
    ghost then = { λ v xs w. Took v (map (λ t. t.at) xs) w };
}

/// One part goes to a new pass, and comes back with what it took.
pub struct Part;

impl Split<Account> for Part {
    ghost use Rattle.std.specs.Prelude.{◌-◌, []};
    ghost use Rattle.worker_gate.specs.Accounts.{account};

    ghost left = { λ v. account (v.parts - 1) v.put v.taken };

    ghost right = { λ v. account 1 [] [] };
}

impl Join<Account> for Part {
    ghost use Rattle.std.specs.Prelude.{◌+◌, ◌++◌, []};
    ghost use Rattle.worker_gate.specs.Accounts.{account};

    ghost both = { λ v w. account (v.parts + w.parts) (v.put ++ w.put) (v.taken ++ w.taken) };

    ghost spent = { account 0 [] [] };
}

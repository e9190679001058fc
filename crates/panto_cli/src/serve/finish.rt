//! How serving ended.

ghost use Rattle.std.specs.Prelude.{◌≡◌, [], None, true, map};
ghost use Rattle.panto_cli.specs.Links.{first_end, outcome_of_links};

use crate::notes::Outcome;
use crate::run::outcome_of;
use crate::store::Store;
use command_set::Program;
use link_server::Served;
use session_server::End;
use shared_board::BoardPass;
use state_tree::Entry;
use std::alloc::Global;

/// How serving ended, and whether the notes took all that was written so far.
#[derive(Drop)]
pub struct Finish<I, O> {
    pub outcome: Outcome,
    pub told: bool,
    pub served: Vec<Served<I, O>>,
    pub journal: Option<Vec<Entry>>,
    pub last: Option<BoardPass<Program<Store>>>,
}

impl<I: Drop, O: Drop> Finish<I, O> {
    /// No board was opened.
    pub fn without(alloc: Global, outcome: Outcome) -> Finish<I, O>
        ensures outcome { result.outcome ≡ outcome }
        ensures told { result.told ≡ true }
        ensures served { result.served.items ≡ [] }
        ensures journal { result.journal ≡ None }
        ensures last { result.last ≡ None }
    {
        Finish {
            outcome,
            told: true,
            served: Vec::new(alloc),
            journal: None,
            last: None,
        }
    }
}

/// The end of the first link whose session wasn't done.
fn first_end<I, O>(served: &[Served<I, O>]) -> End
    ensures { result ≡ first_end (map (λ link. link.end) served.now) }
{
    for link in served {
        match link.end {
            End::Done => {}
            end => return end,
        }
    }
    End::Done
}

/// How serving ended, where the doors failed or didn't, and the links ended so.
pub fn outcome_of_links<I, O>(failed: bool, served: &[Served<I, O>]) -> Outcome
    ensures { result ≡ outcome_of_links failed (map (λ link. link.end) served.now) }
{
    if failed {
        return Outcome::DoorFault;
    }
    outcome_of(first_end(served))
}

//! The environments, states and entries of a tree.

ghost use Rattle.std.specs.Prelude.{◌≡◌, ◌<◌, ◌≤◌, ◌+◌, ◌∷◌, [], length, vec_len, vec_capacity, IfNone, map, option_map};
ghost use Rattle.state_tree.specs.Holdings.{plain, stepped, SameRoom, IsCounted};
ghost use Rattle.state_tree.specs.Server.{flag_case, says, ended, without, live_count};
ghost use Rattle.state_tree.specs.Results.{result_case};

use crate::slot::Slot;
use crate::work::{Entry, Worked};
use repl_json::{Ask, Line};

/// What a tree holds, and how many of its states are live.
#[derive(Drop)]
pub struct Holdings<E, S> {
    pub envs: Vec<E>,
    pub states: Vec<Slot<S>>,
    pub journal: Vec<Entry>,
    pub live: usize,
}

/// Makes a state not live.
fn end_state<E, S>(holdings: &mut Holdings<E, S>, id: u64)
    requires counted { IsCounted holdings.old }
    ensures counted { IsCounted holdings.new }
    ensures envs { holdings.new.envs ≡ holdings.old.envs }
    ensures states { holdings.new.states.items ≡ without holdings.old.states.items id }
    ensures journal { holdings.new.journal ≡ holdings.old.journal }
    ensures capacity { vec_capacity holdings.new.states ≡ vec_capacity holdings.old.states }
{
    if id >= holdings.states.len() as u64 {
        return;
    }
    let slot = &mut holdings.states[id as usize];
    if slot.live {
        slot.live = false;
        holdings.live -= 1;
    }
}

fn end_slots<S>(states: &mut Vec<Slot<S>>)
    ensures items { states.new.items ≡ map ended states.old.items }
    ensures capacity { vec_capacity states.new ≡ vec_capacity states.old }
{
    for slot in states.iter_mut() {
        slot.live = false;
    }
}

/// Makes every state not live, and answers how many were.
fn end_all<E, S>(holdings: &mut Holdings<E, S>) -> usize
    requires counted { IsCounted holdings.old }
    ensures live { result ≡ live_count holdings.old.states.items }
    ensures counted { IsCounted holdings.new }
    ensures envs { holdings.new.envs ≡ holdings.old.envs }
    ensures states { holdings.new.states.items ≡ map ended holdings.old.states.items }
    ensures journal { holdings.new.journal ≡ holdings.old.journal }
    ensures capacity { vec_capacity holdings.new.states ≡ vec_capacity holdings.old.states }
{
    let live = holdings.live;
    end_slots(&mut holdings.states);
    holdings.live = 0;
    live
}

/// Deletes, ends or counts states, where the command says so. Counting takes constant time.
pub fn use_flags<E, S>(holdings: &mut Holdings<E, S>, ask: &Ask) -> Option<Line>
    requires counted { IsCounted holdings.old }
    ensures counted { IsCounted holdings.new }
    ensures flags { flag_case (plain holdings.old) ask.now ≡ option_map (λ line. stepped line holdings.new) result }
    ensures none { IfNone result (holdings.new ≡ holdings.old) }
    ensures journal { holdings.new.journal ≡ holdings.old.journal }
    ensures room { SameRoom holdings.old holdings.new }
    ensures envs { holdings.new.envs ≡ holdings.old.envs }
    ensures states { length holdings.new.states.items ≡ length holdings.old.states.items }
{
    let seq = holdings.journal.len() as u64;
    match ask {
        Ask::Delete { state } => {
            end_state(holdings, *state);
            Some(Line::Deleted { id: *state, seq })
        }
        Ask::Reset => {
            let deleted = end_all(holdings) as u64;
            Some(Line::Reset { deleted, seq })
        }
        Ask::Stat => Some(Line::Stat {
            envs: holdings.envs.len() as u64,
            live: holdings.live as u64,
            seq,
            states: holdings.states.len() as u64,
        }),
        _ => None,
    }
}

/// Keeps what the work made, and gives the reply.
pub fn keep_result<E, S>(holdings: &mut Holdings<E, S>, worked: Worked<E, S>) -> Line
    requires envs { vec_len holdings.old.envs < vec_capacity holdings.old.envs }
    requires states { vec_len holdings.old.states < vec_capacity holdings.old.states }
    requires counted { IsCounted holdings.old }
    ensures counted { IsCounted holdings.new }
    ensures worked { result_case (plain holdings.old) worked ≡ stepped result holdings.new }
    ensures journal { holdings.new.journal ≡ holdings.old.journal }
    ensures room { SameRoom holdings.old holdings.new }
    ensures more_envs { length holdings.new.envs.items ≤ length holdings.old.envs.items + 1 }
    ensures more_states { length holdings.new.states.items ≤ length holdings.old.states.items + 1 }
{
    let seq = holdings.journal.len() as u64;
    match worked {
        Worked::Said(body) => Line::Given {
            body,
            seq,
            id: None,
        },
        Worked::NewEnv(env, body) => {
            let id = holdings.envs.len() as u64;
            holdings.envs.push_reserved(env);
            Line::Given {
                body,
                seq,
                id: Some(id),
            }
        }
        Worked::NewState(state, body) => {
            let id = keep_state(holdings, state);
            Line::Given {
                body,
                seq,
                id: Some(id),
            }
        }
        Worked::Memory => Line::Memory { seq },
    }
}

/// Keeps a new state, which is live, and gives its number.
fn keep_state<E, S>(holdings: &mut Holdings<E, S>, state: S) -> u64
    requires states { vec_len holdings.old.states < vec_capacity holdings.old.states }
    requires counted { IsCounted holdings.old }
    ensures id { result ≡ length holdings.old.states.items }
    ensures counted { IsCounted holdings.new }
    ensures envs { holdings.new.envs ≡ holdings.old.envs }
    ensures states { holdings.new.states.items ≡ holdings.old.states.items ++ record { state = state; live = true } ∷ [] }
    ensures journal { holdings.new.journal ≡ holdings.old.journal }
    ensures capacity { vec_capacity holdings.new.states ≡ vec_capacity holdings.old.states }
{
    let id = holdings.states.len() as u64;
    holdings.states.push_reserved(Slot { state, live: true });
    holdings.live += 1;
    id
}

ghost use Rattle.std.specs.Prelude.{◌++◌, true};

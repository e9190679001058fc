//! What a request names, what its work gives, and what is entered of it.

ghost use Rattle.std.specs.Prelude.{◌≡◌};
ghost use Rattle.repl_json.specs.declared.request.Ask.{Ask};
ghost use Rattle.state_tree.specs.Value.{Value, Gives, value_at};
ghost use Rattle.state_tree.specs.Replies.{SaysReply};
ghost use Rattle.state_tree.specs.Results.{gave_by};
ghost use Rattle.state_tree.specs.declared.work.Found.{Found};

use repl_json::{Body, Request};
use std::alloc::Global;
use std::mem::size_of;

/// What a request names, as far as a look found it: the environment, the state that is looked for first, and the one after it.
#[derive(Drop)]
pub struct Found<E, S> {
    pub env: Option<E>,
    pub one: Option<S>,
    pub two: Option<S>,
}

/// The result of a request's work.
#[derive(Drop)]
pub enum Worked<E, S> {
    /// A reply, and nothing is made.
    Said(Body),
    /// A new environment, and the reply.
    NewEnv(E, Body),
    /// A new state, and the reply.
    NewState(S, Body),
    /// There was no memory for the work.
    Memory,
}

/// What answered an entry: the server, or want of memory for the work.
#[derive(Debug, Clone, Copy, PartialEq, Eq, Drop)]
pub enum Gave {
    Answer,
    Memory,
}

/// One event of the tree: the number of the pass that entered it, the request, and what answered it.
#[derive(Debug, Drop)]
pub struct Entry {
    pub pass: u32,
    pub request: Request,
    pub gave: Gave,
}

/// A tree reserves a slot of this size for each of its entries.
const _: () = prove!(size_of::<Entry>() <= 128);

/// The commands and their values. Contracts see an environment or a state as its plain data, by its `Model`.
pub trait Work {
    type Env: Clone;

    type State: Clone;

    /// The value of a command on what it names. It is the same for every value of the type.
    ghost value: { Ask → Found Self.Env Self.State → Value Self.Env Self.State };

    /// Does the work of a request on what it names. The result is the value, or want of memory. A request that its line alone
    /// decides has the reply of that refusal.
    fn work(
        &self,
        alloc: Global,
        request: &Request,
        found: &Found<Self::Env, Self::State>,
    ) -> Worked<Self::Env, Self::State>
        ensures { Gives (value_at value request.now.ask found.now) result };

    /// Each reply is one line, and none is the memory line, whatever its numbers are.
    ghost replies: { (ask : Ask) (found : Found Self.Env Self.State) → SaysReply (value ask found) };

    /// A clone equals what it was made from.
    ghost env_clones: { (x y : Self.Env) → Self.Env.is_clone x y → y ≡ x };

    ghost state_clones: { (x y : Self.State) → Self.State.is_clone x y → y ≡ x };
}

impl<E, S> Worked<E, S> {
    /// What an entry says of it.
    pub(crate) fn gave(&self) -> Gave
        ensures { result ≡ gave_by self.now }
    {
        match self {
            Worked::Memory => Gave::Memory,
            _ => Gave::Answer,
        }
    }
}

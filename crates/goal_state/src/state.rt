ghost use Rattle.std.specs.Prelude.{◌≡◌, ◌≤◌, ◌↔◌, [], All, IfOk, IsTrue};
ghost use Rattle.ld_rules.specs.Legality.{IsLegalEnvironment};
ghost use Rattle.ld_terms.specs.Views.{Keeps};
ghost use Rattle.conversion.specs.Globals.{env_of, IsItemOf, IsDeclOf};
ghost use Rattle.meta_context.specs.Plain.{plain_items};
ghost use Rattle.goal_state.specs.State as state;
ghost use Rattle.goal_state.specs.StoredState.{plain_state, IsKeptState};
ghost use Rattle.goal_state.specs.Laws.{IsProof};
ghost use Rattle.goal_state.specs.Following.{MayFollow};
ghost use Rattle.goal_state.specs.Starting.{started};
ghost use Rattle.goal_state.specs.Answers.{Starts};

use crate::fault::StartFault;
use crate::goals::{are_assigned, open_numbers, other_numbers};
use crate::starting::first_metas;
use crate::unfolding::unfold_metas;
use kernel_check::infer_sort;
use ld_terms::{Fuel, List, Terms, View};
use meta_context::{Env, Metas};
use std::alloc::{AllocError, Global};
use std::marker::Model;

/// A goal state: a store of terms, an environment, a metavariable context that is legal over it, and the active goals in their order.
///
/// Contracts see the store, the items, the declarations and the goals; [`plain_state`] of that is the state over plain trees. The
/// metavariables are legal, metavariable 0 is declared over the empty context, and each active goal is open and listed once: these are
/// facts of every state (`legal` of [`GoalState::terms`]).
#[derive(Drop)]
pub struct GoalState<T: Terms> {
    terms: T,
    env: Env<T::Handle>,
    metas: Metas<T::Handle>,
    goals: List<u32>,
}

impl<T: Terms> Model for GoalState<T> {
    ghost use Rattle.goal_state.specs.StoredState.{StoredState, IsKeptState};
    ghost use Rattle.goal_state.specs.Codes.{coded_state};

    ghost Value = { StoredState T T.Handle };

    ghost coded = { coded_state T.code T.Handle.code };

    ghost view = { λ s. record { terms = s.terms; items = s.env; metas = s.metas; goals = s.goals } };

    ghost invariant = { λ s. IsKeptState T.holds T.means (record { terms = s.terms; items = s.env; metas = s.metas; goals = s.goals }) };
}

impl<T: Terms + Drop> GoalState<T> {
    /// The state of a proof that begins: metavariable 0 is declared over the empty context with the type, and is the one active goal.
    ///
    /// The type is tested for its depth first, and then its sort is inferred once in the environment. The call works in `terms`, where
    /// the terms of a refusal stand and older handles keep their meaning; the state has a fork of it. The environment stays as it was.
    ///
    /// # Errors
    ///
    /// See [`StartFault`]. A refusal leaves the units that the definition leaves, and after want of fuel none is left. Want of memory may
    /// come at any time.
    pub fn start(
        alloc: Global,
        terms: &mut T,
        env: &Env<T::Handle>,
        fuel: &mut Fuel,
        ty: T::Handle,
    ) -> Result<GoalState<T>, StartFault<T::Handle>>
        requires term { T.holds terms.old ty }
        requires items { All (IsItemOf (T.holds terms.old)) env.now }
        requires legal { IsLegalEnvironment (env_of (T.means terms.old) env.now []) }
        // The state or the refusal is that of the definition, with the units that it leaves.
        ensures value { Starts T.holds T.means terms.new (started (plain_items (T.means terms.old) env.now) (T.means terms.old ty) fuel.old) fuel.old fuel.new result }
        ensures less { fuel.new ≤ fuel.old }
        // Older handles mean what they meant, and so do they in the state's store.
        ensures kept { Keeps (T.holds terms.old) (T.means terms.old) (T.holds terms.new) (T.means terms.new) }
        ensures forked { IfOk result (λ s. Keeps (T.holds terms.new) (T.means terms.new) (T.holds s.terms) (T.means s.terms)) }
    {
        let metas = first_metas(alloc, &*terms, ty)?;
        let closed = Vec::new(alloc);
        infer_sort(alloc, terms, env, fuel, &closed, ty)?;
        let goals = List::from_slice(alloc, &[0])?;
        let env = env.fork(alloc)?;
        let terms = terms.fork(alloc)?;
        // The lengths tell that the items and the metavariables have the names and the lengths of an environment and of contexts.
        let _length = env.len();
        let _next = metas.next();
        Ok(GoalState {
            terms,
            env,
            metas,
            goals,
        })
    }

    /// The store of the state's terms. Takes no memory.
    pub fn terms(&self) -> &T
        ensures value { result.now ≡ self.now.terms }
        // The store holds the state's terms, and the state is legal.
        ensures legal { IsKeptState T.holds T.means self.now }
    {
        &self.terms
    }

    /// The environment. Takes no memory.
    pub fn env(&self) -> &Env<T::Handle>
        ensures { result.now ≡ self.now.items }
    {
        &self.env
    }

    /// The metavariable context. Takes no memory.
    pub fn metas(&self) -> &Metas<T::Handle>
        ensures { result.now ≡ self.now.metas }
    {
        &self.metas
    }

    /// The numbers of the active goals, in their order. Takes no memory.
    pub fn goals(&self) -> &[u32]
        ensures { result.now ≡ self.now.goals }
    {
        self.goals.as_slice()
    }

    /// Whether the state is solved: no goal is open, active or dormant. Takes no memory.
    pub fn solved(&self) -> bool
        ensures { IsTrue result ↔ state.IsSolved (plain_state T.means self.now) }
    {
        are_assigned(&self.metas)
    }

    /// The state after this one, over a store that keeps what this one's holds, with metavariables that extend this one's by declarations
    /// and assignments and are legal over the same environment, and with other active goals. This state stays as it was. Fails for want
    /// of memory alone.
    pub fn next_state(
        &self,
        alloc: Global,
        terms: T,
        metas: Metas<T::Handle>,
        goals: List<u32>,
    ) -> Result<GoalState<T>, AllocError>
        requires kept { Keeps (T.holds self.now.terms) (T.means self.now.terms) (T.holds terms) (T.means terms) }
        requires held { All (IsDeclOf (T.holds terms)) metas }
        requires follows { MayFollow (plain_state T.means self.now) (state.plain_metas (T.means terms) metas) goals }
        ensures terms { IfOk result (λ s. s.terms ≡ terms) }
        ensures items { IfOk result (λ s. s.items ≡ self.now.items) }
        ensures metas { IfOk result (λ s. s.metas ≡ metas) }
        ensures goals { IfOk result (λ s. s.goals ≡ goals) }
        // Over plain trees the environment is the same, and only metavariables and goals are other ones.
        ensures plain { IfOk result (λ s. plain_state T.means s ≡ record (plain_state T.means self.now) { metas = state.plain_metas (T.means terms) metas; goals = goals }) }
    {
        let env = self.env.fork(alloc)?;
        // The number of metavariables tells that their contexts have the names and the lengths of contexts.
        let _next = metas.next();
        Ok(GoalState {
            terms,
            env,
            metas,
            goals,
        })
    }

    /// The open goals, which are the metavariables without a value, the least number first. Fails for want of memory alone.
    pub fn open_goals(&self, alloc: Global) -> Result<List<u32>, AllocError>
        ensures { IfOk result (λ ms. ms ≡ state.open_goals (plain_state T.means self.now)) }
    {
        open_numbers(alloc, &self.metas)
    }

    /// The dormant goals, which are the open ones that aren't active, the least number first. Fails for want of memory alone.
    pub fn dormant(&self, alloc: Global) -> Result<List<u32>, AllocError>
        ensures { IfOk result (λ ms. ms ≡ state.dormant (plain_state T.means self.now)) }
    {
        other_numbers(alloc, &self.metas, self.goals.as_slice())
    }

    /// The value of a solved state: metavariable 0 with every metavariable unfolded and nothing else reduced, in a fork of the state's
    /// store. It is a closed term without metavariables, of the type of metavariable 0 in the environment alone. Fails for want of memory
    /// alone.
    pub fn value_of_root(&self, alloc: Global) -> Result<(T, T::Handle), AllocError>
        requires { state.IsSolved (plain_state T.means self.now) }
        ensures value { IfOk result (λ r. T.means r.0 r.1 ≡ state.root_value (plain_state T.means self.now)) }
        ensures held { IfOk result (λ r. T.holds r.0 r.1) }
        // The state's handles mean in the fork what they meant.
        ensures kept { IfOk result (λ r. Keeps (T.holds self.now.terms) (T.means self.now.terms) (T.holds r.0) (T.means r.0)) }
        // It has the type of metavariable 0 in the environment alone, is closed, and has no metavariable.
        ensures proved { IfOk result (λ r. IsProof (plain_state T.means self.now) (T.means r.0 r.1)) }
    {
        let mut terms = self.terms.fork(alloc)?;
        let root = terms.make(alloc, View::Meta(0, &[]))?;
        let value = unfold_metas(alloc, &mut terms, &self.metas, root)?;
        Ok((terms, value))
    }
}

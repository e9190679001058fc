//! Solving a pattern by a term, pruning metavariables from it, and settling a metavariable by a value.

ghost use Rattle.std.specs.Prelude.{◌≡◌, ◌≤◌, ◌<◌, ◌-◌, ℕ, suc, All, IfOk, List as Listed};
ghost use Rattle.ld_trees.specs.Term.{Term};
ghost use Rattle.ld_terms.specs.Views.{Keeps};
ghost use Rattle.ld_terms.specs.declared.globals.Decl.{Decl};
ghost use Rattle.ld_terms.specs.declared.globals.Item.{Item};
ghost use Rattle.ld_terms.specs.declared.globals.Local.{Local};
ghost use Rattle.term_syntax.specs.ReadsBack.{IsContext};
ghost use Rattle.conversion.specs.Globals.{AreGlobalsOf, AreLocals, IsDeclOf};
ghost use Rattle.meta_context.specs.Entered.{names_of};
ghost use Rattle.meta_context.specs.Plain.{plain_locals, rules_env};
ghost use Rattle.goal_state.specs.State.{plain_metas};
ghost use Rattle.unification.specs.Refusals.{Scope};
ghost use Rattle.unification.specs.Unification as tree;
ghost use Rattle.unification.specs.Solving as solving;
ghost use Rattle.unification.specs.Pruning as pruning;
ghost use Rattle.unification.specs.Pruning.{Inside};
ghost use Rattle.pattern_unify.specs.Answers.{Answers, AreRead};
ghost use Rattle.pattern_unify.specs.Tries.{GoesOn, shrunk, with_term};
ghost use Rattle.pattern_unify.specs.Walks.{inverse, variables_of};

use crate::engine::unify_in;
use crate::entries::{holds_only_kept, kept_context, kept_entries, over_kept};
use crate::fault::UnifyFault;
use crate::metavariables::{declare_in, find_type, give_value};
use crate::renaming::rename;
use crate::replacing::{replace, spend_occurrences};
use crate::spots::{Spot, first_bad};
use crate::variables::{Arguments, Flags};
use ld_terms::{Fuel, Local, Terms};
use meta_context::{Env, Metas};
use std::alloc::Global;

/// Solves a metavariable with these arguments by a term, in a context of so many entries.
#[cycle(unifying)]
pub fn solve<T: Terms>(
    alloc: Global,
    terms: &mut T,
    env: &Env<T::Handle>,
    metas: &Metas<T::Handle>,
    fuel: &mut Fuel,
    depth: u32,
    m: u32,
    args: &Arguments,
    h: T::Handle,
) -> Result<Metas<T::Handle>, UnifyFault<T::Handle>>
    requires globals { AreGlobalsOf (T.holds terms.old) env.now metas.now }
    requires term { T.holds terms.old h }
    ensures value { (Δ : Listed (Item Term)) (Σ : Listed (Decl Term)) (t : Term) → AreRead (T.means terms.old) env.now metas.now Δ Σ → T.means terms.old h ≡ t → Answers (T.holds terms.new) (T.means terms.new) (plain_metas (T.means terms.new)) (solving.solve (rules_env Δ) (tree.unify (rules_env Δ)) depth m (variables_of args.now.variables.items) Σ t fuel.old) fuel.new result }
    ensures held { IfOk result (λ r. All (IsDeclOf (T.holds terms.new)) r) }
    ensures less { fuel.new ≤ fuel.old }
    ensures kept { Keeps (T.holds terms.old) (T.means terms.old) (T.holds terms.new) (T.means terms.new) }
{
    match first_bad(alloc, terms, metas, args, h)? {
        Spot::Nowhere => solve_outright(alloc, terms, env, metas, fuel, m, args, h),
        Spot::Outside(i) => Err(UnifyFault::Scope {
            m,
            level: level_of(depth, i),
        }),
        Spot::Inside(i, p, marks) => solve_pruned(
            alloc, terms, env, metas, fuel, depth, m, args, h, i, p, &marks,
        ),
    }
}

/// The level of a variable in a context of so many entries.
fn level_of(depth: u32, i: u32) -> u32
    ensures { result ≡ depth - suc i }
{
    if i < depth { depth - 1 - i } else { 0 }
}

/// Settles a metavariable by a term without bad variables, in which each argument is named by its place.
#[cycle(unifying)]
fn solve_outright<T: Terms>(
    alloc: Global,
    terms: &mut T,
    env: &Env<T::Handle>,
    metas: &Metas<T::Handle>,
    fuel: &mut Fuel,
    m: u32,
    args: &Arguments,
    h: T::Handle,
) -> Result<Metas<T::Handle>, UnifyFault<T::Handle>>
    requires globals { AreGlobalsOf (T.holds terms.old) env.now metas.now }
    requires term { T.holds terms.old h }
    ensures value { (Δ : Listed (Item Term)) (Σ : Listed (Decl Term)) (t : Term) → AreRead (T.means terms.old) env.now metas.now Δ Σ → T.means terms.old h ≡ t → Answers (T.holds terms.new) (T.means terms.new) (plain_metas (T.means terms.new)) (tree.settle (rules_env Δ) Σ m (inverse (variables_of args.now.variables.items) t) fuel.old) fuel.new result }
    ensures held { IfOk result (λ r. All (IsDeclOf (T.holds terms.new)) r) }
    ensures less { fuel.new ≤ fuel.old }
    ensures kept { Keeps (T.holds terms.old) (T.means terms.old) (T.holds terms.new) (T.means terms.new) }
{
    let value = rename(alloc, terms, args, h)?;
    settle_in(alloc, terms, env, metas, fuel, m, value)
}

/// Solves a metavariable by a term in which a bad variable stands inside arguments of an unassigned one, which is pruned.
#[cycle(unifying)]
fn solve_pruned<T: Terms>(
    alloc: Global,
    terms: &mut T,
    env: &Env<T::Handle>,
    metas: &Metas<T::Handle>,
    fuel: &mut Fuel,
    depth: u32,
    m: u32,
    args: &Arguments,
    h: T::Handle,
    i: u32,
    p: u32,
    marks: &[bool],
) -> Result<Metas<T::Handle>, UnifyFault<T::Handle>>
    requires globals { AreGlobalsOf (T.holds terms.old) env.now metas.now }
    requires term { T.holds terms.old h }
    requires occurs { 1 ≤ pruning.occurrences p (T.means terms.old h) }
    ensures value { (Δ : Listed (Item Term)) (Σ : Listed (Decl Term)) (t : Term) → AreRead (T.means terms.old) env.now metas.now Δ Σ → T.means terms.old h ≡ t → Answers (T.holds terms.new) (T.means terms.new) (plain_metas (T.means terms.new)) (solving.solve_by (rules_env Δ) (tree.unify (rules_env Δ)) depth m (variables_of args.now.variables.items) (solving.solve (rules_env Δ) (tree.unify (rules_env Δ)) depth m (variables_of args.now.variables.items)) Σ t (Inside i p marks.now) fuel.old) fuel.new result }
    ensures held { IfOk result (λ r. All (IsDeclOf (T.holds terms.new)) r) }
    ensures less { fuel.new ≤ fuel.old }
    ensures kept { Keeps (T.holds terms.old) (T.means terms.old) (T.holds terms.new) (T.means terms.new) }
{
    let level = level_of(depth, i);
    if p == m {
        return Err(UnifyFault::Scope { m, level });
    }
    let (after, pruned) = prune(alloc, terms, env, metas, fuel, m, level, p, marks, h)?;
    solve(alloc, terms, env, &after, fuel, depth, m, args, pruned)
}

/// Prunes a metavariable from a term: it is settled by a smaller new one, by which its occurrences are replaced, for a unit each. A type that
/// holds an entry that isn't kept is refused as a level that is out of `m`'s scope.
#[cycle(unifying)]
fn prune<T: Terms>(
    alloc: Global,
    terms: &mut T,
    env: &Env<T::Handle>,
    metas: &Metas<T::Handle>,
    fuel: &mut Fuel,
    m: u32,
    level: u32,
    p: u32,
    marks: &[bool],
    h: T::Handle,
) -> Result<(Metas<T::Handle>, T::Handle), UnifyFault<T::Handle>>
    requires globals { AreGlobalsOf (T.holds terms.old) env.now metas.now }
    requires term { T.holds terms.old h }
    requires occurs { 1 ≤ pruning.occurrences p (T.means terms.old h) }
    ensures value { (Δ : Listed (Item Term)) (Σ : Listed (Decl Term)) (t : Term) → AreRead (T.means terms.old) env.now metas.now Δ Σ → T.means terms.old h ≡ t → GoesOn (T.holds terms.new) (T.means terms.new) (λ again. pruning.pruned (rules_env Δ) (tree.unify (rules_env Δ)) Σ (Scope m level) p marks.now t again fuel.old) fuel.new result }
    ensures fewer { IfOk result (λ _. fuel.new < fuel.old) }
    ensures term { IfOk result (λ r. T.holds terms.new r.1) }
    ensures held { IfOk result (λ r. All (IsDeclOf (T.holds terms.new)) r.0) }
    ensures less { fuel.new ≤ fuel.old }
    ensures kept { Keeps (T.holds terms.old) (T.means terms.old) (T.holds terms.new) (T.means terms.new) }
{
    // The number tells that the names of contexts are as those of metavariables are.
    let _count = metas.next();
    match metas.decl(p) {
        Some(decl) => {
            let ctx = decl.ctx.as_slice();
            let flags = kept_entries(alloc, terms, marks, ctx)?;
            if !holds_only_kept(terms, &flags, decl.ty)? {
                return Err(UnifyFault::Scope { m, level });
            }
            let (more, value) = shrink(alloc, terms, env, metas, fuel, &flags, ctx, decl.ty)?;
            let after = settle_in(alloc, terms, env, &more, fuel, p, value)?;
            if !spend_occurrences(terms, fuel, p, h) {
                return Err(UnifyFault::Fuel);
            }
            let pruned = replace(alloc, terms, p, value, h)?;
            Ok((after, pruned))
        }
        None => Err(UnifyFault::Scope { m, level }),
    }
}

/// Declares a metavariable over the kept entries of a context, and makes the value by which a metavariable over the whole context is
/// settled: the new one applied to the kept variables.
fn shrink<T: Terms>(
    alloc: Global,
    terms: &mut T,
    env: &Env<T::Handle>,
    metas: &Metas<T::Handle>,
    fuel: &mut Fuel,
    flags: &[bool],
    ctx: &[Local<T::Handle>],
    ty: T::Handle,
) -> Result<(Metas<T::Handle>, T::Handle), UnifyFault<T::Handle>>
    requires globals { AreGlobalsOf (T.holds terms.old) env.now metas.now }
    requires context { AreLocals (T.holds terms.old) ctx.now }
    requires names { IsContext (names_of ctx.now) }
    requires ty { T.holds terms.old ty }
    ensures value { (Δ : Listed (Item Term)) (Σ : Listed (Decl Term)) (Γ : Listed (Local Term)) (A : Term) → AreRead (T.means terms.old) env.now metas.now Δ Σ → plain_locals (T.means terms.old) ctx.now ≡ Γ → T.means terms.old ty ≡ A → Answers (T.holds terms.new) (T.means terms.new) (with_term (T.means terms.new)) (shrunk (rules_env Δ) Σ flags.now Γ A fuel.old) fuel.new result }
    ensures term { IfOk result (λ r. T.holds terms.new r.1) }
    ensures held { IfOk result (λ r. All (IsDeclOf (T.holds terms.new)) r.0) }
    ensures less { fuel.new ≤ fuel.old }
    ensures kept { Keeps (T.holds terms.old) (T.means terms.old) (T.holds terms.new) (T.means terms.new) }
{
    let kept = kept_context(alloc, terms, env, metas, fuel, flags, ctx)?;
    let names = Flags { flags };
    let ty = rename(alloc, terms, &names, ty)?;
    let (more, number) = declare_in(alloc, terms, env, metas, fuel, kept.as_slice(), ty)?;
    let value = over_kept(alloc, terms, number, flags)?;
    Ok((more, value))
}

/// Settles a metavariable by a value: the value's type is inferred in its context and unified with its type, and then it gets the value.
#[cycle(unifying)]
pub fn settle_in<T: Terms>(
    alloc: Global,
    terms: &mut T,
    env: &Env<T::Handle>,
    metas: &Metas<T::Handle>,
    fuel: &mut Fuel,
    m: u32,
    value: T::Handle,
) -> Result<Metas<T::Handle>, UnifyFault<T::Handle>>
    requires globals { AreGlobalsOf (T.holds terms.old) env.now metas.now }
    requires value { T.holds terms.old value }
    ensures value { (Δ : Listed (Item Term)) (Σ : Listed (Decl Term)) (v : Term) → AreRead (T.means terms.old) env.now metas.now Δ Σ → T.means terms.old value ≡ v → Answers (T.holds terms.new) (T.means terms.new) (plain_metas (T.means terms.new)) (tree.settle (rules_env Δ) Σ m v fuel.old) fuel.new result }
    ensures held { IfOk result (λ r. All (IsDeclOf (T.holds terms.new)) r) }
    ensures less { fuel.new ≤ fuel.old }
    ensures kept { Keeps (T.holds terms.old) (T.means terms.old) (T.holds terms.new) (T.means terms.new) }
{
    // The number tells that the contexts are as short as those of metavariables are.
    let _count = metas.next();
    match metas.decl(m) {
        Some(decl) => {
            let ctx = decl.ctx.as_slice();
            let found = find_type(alloc, terms, env, metas, fuel, ctx, value)?;
            let depth = ctx.len() as u32;
            let after = unify_in(alloc, terms, env, metas, fuel, depth, found, decl.ty)?;
            give_value(alloc, terms, &after, m, value)
        }
        None => Err(UnifyFault::Cycle { m }),
    }
}

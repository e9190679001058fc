//! Behind one more binder.

ghost use Rattle.std.specs.Prelude.{◌≡◌, ◌≤◌, ◌++◌, ◌∷◌, [], IfOk, List as Listed, length};
ghost use Rattle.std.specs.Option.{option_copied};
ghost use Rattle.ld_trees.specs.Term.{Term};
ghost use Rattle.ld_terms.specs.Names.{IsEntryName};
ghost use Rattle.ld_terms.specs.Views.{Keeps};
ghost use Rattle.ld_terms.specs.declared.globals.Item.{Item};
ghost use Rattle.term_syntax.specs.ReadsBack.{IsContext};
ghost use Rattle.conversion.specs.Globals.{AreLocals};
ghost use Rattle.meta_context.specs.Entered.{names_of};
ghost use Rattle.meta_context.specs.Plain.{plain_locals, rules_env};
ghost use Rattle.unification.specs.Metavariables.{extended};
ghost use Rattle.elaboration.specs.Elaboration as spec;
ghost use Rattle.elaboration.specs.Refusals.{unify_step};
ghost use Rattle.elaborate.specs.Answers.{Answers};
ghost use Rattle.elaborate.specs.Standing.{IsHeld, IsRead};

use crate::fault::ElabFault;
use crate::standing::{Here, Work, depth_of};
use ld_terms::{Fuel, List, Local, Name, Terms};
use meta_context::Env;
use pattern_unify::{extend, name_at};
use std::alloc::{AllocError, Global};
use term_text::{Label, level_name};

/// The name of a binder's entry at a level: the binder's own where it is a name of the texts, and else the level name of the level.
fn entry_name(alloc: Global, level: u32, label: Option<&Label>) -> Result<Name, AllocError>
    ensures value { IfOk result (λ n. n ≡ spec.entry_name level (option_copied label.entry)) }
    ensures named { IfOk result (IsEntryName level) }
{
    match label {
        Some(Label::Plain(name)) => name_at(alloc, level as usize, name),
        _ => level_name(alloc, u64::from(level)),
    }
}

/// The context with one more entry, for a binder, of a type that has a sort.
pub fn entered<T: Terms>(
    alloc: Global,
    terms: &mut T,
    env: &Env<T::Handle>,
    fuel: &mut Fuel,
    work: &Work<T::Handle>,
    here: &Here<'_, '_, T::Handle>,
    label: Option<&Label>,
    domain: T::Handle,
) -> Result<List<Local<T::Handle>>, ElabFault<T::Handle>>
    requires held { IsHeld (T.holds terms.old) env.now work.now here.now }
    requires domain { T.holds terms.old domain }
    ensures value { (Δ : Listed (Item Term)) (w : spec.Work) (s : spec.Surroundings) (A : Term) → IsRead (T.means terms.old) env.now work.now here.now Δ w s → T.means terms.old domain ≡ A → Answers (T.holds terms.new) (T.means terms.new) (plain_locals (T.means terms.new)) (unify_step (extended (rules_env Δ) w.metas s.entries (spec.entry_name (spec.depth_of s) (option_copied label.entry)) A) fuel.old) fuel.new result }
    ensures held { IfOk result (AreLocals (T.holds terms.new)) }
    ensures names { IfOk result (λ l. IsContext (names_of l)) }
    ensures less { fuel.new ≤ fuel.old }
    ensures kept { Keeps (T.holds terms.old) (T.means terms.old) (T.holds terms.new) (T.means terms.new) }
{
    let name = entry_name(alloc, depth_of(here.entries), label)?;
    Ok(extend(
        alloc,
        terms,
        env,
        &work.metas,
        fuel,
        here.entries,
        &name,
        domain,
    )?)
}

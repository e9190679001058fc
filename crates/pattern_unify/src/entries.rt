//! Which entries of a metavariable's context are kept, and the context and the arguments that they make.

ghost use Rattle.std.specs.Prelude.{◌≡◌, ◌≤◌, ◌&&◌, [], List as Listed, All, IfOk, OnOk, length, map, reverse};
ghost use Rattle.ld_trees.specs.Term.{Term, Meta};
ghost use Rattle.ld_terms.specs.Views.{Keeps, terms_of};
ghost use Rattle.ld_terms.specs.declared.globals.Decl.{Decl};
ghost use Rattle.ld_terms.specs.declared.globals.Item.{Item};
ghost use Rattle.ld_terms.specs.declared.globals.Local.{Local};
ghost use Rattle.term_syntax.specs.ReadsBack.{IsContext};
ghost use Rattle.conversion.specs.Globals.{AreGlobalsOf, AreLocals};
ghost use Rattle.meta_context.specs.Entered.{names_of};
ghost use Rattle.meta_context.specs.Plain.{plain_locals, rules_env};
ghost use Rattle.unification.specs.Patterns.{holds_only};
ghost use Rattle.unification.specs.Pruning as tree;
ghost use Rattle.pattern_unify.specs.Answers.{Answers, AreRead};
ghost use Rattle.pattern_unify.specs.Walks.{variables_of, kept_turn, IsKeptVariable};

use crate::fault::UnifyFault;
use crate::metavariables::extend;
use crate::names::name_at;
use crate::renaming::rename;
use crate::spots::bad_variable;
use crate::variables::{Flags, narrow};
use ld_terms::{Fuel, List, Local, Name, Terms, View};
use meta_context::{Env, Metas};
use std::alloc::{AllocError, Global};

/// Whether a term holds no entry that isn't kept, by flags of the entries, the first entry's first.
pub fn holds_only_kept<T: Terms>(
    terms: &T,
    flags: &[bool],
    h: T::Handle,
) -> Result<bool, AllocError>
    requires { T.holds terms.now h }
    ensures { IfOk result (λ b. b ≡ holds_only (tree.is_kept (reverse flags.now)) 0 (T.means terms.now h)) }
{
    let kept = Flags { flags };
    Ok(bad_variable(terms, &kept, 0, h)?.is_none())
}

/// Whether an entry behind others, of which the kept ones are flagged, is kept.
fn is_kept_entry<T: Terms>(
    terms: &T,
    flags: &[bool],
    mark: bool,
    ty: T::Handle,
) -> Result<bool, AllocError>
    requires { T.holds terms.now ty }
    ensures { IfOk result (λ b. b ≡ (mark && holds_only (tree.is_kept (reverse flags.now)) 0 (T.means terms.now ty))) }
{
    if mark {
        holds_only_kept(terms, flags, ty)
    } else {
        Ok(false)
    }
}

/// Which entries are kept: those whose argument is marked and whose type holds no entry that isn't kept. The first entry's flag is first.
pub fn kept_entries<T: Terms>(
    alloc: Global,
    terms: &T,
    marks: &[bool],
    ctx: &[Local<T::Handle>],
) -> Result<Vec<bool>, AllocError>
    requires { AreLocals (T.holds terms.now) ctx.now }
    ensures { IfOk result (λ v. v.items ≡ tree.kept_entries marks.now (plain_locals (T.means terms.now) ctx.now) []) }
{
    let mut flags = Vec::new(alloc);
    for k in 0..marks.len() {
        if k >= ctx.len() {
            return Ok(flags);
        }
        let flag = is_kept_entry(terms, &flags, marks[k], ctx[k].ty)?;
        flags.push(flag)?;
    }
    Ok(flags)
}

/// The variables of the kept entries, the first one first. A greater one than 4,294,967,295 counts as want of memory.
fn kept_variables(alloc: Global, flags: &[bool]) -> Result<Vec<u32>, AllocError>
    ensures { IfOk result (λ v. variables_of v.items ≡ tree.kept_variables (reverse flags.now) 0) }
{
    let mut variables = Vec::new(alloc);
    for k in 0..flags.len() {
        keep_variable(&mut variables, flags[k], flags.len() - 1 - k)?;
    }
    Ok(variables)
}

/// Adds a variable where its entry is kept. A greater one than 4,294,967,295 counts as want of memory.
fn keep_variable(variables: &mut Vec<u32>, flag: bool, i: usize) -> Result<(), AllocError>
    ensures { OnOk result (IsKeptVariable flag i variables.old.items variables.new.items) }
{
    if flag {
        variables.push(narrow(i)?)?;
        Ok(())
    } else {
        Ok(())
    }
}

/// Terms that are variables.
fn as_terms<T: Terms>(
    alloc: Global,
    terms: &mut T,
    variables: &[u32],
) -> Result<Vec<T::Handle>, AllocError>
    ensures tree { IfOk result (λ v. terms_of (map (T.means terms.new) v.items) ≡ variables_of variables.now) }
    ensures held { IfOk result (λ v. All (T.holds terms.new) v.items) }
    ensures kept { Keeps (T.holds terms.old) (T.means terms.old) (T.holds terms.new) (T.means terms.new) }
{
    let mut made = Vec::new(alloc);
    for i in variables {
        made.push(terms.make(alloc, View::Var(*i))?)?;
    }
    Ok(made)
}

/// A metavariable applied to the variables of the kept entries.
pub fn over_kept<T: Terms>(
    alloc: Global,
    terms: &mut T,
    m: u32,
    flags: &[bool],
) -> Result<T::Handle, AllocError>
    ensures tree { IfOk result (λ r. T.means terms.new r ≡ Meta m (tree.kept_variables (reverse flags.now) 0)) }
    ensures held { IfOk result (λ r. T.holds terms.new r) }
    ensures kept { Keeps (T.holds terms.old) (T.means terms.old) (T.holds terms.new) (T.means terms.new) }
{
    let variables = kept_variables(alloc, flags)?;
    let args = as_terms(alloc, terms, &variables)?;
    terms.make(alloc, View::Meta(m, &args))
}

/// The context of the entries kept so far, extended by one more where that is kept.
fn keep_entry<T: Terms>(
    alloc: Global,
    terms: &mut T,
    env: &Env<T::Handle>,
    metas: &Metas<T::Handle>,
    fuel: &mut Fuel,
    flags: &[bool],
    flag: bool,
    kept: List<Local<T::Handle>>,
    entry: &Local<T::Handle>,
) -> Result<List<Local<T::Handle>>, UnifyFault<T::Handle>>
    requires globals { AreGlobalsOf (T.holds terms.old) env.now metas.now }
    requires context { AreLocals (T.holds terms.old) kept }
    requires names { IsContext (names_of kept) }
    requires ty { T.holds terms.old entry.now.ty }
    ensures value { (Δ : Listed (Item Term)) (Σ : Listed (Decl Term)) (Γ : Listed (Local Term)) (A : Term) → AreRead (T.means terms.old) env.now metas.now Δ Σ → plain_locals (T.means terms.old) kept ≡ Γ → T.means terms.old entry.now.ty ≡ A → Answers (T.holds terms.new) (T.means terms.new) (plain_locals (T.means terms.new)) (kept_turn flag (rules_env Δ) Σ (reverse flags.now) Γ entry.now.name A fuel.old) fuel.new result }
    ensures held { IfOk result (AreLocals (T.holds terms.new)) }
    ensures names { IfOk result (λ l. IsContext (names_of l)) }
    ensures less { fuel.new ≤ fuel.old }
    ensures kept { Keeps (T.holds terms.old) (T.means terms.old) (T.holds terms.new) (T.means terms.new) }
{
    if !flag {
        return Ok(kept);
    }
    let kept = kept.as_slice();
    let name = name_at(alloc, kept.len(), &entry.name)?;
    let before = Flags { flags };
    let ty = rename(alloc, terms, &before, entry.ty)?;
    extend(alloc, terms, env, metas, fuel, kept, &name, ty)
}

/// The kept entries as a context: the empty one extended by each in turn.
pub fn kept_context<T: Terms>(
    alloc: Global,
    terms: &mut T,
    env: &Env<T::Handle>,
    metas: &Metas<T::Handle>,
    fuel: &mut Fuel,
    flags: &[bool],
    ctx: &[Local<T::Handle>],
) -> Result<List<Local<T::Handle>>, UnifyFault<T::Handle>>
    requires globals { AreGlobalsOf (T.holds terms.old) env.now metas.now }
    requires context { AreLocals (T.holds terms.old) ctx.now }
    requires names { IsContext (names_of ctx.now) }
    ensures value { (Δ : Listed (Item Term)) (Σ : Listed (Decl Term)) (Γ : Listed (Local Term)) → AreRead (T.means terms.old) env.now metas.now Δ Σ → plain_locals (T.means terms.old) ctx.now ≡ Γ → Answers (T.holds terms.new) (T.means terms.new) (plain_locals (T.means terms.new)) (tree.kept_context (rules_env Δ) Σ flags.now Γ [] [] fuel.old) fuel.new result }
    ensures held { IfOk result (AreLocals (T.holds terms.new)) }
    ensures names { IfOk result (λ l. IsContext (names_of l)) }
    ensures less { fuel.new ≤ fuel.old }
    ensures kept { Keeps (T.holds terms.old) (T.means terms.old) (T.holds terms.new) (T.means terms.new) }
{
    let mut kept = List::of(Vec::new(alloc));
    for k in 0..flags.len() {
        if k >= ctx.len() {
            return Ok(kept);
        }
        kept = keep_entry(
            alloc,
            terms,
            env,
            metas,
            fuel,
            &flags[..k],
            flags[k],
            kept,
            &ctx[k],
        )?;
    }
    Ok(kept)
}

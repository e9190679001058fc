ghost use Rattle.std.specs.Prelude.{◌≤◌, IfOk};
ghost use Rattle.ld_terms.specs.Views.{Keeps};
ghost use Rattle.conversion.specs.Answers.{IsAnswer};
ghost use Rattle.conversion.specs.Globals.{env_of, AreGlobalsOf};
ghost use Rattle.conversion.specs.WeakHead as tree;

use crate::steps::{apply_all, go_to_head, next_step};
use ld_terms::{Fuel, Globals, Halt, Terms, subst_all};
use std::alloc::Global;

/// The weak head form of a term, with one unit of fuel for each β- and δ-step at its head. Defined constants and assigned
/// metavariables are unfolded where they stand at the head with exactly one argument per parameter. Older handles keep their meaning.
///
/// It is [`Halt::Fuel`] exactly where a further step finds no unit, and the fuel is then 0. Want of memory may come at any time.
pub fn whnf<T: Terms, G: Globals<T::Handle>>(
    alloc: Global,
    terms: &mut T,
    globals: &G,
    fuel: &mut Fuel,
    h: T::Handle,
) -> Result<T::Handle, Halt>
    requires term { T.holds terms.old h }
    requires globals { AreGlobalsOf (T.holds terms.old) (G.items globals.now) (G.metas globals.now) }
    ensures value { IsAnswer (T.means terms.new) (tree.whnf (env_of (T.means terms.old) (G.items globals.now) (G.metas globals.now)) (T.means terms.old h) fuel.old) fuel.new result }
    ensures held { IfOk result (T.holds terms.new) }
    ensures less { fuel.new ≤ fuel.old }
    ensures kept { Keeps (T.holds terms.old) (T.means terms.old) (T.holds terms.new) (T.means terms.new) }
{
    let mut waiting = Vec::new(alloc);
    let mut head = go_to_head(terms, h, &mut waiting)?;
    let mut stands = true;
    while let Some(reduct) = next_step(alloc, terms, globals, head, &mut waiting)? {
        if !fuel.spend() {
            return Err(Halt::Fuel);
        }
        let term = subst_all(alloc, terms, reduct.body, &reduct.args)?;
        head = go_to_head(terms, term, &mut waiting)?;
        stands = false;
    }
    if stands {
        return Ok(h);
    }
    Ok(apply_all(alloc, terms, head, waiting)?)
}

//! What stands at the head of a weak head form, and what is done with two of them.

ghost use Rattle.std.specs.Prelude.{◌≡◌, IfOk, All, map, option_map};
ghost use Rattle.ld_terms.specs.Views.{terms_of};
ghost use Rattle.goal_state.specs.State.{plain_metas};
ghost use Rattle.unification.specs.Patterns as tree;
ghost use Rattle.pattern_unify.specs.Walks.{plain_side, AreDistinct, IsNewVariable, applied_if, variables_of};
ghost use Rattle.conversion.specs.Spines.{IsNoApplication};

use crate::spots::is_open;
use crate::variables::{Arguments, place_among};
use ld_terms::{Terms, View};
use meta_context::Metas;
use std::alloc::{AllocError, Global};

/// What stands at the head of a weak head form.
#[derive(Drop)]
pub enum Side {
    /// No unassigned metavariable.
    Rigid,
    /// An unassigned metavariable, with further arguments or arguments that aren't distinct variables.
    Flexible(u32),
    /// A metavariable whose arguments are distinct variables, without further arguments.
    Pattern(u32, Arguments),
}

/// What stands at the head of a term. Fails for want of memory alone.
pub fn side_of<T: Terms>(
    alloc: Global,
    terms: &T,
    metas: &Metas<T::Handle>,
    h: T::Handle,
) -> Result<Side, AllocError>
    requires { T.holds terms.now h }
    ensures { IfOk result (λ s. plain_side s ≡ tree.side (plain_metas (T.means terms.now) metas.now) (T.means terms.now h)) }
{
    let mut head = h;
    let mut applied = false;
    while let View::App(f, _) = terms.node(head) {
        head = f;
        applied = true;
    }
    side_of_head(alloc, terms, metas, head, applied)
}

/// What stands at the head of a term that is applied or not, where the term itself is no application.
fn side_of_head<T: Terms>(
    alloc: Global,
    terms: &T,
    metas: &Metas<T::Handle>,
    head: T::Handle,
    applied: bool,
) -> Result<Side, AllocError>
    requires term { T.holds terms.now head }
    requires head { IsNoApplication (T.means terms.now head) }
    ensures { IfOk result (λ s. plain_side s ≡ applied_if applied (tree.side (plain_metas (T.means terms.now) metas.now) (T.means terms.now head))) }
{
    match terms.node(head) {
        View::Meta(m, us) => {
            if !is_open(metas, m) {
                return Ok(Side::Rigid);
            }
            if applied {
                return Ok(Side::Flexible(m));
            }
            open_side(alloc, terms, m, us)
        }
        _ => Ok(Side::Rigid),
    }
}

/// An unassigned metavariable with its own arguments alone.
fn open_side<T: Terms>(
    alloc: Global,
    terms: &T,
    m: u32,
    us: &[T::Handle],
) -> Result<Side, AllocError>
    requires { All (T.holds terms.now) us.now }
    ensures { IfOk result (λ s. plain_side s ≡ tree.open_side m (terms_of (map (T.means terms.now) us.now))) }
{
    match distinct_variables(alloc, terms, us)? {
        Some(variables) => Ok(Side::Pattern(m, Arguments { variables })),
        None => Ok(Side::Flexible(m)),
    }
}

/// The variables that some terms are, where they are distinct variables.
fn distinct_variables<T: Terms>(
    alloc: Global,
    terms: &T,
    us: &[T::Handle],
) -> Result<Option<Vec<u32>>, AllocError>
    requires { All (T.holds terms.now) us.now }
    ensures { IfOk result (λ o. AreDistinct (terms_of (map (T.means terms.now) us.now)) (option_map (λ v. v.items) o)) }
{
    let mut variables = Vec::new(alloc);
    for u in us {
        match new_variable(terms, &variables, *u) {
            Some(i) => variables.push(i)?,
            None => return Ok(None),
        }
    }
    Ok(Some(variables))
}

/// The variable that a term is, where it isn't among others.
fn new_variable<T: Terms>(terms: &T, variables: &[u32], h: T::Handle) -> Option<u32>
    requires { T.holds terms.now h }
    ensures { IsNewVariable (variables_of variables.now) (T.means terms.now h) result }
{
    match terms.node(h) {
        View::Var(i) => match place_among(variables, i) {
            Some(_) => None,
            None => Some(i),
        },
        _ => None,
    }
}

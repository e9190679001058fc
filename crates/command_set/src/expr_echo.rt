//! `expr.echo`.

ghost use Rattle.std.specs.Prelude.{◌≡◌, [], IfOk, Ok};
ghost use Rattle.term_syntax.specs.Scoping.{scope};
ghost use Rattle.term_text.specs.Scoped.{arities};
ghost use Rattle.meta_context.specs.Plain.{plain_items};
ghost use Rattle.reply_text.specs.Members.{body_text};
ghost use Rattle.command_set.specs.Echo as spec;
ghost use Rattle.command_set.specs.Stored.{IsStored};

use crate::environment::Environment;
use kernel_check::infer;
use ld_terms::{Fuel, List, Terms};
use meta_context::Env;
use repl_json::Body;
use reply_text::{Member, Members, fault_members, scope_members, syntax_members, term_json};
use std::alloc::{AllocError, Global};
use term_text::{ReadFault, Surface, read_term, scope_term};

/// A closed term and its type.
fn typed_members<T: Terms>(
    alloc: Global,
    terms: &T,
    h: T::Handle,
    ty: T::Handle,
) -> Result<Members, AllocError>
    requires term { T.holds terms.now h }
    requires ty { T.holds terms.now ty }
    ensures { IfOk result (λ m. m ≡ spec.typed (T.means terms.now h) (T.means terms.now ty)) }
{
    let expr = Member::new("expr", term_json(alloc, terms, &[], h)?);
    let ty = Member::new("type", term_json(alloc, terms, &[], ty)?);
    Ok(Members {
        before: List::of(vec![in alloc; expr]?),
        after: List::of(vec![in alloc; ty]?),
    })
}

/// A closed term with its type, or the refusal of its inference.
fn inferred_members<T: Terms>(
    alloc: Global,
    terms: &mut T,
    items: &Env<T::Handle>,
    h: T::Handle,
    units: u64,
) -> Result<Members, AllocError>
    requires stored { IsStored (T.holds terms.old) (T.means terms.old) items.now }
    requires term { T.holds terms.old h }
    ensures { IfOk result (λ m. m ≡ spec.resolved (plain_items (T.means terms.old) items.now) units (Ok (T.means terms.old h))) }
{
    let mut fuel = Fuel::new(units);
    let closed = Vec::new(alloc);
    match infer(alloc, terms, items, &mut fuel, &closed, h) {
        Ok(ty) => typed_members(alloc, terms, h, ty),
        Err(fault) => fault_members(alloc, None, terms, &fault),
    }
}

/// The reply to a tree of the grammar.
fn resolved_members<T: Terms>(
    alloc: Global,
    terms: &mut T,
    items: &Env<T::Handle>,
    surface: &Surface,
    units: u64,
) -> Result<Members, AllocError>
    requires stored { IsStored (T.holds terms.old) (T.means terms.old) items.now }
    ensures { IfOk result (λ m. m ≡ spec.resolved (plain_items (T.means terms.old) items.now) units (scope (arities items.now) [] surface.now [])) }
{
    match scope_term(alloc, terms, items, &[], surface) {
        Ok(h) => inferred_members(alloc, terms, items, h, units),
        Err(fault) => scope_members(alloc, None, &fault),
    }
}

/// The reply to a tree of the grammar in an environment.
fn surface_members<T: Terms + Drop>(
    alloc: Global,
    env: &Environment<T>,
    surface: &Surface,
    units: u64,
) -> Result<Members, AllocError>
    ensures { IfOk result (λ m. m ≡ spec.resolved env.now units (scope (arities env.now) [] surface.now [])) }
{
    let stored = env.stored();
    let mut terms = stored.terms.fork(alloc)?;
    resolved_members(alloc, &mut terms, &stored.items, surface, units)
}

/// The reply to a text, with so many units of fuel for its type. Fails for want of memory alone.
#[tactic(auto, unfolding(crate::specs::Echo::echo))]
pub fn echo<T: Terms + Drop>(
    alloc: Global,
    env: &Environment<T>,
    expr: &[u8],
    units: u64,
) -> Result<Body, AllocError>
    ensures { IfOk result (λ b. b ≡ body_text (spec.echo env.now expr.now units)) }
{
    match read_term(alloc, expr) {
        Ok(surface) => surface_members(alloc, env, &surface, units)?.to_body(alloc),
        Err(ReadFault::Syntax { at }) => syntax_members(alloc, at)?.to_body(alloc),
        Err(ReadFault::Memory) => Err(AllocError),
    }
}

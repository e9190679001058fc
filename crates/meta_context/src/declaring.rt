ghost use Rattle.std.specs.Prelude.{◌≡◌, nat_lt};
ghost use Rattle.ld_trees.specs.Term.{none, ◌▹◌, depth};
ghost use Rattle.conversion.specs.Globals.{AreLocals, context_of};
ghost use Rattle.meta_trees.specs.Dependencies.{Depends};
ghost use Rattle.meta_context.specs.Stored.{metas_of};
ghost use Rattle.meta_context.specs.Entered.{names_of};
ghost use Rattle.meta_context.specs.Limits.{most_depth, is_too_deep};
ghost use Rattle.meta_context.specs.Declaring.{Declares, Assigns, IsOpen};
ghost use Rattle.term_syntax.specs.ReadsBack.{IsContext};

use crate::fault::MetaFault;
use crate::metas::{MOST_METAS, Metas, copy_context};
use ld_terms::{Decl, Local, Terms};
use std::alloc::Global;

/// How deep a declared type, the type of an entry and a value can be.
pub const MOST_DEPTH: u64 = 4_096;

/// Declares the next metavariable over a context with a type, and answers its number. The given metavariable context stays as it was.
///
/// # Errors
///
/// [`MetaFault::TooManyMetas`] exactly where 65,536 are declared. Else [`MetaFault::TooDeep`], with the number that the metavariable
/// would have, exactly where the type or the type of an entry is deeper than 4,096. Want of memory may come at any time.
pub fn declare<T: Terms>(
    alloc: Global,
    metas: &Metas<T::Handle>,
    terms: &T,
    ctx: &[Local<T::Handle>],
    ty: T::Handle,
) -> Result<(Metas<T::Handle>, u32), MetaFault>
    requires ctx { AreLocals (T.holds terms.now) ctx.now }
    requires ty { T.holds terms.now ty }
    requires names { IsContext (names_of ctx.now) }
    ensures { Declares (T.means terms.now) metas.now ctx.now ty result }
{
    let number = metas.next();
    if number >= MOST_METAS {
        return Err(MetaFault::TooManyMetas);
    }
    if has_deep_type(terms, ctx, ty) {
        return Err(MetaFault::TooDeep { m: number });
    }
    let decl = Decl {
        ctx: copy_context(alloc, ctx)?,
        ty,
        value: None,
    };
    Ok((metas.push(alloc, decl)?, number))
}

/// Gives a metavariable a value. The given metavariable context stays as it was.
///
/// # Errors
///
/// [`MetaFault::TooDeep`] exactly where the value is deeper than 4,096. Want of memory may come at any time.
pub fn assign<T: Terms>(
    alloc: Global,
    metas: &Metas<T::Handle>,
    terms: &T,
    m: u32,
    value: T::Handle,
) -> Result<Metas<T::Handle>, MetaFault>
    requires open { IsOpen metas.now m }
    requires value { T.holds terms.now value }
    requires acyclic { ¬ Depends (metas_of (T.means terms.now) metas.now) (none ▹ T.means terms.now value) m }
    ensures { Assigns (T.means terms.now) metas.now m value result }
{
    if is_deep(terms, value) {
        return Err(MetaFault::TooDeep { m });
    }
    Ok(metas.with_value(alloc, m, value)?)
}

/// Whether a term is deeper than 4,096.
fn is_deep<T: Terms>(terms: &T, h: T::Handle) -> bool
    requires { T.holds terms.now h }
    ensures { result ≡ nat_lt most_depth (depth (T.means terms.now h)) }
{
    terms.depth(h) > MOST_DEPTH
}

/// Whether a type or the type of an entry of its context is deeper than 4,096.
fn has_deep_type<T: Terms>(terms: &T, ctx: &[Local<T::Handle>], ty: T::Handle) -> bool
    requires ctx { AreLocals (T.holds terms.now) ctx.now }
    requires ty { T.holds terms.now ty }
    ensures { result ≡ is_too_deep (context_of (T.means terms.now) ctx.now ▹ T.means terms.now ty) }
{
    for entry in ctx {
        if is_deep(terms, entry.ty) {
            return true;
        }
    }
    is_deep(terms, ty)
}

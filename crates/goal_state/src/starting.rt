ghost use Rattle.goal_state.specs.Answers.{DeclaresFirst};

use crate::fault::StartFault;
use ld_terms::Terms;
use meta_context::{MetaFault, Metas, declare};
use std::alloc::Global;

/// Metavariable 0 alone, over the empty context with a type, unless that is too deep.
pub(crate) fn first_metas<T: Terms>(
    alloc: Global,
    terms: &T,
    ty: T::Handle,
) -> Result<Metas<T::Handle>, StartFault<T::Handle>>
    requires { T.holds terms.now ty }
    ensures { DeclaresFirst (T.means terms.now) ty result }
{
    let none = Metas::new();
    let closed = Vec::new(alloc);
    match declare(alloc, &none, terms, &closed, ty) {
        Ok((metas, _)) => Ok(metas),
        Err(MetaFault::TooDeep { m }) => Err(StartFault::TooDeep { m }),
        Err(MetaFault::Memory) => Err(StartFault::Memory),
        // No metavariable is declared before.
        Err(MetaFault::TooManyMetas) => unreachable!(),
    }
}

ghost use Rattle.std.specs.Prelude.{◌≡◌, All, IfOk, IfSome, map, option_map};
ghost use Rattle.ld_trees.specs.Term.{Head, Terms as Arguments, Con};
ghost use Rattle.ld_terms.specs.Views.{terms_of};
ghost use Rattle.conversion.specs.Globals.{env_of, context_of, AreGlobalsOf, AreLocals};
ghost use Rattle.kernel_check.specs.Steps.{signature};

use ld_terms::{Globals, Local, Terms, View};
use std::alloc::{AllocError, Global};

/// The parameters and the type of a term that is a constant or a metavariable, if it is there.
pub fn signature_of<'a, T: Terms, G: Globals<T::Handle>>(
    terms: &T,
    globals: &'a G,
    h: T::Handle,
) -> Option<(&'a [Local<T::Handle>], T::Handle)>
    requires term { T.holds terms.now h }
    requires globals { AreGlobalsOf (T.holds terms.now) (G.items globals.now) (G.metas globals.now) }
    ensures signature { option_map (λ p. (context_of (T.means terms.now) p.0.now, T.means terms.now p.1)) result ≡ signature (env_of (T.means terms.now) (G.items globals.now) (G.metas globals.now)) (T.means terms.now h) }
    ensures held { IfSome result (λ p. AreLocals (T.holds terms.now) p.0.now × T.holds terms.now p.1) }
{
    match terms.node(h) {
        View::Const(name, _) => match globals.constant(name) {
            Some(item) => Some((item.params.as_slice(), item.ty)),
            None => None,
        },
        View::Meta(m, _) => match globals.meta(m) {
            Some(decl) => Some((decl.ctx.as_slice(), decl.ty)),
            None => None,
        },
        _ => None,
    }
}

/// The arguments of a constant or a metavariable; of another term, none.
pub fn arguments_of<T: Terms>(
    alloc: Global,
    terms: &T,
    h: T::Handle,
) -> Result<Vec<T::Handle>, AllocError>
    requires term { T.holds terms.now h }
    ensures arguments { IfOk result (λ v. (c : Head) (us : Arguments) → T.means terms.now h ≡ Con c us → terms_of (map (T.means terms.now) v.items) ≡ us) }
    ensures held { IfOk result (λ v. All (T.holds terms.now) v.items) }
{
    match terms.node(h) {
        View::Const(_, args) => Vec::from_slice(alloc, args),
        View::Meta(_, args) => Vec::from_slice(alloc, args),
        _ => Ok(Vec::new(alloc)),
    }
}

//! The head and the arguments of an application.

ghost use Rattle.std.specs.Prelude.{◌≡◌, IfOk, All, map};
ghost use Rattle.ld_terms.specs.Spines.{applied};

use ld_terms::{Terms, View};
use std::alloc::{AllocError, Global};

/// A term as a head with the arguments that it is applied to, the last argument first.
#[derive(Drop)]
pub struct Spine<H> {
    pub head: H,
    pub args: Vec<H>,
}

/// The head and the arguments of a term, however many there are. Fails for want of memory alone.
pub fn spine_of<T: Terms>(
    alloc: Global,
    terms: &T,
    h: T::Handle,
) -> Result<Spine<T::Handle>, AllocError>
    requires { T.holds terms.now h }
    ensures tree { IfOk result (λ s. applied (T.means terms.now s.head) (map (T.means terms.now) s.args.items) ≡ T.means terms.now h) }
    ensures head { IfOk result (λ s. T.holds terms.now s.head) }
    ensures args { IfOk result (λ s. All (T.holds terms.now) s.args.items) }
{
    let mut args = Vec::new(alloc);
    let mut head = h;
    while let View::App(f, a) = terms.node(head) {
        args.push(a)?;
        head = f;
    }
    Ok(Spine { head, args })
}

ghost use Rattle.std.specs.Prelude.{◌≡◌, IfOk, IfSome, Some, All, map, length, nat_eq, option_map};
ghost use Rattle.ld_trees.specs.Term.{Term};
ghost use Rattle.ld_terms.specs.Views.{Keeps, terms_of};
ghost use Rattle.conversion.specs.Globals.{env_of, AreGlobalsOf};
ghost use Rattle.conversion.specs.Spines.{applied, IsNoApplication, IsReduct, IsReductOf, IsNextStep};
ghost use Rattle.conversion.specs.WeakHead.{unfold_if};

use ld_terms::{Globals, Terms, View};
use std::alloc::{AllocError, Global};

/// A term with the arguments that a step puts in for its last variables.
#[derive(Drop)]
pub struct Reduct<H> {
    pub body: H,
    pub args: Vec<H>,
}

/// Goes down to the head of a term. The arguments on the way are added to those that wait, the last argument first.
pub fn go_to_head<T: Terms>(
    terms: &T,
    h: T::Handle,
    waiting: &mut Vec<T::Handle>,
) -> Result<T::Handle, AllocError>
    requires term { T.holds terms.now h }
    requires waiting { All (T.holds terms.now) waiting.old.items }
    ensures term { IfOk result (λ r. applied (T.means terms.now r) (map (T.means terms.now) waiting.new.items) ≡ applied (T.means terms.now h) (map (T.means terms.now) waiting.old.items)) }
    ensures head { IfOk result (λ r. IsNoApplication (T.means terms.now r)) }
    ensures held { IfOk result (λ r. T.holds terms.now r) }
    ensures waiting_held { All (T.holds terms.now) waiting.new.items }
{
    let mut head = h;
    while let View::App(f, a) = terms.node(head) {
        waiting.push(a)?;
        head = f;
    }
    Ok(head)
}

/// The step of a body with arguments, if there is a body and exactly one argument for each of so many parameters.
fn unfold<H: Copy>(
    alloc: Global,
    params: usize,
    body: Option<H>,
    args: &[H],
) -> Result<Option<Reduct<H>>, AllocError>
    ensures step { IfOk result (λ o. (means : H → Term) → IsReduct means (unfold_if (nat_eq (length args.now) params) (option_map means body) (terms_of (map means args.now))) o) }
    ensures parts { IfOk result (λ o. IfSome o (λ r. (body ≡ Some r.body) × (r.args.items ≡ args.now))) }
{
    match body {
        Some(body) if args.len() == params => Ok(Some(Reduct {
            body,
            args: Vec::from_slice(alloc, args)?,
        })),
        _ => Ok(None),
    }
}

/// The next step of a head with waiting arguments, if there is one. An argument that the step puts in is taken from those that wait.
#[tactic(auto, using(crate::proofs::NextSteps::abstraction_step, crate::proofs::NextSteps::abstraction_alone, crate::proofs::NextSteps::constant_step, crate::proofs::NextSteps::constant_new, crate::proofs::NextSteps::meta_step, crate::proofs::NextSteps::meta_new, crate::proofs::NextSteps::stands))]
pub fn next_step<T: Terms, G: Globals<T::Handle>>(
    alloc: Global,
    terms: &T,
    globals: &G,
    head: T::Handle,
    waiting: &mut Vec<T::Handle>,
) -> Result<Option<Reduct<T::Handle>>, AllocError>
    requires head { T.holds terms.now head }
    requires no_application { IsNoApplication (T.means terms.now head) }
    requires waiting { All (T.holds terms.now) waiting.old.items }
    requires globals { AreGlobalsOf (T.holds terms.now) (G.items globals.now) (G.metas globals.now) }
    ensures step { IfOk result (λ o. IsNextStep (T.means terms.now) (env_of (T.means terms.now) (G.items globals.now) (G.metas globals.now)) (T.means terms.now head) waiting.old.items waiting.new.items o) }
    ensures held { IfOk result (λ o. IfSome o (IsReductOf (T.holds terms.now))) }
    ensures waiting_held { All (T.holds terms.now) waiting.new.items }
{
    match terms.node(head) {
        View::Lam(_, body) => match waiting.pop() {
            Some(arg) => {
                let mut args = Vec::new(alloc);
                args.push(arg)?;
                Ok(Some(Reduct { body, args }))
            }
            None => Ok(None),
        },
        View::Const(name, args) => match globals.constant(name) {
            Some(item) => unfold(alloc, item.params.as_slice().len(), item.body, args),
            None => Ok(None),
        },
        View::Meta(m, args) => match globals.meta(m) {
            Some(decl) => unfold(alloc, decl.ctx.as_slice().len(), decl.value, args),
            None => Ok(None),
        },
        View::App(..) | View::Star | View::Square | View::Var(_) | View::Pi(..) => Ok(None),
    }
}

/// The application of a term to arguments, of which the last one comes first in the list.
pub fn apply_all<T: Terms>(
    alloc: Global,
    terms: &mut T,
    head: T::Handle,
    mut args: Vec<T::Handle>,
) -> Result<T::Handle, AllocError>
    requires head { T.holds terms.old head }
    requires args { All (T.holds terms.old) args.items }
    ensures tree { IfOk result (λ r. T.means terms.new r ≡ applied (T.means terms.old head) (map (T.means terms.old) args.items)) }
    ensures held { IfOk result (λ r. T.holds terms.new r) }
    ensures kept { Keeps (T.holds terms.old) (T.means terms.old) (T.holds terms.new) (T.means terms.new) }
{
    let mut term = head;
    while let Some(arg) = args.pop() {
        term = terms.make(alloc, View::App(term, arg))?;
    }
    Ok(term)
}

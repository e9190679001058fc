ghost use Rattle.std.specs.Prelude.{◌≡◌, ◌≤◌, All, IfErr, IfOk};
ghost use Rattle.ld_trees.specs.Term.{App};
ghost use Rattle.ld_rules.specs.Environment.{Ctx, Env};
ghost use Rattle.conversion.specs.Spines.{BothHeld};
ghost use Rattle.kernel_check.specs.Inference as tree;
ghost use Rattle.kernel_check.specs.Answers.{Shows};
ghost use Rattle.kernel_check.specs.Steps.{along, pair_trees};

use crate::fault::KernelFault;
use ld_terms::{Fuel, Terms, View};
use std::alloc::Global;

/// The head of a term, and the function and the argument of each application around it, of which the last is next to the head.
#[derive(Drop)]
pub struct Spine<H> {
    pub head: H,
    pub waiting: Vec<(H, H)>,
}

/// Goes down an application to its head. Each further application on the way costs a unit, the outermost first. The store isn't
/// changed, and there is no recursion: a term of many arguments needs no deep stack.
pub fn spine_of<T: Terms>(
    alloc: Global,
    terms: &T,
    fuel: &mut Fuel,
    f: T::Handle,
    a: T::Handle,
) -> Result<Spine<T::Handle>, KernelFault<T::Handle>>
    requires function { T.holds terms.now f }
    requires argument { T.holds terms.now a }
    ensures spine { IfOk result (λ s. (Δ : Env) (Γ : Ctx) → tree.infer_case Δ (tree.infer Δ) Γ (App (T.means terms.now f) (T.means terms.now a)) fuel.old ≡ along Δ Γ (pair_trees (T.means terms.now) s.waiting.items) (tree.infer Δ Γ (T.means terms.now s.head) fuel.new)) }
    ensures fault { IfErr result (λ e. (Δ : Env) (Γ : Ctx) → Shows (T.holds terms.now) (T.means terms.now) (tree.infer_case Δ (tree.infer Δ) Γ (App (T.means terms.now f) (T.means terms.now a)) fuel.old) fuel.new e) }
    ensures head { IfOk result (λ s. T.holds terms.now s.head) }
    ensures waiting { IfOk result (λ s. All (BothHeld (T.holds terms.now)) s.waiting.items) }
    ensures less { fuel.new ≤ fuel.old }
{
    let mut waiting = Vec::new(alloc);
    waiting.push((f, a))?;
    let mut head = f;
    while let View::App(g, b) = terms.node(head) {
        if !fuel.spend() {
            return Err(KernelFault::Fuel);
        }
        waiting.push((g, b))?;
        head = g;
    }
    Ok(Spine { head, waiting })
}

ghost use Rattle.std.specs.Prelude.{◌≡◌, ◌↔◌, IfOk, IsTrue, min, ◌-◌, ◌^◌};
ghost use Rattle.std.specs.declared.cmp.Ordering.TheVariants.{Equal};
ghost use Rattle.ld_trees.specs.Term.{Term, nodes, depth};
ghost use Rattle.ld_terms.specs.Views.{node_tree, PartsIn, Keeps};

use crate::view::View;
use std::alloc::{AllocError, Global};

/// A store of terms, in which a handle means a tree.
///
/// A handle is used only with the store that made it, or with a store forked from that one afterwards; `holds` says which
/// handles those are. What a handle means never changes while the store grows.
pub trait Terms: Sized {
    type Handle: Copy + Ord;

    /// Whether a handle is one of this store.
    ghost holds: { Self → Self.Handle → Type 0 };

    /// The tree that a handle means.
    ghost means: { Self → Self.Handle → Term };

    /// The root of a term, with handles for its parts.
    fn node(&self, h: Self::Handle) -> View<'_, Self::Handle>
        requires { holds self.now h }
        ensures tree { node_tree (means self.now) result ≡ means self.now h }
        ensures held { PartsIn (holds self.now) result };

    /// A handle that means the tree of the view. Fails for want of memory alone, and keeps the meaning of all older handles.
    fn make<'a>(
        &'a mut self,
        alloc: Global,
        view: View<'a, Self::Handle>,
    ) -> Result<Self::Handle, AllocError>
        requires { PartsIn (holds self.old) view }
        ensures tree { IfOk result (λ h. means self.new h ≡ node_tree (means self.old) view.entry) }
        ensures held { IfOk result (λ h. holds self.new h) }
        ensures kept { Keeps (holds self.old) (means self.old) (holds self.new) (means self.new) };

    /// Whether two handles mean equal trees.
    fn same(&self, a: Self::Handle, b: Self::Handle) -> bool
        requires left { holds self.now a }
        requires right { holds self.now b }
        ensures { IsTrue result ↔ (means self.now a ≡ means self.now b) };

    /// The number of the tree's nodes, at most 18,446,744,073,709,551,615.
    fn nodes(&self, h: Self::Handle) -> u64
        requires { holds self.now h }
        ensures { result ≡ min (nodes (means self.now h)) (2 ^ 64 - 1) };

    /// 1 for a leaf, else 1 more than the greatest depth of a part; at most 18,446,744,073,709,551,615.
    fn depth(&self, h: Self::Handle) -> u64
        requires { holds self.now h }
        ensures { result ≡ min (depth (means self.now h)) (2 ^ 64 - 1) };

    /// A store in which all handles so far mean the same trees. Fails for want of memory alone.
    fn fork(&self, alloc: Global) -> Result<Self, AllocError>
        ensures { IfOk result (λ s. Keeps (holds self.now) (means self.now) (holds s) (means s)) };

    /// Handles that compare equal are equal.
    ghost exact: { (h k : Self.Handle) → Self.Handle.cmp h k ≡ Equal → h ≡ k };
}

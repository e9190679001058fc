ghost use Rattle.std.specs.Prelude.{◌≡◌, IfOk, ◌<◌, List as Listed, ℕ};
ghost use Rattle.ld_trees.specs.Term.{Term};
ghost use Rattle.ld_terms.specs.Nodes.{tree_over, tree_at, IsBelow};
ghost use Rattle.ld_terms.specs.Views.{node_tree, PartsIn};

use crate::list::List;
use crate::name::Name;
use crate::view::View;
use std::alloc::{AllocError, Global};

/// A handle of a store that keeps its nodes in a list: the place of a node, counted from 0.
#[derive(Clone, Copy, Debug, PartialEq, Eq, PartialOrd, Ord)]
pub struct Place(pub usize);

/// One node of a term, with the places of its parts. Unlike a [`View`] it owns its name and its arguments.
#[derive(Clone, Debug, Drop, PartialEq, Eq, PartialOrd, Ord)]
pub enum Node {
    Star,
    Square,
    Var(u32),
    App(Place, Place),
    Lam(Place, Place),
    Pi(Place, Place),
    Const(Name, List<Place>),
    Meta(u32, List<Place>),
}

impl Node {
    /// The node of a view. Fails for want of memory alone.
    pub fn of(alloc: Global, view: View<'_, Place>) -> Result<Node, AllocError>
        ensures tree { IfOk result (λ n. (ts : Listed Term) → tree_over ts n ≡ node_tree (tree_at ts) view.entry) }
        ensures below { IfOk result (λ n. (k : ℕ) → PartsIn (λ p. p.0 < k) view.entry → IsBelow k n) }
    {
        match view {
            View::Star => Ok(Node::Star),
            View::Square => Ok(Node::Square),
            View::Var(i) => Ok(Node::Var(i)),
            View::App(f, a) => Ok(Node::App(f, a)),
            View::Lam(a, m) => Ok(Node::Lam(a, m)),
            View::Pi(a, b) => Ok(Node::Pi(a, b)),
            View::Const(name, args) => Ok(Node::Const(
                name.copy(alloc)?,
                List::from_slice(alloc, args)?,
            )),
            View::Meta(m, args) => Ok(Node::Meta(m, List::from_slice(alloc, args)?)),
        }
    }

    /// The view of this node.
    pub fn view(&self) -> View<'_, Place>
        ensures tree { (ts : Listed Term) → node_tree (tree_at ts) result ≡ tree_over ts self.now }
        ensures below { (k : ℕ) → IsBelow k self.now → PartsIn (λ p. p.0 < k) result }
    {
        match self {
            Node::Star => View::Star,
            Node::Square => View::Square,
            Node::Var(i) => View::Var(*i),
            Node::App(f, a) => View::App(*f, *a),
            Node::Lam(a, m) => View::Lam(*a, *m),
            Node::Pi(a, b) => View::Pi(*a, *b),
            Node::Const(name, args) => View::Const(name, args.as_slice()),
            Node::Meta(m, args) => View::Meta(*m, args.as_slice()),
        }
    }

    /// The same node once more. Fails for want of memory alone.
    pub fn copy(&self, alloc: Global) -> Result<Node, AllocError>
        ensures { IfOk result (λ n. n ≡ self.now) }
    {
        match self {
            Node::Star => Ok(Node::Star),
            Node::Square => Ok(Node::Square),
            Node::Var(i) => Ok(Node::Var(*i)),
            Node::App(f, a) => Ok(Node::App(*f, *a)),
            Node::Lam(a, m) => Ok(Node::Lam(*a, *m)),
            Node::Pi(a, b) => Ok(Node::Pi(*a, *b)),
            Node::Const(name, args) => Ok(Node::Const(
                name.copy(alloc)?,
                List::from_slice(alloc, args.as_slice())?,
            )),
            Node::Meta(m, args) => Ok(Node::Meta(*m, List::from_slice(alloc, args.as_slice())?)),
        }
    }
}

ghost use Rattle.std.specs.Prelude.{◌≡◌, [], IfOk, ◌<◌, length, List as Listed, All, map};
ghost use Rattle.ld_trees.specs.Term.{Term};
ghost use Rattle.ld_terms.specs.Sizes.{IsSize, IsSizeOfAll};
ghost use Rattle.ld_terms.specs.Entries.{AreSizes};
ghost use Rattle.ld_terms.specs.Nodes.{tree_at, IsPlace, tree_of_place};
ghost use Rattle.ld_terms.specs.Views.{node_tree, PartsIn, terms_of};

use crate::node::{Node, Place};
use crate::same::{Sides, same_trees};
use crate::size::{LEAF, Size};
use crate::terms::Terms;
use crate::view::View;
use std::alloc::{AllocError, Global};
use std::marker::Model;

/// A node and the size of its tree.
#[derive(Clone, Debug, Drop)]
pub struct Entry {
    pub node: Node,
    pub size: Size,
}

/// The plain store of terms: a list of nodes, each after its parts. Contracts see the nodes.
///
/// A node that is made twice stands twice.
#[derive(Drop)]
pub struct TreeTerms {
    made: Vec<Entry>,
}

impl Model for TreeTerms {
    ghost use Rattle.std.specs.Prelude.{List};
    ghost use Rattle.ld_terms.specs.declared.node.Node.{Node};
    ghost use Rattle.ld_terms.specs.Entries.{nodes_in, AreEntries};

    ghost Value = { List Node };

    ghost view = { λ s. nodes_in s.made.items };

    ghost invariant = { λ s. AreEntries s.made.items };
}

impl TreeTerms {
    /// The store without a node. Fails for want of memory alone.
    pub fn new(alloc: Global) -> Result<TreeTerms, AllocError>
        ensures { IfOk result (λ s. s ≡ []) }
    {
        Ok(TreeTerms {
            made: Vec::new(alloc),
        })
    }

    /// The root of a term, with places for its parts.
    #[tactic(auto, unfolding(crate::specs::Nodes::IsPlace, crate::specs::Nodes::tree_of_place))]
    fn look(&self, h: Place) -> View<'_, Place>
        requires { IsPlace self.now h }
        ensures tree { node_tree (tree_of_place self.now) result ≡ tree_of_place self.now h }
        ensures held { PartsIn (IsPlace self.now) result }
    {
        self.made[h.0].node.view()
    }
}

#[tactic(auto, unfolding(crate::specs::Nodes::IsPlace, crate::specs::Nodes::tree_of_place))]
impl Sides for TreeTerms {
    ghost use Rattle.ld_terms.specs.Nodes.{IsPlace, tree_of_place};

    type Handle = Place;

    ghost left_holds = { IsPlace };

    ghost right_holds = { IsPlace };

    ghost left_means = { tree_of_place };

    ghost right_means = { tree_of_place };

    fn left(&self, x: Place) -> View<'_, Place> {
        self.look(x)
    }

    fn right(&self, y: Place) -> View<'_, Place> {
        self.look(y)
    }

    fn is_shared(&self, x: Place, y: Place) -> bool {
        x == y
    }
}

#[tactic(auto, unfolding(crate::specs::Nodes::IsPlace, crate::specs::Nodes::tree_of_place))]
impl Terms for TreeTerms {
    ghost use Rattle.ld_terms.specs.Nodes.{IsPlace, tree_of_place};
    ghost use Rattle.ld_terms.specs.Views.{Keeps};
    ghost use Rattle.ld_terms.specs.Places.{exact_places};

    type Handle = Place;

    ghost holds = { IsPlace };

    ghost means = { tree_of_place };

    ghost exact = { exact_places };

    fn node(&self, h: Place) -> View<'_, Place> {
        self.look(h)
    }

    fn make<'a>(&'a mut self, alloc: Global, view: View<'a, Place>) -> Result<Place, AllocError>
        requires { PartsIn (IsPlace self.old) view }
        ensures tree { IfOk result (λ h. tree_of_place self.new h ≡ node_tree (tree_of_place self.old) view.entry) }
        ensures held { IfOk result (λ h. IsPlace self.new h) }
        ensures kept { Keeps (IsPlace self.old) (tree_of_place self.old) (IsPlace self.new) (tree_of_place self.new) }
    {
        let at = self.made.len();
        let size = size_of(&self.made, view);
        let node = Node::of(alloc, view)?;
        self.made.push(Entry { node, size })?;
        Ok(Place(at))
    }

    fn same(&self, a: Place, b: Place) -> bool {
        same_trees(self, a, b)
    }

    fn nodes(&self, h: Place) -> u64 {
        self.made[h.0].size.nodes
    }

    fn depth(&self, h: Place) -> u64 {
        self.made[h.0].size.depth
    }

    fn fork(&self, alloc: Global) -> Result<TreeTerms, AllocError> {
        let mut made = Vec::new(alloc);
        for entry in &self.made {
            made.push(Entry {
                node: entry.node.copy(alloc)?,
                size: entry.size,
            })?;
        }
        Ok(TreeTerms { made })
    }
}

/// The size of the arguments together.
fn size_of_all(made: &[Entry], args: &[Place]) -> Size
    requires { All (λ p. p.0 < length made.now) args.now }
    ensures { (ts : Listed Term) → AreSizes ts made.now → IsSizeOfAll (terms_of (map (tree_at ts) args.now)) result }
{
    let mut size = Size::of_none();
    for arg in args {
        size = size.with(made[arg.0].size);
    }
    size
}

/// The size of a node's tree, from those of its parts.
fn size_of(made: &[Entry], view: View<'_, Place>) -> Size
    requires { PartsIn (λ p. p.0 < length made.now) view }
    ensures { (ts : Listed Term) → AreSizes ts made.now → IsSize (node_tree (tree_at ts) view.entry) result }
{
    match view {
        View::Star | View::Square | View::Var(_) => LEAF,
        View::App(a, b) | View::Lam(a, b) | View::Pi(a, b) => Size::over_two(
            made[a.0].size,
            made[b.0].size,
        ),
        View::Const(_, args) => size_of_all(made, args).over_all(),
        View::Meta(_, args) => size_of_all(made, args).over_all(),
    }
}

ghost use Rattle.ld_trees.specs.Term as tree;
ghost use Rattle.ld_trees.specs.Term.{Term, Terms, ◌▹◌};
ghost use Rattle.ld_terms.specs.Sizes.{IsSize, IsSizeOfAll};

/// The number of a tree's nodes and its depth, each at most 18,446,744,073,709,551,615.
#[derive(Clone, Copy, Debug)]
pub struct Size {
    pub nodes: u64,
    pub depth: u64,
}

/// The size of a leaf.
pub const LEAF: Size = Size { nodes: 1, depth: 1 };

impl Size {
    /// The size of a node over two parts.
    pub fn over_two(a: Size, b: Size) -> Size
        ensures application { (t u : Term) → IsSize t a → IsSize u b → IsSize (tree.App t u) result }
        ensures abstraction { (t u : Term) → IsSize t a → IsSize u b → IsSize (tree.Lam t u) result }
        ensures product { (t u : Term) → IsSize t a → IsSize u b → IsSize (tree.Pi t u) result }
    {
        Size {
            nodes: a.nodes.saturating_add(b.nodes).saturating_add(1),
            depth: a.depth.max(b.depth).saturating_add(1),
        }
    }

    /// The size of no arguments.
    pub fn of_none() -> Size
        ensures { IsSizeOfAll tree.none result }
    {
        Size { nodes: 0, depth: 0 }
    }

    /// The size of these arguments and one more.
    pub fn with(self, last: Size) -> Size
        ensures { (us : Terms) (u : Term) → IsSizeOfAll us self → IsSize u last → IsSizeOfAll (us ▹ u) result }
    {
        Size {
            nodes: self.nodes.saturating_add(last.nodes),
            depth: self.depth.max(last.depth),
        }
    }

    /// The size of a constant or a metavariable over these arguments.
    pub fn over_all(self) -> Size
        ensures { (h : tree.Head) (us : Terms) → IsSizeOfAll us self → IsSize (tree.Con h us) result }
    {
        Size {
            nodes: self.nodes.saturating_add(1),
            depth: self.depth.saturating_add(1),
        }
    }
}

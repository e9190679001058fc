//! The store whose nodes stand once each.

ghost use Rattle.std.specs.Prelude.{◌≡◌, ◌<◌, [], ◌++◌, ◌∷◌, IfOk, IsOkAnd, IfErr, OnOk, length, List as Listed, All, map, None, slice_index_or, ℕ};
ghost use Rattle.std.specs.FinMap.{find};
ghost use Rattle.ld_trees.specs.Term.{Term};
ghost use Rattle.ld_terms.specs.Nodes.{tree_at, tree_over, trees_of, IsBelow, IsPlace, tree_of_place};
ghost use Rattle.ld_terms.specs.Sizes.{IsSize, IsSizeOfAll};
ghost use Rattle.ld_terms.specs.Views.{node_tree, PartsIn, terms_of};
ghost use Rattle.term_store.specs.Hashed.{nodes_of, AreSizesBelow, IsHashed};

use crate::key::Key;
use crate::row::Row;
use ld_terms::{LEAF, Node, Place, Size, Terms, View};
use shared_list::SharedList;
use shared_map::SharedMap;
use std::alloc::{AllocError, Global};
use std::marker::Model;

/// A store of terms in which each node stands once, so that equal trees have equal handles. Contracts see the nodes in the order of
/// their places.
///
/// A fork shares with its source all that was made before: a handle of then is one of both, and means the same in both.
///
/// Making a node takes a search among the nodes. Reading one takes three steps, whatever their number.
#[derive(Drop)]
pub struct HashTerms {
    // the place of each node
    ids: SharedMap<Key, Place>,
    // the node at each place. A row at a place that no node of `ids` has is left over from a call that failed, and counts for nothing.
    rows: SharedList<Row>,
}

impl Model for HashTerms {
    ghost use Rattle.std.specs.Prelude.{List};
    ghost use Rattle.ld_terms.specs.declared.node.Node.{Node};
    ghost use Rattle.term_store.specs.Hashed.{nodes_of, IsHashed};

    ghost Value = { List Node };

    ghost view = { λ s. nodes_of s.ids s.rows };

    ghost invariant = { λ s. IsHashed ⟦<Node as Ord>⟧.cmp s.ids s.rows };
}

impl HashTerms {
    /// The store without a node. It takes no memory and doesn't fail.
    pub fn new(_alloc: Global) -> Result<HashTerms, AllocError>
        ensures { IsOkAnd result (λ s. s ≡ []) }
    {
        Ok(HashTerms {
            ids: SharedMap::new(),
            rows: SharedList::new(),
        })
    }

    /// Handles that mean one tree are one. A law for proofs; there is nothing to run.
    pub fn one_handle(&self, a: Place, b: Place)
        requires left { IsPlace self.now a }
        requires right { IsPlace self.now b }
        ensures { tree_of_place self.now a ≡ tree_of_place self.now b → a ≡ b }
    {
        let _rows = &self.rows;
    }
}

/// The row at a place.
fn row_at(rows: &SharedList<Row>, at: usize) -> &Row
    requires { at < length rows.now }
    ensures { result.now ≡ slice_index_or rows.now at result.now }
{
    rows.get(at).unwrap()
}

#[tactic(auto, unfolding(ld_terms::specs::Nodes::IsPlace, ld_terms::specs::Nodes::tree_of_place))]
impl Terms for HashTerms {
    ghost use Rattle.ld_terms.specs.Nodes.{IsPlace, tree_of_place};
    ghost use Rattle.ld_terms.specs.Views.{Keeps};
    ghost use Rattle.ld_terms.specs.Places.{exact_places};

    type Handle = Place;

    ghost holds = { IsPlace };

    ghost means = { tree_of_place };

    ghost exact = { exact_places };

    fn node(&self, h: Place) -> View<'_, Place> {
        row_at(&self.rows, h.0).key().view()
    }

    fn make<'a>(&'a mut self, alloc: Global, view: View<'a, Place>) -> Result<Place, AllocError>
        requires { PartsIn (IsPlace self.old) view }
        ensures tree { IfOk result (λ h. tree_of_place self.new h ≡ node_tree (tree_of_place self.old) view.entry) }
        ensures held { IfOk result (λ h. IsPlace self.new h) }
        ensures kept { Keeps (IsPlace self.old) (tree_of_place self.old) (IsPlace self.new) (tree_of_place self.new) }
    {
        let key = Key::of(alloc, view)?;
        if let Some(place) = self.ids.get(&key) {
            return Ok(*place);
        }
        let place = Place(self.ids.len() as usize);
        let size = size_of(&self.rows, view);
        add(alloc, &mut self.ids, &mut self.rows, key, size)?;
        Ok(place)
    }

    fn same(&self, a: Place, b: Place) -> bool {
        self.one_handle(a, b);
        a == b
    }

    fn nodes(&self, h: Place) -> u64 {
        row_at(&self.rows, h.0).size().nodes
    }

    fn depth(&self, h: Place) -> u64 {
        row_at(&self.rows, h.0).size().depth
    }

    fn fork(&self, alloc: Global) -> Result<HashTerms, AllocError> {
        Ok(HashTerms {
            ids: self.ids.fork(alloc)?,
            rows: self.rows.fork(alloc)?,
        })
    }
}

/// Gives a new node the first place that no node has. Where memory runs out no place is given.
fn add(
    alloc: Global,
    ids: &mut SharedMap<Key, Place>,
    rows: &mut SharedList<Row>,
    key: Key,
    size: Size,
) -> Result<(), AllocError>
    requires hashed { IsHashed ⟦<Node as Ord>⟧.cmp ids.old rows.old }
    requires new { find ⟦<Node as Ord>⟧.cmp key ids.old ≡ None }
    requires below { IsBelow (length (nodes_of ids.old rows.old)) key }
    requires sized { IsSize (tree_over (trees_of (nodes_of ids.old rows.old)) key) size }
    ensures hashed { IsHashed ⟦<Node as Ord>⟧.cmp ids.new rows.new }
    ensures added { OnOk result (nodes_of ids.new rows.new ≡ nodes_of ids.old rows.old ++ key ∷ []) }
    ensures kept { IfErr result (λ e. nodes_of ids.new rows.new ≡ nodes_of ids.old rows.old) }
{
    let at = ids.len() as usize;
    rows.put_last(alloc, at, Row::of(key.clone()?, size))?;
    ids.insert(alloc, key, Place(at))?;
    Ok(())
}

/// The size of the arguments together.
fn size_of_all(rows: &SharedList<Row>, args: &[Place]) -> Size
    requires { All (λ p. p.0 < length rows.now) args.now }
    ensures { (ts : Listed Term) (k : ℕ) → All (λ p. p.0 < k) args.now → AreSizesBelow k ts rows.now →
        IsSizeOfAll (terms_of (map (tree_at ts) args.now)) result }
{
    let mut size = Size::of_none();
    for arg in args {
        size = size.with(row_at(rows, arg.0).size());
    }
    size
}

/// The size of a node's tree, from those of its parts.
fn size_of(rows: &SharedList<Row>, view: View<'_, Place>) -> Size
    requires { PartsIn (λ p. p.0 < length rows.now) view }
    ensures { (ts : Listed Term) (k : ℕ) → PartsIn (λ p. p.0 < k) view.entry → AreSizesBelow k ts rows.now →
        IsSize (node_tree (tree_at ts) view.entry) result }
{
    match view {
        View::Star | View::Square | View::Var(_) => LEAF,
        View::App(a, b) | View::Lam(a, b) | View::Pi(a, b) => Size::over_two(
            row_at(rows, a.0).size(),
            row_at(rows, b.0).size(),
        ),
        View::Const(_, args) => size_of_all(rows, args).over_all(),
        View::Meta(_, args) => size_of_all(rows, args).over_all(),
    }
}

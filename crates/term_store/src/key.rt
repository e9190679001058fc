ghost use Rattle.std.specs.Prelude.{◌≡◌, IfOk, ◌<◌, List as Listed, ℕ};
ghost use Rattle.ld_trees.specs.Term.{Term};
ghost use Rattle.ld_terms.specs.Nodes.{tree_over, tree_at, IsBelow};
ghost use Rattle.ld_terms.specs.Views.{node_tree, PartsIn};

use crate::shared::Shared;
use ld_terms::{List, Name, Place, View};
use std::alloc::{AllocError, Global};
use std::cmp::Ordering;
use std::marker::Model;

/// A node that is cheap to clone and to compare: only the name and the arguments of a constant, and the arguments of a metavariable,
/// stand behind a pointer, which clones share. Contracts see the [`Node`](ld_terms::Node), and the order is the nodes' own.
///
/// A key takes 24 bytes.
#[derive(Drop)]
pub struct Key {
    form: Form,
}

/// How a key stands in memory.
#[derive(Drop, PartialEq, Eq, PartialOrd, Ord)]
enum Form {
    Star,
    Square,
    Var(u32),
    App(Place, Place),
    Lam(Place, Place),
    Pi(Place, Place),
    Const(Shared<Call>),
    Meta(u32, Shared<List<Place>>),
}

/// The name of a constant and its arguments.
#[derive(Drop, PartialEq, Eq, PartialOrd, Ord)]
struct Call {
    name: Name,
    args: List<Place>,
}

impl Model for Key {
    ghost use Rattle.ld_terms.specs.declared.node.Node.{Node};
    ghost use Rattle.term_store.specs.Keys.{node_of};

    ghost Value = { Node };

    ghost view = { λ k. node_of k.form };
}

impl Key {
    /// The key of a view. Fails for want of memory alone, and takes none for a node that is no constant and no metavariable.
    pub fn of(alloc: Global, view: View<'_, Place>) -> Result<Key, AllocError>
        ensures tree { IfOk result (λ n. (ts : Listed Term) → tree_over ts n ≡ node_tree (tree_at ts) view.entry) }
        ensures below { IfOk result (λ n. (k : ℕ) → PartsIn (λ p. p.0 < k) view.entry → IsBelow k n) }
    {
        let form = match view {
            View::Star => Form::Star,
            View::Square => Form::Square,
            View::Var(i) => Form::Var(i),
            View::App(f, a) => Form::App(f, a),
            View::Lam(a, m) => Form::Lam(a, m),
            View::Pi(a, b) => Form::Pi(a, b),
            View::Const(name, args) => {
                let name = name.copy(alloc)?;
                let args = List::from_slice(alloc, args)?;
                Form::Const(Shared::new(alloc, Call { name, args })?)
            }
            View::Meta(m, args) => {
                let args = List::from_slice(alloc, args)?;
                Form::Meta(m, Shared::new(alloc, args)?)
            }
        };
        Ok(Key { form })
    }

    /// The view of the node. Takes no memory.
    pub fn view(&self) -> View<'_, Place>
        ensures tree { (ts : Listed Term) → node_tree (tree_at ts) result ≡ tree_over ts self.now }
        ensures below { (k : ℕ) → IsBelow k self.now → PartsIn (λ p. p.0 < k) result }
    {
        match &self.form {
            Form::Star => View::Star,
            Form::Square => View::Square,
            Form::Var(i) => View::Var(*i),
            Form::App(f, a) => View::App(*f, *a),
            Form::Lam(a, m) => View::Lam(*a, *m),
            Form::Pi(a, b) => View::Pi(*a, *b),
            Form::Const(call) => View::Const(&call.get().name, call.get().args.as_slice()),
            Form::Meta(m, args) => View::Meta(*m, args.get().as_slice()),
        }
    }
}

impl Clone for Key {
    ghost is_clone = { λ a b. b ≡ a };

    fn clone(&self) -> Result<Key, AllocError> {
        let form = match &self.form {
            Form::Star => Form::Star,
            Form::Square => Form::Square,
            Form::Var(i) => Form::Var(*i),
            Form::App(f, a) => Form::App(*f, *a),
            Form::Lam(a, m) => Form::Lam(*a, *m),
            Form::Pi(a, b) => Form::Pi(*a, *b),
            Form::Const(call) => Form::Const(call.clone()?),
            Form::Meta(m, args) => Form::Meta(*m, args.clone()?),
        };
        Ok(Key { form })
    }
}

impl PartialEq for Key {
    ghost use Rattle.ld_terms.specs.contracts.node.NodePartialEq.TheImpl.{ghosts};
    ghost use Rattle.ld_terms.specs.contracts.node.NodePartialEq.TheImpl.Laws.{laws-law};

    ghost eq = { ghosts.eq };

    ghost laws = { laws-law };

    fn eq(&self, other: &Self) -> bool {
        self.form == other.form
    }
}

impl Eq for Key {
    ghost use Rattle.ld_terms.specs.contracts.node.NodeEq.TheImpl.Laws.{laws-law};

    ghost laws = { laws-law };
}

impl PartialOrd for Key {
    ghost use Rattle.ld_terms.specs.contracts.node.NodePartialOrd.TheImpl.{ghosts};
    ghost use Rattle.ld_terms.specs.contracts.node.NodePartialOrd.TheImpl.Laws.{laws-law};

    ghost partial_cmp = { ghosts.partial_cmp };

    ghost laws = { laws-law };

    fn partial_cmp(&self, other: &Self) -> Option<Ordering> {
        self.form.partial_cmp(&other.form)
    }
}

impl Ord for Key {
    ghost use Rattle.ld_terms.specs.contracts.node.NodeOrd.TheImpl.{ghosts};
    ghost use Rattle.ld_terms.specs.contracts.node.NodeOrd.TheImpl.Laws.{total-law, matches_partial_cmp-law, matches_eq-law};

    ghost cmp = { ghosts.cmp };

    ghost total = { total-law };

    ghost matches_partial_cmp = { matches_partial_cmp-law };

    ghost matches_eq = { matches_eq-law };

    fn cmp(&self, other: &Self) -> Ordering {
        self.form.cmp(&other.form)
    }
}

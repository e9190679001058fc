ghost use Rattle.std.specs.Prelude.{◌≡◌, ◌↔◌, IsTrue, All, map};
ghost use Rattle.ld_trees.specs.Term.{Term};
ghost use Rattle.ld_terms.specs.Views.{node_tree, PartsIn};

use crate::terms::Terms;
use crate::view::View;

/// Two stores beside each other, or one beside itself, to be read.
pub trait Sides {
    type Handle: Copy;

    /// Whether a handle is one of the left store.
    ghost left_holds: { Self → Self.Handle → Type 0 };

    /// Whether a handle is one of the right store.
    ghost right_holds: { Self → Self.Handle → Type 0 };

    /// The tree that a handle means in the left store.
    ghost left_means: { Self → Self.Handle → Term };

    /// The tree that a handle means in the right store.
    ghost right_means: { Self → Self.Handle → Term };

    /// The root of a term of the left store.
    fn left(&self, x: Self::Handle) -> View<'_, Self::Handle>
        requires { left_holds self.now x }
        ensures tree { node_tree (left_means self.now) result ≡ left_means self.now x }
        ensures held { PartsIn (left_holds self.now) result };

    /// The root of a term of the right store.
    fn right(&self, y: Self::Handle) -> View<'_, Self::Handle>
        requires { right_holds self.now y }
        ensures tree { node_tree (right_means self.now) result ≡ right_means self.now y }
        ensures held { PartsIn (right_holds self.now) result };

    /// Whether two handles are known to mean one tree without a look at it.
    fn is_shared(&self, x: Self::Handle, y: Self::Handle) -> bool
        ensures { IsTrue result → left_means self.now x ≡ right_means self.now y };
}

/// Two stores of terms.
#[derive(Clone, Copy)]
struct Pair<'a, T> {
    left: &'a T,
    right: &'a T,
}

impl<'a, T: Terms> Sides for Pair<'a, T> {
    type Handle = T::Handle;

    ghost left_holds = { λ p. T.holds p.left.now };

    ghost right_holds = { λ p. T.holds p.right.now };

    ghost left_means = { λ p. T.means p.left.now };

    ghost right_means = { λ p. T.means p.right.now };

    fn left(&self, x: T::Handle) -> View<'_, T::Handle> {
        self.left.node(x)
    }

    fn right(&self, y: T::Handle) -> View<'_, T::Handle> {
        self.right.node(y)
    }

    fn is_shared(&self, _x: T::Handle, _y: T::Handle) -> bool {
        false
    }
}

/// Whether handles of two stores mean equal trees. Takes no memory.
pub fn same_across<T: Terms>(a: &T, x: T::Handle, b: &T, y: T::Handle) -> bool
    requires left { T.holds a.now x }
    requires right { T.holds b.now y }
    ensures { IsTrue result ↔ (T.means a.now x ≡ T.means b.now y) }
{
    same_trees(&Pair { left: a, right: b }, x, y)
}

/// Whether a handle of the left store and one of the right store mean equal trees.
#[cycle(same)]
pub fn same_trees<S: Sides>(sides: &S, x: S::Handle, y: S::Handle) -> bool
    requires left { S.left_holds sides.now x }
    requires right { S.right_holds sides.now y }
    ensures { IsTrue result ↔ (S.left_means sides.now x ≡ S.right_means sides.now y) }
{
    sides.is_shared(x, y) || same_nodes(sides, x, y)
}

/// Whether two terms have equal roots and equal parts.
#[cycle(same)]
fn same_nodes<S: Sides>(sides: &S, x: S::Handle, y: S::Handle) -> bool
    requires left { S.left_holds sides.now x }
    requires right { S.right_holds sides.now y }
    ensures { IsTrue result ↔ (S.left_means sides.now x ≡ S.right_means sides.now y) }
{
    match (sides.left(x), sides.right(y)) {
        (View::Star, View::Star) => true,
        (View::Square, View::Square) => true,
        (View::Var(i), View::Var(j)) => i == j,
        (View::App(f, u), View::App(g, v)) => same_trees(sides, u, v) && same_spines(sides, f, g),
        (View::Lam(f, u), View::Lam(g, v)) => same_trees(sides, f, g) && same_trees(sides, u, v),
        (View::Pi(f, u), View::Pi(g, v)) => same_trees(sides, f, g) && same_trees(sides, u, v),
        (View::Const(n, us), View::Const(m, vs)) => n.same(m) && same_each(sides, us, vs),
        (View::Meta(n, us), View::Meta(m, vs)) => n == m && same_each(sides, us, vs),
        _ => false,
    }
}

/// Whether two terms are equal, of which each may be a head with many arguments: goes down to the heads in a loop, and compares the
/// arguments on the way.
#[cycle(same)]
fn same_spines<S: Sides>(sides: &S, x: S::Handle, y: S::Handle) -> bool
    requires left { S.left_holds sides.now x }
    requires right { S.right_holds sides.now y }
    ensures { IsTrue result ↔ (S.left_means sides.now x ≡ S.right_means sides.now y) }
{
    let (mut l, mut r) = (x, y);
    while let (View::App(f, u), View::App(g, v)) = (sides.left(l), sides.right(r)) {
        if sides.is_shared(l, r) {
            return true;
        }
        if !same_trees(sides, u, v) {
            return false;
        }
        l = f;
        r = g;
    }
    same_trees(sides, l, r)
}

/// Whether two lists of handles mean equal lists of trees.
#[cycle(same)]
fn same_each<S: Sides>(sides: &S, us: &[S::Handle], vs: &[S::Handle]) -> bool
    requires left { All (S.left_holds sides.now) us.now }
    requires right { All (S.right_holds sides.now) vs.now }
    ensures { IsTrue result ↔ (map (S.left_means sides.now) us.now ≡ map (S.right_means sides.now) vs.now) }
{
    if us.len() != vs.len() {
        return false;
    }
    for i in 0..us.len() {
        if !same_trees(sides, us[i], vs[i]) {
            return false;
        }
    }
    true
}

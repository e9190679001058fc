//! The parts of two terms, which are unified in pairs.

ghost use Rattle.std.specs.Prelude.{◌≡◌, ◌+◌, ◌++◌, ◌∷◌, [], IfOk, IfSome, OnOk, option_map};
ghost use Rattle.conversion.specs.Conversion.{is_defined_at_head};
ghost use Rattle.conversion.specs.Globals.{env_of};
ghost use Rattle.conversion.specs.Spines.{AreNotBothApplied};
ghost use Rattle.pattern_unify.specs.Pairs.{ArePaired, ArePairedIf, ArePartsAdded, ArePairs, ArePairsHeld};

use ld_terms::{Globals, Terms, View};
use std::alloc::{AllocError, Global};

/// Two terms that are to be unified in a context of so many entries.
#[derive(Clone, Copy)]
pub struct Pair<H> {
    pub depth: u32,
    pub found: H,
    pub wanted: H,
}

/// Whether a constant with a body stands at the head of a term.
pub fn is_defined<T: Terms, G: Globals<T::Handle>>(terms: &T, globals: &G, h: T::Handle) -> bool
    requires { T.holds terms.now h }
    ensures { result ≡ is_defined_at_head (env_of (T.means terms.now) (G.items globals.now) (G.metas globals.now)) (T.means terms.now h) }
{
    let mut head = h;
    while let View::App(f, _) = terms.node(head) {
        head = f;
    }
    match terms.node(head) {
        View::Const(name, _) => match globals.constant(name) {
            Some(item) => item.body.is_some(),
            None => false,
        },
        _ => false,
    }
}

/// Adds the pairs of two lists of equally many terms, the last pair first. It is false, and nothing is added, where they differ in number.
fn pair_arguments<H: Copy>(
    depth: u32,
    us: &[H],
    vs: &[H],
    pairs: &mut Vec<Pair<H>>,
) -> Result<bool, AllocError>
    ensures { IfOk result (ArePaired depth us.now vs.now pairs.old.items pairs.new.items) }
{
    if us.len() != vs.len() {
        return Ok(false);
    }
    for i in (0..us.len()).rev() {
        pairs.push(Pair {
            depth,
            found: us[i],
            wanted: vs[i],
        })?;
    }
    Ok(true)
}

/// Adds the pairs of the arguments of two heads, the last pair first, where the heads are the same and have equally many. Else it is
/// false, and nothing is added.
fn pair_if<H: Copy>(
    is_same: bool,
    depth: u32,
    us: &[H],
    vs: &[H],
    pairs: &mut Vec<Pair<H>>,
) -> Result<bool, AllocError>
    ensures { IfOk result (ArePairedIf is_same depth us.now vs.now pairs.old.items pairs.new.items) }
{
    if is_same {
        pair_arguments(depth, us, vs, pairs)
    } else {
        Ok(false)
    }
}

/// Adds the pairs of the parts of two binders, the last pair first. A depth above 4,294,967,295 counts as want of memory.
fn pair_binders<H: Copy>(
    depth: u32,
    types: (H, H),
    bodies: (H, H),
    pairs: &mut Vec<Pair<H>>,
) -> Result<(), AllocError>
    ensures { OnOk result (pairs.new.items ≡ (pairs.old.items ++ record { depth = depth + 1; found = bodies.0; wanted = bodies.1 } ∷ []) ++ record { depth = depth; found = types.0; wanted = types.1 } ∷ []) }
{
    let below = depth.checked_add(1).ok_or(AllocError)?;
    pairs.push(Pair {
        depth: below,
        found: bodies.0,
        wanted: bodies.1,
    })?;
    pairs.push(Pair {
        depth,
        found: types.0,
        wanted: types.1,
    })?;
    Ok(())
}

/// Whether two terms that aren't both applications are of one kind, with equally many arguments where they are constants or
/// metavariables. If they are, the pairs of their parts are added, the last pair first.
fn pair_heads<T: Terms>(
    terms: &T,
    depth: u32,
    a: T::Handle,
    b: T::Handle,
    pairs: &mut Vec<Pair<T::Handle>>,
) -> Result<bool, AllocError>
    requires left { T.holds terms.now a }
    requires right { T.holds terms.now b }
    requires heads { AreNotBothApplied (T.means terms.now a) (T.means terms.now b) }
    requires pairs { ArePairsHeld (T.holds terms.now) pairs.old.items }
    ensures added { IfOk result (ArePartsAdded (T.means terms.now) depth (T.means terms.now a) (T.means terms.now b) pairs.old.items pairs.new.items) }
    ensures held { IfOk result (λ _. ArePairsHeld (T.holds terms.now) pairs.new.items) }
{
    match (terms.node(a), terms.node(b)) {
        (View::Star, View::Star) => Ok(true),
        (View::Square, View::Square) => Ok(true),
        (View::Var(i), View::Var(j)) => Ok(i == j),
        (View::Lam(t, m), View::Lam(s, n)) => {
            pair_binders(depth, (t, s), (m, n), pairs)?;
            Ok(true)
        }
        (View::Pi(t, m), View::Pi(s, n)) => {
            pair_binders(depth, (t, s), (m, n), pairs)?;
            Ok(true)
        }
        (View::Const(c, us), View::Const(d, vs)) => pair_if(c.same(d), depth, us, vs, pairs),
        (View::Meta(m, us), View::Meta(n, vs)) => pair_if(m == n, depth, us, vs, pairs),
        _ => Ok(false),
    }
}

/// The parts of two terms, the last pair first, or `None` exactly where the terms differ in kind or in the number of arguments.
pub fn pairs_of<T: Terms>(
    alloc: Global,
    terms: &T,
    depth: u32,
    a: T::Handle,
    b: T::Handle,
) -> Result<Option<Vec<Pair<T::Handle>>>, AllocError>
    requires left { T.holds terms.now a }
    requires right { T.holds terms.now b }
    ensures pairs { IfOk result (λ o. ArePairs (T.means terms.now) depth (T.means terms.now a) (T.means terms.now b) (option_map (λ v. v.items) o)) }
    ensures held { IfOk result (λ o. IfSome o (λ v. ArePairsHeld (T.holds terms.now) v.items)) }
{
    let mut pairs = Vec::new(alloc);
    let (mut x, mut y) = (a, b);
    while let (View::App(f, u), View::App(g, v)) = (terms.node(x), terms.node(y)) {
        pairs.push(Pair {
            depth,
            found: u,
            wanted: v,
        })?;
        x = f;
        y = g;
    }
    if pair_heads(terms, depth, x, y, &mut pairs)? {
        Ok(Some(pairs))
    } else {
        Ok(None)
    }
}

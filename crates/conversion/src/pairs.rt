ghost use Rattle.std.specs.Prelude.{◌≡◌, IfOk, IfSome, All, option_map};
ghost use Rattle.conversion.specs.Conversion.{is_defined_at_head};
ghost use Rattle.conversion.specs.Globals.{env_of};
ghost use Rattle.conversion.specs.Spines.{BothHeld, ArePaired, ArePartsAdded, ArePairs, AreNotBothApplied};

use ld_terms::{Globals, Terms, View};
use std::alloc::{AllocError, Global};

/// Whether a constant with a body stands at the head of a term.
pub fn is_defined<T: Terms, G: Globals<T::Handle>>(terms: &T, globals: &G, h: T::Handle) -> bool
    requires { T.holds terms.now h }
    ensures { result ≡ is_defined_at_head (env_of (T.means terms.now) (G.items globals.now) (G.metas globals.now)) (T.means terms.now h) }
{
    let mut head = h;
    while let View::App(f, _) = terms.node(head) {
        head = f;
    }
    match terms.node(head) {
        View::Const(name, _) => match globals.constant(name) {
            Some(item) => item.body.is_some(),
            None => false,
        },
        _ => false,
    }
}

/// Adds the pairs of two lists of equally many terms, the last pair first. It is false, and nothing is added, where they differ in number.
fn pair_arguments<H: Copy>(us: &[H], vs: &[H], pairs: &mut Vec<(H, H)>) -> Result<bool, AllocError>
    ensures { IfOk result (ArePaired us.now vs.now pairs.old.items pairs.new.items) }
{
    if us.len() != vs.len() {
        return Ok(false);
    }
    for i in (0..us.len()).rev() {
        pairs.push((us[i], vs[i]))?;
    }
    Ok(true)
}

/// Whether two terms that aren't both applications are of one kind, with equally many arguments where they are constants or
/// metavariables. If they are, the pairs of their parts are added, the last pair first.
fn pair_heads<T: Terms>(
    terms: &T,
    a: T::Handle,
    b: T::Handle,
    pairs: &mut Vec<(T::Handle, T::Handle)>,
) -> Result<bool, AllocError>
    requires left { T.holds terms.now a }
    requires right { T.holds terms.now b }
    requires heads { AreNotBothApplied (T.means terms.now a) (T.means terms.now b) }
    requires pairs { All (BothHeld (T.holds terms.now)) pairs.old.items }
    ensures added { IfOk result (ArePartsAdded (T.means terms.now) (T.means terms.now a) (T.means terms.now b) pairs.old.items pairs.new.items) }
    ensures held { IfOk result (λ _. All (BothHeld (T.holds terms.now)) pairs.new.items) }
{
    match (terms.node(a), terms.node(b)) {
        (View::Star, View::Star) => Ok(true),
        (View::Square, View::Square) => Ok(true),
        (View::Var(i), View::Var(j)) => Ok(i == j),
        (View::Lam(t, m), View::Lam(s, n)) => {
            pairs.push((m, n))?;
            pairs.push((t, s))?;
            Ok(true)
        }
        (View::Pi(t, m), View::Pi(s, n)) => {
            pairs.push((m, n))?;
            pairs.push((t, s))?;
            Ok(true)
        }
        (View::Const(c, us), View::Const(d, vs)) => {
            if c.same(d) {
                pair_arguments(us, vs, pairs)
            } else {
                Ok(false)
            }
        }
        (View::Meta(m, us), View::Meta(n, vs)) => {
            if m == n {
                pair_arguments(us, vs, pairs)
            } else {
                Ok(false)
            }
        }
        _ => Ok(false),
    }
}

/// The parts of two terms, the last pair first, or `None` exactly where the terms differ in kind or in the number of arguments.
pub fn pairs_of<T: Terms>(
    alloc: Global,
    terms: &T,
    a: T::Handle,
    b: T::Handle,
) -> Result<Option<Vec<(T::Handle, T::Handle)>>, AllocError>
    requires left { T.holds terms.now a }
    requires right { T.holds terms.now b }
    ensures pairs { IfOk result (λ o. ArePairs (T.means terms.now) (T.means terms.now a) (T.means terms.now b) (option_map (λ v. v.items) o)) }
    ensures held { IfOk result (λ o. IfSome o (λ v. All (BothHeld (T.holds terms.now)) v.items)) }
{
    let mut pairs = Vec::new(alloc);
    let (mut x, mut y) = (a, b);
    while let (View::App(f, u), View::App(g, v)) = (terms.node(x), terms.node(y)) {
        pairs.push((u, v))?;
        x = f;
        y = g;
    }
    if pair_heads(terms, x, y, &mut pairs)? {
        Ok(Some(pairs))
    } else {
        Ok(None)
    }
}

//! The holes `?` of a surface tree.

ghost use Rattle.std.specs.Prelude.{◌≡◌, map};
ghost use Rattle.move_set.specs.Asked as spec;

use term_text::{Shape, Surface};

/// The first of two places.
fn or_first(first: Option<u64>, second: Option<u64>) -> Option<u64>
    ensures { result ≡ spec.or_first first second }
{
    match first {
        Some(at) => Some(at),
        None => second,
    }
}

/// The place of the first `?` of a tree, in text order, counted in bytes from the start of the whole text.
#[cycle(asked)]
#[tactic(auto, using(crate::proofs::AskedEquations::asked_equations))]
pub fn first_asked(t: &Surface) -> Option<u64>
    ensures { result ≡ spec.first_asked t.now }
{
    match &t.shape {
        Shape::Star => None,
        Shape::Wild => None,
        Shape::Asked => Some(t.at),
        Shape::Named(_) => None,
        Shape::Const(_, us) => first_asked_in(us.as_slice()),
        Shape::App(f, us) => or_first(first_asked(f.get()), first_asked_in(us.as_slice())),
        Shape::Lam(_, a, m) => or_first(first_asked(a.get()), first_asked(m.get())),
        Shape::Pi(_, a, b) => or_first(first_asked(a.get()), first_asked(b.get())),
    }
}

/// The place of the first `?` of some trees.
#[cycle(asked)]
fn first_asked_in(us: &[Surface]) -> Option<u64>
    ensures { result ≡ spec.first_of (map spec.first_asked us.now) }
{
    for u in us {
        let found = first_asked(u);
        if found.is_some() {
            return found;
        }
    }
    None
}

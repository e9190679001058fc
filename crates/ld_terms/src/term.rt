use crate::boxed::Boxed;
use crate::list::List;
use crate::name::Name;

/// A term of λD as plain data, node by node as in [`View`](crate::View).
#[derive(Debug, Drop)]
pub enum Term {
    Star,
    Square,
    Var(u32),
    App(Boxed<Term>, Boxed<Term>),
    Lam(Boxed<Term>, Boxed<Term>),
    Pi(Boxed<Term>, Boxed<Term>),
    Const(Name, List<Term>),
    Meta(u32, List<Term>),
}

//! The trees that texts stand for.

use ld_terms::{Boxed, List, Name};

/// How a text calls a variable.
#[derive(Debug, Drop)]
pub enum Label {
    /// A name.
    Plain(Name),
    /// A level name `%k`. A level has at most 9 digits.
    Level(u32),
}

/// A tree of the grammar of terms, before its names are resolved.
///
/// Contracts see it as plain data, a tree by its value.
#[cycle(tree)]
#[derive(Debug, Drop)]
pub struct Surface {
    /// The place of the node's first token, counted in bytes from the text's start, inside the parentheses round the whole node.
    pub at: u64,
    /// What stands there.
    pub shape: Shape,
}

/// What stands at a node of a [`Surface`] tree. Parentheses add no node.
#[cycle(tree)]
#[derive(Debug, Drop)]
pub enum Shape {
    /// `*`.
    Star,
    /// `_`, a hole that unification has to fill.
    Wild,
    /// `?`, a hole that becomes a goal.
    Asked,
    /// A name or a level name.
    Named(Label),
    /// A constant with its arguments in parentheses.
    Const(Name, List<Surface>),
    /// An application with all of its arguments, at least one: `App(f, [a, b])` stands for two nested applications.
    App(Boxed<Surface>, List<Surface>),
    /// An abstraction `fun (x : A) => M`.
    Lam(Label, Boxed<Surface>, Boxed<Surface>),
    /// A product `(x : A) -> B`, or an arrow `A -> B`, whose variable has no name.
    Pi(Option<Label>, Boxed<Surface>, Boxed<Surface>),
}

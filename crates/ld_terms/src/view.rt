use crate::name::Name;

/// One node of a term, whose parts are handles of a store.
#[derive(Clone, Copy, Debug)]
pub enum View<'a, H> {
    /// `*`, the sort of types.
    Star,
    /// `□`, the sort of kinds.
    Square,
    /// A variable by its de Bruijn index: `Var(0)` is the last entry of the context.
    Var(u32),
    /// An application `M N`.
    App(H, H),
    /// An abstraction `fun (x : A) => M`, with `A` and `M`.
    Lam(H, H),
    /// A product `(x : A) -> B`, with `A` and `B`.
    Pi(H, H),
    /// A constant with its arguments, the first one for the first parameter.
    Const(&'a Name, &'a [H]),
    /// A metavariable with its arguments, one per entry of its declared context.
    Meta(u32, &'a [H]),
}

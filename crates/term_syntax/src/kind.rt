//! The kinds of tokens.

ghost use Rattle.std.specs.Prelude.{◌≡◌};
ghost use Rattle.term_syntax.specs.Kinds as spec;

/// What a token is. The tokens of terms, moves and books are the same.
#[derive(Clone, Copy, Debug, PartialEq, Eq)]
pub enum Kind {
    /// No token is left.
    End,
    /// A byte that begins no token, or the first byte of a name or level name that is too long.
    Bad,
    /// `*`.
    Star,
    /// `_`.
    Wild,
    /// `?`.
    Asked,
    /// `(`.
    Open,
    /// `)`.
    Close,
    /// `,`.
    Comma,
    /// `:`.
    Colon,
    /// `;`.
    Semi,
    /// `->`.
    Arrow,
    /// `=>`.
    FatArrow,
    /// `:=`.
    Assign,
    /// A letter followed by letters, digits and `_`, at most 64 bytes, that isn't reserved.
    Name,
    /// A name directly followed by `(`. The parenthesis is a token of its own.
    Call,
    /// A level name: `%` and a decimal number without leading zeros, at most 9 digits.
    Level,
    /// The reserved name `fun`.
    Fun,
    /// The reserved name `def`.
    Def,
    /// The reserved name `prim`.
    Prim,
}

/// Whether two kinds are the same.
#[tactic(auto, unfolding(crate::specs::Kinds::is_kind))]
pub fn is_kind(a: Kind, b: Kind) -> bool
    ensures { result ≡ spec.is_kind a b }
{
    a == b
}

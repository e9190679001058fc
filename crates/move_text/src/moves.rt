use ld_terms::Name;
use term_text::Surface;

/// A step of a proof as a text says it, before its names are resolved. Places in its terms count from the start of the whole text.
#[derive(Debug, Drop)]
pub enum Move {
    /// `intro x`: a new entry of that name for the product that is to be proved.
    Intro(Name),
    /// `apply t`: the goal by this term, with goals for the arguments that are left.
    Apply(Surface),
    /// `exact t`: the goal by this term.
    Exact(Surface),
    /// `refine t`: the goal by this term, with goals for its holes.
    Refine(Surface),
    /// `have x : t`: first this type, then the goal with an entry of that name and type.
    Have(Name, Surface),
    /// `assumption`: the goal by the last entry that fits.
    Assumption,
    /// `change t`: the goal as this type, which it is convertible with.
    Change(Surface),
    /// `unfold a`: the goal with this constant replaced by its body.
    Unfold(Name),
}

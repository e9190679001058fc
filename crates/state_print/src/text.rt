use ld_terms::Bytes;

/// What replies show of a state. Each text is a JSON text in one line.
#[derive(Debug, Drop)]
pub struct StateText {
    /// The list of the active goals in their order: an object for each, with the numbers of the goals that it is coupled with, its number, its
    /// type and the entries of its context.
    pub goals: Bytes,
    /// The list of the dormant goals' numbers, the least first.
    pub dormant: Bytes,
    /// Whether no goal is open, active or dormant.
    pub solved: bool,
    /// The proof, where the state is solved: a string, or its size as an object where it is too large to print.
    pub term: Option<Bytes>,
    /// The theorem, which is the type of metavariable 0, in the same form.
    pub ty: Bytes,
}

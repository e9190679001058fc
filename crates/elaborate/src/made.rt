//! What elaboration makes.

use ld_terms::List;
use meta_context::Metas;

/// An elaborated term: the metavariables in which it stands, the term, its type (the type that was wanted of it, or its sort where it was to
/// be a type), the metavariables of the holes `?`, and those of the holes `_` with their places. Both lists are in text order.
#[derive(Drop)]
pub struct Made<H: Copy> {
    pub metas: Metas<H>,
    pub term: H,
    pub ty: H,
    pub goals: List<u32>,
    pub holes: List<(u32, u64)>,
}

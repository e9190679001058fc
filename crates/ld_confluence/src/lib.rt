//! Confluence of βδ-reduction in a legal environment, and what follows from it: products are injective and a step keeps the type.
//!
//! The proof is by parallel reduction and complete developments (Tait and Martin-Löf, Takahashi). There is no call for run time
//! here: each function below is a law, stated by its contract and proved with the crate.
#![tactic(auto)]

ghost use Rattle.ld_confluence.specs.Laws.{Confluence, ProductsAreInjective, SubjectReduction, Strengthening};

/// Confluence: in a legal environment βδ-equal terms have a common reduct.
pub fn equal_terms_have_a_common_reduct()
    ensures { Confluence }
{}

/// In a legal environment βδ-equal products have βδ-equal domains and codomains.
pub fn products_are_injective()
    ensures { ProductsAreInjective }
{}

/// Subject reduction: a step keeps the type of a term.
#[tactic(auto, using(crate::proofs::SubjectReduction::subject_reduction))]
pub fn steps_keep_types()
    ensures { SubjectReduction }
{}

/// Strengthening: what is derived or βδ-equal in a legal environment is so in each legal environment that agrees with it on the
/// constants of the judgement or of the two terms.
pub fn strengthening_holds()
    ensures { Strengthening }
{}

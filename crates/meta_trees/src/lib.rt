//! Metavariable contexts as plain lists of declarations, and which metavariables a term depends on: the definitions that the calls
//! and the laws of metavariables share.
//!
//! `specs/MetaContext.antt` says what is declared of a metavariable, and what declaring and assigning are; `specs/Dependencies.antt`
//! which metavariables a term depends on; `specs/Whole.antt` in which environment an engine looks up. There is no call for run time
//! here: each function below is a law, stated by its contract and proved with the crate.
#![tactic(auto)]

ghost use Rattle.meta_trees.specs.Laws.{DependencyIsDecided};
ghost use Rattle.std.specs.Prelude.{◌≡◌, [], ◌∷◌, true, false};
ghost use Rattle.ld_trees.specs.Term.{Meta, none, ◌▹◌};
ghost use Rattle.meta_trees.specs.Dependencies.{depends, dependencies};
ghost use Rattle.meta_trees.specs.Examples.{three, typed_by, cycle};

/// The test of dependency decides whether a metavariable is in the least set of dependencies.
#[tactic(auto, using(crate::proofs::Dependencies::depends_is))]
pub fn dependency_is_decided()
    ensures { DependencyIsDecided }
{}

/// Worked examples of dependencies, which the checker computes.
pub fn dependencies_compute()
    ensures own { dependencies three (none ▹ Meta 2 none) ≡ 1 ∷ 2 ∷ [] }
    ensures by_type { depends typed_by (none ▹ Meta 1 none) 0 ≡ true }
    ensures not_back { depends typed_by (none ▹ Meta 0 none) 1 ≡ false }
    ensures itself { depends cycle (none ▹ Meta 0 none) 0 ≡ true }
{}

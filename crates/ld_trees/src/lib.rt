//! Terms of λD as plain trees, and their substitution: the definitions that every crate of panto speaks of, with their laws.
//!
//! `specs/Term.antt` says what a term is, `specs/Substitution.antt` what shifting and putting in of arguments are. There is no
//! call for run time here: each function below is a law, stated by its contract and proved with the crate. Terms follow
//! Nederpelt and Geuvers, *Type Theory and Formal Proof* (2014), with de Bruijn indices.
#![tactic(auto)]

ghost use Rattle.ld_trees.specs.Laws.{
  EqualityIsDecided,
  SubstitutionsCompose,
  VariablesAreNeutral,
  RenamingsAreSubstitutions,
  WeakeningIsUndone,
  SubstitutionLemma,
  ShiftIsRenaming,
  RecursionPutsIn,
};
ghost use Rattle.std.specs.Prelude.{◌≡◌, false};
ghost use Rattle.ld_trees.specs.Term.{Star, Square, Var, App, Lam, Pi, none, ◌▹◌, count, same, nodes, depth};
ghost use Rattle.ld_trees.specs.Substitution.{weaken, subst_all, shift};
ghost use Rattle.ld_trees.specs.Scoping.{Scoped};

/// The test of equality decides whether two trees are equal.
#[tactic(auto, using(crate::proofs::Equality::same_decides))]
pub fn equality_is_decided()
    ensures { EqualityIsDecided }
{}

/// One substitution after another is the substitution of their composition.
#[tactic(auto, using(crate::proofs::SubstitutionLaws::subst_subst))]
pub fn substitutions_compose()
    ensures { SubstitutionsCompose }
{}

/// Variables put in for themselves change nothing.
#[tactic(auto, using(crate::proofs::SubstitutionLaws::subst_var))]
pub fn variables_are_neutral()
    ensures { VariablesAreNeutral }
{}

/// A renaming is the substitution of renamed variables.
#[tactic(auto, using(crate::proofs::SubstitutionLaws::subst_of_rename))]
pub fn renamings_are_substitutions()
    ensures { RenamingsAreSubstitutions }
{}

/// An argument put in for an entry that doesn't occur changes nothing.
#[tactic(auto, using(crate::proofs::SubstitutionLaws::instantiate_weaken))]
pub fn weakening_is_undone()
    ensures { WeakeningIsUndone }
{}

/// The substitution lemma: an argument put in, before and after another substitution.
#[tactic(auto, using(crate::proofs::SubstitutionLaws::subst_instantiate))]
pub fn substitution_lemma_holds()
    ensures { SubstitutionLemma }
{}

/// Shifting, by recursion on the tree, is a renaming.
#[tactic(auto, using(crate::proofs::Recursions::shift_is))]
pub fn shift_is_renaming()
    ensures { ShiftIsRenaming }
{}

/// Arguments put in by recursion on the tree are put in at once.
#[tactic(auto, using(crate::proofs::Recursions::subst_all_is))]
pub fn recursion_puts_in()
    ensures { RecursionPutsIn }
{}

/// Worked examples of sizes, equality, substitution, shifting and scopes, which the checker computes.
pub fn examples_compute()
    ensures sizes { (nodes (Pi Star (Var 0)) ≡ 3) × (depth (Pi Star (Var 0)) ≡ 2) }
    ensures number { count (none ▹ Star ▹ Square) ≡ 2 }
    ensures different { same (App Star Square) (App Square Star) ≡ false }
    ensures arguments { subst_all (none ▹ Star ▹ Square) (App (Var 1) (Var 0)) ≡ App Star Square }
    ensures lowered { subst_all (none ▹ Star) (Lam (Var 0) (App (Var 0) (App (Var 1) (Var 2)))) ≡ Lam Star (App (Var 0) (App Star (Var 1))) }
    ensures captured { subst_all (none ▹ Var 3) (Pi Star (Var 1)) ≡ Pi Star (Var 4) }
    ensures weakened { weaken (Lam (Var 0) (App (Var 0) (Var 1))) ≡ Lam (Var 1) (App (Var 0) (Var 2)) }
    ensures shifted { shift 0 2 (Var 0) ≡ Var 2 }
    ensures kept { shift 1 2 (Var 0) ≡ Var 0 }
    ensures scoped { Scoped 1 (Lam (Var 0) (Var 1)) }
    ensures unscoped { Scoped 1 (Lam (Var 0) (Var 2)) → ⊥ }
{}

//! Metavariable contexts: the environment cut to dependencies, and legality, with the laws that keep it.
//!
//! `specs/Cut.antt` says what an environment cut to dependencies is, `specs/Legality.antt` when a metavariable context is legal, and
//! `specs/Unfolding.antt` what a term is with its assigned metavariables unfolded; metavariable contexts and dependencies are those
//! of `meta_trees`. There is no call for run time here: each function below is a law, stated by its contract and proved with the
//! crate.
#![tactic(auto)]

ghost use Rattle.meta_laws.specs.Laws.{
  OrderIsUnique,
  EmptyIsLegal,
  OrdersAreLegal,
  CutsAreLegal,
  CutsGrow,
  EqualityGrows,
  ValuesAreEqual,
  JudgementsAreOfDependencies,
  KeepingIsPreorder,
  AssigningKeepsLegality,
  DeclaringKeepsLegality,
  AssigningAddsDependencies,
  DependenciesSuffice,
  EqualityNeedsDependencies,
  ContextsAreLegal,
  UnfoldingIsFixed,
  DependenciesStay,
  FootprintStays,
  UnfoldingRemovesMetas,
  RootIsProved,
  SolvedIsProved,
  InferenceIsDerived,
  SortIsDerived,
  YesIsEqualInTheCut,
  WeakHeadFormIsEqualInTheCut,
  InferredTypesDependOnNoMore,
  DeclaringIsSound,
  ExtendingIsSound,
  SettlingKeepsLegality,
};
ghost use Rattle.std.specs.Prelude.{◌≡◌, [], ◌∷◌};
ghost use Rattle.ld_trees.specs.Term.{Star, Pi, Meta, none, ◌▹◌};
ghost use Rattle.meta_trees.specs.MetaContext.{assign};
ghost use Rattle.meta_laws.specs.Unfolding.{unfold_metas, value_of_root};
ghost use Rattle.meta_laws.specs.Cut.{order};
ghost use Rattle.meta_laws.specs.Legality.{IsLegalMetas};
ghost use Rattle.meta_trees.specs.Examples.{three, cycle};
ghost use Rattle.meta_laws.specs.Examples.{chain};

/// The order of a cut is the one list of exactly the declared dependencies, each after its own, the least possible number first.
#[tactic(auto, using(crate::proofs::LeastFirst::order_is_unique))]
pub fn order_is_unique()
    ensures { OrderIsUnique }
{}

/// No metavariable is legal over each legal environment of constants.
#[tactic(auto, using(crate::proofs::Legal::empty_is_legal))]
pub fn empty_is_legal()
    ensures { EmptyIsLegal }
{}

/// The items of each ordered list of metavariables, after those of the environment, are a legal environment.
#[tactic(auto, using(crate::proofs::Legal::orders_are_legal))]
pub fn orders_are_legal()
    ensures { OrdersAreLegal }
{}

/// Each cut of a legal metavariable context is a legal environment.
#[tactic(auto, using(crate::proofs::Legal::cuts_are_legal))]
pub fn cuts_are_legal()
    ensures { CutsAreLegal }
{}

/// A derivation in one cut holds in each cut with its dependencies, also where metavariables are declared and assigned.
#[tactic(auto, using(crate::proofs::Growing::cuts_grow))]
pub fn cuts_grow()
    ensures { CutsGrow }
{}

/// Terms that are βδ-equal in one cut are so in each cut with its dependencies, also where metavariables are declared and assigned.
#[tactic(auto, using(crate::proofs::Growing::equality_grows))]
pub fn equality_grows()
    ensures { EqualityGrows }
{}

/// An assigned metavariable is βδ-equal to its value with the arguments put in, in the cut to its own dependencies.
#[tactic(auto, using(crate::proofs::Growing::values_are_equal))]
pub fn values_are_equal()
    ensures { ValuesAreEqual }
{}

/// The dependencies of what a judgement in a cut speaks of are dependencies that the cut was made for.
#[tactic(auto, using(crate::proofs::Growing::judgements_are_of_dependencies))]
pub fn judgements_are_of_dependencies()
    ensures { JudgementsAreOfDependencies }
{}

/// Each metavariable context keeps itself, and what keeps one that keeps another keeps the other.
pub fn keeping_is_preorder()
    ensures { KeepingIsPreorder }
{}

/// The central law: where a metavariable has no value, a value that has its type and doesn't depend on it keeps legality.
pub fn assigning_keeps_legality()
    ensures { AssigningKeepsLegality }
{}

/// The next number declared with a type that has a sort keeps legality.
pub fn declaring_keeps_legality()
    ensures { DeclaringKeepsLegality }
{}

/// A dependency that an assignment adds goes by way of the assigned metavariable and its value.
#[tactic(auto, using(crate::proofs::Assigning::assigning_adds_dependencies))]
pub fn assigning_adds_dependencies()
    ensures { AssigningAddsDependencies }
{}

/// A derivation needs the dependencies alone: where it holds in some cut, it holds in each cut with the dependencies of the judgement.
#[tactic(auto, using(crate::proofs::Strengthening::dependencies_suffice))]
pub fn dependencies_suffice()
    ensures { DependenciesSuffice }
{}

/// Terms that are βδ-equal in a cut are so in each smaller cut that has their dependencies.
#[tactic(auto, using(crate::proofs::Strengthening::equality_needs_dependencies))]
pub fn equality_needs_dependencies()
    ensures { EqualityNeedsDependencies }
{}

/// The context of each metavariable is legal where the environment is cut to the dependencies of that context.
#[tactic(auto, using(crate::proofs::Strengthening::contexts_are_legal))]
pub fn contexts_are_legal()
    ensures { ContextsAreLegal }
{}

/// An assigned metavariable is unfolded to its unfolded value with the unfolded arguments put in.
#[tactic(auto, using(crate::proofs::Rounds::unfolding_is_fixed))]
pub fn unfolding_is_fixed()
    ensures { UnfoldingIsFixed }
{}

/// Where the declarations of the dependencies stay as they were, the dependencies stay.
pub fn dependencies_stay()
    ensures { DependenciesStay }
{}

/// Where the dependencies of a term stay as they were, the term with its assigned metavariables unfolded stays.
#[tactic(auto, using(crate::proofs::Footprint::footprint_stays))]
pub fn footprint_stays()
    ensures { FootprintStays }
{}

/// Where every dependency has a value, a derivation with all metavariables unfolded holds in the environment alone.
#[tactic(auto, using(crate::proofs::Solved::unfolding_removes_metas))]
pub fn unfolding_removes_metas()
    ensures { UnfoldingRemovesMetas }
{}

/// Where every dependency of metavariable 0 has a value, the value of the root is closed, has no metavariable, and has the type of
/// metavariable 0 in the environment and the empty context alone.
pub fn root_is_proved()
    ensures { RootIsProved }
{}

/// The value of a solved state is closed, has no metavariable, and has the type of metavariable 0 in the environment and the empty
/// context alone.
pub fn solved_is_proved()
    ensures { SolvedIsProved }
{}

/// Where the context is legal in the cut to the dependencies of context and term, the type that is inferred with every metavariable
/// in reach is derived in that cut.
#[tactic(auto, using(crate::proofs::Engines::inference_is_derived))]
pub fn inference_is_derived()
    ensures { InferenceIsDerived }
{}

/// Where the context is legal in the cut to the dependencies of context and term, the sort that is inferred with every metavariable
/// in reach is derived in that cut.
#[tactic(auto, using(crate::proofs::Engines::sort_is_derived))]
pub fn sort_is_derived()
    ensures { SortIsDerived }
{}

/// A Yes of conversion with every metavariable in reach means that the terms are βδ-equal in the cut to their own dependencies.
#[tactic(auto, using(crate::proofs::Engines::yes_is_equal_in_the_cut))]
pub fn yes_is_equal_in_the_cut()
    ensures { YesIsEqualInTheCut }
{}

/// A weak head form with every metavariable in reach is βδ-equal to its term in the cut to the term's dependencies, and depends on
/// no other metavariable.
pub fn weak_head_form_is_equal_in_the_cut()
    ensures { WeakHeadFormIsEqualInTheCut }
{}

/// A type that is inferred with every metavariable in reach depends on no other metavariable than the context and the term.
#[tactic(auto, using(crate::proofs::Engines::inferred_types_depend_on_no_more))]
pub fn inferred_types_depend_on_no_more()
    ensures { InferredTypesDependOnNoMore }
{}

/// The next number declared over a context that is legal in its own cut, with a type whose sort is inferred, keeps legality.
pub fn declaring_is_sound()
    ensures { DeclaringIsSound }
{}

/// A context that is legal in its own cut, extended by a type whose sort is inferred, is legal in its own cut.
#[tactic(auto, using(crate::proofs::Settling::extending_is_sound))]
pub fn extending_is_sound()
    ensures { ExtendingIsSound }
{}

/// A value whose type is inferred may be assigned where that type is then βδ-equal to the metavariable's in a metavariable context
/// that keeps the first, and the value doesn't depend on the metavariable.
pub fn settling_keeps_legality()
    ensures { SettlingKeepsLegality }
{}

/// Worked examples of orders and unfolding, which the checker computes.
pub fn orders_compute()
    ensures later_first { order three (none ▹ Meta 0 none) ≡ 0 ∷ 2 ∷ 1 ∷ [] }
    ensures nothing_possible { order cycle (none ▹ Meta 0 none) ≡ [] }
    ensures unfolds { unfold_metas three (Meta 0 none) ≡ Pi (Meta 1 none) (Meta 1 none) }
    ensures solved { value_of_root (assign 1 Star three) ≡ Pi Star Star }
    ensures least_first { order chain (none ▹ Meta 4 none ▹ Meta 7 none) ≡ 7 ∷ 4 ∷ 3 ∷ 2 ∷ 1 ∷ 0 ∷ 5 ∷ [] }
{}

/// The worked metavariable context of three is legal, and the cycle is not.
#[tactic(auto, using(crate::proofs::Examples::three_legal, crate::proofs::Examples::cycle_refused))]
pub fn legality_is_met_and_refused()
    ensures legal { IsLegalMetas [] three }
    ensures cyclic { ¬ IsLegalMetas [] cycle }
{}

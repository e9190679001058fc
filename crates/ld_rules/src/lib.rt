//! The rules of λD: environments, β- and δ-steps, βδ-equality and derivations over plain trees, with the laws of derivations.
//!
//! `specs/Derivation.antt` reads like the table of derivation rules in Nederpelt and Geuvers, *Type Theory and Formal Proof*
//! (2014), `specs/Reduction.antt` like the book's definitions of reduction and conversion. A metavariable is read as an item of
//! the environment, like a constant. There is no call for run time here: each function below is a law, stated by its contract
//! and proved with the crate. The lemmas behind the laws stand in `proofs/`, for the crates above.
#![tactic(auto)]

ghost use Rattle.ld_rules.specs.Laws.{
  JudgementsAreLegal,
  JudgementsAreScoped,
  LegalIsScoped,
  KnownNamesAreOfItems,
  EntriesHaveTypes,
  NamesAreNew,
  ItemsAreFound,
  ItemsHaveTypes,
  ArgumentsFitParameters,
  EqualityIsCongruence,
  EqualityIsKept,
  Thinning,
  Substitution,
  SubstitutionOfOne,
  SubstitutionOfAll,
  ChangeOfEnvironment,
  TypesAreValid,
  GenerationForProducts,
  AddingIsExact,
  AddingFromBelow,
  RemovalOfDefinitions,
  RemovalOfLast,
};
ghost use Rattle.std.specs.Prelude.{◌≡◌, [], ◌∷◌};
ghost use Rattle.ld_trees.specs.Term.{Star, Var, App, Lam, Pi, Const, none, ◌▹◌};
ghost use Rattle.ld_rules.specs.Reduction.{Step, Equal};
ghost use Rattle.ld_rules.specs.Derivation.{Derives};
ghost use Rattle.ld_rules.specs.Legality.{IsLegalEnvironment};
ghost use Rattle.ld_rules.specs.Expansion.{expand, body_of};
ghost use Rattle.ld_rules.specs.Examples.{a_name, a_item, falsum, not_name, not_item, not_of, negation_book, identity, identity_type};

/// The environment and the context of a judgement are legal.
pub fn judgements_are_legal()
    ensures { JudgementsAreLegal }
{}

/// A judgement has only variables of its context, and only constants of its environment, each with exactly one argument per parameter.
pub fn judgements_are_scoped()
    ensures { JudgementsAreScoped }
{}

/// The items of a legal environment and the entries of a legal context are scoped.
pub fn legal_is_scoped()
    ensures { LegalIsScoped }
{}

/// Each constant of a term whose constants are known has the name of an item of the environment.
#[tactic(auto, using(crate::proofs::ScopedItems::known_names))]
pub fn known_names_are_of_items()
    ensures { KnownNamesAreOfItems }
{}

/// In a legal context each variable has the type of its entry.
#[tactic(auto, using(crate::proofs::Entries::entry_derives))]
pub fn entries_have_types()
    ensures { EntriesHaveTypes }
{}

/// A name is new exactly where no item of the environment has it.
pub fn names_are_new()
    ensures { NamesAreNew }
{}

/// In a legal environment an item is found by a name exactly where it is in the environment and has that name.
pub fn items_are_found()
    ensures { ItemsAreFound }
{}

/// In a legal environment each item has legal parameters, a valid type, and where it has a body a body of that type.
pub fn items_have_types()
    ensures { ItemsHaveTypes }
{}

/// Arguments fit parameters where they are as many, and each has the type of its parameter with all arguments put in.
pub fn arguments_fit_parameters()
    ensures { ArgumentsFitParameters }
{}

/// Terms with βδ-equal parts are βδ-equal.
pub fn equality_is_congruence()
    ensures { EqualityIsCongruence }
{}

/// Terms that are βδ-equal in a legal environment stay so under a substitution, and in each environment that has its items.
#[tactic(auto, using(crate::proofs::Environments::equality_is_kept))]
pub fn equality_is_kept()
    ensures { EqualityIsKept }
{}

/// Thinning: a derivation holds in each legal context that has the entries, wherever they stand in it.
#[tactic(auto, using(crate::proofs::Entries::thinning))]
pub fn thinning_holds()
    ensures { Thinning }
{}

/// Substitution: a derivation holds with a term of its type in place of each entry.
#[tactic(auto, using(crate::proofs::Entries::substitute))]
pub fn substitution_holds()
    ensures { Substitution }
{}

/// An argument put in for the last entry keeps a derivation.
#[tactic(auto, using(crate::proofs::Entries::substitute_last))]
pub fn one_argument_is_put_in()
    ensures { SubstitutionOfOne }
{}

/// Arguments put in for all parameters keep a derivation.
#[tactic(auto, using(crate::proofs::Entries::substitute_arguments))]
pub fn all_arguments_are_put_in()
    ensures { SubstitutionOfAll }
{}

/// A derivation holds in each legal environment that has its items, a primitive perhaps replaced by a definition of the same type.
#[tactic(auto, using(crate::proofs::Environments::change_environment))]
pub fn environments_may_change()
    ensures { ChangeOfEnvironment }
{}

/// Validity of types: the type of a term is `□` or has a sort.
#[tactic(auto, using(crate::proofs::Validity::valid))]
pub fn types_are_valid()
    ensures { TypesAreValid }
{}

/// Generation for products: domain and codomain have sorts, and the sort of the codomain is βδ-equal to the type of the product.
#[tactic(auto, using(crate::proofs::Validity::product))]
pub fn products_are_generated()
    ensures { GenerationForProducts }
{}

/// An environment with one more item is legal exactly where it was legal before and the item may be added.
pub fn adding_is_exact()
    ensures { AddingIsExact }
{}

/// An item whose judgement was derived in a smaller environment may be added, if its name is new.
#[tactic(auto, using(crate::proofs::Environments::adding_from_below))]
pub fn items_come_from_below()
    ensures { AddingFromBelow }
{}

/// Removal of definitions: a derivation holds in an environment without some items, each use of them replaced by a term of its type.
#[tactic(auto, using(crate::proofs::Removal::removed))]
pub fn definitions_are_removed()
    ensures { RemovalOfDefinitions }
{}

/// Removal of the last definition: a derivation holds without it, each use of it replaced by its body.
pub fn last_definition_is_removed()
    ensures { RemovalOfLast }
{}

/// The polymorphic identity has its type in the empty environment and context.
#[tactic(auto, using(crate::proofs::Examples::identity_derived))]
pub fn identity_has_its_type()
    ensures { Derives [] none identity identity_type }
{}

/// A book of one primitive is legal, and the primitive has its type.
#[tactic(auto, using(crate::proofs::Examples::primitive_legal, crate::proofs::Examples::primitive_typed))]
pub fn primitive_has_its_type()
    ensures legal { IsLegalEnvironment (a_item ∷ []) }
    ensures typed { Derives (a_item ∷ []) none (Const a_name none) Star }
{}

/// A book of two definitions is legal, and `not(falsum())` has its type.
#[tactic(auto, using(crate::proofs::Examples::book_legal, crate::proofs::Examples::negation_typed))]
pub fn definitions_have_their_types()
    ensures legal { IsLegalEnvironment negation_book }
    ensures typed { Derives negation_book none (not_of falsum) Star }
{}

/// One δ-step unfolds `not(falsum())`, and a variable of that type has the unfolded type too.
#[tactic(auto, using(crate::proofs::Examples::negation_unfolds, crate::proofs::Examples::converted))]
pub fn definitions_unfold()
    ensures step { Step negation_book (not_of falsum) (Pi falsum falsum) }
    ensures converted { Derives negation_book (none ▹ not_of falsum) (Var 0) (Pi falsum falsum) }
    ensures expanded { expand (body_of not_item) (App (not_of Star) (not_of falsum)) ≡ App (Pi Star falsum) (Pi falsum falsum) }
    ensures other_count { expand (body_of not_item) (Const not_name none) ≡ Const not_name none }
{}

/// The identity takes `falsum()`: the application has its type, and one β-step puts the argument in.
#[tactic(auto, using(crate::proofs::Examples::identity_applied, crate::proofs::Examples::identity_steps))]
pub fn functions_apply()
    ensures typed { Derives negation_book none (App identity falsum) (Pi falsum falsum) }
    ensures step { Step negation_book (App identity falsum) (Lam falsum (Var 0)) }
{}

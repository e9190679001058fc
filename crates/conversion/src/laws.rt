ghost use Rattle.std.specs.Prelude.{◌≡◌, true, false, codes};
ghost use Rattle.ld_trees.specs.Term.{Star, Square, Var, App, Lam, Pi, Const, Meta, none, ◌▹◌};
ghost use Rattle.conversion.specs.Runs.{Gave, OutOfFuel};
ghost use Rattle.conversion.specs.WeakHead.{whnf};
ghost use Rattle.conversion.specs.Conversion.{conv};
ghost use Rattle.conversion.specs.Examples.{a, falsum, not_of, redex_of, book};
ghost use Rattle.conversion.specs.Laws.{
  WeakHeadFormHasFuelLaw,
  ConversionHasFuelLaw,
  ConversionUnfolds,
  WeakHeadFormIsEqual,
  WeakHeadFormIsScoped,
  YesMeansEqual,
  PlainIsCheap,
};

/// The fuel law of weak head form: an answer with n units that used u comes with each number of units of at least u, which leaves
/// u fewer, and fewer than u are too few.
pub fn weak_head_form_has_fuel_law()
    ensures { WeakHeadFormHasFuelLaw }
{}

/// The fuel law of conversion, in the same words.
pub fn conversion_has_fuel_law()
    ensures { ConversionHasFuelLaw }
{}

/// Conversion is a step over the conversion of parts.
#[tactic(auto, using(crate::proofs::Levels::conv_is))]
pub fn conversion_unfolds()
    ensures { ConversionUnfolds }
{}

/// A weak head form is βδ-equal to its term.
#[tactic(auto, using(crate::proofs::Soundness::whnf_is_equal))]
pub fn weak_head_form_is_equal()
    ensures { WeakHeadFormIsEqual }
{}

/// Where the items of the environment are scoped, the weak head form of a scoped term is scoped at the same depth.
pub fn weak_head_form_is_scoped()
    ensures { WeakHeadFormIsScoped }
{}

/// A Yes of conversion means that the terms are βδ-equal.
#[tactic(auto, using(crate::proofs::Soundness::yes_means_equal))]
pub fn yes_means_equal()
    ensures { YesMeansEqual }
{}

/// Terms without redexes, constants and metavariables are converted with as many units as the smaller has nodes.
#[tactic(auto, using(crate::proofs::Plain::plain_is_cheap))]
pub fn plain_conversion_is_cheap()
    ensures { PlainIsCheap }
{}

/// Worked examples of weak head form, which the checker computes.
pub fn weak_head_forms_compute()
    ensures argument_put_in { whnf book (App (redex_of (Lam Star (Var 0))) a) 9 ≡ Gave a 7 }
    ensures no_unit { whnf book (App (redex_of (Lam Star (Var 0))) a) 1 ≡ OutOfFuel }
    ensures at_the_head { whnf book (App (Var 0) (redex_of a)) 9 ≡ Gave (App (Var 0) (redex_of a)) 9 }
    ensures under_binders { whnf book (Lam Star (redex_of a)) 0 ≡ Gave (Lam Star (redex_of a)) 0 }
    ensures constant { whnf book (not_of a) 100000 ≡ Gave (Pi a falsum) 99999 }
    ensures primitive { whnf book a 0 ≡ Gave a 0 }
    ensures assigned { whnf book (Meta 0 none) 5 ≡ Gave a 4 }
    ensures unassigned { whnf book (Meta 1 none) 5 ≡ Gave (Meta 1 none) 5 }
    ensures wrong_count { whnf book (Const (codes "not") none) 5 ≡ Gave (Const (codes "not") none) 5 }
{}

/// Worked examples of conversion, which the checker computes.
pub fn conversions_compute()
    ensures equal_trees { conv book (not_of a) (not_of a) 0 ≡ Gave true 0 }
    ensures different { conv book Star Square 1 ≡ Gave false 0 }
    ensures redex { conv book (redex_of a) a 2 ≡ Gave true 0 }
    ensures no_unit { conv book (redex_of a) a 1 ≡ OutOfFuel }
    ensures assigned { conv book (Meta 0 none) a 2 ≡ Gave true 0 }
    ensures unassigned { conv book (Meta 1 none) a 2 ≡ Gave false 1 }
    ensures unfolded { conv book (not_of a) (Pi a falsum) 1000 ≡ Gave true 998 }
    ensures equal_constants { conv book (not_of a) (not_of (redex_of a)) 3 ≡ Gave true 0 }
    ensures after_the_first_no { conv book (not_of a) (not_of Star) 6 ≡ Gave false 1 }
{}

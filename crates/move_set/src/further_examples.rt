//! Worked examples of `have`, `assumption`, `change` and `unfold`, which the checker computes. Nothing here is called at run time.

ghost use Rattle.std.specs.Prelude.{◌≡◌, true, codes};
ghost use Rattle.ld_trees.specs.Term.{Star, Var, App, Lam, Pi};
ghost use Rattle.goal_state.specs.State.{rules_metas};
ghost use Rattle.meta_laws.specs.Unfolding.{value_of_root};
ghost use Rattle.unification.specs.Steps.{Gave, Refused, OutOfFuel};
ghost use Rattle.elaboration.specs.Examples.{falsum};
ghost use Rattle.move_set.specs.Refusals.{NameTaken, NoAssumption, NotDefined, NoOccurrence, Unsolved};
ghost use Rattle.move_set.specs.Moves.{moved};
ghost use Rattle.move_set.specs.Examples.{of_order};
ghost use Rattle.move_set.specs.FurtherExamples.{
  Makes,
  doubled,
  unfolded,
  with_refutation,
  not_not_proved,
  changed,
  with_cut,
  with_cut_assumed,
  false_itself,
  false_unfolded,
  false_by_value,
  value_unfolded,
  both_open,
  by_y,
  with_tries,
  by_q,
};

/// `unfold`: a proof of a double negation by it, and its refusals.
pub fn unfoldings_compute()
    ensures doubled { Makes (moved doubled 0 (codes "unfold not") 100000 true) unfolded }
    ensures introduced { Makes (moved unfolded 0 (codes "intro h") 100000 true) with_refutation }
    ensures proved { moved with_refutation 0 (codes "apply h x") 6 true ≡ Gave not_not_proved 0 }
    ensures value { value_of_root (rules_metas not_not_proved.metas) ≡ Lam Star (Lam (Var 0) (Lam (Pi (Var 1) falsum) (App (Var 0) (Var 1)))) }
    // a unit for the node, three for the sort of the new type, and three for the value
    ensures seven { moved false_itself 0 (codes "unfold falsum") 7 true ≡ Gave false_unfolded 0 }
    ensures six { moved false_itself 0 (codes "unfold falsum") 6 true ≡ OutOfFuel }
    // also within the value of a metavariable
    ensures within { Makes (moved false_by_value 0 (codes "unfold falsum") 100000 true) value_unfolded }
    ensures undefined { moved doubled 0 (codes "unfold A") 5 true ≡ Refused (NotDefined (codes "A")) 5 }
    ensures primitive { moved of_order 0 (codes "unfold le") 5 true ≡ Refused (NotDefined (codes "le")) 5 }
    ensures absent { moved doubled 0 (codes "unfold falsum") 0 true ≡ Refused (NoOccurrence (codes "falsum")) 0 }
    // the two nodes of `not` take the units before the new goal is declared
    ensures short { moved doubled 0 (codes "unfold not") 1 true ≡ OutOfFuel }
{}

/// `assumption`: the last entry that fits.
pub fn assumptions_compute()
    ensures last { moved both_open 0 (codes "assumption") 1 true ≡ Gave by_y 0 }
    ensures short { moved both_open 0 (codes "assumption") 0 true ≡ OutOfFuel }
    // what was declared and assigned while an entry was tried that doesn't fit is given up
    ensures given_up { Makes (moved with_tries 0 (codes "assumption") 100000 true) by_q }
    ensures none { moved doubled 0 (codes "assumption") 4 true ≡ Refused NoAssumption 0 }
    ensures too_few { moved doubled 0 (codes "assumption") 3 true ≡ OutOfFuel }
{}

/// `have` and `change`: a goal cut in two, and one stated anew.
pub fn cuts_compute()
    ensures cut { moved doubled 0 (codes "have y : A") 16 true ≡ Gave with_cut 0 }
    ensures fifteen { moved doubled 0 (codes "have y : A") 15 true ≡ OutOfFuel }
    ensures assumed { moved with_cut 0 (codes "assumption") 1 true ≡ Gave with_cut_assumed 0 }
    ensures changed { moved doubled 0 (codes "change not(A) -> falsum()") 15 true ≡ Gave changed 0 }
    ensures fourteen { moved doubled 0 (codes "change not(A) -> falsum()") 14 true ≡ OutOfFuel }
    // the name first, then a `?`, and then what takes units
    ensures taken { moved doubled 0 (codes "have A : ?") 0 true ≡ Refused (NameTaken (codes "A")) 0 }
    ensures asked { moved doubled 0 (codes "have y : not(?)") 0 true ≡ Refused (Unsolved 13) 0 }
    ensures asked_anew { moved doubled 0 (codes "change ?") 0 true ≡ Refused (Unsolved 7) 0 }
{}

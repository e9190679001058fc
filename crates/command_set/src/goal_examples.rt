//! Worked replies of goal commands, which the checker computes. Nothing here is called at run time.

ghost use Rattle.std.specs.Prelude.{◌≡◌, codes, Ok, Err, [], true};
ghost use Rattle.ld_trees.specs.Term.{Var, App, Meta, none, ◌▹◌};
ghost use Rattle.ld_rules.specs.Examples.{identity_type};
ghost use Rattle.term_syntax.specs.declared.scope_fault.ScopeFault.TheVariants.{UnknownName};
ghost use Rattle.conversion.specs.Runs as kernel;
ghost use Rattle.unification.specs.Refusals as unification;
ghost use Rattle.elaboration.specs.Refusals as elaboration;
ghost use Rattle.move_set.specs.Refusals as move;
ghost use Rattle.state_print.specs.Examples.{started, one_entry, two_entries, proved, body};
ghost use Rattle.state_tree.specs.Value.{Says, MakesState};
ghost use Rattle.reply_text.specs.Members.{body_text};
ghost use Rattle.command_set.specs.Examples.{reply, refined, applied};
ghost use Rattle.command_set.specs.Goals.{start, resolved, move_on, elab_refusal, move_refusal, printed};

/// A proof of `(A : *) -> A -> A` by `intro A`, `intro x` and `exact x`, and refusals on the way.
fn session_computes()
    ensures start { resolved [] 100000 (Ok identity_type) ≡ MakesState started (body (codes "{\"dormant\":[],\"goals\":[{\"coupled\":[],\"goal\":0,\"target\":\"(%0 : *) -> %0 -> %0\",\"vars\":[]}],\"seq\":") (codes ",\"solved\":false,\"stateId\":") (codes "}")) }
    // The sort of the theorem takes five units.
    ensures start_fuel { resolved [] 4 (Ok identity_type) ≡ Says (reply (codes "{\"error\":\"fuel\",\"seq\":") (codes "}")) }
    ensures start_unknown { resolved [] 100000 (Err (UnknownName 0 (codes "y"))) ≡ Says (reply (codes "{\"at\":0,\"error\":\"unknownName\",\"name\":\"y\",\"seq\":") (codes "}")) }
    ensures start_syntax { start [] (codes "(A -> ") 100000 ≡ Says (reply (codes "{\"at\":6,\"error\":\"syntax\",\"seq\":") (codes "}")) }
    ensures intro { move_on started 0 (codes "intro A") 100000 true ≡ MakesState one_entry (body (codes "{\"dormant\":[],\"goals\":[{\"coupled\":[],\"goal\":1,\"target\":\"A -> A\",\"vars\":[{\"name\":\"A\",\"type\":\"*\"}]}],\"seq\":") (codes ",\"solved\":false,\"stateId\":") (codes "}")) }
    ensures taken { move_on one_entry 0 (codes "intro A") 100000 true ≡ Says (reply (codes "{\"error\":\"nameTaken\",\"name\":\"A\",\"seq\":") (codes "}")) }
    ensures again { move_on one_entry 0 (codes "intro x") 100000 true ≡ MakesState two_entries (body (codes "{\"dormant\":[],\"goals\":[{\"coupled\":[],\"goal\":2,\"target\":\"A\",\"vars\":[{\"name\":\"A\",\"type\":\"*\"},{\"name\":\"x\",\"type\":\"A\"}]}],\"seq\":") (codes ",\"solved\":false,\"stateId\":") (codes "}")) }
    ensures print { printed proved ≡ body (codes "{\"dormant\":[],\"goals\":[],\"seq\":") (codes ",\"solved\":true,\"term\":\"fun (%0 : *) => fun (%1 : %0) => %1\",\"type\":\"(%0 : *) -> %0 -> %0\"}") (codes "") }
{}

/// Moves whose texts are elaborated, in A : *, x : A with the goal A.
fn moves_compute()
    ensures exact { move_on two_entries 0 (codes "exact x") 100000 true ≡ MakesState proved (body (codes "{\"dormant\":[],\"goals\":[],\"seq\":") (codes ",\"solved\":true,\"stateId\":") (codes "}")) }
    ensures refine { move_on two_entries 0 (codes "refine ?") 100000 true ≡ MakesState refined (body (codes "{\"dormant\":[],\"goals\":[{\"coupled\":[],\"goal\":3,\"target\":\"A\",\"vars\":[{\"name\":\"A\",\"type\":\"*\"},{\"name\":\"x\",\"type\":\"A\"}]}],\"seq\":") (codes ",\"solved\":false,\"stateId\":") (codes "}")) }
    ensures apply { move_on two_entries 0 (codes "apply fun (y : A) => y") 100000 true ≡ MakesState applied (body (codes "{\"dormant\":[],\"goals\":[{\"coupled\":[],\"goal\":3,\"target\":\"A\",\"vars\":[{\"name\":\"A\",\"type\":\"*\"},{\"name\":\"x\",\"type\":\"A\"}]}],\"seq\":") (codes ",\"solved\":false,\"stateId\":") (codes "}")) }
    ensures mismatch { move_on one_entry 0 (codes "exact A") 100000 true ≡ Says (reply (codes "{\"error\":\"mismatch\",\"found\":\"*\",\"seq\":") (codes ",\"wanted\":\"%0 -> %0\"}")) }
    // A `?` where none may stand, and a `_` that is open in the end
    ensures asked { move_on two_entries 0 (codes "exact ?") 100000 true ≡ Says (reply (codes "{\"at\":6,\"error\":\"unsolved\",\"seq\":") (codes "}")) }
    ensures hole { move_on two_entries 0 (codes "refine _") 100000 true ≡ Says (reply (codes "{\"at\":7,\"error\":\"unsolved\",\"seq\":") (codes "}")) }
    ensures no_expected { move_on two_entries 0 (codes "apply ?") 100000 true ≡ Says (reply (codes "{\"at\":6,\"error\":\"noExpected\",\"seq\":") (codes "}")) }
{}

/// The refusals of moves: the keys of each in the order of their bytes.
fn move_refusals_compute()
    ensures syntax { body_text (move_refusal (move.Syntax 5)) ≡ reply (codes "{\"at\":5,\"error\":\"syntax\",\"seq\":") (codes "}") }
    ensures no_goal { body_text (move_refusal (move.NoGoal 3 1)) ≡ reply (codes "{\"count\":1,\"error\":\"noGoal\",\"index\":3,\"seq\":") (codes "}") }
    ensures not_product { body_text (move_refusal move.NotProduct) ≡ reply (codes "{\"error\":\"notProduct\",\"seq\":") (codes "}") }
    ensures no_assumption { body_text (move_refusal move.NoAssumption) ≡ reply (codes "{\"error\":\"noAssumption\",\"seq\":") (codes "}") }
    ensures not_defined { body_text (move_refusal (move.NotDefined (codes "A"))) ≡ reply (codes "{\"error\":\"notDefined\",\"name\":\"A\",\"seq\":") (codes "}") }
    ensures no_occurrence { body_text (move_refusal (move.NoOccurrence (codes "falsum"))) ≡ reply (codes "{\"error\":\"noOccurrence\",\"name\":\"falsum\",\"seq\":") (codes "}") }
    ensures unsolved { body_text (move_refusal (move.Unsolved 10)) ≡ reply (codes "{\"at\":10,\"error\":\"unsolved\",\"seq\":") (codes "}") }
    ensures too_many { body_text (move_refusal move.TooManyMetas) ≡ reply (codes "{\"error\":\"tooManyMetas\",\"seq\":") (codes "}") }
{}

/// The refusals of elaboration and unification.
fn elaboration_refusals_compute()
    ensures unknown { body_text (elab_refusal (elaboration.UnknownName 6 (codes "y"))) ≡ reply (codes "{\"at\":6,\"error\":\"unknownName\",\"name\":\"y\",\"seq\":") (codes "}") }
    ensures count { body_text (elab_refusal (elaboration.WrongCount 7 (codes "le") 1 2)) ≡ reply (codes "{\"at\":7,\"error\":\"wrongCount\",\"given\":1,\"name\":\"le\",\"seq\":") (codes ",\"wanted\":2}") }
    ensures no_expected { body_text (elab_refusal (elaboration.NoExpected 6)) ≡ reply (codes "{\"at\":6,\"error\":\"noExpected\",\"seq\":") (codes "}") }
    ensures no_function { body_text (elab_refusal (elaboration.NotFunction 2 (Var 0) (Var 1))) ≡ reply (codes "{\"error\":\"notFunction\",\"seq\":") (codes ",\"term\":\"%1\",\"type\":\"%0\"}") }
    ensures no_type { body_text (elab_refusal (elaboration.NotType 1 (Var 0))) ≡ reply (codes "{\"error\":\"notType\",\"seq\":") (codes ",\"term\":\"%0\"}") }
    ensures kernel { body_text (elab_refusal (elaboration.Unify (unification.Kernel (kernel.ReductIllTyped 2 (App (Var 1) (Var 0)) (Var 1))))) ≡ reply (codes "{\"error\":\"reductIllTyped\",\"reduct\":\"%0\",\"seq\":") (codes ",\"term\":\"%0 %1\"}") }
    // No metavariable is unfolded.
    ensures mismatch { body_text (elab_refusal (elaboration.Unify (unification.Mismatch 2 (Var 0) (Meta 1 (none ▹ Var 1))))) ≡ reply (codes "{\"error\":\"mismatch\",\"found\":\"%1\",\"seq\":") (codes ",\"wanted\":\"?1[%0]\"}") }
    ensures not_pattern { body_text (elab_refusal (elaboration.Unify (unification.NotPattern 4))) ≡ reply (codes "{\"error\":\"notPattern\",\"goal\":4,\"seq\":") (codes "}") }
    ensures out_of_scope { body_text (elab_refusal (elaboration.Unify (unification.Scope 3 1))) ≡ reply (codes "{\"error\":\"scope\",\"goal\":3,\"level\":1,\"seq\":") (codes "}") }
    ensures too_deep { body_text (elab_refusal (elaboration.Unify (unification.TooDeep 7))) ≡ reply (codes "{\"error\":\"tooDeep\",\"goal\":7,\"seq\":") (codes "}") }
    ensures cycle { body_text (elab_refusal (elaboration.Unify (unification.Cycle 1))) ≡ reply (codes "{\"error\":\"cycle\",\"goal\":1,\"seq\":") (codes "}") }
{}

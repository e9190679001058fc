//! Worked replies, which the checker computes. Nothing here is called at run time.

ghost use Rattle.std.specs.Prelude.{◌≡◌, codes, None, Some, [], ◌∷◌};
ghost use Rattle.ld_trees.specs.Term.{Srt, star, square, Var, App, Pi};
ghost use Rattle.conversion.specs.Runs.{NotType, NotFunction, Mismatch, ReductIllTyped};
ghost use Rattle.term_syntax.specs.declared.scope_fault.ScopeFault.TheVariants.{UnknownName, WrongCount, Unsolved};
ghost use Rattle.term_text.specs.declared.print.Printed.TheVariants.{Text, Large};
ghost use Rattle.reply_text.specs.Members.{body_text};
ghost use Rattle.reply_text.specs.Shown.{printed_json, term_json, level_names};
ghost use Rattle.reply_text.specs.Context.{context_json};
ghost use Rattle.reply_text.specs.Refusals as refusals;
ghost use Rattle.reply_text.specs.Examples.{reply};

/// Refusals of texts and names.
fn worked_replies()
    ensures syntax { body_text (refusals.syntax 6) ≡ reply (codes "{\"at\":6,\"error\":\"syntax\",\"seq\":") (codes "}") }
    ensures unsolved { body_text (refusals.scoping None (Unsolved 12)) ≡ reply (codes "{\"at\":12,\"error\":\"unsolved\",\"seq\":") (codes "}") }
    ensures unsolved_item { body_text (refusals.scoping (Some 0) (Unsolved 12)) ≡ reply (codes "{\"at\":12,\"error\":\"unsolved\",\"item\":0,\"seq\":") (codes "}") }
    ensures unknown { body_text (refusals.scoping None (UnknownName 3 (codes "x"))) ≡ reply (codes "{\"at\":3,\"error\":\"unknownName\",\"name\":\"x\",\"seq\":") (codes "}") }
    ensures unknown_item { body_text (refusals.scoping (Some 2) (UnknownName 3 (codes "x"))) ≡ reply (codes "{\"at\":3,\"error\":\"unknownName\",\"item\":2,\"name\":\"x\",\"seq\":") (codes "}") }
    ensures count { body_text (refusals.scoping None (WrongCount 0 (codes "le") 1 2)) ≡ reply (codes "{\"at\":0,\"error\":\"wrongCount\",\"given\":1,\"name\":\"le\",\"seq\":") (codes ",\"wanted\":2}") }
    ensures count_item { body_text (refusals.scoping (Some 7) (WrongCount 0 (codes "le") 1 2)) ≡ reply (codes "{\"at\":0,\"error\":\"wrongCount\",\"given\":1,\"item\":7,\"name\":\"le\",\"seq\":") (codes ",\"wanted\":2}") }
    ensures no_expected { body_text (refusals.no_expected 6) ≡ reply (codes "{\"at\":6,\"error\":\"noExpected\",\"seq\":") (codes "}") }
    ensures of_goal { body_text (refusals.of_goal (codes "notPattern") 4) ≡ reply (codes "{\"error\":\"notPattern\",\"goal\":4,\"seq\":") (codes "}") }
    ensures out_of_scope { body_text (refusals.out_of_scope 3 1) ≡ reply (codes "{\"error\":\"scope\",\"goal\":3,\"level\":1,\"seq\":") (codes "}") }
    ensures taken { body_text (refusals.name_taken None (codes "N")) ≡ reply (codes "{\"error\":\"nameTaken\",\"name\":\"N\",\"seq\":") (codes "}") }
    ensures taken_item { body_text (refusals.name_taken (Some 1) (codes "N")) ≡ reply (codes "{\"error\":\"nameTaken\",\"item\":1,\"name\":\"N\",\"seq\":") (codes "}") }
    ensures no_item { body_text (refusals.no_item (codes "a\"\t\u{1f}")) ≡ reply (codes "{\"error\":\"unknownName\",\"name\":\"a\\\"\\t\\u001f\",\"seq\":") (codes "}") }
{}

/// Refusals of the kernel.
fn worked_faults()
    ensures mismatch { body_text (refusals.kernel None (Mismatch 0 (Srt square) (Srt star))) ≡ reply (codes "{\"error\":\"mismatch\",\"found\":\"#\",\"seq\":") (codes ",\"wanted\":\"*\"}") }
    ensures mismatch_item { body_text (refusals.kernel (Some 3) (Mismatch 2 (Var 0) (Var 1))) ≡ reply (codes "{\"error\":\"mismatch\",\"found\":\"%1\",\"item\":3,\"seq\":") (codes ",\"wanted\":\"%0\"}") }
    ensures no_type { body_text (refusals.kernel None (NotType 1 (Srt square))) ≡ reply (codes "{\"error\":\"notType\",\"seq\":") (codes ",\"term\":\"#\"}") }
    ensures no_type_item { body_text (refusals.kernel (Some 0) (NotType 1 (Var 0))) ≡ reply (codes "{\"error\":\"notType\",\"item\":0,\"seq\":") (codes ",\"term\":\"%0\"}") }
    ensures no_function { body_text (refusals.kernel None (NotFunction 0 (Srt star) (Srt square))) ≡ reply (codes "{\"error\":\"notFunction\",\"seq\":") (codes ",\"term\":\"*\",\"type\":\"#\"}") }
    ensures no_function_item { body_text (refusals.kernel (Some 1) (NotFunction 2 (Var 0) (Var 1))) ≡ reply (codes "{\"error\":\"notFunction\",\"item\":1,\"seq\":") (codes ",\"term\":\"%1\",\"type\":\"%0\"}") }
    ensures reduct { body_text (refusals.kernel None (ReductIllTyped 2 (App (Var 1) (Var 0)) (Var 1))) ≡ reply (codes "{\"error\":\"reductIllTyped\",\"reduct\":\"%0\",\"seq\":") (codes ",\"term\":\"%0 %1\"}") }
    ensures reduct_item { body_text (refusals.kernel (Some 1) (ReductIllTyped 2 (App (Var 1) (Var 0)) (Var 1))) ≡ reply (codes "{\"error\":\"reductIllTyped\",\"item\":1,\"reduct\":\"%0\",\"seq\":") (codes ",\"term\":\"%0 %1\"}") }
    ensures fuel { body_text (refusals.out_of_fuel None) ≡ reply (codes "{\"error\":\"fuel\",\"seq\":") (codes "}") }
    ensures fuel_item { body_text (refusals.out_of_fuel (Some 4)) ≡ reply (codes "{\"error\":\"fuel\",\"item\":4,\"seq\":") (codes "}") }
{}

/// Terms and contexts.
fn worked_values()
    ensures printed { printed_json (Text (codes "*")) ≡ codes "\"*\"" }
    ensures large { printed_json (Large 41 70000) ≡ codes "{\"depth\":41,\"nodes\":70000}" }
    ensures term { term_json (codes "A" ∷ []) (Pi (Var 0) (Var 1)) ≡ codes "\"A -> A\"" }
    ensures levels { level_names 3 ≡ codes "%0" ∷ codes "%1" ∷ codes "%2" ∷ [] }
    ensures empty { context_json [] [] ≡ codes "[]" }
    ensures context { context_json (codes "A" ∷ codes "x" ∷ []) (Srt star ∷ Var 0 ∷ []) ≡ codes "[{\"name\":\"A\",\"type\":\"*\"},{\"name\":\"x\",\"type\":\"A\"}]" }
    // The last entry of a name hides the others of that name.
    ensures hidden { context_json (codes "A" ∷ codes "A" ∷ codes "%2" ∷ []) (Srt star ∷ Var 0 ∷ Var 0 ∷ []) ≡ codes "[{\"name\":\"%0\",\"type\":\"*\"},{\"name\":\"A\",\"type\":\"%0\"},{\"name\":\"%2\",\"type\":\"A\"}]" }
{}

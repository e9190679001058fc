//! Worked rows, which the checker computes. Nothing here is called at run time.

ghost use Rattle.std.specs.Prelude.{◌≡◌, ◌∷◌, [], Some, None, true, false};
ghost use Rattle.repl_json.specs.Bad.{bad_body};
ghost use Rattle.repl_json.specs.declared.request.Ask.TheVariants as ask;
ghost use Rattle.repl_json.specs.declared.request.Bad.TheVariants as bad;
ghost use Rattle.repl_json.specs.declared.reply.Line.TheVariants as line;
ghost use Rattle.state_tree.specs.declared.work.Gave.TheVariants as gave;
ghost use Rattle.state_tree.specs.Server.{opening, replies, replay, IsLegal};
ghost use Rattle.state_tree.specs.Again.{again_of};
ghost use Rattle.state_tree.specs.TreeModel.{gave_of};
ghost use Rattle.state_tree.specs.Marks.{marks_of};
ghost use Rattle.state_tree.specs.Toy.{toy_value, toy_mark, said_body, state_body, env_body, start, move_by, request, entered, starved, refused, unseen, seen};

/// The replies of histories over the book 7.
fn replies_compute()
    // A deleted parent is refused, and its child goes on; `reset` counts the two states that are live.
    ensures deletes { replies toy_value (opening toy_value 7) (entered (start 5) ∷ entered (move_by 0 1) ∷ entered (ask.Delete 0) ∷ entered (move_by 0 1)
        ∷ entered (move_by 1 1) ∷ entered ask.Reset ∷ entered ask.Stat ∷ entered (ask.Delete 1) ∷ [])
        ≡ line.Given state_body 0 (Some 0) ∷ line.Given state_body 1 (Some 1) ∷ line.Deleted 0 2 ∷ line.UnknownState 0 3
        ∷ line.Given state_body 4 (Some 2) ∷ line.Reset 2 5 ∷ line.Stat 1 0 6 3 ∷ line.UnknownState 1 7 ∷ [] }
    // Environments are numbered from the book on, and `reset` keeps them.
    ensures envs { replies toy_value (opening toy_value 7) (entered (ask.EnvCatalog 1) ∷ entered (ask.EnvAdd 0 [] 3) ∷ entered ask.Reset ∷ entered (ask.EnvCatalog 1) ∷ entered ask.Stat ∷ [])
        ≡ line.UnknownEnv 1 0 ∷ line.Given env_body 1 (Some 1) ∷ line.Reset 0 2 ∷ line.Given said_body 3 None ∷ line.Stat 2 0 4 0 ∷ [] }
    // A bad request comes before `after`, and `after` before the ids that are named.
    ensures order { replies toy_value (opening toy_value 7) (record { pass = 0; request = record { after = 9; ask = ask.Bad bad.Command }; gave = gave.Answer }
        ∷ record { pass = 0; request = record { after = 9; ask = ask.Print 4 }; gave = gave.Answer }
        ∷ record { pass = 0; request = record { after = 2; ask = ask.Print 4 }; gave = gave.Answer } ∷ [])
        ≡ line.Given (bad_body bad.Command) 0 None ∷ line.Ahead 1 1 ∷ line.UnknownState 4 2 ∷ [] }
    // Of two states the target is tested before the branch.
    ensures target_first { replies toy_value (opening toy_value 7) (entered (start 5) ∷ entered (ask.Continue 8 9) ∷ entered (ask.Continue 0 9) ∷ [])
        ≡ line.Given state_body 0 (Some 0) ∷ line.UnknownState 8 1 ∷ line.UnknownState 9 2 ∷ [] }
    // Want of memory makes no state.
    ensures memory { replies toy_value (opening toy_value 7) (starved (start 5) ∷ entered (ask.Print 0) ∷ []) ≡ line.Memory 0 ∷ line.UnknownState 0 1 ∷ [] }
{}

/// Where the states of a history come from.
fn marks_compute()
    ensures marks { marks_of toy_value toy_mark 7 (entered (start 5) ∷ entered (move_by 0 1) ∷ entered (start 9) ∷ entered (ask.Delete 0) ∷ entered (move_by 0 1) ∷ entered (move_by 1 1) ∷ entered (move_by 2 1) ∷ entered ask.Reset ∷ [])
        ≡ 5 ∷ 5 ∷ 9 ∷ 5 ∷ 9 ∷ [] }
{}

/// What entries may say, and when a request is looked up again.
fn entries_compute()
    ensures legal { IsLegal toy_value 7 (starved (start 5) ∷ []) }
    ensures illegal { IsLegal toy_value 7 (starved (ask.Print 0) ∷ []) → ⊥ }
    // A refused request says `Memory` only where its work was needed.
    ensures needed { gave_of (opening toy_value 7) (refused (start 5)) ≡ gave.Memory }
    ensures counted { gave_of (opening toy_value 7) (refused ask.Stat) ≡ gave.Answer }
    ensures unknown { gave_of (opening toy_value 7) (refused (ask.Print 0)) ≡ gave.Answer }
    // What was missed and is made now is looked for again, live or not.
    ensures missed { again_of (replay toy_value 7 (entered (start 5) ∷ [])) (request (ask.Print 0)) unseen ≡ Some 0 }
    ensures missed_deleted { again_of (replay toy_value 7 (entered (start 5) ∷ entered ask.Reset ∷ [])) (request (ask.Print 0)) unseen ≡ Some 0 }
    ensures found { again_of (replay toy_value 7 (entered (start 5) ∷ [])) (request (ask.Print 0)) seen ≡ None }
    ensures never_made { again_of (opening toy_value 7) (request (ask.Print 0)) unseen ≡ None }
    ensures ahead { again_of (replay toy_value 7 (entered (start 5) ∷ [])) (record { after = 2; ask = ask.Print 0 }) unseen ≡ None }
{}

//! Worked lines, which the checker computes. Nothing here is called at run time.
//!
//! The reading of JSON itself can't be computed there: a line with an object is a row of its word with the object's data.

ghost use Rattle.std.specs.Prelude.{◌≡◌, Float, None, Some, [], ◌∷◌, true, false, codes, negsuc};
ghost use Rattle.serde_json.specs.Data.{null, boolean, string, number, float, negative};
ghost use Rattle.repl_json.specs.Examples.{fields, list, whole, copies};
ghost use Rattle.repl_json.specs.Json.{if_object};
ghost use Rattle.repl_json.specs.Request.{of_object, of_payload, requests_of};
ghost use Rattle.repl_json.specs.Table.{asked, refused, with_after};
ghost use Rattle.repl_json.specs.declared.command.Command.TheVariants as command;
ghost use Rattle.repl_json.specs.declared.request.Ask.TheVariants as ask;
ghost use Rattle.repl_json.specs.declared.request.Bad.TheVariants as bad;

/// Lines of a command's word alone.
#[tactic(auto, unfolding(crate::specs::Request::requests_of, crate::specs::Request::requests_by, crate::specs::Command::command_named, crate::specs::Command::goal_command_named, crate::specs::Table::asked, crate::specs::Field::value_in, crate::specs::Table::env_add, crate::specs::Table::try_all))]
fn words_compute()
    ensures stat { requests_of (codes "stat") ≡ with_after 0 (ask.Stat) ∷ [] }
    ensures blanks { requests_of (codes " \t reset \t ") ≡ with_after 0 (ask.Reset) ∷ [] }
    ensures unknown { requests_of (codes "nope") ≡ refused bad.Command ∷ [] }
    ensures capital { requests_of (codes "Stat") ≡ refused bad.Command ∷ [] }
    ensures unbroken { requests_of (codes "stat{}") ≡ refused bad.Command ∷ [] }
    ensures return_is_no_blank { requests_of (codes "stat\r") ≡ refused bad.Command ∷ [] }
    ensures no_text { requests_of (255 ∷ 0 ∷ []) ≡ refused bad.Command ∷ [] }
    ensures no_field { requests_of (codes "env.add") ≡ refused (bad.Field (codes "text")) ∷ [] }
    ensures no_state { requests_of (codes "goal.tries") ≡ refused (bad.Field (codes "stateId")) ∷ [] }
{}

/// The refusals, each before those that stand behind it.
#[tactic(auto, unfolding(crate::specs::Request::requests_of, crate::specs::Request::requests_by, crate::specs::Command::command_named, crate::specs::Command::goal_command_named, crate::specs::Table::asked, crate::specs::Field::value_in, crate::specs::Table::echo))]
fn refusals_compute()
    ensures json { of_payload (codes "nope") None ≡ refused bad.Json ∷ [] }
    ensures json_first { of_object None ≡ refused bad.Json ∷ [] }
    ensures no_object { if_object (string (codes "stat")) ≡ None }
    ensures cmd { of_object (Some (fields ((codes "payload", whole 1) ∷ []))) ≡ refused (bad.Field (codes "cmd")) ∷ [] }
    ensures cmd_null { of_object (Some (fields ((codes "cmd", null) ∷ []))) ≡ refused (bad.Field (codes "cmd")) ∷ [] }
    ensures cmd_kind { of_object (Some (fields ((codes "cmd", whole 1) ∷ (codes "payload", whole 1) ∷ []))) ≡ refused (bad.Field (codes "cmd")) ∷ [] }
    ensures payload { of_object (Some (fields ((codes "cmd", string (codes "nope")) ∷ (codes "payload", whole 1) ∷ []))) ≡ refused (bad.Field (codes "payload")) ∷ [] }
    ensures command { of_payload (codes "nope") (Some (fields [])) ≡ refused bad.Command ∷ [] }
    ensures command_before_fields { of_payload (codes "nope") (Some (fields ((codes "after", string (codes "1")) ∷ []))) ≡ refused bad.Command ∷ [] }
    ensures field { of_payload (codes "expr.echo") (Some (fields [])) ≡ refused (bad.Field (codes "expr")) ∷ [] }
    ensures object_line { of_object (Some (fields ((codes "cmd", string (codes "stat")) ∷ []))) ≡ with_after 0 (ask.Stat) ∷ [] }
    ensures payload_null { of_object (Some (fields ((codes "after", whole 7) ∷ (codes "cmd", string (codes "stat")) ∷ (codes "payload", null) ∷ []))) ≡ with_after 0 (ask.Stat) ∷ [] }
    ensures payload_object { of_object (Some (fields ((codes "cmd", string (codes "stat")) ∷ (codes "payload", fields ((codes "after", whole 7) ∷ [])) ∷ []))) ≡ with_after 7 (ask.Stat) ∷ [] }
{}

/// The fields of `expr.echo`: defaults, null, ranges and order.
#[tactic(auto, unfolding(crate::specs::Request::requests_of, crate::specs::Request::requests_by, crate::specs::Command::command_named, crate::specs::Command::goal_command_named, crate::specs::Table::asked, crate::specs::Field::value_in, crate::specs::Table::echo))]
fn fields_compute()
    ensures defaults { of_payload (codes "expr.echo") (Some (fields ((codes "expr", string (codes "*")) ∷ []))) ≡ with_after 0 (ask.Echo 0 (codes "*") 100000) ∷ [] }
    ensures given { of_payload (codes "expr.echo") (Some (fields ((codes "after", whole 4) ∷ (codes "envId", whole 3) ∷ (codes "expr", string (codes "*")) ∷ (codes "fuel", whole 2) ∷ []))) ≡ with_after 4 (ask.Echo 3 (codes "*") 2) ∷ [] }
    ensures nulls { of_payload (codes "expr.echo") (Some (fields ((codes "after", null) ∷ (codes "envId", null) ∷ (codes "expr", string (codes "*")) ∷ (codes "fuel", null) ∷ []))) ≡ with_after 0 (ask.Echo 0 (codes "*") 100000) ∷ [] }
    ensures null_text { of_payload (codes "expr.echo") (Some (fields ((codes "expr", null) ∷ []))) ≡ refused (bad.Field (codes "expr")) ∷ [] }
    ensures unknown_field { of_payload (codes "expr.echo") (Some (fields ((codes "expr", string (codes "*")) ∷ (codes "x", null) ∷ (codes "y", whole 1) ∷ []))) ≡ with_after 0 (ask.Echo 0 (codes "*") 100000) ∷ [] }
    ensures most_fuel { of_payload (codes "expr.echo") (Some (fields ((codes "expr", string (codes "*")) ∷ (codes "fuel", whole 10000000) ∷ []))) ≡ with_after 0 (ask.Echo 0 (codes "*") 10000000) ∷ [] }
    ensures too_much_fuel { of_payload (codes "expr.echo") (Some (fields ((codes "expr", string (codes "*")) ∷ (codes "fuel", whole 10000001) ∷ []))) ≡ refused (bad.Field (codes "fuel")) ∷ [] }
    ensures greatest { of_payload (codes "expr.echo") (Some (fields ((codes "envId", whole 18446744073709551615) ∷ (codes "expr", string (codes "*")) ∷ []))) ≡ with_after 0 (ask.Echo 18446744073709551615 (codes "*") 100000) ∷ [] }
    ensures below_zero { of_payload (codes "expr.echo") (Some (fields ((codes "envId", number (negative (negsuc 0))) ∷ (codes "expr", string (codes "*")) ∷ []))) ≡ refused (bad.Field (codes "envId")) ∷ [] }
    ensures text_for_number { of_payload (codes "expr.echo") (Some (fields ((codes "envId", string (codes "0")) ∷ (codes "expr", string (codes "*")) ∷ []))) ≡ refused (bad.Field (codes "envId")) ∷ [] }
    ensures number_for_text { of_payload (codes "expr.echo") (Some (fields ((codes "expr", whole 1) ∷ []))) ≡ refused (bad.Field (codes "expr")) ∷ [] }
    ensures first_in_order { of_payload (codes "expr.echo") (Some (fields ((codes "after", string (codes "1")) ∷ (codes "envId", string (codes "1")) ∷ (codes "fuel", string (codes "1")) ∷ []))) ≡ refused (bad.Field (codes "expr")) ∷ [] }
    ensures second_in_order { of_payload (codes "expr.echo") (Some (fields ((codes "after", string (codes "1")) ∷ (codes "envId", string (codes "1")) ∷ (codes "expr", string (codes "*")) ∷ (codes "fuel", string (codes "1")) ∷ []))) ≡ refused (bad.Field (codes "envId")) ∷ [] }
    ensures third_in_order { of_payload (codes "expr.echo") (Some (fields ((codes "after", string (codes "1")) ∷ (codes "expr", string (codes "*")) ∷ (codes "fuel", string (codes "1")) ∷ []))) ≡ refused (bad.Field (codes "fuel")) ∷ [] }
{}

/// A number with a point or an exponent is none of a field, whatever its value.
#[tactic(auto, unfolding(crate::specs::Request::requests_of, crate::specs::Request::requests_by, crate::specs::Command::command_named, crate::specs::Command::goal_command_named, crate::specs::Table::asked, crate::specs::Field::value_in, crate::specs::Table::echo, crate::specs::Table::env_catalog))]
fn floats_compute()
    ensures stat { (x : Float) → of_payload (codes "stat") (Some (fields ((codes "after", number (float x)) ∷ []))) ≡ refused (bad.Field (codes "after")) ∷ [] }
    ensures last { (x : Float) → of_payload (codes "expr.echo") (Some (fields ((codes "after", number (float x)) ∷ (codes "expr", string (codes "*")) ∷ []))) ≡ refused (bad.Field (codes "after")) ∷ [] }
    ensures env { (x : Float) → of_payload (codes "env.catalog") (Some (fields ((codes "envId", number (float x)) ∷ []))) ≡ refused (bad.Field (codes "envId")) ∷ [] }
{}

/// The commands on environments, with every field and with none.
#[tactic(auto, unfolding(crate::specs::Request::requests_of, crate::specs::Request::requests_by, crate::specs::Command::command_named, crate::specs::Command::goal_command_named, crate::specs::Table::asked, crate::specs::Field::value_in, crate::specs::Table::env_add, crate::specs::Table::env_inspect, crate::specs::Table::env_catalog, crate::specs::Table::start))]
fn built_commands_compute()
    ensures add { asked command.EnvAdd (fields ((codes "after", whole 4) ∷ (codes "envId", whole 3) ∷ (codes "fuel", whole 2) ∷ (codes "text", string (codes "a")) ∷ [])) ≡ with_after 4 (ask.EnvAdd 3 (codes "a") 2) ∷ [] }
    ensures add_defaults { asked command.EnvAdd (fields ((codes "text", string (codes "a")) ∷ [])) ≡ with_after 0 (ask.EnvAdd 0 (codes "a") 100000) ∷ [] }
    ensures add_nothing { asked command.EnvAdd (fields []) ≡ refused (bad.Field (codes "text")) ∷ [] }
    ensures inspect { asked command.EnvInspect (fields ((codes "after", whole 4) ∷ (codes "envId", whole 3) ∷ (codes "name", string (codes "a")) ∷ [])) ≡ with_after 4 (ask.EnvInspect 3 (codes "a")) ∷ [] }
    ensures inspect_defaults { asked command.EnvInspect (fields ((codes "name", string (codes "a")) ∷ [])) ≡ with_after 0 (ask.EnvInspect 0 (codes "a")) ∷ [] }
    ensures inspect_nothing { asked command.EnvInspect (fields []) ≡ refused (bad.Field (codes "name")) ∷ [] }
    ensures catalog { asked command.EnvCatalog (fields ((codes "after", whole 4) ∷ (codes "envId", whole 3) ∷ [])) ≡ with_after 4 (ask.EnvCatalog 3) ∷ [] }
    ensures catalog_defaults { asked command.EnvCatalog (null) ≡ with_after 0 (ask.EnvCatalog 0) ∷ [] }
    ensures start { asked command.Start (fields ((codes "after", whole 4) ∷ (codes "envId", whole 3) ∷ (codes "expr", string (codes "*")) ∷ (codes "fuel", whole 2) ∷ [])) ≡ with_after 4 (ask.Start 3 (codes "*") 2) ∷ [] }
    ensures start_defaults { asked command.Start (fields ((codes "expr", string (codes "*")) ∷ [])) ≡ with_after 0 (ask.Start 0 (codes "*") 100000) ∷ [] }
    ensures start_nothing { asked command.Start (fields []) ≡ refused (bad.Field (codes "expr")) ∷ [] }
    ensures reset { asked command.Reset (fields ((codes "after", whole 4) ∷ [])) ≡ with_after 4 (ask.Reset) ∷ [] }
    ensures stat { asked command.Stat (fields ((codes "after", string (codes "4")) ∷ [])) ≡ refused (bad.Field (codes "after")) ∷ [] }
{}

/// The commands on states, with every field and with none.
#[tactic(auto, unfolding(crate::specs::Request::requests_of, crate::specs::Request::requests_by, crate::specs::Command::command_named, crate::specs::Command::goal_command_named, crate::specs::Table::asked, crate::specs::Field::value_in, crate::specs::Table::move_on, crate::specs::Table::continue_with, crate::specs::Table::resume, crate::specs::Table::print, crate::specs::Table::delete))]
fn state_commands_compute()
    ensures move_all { asked command.Move (fields ((codes "after", whole 4) ∷ (codes "auto", boolean false) ∷ (codes "fuel", whole 2) ∷ (codes "goalId", whole 1) ∷ (codes "move", string (codes "a")) ∷ (codes "stateId", whole 5) ∷ [])) ≡ with_after 4 (ask.Move 5 1 (codes "a") 2 false) ∷ [] }
    ensures move_defaults { asked command.Move (fields ((codes "move", string (codes "a")) ∷ (codes "stateId", whole 5) ∷ [])) ≡ with_after 0 (ask.Move 5 0 (codes "a") 100000 true) ∷ [] }
    ensures move_nothing { asked command.Move (fields []) ≡ refused (bad.Field (codes "stateId")) ∷ [] }
    ensures move_text { asked command.Move (fields ((codes "auto", whole 1) ∷ (codes "stateId", whole 5) ∷ [])) ≡ refused (bad.Field (codes "move")) ∷ [] }
    ensures move_auto { asked command.Move (fields ((codes "after", string (codes "1")) ∷ (codes "auto", whole 1) ∷ (codes "move", string (codes "a")) ∷ (codes "stateId", whole 5) ∷ [])) ≡ refused (bad.Field (codes "auto")) ∷ [] }
    ensures both_states { asked command.Continue (fields ((codes "branch", whole 6) ∷ (codes "target", whole 5) ∷ [])) ≡ with_after 0 (ask.Continue 5 6) ∷ [] }
    ensures continue_target { asked command.Continue (fields []) ≡ refused (bad.Field (codes "target")) ∷ [] }
    ensures continue_branch { asked command.Continue (fields ((codes "target", whole 5) ∷ [])) ≡ refused (bad.Field (codes "branch")) ∷ [] }
    ensures resume { asked command.Resume (fields ((codes "goals", list (whole 2 ∷ whole 1 ∷ whole 2 ∷ [])) ∷ (codes "stateId", whole 5) ∷ [])) ≡ with_after 0 (ask.Resume 5 (2 ∷ 1 ∷ 2 ∷ [])) ∷ [] }
    ensures resume_none { asked command.Resume (fields ((codes "goals", list ([])) ∷ (codes "stateId", whole 5) ∷ [])) ≡ with_after 0 (ask.Resume 5 []) ∷ [] }
    ensures resume_null { asked command.Resume (fields ((codes "goals", list (whole 2 ∷ null ∷ [])) ∷ (codes "stateId", whole 5) ∷ [])) ≡ refused (bad.Field (codes "goals")) ∷ [] }
    ensures resume_number { asked command.Resume (fields ((codes "goals", whole 2) ∷ (codes "stateId", whole 5) ∷ [])) ≡ refused (bad.Field (codes "goals")) ∷ [] }
    ensures print { asked command.Print (fields ((codes "stateId", whole 5) ∷ [])) ≡ with_after 0 (ask.Print 5) ∷ [] }
    ensures print_nothing { asked command.Print (fields []) ≡ refused (bad.Field (codes "stateId")) ∷ [] }
    ensures delete { asked command.Delete (fields ((codes "after", whole 4) ∷ (codes "stateId", whole 5) ∷ [])) ≡ with_after 4 (ask.Delete 5) ∷ [] }
{}

/// The tries of `goal.tries`: each is a request.
#[tactic(auto, unfolding(crate::specs::Request::requests_of, crate::specs::Request::requests_by, crate::specs::Command::command_named, crate::specs::Command::goal_command_named, crate::specs::Table::asked, crate::specs::Field::value_in, crate::specs::Table::try_all, crate::specs::Fields::try_of))]
fn tries_compute()
    ensures line { of_payload (codes "goal.tries") (Some (fields ((codes "after", whole 4) ∷ (codes "stateId", whole 5) ∷ (codes "tries", list (fields ((codes "move", string (codes "a")) ∷ []) ∷ fields ((codes "move", string (codes "b")) ∷ []) ∷ [])) ∷ []))) ≡ with_after 4 (ask.Move 5 0 (codes "a") 100000 true) ∷ with_after 4 (ask.Move 5 0 (codes "b") 100000 true) ∷ [] }
    ensures two { asked command.Tries (fields ((codes "after", whole 4) ∷ (codes "stateId", whole 5) ∷ (codes "tries", list (fields ((codes "auto", boolean false) ∷ (codes "fuel", whole 2) ∷ (codes "goalId", whole 1) ∷ (codes "move", string (codes "a")) ∷ []) ∷ fields ((codes "move", string (codes "a")) ∷ []) ∷ [])) ∷ [])) ≡ with_after 4 (ask.Move 5 1 (codes "a") 2 false) ∷ with_after 4 (ask.Move 5 0 (codes "a") 100000 true) ∷ [] }
    ensures nulls { asked command.Tries (fields ((codes "stateId", whole 5) ∷ (codes "tries", list (fields ((codes "auto", null) ∷ (codes "fuel", null) ∷ (codes "goalId", null) ∷ (codes "move", string (codes "a")) ∷ []) ∷ [])) ∷ [])) ≡ with_after 0 (ask.Move 5 0 (codes "a") 100000 true) ∷ [] }
    ensures ignored { asked command.Tries (fields ((codes "stateId", whole 5) ∷ (codes "tries", list (fields ((codes "after", whole 9) ∷ (codes "move", string (codes "a")) ∷ (codes "stateId", whole 9) ∷ []) ∷ [])) ∷ [])) ≡ with_after 0 (ask.Move 5 0 (codes "a") 100000 true) ∷ [] }
    ensures none { asked command.Tries (fields ((codes "stateId", whole 5) ∷ (codes "tries", list ([])) ∷ [])) ≡ refused (bad.Field (codes "tries")) ∷ [] }
    ensures most { asked command.Tries (fields ((codes "stateId", whole 5) ∷ (codes "tries", list (copies 64 (fields ((codes "move", string (codes "a")) ∷ [])))) ∷ [])) ≡ copies 64 (with_after 0 (ask.Move 5 0 (codes "a") 100000 true)) }
    ensures too_many { asked command.Tries (fields ((codes "stateId", whole 5) ∷ (codes "tries", list (copies 65 (fields ((codes "move", string (codes "a")) ∷ [])))) ∷ [])) ≡ refused (bad.Field (codes "tries")) ∷ [] }
    ensures null_try { asked command.Tries (fields ((codes "stateId", whole 5) ∷ (codes "tries", list (fields ((codes "move", string (codes "a")) ∷ []) ∷ null ∷ [])) ∷ [])) ≡ refused (bad.Field (codes "tries")) ∷ [] }
    ensures bad_try { asked command.Tries (fields ((codes "stateId", whole 5) ∷ (codes "tries", list (fields ((codes "move", string (codes "a")) ∷ []) ∷ fields [] ∷ [])) ∷ [])) ≡ refused (bad.Field (codes "tries")) ∷ [] }
    ensures too_much_fuel { asked command.Tries (fields ((codes "stateId", whole 5) ∷ (codes "tries", list (fields ((codes "fuel", whole 10000001) ∷ (codes "move", string (codes "a")) ∷ []) ∷ [])) ∷ [])) ≡ refused (bad.Field (codes "tries")) ∷ [] }
    ensures state_first { asked command.Tries (fields ((codes "tries", whole 1) ∷ [])) ≡ refused (bad.Field (codes "stateId")) ∷ [] }
    ensures after_last { asked command.Tries (fields ((codes "after", string (codes "4")) ∷ (codes "stateId", whole 5) ∷ (codes "tries", list (fields ((codes "move", string (codes "a")) ∷ []) ∷ [])) ∷ [])) ≡ refused (bad.Field (codes "after")) ∷ [] }
{}

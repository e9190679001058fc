//! Worked inputs, which the checker computes. Nothing here is called at run time.

ghost use Rattle.std.specs.Prelude.{◌≡◌, ℕ, ◌<◌, List, length, ◌∷◌, [], codes};
ghost use Rattle.pan_io.specs.Text.{whole_lines_of};
ghost use Rattle.repl_json.specs.Table.{refused, with_after};
ghost use Rattle.repl_json.specs.declared.request.Ask.TheVariants as ask;
ghost use Rattle.repl_json.specs.declared.request.Bad.TheVariants as bad;
ghost use Rattle.state_tree.specs.Server.{opening};
ghost use Rattle.state_tree.specs.Toy.{toy_value, entered};
ghost use Rattle.session_server.specs.Entered.{output_of};
ghost use Rattle.session_server.specs.Input.{requests_of_line, requests_of_lines, requests_of_input, too_long};

/// The requests of inputs.
#[tactic(auto, unfolding(crate::specs::Input::requests_of_line, pan_io::specs::Text::lines_of, pan_io::specs::Text::whole_lines_of, repl_json::specs::Request::requests_of, repl_json::specs::Request::requests_by, repl_json::specs::Command::command_named, repl_json::specs::Command::goal_command_named, repl_json::specs::Table::asked, repl_json::specs::Field::value_in))]
fn requests_compute()
    ensures nothing { requests_of_input [] ≡ [] }
    ensures blank { requests_of_input (codes "   \n") ≡ [] }
    // The last line needs no end, and blank lines ask for nothing.
    ensures last_line { requests_of_input (codes "nope\r\n\n \t\nstat") ≡ refused bad.Command ∷ with_after 0 ask.Stat ∷ [] }
    // Where the input fails, a line that isn't whole asks for nothing.
    ensures whole_lines { requests_of_lines (whole_lines_of (codes "nope\r\n\n \t\nstat")) ≡ refused bad.Command ∷ [] }
    // A line of more than 65,536 bytes is one request, blank or not.
    ensures long { (line : List ℕ) → 65536 < length line → requests_of_line line ≡ too_long (length line) ∷ [] }
{}

/// The output of a session.
fn output_computes()
    ensures { output_of toy_value (opening toy_value 7) (entered (ask.Bad bad.Command) ∷ entered ask.Stat ∷ [])
        ≡ codes "{\"error\":\"command\",\"seq\":0}\n{\"envs\":1,\"live\":0,\"seq\":1,\"states\":0}\n" }
{}

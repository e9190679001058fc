//! Worked states, which the checker prints. Nothing here is called at run time.

ghost use Rattle.std.specs.Prelude.{◌≡◌, codes, Some, None, true, false, [], ◌∷◌};
ghost use Rattle.coupling.specs.Examples.{one_active};
ghost use Rattle.repl_json.specs.declared.reply.Body.{Body};
ghost use Rattle.state_print.specs.Pieces.{numbers_json, goals_json, dormant_json, is_solved, proof_json, theorem_json, state_text};
ghost use Rattle.state_print.specs.Bodies.{made_body, printed_body};
ghost use Rattle.state_print.specs.Examples.{started, one_entry, two_entries, proved, dormant, two_goals, three_goals, body};

/// The states of a proof of (A : *) -> A -> A, and their replies.
pub fn states_print()
    ensures started { goals_json started ≡ codes "[{\"coupled\":[],\"goal\":0,\"target\":\"(%0 : *) -> %0 -> %0\",\"vars\":[]}]" }
    // A : * |- ?1 : A -> A
    ensures one_entry { goals_json one_entry ≡ codes "[{\"coupled\":[],\"goal\":1,\"target\":\"A -> A\",\"vars\":[{\"name\":\"A\",\"type\":\"*\"}]}]" }
    // A : *, x : A |- ?2 : A
    ensures two_entries { goals_json two_entries ≡ codes "[{\"coupled\":[],\"goal\":2,\"target\":\"A\",\"vars\":[{\"name\":\"A\",\"type\":\"*\"},{\"name\":\"x\",\"type\":\"A\"}]}]" }
    // Assigned metavariables are unfolded, an open one stays, the last entry of a name hides the others, and goals keep their order.
    ensures unfolded { goals_json two_goals ≡ codes "[{\"coupled\":[0],\"goal\":3,\"target\":\"%0 -> ?0[]\",\"vars\":[{\"name\":\"%0\",\"type\":\"*\"},{\"name\":\"A\",\"type\":\"%0\"}]},{\"coupled\":[],\"goal\":2,\"target\":\"A\",\"vars\":[{\"name\":\"A\",\"type\":\"*\"},{\"name\":\"x\",\"type\":\"A\"}]}]" }
    ensures proved { state_text proved ≡ record { goals = codes "[]"; dormant = codes "[]"; solved = true; term = Some (codes "\"fun (%0 : *) => fun (%1 : %0) => %1\""); ty = codes "\"(%0 : *) -> %0 -> %0\"" } }
    // No goal is active, and one is open.
    ensures dormant { state_text dormant ≡ record { goals = codes "[]"; dormant = codes "[2]"; solved = false; term = None; ty = codes "\"(%0 : *) -> %0 -> %0\"" } }
    ensures made { made_body (state_text one_entry) ≡ body (codes "{\"dormant\":[],\"goals\":[{\"coupled\":[],\"goal\":1,\"target\":\"A -> A\",\"vars\":[{\"name\":\"A\",\"type\":\"*\"}]}],\"seq\":") (codes ",\"solved\":false,\"stateId\":") (codes "}") }
    ensures made_proved { made_body (state_text proved) ≡ body (codes "{\"dormant\":[],\"goals\":[],\"seq\":") (codes ",\"solved\":true,\"stateId\":") (codes "}") }
    ensures printed { printed_body (state_text started) ≡ body (codes "{\"dormant\":[],\"goals\":[{\"coupled\":[],\"goal\":0,\"target\":\"(%0 : *) -> %0 -> %0\",\"vars\":[]}],\"seq\":") (codes ",\"solved\":false,\"type\":\"(%0 : *) -> %0 -> %0\"}") (codes "") }
    ensures printed_proved { printed_body (state_text proved) ≡ body (codes "{\"dormant\":[],\"goals\":[],\"seq\":") (codes ",\"solved\":true,\"term\":\"fun (%0 : *) => fun (%1 : %0) => %1\",\"type\":\"(%0 : *) -> %0 -> %0\"}") (codes "") }
{}

/// Goals of le(a(), b()) by transitivity, which need a common one: ?1 : N(), ?2 : le(a(), ?1[]) and ?3 : le(?1[], b()).
pub fn coupled_goals_print()
    ensures none { numbers_json [] ≡ codes "[]" }
    ensures several { numbers_json (1 ∷ 20 ∷ 300 ∷ []) ≡ codes "[1,20,300]" }
    ensures coupled { goals_json three_goals ≡ codes "[{\"coupled\":[2,3],\"goal\":1,\"target\":\"N()\",\"vars\":[]},{\"coupled\":[1,3],\"goal\":2,\"target\":\"le(a(), ?1[])\",\"vars\":[]},{\"coupled\":[1,2],\"goal\":3,\"target\":\"le(?1[], b())\",\"vars\":[]}]" }
    ensures active { dormant_json three_goals ≡ codes "[]" }
    // ?2 alone is active, and coupled with the dormant goals.
    ensures one_active { made_body (state_text one_active) ≡ body (codes "{\"dormant\":[1,3],\"goals\":[{\"coupled\":[1,3],\"goal\":2,\"target\":\"le(a(), ?1[])\",\"vars\":[]}],\"seq\":") (codes ",\"solved\":false,\"stateId\":") (codes "}") }
    ensures dormant { dormant_json two_goals ≡ codes "[0]" }
{}

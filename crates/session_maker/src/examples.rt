ghost use Rattle.std.specs.Prelude.{◌≡◌, codes};
ghost use Rattle.session_maker.specs.Generator.{number, draw, arrows, chosen, states_before};
ghost use Rattle.session_maker.specs.Session.{session, replies};

// The worked session of seed 7, which the checker computes: its numbers, its first round, and its counts of replies and of states.
pub fn worked_session()
    ensures number { number 7 1 ≡ 9098160460397411210 }
    ensures draw { draw (number 7 1) ≡ 1059165278 }
    ensures arrows { arrows (number 7 1) ≡ 3 }
    ensures chosen { chosen (number 7 1) ≡ 1 }
    ensures text { session 7 1 ≡ codes "goal.start {\"expr\":\"(A : *) -> A -> A -> A -> A\"}\ngoal.move {\"stateId\":0,\"move\":\"intro A\"}\ngoal.move {\"stateId\":1,\"move\":\"intro x1\"}\ngoal.move {\"stateId\":2,\"move\":\"intro x2\"}\ngoal.move {\"stateId\":3,\"move\":\"intro x3\"}\ngoal.tries {\"stateId\":4,\"tries\":[{\"move\":\"assumption\"},{\"move\":\"exact x1\"}]}\ngoal.print {\"stateId\":6}\ngoal.delete {\"stateId\":0}\n" }
    ensures replies { replies 7 1 ≡ 9 }
    ensures states { states_before 7 1 ≡ 7 }
{}

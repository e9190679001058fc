use crate::make_session;
use std::test::*;

#[test]
fn the_first_round_of_seed_seven(rt: HostRuntime) -> Result<(), Fail> {
    let text = make_session(rt.alloc(), 7, 1)?;
    assert_eq!(rt;
        text.as_slice(),
        b"goal.start {\"expr\":\"(A : *) -> A -> A -> A -> A\"}\ngoal.move {\"stateId\":0,\"move\":\"intro A\"}\ngoal.move {\"stateId\":1,\"move\":\"intro x1\"}\ngoal.move {\"stateId\":2,\"move\":\"intro x2\"}\ngoal.move {\"stateId\":3,\"move\":\"intro x3\"}\ngoal.tries {\"stateId\":4,\"tries\":[{\"move\":\"assumption\"},{\"move\":\"exact x1\"}]}\ngoal.print {\"stateId\":6}\ngoal.delete {\"stateId\":0}\n".as_slice()
    );
    assert_eq!(rt; make_session(rt.alloc(), 0, 0)?.as_slice(), b"".as_slice());
    Ok(())
}

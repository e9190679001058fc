//! Each refusal of a text and of a metavariable, once.

use crate::{
    Members, fuel_members, goal_members, no_expected_members, no_item_members,
    out_of_scope_members, scope_members, syntax_members, taken_members, unsolved_members,
};
use ld_terms::Name;
use std::alloc::{AllocError, Global};
use std::test::Fail;
use term_text::ScopeFault;

/// A reply's text around the value of `seq`.
fn around(alloc: Global, members: &Members) -> Result<(Vec<u8>, Vec<u8>), AllocError> {
    let body = members.to_body(alloc)?;
    let first = Vec::from_slice(alloc, body.first.as_slice())?;
    let second = Vec::from_slice(alloc, body.second.as_slice())?;
    Ok((first, second))
}

#[test]
fn refusals_of_texts(rt: HostRuntime) -> Result<(), Fail> {
    let alloc = rt.alloc();
    let name = Name::of(alloc, b"le")?;
    let count = ScopeFault::WrongCount {
        at: 0,
        name,
        given: 1,
        wanted: 2,
    };
    let (first, second) = around(alloc, &scope_members(alloc, Some(7), &count)?)?;
    assert!(rt;
        first.as_slice()
            == b"{\"at\":0,\"error\":\"wrongCount\",\"given\":1,\"item\":7,\"name\":\"le\",\"seq\":".as_slice()
    );
    assert!(rt; second.as_slice() == b",\"wanted\":2}".as_slice());
    let (first, second) = around(alloc, &syntax_members(alloc, 6)?)?;
    assert!(rt; first.as_slice() == b"{\"at\":6,\"error\":\"syntax\",\"seq\":".as_slice());
    assert!(rt; second.as_slice() == b"}".as_slice());
    let (first, _) = around(alloc, &fuel_members(alloc, Some(4))?)?;
    assert!(rt; first.as_slice() == b"{\"error\":\"fuel\",\"item\":4,\"seq\":".as_slice());
    let (first, _) = around(alloc, &taken_members(alloc, Some(1), b"N")?)?;
    assert!(rt;
        first.as_slice()
            == b"{\"error\":\"nameTaken\",\"item\":1,\"name\":\"N\",\"seq\":".as_slice()
    );
    let (first, _) = around(alloc, &no_item_members(alloc, b"\x1f\"\xff")?)?;
    assert!(rt;
        first.as_slice()
            == b"{\"error\":\"unknownName\",\"name\":\"\\u001f\\\"\xff\",\"seq\":".as_slice()
    );
    Ok(())
}

#[test]
fn refusals_of_holes(rt: HostRuntime) -> Result<(), Fail> {
    let alloc = rt.alloc();
    let (first, second) = around(alloc, &out_of_scope_members(alloc, 1, 0)?)?;
    assert!(rt;
        first.as_slice() == b"{\"error\":\"scope\",\"goal\":1,\"level\":0,\"seq\":".as_slice()
    );
    assert!(rt; second.as_slice() == b"}".as_slice());
    let (first, _) = around(alloc, &goal_members(alloc, "notPattern", 1)?)?;
    assert!(rt; first.as_slice() == b"{\"error\":\"notPattern\",\"goal\":1,\"seq\":".as_slice());
    let (first, _) = around(alloc, &unsolved_members(alloc, None, 10)?)?;
    assert!(rt; first.as_slice() == b"{\"at\":10,\"error\":\"unsolved\",\"seq\":".as_slice());
    let (first, _) = around(alloc, &no_expected_members(alloc, 6)?)?;
    assert!(rt; first.as_slice() == b"{\"at\":6,\"error\":\"noExpected\",\"seq\":".as_slice());
    Ok(())
}

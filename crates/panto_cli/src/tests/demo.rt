//! Generated sessions.

use super::shows;
use std::test::Fail;

#[test]
fn worked_demos(rt: HostRuntime) -> Result<(), Fail> {
    let rows = [
        (
            "demo 7 1",
            "demo seed=7 rounds=1 replies=9 errors=0 states=7\n",
        ),
        (
            "demo 000 0",
            "demo seed=0 rounds=0 replies=0 errors=0 states=0\n",
        ),
    ];
    for (line, wanted) in rows {
        assert!(rt; shows(&rt, rt.alloc(), line, "", b"nope\n", (wanted, 0, ""))?);
    }
    Ok(())
}

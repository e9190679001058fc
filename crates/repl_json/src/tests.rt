//! Lines that are read, and replies that are written.

ghost use Rattle.std.specs.Prelude.{None};

use super::*;
use ld_terms::List;
use pan_io::MemorySink;
use std::alloc::{AllocError, Global};
use std::test::Fail;

/// The requests of a line; none of one that asks for nothing.
fn read(alloc: Global, line: &[u8]) -> Result<List<Request>, AllocError> {
    if is_blank_line(line) || line.len() > 65_536 {
        return Ok(List::of(Vec::new(alloc)));
    }
    read_request(alloc, line)
}

/// What a line that is no request is answered, up to the number of entries; nothing for a line that is one.
fn refusal(alloc: Global, line: &[u8]) -> Result<Vec<u8>, AllocError> {
    let requests = read(alloc, line)?;
    let [request] = requests.as_slice() else {
        return Ok(Vec::new(alloc));
    };
    match &request.ask {
        Ask::Bad(bad) => Vec::from_slice(alloc, bad_body(alloc, bad)?.first.as_slice()),
        _ => Ok(Vec::new(alloc)),
    }
}

#[test]
fn lines_that_are_refused(rt: HostRuntime) -> Result<(), Fail> {
    let alloc = rt.alloc();
    let json: &[u8] = b"{\"error\":\"json\",\"seq\":";
    let command: &[u8] = b"{\"error\":\"command\",\"seq\":";
    let rows: [(&[u8], &[u8]); 22] = [
        (b"nope", command),
        (b"nope {}", command),
        (b"nope {", json),
        (b"\xff {}", command),
        (b"stat \xff", json),
        (b"stat []", json),
        (b"stat null", json),
        (b"stat \r", json),
        (b"stat {\"x\":1e400}", json),
        (b"{\"cmd\":\"stat\"} {}", json),
        (
            b"{\"payload\":1}",
            b"{\"error\":\"field\",\"field\":\"cmd\",\"seq\":",
        ),
        (
            b"{\"cmd\":\"nope\",\"payload\":1}",
            b"{\"error\":\"field\",\"field\":\"payload\",\"seq\":",
        ),
        (b"{\"cmd\":\"nope\",\"payload\":{}}", command),
        (
            b"goal.tries {\"stateId\":-1}",
            b"{\"error\":\"field\",\"field\":\"stateId\",\"seq\":",
        ),
        (
            b"stat {\"after\":1.5}",
            b"{\"error\":\"field\",\"field\":\"after\",\"seq\":",
        ),
        (
            b"stat {\"after\":-0}",
            b"{\"error\":\"field\",\"field\":\"after\",\"seq\":",
        ),
        (
            b"stat {\"after\":0.0}",
            b"{\"error\":\"field\",\"field\":\"after\",\"seq\":",
        ),
        (
            b"stat {\"after\":0e0}",
            b"{\"error\":\"field\",\"field\":\"after\",\"seq\":",
        ),
        (
            b"stat {\"after\":18446744073709551616}",
            b"{\"error\":\"field\",\"field\":\"after\",\"seq\":",
        ),
        (
            b"expr.echo {\"after\":1.5,\"expr\":\"*\"}",
            b"{\"error\":\"field\",\"field\":\"after\",\"seq\":",
        ),
        (
            b"expr.echo {\"expr\":\"*\",\"fuel\":10000001}",
            b"{\"error\":\"field\",\"field\":\"fuel\",\"seq\":",
        ),
        (
            b"env.inspect {\"name\":null}",
            b"{\"error\":\"field\",\"field\":\"name\",\"seq\":",
        ),
    ];
    for (line, wanted) in rows {
        assert_eq!(rt; refusal(alloc, line)?.as_slice(), wanted);
    }
    Ok(())
}

/// The `after` of the one request that a line is, and its environment with its text and fuel where it is one of `expr.echo`.
fn echo_of(alloc: Global, line: &[u8]) -> Result<Option<(u64, u64, Vec<u8>, u64)>, AllocError> {
    let requests = read(alloc, line)?;
    match requests.as_slice() {
        [
            Request {
                after,
                ask: Ask::Echo { env, expr, fuel },
            },
        ] => Ok(Some((
            *after,
            *env,
            Vec::from_slice(alloc, expr.as_slice())?,
            *fuel,
        ))),
        _ => Ok(None),
    }
}

#[test]
fn lines_that_echo(rt: HostRuntime) -> Result<(), Fail> {
    let alloc = rt.alloc();
    let rows: [(&[u8], u64, u64, &[u8], u64); 5] = [
        (b" \texpr.echo\t{\"expr\":\"*\"}", 0, 0, b"*", 100_000),
        (
            b"expr.echo {\"expr\":\"a\",\"expr\":\"\\u002a\"}\r",
            0,
            0,
            b"*",
            100_000,
        ),
        (
            b"expr.echo {\"expr\":\"*\",\"envId\":null,\"x\":[null]}",
            0,
            0,
            b"*",
            100_000,
        ),
        (
            b"expr.echo {\"fuel\":10000000,\"expr\":\"*\",\"envId\":18446744073709551615,\"after\":7}",
            7,
            u64::MAX,
            b"*",
            10_000_000,
        ),
        (
            b" {\"payload\":{\"expr\":\"*\",\"after\":7},\"cmd\":\"expr.echo\",\"after\":-1}",
            7,
            0,
            b"*",
            100_000,
        ),
    ];
    for (line, after, env, expr, fuel) in rows {
        let Some(read) = echo_of(alloc, line)? else {
            return Err(Fail::new("a line is refused"));
        };
        assert_eq!(rt; read.0, after);
        assert_eq!(rt; read.1, env);
        assert_eq!(rt; read.2.as_slice(), expr);
        assert_eq!(rt; read.3, fuel);
    }
    Ok(())
}

#[test]
fn lines_with_lists(rt: HostRuntime) -> Result<(), Fail> {
    let alloc = rt.alloc();
    let line =
        b"goal.tries {\"after\":4,\"stateId\":5,\"tries\":[{\"move\":\"a\"},{\"move\":\"b\",\"goalId\":1}]}";
    let requests = read(alloc, line)?;
    let [_, second] = requests.as_slice() else {
        return Err(Fail::new("there are two tries"));
    };
    let Ask::Move { goal, text, .. } = &second.ask else {
        return Err(Fail::new("another request"));
    };
    assert_eq!(rt; second.after, 4);
    assert_eq!(rt; second.ask.one_named(), Some(5));
    assert_eq!(rt; *goal, 1);
    assert_eq!(rt; text.as_slice(), b"b".as_slice());
    let requests = read(alloc, b"goal.resume {\"stateId\":5,\"goals\":[2,1]}")?;
    let [request] = requests.as_slice() else {
        return Err(Fail::new("there is one request"));
    };
    let Ask::Resume { goals, .. } = &request.ask else {
        return Err(Fail::new("another request"));
    };
    assert_eq!(rt; goals.as_slice(), [2, 1].as_slice());
    Ok(())
}

#[test]
fn replies_are_written(rt: HostRuntime) -> Result<(), Fail> {
    let alloc = rt.alloc();
    let mut sink = MemorySink::new(alloc, 3, 1000, Vec::new(alloc));
    let stat = Line::Stat {
        envs: 1,
        live: 2,
        seq: 3,
        states: u64::MAX,
    };
    assert!(rt; finish_line(&stat, &mut sink).is_ok());
    let given = Line::Given {
        body: bad_body(alloc, &Bad::LineTooLong { length: 65_537 })?,
        seq: 4,
        id: None,
    };
    assert!(rt; finish_line(&given, &mut sink).is_ok());
    assert_eq!(rt;
        sink.bytes(),
        b"{\"envs\":1,\"live\":2,\"seq\":3,\"states\":18446744073709551615}\n{\"error\":\"lineTooLong\",\"length\":65537,\"seq\":4}\n".as_slice()
    );
    let mut text = Vec::new(alloc);
    push_quoted(&mut text, b"a\"\n\x01")?;
    assert_eq!(rt; text.as_slice(), b"\"a\\\"\\n\\u0001\"".as_slice());
    Ok(())
}

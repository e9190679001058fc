//! Each field of each command that is built, missing and with values that it can't have.

use crate::{Ask, Bad, is_blank_line, read_request};
use ld_terms::List;
use std::alloc::{AllocError, Global};
use std::test::Fail;

/// JSON values that are no text.
const NO_TEXTS: [&str; 6] = ["null", "1", "true", "[]", "{}", "1e3"];

/// JSON values that are no whole number of 64 bits written as digits alone.
const NO_NUMBERS: [&str; 10] = [
    "\"1\"",
    "true",
    "[]",
    "{}",
    "-1",
    "-0",
    "1.0",
    "1e3",
    "18446744073709551616",
    "99999999999999999999999999999999999999999",
];

/// A line whose payload has these members and then the field with this value.
fn line_of(
    alloc: Global,
    command: &str,
    members: &str,
    field: &str,
    value: &str,
) -> Result<String, AllocError> {
    format!(in alloc; "{command} {{{members}\"{field}\":{value}}}")
}

/// What a line is refused by, and nothing where it is read.
fn refused(alloc: Global, line: &[u8]) -> Result<Option<Bad>, AllocError> {
    if is_blank_line(line) || line.len() > 65_536 {
        return Ok(None);
    }
    let requests = read_request(alloc, line)?;
    let [request] = requests.as_slice() else {
        return Ok(None);
    };
    match &request.ask {
        Ask::Bad(Bad::Field { name }) => {
            let name = List::from_slice(alloc, name.as_slice())?;
            Ok(Some(Bad::Field { name }))
        }
        Ask::Bad(Bad::Json) => Ok(Some(Bad::Json)),
        _ => Ok(None),
    }
}

/// Whether a line is refused by the name of that field.
fn names(alloc: Global, line: &str, field: &str) -> Result<bool, AllocError> {
    match refused(alloc, line.as_bytes())? {
        Some(Bad::Field { name }) => Ok(name.as_slice() == field.as_bytes()),
        _ => Ok(false),
    }
}

/// Whether a line is read.
fn is_read(alloc: Global, line: &[u8]) -> Result<bool, AllocError> {
    Ok(refused(alloc, line)?.is_none())
}

#[test]
fn texts_that_are_none(rt: HostRuntime) -> Result<(), Fail> {
    let alloc = rt.alloc();
    let rows: [(&str, &str); 3] = [
        ("expr.echo", "expr"),
        ("env.add", "text"),
        ("env.inspect", "name"),
    ];
    for (command, field) in rows {
        assert!(rt; names(alloc, command, field)?);
        for value in NO_TEXTS {
            let line = line_of(alloc, command, "", field, value)?;
            assert!(rt; names(alloc, &line, field)?);
        }
    }
    Ok(())
}

#[test]
fn numbers_that_are_none(rt: HostRuntime) -> Result<(), Fail> {
    let alloc = rt.alloc();
    let rows: [(&str, &str, &str); 12] = [
        ("expr.echo", "\"expr\":\"*\",", "envId"),
        ("expr.echo", "\"expr\":\"*\",", "fuel"),
        ("expr.echo", "\"expr\":\"*\",", "after"),
        ("env.add", "\"text\":\"\",", "envId"),
        ("env.add", "\"text\":\"\",", "fuel"),
        ("env.add", "\"text\":\"\",", "after"),
        ("env.inspect", "\"name\":\"a\",", "envId"),
        ("env.inspect", "\"name\":\"a\",", "after"),
        ("env.catalog", "", "envId"),
        ("env.catalog", "", "after"),
        ("stat", "", "after"),
        ("reset", "", "after"),
    ];
    for (command, members, field) in rows {
        for value in NO_NUMBERS {
            let line = line_of(alloc, command, members, field, value)?;
            assert!(rt; names(alloc, &line, field)?);
        }
        // Null is the default, and the greatest number of 64 bits is in the range of all but the fuel.
        let line = line_of(alloc, command, members, field, "null")?;
        assert!(rt; is_read(alloc, line.as_bytes())?);
        let line = line_of(alloc, command, members, field, "18446744073709551615")?;
        assert!(rt; is_read(alloc, line.as_bytes())? == (field != "fuel"));
    }
    Ok(())
}

#[test]
fn fuel_has_a_range(rt: HostRuntime) -> Result<(), Fail> {
    let alloc = rt.alloc();
    let rows: [(&str, &str); 2] = [
        ("expr.echo", "\"expr\":\"*\","),
        ("env.add", "\"text\":\"\","),
    ];
    for (command, members) in rows {
        let line = line_of(alloc, command, members, "fuel", "10000000")?;
        assert!(rt; is_read(alloc, line.as_bytes())?);
        let line = line_of(alloc, command, members, "fuel", "10000001")?;
        assert!(rt; names(alloc, &line, "fuel")?);
    }
    Ok(())
}

/// `stat` with an unknown field of so many lists inside one another.
fn nested(alloc: Global, lists: usize) -> Result<Vec<u8>, AllocError> {
    let mut line = Vec::from_slice(alloc, b"stat {\"x\":")?;
    line.extend_from_slice(&vec![in alloc; b'['; lists]?)?;
    line.extend_from_slice(&vec![in alloc; b']'; lists]?)?;
    line.push(b'}')?;
    Ok(line)
}

#[test]
fn payloads_nest_127_deep(rt: HostRuntime) -> Result<(), Fail> {
    let alloc = rt.alloc();
    // The payload's object counts.
    assert!(rt; is_read(alloc, &nested(alloc, 126)?)?);
    let refused = refused(alloc, &nested(alloc, 127)?)?;
    assert!(rt; matches!(&refused, Some(Bad::Json)));
    Ok(())
}

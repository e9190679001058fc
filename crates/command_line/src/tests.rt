//! That words are read where there is memory: worked words and their forms, as tables.

use super::*;
use std::alloc::{AllocError, Global};
use std::test::Fail;

/// The words of a line, which blanks part.
fn words_in(alloc: Global, line: &str) -> Result<Vec<String>, AllocError> {
    let mut words = Vec::new(alloc);
    for word in line.split(' ') {
        words.push(String::from_str(alloc, word)?)?;
    }
    Ok(words)
}

#[test]
fn words_have_their_forms(rt: HostRuntime) -> Result<(), Fail> {
    let run = |book, entries| {
        Some(Form::Run {
            book,
            entries,
            workers: 1,
        })
    };
    let rows = [
        ("run", run(None, 65_536)),
        ("run --entries=3 --book a", run(Some("a"), 3)),
        ("run --book=a=b", run(Some("a=b"), 65_536)),
        ("run --book=-x", run(Some("-x"), 65_536)),
        ("run --entries 0000003", run(None, 3)),
        (
            "run --workers 64",
            Some(Form::Run {
                book: None,
                entries: 65_536,
                workers: 64,
            }),
        ),
        ("check a", Some(Form::Check { file: "a" })),
        ("run --entries 0", None),
        ("run --entries 1048577", None),
        ("run --entries 00000003", None),
        ("run --entries +3", None),
        ("run --entries 3 --entries 4", None),
        ("run --book -x", None),
        ("run --book", None),
        ("run --workers 0", None),
        ("run --workers 65", None),
        ("check", None),
        ("check a b", None),
        ("check -- x", None),
        ("demo 007 01", Some(Form::Demo { seed: 7, count: 1 })),
        ("demo 7 10001", None),
        (
            "serve --book b --listen a:1 --workers 3 --entries 4 --sessions=2",
            Some(Form::Serve {
                listen: "a:1",
                book: Some("b"),
                entries: 4,
                workers: 3,
                sessions: 2,
            }),
        ),
        ("serve --book b", None),
        ("", None),
    ];
    for (line, form) in rows {
        let words = words_in(rt.alloc(), line)?;
        assert_eq!(rt; read_words(rt.alloc(), &words)?, form, "{line}");
    }
    assert_eq!(rt; read_words(rt.alloc(), &[])?, None);
    Ok(())
}

use crate::{Move, read_move};
use std::alloc::Global;
use term_text::ReadFault;

/// The number of the form and the place of its term, or the place of the refusal.
fn read(alloc: Global, text: &[u8]) -> Result<(u8, u64), u64> {
    match read_move(alloc, text) {
        Ok(Move::Intro(_)) => Ok((0, 0)),
        Ok(Move::Apply(t)) => Ok((1, t.at)),
        Ok(Move::Exact(t)) => Ok((2, t.at)),
        Ok(Move::Refine(t)) => Ok((3, t.at)),
        Ok(Move::Have(_, t)) => Ok((4, t.at)),
        Ok(Move::Assumption) => Ok((5, 0)),
        Ok(Move::Change(t)) => Ok((6, t.at)),
        Ok(Move::Unfold(_)) => Ok((7, 0)),
        Err(ReadFault::Syntax { at }) => Err(at),
        Err(ReadFault::Memory) => Err(u64::MAX),
    }
}

#[test]
fn moves(rt: HostRuntime) {
    let alloc = rt.alloc();
    assert_eq!(rt; read(alloc, b"\r\n intro A\t"), Ok((0, 0)));
    assert_eq!(rt; read(alloc, b"apply f x"), Ok((1, 6)));
    assert_eq!(rt; read(alloc, b"exact(x)"), Ok((2, 6)));
    assert_eq!(rt; read(alloc, b"refine fun (x : A) => ?"), Ok((3, 7)));
    assert_eq!(rt; read(alloc, b"have y : A -> B"), Ok((4, 9)));
    assert_eq!(rt; read(alloc, b"assumption"), Ok((5, 0)));
    assert_eq!(rt; read(alloc, b"change not(A)"), Ok((6, 7)));
    assert_eq!(rt; read(alloc, b"unfold not"), Ok((7, 0)));
}

#[test]
fn refusals(rt: HostRuntime) {
    let alloc = rt.alloc();
    assert_eq!(rt; read(alloc, b""), Err(0));
    assert_eq!(rt; read(alloc, b" nope x"), Err(1));
    assert_eq!(rt; read(alloc, b"fun x"), Err(0));
    assert_eq!(rt; read(alloc, b"(exact x)"), Err(0));
    assert_eq!(rt; read(alloc, b"intro"), Err(5));
    assert_eq!(rt; read(alloc, b"intro x("), Err(7));
    assert_eq!(rt; read(alloc, b"intro(x"), Err(5));
    assert_eq!(rt; read(alloc, b"unfold fun"), Err(7));
    assert_eq!(rt; read(alloc, b"have x := A"), Err(7));
    assert_eq!(rt; read(alloc, b"have x"), Err(6));
    assert_eq!(rt; read(alloc, b"exact x : A"), Err(8));
    assert_eq!(rt; read(alloc, b"assumption("), Err(10));
    assert_eq!(rt; read(alloc, b"apply f &"), Err(8));
}

/// A term inside 511 others, and one inside 512, behind a word.
#[test]
fn nesting(rt: HostRuntime) -> Result<(), ReadFault> {
    let alloc = rt.alloc();
    let mut text = Vec::new(alloc);
    text.extend_from_slice(b"exact ")?;
    for _ in 0..511 {
        text.extend_from_slice(b"* -> ")?;
    }
    text.push(b'*')?;
    assert_eq!(rt; read(alloc, &text), Ok((2, 6)));
    text.extend_from_slice(b" -> *")?;
    assert_eq!(rt; read(alloc, &text), Err(6 + 512 * 5));
    Ok(())
}

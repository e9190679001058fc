use crate::{ReadFault, read_term, read_term_at};
use std::alloc::Global;

/// The place of the tree's root, or of the refusal.
fn read(alloc: Global, text: &[u8]) -> Result<u64, u64> {
    match read_term(alloc, text) {
        Ok(t) => Ok(t.at),
        Err(ReadFault::Syntax { at }) => Err(at),
        Err(ReadFault::Memory) => Err(u64::MAX),
    }
}

#[test]
fn trees(rt: HostRuntime) {
    let alloc = rt.alloc();
    assert_eq!(rt; read(alloc, b"fun (A : *) => fun (x : A) => x"), Ok(0));
    assert_eq!(rt; read(alloc, b" (x)\t"), Ok(2));
    assert_eq!(rt; read(alloc, b"(f x) y"), Ok(0));
    assert_eq!(rt; read(alloc, b"a(b, c( )) -> %12 _ ?"), Ok(0));
    assert_eq!(rt; read(alloc, b"(%5 : *) -> %5 -> %0"), Ok(0));
    assert_eq!(rt; read(alloc, b"a(x y)z"), Ok(0));
}

#[test]
fn refusals(rt: HostRuntime) {
    let alloc = rt.alloc();
    assert_eq!(rt; read(alloc, b"(A -> "), Err(6));
    assert_eq!(rt; read(alloc, b""), Err(0));
    assert_eq!(rt; read(alloc, b"  "), Err(2));
    assert_eq!(rt; read(alloc, b"* )"), Err(2));
    assert_eq!(rt; read(alloc, b"* & *"), Err(2));
    assert_eq!(rt; read(alloc, b"fun x"), Err(4));
    assert_eq!(rt; read(alloc, b"fun (x("), Err(6));
    assert_eq!(rt; read(alloc, b"(x : *) => x"), Err(8));
    assert_eq!(rt; read(alloc, b"(def)"), Err(1));
    assert_eq!(rt; read(alloc, b"%07"), Err(2));
    assert_eq!(rt; read(alloc, b"%0123456789"), Err(2));
    assert_eq!(rt; read(alloc, b"%1234567890"), Err(0));
    assert_eq!(rt; read(alloc, b"%x"), Err(0));
}

/// So many of these bytes, and then those.
fn many(alloc: Global, count: u64, front: &[u8], last: &[u8]) -> Result<Vec<u8>, ReadFault> {
    let mut text = Vec::new(alloc);
    for _ in 0..count {
        text.extend_from_slice(front)?;
    }
    text.extend_from_slice(last)?;
    Ok(text)
}

fn read_many(alloc: Global, count: u64, front: &[u8], last: &[u8]) -> Result<u64, u64> {
    match many(alloc, count, front, last) {
        Ok(text) => read(alloc, &text),
        Err(_) => Err(u64::MAX),
    }
}

#[test]
fn limits(rt: HostRuntime) {
    let alloc = rt.alloc();
    assert_eq!(rt; read_many(alloc, 511, b"* -> ", b"*"), Ok(0));
    assert_eq!(rt; read_many(alloc, 512, b"* -> ", b"*"), Err(2560));
    assert_eq!(rt; read_many(alloc, 512, b"(", b""), Err(512));
    assert_eq!(rt; read_many(alloc, 512, b"(", b")"), Err(512));
    assert_eq!(rt; read_many(alloc, 64, b"n", b""), Ok(0));
    assert_eq!(rt; read_many(alloc, 65, b"n", b""), Err(0));
}

/// The place after the term at a place, or of the refusal.
fn read_at(alloc: Global, text: &[u8], at: u64) -> Result<u64, u64> {
    match read_term_at(alloc, text, at) {
        Ok((_, after)) => Ok(after),
        Err(ReadFault::Syntax { at }) => Err(at),
        Err(ReadFault::Memory) => Err(u64::MAX),
    }
}

#[test]
fn from_a_place(rt: HostRuntime) {
    let alloc = rt.alloc();
    assert_eq!(rt; read_at(alloc, b"have x : f x ; &", 8), Ok(12));
    assert_eq!(rt; read_at(alloc, b"(a", 0), Err(2));
    assert_eq!(rt; read_at(alloc, b"*", 100), Err(1));
}

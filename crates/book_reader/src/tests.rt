use crate::book::read_book;
use crate::fault::BookFault;
use kernel_check::KernelFault;
use ld_terms::{Name, Place, TreeTerms};
use meta_context::Env;
use std::alloc::Global;
use std::test::Fail;
use term_text::ScopeFault;

/// The environment of a text behind the empty one, with the units that a book's items have.
fn behind_nothing(alloc: Global, text: &[u8]) -> Result<Env<Place>, BookFault<Place>> {
    let mut terms = match TreeTerms::new(alloc) {
        Ok(terms) => terms,
        Err(_) => return Err(BookFault::Memory),
    };
    let env = Env::new();
    read_book(alloc, &mut terms, &env, 10_000_000, text)
}

/// How many items a text makes, or `None` where it is refused.
fn count(alloc: Global, text: &[u8]) -> Option<u64> {
    match behind_nothing(alloc, text) {
        Ok(env) => Some(env.len()),
        Err(_) => None,
    }
}

const NEGATION: &[u8] = b"def falsum := (A : *) -> A : *; def not (A : *) := A -> falsum() : *;";

const ORDER: &[u8] =
    b"prim N : *; prim a : N(); prim b : N(); prim c : N(); prim le (x : N()) (y : N()) : *; prim trans (x : N()) (y : N()) (z : N()) (p : le(x, y)) (q : le(y, z)) : le(x, z); prim ac : le(a(), c()); prim cb : le(c(), b());";

const CYCLES: &[u8] =
    b"prim N : *; prim z : N(); prim s (x : N()) : N(); prim eq (x : N()) (y : N()) : *; prim refl (x : N()) : eq(x, x); def K (x : N()) := N() : *; prim mk (x : N()) (w : K(x)) (p : eq(x, s(w))) : N(); prim ex (y : N()) (p : (x : N()) -> eq(x, y)) : N(); prim box (x : N()) (y : N()) (p : eq(x, y)) : N();";

#[test]
fn books_make_their_items(rt: HostRuntime) -> Result<(), Fail> {
    assert_eq!(rt; count(rt.alloc(), b""), Some(0));
    assert_eq!(rt; count(rt.alloc(), b" \n"), Some(0));
    assert_eq!(rt; count(rt.alloc(), NEGATION), Some(2));
    assert_eq!(rt; count(rt.alloc(), ORDER), Some(8));
    assert_eq!(rt; count(rt.alloc(), CYCLES), Some(9));
    Ok(())
}

/// Whether an item's parameters have these two names.
fn has_names(env: &Env<Place>, item: &Name, first: &[u8], second: &[u8]) -> bool {
    let Some(item) = env.find(item) else {
        return false;
    };
    let params = item.params.as_slice();
    params.len() == 2 && params[0].name.as_bytes() == first && params[1].name.as_bytes() == second
}

#[test]
fn a_level_name_gives_the_level_name(rt: HostRuntime) -> Result<(), Fail> {
    let made = behind_nothing(rt.alloc(), b"prim N : *; def k(%5 : *)(y : %0) := y : %0;");
    let name = Name::of(rt.alloc(), b"k")?;
    match made {
        Ok(env) => assert!(rt; has_names(&env, &name, b"%0", b"y")),
        Err(_) => assert!(rt; false),
    }
    Ok(())
}

#[test]
fn refusals_say_where(rt: HostRuntime) -> Result<(), Fail> {
    let alloc = rt.alloc();
    assert!(rt;
        matches!(
            behind_nothing(alloc, b"prim a : *; prim a : *;"),
            Err(BookFault::NameTaken { item: 1, .. })
        )
    );
    assert!(rt;
        matches!(
            behind_nothing(alloc, b"prim a : *; prim b : y"),
            Err(BookFault::Syntax { at: 22 })
        )
    );
    assert!(rt;
        matches!(
            behind_nothing(alloc, b"prim a : *; prim b : y;"),
            Err(BookFault::Scope {
                item: 1,
                fault: ScopeFault::UnknownName { at: 21, .. }
            })
        )
    );
    assert!(rt;
        matches!(
            behind_nothing(alloc, b"prim a : *; def b := a() : a();"),
            Err(BookFault::Kernel {
                item: 1,
                fault: KernelFault::Mismatch { depth: 0, .. }
            })
        )
    );
    assert!(rt;
        matches!(
            behind_nothing(alloc, b"prim a : * a : *;"),
            Err(BookFault::Syntax { at: 13 })
        )
    );
    Ok(())
}

//! Environments by their names and places, and forks of environments and of metavariable contexts.

ghost use Rattle.std.specs.Prelude.{◌≡◌, ◌∷◌, [], None, IfOk, codes};

use crate::env::Env;
use crate::metas::Metas;
use crate::tests::{declare_closed, star};
use ld_terms::{Item, List, Name, TreeTerms};
use std::alloc::{AllocError, Global};
use std::test::Fail;

/// A primitive constant without parameters.
fn constant(alloc: Global, name: &[u8], ty: u32) -> Result<Item<u32>, AllocError>
    ensures { IfOk result (λ i. i ≡ record { name = name.now; params = []; ty = ty; body = None }) }
{
    let name = Name::of(alloc, name)?;
    Ok(Item {
        name,
        params: List::of(Vec::new(alloc)),
        ty,
        body: None,
    })
}

/// The environment of the constant `N`, of type 1.
fn one_item(alloc: Global) -> Result<Env<u32>, AllocError>
    ensures { IfOk result (λ e. e ≡ record { name = codes "N"; params = []; ty = 1; body = None } ∷ []) }
{
    let item = constant(alloc, b"N", 1)?;
    Env::new().push(alloc, item)
}

/// The constant `z`, of type 2, behind that one.
fn two_items(alloc: Global, one: &Env<u32>) -> Result<Env<u32>, AllocError>
    requires { one.now ≡ record { name = codes "N"; params = []; ty = 1; body = None } ∷ [] }
{
    let item = constant(alloc, b"z", 2)?;
    one.push(alloc, item)
}

/// The type of the item of a name.
fn type_of(alloc: Global, env: &Env<u32>, name: &[u8]) -> Result<Option<u32>, AllocError> {
    let name = Name::of(alloc, name)?;
    Ok(env.find(&name).map(|item| item.ty))
}

/// The types of the items of the names `N`, `z` and `s`, 0 where no item has the name.
fn types_of(alloc: Global, env: &Env<u32>) -> Result<[u32; 3], AllocError> {
    let numbers = type_of(alloc, env, b"N")?;
    let zero = type_of(alloc, env, b"z")?;
    let successor = type_of(alloc, env, b"s")?;
    Ok([
        numbers.unwrap_or(0),
        zero.unwrap_or(0),
        successor.unwrap_or(0),
    ])
}

/// The types of the items at the places 0, 1 and 2, 0 where no item has the place.
fn types_at(env: &Env<u32>) -> [u32; 3] {
    [0, 1, 2].map(|place| match env.item(place) {
        Some(item) => item.ty,
        None => 0,
    })
}

/// The types of these names and at these places, with both items.
fn found(alloc: Global) -> Result<([u32; 3], [u32; 3]), AllocError> {
    let one = one_item(alloc)?;
    let two = two_items(alloc, &one)?;
    let named = types_of(alloc, &two)?;
    Ok((named, types_at(&two)))
}

#[test]
fn an_item_is_found_by_its_name_and_its_place(rt: HostRuntime) -> Result<(), Fail> {
    let (named, placed) = found(rt.alloc())?;
    assert_eq!(rt; named, [1, 2, 0]);
    assert_eq!(rt; placed, [1, 2, 0]);
    Ok(())
}

/// The types at these places of an environment, of its fork, and of what the fork grew to.
fn grown(alloc: Global) -> Result<[[u32; 3]; 3], AllocError> {
    let one = one_item(alloc)?;
    let fork = one.fork(alloc)?;
    let two = two_items(alloc, &fork)?;
    Ok([types_at(&one), types_at(&fork), types_at(&two)])
}

#[test]
fn a_fork_of_an_environment_grows_alone(rt: HostRuntime) -> Result<(), Fail> {
    let types = grown(rt.alloc())?;
    assert_eq!(rt; types, [[1, 0, 0], [1, 0, 0], [1, 2, 0]]);
    Ok(())
}

#[test]
fn a_fork_of_metavariables_grows_alone(rt: HostRuntime) -> Result<(), Fail> {
    let alloc = rt.alloc();
    let mut terms = TreeTerms::new(alloc)?;
    let star = star(alloc, &mut terms)?;
    let none = Metas::new();
    match declare_closed(alloc, &none, &terms, star) {
        Ok((one, _)) => {
            let fork = one.fork(alloc)?;
            match declare_closed(alloc, &fork, &terms, star) {
                Ok((two, number)) => {
                    assert_eq!(rt; number, 1);
                    assert_eq!(rt; two.next(), 2);
                    assert!(rt; matches!(two.decl(0), Some(decl) if decl.ty == star));
                    assert_eq!(rt; one.next(), 1);
                    assert_eq!(rt; fork.next(), 1);
                }
                Err(_) => assert!(rt; false),
            }
        }
        Err(_) => assert!(rt; false),
    }
    Ok(())
}

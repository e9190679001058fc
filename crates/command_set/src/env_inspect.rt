//! `env.inspect` and `env.catalog`.

ghost use Rattle.std.specs.Prelude.{◌≡◌, ◌++◌, IfOk, OnOk, map, reverse, option_map};
ghost use Rattle.json.specs.Print.{quoted};
ghost use Rattle.term_syntax.specs.ReadsBack.{IsContext};
ghost use Rattle.conversion.specs.Globals.{IsItemOf, IsOptional};
ghost use Rattle.meta_context.specs.Entered.{names_of};
ghost use Rattle.meta_context.specs.Plain.{plain_item};
ghost use Rattle.reply_text.specs.Members.{body_text};
ghost use Rattle.command_set.specs.Inspect as spec;

use crate::environment::Environment;
use ld_terms::{Item, List, Name, Terms};
use meta_context::Env;
use repl_json::{Body, push_quoted};
use reply_text::{
    Member, Members, array_text, context_json, no_item_members, shown_names, term_json,
};
use std::alloc::{AllocError, Global};

/// Whether an item with this body is a definition or a primitive.
fn kind_of<H>(body: &Option<H>) -> &'static str
    ensures { result.now ≡ spec.kind_of body.now }
{
    match body {
        Some(_) => "def",
        None => "prim",
    }
}

/// The members of an item before `seq`.
fn front_members<T: Terms>(
    alloc: Global,
    terms: &T,
    item: &Item<T::Handle>,
) -> Result<Vec<Member>, AllocError>
    requires names { IsContext (names_of item.now.params) }
    requires held { IsItemOf (T.holds terms.now) item.now }
    ensures { IfOk result (λ v. v.items ≡ spec.front (plain_item (T.means terms.now) item.now)) }
{
    let kind = Member::string(alloc, "kind", kind_of(&item.body).as_bytes())?;
    let params = context_json(alloc, terms, item.params.as_slice())?;
    Ok(vec![in alloc; kind, Member::new("params", params)]?)
}

/// Adds the member that shows a definition's body.
fn push_value<T: Terms>(
    alloc: Global,
    members: &mut Vec<Member>,
    terms: &T,
    names: &[Name],
    body: Option<T::Handle>,
) -> Result<(), AllocError>
    requires names { IsContext names.now }
    requires held { IsOptional (T.holds terms.now) body }
    ensures { OnOk result (members.new.items ≡ members.old.items ++ spec.value_of names.now (option_map (T.means terms.now) body)) }
{
    match body {
        None => Ok(()),
        Some(body) => {
            let value = Member::new("value", term_json(alloc, terms, names, body)?);
            members.push(value)?;
            Ok(())
        }
    }
}

/// The members of an item behind `seq`.
fn back_members<T: Terms>(
    alloc: Global,
    terms: &T,
    item: &Item<T::Handle>,
) -> Result<Vec<Member>, AllocError>
    requires names { IsContext (names_of item.now.params) }
    requires held { IsItemOf (T.holds terms.now) item.now }
    ensures { IfOk result (λ v. v.items ≡ spec.back (plain_item (T.means terms.now) item.now)) }
{
    let names = shown_names(alloc, item.params.as_slice())?;
    let ty = Member::new("type", term_json(alloc, terms, &names, item.ty)?);
    let mut members = vec![in alloc; ty]?;
    push_value(alloc, &mut members, terms, &names, item.body)?;
    Ok(members)
}

/// An item with its parameters.
#[tactic(auto, unfolding(crate::specs::Inspect::item_members))]
fn item_members<T: Terms>(
    alloc: Global,
    terms: &T,
    item: &Item<T::Handle>,
) -> Result<Members, AllocError>
    requires names { IsContext (names_of item.now.params) }
    requires held { IsItemOf (T.holds terms.now) item.now }
    ensures { IfOk result (λ m. m ≡ spec.item_members (plain_item (T.means terms.now) item.now)) }
{
    Ok(Members {
        before: List::of(front_members(alloc, terms, item)?),
        after: List::of(back_members(alloc, terms, item)?),
    })
}

/// The reply that shows the item of a name. Fails for want of memory alone.
#[tactic(auto, unfolding(crate::specs::Inspect::inspect))]
pub fn inspect<T: Terms + Drop>(
    alloc: Global,
    env: &Environment<T>,
    name: &[u8],
) -> Result<Body, AllocError>
    ensures { IfOk result (λ b. b ≡ body_text (spec.inspect env.now name.now)) }
{
    let stored = env.stored();
    let wanted = Name::of(alloc, name)?;
    match stored.items.find(&wanted) {
        Some(item) => item_members(alloc, &stored.terms, item)?.to_body(alloc),
        None => no_item_members(alloc, name)?.to_body(alloc),
    }
}

/// A name as a JSON string.
fn quoted_name(alloc: Global, name: &Name) -> Result<Vec<u8>, AllocError>
    ensures { IfOk result (λ v. v.items ≡ quoted name.now) }
{
    let mut text = Vec::new(alloc);
    push_quoted(&mut text, name.as_bytes())?;
    Ok(text)
}

/// The names of all items as JSON strings, in the order of their entry.
#[tactic(auto, using(crate::proofs::Shown::next_name, crate::proofs::Shown::no_item))]
fn quoted_names<H: Copy>(alloc: Global, items: &Env<H>) -> Result<Vec<Vec<u8>>, AllocError>
    ensures { IfOk result (λ v. map (λ x. x.items) v.items ≡ map (λ i. quoted i.name) (reverse items.now)) }
{
    let mut names = Vec::new(alloc);
    for place in 0..items.len() {
        match items.item(place) {
            Some(item) => names.push(quoted_name(alloc, &item.name)?)?,
            None => unreachable!(),
        }
    }
    Ok(names)
}

/// The reply that lists the names of all items in the order of their entry. Fails for want of memory alone.
#[tactic(auto, unfolding(crate::specs::Inspect::catalog))]
pub fn catalog<T: Terms + Drop>(alloc: Global, env: &Environment<T>) -> Result<Body, AllocError>
    ensures { IfOk result (λ b. b ≡ body_text (spec.catalog env.now)) }
{
    let names = quoted_names(alloc, &env.stored().items)?;
    let names = Member::new("names", array_text(alloc, &names)?);
    Members::before(alloc, vec![in alloc; names]?).to_body(alloc)
}

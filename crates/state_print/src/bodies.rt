//! The replies that show a state.

ghost use Rattle.std.specs.Prelude.{◌≡◌, ◌∷◌, [], ◌++◌, IfOk, OnOk, option_map};
ghost use Rattle.state_print.specs.Bodies as spec;

use crate::text::StateText;
use ld_terms::{Bytes, List};
use repl_json::Body;
use reply_text::{Member, Members};
use std::alloc::{AllocError, Global};

/// The JSON text of a truth value.
fn bool_text(value: bool) -> &'static str
    ensures { result.now ≡ spec.bool_text value }
{
    if value { "true" } else { "false" }
}

/// The reply that makes a state up to the number of entries.
fn made_front(alloc: Global, dormant: &[u8], goals: &[u8]) -> Result<Vec<u8>, AllocError>
    ensures { IfOk result (λ v. v.items ≡ spec.made_front dormant.now goals.now) }
{
    let mut text = Vec::from_slice(alloc, b"{\"dormant\":")?;
    text.extend_from_slice(dormant)?;
    text.extend_from_slice(b",\"goals\":")?;
    text.extend_from_slice(goals)?;
    text.extend_from_slice(b",\"seq\":")?;
    Ok(text)
}

/// The same reply between the number of entries and the state's new id.
fn made_middle(alloc: Global, solved: bool) -> Result<Vec<u8>, AllocError>
    ensures { IfOk result (λ v. v.items ≡ spec.made_middle solved) }
{
    let mut text = Vec::from_slice(alloc, b",\"solved\":")?;
    text.extend_from_slice(bool_text(solved).as_bytes())?;
    text.extend_from_slice(b",\"stateId\":")?;
    Ok(text)
}

/// The reply that makes a state, with gaps for the number of entries and for the state's new id: `dormant`, `goals`, `seq`, `solved`, `stateId`.
///
/// Fails for want of memory alone.
pub fn made_body(alloc: Global, text: &StateText) -> Result<Body, AllocError>
    ensures { IfOk result (λ b. b ≡ spec.made_body text.now) }
{
    Ok(Body {
        first: List::of(made_front(alloc, text.dormant.as_slice(), text.goals.as_slice())?),
        second: List::of(made_middle(alloc, text.solved)?),
        third: List::of(Vec::from_slice(alloc, b"}")?),
        id_first: false,
    })
}

/// A member whose value is a JSON text.
fn member_of(alloc: Global, key: &'static str, text: &[u8]) -> Result<Member, AllocError>
    ensures { IfOk result (λ m. m ≡ record { key = key.now; value = text.now }) }
{
    Ok(Member::new(key, Vec::from_slice(alloc, text)?))
}

/// Adds the member that shows the proof, where there is one.
fn push_term(
    alloc: Global,
    members: &mut Vec<Member>,
    term: &Option<Bytes>,
) -> Result<(), AllocError>
    ensures { OnOk result (members.new.items ≡ members.old.items ++ spec.term_member term.now) }
{
    match term {
        None => Ok(()),
        Some(term) => {
            members.push(member_of(alloc, "term", term.as_slice())?)?;
            Ok(())
        }
    }
}

/// The reply that prints a state, with a gap for the number of entries: `dormant`, `goals`, `seq`, `solved`, for a solved state `term`, and `type`.
///
/// Fails for want of memory alone.
pub fn printed_body(alloc: Global, text: &StateText) -> Result<Body, AllocError>
    ensures { IfOk result (λ b. b ≡ spec.printed_body text.now) }
{
    let dormant = member_of(alloc, "dormant", text.dormant.as_slice())?;
    let goals = member_of(alloc, "goals", text.goals.as_slice())?;
    let solved = member_of(alloc, "solved", bool_text(text.solved).as_bytes())?;
    let mut after = vec![in alloc; solved]?;
    push_term(alloc, &mut after, &text.term)?;
    after.push(member_of(alloc, "type", text.ty.as_slice())?)?;
    let members = Members {
        before: List::of(vec![in alloc; dormant, goals]?),
        after: List::of(after),
    };
    members.to_body(alloc)
}

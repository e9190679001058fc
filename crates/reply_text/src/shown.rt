//! Terms in replies.

ghost use Rattle.std.specs.Prelude.{◌≡◌, ◌<◌, IfOk};
ghost use Rattle.term_syntax.specs.ReadsBack.{IsContext};
ghost use Rattle.reply_text.specs.Shown as spec;

use crate::members::{Member, Members};
use ld_terms::{Name, Terms};
use repl_json::push_quoted;
use std::alloc::{AllocError, Global};
use term_text::{Printed, level_name, print_term};

/// The JSON text of a term in a context of named entries: its printed text as a string, or its size as an object where it has more
/// than 65,536 nodes or a depth above 512. Fails for want of memory alone.
#[tactic(auto, unfolding(crate::specs::Shown::term_json))]
pub fn term_json<T: Terms>(
    alloc: Global,
    terms: &T,
    names: &[Name],
    h: T::Handle,
) -> Result<Vec<u8>, AllocError>
    requires held { T.holds terms.now h }
    requires context { IsContext names.now }
    ensures { IfOk result (λ v. v.items ≡ spec.term_json names.now (T.means terms.now h)) }
{
    match print_term(alloc, terms, names, h)? {
        Printed::Text(text) => {
            let mut out = Vec::new(alloc);
            push_quoted(&mut out, text.as_slice())?;
            Ok(out)
        }
        Printed::Large { depth, nodes } => size_json(alloc, depth, nodes),
    }
}

/// The size of a term as an object.
fn size_json(alloc: Global, depth: u64, nodes: u64) -> Result<Vec<u8>, AllocError>
    ensures { IfOk result (λ v. v.items ≡ spec.size_json depth nodes) }
{
    let before = vec![in alloc;
        Member::number(alloc, "depth", depth)?,
        Member::number(alloc, "nodes", nodes)?,
    ]?;
    Members::before(alloc, before).to_object(alloc)
}

/// The level names of a context of so many entries. Fails for want of memory alone.
#[tactic(auto, using(crate::proofs::Lists::levels_more))]
pub fn level_names(alloc: Global, depth: u32) -> Result<Vec<Name>, AllocError>
    ensures { IfOk result (λ v. v.items ≡ spec.level_names depth) }
{
    let mut names = Vec::new(alloc);
    for level in 0..depth {
        names.push(level_name(alloc, level as u64)?)?;
    }
    Ok(names)
}

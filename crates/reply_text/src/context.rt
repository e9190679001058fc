//! Contexts in replies.

ghost use Rattle.std.specs.Prelude.{◌≡◌, ◌++◌, ◌<◌, [], ◌∷◌, map, flat_map, take, length, slice_index_or, IfOk, OnOk};
ghost use Rattle.ld_trees.specs.Term.{Star};
ghost use Rattle.std.specs.List.{list_any};
ghost use Rattle.std.specs.Str.{bytes_eq};
ghost use Rattle.term_syntax.specs.Printing.{entry_text};
ghost use Rattle.term_syntax.specs.ReadsBack.{IsContext};
ghost use Rattle.reply_text.specs.Context as spec;
ghost use Rattle.ld_terms.specs.Names.{IsEntryName};
ghost use Rattle.conversion.specs.Globals.{AreLocals};

use crate::members::{Member, Members};
use crate::shown::term_json;
use ld_terms::{Local, Name, Terms};
use std::alloc::{AllocError, Global};
use term_text::level_name;

/// Whether an entry has a name.
fn has_name<H>(entries: &[Local<H>], name: &Name) -> bool
    ensures { result ≡ list_any (λ l. bytes_eq name.now l.name) entries.now }
{
    entries
        .iter()
        .any(|entry| name.as_bytes() == entry.name.as_bytes())
}

/// What the entry of a level prints as in its whole context: its name where no later entry has it, else its level name.
fn shown_name<H>(
    alloc: Global,
    level: u32,
    name: &Name,
    later: &[Local<H>],
) -> Result<Name, AllocError>
    requires { IsEntryName level name.now }
    ensures { IfOk result (λ n. n ≡ entry_text level name.now (map (λ l. l.name) later.now)) }
{
    if has_name(later, name) {
        level_name(alloc, level as u64)
    } else {
        name.copy(alloc)
    }
}

/// The names that the variables of a context print as in the whole of it, the first entry first. Fails for want of memory alone.
#[tactic(auto, unfolding(crate::specs::Context::shown_names))]
pub fn shown_names<H>(alloc: Global, ctx: &[Local<H>]) -> Result<Vec<Name>, AllocError>
    requires { IsContext (map (λ l. l.name) ctx.now) }
    ensures value { IfOk result (λ v. v.items ≡ spec.shown_names (map (λ l. l.name) ctx.now)) }
    // They are names of a context with as many entries.
    ensures context { IfOk result (λ v. IsContext v.items) }
    ensures counted { IfOk result (λ v. length v.items ≡ length ctx.now) }
{
    let mut names = Vec::new(alloc);
    let mut level: u32 = 0;
    let mut rest = ctx;
    'entries: while let [entry, later @ ..] = rest {
        names.push(shown_name(alloc, level, &entry.name, later)?)?;
        level += 1;
        rest = later;
    }
    Ok(names)
}

/// Adds values, each behind a comma.
#[tactic(auto, using(repl_json::proofs::PartLemmas::flat_map_more))]
fn push_rest(out: &mut Vec<u8>, values: &[Vec<u8>]) -> Result<(), AllocError>
    ensures { OnOk result (out.new.items ≡ out.old.items ++ flat_map (λ y. 44 ∷ y) (map (λ x. x.items) values.now)) }
{
    for value in values {
        out.push(b',')?;
        out.extend_from_slice(value)?;
    }
    Ok(())
}

/// Adds values with a comma between them.
fn push_values(out: &mut Vec<u8>, values: &[Vec<u8>]) -> Result<(), AllocError>
    ensures { OnOk result (out.new.items ≡ out.old.items ++ spec.between_commas (map (λ x. x.items) values.now)) }
{
    match values {
        [] => Ok(()),
        [first, rest @ ..] => {
            out.extend_from_slice(first)?;
            push_rest(out, rest)
        }
    }
}

/// A JSON list of texts of values. Fails for want of memory alone.
pub fn array_text(alloc: Global, values: &[Vec<u8>]) -> Result<Vec<u8>, AllocError>
    ensures { IfOk result (λ v. v.items ≡ spec.array_text (map (λ x. x.items) values.now)) }
{
    let mut out = Vec::new(alloc);
    out.push(b'[')?;
    push_values(&mut out, values)?;
    out.push(b']')?;
    Ok(out)
}

/// An entry below others, of which these are the names that they print as.
fn entry_json<T: Terms>(
    alloc: Global,
    terms: &T,
    before: &[Name],
    name: &Name,
    ty: T::Handle,
) -> Result<Vec<u8>, AllocError>
    requires context { IsContext before.now }
    requires held { T.holds terms.now ty }
    ensures { IfOk result (λ v. v.items ≡ spec.entry_json before.now name.now (T.means terms.now ty)) }
{
    let name = Member::string(alloc, "name", name.as_bytes())?;
    let ty = Member::new("type", term_json(alloc, terms, before, ty)?);
    Members::before(alloc, vec![in alloc; name, ty]?).to_object(alloc)
}

/// The entry at a place of a context, of whose entries these are the names that they print as.
fn entry_at<T: Terms>(
    alloc: Global,
    terms: &T,
    names: &[Name],
    ctx: &[Local<T::Handle>],
    place: usize,
) -> Result<Vec<u8>, AllocError>
    requires context { IsContext names.now }
    requires counted { length names.now ≡ length ctx.now }
    requires held { AreLocals (T.holds terms.now) ctx.now }
    requires within { place < length ctx.now }
    ensures { IfOk result (λ v. v.items ≡ spec.entry_json (take place names.now) (slice_index_or names.now place []) (slice_index_or (map (λ l. T.means terms.now l.ty) ctx.now) place Star)) }
{
    entry_json(alloc, terms, &names[..place], &names[place], ctx[place].ty)
}

/// The entries of a context with the names that they print as, as a JSON list. Fails for want of memory alone.
#[tactic(auto, unfolding(crate::specs::Context::context_json))]
pub fn context_json<T: Terms>(
    alloc: Global,
    terms: &T,
    ctx: &[Local<T::Handle>],
) -> Result<Vec<u8>, AllocError>
    requires context { IsContext (map (λ l. l.name) ctx.now) }
    requires held { AreLocals (T.holds terms.now) ctx.now }
    ensures { IfOk result (λ v. v.items ≡ spec.context_json (map (λ l. l.name) ctx.now) (map (λ l. T.means terms.now l.ty) ctx.now)) }
{
    let names = shown_names(alloc, ctx)?;
    let mut entries = Vec::new(alloc);
    for place in 0..ctx.len() {
        entries.push(entry_at(alloc, terms, &names, ctx, place)?)?;
    }
    array_text(alloc, &entries)
}

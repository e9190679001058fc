//! Printing of terms.

ghost use Rattle.std.specs.Prelude.{◌≡◌, ◌<◌, ◌+◌, ◌^◌, ◌++◌, [], All, map, length, drop, slice_index_or, OnOk, IfOk};
ghost use Rattle.std.specs.List.{list_any};
ghost use Rattle.std.specs.Str.{bytes_eq};
ghost use Rattle.ld_trees.specs.Term.{Pi, Meta, depth, depth_all};
ghost use Rattle.ld_terms.specs.Names.{level_name};
ghost use Rattle.ld_terms.specs.Views.{terms_of};
ghost use Rattle.term_syntax.specs.Printing as spec;
ghost use Rattle.ld_trees.specs.Scoping.{Scoped};
ghost use Rattle.term_syntax.specs.ReadsBack.{IsContext, NamedFrom, HasTextNames};
ghost use Rattle.term_text.specs.Printed.{printed_as, PrintedReadsBack, PrintedIsAscii};

use itoa::Buffer;
use ld_terms::{Bytes, List, Name, Terms, View};
use std::alloc::{AllocError, Global};

/// A printed term.
#[derive(Debug, Drop)]
pub enum Printed {
    /// The term's text.
    Text(Bytes),
    /// The size of a term that has more than 65,536 nodes or a depth above 512, each number at most 18,446,744,073,709,551,615.
    Large { depth: u64, nodes: u64 },
}

const MAX_NODES: u64 = 65_536;

const MAX_DEPTH: u64 = 512;

/// The text of a term in a context whose entries have these names, or its size exactly where it has more than 65,536 nodes or a depth
/// above 512.
///
/// Each name has to be a name of the texts or the level name of its own level, and there are fewer than 999,999,000 of them. Fails for
/// want of memory alone.
pub fn print_term<T: Terms>(
    alloc: Global,
    terms: &T,
    names: &[Name],
    h: T::Handle,
) -> Result<Printed, AllocError>
    requires held { T.holds terms.now h }
    requires context { IsContext names.now }
    // The text, or the size of a term that is too large.
    ensures exact { IfOk result (λ p. p ≡ printed_as names.now (T.means terms.now h)) }
    // Where each variable that no binder of the term binds stands for one of the names, what is printed is read again as the same term.
    ensures reads_back { Scoped (length names.now) (T.means terms.now h) → IfOk result (λ p. PrintedReadsBack names.now (T.means terms.now h) p) }
    // The text is ASCII where the term's constants have names of the texts.
    ensures ascii { IfOk result (λ p. HasTextNames (T.means terms.now h) → PrintedIsAscii p) }
{
    print_any(alloc, terms, names, h)
}

fn print_any<T: Terms>(
    alloc: Global,
    terms: &T,
    names: &[Name],
    h: T::Handle,
) -> Result<Printed, AllocError>
    requires held { T.holds terms.now h }
    requires context { IsContext names.now }
    ensures { IfOk result (λ p. p ≡ printed_as names.now (T.means terms.now h)) }
{
    let depth = terms.depth(h);
    let nodes = terms.nodes(h);
    if nodes > MAX_NODES || depth > MAX_DEPTH {
        return Ok(Printed::Large { depth, nodes });
    }
    let mut out = Vec::new(alloc);
    print_node(&mut out, terms, names, h, names.len() as u64)?;
    Ok(Printed::Text(List::of(out)))
}

// ---- shapes of terms

fn is_binder<T: Terms>(terms: &T, h: T::Handle) -> bool
    requires { T.holds terms.now h }
    ensures { result ≡ spec.is_binder (T.means terms.now h) }
{
    match terms.node(h) {
        View::Lam(_, _) => true,
        View::Pi(_, _) => true,
        _ => false,
    }
}

fn is_application<T: Terms>(terms: &T, h: T::Handle) -> bool
    requires { T.holds terms.now h }
    ensures { result ≡ spec.is_application (T.means terms.now h) }
{
    match terms.node(h) {
        View::App(_, _) => true,
        _ => false,
    }
}

#[cycle(occurs)]
fn occurs<T: Terms>(terms: &T, h: T::Handle, i: u64) -> bool
    requires held { T.holds terms.now h }
    requires fits { i + depth (T.means terms.now h) < 2 ^ 64 }
    ensures { result ≡ spec.occurs i (T.means terms.now h) }
{
    match terms.node(h) {
        View::Star => false,
        View::Square => false,
        View::Var(j) => u64::from(j) == i,
        View::App(f, a) => occurs(terms, f, i) || occurs(terms, a, i),
        View::Lam(a, m) => occurs(terms, a, i) || occurs(terms, m, i + 1),
        View::Pi(a, b) => occurs(terms, a, i) || occurs(terms, b, i + 1),
        View::Const(_, us) => occurs_in(terms, us, i),
        View::Meta(_, us) => occurs_in(terms, us, i),
    }
}

#[cycle(occurs)]
fn occurs_in<T: Terms>(terms: &T, us: &[T::Handle], i: u64) -> bool
    requires held { All (T.holds terms.now) us.now }
    requires fits { i + depth_all (terms_of (map (T.means terms.now) us.now)) < 2 ^ 64 }
    ensures { result ≡ spec.occurs_in i (terms_of (map (T.means terms.now) us.now)) }
{
    for u in us {
        if occurs(terms, *u, i) {
            return true;
        }
    }
    false
}

// ---- texts

fn put(out: &mut Vec<u8>, bytes: &[u8]) -> Result<(), AllocError>
    ensures { OnOk result (out.new.items ≡ out.old.items ++ bytes.now) }
{
    out.extend_from_slice(bytes)
}

pub(crate) fn put_level(out: &mut Vec<u8>, level: u64) -> Result<(), AllocError>
    ensures { OnOk result (out.new.items ≡ out.old.items ++ level_name level) }
{
    let mut buffer = Buffer::new();
    put(out, b"%")?;
    put(out, buffer.format(level).as_bytes())
}

/// The level name `%k` of a level. Fails for want of memory alone.
pub fn level_name(alloc: Global, level: u64) -> Result<Name, AllocError>
    ensures { IfOk result (λ n. n ≡ level_name level) }
{
    let mut text = Vec::new(alloc);
    put_level(&mut text, level)?;
    Name::of(alloc, &text)
}

/// Whether a later entry has the name of the entry at a place.
fn is_hidden(names: &[Name], place: usize) -> bool
    requires { place < length names.now }
    ensures { result ≡ list_any (bytes_eq (slice_index_or names.now place [])) (drop (place + 1) names.now) }
{
    has_name(&names[place + 1..], names[place].as_bytes())
}

/// Whether an entry has this name.
fn has_name(names: &[Name], name: &[u8]) -> bool
    ensures { result ≡ list_any (bytes_eq name.now) names.now }
{
    names.iter().any(|entry| name == entry.as_bytes())
}

fn put_variable(out: &mut Vec<u8>, names: &[Name], below: u64, i: u32) -> Result<(), AllocError>
    requires { NamedFrom 0 names.now }
    ensures { OnOk result (out.new.items ≡ out.old.items ++ spec.variable_text names.now below i) }
{
    let level = below.saturating_sub(u64::from(i) + 1);
    if level >= names.len() as u64 || is_hidden(names, level as usize) {
        return put_level(out, level);
    }
    put(out, names[level as usize].as_bytes())
}

#[cycle(print)]
fn print_binder<T: Terms>(
    out: &mut Vec<u8>,
    terms: &T,
    names: &[Name],
    domain: T::Handle,
    k: u64,
) -> Result<(), AllocError>
    requires held { T.holds terms.now domain }
    requires named { NamedFrom 0 names.now }
    requires fits { k + depth (T.means terms.now domain) < 2 ^ 64 }
    ensures { OnOk result (out.new.items ≡ out.old.items ++ spec.binder_text k (spec.text names.now k (T.means terms.now domain))) }
{
    put(out, b"(")?;
    put_level(out, k)?;
    put(out, b" : ")?;
    print_node(out, terms, names, domain, k)?;
    put(out, b")")
}

#[cycle(print)]
fn print_inside<T: Terms>(
    out: &mut Vec<u8>,
    stands: bool,
    terms: &T,
    names: &[Name],
    h: T::Handle,
    k: u64,
) -> Result<(), AllocError>
    requires held { T.holds terms.now h }
    requires named { NamedFrom 0 names.now }
    requires fits { k + depth (T.means terms.now h) < 2 ^ 64 }
    ensures { OnOk result (out.new.items ≡ out.old.items ++ spec.in_parentheses stands (spec.text names.now k (T.means terms.now h))) }
{
    if !stands {
        return print_node(out, terms, names, h, k);
    }
    put(out, b"(")?;
    print_node(out, terms, names, h, k)?;
    put(out, b")")
}

#[cycle(print)]
fn print_each<T: Terms>(
    out: &mut Vec<u8>,
    terms: &T,
    names: &[Name],
    us: &[T::Handle],
    k: u64,
) -> Result<(), AllocError>
    requires held { All (T.holds terms.now) us.now }
    requires named { NamedFrom 0 names.now }
    requires fits { k + depth_all (terms_of (map (T.means terms.now) us.now)) < 2 ^ 64 }
    ensures { OnOk result (out.new.items ≡ out.old.items ++ spec.texts names.now k (terms_of (map (T.means terms.now) us.now))) }
{
    for (i, u) in us.iter().enumerate() {
        if i > 0 {
            put(out, b", ")?;
        }
        print_node(out, terms, names, *u, k)?;
    }
    Ok(())
}

#[cycle(print)]
fn print_product<T: Terms>(
    out: &mut Vec<u8>,
    terms: &T,
    names: &[Name],
    domain: T::Handle,
    codomain: T::Handle,
    k: u64,
) -> Result<(), AllocError>
    requires domain { T.holds terms.now domain }
    requires codomain { T.holds terms.now codomain }
    requires named { NamedFrom 0 names.now }
    requires fits { k + depth (Pi (T.means terms.now domain) (T.means terms.now codomain)) < 2 ^ 64 }
    ensures { OnOk result (out.new.items ≡ out.old.items ++ spec.text names.now k (Pi (T.means terms.now domain) (T.means terms.now codomain))) }
{
    if occurs(terms, codomain, 0) {
        print_binder(out, terms, names, domain, k)?;
    } else {
        print_inside(out, is_binder(terms, domain), terms, names, domain, k)?;
    }
    put(out, b" -> ")?;
    print_node(out, terms, names, codomain, k + 1)
}

#[cycle(print)]
fn print_meta<T: Terms>(
    out: &mut Vec<u8>,
    terms: &T,
    names: &[Name],
    m: u32,
    us: &[T::Handle],
    k: u64,
) -> Result<(), AllocError>
    requires held { All (T.holds terms.now) us.now }
    requires named { NamedFrom 0 names.now }
    requires fits { k + depth_all (terms_of (map (T.means terms.now) us.now)) < 2 ^ 64 }
    ensures { OnOk result (out.new.items ≡ out.old.items ++ spec.text names.now k (Meta m (terms_of (map (T.means terms.now) us.now)))) }
{
    let mut buffer = Buffer::new();
    put(out, b"?")?;
    put(out, buffer.format(m).as_bytes())?;
    put(out, b"[")?;
    print_each(out, terms, names, us, k)?;
    put(out, b"]")
}

#[cycle(print)]
fn print_node<T: Terms>(
    out: &mut Vec<u8>,
    terms: &T,
    names: &[Name],
    h: T::Handle,
    k: u64,
) -> Result<(), AllocError>
    requires held { T.holds terms.now h }
    requires named { NamedFrom 0 names.now }
    requires fits { k + depth (T.means terms.now h) < 2 ^ 64 }
    ensures { OnOk result (out.new.items ≡ out.old.items ++ spec.text names.now k (T.means terms.now h)) }
{
    match terms.node(h) {
        View::Star => put(out, b"*"),
        View::Square => put(out, b"#"),
        View::Var(i) => put_variable(out, names, k, i),
        View::App(f, a) => {
            print_inside(out, is_binder(terms, f), terms, names, f, k)?;
            put(out, b" ")?;
            let stands = is_binder(terms, a) || is_application(terms, a);
            print_inside(out, stands, terms, names, a, k)
        }
        View::Lam(domain, body) => {
            put(out, b"fun ")?;
            print_binder(out, terms, names, domain, k)?;
            put(out, b" => ")?;
            print_node(out, terms, names, body, k + 1)
        }
        View::Pi(domain, codomain) => print_product(out, terms, names, domain, codomain, k),
        View::Const(name, us) => {
            put(out, name.as_bytes())?;
            put(out, b"(")?;
            print_each(out, terms, names, us, k)?;
            put(out, b")")
        }
        View::Meta(m, us) => print_meta(out, terms, names, m, us, k),
    }
}

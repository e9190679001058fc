//! The first bad variable of a term, and where it stands.

ghost use Rattle.std.specs.Prelude.{◌≡◌, ◌-◌, IfOk, All, map};
ghost use Rattle.ld_trees.specs.Term.{Var};
ghost use Rattle.ld_terms.specs.Views.{terms_of};
ghost use Rattle.goal_state.specs.State as state;
ghost use Rattle.unification.specs.Pruning as tree;
ghost use Rattle.unification.specs.Pruning.{Free};
ghost use Rattle.pattern_unify.specs.Walks as walks;
ghost use Rattle.pattern_unify.specs.Walks.{or_next, plain_spot};

use crate::variables::Allows;
use ld_terms::{Terms, View};
use meta_context::Metas;
use std::alloc::{AllocError, Global};

/// Where the first bad variable of a term stands.
#[derive(Drop)]
pub enum Spot {
    /// There is none.
    Nowhere,
    /// In no argument of an unassigned metavariable.
    Outside(u32),
    /// In arguments of an unassigned metavariable, which are marked where they hold no bad variable, the first one first.
    Inside(u32, u32, Vec<bool>),
}

/// The first variable of a term under so many binders that is neither bound by them nor allowed. Takes no memory.
///
/// There is no recursion over the arguments of an application: a term of many arguments needs no deep stack.
#[cycle(walking)]
pub fn bad_variable<T: Terms, A: Allows>(
    terms: &T,
    allowed: &A,
    under: u32,
    h: T::Handle,
) -> Result<Option<u32>, AllocError>
    requires { T.holds terms.now h }
    ensures { IfOk result (λ o. o ≡ walks.bad_variable (A.good allowed.now) under (T.means terms.now h)) }
{
    match terms.node(h) {
        View::Star | View::Square => Ok(None),
        View::Var(i) => Ok(bad_index(allowed, under, i)),
        View::App(f, a) => bad_in_application(terms, allowed, under, f, a),
        View::Lam(a, m) => {
            let below = under.checked_add(1).ok_or(AllocError)?;
            bad_in_two(terms, allowed, under, below, a, m)
        }
        View::Pi(a, b) => {
            let below = under.checked_add(1).ok_or(AllocError)?;
            bad_in_two(terms, allowed, under, below, a, b)
        }
        View::Const(_, us) => bad_in_all(terms, allowed, under, us),
        View::Meta(_, us) => bad_in_all(terms, allowed, under, us),
    }
}

/// A variable under so many binders, where it is neither bound by them nor allowed.
fn bad_index<A: Allows>(allowed: &A, under: u32, i: u32) -> Option<u32>
    ensures { result ≡ walks.bad_variable (A.good allowed.now) under (Var i) }
{
    if i < under || allowed.allows(i - under) {
        None
    } else {
        Some(i - under)
    }
}

/// The first bad variable of an application. It is walked in a loop, the last argument first.
#[cycle(walking)]
fn bad_in_application<T: Terms, A: Allows>(
    terms: &T,
    allowed: &A,
    under: u32,
    f: T::Handle,
    a: T::Handle,
) -> Result<Option<u32>, AllocError>
    requires function { T.holds terms.now f }
    requires argument { T.holds terms.now a }
    ensures { IfOk result (λ o. o ≡ or_next (walks.bad_variable (A.good allowed.now) under (T.means terms.now f)) (walks.bad_variable (A.good allowed.now) under (T.means terms.now a))) }
{
    let mut head = f;
    let mut found = bad_variable(terms, allowed, under, a)?;
    while let View::App(g, b) = terms.node(head) {
        found = bad_variable(terms, allowed, under, b)?.or(found);
        head = g;
    }
    Ok(bad_variable(terms, allowed, under, head)?.or(found))
}

/// The first bad variable of two terms, each under its own number of binders.
#[cycle(walking)]
fn bad_in_two<T: Terms, A: Allows>(
    terms: &T,
    allowed: &A,
    under: u32,
    below: u32,
    a: T::Handle,
    b: T::Handle,
) -> Result<Option<u32>, AllocError>
    requires first { T.holds terms.now a }
    requires second { T.holds terms.now b }
    ensures { IfOk result (λ o. o ≡ or_next (walks.bad_variable (A.good allowed.now) under (T.means terms.now a)) (walks.bad_variable (A.good allowed.now) below (T.means terms.now b))) }
{
    match bad_variable(terms, allowed, under, a)? {
        Some(i) => Ok(Some(i)),
        None => bad_variable(terms, allowed, below, b),
    }
}

/// The first bad variable of several terms.
#[cycle(walking)]
#[tactic(auto, using(ld_terms::proofs::Arguments::part_at))]
fn bad_in_all<T: Terms, A: Allows>(
    terms: &T,
    allowed: &A,
    under: u32,
    us: &[T::Handle],
) -> Result<Option<u32>, AllocError>
    requires { All (T.holds terms.now) us.now }
    ensures { IfOk result (λ o. o ≡ walks.bad_variable_of (A.good allowed.now) under (terms_of (map (T.means terms.now) us.now))) }
{
    for u in us {
        if let Some(i) = bad_variable(terms, allowed, under, *u)? {
            return Ok(Some(i));
        }
    }
    Ok(None)
}

/// Which terms hold no bad variable.
fn marks_of<T: Terms, A: Allows>(
    alloc: Global,
    terms: &T,
    allowed: &A,
    under: u32,
    us: &[T::Handle],
) -> Result<Vec<bool>, AllocError>
    requires { All (T.holds terms.now) us.now }
    ensures { IfOk result (λ v. v.items ≡ tree.marks_of (A.good allowed.now) under (terms_of (map (T.means terms.now) us.now))) }
{
    let mut marks = Vec::new(alloc);
    for u in us {
        let mark = bad_variable(terms, allowed, under, *u)?.is_none();
        marks.push(mark)?;
    }
    Ok(marks)
}

/// Whether a metavariable is declared and has no value.
pub fn is_open<H: Copy>(metas: &Metas<H>, m: u32) -> bool
    ensures { result ≡ state.is_open metas.now m }
{
    match metas.decl(m) {
        Some(decl) => decl.value.is_none(),
        None => false,
    }
}

/// Where the first variable of a term that isn't allowed stands. Fails for want of memory alone.
#[tactic(auto, using(crate::proofs::BadVariables::free_is))]
pub fn first_bad<T: Terms, A: Allows>(
    alloc: Global,
    terms: &T,
    metas: &Metas<T::Handle>,
    allowed: &A,
    h: T::Handle,
) -> Result<Spot, AllocError>
    requires { T.holds terms.now h }
    ensures { IfOk result (λ s. plain_spot s ≡ tree.first_bad (state.plain_metas (T.means terms.now) metas.now) (A.good allowed.now) 0 Free (T.means terms.now h)) }
{
    spot_of(alloc, terms, metas, allowed, 0, h)
}

/// Where the first bad variable of a term under so many binders stands, in no argument of an unassigned metavariable so far.
#[cycle(looking)]
fn spot_of<T: Terms, A: Allows>(
    alloc: Global,
    terms: &T,
    metas: &Metas<T::Handle>,
    allowed: &A,
    under: u32,
    h: T::Handle,
) -> Result<Spot, AllocError>
    requires { T.holds terms.now h }
    ensures { IfOk result (λ s. plain_spot s ≡ walks.free_spot (state.plain_metas (T.means terms.now) metas.now) (A.good allowed.now) under (T.means terms.now h)) }
{
    match terms.node(h) {
        View::Star | View::Square => Ok(Spot::Nowhere),
        View::Var(i) => Ok(spot_at(bad_index(allowed, under, i))),
        View::App(f, a) => spot_in_application(alloc, terms, metas, allowed, under, f, a),
        View::Lam(a, m) => {
            let below = under.checked_add(1).ok_or(AllocError)?;
            spot_in_two(alloc, terms, metas, allowed, under, below, a, m)
        }
        View::Pi(a, b) => {
            let below = under.checked_add(1).ok_or(AllocError)?;
            spot_in_two(alloc, terms, metas, allowed, under, below, a, b)
        }
        View::Const(_, us) => spot_in_all(alloc, terms, metas, allowed, under, us),
        View::Meta(m, us) => {
            if is_open(metas, m) {
                spot_inside(alloc, terms, allowed, under, m, us)
            } else {
                spot_in_all(alloc, terms, metas, allowed, under, us)
            }
        }
    }
}

/// The spot of a variable in no argument of an unassigned metavariable.
fn spot_at(found: Option<u32>) -> Spot
    ensures { plain_spot result ≡ walks.spot_outside found }
{
    match found {
        Some(i) => Spot::Outside(i),
        None => Spot::Nowhere,
    }
}

/// Where the first bad variable in arguments of an unassigned metavariable stands.
fn spot_inside<T: Terms, A: Allows>(
    alloc: Global,
    terms: &T,
    allowed: &A,
    under: u32,
    m: u32,
    us: &[T::Handle],
) -> Result<Spot, AllocError>
    requires { All (T.holds terms.now) us.now }
    ensures { IfOk result (λ s. plain_spot s ≡ walks.spot_within m (A.good allowed.now) under (terms_of (map (T.means terms.now) us.now))) }
{
    match bad_in_all(terms, allowed, under, us)? {
        Some(i) => Ok(Spot::Inside(i, m, marks_of(alloc, terms, allowed, under, us)?)),
        None => Ok(Spot::Nowhere),
    }
}

/// The first of two spots, or the second where the first is nowhere.
fn first_spot(first: Spot, second: Spot) -> Spot
    ensures { plain_spot result ≡ tree.or_spot (plain_spot first) (plain_spot second) }
{
    match first {
        Spot::Nowhere => second,
        found => found,
    }
}

/// Where the first bad variable of an application stands. It is walked in a loop, the last argument first.
#[cycle(looking)]
fn spot_in_application<T: Terms, A: Allows>(
    alloc: Global,
    terms: &T,
    metas: &Metas<T::Handle>,
    allowed: &A,
    under: u32,
    f: T::Handle,
    a: T::Handle,
) -> Result<Spot, AllocError>
    requires function { T.holds terms.now f }
    requires argument { T.holds terms.now a }
    ensures { IfOk result (λ s. plain_spot s ≡ tree.or_spot (walks.free_spot (state.plain_metas (T.means terms.now) metas.now) (A.good allowed.now) under (T.means terms.now f)) (walks.free_spot (state.plain_metas (T.means terms.now) metas.now) (A.good allowed.now) under (T.means terms.now a))) }
{
    let mut head = f;
    let mut found = spot_of(alloc, terms, metas, allowed, under, a)?;
    while let View::App(g, b) = terms.node(head) {
        found = first_spot(spot_of(alloc, terms, metas, allowed, under, b)?, found);
        head = g;
    }
    let first = spot_of(alloc, terms, metas, allowed, under, head)?;
    Ok(first_spot(first, found))
}

/// Where the first bad variable of two terms stands, each under its own number of binders.
#[cycle(looking)]
fn spot_in_two<T: Terms, A: Allows>(
    alloc: Global,
    terms: &T,
    metas: &Metas<T::Handle>,
    allowed: &A,
    under: u32,
    below: u32,
    a: T::Handle,
    b: T::Handle,
) -> Result<Spot, AllocError>
    requires first { T.holds terms.now a }
    requires second { T.holds terms.now b }
    ensures { IfOk result (λ s. plain_spot s ≡ tree.or_spot (walks.free_spot (state.plain_metas (T.means terms.now) metas.now) (A.good allowed.now) under (T.means terms.now a)) (walks.free_spot (state.plain_metas (T.means terms.now) metas.now) (A.good allowed.now) below (T.means terms.now b))) }
{
    match spot_of(alloc, terms, metas, allowed, under, a)? {
        Spot::Nowhere => spot_of(alloc, terms, metas, allowed, below, b),
        found => Ok(found),
    }
}

/// Where the first bad variable of several terms stands.
#[cycle(looking)]
#[tactic(auto, using(ld_terms::proofs::Arguments::part_at))]
fn spot_in_all<T: Terms, A: Allows>(
    alloc: Global,
    terms: &T,
    metas: &Metas<T::Handle>,
    allowed: &A,
    under: u32,
    us: &[T::Handle],
) -> Result<Spot, AllocError>
    requires { All (T.holds terms.now) us.now }
    ensures { IfOk result (λ s. plain_spot s ≡ walks.free_spot_of (state.plain_metas (T.means terms.now) metas.now) (A.good allowed.now) under (terms_of (map (T.means terms.now) us.now))) }
{
    for u in us {
        match spot_of(alloc, terms, metas, allowed, under, *u)? {
            Spot::Nowhere => {}
            found => return Ok(found),
        }
    }
    Ok(Spot::Nowhere)
}

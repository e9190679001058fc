ghost use Rattle.std.specs.Prelude.{◌≡◌, ◌-◌, ◌+◌, ◌<◌, ◌≤◌, ◌^◌, All, IfOk, IfSome, OnOk, map, length, option_map, Some};
ghost use Rattle.std.specs.BTreeMap.{get};
ghost use Rattle.ld_trees.specs.Term.{Term, Numbered, Const, Meta};
ghost use Rattle.ld_rules.specs.Expansion.{expanded};
ghost use Rattle.ld_terms.specs.Views.{Keeps, terms_of};
ghost use Rattle.conversion.specs.Globals.{IsDeclOf};
ghost use Rattle.meta_context.specs.Stored.{metas_of};
ghost use Rattle.meta_laws.specs.Unfolding as tree;
ghost use Rattle.goal_state.specs.Rounds.{unfolded, unfolded_all, value_for};
ghost use Rattle.goal_state.specs.Settling as settling;
ghost use Rattle.goal_state.specs.Settling.{Reaches, AreUnfoldings};

use crate::changing::subst_shared;
use ld_terms::{Name, Terms, View};
use meta_context::Metas;
use std::alloc::{AllocError, Global};
use std::collections::BTreeMap;

/// A term with each assigned metavariable replaced by its value, repeatedly, and nothing else reduced. Older handles keep their meaning.
/// A term that stands many times under one handle, or is the value of a metavariable used many times, is unfolded once.
///
/// Fails for want of memory alone. An index above 4,294,967,295, or as many binders above a node, count as want of memory.
pub fn unfold_metas<T: Terms>(
    alloc: Global,
    terms: &mut T,
    metas: &Metas<T::Handle>,
    h: T::Handle,
) -> Result<T::Handle, AllocError>
    requires term { T.holds terms.old h }
    requires metas { All (IsDeclOf (T.holds terms.old)) metas.now }
    ensures tree { IfOk result (λ r. T.means terms.new r ≡ tree.unfold_metas (metas_of (T.means terms.old) metas.now) (T.means terms.old h)) }
    ensures held { IfOk result (λ r. T.holds terms.new r) }
    ensures kept { Keeps (T.holds terms.old) (T.means terms.old) (T.holds terms.new) (T.means terms.new) }
{
    let mut known = BTreeMap::new(alloc);
    let unfolded = unfold(alloc, terms, metas, &mut known, metas.next(), h)?;
    Ok(unfolded.term)
}

/// What some rounds of unfolding give.
#[derive(Clone, Copy)]
struct Unfolded<H: Copy> {
    term: H,
    // from how many rounds on it stays so; `None` where the rounds ran out at an assigned metavariable
    settled: Option<u32>,
}

/// Replaces metavariables by their values, so many times over.
#[cycle(unfolding)]
fn unfold<T: Terms>(
    alloc: Global,
    terms: &mut T,
    metas: &Metas<T::Handle>,
    known: &mut BTreeMap<T::Handle, (T::Handle, u32)>,
    rounds: u32,
    h: T::Handle,
) -> Result<Unfolded<T::Handle>, AllocError>
    requires term { T.holds terms.old h }
    requires metas { All (IsDeclOf (T.holds terms.old)) metas.now }
    requires known { AreUnfoldings (T.holds terms.old) (T.means terms.old) (metas_of (T.means terms.old) metas.now) T.Handle.cmp known.old }
    ensures tree { IfOk result (λ r. Reaches (λ k. unfolded (metas_of (T.means terms.old) metas.now) k (T.means terms.old h)) rounds r.settled (T.means terms.new r.term)) }
    ensures held { IfOk result (λ r. T.holds terms.new r.term) }
    ensures known { OnOk result (AreUnfoldings (T.holds terms.new) (T.means terms.new) (metas_of (T.means terms.new) metas.now) T.Handle.cmp known.new) }
    ensures kept { Keeps (T.holds terms.old) (T.means terms.old) (T.holds terms.new) (T.means terms.new) }
{
    match terms.node(h) {
        View::Star | View::Square | View::Var(_) => Ok(leaf(h)),
        _ => unfold_once(alloc, terms, metas, known, rounds, h),
    }
}

/// Unfolds a node where the table doesn't know it, and enters it there.
#[cycle(unfolding)]
fn unfold_once<T: Terms>(
    alloc: Global,
    terms: &mut T,
    metas: &Metas<T::Handle>,
    known: &mut BTreeMap<T::Handle, (T::Handle, u32)>,
    rounds: u32,
    h: T::Handle,
) -> Result<Unfolded<T::Handle>, AllocError>
    requires term { T.holds terms.old h }
    requires metas { All (IsDeclOf (T.holds terms.old)) metas.now }
    requires known { AreUnfoldings (T.holds terms.old) (T.means terms.old) (metas_of (T.means terms.old) metas.now) T.Handle.cmp known.old }
    ensures tree { IfOk result (λ r. Reaches (λ k. unfolded (metas_of (T.means terms.old) metas.now) k (T.means terms.old h)) rounds r.settled (T.means terms.new r.term)) }
    ensures held { IfOk result (λ r. T.holds terms.new r.term) }
    ensures known { OnOk result (AreUnfoldings (T.holds terms.new) (T.means terms.new) (metas_of (T.means terms.new) metas.now) T.Handle.cmp known.new) }
    ensures kept { Keeps (T.holds terms.old) (T.means terms.old) (T.holds terms.new) (T.means terms.new) }
{
    if let Some((term, n)) = known_at(known, rounds, h) {
        return Ok(Unfolded {
            term,
            settled: Some(n),
        });
    }
    let unfolded = unfold_node(alloc, terms, metas, known, rounds, h)?;
    match unfolded.settled {
        Some(n) => {
            known.insert(h, (unfolded.term, n))?;
            Ok(unfolded)
        }
        None => Ok(unfolded),
    }
}

/// What the table has for a term, where it stays so from that many rounds on.
fn known_at<H: Copy + Ord>(known: &BTreeMap<H, (H, u32)>, rounds: u32, h: H) -> Option<(H, u32)>
    ensures entry { IfSome result (λ r. get H.cmp known.now h ≡ Some r) }
    ensures settled { IfSome result (λ r. r.1 ≤ rounds) }
{
    match known.get(&h) {
        Some(entry) => {
            if entry.1 <= rounds {
                Some(*entry)
            } else {
                None
            }
        }
        None => None,
    }
}

/// Unfolds a node by its parts.
#[cycle(unfolding)]
fn unfold_node<T: Terms>(
    alloc: Global,
    terms: &mut T,
    metas: &Metas<T::Handle>,
    known: &mut BTreeMap<T::Handle, (T::Handle, u32)>,
    rounds: u32,
    h: T::Handle,
) -> Result<Unfolded<T::Handle>, AllocError>
    requires term { T.holds terms.old h }
    requires metas { All (IsDeclOf (T.holds terms.old)) metas.now }
    requires known { AreUnfoldings (T.holds terms.old) (T.means terms.old) (metas_of (T.means terms.old) metas.now) T.Handle.cmp known.old }
    ensures tree { IfOk result (λ r. Reaches (λ k. unfolded (metas_of (T.means terms.old) metas.now) k (T.means terms.old h)) rounds r.settled (T.means terms.new r.term)) }
    ensures held { IfOk result (λ r. T.holds terms.new r.term) }
    ensures known { OnOk result (AreUnfoldings (T.holds terms.new) (T.means terms.new) (metas_of (T.means terms.new) metas.now) T.Handle.cmp known.new) }
    ensures kept { Keeps (T.holds terms.old) (T.means terms.old) (T.holds terms.new) (T.means terms.new) }
{
    match terms.node(h) {
        // `unfold` takes these before the table is asked.
        View::Star | View::Square | View::Var(_) => Ok(leaf(h)),
        View::App(f, a) => {
            let parts = unfold_two(alloc, terms, metas, known, rounds, f, a)?;
            let term = terms.make(alloc, View::App(parts.0, parts.1))?;
            Ok(Unfolded {
                term,
                settled: parts.2,
            })
        }
        View::Lam(a, m) => {
            let parts = unfold_two(alloc, terms, metas, known, rounds, a, m)?;
            let term = terms.make(alloc, View::Lam(parts.0, parts.1))?;
            Ok(Unfolded {
                term,
                settled: parts.2,
            })
        }
        View::Pi(a, b) => {
            let parts = unfold_two(alloc, terms, metas, known, rounds, a, b)?;
            let term = terms.make(alloc, View::Pi(parts.0, parts.1))?;
            Ok(Unfolded {
                term,
                settled: parts.2,
            })
        }
        View::Const(name, us) => {
            let name = name.copy(alloc)?;
            let us = Vec::from_slice(alloc, us)?;
            unfold_constant(alloc, terms, metas, known, rounds, &name, &us)
        }
        View::Meta(m, us) => {
            let us = Vec::from_slice(alloc, us)?;
            unfold_meta(alloc, terms, metas, known, rounds, m, &us)
        }
    }
}

/// A leaf, which no round changes.
fn leaf<H: Copy>(h: H) -> Unfolded<H>
    ensures term { result.term ≡ h }
    ensures settled { result.settled ≡ Some 0 }
{
    Unfolded {
        term: h,
        settled: Some(0),
    }
}

/// Unfolds a constant by its arguments.
#[cycle(unfolding)]
fn unfold_constant<T: Terms>(
    alloc: Global,
    terms: &mut T,
    metas: &Metas<T::Handle>,
    known: &mut BTreeMap<T::Handle, (T::Handle, u32)>,
    rounds: u32,
    name: &Name,
    us: &[T::Handle],
) -> Result<Unfolded<T::Handle>, AllocError>
    requires list { All (T.holds terms.old) us.now }
    requires metas { All (IsDeclOf (T.holds terms.old)) metas.now }
    requires known { AreUnfoldings (T.holds terms.old) (T.means terms.old) (metas_of (T.means terms.old) metas.now) T.Handle.cmp known.old }
    ensures tree { IfOk result (λ r. Reaches (λ k. unfolded (metas_of (T.means terms.old) metas.now) k (Const name.now (terms_of (map (T.means terms.old) us.now)))) rounds r.settled (T.means terms.new r.term)) }
    ensures held { IfOk result (λ r. T.holds terms.new r.term) }
    ensures known { OnOk result (AreUnfoldings (T.holds terms.new) (T.means terms.new) (metas_of (T.means terms.new) metas.now) T.Handle.cmp known.new) }
    ensures kept { Keeps (T.holds terms.old) (T.means terms.old) (T.holds terms.new) (T.means terms.new) }
{
    let parts = unfold_each(alloc, terms, metas, known, rounds, us)?;
    let term = terms.make(alloc, View::Const(name, &parts.0))?;
    Ok(Unfolded {
        term,
        settled: parts.1,
    })
}

/// Unfolds the two parts of a node.
#[cycle(unfolding)]
fn unfold_two<T: Terms>(
    alloc: Global,
    terms: &mut T,
    metas: &Metas<T::Handle>,
    known: &mut BTreeMap<T::Handle, (T::Handle, u32)>,
    rounds: u32,
    a: T::Handle,
    b: T::Handle,
) -> Result<(T::Handle, T::Handle, Option<u32>), AllocError>
    requires first { T.holds terms.old a }
    requires second { T.holds terms.old b }
    requires metas { All (IsDeclOf (T.holds terms.old)) metas.now }
    requires known { AreUnfoldings (T.holds terms.old) (T.means terms.old) (metas_of (T.means terms.old) metas.now) T.Handle.cmp known.old }
    ensures trees { IfOk result (λ r. let Σ = metas_of (T.means terms.old) metas.now in Reaches {X = Term × Term} (λ k. (unfolded Σ k (T.means terms.old a), unfolded Σ k (T.means terms.old b))) rounds r.2 (T.means terms.new r.0, T.means terms.new r.1)) }
    ensures held { IfOk result (λ r. T.holds terms.new r.0 × T.holds terms.new r.1) }
    ensures known { OnOk result (AreUnfoldings (T.holds terms.new) (T.means terms.new) (metas_of (T.means terms.new) metas.now) T.Handle.cmp known.new) }
    ensures kept { Keeps (T.holds terms.old) (T.means terms.old) (T.holds terms.new) (T.means terms.new) }
{
    let a = unfold(alloc, terms, metas, known, rounds, a)?;
    let b = unfold(alloc, terms, metas, known, rounds, b)?;
    Ok((a.term, b.term, later(a.settled, b.settled)))
}

/// The rounds from which on two parts stay as they are.
fn later(a: Option<u32>, b: Option<u32>) -> Option<u32>
    ensures { result ≡ settling.later a b }
{
    match a {
        Some(a) => match b {
            Some(b) => Some(a.max(b)),
            None => None,
        },
        None => None,
    }
}

/// Unfolds each term of a list.
#[cycle(unfolding)]
fn unfold_each<T: Terms>(
    alloc: Global,
    terms: &mut T,
    metas: &Metas<T::Handle>,
    known: &mut BTreeMap<T::Handle, (T::Handle, u32)>,
    rounds: u32,
    us: &[T::Handle],
) -> Result<(Vec<T::Handle>, Option<u32>), AllocError>
    requires list { All (T.holds terms.old) us.now }
    requires metas { All (IsDeclOf (T.holds terms.old)) metas.now }
    requires known { AreUnfoldings (T.holds terms.old) (T.means terms.old) (metas_of (T.means terms.old) metas.now) T.Handle.cmp known.old }
    ensures tree { IfOk result (λ r. Reaches (λ k. unfolded_all (metas_of (T.means terms.old) metas.now) k (terms_of (map (T.means terms.old) us.now))) rounds r.1 (terms_of (map (T.means terms.new) r.0.items))) }
    ensures held { IfOk result (λ r. All (T.holds terms.new) r.0.items) }
    ensures known { OnOk result (AreUnfoldings (T.holds terms.new) (T.means terms.new) (metas_of (T.means terms.new) metas.now) T.Handle.cmp known.new) }
    ensures kept { Keeps (T.holds terms.old) (T.means terms.old) (T.holds terms.new) (T.means terms.new) }
{
    let mut made = Vec::new(alloc);
    let mut settled = Some(0);
    for u in us {
        let unfolded = unfold(alloc, terms, metas, known, rounds, *u)?;
        made.push(unfolded.term)?;
        settled = later(settled, unfolded.settled);
    }
    Ok((made, settled))
}

/// Unfolds a metavariable: its arguments, and its value where it has one, with the unfolded arguments put in.
#[cycle(unfolding)]
fn unfold_meta<T: Terms>(
    alloc: Global,
    terms: &mut T,
    metas: &Metas<T::Handle>,
    known: &mut BTreeMap<T::Handle, (T::Handle, u32)>,
    rounds: u32,
    m: u32,
    us: &[T::Handle],
) -> Result<Unfolded<T::Handle>, AllocError>
    requires list { All (T.holds terms.old) us.now }
    requires metas { All (IsDeclOf (T.holds terms.old)) metas.now }
    requires known { AreUnfoldings (T.holds terms.old) (T.means terms.old) (metas_of (T.means terms.old) metas.now) T.Handle.cmp known.old }
    ensures tree { IfOk result (λ r. Reaches (λ k. unfolded (metas_of (T.means terms.old) metas.now) k (Meta m (terms_of (map (T.means terms.old) us.now)))) rounds r.settled (T.means terms.new r.term)) }
    ensures held { IfOk result (λ r. T.holds terms.new r.term) }
    ensures known { OnOk result (AreUnfoldings (T.holds terms.new) (T.means terms.new) (metas_of (T.means terms.new) metas.now) T.Handle.cmp known.new) }
    ensures kept { Keeps (T.holds terms.old) (T.means terms.old) (T.holds terms.new) (T.means terms.new) }
{
    let parts = unfold_each(alloc, terms, metas, known, rounds, us)?;
    let unfolded = parts.0.as_slice();
    let value = unfold_value(alloc, terms, metas, known, rounds, m, unfolded.len())?;
    let term = applied(alloc, terms, m, value.0, unfolded)?;
    Ok(Unfolded {
        term,
        settled: later(value.1, parts.1),
    })
}

/// A metavariable with arguments: its value with the arguments put in, where it has one.
fn applied<T: Terms>(
    alloc: Global,
    terms: &mut T,
    m: u32,
    value: Option<T::Handle>,
    us: &[T::Handle],
) -> Result<T::Handle, AllocError>
    requires list { All (T.holds terms.old) us.now }
    requires value { IfSome value (T.holds terms.old) }
    ensures tree { IfOk result (λ r. T.means terms.new r ≡ expanded (option_map (T.means terms.old) value) (Numbered m) (terms_of (map (T.means terms.old) us.now))) }
    ensures held { IfOk result (λ r. T.holds terms.new r) }
    ensures kept { Keeps (T.holds terms.old) (T.means terms.old) (T.holds terms.new) (T.means terms.new) }
{
    match value {
        Some(value) => subst_shared(alloc, terms, value, us),
        None => terms.make(alloc, View::Meta(m, us)),
    }
}

/// The unfolded value of a metavariable with that many arguments, where a round is left and it has a value.
#[cycle(unfolding)]
fn unfold_value<T: Terms>(
    alloc: Global,
    terms: &mut T,
    metas: &Metas<T::Handle>,
    known: &mut BTreeMap<T::Handle, (T::Handle, u32)>,
    rounds: u32,
    m: u32,
    count: usize,
) -> Result<(Option<T::Handle>, Option<u32>), AllocError>
    requires metas { All (IsDeclOf (T.holds terms.old)) metas.now }
    requires known { AreUnfoldings (T.holds terms.old) (T.means terms.old) (metas_of (T.means terms.old) metas.now) T.Handle.cmp known.old }
    ensures tree { IfOk result (λ r. Reaches (λ k. tree.values (metas_of (T.means terms.old) metas.now) k (Numbered m) count) rounds r.1 (option_map (T.means terms.new) r.0)) }
    ensures held { IfOk result (λ r. IfSome r.0 (T.holds terms.new)) }
    ensures known { OnOk result (AreUnfoldings (T.holds terms.new) (T.means terms.new) (metas_of (T.means terms.new) metas.now) T.Handle.cmp known.new) }
    ensures kept { Keeps (T.holds terms.old) (T.means terms.old) (T.holds terms.new) (T.means terms.new) }
{
    match value_at(metas, m, count) {
        Some(value) => {
            if rounds == 0 {
                return Ok((None, None));
            }
            let unfolded = unfold(alloc, terms, metas, known, rounds - 1, value)?;
            Ok((Some(unfolded.term), one_more(unfolded.settled)))
        }
        None => Ok((None, Some(0))),
    }
}

/// One round more.
fn one_more(settled: Option<u32>) -> Option<u32>
    requires { IfSome settled (λ n. n + 1 < 2 ^ 32) }
    ensures { result ≡ settling.one_more settled }
{
    match settled {
        Some(n) => Some(n + 1),
        None => None,
    }
}

/// The value of a metavariable whose context has that many entries.
fn value_at<H: Copy>(metas: &Metas<H>, m: u32, count: usize) -> Option<H>
    ensures { result ≡ value_for metas.now m count }
{
    match metas.decl(m) {
        Some(decl) => {
            if decl.ctx.as_slice().len() == count {
                decl.value
            } else {
                None
            }
        }
        None => None,
    }
}

//! The replies that refuse.

ghost use Rattle.std.specs.Prelude.{◌≡◌, ◌≢◌, ◌++◌, ◌∷◌, IfOk, OnOk};
ghost use Rattle.term_syntax.specs.declared.scope_fault.ScopeFault.TheVariants as scope;
ghost use Rattle.kernel_check.specs.declared.fault.KernelFault.TheVariants as kernel;
ghost use Rattle.reply_text.specs.Refusals as spec;
ghost use Rattle.reply_text.specs.Showable.{IsShowable, fault_members};
ghost use Rattle.reply_text.specs.Members.{listed};

use crate::members::{Member, Members};
use crate::shown::{level_names, term_json};
use kernel_check::KernelFault;
use ld_terms::{List, Name, Terms};
use std::alloc::{AllocError, Global};
use term_text::ScopeFault;

/// A context has fewer entries than this.
const MAX_ENTRIES: u32 = 999_999_000;

/// The member that names the error.
fn error(alloc: Global, name: &str) -> Result<Member, AllocError>
    ensures { IfOk result (λ m. m ≡ spec.error name.now) }
{
    Member::string(alloc, "error", name.as_bytes())
}

/// Adds the number of the item that is refused, if it is one.
fn push_item(alloc: Global, members: &mut Vec<Member>, item: Option<u64>) -> Result<(), AllocError>
    ensures { OnOk result (members.new.items ≡ members.old.items ++ spec.item_number item) }
{
    if let Some(item) = item {
        members.push(Member::number(alloc, "item", item)?)?;
    }
    Ok(())
}

/// A text that is none of the grammar: the place of its refusal. Fails for want of memory alone.
pub fn syntax_members(alloc: Global, at: u64) -> Result<Members, AllocError>
    ensures { IfOk result (λ m. m ≡ spec.syntax at) }
{
    let before = vec![in alloc; Member::number(alloc, "at", at)?, error(alloc, "syntax")?]?;
    Ok(Members::before(alloc, before))
}

/// An error that shows nothing more, in the item of this number if it is one. Fails for want of memory alone.
pub fn plain_members(alloc: Global, name: &str, item: Option<u64>) -> Result<Members, AllocError>
    ensures { IfOk result (λ m. m ≡ spec.plain name.now item) }
{
    let mut before = vec![in alloc; error(alloc, name)?]?;
    push_item(alloc, &mut before, item)?;
    Ok(Members::before(alloc, before))
}

/// Out of fuel. Fails for want of memory alone.
pub fn fuel_members(alloc: Global, item: Option<u64>) -> Result<Members, AllocError>
    ensures { IfOk result (λ m. m ≡ spec.out_of_fuel item) }
{
    plain_members(alloc, "fuel", item)
}

/// A name that is taken. Fails for want of memory alone.
pub fn taken_members(alloc: Global, item: Option<u64>, name: &[u8]) -> Result<Members, AllocError>
    ensures { IfOk result (λ m. m ≡ spec.name_taken item name.now) }
{
    let mut before = vec![in alloc; error(alloc, "nameTaken")?]?;
    push_item(alloc, &mut before, item)?;
    before.push(Member::string(alloc, "name", name)?)?;
    Ok(Members::before(alloc, before))
}

/// A name that no item of the environment has. Fails for want of memory alone.
pub fn no_item_members(alloc: Global, name: &[u8]) -> Result<Members, AllocError>
    ensures { IfOk result (λ m. m ≡ spec.no_item name.now) }
{
    let before = vec![in alloc;
        error(alloc, "unknownName")?,
        Member::string(alloc, "name", name)?,
    ]?;
    Ok(Members::before(alloc, before))
}

/// An error that names a metavariable. Fails for want of memory alone.
pub fn goal_members(alloc: Global, name: &str, goal: u32) -> Result<Members, AllocError>
    ensures { IfOk result (λ m. m ≡ spec.of_goal name.now goal) }
{
    let goal = Member::number(alloc, "goal", u64::from(goal))?;
    Ok(Members::before(alloc, vec![in alloc; error(alloc, name)?, goal]?))
}

/// Metavariable `goal` would be solved by a term with a variable of this level, which isn't among its arguments. Fails for want of memory
/// alone.
pub fn out_of_scope_members(alloc: Global, goal: u32, level: u32) -> Result<Members, AllocError>
    ensures { IfOk result (λ m. m ≡ spec.out_of_scope goal level) }
{
    let before = vec![in alloc;
        error(alloc, "scope")?,
        Member::number(alloc, "goal", u64::from(goal))?,
        Member::number(alloc, "level", u64::from(level))?,
    ]?;
    Ok(Members::before(alloc, before))
}

/// An index that isn't below the number of active goals, which is `count`. Fails for want of memory alone.
pub fn no_goal_members(alloc: Global, index: u64, count: u64) -> Result<Members, AllocError>
    ensures { IfOk result (λ m. m ≡ spec.no_goal index count) }
{
    let before = vec![in alloc;
        Member::number(alloc, "count", count)?,
        error(alloc, "noGoal")?,
        Member::number(alloc, "index", index)?,
    ]?;
    Ok(Members::before(alloc, before))
}

// ---- names that could not be resolved, and holes

/// A name that no variable and no item has, in the item of this number if it is one. Fails for want of memory alone.
pub fn unknown_name_members(
    alloc: Global,
    item: Option<u64>,
    at: u64,
    name: &Name,
) -> Result<Members, AllocError>
    ensures { IfOk result (λ m. m ≡ spec.unknown_name item at name.now) }
{
    let mut before = vec![in alloc;
        Member::number(alloc, "at", at)?,
        error(alloc, "unknownName")?,
    ]?;
    push_item(alloc, &mut before, item)?;
    before.push(Member::string(alloc, "name", name.as_bytes())?)?;
    Ok(Members::before(alloc, before))
}

/// A constant with another number of arguments than it has parameters, in the item of this number if it is one. Fails for want of memory
/// alone.
pub fn wrong_count_members(
    alloc: Global,
    item: Option<u64>,
    at: u64,
    name: &Name,
    given: u32,
    wanted: u32,
) -> Result<Members, AllocError>
    ensures { IfOk result (λ m. m ≡ spec.wrong_count item at name.now given wanted) }
{
    let mut before = vec![in alloc;
        Member::number(alloc, "at", at)?,
        error(alloc, "wrongCount")?,
        Member::number(alloc, "given", u64::from(given))?,
    ]?;
    push_item(alloc, &mut before, item)?;
    before.push(Member::string(alloc, "name", name.as_bytes())?)?;
    let after = vec![in alloc; Member::number(alloc, "wanted", u64::from(wanted))?]?;
    Ok(Members {
        before: List::of(before),
        after: List::of(after),
    })
}

/// A hole, in the item of this number if it is one. Fails for want of memory alone.
pub fn unsolved_members(alloc: Global, item: Option<u64>, at: u64) -> Result<Members, AllocError>
    ensures { IfOk result (λ m. m ≡ spec.unsolved item at) }
{
    let mut before = vec![in alloc; Member::number(alloc, "at", at)?, error(alloc, "unsolved")?]?;
    push_item(alloc, &mut before, item)?;
    Ok(Members::before(alloc, before))
}

/// A hole where no type is wanted. Fails for want of memory alone.
pub fn no_expected_members(alloc: Global, at: u64) -> Result<Members, AllocError>
    ensures { IfOk result (λ m. m ≡ spec.no_expected at) }
{
    let before = vec![in alloc;
        Member::number(alloc, "at", at)?,
        error(alloc, "noExpected")?,
    ]?;
    Ok(Members::before(alloc, before))
}

/// Names that could not be resolved, in the item of this number if it is one. Fails for want of memory alone.
#[tactic(auto, unfolding(crate::specs::Refusals::scoping))]
pub fn scope_members(
    alloc: Global,
    item: Option<u64>,
    fault: &ScopeFault,
) -> Result<Members, AllocError>
    ensures value { IfOk result (λ m. m ≡ spec.scoping item fault.now) }
    // Want of memory has no members.
    ensures some { IfOk result (λ m. fault.now ≢ scope.Memory) }
{
    match fault {
        ScopeFault::UnknownName { at, name } => unknown_name_members(alloc, item, *at, name),
        ScopeFault::WrongCount {
            at,
            name,
            given,
            wanted,
        } => wrong_count_members(alloc, item, *at, name, *given, *wanted),
        ScopeFault::Unsolved { at } => unsolved_members(alloc, item, *at),
        ScopeFault::Memory => Err(AllocError),
    }
}

// ---- refusals of the kernel

/// A term below so many entries, each shown by its level. A context of 999,999,000 entries has no room and counts as want of memory.
#[tactic(auto, using(crate::proofs::ContextNames::levels_context, crate::proofs::ContextNames::levels_counted))]
fn level_term<T: Terms>(
    alloc: Global,
    key: &'static str,
    terms: &T,
    depth: u32,
    h: T::Handle,
) -> Result<Member, AllocError>
    requires held { T.holds terms.now h }
    ensures { IfOk result (λ m. m ≡ spec.level_term key.now depth (T.means terms.now h)) }
{
    if depth >= MAX_ENTRIES {
        return Err(AllocError);
    }
    let names = level_names(alloc, depth)?;
    Ok(Member::new(key, term_json(alloc, terms, &names, h)?))
}

fn members_of(
    alloc: Global,
    name: &str,
    found: Option<Member>,
    item: Option<u64>,
    reduct: Option<Member>,
    after: Vec<Member>,
) -> Result<Members, AllocError>
    ensures { IfOk result (λ m. m ≡ record { before = spec.error name.now ∷ listed found ++ spec.item_number item ++ listed reduct; after = after.items }) }
{
    let mut before = vec![in alloc; error(alloc, name)?]?;
    if let Some(found) = found {
        before.push(found)?;
    }
    push_item(alloc, &mut before, item)?;
    if let Some(reduct) = reduct {
        before.push(reduct)?;
    }
    Ok(Members {
        before: List::of(before),
        after: List::of(after),
    })
}

/// A refusal of the kernel, in the item of this number if it is one, or that it ran out of fuel. Fails for want of memory alone.
#[tactic(auto, unfolding(crate::specs::Showable::fault_members, crate::specs::Refusals::kernel))]
pub fn fault_members<T: Terms>(
    alloc: Global,
    item: Option<u64>,
    terms: &T,
    fault: &KernelFault<T::Handle>,
) -> Result<Members, AllocError>
    requires showable { IsShowable (T.holds terms.now) fault.now }
    ensures value { IfOk result (λ m. m ≡ fault_members (T.means terms.now) item fault.now) }
    // Want of memory has no members.
    ensures some { IfOk result (λ m. fault.now ≢ kernel.Memory) }
{
    match fault {
        KernelFault::NotType { depth, term } => {
            let term = level_term(alloc, "term", terms, *depth, *term)?;
            let after = vec![in alloc; term]?;
            members_of(alloc, "notType", None, item, None, after)
        }
        KernelFault::NotFunction { depth, term, found } => {
            let term = level_term(alloc, "term", terms, *depth, *term)?;
            let found = level_term(alloc, "type", terms, *depth, *found)?;
            let after = vec![in alloc; term, found]?;
            members_of(alloc, "notFunction", None, item, None, after)
        }
        KernelFault::Mismatch {
            depth,
            found,
            wanted,
        } => {
            let found = level_term(alloc, "found", terms, *depth, *found)?;
            let wanted = level_term(alloc, "wanted", terms, *depth, *wanted)?;
            let after = vec![in alloc; wanted]?;
            members_of(alloc, "mismatch", Some(found), item, None, after)
        }
        KernelFault::ReductIllTyped {
            depth,
            term,
            reduct,
        } => {
            let term = level_term(alloc, "term", terms, *depth, *term)?;
            let reduct = level_term(alloc, "reduct", terms, *depth, *reduct)?;
            let after = vec![in alloc; term]?;
            members_of(alloc, "reductIllTyped", None, item, Some(reduct), after)
        }
        KernelFault::Fuel => fuel_members(alloc, item),
        KernelFault::Memory => Err(AllocError),
    }
}

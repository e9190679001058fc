//! `env.add`, and why a book or a list of items is refused.

ghost use Rattle.std.specs.Prelude.{◌≡◌, ◌≢◌, IfOk, Err, List as Listed};
ghost use Rattle.ld_trees.specs.Term.{Term};
ghost use Rattle.ld_terms.specs.declared.globals.Item.{Item};
ghost use Rattle.state_tree.specs.Value.{Gives};
ghost use Rattle.book_reader.specs.Answers.{ShowsBook};
ghost use Rattle.book_reader.specs.declared.fault.BookFault.TheVariants as book;
ghost use Rattle.book_reader.specs.Book.{BookRefusal, book_value};
ghost use Rattle.command_set.specs.Books as spec;
ghost use Rattle.command_set.specs.Shown.{IsShownFault};
ghost use Rattle.command_set.specs.Values.{added_value};

use crate::environment::Environment;
use book_reader::{BookFault, read_book};
use ld_terms::{List, Terms};
use repl_json::Body;
use reply_text::{Members, fault_members, scope_members, syntax_members, taken_members};
use state_tree::Worked;
use std::alloc::{AllocError, Global};

/// Why a book or a list of items is refused, but for the reply's `seq`. Fails for want of memory alone.
#[tactic(auto, unfolding(crate::specs::Books::book_refusal))]
pub fn book_members<T: Terms>(
    alloc: Global,
    terms: &T,
    fault: &BookFault<T::Handle>,
) -> Result<Members, AllocError>
    requires shown { IsShownFault (T.holds terms.now) fault.now }
    ensures value { (r : BookRefusal) → ShowsBook {A = Listed (Item Term)} (T.holds terms.now) (T.means terms.now) (Err r) fault.now → IfOk result (λ m. m ≡ spec.book_refusal r) }
    // Want of memory has no members.
    ensures some { IfOk result (λ m. fault.now ≢ book.Memory) }
{
    match fault {
        BookFault::Syntax { at } => syntax_members(alloc, *at),
        BookFault::NameTaken { item, name } => taken_members(alloc, Some(*item), name.as_bytes()),
        BookFault::Scope { item, fault } => scope_members(alloc, Some(*item), fault),
        BookFault::Kernel { item, fault } => fault_members(alloc, Some(*item), terms, fault),
        BookFault::Memory => Err(AllocError),
    }
}

/// The reply to added items.
fn added_body(alloc: Global) -> Result<Body, AllocError>
    ensures { IfOk result (λ b. b ≡ spec.added) }
{
    Ok(Body {
        first: List::from_slice(alloc, b"{\"envId\":")?,
        second: List::from_slice(alloc, b",\"seq\":")?,
        third: List::from_slice(alloc, b"}")?,
        id_first: true,
    })
}

/// The environment with the items of a text behind its own, each checked with so many units of fuel, and the reply; or the refusal.
/// Fails for want of memory alone.
pub fn add_items<T: Terms + Drop, S>(
    alloc: Global,
    env: &Environment<T>,
    text: &[u8],
    units: u64,
) -> Result<Worked<Environment<T>, S>, AllocError>
    ensures { IfOk result (λ w. Gives (added_value (book_value env.now units text.now)) w) }
{
    let stored = env.stored();
    let mut terms = stored.terms.fork(alloc)?;
    match read_book(alloc, &mut terms, &stored.items, units, text) {
        Ok(items) => {
            let body = added_body(alloc)?;
            Ok(Worked::NewEnv(Environment::new(alloc, terms, items)?, body))
        }
        Err(fault) => {
            let members = book_members(alloc, &terms, &fault)?;
            Ok(Worked::Said(members.to_body(alloc)?))
        }
    }
}

ghost use Rattle.std.specs.Prelude.{◌≡◌, ℕ, [], All, IfOk, Err, List as Listed};
ghost use Rattle.ld_trees.specs.Term.{Term};
ghost use Rattle.ld_rules.specs.Legality.{IsLegalEnvironment};
ghost use Rattle.ld_terms.specs.Views.{Keeps};
ghost use Rattle.ld_terms.specs.declared.globals.Item.{Item};
ghost use Rattle.conversion.specs.Globals.{env_of, IsItemOf};
ghost use Rattle.meta_context.specs.Plain.{plain_items};
ghost use Rattle.book_reader.specs.Answers.{IsBook};
ghost use Rattle.book_reader.specs.Book as spec;
ghost use Rattle.book_reader.specs.Book.{IsEntered};
ghost use Rattle.book_reader.specs.Entering.{IsStep, fault_at, fault_of};
ghost use Rattle.book_reader.specs.Grammar.{IsBookText};
ghost use Rattle.book_reader.specs.Items.{item};
ghost use Rattle.book_reader.specs.Laws.{IsRefusedAt};
ghost use Rattle.book_reader.specs.Named.{HasNames};
ghost use Rattle.book_reader.specs.declared.fault.BookFault.TheVariants.{Syntax};
ghost use Rattle.book_reader.specs.declared.source.Source.{Source as Read};

use crate::checked::ItemFault;
use crate::fault::BookFault;
use crate::items::check_item;
use crate::read::read_items;
use crate::source::Source;
use ld_terms::{Fuel, Terms};
use meta_context::Env;
use std::alloc::Global;
use term_text::ReadFault;

/// The environment that a book makes behind another one.
///
/// The whole text is read before any item is checked. Then each item in its turn: its name is new; each parameter from left to right has
/// a type, the names of which are resolved in the parameters so far, with a sort; so has the stated type; a definition's body has a
/// type that is converted with the stated one. Each item has `units` of fuel of its own. The given environment and older handles stay
/// as they were.
///
/// # Errors
///
/// See [`BookFault`]: the first refusal in this order, or want of memory, which may come at any time.
pub fn read_book<T: Terms>(
    alloc: Global,
    terms: &mut T,
    env: &Env<T::Handle>,
    units: u64,
    text: &[u8],
) -> Result<Env<T::Handle>, BookFault<T::Handle>>
    requires { All (IsItemOf (T.holds terms.old)) env.now }
    // What is accepted is a book by the grammar, the items of which made the environment.
    ensures found { IfOk result (λ e. IsEntered (plain_items (T.means terms.old) env.now) units text.now (plain_items (T.means terms.new) e)) }
    // Where the text is a book by the grammar, its items enter one after another, or the first one that is refused is answered.
    ensures only { (ss : Listed Read) → IsBookText text.now ss → IsBook (T.holds terms.new) (T.means terms.new) (spec.enter units 0 (plain_items (T.means terms.old) env.now) ss) result }
    // At the place of a refused text no book goes on.
    ensures refused { (place : ℕ) → result ≡ Err (Syntax place) → IsRefusedAt text.now place }
    // The environment or the refusal is that of the definition.
    ensures exact { IsBook (T.holds terms.new) (T.means terms.new) (spec.book_value (plain_items (T.means terms.old) env.now) units text.now) result }
    // A book behind a legal environment makes a legal one.
    ensures legal { IsLegalEnvironment (env_of (T.means terms.old) env.now []) → IfOk result (λ e. IsLegalEnvironment (env_of (T.means terms.new) e [])) }
    // Older handles mean what they meant.
    ensures kept { Keeps (T.holds terms.old) (T.means terms.old) (T.holds terms.new) (T.means terms.new) }
{
    enter_text(alloc, terms, env, units, text)
}

/// The environment behind which the items of a text have entered, each with so many units.
fn enter_text<T: Terms>(
    alloc: Global,
    terms: &mut T,
    env: &Env<T::Handle>,
    units: u64,
    text: &[u8],
) -> Result<Env<T::Handle>, BookFault<T::Handle>>
    requires { All (IsItemOf (T.holds terms.old)) env.now }
    ensures exact { IsBook (T.holds terms.new) (T.means terms.new) (spec.book_value (plain_items (T.means terms.old) env.now) units text.now) result }
    ensures kept { Keeps (T.holds terms.old) (T.means terms.old) (T.holds terms.new) (T.means terms.new) }
{
    let sources = match read_items(alloc, text) {
        Ok(sources) => sources,
        Err(fault) => return Err(unread(fault)),
    };
    enter_items(alloc, terms, env, units, sources.as_slice())
}

/// The fault of a text that isn't read.
fn unread<H: Copy>(fault: ReadFault) -> BookFault<H>
    ensures { result ≡ fault_of fault }
{
    match fault {
        ReadFault::Syntax { at } => BookFault::Syntax { at },
        ReadFault::Memory => BookFault::Memory,
    }
}

/// The environment behind which the items of a book have entered, each with so many units.
fn enter_items<T: Terms>(
    alloc: Global,
    terms: &mut T,
    env: &Env<T::Handle>,
    units: u64,
    sources: &[Source],
) -> Result<Env<T::Handle>, BookFault<T::Handle>>
    requires items { All (IsItemOf (T.holds terms.old)) env.now }
    requires named { All HasNames sources.now }
    ensures exact { IsBook (T.holds terms.new) (T.means terms.new) (spec.enter units 0 (plain_items (T.means terms.old) env.now) sources.now) result }
    ensures kept { Keeps (T.holds terms.old) (T.means terms.old) (T.holds terms.new) (T.means terms.new) }
{
    let mut made = env.fork(alloc)?;
    let mut number: u64 = 0;
    for source in sources {
        made = enter_item(alloc, terms, &made, units, number, source)?;
        number += 1;
    }
    Ok(made)
}

/// The environment with the item that a source says, which has a number in its book.
fn enter_item<T: Terms>(
    alloc: Global,
    terms: &mut T,
    env: &Env<T::Handle>,
    units: u64,
    number: u64,
    source: &Source,
) -> Result<Env<T::Handle>, BookFault<T::Handle>>
    requires items { All (IsItemOf (T.holds terms.old)) env.now }
    requires named { HasNames source.now }
    ensures step { (Δ : Listed (Item Term)) → plain_items (T.means terms.old) env.now ≡ Δ → IsStep (T.holds terms.new) (T.means terms.new) number Δ (item Δ source.now units) result }
    ensures kept { Keeps (T.holds terms.old) (T.means terms.old) (T.holds terms.new) (T.means terms.new) }
{
    let mut fuel = Fuel::new(units);
    match check_item(alloc, terms, env, &mut fuel, source) {
        Ok(item) => Ok(env.push(alloc, item)?),
        Err(fault) => Err(at_item(number, fault)),
    }
}

/// The fault of the item of that number.
fn at_item<H: Copy>(number: u64, fault: ItemFault<H>) -> BookFault<H>
    ensures { result ≡ fault_at number fault }
{
    match fault {
        ItemFault::NameTaken(name) => BookFault::NameTaken { item: number, name },
        ItemFault::Scope(fault) => BookFault::Scope {
            item: number,
            fault,
        },
        ItemFault::Kernel(fault) => BookFault::Kernel {
            item: number,
            fault,
        },
        ItemFault::Memory => BookFault::Memory,
    }
}

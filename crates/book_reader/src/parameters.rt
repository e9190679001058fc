ghost use Rattle.std.specs.Prelude.{◌≡◌, ◌++◌, ◌∷◌, [], ◌<◌, IfOk, length};
ghost use Rattle.term_syntax.specs.ReadsBack.{IsContext};
ghost use Rattle.meta_context.specs.Entered.{names_of};
ghost use Rattle.book_reader.specs.Items as spec;
ghost use Rattle.book_reader.specs.Named.{IsNamed};

use ld_terms::{List, Local, Name};
use std::alloc::{AllocError, Global};
use std::marker::Model;
use term_text::level_name;

/// How many parameters an item has at most.
const MOST: usize = 999_998_999;

/// The parameters of an item that were checked so far, the first one first. Contracts see their list. Each has a name of the texts or the
/// level name of its own level, and there are fewer than 999,999,000.
#[derive(Drop)]
pub struct Parameters<H> {
    locals: Vec<Local<H>>,
    names: Vec<Name>,
}

impl<H> Model for Parameters<H> {
    ghost use Rattle.std.specs.Prelude.{◌≡◌, List};
    ghost use Rattle.ld_terms.specs.declared.globals.Local.{Local};
    ghost use Rattle.term_syntax.specs.ReadsBack.{IsContext};
    ghost use Rattle.meta_context.specs.Entered.{names_of};

    ghost Value = { List (Local H) };

    ghost view = { λ p. p.locals.items };

    ghost invariant = { λ p. (p.names.items ≡ names_of p.locals.items) × IsContext (names_of p.locals.items) };
}

impl<H: Copy> Parameters<H> {
    /// No parameter.
    pub fn new(alloc: Global) -> Parameters<H>
        ensures { result ≡ [] }
    {
        Parameters {
            locals: Vec::new(alloc),
            names: Vec::new(alloc),
        }
    }

    /// The parameters as entries of a context.
    pub fn as_slice(&self) -> &[Local<H>]
        ensures value { result.now ≡ self.now }
        ensures few { length self.now < 999999000 }
    {
        self.locals.as_slice()
    }

    /// Their names.
    pub fn names(&self) -> &[Name]
        ensures { result.now ≡ names_of self.now }
    {
        self.names.as_slice()
    }

    /// The parameters with one more. Fails for want of memory, and where there would be 999,999,000.
    pub fn with(
        self,
        alloc: Global,
        name: &Option<Name>,
        ty: H,
    ) -> Result<Parameters<H>, AllocError>
        requires { IsNamed name.now }
        ensures { IfOk result (λ p. p ≡ self ++ record { name = spec.entry_name (length self) name.now; ty = ty } ∷ []) }
    {
        let Parameters {
            mut locals,
            mut names,
        } = self;
        if locals.len() >= MOST {
            return Err(AllocError);
        }
        let name = entry_name(alloc, locals.len(), name)?;
        names.push(name.copy(alloc)?)?;
        locals.push(Local { name, ty })?;
        Ok(Parameters { locals, names })
    }

    /// The list of the parameters.
    pub fn into_locals(self) -> List<Local<H>>
        ensures value { result ≡ self }
        ensures named { IsContext (names_of self) }
    {
        let Parameters { locals, names: _ } = self;
        List::of(locals)
    }
}

/// The name of a parameter at a level: the one that its text gives, or else the level name.
fn entry_name(alloc: Global, level: usize, name: &Option<Name>) -> Result<Name, AllocError>
    ensures { IfOk result (λ n. n ≡ spec.entry_name level name.now) }
{
    match name {
        Some(name) => name.copy(alloc),
        None => level_name(alloc, level as u64),
    }
}

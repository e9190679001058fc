ghost use Rattle.std.specs.Prelude.{◌≡◌, ◌≤◌, ◌<◌, [], ◌∷◌, ◌++◌, IfOk, length, slice_get, option_copied};
ghost use Rattle.term_syntax.specs.ReadsBack.{IsContext};
ghost use Rattle.meta_context.specs.Declaring.{assigned};
ghost use Rattle.meta_context.specs.Entered.{AreDeclared, names_of};

use crate::kept::Kept;
use ld_terms::{Decl, List, Local};
use shared_map::SharedMap;
use std::alloc::{AllocError, Global};
use std::marker::Model;

/// How many metavariables there can be.
pub const MOST_METAS: u32 = 65_536;

/// A metavariable context: the metavariables by their numbers, which count from 0.
///
/// Contracts see the list of their declarations. Each entry of a context has a name of the texts or the level name of its own level,
/// a context has fewer than 999,999,000 entries, and there are at most 65,536 metavariables (`facts` and `few` of [`Metas::next`]).
#[derive(Drop)]
pub struct Metas<H: Copy> {
    decls: SharedMap<u32, Kept<Decl<H>>>,
}

impl<H: Copy> Model for Metas<H> {
    ghost use Rattle.std.specs.Prelude.{List};
    ghost use Rattle.ld_terms.specs.declared.globals.Decl.{Decl};
    ghost use Rattle.meta_context.specs.Tables.{rows, AreNumbered};

    ghost Value = { List (Decl H) };

    ghost view = { λ m. rows m.decls };

    ghost invariant = { λ m. AreNumbered m.decls };
}

impl<H: Copy> Metas<H> {
    /// The context without metavariables. Takes no memory.
    pub fn new() -> Metas<H>
        ensures { result ≡ [] }
    {
        Metas {
            decls: SharedMap::new(),
        }
    }

    /// The same metavariable context, for a second owner. Fails for want of memory alone.
    pub fn fork(&self, alloc: Global) -> Result<Metas<H>, AllocError>
        ensures { IfOk result (λ m. m ≡ self.now) }
    {
        Ok(Metas {
            decls: self.decls.fork(alloc)?,
        })
    }

    /// The number of the next metavariable, which is how many there are. Takes no memory.
    pub fn next(&self) -> u32
        ensures counted { result ≡ length self.now }
        ensures few { length self.now ≤ 65536 }
        // Names and lengths, which are facts of every metavariable context.
        ensures facts { AreDeclared self.now }
    {
        self.decls.len() as u32
    }

    /// The declaration of a number, or `None` where no metavariable has it. Takes no memory.
    pub fn decl(&self, m: u32) -> Option<&Decl<H>>
        ensures { option_copied result ≡ slice_get self.now m }
    {
        match self.decls.get(&m) {
            Some(decl) => Some(decl.get()),
            None => None,
        }
    }

    /// The metavariable context with one more declaration. This one stays as it was. Fails for want of memory alone.
    pub(crate) fn push(&self, alloc: Global, decl: Decl<H>) -> Result<Metas<H>, AllocError>
        requires room { length self.now < 65536 }
        requires names { IsContext (names_of decl.ctx) }
        ensures { IfOk result (λ m. m ≡ self.now ++ decl ∷ []) }
    {
        let decl = Kept::new(alloc, decl)?;
        Ok(Metas {
            decls: self.decls.with(alloc, self.next(), decl)?,
        })
    }

    /// The metavariable context in which a metavariable has a value. This one stays as it was. Fails for want of memory alone.
    pub(crate) fn with_value(&self, alloc: Global, m: u32, value: H) -> Result<Metas<H>, AllocError>
        requires { m < length self.now }
        ensures { IfOk result (λ n. n ≡ assigned m value self.now) }
    {
        match self.decl(m) {
            Some(decl) => {
                let ctx = copy_context(alloc, decl.ctx.as_slice())?;
                let decl = Decl {
                    ctx,
                    ty: decl.ty,
                    value: Some(value),
                };
                let kept = Kept::new(alloc, decl)?;
                Ok(Metas {
                    decls: self.decls.with(alloc, m, kept)?,
                })
            }
            None => unreachable!(),
        }
    }
}

/// The same entries once more. Fails for want of memory alone.
pub fn copy_context<H: Copy>(alloc: Global, ctx: &[Local<H>]) -> Result<List<Local<H>>, AllocError>
    ensures { IfOk result (λ entries. entries ≡ ctx.now) }
{
    let mut entries = Vec::with_capacity(alloc, ctx.len())?;
    for entry in ctx {
        entries.push(Local {
            name: entry.name.copy(alloc)?,
            ty: entry.ty,
        })?;
    }
    Ok(List::of(entries))
}

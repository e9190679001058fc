//! What a session over the empty book comes to.

ghost use Rattle.std.specs.Prelude.{◌≡◌, count_by, map, IfOk};
ghost use Rattle.std.specs.List.{list_all};
ghost use Rattle.pan_io.specs.Text.{parts};
ghost use Rattle.panto_cli.specs.Demo.{IsCountOf, has_error, is_answered};

use crate::store::Store;
use command_set::Program;
use repl_json::value_of;
use state_tree::{Entry, Gave, Tree};
use std::alloc::{AllocError, Global};

/// What a session comes to.
#[derive(Debug, Clone, Copy, PartialEq, Eq, Drop)]
pub struct Counts {
    /// How many replies there were.
    pub replies: u64,
    /// How many of them are errors.
    pub errors: u64,
    /// How many states were made.
    pub states: u64,
}

/// Whether the line, read as JSON, is an object with the key `error`.
#[tactic(auto, unfolding(crate::specs::Demo::has_error))]
fn has_error(alloc: Global, line: &[u8]) -> Result<bool, AllocError>
    ensures { IfOk result (λ b. b ≡ has_error line.now) }
{
    let Some(value) = value_of(alloc, line)? else {
        return Ok(false);
    };
    Ok(value.get("error").is_some())
}

/// The lines of an output, and what stands behind the last line end.
fn parts_of(alloc: Global, output: &[u8]) -> Result<Vec<&[u8]>, AllocError>
    ensures { IfOk result (λ v. map (λ part. part.now) v.items ≡ parts output.now) }
{
    output.split(|byte| *byte == b'\n').collect(alloc)
}

/// How many of the lines are errors.
fn count_errors(alloc: Global, lines: &[&[u8]]) -> Result<u64, AllocError>
    ensures { IfOk result (λ n. n ≡ count_by (λ line. has_error line.now) lines.now) }
{
    let mut errors = 0;
    for line in lines {
        if has_error(alloc, line)? {
            errors += 1;
        }
    }
    Ok(errors)
}

/// Whether no entry says that memory was wanted.
fn are_answered(entries: &[Entry]) -> bool
    ensures { result ≡ list_all is_answered entries.now }
{
    for entry in entries {
        if !is_answered(entry) {
            return false;
        }
    }
    true
}

fn is_answered(entry: &Entry) -> bool
    ensures { result ≡ is_answered entry.now }
{
    match entry.gave {
        Gave::Answer => true,
        Gave::Memory => false,
    }
}

/// Counts what a session left in its tree and in its output. Fails for want of memory alone, also where an entry says so.
pub fn count(alloc: Global, tree: Tree<Program<Store>>, output: &[u8]) -> Result<Counts, AllocError>
    ensures { IfOk result (IsCountOf tree output.now) }
{
    let states = tree.states();
    let entries = tree.into_journal();
    if !are_answered(&entries) {
        return Err(AllocError);
    }
    let lines = parts_of(alloc, output)?;
    let errors = count_errors(alloc, &lines)?;
    Ok(Counts {
        replies: entries.len() as u64,
        errors,
        states,
    })
}

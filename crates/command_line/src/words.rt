//! The forms of the command line.

ghost use Rattle.std.specs.Prelude.{◌≡◌, true, map, IfOk, IfSome, option_map, string_bytes};
ghost use Rattle.command_line.specs.Given.{are_words};
ghost use Rattle.command_line.specs.Form.{form_of, after_subcommand};
ghost use Rattle.command_line.specs.Range.{IsInRange};
ghost use Rattle.command_line.specs.Seen.{seen};

use crate::check::read_check;
use crate::demo::read_demo;
use crate::plain::are_words;
use crate::run::read_run;
use crate::serve::read_serve;
use std::alloc::{AllocError, Global};

/// What the words of a command line ask for. Without `--book` the book is empty.
#[derive(Clone, Copy, Debug, Drop, PartialEq, Eq)]
pub enum Form<'a> {
    /// `run [--book FILE] [--entries N] [--workers N]`: 1 to 1,048,576 entries, 65,536 where none are
    /// given, and 1 to 64 workers, 1 where none are given.
    Run {
        book: Option<&'a str>,
        entries: u32,
        workers: u32,
    },
    /// `serve --listen ADDRESS [--book FILE] [--entries N] [--workers N] [--sessions N]`: entries and
    /// workers as for `run`, and 1 to 64 sessions, 1 where none are given.
    Serve {
        listen: &'a str,
        book: Option<&'a str>,
        entries: u32,
        workers: u32,
        sessions: u32,
    },
    /// `check FILE`.
    Check {
        file: &'a str,
    },
    /// `demo SEED COUNT`: a seed of 1 to 19 digits, and a count from 0 to 10,000.
    Demo {
        seed: u64,
        count: u32,
    },
}

/// The form that the words after the program's name have; `None` where they are refused. Options
/// stand in any order, each at most once, as two words or with `=`. Fails for want of memory.
pub fn read_words<'a>(alloc: Global, words: &'a [String]) -> Result<Option<Form<'a>>, AllocError>
    ensures form { IfOk result (λ o. option_map seen o ≡ form_of (map string_bytes words.now)) }
    // Each number is in its range.
    ensures range { IfOk result (λ o. IfSome o (λ form. IsInRange (seen form))) }
{
    if !are_words(words) {
        return Ok(None);
    }
    match words.split_first() {
        None => Ok(None),
        Some((name, rest)) => read_form(alloc, name.as_str(), rest),
    }
}

/// The form of the words after the subcommand's name.
fn read_form<'a>(
    alloc: Global,
    name: &str,
    words: &'a [String],
) -> Result<Option<Form<'a>>, AllocError>
    requires { are_words (map string_bytes words.now) ≡ true }
    ensures form { IfOk result (λ o. option_map seen o ≡ after_subcommand name.now (map string_bytes words.now)) }
    ensures range { IfOk result (λ o. IfSome o (λ form. IsInRange (seen form))) }
{
    match name {
        "run" => read_run(alloc, words),
        "serve" => read_serve(alloc, words),
        "check" => read_check(alloc, words),
        "demo" => read_demo(alloc, words),
        _ => Ok(None),
    }
}

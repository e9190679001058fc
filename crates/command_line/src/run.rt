//! `run [--book FILE] [--entries N] [--workers N]`.

ghost use Rattle.std.specs.Prelude.{◌≡◌, true, map, [], IfOk, IfSome, option_map, string_bytes};
ghost use Rattle.command_line.specs.Given.{are_words, options};
ghost use Rattle.command_line.specs.Form.{run_of, run_options};
ghost use Rattle.command_line.specs.Parsed.{Parses};
ghost use Rattle.command_line.specs.Range.{IsInRange};
ghost use Rattle.command_line.specs.Seen.{seen};

use crate::numbers::number_or;
use crate::parts::{leaf, refused, text_option};
use crate::words::Form;
use clap::{ArgMatches, Error};
use std::alloc::{AllocError, Global};

/// The form of the words after `run`.
pub fn read_run<'a>(alloc: Global, words: &'a [String]) -> Result<Option<Form<'a>>, AllocError>
    requires { are_words (map string_bytes words.now) ≡ true }
    ensures form { IfOk result (λ o. option_map seen o ≡ run_of (map string_bytes words.now)) }
    ensures range { IfOk result (λ o. IfSome o (λ form. IsInRange (seen form))) }
{
    let found = match parse_run(alloc, words) {
        Ok(found) => found,
        Err(error) => return refused(error),
    };
    let entries = number_or(found.get_str("entries"), 65_536, 1_048_576);
    let workers = number_or(found.get_str("workers"), 1, 64);
    match (entries, workers) {
        (Some(entries), Some(workers)) => Ok(Some(Form::Run {
            book: found.get_str("book"),
            entries,
            workers,
        })),
        _ => Ok(None),
    }
}

fn parse_run<'a>(alloc: Global, words: &'a [String]) -> Result<ArgMatches<'a>, Error>
    requires { are_words (map string_bytes words.now) ≡ true }
    ensures { Parses run_options (options run_options [] (map string_bytes words.now)) result }
{
    let command = leaf(alloc, "run")
        .arg(text_option(alloc, "book"))?
        .arg(text_option(alloc, "entries"))?
        .arg(text_option(alloc, "workers"))?;
    command.try_get_matches_from(words)
}

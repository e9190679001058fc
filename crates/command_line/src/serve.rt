//! `serve --listen ADDRESS [--book FILE] [--entries N] [--workers N] [--sessions N]`.

ghost use Rattle.std.specs.Prelude.{◌≡◌, true, map, [], IfOk, IfSome, option_map, string_bytes};
ghost use Rattle.command_line.specs.Given.{are_words, options};
ghost use Rattle.command_line.specs.Form.{serve_of, serve_options};
ghost use Rattle.command_line.specs.Parsed.{Parses};
ghost use Rattle.command_line.specs.Range.{IsInRange};
ghost use Rattle.command_line.specs.Seen.{seen};

use crate::numbers::number_or;
use crate::parts::{leaf, refused, text_option};
use crate::words::Form;
use clap::{ArgMatches, Error};
use std::alloc::{AllocError, Global};

/// The form of the words after `serve`.
pub fn read_serve<'a>(alloc: Global, words: &'a [String]) -> Result<Option<Form<'a>>, AllocError>
    requires { are_words (map string_bytes words.now) ≡ true }
    ensures form { IfOk result (λ o. option_map seen o ≡ serve_of (map string_bytes words.now)) }
    ensures range { IfOk result (λ o. IfSome o (λ form. IsInRange (seen form))) }
{
    let found = match parse_serve(alloc, words) {
        Ok(found) => found,
        Err(error) => return refused(error),
    };
    let entries = number_or(found.get_str("entries"), 65_536, 1_048_576);
    let workers = number_or(found.get_str("workers"), 1, 64);
    let sessions = number_or(found.get_str("sessions"), 1, 64);
    match (found.get_str("listen"), entries, workers, sessions) {
        (Some(listen), Some(entries), Some(workers), Some(sessions)) => Ok(Some(Form::Serve {
            listen,
            book: found.get_str("book"),
            entries,
            workers,
            sessions,
        })),
        _ => Ok(None),
    }
}

fn parse_serve<'a>(alloc: Global, words: &'a [String]) -> Result<ArgMatches<'a>, Error>
    requires { are_words (map string_bytes words.now) ≡ true }
    ensures { Parses serve_options (options serve_options [] (map string_bytes words.now)) result }
{
    let command = leaf(alloc, "serve")
        .arg(text_option(alloc, "listen"))?
        .arg(text_option(alloc, "book"))?
        .arg(text_option(alloc, "entries"))?
        .arg(text_option(alloc, "workers"))?
        .arg(text_option(alloc, "sessions"))?;
    command.try_get_matches_from(words)
}

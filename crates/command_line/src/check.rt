//! `check FILE`.

ghost use Rattle.std.specs.Prelude.{◌≡◌, true, map, IfOk, IfSome, option_map, string_bytes};
ghost use Rattle.command_line.specs.Given.{are_words, places};
ghost use Rattle.command_line.specs.Form.{check_of, check_places};
ghost use Rattle.command_line.specs.Parsed.{Parses};
ghost use Rattle.command_line.specs.Range.{IsInRange};
ghost use Rattle.command_line.specs.Seen.{seen};

use crate::parts::{leaf, place, refused};
use crate::words::Form;
use clap::{ArgMatches, Error};
use std::alloc::{AllocError, Global};

/// The form of the words after `check`.
pub fn read_check<'a>(alloc: Global, words: &'a [String]) -> Result<Option<Form<'a>>, AllocError>
    requires { are_words (map string_bytes words.now) ≡ true }
    ensures form { IfOk result (λ o. option_map seen o ≡ check_of (map string_bytes words.now)) }
    ensures range { IfOk result (λ o. IfSome o (λ form. IsInRange (seen form))) }
{
    let found = match parse_check(alloc, words) {
        Ok(found) => found,
        Err(error) => return refused(error),
    };
    match found.get_str("file") {
        Some(file) => Ok(Some(Form::Check { file })),
        None => Ok(None),
    }
}

fn parse_check<'a>(alloc: Global, words: &'a [String]) -> Result<ArgMatches<'a>, Error>
    requires { are_words (map string_bytes words.now) ≡ true }
    ensures { Parses check_places (places (map (λ k. k.0) check_places) (map string_bytes words.now)) result }
{
    let command = leaf(alloc, "check").arg(place(alloc, "file"))?;
    command.try_get_matches_from(words)
}

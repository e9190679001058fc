//! `demo SEED COUNT`.

ghost use Rattle.std.specs.Prelude.{◌≡◌, true, map, IfOk, IfSome, option_map, string_bytes};
ghost use Rattle.command_line.specs.Given.{are_words, places};
ghost use Rattle.command_line.specs.Form.{demo_of, demo_places};
ghost use Rattle.command_line.specs.Parsed.{Parses};
ghost use Rattle.command_line.specs.Range.{IsInRange};
ghost use Rattle.command_line.specs.Seen.{seen};

use crate::numbers::{MAX_DIGITS, MAX_SEED_DIGITS, number, ranged};
use crate::parts::{leaf, place, refused};
use crate::words::Form;
use clap::{ArgMatches, Error};
use std::alloc::{AllocError, Global};

/// The form of the words after `demo`.
pub fn read_demo<'a>(alloc: Global, words: &'a [String]) -> Result<Option<Form<'a>>, AllocError>
    requires { are_words (map string_bytes words.now) ≡ true }
    ensures form { IfOk result (λ o. option_map seen o ≡ demo_of (map string_bytes words.now)) }
    ensures range { IfOk result (λ o. IfSome o (λ form. IsInRange (seen form))) }
{
    let found = match parse_demo(alloc, words) {
        Ok(found) => found,
        Err(error) => return refused(error),
    };
    match (found.get_str("seed"), found.get_str("count")) {
        (Some(seed), Some(count)) => {
            let seed = number(seed, MAX_SEED_DIGITS);
            let count = ranged(number(count, MAX_DIGITS), 0, 10_000);
            match (seed, count) {
                (Some(seed), Some(count)) => Ok(Some(Form::Demo { seed, count })),
                _ => Ok(None),
            }
        }
        _ => Ok(None),
    }
}

fn parse_demo<'a>(alloc: Global, words: &'a [String]) -> Result<ArgMatches<'a>, Error>
    requires { are_words (map string_bytes words.now) ≡ true }
    ensures { Parses demo_places (places (map (λ k. k.0) demo_places) (map string_bytes words.now)) result }
{
    let command = leaf(alloc, "demo")
        .arg(place(alloc, "seed"))?
        .arg(place(alloc, "count"))?;
    command.try_get_matches_from(words)
}

//! The parts of a subcommand, as `clap` takes them.

ghost use Rattle.std.specs.Prelude.{◌≡◌, ◌≢◌, false, None, IfOk};
ghost use Rattle.clap.specs.Words.{app_of, kind_of, rule_of};
ghost use Rattle.command_line.specs.Parsed.{option_rule, leaf_app, place_rule};

use crate::words::Form;
use clap::error::ErrorKind;
use clap::{Arg, ArgAction, Command, Error};
use std::alloc::{AllocError, Global};

/// A command that reads words alone, with no program's name before them and no help.
pub fn leaf<'a>(alloc: Global, name: &'a str) -> Command<'a>
    ensures { app_of result ≡ leaf_app name.now }
{
    Command::new(alloc, name)
        .no_binary_name(true)
        .disable_help_flag(true)
}

/// An option that takes one text. Numbers are read from texts, since `clap` would take `+3`.
pub fn text_option<'a>(alloc: Global, name: &'a str) -> Arg<'a>
    ensures rule { rule_of result ≡ option_rule name.now }
    ensures local { result.global ≡ false }
{
    Arg::new(alloc, name).long(name).action(ArgAction::Set)
}

/// A word that has to stand at its place.
pub fn place<'a>(alloc: Global, name: &'a str) -> Arg<'a>
    ensures rule { rule_of result ≡ place_rule name.now }
    ensures local { result.global ≡ false }
{
    Arg::new(alloc, name).required(true).action(ArgAction::Set)
}

/// The answer to a failed parse: words that are refused are no error, and want of memory is one.
pub fn refused<'a>(error: Error) -> Result<Option<Form<'a>>, AllocError>
    ensures { IfOk result (λ o. (o ≡ None) × (kind_of error ≢ ErrorKind.OutOfMemory)) }
{
    match error.kind() {
        ErrorKind::OutOfMemory => Err(AllocError),
        _ => Ok(None),
    }
}

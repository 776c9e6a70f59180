//! What the words ask for.
ghost use Rattle.std.specs.Prelude.{◌≡◌, ℕ, Some, IfOk};
ghost use Rattle.std.specs.Str.Parse.{digits_value, without_leading_plus};
ghost use Rattle.clap.specs.Words.{Text, found_of, one_of, rows_of, subcommand_rows_of};
ghost use Rattle.command_words.specs.Words.{AsksFor, AsksIn, GivesNumber, IsWhole};

use crate::asked::Asked;
use crate::command::command;
use clap::ArgMatches;
use clap::error::ErrorKind;
use script_io::Word;
use std::alloc::{AllocError, Global};

/// A number that a subcommand was given.
fn number_in(found: &ArgMatches<'_>, name: &str) -> u64
    requires { (least : ℕ) × (most : ℕ) × GivesNumber (rows_of (found_of found.now)) name.now least most }
    ensures { (text : Text) → one_of name.now (rows_of (found_of found.now)) ≡ Some text → result ≡ digits_value 10 (without_leading_plus text) }
{
    found.get_one::<u64>(name).unwrap()
}

/// What the subcommand that was met asks for. The command requires one, and that `gen` is given both of
/// its numbers.
fn asked_in(matches: &ArgMatches<'_>) -> Asked
    requires { IsWhole (subcommand_rows_of matches.now) }
    ensures { AsksIn (subcommand_rows_of matches.now) result }
{
    match matches.subcommand() {
        Some(("gen", found)) => Asked::Generate {
            steps: number_in(found, "STEPS"),
            seed: number_in(found, "SEED"),
        },
        _ => Asked::Run,
    }
}

/// What the words of the command line ask for, of which the first is the program's name: a run, a
/// generated script, or nothing where the command doesn't take the words.
///
/// # Errors
///
/// [`AllocError`] where there is no memory to read them.
pub fn asked_by<'a>(alloc: Global, words: &'a [Word]) -> Result<Asked, AllocError>
    ensures { IfOk result (AsksFor words.entry.now) }
{
    match command(alloc)?.try_get_matches_from(words) {
        Ok(matches) => Ok(asked_in(&matches)),
        Err(error) => match error.kind() {
            ErrorKind::OutOfMemory => Err(AllocError),
            _ => Ok(Asked::Nothing),
        },
    }
}

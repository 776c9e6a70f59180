//! The command that the words are read by.
ghost use Rattle.std.specs.Prelude.{◌≡◌, false, IfOk};
ghost use Rattle.clap.specs.Words.{app_of, rule_of};
ghost use Rattle.clap.specs.declared.builder.command.Command.TheViews.{out-Command};
ghost use Rattle.command_words.specs.Command.{generates, incr, number_rule};

use clap::builder::ValueParser;
use clap::{Arg, Command};
use std::alloc::{AllocError, Global};

/// A required number from `least` to `most`.
fn number<'a>(alloc: Global, name: &'a str, least: u64, most: u64) -> Arg<'a>
    ensures rule { rule_of result ≡ number_rule name.entry.now least most }
    ensures local { result.global ≡ false }
{
    Arg::new(alloc, name)
        .required(true)
        .value_parser(ValueParser::unsigned(least, most))
}

/// `gen STEPS SEED`.
fn gen_command<'a>(alloc: Global) -> Result<Command<'a>, AllocError>
    ensures app { IfOk result (λ c. app_of c ≡ generates) }
    ensures local { IfOk result (λ c. (out-Command c).has_globals ≡ false) }
{
    let steps = number(alloc, "STEPS", 1, 20_000);
    let seed = number(alloc, "SEED", 0, 2_147_483_647);
    Command::new(alloc, "gen").arg(steps)?.arg(seed)
}

/// The program's command: one of its two subcommands, and neither help nor a version.
pub fn command<'a>(alloc: Global) -> Result<Command<'a>, AllocError>
    ensures { IfOk result (λ c. app_of c ≡ incr) }
{
    Command::new(alloc, "incr")
        .disable_help_flag(true)
        .disable_help_subcommand(true)
        .disable_version_flag(true)
        .subcommand_required(true)
        .subcommand(Command::new(alloc, "run"))?
        .subcommand(gen_command(alloc)?)
}

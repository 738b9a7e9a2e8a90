// The commands as clap has them.
ghost use Rattle.std.specs.Prelude.{◌≡◌, ◌≤◌, IfOk, false};
ghost use Rattle.clap.specs.Words.{app_of, rule_of};
ghost use Rattle.gr_words.specs.Commands.{text_rule, number_rule, option_rule, flag_rule, bare_app, solve_app, check_app, large_app};

use clap::{Arg, ArgAction, Command};
use std::alloc::{AllocError, Global};

/// How many reducers a call may ask for.
pub(crate) const MOST_REDUCERS: u32 = 8;

/// The command behind the word `solve`.
pub(crate) fn solve_command<'a>(alloc: Global) -> Result<Command<'a>, AllocError>
    ensures { IfOk result (λ command. app_of command ≡ solve_app) }
{
    bare(alloc, "solve")
        .arg(text(alloc, "cnf"))?
        .arg(text(alloc, "log"))?
        .arg(option(alloc, "reducers", "1", 0, MOST_REDUCERS))?
        .arg(option(alloc, "conflicts", "1000000", 1, 4_000_000))?
        .arg(option(alloc, "capacity", "1000", 1, 100_000))?
        .arg(option(alloc, "offer", "1000000", 2, 1_000_000))?
        .arg(flag(alloc, "keep-all"))
}

/// The command behind the word `check`.
pub(crate) fn check_command<'a>(alloc: Global) -> Result<Command<'a>, AllocError>
    ensures { IfOk result (λ command. app_of command ≡ check_app) }
{
    bare(alloc, "check")
        .arg(text(alloc, "cnf"))?
        .arg(text(alloc, "log"))
}

/// The command behind the word `large`.
pub(crate) fn large_command<'a>(alloc: Global) -> Result<Command<'a>, AllocError>
    ensures { IfOk result (λ command. app_of command ≡ large_app) }
{
    bare(alloc, "large")
        .arg(text(alloc, "kind"))?
        .arg(number(alloc, "n"))
}

/// A command that reads its words from the first one on, and has no help option.
fn bare<'a>(alloc: Global, name: &'a str) -> Command<'a>
    ensures { app_of result ≡ bare_app name.entry.now }
{
    Command::new(alloc, name)
        .no_binary_name(true)
        .disable_help_flag(true)
}

/// A text that has to be there.
fn text<'a>(alloc: Global, id: &'a str) -> Arg<'a>
    ensures rule { rule_of result ≡ text_rule id.entry.now }
    ensures local { result.global ≡ false }
{
    Arg::new(alloc, id).required(true).action(ArgAction::Set)
}

/// A number of 32 bits that has to be there.
fn number<'a>(alloc: Global, id: &'a str) -> Arg<'a>
    ensures rule { rule_of result ≡ number_rule id.entry.now }
    ensures local { result.global ≡ false }
{
    Arg::new(alloc, id)
        .required(true)
        .action(ArgAction::Set)
        .value_parser(clap::value_parser!(u32))
}

/// A long option with one number from `low` to `high`.
fn option<'a>(alloc: Global, id: &'a str, default: &'a str, low: u32, high: u32) -> Arg<'a>
    requires { low ≤ high }
    ensures rule { rule_of result ≡ option_rule id.entry.now default.entry.now low high }
    ensures local { result.global ≡ false }
{
    let parser = clap::value_parser!(u32).range(low as i64..=high as i64);
    Arg::new(alloc, id)
        .long(id)
        .action(ArgAction::Set)
        .value_parser(parser)
        .default_value(default)
}

/// A long option that has no value.
fn flag<'a>(alloc: Global, id: &'a str) -> Arg<'a>
    ensures rule { rule_of result ≡ flag_rule id.entry.now }
    ensures local { result.global ≡ false }
{
    Arg::new(alloc, id).long(id).action(ArgAction::SetTrue)
}

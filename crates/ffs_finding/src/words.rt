//! The words of the command line.
ghost use Rattle.std.specs.Prelude.{◌≡◌, None, map, MatchOption, MatchResult};
ghost use Rattle.clap.specs.{Words.{app_of, kind_of}, declared.error.kind.ErrorKind.TheVariants.OutOfMemory};
ghost use Rattle.ffs_check.specs.CommandWords.{AreRefusedBy, HasMatches, IsArgument};
ghost use Rattle.ffs_finding.specs.CommandWords.{HaveOperands, find_program, second_rule};
ghost use Rattle.ffs_finding.specs.{declared.request.Target.Target, Operands.{IsTarget, SaysOf, operands_in}};

use crate::request::{Command, Target};
use clap::{Arg, ArgAction, ArgMatches, Command as App, Error};
use ffs_check::program::Asked;
use ffs_check::words::{needed_argument, no_write_argument, sector_argument, wordless_command};
use std::alloc::Global;

/// A word that may follow the first one after the command.
fn second_argument<'a>(alloc: Global) -> Arg<'a>
    ensures { IsArgument result second_rule }
{
    Arg::new(alloc, "second").action(ArgAction::Set)
}

/// The words that the program takes.
fn app<'a>(alloc: Global) -> Result<App<'a>, Error>
    ensures { MatchResult result (λ app. app_of app ≡ find_program)
        (λ error. kind_of error ≡ OutOfMemory) }
{
    let no_write = no_write_argument(alloc)?;
    Ok(
        wordless_command(alloc, "ffs_find")
            .arg(no_write)?
            .arg(sector_argument(alloc))?
            .arg(needed_argument(alloc, "command"))?
            .arg(needed_argument(alloc, "first"))?
            .arg(second_argument(alloc))?,
    )
}

/// Asks `clap` what the words say: the one call that may say of them that memory was refused.
#[tactic(auto, unfolding(ffs_check::specs::CommandWords::LacksMemory))]
fn matches_of<'a>(alloc: Global, words: &'a [&'a str]) -> Result<ArgMatches<'a>, Error>
    ensures { MatchResult result (HasMatches find_program (map (λ word. word.now) words.now))
        (AreRefusedBy find_program (map (λ word. word.now) words.now)) }
{
    app(alloc)?.try_get_matches_from(words)
}

/// The words that aren't options, and the sector.
#[derive(Clone, Copy, Debug)]
pub(crate) struct Operands<'a> {
    /// What is to be found.
    command: &'a str,
    /// The word after it: a number, or the image.
    first: &'a str,
    /// One more word, if there is one: the image.
    second: Option<&'a str>,
    /// The sector of the superblock that is asked for, of 512 bytes.
    sector: Option<u32>,
}

/// Parses the words after the program's name.
///
/// # Errors
/// Words that `clap` refuses, a call for help or for the version, and memory that was refused.
pub(crate) fn operands_of<'a>(alloc: Global, words: &'a [&'a str]) -> Result<Operands<'a>, Error>
    ensures { MatchResult result
        (λ operands. HaveOperands (map (λ word. word.now) words.now) (operands_in operands))
        (AreRefusedBy find_program (map (λ word. word.now) words.now)) }
{
    let matches = matches_of(alloc, words)?;
    Ok(Operands {
        command: matches.get_str("command").unwrap_or(""),
        first: matches.get_str("first").unwrap_or(""),
        second: matches.get_str("second"),
        sector: matches.get_one::<u32>("sector"),
    })
}

/// What operands without a number ask for, if they ask for something.
fn asked_without_number<'a>(operands: &Operands<'a>) -> Option<Asked<'a, Command>>
    requires { operands.now.second ≡ None }
    ensures { SaysOf (operands_in operands.now) result }
{
    let sector = operands.sector;
    let name = operands.first;
    if operands.command == "copies" && sector.is_none() {
        let request = Command::Copies;
        return Some(Asked { name, request });
    }
    if operands.command == "fields" {
        let target = Target::Fields;
        let request = Command::InVolume { target, sector };
        return Some(Asked { name, request });
    }
    if operands.command == "lost" {
        let target = Target::Lost;
        let request = Command::InVolume { target, sector };
        return Some(Asked { name, request });
    }
    None
}

/// What a command finds by a number, if it is such a command.
fn numbered_target(command: &str, number: u32) -> Option<Target>
    ensures { MatchOption result ((target : Target) → IsTarget command.now number target → ⊥)
        (IsTarget command.now number) }
{
    if command == "inode" {
        return Some(Target::Inode { number });
    }
    if command == "owner" {
        return Some(Target::Owner { fragment: number });
    }
    None
}

/// What the operands ask for, if they ask for something.
pub(crate) fn asked_of<'a>(operands: &Operands<'a>) -> Option<Asked<'a, Command>>
    ensures { SaysOf (operands_in operands.now) result }
{
    let sector = operands.sector;
    let Some(name) = operands.second else {
        return asked_without_number(operands);
    };
    let Ok(number) = operands.first.parse::<u32>() else {
        return None;
    };
    match numbered_target(operands.command, number) {
        Some(target) => {
            let request = Command::InVolume { target, sector };
            Some(Asked { name, request })
        }
        None => None,
    }
}

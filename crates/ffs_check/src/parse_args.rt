//! The arguments of the command line.
ghost use Rattle.std.specs.Prelude.{◌≡◌, map, IfOk, MatchResult};
ghost use Rattle.clap.specs.{Words.{app_of, kind_of}, declared.error.kind.ErrorKind.TheVariants.OutOfMemory};
ghost use Rattle.ffs_check.specs.CommandWords.{AreRefusedBy, AskFor, HasMatches, IsArgument, fsck_program};
ghost use Rattle.ffs_check.specs.CommandWords.{read_only_rule};

use crate::args::Args;
use crate::words::{needed_argument, no_write_argument, sector_argument, wordless_command};
use clap::{Arg, ArgMatches, Command, Error};
use std::alloc::{AllocError, Global};

/// `-n` or `-N`, which has to be there: nothing is written.
fn read_only_argument<'a>(alloc: Global) -> Result<Arg<'a>, AllocError>
    ensures { IfOk result (λ argument. IsArgument argument read_only_rule) }
{
    Ok(no_write_argument(alloc)?.required(true))
}

/// The arguments that the program takes.
fn command<'a>(alloc: Global) -> Result<Command<'a>, Error>
    ensures { MatchResult result (λ command. app_of command ≡ fsck_program)
        (λ error. kind_of error ≡ OutOfMemory) }
{
    let read_only = read_only_argument(alloc)?;
    Ok(
        wordless_command(alloc, "fsck_ffs")
            .arg(read_only)?
            .arg(sector_argument(alloc))?
            .arg(needed_argument(alloc, "image"))?,
    )
}

/// Asks `clap` what the words say: the one call that may say of them that memory was refused.
#[tactic(auto, unfolding(crate::specs::CommandWords::LacksMemory))]
fn matches_of<'a>(alloc: Global, words: &'a [&'a str]) -> Result<ArgMatches<'a>, Error>
    ensures { MatchResult result (HasMatches fsck_program (map (λ word. word.now) words.now))
        (AreRefusedBy fsck_program (map (λ word. word.now) words.now)) }
{
    command(alloc)?.try_get_matches_from(words)
}

/// Parses the arguments after the program's name.
///
/// # Errors
/// Arguments that aren't `-n [-b sector] image`, a call for help or for the version, and memory
/// that was refused.
pub fn parse_args<'a>(alloc: Global, words: &'a [&'a str]) -> Result<Args<'a>, Error>
    // What the arguments ask for. They are refused because they are wrong, or ask for the help or
    // the version, or because memory was refused, where `clap` answered so.
    ensures { MatchResult result
        (λ args. AskFor (map (λ word. word.now) words.now) args.name.now args.sector)
        (AreRefusedBy fsck_program (map (λ word. word.now) words.now)) }
{
    let matches = matches_of(alloc, words)?;
    Ok(Args {
        name: matches.get_str("image").unwrap_or(""),
        sector: matches.get_one::<u32>("sector"),
    })
}

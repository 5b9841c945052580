//! What is written where the words don't say what to find: the help, the version, and what is wrong
//! with them.
ghost use Rattle.std.specs.Prelude.{◌≡◌};
ghost use Rattle.ffs_check.specs.Refusals.{text_of_refusal};
ghost use Rattle.ffs_finding.specs.WrongWords.{find_first_text, find_refusal_text};

use clap::error::ErrorKind;
use ffs_check::refusal::{Refusal, second_text};

const USAGE: &[u8] = b"

Usage: ffs_find copies image
       ffs_find [-b sector] inode number image
       ffs_find [-b sector] fields image
       ffs_find [-b sector] lost image
       ffs_find [-b sector] owner fragment image

For more information, try '--help'.";

const HELP: &[u8] =
    b"Looks for things in an image of a Berkeley fast file system (UFS1), and never writes it.

Usage: ffs_find copies image
       ffs_find [-b sector] inode number image
       ffs_find [-b sector] fields image
       ffs_find [-b sector] lost image
       ffs_find [-b sector] owner fragment image

  copies          the sectors at which fsck_ffs -b finds a superblock that it accepts
  inode number    where the inode of this number lies, and what it says
  fields          fields of the superblock that a kernel computes with and that are wrong
  lost            fragments that are marked as used and nothing claims, and used ones that are
                  marked as free
  owner fragment  to which inodes a fragment belongs, or to what else
  image           the file or device that holds the file system from its first byte on
  -b sector       take the superblock at this sector of 512 bytes, 1 to 4194303
  -n, -N          nothing is ever written, with or without it
  -h, --help      print this help
  -V, --version   print the version

Status:
  0  what was found is printed, or nothing was found
  1  fields or lost printed a line
  2  the words are wrong, or ask for this help or the version
  8  the search didn't run to its end; the last message says why";

/// What the text for these words begins with: the help, the program's name before its version, or
/// what is wrong.
fn first_text(kind: ErrorKind) -> &'static [u8]
    ensures { result.now ≡ find_first_text kind }
{
    match kind {
        ErrorKind::DisplayHelp => HELP,
        ErrorKind::DisplayVersion => b"ffs_find ",
        ErrorKind::MissingRequiredArgument => b"error: a command and an image are needed",
        ErrorKind::ValueValidation => b"error: a sector is 1 to 4194303",
        ErrorKind::InvalidValue => b"error: -b needs a sector",
        ErrorKind::ArgumentConflict => b"error: -b can be given once",
        _ => b"error: no command has these words",
    }
}

/// What is written for words of which `clap` reports this kind of mistake, or that no command has:
/// then an unknown argument.
pub(crate) fn refusal_of(kind: ErrorKind) -> Refusal
    ensures { text_of_refusal result ≡ find_refusal_text kind }
{
    Refusal {
        first: first_text(kind),
        second: second_text(kind, USAGE),
    }
}

//! What is written where no check is run: the help, the version, and what is wrong with the words.
ghost use Rattle.std.specs.Prelude.{◌≡◌};
ghost use Rattle.ffs_check.specs.Refusals.{first_text, refusal_text, text_of_refusal};

use crate::refusal::{Refusal, second_text};
use clap::error::ErrorKind;

const USAGE: &[u8] = b"

Usage: fsck_ffs -n [-b sector] image

For more information, try '--help'.";

const HELP: &[u8] = b"Checks an image of a Berkeley fast file system (UFS1), and never writes it.

Usage: fsck_ffs -n [-b sector] image

  image          the file or device that holds the file system from its first byte on
  -n, -N         answer no to every question: the image is never written
  -b sector      take the superblock at this sector of 512 bytes, 1 to 4194303
  -h, --help     print this help
  -V, --version  print the version

Status:
  0  consistent: no defect is reported
  1  defects are reported
  2  the arguments are wrong, or ask for this help or the version
  8  the check didn't run to its end; the last message says why";

/// What the text for these words begins with: the help, the program's name before its version, or
/// what is wrong.
fn first_text(kind: ErrorKind) -> &'static [u8]
    ensures { result.now ≡ first_text kind }
{
    match kind {
        ErrorKind::DisplayHelp => HELP,
        ErrorKind::DisplayVersion => b"fsck_ffs ",
        ErrorKind::MissingRequiredArgument => b"error: -n and an image are needed",
        ErrorKind::ValueValidation => b"error: a sector is 1 to 4194303",
        ErrorKind::InvalidValue => b"error: -b needs a sector",
        ErrorKind::ArgumentConflict => b"error: -b can be given once",
        ErrorKind::UnknownArgument => {
            b"error: this program takes -n, -b and one image; it never repairs, so it takes no -y, -p and -f"
        }
        _ => b"error: the arguments are wrong",
    }
}

/// What is written for words of which `clap` reports this kind of mistake.
pub(crate) fn refusal_of(kind: ErrorKind) -> Refusal
    ensures { text_of_refusal result ≡ refusal_text kind }
{
    Refusal {
        first: first_text(kind),
        second: second_text(kind, USAGE),
    }
}

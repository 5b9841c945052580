//! The text for words that are refused, and how it is written.
ghost use Rattle.std.specs.Prelude.{◌≡◌, ◌++◌, OnErr};
ghost use Rattle.ffs_report.specs.Sink.{Prints, PutRefused};
ghost use Rattle.ffs_check.specs.Refusals.{IsWritten, second_text, text_of_refusal};

use crate::version::VERSION;
use clap::error::ErrorKind;
use ffs_report::print::{print, print_both};
use ffs_report::{Counted, OutFault, Outlet, Output};

/// What is written for words that are refused, in two parts. The end of the last line follows.
#[derive(Clone, Copy, Debug)]
pub struct Refusal {
    /// The help, the program's name before its version, or what is wrong.
    pub first: &'static [u8],
    /// What `second_text` returns.
    pub second: &'static [u8],
}

/// What a refusal ends with: the version, or a program's usage where something is wrong.
pub fn second_text(kind: ErrorKind, usage: &'static [u8]) -> &'static [u8]
    ensures { result.now ≡ second_text usage.now kind }
{
    match kind {
        ErrorKind::DisplayHelp => b"",
        ErrorKind::DisplayVersion => VERSION.as_bytes(),
        _ => usage,
    }
}

/// Prints both parts of a refusal, and ends the line.
#[tactic(auto, using(ffs_report::proofs::Sinks::printing, ffs_report::proofs::Sinks::refused_so))]
fn print_refusal<W: Output>(out: &mut W, refusal: &Refusal) -> Result<(), OutFault>
    ensures prints { Prints (W.sink out.old) (W.sink out.new) (text_of_refusal refusal.now) result }
    ensures refused { OnErr result (PutRefused W.was_put out.new) }
{
    print_both(out, refusal.first, refusal.second)?;
    print(out, b"\n")
}

/// Writes a refusal: what is wrong with the words, or the help or the version that they ask for. A
/// writer that fails changes nothing else.
pub fn write_refusal<E: Outlet>(errors: &mut E, refusal: &Refusal)
    ensures { IsWritten E.contents E.was_written errors.old errors.new
        (text_of_refusal refusal.now) }
{
    let _ = print_refusal(&mut Counted::new(errors), refusal);
}

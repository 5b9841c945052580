//! The program `ffs_find`: it finds something in the image that its words name. `start` of
//! `ffs_check` adds the standard streams.
ghost use Rattle.std.specs.Prelude.{map};
ghost use Rattle.ffs_check.specs.Run.{RunsProgramFlushed, images_of, run_moment, surroundings};
ghost use Rattle.ffs_finding.specs.Run.{ffs_find};

use crate::find::find_in;
use crate::request::Command;
use crate::words::{asked_of, operands_of};
use crate::wrong_words::refusal_of;
use clap::error::ErrorKind;
use ffs_check::opener::Opener;
use ffs_check::program::{Asked, NotAsked, Program};
use ffs_check::run::run_program;
use ffs_image::{Image, RawImage, System};
use ffs_memory::SystemMemory;
use ffs_report::{Outlet, Output};
use std::alloc::Global;

/// The program `ffs_find`. A request is a command.
#[derive(Clone, Copy, Debug)]
pub struct Find;

impl Program for Find {
    type Request = Command;

    ghost meaning = { ffs_find };

    fn request_of<'a>(alloc: Global, words: &'a [&'a str]) -> Result<Asked<'a, Command>, NotAsked> {
        match operands_of(alloc, words) {
            Ok(operands) => match asked_of(&operands) {
                Some(asked) => Ok(asked),
                None => Err(NotAsked::Refused(refusal_of(ErrorKind::UnknownArgument))),
            },
            Err(error) => match error.kind() {
                ErrorKind::OutOfMemory => Err(NotAsked::NoMemory),
                kind => Err(NotAsked::Refused(refusal_of(kind))),
            },
        }
    }

    // What it promises is `IsFoundIn` (specs/Run): `FindsCommand`, with a memory of the system of
    // which nothing was granted before.
    fn carry_out<I: Image, W: Output>(
        alloc: Global,
        image: &mut I,
        asked: &Asked<'_, Command>,
        out: &mut W,
    ) -> u8 {
        let mut memory = SystemMemory::new(alloc);
        find_in(&mut memory, image, asked.request, out)
    }
}

/// Finds in a file what the words ask for, and returns the exit status: 0, 1 where a defect was
/// found, 2 where the words are wrong, or 8 where it didn't run to its end. `words` are
/// those after the program's name.
///
/// What is found goes to `out`, which is flushed after it; a failed flush is status 8, as a failed
/// write is. Only the text for wrong words, and that of the help and the version, goes to `errors`:
/// nothing is printed to `out` or flushed then.
pub fn run<Y: System, S: Outlet, E: Outlet>(
    system: &mut Y,
    alloc: Global,
    words: &[&str],
    out: &mut S,
    errors: &mut E,
) -> u8
    ensures { RunsProgramFlushed ffs_find
        (surroundings (images_of ⟦<RawImage<Y::File> as Image>⟧ ⟦<Y as Opener>⟧) S.Outlet E.Outlet)
        (map (λ word. word.now) words.now) (run_moment system.old out.old errors.old)
        (run_moment system.new out.new errors.new) result }
{
    run_program::<Find, _, _, _>(system, alloc, words, out, errors)
}

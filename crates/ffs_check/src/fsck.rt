//! The program `fsck_ffs`: a check of the image that its words name.
ghost use Rattle.ffs_check.specs.Fsck.{fsck_ffs};

use crate::args::Args;
use crate::check::check;
use crate::parse_args::parse_args;
use crate::program::{Asked, NotAsked, Program};
use crate::wrong_words::refusal_of;
use clap::error::ErrorKind;
use ffs_image::Image;
use ffs_report::Output;
use std::alloc::Global;

/// The program `fsck_ffs`. A request is the sector of the superblock, if one is asked for.
#[derive(Clone, Copy, Debug)]
pub struct Fsck;

impl Program for Fsck {
    type Request = Option<u32>;

    ghost meaning = { fsck_ffs };

    fn request_of<'a>(
        alloc: Global,
        words: &'a [&'a str],
    ) -> Result<Asked<'a, Option<u32>>, NotAsked> {
        match parse_args(alloc, words) {
            Ok(args) => Ok(Asked {
                name: args.name,
                request: args.sector,
            }),
            Err(error) => match error.kind() {
                ErrorKind::OutOfMemory => Err(NotAsked::NoMemory),
                kind => Err(NotAsked::Refused(refusal_of(kind))),
            },
        }
    }

    // What it promises is `IsChecked` (specs/Fsck): the clauses of `check`, and the status of its end.
    fn carry_out<I: Image, W: Output>(
        alloc: Global,
        image: &mut I,
        asked: &Asked<'_, Option<u32>>,
        out: &mut W,
    ) -> u8 {
        let args = Args {
            name: asked.name,
            sector: asked.request,
        };
        check(alloc, image, &args, out).status()
    }
}

//! What the programs have in common: each reads its words, opens the image that they name, and
//! carries out what they ask for. `run` runs one, and `specs/Program.antt` says what each promises.
ghost use Rattle.std.specs.Prelude.{◌≡◌, map, MatchResult};
ghost use Rattle.ffs_check.specs.{Moment.moment, Program.Meaning, Refusals.IsNotAsked};

use crate::refusal::Refusal;
use ffs_image::Image;
use ffs_report::Output;
use std::alloc::Global;

/// What words ask for.
#[derive(Clone, Copy, Debug)]
pub struct Asked<'a, R> {
    /// The name of the image, as it was given.
    pub name: &'a str,
    /// What is asked for of the image.
    pub request: R,
}

/// Why words ask for nothing.
#[derive(Clone, Copy, Debug)]
pub enum NotAsked {
    /// They are wrong, or ask for the help or the version.
    Refused(Refusal),
    /// Memory was refused while they were read.
    NoMemory,
}

/// A program that works on one image, which its words name.
pub trait Program {
    /// What its words ask for of the image.
    type Request: Copy;

    /// What it promises: what its words ask for, and what it prints of an image.
    ghost meaning: { Meaning Self.Request };

    /// Reads the words after the program's name.
    ///
    /// # Errors
    /// Words that are wrong, a call for the help or the version, and memory that was refused.
    fn request_of<'a>(
        alloc: Global,
        words: &'a [&'a str],
    ) -> Result<Asked<'a, Self::Request>, NotAsked>
        ensures { MatchResult result (λ asked.
            meaning.asks (map (λ word. word.now) words.now) asked.name.now asked.request)
            (IsNotAsked meaning (map (λ word. word.now) words.now)) };

    /// Carries out on an image what is asked for, prints what it finds, and returns the exit status.
    fn carry_out<I: Image, W: Output>(
        alloc: Global,
        image: &mut I,
        asked: &Asked<'_, Self::Request>,
        out: &mut W,
    ) -> u8
        // It prints and ends as the program promises, and the output holds the reference that it
        // held.
        ensures carries_out { meaning.carries_out asked.now.name.now asked.now.request
            (moment I.Image W.Output image.old out.old) (moment I.Image W.Output image.new out.new)
            result }
        ensures holds { (W.sink out.new).holds ≡ (W.sink out.old).holds };
}

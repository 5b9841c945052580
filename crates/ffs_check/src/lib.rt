//! The whole check of an image of a UFS1 file system, after fsck(8): its opening, its phases, its
//! end, and its arguments.
//!
//! `check` prints the report of an image and returns how the check ends. `Headline` is the first
//! clause of its contract: where the image gives its bytes, the whole report if no read and no
//! write fails and the memory is granted, else what is left of it. The others say how many reads
//! and writes failed, what memory is taken, and how often the image is read. `check_rest` prints
//! the text after the mount line; its clause is `RunsToEnd`.
//!
//! ```text
//! let end = check(alloc, &mut image, &args, &mut out);
//! ExitCode::from(end.status())
//! ```
//!
//! Its modules:
//!
//! - `check` is the whole check, and how it ends. `opening` says what comes before the phases, and
//!   `phases` runs these one after another.
//! - `run` goes from the words of a command line to what any `program` does with the image that
//!   they name: `words` are those that programs have in common, `opener` opens the image, and
//!   `refusal` writes why none is opened. `start` makes the process of a program: its words, its
//!   streams, and its status. A program is started by `start`, which calls `run_program`;
//!   `run_over` and `run` are the same at `Fsck`, for callers of the library.
//! - `fsck` is the program `fsck_ffs`: `args` is what its words may ask for, `parse_args` finds that
//!   by `clap`, `wrong_words` has its texts where no check is run, and `version` what it is.
//!
//! It rests on all crates of phases, and on `clap` for the arguments.
#![tactic(auto)]

pub mod args;
pub mod check;
pub mod fsck;
pub mod opener;
pub mod opening;
mod parse_args;
pub mod phases;
pub mod program;
pub mod refusal;
pub mod run;
pub mod start;
pub mod version;
pub mod words;
mod wrong_words;

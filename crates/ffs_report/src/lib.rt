//! The lines of a report, and where their bytes go.
//!
//! `Report::say` writes exactly the bytes of its line, or writes a prefix of them and returns a
//! fault; after a fault each later line fails and writes nothing. A line goes out as one piece
//! where it has room in a buffer of 2,048 bytes. A `Line` is a message with its values; it prints
//! the texts of `ffs_volume::texts` that `Messages/Texts` of the definitions gives it. Those on
//! directories, entries and references have types of their own (`DirectoryLine`, `DotLine`,
//! `EntryLine`, `ReferenceLine`). `print` prints bytes, numbers and the parts of a line, each a
//! `Piece`.
//!
//! The chain is `Report` over `Output` over `Outlet`: a report prints to an `Output`; `Counted` is
//! one over an `Outlet`, any std writer, and counts its failures, each an `OutFault`. A `Sink` is
//! what contracts know of an output. A `MutedWriter` passes nothing on after its first failure, and
//! a `FuseWriter` fails after some bytes.
//!
//! Its modules: `line` has the lines, `report` says them, and `print_line` prints the text of one,
//! by `tree_lines` where it is on directories, entries or references. `dup_line` keeps the line of
//! a duplicate. `print` prints bytes and numbers, `piece` has the parts of a line, and
//! `line_buffer` gathers one. `output`, `counted` and `outlet` are the chain, `muted` and `fuse`
//! are writers, and `fault` is what a phase returns.
//!
//! What each phase owes is said here too: `PhaseReports` says in one clause what was printed at Ok
//! (all lines of the phase), at a failed read (a prefix of them, in whole lines) and at a failed
//! write (a prefix of their bytes); `ImageAfter` says what became of the image. `RunFault` is the
//! error of every phase.
//!
//! ```text
//! let mut report = Report::new(&mut out);
//! report.say(&Line::Heading(Heading::Phase1))?;
//! ```
//!
//! It rests on `ffs_volume`, `ffs_image` and `ffs_memory`.
#![tactic(auto)]

mod counted;
mod dup_line;
mod fault;
mod fuse;
mod line;
mod line_buffer;
mod muted;
mod outlet;
mod output;
mod piece;
pub mod print;
mod print_line;
mod report;
mod tree_lines;

pub use counted::Counted;
pub use fault::RunFault;
pub use ffs_volume::tree_lines::{DirectoryLine, DotLine, EntryLine, ReferenceLine};
pub use fuse::FuseWriter;
pub use line::{Heading, Line};
pub use muted::MutedWriter;
pub use outlet::Outlet;
pub use output::{OutFault, Output};
pub use piece::Piece;
pub use report::Report;

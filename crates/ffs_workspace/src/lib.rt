//! The one workspace of a check: all its memory, and what it holds between the phases.
//!
//! `Workspace::in_memory` takes all memory of a check, and `Workspace::new` does so from an
//! allocator. The lists have the lengths that the geometry asks for. `held`, in bytes, is at most
//! `held_limit` (`Report/Memory` of `ffs_volume`). Each window of `Windows` holds what the image
//! gives at a known place; that of the inode table is a `Table`.
//!
//! What its lists of numbers hold is made and read by functions: `note_of` makes the note of an
//! inode, which `cut_in` and `address_in` read; `word_of_part` makes the word of a directory, in which
//! `noted_part` finds the part of the image that has the parent entry (of `part_size` bytes), and
//! `is_due`, `with_due` and `without_due` ask and change whether this entry is due. A count of
//! references starts at `links_start`. `sweep_reads`, `PATH_READS`, `LINE_READS` and
//! `RUNS_WITHOUT_CLAIM` are the limits of what a phase reads and looks at.
//!
//! ```text
//! let mut workspace = Workspace::new(alloc, &geometry)?;
//! ```
//!
//! It rests on `ffs_walk` and `ffs_maps`.
#![tactic(auto)]

mod limits;
mod links;
mod notes;
mod places;
mod table;
mod workspace;

pub use limits::{LINE_READS, PATH_READS, RUNS_WITHOUT_CLAIM, sweep_reads};
pub use links::links_start;
pub use notes::{address_in, cut_in, note_of};
pub use places::{is_due, noted_part, part_size, with_due, without_due, word_of_part};
pub use table::Table;
pub use workspace::{Windows, Workspace};

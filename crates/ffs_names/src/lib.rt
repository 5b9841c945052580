//! The directories of a volume: their chunks and entries, and their survey.
//!
//! `Entries::next` returns the entries of a directory in their order, from the Runs that its inode
//! keeps; `ChunkEntries` gives those of one chunk, `Chunks` the chunks, and `gap_of` whether there
//! is a hole among them. `role_of` says what part an entry has, and `is_one_dot` and `is_two_dots`
//! what its name is. `survey` leaves in the workspace how often each inode is referred to, which
//! directories are reached from inode 2, and the parent of each directory. `note_places` notes
//! where in the image the parent entries of these directories are.
//!
//! ```text
//! survey(&geometry, &mut image, &mut workspace)?;
//! ```
//!
//! Its modules:
//!
//! - `run_cursor` gives the chunks of one Run, and `chunks` those of a directory.
//! - `gap` looks for a hole among them.
//! - `role` says what part an entry has.
//! - `one_chunk` makes the inode of a directory whose only chunk is noted.
//! - `chunk_entries` gives the entries of a chunk, and `entries` those of a directory.
//! - `reader` is what a survey goes over: the directories of an image.
//! - `surveying` is the survey: `survey_directories` of `ffs_survey` with that reader and the
//!   workspace's lists.
//! - `places` notes where parent entries are.
//!
//! It rests on `ffs_survey`, `ffs_workspace` and `ffs_walk`.
#![tactic(auto)]

mod chunk_entries;
mod chunks;
mod entries;
mod gap;
mod one_chunk;
mod places;
mod reader;
mod role;
mod run_cursor;
mod surveying;

pub use chunk_entries::ChunkEntries;
pub use chunks::Chunks;
pub use entries::Entries;
pub use gap::gap_of;
pub use places::note_places;
pub use role::{is_one_dot, is_two_dots, role_of};
pub use surveying::survey;

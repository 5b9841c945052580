//! Phase 2: the pathname check (fsck(8)).
//!
//! `phase2` says the pathname check's text, returns whether the check continues after the root
//! (`Root`), and leaves what the survey of directories found.
//!
//! ```text
//! let root = phase2(&geometry, &mut image, &mut workspace, &mut report)?;
//! ```
//!
//! Its modules, in the order to read them: each rests on those before it.
//!
//! - `say` says a line where it holds.
//! - `inodes` has what is known of the inodes that entries name.
//! - `verdict` finds and says what is wrong with an entry, by that.
//! - `look` reads a directory once: its inode, then its chunks, then their entries, by the verdict
//!   on each.
//! - `paths` writes the path of a directory for one line, within a limit on reads.
//! - `entry_texts` has the texts that lines of entries show, and makes the path of the directory that
//!   the entries are in, once for all of its lines.
//! - `header` finds and says what is wrong with a directory's size, its chunks and its first two
//!   entries.
//! - `gather` puts together what the lines of one entry show.
//! - `one_entry` says these lines, by the verdict on it.
//! - `checking` has what is carried from one directory to the next: these texts, and how many reads
//!   are left for first looks and second readings.
//! - `entries` reads a directory's chunks again where something is to be said of their entries.
//! - `directories` goes over the directories by number, once the places of parent entries are noted
//!   (`ffs_names::note_places`), and checks each that isn't known to be calm.
//! - `pass2` is the phase: it makes the survey, clears the flags of suspect inodes, since from here
//!   on such a flag says that an entry has named the inode (the others still say which directories
//!   are calm), reports the root, and goes over the directories.
//!
//! It rests on `ffs_paths`, `ffs_names` and `ffs_report`.
#![tactic(auto)]

mod checking;
mod directories;
mod entries;
mod entry_texts;
mod gather;
mod header;
pub mod inodes;
mod look;
mod one_entry;
mod pass2;
mod paths;
mod say;
pub mod verdict;

pub use pass2::{Root, phase2};

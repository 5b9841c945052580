//! What a report of `fsck_ffs` sends people to look for in an image of a UFS1 file system: copies
//! of the superblock, inodes, lost fragments, owners of a fragment, and fields that a kernel
//! computes with. It is the program `ffs_find`, as a library.
//!
//! `find_in` prints the lines of a command, and returns its status. Of an image that gives its
//! bytes `ffs_find` prints the lines of its command, as defined (`FindsCommand`); which lines these
//! are is in the book (`Find` of `ffs_volume`). Of any image `FindsCommand` says which status
//! follows from what was printed, what is left where the superblock is refused, a read or a write
//! failed, or memory was refused, what memory was taken, and how often the image was read.
//!
//! ```text
//! let target = Target::Inode { number: 2 };
//! let command = Command::InVolume { target, sector: None };
//! let status = find_in(&mut memory, &mut image, command, &mut out);
//! ```
//!
//! Its modules:
//!
//! - `copies`, `inode`, `fields`, `lost` and `owner` are the commands, and `find` puts them together.
//!   `claims` runs phase 1 for the last two, and `group_map` is the map of a group. `request` is what
//!   may be asked for.
//! - `run` goes from the words of a command line to what is found in the image that they name:
//!   `words` are read by `clap`. `wrong_words` says what is written where these don't say what to
//!   find.
//!
//! It rests on `ffs_check` for a run and for the image that a name opens, on `ffs_claims` for phase
//! 1, on `ffs_groups` for maps, on `ffs_walk` for walks and windows, and on `clap`.
#![tactic(auto)]

mod claims;
mod copies;
mod fields;
mod find;
mod group_map;
mod inode;
mod lost;
mod owner;
pub mod request;
pub mod run;
mod words;
mod wrong_words;

pub use find::find_in;

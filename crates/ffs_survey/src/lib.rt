//! A survey of directories: which inodes are reached from inode 2, the parent of each directory,
//! and how many entries refer to each inode. It works over any reader of directories
//! (`Directories`), and holds no entry. `survey` of `ffs_names` is the survey of the directories of
//! an image, which phase 2 calls.
//!
//! `survey_directories` goes by `KnownInodes`, is given each entry as an `EntryHead`, and leaves in
//! `FoundLists` what is reached, parents and references as the definitions have them;
//! `may_be_unreached` says whether a directory may be unreached. `is_plain` asks this of an entry,
//! `is_dir`, `is_suspect` and `is_dead` of an inode; `number_of` looks up a parent.
//!
//! ```text
//! survey_directories(&mut directories, &inodes, &mut found)?;
//! ```
//!
//! Its modules, each over those before it:
//!
//! - `entry_head` is what a survey is given of an entry, and `directories` the trait of a reader.
//! - `numbers` looks up kinds and parents.
//! - `lists` has the lists of a survey.
//! - `suspects` says which inodes are suspect or dead.
//! - `discover` reads a directory, or a level of directories: what their entries name.
//! - `levels` is the survey: level after level, and then the directories that aren't reached.
//!
//! The lists of a survey have these views. In code a caller lends `KnownInodes`, what the survey
//! goes by, and `FoundLists`, what it fills; within the survey both together are `Lists`.
//! `LentDir` is one directory with the lists that its entries are compared with. In contracts all
//! that the lists hold is `Found`: `all_found` gives it of `Lists`, `found_up_to` with the queue cut
//! at its end, and `found_by` of the two that are lent; the directory with its lists is the book's
//! `CurrentDir`.
//!
//! It rests on `ffs_volume`, `ffs_image` and `ffs_memory`.
#![tactic(auto)]

mod directories;
mod discover;
mod entry_head;
mod levels;
mod lists;
mod numbers;
mod suspects;

pub use directories::Directories;
pub use entry_head::{EntryHead, is_plain};
pub use levels::{may_be_unreached, survey_directories};
pub use lists::{FoundLists, KnownInodes};
pub use numbers::{is_dir, number_of};
pub use suspects::{is_dead, is_suspect};

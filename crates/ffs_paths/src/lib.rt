//! The paths of directories and of their entries.
//!
//! A path is written into a `PathText` of 1,024 bytes: the definition's path, cut to `?` and its
//! longest end of whole names where it is longer. Phase 2 goes by two types: `KeptParent` makes the
//! paths of one directory after another, and keeps that of the last one's parent for the next;
//! `EntryPaths` writes those of a directory's entries. Both are made of `directory_path`, which
//! makes a `DirectoryPath`; its names are in a `PathBuffer`. `path_of`, for callers of the library,
//! writes one path, of a directory or of an entry of it. The name of a directory in its parent is
//! read from the chunk that the workspace notes as its place, and where it isn't there, searched in
//! all entries of the parent. Of an image that gives its bytes, where the place of each directory
//! is noted, `path_of` makes at most 513 reads, and a call of `KeptParent` 514: 513 for the
//! parent's path, and one for the directory's own name. Where some places aren't noted, `path_of`
//! may read all of a parent too for a name: its inode and each of its Runs.
//!
//! ```text
//! path_of(&geometry, &mut image, &mut workspace, 2, Some(b"file"), &mut text)?; // "/file"
//! ```
//!
//! It rests on `ffs_names` and `ffs_workspace`.
#![tactic(auto)]

mod buffer;
mod entry_paths;
mod kept_parent;
mod name;
mod name_text;
mod path;

pub use buffer::{PathBuffer, PathText};
pub use entry_paths::EntryPaths;
pub use kept_parent::KeptParent;
pub use path::{DirectoryPath, directory_path, path_of};

//! What an inode is, in one byte.

use crate::Label;
use crate::constants::{DT_DIR, EMPTY_DIR_KIND, UNKNOWN_KIND};

/// What an inode is, as lists keep it: 0 where nothing is allocated, `UNKNOWN_KIND` where its class
/// is Unknown, `EMPTY_DIR_KIND` for a directory of size 0, else the type of the file or directory,
/// as in an entry (dir(5)).
#[derive(Clone, Copy, Debug, PartialEq, Eq)]
pub struct Kind {
    /// The number by which a list keeps it.
    pub code: u8,
}

impl Kind {
    ghost use Rattle.std.specs.Prelude.{◌≡◌};
    ghost use Rattle.ffs_volume.specs.Blocks.Inodes.{is_file_or_dir};
    ghost use Rattle.ffs_volume.specs.Directories.PathnameCheck.{label_of};
    ghost use Rattle.ffs_volume.specs.Encodings.Kinds.{class_of_kind, is_allocated_kind, is_dir_kind, is_empty_dir_kind, is_unknown_kind, type_of_kind};

    /// Whether the inode is allocated.
    pub fn is_allocated(self) -> bool
        ensures { result ≡ is_allocated_kind self.code }
    {
        self.code != 0
    }

    /// Whether it is a directory.
    pub fn is_dir(self) -> bool
        ensures { result ≡ is_dir_kind self.code }
    {
        self.code == DT_DIR || self.code == EMPTY_DIR_KIND
    }

    /// Whether it is a directory of size 0.
    pub fn is_empty_dir(self) -> bool
        ensures { result ≡ is_empty_dir_kind self.code }
    {
        self.code == EMPTY_DIR_KIND
    }

    /// Whether its class is Unknown.
    pub fn is_unknown(self) -> bool
        ensures { result ≡ is_unknown_kind self.code }
    {
        self.code == UNKNOWN_KIND
    }

    /// Whether it is a file or a directory.
    pub fn is_file_or_dir(self) -> bool
        ensures { result ≡ is_file_or_dir (class_of_kind self.code) }
    {
        self.is_allocated() && !self.is_unknown()
    }

    /// The type that an entry gives a file or directory (dir(5)).
    pub fn entry_type(self) -> u8
        ensures { result ≡ type_of_kind self.code }
    {
        if self.is_dir() { DT_DIR } else { self.code }
    }

    /// What messages call it.
    pub fn label(self) -> Label
        ensures { result ≡ label_of (class_of_kind self.code) }
    {
        match self.code {
            DT_DIR | EMPTY_DIR_KIND => Label::Dir,
            0 | UNKNOWN_KIND => Label::Name,
            _ => Label::File,
        }
    }
}

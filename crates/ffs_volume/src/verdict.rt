//! What is wrong with a plain entry, and with a directory before its entries, as values: the
//! messages on both follow from them (`Directories/PathnameCheck` of the definitions). `verdict`
//! and `header` of `ffs_pathnames` find them.
use crate::Label;

/// What is wrong with a plain entry that names an allocated inode, and what messages on it show.
#[derive(Clone, Copy, Debug, PartialEq, Eq)]
pub struct EntryDefects {
    /// The inode is suspect, and this entry is the first plain one that names it.
    pub first_of_suspect: bool,
    /// The inode is marked: then a message on a suspect one isn't of a directory of size 0.
    pub marked: bool,
    /// The inode is a directory, and this entry isn't its parent entry.
    pub extraneous: bool,
    /// The entry's type isn't the inode's.
    pub wrong_type: bool,
    /// What messages call the inode.
    pub label: Label,
}

/// The verdict on a plain entry.
/// Three variants have the name of their message (`EntryLine`).
#[derive(Clone, Copy, Debug, PartialEq, Eq)]
pub enum Verdict {
    /// It names an inode that the volume doesn't have.
    OutOfRange,
    /// It has the number or the type of a whiteout, and not both.
    BadWhiteout,
    /// It is a whiteout.
    Whiteout,
    /// It names an inode that isn't allocated.
    Unallocated,
    /// It names an allocated inode.
    Named(EntryDefects),
}

impl Verdict {
    ghost use Rattle.std.specs.Prelude.{◌≡◌};
    ghost use Rattle.ffs_volume.specs.Directories.PathnameCheck.{is_silent};

    /// Whether there is no message by it.
    pub fn is_silent(&self) -> bool
        ensures { result ≡ is_silent self.now }
    {
        match self {
            Verdict::Whiteout => true,
            Verdict::OutOfRange | Verdict::BadWhiteout | Verdict::Unallocated => false,
            Verdict::Named(defects) => {
                !(defects.first_of_suspect || defects.extraneous || defects.wrong_type)
            }
        }
    }
}

/// What is wrong with `.`, the first entry of a directory, or with `..`, the second. A name, `P`,
/// is as in `tree_lines`.
#[derive(Clone, Copy, Debug)]
pub enum DotDefects<P> {
    /// It isn't there, and no name in its place is shown.
    Missing,
    /// Another entry is in its place, with this name.
    Other {
        name: P,
    },
    /// It is there: whether its number is wrong, and whether its type is.
    Found {
        wrong_number: bool,
        wrong_type: bool,
    },
}

/// What is wrong with a directory before its entries are looked at.
#[derive(Clone, Copy, Debug)]
pub struct HeaderDefects<P> {
    /// Its size is less than that of `.` and `..`.
    pub short: bool,
    /// It isn't short, and its size is no multiple of a chunk.
    pub partial_chunk: bool,
    /// It has a hole.
    pub gap: bool,
    /// A chunk of it isn't sound.
    pub unsound: bool,
    /// What is wrong with `.`.
    pub dot: DotDefects<P>,
    /// What is wrong with `..`.
    pub dotdot: DotDefects<P>,
}

impl<P> DotDefects<P> {
    ghost use Rattle.std.specs.Prelude.{◌≡◌};
    ghost use Rattle.ffs_volume.specs.Directories.PathnameCheck.{is_dot_silent};

    /// Whether there is no message by it.
    pub fn is_silent(&self) -> bool
        ensures { result ≡ is_dot_silent self.now }
    {
        match self {
            DotDefects::Missing | DotDefects::Other { .. } => false,
            DotDefects::Found {
                wrong_number,
                wrong_type,
            } => !(*wrong_number || *wrong_type),
        }
    }
}

impl<P> HeaderDefects<P> {
    ghost use Rattle.std.specs.Prelude.{◌≡◌};
    ghost use Rattle.ffs_volume.specs.Directories.PathnameCheck.{is_header_silent};

    /// Whether there is no message by it.
    pub fn is_silent(&self) -> bool
        ensures { result ≡ is_header_silent self.now }
    {
        !(self.short || self.partial_chunk || self.gap || self.unsound)
            && self.dot.is_silent()
            && self.dotdot.is_silent()
    }
}

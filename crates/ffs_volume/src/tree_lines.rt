//! The messages on directories, their entries and the references to inodes. A path, or a name, is a
//! `P`: its bytes in code, the list of its bytes in the definitions. `tree_lines` of `ffs_report`
//! prints them.
use crate::{Attr, Label};

/// What is wrong with a directory as a whole: `attr` has its attributes, `path` is its path
/// (dir(5)).
#[derive(Clone, Copy, Debug)]
pub enum DirectoryLine<P> {
    /// Inode 2 isn't allocated.
    RootNone,
    /// Inode 2 is no directory.
    RootNotDir,
    /// Inode 2 is marked, or has size 0.
    RootSuspect,
    /// It has fewer than 24 bytes.
    DirShort { attr: Attr, path: P },
    /// Its size, in bytes, is no multiple of 512.
    DirLength { path: P, size: u64 },
    /// It has a hole (CONTAINS EMPTY BLOCKS). This isn't a directory of size 0.
    DirHoles { path: P },
    /// A chunk of it isn't sound.
    DirCorrupt { attr: Attr, path: P },
}

/// What is wrong with the entries `.` and `..` of a directory: `attr` has the directory's
/// attributes, `path` is its path (dir(5)).
#[derive(Clone, Copy, Debug)]
pub enum DotLine<P> {
    /// The first entry isn't `.`.
    MissingDot { attr: Attr, path: P },
    /// The first entry has this name in place of `.`.
    MissingDotFirst { attr: Attr, path: P, name: P },
    /// `.` has another number than the directory.
    NumberDot { attr: Attr, path: P },
    /// `.` hasn't the type of a directory.
    TypeDot { attr: Attr, path: P },
    /// The second entry isn't `..`.
    MissingDotdot { attr: Attr, path: P },
    /// The second entry has this name in place of `..`.
    MissingDotdotSecond { attr: Attr, path: P, name: P },
    /// `..` has another number than the directory's parent.
    NumberDotdot { attr: Attr, path: P },
    /// `..` hasn't the type of a directory.
    TypeDotdot { attr: Attr, path: P },
    /// There is a `.` that isn't the first entry of the chunk at the start of the file.
    ExtraDot { attr: Attr, path: P },
    /// There is a `..` that isn't the second entry of the chunk at the start of the file.
    ExtraDotdot { attr: Attr, path: P },
}

/// What is wrong with an entry: `attr` has the attributes of the inode that it names, `path` is the
/// entry's path (dir(5)).
#[derive(Clone, Copy, Debug)]
pub enum EntryLine<P> {
    /// It has a number that no inode of the volume has.
    OutOfRange { number: u32, path: P },
    /// It has the number or the type of a whiteout, and not both.
    BadWhiteout { number: u32, path: P },
    /// It names an inode that isn't allocated.
    Unallocated { attr: Attr, path: P },
    /// It names an inode that is marked.
    DupBad { label: Label, attr: Attr, path: P },
    /// It names a directory of size 0.
    ZeroDir { attr: Attr, path: P },
    /// It is a further name of a directory, whose own path is `dir_path`.
    Extraneous { path: P, dir_path: P },
    /// Its type isn't that of the inode.
    TypeEntry { label: Label, attr: Attr, path: P },
}

/// What is wrong with an inode by the entries that name it: `attr` has its attributes.
#[derive(Clone, Copy, Debug)]
pub enum ReferenceLine {
    /// A directory that can't be reached from the root (phase 3).
    UnrefDir {
        attr: Attr,
    },
    /// A marked inode that no plain entry names (phase 4, as all that follow).
    DeadMarked {
        label: Label,
        attr: Attr,
    },
    /// A directory of size 0 that no plain entry names.
    DeadZero {
        attr: Attr,
    },
    /// A file or a directory without a reference, whose count of links isn't 0.
    Unref {
        label: Label,
        attr: Attr,
    },
    /// A file or a directory without a reference, whose count of links is 0.
    UnrefZero {
        label: Label,
        attr: Attr,
    },
    /// A count of links that isn't the right one, the number of references.
    LinkCount {
        label: Label,
        attr: Attr,
        count: i16,
        right: u64,
    },
}

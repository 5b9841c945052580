//! The lines of a report.
use ffs_volume::tree_lines::{DirectoryLine, DotLine, EntryLine, ReferenceLine};
use ffs_volume::{BlockMessage, SuperFault};

/// A line of a report, with its questions: what `say` prints (fsck(8)). It is a message of the
/// report (`Message` of the definitions).
#[derive(Clone, Copy, Debug)]
pub enum Line<'a> {
    /// The sector of the superblock that was asked for, of 512 bytes.
    Location {
        sector: u32,
    },
    /// The image's name, as it was given.
    ImageName {
        name: &'a str,
    },
    /// Why the superblock is refused.
    BadSuper(SuperFault),
    /// A read failed that begins at this sector, of 512 bytes.
    CannotRead {
        sector: u64,
    },
    /// The memory of the check was refused.
    CannotAlloc,
    /// The superblock's optimization is neither time nor space (fs(5)).
    Optimization,
    /// The superblock's minfree is no percentage (fs(5)).
    Minfree {
        value: i32,
    },
    /// The mount point, without the NUL after it.
    Mounted {
        mount: &'a [u8],
    },
    /// A phase begins.
    Heading(Heading),
    /// The block check, or the check of cylinder groups.
    Block(BlockMessage),
    /// A directory as a whole.
    Directory(DirectoryLine<&'a [u8]>),
    /// The entries `.` and `..` of a directory.
    Dot(DotLine<&'a [u8]>),
    /// A further entry of a directory.
    Entry(EntryLine<&'a [u8]>),
    /// An inode by the entries that name it.
    Reference(ReferenceLine),
    /// What the volume holds: its files and directories; the claimed fragments, `used` (reserved
    /// ones don't count); by the superblock's counts, the free fragments in all, the loose ones and
    /// the free blocks; and the loose ones in tenths of a percent of the data fragments.
    Summary {
        files: u32,
        used: u32,
        free: i64,
        frags: i32,
        blocks: i32,
        tenths: i64,
    },
}

/// The headings of the phases.
#[derive(Clone, Copy, Debug, PartialEq, Eq)]
pub enum Heading {
    /// The block check.
    Phase1,
    /// The rescan for the first kept offers of fragments with a DUP line.
    Phase1b,
    /// The pathname check.
    Phase2,
    /// The connectivity check.
    Phase3,
    /// The reference check.
    Phase4,
    /// The group check.
    Phase5,
}

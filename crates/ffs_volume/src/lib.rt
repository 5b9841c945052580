//! What a UFS1 volume is: the definitions that contracts cite, and the types that they share with
//! code.
//!
//! The definitions are a book, in `specs/`: folders by subject, in the order that `specs/Lib.antt`
//! gives. The types are `Layout` of a superblock, with `LAYOUT_PLACES`, `Order` and `SuperFault`;
//! `Inode`, `Class` and `Step` of inodes and their blocks; `Role` of entries; `BlockMessage`,
//! `Attr` and `Label` of messages; and `End` of a check. What runs here is small: `End::status`,
//! `Attr::of`, `is_silent` of the types of `verdict`, and the methods of `kinds::Kind`. `constants`
//! has the numbers of the format, `texts` the texts of messages, `tree_lines` the messages on
//! directories, entries and references, `verdict` what is wrong with a directory and with an entry,
//! and `laws` states laws and worked examples of the definitions. The lemmas that the crates above
//! use are in `proofs/`.
//!
//! A contract cites a definition by its name. Of an end of a check it says that the status is the
//! book's (`Report/Whole`):
//!
//! ```text
//! pub fn status(&self) -> u8
//!     ensures { result ≡ status_of self.now }
//! ```
//!
//! It rests on no other crate of this repository.
#![tactic(auto)]

pub mod constants;
pub mod kinds;
pub mod laws;
pub mod texts;
pub mod tree_lines;
pub mod verdict;

/// The order of the bytes in the numbers of an image.
#[derive(Clone, Copy, Debug, PartialEq, Eq)]
pub enum Order {
    /// The least significant byte first.
    Little,
    /// The most significant byte first.
    Big,
}

/// Why a superblock is refused, in the order in which faults are looked for (fs(5)).
#[derive(Clone, Copy, Debug, PartialEq, Eq, thiserror::Error)]
pub enum SuperFault {
    /// It can't be read or passes the image's end; or its last copy can't be read, which is found
    /// after `Short`. The sector, of 512 bytes, is the one where the read begins.
    #[error("the superblock can't be read at sector {sector}")]
    CannotRead { sector: u64 },
    /// The magic number isn't right in either byte order.
    #[error("the magic number is wrong")]
    Magic,
    /// The format of inodes (`inodefmt`) isn't that of 4.4BSD.
    #[error("the format of inodes isn't supported")]
    InodeFormat,
    /// There is no cylinder group.
    #[error("there is no cylinder group")]
    Ncg,
    /// A group has no cylinder.
    #[error("a cylinder group has no cylinder")]
    Cpg,
    /// `ncg` groups of `cpg` cylinders, the last perhaps of fewer, don't make `ncyl` cylinders.
    #[error("the groups don't make the cylinders")]
    Ncyl,
    /// The superblock says that it has more than 8,192 bytes.
    #[error("the superblock is too large")]
    TooLarge,
    /// The parts of the layout don't fit each other (`is_valid_layout`).
    #[error("the geometry is out of range")]
    Shape,
    /// The volume has more bytes than its image.
    #[error("the volume is larger than the image")]
    Short,
    /// The copy in the last group has another number (`LAYOUT_PLACES`).
    #[error("the last copy has other values")]
    Disagree,
}

/// The numbers of a superblock that say where a volume's parts lie, and those that must be right
/// for it, under their names of fs(5). The parts of group c are counted from `cgstart(c)`, the
/// fragment `fpg*c + cgoffset*(c & !cgmask)`.
#[derive(Clone, Copy, Debug, PartialEq, Eq)]
pub struct Layout {
    /// The byte order of the volume.
    pub order: Order,
    /// Where a group's copy of the superblock begins, in fragments after `cgstart`.
    pub sblkno: u32,
    /// Where its group block begins, in fragments after `cgstart`.
    pub cblkno: u32,
    /// Where its inodes begin, in fragments after `cgstart`.
    pub iblkno: u32,
    /// Where its data begins, in fragments after `cgstart`.
    pub dblkno: u32,
    /// The parts of group c are moved by `cgoffset * (c & !cgmask)` fragments.
    pub cgoffset: i32,
    /// The bits of a group's number that don't move its parts.
    pub cgmask: u32,
    /// How many fragments the volume has.
    pub size: u32,
    /// How many fragments can hold data.
    pub dsize: u32,
    /// How many cylinder groups there are.
    pub ncg: u32,
    /// The size of a block, in bytes.
    pub bsize: u32,
    /// The size of a fragment, in bytes.
    pub fsize: u32,
    /// How many fragments a block has.
    pub frag: u32,
    /// The size of a superblock, in bytes.
    pub sbsize: u32,
    /// How many addresses an indirect block holds.
    pub nindir: u32,
    /// How many inodes a block of the inode table holds.
    pub inopb: u32,
    /// The first fragment of the summary area.
    pub csaddr: u32,
    /// The size of the summary area, in bytes.
    pub cssize: u32,
    /// The size of a group block, in bytes.
    pub cgsize: u32,
    /// How many cylinders the volume has.
    pub ncyl: u32,
    /// How many cylinders a group has.
    pub cpg: u32,
    /// How many inodes a group has.
    pub ipg: u32,
    /// How many fragments a group has.
    pub fpg: u32,
    /// A symbolic link with fewer bytes than this has its text in its inode.
    pub maxsymlinklen: u32,
    /// The format of inodes, which must be 2: that of 4.4BSD.
    pub inodefmt: u32,
    /// The format of the tables of rotational positions, which must be 1.
    pub postblformat: u32,
}

/// The offsets, in bytes, of the numbers in which the last copy of a superblock must agree: all of
/// a `Layout` but `maxsymlinklen`, in the order of the fields, and the magic number last.
pub const LAYOUT_PLACES: [u16; 25] = [
    8, 12, 16, 20, 24, 28, 36, 40, 44, 48, 52, 56, 104, 116, 120, 152, 156, 160, 176, 180, 184,
    188, 1324, 1356, 1372,
];

/// One step of a walk over the addresses of an inode.
#[derive(Clone, Copy, Debug, PartialEq, Eq)]
pub enum Step {
    /// Consecutive fragments at one address, from `start` on `len` of them; `block` is their
    /// logical block, or None for an indirect block.
    Run {
        start: u32,
        len: u32,
        block: Option<u64>,
    },
    /// The indirect block before it has an address past the end of the file.
    Tail,
    /// An address of zero, a hole.
    Gap,
}

/// The class of an inode, by its mode, size and addresses.
#[derive(Clone, Copy, Debug, PartialEq, Eq)]
pub enum Class {
    /// Its mode, size and addresses are 0.
    Free,
    /// Its mode has no type, but its mode, its size or one of its addresses isn't 0.
    Partial,
    /// Its type isn't valid, or it is too large, or an address is set that its size doesn't use.
    Unknown,
    /// Its type is one of the six others than a directory's.
    File,
    /// Its type is that of a directory.
    Dir,
}

/// The numbers of an inode.
#[derive(Clone, Copy, Debug)]
pub struct Inode {
    /// The type in the upper four bits, and the permissions in the others.
    pub mode: u16,
    /// The count of links.
    pub nlink: i16,
    /// The size in bytes.
    pub size: u64,
    /// When it was modified last, in seconds since 1970.
    pub mtime: i32,
    /// The numbers of fragments: twelve direct ones, then the single, double and triple indirect
    /// one; 0 is a hole.
    pub addresses: [u32; 15],
    /// How many sectors of 512 bytes its blocks take, by its own count.
    pub blocks: u32,
    /// The user ID of its owner.
    pub uid: u32,
}

/// How a check ends.
#[derive(Clone, Copy, Debug, PartialEq, Eq)]
pub enum End {
    /// No defect was reported.
    Consistent,
    /// A defect was reported.
    Defects,
    /// The superblock is refused.
    Refused(SuperFault),
    /// Inode 2 is no directory, so the check stopped after the root's line, in phase 2.
    RootStop,
    /// A read at this sector failed.
    ReadFault(u64),
    /// A write failed.
    WriteFault,
    /// The memory of the check was refused.
    NoMemory,
}

impl End {
    ghost use Rattle.ffs_volume.specs.Report.Whole.{status_of};
    ghost use Rattle.std.specs.Prelude.{◌≡◌};

    /// The exit status of a check that ends so: 0 consistent, 1 defects, 8 for a check that isn't
    /// completed (as in fsck(8)).
    pub fn status(&self) -> u8
        ensures { result ≡ status_of self.now }
    {
        match self {
            End::Consistent => 0,
            End::Defects => 1,
            _ => 8,
        }
    }
}

/// A message of the block check or of the check of cylinder groups.
#[derive(Clone, Copy, Debug)]
pub enum BlockMessage {
    /// An inode of class Partial.
    PartAlloc { inode: u32 },
    /// An inode of class Unknown.
    UnknownType { inode: u32 },
    /// A Run that isn't in range, by its first fragment, and its inode.
    Bad { fragment: u32, inode: u32 },
    /// The fragment of a dup offer. Phase 1 gives the inode of each, phase 1b that of the first
    /// kept offer of the fragment.
    Dup { fragment: u32, inode: u32 },
    /// The eleventh bad Run of an inode.
    ManyBad { inode: u32 },
    /// The eleventh dup offer of an inode.
    ManyDup { inode: u32 },
    /// An inode with an indirect block that has an address past the end of the file.
    PartTrunc { inode: u32 },
    /// A wrong count of sectors of 512 bytes: `found` is what the inode has in its blocks field,
    /// `right` what its kept fragments have.
    BlockCount { inode: u32, found: u32, right: u64 },
    /// A group block without its magic number.
    GroupMagic { group: u32 },
    /// Wrong counts of a summary record, or of the superblock.
    FreeCounts,
    /// A wrong map of a group, or one that passes the end of the group block.
    MapsWrong,
    /// Wrong numbers of a group block.
    GroupSums,
}

/// What messages show of an inode.
#[derive(Clone, Copy, Debug, PartialEq, Eq)]
pub struct Attr {
    /// The inode number.
    pub number: u32,
    /// The user ID of the owner.
    pub uid: u32,
    /// The type in the upper four bits, and the permissions in the others.
    pub mode: u16,
    /// The size in bytes.
    pub size: u64,
    /// When it was modified last, in seconds since 1970.
    pub mtime: i32,
}

impl Attr {
    ghost use Rattle.std.specs.Prelude.{◌≡◌};
    ghost use Rattle.ffs_volume.specs.Directories.PathnameCheck.{attributes_of};

    /// What messages show of an inode of this number.
    pub fn of(number: u32, inode: &Inode) -> Attr
        ensures { result ≡ attributes_of number inode.now }
    {
        Attr {
            number,
            uid: inode.uid,
            mode: inode.mode,
            size: inode.size,
            mtime: inode.mtime,
        }
    }
}

/// The role of an entry of a directory.
#[derive(Clone, Copy, Debug, PartialEq, Eq)]
pub enum Role {
    /// Its inode number is 0.
    Empty,
    /// `.` in its place, the first.
    Dot,
    /// `..` in its place, the second.
    Dotdot,
    /// `.` or `..` in another place.
    Extra,
    /// Any other.
    Plain,
}

/// How a message calls an inode.
#[derive(Clone, Copy, Debug, PartialEq, Eq)]
pub enum Label {
    /// A directory.
    Dir,
    /// Any other file.
    File,
    /// Not allocated, or of class Unknown: its path is shown after NAME=.
    Name,
}

//! The numbers of a group block.

ghost use Rattle.std.specs.Prelude.{◌≡◌, ◌≤◌, ◌+◌, length};
ghost use Rattle.ffs_layout.specs.Group.{group_of, group_summary_at};

use crate::numbers::{i32_at, u32_at};
use ffs_volume::Order;

/// The counts of a summary, as an image has them (fs(5), `struct csum`).
#[derive(Clone, Copy, Debug, PartialEq, Eq)]
pub struct GroupSummary {
    /// Directories.
    pub dirs: i32,
    /// Blocks of which all fragments are free.
    pub blocks: i32,
    /// Inodes that are free.
    pub inodes: i32,
    /// Free fragments in blocks that are not all free.
    pub fragments: i32,
}

impl GroupSummary {
    /// The summary in its 16 bytes at `place`: directories, free blocks, free inodes, free
    /// fragments.
    pub fn decode(order: Order, place: usize, bytes: &[u8]) -> GroupSummary
        requires { place + 16 ≤ length bytes.now }
        ensures { result ≡ group_summary_at order place bytes.now }
    {
        GroupSummary {
            dirs: i32_at(order, place, bytes),
            blocks: i32_at(order, place + 4, bytes),
            inodes: i32_at(order, place + 8, bytes),
            fragments: i32_at(order, place + 12, bytes),
        }
    }
}

/// What a group block says of its group (fs(5), `struct cg`).
#[derive(Clone, Copy, Debug, PartialEq, Eq)]
pub struct Group {
    /// The magic number that was read: `CG_MAGIC` where it is right.
    pub magic: u32,
    /// The group's number.
    pub cgx: i32,
    /// How many fragments the group has.
    pub ndblk: i32,
    /// Its summary: directories, free blocks, free inodes and free fragments.
    pub cs: GroupSummary,
    /// At index k, how many stretches of exactly k free fragments there are, within blocks that are
    /// not all free.
    pub frsum: [i32; 8],
    /// Where the map of inodes begins, in bytes from the start of the group block.
    pub iusedoff: u32,
    /// Where the map of fragments begins, in bytes from the start of the group block.
    pub freeoff: u32,
}

impl Group {
    /// The numbers in the first 168 bytes of a group block.
    ///
    /// At byte 4 is the magic number, at 12 the group's number, at 20 the number of its fragments,
    /// at 24 the summary, at 52 the eight counts of stretches, at 92 and 96 the places of the maps.
    /// Each number has 32 bits; all but the magic number and the places are signed.
    pub fn decode(order: Order, bytes: &[u8]) -> Group
        requires { 168 ≤ length bytes.now }
        ensures { result ≡ group_of order bytes.now }
    {
        Group {
            magic: u32_at(order, 4, bytes),
            cgx: i32_at(order, 12, bytes),
            ndblk: i32_at(order, 20, bytes),
            cs: GroupSummary::decode(order, 24, bytes),
            frsum: [
                i32_at(order, 52, bytes),
                i32_at(order, 56, bytes),
                i32_at(order, 60, bytes),
                i32_at(order, 64, bytes),
                i32_at(order, 68, bytes),
                i32_at(order, 72, bytes),
                i32_at(order, 76, bytes),
                i32_at(order, 80, bytes),
            ],
            iusedoff: u32_at(order, 92, bytes),
            freeoff: u32_at(order, 96, bytes),
        }
    }
}

//! The layout in the bytes of a superblock.

ghost use Rattle.std.specs.Prelude.{◌≡◌};
ghost use Rattle.ffs_volume.specs.Disk.Superblock.{layout_of};

use crate::numbers::{count_at, i32_at, u32_at};
use ffs_volume::constants::SUPERBLOCK_BYTES;
use ffs_volume::{Layout, Order};

/// The layout in the bytes of a superblock (fs(5)). A negative number is read as 0, but `cgoffset`
/// keeps its sign, and `cgmask` and `maxsymlinklen` are read unsigned.
#[tactic(auto, unfolding(ffs_volume::specs::Disk::Superblock::layout_of))]
pub fn decode(order: Order, bytes: &[u8; SUPERBLOCK_BYTES]) -> Layout
    ensures { result ≡ layout_of order bytes.now }
{
    Layout {
        order,
        sblkno: count_at(order, 8, bytes),
        cblkno: count_at(order, 12, bytes),
        iblkno: count_at(order, 16, bytes),
        dblkno: count_at(order, 20, bytes),
        cgoffset: i32_at(order, 24, bytes),
        cgmask: u32_at(order, 28, bytes),
        size: count_at(order, 36, bytes),
        dsize: count_at(order, 40, bytes),
        ncg: count_at(order, 44, bytes),
        bsize: count_at(order, 48, bytes),
        fsize: count_at(order, 52, bytes),
        frag: count_at(order, 56, bytes),
        sbsize: count_at(order, 104, bytes),
        nindir: count_at(order, 116, bytes),
        inopb: count_at(order, 120, bytes),
        csaddr: count_at(order, 152, bytes),
        cssize: count_at(order, 156, bytes),
        cgsize: count_at(order, 160, bytes),
        ncyl: count_at(order, 176, bytes),
        cpg: count_at(order, 180, bytes),
        ipg: count_at(order, 184, bytes),
        fpg: count_at(order, 188, bytes),
        maxsymlinklen: u32_at(order, 1320, bytes),
        inodefmt: count_at(order, 1324, bytes),
        postblformat: count_at(order, 1356, bytes),
    }
}

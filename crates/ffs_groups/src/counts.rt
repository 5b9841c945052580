//! The right counts of a cylinder group.

ghost use Rattle.ffs_maps.specs.Bits.{bits_of};
ghost use Rattle.ffs_groups.specs.{Check.AreCounts, Free.free_in, Inodes.class_in, Inputs.HasMaps};

use crate::free::free_counts;
use crate::inodes::inode_counts;
use ffs_layout::Geometry;
use ffs_maps::FragmentMap;

/// What the counts of a group's summary should be.
#[derive(Clone, Copy, Debug)]
pub struct SummaryCounts {
    /// Directories.
    pub dirs: u32,
    /// Blocks of which all fragments are free.
    pub blocks: u32,
    /// Inodes that are free.
    pub inodes: u32,
    /// Free fragments in blocks that are not all free.
    pub fragments: u32,
}

/// What a group's summary and its `cg_frsum` should be (fs(5)).
#[derive(Clone, Copy, Debug)]
pub struct Counts {
    /// The counts of its summary.
    pub summary: SummaryCounts,
    /// At index k, how many stretches of exactly k free fragments lie in blocks that are not all
    /// free (`FreeSpace::frsum`).
    pub frsum: [u64; 9],
}

/// The right counts of a group: of the fragments that are not used, and of the inodes' kinds.
pub fn group_counts(geometry: &Geometry, used: &FragmentMap, kinds: &[u8], group: u32) -> Counts
    requires { HasMaps geometry.now.layout used.now.size kinds.now group }
    ensures { AreCounts geometry.now.layout (free_in (bits_of used.now) geometry.now.layout.size)
        (class_in kinds.now) group result }
{
    let free = free_counts(geometry, used, group);
    let inodes = inode_counts(geometry, kinds, group);
    let frsum = free.frsum;
    Counts {
        summary: SummaryCounts {
            dirs: inodes.dirs,
            blocks: free.blocks as u32,
            inodes: inodes.free,
            fragments: free.fragments as u32,
        },
        frsum,
    }
}

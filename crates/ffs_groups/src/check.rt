//! The records of a cylinder group, compared with what they should be.

ghost use Rattle.std.specs.Prelude.{◌≡◌, ◌<◌, ◌==◌, ◌&&◌, ℕ, List};
ghost use Rattle.ffs_volume.specs.{Disk.Numbers.all_below, Groups.Records.{group_size, has_right_maps, maps_fit}};
ghost use Rattle.ffs_layout.specs.Group.{group_of};
ghost use Rattle.ffs_groups.specs.Check.{AreFound, CanCompareGroup, CanCompareMaps, class_by, free_by, has_bits_of};
ghost use Rattle.ffs_groups.specs.Check.{same_counts, same_frsum_at};

use crate::counts::{Counts, SummaryCounts};
use crate::maps::{group_fragments, same_fragment_map, same_inode_map};
use ffs_layout::{Geometry, Group, GroupSummary};
use ffs_maps::FragmentMap;
use ffs_volume::constants::CG_MAGIC;

/// Which fragments and which inodes of a volume are in use.
#[derive(Clone, Copy)]
pub struct InUse<'a> {
    /// The fragments that are used.
    pub fragments: &'a FragmentMap,
    /// The kind of each inode.
    pub kinds: &'a [u8],
}

/// What is right in the records of a group.
#[derive(Clone, Copy, Debug)]
pub struct GroupFindings {
    /// The group block has its magic number. Where it hasn't, phase 5 goes by neither `maps_right`
    /// nor `sums_right`.
    pub magic_right: bool,
    /// The record in the summary area is right.
    pub counts_right: bool,
    /// The places and the bits of the maps are right.
    pub maps_right: bool,
    /// The numbers of the group block are right.
    pub sums_right: bool,
}

/// Whether a number of an image has the bits of the right one. The book compares so too
/// (`has_counts`): right counts of a group are below 2^31, and so no negative number has their
/// bits.
#[tactic(auto, unfolding(crate::specs::Check::has_bits_of))]
fn is_right(found: i32, right: u32) -> bool
    ensures { result ≡ has_bits_of found right }
{
    found.cast_unsigned() == right
}

/// Whether the counts of a summary are the right ones.
fn same_summary(found: &GroupSummary, right: &SummaryCounts) -> bool
    ensures { result ≡ same_counts found.now right.now }
{
    is_right(found.dirs, right.dirs)
        && is_right(found.blocks, right.blocks)
        && is_right(found.inodes, right.inodes)
        && is_right(found.fragments, right.fragments)
}

/// Whether the eight counts of stretches are the right ones: those at indices 0 to 7.
fn same_frsum(found: &[i32; 8], right: &[u64; 9]) -> bool
    ensures { result ≡ all_below 8 (λ k. same_frsum_at found.now right.now k) }
{
    for length in 0..8 {
        if u64::from(found[length].cast_unsigned()) != right[length] {
            return false;
        }
    }
    true
}

/// Whether the maps end within the group block that has these numbers.
#[tactic(auto, unfolding(ffs_volume::specs::Groups::Records::maps_fit))]
fn places_fit(geometry: &Geometry, found: &Group) -> bool
    ensures { (block : List ℕ) → found.now ≡ group_of geometry.now.layout.order block
        → result ≡ maps_fit geometry.now.layout block }
{
    let inodes = u64::from(geometry.layout.ipg.div_ceil(8));
    let fragments = u64::from(geometry.layout.fpg.div_ceil(8));
    let size = u64::from(geometry.layout.cgsize);
    u64::from(found.iusedoff) + inodes <= size && u64::from(found.freeoff) + fragments <= size
}

/// Whether both maps end within the group block and have the right bits.
#[tactic(auto, unfolding(ffs_volume::specs::Groups::Records::maps_fit, ffs_volume::specs::Groups::Records::has_right_maps))]
fn maps_are_right(
    geometry: &Geometry,
    in_use: &InUse<'_>,
    group: u32,
    found: &Group,
    block: &[u8],
) -> bool
    requires maps { CanCompareMaps geometry.now.layout in_use.now group block.now }
    requires numbers { found.now ≡ group_of geometry.now.layout.order block.now }
    ensures { result ≡ (maps_fit geometry.now.layout block.now
        && has_right_maps geometry.now.layout (free_by geometry.now.layout in_use.now)
        (class_by in_use.now) group block.now) }
{
    places_fit(geometry, found)
        && same_inode_map(geometry, in_use.kinds, group, block, found.iusedoff)
        && same_fragment_map(geometry, in_use.fragments, group, block, found.freeoff)
}

/// Whether the group block has the right number of its group, number of fragments, summary and
/// counts of stretches.
fn sums_are_right(geometry: &Geometry, counts: &Counts, group: u32, found: &Group) -> bool
    requires { group < geometry.now.layout.ncg }
    ensures { result ≡ (has_bits_of found.now.cgx group
        && (has_bits_of found.now.ndblk (group_size geometry.now.layout group)
        && (same_counts found.now.cs counts.now.summary
        && all_below 8 (λ k. same_frsum_at found.now.frsum counts.now.frsum k)))) }
{
    is_right(found.cgx, group)
        && is_right(found.ndblk, group_fragments(geometry, group))
        && same_summary(&found.cs, &counts.summary)
        && same_frsum(&found.frsum, &counts.frsum)
}

/// Compares the records of a group with its right counts: its 16 bytes of the summary area, and its
/// group block (fs(5)).
pub fn compare_group(
    geometry: &Geometry,
    in_use: &InUse<'_>,
    counts: &Counts,
    group: u32,
    summary: &[u8],
    block: &[u8],
) -> GroupFindings
    requires { CanCompareGroup geometry.now.layout in_use.now group counts.now summary.now
        block.now }
    ensures { AreFound geometry.now.layout in_use.now group summary.now block.now result }
{
    let found = Group::decode(geometry.layout.order, block);
    let record = GroupSummary::decode(geometry.layout.order, 0, summary);
    GroupFindings {
        magic_right: found.magic == CG_MAGIC,
        counts_right: same_summary(&record, &counts.summary),
        maps_right: maps_are_right(geometry, in_use, group, &found, block),
        sums_right: sums_are_right(geometry, counts, group, &found),
    }
}

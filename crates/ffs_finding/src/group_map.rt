//! A group block, and the map of fragments in it (fs(5)).
ghost use Rattle.std.specs.Prelude.{◌≡◌, ◌+◌, ◌*◌, ◌/◌, ◌<◌, ◌≤◌, length};
ghost use Rattle.ffs_volume.specs.{Disk.Areas.{group_place, FitsIn}, Groups.Records.bit_at};
ghost use Rattle.ffs_image.specs.Reads.{ReadsAtMostOnce};
ghost use Rattle.ffs_walk.specs.Windows.{FillsWindow, image_with};
ghost use Rattle.ffs_finding.specs.{GroupMaps.IsMapPlace, LostMaps.IsBlockWindow};

use ffs_image::{Image, ImageFault};
use ffs_layout::{Geometry, Group};
use ffs_volume::constants::CG_MAGIC;
use ffs_walk::Window;

/// Reads the block of a group, unless the window holds just that.
///
/// # Errors
/// A read of the image that failed. The window holds nothing then.
#[tactic(auto, using(ffs_volume::proofs::AreaLaws::group_block_inside))]
pub(crate) fn fill_group<I: Image>(
    geometry: &Geometry,
    image: &mut I,
    window: &mut Window,
    group: u32,
) -> Result<(), ImageFault>
    requires group { group < geometry.now.layout.ncg }
    requires volume { FitsIn geometry.now.layout (I.device image.old).size }
    requires window { IsBlockWindow geometry.now.layout (I.device image.old) window.old }
    ensures fills { FillsWindow (group_place geometry.now.layout group) geometry.now.layout.cgsize
        (image_with I.Image image.old window.old) (image_with I.Image image.new window.new)
        result }
    ensures asks { ReadsAtMostOnce I.was_read (group_place geometry.now.layout group)
        geometry.now.layout.cgsize image.old image.new }
{
    let place = geometry.group_place(group);
    window.fill(image, place, geometry.layout.cgsize as usize)
}

/// Where the map of fragments begins in a group block, in bytes, if it has one: the block has its
/// magic number, and its maps end within it.
#[tactic(auto, unfolding(ffs_volume::specs::Find::Lost::has_map, ffs_volume::specs::Groups::Records::has_right_magic, ffs_volume::specs::Groups::Records::maps_fit))]
pub(crate) fn map_place(geometry: &Geometry, block: &[u8]) -> Option<u32>
    requires { length block.now ≡ geometry.now.layout.cgsize }
    ensures { IsMapPlace geometry.now.layout block.now result }
{
    let group = Group::decode(geometry.layout.order, block);
    let size = u64::from(geometry.layout.cgsize);
    let inodes = u64::from(group.iusedoff) + u64::from(geometry.layout.ipg.div_ceil(8));
    let fragments = u64::from(group.freeoff) + u64::from(geometry.layout.fpg.div_ceil(8));
    if group.magic == CG_MAGIC && inodes <= size && fragments <= size {
        return Some(group.freeoff);
    }
    None
}

/// Whether a map at a place of a group block marks as free the fragment at an index of its group.
pub(crate) fn is_marked_free(block: &[u8], place: u32, index: u32) -> bool
    requires { place + index / 8 < length block.now }
    ensures { result ≡ bit_at block.now place index }
{
    block[place as usize + index as usize / 8] >> (index % 8) & 1 == 1
}

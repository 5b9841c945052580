//! The rules that a layout has to meet.

ghost use Rattle.std.specs.Prelude.{◌≡◌, ◌<◌};
ghost use Rattle.ffs_volume.specs.Disk.Outcome.{has_valid_cylinders, has_valid_numbers, has_valid_parts, has_valid_sizes, is_block_size, is_fragment_count, is_fragment_size, is_valid_layout, has_valid_summary_area, layout_fault};

use crate::groups::groups_fit;
use ffs_volume::constants::{
    CG_HEADER, CSUM_SIZE, DINODE_SIZE, INODE_FORMAT, SBSIZE, SUPERBLOCK_BYTES,
};
use ffs_volume::{Layout, SuperFault};

/// Whether a block may have this size, in bytes.
#[tactic(auto, unfolding(ffs_volume::specs::Disk::Outcome::is_block_size))]
fn can_be_block_size(n: u32) -> bool
    ensures { result ≡ is_block_size n }
{
    matches!(n, 4096 | 8192 | 16384 | 32768 | 65536)
}

/// Whether a fragment may have this size, in bytes.
#[tactic(auto, unfolding(ffs_volume::specs::Disk::Outcome::is_fragment_size))]
fn can_be_fragment_size(n: u32) -> bool
    ensures { result ≡ is_fragment_size n }
{
    matches!(n, 512 | 1024 | 2048 | 4096 | 8192 | 16384 | 32768 | 65536)
}

/// Whether a block may have this many fragments.
#[tactic(auto, unfolding(ffs_volume::specs::Disk::Outcome::is_fragment_count))]
fn can_be_fragment_count(n: u32) -> bool
    ensures { result ≡ is_fragment_count n }
{
    matches!(n, 1 | 2 | 4 | 8)
}

/// Whether the sizes of blocks and fragments are valid, and the numbers per block and per group fit
/// them.
#[tactic(auto, using(crate::proofs::LayoutRules::block_size_above, crate::proofs::LayoutRules::fragment_count_above), unfolding(ffs_volume::specs::Disk::Outcome::has_valid_sizes))]
fn has_sizes(v: &Layout) -> bool
    ensures { result ≡ has_valid_sizes v.now }
{
    can_be_block_size(v.bsize)
        && can_be_fragment_size(v.fsize)
        && can_be_fragment_count(v.frag)
        && u64::from(v.bsize) == u64::from(v.frag) * u64::from(v.fsize)
        && v.nindir == v.bsize / 4
        && v.inopb == v.bsize / DINODE_SIZE as u32
        && v.ipg > 0
        && v.ipg % v.inopb == 0
        && v.fpg > 0
        && v.fpg % v.frag == 0
}

/// Whether the volume ends in its last group and has fewer than 2^31 fragments and inodes, and
/// `dsize`, `maxsymlinklen`, `postblformat` and `sbsize` are in their bounds.
#[tactic(auto, unfolding(ffs_volume::specs::Disk::Outcome::has_valid_numbers))]
fn has_numbers(v: &Layout) -> bool
    ensures { result ≡ has_valid_numbers v.now }
{
    let ncg = u64::from(v.ncg);
    let fpg = u64::from(v.fpg);
    let size = u64::from(v.size);
    v.dsize >= 1
        && v.maxsymlinklen <= 60
        && v.postblformat == 1
        && v.sbsize >= SUPERBLOCK_BYTES as u32
        && ncg.saturating_sub(1) * fpg < size
        && size <= ncg * fpg
        && size < 1 << 31
        && ncg * u64::from(v.ipg) < 1 << 31
}

/// Whether the parts of a group lie in their order after its start, each ends before the next one
/// begins, and a group block has room for its header (`CG_HEADER`) and fits a block.
#[tactic(auto, unfolding(ffs_volume::specs::Disk::Outcome::has_valid_parts))]
fn has_parts(v: &Layout) -> bool
    requires { 0 < v.now.fsize }
    ensures { result ≡ has_valid_parts v.now }
{
    let fsize = u64::from(v.fsize);
    let sblkno = u64::from(v.sblkno);
    let cblkno = u64::from(v.cblkno);
    let iblkno = u64::from(v.iblkno);
    sblkno > 0
        && sblkno + u64::from(v.sbsize).div_ceil(fsize) <= cblkno
        && cblkno + u64::from(v.cgsize).div_ceil(fsize) <= iblkno
        && iblkno + u64::from(v.ipg) * DINODE_SIZE as u64 / fsize <= u64::from(v.dblkno)
        && v.cgsize >= CG_HEADER
        && v.cgsize <= v.bsize
}

/// Whether the summary area begins with the data of group 0, has a record for each group, and ends
/// within group 0 and the volume. The parts of group 0 aren't moved, so `cgdmin(0)`, where its data
/// begin, is `dblkno`.
#[tactic(auto, using(crate::proofs::Starts::data_start), unfolding(ffs_volume::specs::Disk::Outcome::has_valid_summary_area, ffs_volume::specs::Disk::Areas::cgbase))]
fn has_summary_area(v: &Layout) -> bool
    requires { 0 < v.now.fsize }
    ensures { result ≡ has_valid_summary_area v.now }
{
    let end = u64::from(v.csaddr) + u64::from(v.cssize).div_ceil(u64::from(v.fsize));
    v.csaddr == v.dblkno
        && CSUM_SIZE * u64::from(v.ncg) <= u64::from(v.cssize)
        && end <= u64::from(v.fpg.min(v.size))
}

/// Whether the layout meets all rules of its geometry: one that does not has the fault `Shape`.
#[tactic(auto, using(crate::proofs::LayoutRules::fragments_above, crate::proofs::LayoutRules::bases_below), unfolding(ffs_volume::specs::Disk::Outcome::is_valid_layout))]
fn has_valid_layout(v: &Layout) -> bool
    ensures { result ≡ is_valid_layout v.now }
{
    // `groups_fit` is last, since `has_summary_area` bounds how many groups it goes over.
    has_sizes(v) && has_numbers(v) && has_parts(v) && has_summary_area(v) && groups_fit(v)
}

/// The first fault that the layout shows, in an image of this size in bytes.
#[tactic(auto, unfolding(ffs_volume::specs::Disk::Outcome::layout_fault))]
pub fn fault_of(v: &Layout, image_size: u64) -> Option<SuperFault>
    ensures { result ≡ layout_fault v.now image_size }
{
    if v.inodefmt != INODE_FORMAT {
        return Some(SuperFault::InodeFormat);
    }
    if v.ncg < 1 {
        return Some(SuperFault::Ncg);
    }
    if v.cpg < 1 {
        return Some(SuperFault::Cpg);
    }
    if !has_cylinders(v) {
        return Some(SuperFault::Ncyl);
    }
    if v.sbsize > SBSIZE {
        return Some(SuperFault::TooLarge);
    }
    if !has_valid_layout(v) {
        return Some(SuperFault::Shape);
    }
    if u64::from(v.size) * u64::from(v.fsize) > image_size {
        return Some(SuperFault::Short);
    }
    None
}

/// Whether the cylinders end in the last group, as `cpg` and `ncg` say.
#[tactic(auto, unfolding(ffs_volume::specs::Disk::Outcome::has_valid_cylinders))]
fn has_cylinders(v: &Layout) -> bool
    ensures { result ≡ has_valid_cylinders v.now }
{
    let ncg = u64::from(v.ncg);
    let cpg = u64::from(v.cpg);
    let ncyl = u64::from(v.ncyl);
    ncyl <= ncg * cpg && ncg.saturating_sub(1) * cpg < ncyl
}

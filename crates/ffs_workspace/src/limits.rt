//! How often parts of a check read the image at most.
ghost use Rattle.std.specs.Prelude.{◌≡◌};
ghost use Rattle.ffs_volume.specs.Report.Reads.{sweep_reads};

use ffs_layout::Geometry;
use ffs_volume::constants::MAXPATHLEN;

/// How many reads a path takes at most: for its parent's path one for each name that has room and
/// one for a name that has none, then one for the directory's own name.
pub const PATH_READS: u64 = MAXPATHLEN as u64 / 2 + 2;

/// How many reads a message of phase 2 takes at most: two paths and an inode.
pub const LINE_READS: u64 = 2 * PATH_READS + 1;

/// How many Runs of an inode may claim no fragment, rounded up (`Report/Memory` of `ffs_volume`).
pub const RUNS_WITHOUT_CLAIM: u64 = 22;

/// At most how many reads a sweep over all inodes and their blocks makes (`Report/Reads` of
/// `ffs_volume`).
pub fn sweep_reads(geometry: &Geometry) -> u64
    ensures { result ≡ sweep_reads geometry.now.layout }
{
    let inodes = u64::from(geometry.inodes());
    inodes + (u64::from(geometry.layout.size) + RUNS_WITHOUT_CLAIM * inodes)
}

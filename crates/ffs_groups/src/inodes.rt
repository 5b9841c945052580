//! The inodes of a cylinder group.

ghost use Rattle.std.specs.Prelude.{ℕ, ◌≡◌, ◌<◌, length, slice_index, IfSome};
ghost use Rattle.ffs_volume.specs.{Blocks.Inodes.{is_directory, is_allocated}, Groups.Records.is_used_inode};
ghost use Rattle.ffs_volume.specs.Encodings.Kinds.{class_of_kind};
ghost use Rattle.ffs_groups.specs.{Inodes.{AreCounted, AreFew, AreInodeCounts, class_in}, Inputs.HasInodes};

use ffs_layout::Geometry;
use ffs_volume::constants::ROOTINO;
use ffs_volume::kinds::Kind;

/// How many inodes of a group are directories, and how many are free.
#[derive(Clone, Copy, Debug)]
pub struct InodeCounts {
    /// Directories.
    pub dirs: u32,
    /// Free inodes.
    pub free: u32,
}

/// Whether this is the kind of a directory.
fn is_dir_kind(kind: u8) -> bool
    ensures { result ≡ is_directory (class_of_kind kind) }
{
    Kind { code: kind }.is_dir()
}

/// Whether this is the kind of an inode that is allocated.
fn is_allocated_kind(kind: u8) -> bool
    ensures { result ≡ is_allocated (class_of_kind kind) }
{
    Kind { code: kind }.is_allocated()
}

/// Whether an inode is in use, as inodes 0 and 1 are and each that is allocated, also one of class
/// Unknown.
pub fn is_used_at(kinds: &[u8], inode: usize) -> bool
    requires { inode < length kinds.now }
    ensures { result ≡ is_used_inode (class_in kinds.now) inode }
{
    inode < ROOTINO as usize || is_allocated_kind(kinds[inode])
}

/// Whether the inodes of some kinds are all allocated (`Some(true)`), or none is (`Some(false)`),
/// by the least and the greatest kind; else `None`. It sees no number, so inodes 0 and 1 are like
/// others here.
pub fn all_or_none_allocated(kinds: &[u8]) -> Option<bool>
    ensures { IfSome result (λ allocated. (k : ℕ) → k < length kinds.now
        → is_allocated (class_of_kind (slice_index kinds.now k)) ≡ allocated) }
{
    let mut least = u8::MAX;
    let mut most = 0;
    for kind in kinds {
        least = least.min(*kind);
        most = most.max(*kind);
    }
    if most == 0 {
        return Some(false);
    }
    if least > 0 { Some(true) } else { None }
}

/// How many inodes are counted at once by counters of one byte: fewer than 256, so none wraps, and
/// twelve times the 16 bytes of a list that the machine takes at once.
const INODES_AT_ONCE: usize = 192;

/// How many of a few inodes are directories, and how many are free. A byte holds each, so that the
/// compiler counts many at once.
#[derive(Clone, Copy)]
struct FewCounts {
    dirs: u8,
    free: u8,
}

/// How many of the inodes from `first` on and below `end` are directories, and how many are free.
#[tactic(auto, using(ffs_maps::proofs::Counting::count_within))]
fn few_counts(kinds: &[u8], first: usize, end: usize) -> FewCounts
    requires { AreFew kinds.now first end }
    ensures { AreCounted (class_in kinds.now) first end result.dirs result.free }
{
    let mut counts = FewCounts { dirs: 0, free: 0 };
    for inode in first..end {
        counts.dirs += u8::from(is_dir_kind(kinds[inode]));
        counts.free += u8::from(!is_allocated_kind(kinds[inode]));
    }
    counts
}

/// How many inodes of a group are directories, and how many are free. Inodes 0 and 1 are neither.
pub fn inode_counts(geometry: &Geometry, kinds: &[u8], group: u32) -> InodeCounts
    requires { HasInodes geometry.now.layout kinds.now group }
    ensures { AreInodeCounts geometry.now.layout (class_in kinds.now) group result }
{
    let first = group as usize * geometry.layout.ipg as usize;
    let end = first + geometry.layout.ipg as usize;
    let mut counts = InodeCounts { dirs: 0, free: 0 };
    let mut inode = first.max(ROOTINO as usize);
    while inode < end {
        let next = end.min(inode + INODES_AT_ONCE);
        let few = few_counts(kinds, inode, next);
        counts.dirs += u32::from(few.dirs);
        counts.free += u32::from(few.free);
        inode = next;
    }
    counts
}

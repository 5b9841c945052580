//! The totals of a superblock.

ghost use Rattle.std.specs.Prelude.{◌≡◌, ◌-◌, ◌^◌};
ghost use Rattle.ffs_volume.specs.Groups.Records.{has_totals};
ghost use Rattle.ffs_counts.specs.Totals.{AreSumsOf, total_of, with_counts};

use crate::numbers::is_count_of;
use ffs_groups::SummaryCounts;

/// The sums of the counts of all groups.
#[derive(Clone, Copy, Debug)]
pub struct Totals {
    /// Directories.
    pub dirs: u64,
    /// Blocks of which all fragments are free.
    pub blocks: u64,
    /// Free inodes.
    pub inodes: u64,
    /// Loose fragments: the free ones of other blocks.
    pub fragments: u64,
}

impl Totals {
    /// All are 0.
    pub fn new() -> Totals
        ensures { result ≡ record { dirs = 0; blocks = 0; inodes = 0; fragments = 0 } }
    {
        Totals {
            dirs: 0,
            blocks: 0,
            inodes: 0,
            fragments: 0,
        }
    }

    /// Adds the counts of a group.
    pub fn add(&mut self, summary: &SummaryCounts)
        requires { AreSumsOf (2 ^ 32 - 1) self.old }
        ensures { self.new ≡ with_counts self.old summary.now }
    {
        self.dirs += u64::from(summary.dirs);
        self.blocks += u64::from(summary.blocks);
        self.inodes += u64::from(summary.inodes);
        self.fragments += u64::from(summary.fragments);
    }

    /// Whether a superblock has these totals: directories, free blocks, free inodes, loose
    /// fragments.
    pub fn agree_with(&self, found: &[i32; 4]) -> bool
        ensures { result ≡ has_totals found.now (total_of self.now) }
    {
        is_count_of(found[0], self.dirs)
            && is_count_of(found[1], self.blocks)
            && is_count_of(found[2], self.inodes)
            && is_count_of(found[3], self.fragments)
    }
}

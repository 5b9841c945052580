//! An accepted layout, and where the parts of its volume lie.

ghost use Rattle.std.specs.Prelude.{MatchResult, ◌≡◌, ◌<◌, ◌≤◌, ◌*◌, ◌+◌};
ghost use Rattle.ffs_volume.specs.Disk.{Outcome.layout_fault, Areas.{cgsblock, cgstart, group_place, inode_place}};
ghost use Rattle.ffs_volume.specs.Disk.Areas.{is_run_in_range, is_group_metadata, is_fragment_in_range, is_reserved};
ghost use Rattle.ffs_volume.specs.{Disk.Areas.summary_place, Blocks.Inodes.inodes_of, Laws.Geometry.IsAcceptedLayout};
ghost use Rattle.ffs_layout.specs.Accepted.{IsAccepted, IsDataStart, IsGroupBase};

use crate::groups::cgoffset_of;
use crate::layout_rules::fault_of;
use ffs_volume::constants::{CSUM_SIZE, DINODE_SIZE};
use ffs_volume::{Layout, Order, SuperFault};

/// A layout that is accepted: each value of this type meets the rules of a superblock (fs(5)).
///
/// Fragments are numbered from the start of the volume. A group is a cylinder group, numbered from
/// 0.
#[derive(Clone, Copy, Debug)]
pub struct Geometry {
    /// The numbers of the superblock.
    pub layout: Layout,
    pub ghost sound: { IsAcceptedLayout layout },
}

impl Geometry {
    /// The layout as a geometry, where it is accepted in an image of `image_size` bytes.
    ///
    /// # Errors
    /// The first rule of a layout that refuses it.
    #[tactic(auto, using(ffs_volume::proofs::GeometryLaws::geometry_holds))]
    pub fn new(layout: Layout, image_size: u64) -> Result<Geometry, SuperFault>
        ensures { MatchResult result (λ g. IsAccepted layout image_size g.layout)
            (λ fault. layout_fault layout image_size ≡ Some fault) }
    {
        match fault_of(&layout, image_size) {
            Some(fault) => Err(fault),
            None => Ok(Geometry { layout }),
        }
    }

    /// The byte order of the volume's numbers.
    pub fn order(&self) -> Order
        ensures { result ≡ self.now.layout.order }
    {
        self.layout.order
    }

    /// How many inodes the volume has. They are numbered from 0.
    pub fn inodes(&self) -> u32
        ensures { result ≡ inodes_of self.now.layout }
    {
        self.layout.ncg * self.layout.ipg
    }

    /// The first fragment of the group (fs(5), `cgbase`).
    #[tactic(auto, unfolding(ffs_volume::specs::Disk::Areas::cgbase))]
    pub fn cgbase(&self, group: u32) -> u32
        requires { group < self.now.layout.ncg }
        ensures { IsGroupBase self.now.layout group result }
    {
        self.layout.fpg * group
    }

    /// The fragment from which the places of the group's parts are counted (fs(5), `cgstart`).
    #[tactic(auto, using(crate::proofs::Starts::abs_is), unfolding(ffs_volume::specs::Disk::Areas::cgstart, ffs_volume::specs::Disk::Areas::cgbase))]
    pub fn cgstart(&self, group: u32) -> u32
        requires { group < self.now.layout.ncg }
        ensures { result ≡ cgstart self.now.layout group }
    {
        // The shift of an accepted layout isn't negative, so its absolute value is the shift.
        self.cgbase(group) + cgoffset_of(&self.layout, group).unsigned_abs() as u32
    }

    /// The first fragment of the group's copy of the superblock (fs(5), `cgsblock`).
    pub fn cgsblock(&self, group: u32) -> u32
        requires { group < self.now.layout.ncg }
        ensures { result ≡ cgsblock self.now.layout group }
    {
        self.cgstart(group) + self.layout.sblkno
    }

    /// The first fragment for data after the group's inodes (fs(5), `cgdmin`).
    pub fn cgdmin(&self, group: u32) -> u32
        requires { group < self.now.layout.ncg }
        ensures { IsDataStart self.now.layout group result }
    {
        self.cgstart(group) + self.layout.dblkno
    }

    /// Where the group block of the group begins, in bytes (fs(5), `cgtod`).
    pub fn group_place(&self, group: u32) -> u64
        requires { group < self.now.layout.ncg }
        ensures { result ≡ group_place self.now.layout group }
    {
        u64::from(self.cgstart(group) + self.layout.cblkno) * u64::from(self.layout.fsize)
    }

    /// Where the group's record of 16 bytes in the summary area begins, in bytes (fs(5), `fs_cs`).
    pub fn summary_place(&self, group: u32) -> u64
        requires { group < self.now.layout.ncg }
        ensures { result ≡ summary_place self.now.layout group }
    {
        u64::from(self.layout.csaddr) * u64::from(self.layout.fsize) + CSUM_SIZE * u64::from(group)
    }

    /// Where the inode's 128 bytes begin, in bytes (fs(5), `ino_to_fsba`).
    #[tactic(auto, using(ffs_volume::proofs::AreaLaws::inode_group))]
    pub fn inode_place(&self, inode: u32) -> u64
        requires { inode < inodes_of self.now.layout }
        ensures { result ≡ inode_place self.now.layout inode }
    {
        let group = self.cgstart(inode / self.layout.ipg);
        u64::from(group + self.layout.iblkno) * u64::from(self.layout.fsize)
            + DINODE_SIZE as u64 * u64::from(inode % self.layout.ipg)
    }

    /// Whether the fragment is metadata of its group: the copy of the superblock, the group block
    /// and the inodes.
    #[tactic(auto, using(ffs_volume::proofs::AreaLaws::is_metadata_of_group, ffs_volume::proofs::AreaLaws::group_below))]
    fn is_group_metadata(&self, fragment: u32) -> bool
        requires { fragment < self.now.layout.size }
        ensures { result ≡ is_group_metadata self.now.layout fragment }
    {
        let group = fragment / self.layout.fpg;
        self.cgsblock(group) <= fragment && fragment < self.cgdmin(group)
    }

    /// Whether the fragment is in range: it is in the volume, and no group's metadata.
    #[tactic(auto, unfolding(ffs_volume::specs::Disk::Areas::is_fragment_in_range))]
    pub fn ok(&self, fragment: u32) -> bool
        ensures { result ≡ is_fragment_in_range self.now.layout fragment }
    {
        fragment < self.layout.size && !self.is_group_metadata(fragment)
    }

    /// Whether the run of `len` fragments from `start` on is in range: all of them are, and they
    /// are of one group. An empty run is in range.
    #[tactic(auto, using(crate::proofs::EmptyRun::empty_in_range))]
    pub fn in_range(&self, start: u32, len: u32) -> bool
        ensures { result ≡ is_run_in_range self.now.layout start len }
    {
        len == 0 || self.are_in_range(start, len)
    }

    /// `in_range` of a run that isn't empty.
    #[tactic(auto, using(ffs_volume::proofs::RunLaws::in_range_is, ffs_volume::proofs::AreaLaws::group_below), unfolding(ffs_volume::specs::Disk::Areas::cgbase))]
    fn are_in_range(&self, start: u32, len: u32) -> bool
        requires { 0 < len }
        ensures { result ≡ is_run_in_range self.now.layout start len }
    {
        let end = u64::from(start) + u64::from(len);
        if end > u64::from(self.layout.size) {
            return false;
        }
        let group = start / self.layout.fpg;
        let limit = u64::from(self.cgbase(group)) + u64::from(self.layout.fpg);
        end <= limit && (end <= u64::from(self.cgsblock(group)) || self.cgdmin(group) <= start)
    }

    /// Whether the fragment is reserved: in the boot area, in the summary area, or metadata of a
    /// group.
    #[tactic(auto, using(ffs_volume::proofs::AreaLaws::no_metadata_past_size), unfolding(ffs_volume::specs::Disk::Areas::is_reserved))]
    pub fn reserved(&self, fragment: u32) -> bool
        ensures { result ≡ is_reserved self.now.layout fragment }
    {
        let summary = self.layout.csaddr;
        let fragments = self.layout.cssize.div_ceil(self.layout.fsize);
        fragment < self.cgdmin(0)
            || (summary <= fragment && fragment - summary < fragments)
            || (fragment < self.layout.size && self.is_group_metadata(fragment))
    }
}

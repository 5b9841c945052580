//! The Runs of an inode that is walked over again, with how many of their offers are kept.

use crate::blocks::Blocks;
use crate::keeping::Keeping;
use crate::walk::Walk;
use ffs_image::{Image, ImageFault};
use ffs_layout::Geometry;
use ffs_volume::{Inode, Step};

/// A Run of an inode that is seen.
#[derive(Clone, Copy, Debug)]
pub struct SeenRun {
    /// Its first fragment.
    pub start: u32,
    /// How many of its offers are kept: the first ones.
    pub kept: u32,
    /// Its logical block, and none for that of an indirect block.
    pub block: Option<u64>,
}

/// The Runs of an inode, one after another, until the inode is cut.
#[derive(Clone, Copy, Debug)]
pub struct SeenRuns {
    /// The walk over the inode's blocks.
    pub walk: Walk,
    /// Which offers of the Runs so far were kept.
    pub keeping: Keeping,
}

impl SeenRuns {
    ghost use Rattle.ffs_walk.specs.{SeenRuns.{AreRunsOf, GivesRun}, Windows.{CanWalk, image_with}};

    /// The Runs of an inode with this cut, before the first one.
    pub fn start(geometry: &Geometry, inode: &Inode, cut: u32) -> SeenRuns
        ensures { AreRunsOf geometry.now inode.now cut result }
    {
        SeenRuns {
            walk: Walk::start(geometry, inode),
            keeping: Keeping::start(cut),
        }
    }

    /// The next Run that is seen, also one of which no offer is kept, and `None` after the last
    /// one, also if it is called again. An indirect block is read as `Walk::next` says.
    ///
    /// # Errors
    /// A read of an indirect block that failed. No Run comes then.
    pub fn next<I: Image>(
        &mut self,
        image: &mut I,
        blocks: &mut Blocks,
    ) -> Result<Option<SeenRun>, ImageFault>
        requires { CanWalk self.old.walk.geometry.layout (I.device image.old) blocks.old }
        ensures { GivesRun (image_with I.Image image.old blocks.old)
            (image_with I.Image image.new blocks.new) self.old self.new result }
    {
        if !self.keeping.is_replay_open() {
            return Ok(None);
        }
        while let Some(step) = self.walk.next(image, blocks)? {
            match step {
                Step::Run { start, len, block } => {
                    let in_range = self.walk.geometry.in_range(start, len);
                    let kept = self.keeping.take(len, in_range);
                    return Ok(Some(SeenRun { start, kept, block }));
                }
                Step::Gap => {
                    self.walk.skip_gaps(blocks);
                }
                Step::Tail => {}
            }
        }
        Ok(None)
    }
}

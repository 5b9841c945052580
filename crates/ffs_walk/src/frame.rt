//! The position of a walk in an indirect block.

ghost use Rattle.std.specs.Prelude.{◌≤◌, IsTrue, not, ◌||◌, nat_lt};

use crate::blocks::Blocks;
use crate::words::{any_from, word, zeros_end};
use ffs_image::{Image, ImageFault};
use ffs_layout::Geometry;

/// An indirect block that a walk is in, and the position of the walk there.
#[derive(Clone, Copy, Debug)]
pub struct Frame {
    /// The block's address, a fragment.
    pub address: u32,
    /// The first logical block under it.
    pub first: u64,
    /// The index of the next word.
    pub next: u32,
    /// How many of its words are used.
    pub used: u32,
    /// Whether the block is still to be read. When it is read, its unused words are looked at, as
    /// one of them may be set.
    pub unread: bool,
    ghost in_order: { next ≤ used },
    ghost some: { IsTrue (not unread || nat_lt next used) },
}

/// What comes next in an indirect block.
#[derive(Clone, Copy, Debug)]
pub enum Item {
    /// A word that isn't used is set.
    UnusedWord,
    /// A used word, and the first logical block under it.
    Word { address: u32, block: u64 },
}

impl Frame {
    ghost use Rattle.ffs_walk.specs.{Fits.{HasNoWords, IsWordLeft}, Frames.{CanTake, TakesItem}};
    ghost use Rattle.ffs_walk.specs.{Counts.ReadsFrame, Skips.{CanSkip, PassesZeros}, Windows.{BlocksAfter, image_with}};

    /// A frame of no words, in no block.
    pub fn spent() -> Frame
        ensures { HasNoWords result }
    {
        Frame {
            address: 0,
            first: 0,
            next: 0,
            used: 0,
            unread: false,
        }
    }

    /// Whether an item is left.
    pub fn is_left(&self) -> bool
        ensures { IsWordLeft self.now result }
    {
        self.next < self.used
    }

    /// Takes the next item of the block, and reads the block unless it is held for the level (0 to
    /// 2, as in `Blocks`). `span` is how many logical blocks lie under each word.
    ///
    /// # Errors
    /// A read of the image that failed.
    #[inline(always)]
    pub fn take<I: Image>(
        &mut self,
        geometry: &Geometry,
        span: u64,
        level: usize,
        image: &mut I,
        blocks: &mut Blocks,
    ) -> Result<Item, ImageFault>
        requires { CanTake geometry.now.layout (I.device image.old) span level self.old blocks.old }
        ensures item { TakesItem geometry.now.layout (I.device image.old).contents span self.old
            self.new result }
        ensures block { ReadsFrame level self.old self.new (image_with I.Image image.old blocks.old)
            (image_with I.Image image.new blocks.new) result }
        ensures leaves { BlocksAfter geometry.now.layout (image_with I.Image image.old blocks.old)
            (image_with I.Image image.new blocks.new) result }
    {
        blocks.fill(geometry, level, self.address, image)?;
        let block = blocks.bytes(geometry, level);
        if self.unread {
            self.unread = false;
            if any_from(geometry, block, self.used) {
                return Ok(Item::UnusedWord);
            }
        }
        let address = word(geometry, block, self.next);
        let block = self.first + u64::from(self.next) * span;
        self.next += 1;
        Ok(Item::Word { address, block })
    }

    /// Passes over the words of zero that come next, where the block is held for the level and read
    /// before: how many there are. Each means a gap, at every level.
    #[inline(always)]
    pub fn skip_gaps(&mut self, geometry: &Geometry, level: usize, blocks: &Blocks) -> u32
        requires { CanSkip geometry.now.layout level self.old blocks.now }
        ensures { PassesZeros geometry.now.layout level blocks.now self.old self.new result }
    {
        if self.unread || blocks.held[level] != Some(self.address) {
            return 0;
        }
        let next = zeros_end(
            geometry,
            blocks.bytes(geometry, level),
            self.next,
            self.used,
        );
        let gaps = next - self.next;
        self.next = next;
        gaps
    }
}

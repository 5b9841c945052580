//! The walk over the blocks of an inode.

ghost use Rattle.std.specs.Prelude.{◌≡◌, ◌*◌, ◌<◌, ◌≤◌, ◌^◌, IsTrue, false, ◌↔◌};
ghost use Rattle.ffs_volume.specs.Blocks.Inodes.{addresses_needed};
ghost use Rattle.ffs_walk.specs.Fits.{FrameFits};

use crate::blocks::Blocks;
use crate::class::{addresses_needed, class_of, last_length, walked_blocks};
use crate::frame::{Frame, Item};
use crate::words::{WORD_BYTES, word};
use ffs_image::{Image, ImageFault};
use ffs_layout::{Geometry, u32_at};
use ffs_volume::constants::NDADDR;
use ffs_volume::{Class, Inode, Order, Step};

/// The index of the address of the single indirect block among an inode's fifteen addresses.
const SINGLE: u32 = 12;

/// The index of that of the double indirect block; the last one is that of the triple one.
const DOUBLE: u32 = 13;

/// A walk over the blocks of an inode: its position in the inode's own addresses, and in one
/// indirect block of each level.
#[derive(Clone, Copy, Debug)]
pub struct Walk {
    /// The geometry of the volume.
    pub geometry: Geometry,
    /// How many logical blocks the walk goes over: at most 2^52, since a size is below 2^64, and a
    /// block has 4,096 bytes or more.
    pub logical_blocks: u64,
    /// How many fragments the last logical block has, where it is direct.
    pub last: u32,
    /// The index of the next of the inode's own addresses.
    pub next: u32,
    /// How many of the inode's own addresses are used.
    pub used: u32,
    /// The inode's addresses: twelve direct ones, and a single, a double and a triple indirect one
    /// (fs(5)).
    pub addresses: [u32; 15],
    /// The single indirect block that the walk is in: the lowest one, with addresses of data. It is
    /// the inode's own, or any that is under a double one.
    pub single: Frame,
    /// The double indirect block that the walk is in.
    pub double: Frame,
    /// The triple indirect block that the walk is in.
    pub triple: Frame,
    ghost in_order: { next ≤ used },
    ghost in_array: { used ≤ 15 },
    ghost used_fits: { used ≤ addresses_needed geometry.layout.nindir logical_blocks },
    ghost last_some: { 0 < last },
    ghost last_small: { last ≤ geometry.layout.frag },
    ghost blocks_small: { logical_blocks < 2 ^ 53 },
    ghost single_fits: { FrameFits geometry.layout logical_blocks 1 single },
    ghost double_fits: { FrameFits geometry.layout logical_blocks geometry.layout.nindir double },
    ghost triple_fits: { FrameFits geometry.layout logical_blocks
        (geometry.layout.nindir * geometry.layout.nindir) triple },
}

impl Walk {
    ghost use Rattle.ffs_walk.specs.{Fits.{CanEnter, IsIndirect}, Skips.{EndsZeroAddresses, PassesGaps}};
    ghost use Rattle.ffs_walk.specs.Rests.{Advances, ComesNext, Enters, IsAtTop, IsDataStep, IsFirstOf};
    ghost use Rattle.ffs_walk.specs.Rests.{IsEndedWalk, IsTopStep, IsWalkByClass, IsWalkOf, Stops, TakesStep};
    ghost use Rattle.ffs_walk.specs.Windows.{CanWalk, HasRoom, image_with};
    ghost use Rattle.ffs_walk.specs.HeldWords.{CanSeeWord, IsInHeldBlock, CanPassWord, PassesNextWord};
    ghost use Rattle.ffs_walk.specs.{Directs.{HasDirect, IsNextDirect, PassesDirect}, HeldWords.next_address};
    ghost use Rattle.ffs_walk.specs.Rests.{file_blocks_of};
    ghost use Rattle.ffs_volume.specs.Blocks.Steps.{data_length};
    ghost use Rattle.ffs_walk.specs.declared.blocks.Blocks.{Blocks};

    /// How many fragments a logical block of data has.
    #[inline(always)]
    fn length_at(&self, block: u64) -> u32
        ensures value { result ≡ data_length (file_blocks_of self.now) block }
        ensures within { (0 < result) × (result ≤ self.now.geometry.layout.frag) }
    {
        if block < NDADDR && block + 1 == self.logical_blocks {
            self.last
        } else {
            self.geometry.layout.frag
        }
    }

    /// The step at the address of a data block.
    fn data(&self, address: u32, block: u64) -> Step
        requires { block < self.now.logical_blocks }
        ensures { IsDataStep self.now address block result }
    {
        if address == 0 {
            return Step::Gap;
        }
        Step::Run {
            start: address,
            len: self.length_at(block),
            block: Some(block),
        }
    }

    /// The step at the address of a data block that isn't direct.
    fn indirect_data(&self, address: u32, block: u64) -> Step
        requires { IsIndirect self.now.logical_blocks block }
        ensures { IsDataStep self.now address block result }
    {
        if address == 0 {
            return Step::Gap;
        }
        Step::Run {
            start: address,
            len: self.geometry.layout.frag,
            block: Some(block),
        }
    }

    /// The first step at the address of an indirect block, and the frame for the others.
    fn enter(&self, span: u64, address: u32, first: u64) -> (Step, Frame)
        requires { CanEnter self.now.logical_blocks span first }
        ensures { Enters self.now span address first result.0 result.1 }
    {
        if address == 0 {
            return (Step::Gap, Frame::spent());
        }
        let geometry = self.geometry;
        let run = Step::Run {
            start: address,
            len: geometry.layout.frag,
            block: None,
        };
        if !geometry.in_range(address, geometry.layout.frag) {
            return (run, Frame::spent());
        }
        let used = u64::from(geometry.layout.nindir).min(
            (self.logical_blocks - first).div_ceil(span),
        );
        (
            run,
            Frame {
                address,
                first,
                next: 0,
                used: used as u32,
                unread: true,
            },
        )
    }

    /// The step that an item of the single frame means.
    #[tactic(auto, using(crate::proofs::WalkSteps::steps_zero))]
    fn step_in_single(&self, item: Item) -> Step
        requires { ComesNext 0 self.now item }
        ensures { IsFirstOf 0 item self.now self.now result }
    {
        match item {
            Item::UnusedWord => Step::Tail,
            Item::Word { address, block } => self.indirect_data(address, block),
        }
    }

    /// The first step that an item of the double frame means; the others go into the single frame.
    #[tactic(auto, using(crate::proofs::Counted::entering), unfolding(ffs_volume::specs::Blocks::Steps::steps_at))]
    fn step_in_double(&mut self, item: Item) -> Step
        requires { ComesNext 1 self.old item }
        ensures { IsFirstOf 1 item self.old self.new result }
    {
        match item {
            Item::UnusedWord => Step::Tail,
            Item::Word { address, block } => {
                let (step, frame) = self.enter(1, address, block);
                self.single = frame;
                step
            }
        }
    }

    /// The first step that an item of the triple frame means; the others go into the double frame.
    #[tactic(auto, using(crate::proofs::Counted::entering), unfolding(ffs_volume::specs::Blocks::Steps::steps_at))]
    fn step_in_triple(&mut self, item: Item) -> Step
        requires { ComesNext 2 self.old item }
        ensures { IsFirstOf 2 item self.old self.new result }
    {
        match item {
            Item::UnusedWord => Step::Tail,
            Item::Word { address, block } => {
                let words = u64::from(self.geometry.layout.nindir);
                let (step, frame) = self.enter(words, address, block);
                self.double = frame;
                step
            }
        }
    }

    /// The first step at the next of the inode's own addresses; the others go into a frame.
    #[inline(always)]
    fn step_at_top(&mut self) -> Option<Step>
        requires { IsAtTop self.old }
        ensures { IsTopStep self.old self.new result }
    {
        if self.next >= self.used {
            return None;
        }
        let index = self.next;
        let address = self.addresses[index as usize];
        self.next = index + 1;
        let block = u64::from(index);
        if block < NDADDR {
            return Some(self.data(address, block));
        }
        let words = u64::from(self.geometry.layout.nindir);
        match index {
            SINGLE => {
                let (step, frame) = self.enter(1, address, NDADDR);
                self.single = frame;
                Some(step)
            }
            DOUBLE => {
                let (step, frame) = self.enter(words, address, NDADDR + words);
                self.double = frame;
                Some(step)
            }
            _ => {
                let (step, frame) = self.enter(
                    words * words,
                    address,
                    NDADDR + words + words * words,
                );
                self.triple = frame;
                Some(step)
            }
        }
    }

    /// Takes the next step as `next` does, but doesn't end the walk where a read fails.
    #[inline(always)]
    #[tactic(auto, using(crate::proofs::FrameSteps::item_below))]
    fn advance<I: Image>(
        &mut self,
        image: &mut I,
        blocks: &mut Blocks,
    ) -> Result<Option<Step>, ImageFault>
        requires { CanWalk self.old.geometry.layout (I.device image.old) blocks.old }
        ensures { Advances (image_with I.Image image.old blocks.old)
            (image_with I.Image image.new blocks.new) self.old self.new result }
    {
        let words = u64::from(self.geometry.layout.nindir);
        if self.single.is_left() {
            let item = self.single.take(&self.geometry, 1, 0, image, blocks)?;
            return Ok(Some(self.step_in_single(item)));
        }
        if self.double.is_left() {
            let item = self.double.take(&self.geometry, words, 1, image, blocks)?;
            return Ok(Some(self.step_in_double(item)));
        }
        if self.triple.is_left() {
            let item = self
                .triple
                .take(&self.geometry, words * words, 2, image, blocks)?;
            return Ok(Some(self.step_in_triple(item)));
        }
        Ok(self.step_at_top())
    }

    /// Ends the walk: no address is used.
    #[inline(always)]
    fn stop(&mut self)
        ensures { Stops self.old self.new }
    {
        self.single = Frame::spent();
        self.double = Frame::spent();
        self.triple = Frame::spent();
        self.next = 0;
        self.used = 0;
    }

    /// The next step, and `None` after the last one. An indirect block is read whole when its first
    /// word is reached, and again only where another walk has used `blocks` since.
    ///
    /// # Errors
    /// A read of an indirect block that failed. The walk is over then.
    #[inline(always)]
    pub fn next<I: Image>(
        &mut self,
        image: &mut I,
        blocks: &mut Blocks,
    ) -> Result<Option<Step>, ImageFault>
        requires { CanWalk self.old.geometry.layout (I.device image.old) blocks.old }
        ensures { TakesStep (image_with I.Image image.old blocks.old)
            (image_with I.Image image.new blocks.new) self.old self.new result }
    {
        match self.advance(image, blocks) {
            Ok(step) => Ok(step),
            Err(fault) => {
                self.stop();
                Err(fault)
            }
        }
    }

    /// The index of the first of the inode's addresses from the next one on that isn't zero, and
    /// how many are used where there is none.
    #[inline(always)]
    fn zero_addresses_end(&self) -> u32
        ensures { EndsZeroAddresses self.now result }
    {
        for index in self.next..self.used {
            if self.addresses[index as usize] != 0 {
                return index;
            }
        }
        self.used
    }

    /// Passes over the inode's addresses of zero that come next, where the walk is in no indirect
    /// block: how many there are. It isn't inlined, since few inodes have such an address.
    #[inline(never)]
    fn skip_zero_addresses(&mut self) -> u32
        ensures { IsAtTop self.old → (blocks : Blocks)
            → PassesGaps blocks self.old self.new result }
    {
        let end = self.zero_addresses_end();
        let gaps = end - self.next;
        self.next = end;
        gaps
    }

    /// Passes over the gaps that come next in the indirect block that the walk is in, or at the
    /// inode's own addresses where it is in none: how many there are.
    #[inline(always)]
    #[tactic(auto, using(crate::proofs::GapSteps::passing))]
    pub fn skip_gaps(&mut self, blocks: &Blocks) -> u32
        requires room { HasRoom self.old.geometry.layout blocks.now }
        ensures { PassesGaps blocks.now self.old self.new result }
    {
        if self.single.is_left() {
            return self.single.skip_gaps(&self.geometry, 0, blocks);
        }
        if self.double.is_left() {
            return self.double.skip_gaps(&self.geometry, 1, blocks);
        }
        if self.triple.is_left() {
            return self.triple.skip_gaps(&self.geometry, 2, blocks);
        }
        self.skip_zero_addresses()
    }

    /// Whether the single indirect block that the walk is in is held and was read before.
    #[inline(always)]
    pub fn is_in_held_block(&self, blocks: &Blocks) -> bool
        ensures { IsTrue result ↔ IsInHeldBlock blocks.now self.now }
    {
        !self.single.unread && blocks.held[0] == Some(self.single.address)
    }

    /// Whether a used word is left of the single indirect block that the walk is in.
    #[inline(always)]
    pub fn has_word(&self) -> bool
        ensures { IsTrue result ↔ (self.now.single.next < self.now.single.used) }
    {
        self.single.is_left()
    }

    /// The address at the next word of the single indirect block that the walk is in, in the
    /// volume's byte order. The caller gives that, so that a loop can be made for each order.
    #[inline(always)]
    pub fn next_address(&self, order: Order, blocks: &Blocks) -> u32
        requires word { CanSeeWord blocks.now self.now }
        requires order { order ≡ self.now.geometry.layout.order }
        ensures { result ≡ next_address blocks.now self.now }
    {
        let block = blocks.bytes(&self.geometry, 0);
        u32_at(order, WORD_BYTES * self.single.next as usize, block)
    }

    /// Passes over the next word of the single indirect block that the walk is in, where the block
    /// was read before.
    #[inline(always)]
    #[tactic(auto, using(crate::proofs::WordSteps::word_first))]
    pub fn pass_word(&mut self)
        requires { CanPassWord self.old }
        ensures { PassesNextWord self.old self.new }
    {
        self.single.next += 1;
    }

    /// Whether one of the inode's own addresses that are used is left.
    #[inline(always)]
    pub fn has_address(&self) -> bool
        ensures { IsTrue result ↔ (self.now.next < self.now.used) }
    {
        self.next < self.used
    }

    /// Whether the next of the inode's own addresses is used, and that of a direct block.
    #[inline(always)]
    pub fn has_direct(&self) -> bool
        ensures { IsTrue result ↔ HasDirect self.now }
    {
        u64::from(self.next) < NDADDR && self.next < self.used
    }

    /// The next of the inode's own addresses, which is direct, and how many fragments its block
    /// has.
    #[inline(always)]
    pub fn next_direct(&self) -> (u32, u32)
        requires { HasDirect self.now }
        ensures { IsNextDirect self.now result.0 result.1 }
    {
        let len = self.length_at(u64::from(self.next));
        (self.addresses[self.next as usize], len)
    }

    /// Passes over the next of the inode's own addresses, which is direct, where the walk is in no
    /// indirect block.
    #[inline(always)]
    pub fn pass_direct(&mut self)
        requires top { IsAtTop self.old }
        requires some { HasDirect self.old }
        ensures { PassesDirect self.old self.new }
    {
        self.next += 1;
    }

    /// A walk that has ended, to be begun for an inode of the volume.
    pub fn ended(geometry: &Geometry) -> Walk
        ensures { IsEndedWalk geometry.now result }
    {
        Walk {
            geometry: *geometry,
            logical_blocks: 0,
            last: geometry.layout.frag,
            next: 0,
            used: 0,
            addresses: [0; 15],
            single: Frame::spent(),
            double: Frame::spent(),
            triple: Frame::spent(),
        }
    }

    /// A walk over the blocks of an inode. Only a file or a directory has steps, and no device or
    /// short symlink.
    pub fn start(geometry: &Geometry, inode: &Inode) -> Walk
        ensures { IsWalkOf geometry.now inode.now result }
    {
        Walk::of_class(geometry, inode, class_of(geometry, inode))
    }

    /// A walk over the blocks of an inode, if this is its class.
    #[inline(always)]
    #[tactic(auto, using(ffs_volume::proofs::StepLaws::used_most), unfolding(ffs_volume::specs::Blocks::Steps::steps_of))]
    pub fn of_class(geometry: &Geometry, inode: &Inode, class: Class) -> Walk
        ensures { IsWalkByClass geometry.now inode.now class result }
    {
        let blocks = walked_blocks(geometry, inode, class);
        Walk {
            geometry: *geometry,
            logical_blocks: blocks,
            last: last_length(geometry, inode),
            next: 0,
            used: addresses_needed(u64::from(geometry.layout.nindir), blocks),
            addresses: inode.addresses,
            single: Frame::spent(),
            double: Frame::spent(),
            triple: Frame::spent(),
        }
    }

    /// Begins a walk over the blocks of another inode of the same volume, as `of_class` does, in
    /// place, if this is its class.
    #[inline(always)]
    #[tactic(auto, using(ffs_volume::proofs::StepLaws::used_most), unfolding(ffs_volume::specs::Blocks::Steps::steps_of))]
    pub fn restart(&mut self, inode: &Inode, class: Class)
        ensures { IsWalkByClass self.old.geometry inode.now class self.new }
    {
        self.stop();
        self.last = last_length(&self.geometry, inode);
        self.logical_blocks = walked_blocks(&self.geometry, inode, class);
        self.addresses = inode.addresses;
        self.used = addresses_needed(u64::from(self.geometry.layout.nindir), self.logical_blocks);
    }
}

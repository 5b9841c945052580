//! The indirect blocks that a walk is in.

ghost use Rattle.std.specs.Prelude.{◌*◌};
ghost use Rattle.ffs_image.specs.Reads.{ReadsAtMostOnce};

use ffs_image::{Image, ImageFault};
use ffs_layout::Geometry;
use ffs_memory::FixedList;

/// The indirect blocks that a walk is in, one of each level, in one buffer. They are of one image.
/// A block has the level that `Blocks/Steps` gives the addresses in it; its own address is one
/// level higher there.
#[derive(Drop)]
pub struct Blocks {
    /// The bytes of three blocks, one for each level: that of level 0 has addresses of data blocks,
    /// that of level 1 addresses of blocks of level 0, and that of level 2 addresses of blocks of
    /// level 1.
    pub buffer: FixedList<u8>,
    /// At the index of a level, the address (the first fragment) of the block that is held for it.
    pub held: [Option<u32>; 3],
}

impl Blocks {
    ghost use Rattle.ffs_walk.specs.Windows.{AreEmptyBlocks, AreLevelBytes, CanFill, FillsBlock, HasLevel, image_with};

    /// Blocks that hold nothing, over a buffer of at least three blocks' bytes. It takes no memory.
    pub fn over(buffer: FixedList<u8>) -> Blocks
        ensures { AreEmptyBlocks buffer result }
    {
        Blocks {
            buffer,
            held: [None; 3],
        }
    }

    /// Reads the block at an address, a fragment, for a level of indirection, unless it is held for
    /// that level already.
    ///
    /// # Errors
    /// A read of the image that failed. The level holds nothing then.
    #[tactic(auto, using(crate::proofs::Areas::block_fits), unfolding(ffs_image::specs::Reads::ReadsAtMostOnce))]
    pub fn fill<I: Image>(
        &mut self,
        geometry: &Geometry,
        level: usize,
        address: u32,
        image: &mut I,
    ) -> Result<(), ImageFault>
        requires { CanFill geometry.now.layout (I.device image.old) level address self.old }
        ensures fills { FillsBlock geometry.now.layout level address
            (image_with I.Image image.old self.old) (image_with I.Image image.new self.new) result }
        ensures asks { ReadsAtMostOnce I.was_read (address * geometry.now.layout.fsize)
            geometry.now.layout.bsize image.old image.new }
    {
        if self.held[level] == Some(address) {
            return Ok(());
        }
        self.held[level] = None;
        let size = geometry.layout.bsize as usize;
        let start = level * size;
        let place = u64::from(address) * u64::from(geometry.layout.fsize);
        image.read_at(place, &mut self.buffer[start..start + size])?;
        self.held[level] = Some(address);
        Ok(())
    }

    /// The bytes of the buffer that are for a level of indirection.
    pub fn bytes(&self, geometry: &Geometry, level: usize) -> &[u8]
        requires { HasLevel geometry.now.layout level self.now }
        ensures { AreLevelBytes geometry.now.layout level self.now result.now }
    {
        let size = geometry.layout.bsize as usize;
        let start = level * size;
        &self.buffer[start..start + size]
    }
}

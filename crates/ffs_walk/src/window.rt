//! A window on an image. Walks use none: it is here for the crates above. `ffs_workspace` has
//! three: two for directories, and one in its `Table` of inodes. `Blocks` holds a walk's indirect
//! blocks by their addresses, and has a buffer of its own.

ghost use Rattle.std.specs.Prelude.{◌≡◌, ◌≤◌, ◌↔◌, IsTrue, vec_len};
ghost use Rattle.ffs_image.specs.Reads.{ReadsAtMostOnce};

use ffs_image::{Image, ImageFault};
use ffs_memory::FixedList;

/// A piece of an image that is kept between reads: bytes of one place, and of one image.
#[derive(Drop)]
pub struct Window {
    /// The bytes, and room for more.
    pub buffer: FixedList<u8>,
    /// Where the bytes are, in bytes from the start of the image.
    pub place: u64,
    /// How many bytes are held, at the start of the buffer.
    pub length: usize,
}

impl Window {
    ghost use Rattle.ffs_walk.specs.Windows.{CanFillWindow, FillsWindow, IsEmptyWindow, held_bytes, image_with};

    /// A window that holds nothing. It takes no memory.
    pub fn over(buffer: FixedList<u8>) -> Window
        ensures { IsEmptyWindow buffer result }
    {
        Window {
            buffer,
            place: 0,
            length: 0,
        }
    }

    /// Whether it holds just these bytes.
    fn is_at(&self, place: u64, length: usize) -> bool
        ensures { IsTrue result ↔ (self.now.place ≡ place) × (self.now.length ≡ length) }
    {
        self.place == place && self.length == length
    }

    /// Reads `length` bytes at a place, in bytes, unless the window holds just these.
    ///
    /// # Errors
    /// A read of the image that failed. The window holds nothing then.
    #[tactic(auto, unfolding(ffs_image::specs::Reads::ReadsAtMostOnce))]
    pub fn fill<I: Image>(
        &mut self,
        image: &mut I,
        place: u64,
        length: usize,
    ) -> Result<(), ImageFault>
        requires { CanFillWindow (I.device image.old) place length self.old }
        ensures fills { FillsWindow place length (image_with I.Image image.old self.old)
            (image_with I.Image image.new self.new) result }
        ensures asks { ReadsAtMostOnce I.was_read place length image.old image.new }
    {
        if self.is_at(place, length) {
            return Ok(());
        }
        self.length = 0;
        image.read_at(place, &mut self.buffer[0..length])?;
        self.place = place;
        self.length = length;
        Ok(())
    }

    /// The bytes that it holds.
    pub fn bytes(&self) -> &[u8]
        requires { self.now.length ≤ vec_len self.now.buffer }
        ensures { result.now ≡ held_bytes self.now }
    {
        &self.buffer[..self.length]
    }
}

//! An image that watches its reads.

ghost use Rattle.std.specs.Prelude.{◌≡◌};

use crate::areas::Areas;
use ffs_image::{Image, ImageFault};

/// A read of an image: its place and its length, in bytes.
#[derive(Clone, Copy)]
pub struct Read {
    pub place: u64,
    pub bytes: u64,
}

/// An image over another one, that finds the first read which covers more than one part of the
/// volume.
#[derive(Drop)]
pub struct WatchedImage<I: Image + Drop> {
    inner: I,
    areas: Areas,
    first_wrong: Option<Read>,
}

impl<I: Image + Drop> WatchedImage<I> {
    /// Watches the reads of an image by the areas of its volume.
    pub fn new(inner: I, areas: Areas) -> WatchedImage<I>
        ensures { result.inner ≡ inner }
    {
        WatchedImage {
            inner,
            areas,
            first_wrong: None,
        }
    }

    /// The first read that covered more than it may.
    pub fn first_wrong(&self) -> Option<Read> {
        self.first_wrong
    }
}

impl<I: Image + Drop> Image for WatchedImage<I> {
    ghost device = { λ w. I.device w.inner };

    ghost reads = { λ w. I.reads w.inner };

    ghost was_read = { λ w at size after. I.was_read w.inner at size after.inner };

    ghost sized = { λ w. I.sized w.inner };

    fn size(&self) -> u64 {
        self.inner.size()
    }

    fn failures(&self) -> u64 {
        self.inner.failures()
    }

    fn failed(&self) -> u64 {
        self.inner.failed()
    }

    fn read_at(&mut self, at: u64, buf: &mut [u8]) -> Result<(), ImageFault> {
        let bytes = buf.len() as u64;
        if self.first_wrong.is_none() && !self.areas.allow(at, bytes) {
            self.first_wrong = Some(Read { place: at, bytes });
        }
        self.inner.read_at(at, buf)
    }
}

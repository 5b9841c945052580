//! An image in memory.
ghost use Rattle.std.specs.Prelude.{◌≡◌};

use crate::image::{Image, ImageFault};
use std::marker::Model;

/// An image whose bytes are in memory. None of its reads fails.
#[derive(Drop)]
pub struct MemoryImage {
    bytes: Vec<u8>,
}

/// It is seen as its bytes.
impl Model for MemoryImage {
    ghost use Rattle.std.specs.Prelude.{ℕ, List};

    ghost Value = { List ℕ };

    ghost view = { λ m. m.bytes.items };
}

impl MemoryImage {
    /// The image of these bytes.
    pub fn new(bytes: Vec<u8>) -> MemoryImage
        ensures { result ≡ bytes.items }
    {
        MemoryImage { bytes }
    }
}

impl Image for MemoryImage {
    ghost use Rattle.std.specs.Prelude.{length, Some, refl, []};

    ghost device = { λ m. record {
      contents = Some m;
      size = length m;
      failures = 0;
      failed_sector = 0;
      lent = [];
    } };

    ghost reads = { λ _. 0 };

    ghost was_read = { λ m _ _ after. after ≡ m };

    ghost sized = { λ _. refl };

    fn size(&self) -> u64 {
        self.bytes.len() as u64
    }

    fn failures(&self) -> u64 {
        0
    }

    fn failed(&self) -> u64 {
        0
    }

    fn read_at(&mut self, at: u64, buf: &mut [u8]) -> Result<(), ImageFault> {
        let start = at as usize;
        buf.copy_from_slice(&self.bytes[start..start + buf.len()]);
        Ok(())
    }
}

//! The entries of a chunk, one after another.

ghost use Rattle.std.specs.Prelude.{◌≡◌, ◌≤◌};
ghost use Rattle.ffs_volume.specs.declared.constants.TheConstants.{DIRBLKSIZ};

use ffs_layout::{Entry, entry_at};
use ffs_volume::Order;
use ffs_volume::constants::DIRBLKSIZ;

/// The entries of a chunk (dir(5)) that are still to come, each with its index.
#[derive(Clone, Copy, Debug)]
pub struct ChunkEntries<'a> {
    /// The byte order of the volume.
    pub order: Order,
    /// The bytes of the chunk.
    pub chunk: &'a [u8; DIRBLKSIZ],
    /// Where the next entry would be, in bytes from the start of the chunk.
    pub place: usize,
    /// How many entries are before `place`.
    pub index: usize,
    ghost in_chunk: { place ≤ DIRBLKSIZ },
    ghost counted: { index ≤ place },
}

impl<'a> ChunkEntries<'a> {
    /// All entries of a chunk.
    #[inline(always)]
    pub fn of_chunk(order: Order, chunk: &'a [u8; DIRBLKSIZ]) -> ChunkEntries<'a>
        ensures { (result.order ≡ order) × (result.chunk ≡ chunk.entry) × (result.place ≡ 0)
            × (result.index ≡ 0) }
    {
        ChunkEntries {
            order,
            chunk,
            place: 0,
            index: 0,
        }
    }
}

impl<'a> Iterator for ChunkEntries<'a> {
    ghost use Rattle.std.specs.Iterator.{item_count};
    ghost use Rattle.ffs_names.specs.EntriesToCome.{entries_to_come, GivesNextEntry};

    type Item = (usize, Entry<'a>);

    ghost next_gives = { GivesNextEntry };

    ghost remaining = { item_count entries_to_come };

    #[inline(always)]
    fn next(&mut self) -> Option<(usize, Entry<'a>)> {
        let entry = entry_at(self.order, self.chunk, self.place)?;
        let index = self.index;
        self.place += usize::from(entry.length);
        self.index += 1;
        Some((index, entry))
    }
}

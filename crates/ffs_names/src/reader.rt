//! The reader of directories that a survey of a volume goes over.

ghost use Rattle.std.specs.Prelude.{◌≡◌};

use crate::entries::Entries;
use ffs_image::{Image, ImageFault};
use ffs_layout::Geometry;
use ffs_memory::FilledList;
use ffs_survey::{Directories, EntryHead, is_dir};
use ffs_volume::Class;
use ffs_workspace::{Windows, address_in, cut_in};

/// Reads the directories of a volume: the inodes whose kind is a directory's, by their kept steps.
#[derive(Drop)]
pub struct DirectoryReader<'a, I> {
    /// The volume.
    pub geometry: Geometry,
    /// Its image.
    pub image: &'a mut I,
    /// The buffers that the image is read into.
    pub windows: &'a mut Windows,
    /// What each inode is.
    pub kinds: &'a [u8],
    /// What is noted of each inode (`ffs_workspace::note_of`).
    pub notes: &'a FilledList<u32>,
    /// The current directory.
    pub entries: Entries,
}

impl<I: Image> Directories for DirectoryReader<'_, I> {
    ghost use Rattle.ffs_names.specs.Readers.{Base as ReaderBase, KnowsReader, dir_entries, dir_right_shape, IsReaderReady};
    ghost use Rattle.ffs_names.specs.Shapes.{has_right_shape, HasEnded};
    ghost use Rattle.ffs_names.specs.Entering.{to_come, most_to_come, last_name};
    ghost use Rattle.ffs_names.specs.Costs.{reads_for_entries, HoldsEntries};
    ghost use Rattle.ffs_volume.specs.Costs.DirectoryReads.{noted_directory_cost};

    ghost Base = { ReaderBase };

    ghost base = { λ t. record {
      layout = t.geometry.layout;
      contents = (I.device t.image.now).contents;
      kinds = t.kinds.now;
      notes = t.notes.now.items;
      image_lent = t.image.ghost_name;
      windows_lent = t.windows.ghost_name;
    } };

    ghost knows = { KnowsReader };

    ghost entries = { dir_entries };

    ghost right_shape = { dir_right_shape };

    ghost device = { λ t. I.device t.image.now };

    ghost ready = { λ t. IsReaderReady t.geometry.layout (I.device t.image.now) t.windows.now
        t.kinds.now t.notes.now.items × (t.entries.chunks.walk.geometry ≡ t.geometry) };

    ghost reads = { λ t. I.reads t.image.now };

    ghost cost = { λ t b dir. noted_directory_cost t.layout b dir };

    ghost to_read = { λ t b. reads_for_entries b t.entries };

    ghost held = { λ t. HoldsEntries t.windows.now.blocks t.windows.now.current t.entries };

    ghost rest = { λ t b. to_come b t.entries };

    ghost left = { λ t. most_to_come t.entries };

    ghost name = { λ t. last_name t.entries };

    ghost right_shape_so_far = { λ t b. has_right_shape b t.entries };

    ghost ended = { λ t b. HasEnded b t.entries };

    #[inline(always)]
    fn start(&mut self, dir: u32) -> Result<(), ImageFault> {
        if !is_dir(self.kinds, dir as usize) {
            self.entries.stop();
            return Ok(());
        }
        let note = self.notes[dir as usize];
        if let Some(address) = address_in(note) {
            return self.entries.restart_at(self.image, address);
        }
        let inode = self
            .windows
            .table
            .inode_by_piece(&self.geometry, dir, self.image)?;
        self.entries.restart(&inode, Class::Dir, cut_in(note));
        Ok(())
    }

    #[inline(always)]
    fn next(&mut self) -> Result<Option<EntryHead>, ImageFault> {
        // Most entries are in the current chunk: they ask for no window.
        match self.entries.take() {
            Some(head) => return Ok(Some(head)),
            None => {}
        }
        // The survey ends where a read fails, so the reading needn't be stopped there.
        let windows = &mut *self.windows;
        self.entries
            .advance(self.image, &mut windows.blocks, &mut windows.current)
    }

    #[inline(always)]
    fn skip_empty(&mut self) -> u32 {
        self.entries.skip_empty()
    }

    fn has_right_shape(&mut self) -> Result<bool, ImageFault> {
        self.entries
            .has_right_shape(self.image, &mut self.windows.blocks)
    }
}

//! The entries of a directory.

ghost use Rattle.std.specs.Prelude.{◌≡◌, ◌+◌, ◌-◌, ◌*◌, ◌/◌, ◌≤◌, ◌^◌, ℕ, List, true, false, IfErr, IfOk, MatchBool, OnOk, OnErr, if◌then◌else◌};
ghost use Rattle.ffs_image.specs.{Device.ForContents, Reads.ReadsAtMostOnce};
ghost use Rattle.ffs_names.specs.{OneChunk.{has_chunk_at, one_chunk_at as one_chunk}, Windows.{CanWalkDir, CanReadChunks}};
ghost use Rattle.ffs_volume.specs.{Costs.Calm.is_right_size, declared.constants.TheConstants.DIRBLKSIZ};
ghost use Rattle.ffs_volume.specs.declared.constants.TheConstants.{DEV_BSIZE, DIRENT_HEADER};
ghost use Rattle.ffs_survey.specs.Costs.{TakesReads};
ghost use Rattle.ffs_names.specs.Readings.{IsEnded, StopsChunks};
ghost use Rattle.ffs_walk.specs.declared.blocks.Blocks.{Blocks};
ghost use Rattle.ffs_walk.specs.declared.window.Window.{Window};

use crate::chunks::Chunks;
use crate::gap::gap_of;
use crate::one_chunk::one_chunk_at;
use crate::role::role_of;
use ffs_image::{Image, ImageFault};
use ffs_layout::{Geometry, entry_at};
use ffs_survey::EntryHead;
use ffs_volume::constants::{DIRBLKSIZ, DIRENT_HEADER, MINDIRSIZE};
use ffs_volume::{Class, Inode, Order};
use ffs_walk::{Blocks, Window};

/// A reading of the entries of a directory (dir(5)), chunk after chunk.
///
/// `few`: at most 2^28 entries are still to come. A chunk of 512 bytes has at most 64 entries of 8
/// bytes, and at most 2^22 chunks are to come (`Chunks`).
#[derive(Drop)]
pub struct Entries {
    /// The byte order of the volume.
    pub order: Order,
    /// The chunks of the directory.
    pub chunks: Chunks,
    /// The current chunk.
    pub chunk: [u8; DIRBLKSIZ],
    /// Where the next entry of the chunk would be, in bytes from its start.
    pub place: usize,
    /// How many entries of the chunk are before `place`.
    pub index: usize,
    /// Whether the chunk is at the start of the file.
    pub at_start: bool,
    /// Whether the size is right, and the entries of each chunk before fill it.
    pub right_so_far: bool,
    /// Where the name of the last entry is in the chunk, in bytes from its start.
    pub name_place: usize,
    /// How many bytes that name has.
    pub name_len: usize,
    /// Whether the directory's only chunk was read when the reading began. `chunks` have nothing
    /// left then.
    pub only_chunk: bool,
    ghost in_chunk: { place ≤ DIRBLKSIZ },
    ghost counted: { index ≤ place },
    ghost few: { 64 * chunks.chunks_left + (DIRBLKSIZ - place) / DIRENT_HEADER ≤ 2 ^ 28 },
    ghost name_in_chunk: { name_place + name_len ≤ DIRBLKSIZ },
    ghost only: { only_chunk ≡ true → IsEnded chunks },
    ghost same_order: { order ≡ chunks.walk.geometry.layout.order },
}

/// Whether a directory isn't shorter than `.` and `..`, and has whole chunks.
fn has_right_size(inode: &Inode) -> bool
    ensures { result ≡ is_right_size inode.now.size }
{
    inode.size >= MINDIRSIZE && inode.size % DIRBLKSIZ as u64 == 0
}

impl Entries {
    ghost use Rattle.ffs_names.specs.Costs.{reads_for_entries, HoldsEntries};
    ghost use Rattle.ffs_names.specs.Leaves.{reading_moment, walk_moment, LeavesBlocks, LeavesEntries};
    ghost use Rattle.ffs_image.specs.Reads.{ReadAfter};
    ghost use Rattle.ffs_names.specs.Shapes.{runs_of_inode, has_right_shape, BeginsDirectory, BeginsIn, EndsChunks, GivesDirectory, GivesEntry, HasEnded, HasStopped, RestartsIn, SkipsEmptyEntries, TakesFromChunk};
    ghost use Rattle.ffs_names.specs.Entering.{last_name, left_in_chunk};

    /// A reading of the directory with this inode. `cut` is how many offers it keeps where its
    /// eleventh dup offer cut it, else 0.
    pub fn start(geometry: &Geometry, inode: &Inode, cut: u32) -> Entries
        ensures { BeginsIn geometry.now inode.now cut result }
    {
        let chunks = Chunks::start(geometry, inode, cut);
        Entries {
            order: chunks.walk.geometry.layout.order,
            chunks,
            chunk: [0; DIRBLKSIZ],
            place: DIRBLKSIZ,
            index: 0,
            at_start: false,
            right_so_far: has_right_size(inode),
            name_place: 0,
            name_len: 0,
            only_chunk: false,
        }
    }

    /// A reading of no entries.
    pub fn none(geometry: &Geometry) -> Entries
        ensures stopped { HasStopped geometry.now result }
        ensures runs { result.chunks.runs ≡ 0 }
    {
        // Any inode will do: the reading is stopped before its first step.
        let mut entries = Entries::start(geometry, &one_chunk_at(0), 0);
        entries.stop();
        entries
    }

    /// Begins a reading of another directory of the same volume, as `start` does, in place, if this
    /// is its class.
    #[inline(always)]
    pub fn restart(&mut self, inode: &Inode, class: Class, cut: u32)
        ensures { RestartsIn self.old.chunks.walk.geometry inode.now class cut self.new }
    {
        self.place = DIRBLKSIZ;
        self.index = 0;
        self.chunks.restart(inode, class, cut);
        self.at_start = false;
        self.right_so_far = has_right_size(inode);
        self.only_chunk = false;
    }

    /// Leaves nothing of `chunks` to come: the only chunk of a directory is read without them.
    #[inline(always)]
    fn end_chunks(&mut self)
        ensures { EndsChunks self.old self.new }
    {
        if !self.only_chunk {
            self.chunks.end();
            self.only_chunk = true;
        }
    }

    /// Begins a reading of another directory of the same volume, as `restart` does: of one that has
    /// one chunk, at this address, and isn't cut. The chunk is read at once, straight to where its
    /// entries are looked at: the reading needs neither a walk nor a window. A hole, or an address
    /// out of range, gives no entry.
    ///
    /// # Errors
    /// A read of the image that failed. The reading is stopped then, as in `next`.
    #[inline(always)]
    #[tactic(auto, unfolding(ffs_image::specs::Reads::ReadsAtMostOnce))]
    pub fn restart_at<I: Image>(&mut self, image: &mut I, address: u32) -> Result<(), ImageFault>
        requires { self.old.chunks.walk.geometry.layout.size
            * self.old.chunks.walk.geometry.layout.fsize ≤ (I.device image.old).size }
        ensures gives { OnOk result (ForContents (I.device image.old).contents
            (λ b. GivesDirectory self.old.chunks.walk.geometry.layout b (one_chunk address) 0
            self.new)) }
        ensures reads { ForContents (I.device image.old).contents
            (λ b. TakesReads (I.reads image.old) (I.reads image.new)
            (runs_of_inode self.old.chunks.walk.geometry.layout b (one_chunk address) 0)
            (reads_for_entries b self.new)
            ((blocks : Blocks) (w : Window) → HoldsEntries blocks w self.new) result) }
        ensures once { I.reads image.new ≤ I.reads image.old
            + (if has_chunk_at self.old.chunks.walk.geometry.layout address then 1 else 0) }
        ensures read { ReadAfter (I.device image.old) (I.device image.new) result }
        ensures sector { IfErr result (λ fault. fault.sector
            ≡ address * self.old.chunks.walk.geometry.layout.fsize / DEV_BSIZE) }
        ensures asks { ReadsAtMostOnce I.was_read
            (address * self.old.chunks.walk.geometry.layout.fsize) DIRBLKSIZ image.old image.new }
        // Where its chunk is read, none is left to `chunks`.
        ensures chunks { MatchBool (has_chunk_at self.old.chunks.walk.geometry.layout address)
            (EndsChunks self.old self.new)
            (BeginsDirectory self.old.chunks.walk.geometry.layout (one_chunk address) 0
            self.new) }
        ensures stopped { OnErr result (HasStopped self.old.chunks.walk.geometry self.new) }
        ensures geometry { self.new.chunks.walk.geometry ≡ self.old.chunks.walk.geometry }
    {
        let geometry = &self.chunks.walk.geometry;
        if address == 0 || !geometry.in_range(address, 1) {
            self.restart(&one_chunk_at(address), Class::Dir, 0);
            return Ok(());
        }
        let place = u64::from(address) * u64::from(geometry.layout.fsize);
        self.end_chunks();
        self.place = DIRBLKSIZ;
        self.right_so_far = false;
        image.read_at(place, &mut self.chunk)?;
        self.place = 0;
        self.index = 0;
        self.right_so_far = true;
        self.at_start = true;
        Ok(())
    }

    /// No entry comes any more.
    pub fn stop(&mut self)
        ensures stopped { HasStopped self.old.chunks.walk.geometry self.new }
        ensures chunks { StopsChunks self.old.chunks self.new.chunks }
        ensures name { last_name self.new ≡ last_name self.old }
    {
        self.place = DIRBLKSIZ;
        self.right_so_far = false;
        self.chunks.chunks_left = 0;
    }

    /// Takes the entry at `place`, if one is there.
    #[inline(always)]
    pub(crate) fn take(&mut self) -> Option<EntryHead>
        ensures { TakesFromChunk self.old self.new result }
    {
        let Some(entry) = entry_at(self.order, &self.chunk, self.place) else {
            return None;
        };
        let role = role_of(self.at_start, self.index, &entry);
        let head = EntryHead {
            role,
            number: entry.number,
            length: entry.length,
            kind: entry.kind,
        };
        self.name_place = self.place + DIRENT_HEADER;
        self.name_len = entry.name.len();
        self.place += entry.length as usize;
        self.index += 1;
        Some(head)
    }

    /// Passes over the empty entries that come next in the current chunk. Returns how many. Its
    /// loop has no more than a place and a count, where `take` keeps an entry and its name.
    #[inline(always)]
    pub(crate) fn skip_empty(&mut self) -> u32
        ensures { SkipsEmptyEntries self.old self.new result }
    {
        let mut place = self.place;
        let mut skipped = 0u32;
        'entries: while let Some(entry) = entry_at(self.order, &self.chunk, place) {
            if entry.number != 0 {
                break;
            }
            place += usize::from(entry.length);
            skipped += 1;
        }
        self.place = place;
        self.index += skipped as usize;
        skipped
    }

    /// Takes the next entry as `next` does, but doesn't stop the reading where a read fails.
    #[inline(always)]
    pub(crate) fn advance<I: Image>(
        &mut self,
        image: &mut I,
        blocks: &mut Blocks,
        window: &mut Window,
    ) -> Result<Option<EntryHead>, ImageFault>
        requires { CanReadChunks self.old.chunks.walk.geometry.layout (I.device image.old)
            blocks.old window.old }
        ensures entry { IfOk result (λ head. ForContents (I.device image.old).contents
            (λ b. GivesEntry b self.old self.new head)) }
        ensures reads { HoldsEntries blocks.old window.old self.old
            → ForContents (I.device image.old).contents (λ b. TakesReads (I.reads image.old)
            (I.reads image.new) (reads_for_entries b self.old) (reads_for_entries b self.new)
            (HoldsEntries blocks.new window.new self.new) result) }
        ensures leaves { LeavesEntries
            (reading_moment I.Image image.old blocks.old window.old self.old)
            (reading_moment I.Image image.new blocks.new window.new self.new) result }
    {
        'chunks: loop {
            match self.take() {
                Some(head) => return Ok(Some(head)),
                None => {
                    self.right_so_far &= self.place == DIRBLKSIZ;
                    self.place = DIRBLKSIZ;
                }
            }
            if self.only_chunk {
                return Ok(None);
            }
            match self.chunks.next(image, blocks, window, &mut self.chunk)? {
                None => return Ok(None),
                Some(offset) => {
                    self.at_start = offset == 0;
                    self.index = 0;
                    self.place = 0;
                }
            }
        }
    }

    /// The next entry, if there is one, without its name.
    ///
    /// # Errors
    /// A read of the image that failed. The reading is stopped then: no entry comes any more, and
    /// the shape isn't right.
    #[inline(always)]
    pub fn next<I: Image>(
        &mut self,
        image: &mut I,
        blocks: &mut Blocks,
        window: &mut Window,
    ) -> Result<Option<EntryHead>, ImageFault>
        requires { CanReadChunks self.old.chunks.walk.geometry.layout (I.device image.old)
            blocks.old window.old }
        ensures entry { IfOk result (λ head. ForContents (I.device image.old).contents
            (λ b. GivesEntry b self.old self.new head)) }
        ensures reads { HoldsEntries blocks.old window.old self.old
            → ForContents (I.device image.old).contents (λ b. TakesReads (I.reads image.old)
            (I.reads image.new) (reads_for_entries b self.old) (reads_for_entries b self.new)
            (HoldsEntries blocks.new window.new self.new) result) }
        ensures leaves { LeavesEntries
            (reading_moment I.Image image.old blocks.old window.old self.old)
            (reading_moment I.Image image.new blocks.new window.new self.new) result }
        ensures stopped { OnErr result (HasStopped self.old.chunks.walk.geometry self.new) }
    {
        match self.advance(image, blocks, window) {
            Ok(head) => Ok(head),
            Err(fault) => {
                self.stop();
                Err(fault)
            }
        }
    }

    /// Whether the directory, of which no entry is left, has a right size, sound chunks and no
    /// hole.
    ///
    /// # Errors
    /// A read of the image that failed. The reading is stopped then, as in `next`.
    pub fn has_right_shape<I: Image>(
        &mut self,
        image: &mut I,
        blocks: &mut Blocks,
    ) -> Result<bool, ImageFault>
        requires { CanWalkDir self.old.chunks.walk.geometry.layout (I.device image.old) blocks.old }
        ensures shape { IfOk result (λ right. ForContents (I.device image.old).contents
            (λ b. HasEnded b self.old → right ≡ has_right_shape b self.old)) }
        ensures again { IfOk result (λ right. ForContents (I.device image.old).contents
            (λ b. HasEnded b self.old
            → HasEnded b self.new × (right ≡ has_right_shape b self.new))) }
        ensures reads { (w : Window) → HoldsEntries blocks.old w self.old
            → ForContents (I.device image.old).contents (λ b. TakesReads (I.reads image.old)
            (I.reads image.new) (reads_for_entries b self.old) (reads_for_entries b self.new)
            (HoldsEntries blocks.new w self.new) result) }
        ensures leaves { LeavesBlocks (walk_moment I.Image image.old blocks.old self.old.chunks)
            (walk_moment I.Image image.new blocks.new self.new.chunks) result }
        ensures current { OnOk result (left_in_chunk self.new ≡ left_in_chunk self.old) }
        ensures name { last_name self.new ≡ last_name self.old }
        ensures stopped { OnErr result (HasStopped self.old.chunks.walk.geometry self.new) }
    {
        if !self.right_so_far {
            return Ok(false);
        }
        if self.only_chunk {
            return Ok(true);
        }
        match gap_of(image, blocks, &mut self.chunks) {
            Ok(gap) => Ok(!gap),
            Err(fault) => {
                self.stop();
                Err(fault)
            }
        }
    }

    /// The name of the entry that `next` gave last, until `next` is called again.
    pub fn name(&self) -> &[u8]
        ensures { result.now ≡ last_name self.now }
    {
        &self.chunk[self.name_place..][..self.name_len]
    }
}

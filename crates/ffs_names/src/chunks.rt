//! The chunks of a directory.

ghost use Rattle.std.specs.Prelude.{◌≡◌, ◌≤◌, ◌<◌, ◌^◌, ℕ, List, IfOk, IfSome, MatchResult, OnErr};
ghost use Rattle.ffs_image.specs.Device.{ForContents};
ghost use Rattle.ffs_volume.specs.{Directories.Entries.bytes_read, declared.Step.TheVariants.Run};
ghost use Rattle.ffs_names.specs.{Fits.CursorFits, RunsAreSeen.RunsAreSeen, Windows.{CanWalkDir, CanReadChunks}};
ghost use Rattle.ffs_survey.specs.Costs.{TakesReads};

use crate::run_cursor::RunCursor;
use ffs_image::{Image, ImageFault};
use ffs_layout::Geometry;
use ffs_volume::constants::{DIRBLKSIZ, MINDIRSIZE};
use ffs_volume::{Class, Inode, Step};
use ffs_walk::{Blocks, Keeping, Walk, Window, class_of};

/// A reading of the chunks of a directory (dir(5)), in the order of the file: those of its Runs of
/// data that are kept.
#[derive(Clone, Copy, Debug)]
pub struct Chunks {
    /// The walk over the blocks of the directory.
    pub walk: Walk,
    /// Which of its steps are kept, so far.
    pub keeping: Keeping,
    /// How many bytes of the directory are to be read in all, whatever was read so far.
    pub bytes_to_read: u64,
    /// At most how many chunks are still to come: no more than 2^22, as many chunks of 512 bytes as
    /// the most bytes that are read of a directory, 2^31, have. The size of the directory gives it;
    /// it ends the reading of any image, also of one that gives other bytes each time.
    pub chunks_left: u32,
    /// The chunks of the current Run.
    pub run_cursor: RunCursor,
    /// How many Runs were looked at: counted for its bound, which is proved.
    pub runs: u64,
    /// Whether a hole was seen.
    pub gap: bool,
    ghost bytes_to_read_small: { bytes_to_read ≤ 2 ^ 31 },
    ghost few: { chunks_left ≤ 2 ^ 22 },
    ghost cursor_fits: { CursorFits walk.geometry.layout run_cursor },
}

impl Chunks {
    ghost use Rattle.ffs_names.specs.Costs.{to_read, BeginsByClass, BeginsReading, HoldsReading, SeesRun};
    ghost use Rattle.ffs_names.specs.RunCursors.{last_place, IsGivenChunk, StepsOn};
    ghost use Rattle.ffs_names.specs.Readings.{all_chunks, rest, CanSee, ContinuesTo, CountsNoMore, FindsNextRun, GivesChunk, HasSeenAll, IsEnded, IsSame};
    ghost use Rattle.ffs_names.specs.Leaves.{reading_moment, walk_moment, LeavesChunks, NextChunkLeaves, LeavesWalk, ReadsForSteps, StaysUngiven};

    /// Looks at the Run that comes next in the walk: one of data that is kept whole, and is in
    /// range, becomes the current Run. Any other has no chunks.
    fn see(&mut self, start: u32, len: u32, block: Option<u64>)
        requires { CanSee self.old (Run start len block) }
        ensures sees { SeesRun self.old self.new start len block }
        ensures same { IsSame self.old self.new }
    {
        let geometry = self.walk.geometry;
        let in_range = geometry.in_range(start, len);
        self.runs = self.runs.saturating_add(1);
        if self.keeping.take(len, in_range) != len {
            return;
        }
        if !in_range {
            return;
        }
        if let Some(block) = block {
            self.run_cursor = RunCursor::of_run(&geometry, self.bytes_to_read, start, len, block);
        }
    }

    /// Moves on to a Run with a chunk, if the current Run has none left. Returns whether there is
    /// one.
    #[inline(always)]
    pub(crate) fn advance<I: Image>(
        &mut self,
        image: &mut I,
        blocks: &mut Blocks,
    ) -> Result<bool, ImageFault>
        requires { CanWalkDir self.old.walk.geometry.layout (I.device image.old) blocks.old }
        ensures continues { ForContents (I.device image.old).contents (λ b. MatchResult result
            (λ _. ContinuesTo b self.old self.new) (λ _. CountsNoMore b self.old self.new)) }
        ensures found { IfOk result (FindsNextRun (I.device image.old).contents self.old self.new) }
        ensures fault { OnErr result ((b : List ℕ) → HasSeenAll b self.new) }
        ensures leaves { LeavesWalk (walk_moment I.Image image.old blocks.old self.old)
            (walk_moment I.Image image.new blocks.new self.new) result }
        ensures steps { ReadsForSteps (walk_moment I.Image image.old blocks.old self.old)
            (walk_moment I.Image image.new blocks.new self.new) result }
    {
        'steps: while self.run_cursor.next == self.run_cursor.count {
            if !self.keeping.is_replay_open() {
                return Ok(false);
            }
            match self.walk.next(image, blocks)? {
                None => return Ok(false),
                Some(Step::Run { start, len, block }) => self.see(start, len, block),
                Some(Step::Tail) => {}
                Some(Step::Gap) => {
                    self.gap = true;
                    self.walk.skip_gaps(blocks);
                }
            }
        }
        Ok(true)
    }

    /// Reads the next chunk, without regard to `chunks_left`. It isn't inlined, so that a loop over the
    /// entries of a chunk has the registers for itself.
    #[inline(never)]
    fn read<I: Image>(
        &mut self,
        image: &mut I,
        blocks: &mut Blocks,
        window: &mut Window,
        chunk: &mut [u8; DIRBLKSIZ],
    ) -> Result<Option<u64>, ImageFault>
        requires { CanReadChunks self.old.walk.geometry.layout (I.device image.old) blocks.old
            window.old }
        ensures chunk { IfOk result (λ offset. ForContents (I.device image.old).contents
            (λ b. GivesChunk b (all_chunks b) self.old self.new chunk.new offset)) }
        ensures ungiven { StaysUngiven chunk.old chunk.new result }
        ensures place { IfOk result (λ o. IfSome o (λ _. IsGivenChunk self.old.walk.geometry.layout
            (I.device image.old).contents self.new.run_cursor chunk.new)) }
        ensures steps { IfOk result (λ o. IfSome o (λ _.
            StepsOn self.old.run_cursor self.new.run_cursor)) }
        ensures reads { HoldsReading blocks.old window.old self.old
            → ForContents (I.device image.old).contents (λ b. TakesReads (I.reads image.old)
            (I.reads image.new) (to_read b self.old) (to_read b self.new)
            (HoldsReading blocks.new window.new self.new) result) }
        ensures leaves { LeavesChunks
            (reading_moment I.Image image.old blocks.old window.old self.old)
            (reading_moment I.Image image.new blocks.new window.new self.new) result }
    {
        if !self.advance(image, blocks)? {
            return Ok(None);
        }
        let run_cursor = self.run_cursor;
        run_cursor.read_chunk(image, window, chunk)?;
        self.run_cursor.next += 1;
        Ok(Some(run_cursor.offset + DIRBLKSIZ as u64 * u64::from(run_cursor.next)))
    }

    /// A reading of the directory with this inode. `cut` is how many offers it keeps where its
    /// eleventh dup offer cut it, else 0.
    #[inline(always)]
    pub fn start(geometry: &Geometry, inode: &Inode, cut: u32) -> Chunks
        ensures { BeginsReading geometry.now inode.now cut result }
    {
        Chunks::of_class(geometry, inode, class_of(geometry, inode), cut)
    }

    /// A reading as `start` begins it, if this is the inode's class.
    #[inline(always)]
    pub fn of_class(geometry: &Geometry, inode: &Inode, class: Class, cut: u32) -> Chunks
        ensures { BeginsByClass geometry.now inode.now class cut result }
    {
        let bytes_to_read = bytes_read(inode.size);
        Chunks {
            walk: Walk::of_class(geometry, inode, class),
            keeping: Keeping::start(cut),
            bytes_to_read,
            chunks_left: (bytes_to_read / DIRBLKSIZ as u64) as u32,
            run_cursor: RunCursor::empty(),
            runs: 0,
            gap: false,
        }
    }

    /// Begins a reading of another directory of the same volume, as `of_class` does, in place, if
    /// this is its class.
    #[inline(always)]
    pub fn restart(&mut self, inode: &Inode, class: Class, cut: u32)
        ensures { BeginsByClass self.old.walk.geometry inode.now class cut self.new }
    {
        let bytes_to_read = bytes_read(inode.size);
        self.run_cursor = RunCursor::empty();
        self.walk.restart(inode, class);
        self.keeping = Keeping::start(cut);
        self.bytes_to_read = bytes_to_read;
        self.chunks_left = (bytes_to_read / DIRBLKSIZ as u64) as u32;
        self.runs = 0;
        self.gap = false;
    }

    /// Leaves no chunk to come, no step of the walk, and no hole that was seen. How many Runs were
    /// looked at stays.
    pub fn end(&mut self)
        ensures over { IsEnded self.new }
        ensures geometry { self.new.walk.geometry ≡ self.old.walk.geometry }
        ensures runs { self.new.runs ≡ self.old.runs }
    {
        self.walk = Walk::ended(&self.walk.geometry);
        self.run_cursor = RunCursor::empty();
        (self.chunks_left, self.gap) = (0, false);
    }

    /// Reads the next chunk into `chunk`, and returns its place in the file, in bytes, and None
    /// where no chunk is left. The chunks of a Run are read at once.
    ///
    /// # Errors
    /// A read of the image that failed. Then no chunk comes any more.
    #[inline(always)]
    pub fn next<I: Image>(
        &mut self,
        image: &mut I,
        blocks: &mut Blocks,
        window: &mut Window,
        chunk: &mut [u8; DIRBLKSIZ],
    ) -> Result<Option<u64>, ImageFault>
        requires { CanReadChunks self.old.walk.geometry.layout (I.device image.old) blocks.old
            window.old }
        ensures chunk { IfOk result (λ offset. ForContents (I.device image.old).contents
            (λ b. GivesChunk b (rest b) self.old self.new chunk.new offset)) }

        // Where no chunk is given, and where a read failed, what was in `chunk` stays.
        ensures ungiven { StaysUngiven chunk.old chunk.new result }
        ensures reads { HoldsReading blocks.old window.old self.old
            → ForContents (I.device image.old).contents (λ b. TakesReads (I.reads image.old)
            (I.reads image.new) (to_read b self.old) (to_read b self.new)
            (HoldsReading blocks.new window.new self.new) result) }
        ensures leaves { NextChunkLeaves
            (reading_moment I.Image image.old blocks.old window.old self.old)
            (reading_moment I.Image image.new blocks.new window.new self.new) chunk.new result }
    {
        if self.chunks_left == 0 {
            return Ok(None);
        }
        match self.read(image, blocks, window, chunk) {
            Ok(None) => Ok(None),
            Ok(Some(offset)) => {
                self.chunks_left -= 1;
                Ok(Some(offset))
            }
            Err(fault) => {
                self.chunks_left = 0;
                Err(fault)
            }
        }
    }

    /// Where the chunk that it gave last is in the image, in bytes, until it is asked for another.
    pub fn last_place(&self) -> u64
        ensures { result ≡ last_place self.now.run_cursor }
    {
        self.run_cursor.place + DIRBLKSIZ as u64 * u64::from(self.run_cursor.next.saturating_sub(1))
    }

    /// How many Runs were looked at.
    pub fn runs(&self) -> u64
        ensures { result ≡ self.now.runs }
    {
        self.runs
    }
}

/// How many bytes of a directory of a size are read: whole chunks, and one at least. No directory
/// has 2^31 bytes.
fn bytes_read(size: u64) -> u64
    ensures value { size < 2 ^ 31 → result ≡ bytes_read size }
    ensures small { result ≤ 2 ^ 31 }
{
    if size >= 1 << 31 {
        return 0;
    }
    if size < MINDIRSIZE {
        return DIRBLKSIZ as u64;
    }
    size.div_ceil(DIRBLKSIZ as u64) * DIRBLKSIZ as u64
}

/// Does nothing: its contract is the fact that a reading of a directory looks at no more Runs than
/// the block check sees in it. `Chunks::start` and `Chunks::next` bound its count by the Runs of
/// the replay, and these are as many. It stands here, since it says what the count of
/// `Chunks::runs` means; the crate has no other law.
pub fn runs_are_seen()
    ensures { RunsAreSeen }
{}

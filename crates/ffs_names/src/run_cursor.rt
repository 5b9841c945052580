//! The chunks of one Run of a directory.

ghost use Rattle.std.specs.Prelude.{◌≡◌, ◌+◌, ◌*◌, ◌≤◌, ◌^◌, OnErr, OnOk};
ghost use Rattle.ffs_image.specs.{Device.ForContents, Reads.ReadsAtMostOnce};
ghost use Rattle.ffs_volume.specs.{Disk.Numbers.piece, declared.constants.TheConstants.DIRBLKSIZ};

use ffs_image::{Image, ImageFault};
use ffs_layout::Geometry;
use ffs_volume::constants::DIRBLKSIZ;
use ffs_walk::Window;

/// The chunks of the current Run that are read, and which of them is the next.
#[derive(Clone, Copy, Debug)]
pub struct RunCursor {
    /// Where the Run is, in bytes from the start of the image.
    pub place: u64,
    /// How many bytes these chunks have.
    pub length: u64,
    /// Where the Run is in the file, in bytes.
    pub offset: u64,
    /// The index of the next chunk.
    pub next: u32,
    /// How many chunks of the Run lie before the end of what is read of the directory.
    pub count: u32,
    ghost in_order: { next ≤ count },
    ghost whole: { length ≡ DIRBLKSIZ * count },
    ghost in_file: { offset + DIRBLKSIZ * count ≤ 2 ^ 31 },
}

impl RunCursor {
    ghost use Rattle.ffs_names.specs.RunCursors.{BeginsRun, HasNoChunks};
    ghost use Rattle.ffs_names.specs.Leaves.{window_moment, LeavesRun};
    ghost use Rattle.ffs_names.specs.Fits.{CanBeginRun};
    ghost use Rattle.ffs_names.specs.Windows.{CanReadRun};

    /// No chunks.
    pub fn empty() -> RunCursor
        ensures { HasNoChunks result }
    {
        RunCursor {
            place: 0,
            length: 0,
            offset: 0,
            next: 0,
            count: 0,
        }
    }

    /// The chunks of a Run of `len` fragments at the address `start`, which belongs to the logical
    /// block `block` of a directory. Of the whole directory `bytes_to_read` bytes are read.
    pub fn of_run(
        geometry: &Geometry,
        bytes_to_read: u64,
        start: u32,
        len: u32,
        block: u64,
    ) -> RunCursor
        requires { CanBeginRun geometry.now.layout bytes_to_read start len }
        ensures { BeginsRun geometry.now.layout bytes_to_read start len block result }
    {
        if block >= 1 << 31 {
            return RunCursor::empty();
        }
        let offset = block * u64::from(geometry.layout.bsize);
        if offset >= bytes_to_read {
            return RunCursor::empty();
        }
        let place = u64::from(start) * u64::from(geometry.layout.fsize);
        let length = u64::from(len) * u64::from(geometry.layout.fsize);
        let count = (length / DIRBLKSIZ as u64).min((bytes_to_read - offset) / DIRBLKSIZ as u64);
        RunCursor {
            place,
            length: DIRBLKSIZ as u64 * count,
            offset,
            next: 0,
            count: count as u32,
        }
    }

    /// Reads the next chunk of the Run. The chunks of a Run are read into the window at once,
    /// unless it holds them.
    ///
    /// # Errors
    /// A read of the image that failed.
    #[inline(always)]
    pub fn read_chunk<I: Image>(
        &self,
        image: &mut I,
        window: &mut Window,
        chunk: &mut [u8; DIRBLKSIZ],
    ) -> Result<(), ImageFault>
        requires { CanReadRun self.now (I.device image.old) window.old }
        ensures chunk { OnOk result (ForContents (I.device image.old).contents
            (λ b. chunk.new ≡ piece (self.now.place + DIRBLKSIZ * self.now.next) DIRBLKSIZ b)) }
        ensures unread { OnErr result (chunk.new ≡ chunk.old) }
        ensures leaves { LeavesRun self.now (window_moment I.Image image.old window.old)
            (window_moment I.Image image.new window.new) result }
        ensures asks { ReadsAtMostOnce I.was_read self.now.place self.now.length image.old
            image.new }
    {
        window.fill(image, self.place, self.length as usize)?;
        let at = DIRBLKSIZ * self.next as usize;
        chunk.copy_from_slice(&window.bytes()[at..at + DIRBLKSIZ]);
        Ok(())
    }
}

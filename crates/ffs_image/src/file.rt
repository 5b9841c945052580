//! An image in a file.
ghost use Rattle.std.specs.Prelude.{◌≡◌, ◌+◌, ◌≤◌, length, IfOk, MatchResult};
ghost use Rattle.ffs_image.specs.{Reads.ReadsBytes, Source.ReadsThrough, System.{IsOpened, OpenFails}};

use crate::image::{DEV_BSIZE, Image, ImageFault};
use crate::opened::OpenedFile;
use crate::source::{Source, fill};
use crate::system::{RawFile, System};
use std::fs::File;

/// A file can't be opened as an image: the system can't look it up or open it, it is a FIFO, or its
/// size isn't known.
#[derive(Clone, Copy, Debug, PartialEq, Eq, thiserror::Error)]
#[error("the image can't be opened")]
pub struct OpenFault;

/// An image whose bytes come from a source. It is never written.
#[derive(Drop)]
pub struct SourceImage<S> {
    source: S,
    failed_sector: u64,
}

/// An image in a file of a system.
pub type RawImage<F> = SourceImage<OpenedFile<F>>;

/// An image in a file.
pub type FileImage = RawImage<File>;

impl<F: RawFile + Drop> SourceImage<OpenedFile<F>> {
    /// Opens the file of a name for reading, once and no other, and takes its size once: that of a
    /// block device too.
    ///
    /// # Errors
    /// The file can't be opened, it is a FIFO, whose opening would wait for a writer, or its size
    /// isn't known, as that of a terminal.
    pub fn open<Y: System<File = F>>(system: &mut Y, name: &str) -> Result<RawImage<F>, OpenFault>
        ensures opens { MatchResult result
            (λ image. IsOpened Y.System system.old system.new name.now image.source)
            (λ _. OpenFails Y.was_looked_up Y.was_opened F.was_sought system.old system.new
            name.now) }
        ensures failures { IfOk result (λ image. (image.source.failures ≡ 0)
            × (image.failed_sector ≡ 0)) }
    {
        let source = OpenedFile::open(system, name)?;
        Ok(SourceImage {
            source,
            failed_sector: 0,
        })
    }
}

impl<S: Source> Image for SourceImage<S> {
    ghost use Rattle.std.specs.Prelude.{[]};
    ghost use Rattle.ffs_image.specs.Source.{IsAskedFor};

    ghost device = { λ i. let s = S.state i.source in
        record {
          contents = s.contents;
          size = s.size;
          failures = s.failures;
          failed_sector = i.failed_sector;
          lent = [];
        } };

    ghost reads = { λ _. 0 };

    ghost was_read = { λ i at size after. IsAskedFor S.was_read at size i.source after.source };

    ghost sized = { λ i. S.sized i.source };

    fn size(&self) -> u64 {
        self.source.size()
    }

    fn failures(&self) -> u64 {
        self.source.failures()
    }

    fn failed(&self) -> u64 {
        self.failed_sector
    }

    fn read_at(&mut self, at: u64, buf: &mut [u8]) -> Result<(), ImageFault>
        requires { at + length buf.old ≤ (S.state self.old.source).size }
        ensures bytes { ReadsBytes (⟦<SourceImage<S> as Image>⟧.device self.old)
            (⟦<SourceImage<S> as Image>⟧.device self.new) at buf.new result }

        // Which reads of the source it takes.
        ensures source { ReadsThrough S.was_read self.old.source self.new.source at
            (length buf.old) result }
    {
        // The size is a u64, so no place of the read is past `u64::MAX`.
        let size = self.size();
        prove!(at <= size);
        match fill(&mut self.source, at, buf) {
            Ok(()) => Ok(()),
            Err(_) => {
                let sector = at / DEV_BSIZE;
                self.failed_sector = sector;
                Err(ImageFault { sector })
            }
        }
    }
}

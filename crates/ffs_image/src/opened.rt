//! A file that is open for reading alone.
ghost use Rattle.std.specs.{Prelude.{◌≡◌, ◌<◌, length, IfOk, MatchResult}};
ghost use Rattle.ffs_image.specs.{Device.ForContents, Interrupted.IsTriedAgain, Source.{GivesBytes, GivesSome, IsReadCaused}};

use crate::file::OpenFault;
use crate::interrupted::is_interrupted;
use crate::source::{Source, SourceFault};
use crate::system::{RawFile, System};
use std::io;
use std::io::ErrorKind;

/// A file that was opened for reading. Its size can be taken and it can be read at a place, and
/// nothing else can be done with it.
#[derive(Drop)]
pub struct OpenedFile<F: RawFile> {
    file: F,
    size: u64,
    failures: u64,
    ghost sized: { ForContents (F.contents file) (λ bytes. length bytes ≡ size) },
    ghost caused: { ∥ IsReadCaused F.was_read failures ∥₁ },
}

/// Reads a file at a place, and again where a signal interrupts that. The bound of the loop is one
/// that no run reaches: with it the call is proved to end.
fn read_uninterrupted<F: RawFile>(file: &mut F, buf: &mut [u8], at: u64) -> io::Result<usize>
    ensures gives { GivesBytes (F.contents file.old) (F.contents file.new) at buf.new result }
    ensures tried { IsTriedAgain (λ old. F.was_read old at (length buf.old)) file.old file.new
        result }
{
    for _ in 0..u64::MAX {
        let answer = file.read_once(buf, at);
        if !is_interrupted(&answer) {
            return answer;
        }
    }
    Err(io::Error::from(ErrorKind::Interrupted))
}

impl<F: RawFile + Drop> OpenedFile<F> {
    ghost use Rattle.ffs_image.specs.System.{IsOpened, OpenFails};

    /// Opens a file for reading, once and no other, and takes its size once. A FIFO, whose opening
    /// waits for a writer, is refused, and so is a file whose size isn't known.
    pub(crate) fn open<Y: System<File = F>>(
        system: &mut Y,
        name: &str,
    ) -> Result<OpenedFile<F>, OpenFault>
        ensures opens { MatchResult result (IsOpened Y.System system.old system.new name.now)
            (λ _. OpenFails Y.was_looked_up Y.was_opened F.was_sought system.old system.new
            name.now) }
        ensures failures { IfOk result (λ opened. opened.failures ≡ 0) }
    {
        match system.is_fifo(name) {
            Ok(false) => {}
            _ => return Err(OpenFault),
        }
        let Ok(mut file) = system.open_to_read(name) else {
            return Err(OpenFault);
        };
        let Ok(size) = file.end() else {
            return Err(OpenFault);
        };
        Ok(OpenedFile {
            file,
            size,
            failures: 0,
        })
    }
}

impl<F: RawFile> Source for OpenedFile<F> {
    ghost use Rattle.ffs_image.specs.System.{SomeOf, if_given};

    ghost state = { λ f. record { contents = F.contents f.file; size = f.size; failures = f.failures } };

    ghost was_read = { λ old at len result new.
        SomeOf (λ file. F.was_read file at len) old.file new.file result };

    ghost sized = { λ f. if_given (F.contents f.file) (λ bytes. length bytes ≡ f.size) f.sized };

    fn size(&self) -> u64 {
        self.size
    }

    fn failures(&self) -> u64 {
        self.failures
    }

    fn read_some(&mut self, at: u64, buf: &mut [u8]) -> Result<usize, SourceFault>
        requires { 0 < length buf.old }
        ensures gives { GivesSome (⟦<OpenedFile<F> as Source>⟧.state self.old)
            (⟦<OpenedFile<F> as Source>⟧.state self.new) at buf.new result }

        // Which reads are tried again, and which fail.
        ensures tried { SomeOf (λ old. F.was_read old at (length buf.old)) self.old.file
            self.new.file result }
    {
        match read_uninterrupted(&mut self.file, buf, at) {
            Ok(n) if n > 0 => Ok(n),
            _ => {
                self.failures = self.failures.saturating_add(1);
                Err(SourceFault)
            }
        }
    }
}

//! The files of a system, as far as an image needs them.
//!
//! An image is opened by its name, asked for its end, and read at a place. The functions that do so
//! are over the two traits here, whose facts are of any system: which name was looked up and then
//! opened, once; where a file was read, how often it was tried. Of std the following is trusted, by
//! the impls at the end of this file: its metadata reports which name is that of a FIFO; its open
//! opens the file of the name as given, for reading alone; its seek to the end gives the number of
//! bytes; its `read_at` gives bytes of that place, or an error.
ghost use Rattle.std.specs.{Prelude.{ℕ, Bool, false, List, length, Option, Result}, declared.io.Error.Error};
ghost use Rattle.ffs_image.specs.Source.{GivesBytes, GivesEnd};

use std::fs::File;
use std::io::{Seek, SeekFrom};
use std::os::unix::fs::{FileExt, FileTypeExt};
use std::rt::Files;
use std::{fs, io};

/// A file that is open for reading alone. Each call asks it once.
pub trait RawFile {
    /// Its bytes, where it gives them.
    ghost contents: { Self → Option (List ℕ) };

    /// It was asked for its end: the file before, the answer, and the file after.
    ghost was_sought: { Self → Result ℕ Error → Self → Type 0 };

    /// It was read: the file before, the place, how many bytes were asked for, the answer, and the
    /// file after.
    ghost was_read: { Self → ℕ → ℕ → Result ℕ Error → Self → Type 0 };

    /// The place of its end, in bytes: that of a block device too.
    ///
    /// # Errors
    /// It can't be sought, as a terminal.
    fn end(&mut self) -> io::Result<u64>
        ensures gives { GivesEnd (contents self.old) (contents self.new) result }
        ensures once { was_sought self.old result self.new };

    /// Reads some of the bytes at a place, and returns how many.
    ///
    /// # Errors
    /// The read failed, or a signal interrupted it. The buffer's content is unspecified then.
    fn read_once(&mut self, buf: &mut [u8], at: u64) -> io::Result<usize>
        ensures gives { GivesBytes (contents self.old) (contents self.new) at buf.new result }
        ensures once { was_read self.old at (length buf.old) result self.new };
}

/// A system, whose files are opened by their names for reading alone.
pub trait System {
    /// A file that it opens.
    type File: RawFile + Drop;

    /// It was asked whether a name is that of a FIFO: the system before, the name, the answer, and
    /// the system after.
    ghost was_looked_up: { Self → List ℕ → Result Bool Error → Self → Type 0 };

    /// It was asked to open a file for reading: the system before, the name, the answer, and the
    /// system after.
    ghost was_opened: { Self → List ℕ → Result Self.File Error → Self → Type 0 };

    /// Whether a name is that of a FIFO.
    ///
    /// # Errors
    /// There is no such name, or it can't be looked up.
    fn is_fifo(&mut self, name: &str) -> io::Result<bool>
        ensures { was_looked_up self.old name.now result self.new };

    /// Opens the file of this name for reading. It was looked up just before: the opening of a FIFO
    /// would wait for a writer.
    ///
    /// # Errors
    /// It can't be opened.
    fn open_to_read(&mut self, name: &str) -> io::Result<Self::File>
        requires { (before : Self) × was_looked_up before name.now (Ok false) self.old }
        ensures { was_opened self.old name.now result self.new };
}

impl RawFile for File {
    ghost use Rattle.std.specs.Prelude.{None, ⊤};

    ghost contents = { λ _. None };

    ghost was_sought = { λ _ _ _. ⊤ };

    ghost was_read = { λ _ _ _ _ _. ⊤ };

    fn end(&mut self) -> io::Result<u64> {
        self.seek(SeekFrom::End(0))
    }

    fn read_once(&mut self, buf: &mut [u8], at: u64) -> io::Result<usize> {
        self.read_at(buf, at)
    }
}

impl<R: Files<File = File>> System for R {
    type File = File;

    ghost use Rattle.std.specs.Prelude.{⊤};

    ghost was_looked_up = { λ _ _ _ _. ⊤ };

    ghost was_opened = { λ _ _ _ _. ⊤ };

    fn is_fifo(&mut self, name: &str) -> io::Result<bool> {
        Ok(fs::metadata(&*self, name)?.file_type().is_fifo())
    }

    fn open_to_read(&mut self, name: &str) -> io::Result<File> {
        File::open(&*self, name)
    }
}

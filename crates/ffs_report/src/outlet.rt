//! What a writer below is asked: one write or one flush by each call.
//!
//! What is over this trait can say how often it asks, and what it does with the answer. A std
//! writer doesn't say that: of each, the two lines of the impl at the end of this file are trusted
//! to ask it once.
ghost use Rattle.std.specs.{Prelude.{ℕ, List, Option, Result}, declared.io.Error.Error};
ghost use Rattle.ffs_report.specs.Outlet.{AnswersFlush, AnswersWrite};

use std::io;
use std::io::Write;

/// A writer that is asked once by each call.
pub trait Outlet {
    /// The bytes that it took, where they are known.
    ghost contents: { Self → Option (List ℕ) };

    /// It was asked to write: the writer before, the bytes, the answer, and the writer after.
    ghost was_written: { Self → List ℕ → Result ℕ Error → Self → Type 0 };

    /// It was asked to flush: the writer before, the answer, and the writer after.
    ghost was_flushed: { Self → Result (Unit {0}) Error → Self → Type 0 };

    /// Writes some of the bytes, from the first on, and returns how many.
    ///
    /// # Errors
    /// The write failed, or a signal interrupted it. It took nothing then.
    fn write_once(&mut self, buf: &[u8]) -> io::Result<usize>
        ensures { AnswersWrite contents was_written self.old self.new buf.now result };

    /// Flushes what it gathered.
    ///
    /// # Errors
    /// The flush failed.
    fn flush_once(&mut self) -> io::Result<()>
        ensures { AnswersFlush contents was_flushed self.old self.new result };
}

impl<S: Write> Outlet for S {
    ghost use Rattle.std.specs.Prelude.{⊤};

    ghost contents = { S.contents };

    ghost was_written = { λ _ _ _ _. ⊤ };

    ghost was_flushed = { λ _ _ _. ⊤ };

    fn write_once(&mut self, buf: &[u8]) -> io::Result<usize> {
        self.write(buf)
    }

    fn flush_once(&mut self) -> io::Result<()> {
        self.flush()
    }
}

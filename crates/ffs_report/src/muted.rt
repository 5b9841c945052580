//! A writer that is muted by its first failure.
ghost use Rattle.std.specs.{Prelude.{◌≡◌, false}, IoError.error_kind};
ghost use Rattle.ffs_image.specs.Interrupted.{IsTriedAgain};
ghost use Rattle.ffs_report.specs.{Outlet.{AnswersFlush, AnswersWrite, WritesThrough}, Writers.IsMuted};

use crate::outlet::Outlet;
use ffs_image::is_interrupted;
use std::io;
use std::io::{ErrorKind, Write};

/// A writer over another one that passes nothing on after its first failure: no write and no flush
/// reaches the writer below, whoever asks. A buffer above it so writes nothing when it is flushed
/// or dropped after a write that failed. A write that a signal interrupts is tried again; one that
/// takes nothing has failed.
#[derive(Drop)]
pub struct MutedWriter<S> {
    inner: S,
    failed: bool,
}

impl<S: Outlet> MutedWriter<S> {
    /// A writer over `inner` that has not failed yet.
    pub fn new(inner: S) -> MutedWriter<S>
        ensures { result ≡ record { inner = inner; failed = false } }
    {
        MutedWriter {
            inner,
            failed: false,
        }
    }

    /// The writer below, with what it took.
    pub fn into_inner(self) -> S
        ensures { result ≡ self.inner }
    {
        let MutedWriter { inner, failed: _ } = self;
        inner
    }
}

/// The error of each call after a failure. It is none after which a buffer tries again.
fn error_when_muted() -> io::Error
    ensures { error_kind result ≡ ErrorKind.BrokenPipe }
{
    io::Error::from(ErrorKind::BrokenPipe)
}

/// One write, tried again where a signal interrupts it. The bound of the loop is one that no run
/// reaches: with it the call is proved to end.
fn write_uninterrupted<S: Outlet>(inner: &mut S, buf: &[u8]) -> io::Result<usize>
    ensures { AnswersWrite S.contents (λ old piece answer new. IsTriedAgain
        (λ writer. S.was_written writer piece) old new answer) inner.old inner.new buf.now result }
{
    for _ in 0..u64::MAX {
        let answer = inner.write_once(buf);
        if !is_interrupted(&answer) {
            return answer;
        }
    }
    Err(io::Error::from(ErrorKind::Interrupted))
}

impl<S: Outlet> Write for MutedWriter<S> {
    ghost contents = { λ w. S.contents w.inner };

    /// # Errors
    /// Those of the writer below, a write that takes nothing, and each write after a failure.
    fn write(&mut self, buf: &[u8]) -> io::Result<usize>
        ensures { AnswersWrite (λ w. S.contents w.inner)
            (λ w piece. IsMuted (WritesThrough S.was_written piece) w) self.old self.new buf.now
            result }
    {
        if self.failed {
            return Err(error_when_muted());
        }
        match write_uninterrupted(&mut self.inner, buf) {
            Ok(taken) if taken > 0 || buf.is_empty() => Ok(taken),
            Ok(_) => {
                self.failed = true;
                Err(io::Error::from(ErrorKind::WriteZero))
            }
            Err(error) => {
                self.failed = true;
                Err(error)
            }
        }
    }

    /// # Errors
    /// Those of the writer below, and each flush after a failure.
    fn flush(&mut self) -> io::Result<()>
        ensures { AnswersFlush (λ w. S.contents w.inner) (IsMuted S.was_flushed)
            self.old self.new result }
    {
        let flushed = if self.failed {
            Err(error_when_muted())
        } else {
            self.inner.flush_once()
        };
        self.failed = flushed.is_err();
        flushed
    }
}

//! Calls that a signal interrupts.
ghost use Rattle.std.specs.Prelude.{◌↔◌, IsTrue};
ghost use Rattle.ffs_image.specs.Interrupted.{IsInterrupted};

use std::io;
use std::io::ErrorKind;

/// Whether a signal interrupted the read or write that has this answer.
pub fn is_interrupted(answer: &io::Result<usize>) -> bool
    ensures { IsTrue result ↔ IsInterrupted answer.now }
{
    match answer {
        Ok(_) => false,
        Err(error) => error.kind() == ErrorKind::Interrupted,
    }
}

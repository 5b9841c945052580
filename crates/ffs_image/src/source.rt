//! Where an image's bytes come from, and how a buffer is filled from there.
ghost use Rattle.std.specs.Prelude.{◌≡◌, ◌+◌, ◌<◌, ◌^◌, ℕ, length, IfSome, Result};
ghost use Rattle.ffs_image.specs.Source.{Fills, GivesSome, ReadsThrough, SourceState};
ghost use Rattle.ffs_image.specs.declared.source.SourceFault.{SourceFault};

/// A read of a source failed, or gave nothing.
#[derive(Clone, Copy)]
pub struct SourceFault;

/// The bytes of an image, as far as they can be read at a place, and nothing else.
pub trait Source {
    /// What is known of it: its bytes, where it gives them, its size, and how many reads failed.
    ghost state: { Self → SourceState };

    /// It was read: the source before, the place, how many bytes were asked for, the answer, and
    /// the source after.
    ghost was_read: { Self → ℕ → ℕ → Result ℕ SourceFault → Self → Type 0 };

    /// Its size in bytes.
    fn size(&self) -> u64
        ensures { result ≡ (state self.now).size };

    /// How many reads have failed. The count saturates at `u64::MAX`.
    fn failures(&self) -> u64
        ensures { result ≡ (state self.now).failures };

    /// Reads some of the bytes at a place, at least one, and returns how many.
    ///
    /// # Errors
    /// The read failed, or gave nothing. It is counted once.
    fn read_some(&mut self, at: u64, buf: &mut [u8]) -> Result<usize, SourceFault>
        requires { 0 < length buf.old }
        ensures gives { GivesSome (state self.old) (state self.new) at buf.new result }
        ensures tried { was_read self.old at (length buf.old) result self.new };

    /// Where it gives its bytes, its size is their number.
    ghost sized: { (source : Self) → IfSome (state source).contents
        (λ b. length b ≡ (state source).size) };
}

/// Fills the buffer with the bytes at a place. The first read that fails ends it.
#[tactic(auto, using(crate::proofs::Sources::filled_more, crate::proofs::Sources::read_more))]
pub(crate) fn fill<S: Source>(source: &mut S, at: u64, buf: &mut [u8]) -> Result<(), SourceFault>
    requires { at + length buf.old < 2 ^ 64 }
    ensures fills { Fills (S.state source.old) (S.state source.new) at buf.new result }
    ensures reads { ReadsThrough S.was_read source.old source.new at (length buf.old) result }
{
    let mut filled = 0;
    while filled < buf.len() {
        filled += source.read_some(at + filled as u64, &mut buf[filled..])?;
    }
    Ok(())
}

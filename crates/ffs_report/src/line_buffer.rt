//! The bytes of one line, gathered before they go out.
ghost use Rattle.std.specs.Prelude.{◌≡◌, ◌+◌, ◌<◌, ◌≤◌, ◌*◌, true, length, take};
ghost use Rattle.ffs_report.specs.{Sink.{Puts, Took, refused_full}, declared.line_buffer.TheConstants.LINE_ROOM};

use crate::output::{OutFault, Output};
use ffs_memory::copy_short;

/// The room for a line, with its questions, in bytes. A path has at most 1,024: a line that shows
/// two long ones may be longer, and so may one with the name of an image.
pub const LINE_ROOM: usize = 2048;

/// An output in memory that has room for one line. Where it is full, a piece is refused.
#[derive(Drop)]
pub struct LineBuffer {
    room: [u8; LINE_ROOM],
    /// How many bytes it holds, from the start of its room on.
    used: usize,
    /// How many pieces it has refused since it held nothing.
    failures: u64,
    ghost in_room: { used ≤ LINE_ROOM },
    ghost full: { refused_full failures used LINE_ROOM ≡ true },
    ghost long: { length room ≡ LINE_ROOM },
}

impl LineBuffer {
    /// A buffer that holds nothing.
    #[tactic(auto, unfolding(crate::specs::Sink::refused_full))]
    pub fn new() -> LineBuffer
        ensures { result.used ≡ 0 }
    {
        LineBuffer {
            room: [0; LINE_ROOM],
            used: 0,
            failures: 0,
        }
    }

    /// Drops what it holds.
    #[tactic(auto, unfolding(crate::specs::Sink::refused_full))]
    pub fn clear(&mut self)
        ensures { (self.new.used ≡ 0) × (self.new.failures ≡ 0) }
    {
        self.used = 0;
        self.failures = 0;
    }

    /// What it holds.
    pub fn bytes(&self) -> &[u8]
        ensures { result.now ≡ take self.now.used self.now.room }
    {
        &self.room[..self.used]
    }

    /// Takes a piece for which there is room.
    #[inline(always)]
    #[tactic(auto, unfolding(crate::specs::Sink::refused_full))]
    fn take(&mut self, piece: &[u8])
        requires { self.old.used + length piece.now ≤ LINE_ROOM }
        ensures { Took (⟦<LineBuffer as Output>⟧.sink self.old)
            (⟦<LineBuffer as Output>⟧.sink self.new) piece.now }
    {
        let end = self.used + piece.len();
        copy_short(&mut self.room[self.used..end], piece);
        self.used = end;
    }

    /// Takes as much as there is room for of a piece that is too long.
    ///
    /// # Errors
    /// It is full.
    #[cold]
    #[tactic(auto, unfolding(crate::specs::Sink::refused_full))]
    fn fill(&mut self, piece: &[u8]) -> Result<usize, OutFault>
        requires { LINE_ROOM < self.old.used + length piece.now }
        ensures { Puts (⟦<LineBuffer as Output>⟧.sink self.old)
            (⟦<LineBuffer as Output>⟧.sink self.new) piece.now result }
    {
        let left = LINE_ROOM - self.used;
        if left == 0 {
            self.failures = self.failures.saturating_add(1);
            return Err(OutFault);
        }
        self.take(&piece[..left]);
        Ok(left)
    }
}

impl Output for LineBuffer {
    ghost use Rattle.std.specs.Prelude.{Some, None};

    ghost sink = { λ b. record { taken = Some (take b.used b.room); failures = b.failures; holds = None } };

    fn failures(&self) -> u64 {
        self.failures
    }

    /// # Errors
    /// It is full.
    #[inline(always)]
    fn put(&mut self, piece: &[u8]) -> Result<usize, OutFault>
        requires { 0 < length piece.now }
        ensures puts { Puts (⟦<LineBuffer as Output>⟧.sink self.old)
            (⟦<LineBuffer as Output>⟧.sink self.new) piece.now result }

        // A piece that has room is taken whole.
        ensures room { self.old.used + length piece.now ≤ LINE_ROOM
            → result ≡ Ok (length piece.now) }
    {
        if piece.len() > LINE_ROOM - self.used {
            return self.fill(piece);
        }
        self.take(piece);
        Ok(piece.len())
    }
}

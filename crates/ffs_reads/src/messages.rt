//! An output that counts the messages of a report.

use ffs_report::{OutFault, Output};

/// An output that counts the messages that it is given, and keeps nothing of them.
///
/// A message that has room in a report's buffer comes as one piece. Of one that hasn't, no piece
/// but the last ends with a line's end: so a piece begins a message where the one before it ended a
/// line.
#[derive(Drop)]
pub struct MessageCounter {
    messages: u64,
    is_at_start: bool,
}

impl MessageCounter {
    /// A counter that was given nothing yet.
    pub fn new() -> MessageCounter {
        MessageCounter {
            messages: 0,
            is_at_start: true,
        }
    }

    /// How many messages it was given.
    pub fn messages(&self) -> u64 {
        self.messages
    }
}

impl Output for MessageCounter {
    ghost use Rattle.std.specs.Prelude.{None};

    ghost sink = { λ _. record { taken = None; failures = 0; holds = None } };

    fn failures(&self) -> u64 {
        0
    }

    fn put(&mut self, piece: &[u8]) -> Result<usize, OutFault> {
        if self.is_at_start {
            self.messages = self.messages.saturating_add(1);
        }
        self.is_at_start = piece.ends_with(b"\n".as_slice());
        Ok(piece.len())
    }
}

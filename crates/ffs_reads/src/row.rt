//! A row of the table.

use std::fmt;

/// In how many parts a share is printed.
const SHARES: u64 = 10_000;

/// What a part of a check reads.
#[derive(Clone, Copy, Debug)]
pub struct Row {
    /// The name of the part.
    pub name: &'static str,
    /// The messages on which its limit depends.
    pub messages: u64,
    /// How often it read the image.
    pub reads: u64,
    /// The most reads that it may make.
    pub most: u64,
}

impl Row {
    /// Whether it reads no more often than it may.
    pub fn is_within(&self) -> bool {
        self.reads <= self.most
    }

    /// Its reads of the most, in ten-thousandths. A part that may make none has no share.
    fn share(&self) -> u64 {
        if self.most == 0 {
            return 0;
        }
        self.reads.saturating_mul(SHARES) / self.most
    }
}

impl fmt::Display for Row {
    fn fmt<W: fmt::Write>(&self, f: &mut fmt::Formatter<W>) -> fmt::Result {
        let share = self.share();
        let (whole, parts) = (share / SHARES, share % SHARES);
        let (name, messages, reads, most) = (self.name, self.messages, self.reads, self.most);
        write!(
            f,
            "{name:<8} {messages:>9} {reads:>10} {most:>13} {whole}.{parts:04}"
        )
    }
}

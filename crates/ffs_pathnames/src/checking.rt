//! What is carried from the check of one directory to that of the next.

use crate::entry_texts::EntryTexts;

/// What is carried from the check of one directory to that of the next.
#[derive(Drop)]
pub struct Checking {
    /// The texts that lines of entries show.
    pub texts: EntryTexts,
    /// How many reads may still be made of directories' own blocks: their inodes, their indirect
    /// blocks and their chunks. What a message shows is not among these.
    pub reads_left: u64,
}

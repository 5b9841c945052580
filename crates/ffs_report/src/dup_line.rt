//! The line that reports a duplicate.
ghost use Rattle.std.specs.Prelude.{◌≡◌, ◌≤◌, length, drop};
ghost use Rattle.ffs_volume.specs.Messages.Texts.{number_text, block_message_text};
ghost use Rattle.ffs_volume.specs.declared.texts.TheConstants as texts;
ghost use Rattle.ffs_report.specs.{Piece.WritesBefore, declared.dup_line.TheConstants.{MOST_DIGITS, ROOM}};

use ffs_volume::BlockMessage;
use ffs_volume::texts::{DUP, LINE_END};
use itoa::write_digits;

/// How many digits a number of 32 bits has at most.
const MOST_DIGITS: usize = 10;

/// The room for the longest line: two numbers, and the text after each.
const ROOM: usize = MOST_DIGITS + DUP.len() + MOST_DIGITS + LINE_END.len();

/// The line of a duplicate. All after its fragment is kept for the next line, since duplicates of
/// one inode are reported one after another.
#[derive(Drop)]
pub struct DupLine {
    bytes: [u8; ROOM],
    /// Where the text after the fragment begins; it goes up to the end of `bytes`.
    tail: usize,
    /// The inode that this text names.
    inode: u32,
    ghost long: { length bytes ≡ ROOM },
    ghost room: { MOST_DIGITS ≤ tail },
    ghost within: { tail ≤ ROOM },
    ghost ends: { drop tail bytes ≡ number_text texts.DUP.now inode texts.LINE_END.now },
}

/// Puts a text before a place, and returns where it begins.
fn put_before(bytes: &mut [u8], place: usize, text: &[u8]) -> usize
    requires { (length text.now ≤ place) × (place ≤ length bytes.old) }
    ensures { WritesBefore bytes.old bytes.new text.now place result }
{
    let start = place - text.len();
    bytes[start..place].copy_from_slice(text);
    start
}

impl DupLine {
    /// What the lines of an inode end with, without a fragment yet.
    #[tactic(auto, using(crate::proofs::DupLines::short_number))]
    pub fn new(inode: u32) -> DupLine
        ensures { result.inode ≡ inode }
    {
        let mut bytes = [0; ROOM];
        let number_end = put_before(&mut bytes, ROOM, LINE_END);
        let number = write_digits(inode as u64, &mut bytes, number_end);
        let tail = put_before(&mut bytes, number, DUP);
        DupLine { bytes, tail, inode }
    }

    /// The line of a fragment and an inode.
    #[inline(always)]
    #[tactic(auto, using(crate::proofs::DupLines::short_number))]
    pub fn line(&mut self, fragment: u32, inode: u32) -> &[u8]
        ensures { result.now ≡ block_message_text (BlockMessage.Dup fragment inode) }
    {
        if inode != self.inode {
            *self = DupLine::new(inode);
        }
        let start = write_digits(fragment as u64, &mut self.bytes, self.tail);
        &self.bytes[start..]
    }
}

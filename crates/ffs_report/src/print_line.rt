//! Prints a line of a report: the text of each message.
ghost use Rattle.std.specs.Prelude.{◌≡◌};
ghost use Rattle.ffs_report.specs.Sink.{GoesGathered, Prints};
ghost use Rattle.ffs_report.specs.Lines.{message_of};
ghost use Rattle.ffs_volume.specs.Messages.Texts.{text_of, fault_text, image_name_text, mounted_text, minfree_text, offer_text, block_count_text, block_message_text, summary_text};

use crate::line::{Heading, Line};
use crate::line_buffer::LineBuffer;
use crate::output::{OutFault, Output};
use crate::piece::Piece;
use crate::print::{print, print_count, print_digits, print_number, print_pieces};
use crate::tree_lines::{print_directory, print_dot, print_entry, print_reference};
use ffs_volume::texts::*;
use ffs_volume::{BlockMessage, SuperFault};
use itoa::Buffer;

/// Prints a line, with its questions: as one piece, where they don't fill the buffer.
///
/// # Errors
/// A write to the output that failed.
#[tactic(auto, unfolding(crate::specs::Sink::refused_full))]
pub fn print_gathered<W: Output>(
    out: &mut W,
    buffer: &mut LineBuffer,
    line: &Line<'_>,
) -> Result<(), OutFault>
    ensures prints { Prints (W.sink out.old) (W.sink out.new) (text_of (message_of line.now))
        result }

    // It is one put, unless it would fill the buffer.
    ensures gathered { GoesGathered W.was_put out.old out.new (text_of (message_of line.now))
        2048 }
{
    buffer.clear();
    if print_line(buffer, line).is_ok() {
        return print(out, buffer.bytes());
    }
    print_line(out, line)
}

/// Prints a line, with its questions.
fn print_line<W: Output>(out: &mut W, line: &Line<'_>) -> Result<(), OutFault>
    ensures { Prints (W.sink out.old) (W.sink out.new) (text_of (message_of line.now)) result }
{
    match line {
        Line::Location { sector } => print_number(out, LOCATION, *sector as u64, LINE_END),
        Line::ImageName { name } => print_image_name(out, name.as_bytes()),
        Line::BadSuper(fault) => print_fault(out, *fault),
        Line::CannotRead { sector } => print_number(out, CANNOT_READ, *sector, LINE_END),
        Line::CannotAlloc => print(out, CANNOT_ALLOC),
        Line::Optimization => print(out, OPTIMIZATION),
        Line::Minfree { value } => print_minfree(out, *value),
        Line::Mounted { mount } => print_mounted(out, mount),
        Line::Heading(Heading::Phase1) => print(out, PHASE1),
        Line::Heading(Heading::Phase1b) => print(out, PHASE1B),
        Line::Heading(Heading::Phase2) => print(out, PHASE2),
        Line::Heading(Heading::Phase3) => print(out, PHASE3),
        Line::Heading(Heading::Phase4) => print(out, PHASE4),
        Line::Heading(Heading::Phase5) => print(out, PHASE5),
        Line::Block(message) => print_block(out, *message),
        Line::Directory(line) => print_directory(out, line),
        Line::Dot(line) => print_dot(out, line),
        Line::Entry(line) => print_entry(out, line),
        Line::Reference(line) => print_reference(out, line),
        Line::Summary {
            files,
            used,
            free,
            frags,
            blocks,
            tenths,
        } => {
            let summary = SummaryLine {
                files: *files,
                used: *used,
                free: *free,
                frags: *frags,
                blocks: *blocks,
                tenths: *tenths,
            };
            print_summary(out, &summary)
        }
    }
}

fn print_image_name<W: Output>(out: &mut W, name: &[u8]) -> Result<(), OutFault>
    ensures { Prints (W.sink out.old) (W.sink out.new) (image_name_text name.now) result }
{
    print_pieces(
        out,
        &[
            Piece::Text(BEFORE_IMAGE_NAME),
            Piece::Text(name),
            Piece::Text(NO_WRITE),
        ],
    )
}

fn print_mounted<W: Output>(out: &mut W, mount: &[u8]) -> Result<(), OutFault>
    ensures { Prints (W.sink out.old) (W.sink out.new) (mounted_text mount.now) result }
{
    print_pieces(
        out,
        &[
            Piece::Text(MOUNTED),
            Piece::Shown(mount),
            Piece::Text(LINE_END),
        ],
    )
}

fn print_minfree<W: Output>(out: &mut W, value: i32) -> Result<(), OutFault>
    ensures { Prints (W.sink out.old) (W.sink out.new) (minfree_text value) result }
{
    print_pieces(
        out,
        &[
            Piece::Text(MINFREE),
            Piece::Signed(value as i64, SET_MINFREE),
        ],
    )
}

fn print_fault<W: Output>(out: &mut W, fault: SuperFault) -> Result<(), OutFault>
    ensures { Prints (W.sink out.old) (W.sink out.new) (fault_text fault) result }
{
    match fault {
        // Such a fault is said as a `Line::CannotRead`; this arm makes the match exhaustive.
        SuperFault::CannotRead { sector } => print_number(out, CANNOT_READ, sector, LINE_END),
        SuperFault::Magic => print(out, MAGIC),
        SuperFault::InodeFormat => print(out, INODE_FORMAT),
        SuperFault::Ncg => print(out, NCG),
        SuperFault::Cpg => print(out, CPG),
        SuperFault::Ncyl => print(out, NCYL),
        SuperFault::TooLarge => print(out, TOO_LARGE),
        SuperFault::Shape => print(out, SHAPE),
        SuperFault::Short => print(out, SHORT),
        SuperFault::Disagree => print(out, DISAGREE),
    }
}

#[inline(always)]
#[tactic(auto, using(crate::proofs::Sinks::printing))]
fn print_offer<W: Output>(
    out: &mut W,
    fragment: u32,
    what: &[u8],
    inode: u32,
) -> Result<(), OutFault>
    ensures { Prints (W.sink out.old) (W.sink out.new) (offer_text fragment what.now inode) result }
{
    let mut digits = Buffer::new();
    print_digits(out, &mut digits, fragment, what)?;
    print_digits(out, &mut digits, inode, LINE_END)
}

fn print_block_count<W: Output>(
    out: &mut W,
    inode: u32,
    found: u32,
    right: u64,
) -> Result<(), OutFault>
    ensures { Prints (W.sink out.old) (W.sink out.new) (block_count_text inode found right) result }
{
    print_number(out, BLOCK_COUNT, inode as u64, FOUND)?;
    print_count(out, found as u64, RIGHT)?;
    print_count(out, right, CORRECT)
}

fn print_block<W: Output>(out: &mut W, message: BlockMessage) -> Result<(), OutFault>
    ensures { Prints (W.sink out.old) (W.sink out.new) (block_message_text message) result }
{
    match message {
        BlockMessage::PartAlloc { inode } => print_number(out, PART_ALLOC, inode as u64, CLEAR),
        BlockMessage::UnknownType { inode } => print_number(out, UNKNOWN_TYPE, inode as u64, CLEAR),
        BlockMessage::Bad { fragment, inode } => print_offer(out, fragment, BAD, inode),
        // `Report::say` prints a DUP by `DupLine`; this arm makes the match exhaustive.
        BlockMessage::Dup { fragment, inode } => print_offer(out, fragment, DUP, inode),
        BlockMessage::ManyBad { inode } => print_number(out, MANY_BAD, inode as u64, CONTINUE),
        BlockMessage::ManyDup { inode } => print_number(out, MANY_DUP, inode as u64, CONTINUE),
        BlockMessage::PartTrunc { inode } => print_number(out, PART_TRUNC, inode as u64, SALVAGE),
        BlockMessage::BlockCount {
            inode,
            found,
            right,
        } => print_block_count(out, inode, found, right),
        BlockMessage::GroupMagic { group } => print_number(out, GROUP, group as u64, GROUP_MAGIC),
        BlockMessage::FreeCounts => print(out, FREE_COUNTS),
        BlockMessage::MapsWrong => print(out, MAPS_WRONG),
        BlockMessage::GroupSums => print(out, GROUP_SUMS),
    }
}

/// What a summary shows (`Line::Summary`).
#[derive(Clone, Copy)]
struct SummaryLine {
    files: u32,
    used: u32,
    free: i64,
    frags: i32,
    blocks: i32,
    tenths: i64,
}

fn print_summary<W: Output>(out: &mut W, line: &SummaryLine) -> Result<(), OutFault>
    ensures { Prints (W.sink out.old) (W.sink out.new) (summary_text line.now.files line.now.used
        line.now.free line.now.frags line.now.blocks line.now.tenths) result }
{
    let size = line.tenths.unsigned_abs();
    print_pieces(
        out,
        &[
            Piece::Number(line.files as u64, FILES),
            Piece::Number(line.used as u64, USED),
            Piece::Signed(line.free, FREE),
            Piece::Signed(line.frags as i64, FRAGS),
            Piece::Signed(line.blocks as i64, BLOCKS),
            Piece::Sign(line.tenths),
            Piece::Number(size / 10, POINT),
            Piece::Number(size % 10, FRAGMENTATION),
        ],
    )
}

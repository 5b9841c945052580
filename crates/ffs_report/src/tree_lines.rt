//! Prints what is wrong with directories, their entries and the references to inodes.
ghost use Rattle.std.specs.Prelude.{◌≡◌};
ghost use Rattle.ffs_report.specs.Sink.{Prints};
ghost use Rattle.ffs_volume.specs.declared.Label.TheVariants.{Dir};
ghost use Rattle.ffs_volume.specs.Messages.Texts.{path_label, file_label, attr_text, inode_text, labelled_text, path_text, name_in_the_way_text, length_text, entry_text, extraneous_text, links_text, directory_line_text, dot_line_text, entry_line_text, reference_line_text, directory_message, dot_message, entry_message};

use crate::output::{OutFault, Output};
use crate::piece::Piece;
use crate::print::{
    print, print_count, print_number, print_octal, print_pieces, print_shown, print_signed,
};
use ffs_volume::texts::*;
use ffs_volume::tree_lines::{DirectoryLine, DotLine, EntryLine, ReferenceLine};
use ffs_volume::{Attr, Label};

fn file_label(label: Label) -> &'static [u8]
    ensures { result.now ≡ file_label label }
{
    match label {
        Label::Dir => DIR,
        Label::File | Label::Name => FILE,
    }
}

fn path_label(label: Label) -> &'static [u8]
    ensures { result.now ≡ path_label label }
{
    match label {
        Label::Dir => PATH_OF_DIR,
        Label::File => PATH_OF_FILE,
        Label::Name => PATH_OF_NAME,
    }
}

/// Prints who owns an inode, its mode, size and time of modification. It isn't inlined: many rows
/// of the table have it.
#[inline(never)]
fn print_attr<W: Output>(out: &mut W, attr: &Attr) -> Result<(), OutFault>
    ensures { Prints (W.sink out.old) (W.sink out.new) (attr_text attr.now) result }
{
    print_number(out, INODE, attr.number as u64, OWNER)?;
    print_count(out, attr.uid as u64, MODE)?;
    print_octal(out, attr.mode)?;
    print_number(out, SIZE, attr.size, MTIME)?;
    print_signed(out, attr.mtime as i64, b"")
}

/// Prints what a line says before an inode's attributes, these, and what it says after them.
#[inline(always)]
fn print_inode<W: Output>(
    out: &mut W,
    head: &[u8],
    attr: &Attr,
    tail: &[u8],
) -> Result<(), OutFault>
    ensures { Prints (W.sink out.old) (W.sink out.new)
        (inode_text head.now attr.now tail.now) result }
{
    print(out, head)?;
    print_attr(out, attr)?;
    print(out, tail)
}

/// Prints the same of an inode that is called a directory or a file.
#[inline(always)]
#[tactic(auto, using(crate::proofs::Sinks::printing))]
fn print_labelled<W: Output>(
    out: &mut W,
    head: &[u8],
    label: Label,
    attr: &Attr,
    tail: &[u8],
) -> Result<(), OutFault>
    ensures { Prints (W.sink out.old) (W.sink out.new)
        (labelled_text head.now label attr.now tail.now) result }
{
    print(out, head)?;
    print_inode(out, file_label(label), attr, tail)
}

/// Prints an inode with its attributes and its path.
#[inline(always)]
fn print_path<W: Output>(
    out: &mut W,
    head: &[u8],
    attr: &Attr,
    label: Label,
    path: &[u8],
    tail: &[u8],
) -> Result<(), OutFault>
    ensures { Prints (W.sink out.old) (W.sink out.new)
        (path_text head.now attr.now label path.now tail.now) result }
{
    print_inode(out, head, attr, path_label(label))?;
    print_shown(out, path)?;
    print(out, tail)
}

/// Prints a directory, and the entry in the place of `.` or `..`.
fn print_in_the_way<'x, W: Output>(
    out: &mut W,
    head: &'x [u8],
    attr: &Attr,
    path: &'x [u8],
    why: &'x [u8],
    name: &'x [u8],
) -> Result<(), OutFault>
    ensures { Prints (W.sink out.old) (W.sink out.new)
        (name_in_the_way_text head.now attr.now path.now why.now name.now) result }
{
    print_inode(out, head, attr, PATH_OF_DIR)?;
    print_pieces(
        out,
        &[
            Piece::Shown(path),
            Piece::Text(why),
            Piece::Shown(name),
            Piece::Text(LINE_END),
        ],
    )
}

fn print_length<W: Output>(out: &mut W, path: &[u8], size: u64) -> Result<(), OutFault>
    ensures { Prints (W.sink out.old) (W.sink out.new) (length_text path.now size) result }
{
    print_pieces(
        out,
        &[
            Piece::Text(DIRECTORY),
            Piece::Shown(path),
            Piece::Text(DIR_LENGTH),
            Piece::Number(size, NOT_MULTIPLE),
        ],
    )
}

#[inline(always)]
fn print_numbered<W: Output>(
    out: &mut W,
    head: &[u8],
    number: u32,
    path: &[u8],
    tail: &[u8],
) -> Result<(), OutFault>
    ensures { Prints (W.sink out.old) (W.sink out.new)
        (entry_text head.now number path.now tail.now) result }
{
    print_number(out, head, number as u64, PATH_OF_NAME)?;
    print_shown(out, path)?;
    print(out, tail)
}

fn print_extraneous<W: Output>(out: &mut W, path: &[u8], dir: &[u8]) -> Result<(), OutFault>
    ensures { Prints (W.sink out.old) (W.sink out.new) (extraneous_text path.now dir.now) result }
{
    print_shown(out, path)?;
    print(out, EXTRANEOUS)?;
    print_shown(out, dir)?;
    print(out, REMOVE)
}

fn print_links<W: Output>(
    out: &mut W,
    label: Label,
    attr: &Attr,
    count: i16,
    right: u64,
) -> Result<(), OutFault>
    ensures { Prints (W.sink out.old) (W.sink out.new) (links_text label attr.now count right)
        result }
{
    print_labelled(out, LINK_COUNT, label, attr, COUNT)?;
    print_signed(out, count as i64, SHOULD_BE)?;
    print_count(out, right, ADJUST)
}

/// Prints a directory with its attributes and its path.
#[inline(always)]
fn print_dir<W: Output>(
    out: &mut W,
    head: &[u8],
    attr: &Attr,
    path: &[u8],
    tail: &[u8],
) -> Result<(), OutFault>
    ensures { Prints (W.sink out.old) (W.sink out.new)
        (path_text head.now attr.now Dir path.now tail.now) result }
{
    print_path(out, head, attr, Label::Dir, path, tail)
}

/// Prints what is wrong with a directory as a whole.
///
/// # Errors
/// A write to the output that failed.
pub fn print_directory<W: Output>(out: &mut W, line: &DirectoryLine<&[u8]>) -> Result<(), OutFault>
    ensures { Prints (W.sink out.old) (W.sink out.new) (directory_line_text
        (directory_message line.now)) result }
{
    match line {
        DirectoryLine::RootNone => print(out, ROOT_NONE),
        DirectoryLine::RootNotDir => print(out, ROOT_NOT_DIR),
        DirectoryLine::RootSuspect => print(out, ROOT_SUSPECT),
        DirectoryLine::DirShort { attr, path } => print_dir(out, DIR_SHORT, attr, path, FIX),
        DirectoryLine::DirLength { path, size } => print_length(out, path, *size),
        DirectoryLine::DirHoles { path } => print_pieces(
            out,
            &[
                Piece::Text(DIRECTORY),
                Piece::Shown(path),
                Piece::Text(CONTAINS_EMPTY_BLOCKS),
            ],
        ),
        DirectoryLine::DirCorrupt { attr, path } => print_dir(
            out,
            DIR_CORRUPT,
            attr,
            path,
            SALVAGE,
        ),
    }
}

/// Prints what is wrong with the entries `.` and `..` of a directory.
///
/// # Errors
/// A write to the output that failed.
pub fn print_dot<W: Output>(out: &mut W, line: &DotLine<&[u8]>) -> Result<(), OutFault>
    ensures { Prints (W.sink out.old) (W.sink out.new) (dot_line_text
        (dot_message line.now)) result }
{
    match line {
        DotLine::MissingDot { attr, path } => print_dir(out, MISSING_DOT, attr, path, FIX),
        DotLine::MissingDotFirst { attr, path, name } => print_in_the_way(
            out,
            MISSING_DOT,
            attr,
            path,
            FIRST_ENTRY,
            name,
        ),
        DotLine::NumberDot { attr, path } => print_dir(out, NUMBER_DOT, attr, path, FIX),
        DotLine::TypeDot { attr, path } => print_dir(out, TYPE_DOT, attr, path, FIX),
        DotLine::MissingDotdot { attr, path } => print_dir(out, MISSING_DOTDOT, attr, path, FIX),
        DotLine::MissingDotdotSecond { attr, path, name } => print_in_the_way(
            out,
            MISSING_DOTDOT,
            attr,
            path,
            SECOND_ENTRY,
            name,
        ),
        DotLine::NumberDotdot { attr, path } => print_dir(out, NUMBER_DOTDOT, attr, path, FIX),
        DotLine::TypeDotdot { attr, path } => print_dir(out, TYPE_DOTDOT, attr, path, FIX),
        DotLine::ExtraDot { attr, path } => print_dir(out, EXTRA_DOT, attr, path, FIX),
        DotLine::ExtraDotdot { attr, path } => print_dir(out, EXTRA_DOTDOT, attr, path, FIX),
    }
}

/// Prints what is wrong with a further entry of a directory.
///
/// # Errors
/// A write to the output that failed.
pub fn print_entry<W: Output>(out: &mut W, line: &EntryLine<&[u8]>) -> Result<(), OutFault>
    ensures { Prints (W.sink out.old) (W.sink out.new) (entry_line_text
        (entry_message line.now)) result }
{
    match line {
        EntryLine::OutOfRange { number, path } => print_numbered(
            out,
            OUT_OF_RANGE,
            *number,
            path,
            REMOVE,
        ),
        EntryLine::BadWhiteout { number, path } => print_numbered(
            out,
            BAD_WHITEOUT,
            *number,
            path,
            FIX,
        ),
        EntryLine::Unallocated { attr, path } => print_path(
            out,
            UNALLOCATED,
            attr,
            Label::Name,
            path,
            REMOVE,
        ),
        EntryLine::DupBad { label, attr, path } => print_path(
            out, DUP_BAD, attr, *label, path, REMOVE,
        ),
        EntryLine::ZeroDir { attr, path } => print_dir(out, ZERO_DIR, attr, path, REMOVE),
        EntryLine::Extraneous { path, dir_path } => print_extraneous(out, path, dir_path),
        EntryLine::TypeEntry { label, attr, path } => print_path(
            out, TYPE_ENTRY, attr, *label, path, FIX,
        ),
    }
}

/// Prints what is wrong with an inode by the entries that name it.
///
/// # Errors
/// A write to the output that failed.
pub fn print_reference<W: Output>(out: &mut W, line: &ReferenceLine) -> Result<(), OutFault>
    ensures { Prints (W.sink out.old) (W.sink out.new) (reference_line_text line.now)
        result }
{
    match line {
        ReferenceLine::UnrefDir { attr } => print_inode(out, UNREF_DIR, attr, RECONNECT),
        ReferenceLine::DeadMarked { label, attr } => print_labelled(
            out,
            DEAD_MARKED,
            *label,
            attr,
            CLEAR,
        ),
        ReferenceLine::DeadZero { attr } => print_inode(out, DEAD_ZERO, attr, CLEAR),
        ReferenceLine::Unref { label, attr } => print_labelled(
            out,
            UNREF,
            *label,
            attr,
            RECONNECT_OR_CLEAR,
        ),
        ReferenceLine::UnrefZero { label, attr } => print_labelled(out, UNREF, *label, attr, CLEAR),
        ReferenceLine::LinkCount {
            label,
            attr,
            count,
            right,
        } => print_links(out, *label, attr, *count, *right),
    }
}

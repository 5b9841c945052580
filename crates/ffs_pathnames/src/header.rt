//! What is found of a directory before its entries, what is wrong with it, and how it is said.
ghost use Rattle.std.specs.Prelude.{◌≡◌, ◌<◌, ℕ, vec_len, List, option_map};
ghost use Rattle.ffs_volume.specs.Directories.PathnameCheck.{dot_defects, dotdot_defects, has_partial_chunk, is_wrong_parent};
ghost use Rattle.ffs_volume.specs.Directories.PathnameCheck.{chunk_lines, dot_lines, dotdot_lines, dots_lines, header_lines, size_lines};
ghost use Rattle.ffs_volume.specs.{declared.Layout.Layout, Directories.{Naming.graph_of, Volumes.volume_of}};
ghost use Rattle.ffs_layout.specs.Entry.{entry_value};
ghost use Rattle.ffs_workspace.specs.Holds.{HoldsSurvey};
ghost use Rattle.ffs_report.specs.Progress.{progress};
ghost use Rattle.ffs_pathnames.specs.HeaderValues.{AreFirstTwo, defects_of_facts, defects_value, dot_value};
ghost use Rattle.ffs_pathnames.specs.{SaysTreeMessages.SaysTreeMessages, Ready.CanMakePath, DirectoryLines.ReportsHeader, Moments.lines_moment};
ghost use Rattle.ffs_volume.specs.Directories.Graph as graph;

use crate::paths::put_path;
use crate::say::{LineIf, Phase2Line, say_line, say_two};
use ffs_image::Image;
use ffs_layout::{Entry, Geometry, entry_at};
use ffs_names::{is_one_dot, is_two_dots};
use ffs_paths::{KeptParent, PathText};
use ffs_report::{DirectoryLine, DotLine, OutFault, Output, Report, RunFault};
use ffs_volume::constants::{DIRBLKSIZ, DT_DIR, MINDIRSIZE};
use ffs_volume::verdict::{DotDefects, HeaderDefects};
use ffs_volume::{Attr, Order};
use ffs_workspace::Workspace;

/// What the lines of a directory before those of its entries depend on.
#[derive(Clone, Copy, Debug)]
pub struct HeaderFacts<'a> {
    /// What messages show of its inode. Its number and its size are looked at too.
    pub attr: Attr,
    /// Its parent, as the survey found it.
    pub parent: Option<u32>,
    /// Whether a hole is among its kept steps.
    pub gap: bool,
    /// Whether all its chunks are sound.
    pub sound: bool,
    /// The first entry of the chunk at the start of the file.
    pub first: Option<Entry<'a>>,
    /// The second entry of that chunk.
    pub second: Option<Entry<'a>>,
}

/// The parent of a directory, as the survey found it.
#[tactic(auto, using(std::proofs::lemmas::List::get_or_read_under, crate::proofs::FirstTwo::none_back))]
pub fn found_parent(workspace: &Workspace, dir: u32) -> Option<u32>
    requires { dir < vec_len workspace.now.parents }
    ensures { (v : Layout) (b : List ℕ) → HoldsSurvey v b workspace.now → result
        ≡ graph.parent (graph_of (volume_of v b)) dir }
{
    let parent = workspace.parents[dir as usize];
    if parent == 0 {
        return None;
    }
    Some(parent)
}

/// The first two entries of the chunk at the start of a directory, if that was found.
pub fn first_two<'a>(
    order: Order,
    started: bool,
    start: &'a [u8; DIRBLKSIZ],
) -> (Option<Entry<'a>>, Option<Entry<'a>>)
    ensures { AreFirstTwo (option_map entry_value result.0) (option_map entry_value result.1)
        started order start.now }
{
    if !started {
        return (None, None);
    }
    match entry_at(order, start, 0) {
        None => (None, None),
        Some(entry) => {
            let second = entry_at(order, start, usize::from(entry.length));
            (Some(entry), second)
        }
    }
}

/// Whether a size is no multiple of a chunk, though not too short.
fn has_partial_chunk(size: u64) -> bool
    ensures { result ≡ has_partial_chunk size }
{
    size >= MINDIRSIZE && size % DIRBLKSIZ as u64 != 0
}

/// What is wrong with `.`, by the first entry of the directory of this number.
fn dot_defects<'a>(number: u32, first: Option<Entry<'a>>) -> DotDefects<&'a [u8]>
    ensures { dot_value result ≡ dot_defects number (option_map entry_value first.entry) }
{
    match first {
        None => DotDefects::Missing,
        Some(entry) => {
            if entry.number == 0 {
                return DotDefects::Missing;
            }
            if is_one_dot(entry.name) {
                return DotDefects::Found {
                    wrong_number: entry.number != number,
                    wrong_type: entry.kind != DT_DIR,
                };
            }
            if is_two_dots(entry.name) {
                return DotDefects::Missing;
            }
            DotDefects::Other { name: entry.name }
        }
    }
}

/// Whether there is a parent, and the number isn't its.
fn is_wrong_parent(parent: Option<u32>, number: u32) -> bool
    ensures { result ≡ is_wrong_parent parent number }
{
    match parent {
        None => false,
        Some(parent) => parent != number,
    }
}

/// What is wrong with `..`, by the second entry of a directory with this parent.
fn dotdot_defects<'a>(parent: Option<u32>, second: Option<Entry<'a>>) -> DotDefects<&'a [u8]>
    ensures { dot_value result ≡ dotdot_defects parent (option_map entry_value second.entry) }
{
    match second {
        None => DotDefects::Missing,
        Some(entry) => {
            if entry.number == 0 {
                return DotDefects::Missing;
            }
            if is_two_dots(entry.name) {
                return DotDefects::Found {
                    wrong_number: is_wrong_parent(parent, entry.number),
                    wrong_type: entry.kind != DT_DIR,
                };
            }
            if is_one_dot(entry.name) {
                return DotDefects::Missing;
            }
            DotDefects::Other { name: entry.name }
        }
    }
}

/// What is wrong with a directory before its entries.
#[tactic(auto, unfolding(ffs_volume::specs::Directories::PathnameCheck::header_defects))]
fn header_defects<'a>(header: &HeaderFacts<'a>) -> HeaderDefects<&'a [u8]>
    ensures { defects_value result ≡ defects_of_facts header.now }
{
    HeaderDefects {
        short: header.attr.size < MINDIRSIZE,
        partial_chunk: has_partial_chunk(header.attr.size),
        gap: header.gap,
        unsound: !header.sound,
        dot: dot_defects(header.attr.number, header.first),
        dotdot: dotdot_defects(header.parent, header.second),
    }
}

/// Says that a directory's size is too short, or no multiple of a chunk.
fn say_size<W: Output>(
    defects: &HeaderDefects<&[u8]>,
    attr: Attr,
    path: &[u8],
    report: &mut Report<'_, W>,
) -> Result<(), OutFault>
    ensures { SaysTreeMessages (progress W.sink report.old) (progress W.sink report.new)
        (size_lines (defects_value defects.now) attr path.now) result }
{
    let short = LineIf {
        holds: defects.short,
        line: Phase2Line::Directory(DirectoryLine::DirShort { attr, path }),
    };
    let partial = LineIf {
        holds: defects.partial_chunk,
        line: Phase2Line::Directory(DirectoryLine::DirLength {
            path,
            size: attr.size,
        }),
    };
    say_two(&short, &partial, report)
}

/// Says that a directory has holes, or that a chunk isn't sound.
fn say_chunks<W: Output>(
    defects: &HeaderDefects<&[u8]>,
    attr: Attr,
    path: &[u8],
    report: &mut Report<'_, W>,
) -> Result<(), OutFault>
    ensures { SaysTreeMessages (progress W.sink report.old) (progress W.sink report.new)
        (chunk_lines (defects_value defects.now) attr path.now) result }
{
    let holes = LineIf {
        holds: defects.gap,
        line: Phase2Line::Directory(DirectoryLine::DirHoles { path }),
    };
    let corrupt = LineIf {
        holds: defects.unsound,
        line: Phase2Line::Directory(DirectoryLine::DirCorrupt { attr, path }),
    };
    say_two(&holes, &corrupt, report)
}

/// Says what is wrong with `.`.
fn say_dot<W: Output>(
    defects: DotDefects<&[u8]>,
    attr: Attr,
    path: &[u8],
    report: &mut Report<'_, W>,
) -> Result<(), OutFault>
    ensures { SaysTreeMessages (progress W.sink report.old) (progress W.sink report.new)
        (dot_lines (dot_value defects.entry) attr path.now) result }
{
    match defects {
        DotDefects::Missing => {
            say_line(&Phase2Line::Dot(DotLine::MissingDot { attr, path }), report)
        }
        DotDefects::Other { name } => say_line(
            &Phase2Line::Dot(DotLine::MissingDotFirst { attr, path, name }),
            report,
        ),
        DotDefects::Found {
            wrong_number,
            wrong_type,
        } => {
            let number = LineIf {
                holds: wrong_number,
                line: Phase2Line::Dot(DotLine::NumberDot { attr, path }),
            };
            let kind = LineIf {
                holds: wrong_type,
                line: Phase2Line::Dot(DotLine::TypeDot { attr, path }),
            };
            say_two(&number, &kind, report)
        }
    }
}

/// Says what is wrong with `..`.
fn say_dotdot<W: Output>(
    defects: DotDefects<&[u8]>,
    attr: Attr,
    path: &[u8],
    report: &mut Report<'_, W>,
) -> Result<(), OutFault>
    ensures { SaysTreeMessages (progress W.sink report.old) (progress W.sink report.new)
        (dotdot_lines (dot_value defects.entry) attr path.now) result }
{
    match defects {
        DotDefects::Missing => say_line(
            &Phase2Line::Dot(DotLine::MissingDotdot { attr, path }),
            report,
        ),
        DotDefects::Other { name } => say_line(
            &Phase2Line::Dot(DotLine::MissingDotdotSecond { attr, path, name }),
            report,
        ),
        DotDefects::Found {
            wrong_number,
            wrong_type,
        } => {
            let number = LineIf {
                holds: wrong_number,
                line: Phase2Line::Dot(DotLine::NumberDotdot { attr, path }),
            };
            let kind = LineIf {
                holds: wrong_type,
                line: Phase2Line::Dot(DotLine::TypeDotdot { attr, path }),
            };
            say_two(&number, &kind, report)
        }
    }
}

/// Says what is wrong with `.` and `..`.
#[tactic(auto, using(crate::proofs::Saying::first_stops))]
fn say_dots<W: Output>(
    defects: &HeaderDefects<&[u8]>,
    attr: Attr,
    path: &[u8],
    report: &mut Report<'_, W>,
) -> Result<(), OutFault>
    ensures { SaysTreeMessages (progress W.sink report.old) (progress W.sink report.new)
        (dots_lines (defects_value defects.now) attr path.now) result }
{
    say_dot(defects.dot, attr, path, report)?;
    say_dotdot(defects.dotdot, attr, path, report)
}

/// Says all lines of a directory that come before those of its entries.
///
/// # Errors
/// A write of the report that failed.
#[tactic(auto, using(crate::proofs::Saying::first_stops), unfolding(ffs_volume::specs::Directories::PathnameCheck::header_lines))]
fn say_header<W: Output>(
    defects: &HeaderDefects<&[u8]>,
    attr: Attr,
    path: &[u8],
    report: &mut Report<'_, W>,
) -> Result<(), OutFault>
    ensures { SaysTreeMessages (progress W.sink report.old) (progress W.sink report.new)
        (header_lines (defects_value defects.now) attr path.now) result }
{
    say_size(defects, attr, path, report)?;
    say_chunks(defects, attr, path, report)?;
    say_dots(defects, attr, path, report)
}

/// Finds what is wrong with a directory before its entries and says it, with the directory's path,
/// which is made only where something is wrong.
///
/// # Errors
/// A read of the image that failed, and a write of the report that failed.
pub fn report_header<I: Image, W: Output>(
    geometry: &Geometry,
    image: &mut I,
    workspace: &mut Workspace,
    kept_parent: &mut KeptParent,
    header: HeaderFacts<'_>,
    report: &mut Report<'_, W>,
) -> Result<(), RunFault>
    requires { CanMakePath geometry.now.layout (I.device image.old) workspace.old kept_parent.old
        header.attr.number }
    ensures { ReportsHeader geometry.now.layout header.entry
        (lines_moment I.Image W.Output image.old workspace.old report.old kept_parent.old)
        (lines_moment I.Image W.Output image.new workspace.new report.new kept_parent.new) result }
{
    let defects = header_defects(&header);
    if defects.is_silent() {
        return Ok(());
    }
    let mut path = PathText::new();
    let number = header.attr.number;
    put_path(geometry, image, workspace, kept_parent, number, &mut path)?;
    say_header(&defects, header.attr, path.as_slice(), report)?;
    Ok(())
}

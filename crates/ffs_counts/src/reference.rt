//! What is reported of an inode by the entries that refer to it.

ghost use Rattle.std.specs.Prelude.{◌≡◌, ◌-◌, map};
ghost use Rattle.ffs_volume.specs.{Messages.Kinds.of_tree, Directories.PathnameCheck.{attributes_of, label_of}};
ghost use Rattle.ffs_volume.specs.Encodings.{Kinds.class_of_kind, Links.links_start};
ghost use Rattle.ffs_report.specs.Progress.{progress, Says};
ghost use Rattle.ffs_counts.specs.References.{lines_as, reference_reported};

use crate::numbers::is_count_of;
use ffs_report::{Line, OutFault, Output, ReferenceLine, Report};
use ffs_volume::kinds::Kind;
use ffs_volume::{Attr, Inode};
use ffs_workspace::links_start;

/// How many entries refer to an inode, by its element of the workspace's `references`, which
/// started at `links_start` and grew by 1 for each of them.
pub fn references_by(counted: u64, inode: &Inode) -> u64
    ensures { result ≡ counted - links_start inode.now.nlink }
{
    counted.saturating_sub(links_start(inode.nlink))
}

/// The line of an inode that is allocated, if it has one.
pub fn line_for(
    dead: bool,
    marked: bool,
    kind: u8,
    references: u64,
    number: u32,
    inode: &Inode,
) -> Option<ReferenceLine>
    ensures { lines_as result ≡ reference_reported dead marked (label_of (class_of_kind kind))
        (attributes_of number inode.now) inode.now.nlink references }
{
    let attr = Attr::of(number, inode);
    let label = Kind { code: kind }.label();
    let count = inode.nlink;
    if dead {
        if marked {
            return Some(ReferenceLine::DeadMarked { label, attr });
        }
        return Some(ReferenceLine::DeadZero { attr });
    }
    if references == 0 {
        if is_count_of(i32::from(count), 0) {
            return Some(ReferenceLine::UnrefZero { label, attr });
        }
        return Some(ReferenceLine::Unref { label, attr });
    }
    if is_count_of(i32::from(count), references) {
        return None;
    }
    Some(ReferenceLine::LinkCount {
        label,
        attr,
        count,
        right: references,
    })
}

/// Says a line, if there is one.
///
/// # Errors
/// A write of the report that failed.
pub fn say_if_any<W: Output>(
    line: Option<ReferenceLine>,
    report: &mut Report<'_, W>,
) -> Result<(), OutFault>
    ensures { Says (progress W.sink report.old) (progress W.sink report.new)
        (map of_tree (lines_as line)) result }
{
    match line {
        Some(line) => report.say(&Line::Reference(line)),
        None => Ok(()),
    }
}

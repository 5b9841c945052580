//! The lines of phase 1.

ghost use Rattle.std.specs.Prelude.{◌≡◌, ◌==◌, ◌&&◌, ◌<◌, [], ◌∷◌, not};
ghost use Rattle.ffs_volume.specs.Blocks.{BlockCheck.{class_lines, count_lines}, Inodes.is_file_or_dir};
ghost use Rattle.ffs_report.specs.Progress.{progress, Says};
ghost use Rattle.ffs_workspace.specs.Holds.{claims_of};
ghost use Rattle.ffs_claims.specs.{Bounds.sectors_bound, Lines.{of_lines, counted_owner, dup_lines, bad_lines}};
ghost use Rattle.ffs_volume.specs.Blocks.Claims as claims;
ghost use Rattle.ffs_volume.specs.declared.BlockMessage.TheVariants as lines;

use crate::offer::is_open;
use ffs_layout::Geometry;
use ffs_report::{Line, OutFault, Output, Report};
use ffs_volume::constants::DEV_BSIZE;
use ffs_volume::{BlockMessage, Class};
use ffs_workspace::Workspace;

/// Reports an inode of class Partial or Unknown.
///
/// # Errors
/// A write of the report that failed.
pub fn say_class<W: Output>(
    number: u32,
    class: Class,
    report: &mut Report<'_, W>,
) -> Result<(), OutFault>
    ensures { Says (progress W.sink report.old) (progress W.sink report.new)
        (of_lines (class_lines number class)) result }
{
    match class {
        Class::Partial => report.say(&Line::Block(BlockMessage::PartAlloc { inode: number })),
        Class::Unknown => report.say(&Line::Block(BlockMessage::UnknownType { inode: number })),
        Class::Free | Class::File | Class::Dir => Ok(()),
    }
}

/// Reports a bad Run by its first fragment. `is_eleventh` says that it is the eleventh one of its
/// inode.
///
/// # Errors
/// A write of the report that failed.
pub fn say_bad<W: Output>(
    fragment: u32,
    number: u32,
    is_eleventh: bool,
    report: &mut Report<'_, W>,
) -> Result<(), OutFault>
    ensures { Says (progress W.sink report.old) (progress W.sink report.new)
        (of_lines (bad_lines fragment number is_eleventh)) result }
{
    report.say(&Line::Block(BlockMessage::Bad {
        fragment,
        inode: number,
    }))?;
    if is_eleventh {
        return report.say(&Line::Block(BlockMessage::ManyBad { inode: number }));
    }
    Ok(())
}

/// Reports a dup offer. `is_eleventh` says that it is the eleventh one of its inode.
///
/// # Errors
/// A write of the report that failed.
pub fn say_dup<W: Output>(
    fragment: u32,
    number: u32,
    is_eleventh: bool,
    report: &mut Report<'_, W>,
) -> Result<(), OutFault>
    ensures { Says (progress W.sink report.old) (progress W.sink report.new)
        (of_lines (dup_lines fragment number is_eleventh)) result }
{
    report.say(&Line::Block(BlockMessage::Dup {
        fragment,
        inode: number,
    }))?;
    if is_eleventh {
        return report.say(&Line::Block(BlockMessage::ManyDup { inode: number }));
    }
    Ok(())
}

/// Reports an inode at the first of its Tails that is kept.
///
/// # Errors
/// A write of the report that failed.
pub fn say_tail<W: Output>(number: u32, report: &mut Report<'_, W>) -> Result<(), OutFault>
    ensures { Says (progress W.sink report.old) (progress W.sink report.new)
        (of_lines (lines.PartTrunc number ∷ [])) result }
{
    report.say(&Line::Block(BlockMessage::PartTrunc { inode: number }))
}

/// Whether a class is that of a file or of a directory.
fn is_file_or_dir(class: Class) -> bool
    ensures { result ≡ is_file_or_dir class }
{
    match class {
        Class::File | Class::Dir => true,
        Class::Free | Class::Partial | Class::Unknown => false,
    }
}

/// Whether an inode's count of sectors isn't the right one, where that is known: of a file or a
/// directory that isn't cut. Most counts are right: so that is asked first.
#[inline(always)]
fn is_wrong_count(workspace: &Workspace, class: Class, found: u32, right: u64) -> bool
    ensures { result ≡ (is_file_or_dir class
        && (claims.is_open (claims_of workspace.now) && not (found == right))) }
{
    u64::from(found) != right && is_file_or_dir(class) && is_open(workspace)
}

/// Reports an inode whose count of sectors of 512 bytes is wrong.
///
/// # Errors
/// A write of the report that failed.
pub fn say_count<W: Output>(
    geometry: &Geometry,
    workspace: &Workspace,
    number: u32,
    class: Class,
    found: u32,
    report: &mut Report<'_, W>,
) -> Result<(), OutFault>
    requires { workspace.now.kept < sectors_bound }
    ensures { Says (progress W.sink report.old) (progress W.sink report.new)
        (of_lines (count_lines geometry.now.layout (counted_owner number class found)
        (claims_of workspace.now))) result }
{
    let right = workspace.kept * (u64::from(geometry.layout.fsize) / DEV_BSIZE);
    if is_wrong_count(workspace, class, found, right) {
        return report.say(&Line::Block(BlockMessage::BlockCount {
            inode: number,
            found,
            right,
        }));
    }
    Ok(())
}

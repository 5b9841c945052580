//! Phase 3: connectivity (fsck(8)).

ghost use Rattle.std.specs.Prelude.{◌≡◌, ◌<◌, ◌≤◌, ◌+◌, ◌^◌, length, vec_len};
ghost use Rattle.ffs_report.specs.{Paid.Paid, Fails.FailsIn, PhaseOutcome.{HeadingFirst, ImageAfter, PhaseReports}};
ghost use Rattle.ffs_image.specs.Known.{ForBytes};
ghost use Rattle.ffs_report.specs.Progress.{progress};
ghost use Rattle.ffs_volume.specs.{Directories.Connectivity.unref_dir_lines, Report.Whole.phase3_messages};
ghost use Rattle.ffs_volume.specs.Messages.Kinds as messages;
ghost use Rattle.ffs_volume.specs.Directories.Volumes.{volume_of};
ghost use Rattle.ffs_connectivity.specs.{BeforeFault.SaidBeforeDirectory, Unreached.IsFirstUnreached};
ghost use Rattle.ffs_workspace.specs.{Found.WithSurvey, Leaves.LeavesSurvey, Ready.IsReady, Tables.IsTableSector};
ghost use Rattle.ffs_workspace.specs.TableReads.{blocks_with_lines};

use crate::cycles::flag_leaders;
use crate::unref::report_unref;
use ffs_image::Image;
use ffs_layout::Geometry;
use ffs_memory::FilledList;
use ffs_report::{Heading, Line, Output, Report, RunFault};
use ffs_survey::{is_dir, may_be_unreached};
use ffs_volume::constants::ROOTINO;
use ffs_workspace::Workspace;

/// The least number of a directory that isn't reached, or how many inodes there are where each one
/// is.
fn first_unreached(kinds: &[u8], reached: &FilledList<bool>) -> u32
    requires lists { (vec_len reached.now ≡ length kinds.now) × (length kinds.now < 2 ^ 31) }
    ensures { IsFirstUnreached kinds.now reached.now.items result }
{
    let count = kinds.len() as u32;
    if !may_be_unreached(kinds, reached) {
        return count;
    }
    for number in ROOTINO..count {
        if is_dir(kinds, number as usize) && !reached[number as usize] {
            return number;
        }
    }
    count
}

/// Reports each lost directory (neither reached from inode 2 nor dead) that has no parent, has a
/// dead one, or is the least number on a cycle of parents (fsck(8), phase 3).
///
/// The contract gives the text only for a workspace that holds what the block check and the survey
/// of directories found. What they found is left as it was, but for `flags` (the survey's calm
/// directories) and the noted places, whose lists are lent to the walks over parents.
///
/// # Errors
/// A read of the image that failed, and a write of the report that failed.
pub fn phase3<I: Image, W: Output>(
    geometry: &Geometry,
    image: &mut I,
    workspace: &mut Workspace,
    report: &mut Report<'_, W>,
) -> Result<(), RunFault>
    requires ready { IsReady geometry.now.layout (I.device image.old) workspace.old }
    ensures faults { ImageAfter (I.device image.old) (I.device image.new) result }
    ensures text { PhaseReports
        (WithSurvey geometry.now.layout (I.device image.old) workspace.old)
        (phase3_messages geometry.now.layout) (progress W.sink report.old)
        (progress W.sink report.new) result }
    ensures heading { HeadingFirst messages.phase3 (progress W.sink report.old)
        (progress W.sink report.new) result }
    ensures leaves { LeavesSurvey workspace.old workspace.new }

    // Known bytes are read at most once for each block of the inode table that has an inode with a
    // line, and any image once for each message that was begun.
    ensures reads { ForBytes (WithSurvey geometry.now.layout (I.device image.old) workspace.old)
        (λ bytes. I.reads image.new ≤ I.reads image.old + blocks_with_lines geometry.now.layout
        (unref_dir_lines (volume_of geometry.now.layout bytes))) }
    ensures paid { Paid 1 (progress W.sink report.old) (progress W.sink report.new)
        (I.reads image.old) (I.reads image.new) result }

    // A read that failed is of a block of the inode table.
    ensures sector { FailsIn (IsTableSector geometry.now.layout) result }

    // Where the bytes are known, that block has a directory with a line, and just the lines of
    // those with lesser numbers were said.
    ensures before_fault { FailsIn (SaidBeforeDirectory
        (WithSurvey geometry.now.layout (I.device image.old) workspace.old) geometry.now.layout
        (progress W.sink report.old) (progress W.sink report.new)) result }
    ensures ready { IsReady geometry.now.layout (I.device image.new) workspace.new }
{
    workspace.forget_windows();
    report.say(&Line::Heading(Heading::Phase3))?;
    let first = first_unreached(&workspace.kinds, &workspace.reached);
    if first as usize == workspace.kinds.len() {
        return Ok(());
    }
    flag_leaders(
        &workspace.parents,
        &mut workspace.words,
        &mut workspace.flags,
    );
    // `words` was lent to the walks over parents: no place of a parent entry is noted now.
    workspace.words.fill(0);
    for number in first..geometry.inodes() {
        report_unref(geometry, image, workspace, number, report)?;
    }
    Ok(())
}

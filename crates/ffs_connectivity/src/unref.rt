//! The line UNREF DIR, on one directory of each lost tree or cycle.

ghost use Rattle.std.specs.Prelude.{◌≡◌, ◌<◌, map};
ghost use Rattle.ffs_report.specs.{Paid.Paid, Fails.FailsIn, PhaseOutcome.{ImageAfter, PhaseReports}};
ghost use Rattle.ffs_report.specs.Progress.{progress};
ghost use Rattle.ffs_image.specs.Known.{ForBytes};
ghost use Rattle.ffs_volume.specs.{Directories.Volumes.volume_of, Messages.Kinds.of_tree};
ghost use Rattle.ffs_volume.specs.{Directories.Connectivity.unref_dir_lines, declared.Layout.Layout};
ghost use Rattle.ffs_volume.specs.Blocks.Inodes.{inodes_of};
ghost use Rattle.ffs_workspace.specs.{Found.WithSurvey, Ready.LeavesAllButWindows, Tables.IsTableSector, Lengths.IsFor};
ghost use Rattle.ffs_workspace.specs.TableReads.{ReadsForLines};
ghost use Rattle.ffs_walk.specs.Windows.{image_with};
ghost use Rattle.ffs_connectivity.specs.{BeforeFault.FailsBeforeUnref, Phase3.{CanReportUnref, is_unref_by}};

use ffs_image::Image;
use ffs_layout::Geometry;
use ffs_report::{Line, Output, ReferenceLine, Report, RunFault};
use ffs_survey::{is_dead, is_dir, number_of};
use ffs_volume::Attr;
use ffs_volume::constants::ROOTINO;
use ffs_workspace::Workspace;

/// Whether a directory is reported as unreferenced: neither reached nor dead, and without a parent,
/// with a dead one, or the least number on a cycle of parents, of which it has a flag.
#[tactic(auto, unfolding(crate::specs::Phase3::is_unref_by))]
fn is_unref(workspace: &Workspace, dir: u32) -> bool
    requires { (layout : Layout) × (IsFor layout workspace.now × (dir < inodes_of layout)) }
    ensures { result ≡ is_unref_by workspace.now dir }
{
    let kinds: &[u8] = &workspace.kinds;
    if !is_dir(kinds, dir as usize) {
        return false;
    }
    if dir == ROOTINO {
        return false;
    }
    if workspace.reached[dir as usize] {
        return false;
    }
    if is_dead(kinds, &workspace.marked, &workspace.named, dir) {
        return false;
    }
    let parent = number_of(&workspace.parents, dir as usize);
    if parent == 0 || parent as usize >= kinds.len() {
        return true;
    }
    if is_dead(kinds, &workspace.marked, &workspace.named, parent) {
        return true;
    }
    workspace.flags[dir as usize]
}

/// Reports an inode if it is a lost directory that has no parent, has a dead one, or is the least
/// number on a cycle of parents.
///
/// # Errors
/// A read of the image that failed, and a write of the report that failed.
pub fn report_unref<I: Image, W: Output>(
    geometry: &Geometry,
    image: &mut I,
    workspace: &mut Workspace,
    number: u32,
    report: &mut Report<'_, W>,
) -> Result<(), RunFault>
    requires { CanReportUnref geometry.now.layout (I.device image.old) workspace.old number }
    ensures faults { ImageAfter (I.device image.old) (I.device image.new) result }
    ensures text { PhaseReports
        (WithSurvey geometry.now.layout (I.device image.old) workspace.old)
        (λ bytes. map of_tree (unref_dir_lines (volume_of geometry.now.layout bytes) number))
        (progress W.sink report.old) (progress W.sink report.new) result }
    ensures reads { ForBytes (WithSurvey geometry.now.layout (I.device image.old) workspace.old)
        (λ bytes. ReadsForLines geometry.now.layout number
        (unref_dir_lines (volume_of geometry.now.layout bytes) number)
        (image_with I.Image image.old workspace.old.windows.table)
        (image_with I.Image image.new workspace.new.windows.table) result) }
    ensures sector { FailsIn (IsTableSector geometry.now.layout) result }

    // A read that failed is of this inode, before its line is said.
    ensures before_fault { FailsIn (FailsBeforeUnref
        (WithSurvey geometry.now.layout (I.device image.old) workspace.old) geometry.now.layout
        number (progress W.sink report.old) (progress W.sink report.new)) result }
    ensures paid { Paid 1 (progress W.sink report.old) (progress W.sink report.new)
        (I.reads image.old) (I.reads image.new) result }
    ensures stays { LeavesAllButWindows geometry.now.layout (I.device image.new) workspace.old
        workspace.new }
{
    let unref = is_unref(workspace, number);
    if !unref {
        return Ok(());
    }
    let inode = workspace.windows.table.inode(geometry, number, image)?;
    report.say(&Line::Reference(ReferenceLine::UnrefDir {
        attr: Attr::of(number, &inode),
    }))?;
    Ok(())
}

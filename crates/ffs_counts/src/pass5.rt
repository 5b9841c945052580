//! Phase 5: the records of the cylinder groups.

ghost use Rattle.std.specs.Prelude.{◌≡◌, ◌+◌, ◌≤◌};
ghost use Rattle.ffs_volume.specs.Report.{Reads.group_reads, Whole.phase5_messages};
ghost use Rattle.ffs_layout.specs.Super.{superblock_in};
ghost use Rattle.ffs_report.specs.{Progress.progress, Fails.FailsIn, PhaseOutcome.{HeadingFirst, ImageAfter}};
ghost use Rattle.ffs_report.specs.PhaseOutcome.{PhaseReports};
ghost use Rattle.ffs_counts.specs.{BeforeFault.SaidBeforeGroup, Records.IsGroupSector};
ghost use Rattle.ffs_workspace.specs.{Found.WithBlockCheck, Ready.IsReady};
ghost use Rattle.ffs_volume.specs.Messages.Kinds as messages;

use crate::groups::read_group;
use crate::once::{AlreadyReported, say_group, say_unless};
use crate::totals::Totals;
use ffs_groups::group_counts;
use ffs_image::Image;
use ffs_layout::Super;
use ffs_report::{Heading, Line, Output, Report, RunFault};
use ffs_volume::BlockMessage;
use ffs_workspace::Workspace;

/// Phase 5 (fsck(8)): compares the records of each cylinder group, and the totals of the
/// superblock, with what they should be by the fragments and inodes in use.
///
/// The contract gives the text only for a workspace that holds what the block check found.
///
/// # Errors
/// A read of the image that failed, and a write of the report that failed.
#[tactic(auto, using(std::proofs::lemmas::Result::err_from_is_err_and, ffs_report::proofs::Reporting::heading_reads, ffs_report::proofs::Reporting::heading_stops, ffs_report::proofs::Reporting::heading_then))]
pub fn phase5<I: Image, W: Output>(
    superblock: &Super,
    image: &mut I,
    workspace: &mut Workspace,
    report: &mut Report<'_, W>,
) -> Result<(), RunFault>
    requires ready { IsReady superblock.now.geometry.layout (I.device image.old) workspace.old }
    ensures faults { ImageAfter (I.device image.old) (I.device image.new) result }
    ensures text { PhaseReports
        (WithBlockCheck superblock.now.geometry.layout (I.device image.old) workspace.old)
        (λ bytes. phase5_messages bytes (superblock_in superblock.now))
        (progress W.sink report.old) (progress W.sink report.new) result }
    ensures heading { HeadingFirst messages.phase5 (progress W.sink report.old)
        (progress W.sink report.new) result }
    ensures leaves { workspace.new ≡ record workspace.old { windows = workspace.new.windows } }
    ensures reads { I.reads image.new
        ≤ I.reads image.old + group_reads superblock.now.geometry.layout }

    // A read that failed is of the block of a group, or of summary records.
    ensures sector { FailsIn (IsGroupSector superblock.now.geometry.layout) result }

    // Where the bytes are known, just the messages were said that come before those of a group whose
    // block or summary record is in that sector.
    ensures before_fault { FailsIn (SaidBeforeGroup
        (WithBlockCheck superblock.now.geometry.layout (I.device image.old) workspace.old)
        superblock.now.geometry.layout (progress W.sink report.old) (progress W.sink report.new))
        result }
    ensures ready { IsReady superblock.now.geometry.layout (I.device image.new) workspace.new }
{
    workspace.forget_windows();
    report.say(&Line::Heading(Heading::Phase5))?;
    let geometry = &superblock.geometry;
    let mut once = AlreadyReported::new();
    let mut totals = Totals::new();
    for group in 0..geometry.layout.ncg {
        let counts = group_counts(geometry, &workspace.used, &workspace.kinds, group);
        totals.add(&counts.summary);
        let found = read_group(geometry, image, workspace, &counts, group)?;
        say_group(&mut once, &found, group, report)?;
    }
    let right = totals.agree_with(&superblock.cstotal);
    say_unless(&mut once, right, BlockMessage::FreeCounts, report)?;
    Ok(())
}

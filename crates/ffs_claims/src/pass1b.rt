//! Phase 1b: rescan for more dups (fsck(8)).

ghost use Rattle.std.specs.Prelude.{◌≡◌, OnOk};
ghost use Rattle.ffs_volume.specs.{Blocks.Inodes.inode_of, Report.Whole.phase1b_messages};
ghost use Rattle.ffs_report.specs.{PhaseOutcome.{HeadingFirst, ImageAfter, PhaseReports}, Progress.progress};
ghost use Rattle.ffs_report.specs.Fails.{FailsIn};
ghost use Rattle.ffs_image.specs.Known.{ForBytes};
ghost use Rattle.ffs_workspace.specs.{Found.WithPhase1, Ready.IsReady};
ghost use Rattle.ffs_claims.specs.{Moments.{after_one_read, claim_moment, phase_moment}, Phases.GoesOverOffers};
ghost use Rattle.ffs_claims.specs.Phases.{IsLeftByPhase1b, Phase1bReads, Phase1bReadsUnlimited, WithNotes};
ghost use Rattle.ffs_claims.specs.{Phases.phase1b_messages_for, BeforeFault.DupsSaidBelow, Reporting.CanRewalk};
ghost use Rattle.ffs_claims.specs.{Reporting.{ClearsAsSaid, Phase1bKeeps}, Rewalking.{RereadsByBlock, Rewalks}};
ghost use Rattle.ffs_maps.specs.Bits.{bits_of};
ghost use Rattle.ffs_volume.specs.Messages.Kinds as messages;

use crate::report_offer::report_run;
use ffs_image::{Image, LimitedImage};
use ffs_layout::Geometry;
use ffs_report::{Heading, Line, Output, Report, RunFault};
use ffs_volume::Inode;
use ffs_volume::constants::ROOTINO;
use ffs_walk::SeenRuns;
use ffs_workspace::{Workspace, sweep_reads};

/// Walks over the blocks of an inode again, until it is cut or nothing is left to report.
fn rewalk<I: Image, W: Output>(
    geometry: &Geometry,
    image: &mut I,
    workspace: &mut Workspace,
    number: u32,
    inode: &Inode,
    report: &mut Report<'_, W>,
) -> Result<(), RunFault>
    requires { CanRewalk geometry.now.layout (I.device image.old) workspace.old number }
    ensures walks { Rewalks geometry.now.layout number (λ _. inode.now)
        (phase_moment I.Image W.Output image.old workspace.old report.old)
        (phase_moment I.Image W.Output image.new workspace.new report.new) result }
    ensures table { workspace.new.windows.table ≡ workspace.old.windows.table }
{
    let mut runs = SeenRuns::start(geometry, inode, workspace.noted_cut(number));
    while let Some(run) = runs.next(image, &mut workspace.windows.blocks)? {
        workspace.runs_again = workspace.runs_again.saturating_add(1);
        report_run(geometry, workspace, number, run.start, run.kept, report)?;
        if !workspace.has_unreported_dups() {
            break;
        }
    }
    Ok(())
}

/// Reads an inode by its number, and walks over its blocks again.
fn rewalk_inode<I: Image, W: Output>(
    geometry: &Geometry,
    image: &mut I,
    workspace: &mut Workspace,
    number: u32,
    report: &mut Report<'_, W>,
) -> Result<(), RunFault>
    requires { CanRewalk geometry.now.layout (I.device image.old) workspace.old number }
    ensures walks { Rewalks geometry.now.layout number
        (λ bytes. inode_of geometry.now.layout bytes number)
        (after_one_read (phase_moment I.Image W.Output image.old workspace.old report.old))
        (phase_moment I.Image W.Output image.new workspace.new report.new) result }

    // No read of the inode table where the inode is held, else one of its block.
    ensures by_block { RereadsByBlock geometry.now.layout number
        (phase_moment I.Image W.Output image.old workspace.old report.old)
        (phase_moment I.Image W.Output image.new workspace.new report.new) result }
{
    let inode = workspace.windows.table.inode(geometry, number, image)?;
    rewalk(geometry, image, workspace, number, &inode, report)
}

/// As `phase1b`, with no limit on reads. Its clauses are the same, but for `reads`, and but for
/// `text`, which follows from `again`.
///
/// # Errors
/// A read of the image that failed, and a write of the report that failed.
fn phase1b_unlimited<I: Image, W: Output>(
    geometry: &Geometry,
    image: &mut I,
    workspace: &mut Workspace,
    report: &mut Report<'_, W>,
) -> Result<(), RunFault>
    requires ready { IsReady geometry.now.layout (I.device image.old) workspace.old }
    ensures faults { ImageAfter (I.device image.old) (I.device image.new) result }
    ensures again { PhaseReports
        (WithNotes geometry.now.layout (I.device image.old) workspace.old)
        (phase1b_messages_for (bits_of workspace.old.duplicates) geometry.now.layout)
        (progress W.sink report.old) (progress W.sink report.new) result }
    ensures heading { HeadingFirst messages.phase1b (progress W.sink report.old)
        (progress W.sink report.new) result }
    ensures leaves { OnOk result (ForBytes
        (WithPhase1 geometry.now.layout (I.device image.old) workspace.old)
        (λ bytes. IsLeftByPhase1b geometry.now.layout bytes workspace.new)) }
    ensures offers { ForBytes
        (WithNotes geometry.now.layout (I.device image.old) workspace.old)
        (λ bytes. GoesOverOffers geometry.now.layout bytes workspace.old workspace.new result) }
    ensures clears { ClearsAsSaid 1 (claim_moment W.Output workspace.old report.old)
        (claim_moment W.Output workspace.new report.new) result }
    ensures reads { Phase1bReadsUnlimited geometry.now.layout (I.device image.old) workspace.old
        workspace.new (I.reads image.old) (I.reads image.new) }
    ensures stays { Phase1bKeeps workspace.old workspace.new }
    ensures before_fault { FailsIn (λ sector. DupsSaidBelow geometry.now.layout
        (phase_moment I.Image W.Output image.old workspace.old report.old)
        (phase_moment I.Image W.Output image.new workspace.new report.new)) result }
    ensures ready { IsReady geometry.now.layout (I.device image.new) workspace.new }
{
    workspace.forget_windows();
    workspace.runs_again = 0;
    report.say(&Line::Heading(Heading::Phase1b))?;
    for number in ROOTINO..geometry.inodes() {
        if !workspace.has_unreported_dups() {
            break;
        }
        rewalk_inode(geometry, image, workspace, number, report)?;
    }
    Ok(())
}

/// Walks over the blocks of the inodes again, until each fragment with a DUP line has its first
/// kept offer reported: by a DUP line for the first inode that keeps an offer of it.
///
/// The contract gives the text for a workspace as phase 1 left it, and after a fault once more:
/// what is left is reported then. No more reads are made than those of a sweep (`sweep_reads`).
///
/// # Errors
/// A read of the image that failed, and a write of the report that failed.
pub fn phase1b<I: Image, W: Output>(
    geometry: &Geometry,
    image: &mut I,
    workspace: &mut Workspace,
    report: &mut Report<'_, W>,
) -> Result<(), RunFault>
    requires ready { IsReady geometry.now.layout (I.device image.old) workspace.old }
    ensures faults { ImageAfter (I.device image.old) (I.device image.new) result }
    ensures text { PhaseReports
        (WithPhase1 geometry.now.layout (I.device image.old) workspace.old)
        (phase1b_messages geometry.now.layout) (progress W.sink report.old)
        (progress W.sink report.new) result }
    ensures heading { HeadingFirst messages.phase1b (progress W.sink report.old)
        (progress W.sink report.new) result }
    ensures leaves { OnOk result (ForBytes
        (WithPhase1 geometry.now.layout (I.device image.old) workspace.old)
        (λ bytes. IsLeftByPhase1b geometry.now.layout bytes workspace.new)) }

    // Where a call before was cut short, what it left is reported, and no more.
    ensures again { PhaseReports
        (WithNotes geometry.now.layout (I.device image.old) workspace.old)
        (phase1b_messages_for (bits_of workspace.old.duplicates) geometry.now.layout)
        (progress W.sink report.old) (progress W.sink report.new) result }
    ensures offers { ForBytes
        (WithNotes geometry.now.layout (I.device image.old) workspace.old)
        (λ bytes. GoesOverOffers geometry.now.layout bytes workspace.old workspace.new result) }

    // So many fragments fewer are left to report as lines were said whole, with an output that
    // gives its bytes. Which ones these are, `offers` says.
    ensures clears { ClearsAsSaid 1 (claim_moment W.Output workspace.old report.old)
        (claim_moment W.Output workspace.new report.new) result }
    ensures reads { Phase1bReads geometry.now.layout (I.device image.old) workspace.old
        workspace.new (I.reads image.old) (I.reads image.new) }
    ensures stays { Phase1bKeeps workspace.old workspace.new }

    // Where a read failed, there is an inode such that all messages of those below it were said,
    // and no more was read than the inodes up to it ask for.
    ensures before_fault { FailsIn (λ sector. DupsSaidBelow geometry.now.layout
        (phase_moment I.Image W.Output image.old workspace.old report.old)
        (phase_moment I.Image W.Output image.new workspace.new report.new)) result }
    ensures ready { IsReady geometry.now.layout (I.device image.new) workspace.new }
{
    let mut limited = LimitedImage::new(image, sweep_reads(geometry));
    let rescanned = phase1b_unlimited(geometry, &mut limited, workspace, report);
    if limited.is_spent() {
        // See `LimitedImage`: bytes that stay never ask for so many reads. Of others what is left
        // isn't reported.
        return Ok(());
    }
    rescanned
}

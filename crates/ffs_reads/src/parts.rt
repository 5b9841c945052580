//! The parts of a check after its opening, by the public calls.
ghost use Rattle.ffs_workspace.specs.Ready.{IsReady};

use ffs_claims::{phase1, phase1b};
use ffs_connectivity::phase3;
use ffs_counts::{phase4, phase5, summary};
use ffs_image::Image;
use ffs_layout::Super;
use ffs_pathnames::{Root, phase2};
use ffs_report::{Output, Report, RunFault};
use ffs_workspace::Workspace;

/// A part of a check after its opening.
#[derive(Clone, Copy, Debug, PartialEq, Eq)]
pub enum Part {
    /// The block check.
    Phase1,
    /// Its rescan, for more dups.
    Phase1b,
    /// The pathname check.
    Phase2,
    /// The connectivity check.
    Phase3,
    /// The reference check.
    Phase4,
    /// The group check.
    Phase5,
    /// The last line.
    Summary,
}

/// The parts in their order.
pub const PARTS: [Part; 7] = [
    Part::Phase1,
    Part::Phase1b,
    Part::Phase2,
    Part::Phase3,
    Part::Phase4,
    Part::Phase5,
    Part::Summary,
];

impl Part {
    /// The name of its row.
    pub fn name(self) -> &'static str {
        match self {
            Part::Phase1 => "phase1",
            Part::Phase1b => "phase1b",
            Part::Phase2 => "phase2",
            Part::Phase3 => "phase3",
            Part::Phase4 => "phase4",
            Part::Phase5 => "phase5",
            Part::Summary => "summary",
        }
    }

    /// Runs the part, as a check does after the parts before it, and returns whether the check
    /// continues after it.
    ///
    /// # Errors
    /// A read of the image that failed, and a write of the report that failed.
    pub fn run<I: Image, W: Output>(
        self,
        superblock: &Super,
        image: &mut I,
        workspace: &mut Workspace,
        report: &mut Report<'_, W>,
    ) -> Result<Root, RunFault>
        requires ready { IsReady superblock.now.geometry.layout (I.device image.old)
            workspace.old }
        ensures ready { IsReady superblock.now.geometry.layout (I.device image.new) workspace.new }
    {
        let geometry = &superblock.geometry;
        match self {
            Part::Phase1 => phase1(geometry, image, workspace, report)?,
            Part::Phase1b => rescan(superblock, image, workspace, report)?,
            Part::Phase2 => return phase2(geometry, image, workspace, report),
            Part::Phase3 => phase3(geometry, image, workspace, report)?,
            Part::Phase4 => phase4(geometry, image, workspace, report)?,
            Part::Phase5 => phase5(superblock, image, workspace, report)?,
            Part::Summary => summary(superblock, workspace, report)?,
        }
        Ok(Root::Go)
    }
}

/// Phase 1b, where phase 1 printed a DUP line.
fn rescan<I: Image, W: Output>(
    superblock: &Super,
    image: &mut I,
    workspace: &mut Workspace,
    report: &mut Report<'_, W>,
) -> Result<(), RunFault>
    requires ready { IsReady superblock.now.geometry.layout (I.device image.old) workspace.old }
    ensures ready { IsReady superblock.now.geometry.layout (I.device image.new) workspace.new }
{
    if workspace.has_dups() {
        return phase1b(&superblock.geometry, image, workspace, report);
    }
    Ok(())
}

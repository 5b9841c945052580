//! The survey of a volume's directories.

ghost use Rattle.std.specs.Prelude.{◌≡◌, false, true, OnOk};
ghost use Rattle.ffs_workspace.specs.{Moments.work_moment, Found.WithBlockCheck, Ready.{CanRead, IsReady}};
ghost use Rattle.ffs_image.specs.Known.{ForBytes};
ghost use Rattle.ffs_names.specs.{Costs.SweepsOnce, Surveys.{IsSurveyed, SurveyLeaves, SurveysAll, SurveysNoMore}};
ghost use Rattle.ffs_names.specs.CalmDirs.{FlagsEachCalm};

use crate::entries::Entries;
use crate::reader::DirectoryReader;
use ffs_image::{Image, ImageFault, LimitedImage};
use ffs_layout::Geometry;
use ffs_survey::{FoundLists, KnownInodes, survey_directories};
use ffs_workspace::{Workspace, sweep_reads};

/// As `survey`, of a workspace that has none yet, with no limit on reads.
///
/// # Errors
/// A read of the image that failed.
fn survey_unlimited<I: Image>(
    geometry: &Geometry,
    image: &mut I,
    workspace: &mut Workspace,
) -> Result<(), ImageFault>
    requires ready { CanRead geometry.now.layout (I.device image.old) workspace.old }
    requires first { workspace.old.surveyed ≡ false }
    ensures survey { ForBytes
        (WithBlockCheck geometry.now.layout (I.device image.old) workspace.old)
        (λ bytes. SurveysAll geometry.now.layout bytes
        (work_moment I.Image image.old workspace.old)
        (work_moment I.Image image.new workspace.new) result) }
    ensures leaves { SurveyLeaves geometry.now.layout (I.device image.old) (I.device image.new)
        workspace.old workspace.new result }
{
    let mut reader = DirectoryReader {
        geometry: *geometry,
        image,
        windows: &mut workspace.windows,
        kinds: &workspace.kinds,
        notes: &workspace.notes,
        entries: Entries::none(geometry),
    };
    let inodes = KnownInodes {
        kinds: &workspace.kinds,
        marked: &workspace.marked,
    };
    let mut found = FoundLists {
        references: &mut workspace.references,
        named: &mut workspace.named,
        reached: &mut workspace.reached,
        parents: &mut workspace.parents,
        calm: &mut workspace.flags,
        queue: &mut workspace.words,
    };
    let surveyed = survey_directories(&mut reader, &inodes, &mut found);
    // No place of a parent entry is noted yet.
    workspace.words.fill(0);
    workspace.surveyed = surveyed.is_ok();
    surveyed
}

/// Finds how often each inode is referred to, which inodes a plain entry names, which directories
/// are reached from the root, and the parent of each directory. Each directory is read once. In
/// `flags` are then calm directories alone, of which nothing can be reported, and all that are calm
/// by the image's bytes (`is_calm_directory`). `words` is zero: it notes no place of a parent
/// entry. The windows change too. What phase 1 left (claims, kinds, marks, notes, counts of Runs)
/// stays as it was.
///
/// A second survey of the workspace, also after later phases, reads nothing and counts no reference
/// again: what the first one found is there still. It flags no directory.
///
/// No more reads are made than those of a sweep (`sweep_reads`).
///
/// # Errors
/// A read of the image that failed.
#[tactic(auto, using(ffs_image::proofs::Limits::served, ffs_image::proofs::Limits::read_over, ffs_workspace::proofs::Leaving::claims_held, ffs_workspace::proofs::Leaving::windows_leave, crate::proofs::Limits::noted_within))]
pub fn survey<I: Image>(
    geometry: &Geometry,
    image: &mut I,
    workspace: &mut Workspace,
) -> Result<(), ImageFault>
    requires { IsReady geometry.now.layout (I.device image.old) workspace.old }
    ensures survey { OnOk result (ForBytes
        (WithBlockCheck geometry.now.layout (I.device image.old) workspace.old)
        (λ bytes. IsSurveyed geometry.now.layout bytes workspace.new)) }
    ensures flags { workspace.old.surveyed ≡ false → OnOk result (ForBytes
        (WithBlockCheck geometry.now.layout (I.device image.old) workspace.old)
        (λ bytes. FlagsEachCalm geometry.now.layout bytes workspace.new)) }
    ensures reads { SweepsOnce geometry.now.layout
        (WithBlockCheck geometry.now.layout (I.device image.old) workspace.old)
        (I.reads image.old) (I.reads image.new) }
    ensures again { workspace.old.surveyed ≡ true → SurveysNoMore (I.reads image.old)
        (I.reads image.new) workspace.old workspace.new }
    ensures leaves { SurveyLeaves geometry.now.layout (I.device image.old) (I.device image.new)
        workspace.old workspace.new result }
{
    if workspace.surveyed {
        // Other phases may have used both lists since.
        workspace.flags.fill(false);
        workspace.words.fill(0);
        return Ok(());
    }
    workspace.forget_windows();
    let mut limited = LimitedImage::new(image, sweep_reads(geometry));
    let surveyed = survey_unlimited(geometry, &mut limited, workspace);
    if limited.is_spent() {
        // See `LimitedImage`: bytes that stay never ask for so many reads. The lists hold what was
        // found so far, and the survey doesn't count as made.
        return Ok(());
    }
    surveyed
}

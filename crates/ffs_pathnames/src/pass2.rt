//! Phase 2: pathnames (fsck(8)).
ghost use Rattle.std.specs.Prelude.{◌≡◌, ◌+◌, ◌*◌, ◌∷◌, [], false, true, length, map, slice_index, vec_len, ◌&&◌, not, ℕ, IfOk, IsErr, OnErr};
ghost use Rattle.ffs_report.specs.{Paid.Paid, PhaseOutcome.{HeadingFirst, ImageAfter, PhaseReports}};
ghost use Rattle.ffs_image.specs.Known.{ForBytes};
ghost use Rattle.ffs_report.specs.PhaseOutcome.{SaysThenReads};
ghost use Rattle.ffs_report.specs.Progress.{progress};
ghost use Rattle.ffs_volume.specs.Directories.{PathnameCheck.pathname_lines, Volumes.volume_of};
ghost use Rattle.ffs_volume.specs.{Encodings.Kinds.is_dir_kind, Messages.Kinds.of_tree, Report.Reads.{line_reads, sweep_reads}};
ghost use Rattle.ffs_volume.specs.Report.Whole.{phase2_messages};
ghost use Rattle.ffs_workspace.specs.{Found.WithBlockCheck, Holds.{HoldsBlockCheck, bool_at}, Leaves.LeavesBlockCheck, Ready.{CanRead, IsReady}};
ghost use Rattle.ffs_pathnames.specs.Before.{KnowsBefore, IsNonePassed};
ghost use Rattle.ffs_pathnames.specs.Sees.{HasInodeLists};
ghost use Rattle.ffs_pathnames.specs.RootAnswers.{root_reported};
ghost use Rattle.ffs_pathnames.specs.{Phase2.{Phase2Ends, Phase2Reads}, RootAnswers.{AnswersRoot, SaidStop, is_go}};
ghost use Rattle.ffs_pathnames.specs.{DirectoryLines.ReportsTree, Moments.lines_moment, SaysTreeMessages.SaysTreeMessages};
ghost use Rattle.ffs_survey.specs.Survey.{suspect_at};
ghost use Rattle.ffs_volume.specs.Messages.Kinds as messages;

use crate::directories::check_directories;
use crate::inodes::Inodes;
use crate::say::{LineIf, Phase2Line, say_if, say_line};
use ffs_image::Image;
use ffs_layout::Geometry;
use ffs_memory::FilledList;
use ffs_names::survey;
use ffs_report::{DirectoryLine, Heading, Line, OutFault, Output, Report, RunFault};
use ffs_volume::constants::ROOTINO;
use ffs_volume::kinds::Kind;
use ffs_workspace::Workspace;

/// Whether the check continues after the root. It ends there, in phase 2, where inode 2 isn't a
/// directory: so it is named after what phase 2 finds of the root, and `ffs` gives it out by this
/// name.
#[derive(Clone, Copy, Debug, PartialEq, Eq)]
pub enum Root {
    /// The check continues.
    Go,
    /// The check ends after the root's line.
    Stop,
}

/// Surveys the directories, and says the lines of the root, of each directory and of its entries
/// (fsck(8), phase 2). Returns whether the check continues after the root.
///
/// The contract gives the text only for a workspace that holds what the block check found. At `Ok`
/// such a workspace holds what the survey found, too.
///
/// Known bytes, of which the workspace holds what the block check found, are read at most
/// `pathname_reads` times, also where a read failed. Of these, too: where no survey was made
/// before, a directory of which nothing can be reported isn't read for the messages, unless it is
/// marked (`phase2_cost`, and `looked_at` of `Phase2Reads`); where one was made, none is made again
/// (`surveyed_before`); and where the check stops after the root, only the survey reads
/// (`stopped`).
///
/// # Errors
/// A read of the image that failed, and a write of the report that failed. After a write phase 2
/// can be called again: all that it needs is held still. After a read phases 2, 3 and 4 can, where
/// the workspace says `surveyed` (`ends`); where it doesn't, the survey was cut short and has
/// counted some references: nothing is promised of a later call.
pub fn phase2<I: Image, W: Output>(
    geometry: &Geometry,
    image: &mut I,
    workspace: &mut Workspace,
    report: &mut Report<'_, W>,
) -> Result<Root, RunFault>
    requires ready { IsReady geometry.now.layout (I.device image.old) workspace.old }
    ensures faults { ImageAfter (I.device image.old) (I.device image.new) result }
    ensures text { PhaseReports
        (WithBlockCheck geometry.now.layout (I.device image.old) workspace.old)
        (phase2_messages geometry.now.layout) (progress W.sink report.old)
        (progress W.sink report.new) result }
    ensures heading { HeadingFirst messages.phase2 (progress W.sink report.old)
        (progress W.sink report.new) result }
    ensures ends { Phase2Ends geometry.now.layout (I.device image.old) workspace.old
        workspace.new (progress W.sink report.old) (progress W.sink report.new) result }
    ensures reads { Phase2Reads geometry.now.layout (I.device image.old) workspace.old
        (I.reads image.old) (I.reads image.new) }

    // Any image is read no more than four sweeps, and `line_reads` for each message that was begun.
    ensures paid { Paid line_reads (progress W.sink report.old) (progress W.sink report.new)
        (I.reads image.old + 4 * sweep_reads geometry.now.layout) (I.reads image.new) result }

    // What the block check left stays, also where a read or a write failed, but for the counts of
    // references.
    ensures block_check { LeavesBlockCheck workspace.old workspace.new }

    // Of known bytes, of which the workspace held what the block check found, the survey counts as
    // made then, unless nothing but the heading was begun before a fault. One that was made before
    // counts as made in any case.
    ensures surveyed { workspace.new.surveyed ≡ false → (workspace.old.surveyed ≡ false) × ForBytes
        (WithBlockCheck geometry.now.layout (I.device image.old) workspace.old)
        (λ bytes. IsErr result × SaysThenReads (messages.phase2 ∷ [])
        (progress W.sink report.old) (progress W.sink report.new) result) }

    ensures ready { IsReady geometry.now.layout (I.device image.new) workspace.new }
{
    report.say(&Line::Heading(Heading::Phase2))?;
    survey(geometry, image, workspace)?;
    clear_passed_and_windows(workspace);
    check_tree(geometry, image, workspace, report)
}

/// Begins the check of directories with no name passed: the flags of suspect inodes are cleared,
/// and from now on such a flag says that a plain entry has named the inode. Each word of `words` is
/// 0, as the survey left it: no parent entry's place is noted, and none is due. The survey's flags
/// of other inodes stay, and say which directories are calm: these are left out. The windows hold
/// nothing.
fn clear_passed_and_windows(workspace: &mut Workspace)
    requires lists { HasInodeLists workspace.old }
    requires unnoted { (x : ℕ) → slice_index workspace.old.words.items x ≡ 0 }
    ensures { IsNonePassed workspace.old workspace.new }
{
    workspace.forget_windows();
    let inodes = Inodes {
        kinds: workspace.kinds.as_slice(),
        marked: &workspace.marked,
        parents: &workspace.parents,
    };
    clear_suspects(&inodes, &mut workspace.flags);
}

/// False only where no inode is suspect: a loop without exit, and mostly none is.
fn any_suspect(inodes: &Inodes<'_>) -> bool
    ensures { result ≡ false → (x : ℕ)
        → suspect_at inodes.now.kinds.now inodes.now.marked.now.items x ≡ false }
{
    let mut any = inodes.marked.is_any_true(0, inodes.marked.len());
    for number in 0..inodes.count() {
        any |= inodes.kind(number).is_empty_dir();
    }
    any
}

/// Clears the flags of suspect inodes, and no others.
fn clear_suspects(inodes: &Inodes<'_>, flags: &mut FilledList<bool>)
    requires { vec_len flags.old ≡ length inodes.now.kinds.now }
    ensures long { vec_len flags.new ≡ vec_len flags.old }
    ensures flags { (x : ℕ) → bool_at flags.new.items x ≡ (bool_at flags.old.items x
        && not (suspect_at inodes.now.kinds.now inodes.now.marked.now.items x)) }
{
    if !any_suspect(inodes) {
        return;
    }
    for number in 0..inodes.count() {
        let index = number as usize;
        if flags[index] && inodes.is_suspect(number) {
            flags.set(index, false);
        }
    }
}

/// Says the root's line and, where the check continues after it, the lines of each directory and
/// of its entries.
#[tactic(auto, using(ffs_volume::proofs::Sizes::some_inodes))]
fn check_tree<I: Image, W: Output>(
    geometry: &Geometry,
    image: &mut I,
    workspace: &mut Workspace,
    report: &mut Report<'_, W>,
) -> Result<Root, RunFault>
    requires { CanRead geometry.now.layout (I.device image.old) workspace.old }

    // `tt`: nothing is kept from one line to the next.
    ensures tree { ReportsTree geometry.now.layout pathname_lines
        (lines_moment I.Image W.Output image.old workspace.old report.old tt)
        (lines_moment I.Image W.Output image.new workspace.new report.new tt) result }
    ensures root { AnswersRoot geometry.now.layout (I.device image.old) workspace.old result }

    // Where the check stops after the root, its message was said, and nothing else.
    ensures stop { IfOk result (λ root. is_go root ≡ false → SaidStop
        (KnowsBefore geometry.now.layout (I.device image.old).contents workspace.old 2) []
        (λ b. map of_tree (pathname_lines (volume_of geometry.now.layout b)))
        (progress W.sink report.old) (progress W.sink report.new)) }

    // Where the root isn't a directory, nothing is read: its line shows no path.
    ensures unread { is_dir_kind (slice_index workspace.old.kinds.items 2) ≡ false
        → I.reads image.new ≡ I.reads image.old }
{
    let kind = workspace.kinds[ROOTINO as usize];
    let marked = workspace.marked[ROOTINO as usize];
    report_root(kind, marked, report)?;
    match root_of(kind) {
        Root::Stop => Ok(Root::Stop),
        Root::Go => {
            check_directories(geometry, image, workspace, report)?;
            Ok(Root::Go)
        }
    }
}

/// Says the root's line, where it isn't allocated, isn't a directory, is marked, or is of size 0:
/// one line at most.
///
/// # Errors
/// A write of the report that failed.
#[tactic(auto, unfolding(crate::specs::RootAnswers::root_reported))]
fn report_root<W: Output>(
    kind: u8,
    marked: bool,
    report: &mut Report<'_, W>,
) -> Result<(), OutFault>
    ensures { SaysTreeMessages (progress W.sink report.old) (progress W.sink report.new)
        (root_reported kind marked) result }
{
    let kind = Kind { code: kind };
    if !kind.is_allocated() {
        return say_line(&Phase2Line::Directory(DirectoryLine::RootNone), report);
    }
    if kind.is_dir() {
        let suspect = LineIf {
            holds: marked || kind.is_empty_dir(),
            line: Phase2Line::Directory(DirectoryLine::RootSuspect),
        };
        return say_if(&suspect, report);
    }
    say_line(&Phase2Line::Directory(DirectoryLine::RootNotDir), report)
}

/// Whether the check continues after a root of this kind.
fn root_of(kind: u8) -> Root
    ensures { is_go result ≡ is_dir_kind kind }
{
    if (Kind { code: kind }).is_dir() {
        Root::Go
    } else {
        Root::Stop
    }
}

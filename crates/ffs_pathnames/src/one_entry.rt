//! The lines of a plain or an extra entry.
ghost use Rattle.ffs_workspace.specs.Moments.{work_moment};
ghost use Rattle.ffs_volume.specs.Directories.PathnameCheck.{extra_lines};
ghost use Rattle.ffs_pathnames.specs.{EntryLines.SaysEntryLines, Moments.lines_moment, Ready.{CanMakePath, LinesLeave}};
ghost use Rattle.ffs_pathnames.specs.{SaysTreeMessages.SaysTreeMessages, Gathers.{IsVerdictIn, extra_reported}};
ghost use Rattle.ffs_pathnames.specs.{Gathers.plain_lines_by, Sees.HasInodeLists};
ghost use Rattle.ffs_layout.specs.Entry.{entry_value};
ghost use Rattle.ffs_report.specs.Progress.{progress};

use crate::entry_texts::EntryTexts;
use crate::gather::{DirectoryEntry, gather_entry, gather_extra};
use crate::inodes::Inodes;
use crate::say::{Phase2Line, say_line};
use crate::verdict::{say_verdict, verdict_at_reading};
use ffs_image::Image;
use ffs_layout::{Entry, Geometry};
use ffs_names::is_one_dot;
use ffs_report::{DotLine, OutFault, Output, Report, RunFault};
use ffs_volume::Attr;
use ffs_volume::verdict::Verdict;
use ffs_workspace::Workspace;

/// The verdict on a plain entry, by what the workspace holds.
fn verdict_of(workspace: &Workspace, dir: u32, entry: &Entry<'_>) -> Verdict
    requires { HasInodeLists workspace.now }
    ensures { IsVerdictIn workspace.now dir (entry_value entry.now) result }
{
    let inodes = Inodes {
        kinds: workspace.kinds.as_slice(),
        marked: &workspace.marked,
        parents: &workspace.parents,
    };
    verdict_at_reading(&inodes, dir, &workspace.flags, &workspace.words, entry)
}

/// Says the lines of a plain entry of a directory.
///
/// # Errors
/// A read of the image that failed, and a write of the report that failed.
pub fn report_plain<I: Image, W: Output>(
    geometry: &Geometry,
    image: &mut I,
    workspace: &mut Workspace,
    texts: &mut EntryTexts,
    entry: &DirectoryEntry<'_>,
    report: &mut Report<'_, W>,
) -> Result<(), RunFault>
    requires ready { CanMakePath geometry.now.layout (I.device image.old) workspace.old
        texts.old.kept_parent entry.now.dir }
    ensures lines { SaysEntryLines geometry.now.layout entry.now.dir
        (λ vol. plain_lines_by vol workspace.old entry.now)
        (lines_moment I.Image W.Output image.old workspace.old report.old texts.old)
        (lines_moment I.Image W.Output image.new workspace.new report.new texts.new) result }
    ensures leaves { LinesLeave geometry.now.layout (work_moment I.Image image.old workspace.old)
        (work_moment I.Image image.new workspace.new) texts.new.kept_parent result }
{
    let verdict = verdict_of(workspace, entry.dir, &entry.entry);
    if verdict.is_silent() {
        return Ok(());
    }
    let attr = gather_entry(geometry, image, workspace, texts, entry, &verdict)?;
    say_verdict(
        &verdict,
        entry.entry.number,
        attr,
        texts.paths.last(),
        texts.shown_directory.as_slice(),
        report,
    )?;
    Ok(())
}

/// Says that an entry is extra.
fn say_extra<W: Output>(
    attr: Attr,
    path: &[u8],
    entry: &Entry<'_>,
    report: &mut Report<'_, W>,
) -> Result<(), OutFault>
    ensures { SaysTreeMessages (progress W.sink report.old) (progress W.sink report.new)
        (extra_lines attr path.now (entry_value entry.now)) result }
{
    if is_one_dot(entry.name) {
        return say_line(&Phase2Line::Dot(DotLine::ExtraDot { attr, path }), report);
    }
    say_line(
        &Phase2Line::Dot(DotLine::ExtraDotdot { attr, path }),
        report,
    )
}

/// Says the line of an extra entry: a `.` that isn't the first entry of the chunk at the start of
/// the file, or a `..` that isn't the second entry of that chunk.
///
/// # Errors
/// A read of the image that failed, and a write of the report that failed.
pub fn report_extra<I: Image, W: Output>(
    geometry: &Geometry,
    image: &mut I,
    workspace: &mut Workspace,
    texts: &mut EntryTexts,
    entry: &DirectoryEntry<'_>,
    report: &mut Report<'_, W>,
) -> Result<(), RunFault>
    requires { CanMakePath geometry.now.layout (I.device image.old) workspace.old
        texts.old.kept_parent entry.now.dir }
    ensures lines { SaysEntryLines geometry.now.layout entry.now.dir
        (λ vol. extra_reported vol entry.now)
        (lines_moment I.Image W.Output image.old workspace.old report.old texts.old)
        (lines_moment I.Image W.Output image.new workspace.new report.new texts.new) result }
    ensures leaves { LinesLeave geometry.now.layout (work_moment I.Image image.old workspace.old)
        (work_moment I.Image image.new workspace.new) texts.new.kept_parent result }
{
    let attr = gather_extra(geometry, image, workspace, texts, entry.dir)?;
    say_extra(attr, texts.shown_directory.as_slice(), &entry.entry, report)?;
    Ok(())
}

//! The check of directories, one after another, by number: which need one, and for each its first
//! look, its header and its entries.
ghost use Rattle.std.specs.Prelude.{◌≡◌, ◌-◌, ◌<◌, ◌≤◌, ℕ, false};
ghost use Rattle.ffs_volume.specs.{Messages.Kinds.lines_from, Directories.PathnameCheck.directory_lines};
ghost use Rattle.ffs_volume.specs.Blocks.Inodes.{inodes_of};
ghost use Rattle.ffs_pathnames.specs.Ready.{CanCheck};
ghost use Rattle.ffs_pathnames.specs.ChecksNeeded.{ListsInode, ListsInodes, IsFirstToCheck, needs_check};
ghost use Rattle.ffs_pathnames.specs.DirectoryLines.{ReadsQuietOnce, ReportsDirectory, ReportsTree};
ghost use Rattle.ffs_pathnames.specs.{Tasks.{begin_task, check_task, sized_task}, Moments.lines_moment};
ghost use Rattle.ffs_workspace.specs.{Ready.CanRead};

use crate::checking::Checking;
use crate::entries::report_entries;
use crate::entry_texts::EntryTexts;
use crate::header::{HeaderFacts, first_two, found_parent, report_header};
use crate::look::{Directory, FirstLook, look_directory};
use ffs_image::Image;
use ffs_layout::Geometry;
use ffs_names::note_places;
use ffs_report::{Output, Report, RunFault};
use ffs_volume::Attr;
use ffs_volume::constants::{DIRBLKSIZ, DT_DIR, ROOTINO};
use ffs_workspace::{Workspace, sweep_reads};

/// Says the lines of each directory and of its entries, in the order of inode numbers.
///
/// # Errors
/// A read of the image that failed, and a write of the report that failed.
#[tactic(auto, using(std::proofs::lemmas::Bool::both_ways, ffs_volume::proofs::Sizes::some_inodes))]
pub fn check_directories<I: Image, W: Output>(
    geometry: &Geometry,
    image: &mut I,
    workspace: &mut Workspace,
    report: &mut Report<'_, W>,
) -> Result<(), RunFault>
    requires { CanRead geometry.now.layout (I.device image.old) workspace.old }
    ensures tree { ReportsTree geometry.now.layout
        (λ vol. lines_from (directory_lines vol) 2 (inodes_of geometry.now.layout - 2))
        (lines_moment I.Image W.Output image.old workspace.old report.old tt)
        (lines_moment I.Image W.Output image.new workspace.new report.new tt) result }

    // Where no directory needs a check, the workspace is left as it was.
    ensures unchecked { ((x : ℕ) → 2 ≤ x → x < inodes_of geometry.now.layout
        → needs_check workspace.old x ≡ false) → workspace.new ≡ workspace.old }
{
    let count = geometry.inodes();
    let first = first_to_check(workspace, count);
    if first == count {
        return Ok(());
    }
    note_places(geometry, image, workspace)?;
    let mut checking = Checking {
        texts: EntryTexts::none(),
        reads_left: 2 * sweep_reads(geometry),
    };
    for number in first..count {
        check_if_needed(geometry, image, workspace, &mut checking, number, report)?;
    }
    Ok(())
}

/// The first directory that needs a check, or `count`, how many inodes there are, where none does.
fn first_to_check(workspace: &Workspace, count: u32) -> u32
    requires { ListsInodes workspace.now count }
    ensures { IsFirstToCheck workspace.now count result }
{
    if !any_to_check(workspace, count) {
        return count;
    }
    for number in ROOTINO..count {
        if needs_check(workspace, number) {
            return number;
        }
    }
    count
}

/// False only where no directory needs a check: loops without exit. Any marked inode makes it true,
/// and so does a directory after the flags that are touched.
fn any_to_check(workspace: &Workspace, count: u32) -> bool
    requires { ListsInodes workspace.now count }
    ensures { result ≡ false → (x : ℕ) → 2 ≤ x → x < count → needs_check workspace.now x ≡ false }
{
    let kinds = workspace.kinds.as_slice();
    let flags = workspace.flags.touched();
    let mut any = workspace.marked.is_any_true(0, count as usize);
    for number in ROOTINO as usize..flags.len() {
        any |= (kinds[number] == DT_DIR) & !flags[number];
    }
    for number in flags.len().max(ROOTINO as usize)..count as usize {
        any |= kinds[number] == DT_DIR;
    }
    any
}

/// Whether an inode is a directory that isn't of size 0 and isn't known to be calm. One of size 0
/// has another kind (`EMPTY_DIR_KIND`). That a marked one is flagged doesn't mean that it is calm,
/// but that an entry has named it.
fn needs_check(workspace: &Workspace, number: u32) -> bool
    requires { ListsInode workspace.now number }
    ensures { result ≡ needs_check workspace.now number }
{
    let index = number as usize;
    (workspace.kinds[index] == DT_DIR) & (workspace.marked[index] | !workspace.flags[index])
}

/// Says the lines of an inode as a directory, and of its entries, where it needs a check.
fn check_if_needed<I: Image, W: Output>(
    geometry: &Geometry,
    image: &mut I,
    workspace: &mut Workspace,
    checking: &mut Checking,
    number: u32,
    report: &mut Report<'_, W>,
) -> Result<(), RunFault>
    requires { CanCheck geometry.now.layout (I.device image.old) workspace.old
        checking.old.texts.kept_parent number }

    ensures lines { ReportsDirectory geometry.now.layout (check_task geometry.now.layout number)
        (lines_moment I.Image W.Output image.old workspace.old report.old checking.old)
        (lines_moment I.Image W.Output image.new workspace.new report.new checking.new) result }

    // Where the directory needs no check, nothing is read.
    ensures skipped { needs_check workspace.old number ≡ false
        → I.reads image.new ≡ I.reads image.old }
{
    if needs_check(workspace, number) {
        return check_directory(geometry, image, workspace, checking, number, report);
    }
    Ok(())
}

/// Says the lines of a directory that isn't of size 0: of its size, its chunks, its first two
/// entries, and all its entries.
fn check_directory<I: Image, W: Output>(
    geometry: &Geometry,
    image: &mut I,
    workspace: &mut Workspace,
    checking: &mut Checking,
    dir: u32,
    report: &mut Report<'_, W>,
) -> Result<(), RunFault>
    requires { CanCheck geometry.now.layout (I.device image.old) workspace.old
        checking.old.texts.kept_parent dir }
    ensures lines { ReportsDirectory geometry.now.layout (sized_task geometry.now.layout dir)
        (lines_moment I.Image W.Output image.old workspace.old report.old checking.old)
        (lines_moment I.Image W.Output image.new workspace.new report.new checking.new) result }
    ensures quiet { ReadsQuietOnce geometry.now.layout dir
        (lines_moment I.Image W.Output image.old workspace.old report.old checking.old)
        (lines_moment I.Image W.Output image.new workspace.new report.new checking.new) }
{
    let looked = begin_directory(geometry, image, workspace, checking, dir, report)?;
    if looked.chunks.quiet {
        return Ok(());
    }
    let directory = Directory {
        number: dir,
        inode: looked.inode,
    };
    report_entries(geometry, image, workspace, checking, &directory, report)
}

/// Makes the first look at a directory, which reads it once, and then says its lines that come
/// before those of its entries.
fn begin_directory<I: Image, W: Output>(
    geometry: &Geometry,
    image: &mut I,
    workspace: &mut Workspace,
    checking: &mut Checking,
    dir: u32,
    report: &mut Report<'_, W>,
) -> Result<FirstLook, RunFault>
    requires { CanCheck geometry.now.layout (I.device image.old) workspace.old
        checking.old.texts.kept_parent dir }
    ensures { ReportsDirectory geometry.now.layout (begin_task geometry.now.layout dir)
        (lines_moment I.Image W.Output image.old workspace.old report.old checking.old)
        (lines_moment I.Image W.Output image.new workspace.new report.new checking.new) result }
{
    let mut start = [0u8; DIRBLKSIZ];
    let looked = look_directory(
        geometry,
        image,
        workspace,
        &mut checking.reads_left,
        dir,
        &mut start,
    )?;
    let parent = found_parent(workspace, dir);
    let (first, second) = first_two(geometry.layout.order, looked.chunks.started, &start);
    let header = HeaderFacts {
        attr: Attr::of(dir, &looked.inode),
        parent,
        gap: looked.chunks.gap,
        sound: looked.chunks.sound,
        first,
        second,
    };
    report_header(
        geometry,
        image,
        workspace,
        &mut checking.texts.kept_parent,
        header,
        report,
    )?;
    Ok(looked)
}

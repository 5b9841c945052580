//! Phase 4: how often inodes are referred to.

ghost use Rattle.std.specs.Prelude.{◌≡◌, ◌<◌, ◌≤◌, ◌+◌, ℕ, false, map, length, slice_index, vec_len};
ghost use Rattle.ffs_volume.specs.{Messages.Kinds.of_tree, Report.Whole.phase4_messages};
ghost use Rattle.ffs_volume.specs.Directories.{ReferenceCheck.reference_lines_at, Volumes.volume_of};
ghost use Rattle.ffs_report.specs.{Fails.FailsIn, Paid.Paid};
ghost use Rattle.ffs_image.specs.Known.{ForBytes};
ghost use Rattle.ffs_report.specs.{PhaseOutcome.{HeadingFirst, ImageAfter, PhaseReports}};
ghost use Rattle.ffs_report.specs.Progress.{progress};
ghost use Rattle.ffs_volume.specs.Messages.Kinds as messages;
ghost use Rattle.ffs_workspace.specs.{Found.WithFindings, Ready.{IsReady, LeavesAllButWindows}, Tables.{FailsBeforeLine, IsTableSector}};
ghost use Rattle.ffs_workspace.specs.TableReads.{ReadsForLines, blocks_with_lines};
ghost use Rattle.ffs_walk.specs.Windows.{image_with};
ghost use Rattle.ffs_counts.specs.{Ready.{CanCheckAllocated, HasElements, AreUnallocated, AreUnallocatedFrom}, References.is_dead_by};
ghost use Rattle.ffs_counts.specs.BeforeFault.{SaidBeforeInode};
ghost use Rattle.ffs_counts.specs.{References.{is_right_by}, Skipped.{AreRightFrom, AreSkippedFrom, CanSkipFrom}};
ghost use Rattle.ffs_survey.specs.Survey.{suspect_at};
ghost use Rattle.ffs_volume.specs.declared.constants.TheConstants as constants;

use crate::reference::{line_for, references_by, say_if_any};
use ffs_image::Image;
use ffs_layout::Geometry;
use ffs_memory::FilledList;
use ffs_report::{Heading, Line, Output, Report, RunFault};
use ffs_volume::constants::LINKS_MET;
use ffs_volume::kinds::Kind;
use ffs_workspace::Workspace;

/// Whether an inode is dead, by the lists of a workspace.
fn is_dead(workspace: &Workspace, number: u32) -> bool
    requires { HasElements workspace.now number }
    ensures { result ≡ is_dead_by workspace.now number }
{
    ffs_survey::is_dead(
        &workspace.kinds,
        &workspace.marked,
        &workspace.named,
        number,
    )
}

/// Whether nothing is reported of an inode that is allocated: it isn't dead, and its count of
/// references is `LINKS_MET`, which it is where there are as many as links, at least one.
fn is_right(workspace: &Workspace, number: u32) -> bool
    requires { HasElements workspace.now number }
    ensures { result ≡ is_right_by workspace.now number }
{
    workspace.references[number as usize] == LINKS_MET && !is_dead(workspace, number)
}

/// How many inodes that aren't allocated are passed over at once: four times the 16 bytes of a list
/// that the machine takes at once (SPEED.md).
const UNALLOCATED_AT_ONCE: usize = 64;

/// False only where none of the inodes of some kinds is allocated: a loop without exit.
#[inline(always)]
fn any_allocated(kinds: &[u8]) -> bool
    ensures { result ≡ false → AreUnallocated kinds.now }
{
    let mut any = false;
    for kind in kinds {
        any |= Kind { code: *kind }.is_allocated();
    }
    any
}

/// How many inodes from `first` on are passed over, since they aren't allocated (Free or Partial):
/// `UNALLOCATED_AT_ONCE`, or only that one, or none.
#[inline(always)]
fn unallocated_from(kinds: &[u8], first: usize) -> usize
    requires { first < length kinds.now }
    ensures { AreUnallocatedFrom kinds.now first result }
{
    let kind = Kind { code: kinds[first] };
    if kind.is_allocated() {
        return 0;
    }
    if kinds.len() - first < UNALLOCATED_AT_ONCE {
        return 1;
    }
    if any_allocated(&kinds[first..first + UNALLOCATED_AT_ONCE]) {
        1
    } else {
        UNALLOCATED_AT_ONCE
    }
}

/// How many allocated inodes are passed over at once: as many as unallocated ones.
const RIGHT_AT_ONCE: usize = UNALLOCATED_AT_ONCE;

/// False only where none of `RIGHT_AT_ONCE` inodes is suspect: a loop without exit. Where one isn't
/// allocated it is true too, so that their counts, eight times as long, aren't looked at.
#[inline(always)]
fn any_free_or_suspect(kinds: &[u8], marked: &FilledList<bool>, first: usize) -> bool
    requires { (first + RIGHT_AT_ONCE ≤ length kinds.now)
        × (vec_len marked.now ≡ length kinds.now) }
    ensures { result ≡ false → (x : ℕ) → first ≤ x → x < first + RIGHT_AT_ONCE
        → suspect_at kinds.now marked.now.items x ≡ false }
{
    if marked.is_any_true(first, first + RIGHT_AT_ONCE) {
        return true;
    }
    // Each test is kept by itself: of both in one the compiler makes a shift for each inode.
    let mut free = false;
    let mut empty = false;
    for number in first..first + RIGHT_AT_ONCE {
        let kind = Kind {
            code: kinds[number],
        };
        free |= !kind.is_allocated();
        empty |= kind.is_empty_dir();
    }
    free | empty
}

/// False only where each of some counts of references is `LINKS_MET`: a loop without exit.
#[inline(always)]
fn any_unmet(counts: &[u64]) -> bool
    ensures { result ≡ false → (k : ℕ) → k < length counts.now
        → slice_index counts.now k ≡ constants.LINKS_MET }
{
    let mut any = false;
    for count in counts {
        any |= *count != LINKS_MET;
    }
    any
}

/// How many inodes from `first` on are passed over, since nothing is reported of them:
/// `RIGHT_AT_ONCE`, or none. The lists are looked at only where `first` is a multiple of
/// `RIGHT_AT_ONCE`, so once for each so many inodes: where one of them isn't right, none is passed
/// over here, and each that is allocated is then looked at by itself.
#[inline(always)]
fn right_from(workspace: &Workspace, first: usize) -> usize
    requires { CanSkipFrom workspace.now first }
    ensures { AreRightFrom workspace.now first result }
{
    let counts = workspace.references.touched();
    if first % RIGHT_AT_ONCE != 0 || counts.len().saturating_sub(first) < RIGHT_AT_ONCE {
        return 0;
    }
    if any_free_or_suspect(&workspace.kinds, &workspace.marked, first) {
        return 0;
    }
    if any_unmet(&counts[first..first + RIGHT_AT_ONCE]) {
        return 0;
    }
    RIGHT_AT_ONCE
}

/// How many inodes from `first` on are passed over, since nothing is reported of them. There are
/// none only where that one is allocated.
#[inline(always)]
fn skipped_from(workspace: &Workspace, first: usize) -> usize
    requires { CanSkipFrom workspace.now first }
    ensures { AreSkippedFrom workspace.now first result }
{
    let free = unallocated_from(&workspace.kinds, first);
    if free == 0 {
        right_from(workspace, first)
    } else {
        free
    }
}

/// Reports what is wrong with an allocated inode. It is read only where it has a line.
fn report_references<I: Image, W: Output>(
    geometry: &Geometry,
    image: &mut I,
    workspace: &mut Workspace,
    number: u32,
    report: &mut Report<'_, W>,
) -> Result<(), RunFault>
    requires { CanCheckAllocated geometry.now.layout (I.device image.old) workspace.old number }
    ensures faults { ImageAfter (I.device image.old) (I.device image.new) result }
    ensures text { PhaseReports
        (WithFindings geometry.now.layout (I.device image.old) workspace.old)
        (λ bytes. map of_tree (reference_lines_at (volume_of geometry.now.layout bytes) number))
        (progress W.sink report.old) (progress W.sink report.new) result }
    ensures reads { ForBytes (WithFindings geometry.now.layout (I.device image.old) workspace.old)
        (λ bytes. ReadsForLines geometry.now.layout number
        (reference_lines_at (volume_of geometry.now.layout bytes) number)
        (image_with I.Image image.old workspace.old.windows.table)
        (image_with I.Image image.new workspace.new.windows.table) result) }
    ensures paid { Paid 1 (progress W.sink report.old) (progress W.sink report.new)
        (I.reads image.old) (I.reads image.new) result }
    ensures sector { FailsIn (IsTableSector geometry.now.layout) result }

    // A read that failed is of the inode's own block, and nothing was said.
    ensures before_fault { FailsIn (FailsBeforeLine geometry.now.layout number
        (progress W.sink report.old) (progress W.sink report.new)) result }
    ensures stays { LeavesAllButWindows geometry.now.layout (I.device image.new) workspace.old
        workspace.new }
{
    if is_right(workspace, number) {
        return Ok(());
    }
    let index = number as usize;
    let dead = is_dead(workspace, number);
    let marked = workspace.marked[index];
    let kind = workspace.kinds[index];
    let counted = workspace.references[index];
    let inode = workspace.windows.table.inode(geometry, number, image)?;
    let references = references_by(counted, &inode);
    let line = line_for(dead, marked, kind, references, number, &inode);
    say_if_any(line, report)?;
    Ok(())
}

/// Phase 4 (fsck(8)): reports each allocated inode that is dead, has no reference, or has a wrong
/// count of links.
///
/// The contract gives the text only for a workspace that holds what the block check and the survey
/// of directories found, and the counts of references (`WithFindings`).
///
/// # Errors
/// A read of the image that failed, and a write of the report that failed.
pub fn phase4<I: Image, W: Output>(
    geometry: &Geometry,
    image: &mut I,
    workspace: &mut Workspace,
    report: &mut Report<'_, W>,
) -> Result<(), RunFault>
    requires ready { IsReady geometry.now.layout (I.device image.old) workspace.old }
    ensures faults { ImageAfter (I.device image.old) (I.device image.new) result }
    ensures text { PhaseReports
        (WithFindings geometry.now.layout (I.device image.old) workspace.old)
        (phase4_messages geometry.now.layout) (progress W.sink report.old)
        (progress W.sink report.new) result }
    ensures heading { HeadingFirst messages.phase4 (progress W.sink report.old)
        (progress W.sink report.new) result }
    ensures leaves { workspace.new ≡ record workspace.old { windows = workspace.new.windows } }

    // Known bytes are read at most once for each block of the inode table that has an inode with a
    // line, and any image once for each message that was begun.
    ensures reads { ForBytes (WithFindings geometry.now.layout (I.device image.old) workspace.old)
        (λ bytes. I.reads image.new ≤ I.reads image.old + blocks_with_lines geometry.now.layout
        (reference_lines_at (volume_of geometry.now.layout bytes))) }
    ensures paid { Paid 1 (progress W.sink report.old) (progress W.sink report.new)
        (I.reads image.old) (I.reads image.new) result }

    // A read that failed is of a block of the inode table.
    ensures sector { FailsIn (IsTableSector geometry.now.layout) result }

    // Where the bytes are known, just the messages were said that come before those of an inode of
    // that block.
    ensures before_fault { FailsIn (SaidBeforeInode
        (WithFindings geometry.now.layout (I.device image.old) workspace.old) geometry.now.layout
        (progress W.sink report.old) (progress W.sink report.new)) result }
    ensures ready { IsReady geometry.now.layout (I.device image.new) workspace.new }
{
    workspace.forget_windows();
    report.say(&Line::Heading(Heading::Phase4))?;
    let inodes = geometry.inodes();
    // From 0: neither inode 0 nor 1 is allocated, so both are passed over. A jump over unallocated
    // inodes may begin and end anywhere. One over inodes that are right begins at a multiple of
    // `RIGHT_AT_ONCE`, and allocated inodes before that are looked at by themselves.
    let mut number = 0;
    while number < inodes {
        let skipped = skipped_from(workspace, number as usize);
        if skipped == 0 {
            report_references(geometry, image, workspace, number, report)?;
            number += 1;
        } else {
            number += skipped as u32;
        }
    }
    Ok(())
}

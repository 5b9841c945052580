//! The summary of a check.

ghost use Rattle.std.specs.Prelude.{◌≡◌, ◌∷◌, [], ◌-◌, ◌<◌, ◌^◌, length, pos, ◌+ℤ◌, ◌*ℤ◌, int_div};
ghost use Rattle.ffs_volume.specs.Report.Whole.{summary_of, file_count as files_of, claimed_count as claimed_of};
ghost use Rattle.ffs_layout.specs.Super.{superblock_in};
ghost use Rattle.ffs_maps.specs.Bits.{bits_of};
ghost use Rattle.ffs_report.specs.{Lines.message_of, Progress.progress, PhaseOutcome.ImageAfter};
ghost use Rattle.ffs_image.specs.Device.{Device};
ghost use Rattle.ffs_groups.specs.Inodes.{AreFew};
ghost use Rattle.ffs_counts.specs.{Summary.SaysSummary, Summing.files_among, Reserved.{HasReserved, claimed_in}};
ghost use Rattle.ffs_workspace.specs.{Holds.HoldsBlockCheck, Lengths.IsFor};

use ffs_layout::{Geometry, Super};
use ffs_maps::{FragmentMap, reserved_count};
use ffs_report::{Line, Output, Report, RunFault};
use ffs_volume::constants::ROOTINO;
use ffs_volume::kinds::Kind;
use ffs_workspace::Workspace;

/// How many inodes are counted at once by a counter of one byte: fewer than 256, so it doesn't
/// wrap, and twelve times the 16 bytes of a list that the machine takes at once (SPEED.md).
const INODES_AT_ONCE: usize = 192;

/// How many of the inodes from `first` on and below `end` are files or directories: a loop without
/// exit, which counts in a byte.
#[tactic(auto, using(ffs_maps::proofs::Counting::count_within))]
fn few_files(kinds: &[u8], first: usize, end: usize) -> u8
    requires { AreFew kinds.now first end }
    ensures { result ≡ files_among kinds.now first end }
{
    let mut files = 0;
    for inode in first..end {
        files += u8::from(Kind { code: kinds[inode] }.is_file_or_dir());
    }
    files
}

/// How many files and directories there are.
fn file_count(kinds: &[u8]) -> u32
    requires { length kinds.now < 2 ^ 32 }
    ensures { result ≡ files_among kinds.now 2 (length kinds.now) }
{
    let mut files = 0;
    let mut inode = ROOTINO as usize;
    while inode < kinds.len() {
        let next = kinds.len().min(inode + INODES_AT_ONCE);
        files += u32::from(few_files(kinds, inode, next));
        inode = next;
    }
    files
}

/// How many fragments are claimed; reserved ones don't count. Their bits were all set before any
/// was claimed. In a map that lacks some the difference stops at 0, and nothing is said of it, nor
/// of a map of another size.
fn claimed_count(geometry: &Geometry, used: &FragmentMap) -> u32
    ensures { used.now.size ≡ geometry.now.layout.size
        → HasReserved geometry.now.layout (bits_of used.now)
        → result ≡ claimed_in geometry.now.layout (bits_of used.now) }
{
    used.count_ones().saturating_sub(reserved_count(geometry))
}

/// Free fragments in all: the loose ones, and those of free blocks. `frag`, at most 8, is a byte,
/// so that 64 bits have room for the sum whatever the counts are.
fn free_in_all(frags: i32, frag: u8, blocks: i32) -> i64
    ensures { result ≡ frags +ℤ pos frag *ℤ blocks }
{
    i64::from(frags) + i64::from(frag) * i64::from(blocks)
}

/// The loose fragments as a share of the data fragments, in tenths of a percent, rounded toward
/// zero.
fn tenths_of(frags: i32, dsize: u32) -> i64
    requires { 0 < dsize }
    ensures { result ≡ int_div (frags *ℤ pos 1000) (pos dsize) }
{
    i64::from(frags) * 1000 / i64::from(dsize)
}

/// The line of the summary, by how many files there are and how many fragments are claimed.
fn summary_line(superblock: &Super, files: u32, claimed: u32) -> Line<'static>
    ensures { message_of result ≡ summary_of (superblock_in superblock.now) files claimed }
{
    // The totals are of directories, free blocks, free inodes and loose fragments (fs(5)).
    let [_, blocks, _, frags] = superblock.cstotal;
    let layout = &superblock.geometry.layout;
    Line::Summary {
        files,
        used: claimed,
        free: free_in_all(frags, layout.frag as u8, blocks),
        frags,
        blocks,
        tenths: tenths_of(frags, layout.dsize),
    }
}

/// The summary (fsck(8)): files, claimed fragments (reserved ones don't count), and what is free by
/// the superblock's own counts.
///
/// Files are counted by the kinds in the workspace, and claimed fragments by its map, where that
/// has the reserved ones: so the text is that of an image's bytes where the workspace holds what
/// the block check found in them.
///
/// # Errors
/// A write of the report that failed.
pub fn summary<W: Output>(
    superblock: &Super,
    workspace: &Workspace,
    report: &mut Report<'_, W>,
) -> Result<(), RunFault>
    requires { IsFor superblock.now.geometry.layout workspace.now }
    // No image is read: this holds of any image, left as it was, so no read's fault is returned. It
    // is said as each phase says it, so that a caller takes the summary as one more of them.
    ensures faults { (device : Device) → ImageAfter device device result }
    ensures text { SaysSummary (superblock_in superblock.now) workspace.now
        (progress W.sink report.old) (progress W.sink report.new) result }
{
    let files = file_count(&workspace.kinds);
    let claimed = claimed_count(&superblock.geometry, &workspace.used);
    report.say(&summary_line(superblock, files, claimed))?;
    Ok(())
}

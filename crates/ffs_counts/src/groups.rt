//! The records of a cylinder group, read from an image.

ghost use Rattle.std.specs.Prelude.{◌+◌};
ghost use Rattle.ffs_workspace.specs.Ready.{LeavesAllButWindows};
ghost use Rattle.ffs_counts.specs.Records.{AreReadOnce, AsksForGroup, AsksForRecords, CanReadGroup, CanReadRecord, GroupIsRead, ReadsRecord};

use ffs_groups::{Counts, GroupFindings, InUse, compare_group};
use ffs_image::{Image, ImageFault};
use ffs_layout::Geometry;
use ffs_volume::constants::CSUM_SIZE;
use ffs_workspace::{Table, Workspace};

/// How many summary records are read at a time: as many as the smallest block holds.
const RECORDS_AT_ONCE: u32 = 256;

/// The bytes of one of them.
const RECORD_SIZE: usize = CSUM_SIZE as usize;

/// Reads the summary record of a group with those round it: 256 records, or those that are left.
/// The window of the inode table, which phase 5 doesn't read, takes them.
/// Where the window has these bytes already, nothing is read (`Window::fill`). Returns where the
/// group's record begins in the window, in bytes.
fn read_summaries<I: Image>(
    geometry: &Geometry,
    image: &mut I,
    table: &mut Table,
    group: u32,
) -> Result<usize, ImageFault>
    requires { CanReadRecord geometry.now.layout (I.device image.old) group table.old }
    ensures read { ReadsRecord geometry.now.layout (I.device image.old) (I.device image.new) group
        table.new result }
    ensures reads { AreReadOnce geometry.now.layout table.old.window group (I.reads image.old)
        (I.reads image.new) }
    ensures asks { AsksForRecords I.was_read geometry.now.layout group image.old image.new }
{
    let first = group - group % RECORDS_AT_ONCE;
    let count = RECORDS_AT_ONCE.min(geometry.layout.ncg - first);
    let place = geometry.summary_place(first);
    // The table knows no inode any more; its window still knows which bytes it has.
    table.forget();
    table
        .window
        .fill(image, place, RECORD_SIZE * count as usize)?;
    Ok(RECORD_SIZE * (group - first) as usize)
}

/// Reads the records of a group, and compares them with what they should be.
///
/// # Errors
/// A read of the image that failed.
#[tactic(auto, using(ffs_volume::proofs::AreaLaws::group_block_inside), unfolding(ffs_image::specs::Reads::ReadsAtMostOnce))]
pub fn read_group<I: Image>(
    geometry: &Geometry,
    image: &mut I,
    workspace: &mut Workspace,
    counts: &Counts,
    group: u32,
) -> Result<GroupFindings, ImageFault>
    requires { CanReadGroup geometry.now.layout (I.device image.old) workspace.old group
        counts.now }
    ensures found { GroupIsRead geometry.now.layout (I.device image.old) (I.device image.new)
        workspace.new group result }

    // One read for the group's block, and what its summary record takes.
    ensures reads { AreReadOnce geometry.now.layout workspace.old.windows.table.window group
        (I.reads image.old + 1) (I.reads image.new) }
    ensures asks { AsksForGroup I.was_read geometry.now.layout group image.old image.new }
    ensures stays { LeavesAllButWindows geometry.now.layout (I.device image.new) workspace.old
        workspace.new }
{
    let windows = &mut workspace.windows;
    let at = read_summaries(geometry, image, &mut windows.table, group)?;
    let place = geometry.group_place(group);
    windows
        .current
        .fill(image, place, geometry.layout.cgsize as usize)?;
    let records = windows.table.window.bytes();
    let in_use = InUse {
        fragments: &workspace.used,
        kinds: &workspace.kinds,
    };
    Ok(compare_group(
        geometry,
        &in_use,
        counts,
        group,
        &records[at..at + RECORD_SIZE],
        windows.current.bytes(),
    ))
}

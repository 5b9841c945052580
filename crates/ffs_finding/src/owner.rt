//! `owner`: to what a fragment belongs.
ghost use Rattle.std.specs.Prelude.{◌≡◌, ◌+◌, ◌*◌, ◌/◌, ◌≤◌, ◌<◌, ◌^◌, length, true, slice_index, vec_len};
ghost use Rattle.ffs_image.specs.{Reads.ReadsAtMostOnce, Known.IsContents};
ghost use Rattle.ffs_volume.specs.{Disk.Areas.{group_place, is_reserved}, Blocks.Inodes.inode_of};
ghost use Rattle.ffs_volume.specs.{Encodings.Kinds.is_allocated_kind, Report.Reads.sweep_reads, Groups.Records.bit_at};
ghost use Rattle.ffs_volume.specs.Find.Owner.{keeper_text, keeper_lines, map_text, lines_of_fragment, part_text};
ghost use Rattle.ffs_volume.specs.{Find.Owner.{reserved_text, table_text}, Encodings.Notes.cut_in};
ghost use Rattle.ffs_report.specs.Sink.{Prints};
ghost use Rattle.ffs_walk.specs.{SeenRuns.indirect_in_run, Windows.{CanWalk, KeepsBlocks}};
ghost use Rattle.ffs_workspace.specs.Ready.{CanRead, IsReady, LeavesAllButWindows};
ghost use Rattle.ffs_check.specs.Moment.{moment};
ghost use Rattle.ffs_finding.specs.{Claims.WithBlocks, Outcome.Finds, Keepers.{CanFindKeeper, CanPrintMap, CanReadMap}};
ghost use Rattle.ffs_finding.specs.Keepers.{FindsKeeper, FindsAllKeepers, FindsKeptOffers, is_in_run, map_lines};
ghost use Rattle.ffs_finding.specs.{Keepers.{owner_reads, run_text, sought_in}, LostMaps.IsBlockWindow};
ghost use Rattle.ffs_maps.specs.Bits.{bits_of};

use crate::group_map::{is_marked_free, map_place};
use ffs_image::{Image, LimitedImage};
use ffs_layout::Geometry;
use ffs_report::print::{print, print_number, print_pieces};
use ffs_report::{OutFault, Output, Piece, RunFault};
use ffs_volume::Inode;
use ffs_volume::constants::{DINODE_SIZE, ROOTINO};
use ffs_walk::{Blocks, SeenRun, SeenRuns, Window};
use ffs_workspace::{Workspace, sweep_reads};

/// Prints which fragment of the inode table of a group this is, by its inodes.
fn print_table<W: Output>(
    out: &mut W,
    geometry: &Geometry,
    group: u32,
    index: u32,
) -> Result<(), OutFault>
    requires { group < geometry.now.layout.ncg }
    ensures { Prints (W.sink out.old) (W.sink out.new) (table_text geometry.now.layout group index)
        result }
{
    let inodes = u64::from(geometry.layout.ipg);
    let count = u64::from(geometry.layout.fsize) / DINODE_SIZE as u64;
    let before = u64::from(index) * count;
    if before >= inodes {
        return print_number(out, b"inode table of group ", u64::from(group), b"\n");
    }
    let first = u64::from(group) * inodes + before;
    print_pieces(
        out,
        &[
            Piece::Text(b"inode table of group "),
            Piece::Number(u64::from(group), b", inodes "),
            Piece::Number(first, b" to "),
            Piece::Number(first + count - 1, b"\n"),
        ],
    )
}

/// Prints which part of the metadata of a group a fragment belongs to.
#[tactic(auto, unfolding(ffs_volume::specs::Find::Owner::part_text))]
fn print_part<W: Output>(
    out: &mut W,
    geometry: &Geometry,
    group: u32,
    fragment: u32,
) -> Result<(), OutFault>
    requires { group < geometry.now.layout.ncg }
    ensures { Prints (W.sink out.old) (W.sink out.new)
        (part_text geometry.now.layout group fragment) result }
{
    let start = geometry.cgstart(group);
    if fragment < start + geometry.layout.cblkno {
        return print_number(out, b"superblock of group ", u64::from(group), b"\n");
    }
    let table = start + geometry.layout.iblkno;
    if fragment < table {
        return print_number(out, b"group block of group ", u64::from(group), b"\n");
    }
    print_table(out, geometry, group, fragment - table)
}

/// Prints what a reserved fragment belongs to.
#[tactic(auto, using(ffs_volume::proofs::AreaLaws::group_below), unfolding(ffs_volume::specs::Find::Owner::reserved_text))]
fn print_reserved<W: Output>(
    out: &mut W,
    geometry: &Geometry,
    fragment: u32,
) -> Result<(), OutFault>
    requires { fragment < geometry.now.layout.size }
    ensures { Prints (W.sink out.old) (W.sink out.new)
        (reserved_text geometry.now.layout fragment) result }
{
    if fragment < geometry.cgsblock(0) {
        return print(out, b"boot area\n");
    }
    let summary = geometry.layout.csaddr;
    let fragments = geometry.layout.cssize.div_ceil(geometry.layout.fsize);
    if summary <= fragment && fragment - summary < fragments {
        return print(out, b"summary\n");
    }
    print_part(out, geometry, fragment / geometry.layout.fpg, fragment)
}

/// Prints whether a fragment that nothing claims is free by the map of its group, or lost.
fn print_by_map<W: Output>(
    out: &mut W,
    geometry: &Geometry,
    block: &[u8],
    fragment: u32,
) -> Result<(), OutFault>
    requires { CanPrintMap geometry.now.layout block.now fragment }
    ensures { Prints (W.sink out.old) (W.sink out.new)
        (map_text geometry.now.layout block.now fragment) result }
{
    let group = fragment / geometry.layout.fpg;
    let Some(place) = map_place(geometry, block) else {
        return print_number(out, b"no map in group ", u64::from(group), b"\n");
    };
    let index = fragment - geometry.cgbase(group);
    if is_marked_free(block, place, index) {
        return print(out, b"free\n");
    }
    print(out, b"lost\n")
}

/// Reads the group block of a fragment that nothing claims, and prints whether it is free or lost.
fn find_unclaimed<I: Image, W: Output>(
    geometry: &Geometry,
    image: &mut I,
    window: &mut Window,
    fragment: u32,
    out: &mut W,
) -> Result<(), RunFault>
    requires { CanReadMap geometry.now.layout (I.device image.old) window.old fragment }
    ensures prints { Finds (IsContents (I.device image.old).contents)
        (λ bytes. map_lines geometry.now.layout bytes fragment)
        (moment I.Image W.Output image.old out.old) (moment I.Image W.Output image.new out.new)
        result }
    ensures window { IsBlockWindow geometry.now.layout (I.device image.new) window.new }
    ensures reads { I.reads image.new ≤ I.reads image.old + 1 }
    ensures asks { ReadsAtMostOnce I.was_read
        (group_place geometry.now.layout (fragment / geometry.now.layout.fpg))
        geometry.now.layout.cgsize image.old image.new }
{
    let place = geometry.group_place(fragment / geometry.layout.fpg);
    window.fill(image, place, geometry.layout.cgsize as usize)?;
    print_by_map(out, geometry, window.bytes(), fragment)?;
    Ok(())
}

/// A fragment, and an inode that may keep an offer of it.
#[derive(Clone, Copy, Debug)]
struct Sought {
    fragment: u32,
    /// The number of the inode.
    number: u32,
    /// The cut of the inode.
    cut: u32,
}

/// Prints the line of a Run, where the fragment is one of those that are kept. `earlier` counts the
/// indirect blocks of the inode before it.
fn print_run<W: Output>(
    out: &mut W,
    sought: Sought,
    earlier: u64,
    run: SeenRun,
) -> Result<(), OutFault>
    requires { earlier + 1 < 2 ^ 64 }
    ensures { Prints (W.sink out.old) (W.sink out.new) (run_text sought earlier run) result }
{
    if sought.fragment < run.start || sought.fragment - run.start >= run.kept {
        return Ok(());
    }
    let number = u64::from(sought.number);
    let (text, value): (&[u8], u64) = match run.block {
        Some(block) => (b" block ", block),
        None => (b" indirect block ", earlier + 1),
    };
    print_pieces(
        out,
        &[
            Piece::Text(b"inode "),
            Piece::Number(number, text),
            Piece::Number(value, b"\n"),
        ],
    )
}

/// 1 for the Run of an indirect block, else 0.
fn indirect_in(run: SeenRun) -> u64
    ensures { result ≡ indirect_in_run run }
{
    match run.block {
        None => 1,
        Some(_) => 0,
    }
}

/// Walks over the blocks of an inode, and prints a line for each offer of the fragment that it
/// keeps.
#[tactic(auto, using(crate::proofs::Walking::blocks_then))]
fn find_kept_offers<I: Image, W: Output>(
    geometry: &Geometry,
    image: &mut I,
    blocks: &mut Blocks,
    sought: Sought,
    inode: &Inode,
    out: &mut W,
) -> Result<(), RunFault>
    requires { CanWalk geometry.now.layout (I.device image.old) blocks.old }
    ensures finds { FindsKeptOffers geometry.now.layout sought inode.now
        (moment I.Image W.Output image.old out.old) (moment I.Image W.Output image.new out.new)
        result }
    ensures blocks { KeepsBlocks geometry.now.layout (I.device image.new).contents blocks.old
        blocks.new }
{
    let mut runs = SeenRuns::start(geometry, inode, sought.cut);
    let mut earlier = 0;
    while let Some(run) = runs.next(image, blocks)? {
        print_run(out, sought, earlier, run)?;
        earlier += indirect_in(run);
    }
    Ok(())
}

/// Reads an inode, and prints a line for each offer of the fragment that it keeps.
fn find_keeper<I: Image, W: Output>(
    geometry: &Geometry,
    image: &mut I,
    workspace: &mut Workspace,
    fragment: u32,
    number: u32,
    out: &mut W,
) -> Result<(), RunFault>
    requires { CanFindKeeper geometry.now.layout (I.device image.old) workspace.old number }
    ensures finds { FindsKeeper geometry.now.layout (sought_in fragment number workspace.old)
        (moment I.Image W.Output image.old out.old) (moment I.Image W.Output image.new out.new)
        result }
    ensures stays { LeavesAllButWindows geometry.now.layout (I.device image.new) workspace.old
        workspace.new }
{
    let windows = &mut workspace.windows;
    let inode = windows.table.inode(geometry, number, image)?;
    let cut = workspace.noted_cut(number);
    let sought = Sought {
        fragment,
        number,
        cut,
    };
    let blocks = &mut workspace.windows.blocks;
    find_kept_offers(geometry, image, blocks, sought, &inode, out)
}

/// Whether an inode is allocated, as phase 1 found it: no other one has blocks.
fn is_allocated(workspace: &Workspace, number: u32) -> bool
    requires { number < vec_len workspace.now.kinds }
    ensures { result ≡ is_allocated_kind (slice_index workspace.now.kinds.items number) }
{
    workspace.kinds[number as usize] != 0
}

/// As `find_keepers`, with no limit on reads.
fn find_keepers_unlimited<I: Image, W: Output>(
    geometry: &Geometry,
    image: &mut I,
    workspace: &mut Workspace,
    fragment: u32,
    out: &mut W,
) -> Result<(), RunFault>
    requires { CanRead geometry.now.layout (I.device image.old) workspace.old }
    ensures finds { FindsAllKeepers geometry.now.layout fragment workspace.old
        (moment I.Image W.Output image.old out.old) (moment I.Image W.Output image.new out.new)
        result }
    ensures stays { LeavesAllButWindows geometry.now.layout (I.device image.new) workspace.old
        workspace.new }
{
    for number in ROOTINO..geometry.inodes() {
        if !is_allocated(workspace, number) {
            continue;
        }
        find_keeper(geometry, image, workspace, fragment, number, out)?;
    }
    Ok(())
}

/// Prints a line for each kept offer of the fragment. No more reads are made than those of a sweep
/// (`sweep_reads`).
fn find_keepers<I: Image, W: Output>(
    geometry: &Geometry,
    image: &mut I,
    workspace: &mut Workspace,
    fragment: u32,
    out: &mut W,
) -> Result<(), RunFault>
    requires { CanRead geometry.now.layout (I.device image.old) workspace.old }
    ensures prints { Finds (WithBlocks geometry.now.layout (I.device image.old) workspace.old)
        (λ bytes. keeper_lines geometry.now.layout bytes fragment)
        (moment I.Image W.Output image.old out.old) (moment I.Image W.Output image.new out.new)
        result }
    ensures stays { LeavesAllButWindows geometry.now.layout (I.device image.new) workspace.old
        workspace.new }
    ensures reads { I.reads image.new ≤ I.reads image.old + sweep_reads geometry.now.layout }
{
    let mut limited = LimitedImage::new(image, sweep_reads(geometry));
    let found = find_keepers_unlimited(geometry, &mut limited, workspace, fragment, out);
    if limited.is_spent() {
        // See `LimitedImage`: bytes that stay never ask for so many reads.
        return Ok(());
    }
    found
}

/// Prints to what a fragment belongs: what it is where it is reserved, else the inodes that keep an
/// offer of it, ascending, each with the logical block or the indirect block, else whether the map
/// of its cylinder group (fs(5)) has it as free, or it is lost. Nothing is printed for a fragment
/// that the volume doesn't have.
///
/// The contract gives the lines only for a workspace that holds what phase 1 found of blocks, also
/// where later phases ran in it. It is left ready, and all of it but its windows as it was: more
/// can be found in it. Nothing is read for a fragment that is reserved, or that the volume
/// doesn't have; just its group's block for one that isn't used; for another one no more than a
/// sweep over all inodes reads.
///
/// # Errors
/// A read of the image that failed, and a write that failed.
pub fn find_owner<I: Image, W: Output>(
    geometry: &Geometry,
    image: &mut I,
    workspace: &mut Workspace,
    fragment: u32,
    out: &mut W,
) -> Result<(), RunFault>
    requires ready { IsReady geometry.now.layout (I.device image.old) workspace.old }
    ensures prints { Finds (WithBlocks geometry.now.layout (I.device image.old) workspace.old)
        (λ bytes. lines_of_fragment geometry.now.layout bytes fragment)
        (moment I.Image W.Output image.old out.old) (moment I.Image W.Output image.new out.new)
        result }
    ensures leaves { workspace.new ≡ record workspace.old { windows = workspace.new.windows } }
    ensures reads { I.reads image.new ≤ I.reads image.old
        + owner_reads geometry.now.layout (bits_of workspace.old.used) fragment }
    ensures ready { IsReady geometry.now.layout (I.device image.new) workspace.new }
{
    if fragment >= geometry.layout.size {
        return Ok(());
    }
    if geometry.reserved(fragment) {
        print_reserved(out, geometry, fragment)?;
        return Ok(());
    }
    workspace.forget_windows();
    if workspace.used.get(fragment) {
        return find_keepers(geometry, image, workspace, fragment, out);
    }
    let window = &mut workspace.windows.current;
    find_unclaimed(geometry, image, window, fragment, out)
}

//! `lost`: where the maps of the groups say otherwise than what is used.
ghost use Rattle.std.specs.Prelude.{◌≡◌, ◌+◌, ◌*◌, ◌≤◌};
ghost use Rattle.ffs_maps.specs.Bits.{bits_of};
ghost use Rattle.ffs_groups.specs.Free.{free_in};
ghost use Rattle.ffs_report.specs.{Fails.FailsIn, Sink.Prints};
ghost use Rattle.ffs_workspace.specs.Ready.{IsReady};
ghost use Rattle.ffs_check.specs.Moment.{moment};
ghost use Rattle.ffs_finding.specs.{Claims.WithBlocks, Outcome.{FindsAny, PrintsWhether}, LostMaps.{CanReadGroups, word_of}};
ghost use Rattle.ffs_finding.specs.LostMaps.{CanSayGroup, FailsForLost, FindsWrong, IsBlockWindow, IsComparedMap};
ghost use Rattle.ffs_finding.specs.LostMaps.{IsInMap, IsInMapOrEnd, IsNext, is_wrong_at, lines_of_group, no_map_lines};
ghost use Rattle.ffs_volume.specs.Find.Lost.{lost_lines, range_text, stretch_lines};

use crate::group_map::{fill_group, is_marked_free, map_place};
use ffs_groups::{group_fragments, same_fragment_map};
use ffs_image::Image;
use ffs_layout::Geometry;
use ffs_maps::FragmentMap;
use ffs_report::print::{print_number, print_pieces};
use ffs_report::{OutFault, Output, Piece, RunFault};
use ffs_walk::Window;
use ffs_workspace::Workspace;

/// How the map of a group is wrong about a fragment.
#[derive(Clone, Copy)]
enum Wrong {
    /// It marks it as used, though it is neither reserved nor claimed.
    Lost,
    /// It marks it as free, though it is reserved or claimed.
    MarkedFree,
}

impl Wrong {
    /// The word before the fragments.
    fn word(self) -> &'static [u8]
        ensures { result.now ≡ word_of self }
    {
        match self {
            Wrong::Lost => b"lost ",
            Wrong::MarkedFree => b"used and marked free ",
        }
    }
}

/// The map of a group, and the fragments that are used, with which it is compared.
#[derive(Clone, Copy)]
struct ComparedMap<'a> {
    /// The fragments of the volume that are reserved or claimed.
    used: &'a FragmentMap,
    /// The first fragment of the group.
    base: u32,
    /// The fragment after its last one.
    end: u32,
    /// The group block.
    block: &'a [u8],
    /// Where the map begins in the block, in bytes.
    place: u32,
}

/// Whether the map is wrong about a fragment of the group in this way.
fn is_wrong(map: &ComparedMap<'_>, how: Wrong, fragment: u32) -> bool
    requires { IsInMap map.now fragment }
    ensures { result ≡ is_wrong_at how map.now fragment }
{
    let free = !map.used.get(fragment);
    let marked = is_marked_free(map.block, map.place, fragment - map.base);
    match how {
        Wrong::Lost => free && !marked,
        Wrong::MarkedFree => marked && !free,
    }
}

/// The first fragment of the group, from one on, of which `is_wrong` is `wanted`, and the one after
/// the group's last where there is none.
fn first_with(map: &ComparedMap<'_>, how: Wrong, from: u32, wanted: bool) -> u32
    requires { IsInMapOrEnd map.now from }
    ensures { IsNext (is_wrong_at how map.now) wanted from map.now.end result }
{
    for fragment in from..map.end {
        if is_wrong(map, how, fragment) == wanted {
            return fragment;
        }
    }
    map.end
}

/// Prints the line of the fragments from one to another one, after a word.
fn print_range<W: Output>(out: &mut W, word: &[u8], first: u32, last: u32) -> Result<(), OutFault>
    ensures { Prints (W.sink out.old) (W.sink out.new) (range_text word.now first last) result }
{
    if first == last {
        return print_number(out, word, u64::from(first), b"\n");
    }
    print_pieces(
        out,
        &[
            Piece::Text(word),
            Piece::Number(u64::from(first), b" to "),
            Piece::Number(u64::from(last), b"\n"),
        ],
    )
}

/// Prints the ranges of the fragments of a group about which its map is wrong in this way.
fn print_ranges<W: Output>(out: &mut W, map: &ComparedMap<'_>, how: Wrong) -> Result<bool, OutFault>
    requires { IsComparedMap map.now }
    ensures { PrintsWhether (stretch_lines (word_of how) (is_wrong_at how map.now) map.now.base
        map.now.end) (W.sink out.old) (W.sink out.new) result }
{
    let mut any = false;
    let mut first = first_with(map, how, map.base, true);
    while first < map.end {
        let end = first_with(map, how, first, false);
        print_range(out, how.word(), first, end - 1)?;
        any = true;
        first = first_with(map, how, end, true);
    }
    Ok(any)
}

/// Prints that a group has no map, in the pass over lost fragments alone, so once.
fn print_no_map<W: Output>(out: &mut W, group: u32, how: Wrong) -> Result<bool, OutFault>
    ensures { PrintsWhether (no_map_lines how group) (W.sink out.old) (W.sink out.new) result }
{
    match how {
        Wrong::Lost => {
            print_number(out, b"no map in group ", u64::from(group), b"\n")?;
            Ok(true)
        }
        Wrong::MarkedFree => Ok(false),
    }
}

/// Prints where the map of a group is wrong in this way, and returns whether there was a line.
fn print_group<W: Output>(
    out: &mut W,
    geometry: &Geometry,
    used: &FragmentMap,
    group: u32,
    block: &[u8],
    how: Wrong,
) -> Result<bool, OutFault>
    requires { CanSayGroup geometry.now.layout used.now.size group block.now }
    ensures { PrintsWhether (lines_of_group how geometry.now.layout
        (free_in (bits_of used.now) geometry.now.layout.size) group block.now) (W.sink out.old)
        (W.sink out.new) result }
{
    let Some(place) = map_place(geometry, block) else {
        return print_no_map(out, group, how);
    };
    // Most maps are right: then no fragment is looked at by itself.
    if same_fragment_map(geometry, used, group, block, place) {
        return Ok(false);
    }
    let base = geometry.cgbase(group);
    let map = ComparedMap {
        used,
        base,
        end: base + group_fragments(geometry, group),
        block,
        place,
    };
    print_ranges(out, &map, how)
}

/// Reads the blocks of all groups, and prints where their maps are wrong in this way.
fn find_wrong<I: Image, W: Output>(
    geometry: &Geometry,
    image: &mut I,
    used: &FragmentMap,
    window: &mut Window,
    how: Wrong,
    out: &mut W,
) -> Result<bool, RunFault>
    requires { CanReadGroups geometry.now.layout (I.device image.old) used.now.size window.old }
    ensures prints { FindsWrong how geometry.now.layout
        (free_in (bits_of used.now) geometry.now.layout.size)
        (moment I.Image W.Output image.old out.old) (moment I.Image W.Output image.new out.new)
        result }
    ensures window { IsBlockWindow geometry.now.layout (I.device image.new) window.new }
{
    let mut any = false;
    for group in 0..geometry.layout.ncg {
        fill_group(geometry, image, window, group)?;
        let found = print_group(out, geometry, used, group, window.bytes(), how)?;
        any |= found;
    }
    Ok(any)
}

/// Prints the fragments that the maps of the groups mark as used and that are neither reserved nor
/// claimed, as ascending ranges, and a line for each group that has no map. Then those that are
/// reserved or claimed and marked as free. Returns whether there was a line.
///
/// The contract gives the lines only for a workspace that holds what phase 1 found of blocks, also
/// where later phases ran in it. It is left ready, and all of it but its windows as it was: more
/// can be found in it. Each group's block is read at most twice; where that can't be read, just the
/// lines before those of this group were printed.
///
/// # Errors
/// A read of the image that failed, and a write that failed.
pub fn find_lost<I: Image, W: Output>(
    geometry: &Geometry,
    image: &mut I,
    workspace: &mut Workspace,
    out: &mut W,
) -> Result<bool, RunFault>
    requires ready { IsReady geometry.now.layout (I.device image.old) workspace.old }
    ensures prints { FindsAny (WithBlocks geometry.now.layout (I.device image.old) workspace.old)
        (λ bytes. lost_lines geometry.now.layout bytes) (moment I.Image W.Output image.old out.old)
        (moment I.Image W.Output image.new out.new) result }
    ensures leaves { workspace.new ≡ record workspace.old { windows = workspace.new.windows } }
    ensures reads { I.reads image.new ≤ I.reads image.old + 2 * geometry.now.layout.ncg }
    ensures before_fault { FailsIn (FailsForLost
        (WithBlocks geometry.now.layout (I.device image.old) workspace.old) geometry.now.layout
        (I.reads image.old) (W.sink out.old) (moment I.Image W.Output image.new out.new)) result }
    ensures ready { IsReady geometry.now.layout (I.device image.new) workspace.new }
{
    workspace.forget_windows();
    let Workspace { used, windows, .. } = workspace;
    let window = &mut windows.current;
    let lost = find_wrong(geometry, image, used, window, Wrong::Lost, out)?;
    let free = find_wrong(geometry, image, used, window, Wrong::MarkedFree, out)?;
    Ok(lost | free)
}

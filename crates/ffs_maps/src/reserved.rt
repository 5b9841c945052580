//! The reserved fragments of a volume: which they are, and how many.

ghost use Rattle.std.specs.Prelude.{ℕ, ◌≡◌, ◌+◌, ◌-◌, ◌*◌, ◌%◌, ◌<◌, ◌≤◌, ◌&&◌, count_by, cond, Some};
ghost use Rattle.std.specs.{List.range_with_len, Int.bit_at};
ghost use Rattle.ffs_volume.specs.Disk.Areas.{is_reserved};
ghost use Rattle.ffs_maps.specs.{Reserved.{IsReservedRun, IsStretch, is_between}, Words.reserved_bits};

use ffs_layout::Geometry;

/// Where the reserved fragments of a group begin and end. They lie together: in the first group all
/// before the end of the summary area, in another what the group keeps for itself.
#[tactic(auto, using(crate::proofs::Runs::first_run, crate::proofs::Runs::other_run))]
pub(crate) fn reserved_run(geometry: &Geometry, group: u32) -> (u32, u32)
    requires { group < geometry.now.layout.ncg }
    ensures { IsReservedRun geometry.now.layout group result.0 result.1 }
{
    if group == 0 {
        let summary = geometry.layout.cssize.div_ceil(geometry.layout.fsize);
        return (0, geometry.layout.csaddr + summary);
    }
    (geometry.cgsblock(group), geometry.cgdmin(group))
}

/// How many fragments are reserved.
#[tactic(auto, using(crate::proofs::Runs::groups_begin, crate::proofs::Runs::groups_end, crate::proofs::Runs::group_more, crate::proofs::Counting::count_within))]
pub fn reserved_count(geometry: &Geometry) -> u32
    ensures { result ≡ count_by (is_reserved geometry.now.layout)
        (range_with_len 0 geometry.now.layout.size) }
{
    let mut count = 0;
    for group in 0..geometry.layout.ncg {
        let (first, end) = reserved_run(geometry, group);
        count += end - first;
    }
    count
}

/// Fragments up to an end that are all reserved, or of which none is.
#[derive(Clone, Copy, Debug)]
pub(crate) struct Stretch {
    /// Whether they are reserved.
    pub(crate) reserved: bool,
    /// The fragment after the last one.
    pub(crate) end: u32,
}

/// A stretch from a fragment on, within its group.
#[tactic(auto, unfolding(ffs_volume::specs::Disk::Areas::cgbase))]
pub(crate) fn stretch_from(geometry: &Geometry, fragment: u32) -> Stretch
    requires { fragment < geometry.now.layout.size }
    ensures { IsStretch geometry.now.layout fragment result }
{
    let layout = &geometry.layout;
    let group = fragment / layout.fpg;
    let (first, last) = reserved_run(geometry, group);
    if fragment < first {
        return Stretch {
            reserved: false,
            end: first,
        };
    }
    if fragment < last {
        return Stretch {
            reserved: true,
            end: last,
        };
    }
    let base = geometry.cgbase(group);
    Stretch {
        reserved: false,
        end: base + layout.fpg.min(layout.size - base),
    }
}

/// How many of the fragments from `start` on and below `end` are reserved.
#[tactic(auto, using(crate::proofs::Counting::count_within))]
pub(crate) fn reserved_among(geometry: &Geometry, start: u32, end: u32) -> u32
    requires { start ≤ end }
    ensures { result ≡ count_by (is_reserved geometry.now.layout)
        (range_with_len start (end - start)) }
{
    // None from the volume's end on is.
    let limit = end.min(geometry.layout.size);
    let mut count = 0;
    let mut fragment = start;
    while fragment < limit {
        let stretch = stretch_from(geometry, fragment);
        let next = stretch.end.min(limit);
        if stretch.reserved {
            count += next - fragment;
        }
        fragment = next;
    }
    count
}

/// The bits of a word from `start` on and below `end`, which are numbered from 0, where `set`; else
/// none.
fn bits_between(start: u32, end: u32, set: bool) -> u64
    requires { (start < end) × (end ≤ 64) }
    ensures { (k : ℕ) → bit_at result k ≡ cond (set && is_between start end k) 1 0 }
{
    if !set {
        return 0;
    }
    (u64::MAX >> (64 - (end - start))) << start
}

/// The word at an index of a map that has the bits of the reserved fragments.
pub(crate) fn reserved_word(geometry: &Geometry, index: u32) -> u64
    requires { 64 * index < geometry.now.layout.size }
    ensures { result ≡ reserved_bits (Some geometry.now) index }
{
    let start = 64 * index;
    let limit = geometry.layout.size.min(start + 64);
    let mut word = 0;
    let mut fragment = start;
    while fragment < limit {
        let stretch = stretch_from(geometry, fragment);
        let next = stretch.end.min(limit);
        word |= bits_between(fragment - start, next - start, stretch.reserved);
        fragment = next;
    }
    word
}

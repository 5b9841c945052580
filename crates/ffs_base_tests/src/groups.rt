//! The counts and the findings of a group that a reader would work out by hand.

ghost use Rattle.std.specs.Prelude.{◌≡◌, IfOk};

use crate::compare::same;
use ffs_groups::{
    GroupFindings, InUse, all_or_none_allocated, compare_group, group_counts, group_fragments,
    same_fragment_map,
};
use ffs_layout::Order;
use ffs_maps::FragmentMap;
use ffs_samples::{Number, geometry, put};
use std::alloc::{AllocError, Global};
use std::test::Fail;

/// The words of its group block that aren't 0, by their place.
static BLOCK: [Number; 13] = [
    (4, 4, 0x00090255),
    (20, 4, 128),
    (24, 4, 1),
    (28, 4, 22),
    (32, 4, 29),
    (36, 4, 6),
    (64, 4, 2),
    (92, 4, 168),
    (96, 4, 172),
    (168, 4, 0x00000007),
    (176, 4, 0xffffffee),
    (180, 4, 0xffffffff),
    (184, 4, 0xffffffff),
];

fn reported(findings: GroupFindings) -> [bool; 4] {
    [
        findings.magic_right,
        findings.counts_right,
        findings.maps_right,
        findings.sums_right,
    ]
}

/// The root alone, whose chunk is fragment 36: 33 to 35 and 37 to 39 are free, and 22 whole blocks.
fn used_by_root(alloc: Global) -> Result<FragmentMap, AllocError>
    ensures { IfOk result (λ map. map.size ≡ 128) }
{
    let mut used = FragmentMap::new(alloc, 128)?;
    used.set_run(0, 33);
    used.set(36);
    Ok(used)
}

fn kinds_of_root() -> [u8; 32] {
    let mut kinds = [0; 32];
    kinds[2] = 4;
    kinds
}

/// A summary record with these counts, and the group block with this word in place of its own.
fn records(summary: [u8; 4], wrong: Number) -> ([u8; 16], [u8; 1024]) {
    let [dirs, blocks, inodes, fragments] = summary;
    let record = [
        dirs, 0, 0, 0, blocks, 0, 0, 0, inodes, 0, 0, 0, fragments, 0, 0, 0,
    ];
    let mut block = [0; 1024];
    put(Order::Little, &mut block, &BLOCK);
    put(Order::Little, &mut block, &[wrong]);
    (record, block)
}

/// The counts of the summary, and of stretches of free fragments.
fn counts_of_root(alloc: Global) -> Result<([u32; 4], [u64; 9]), Fail> {
    let geometry = geometry(Order::Little)?;
    let used = used_by_root(alloc)?;
    let counts = group_counts(&geometry, &used, &kinds_of_root(), 0);
    let found = counts.summary;
    let summary = [found.dirs, found.blocks, found.inodes, found.fragments];
    let frsum = counts.frsum;
    Ok((summary, frsum))
}

#[test]
fn counts_of_a_root(rt: HostRuntime) -> Result<(), Fail> {
    let (summary, frsum) = counts_of_root(rt.alloc())?;
    same(&rt, &summary, &[1, 22, 29, 6]);
    same(&rt, &frsum, &[0, 0, 0, 2, 0, 0, 0, 0, 0]);
    Ok(())
}

/// What is found of the root's group with this summary record, and this word in its group block.
fn findings(summary: [u8; 4], wrong: Number, alloc: Global) -> Result<[bool; 4], Fail> {
    let geometry = geometry(Order::Little)?;
    let used = used_by_root(alloc)?;
    let kinds = kinds_of_root();
    let counts = group_counts(&geometry, &used, &kinds, 0);
    let (record, block) = records(summary, wrong);
    let in_use = InUse {
        fragments: &used,
        kinds: &kinds,
    };
    let right = compare_group(&geometry, &in_use, &counts, 0, &record, &block);
    Ok(reported(right))
}

/// How many fragments the root's group has, and whether the map of free ones at byte 172 of its
/// block, with this word there, is right.
fn fragment_map(wrong: Number, alloc: Global) -> Result<(u32, bool), Fail> {
    let geometry = geometry(Order::Little)?;
    let used = used_by_root(alloc)?;
    let (_, block) = records([0; 4], wrong);
    let right = geometry.layout.fpg == 128 && same_fragment_map(&geometry, &used, 0, &block, 172);
    Ok((group_fragments(&geometry, 0), right))
}

/// Fragment 32 is used and 33 is free.
#[test]
fn fragment_map_of_a_root(rt: HostRuntime) -> Result<(), Fail> {
    let right = fragment_map((176, 4, 0xffff_ffee), rt.alloc())?;
    same(&rt, &right, &(128, true));
    let used_as_free = fragment_map((176, 4, 0xffff_ffef), rt.alloc())?;
    same(&rt, &used_as_free, &(128, false));
    let free_as_used = fragment_map((176, 4, 0xffff_ffec), rt.alloc())?;
    same(&rt, &free_as_used, &(128, false));
    Ok(())
}

#[test]
fn kinds_that_agree(rt: HostRuntime) {
    same(&rt, &all_or_none_allocated(&[8, 4, 10, 15]), &Some(true));
    same(&rt, &all_or_none_allocated(&[0, 0, 0]), &Some(false));
    same(&rt, &all_or_none_allocated(&[8, 0, 8]), &None);
}

/// Summary records, words of the group block, and what is found.
static CASES: [([u8; 4], Number, [bool; 4]); 6] = [
    ([1, 22, 29, 6], (4, 4, 0x00090255), [true, true, true, true]),
    ([1, 22, 29, 6], (4, 4, 0), [false, true, true, true]),
    (
        [1, 22, 29, 5],
        (4, 4, 0x00090255),
        [true, false, true, true],
    ),
    (
        [1, 22, 29, 6],
        (168, 4, 0x00000003),
        [true, true, false, true],
    ),
    (
        [1, 22, 29, 6],
        (184, 4, 0x7fffffff),
        [true, true, false, true],
    ),
    ([1, 22, 29, 6], (64, 4, 1), [true, true, true, false]),
];

#[test]
fn findings_of_a_root(rt: HostRuntime) -> Result<(), Fail> {
    for (summary, wrong, right) in &CASES {
        same(&rt, &findings(*summary, *wrong, rt.alloc())?, right);
    }
    Ok(())
}

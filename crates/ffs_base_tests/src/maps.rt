//! Bits of maps that a reader would work out by hand.

use crate::compare::same;
use ffs_layout::{Geometry, Order, SuperFault};
use ffs_maps::{FragmentMap, reserved_count};
use ffs_samples::geometry;
use std::alloc::AllocError;
use std::process::Abort;
use std::test::Fail;

/// A run of bits: its first one, and how many there are.
type Run = (u32, u32);

/// A call on a map, or a look at all its bits.
#[derive(Clone, Copy)]
enum Call {
    /// How many bytes the map takes.
    Held,
    /// Sets a bit.
    Set(u32),
    /// Clears a bit.
    Clear(u32),
    /// Sets a run.
    SetRun(u32, u32),
    /// Sets the bits of the reserved fragments of a volume of many groups.
    Reserve,
    /// Claims a run: 1 where it is claimed, and else 0.
    Claim(u32, u32),
    /// The word of bits that are clear from a place on.
    ClearBits(u64),
    /// How many bits are set from a place up to another one.
    Count(u32, u32),
    /// How many bits are set.
    CountOnes,
    /// 1 where the bits that are set are those of these runs, and else 0.
    Bits(&'static [Run]),
}

/// A call, and its answer: 0 where it has none.
type Answered = (Call, u64);

/// Whether one of these runs has this bit.
fn is_in(runs: &[Run], bit: u32) -> bool {
    for &(start, len) in runs {
        if start <= bit && bit - start < len {
            return true;
        }
    }
    false
}

/// Whether the bits that are set are those of these runs.
fn has_bits(map: &FragmentMap, runs: &[Run]) -> bool {
    for bit in 0..map.size {
        if map.get(bit) != is_in(runs, bit) {
            return false;
        }
    }
    true
}

/// The answer of a call that changes nothing.
fn looked(map: &FragmentMap, call: Call) -> Option<u64> {
    match call {
        Call::Held => Some(map.held()),
        Call::ClearBits(start) => Some(map.clear_bits(start)),
        Call::Count(start, end) => {
            if start > end || end > map.size {
                return None;
            }
            Some(u64::from(map.count(start, end)))
        }
        Call::CountOnes => Some(u64::from(map.count_ones())),
        Call::Bits(runs) => Some(u64::from(has_bits(map, runs))),
        _ => None,
    }
}

/// How many groups the volume of many groups has.
const GROUPS: u32 = 400;

/// How many fragments each of them has.
const GROUP: u32 = 100;

/// Its geometry. Group c keeps 16 fragments from 100 c + 4 (c % 4) + 16 on, but for group 0: there
/// the first 39 are reserved, up to the end of the summary area. In all 39 + 399 * 16 = 6,423 are.
fn many_groups() -> Result<Geometry, SuperFault> {
    let mut layout = geometry(Order::Little)?.layout;
    layout.size = GROUPS * GROUP;
    layout.ncg = GROUPS;
    layout.ncyl = GROUPS;
    layout.fpg = GROUP;
    layout.cssize = 16 * GROUPS;
    layout.cgoffset = 4;
    layout.cgmask = 0xffff_fffc;
    Geometry::new(layout, 1024 * 100 * 400)
}

/// The answer of a call that changes bits.
fn changed(map: &mut FragmentMap, geometry: &Geometry, call: Call) -> Option<u64> {
    let size = map.size;
    match call {
        Call::Set(bit) if bit < size => map.set(bit),
        Call::Clear(bit) if bit < size => map.clear(bit),
        Call::Reserve if size == geometry.layout.size => map.reserve(geometry),
        Call::SetRun(start, len) if start <= size && len <= size - start => map.set_run(start, len),
        Call::Claim(start, len) if 0 < len && start <= size && len <= size - start => {
            return Some(u64::from(map.claim(start, len)));
        }
        _ => return None,
    }
    Some(0)
}

/// Makes calls on a new map of so many bits, and compares their answers.
fn answers(
    rt: &(impl Abort + AllocGlobal),
    geometry: &Geometry,
    size: u32,
    calls: &[Answered],
) -> Result<(), AllocError> {
    let mut map = FragmentMap::new(rt.alloc(), size)?;
    for (index, (call, wanted)) in calls.iter().enumerate() {
        let found = match looked(&map, *call) {
            None => changed(&mut map, geometry, *call),
            found => found,
        };
        same(rt, &(index, found), &(index, Some(*wanted)));
    }
    Ok(())
}

/// Single bits.
const SINGLE: [Answered; 6] = [
    (Call::Held, 24),
    (Call::Bits(&[]), 1),
    (Call::Set(64), 0),
    (Call::Bits(&[(64, 1)]), 1),
    (Call::Clear(64), 0),
    (Call::Bits(&[]), 1),
];

/// The run 62 to 66 lies in two words.
const IN_TWO_WORDS: [Answered; 4] = [
    (Call::SetRun(62, 5), 0),
    (Call::Bits(&[(62, 5)]), 1),
    (Call::ClearBits(60), 0xffff_ffff_ffff_ff83),
    (Call::ClearBits(128), 3),
];

/// Runs of more than a word, 60 to 199 and 300 to 319, and how many of their bits are in others.
const LONGER: [Answered; 11] = [
    (Call::SetRun(60, 140), 0),
    (Call::SetRun(300, 20), 0),
    (Call::Bits(&[(60, 140), (300, 20)]), 1),
    (Call::Count(0, 500), 160),
    (Call::Count(0, 60), 0),
    (Call::Count(59, 61), 1),
    (Call::Count(64, 192), 128),
    (Call::Count(130, 130), 0),
    (Call::Count(199, 301), 2),
    (Call::Count(320, 500), 0),
    (Call::Count(61, 63), 2),
];

/// Claims beside bits that are set, and over one.
const CLAIMS: [Answered; 5] = [
    (Call::Claim(8, 4), 1),
    (Call::Claim(10, 4), 0),
    (Call::Claim(127, 1), 1),
    (Call::Bits(&[(8, 4), (127, 1)]), 1),
    (Call::Claim(64, 64), 0),
];

/// A claim of a whole word.
const WHOLE_WORD: [Answered; 2] = [(Call::Claim(64, 64), 1), (Call::Bits(&[(64, 64)]), 1)];

/// Bits that are set twice, cleared twice and claimed: 5, 64 to 127, and the last two.
const ONES: [Answered; 17] = [
    (Call::CountOnes, 0),
    (Call::Set(5), 0),
    (Call::Set(5), 0),
    (Call::CountOnes, 1),
    (Call::SetRun(70, 30), 0),
    (Call::SetRun(64, 64), 0),
    (Call::CountOnes, 65),
    (Call::Claim(127, 2), 0),
    (Call::Claim(64, 1), 0),
    (Call::CountOnes, 65),
    (Call::Claim(128, 2), 1),
    (Call::CountOnes, 67),
    (Call::Clear(129), 0),
    (Call::Clear(129), 0),
    (Call::Clear(6), 0),
    (Call::CountOnes, 66),
    (Call::Bits(&[(5, 1), (64, 65)]), 1),
];

/// Parts whose words are all set, all clear, and neither: the bits up to 255 are set, and 300 to
/// 319.
const ALIKE_WORDS: [Answered; 7] = [
    (Call::SetRun(0, 256), 0),
    (Call::SetRun(300, 20), 0),
    (Call::Count(0, 256), 256),
    (Call::Count(64, 192), 128),
    (Call::Count(320, 640), 0),
    (Call::Count(0, 640), 276),
    (Call::CountOnes, 276),
];

/// The reserved fragments, before any is claimed and after claims in the first page of words, which
/// ends before fragment 32,768, and in the second one.
const RESERVED: [Answered; 28] = [
    (Call::Reserve, 0),
    (Call::CountOnes, 6423),
    (Call::Count(0, 40_000), 6423),
    (Call::Count(0, 200), 55),
    (Call::Count(130, 230), 12),
    (Call::Count(128, 192), 8),
    (Call::Count(39_930, 39_940), 10),
    (Call::ClearBits(0), 0xffff_ff80_0000_0000),
    (Call::ClearBits(100), 0xffff_fff0_000f_ffff),
    (Call::ClearBits(32_768), 0x0000_ffff_ffff_ffff),
    (Call::Claim(125, 2), 0),
    (Call::Claim(136, 4), 1),
    (Call::CountOnes, 6427),
    (Call::Count(0, 200), 59),
    (Call::Count(0, 40_000), 6427),
    (Call::Count(32_700, 32_900), 32),
    (Call::ClearBits(100), 0xffff_ff00_000f_ffff),
    (Call::ClearBits(32_748), u64::MAX),
    (Call::ClearBits(32_768), 0x0000_ffff_ffff_ffff),
    (Call::Claim(39_930, 1), 0),
    (Call::Claim(39_944, 8), 1),
    (Call::Count(39_900, 40_000), 24),
    (Call::Count(32_700, 32_900), 32),
    (Call::ClearBits(32_768), 0x0000_ffff_ffff_ffff),
    (Call::Clear(39_945), 0),
    (Call::Clear(39_943), 0),
    (Call::CountOnes, 6433),
    (Call::Count(0, 40_000), 6433),
];

/// Reserved fragments in a map that has other bits.
const RESERVED_LATER: [Answered; 7] = [
    (Call::Set(5), 0),
    (Call::Set(150), 0),
    (Call::Reserve, 0),
    (Call::CountOnes, 6424),
    (Call::Count(100, 200), 17),
    (Call::ClearBits(100), 0xfffb_fff0_000f_ffff),
    (Call::Count(39_900, 40_000), 16),
];

/// The bits of a map, and calls on it.
static MAPS: [(u32, &[Answered]); 9] = [
    (130, &SINGLE),
    (130, &IN_TWO_WORDS),
    (500, &LONGER),
    (130, &CLAIMS),
    (130, &WHOLE_WORD),
    (130, &ONES),
    (640, &ALIKE_WORDS),
    (40_000, &RESERVED),
    (40_000, &RESERVED_LATER),
];

#[test]
fn calls_on_maps(rt: HostRuntime) -> Result<(), Fail> {
    let geometry = many_groups()?;
    for &(size, calls) in &MAPS {
        answers(&rt, &geometry, size, calls)?;
    }
    Ok(())
}

/// The root's volume keeps 33 fragments, up to the end of its summary area.
#[test]
fn reserved_fragments(rt: HostRuntime) -> Result<(), SuperFault> {
    let one_group = reserved_count(&geometry(Order::Little)?);
    same(
        &rt,
        &(one_group, reserved_count(&many_groups()?)),
        &(33, 6423),
    );
    Ok(())
}

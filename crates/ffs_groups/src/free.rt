//! The free blocks and fragments of a cylinder group.

ghost use Rattle.std.specs.Prelude.{◌≡◌, ◌+◌, ◌-◌, ◌*◌, ◌/◌, ◌^◌, ◌<◌, ◌≤◌, count_by, ◌==◌, IfSome, ℕ};
ghost use Rattle.ffs_volume.specs.Groups.Records.{free_stretches, stretch_of};
ghost use Rattle.ffs_maps.specs.Bits.{bits_of, IsPart};
ghost use Rattle.ffs_groups.specs.Free.{word_bits, whole_in, loose_in, stretches_in, HasBlocks, HasRoomToCount, HasRoomToEnd, Grown, Added, AreFreeCounts, IsAtOnce, bits_from, free_in};
ghost use Rattle.ffs_groups.specs.Inputs.{HasFragments};

use crate::maps::group_fragments;
use ffs_layout::Geometry;
use ffs_maps::FragmentMap;

/// How many fragments `all_or_none_free` is asked about at first. With one number for all times
/// each that was tried was slower (SPEED.md).
pub const FEW_FRAGMENTS: u32 = 1024;

/// How many it is asked about at most: after four doublings, where all before were alike.
const MANY_FRAGMENTS: u32 = 16384;

/// How many fragments `all_or_none_free` is asked about next: twice as many, where those before
/// were alike, all free or all used. Then the next ones mostly are too.
pub fn next_at_once(at_once: u32, alike: bool) -> u32
    requires { IsAtOnce at_once }
    ensures { IsAtOnce result }
{
    if alike {
        MANY_FRAGMENTS.min(2 * at_once)
    } else {
        FEW_FRAGMENTS
    }
}

/// Whether the fragments from `start` on and below `end` are all free (`Some(true)`), or none is
/// (`Some(false)`); else `None`. Where not all are alike, the first 64 from `start` on mostly
/// aren't either: then no bit is counted. These 64 may reach beyond `end`: so `None` also comes
/// where fewer than 64 are asked about and are alike, and one after them differs.
pub fn all_or_none_free(used: &FragmentMap, start: u32, end: u32) -> Option<bool>
    requires { IsPart start end used.now.size }
    ensures { IfSome result (λ free. (k : ℕ) → k < end - start
        → free_in (bits_of used.now) used.now.size (start + k) ≡ free) }
{
    let first = used.clear_bits(u64::from(start));
    if first != 0 && first != u64::MAX {
        return None;
    }
    let count = used.count(start, end);
    if count == 0 {
        return Some(true);
    }
    if count == end - start {
        Some(false)
    } else {
        None
    }
}

/// What is free in a group: whole blocks, and fragments of other blocks.
#[derive(Clone, Copy, Debug)]
pub struct FreeSpace {
    /// Blocks of which each fragment is free.
    pub blocks: u64,
    /// Free fragments in other blocks.
    pub fragments: u64,
    /// How many stretches of exactly k free fragments the other blocks have, at index k. Nine, so
    /// that each length up to 8 is an index; an image has only the first eight, since a stretch of
    /// 8 is a whole block.
    pub frsum: [u64; 9],
}

// The bounds on counts that the contracts below ask for, from 2^61 to 2^64 - 1: any serve that are
// far above what a group has, and grow from a call to those that it makes.
impl FreeSpace {
    /// Counts a stretch of `stretch` free fragments, unless that is 0.
    fn end_stretch(&mut self, stretch: u32)
        requires { HasRoomToEnd stretch (2 ^ 64 - 1) self.old }
        ensures { Grown 0 0 (λ k. count_by (λ n. n == k) (stretch_of stretch)) self.old self.new }
    {
        if stretch > 0 {
            self.frsum[stretch as usize] += 1;
        }
    }

    /// Counts the free fragments of a block that isn't all free, and their stretches. The lowest
    /// `frag` bits say which are free. Each turn passes over the used ones that come next, and
    /// counts the stretch after them.
    fn add_loose(&mut self, bits: u64, frag: u32)
        requires { HasRoomToCount 1 frag (2 ^ 63) self.old }
        ensures { Grown 0 (count_by (λ f. f) (word_bits bits 0 frag))
            (λ k. count_by (λ n. n == k) (free_stretches 0 (word_bits bits 0 frag))) self.old
            self.new }
    {
        let mut index = 0;
        while index < frag {
            let used = (bits >> index).trailing_zeros().min(frag - index);
            let start = index + used;
            let stretch = (bits >> start).trailing_ones().min(frag - start);
            self.end_stretch(stretch);
            self.fragments += u64::from(stretch);
            index = start + stretch;
        }
    }

    /// Counts what is free in a block, by the lowest `frag` bits.
    #[tactic(auto, using(crate::proofs::FreeWords::whole_by_mask, crate::proofs::FreeWords::not_whole_by_mask))]
    fn add_block(&mut self, bits: u64, frag: u32)
        requires { HasRoomToCount 1 frag (2 ^ 63) self.old }
        ensures { Grown (whole_in (word_bits bits 0 frag)) (loose_in (word_bits bits 0 frag))
            (λ k. stretches_in k (word_bits bits 0 frag)) self.old self.new }
    {
        let full = (1u64 << frag) - 1;
        let free = bits & full;
        if free == full {
            self.blocks += 1;
        } else if free != 0 {
            self.add_loose(bits, frag);
        }
    }

    /// Counts what is free in the first blocks of a word. Most words have no free fragment, or only
    /// free ones.
    fn add_word(&mut self, word: u64, blocks: u32, frag: u32)
        requires { HasRoomToCount blocks frag (2 ^ 62) self.old }
        ensures { Added (λ b. word_bits (word / 2 ^ (b * frag)) 0 frag) 0 blocks self.old self.new }
    {
        if word == 0 {
            return;
        }
        if word == u64::MAX {
            self.blocks += u64::from(blocks);
            return;
        }
        // Where a block is one fragment, each set bit is a free block, and none is free in part.
        if frag == 1 && blocks > 0 {
            let free = word & (u64::MAX >> (64 - blocks));
            self.blocks += u64::from(free.count_ones());
            return;
        }
        for block in 0..blocks {
            self.add_block(word >> (block * frag), frag);
        }
    }

    /// Counts what is free in some blocks from a fragment on, word by word.
    fn add_words(&mut self, used: &FragmentMap, start: u64, blocks: u32, frag: u32)
        requires { HasBlocks start frag (2 ^ 61) self.old }
        ensures { Added (bits_from (free_in (bits_of used.now) used.now.size) start frag) 0 blocks
            self.old self.new }
    {
        let each = 64 / frag;
        let mut block = 0;
        while block < blocks {
            let word = used.clear_bits(start + u64::from(block) * u64::from(frag));
            let some = each.min(blocks - block);
            self.add_word(word, some, frag);
            block += some;
        }
    }

    /// Counts what is free in some blocks from a fragment on, with one look where that is all of
    /// them, or nothing. Returns whether it is.
    fn add_blocks(&mut self, used: &FragmentMap, start: u64, blocks: u32, frag: u32) -> bool
        requires { HasBlocks start frag (2 ^ 61) self.old }
        ensures { Added (bits_from (free_in (bits_of used.now) used.now.size) start frag) 0 blocks
            self.old self.new }
    {
        let size = used.size;
        let end = start + u64::from(blocks) * u64::from(frag);
        if end <= u64::from(size) {
            match all_or_none_free(used, start as u32, end as u32) {
                Some(true) => {
                    self.blocks += u64::from(blocks);
                    return true;
                }
                Some(false) => return true,
                None => (),
            }
        }
        self.add_words(used, start, blocks, frag);
        false
    }
}

/// What is free in a group: the fragments below the volume's size that are not used. Only the
/// group's blocks that the volume has are looked at.
pub fn free_counts(geometry: &Geometry, used: &FragmentMap, group: u32) -> FreeSpace
    requires { HasFragments geometry.now.layout used.now.size group }
    ensures { AreFreeCounts geometry.now.layout
        (free_in (bits_of used.now) geometry.now.layout.size) group result }
{
    let frag = geometry.layout.frag;
    let base = u64::from(geometry.cgbase(group));
    let blocks = group_fragments(geometry, group).div_ceil(frag);
    let mut counts = FreeSpace {
        blocks: 0,
        fragments: 0,
        frsum: [0; 9],
    };
    let mut at_once = FEW_FRAGMENTS;
    let mut block = 0;
    while block < blocks {
        let many = (at_once / frag).min(blocks - block);
        let start = base + u64::from(block) * u64::from(frag);
        let alike = counts.add_blocks(used, start, many, frag);
        at_once = next_at_once(at_once, alike);
        block += many;
    }
    counts
}

//! The maps of a group block, compared with what they should be by words of 64 bits.
//!
//! A map's first bit is the lowest of its first byte, in both orders of bytes.

ghost use Rattle.std.specs.{Prelude.{ℕ, ◌≡◌, ◌+◌, ◌-◌, ◌*◌, ◌<◌, ◌≤◌, length, nat_eq, IfSome}, Int.bit_at};
ghost use Rattle.ffs_volume.specs.{Disk.{Numbers.all_below, Areas.cgbase}, Groups.Records.bit_at as map_bit};
ghost use Rattle.ffs_volume.specs.Groups.Records.{same_bit, has_bits, is_used_inode, group_size};
ghost use Rattle.ffs_maps.specs.Bits.{bits_of};
ghost use Rattle.ffs_groups.specs.{Free.free_in, Inodes.class_in, Inputs.{HasFragmentMap, HasInodeMap, IsGroupSize}};
ghost use Rattle.ffs_groups.specs.MapParts.{AreFewIn, HasMapWords, IsClearAt, SetsBit};

use crate::free::{FEW_FRAGMENTS, all_or_none_free, next_at_once};
use crate::inodes::{all_or_none_allocated, is_used_at};
use byteorder::{ByteOrder, LittleEndian};
use ffs_layout::Geometry;
use ffs_maps::FragmentMap;
use ffs_volume::constants::ROOTINO;

/// The bits in at most eight bytes of a map, the first one lowest. Most words are whole: their
/// eight bytes are read together.
#[tactic(auto, using(crate::proofs::MapWords::whole_word, crate::proofs::MapWords::byte_low, crate::proofs::MapWords::byte_high, std::proofs::lemmas::List::take_rest))]
fn word_at(map: &[u8], place: usize, bytes: usize) -> u64
    requires { AreFewIn 8 (length map.now) place bytes }
    ensures { (k : ℕ) → k < 8 * bytes → nat_eq (bit_at result k) 1 ≡ map_bit map.now place k }
{
    if bytes == 8 {
        return LittleEndian::read_u64(&map[place..]);
    }
    let mut word = 0;
    for byte in 0..bytes {
        word |= u64::from(map[place + byte]) << (8 * byte);
    }
    word
}

/// The word with its clear bit at an index set, where `bit` is true.
fn with_bit(word: u64, index: u32, bit: bool) -> u64
    requires { IsClearAt word index }
    ensures { SetsBit word result index bit }
{
    if bit { word | 1 << index } else { word }
}

/// The word of 64 bits that are all `bit`.
fn filled(bit: bool) -> u64
    ensures { (k : ℕ) → k < 64 → nat_eq (bit_at result k) 1 ≡ bit }
{
    if bit { u64::MAX } else { 0 }
}

/// A word with a bit set for each of at most 64 inodes that is in use, the first inode's lowest. Of
/// most words all inodes are, or none is.
fn used_word(kinds: &[u8], first: usize, count: u32) -> u64
    requires { AreFewIn 64 (length kinds.now) first count }
    ensures { (k : ℕ) → k < count → nat_eq (bit_at result k) 1
        ≡ is_used_inode (class_in kinds.now) (first + k) }
{
    if first >= ROOTINO as usize {
        if let Some(allocated) = all_or_none_allocated(&kinds[first..first + count as usize]) {
            return filled(allocated);
        }
    }
    let mut word = 0;
    for index in 0..count {
        word = with_bit(word, index, is_used_at(kinds, first + index as usize));
    }
    word
}

/// Whether two words have the same `count` lowest bits.
fn same_bits(found: u64, right: u64, count: u32) -> bool
    requires { count ≤ 64 }
    ensures { result ≡ all_below count
        (λ k. same_bit (nat_eq (bit_at found k) 1) (nat_eq (bit_at right k) 1)) }
{
    if count == 0 {
        return true;
    }
    (found ^ right) & (u64::MAX >> (64 - count)) == 0
}

/// Whether the map of inodes at a byte of a group block has the bits of the inodes that are in use.
pub fn same_inode_map(
    geometry: &Geometry,
    kinds: &[u8],
    group: u32,
    block: &[u8],
    place: u32,
) -> bool
    requires { HasInodeMap geometry.now.layout kinds.now group (length block.now) place }
    ensures { result ≡ has_bits block.now place geometry.now.layout.ipg
        (λ k. is_used_inode (class_in kinds.now) (group * geometry.now.layout.ipg + k)) }
{
    let inodes = geometry.layout.ipg;
    let first = group as usize * inodes as usize;
    for word in 0..inodes.div_ceil(64) {
        let count = (inodes - 64 * word).min(64);
        let found = word_at(
            block,
            place as usize + 8 * word as usize,
            count.div_ceil(8) as usize,
        );
        let right = used_word(kinds, first + 64 * word as usize, count);
        if !same_bits(found, right, count) {
            return false;
        }
    }
    true
}

/// How many fragments a group has.
#[tactic(auto, unfolding(ffs_volume::specs::Disk::Areas::cgbase))]
pub fn group_fragments(geometry: &Geometry, group: u32) -> u32
    requires { group < geometry.now.layout.ncg }
    ensures { IsGroupSize geometry.now.layout group result }
{
    geometry
        .layout
        .fpg
        .min(geometry.layout.size - geometry.cgbase(group))
}

/// Whether all bits of some words of a map are `bit`. No word ends the loop, so that the machine
/// compares some at a time.
fn are_filled(block: &[u8], place: usize, words: u32, bit: bool) -> bool
    requires { place + 8 * words ≤ length block.now }
    ensures { result ≡ has_bits block.now place (64 * words) (λ _. bit) }
{
    let right = filled(bit);
    let mut same = true;
    for index in 0..words {
        let found = word_at(block, place + 8 * index as usize, 8);
        same &= same_bits(found, right, 64);
    }
    same
}

/// Whether the words of 64 bits of a map at a place of a group block, in bytes, say rightly which
/// fragments from `base` on are free: a bit is set where its fragment is.
fn same_words(used: &FragmentMap, base: u32, block: &[u8], place: usize, words: u32) -> bool
    requires { place + 8 * words ≤ length block.now }
    ensures { result ≡ has_bits block.now place (64 * words)
        (λ k. free_in (bits_of used.now) used.now.size (base + k)) }
{
    for word in 0..words {
        let found = word_at(block, place + 8 * word as usize, 8);
        let right = used.clear_bits(u64::from(base) + 64 * u64::from(word));
        if !same_bits(found, right, 64) {
            return false;
        }
    }
    true
}

/// What `same_words` answers, where it is known of all these fragments that they are free, or that
/// none is. Mostly it is: then no word is made of `used`.
#[tactic(auto, using(crate::proofs::MapWords::same_below))]
fn same_words_at_once(
    used: &FragmentMap,
    base: u32,
    block: &[u8],
    place: usize,
    words: u32,
    known: Option<bool>,
) -> bool
    requires words { HasMapWords used.now.size (length block.now) base place words }
    requires known { IfSome known (λ free. (k : ℕ) → k < 64 * words
        → free_in (bits_of used.now) used.now.size (base + k) ≡ free) }
    ensures { result ≡ has_bits block.now place (64 * words)
        (λ k. free_in (bits_of used.now) used.now.size (base + k)) }
{
    match known {
        Some(free) => are_filled(block, place, words, free),
        None => same_words(used, base, block, place, words),
    }
}

/// What `same_words` answers, of any number of words: at a time as many as `next_at_once` says.
fn all_same_words(used: &FragmentMap, base: u32, block: &[u8], place: usize, words: u32) -> bool
    requires { HasMapWords used.now.size (length block.now) base place words }
    ensures { result ≡ has_bits block.now place (64 * words)
        (λ k. free_in (bits_of used.now) used.now.size (base + k)) }
{
    let mut at_once = FEW_FRAGMENTS;
    let mut word = 0;
    while word < words {
        let some = (at_once / 64).min(words - word);
        let start = base + 64 * word;
        let known = all_or_none_free(used, start, start + 64 * some);
        if !same_words_at_once(used, start, block, place + 8 * word as usize, some, known) {
            return false;
        }
        at_once = next_at_once(at_once, known.is_some());
        word += some;
    }
    true
}

/// Whether the map of fragments at a byte of a group block has the bits of the fragments that are
/// free.
pub fn same_fragment_map(
    geometry: &Geometry,
    used: &FragmentMap,
    group: u32,
    block: &[u8],
    place: u32,
) -> bool
    requires { HasFragmentMap geometry.now.layout used.now.size group (length block.now) place }
    ensures { result ≡ has_bits block.now place (group_size geometry.now.layout group)
        (λ k. free_in (bits_of used.now) geometry.now.layout.size
        (cgbase geometry.now.layout group + k)) }
{
    let fragments = group_fragments(geometry, group);
    let base = geometry.cgbase(group);
    let words = fragments / 64;
    if !all_same_words(used, base, block, place as usize, words) {
        return false;
    }
    let left = fragments % 64;
    let found = word_at(
        block,
        place as usize + 8 * words as usize,
        left.div_ceil(8) as usize,
    );
    let right = used.clear_bits(u64::from(base) + 64 * u64::from(words));
    same_bits(found, right, left)
}

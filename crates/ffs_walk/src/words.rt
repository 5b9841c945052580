//! The words of an indirect block, each an address: `word` gives one, `any_from` says whether one
//! past the end of the file isn't zero (a Tail), and `zeros_end` where a stretch of holes ends.
//! `any_set` and `are_zeros` are for these two: they look at many bytes together.

ghost use Rattle.std.specs.{Prelude.{◌≡◌, ◌*◌, ◌+◌, ◌≤◌, length, nat_le, not, ◌&&◌}, List.slice_range};
ghost use Rattle.ffs_volume.specs.Blocks.{Inodes.any_nonzero, Steps.{any_nonzero_from, address_in}};
ghost use Rattle.ffs_walk.specs.Windows.{EndsZeros, HasWordsBetween};

use ffs_layout::{Geometry, u32_at};

/// How many bytes a word has.
pub(crate) const WORD_BYTES: usize = 4;

/// How many words `zeros_end` looks at together at first.
const FEW_WORDS: u32 = 16;

/// How many words it looks at together after `FEW_WORDS` that are zero.
const MANY_WORDS: u32 = 128;

/// The word at an index of a block.
pub fn word(geometry: &Geometry, block: &[u8], index: u32) -> u32
    requires { 4 * index + 4 ≤ length block.now }
    ensures { result ≡ address_in geometry.now.layout block.now index }
{
    u32_at(geometry.layout.order, WORD_BYTES * index as usize, block)
}

/// Whether one of the bytes isn't zero. All are looked at, with no test of each that ends the loop:
/// the machine takes many together.
#[inline(always)]
#[tactic(auto, using(crate::proofs::AnySet::or_set, std::proofs::lemmas::List::Folds::list_any_more, std::proofs::lemmas::Grind::common_steps))]
pub fn any_set(bytes: &[u8]) -> bool
    ensures { result ≡ any_nonzero bytes.now }
{
    let mut bits = 0;
    for byte in bytes {
        bits |= *byte;
    }
    bits != 0
}

/// Whether one of the words of an indirect block from the index `used` on isn't zero. Bytes are
/// looked at, since a word isn't zero where one of its bytes isn't, in either byte order. It isn't
/// inlined: it is asked once for an indirect block, and goes over most of it.
#[inline(never)]
#[tactic(auto, using(crate::proofs::WordBytes::any_byte_from))]
pub fn any_from(geometry: &Geometry, block: &[u8], used: u32) -> bool
    requires { HasWordsBetween block.now used geometry.now.layout.nindir }
    ensures { result ≡ any_nonzero_from geometry.now.layout block.now used }
{
    let first = WORD_BYTES * used as usize;
    let end = WORD_BYTES * geometry.layout.nindir as usize;
    any_set(&block[first..end])
}

/// Whether `words` words from an index on are below `used`, and all of them are zero. It is
/// inlined, so that a count that is known gives a length that is known.
#[inline(always)]
fn are_zeros(block: &[u8], index: u32, used: u32, words: u32) -> bool
    requires { HasWordsBetween block.now index used }
    ensures { result ≡ (nat_le (index + words) used
        && not (any_nonzero (slice_range block.now (4 * index) (4 * (index + words))))) }
{
    if used - index < words {
        return false;
    }
    let first = WORD_BYTES * index as usize;
    let end = first + WORD_BYTES * words as usize;
    !any_set(&block[first..end])
}

/// The first index from `next` on whose word isn't zero, and `used` where there is none below it.
/// Where a few words are zero, many are looked at together.
pub fn zeros_end(geometry: &Geometry, block: &[u8], next: u32, used: u32) -> u32
    requires { HasWordsBetween block.now next used }
    ensures { EndsZeros geometry.now.layout block.now next used result }
{
    let mut index = next;
    if are_zeros(block, index, used, FEW_WORDS) {
        index += FEW_WORDS;
        while are_zeros(block, index, used, MANY_WORDS) {
            index += MANY_WORDS;
        }
        while are_zeros(block, index, used, FEW_WORDS) {
            index += FEW_WORDS;
        }
    }
    for j in index..used {
        if word(geometry, block, j) != 0 {
            return j;
        }
    }
    used
}

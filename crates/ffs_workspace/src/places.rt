//! Where the parent entry of a directory is in the image, in 32 bits.

ghost use Rattle.std.specs.Prelude.{◌≡◌, ◌≤◌, ◌+◌, ◌*◌, ◌/◌, ◌^◌, ◌<◌, suc, false, true, MatchOption};
ghost use Rattle.ffs_volume.specs.Encodings.Places.{part_in, is_due, part_size, KeepsPart};
ghost use Rattle.ffs_volume.specs.declared.constants.TheConstants.{DIRBLKSIZ};

use ffs_layout::Geometry;
use ffs_volume::constants::DIRBLKSIZ;

/// The bit of a word that says that the parent entry is due. The bits below it are the place: 0
/// where none is noted, else 1 more than the number of the part of the image. While places are
/// noted, the bit says of a parent that its chunks are due to be read.
const DUE: u32 = 1 << 31;

/// How many chunks have a number that a place can note.
const NUMBERED_CHUNKS: u64 = (1 << 31) - 1;

/// The number of the part of the image that has the parent entry (dir(5)), if a word notes it.
#[inline(always)]
pub fn noted_part(word: u32) -> Option<u32>
    ensures { MatchOption result (part_in word ≡ 0) (λ part. part_in word ≡ suc part) }
{
    without_due(word).checked_sub(1)
}

/// Whether the parent entry is due: the first look at the parent has met it, and the second reading
/// hasn't passed it.
#[inline(always)]
pub fn is_due(word: u32) -> bool
    ensures { result ≡ is_due word }
{
    word >= DUE
}

/// A word with the same part, whose parent entry is due.
#[inline(always)]
#[tactic(auto, using(crate::proofs::PlaceLaws::or_due))]
pub fn with_due(word: u32) -> u32
    ensures { KeepsPart true word result }
{
    word | DUE
}

/// A word with the same part, whose parent entry isn't due.
#[inline(always)]
pub fn without_due(word: u32) -> u32
    ensures { KeepsPart false word result }
{
    word & !DUE
}

/// How many bytes a part of the image has. It is a chunk where 31 bits have room for the number of
/// each chunk of the volume: where it has less than 2^40 bytes. Else it is a fragment, which is
/// read at once too, but holds more entries to search.
#[tactic(auto, unfolding(ffs_volume::specs::Encodings::Places::part_size))]
pub fn part_size(geometry: &Geometry) -> usize
    ensures { result ≡ part_size geometry.now.layout }
{
    let bytes = u64::from(geometry.layout.size) * u64::from(geometry.layout.fsize);
    if bytes <= DIRBLKSIZ as u64 * NUMBERED_CHUNKS {
        return DIRBLKSIZ;
    }
    geometry.layout.fsize as usize
}

/// The word that notes the part of the image which has a chunk, by the place of the chunk in bytes.
/// The parent entry isn't due.
#[tactic(auto, using(crate::proofs::PartLaws::part_some, crate::proofs::PartLaws::part_number))]
pub fn word_of_part(geometry: &Geometry, place: u64) -> u32
    requires { place + DIRBLKSIZ ≤ geometry.now.layout.size * geometry.now.layout.fsize }
    ensures value { result ≡ place / part_size geometry.now.layout + 1 }
    ensures not_due { result < 2 ^ 31 }
{
    (place / part_size(geometry) as u64) as u32 + 1
}

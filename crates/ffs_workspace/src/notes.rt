//! What is noted of an inode, in 32 bits, between phase 1 and the others.

ghost use Rattle.std.specs.Prelude.{◌≡◌, ◌+◌, ◌<◌, MatchOption};
ghost use Rattle.ffs_volume.specs.Encodings.Notes.{first_noted, has_one_chunk, note_of, cut_in};

use ffs_volume::constants::DIRBLKSIZ;
use ffs_volume::{Class, Inode};

/// Notes from this number on are addresses, counted from here. No inode keeps so many offers:
/// `first_noted` of `Encodings/Notes` says why.
const FIRST_NOTED: u32 = (1 << 31) + 128;

/// Only addresses below this one are noted: `FIRST_NOTED` plus an address is then below 2^32.
const NOTED_BELOW: u32 = (1 << 31) - 128;

/// Whether an inode is a directory of the size of one chunk, at an address that can be noted.
#[inline(always)]
fn has_one_chunk(class: Class, inode: &Inode) -> bool
    ensures { result ≡ has_one_chunk class inode.now }
{
    class == Class::Dir && inode.size == DIRBLKSIZ as u64 && inode.addresses[0] < NOTED_BELOW
}

/// What is noted of an inode of a class: `cut`, how many offers it keeps where duplicates cut it;
/// where they don't, the address in fragments of its only chunk, if it is a directory of one chunk
/// of 512 bytes (dir(5)); else 0.
#[inline(always)]
pub fn note_of(class: Class, inode: &Inode, cut: u32) -> u32
    ensures { result ≡ note_of class inode.now cut }
{
    if has_one_chunk(class, inode) && cut == 0 {
        FIRST_NOTED + inode.addresses[0]
    } else {
        cut
    }
}

/// How many offers an inode keeps where duplicates cut it, else 0, by its note.
#[inline(always)]
pub fn cut_in(note: u32) -> u32
    ensures { result ≡ cut_in note }
{
    if note < FIRST_NOTED { note } else { 0 }
}

/// The address in fragments of a directory's only chunk, if a note has it.
#[inline(always)]
pub fn address_in(note: u32) -> Option<u32>
    ensures { MatchOption result (note < first_noted) (λ address. note ≡ first_noted + address) }
{
    note.checked_sub(FIRST_NOTED)
}

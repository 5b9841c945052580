//! Reads an entry of a directory from its chunk.

ghost use Rattle.std.specs.Prelude.{IsTrue, ◌≡◌, ◌+◌, ◌≤◌, length, take};
ghost use Rattle.ffs_volume.specs.Directories.Entries.{has_valid_type_and_name, is_valid_record_length};
ghost use Rattle.ffs_volume.specs.Disk.Numbers.{piece, u16_at as u16_in, u32_at as u32_in};
ghost use Rattle.ffs_volume.specs.declared.constants.TheConstants.{DIRBLKSIZ, DIRENT_HEADER};
ghost use Rattle.ffs_layout.specs.{Entry.{IsEntryAt, any_nul_or_slash}, declared.entries.TheConstants.SHORT};

use crate::entry::Entry;
use crate::numbers::{u16_at, u32_at};
use ffs_volume::Order;
use ffs_volume::constants::{DIRBLKSIZ, DIRENT_HEADER};
use std::simd::prelude::*;

/// How many bytes of a name are looked at together.
const SHORT: usize = 16;

/// Whether a record of this length may be at the place.
fn is_valid_record_length(place: usize, len: u16) -> bool
    requires { place ≤ DIRBLKSIZ }
    ensures { result ≡ is_valid_record_length place len }
{
    len % 4 == 0 && 8 <= len && place + usize::from(len) <= DIRBLKSIZ
}

/// Whether one of a few bytes is NUL or `/`. All are looked at, with no test that ends the loop:
/// the machine takes them together.
#[inline]
fn has_nul_or_slash_in_part<const N: usize>(part: &[u8; N]) -> bool
    ensures { result ≡ any_nul_or_slash part.now }
{
    let mut any = false;
    for &byte in part {
        any |= byte == 0 || byte == b'/';
    }
    any
}

/// Whether one of the first few bytes is NUL or `/`. Sixteen are looked at together, and then where
/// the first such byte is: no branch depends on how many count.
#[inline(always)]
fn has_nul_or_slash_in_first(bytes: &[u8], len: usize) -> bool
    requires { (len ≤ SHORT) × (SHORT ≤ length bytes.now) }
    ensures { result ≡ any_nul_or_slash (take len bytes.now) }
{
    let lanes = u8x16::from_slice(bytes);
    let found = lanes.simd_eq(u8x16::splat(0)) | lanes.simd_eq(u8x16::splat(b'/'));
    (found.to_bitmask().trailing_zeros() as usize) < len
}

/// Whether one of fewer than eight bytes is NUL or `/`.
#[inline]
fn has_nul_or_slash_in_few(bytes: &[u8]) -> bool
    ensures { result ≡ any_nul_or_slash bytes.now }
{
    for &byte in bytes {
        if byte == 0 || byte == b'/' {
            return true;
        }
    }
    false
}

/// Whether one of the bytes is NUL or `/`. The last eight bytes may have some in common with those
/// before.
#[inline]
fn has_nul_or_slash_in_many(bytes: &[u8]) -> bool
    ensures { result ≡ any_nul_or_slash bytes.now }
{
    let Some(last) = bytes.last_chunk::<8>() else {
        return has_nul_or_slash_in_few(bytes);
    };
    let (parts, _) = bytes.as_chunks::<8>();
    for part in parts {
        if has_nul_or_slash_in_part(part) {
            return true;
        }
    }
    has_nul_or_slash_in_part(last)
}

/// Whether one of the bytes at a place of a chunk is NUL or `/`, as none of a name may be. Sixteen
/// bytes are looked at where the chunk has them and the name is no longer.
#[inline(always)]
fn has_nul_or_slash(chunk: &[u8; DIRBLKSIZ], start: usize, len: usize) -> bool
    requires { start + len ≤ DIRBLKSIZ }
    ensures { result ≡ any_nul_or_slash (piece start len chunk.now) }
{
    if len <= SHORT && start + SHORT <= DIRBLKSIZ {
        has_nul_or_slash_in_first(&chunk[start..], len)
    } else {
        has_nul_or_slash_in_many(&chunk[start..][..len])
    }
}

/// Whether the record at the place has a type, and holds a valid name: one that isn't empty,
/// without NUL and `/`, and with a NUL after it.
#[inline(always)]
fn has_valid_type_and_name(chunk: &[u8; DIRBLKSIZ], place: usize, len: u16) -> bool
    requires { IsTrue (is_valid_record_length place len) }
    ensures { result ≡ has_valid_type_and_name chunk.now place len }
{
    // The length of a record is a multiple of 4: where the name and its NUL have room, so has what
    // fills them up to one.
    let name_len = usize::from(chunk[place + 7]);
    DIRENT_HEADER + name_len + 1 <= usize::from(len)
        && chunk[place + 6] <= 15
        && name_len != 0
        && !has_nul_or_slash(chunk, place + DIRENT_HEADER, name_len)
        && chunk[place + DIRENT_HEADER + name_len] == 0
}

/// The inode number and the length of the record at a place of a chunk.
#[inline(always)]
fn number_and_length(order: Order, chunk: &[u8; DIRBLKSIZ], place: usize) -> (u32, u16)
    requires { place + DIRENT_HEADER ≤ DIRBLKSIZ }
    ensures { result ≡ (u32_in order place chunk.now, u16_in order (place + 4) chunk.now) }
{
    // The order is asked for once, and not for each number.
    match order {
        Order::Little => (
            u32_at(Order::Little, place, chunk),
            u16_at(Order::Little, place + 4, chunk),
        ),
        Order::Big => (
            u32_at(Order::Big, place, chunk),
            u16_at(Order::Big, place + 4, chunk),
        ),
    }
}

/// The well formed entry at a place of a chunk, and None where none is there (dir(5)).
///
/// At byte 0 is the number (u32), at 4 the record's length (u16), at 6 the type (u8), at 7 the
/// name's length (u8), from 8 on the name and a NUL. The name of an entry with the number 0 is
/// empty.
#[inline(always)]
#[tactic(auto, unfolding(ffs_volume::specs::Directories::Entries::entry_at, ffs_volume::specs::Directories::Entries::is_well_formed, ffs_volume::specs::Directories::Entries::entry_read))]
pub fn entry_at(order: Order, chunk: &[u8; DIRBLKSIZ], place: usize) -> Option<Entry<'_>>
    requires { place ≤ DIRBLKSIZ }
    ensures { IsEntryAt order chunk.now place result }
{
    if place > DIRBLKSIZ - DIRENT_HEADER {
        return None;
    }
    let (number, length) = number_and_length(order, chunk, place);
    if !is_valid_record_length(place, length) {
        return None;
    }
    let kind = chunk[place + 6];
    if number == 0 {
        return Some(Entry {
            number,
            length,
            kind,
            name: &[],
        });
    }
    if !has_valid_type_and_name(chunk, place, length) {
        return None;
    }
    let name = &chunk[place + DIRENT_HEADER..][..usize::from(chunk[place + 7])];
    Some(Entry {
        number,
        length,
        kind,
        name,
    })
}

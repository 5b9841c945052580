//! What an inode is, and which of its addresses it uses.

ghost use Rattle.std.specs.Prelude.{◌≡◌, ◌==◌, ◌&&◌, ◌*◌, ◌+◌, ◌<◌, ◌≤◌, ◌^◌, drop, not, if◌then◌else◌};
ghost use Rattle.ffs_volume.specs.Blocks.Inodes as inodes;
ghost use Rattle.ffs_volume.specs.Blocks.Steps as steps;
ghost use Rattle.ffs_walk.specs.Lengths.{AreWalkedBlocks, IsLastLength};

use crate::pieces::{after_pieces, pieces_of};
use ffs_layout::Geometry;
use ffs_volume::constants::{DT_BLK, DT_CHR, DT_DIR, DT_FIFO, DT_LNK, DT_REG, DT_SOCK, NDADDR};
use ffs_volume::{Class, Inode};
use std::simd::prelude::*;

/// How many of the fifteen addresses a file of `blocks` logical blocks uses, where an indirect
/// block has `words` addresses: 16,384 at most, of 4 bytes in the largest block, of 65,536.
pub fn addresses_needed(words: u64, blocks: u64) -> u32
    requires { words ≤ 16384 }
    ensures { result ≡ inodes.addresses_needed words blocks }
{
    if blocks <= NDADDR {
        blocks as u32
    } else if NDADDR + words < blocks {
        if NDADDR + words + words * words < blocks {
            15
        } else {
            14
        }
    } else {
        13
    }
}

/// How many fragments the last logical block has, where it is direct.
#[tactic(auto, using(crate::proofs::Powers::bsize_power, crate::proofs::Powers::fsize_power))]
pub fn last_length(geometry: &Geometry, inode: &Inode) -> u32
    ensures { IsLastLength geometry.now.layout inode.now result }
{
    let over = after_pieces(inode.size, geometry.layout.bsize);
    if over == 0 {
        geometry.layout.frag
    } else {
        pieces_of(over, geometry.layout.fsize) as u32
    }
}

/// The type of an inode (fs(5)): the upper four bits of its mode.
#[inline(always)]
fn type_of(inode: &Inode) -> u8
    ensures { result ≡ inodes.type_of inode.now.mode }
{
    (inode.mode / 4096) as u8
}

/// Whether an inode is of a character or a block device, whose number is in place of the first
/// address.
pub fn is_device(inode: &Inode) -> bool
    ensures { result ≡ inodes.is_device (inodes.type_of inode.now.mode) }
{
    matches!(type_of(inode), DT_CHR | DT_BLK)
}

/// Whether an inode is of a symbolic link whose text is in place of the addresses.
pub fn is_short_symlink(geometry: &Geometry, inode: &Inode) -> bool
    ensures { result ≡ inodes.is_short_symlink geometry.now.layout inode.now }
{
    type_of(inode) == DT_LNK && inode.size < u64::from(geometry.layout.maxsymlinklen)
}

/// Whether an address isn't zero.
#[inline(always)]
#[tactic(auto, using(crate::proofs::AnySet::or_set, crate::proofs::AnySet::any_more))]
fn any_nonzero(addresses: &[u32; 15]) -> bool
    ensures { result ≡ inodes.any_nonzero addresses.now }
{
    let mut bits = 0;
    for index in 0..15 {
        bits |= addresses[index];
    }
    bits != 0
}

/// Whether an address from an index on isn't zero, by a bit for each address. All fifteen are
/// looked at together, with no branch that depends on the index: sizes of files are mixed, and no
/// processor foresees such a branch.
#[inline(always)]
fn any_address_from(addresses: &[u32; 15], from: usize) -> bool
    requires { from ≤ 15 }
    ensures { result ≡ inodes.any_nonzero (drop from addresses.now) }
{
    let a = addresses;
    let lanes = u32x16::from_array([
        a[0], a[1], a[2], a[3], a[4], a[5], a[6], a[7], a[8], a[9], a[10], a[11], a[12], a[13],
        a[14], 0,
    ]);
    lanes.simd_ne(u32x16::splat(0)).to_bitmask() >> from != 0
}

/// Whether the addresses of an inode of the class are walked.
fn is_walked(geometry: &Geometry, inode: &Inode, class: Class) -> bool
    ensures { class ≡ inodes.class_of geometry.now.layout inode.now
        → result ≡ steps.is_walked geometry.now.layout inode.now }
{
    let walks = match class {
        Class::File | Class::Dir => true,
        _ => false,
    };
    walks && !(is_device(inode) || is_short_symlink(geometry, inode))
}

/// Whether an inode of the class has steps: its addresses are walked, and it isn't empty.
pub fn has_steps(geometry: &Geometry, inode: &Inode, class: Class) -> bool
    ensures { class ≡ inodes.class_of geometry.now.layout inode.now
        → result ≡ (steps.is_walked geometry.now.layout inode.now && not (inode.now.size == 0)) }
{
    inode.size != 0 && is_walked(geometry, inode, class)
}

/// The greatest size of a file, in bytes, whose blocks the fifteen addresses reach.
#[tactic(auto, using(crate::proofs::Sizes::products_small, crate::proofs::Sizes::size_small))]
fn greatest_size(geometry: &Geometry) -> u64
    ensures { result ≡ (12 + geometry.now.layout.nindir + geometry.now.layout.nindir *
        geometry.now.layout.nindir + geometry.now.layout.nindir * geometry.now.layout.nindir *
        geometry.now.layout.nindir) * geometry.now.layout.bsize }
{
    let words = u64::from(geometry.layout.nindir);
    let squared = words * words;
    let cubed = squared * words;
    (NDADDR + words + squared + cubed) * u64::from(geometry.layout.bsize)
}

/// Whether an inode of this size, of 2^31 bytes or more, is too large: a directory always is.
#[cold]
#[inline(never)]
fn is_refused_size(geometry: &Geometry, kind: u8, size: u64) -> bool
    ensures { 2147483647 < size → (inode : Inode) → inodes.type_of inode.mode ≡ kind
        → inode.size ≡ size → result ≡ inodes.is_too_large geometry.now.layout inode }
{
    kind == DT_DIR || greatest_size(geometry) < size
}

/// Whether an inode of the type and the size is larger than its addresses reach, or is a directory
/// of 2^31 bytes or more. Addresses always reach so many bytes, so a smaller size is looked at no
/// further.
#[inline(always)]
#[tactic(auto, using(crate::proofs::Sizes::size_large))]
fn is_too_large(geometry: &Geometry, kind: u8, size: u64) -> bool
    ensures { (inode : Inode) → inodes.type_of inode.mode ≡ kind → inode.size ≡ size
        → result ≡ inodes.is_too_large geometry.now.layout inode }
{
    2147483647 < size && is_refused_size(geometry, kind, size)
}

/// How many logical blocks an inode of its size has.
#[tactic(auto, using(crate::proofs::Sizes::blocks_small, crate::proofs::Powers::bsize_power))]
fn logical_blocks_of(geometry: &Geometry, inode: &Inode) -> u64
    ensures value { result ≡ inodes.logical_blocks_of geometry.now.layout inode.now }
    // A size is below 2^64, and a block has 4,096 bytes or more.
    ensures small { result < 2 ^ 53 }
{
    pieces_of(inode.size, geometry.layout.bsize)
}

/// How many logical blocks of an inode of the class a walk goes over.
pub fn walked_blocks(geometry: &Geometry, inode: &Inode, class: Class) -> u64
    ensures { AreWalkedBlocks geometry.now.layout inode.now class result }
{
    if is_walked(geometry, inode, class) {
        logical_blocks_of(geometry, inode)
    } else {
        0
    }
}

/// How many of its fifteen addresses an inode may use.
fn addresses_allowed(geometry: &Geometry, inode: &Inode) -> usize
    ensures { result ≡ inodes.addresses_allowed geometry.now.layout inode.now }
{
    if is_short_symlink(geometry, inode) {
        return inode.size.div_ceil(4) as usize;
    }
    let blocks = logical_blocks_of(geometry, inode);
    let counted = if is_device(inode) { blocks + 1 } else { blocks };
    addresses_needed(u64::from(geometry.layout.nindir), counted) as usize
}

/// Whether this is one of the seven types of fs(5).
fn is_known_type(kind: u8) -> bool
    ensures { result ≡ inodes.is_known_type kind }
{
    matches!(
        kind,
        DT_FIFO | DT_CHR | DT_DIR | DT_BLK | DT_REG | DT_LNK | DT_SOCK
    )
}

/// The class of an inode, by its mode, its size and its addresses (fs(5)).
#[inline(always)]
#[tactic(auto, using(crate::proofs::Sizes::allowed_few), unfolding(ffs_volume::specs::Blocks::Inodes::class_of))]
pub fn class_of(geometry: &Geometry, inode: &Inode) -> Class
    ensures { result ≡ inodes.class_of geometry.now.layout inode.now }
{
    let kind = type_of(inode);
    if kind == 0 {
        return if inode.mode == 0 && inode.size == 0 && !any_nonzero(&inode.addresses) {
            Class::Free
        } else {
            Class::Partial
        };
    }
    if !is_known_type(kind) {
        return Class::Unknown;
    }
    if is_too_large(geometry, kind, inode.size) {
        return Class::Unknown;
    }
    let used = addresses_allowed(geometry, inode);
    if any_address_from(&inode.addresses, used) {
        return Class::Unknown;
    }
    if kind == DT_DIR {
        Class::Dir
    } else {
        Class::File
    }
}

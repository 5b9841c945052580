//! The numbers of an inode.

ghost use Rattle.std.specs.Prelude.{◌≡◌, ◌≤◌, length};
ghost use Rattle.ffs_volume.specs.Blocks.Inodes.{inode_from_bytes};

use crate::numbers::{i16_at, i32_at, u16_at, u32_at, u64_at};
use ffs_volume::{Inode, Order};

/// The inode in the first 128 bytes (fs(5), `struct dinode`).
///
/// At byte 0 is the mode (u16), at 2 the link count (i16), at 8 the size in bytes (u64), at 24 the
/// time of modification in seconds (i32), from 40 on twelve direct and three indirect addresses
/// (u32 each), at 104 the blocks in sectors of 512 bytes (u32), at 112 the owner (u32).
#[inline(always)]
pub fn decode_inode(order: Order, bytes: &[u8]) -> Inode
    requires { 128 ≤ length bytes.now }
    ensures { result ≡ inode_from_bytes order bytes.now }
{
    // The order is asked for once, and not for each number.
    match order {
        Order::Little => fields_of(Order::Little, bytes),
        Order::Big => fields_of(Order::Big, bytes),
    }
}

/// The inode in the first 128 bytes, for an order that is known where this is inlined.
#[inline(always)]
#[tactic(auto, unfolding(ffs_volume::specs::Blocks::Inodes::inode_from_bytes))]
fn fields_of(order: Order, bytes: &[u8]) -> Inode
    requires { 128 ≤ length bytes.now }
    ensures { result ≡ inode_from_bytes order bytes.now }
{
    Inode {
        mode: u16_at(order, 0, bytes),
        nlink: i16_at(order, 2, bytes),
        size: u64_at(order, 8, bytes),
        mtime: i32_at(order, 24, bytes),
        addresses: [
            u32_at(order, 40, bytes),
            u32_at(order, 44, bytes),
            u32_at(order, 48, bytes),
            u32_at(order, 52, bytes),
            u32_at(order, 56, bytes),
            u32_at(order, 60, bytes),
            u32_at(order, 64, bytes),
            u32_at(order, 68, bytes),
            u32_at(order, 72, bytes),
            u32_at(order, 76, bytes),
            u32_at(order, 80, bytes),
            u32_at(order, 84, bytes),
            u32_at(order, 88, bytes),
            u32_at(order, 92, bytes),
            u32_at(order, 96, bytes),
        ],
        blocks: u32_at(order, 104, bytes),
        uid: u32_at(order, 112, bytes),
    }
}

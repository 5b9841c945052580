//! The parts of a UFS1 volume, decoded from bytes: the superblock and its geometry, inodes, group
//! blocks and entries of directories (fs(5), dir(5)).
//!
//! `read_super` returns the accepted superblock, a `Super` with the `Geometry` of its `Layout`, or
//! the first `SuperFault` in the stated order. `decode_inode` makes an `Inode`, `entry_at` the
//! `Entry` at a place of a chunk, and `decode` of `Group` and of `GroupSummary` what a group block
//! and a summary record say; `u32_at` reads one number. Each decoded value is the definition's
//! value of the bytes, in each byte order (`Order`).
//!
//! ```text
//! let superblock = read_super(&mut image, None)?;
//! let place = superblock.geometry.inode_place(2);
//! ```
//!
//! It rests on `ffs_volume` and `ffs_image`.
#![tactic(auto)]

mod entries;
mod entry;
mod fields;
mod geometry;
mod group;
mod groups;
mod inode;
mod layout;
mod layout_rules;
mod numbers;
mod superblock;

pub use entries::entry_at;
pub use entry::Entry;
pub use ffs_volume::{Inode, Layout, Order, SuperFault};
pub use geometry::Geometry;
pub use group::{Group, GroupSummary};
pub use inode::decode_inode;
pub use numbers::u32_at;
pub use superblock::{Super, read_super};

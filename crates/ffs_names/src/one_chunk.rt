//! The inode of a directory whose only chunk is at an address.

ghost use Rattle.std.specs.Prelude.{◌≡◌};
ghost use Rattle.ffs_names.specs.OneChunk.{one_chunk_at};

use ffs_volume::Inode;
use ffs_volume::constants::{DIRBLKSIZ, DT_DIR};

/// The inode of a directory of one chunk at an address, as far as a reading of its entries asks
/// for it.
#[inline(always)]
pub fn one_chunk_at(address: u32) -> Inode
    ensures { result ≡ one_chunk_at address }
{
    let mut addresses = [0; 15];
    addresses[0] = address;
    Inode {
        // Its type is above the twelve bits of its permissions (inode(5)).
        mode: u16::from(DT_DIR) << 12,
        nlink: 0,
        size: DIRBLKSIZ as u64,
        mtime: 0,
        addresses,
        blocks: 0,
        uid: 0,
    }
}

//! Free inodes side by side, which are passed over.

ghost use Rattle.std.specs.Prelude.{◌≡◌, ◌<◌, ◌≤◌, ◌+◌, length};
ghost use Rattle.ffs_volume.specs.declared.constants.TheConstants.{DINODE_SIZE};
ghost use Rattle.ffs_workspace.specs.Tables.{HoldsInode};
ghost use Rattle.ffs_claims.specs.FreeInodes.{CanSkipFreeInodes, EndsFreeInodes, HasTableInodes, IsPastFreeInodes, SkipsFreeInodes};
ghost use Rattle.ffs_claims.specs.FreeInodes.{inode_bytes, is_free_by};

use crate::store::clear_counts;
use ffs_volume::constants::DINODE_SIZE;
use ffs_walk::any_set;
use ffs_workspace::{Table, Workspace};

/// Where the bytes of an inode end that have its mode, its links and its size (inode(5)).
const SIZE_END: usize = 16;

/// Where its fifteen addresses are, in bytes from its start.
const ADDRESSES: usize = 40;

/// Where its flags end, which lie after the addresses.
const FLAGS_END: usize = 104;

/// Whether an inode is free by its bytes: none of those of its mode, its size and its addresses is
/// set, nor of what lies beside, so that whole sixteens of bytes are looked at together. A number
/// is zero where each of its bytes is, in either byte order. Other bytes aren't asked: newfs(8)
/// gives free inodes a generation number too.
#[inline(always)]
fn is_free(inode: &[u8]) -> bool
    requires { length inode.now ≡ DINODE_SIZE }
    ensures { result ≡ is_free_by inode.now }
{
    !any_set(&inode[..SIZE_END]) && !any_set(&inode[ADDRESSES..FLAGS_END])
}

/// Whether an inode that the window on the inode table holds is free by its bytes.
#[inline(always)]
fn is_free_inode(table: &Table, number: u32) -> bool
    requires inodes { HasTableInodes table.now }
    requires held { HoldsInode table.now number }
    ensures { result ≡ is_free_by (inode_bytes table.now number) }
{
    let at = DINODE_SIZE * (number - table.first) as usize;
    is_free(&table.window.bytes()[at..at + DINODE_SIZE])
}

/// The first number from `number` on, below `end`, of an inode that the window doesn't hold or that
/// isn't free, and `end` where there is none. What the window holds is asked once. It isn't
/// inlined: its loop would take registers from the claims of a used inode.
#[inline(never)]
fn free_inodes_end(table: &Table, number: u32, end: u32) -> u32
    requires inodes { HasTableInodes table.now }
    requires order { number ≤ end }
    ensures ends { EndsFreeInodes table.now number end result }
    ensures all { IsPastFreeInodes table.now end result }
{
    if number < table.first {
        return number;
    }
    let held = end.min(table.first.saturating_add(table.count));
    for next in number..held {
        if !is_free_inode(table, next) {
            return next;
        }
    }
    held.max(number)
}

/// Passes over the inodes from `number` on, below `end`, that the window holds and that are free,
/// where the inode before them is free or Partial: free inodes are mostly side by side. Returns the
/// number of the next inode. Nothing is stored of them: a new workspace holds what a free inode has,
/// and of one that was used what it held of them stays.
#[inline(always)]
pub fn skip_free_inodes(workspace: &mut Workspace, number: u32, end: u32) -> u32
    requires { CanSkipFreeInodes workspace.old number end }
    ensures { SkipsFreeInodes workspace.old workspace.new number end result }
{
    if workspace.kinds[number as usize - 1] != 0 {
        return number;
    }
    let next = free_inodes_end(&workspace.windows.table, number, end);
    if next == number {
        return number;
    }
    // As the last of them would leave it.
    clear_counts(workspace);
    next
}

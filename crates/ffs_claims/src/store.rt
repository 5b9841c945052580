//! The current inode: how it begins, and what is stored of it for later phases.

ghost use Rattle.std.specs.Prelude.{◌≡◌, ◌<◌, ◌||◌, false, min, slice_set, vec_len};
ghost use Rattle.ffs_volume.specs.{Blocks.Inodes.is_unknown, Encodings.{Kinds.kind_of, Links.start_of, Replay.cut_of}};
ghost use Rattle.ffs_volume.specs.Blocks.Claims.{has_blame};
ghost use Rattle.ffs_workspace.specs.Holds.{claims_of};
ghost use Rattle.ffs_claims.specs.Leaves.{HasInode, Stored};

use ffs_memory::FilledList;
use ffs_volume::constants::{DT_DIR, EMPTY_DIR_KIND, MAXDUP, UNKNOWN_KIND};
use ffs_volume::{Class, Inode};
use ffs_workspace::{Workspace, links_start, note_of};

/// Sets the counts of the current inode to 0, and that no Tail of it was seen: so the next inode
/// begins.
pub fn clear_counts(workspace: &mut Workspace)
    ensures { workspace.new
        ≡ record workspace.old { bad = 0; dup_offers = 0; kept = 0; tail = false } }
{
    workspace.bad = 0;
    workspace.dup_offers = 0;
    workspace.kept = 0;
    workspace.tail = false;
}

/// What the list `kinds` holds of an inode of the class.
#[inline(always)]
fn kind_of(class: Class, inode: &Inode) -> u8
    ensures { result ≡ kind_of class inode.now }
{
    match class {
        Class::Free | Class::Partial => 0,
        Class::Unknown => UNKNOWN_KIND,
        Class::Dir if inode.size == 0 => EMPTY_DIR_KIND,
        Class::Dir => DT_DIR,
        Class::File => (inode.mode / 4096) as u8, // the type: the mode's upper four bits
    }
}

/// Whether the current inode, of the class, is marked.
#[inline(always)]
fn is_marked(workspace: &Workspace, class: Class) -> bool
    ensures { result ≡ (is_unknown class || has_blame (claims_of workspace.now)) }
{
    match class {
        Class::Unknown => true,
        // Both are asked at once, with no branch between them.
        Class::Free | Class::Partial | Class::File | Class::Dir => (workspace.bad != 0)
            | (workspace.dup_offers != 0),
    }
}

/// How many offers the current inode keeps, at most 2^32 - 1, if its eleventh dup offer cut it;
/// else 0. No inode keeps so many (see `FIRST_NOTED` of `ffs_workspace`): with the bound here, that
/// need not be known for each workspace.
#[inline(always)]
fn stored_cut(workspace: &Workspace) -> u32
    ensures { result ≡ min (cut_of (claims_of workspace.now)) 4294967295 }
{
    if workspace.dup_offers <= MAXDUP {
        return 0;
    }
    workspace.kept.min(u64::from(u32::MAX)) as u32
}

/// Sets whether an inode is marked, if that isn't what the list holds already: so its memory is
/// touched only up to the last inode that is marked.
#[inline(always)]
fn store_mark(list: &mut FilledList<bool>, number: usize, marked: bool)
    requires { number < vec_len list.old }
    ensures { list.new.items ≡ slice_set list.old.items number marked }
{
    if list[number] != marked {
        list.set(number, marked);
    }
}

/// Sets what is noted of an inode, if that isn't what the list holds already: so its memory is
/// touched only for inodes of which something is noted.
#[inline(always)]
fn store_note(list: &mut FilledList<u32>, number: usize, note: u32)
    requires { number < vec_len list.old }
    ensures { list.new.items ≡ slice_set list.old.items number note }
{
    if list[number] != note {
        list.set(number, note);
    }
}

/// Sets where the count of an inode's references starts. That isn't 0 where the inode is in use:
/// for others memory is touched only where the list has another number.
#[inline(always)]
fn store_start(list: &mut FilledList<u64>, number: usize, class: Class, inode: &Inode)
    requires { number < vec_len list.old }
    ensures { list.new.items ≡ slice_set list.old.items number (start_of class inode.now) }
{
    match class {
        Class::File | Class::Dir | Class::Unknown => list.set(number, links_start(inode.nlink)),
        Class::Free | Class::Partial => {
            if list[number] != 0 {
                list.set(number, 0);
            }
        }
    }
}

/// Stores what later phases want of the current inode.
#[inline(always)]
pub fn store(workspace: &mut Workspace, number: u32, class: Class, inode: &Inode)
    requires number { HasInode workspace.old number }
    ensures stored { Stored number class inode.now workspace.old workspace.new }
    ensures same { workspace.new ≡ record workspace.old {
      kinds = workspace.new.kinds;
      marked = workspace.new.marked;
      notes = workspace.new.notes;
      references = workspace.new.references;
    } }
{
    let kind = kind_of(class, inode);
    let marked = is_marked(workspace, class);
    let note = note_of(class, inode, stored_cut(workspace));
    workspace.kinds[number as usize] = kind;
    store_mark(&mut workspace.marked, number as usize, marked);
    store_note(&mut workspace.notes, number as usize, note);
    store_start(&mut workspace.references, number as usize, class, inode);
}

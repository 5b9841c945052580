//! Reads a directory, or a level of directories: what their entries name.
ghost use Rattle.std.specs.Prelude.{◌≡◌, ◌*◌, ◌-◌, ◌^◌, ◌<◌, ◌&&◌, nat_le, [], length, vec_len, drop, take, IfOk, OnOk};
ghost use Rattle.std.specs.List.{sum_by};
ghost use Rattle.ffs_volume.specs.Directories.Roles.{is_plain as is_plain_role};
ghost use Rattle.ffs_survey.specs.{Reading.roled_of, Lists.CountLists, Survey.{bool_at}};
ghost use Rattle.ffs_survey.specs.Lent.{found_up_to, current_of, ForKnown, CanReach, CanCount, CanReadLevel};
ghost use Rattle.ffs_survey.specs.Lent.{Adopts, AddsUnreached, CanReadReached, FlagsIfCalm, LeavesLent, Reaches};
ghost use Rattle.ffs_survey.specs.Levels.{Discovers, ReadsReached, ReadsDirs};
ghost use Rattle.ffs_volume.specs.Costs.Calm.{is_calm_kind, is_calm_plain, is_calm_entry};
ghost use Rattle.ffs_survey.specs.Discover.{IsCounted, is_unreached_dir as is_unreached_dir_at};

use crate::directories::Directories;
use crate::entry_head::{EntryHead, is_counted, is_plain};
use crate::lists::{LentDir, Lists};
use crate::numbers::{is_dir, number_of};
use ffs_image::ImageFault;
use ffs_memory::FilledList;
use ffs_volume::Role;
use ffs_volume::constants::{DT_DIR, DT_WHT, EMPTY_DIR_KIND, ROOTINO, UNKNOWN_KIND, WINO};

/// Counts an entry for the inode whose number it carries, and flags that inode as named where the
/// entry is plain.
fn count_entry(
    entry: EntryHead,
    kinds: &[u8],
    references: &mut FilledList<u64>,
    named: &mut FilledList<bool>,
)
    requires { CountLists kinds.now references.old.items named.old.items entry.number }
    ensures { IsCounted (length kinds.now) (roled_of entry []) references.old.items named.old.items
        references.new.items named.new.items }
{
    let number = entry.number as usize;
    if !is_counted(entry.role) || number >= kinds.len() {
        return;
    }
    let count = references[number];
    references.set(number, count + 1);
    if is_plain(entry.role) {
        named.set(number, true);
    }
}

/// Whether a number is that of a directory that isn't reached yet. `kinds` is the list of kinds in
/// `lists`: a loop takes it from there once.
pub fn is_unreached_dir(kinds: &[u8], lists: &Lists, number: usize) -> bool
    requires { kinds.now ≡ lists.now.kinds.now }
    ensures { result ≡ is_unreached_dir_at lists.now.kinds.now lists.now.reached.now.items number }
{
    is_dir(kinds, number) && !lists.reached[number]
}

/// Whether an entry is plain and names a directory that isn't reached yet.
fn is_new(entry: EntryHead, kinds: &[u8], lists: &Lists) -> bool
    requires { kinds.now ≡ lists.now.kinds.now }
    ensures { result ≡ (is_plain_role entry.role
        && is_unreached_dir_at lists.now.kinds.now lists.now.reached.now.items entry.number) }
{
    is_plain(entry.role) && is_unreached_dir(kinds, lists, entry.number as usize)
}

/// Where an entry of the current directory names a directory that isn't reached yet, flags that as
/// reached, gives it its parent, and puts it into the queue, which ends at `top`. Returns where the
/// queue ends then.
fn reach(entry: EntryHead, current: &LentDir, lists: &mut Lists, top: usize) -> usize
    requires { CanReach current.now top lists.old }
    ensures { Reaches current.now.dir (roled_of entry []) top result lists.old lists.new }
{
    if !is_new(entry, current.kinds, lists) {
        return top;
    }
    let number = entry.number as usize;
    lists.reached.set(number, true);
    lists.parents.set(number, current.dir);
    lists.queue.set(top, entry.number);
    top + 1
}

/// Whether nothing can be reported of a plain entry that has the type of the unmarked inode that it
/// names. The inode must be allocated, of a known type (`DT_WHT` is no type of an inode), and no
/// directory of size 0. A directory mustn't be reached yet: else this entry isn't its parent entry,
/// but extraneous.
///
/// This and the two tests after it are shorter than the verdict that phase 2 makes of an entry; it
/// is proved that they imply a silent one (`calm_silent` of `ffs_pathnames`).
fn is_calm_kind(kind: u8, number: usize, reached: &FilledList<bool>) -> bool
    requires { number < vec_len reached.now }
    ensures { result ≡ is_calm_kind kind (bool_at reached.now.items number) }
{
    match kind {
        0 | EMPTY_DIR_KIND | DT_WHT | UNKNOWN_KIND => false,
        DT_DIR => !reached[number],
        _ => true,
    }
}

/// Whether nothing can be reported of a plain entry: a whiteout, or one that names an inode.
fn is_calm_plain(entry: EntryHead, current: &LentDir, lists: &Lists) -> bool
    requires { current.now.kinds.now ≡ lists.now.kinds.now }
    ensures { result ≡ is_calm_plain current.now.kinds.now current.now.marked.now.items
        (bool_at lists.now.reached.now.items) entry.number entry.kind }
{
    let number = entry.number as usize;
    if number >= current.kinds.len() {
        return false;
    }
    if entry.number < ROOTINO {
        return entry.number == WINO && entry.kind == DT_WHT;
    }
    !(current.any_marked && current.marked[number])
        && current.kinds[number] == entry.kind
        && is_calm_kind(entry.kind, number, lists.reached)
}

/// Whether nothing can be reported of the entry at an index of the current directory. The first two
/// must be `.` and `..`.
fn is_calm_entry(entry: EntryHead, index: u32, current: &LentDir, lists: &Lists) -> bool
    requires { current.now.kinds.now ≡ lists.now.kinds.now }
    ensures { result ≡ is_calm_entry (current_of current.now)
        (bool_at lists.now.reached.now.items) index (roled_of entry []) }
{
    match entry.role {
        Role::Dot => index == 0 && entry.number == current.dir && entry.kind == DT_DIR,
        Role::Dotdot => index == 1 && entry.number == current.parent && entry.kind == DT_DIR,
        Role::Extra => false,
        Role::Empty => index >= 2,
        Role::Plain => index >= 2 && is_calm_plain(entry, current, lists),
    }
}

/// Flags the directory `dir`, all of whose `count` entries are read, if these are calm and its
/// shape is right.
fn flag_calm<D: Directories>(
    directories: &mut D,
    dir: u32,
    calm_so_far: bool,
    count: u32,
    calm: &mut FilledList<bool>,
) -> Result<(), ImageFault>
    requires { D.ready directories.old }
    ensures { FlagsIfCalm D.Directories dir (calm_so_far && nat_le 2 count) directories.old
        directories.new calm.old.items calm.new.items result }
{
    let number = dir as usize;
    if !calm_so_far || count < 2 || number >= calm.len() {
        return Ok(());
    }
    if directories.has_right_shape()? {
        calm.set(number, true);
    }
    Ok(())
}

/// Reads the directory `dir` of a level: counts its entries, discovers what they name, and flags
/// it in `calm` if nothing can be reported of it. No count grows by more than 2^28, since a
/// directory has no more entries (`Directories::start`). The counts before are at most 2^60: more
/// than all entries together, and far below 2^64.
fn read_reached<D: Directories>(
    directories: &mut D,
    lists: &mut Lists,
    dir: u32,
    top: usize,
) -> Result<usize, ImageFault>
    requires { CanReadReached D.Directories (2 ^ 60) top directories.old lists.old }
    ensures found { IfOk result (λ n. Discovers (2 ^ 28) top n
        (λ old new. ForKnown D.Directories directories.old (λ entries right_shape.
        ReadsReached dir (entries dir) (right_shape dir) old new))
        (found_up_to lists.old top) (found_up_to lists.new n)) }
    ensures leaves { LeavesLent D.Directories (λ cost. cost dir) directories.old directories.new
        lists.old lists.new result }
{
    let parent = number_of(lists.parents, dir as usize);
    let current = LentDir {
        kinds: lists.kinds,
        marked: lists.marked,
        any_marked: lists.any_marked,
        dir,
        parent,
    };
    let mut high = top;
    let mut calm_so_far = true;
    let mut count = 0u32;
    directories.start(dir)?;
    while let Some(entry) = directories.next()? {
        if entry.number == 0 {
            calm_so_far = calm_so_far && count >= 2;
            count += 1 + directories.skip_empty();
            continue;
        }
        count_entry(entry, current.kinds, lists.references, lists.named);
        calm_so_far = calm_so_far && is_calm_entry(entry, count, &current, lists);
        high = reach(entry, &current, lists, high);
        count += 1;
    }
    flag_calm(directories, dir, calm_so_far, count, lists.calm)?;
    Ok(high)
}

/// Reads the directories that are in `queue[low..high]`, one after another, and puts what they
/// discover after these.
///
/// # Errors
/// A read of the image that failed.
pub fn read_level<D: Directories>(
    directories: &mut D,
    lists: &mut Lists,
    low: usize,
    high: usize,
) -> Result<usize, ImageFault>
    requires { CanReadLevel D.Directories low high directories.old lists.old }
    ensures found { IfOk result (λ n. Discovers ((high - low) * 2 ^ 28) high n
        (λ old new. ForKnown D.Directories directories.old (λ entries right_shape.
        ReadsDirs (drop low old.queue) entries right_shape old new))
        (found_up_to lists.old high) (found_up_to lists.new n)) }
    ensures leaves { LeavesLent D.Directories
        (λ cost. sum_by cost (drop low (take high lists.old.queue.now.items)))
        directories.old directories.new lists.old lists.new result }
{
    let mut top = high;
    for at in low..high {
        let dir = number_of(lists.queue, at);
        top = read_reached(directories, lists, dir, top)?;
    }
    Ok(top)
}

/// Where an entry of the directory `dir` names a directory that isn't reached and has no parent
/// yet, makes `dir` its parent.
fn adopt(entry: EntryHead, dir: u32, lists: &mut Lists)
    ensures { Adopts dir (roled_of entry []) lists.old lists.new }
{
    if !is_new(entry, lists.kinds, lists) {
        return;
    }
    let number = entry.number as usize;
    if lists.parents[number] != 0 {
        return;
    }
    lists.parents.set(number, dir);
}

/// Reads the directory `dir`, which isn't reached: counts its entries, and gives a parent to what
/// they name.
///
/// # Errors
/// A read of the image that failed.
pub fn read_unreached<D: Directories>(
    directories: &mut D,
    lists: &mut Lists,
    dir: u32,
) -> Result<(), ImageFault>
    requires { CanCount D.Directories (2 ^ 60) directories.old lists.old }
    ensures { AddsUnreached D.Directories dir directories.old directories.new lists.old lists.new
        result }
{
    directories.start(dir)?;
    while let Some(entry) = directories.next()? {
        if entry.number == 0 {
            directories.skip_empty();
            continue;
        }
        count_entry(entry, lists.kinds, lists.references, lists.named);
        adopt(entry, dir, lists);
    }
    Ok(())
}

//! The verdict on a plain entry, what is reported by it, and what is remembered once the entry is
//! passed.
//!
//! Four words say that nothing is reported of an entry:
//! - *calm* (`ffs_survey`), as the survey reads it: by the kinds, the marks and what is reached by
//!   then. Where all entries of a directory are calm and its shape is right, they are quiet too
//!   (`calm_silent`), and phase 2 doesn't read the directory, unless it is marked.
//! - *quiet* (`look_chunk`), in the first look, of an entry of any role: by the flags and the parents
//!   too. Where all are, nothing is reported of them (`quiet_silent`): there is no second reading.
//! - *silent*, of a verdict: it has no line. A plain entry is quiet where its verdict is silent.
//! - *harmless* (`is_harmless`), asked before the verdict, which is then silent: by the kinds, the
//!   marks and the flags alone. An entry that names a directory never is; a calm one may name one.
ghost use Rattle.std.specs.{Prelude.{◌≡◌, ◌<◌, Bool, true, false, length, vec_len, IsTrue}, List.slice_index_or};
ghost use Rattle.ffs_volume.specs.Messages.Kinds.{reported};
ghost use Rattle.ffs_volume.specs.Directories.PathnameCheck.{defects_lines, defects_on, is_bad_whiteout, name_and_type_lines, suspect_message};
ghost use Rattle.ffs_volume.specs.{Directories.{PathnameCheck.{verdict_lines, verdict_on}, Roles.Volume}, Blocks.Inodes.is_allocated};
ghost use Rattle.ffs_layout.specs.Entry.{entry_value};
ghost use Rattle.ffs_pathnames.specs.{Gathers.asks_attr, SaysTreeMessages.SaysTreeMessages};
ghost use Rattle.ffs_pathnames.specs.{PassedNames.{after_roled, verdict_at_look, verdict_at_reading}, Stamps.KeepsWords};
ghost use Rattle.ffs_pathnames.specs.Sees.{CanLook, HasFlagAndWord, IsHarmless, Sees, passed_in};
ghost use Rattle.ffs_report.specs.Progress.{progress};

use crate::inodes::Inodes;
use crate::say::{LineIf, Phase2Line, say_line, say_two};
use ffs_layout::Entry;
use ffs_memory::FilledList;
use ffs_report::{EntryLine, OutFault, Output, Report};
use ffs_volume::constants::{
    DT_BLK, DT_CHR, DT_FIFO, DT_LNK, DT_REG, DT_SOCK, DT_WHT, ROOTINO, WINO,
};
use ffs_volume::verdict::{EntryDefects, Verdict};
use ffs_volume::{Attr, Role};
use ffs_workspace::without_due;

/// Whether an entry has the number or the type of a whiteout, and not both.
fn is_bad_whiteout(entry: &Entry<'_>) -> bool
    ensures { result ≡ is_bad_whiteout (entry_value entry.now) }
{
    (entry.number == WINO) != (entry.kind == DT_WHT)
}

/// What is wrong with a plain entry that names an allocated inode.
fn defects_of(
    inodes: &Inodes<'_>,
    entry: &Entry<'_>,
    first_naming: bool,
    parent_entry: bool,
) -> EntryDefects
    requires { entry.now.number < length inodes.now.kinds.now }
    ensures { (vol : Volume) → Sees vol inodes.now
        → IsTrue (is_allocated (vol.class entry.now.number))
        → result ≡ defects_on vol first_naming parent_entry (entry_value entry.now) }
{
    let number = entry.number;
    EntryDefects {
        first_of_suspect: first_naming && number != ROOTINO && inodes.is_suspect(number),
        marked: inodes.marked[number as usize],
        extraneous: !parent_entry && inodes.is_dir(number),
        wrong_type: inodes.has_wrong_type(number, entry.kind),
        label: inodes.kind(number).label(),
    }
}

/// The verdict on a plain entry: `first_naming` says that no plain entry before it names its
/// inode, and `parent_entry` that it is its parent entry. `first_naming` is asked only of a suspect
/// inode (`first_of_suspect`): of any other it may say anything.
pub fn verdict(
    inodes: &Inodes<'_>,
    entry: &Entry<'_>,
    first_naming: bool,
    parent_entry: bool,
) -> Verdict
    // Where its messages show the inode's attributes, the inode is one of the volume.
    ensures below { IsTrue (asks_attr result) → entry.now.number < length inodes.now.kinds.now }
    ensures is { (vol : Volume) → Sees vol inodes.now → result
        ≡ verdict_on vol first_naming parent_entry (entry_value entry.now) }
{
    if entry.number >= inodes.count() {
        return Verdict::OutOfRange;
    }
    if is_bad_whiteout(entry) {
        return Verdict::BadWhiteout;
    }
    if entry.number == WINO {
        return Verdict::Whiteout;
    }
    if !inodes.is_allocated(entry.number) {
        return Verdict::Unallocated;
    }
    Verdict::Named(defects_of(inodes, entry, first_naming, parent_entry))
}

/// Whether the inode is there, and flagged: so a plain entry has named it, if it is suspect. The
/// flag of any other inode says that it is calm, and nothing of names.
fn is_flagged(inodes: &Inodes<'_>, flags: &FilledList<bool>, inode: u32) -> bool
    requires { vec_len flags.now ≡ length inodes.now.kinds.now }
    ensures { result ≡ slice_index_or flags.now.items inode false }
{
    inode < inodes.count() && flags[inode as usize]
}

/// The verdict on a plain entry of a directory for the second reading of that directory. The entry
/// is the parent entry of its inode where the inode is stamped by the directory, since the passing
/// of a parent entry clears the stamp.
pub fn verdict_at_reading(
    inodes: &Inodes<'_>,
    dir: u32,
    flags: &FilledList<bool>,
    words: &FilledList<u32>,
    entry: &Entry<'_>,
) -> Verdict
    requires { HasFlagAndWord inodes.now flags.now.items words.now.items }
    // Where its messages show the inode's attributes, the inode is one of the volume.
    ensures below { IsTrue (asks_attr result) → entry.now.number < length inodes.now.kinds.now }
    ensures is { (vol : Volume) → Sees vol inodes.now → result
        ≡ verdict_at_reading vol dir (passed_in inodes.now flags.now.items words.now.items)
        (entry_value entry.now) }
{
    let first_naming = !is_flagged(inodes, flags, entry.number);
    let parent_entry = entry.number < inodes.count() && inodes.stamp_of(words, entry.number) == dir;
    verdict(inodes, entry, first_naming, parent_entry)
}

/// The verdict on a plain entry of a directory for a first look at it. The parent entry of a
/// directory is the first in its parent that names it, and the first look stamps the directory
/// there: so an entry in the parent is the parent entry where the directory isn't stamped yet.
pub fn verdict_at_look(
    inodes: &Inodes<'_>,
    dir: u32,
    flags: &FilledList<bool>,
    words: &FilledList<u32>,
    entry: &Entry<'_>,
) -> Verdict
    requires { CanLook inodes.now dir flags.now.items words.now.items }
    ensures { (vol : Volume) → Sees vol inodes.now → result
        ≡ verdict_at_look vol dir (passed_in inodes.now flags.now.items words.now.items)
        (entry_value entry.now) }
{
    let first_naming = !is_flagged(inodes, flags, entry.number);
    let parent_entry = entry.number < inodes.count()
        && inodes.belongs(dir, entry.number)
        && inodes.stamp_of(words, entry.number) != dir;
    verdict(inodes, entry, first_naming, parent_entry)
}

/// True only where a plain entry is a whiteout, or has the type of the file that it names, and that
/// file is either unmarked or named already by an entry before. Nothing is reported of such an entry, in
/// whichever directory it is. Most entries are so.
pub fn is_harmless(inodes: &Inodes<'_>, flags: &FilledList<bool>, entry: &Entry<'_>) -> bool
    requires { vec_len flags.now ≡ length inodes.now.kinds.now }
    ensures { IsTrue result → IsHarmless inodes.now flags.now.items (entry_value entry.now) }
{
    let number = entry.number as usize;
    if entry.number >= inodes.count() {
        return false;
    }
    match entry.kind {
        DT_WHT => entry.number == WINO,
        DT_FIFO | DT_CHR | DT_BLK | DT_REG | DT_LNK | DT_SOCK => {
            entry.number >= ROOTINO
                && entry.kind == inodes.kinds[number]
                && (!inodes.marked[number] || flags[number])
        }
        _ => false,
    }
}

/// Passes an entry of `dir`, which changes nothing unless it is plain. The inode that it names is
/// flagged, if it is suspect (the flag of any other says that it is calm). If it is stamped by
/// `dir`, its parent entry isn't due any more: its word says so, and keeps its place.
pub fn pass(
    inodes: &Inodes<'_>,
    dir: u32,
    flags: &mut FilledList<bool>,
    words: &mut FilledList<u32>,
    role: Role,
    entry: &Entry<'_>,
)
    requires { HasFlagAndWord inodes.now flags.old.items words.old.items }
    ensures after { (vol : Volume) → Sees vol inodes.now
        → after_roled vol dir (passed_in inodes.now flags.old.items words.old.items)
        (record { role = role; entry = entry_value entry.now })
        ≡ passed_in inodes.now flags.new.items words.new.items }
    ensures flags { vec_len flags.new ≡ vec_len flags.old }
    ensures words { KeepsWords words.old words.new }
{
    if role != Role::Plain {
        return;
    }
    if entry.number >= inodes.count() {
        return;
    }
    let index = entry.number as usize;
    if inodes.is_suspect(entry.number) {
        flags.set(index, true);
    }
    if inodes.stamp_of(words, entry.number) == dir {
        words.set(index, without_due(words[index]));
    }
}

/// Says that an inode is suspect, where this entry is the first that names it.
fn say_suspect<W: Output>(
    defects: &EntryDefects,
    attr: Attr,
    path: &[u8],
    report: &mut Report<'_, W>,
) -> Result<(), OutFault>
    ensures { SaysTreeMessages (progress W.sink report.old) (progress W.sink report.new)
        (reported defects.now.first_of_suspect (suspect_message defects.now attr path.now)) result }
{
    if !defects.first_of_suspect {
        return Ok(());
    }
    if defects.marked {
        return say_line(
            &Phase2Line::Entry(EntryLine::DupBad {
                label: defects.label,
                attr,
                path,
            }),
            report,
        );
    }
    say_line(
        &Phase2Line::Entry(EntryLine::ZeroDir { attr, path }),
        report,
    )
}

/// Says of an entry that it isn't the parent entry of the directory that it names, and that its
/// type isn't that of the inode, each where it is so.
fn say_name_and_type<W: Output>(
    defects: &EntryDefects,
    attr: Attr,
    path: &[u8],
    directory: &[u8],
    report: &mut Report<'_, W>,
) -> Result<(), OutFault>
    ensures { SaysTreeMessages (progress W.sink report.old) (progress W.sink report.new)
        (name_and_type_lines defects.now attr path.now directory.now) result }
{
    let extraneous = LineIf {
        holds: defects.extraneous,
        line: Phase2Line::Entry(EntryLine::Extraneous {
            path,
            dir_path: directory,
        }),
    };
    let wrong_type = LineIf {
        holds: defects.wrong_type,
        line: Phase2Line::Entry(EntryLine::TypeEntry {
            label: defects.label,
            attr,
            path,
        }),
    };
    say_two(&extraneous, &wrong_type, report)
}

/// Says what is wrong with an entry that names an allocated inode.
#[tactic(auto, using(crate::proofs::Saying::first_stops))]
fn say_defects<W: Output>(
    defects: &EntryDefects,
    attr: Attr,
    path: &[u8],
    directory: &[u8],
    report: &mut Report<'_, W>,
) -> Result<(), OutFault>
    ensures { SaysTreeMessages (progress W.sink report.old) (progress W.sink report.new)
        (defects_lines defects.now attr path.now directory.now) result }
{
    say_suspect(defects, attr, path, report)?;
    say_name_and_type(defects, attr, path, directory, report)
}

/// Says the lines of a plain entry's verdict.
///
/// # Errors
/// A write of the report that failed.
pub fn say_verdict<W: Output>(
    verdict: &Verdict,
    number: u32,
    attr: Attr,
    path: &[u8],
    directory: &[u8],
    report: &mut Report<'_, W>,
) -> Result<(), OutFault>
    ensures { SaysTreeMessages (progress W.sink report.old) (progress W.sink report.new)
        (verdict_lines verdict.now number attr path.now directory.now) result }
{
    match verdict {
        Verdict::OutOfRange => say_line(
            &Phase2Line::Entry(EntryLine::OutOfRange { number, path }),
            report,
        ),
        Verdict::BadWhiteout => say_line(
            &Phase2Line::Entry(EntryLine::BadWhiteout { number, path }),
            report,
        ),
        Verdict::Whiteout => Ok(()),
        Verdict::Unallocated => say_line(
            &Phase2Line::Entry(EntryLine::Unallocated { attr, path }),
            report,
        ),
        Verdict::Named(defects) => say_defects(defects, attr, path, directory, report),
    }
}

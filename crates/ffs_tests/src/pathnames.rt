//! The verdict on a plain entry, and whether a directory is in order, as a reader would work them
//! out by hand.

ghost use Rattle.ffs_pathnames.specs.Sees.{CanLook, HasFlagAndWord};

use crate::compare::same;
use ffs_layout::Entry;
use ffs_memory::FilledList;
use ffs_pathnames::inodes::Inodes;
use ffs_pathnames::verdict::{is_harmless, pass, say_verdict, verdict_at_look, verdict_at_reading};
use ffs_report::{Counted, OutFault, Report};
use ffs_samples::{flags, inode, numbers};
use ffs_volume::verdict::{DotDefects, EntryDefects, HeaderDefects, Verdict};
use ffs_volume::{Attr, Label, Role};
use ffs_workspace::with_due;
use std::alloc::{AllocError, Global};
use std::test::Fail;

/// Inode 2 is the root, 3 a file, 4 a directory, 6 a directory of size 0, 7 of no known type, 8 a
/// marked file.
static KINDS: [u8; 9] = [0, 0, 4, 8, 4, 0, 5, 15, 8];

static MARKED: [bool; 9] = [false, false, false, false, false, false, false, false, true];

static PARENTS: [u32; 9] = [0, 0, 0, 0, 2, 0, 2, 0, 0];

fn entry(number: u32, kind: u8) -> Entry<'static> {
    Entry {
        number,
        length: 16,
        kind,
        name: b"name",
    }
}

/// What is wrong with an entry that names an inode which isn't marked.
macro_rules! named {
    ($label:expr, $first_of_suspect:expr, $extraneous:expr, $wrong_type:expr) => {
        Verdict::Named(EntryDefects {
            first_of_suspect: $first_of_suspect,
            marked: false,
            extraneous: $extraneous,
            wrong_type: $wrong_type,
            label: $label,
        })
    };
}

/// The verdict on an entry of the root of this number and type, before any is passed.
fn verdict_on(number: u32, kind: u8, alloc: Global) -> Result<Verdict, AllocError> {
    let parents = numbers(&PARENTS, alloc)?;
    let marked = flags(&MARKED, alloc)?;
    let inodes = Inodes {
        kinds: &KINDS,
        marked: &marked,
        parents: &parents,
    };
    let words = numbers(&[0, 0, 0, 0, with_due(0), 0, with_due(0), 0, 0], alloc)?;
    let entry = entry(number, kind);
    let passed = flags(&[false; 9], alloc)?;
    Ok(verdict_at_reading(&inodes, 2, &passed, &words, &entry))
}

/// The number and the type of an entry, the verdict on it, and whether that has no message.
static VERDICTS: [(u32, u8, Verdict, bool); 13] = [
    (9, 8, Verdict::OutOfRange, false),
    (u32::MAX, 14, Verdict::OutOfRange, false),
    (1, 14, Verdict::Whiteout, true),
    (1, 8, Verdict::BadWhiteout, false),
    (5, 14, Verdict::BadWhiteout, false),
    (5, 8, Verdict::Unallocated, false),
    (3, 8, named!(Label::File, false, false, false), true),
    (3, 10, named!(Label::File, false, false, true), false),
    (4, 4, named!(Label::Dir, false, false, false), true),
    (4, 8, named!(Label::Dir, false, false, true), false),
    (2, 4, named!(Label::Dir, false, true, false), false),
    (6, 4, named!(Label::Dir, true, false, false), false),
    (7, 8, named!(Label::Name, false, false, false), true),
];

#[test]
fn entries_of_the_root(rt: HostRuntime) -> Result<(), Fail> {
    for &(number, kind, wanted, silent) in &VERDICTS {
        let verdict = verdict_on(number, kind, rt.alloc())?;
        let found = (number, kind, verdict, verdict.is_silent());
        same(&rt, &found, &(number, kind, wanted, silent));
    }
    Ok(())
}

/// The verdict on a marked file, before two entries of the root are passed; those on a directory
/// and on the file after it.
fn in_turn(
    inodes: &Inodes<'_>,
    passed: &mut FilledList<bool>,
    words: &mut FilledList<u32>,
) -> [Verdict; 3]
    requires { HasFlagAndWord inodes.now passed.old.items words.old.items }
{
    let directory = entry(4, 4);
    let file = entry(8, 8);
    let first = verdict_at_reading(inodes, 2, passed, words, &file);
    pass(inodes, 2, passed, words, Role::Plain, &directory);
    pass(inodes, 2, passed, words, Role::Plain, &file);
    [
        first,
        verdict_at_reading(inodes, 2, passed, words, &directory),
        verdict_at_reading(inodes, 2, passed, words, &file),
    ]
}

/// The same of the root, and then the word of the directory.
fn verdicts_in_turn(alloc: Global) -> Result<([Verdict; 3], u32), AllocError> {
    let parents = numbers(&PARENTS, alloc)?;
    let marked = flags(&MARKED, alloc)?;
    let inodes = Inodes {
        kinds: &KINDS,
        marked: &marked,
        parents: &parents,
    };
    let mut passed = flags(&[false; 9], alloc)?;
    let mut words = numbers(&[0, 0, 0, 0, with_due(7), 0, with_due(0), 0, 0], alloc)?;
    let verdicts = in_turn(&inodes, &mut passed, &mut words);
    Ok((verdicts, if words.len() > 4 { words[4] } else { 0 }))
}

/// The second entry of the root that names a directory is one too many; a marked file is reported
/// at the first alone. The place that is noted stays.
#[test]
fn second_names(rt: HostRuntime) -> Result<(), Fail> {
    let first = EntryDefects {
        first_of_suspect: true,
        marked: true,
        extraneous: false,
        wrong_type: false,
        label: Label::File,
    };
    let again = EntryDefects {
        first_of_suspect: false,
        ..first
    };
    let (found, place) = verdicts_in_turn(rt.alloc())?;
    same(
        &rt,
        &found,
        &[
            Verdict::Named(first),
            named!(Label::Dir, false, true, false),
            Verdict::Named(again),
        ],
    );
    same(&rt, &place, &7);
    Ok(())
}

/// What is wrong with a directory besides `.` and `..`: short, partial chunk, hole, unsound chunk.
/// Then whether `.` has a wrong number and `..` a wrong type, and whether nothing is wrong.
static HEADERS: [([bool; 4], bool, bool, bool); 7] = [
    ([false, false, false, false], false, false, true),
    ([true, false, false, false], false, false, false),
    ([false, true, false, false], false, false, false),
    ([false, false, true, false], false, false, false),
    ([false, false, false, true], false, false, false),
    ([false, false, false, false], true, false, false),
    ([false, false, false, false], false, true, false),
];

#[test]
fn headers(rt: HostRuntime) -> Result<(), Fail> {
    for &(shape, wrong_number, wrong_type, wanted) in &HEADERS {
        let [short, partial_chunk, gap, unsound] = shape;
        let mut defects: HeaderDefects<&[u8]> = HeaderDefects {
            short,
            partial_chunk,
            gap,
            unsound,
            dot: DotDefects::Found {
                wrong_number,
                wrong_type: false,
            },
            dotdot: DotDefects::Found {
                wrong_number: false,
                wrong_type,
            },
        };
        let found = defects.is_silent();
        defects.dot = DotDefects::Other { name: b"name" };
        same(&rt, &(found, defects.is_silent()), &(wanted, false));
    }
    Ok(())
}

/// Of each inode from 2 on: whether it is allocated, has another type than that of a file, belongs
/// to the root, and its parent entry is due there.
fn known_of(alloc: Global) -> Result<[[bool; 4]; 7], AllocError> {
    let parents = numbers(&PARENTS, alloc)?;
    let marked = flags(&MARKED, alloc)?;
    let inodes = Inodes {
        kinds: &KINDS,
        marked: &marked,
        parents: &parents,
    };
    let words = numbers(&[0, 0, 0, 0, with_due(7), 0, 7, 0, 0], alloc)?;
    let mut found = [[false; 4]; 7];
    for index in 0..7u32 {
        let inode = index + 2;
        found[index as usize] = [
            inodes.is_allocated(inode),
            inodes.has_wrong_type(inode, 8),
            inodes.belongs(2, inode),
            inodes.stamp_of(&words, inode) == 2,
        ];
    }
    Ok(found)
}

#[test]
fn what_is_known_of_inodes(rt: HostRuntime) -> Result<(), Fail> {
    let wanted = [
        [true, true, false, false],
        [true, false, false, false],
        [true, true, true, true],
        [false, true, false, false],
        [true, true, true, false],
        [true, false, false, false],
        [true, false, false, false],
    ];
    same(&rt, &known_of(rt.alloc())?, &wanted);
    Ok(())
}

/// Of an entry of this number and type: whether it is harmless before the marked file is named, and
/// after it.
fn harmless(number: u32, kind: u8, alloc: Global) -> Result<[bool; 2], AllocError> {
    let parents = numbers(&PARENTS, alloc)?;
    let marked = flags(&MARKED, alloc)?;
    let inodes = Inodes {
        kinds: &KINDS,
        marked: &marked,
        parents: &parents,
    };
    let before = flags(&[false; 9], alloc)?;
    let after = flags(&MARKED, alloc)?;
    let entry = entry(number, kind);
    Ok([
        is_harmless(&inodes, &before, &entry),
        is_harmless(&inodes, &after, &entry),
    ])
}

#[test]
fn harmless_entries(rt: HostRuntime) -> Result<(), Fail> {
    for (number, kind, wanted) in [
        (1, 14, [true, true]),
        (3, 8, [true, true]),
        (3, 10, [false, false]),
        (4, 4, [false, false]),
        (8, 8, [false, true]),
        (9, 8, [false, false]),
    ] {
        let found = harmless(number, kind, rt.alloc())?;
        same(&rt, &(number, kind, found), &(number, kind, wanted));
    }
    Ok(())
}

/// The verdict of a first look at the root on its entry for directory 4, which isn't stamped there
/// or is, and that of a first look at directory 4 on the same entry.
fn looked(alloc: Global) -> Result<[Verdict; 3], AllocError> {
    let parents = numbers(&PARENTS, alloc)?;
    let marked = flags(&MARKED, alloc)?;
    let inodes = Inodes {
        kinds: &KINDS,
        marked: &marked,
        parents: &parents,
    };
    let unstamped = numbers(&[0; 9], alloc)?;
    let stamped = numbers(&[0, 0, 0, 0, with_due(0), 0, 0, 0, 0], alloc)?;
    let passed = flags(&[false; 9], alloc)?;
    let entry = entry(4, 4);
    Ok([
        verdict_at_look(&inodes, 2, &passed, &unstamped, &entry),
        verdict_at_look(&inodes, 2, &passed, &stamped, &entry),
        verdict_at_look(&inodes, 4, &passed, &unstamped, &entry),
    ])
}

#[test]
fn entries_at_first_look(rt: HostRuntime) -> Result<(), Fail> {
    let parent_entry = named!(Label::Dir, false, false, false);
    let extraneous = named!(Label::Dir, false, true, false);
    same(
        &rt,
        &looked(rt.alloc())?,
        &[parent_entry, extraneous, extraneous],
    );
    Ok(())
}

/// What is said of a verdict on the entry `/a` of the root.
fn said(verdict: &Verdict, number: u32, alloc: Global) -> (Result<(), OutFault>, Vec<u8>) {
    let mut text = Vec::new(alloc);
    let mut out = Counted::new(&mut text);
    let mut report = Report::new(&mut out);
    let attr = Attr::of(number, &inode(0o100644, 100));
    let end = say_verdict(verdict, number, attr, b"/a", b"/", &mut report);
    (end, text)
}

#[test]
fn lines_of_verdicts(rt: HostRuntime) -> Result<(), Fail> {
    let wrong_type = named!(Label::File, false, false, true);
    for (verdict, wanted) in [
        (
            Verdict::OutOfRange,
            b"I OUT OF RANGE I=3\nNAME=/a\nREMOVE? no\n\n".as_slice(),
        ),
        (Verdict::Whiteout, b"".as_slice()),
        (
            wrong_type,
            b"BAD TYPE VALUE I=3 OWNER=0 MODE=100644\nSIZE=100 MTIME=0\nFILE=/a\nFIX? no\n\n".as_slice(),
        ),
    ] {
        let (end, text) = said(&verdict, 3, rt.alloc());
        end?;
        same(&rt, &text.as_slice(), &wanted);
    }
    Ok(())
}

//! A small volume: directory 3 below the root, with the file 4, and directories 5 and 6 that name
//! each other.
ghost use Rattle.std.specs.Prelude.{◌≡◌, IfOk, vec_len};

use crate::compare::same;
use ffs_image::ImageFault;
use ffs_memory::{FilledList, Memory, SystemMemory};
use ffs_samples::{flags, numbers, set_first_filled};
use ffs_survey::{
    Directories, EntryHead, FoundLists, KnownInodes, is_dead, is_dir, is_plain, is_suspect,
    may_be_unreached, number_of, survey_directories,
};
use ffs_volume::Role;
use std::alloc::{AllocError, Global};
use std::test::Fail;

/// How many entries each inode has here.
const ENTRIES_EACH: usize = 5;

/// Five entries for each of eight inodes. It reports nothing of an image.
#[derive(Drop)]
struct Listed {
    entries: &'static [[(Role, u32); ENTRIES_EACH]; 8],
    dir: usize,
    place: usize,
}

impl Directories for Listed {
    ghost use Rattle.std.specs.Prelude.{[], None, true, ◌-◌};

    ghost Base = { Unit {0} };

    ghost base = { λ _. tt };

    ghost knows = { λ _ _. ⊥ };

    ghost entries = { λ _ _ _. [] };

    ghost right_shape = { λ _ _ _. true };

    ghost device = { λ _. record { contents = None; size = 0; failures = 0; failed_sector = 0; lent = [] } };

    ghost ready = { λ _. Unit {0} };

    ghost rest = { λ _ _. [] };

    ghost left = { λ listed. 5 - listed.place };

    ghost name = { λ _. [] };

    ghost right_shape_so_far = { λ _ _. true };

    ghost ended = { λ _ _. Unit {0} };

    ghost reads = { λ _. 0 };

    ghost cost = { λ _ _ _. 0 };

    ghost to_read = { λ _ _. 0 };

    ghost held = { λ _. Unit {0} };

    fn start(&mut self, dir: u32) -> Result<(), ImageFault> {
        self.dir = dir as usize;
        self.place = 0;
        Ok(())
    }

    fn next(&mut self) -> Result<Option<EntryHead>, ImageFault> {
        if self.dir >= self.entries.len() || self.place >= ENTRIES_EACH {
            return Ok(None);
        }
        let (role, number) = self.entries[self.dir][self.place];
        self.place += 1;
        Ok(Some(entry_of(role, number)))
    }

    fn skip_empty(&mut self) -> u32 {
        if self.dir >= self.entries.len() || self.place >= ENTRIES_EACH {
            return 0;
        }
        if self.entries[self.dir][self.place].1 != 0 {
            return 0;
        }
        self.place += 1;
        1
    }

    fn has_right_shape(&mut self) -> Result<bool, ImageFault> {
        Ok(true)
    }
}

/// An entry of a directory: a free one, if it has no number.
fn entry_of(role: Role, number: u32) -> EntryHead {
    EntryHead {
        role: if number == 0 { Role::Empty } else { role },
        number,
        length: 12,
        kind: 4,
    }
}

const NONE: [(Role, u32); ENTRIES_EACH] = [(Role::Empty, 0); ENTRIES_EACH];

static ENTRIES: [[(Role, u32); ENTRIES_EACH]; 8] = [
    NONE,
    NONE,
    [
        (Role::Dot, 2),
        (Role::Dotdot, 2),
        (Role::Empty, 0),
        (Role::Empty, 0),
        (Role::Plain, 3),
    ],
    [
        (Role::Dot, 3),
        (Role::Dotdot, 2),
        (Role::Plain, 4),
        (Role::Extra, 2),
        (Role::Empty, 0),
    ],
    NONE,
    [
        (Role::Dot, 5),
        (Role::Dotdot, 6),
        (Role::Empty, 0),
        (Role::Empty, 0),
        (Role::Plain, 6),
    ],
    [
        (Role::Dot, 6),
        (Role::Dotdot, 5),
        (Role::Plain, 5),
        (Role::Empty, 0),
        (Role::Empty, 0),
    ],
    NONE,
];

static KINDS: [u8; 8] = [0, 0, 4, 4, 8, 4, 4, 8];

static PARENTS: [u32; 8] = [0, 0, 2, 2, 0, 6, 5, 0];

static NAMED: [bool; 8] = [false, false, false, true, true, true, true, false];

static REACHED: [bool; 8] = [false, false, true, true, false, false, false, false];

static STARTS: [u64; 8] = [7, 0, 32766, 40000, 1, 2, 3, 4];

/// Where counts start that continue from what the list holds, at most 32769.
fn starts(alloc: Global) -> Result<FilledList<u64>, AllocError>
    ensures { IfOk result (λ list. vec_len list ≡ 8) }
{
    let mut list = SystemMemory::new(alloc).long_numbers(8)?;
    set_first_filled(&mut list, &STARTS);
    Ok(list)
}

/// What a survey of the volume leaves.
#[derive(Drop)]
struct Left {
    references: [u64; 8],
    parents: [u32; 8],
    named: [bool; 8],
    reached: [bool; 8],
    calm: [bool; 8],
}

/// The first eight elements of a list, as far as it has them, and `none` for each other one.
fn firsts_of<T: Copy>(list: &FilledList<T>, none: T) -> [T; 8] {
    let mut firsts = [none; 8];
    for number in 0..8 {
        if number < list.len() {
            firsts[number] = list[number];
        }
    }
    firsts
}

fn left_by_survey(alloc: Global) -> Result<Left, Fail> {
    let mut references = starts(alloc)?;
    let mut named = flags(&[true; 8], alloc)?;
    let mut reached = flags(&[true; 8], alloc)?;
    let mut parents = numbers(&[7; 8], alloc)?;
    let mut calm = flags(&[true; 8], alloc)?;
    let mut queue = numbers(&[7; 8], alloc)?;
    let mut listed = Listed {
        entries: &ENTRIES,
        dir: 0,
        place: 0,
    };
    let marked = flags(&[false; 8], alloc)?;
    let inodes = KnownInodes {
        kinds: &KINDS,
        marked: &marked,
    };
    let mut found = FoundLists {
        references: &mut references,
        named: &mut named,
        reached: &mut reached,
        parents: &mut parents,
        calm: &mut calm,
        queue: &mut queue,
    };
    survey_directories(&mut listed, &inodes, &mut found)?;
    Ok(Left {
        references: firsts_of(&references, 0),
        parents: firsts_of(&parents, 0),
        named: firsts_of(&named, false),
        reached: firsts_of(&reached, false),
        calm: firsts_of(&calm, false),
    })
}

#[test]
fn surveys_a_tree_and_a_cycle(rt: HostRuntime) -> Result<(), Fail> {
    let left = left_by_survey(rt.alloc())?;
    same(&rt, &left.references, &[7, 0, 32769, 32771, 2, 5, 6, 4]);
    same(&rt, &left.parents, &PARENTS);
    same(&rt, &(left.named, left.reached), &(NAMED, REACHED));
    same(
        &rt,
        &left.calm,
        &[false, false, true, false, false, false, false, false],
    );
    Ok(())
}

/// Of the directories of the volume 5 and 6 aren't reached, and of the first five inodes all are.
#[test]
fn finds_that_a_directory_is_unreached(rt: HostRuntime) -> Result<(), AllocError> {
    let reached = flags(&REACHED, rt.alloc())?;
    let first = flags(&[false, false, true, true, false], rt.alloc())?;
    same(
        &rt,
        &[
            may_be_unreached(&KINDS, &reached),
            may_be_unreached(&[0, 0, 4, 4, 8], &first),
        ],
        &[true, false],
    );
    Ok(())
}

/// A directory after the flags that are touched, and none there.
#[test]
fn finds_unreached_where_none_is_touched(rt: HostRuntime) -> Result<(), AllocError> {
    let none = SystemMemory::new(rt.alloc()).flags(4)?;
    same(
        &rt,
        &[
            may_be_unreached(&[0, 0, 8, 4], &none),
            may_be_unreached(&[0, 4, 8, 8], &none),
        ],
        &[true, false],
    );
    Ok(())
}

#[test]
fn judges_single_inodes(rt: HostRuntime) -> Result<(), AllocError> {
    let named = flags(&NAMED, rt.alloc())?;
    let unmarked = flags(&[false; 8], rt.alloc())?;
    let marked = flags(&[true; 8], rt.alloc())?;
    same(&rt, &[is_dir(&KINDS, 3), is_dir(&KINDS, 4)], &[true, false]);
    same(
        &rt,
        &[
            is_dead(&KINDS, &unmarked, &named, 7),
            is_dead(&KINDS, &marked, &named, 7),
        ],
        &[false, true],
    );
    same(&rt, &is_suspect(&[0, 0, 5], &unmarked, 2), &true);
    Ok(())
}

/// A number of a list, and 0 past its end.
#[test]
fn numbers_of_a_list(rt: HostRuntime) -> Result<(), AllocError> {
    let list = numbers(&[7, 9], rt.alloc())?;
    let found = [
        number_of(&list, 0),
        number_of(&list, 1),
        number_of(&list, 2),
    ];
    same(&rt, &found, &[7, 9, 0]);
    Ok(())
}

#[test]
fn plain_roles(rt: HostRuntime) {
    for role in [Role::Empty, Role::Dot, Role::Dotdot, Role::Extra] {
        same(&rt, &is_plain(role), &false);
    }
    same(&rt, &is_plain(Role::Plain), &true);
}

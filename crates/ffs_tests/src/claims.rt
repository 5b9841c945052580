//! The block check of small images, as a reader would work it out by hand.

ghost use Rattle.std.specs.Prelude.{◌≡◌, ◌*◌, ◌≤◌, IfOk, length};
ghost use Rattle.ffs_workspace.specs.Ready.{IsReady};
ghost use Rattle.ffs_volume.specs.Disk.Areas.{FitsIn};

use crate::compare::same;
use ffs_claims::{phase1, phase1b};
use ffs_connectivity::phase3;
use ffs_image::{Image, MemoryImage};
use ffs_layout::{Geometry, Order};
use ffs_pathnames::phase2;
use ffs_report::{Counted, FuseWriter, Output, Report, RunFault};
use ffs_samples::{Number, Watched, geometry, put};
use ffs_workspace::Workspace;
use std::alloc::{AllocError, Global};
use std::test::Fail;

/// Words that are the same, one after the other: the place of the first one, how many they are, the
/// word.
type Words = (usize, usize, u64);

/// The inode 2: a directory of 512 bytes in the fragment 36.
static ROOT: [Number; 4] = [
    (28928, 4, 0x000241ed),
    (28936, 4, 512),
    (28968, 4, 36),
    (29032, 4, 2),
];

/// The inode 3 is at byte 29,056 and the inode 4 at 29,184; addresses are at 40, sectors at 104.
const SHARED: [Words; 8] = [
    (29056, 1, 0x000181a4),
    (29064, 1, 100),
    (29096, 1, 37),
    (29160, 1, 2),
    (29184, 1, 0x000181a4),
    (29192, 1, 100),
    (29224, 1, 37),
    (29288, 1, 2),
];

/// The inodes 3 and 5 share a fragment, and 4 and 6 another one.
const SHARED_TWICE: [Words; 16] = [
    (29056, 1, 0x000181a4),
    (29064, 1, 100),
    (29096, 1, 37),
    (29160, 1, 2),
    (29184, 1, 0x000181a4),
    (29192, 1, 100),
    (29224, 1, 38),
    (29288, 1, 2),
    (29312, 1, 0x000181a4),
    (29320, 1, 100),
    (29352, 1, 37),
    (29416, 1, 2),
    (29440, 1, 0x000181a4),
    (29448, 1, 100),
    (29480, 1, 38),
    (29544, 1, 2),
];

const TWELVE_BAD: [Words; 3] = [(29056, 1, 0x000181a4), (29064, 1, 49152), (29096, 12, 200)];

const TEN_BAD: [Words; 6] = [
    (29056, 1, 0x000181a4),
    (29064, 1, 49152),
    (29096, 10, 200),
    (29136, 1, 40),
    (29140, 1, 44),
    (29160, 1, 16),
];

/// A triple indirect block, all of whose words are its own address.
const TREE: [Words; 5] = [
    (29056, 1, 0x000181a4),
    (29064, 1, 4243456),
    (29068, 1, 1025),
    (29152, 1, 40),
    (40960, 1024, 40),
];

/// Writes words that are the same one after the other.
fn put_words(bytes: &mut [u8], words: &[Words])
    ensures { length bytes.new ≡ length bytes.old }
{
    for &(place, count, word) in words {
        for k in 0..count {
            let at = place.saturating_add(k.saturating_mul(4));
            put(Order::Little, bytes, &[(at, 4, word)]);
        }
    }
}

/// An image with the root and these words.
fn image_with(words: &[Words], alloc: Global) -> Result<MemoryImage, AllocError>
    ensures { IfOk result (λ m. length m ≡ 131072) }
{
    let mut bytes = vec![in alloc; 0u8; 131072]?;
    put(Order::Little, bytes.as_mut_slice(), &ROOT);
    put_words(bytes.as_mut_slice(), words);
    Ok(MemoryImage::new(bytes))
}

/// The block check, with phase 1b where there are duplicates.
fn check_blocks<I: Image, W: Output>(
    geometry: &Geometry,
    image: &mut I,
    workspace: &mut Workspace,
    report: &mut Report<'_, W>,
) -> Result<(), RunFault>
    requires { IsReady geometry.now.layout (I.device image.old) workspace.old }
{
    phase1(geometry, image, workspace, report)?;
    if workspace.has_dups() {
        phase1b(geometry, image, workspace, report)?;
    }
    Ok(())
}

/// What comes of the block check, and what it prints.
fn printed<I: Image>(
    geometry: &Geometry,
    image: &mut I,
    workspace: &mut Workspace,
    alloc: Global,
) -> (Result<(), RunFault>, Vec<u8>)
    requires { IsReady geometry.now.layout (I.device image.old) workspace.old }
{
    let mut text = Vec::new(alloc);
    let mut out = Counted::new(&mut text);
    let mut report = Report::new(&mut out);
    let end = check_blocks(geometry, image, workspace, &mut report);
    (end, text)
}

/// What the block check of an image gives, and how many Runs its two phases see.
fn checked<I: Image>(
    geometry: &Geometry,
    image: &mut I,
    alloc: Global,
) -> Result<(Vec<u8>, [u64; 2]), Fail>
    requires { FitsIn geometry.now.layout (I.device image.old).size }
{
    let mut workspace = Workspace::new(alloc, geometry)?;
    let (end, text) = printed(geometry, image, &mut workspace, alloc);
    let runs = workspace.runs();
    drop(workspace);
    end?;
    Ok((text, runs))
}

/// The same of the image with these words, and how many reads it makes.
fn checked_with(
    geometry: &Geometry,
    words: &[Words],
    alloc: Global,
) -> Result<(Vec<u8>, [u64; 2], u64), Fail>
    requires { geometry.now.layout.size * geometry.now.layout.fsize ≤ 131072 }
{
    let mut image = Watched::new(image_with(words, alloc)?);
    let (text, runs) = checked(geometry, &mut image, alloc)?;
    Ok((text, runs, image.reads))
}

/// Words, what is reported of the image that has them, and how many Runs the two phases see.
static CASES: [(&[Words], &[u8], [u64; 2]); 5] = [
    (
        &SHARED,
        b"** Phase 1 - Check Blocks and Sizes\n37 DUP I=4\n** Phase 1b - Rescan For More DUPS\n37 DUP I=3\n",
        [3, 2],
    ),
    (
        &SHARED_TWICE,
        b"** Phase 1 - Check Blocks and Sizes\n37 DUP I=5\n38 DUP I=6\n** Phase 1b - Rescan For More DUPS\n37 DUP I=3\n38 DUP I=4\n",
        [5, 3],
    ),
    (
        &TWELVE_BAD,
        b"** Phase 1 - Check Blocks and Sizes\n200 BAD I=3\n200 BAD I=3\n200 BAD I=3\n200 BAD I=3\n200 BAD I=3\n200 BAD I=3\n200 BAD I=3\n200 BAD I=3\n200 BAD I=3\n200 BAD I=3\n200 BAD I=3\nEXCESSIVE BAD BLKS I=3\nCONTINUE? yes\n\n",
        [12, 0],
    ),
    (
        &TEN_BAD,
        b"** Phase 1 - Check Blocks and Sizes\n200 BAD I=3\n200 BAD I=3\n200 BAD I=3\n200 BAD I=3\n200 BAD I=3\n200 BAD I=3\n200 BAD I=3\n200 BAD I=3\n200 BAD I=3\n200 BAD I=3\nINCORRECT BLOCK COUNT I=3 (16 should be 96)\nCORRECT? no\n\n",
        [13, 0],
    ),
    (
        &TREE,
        b"** Phase 1 - Check Blocks and Sizes\n40 DUP I=3\n41 DUP I=3\n42 DUP I=3\n43 DUP I=3\n40 DUP I=3\n41 DUP I=3\n42 DUP I=3\n43 DUP I=3\n40 DUP I=3\n41 DUP I=3\n42 DUP I=3\nEXCESSIVE DUP BLKS I=3\nCONTINUE? yes\n\n** Phase 1b - Rescan For More DUPS\n40 DUP I=3\n41 DUP I=3\n42 DUP I=3\n43 DUP I=3\n",
        [5, 2],
    ),
];

/// What is reported of each image, and how many Runs the two phases see: phase 1b ends as soon as
/// the first kept offer of each fragment with a DUP line is reported.
#[test]
fn block_checks(rt: HostRuntime) -> Result<(), Fail> {
    let geometry = geometry(Order::Little)?;
    for &(words, reported, runs) in &CASES {
        let (text, seen, reads) = checked_with(&geometry, words, rt.alloc())?;
        same(&rt, &text.as_slice(), &reported);
        same(&rt, &seen, &runs);
        same(&rt, &(reads <= 100), &true);
    }
    Ok(())
}

/// What `has_dups` answers after phases 1, 1b, 2 and 3.
fn answers_of_phases<I: Image, W: Output>(
    geometry: &Geometry,
    image: &mut I,
    workspace: &mut Workspace,
    report: &mut Report<'_, W>,
) -> Result<[bool; 4], RunFault>
    requires { IsReady geometry.now.layout (I.device image.old) workspace.old }
{
    phase1(geometry, image, workspace, report)?;
    let found = workspace.has_dups();
    phase1b(geometry, image, workspace, report)?;
    let reported = workspace.has_dups();
    phase2(geometry, image, workspace, report)?;
    let named = workspace.has_dups();
    phase3(geometry, image, workspace, report)?;
    Ok([found, reported, named, workspace.has_dups()])
}

/// The same of the image with these words.
fn answers_with(geometry: &Geometry, words: &[Words], alloc: Global) -> Result<[bool; 4], Fail>
    requires { geometry.now.layout.size * geometry.now.layout.fsize ≤ 131072 }
{
    let mut image = image_with(words, alloc)?;
    let mut workspace = Workspace::new(alloc, geometry)?;
    let mut text = Vec::new(alloc);
    let mut out = Counted::new(&mut text);
    let mut report = Report::new(&mut out);
    let answers = answers_of_phases(geometry, &mut image, &mut workspace, &mut report)?;
    Ok(answers)
}

/// `has_dups` answers after each phase as after phase 1, also when phase 1b has reported the first
/// kept offer of each duplicate: it is true where phase 1 has a DUP line, and only there.
#[test]
fn dups_stay_known(rt: HostRuntime) -> Result<(), Fail> {
    let geometry = geometry(Order::Little)?;
    same(
        &rt,
        &answers_with(&geometry, &SHARED, rt.alloc())?,
        &[true; 4],
    );
    same(
        &rt,
        &answers_with(&geometry, &TEN_BAD, rt.alloc())?,
        &[false; 4],
    );
    Ok(())
}

/// What two calls of phase 1b print of the image in which two fragments are shared, where the
/// output of the first one stops after so many bytes, and whether that one failed.
fn rescanned_twice(
    geometry: &Geometry,
    bytes: u64,
    alloc: Global,
) -> Result<(bool, Vec<u8>, Vec<u8>), Fail>
    requires { geometry.now.layout.size * geometry.now.layout.fsize ≤ 131072 }
{
    let mut image = image_with(&SHARED_TWICE, alloc)?;
    let mut workspace = Workspace::new(alloc, geometry)?;
    let mut before = Vec::new(alloc);
    let mut out = Counted::new(&mut before);
    phase1(
        geometry,
        &mut image,
        &mut workspace,
        &mut Report::new(&mut out),
    )?;
    let mut first = FuseWriter::new(Vec::new(alloc), bytes);
    let mut out = Counted::new(&mut first);
    let stopped = phase1b(
        geometry,
        &mut image,
        &mut workspace,
        &mut Report::new(&mut out),
    );
    let mut second = Vec::new(alloc);
    let mut out = Counted::new(&mut second);
    phase1b(
        geometry,
        &mut image,
        &mut workspace,
        &mut Report::new(&mut out),
    )?;
    Ok((stopped.is_err(), first.into_inner(), second))
}

/// A line in which the output failed is printed by a second call of phase 1b, and so is each that
/// comes after it; one that was printed whole isn't printed again.
#[test]
fn phase1b_continues(rt: HostRuntime) -> Result<(), Fail> {
    let geometry = geometry(Order::Little)?;
    let heading = b"** Phase 1b - Rescan For More DUPS\n".as_slice();
    let cases: [(u64, &[u8], &[u8]); 2] = [
        (38, b"37 ", b"37 DUP I=3\n38 DUP I=4\n"),
        (49, b"37 DUP I=3\n38 ", b"38 DUP I=4\n"),
    ];
    for &(bytes, before, after) in &cases {
        let (failed, first, second) = rescanned_twice(&geometry, bytes, rt.alloc())?;
        same(&rt, &failed, &true);
        same(&rt, &first.strip_prefix(heading), &Some(before));
        same(&rt, &second.strip_prefix(heading), &Some(after));
    }
    Ok(())
}

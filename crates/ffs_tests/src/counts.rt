//! The reference check, the group check and the summary of small volumes, as a reader would work
//! them out by hand.

ghost use Rattle.std.specs.Prelude.{◌≡◌, IfOk, length};
ghost use Rattle.ffs_workspace.specs.{Lengths.IsFor, Ready.IsReady};
ghost use Rattle.ffs_volume.specs.Blocks.Inodes.{inodes_of};

use crate::compare::same;
use ffs_claims::phase1;
use ffs_counts::{phase4, phase5, summary};
use ffs_image::{Image, MemoryImage};
use ffs_layout::{Geometry, Order, Super};
use ffs_report::{Counted, Output, Report, RunFault};
use ffs_samples::{Number, geometry, image_of, put, set_first, set_first_filled};
use ffs_workspace::Workspace;
use std::alloc::{AllocError, Global};
use std::test::Fail;

/// The counts of references of inodes 0 to 7.
static REFERENCES: [u64; 8] = [0, 0, 32766 + 2, 32767, 32769, 32767 + 2, 32769, 32767];

/// What phases before have found. Directory 2 has two references; the files 3 to 5 have none, none
/// and two, and 3 is marked and named by an entry; 6 is an empty directory and 7 a marked file,
/// neither of them named. Each count is the references and 32768 less the links, or 32769 where
/// there is no link.
fn referred(alloc: Global, geometry: &Geometry) -> Result<Workspace, AllocError>
    requires { inodes_of geometry.now.layout ≡ 32 }
    ensures made { IfOk result (λ w. IsFor geometry.now.layout w) }
{
    let mut workspace = Workspace::new(alloc, geometry)?;
    set_first(&mut workspace.kinds, &[0, 0, 4, 8, 8, 8, 5, 8]);
    set_first_filled(
        &mut workspace.marked,
        &[false, false, false, false, false, false, false, true],
    );
    set_first_filled(&mut workspace.references, &REFERENCES);
    Ok(workspace)
}

/// The modes and links of inodes 2 to 7: 2 links, 1, 0, 1, 0 and 1.
static INODES: [Number; 10] = [
    (28928, 2, 0o40755),
    (28930, 2, 2),
    (29056, 2, 0o100644),
    (29058, 2, 1),
    (29184, 2, 0o100644),
    (29312, 2, 0o100600),
    (29314, 2, 1),
    (29440, 2, 0o40700),
    (29568, 2, 0o100644),
    (29570, 2, 1),
];

/// What comes of the reference check, and what it prints.
fn printed<I: Image>(
    geometry: &Geometry,
    image: &mut I,
    workspace: &mut Workspace,
    alloc: Global,
) -> (Result<(), RunFault>, Vec<u8>)
    requires { IsReady geometry.now.layout (I.device image.old) workspace.old }
    ensures { IsFor geometry.now.layout workspace.new }
{
    let mut text = Vec::new(alloc);
    let mut out = Counted::new(&mut text);
    let mut report = Report::new(&mut out);
    let end = phase4(geometry, image, workspace, &mut report);
    (end, text)
}

/// The same of these inodes.
fn reported(alloc: Global) -> Result<Vec<u8>, Fail> {
    let geometry = geometry(Order::Big)?;
    let mut image = image_of(Order::Big, &INODES, alloc)?;
    let mut workspace = referred(alloc, &geometry)?;
    let (end, text) = printed(&geometry, &mut image, &mut workspace, alloc);
    drop(workspace);
    end?;
    Ok(text)
}

#[test]
fn reference_check(rt: HostRuntime) -> Result<(), Fail> {
    let text = reported(rt.alloc())?;
    same(
        &rt,
        &text.as_slice(),
        &b"** Phase 4 - Check Reference Counts\nUNREF FILE I=3 OWNER=0 MODE=100644\nSIZE=0 MTIME=0\nRECONNECT? no\n\nCLEAR? no\n\nUNREF FILE I=4 OWNER=0 MODE=100644\nSIZE=0 MTIME=0\nCLEAR? no\n\nLINK COUNT FILE I=5 OWNER=0 MODE=100600\nSIZE=0 MTIME=0\nCOUNT=1 SHOULD BE 2\nADJUST? no\n\nZERO LENGTH DIR I=6 OWNER=0 MODE=40700\nSIZE=0 MTIME=0\nCLEAR? no\n\nBAD/DUP FILE I=7 OWNER=0 MODE=100644\nSIZE=0 MTIME=0\nCLEAR? no\n\n".as_slice(),
    );
    Ok(())
}

/// Inodes 2 to 7 of another volume of the same layout: each is a file of 512 bytes with a link.
static OTHERS: [Number; 18] = [
    (28928, 2, 0o100644),
    (28930, 2, 1),
    (28936, 8, 512),
    (29056, 2, 0o100644),
    (29058, 2, 1),
    (29064, 8, 512),
    (29184, 2, 0o100644),
    (29186, 2, 1),
    (29192, 8, 512),
    (29312, 2, 0o100644),
    (29314, 2, 1),
    (29320, 8, 512),
    (29440, 2, 0o100644),
    (29442, 2, 1),
    (29448, 8, 512),
    (29568, 2, 0o100644),
    (29570, 2, 1),
    (29576, 8, 512),
];

/// What the reference check prints of these inodes, in a workspace by which it has read the others.
fn reported_after(alloc: Global) -> Result<Vec<u8>, Fail> {
    let geometry = geometry(Order::Big)?;
    let mut others = image_of(Order::Big, &OTHERS, alloc)?;
    let mut image = image_of(Order::Big, &INODES, alloc)?;
    let mut workspace = referred(alloc, &geometry)?;
    let (before, _) = printed(&geometry, &mut others, &mut workspace, alloc);
    let (end, text) = printed(&geometry, &mut image, &mut workspace, alloc);
    drop(workspace);
    before?;
    end?;
    Ok(text)
}

/// A phase reads the image that it is given: the windows that another image was read into don't
/// count.
#[test]
fn another_image(rt: HostRuntime) -> Result<(), Fail> {
    let after = reported_after(rt.alloc())?;
    let alone = reported(rt.alloc())?;
    same(&rt, &after.as_slice(), &alone.as_slice());
    Ok(())
}

/// A root in the fragment 36, and the records of its group: the group block is at byte 24,576.
static ROOT: [Number; 21] = [
    (28928, 2, 0o40755),
    (28936, 8, 512),
    (28968, 4, 36),
    (29032, 4, 2),
    (24580, 4, 0x090255),
    (24596, 4, 128),
    (24600, 4, 1),
    (24604, 4, 22),
    (24608, 4, 29),
    (24612, 4, 6),
    (24640, 4, 2),
    (24668, 4, 168),
    (24672, 4, 172),
    (24744, 4, 0x07),
    (24752, 4, 0xffff_ffee),
    (24756, 4, 0xffff_ffff),
    (24760, 4, 0xffff_ffff),
    (32768, 4, 1),
    (32772, 4, 22),
    (32776, 4, 29),
    (32780, 4, 6),
];

/// An image with a volume's numbers and one more.
fn volume_with(numbers: &[Number], number: Number, alloc: Global) -> Result<MemoryImage, AllocError>
    ensures { IfOk result (λ m. length m ≡ 131072) }
{
    let mut bytes = vec![in alloc; 0u8; 131072]?;
    put(Order::Little, bytes.as_mut_slice(), numbers);
    put(Order::Little, bytes.as_mut_slice(), &[number]);
    Ok(MemoryImage::new(bytes))
}

/// The block check, the group check and the summary.
fn check_groups<I: Image, W: Output>(
    superblock: &Super,
    image: &mut I,
    workspace: &mut Workspace,
    report: &mut Report<'_, W>,
) -> Result<(), RunFault>
    requires { IsReady superblock.now.geometry.layout (I.device image.old) workspace.old }
{
    phase1(&superblock.geometry, image, workspace, report)?;
    phase5(superblock, image, workspace, report)?;
    summary(superblock, workspace, report)
}

/// What comes of them, and what they print.
fn groups_printed<I: Image>(
    superblock: &Super,
    image: &mut I,
    workspace: &mut Workspace,
    alloc: Global,
) -> (Result<(), RunFault>, Vec<u8>)
    requires { IsReady superblock.now.geometry.layout (I.device image.old) workspace.old }
{
    let mut text = Vec::new(alloc);
    let mut out = Counted::new(&mut text);
    let mut report = Report::new(&mut out);
    let end = check_groups(superblock, image, workspace, &mut report);
    (end, text)
}

/// What they print of the root's volume with one number more, where the superblock counts this many
/// free fragments.
fn counted(fragments: i32, number: Number, alloc: Global) -> Result<Vec<u8>, Fail> {
    let superblock = Super {
        geometry: geometry(Order::Little)?,
        optim: 0,
        minfree: 10,
        cstotal: [1, 22, 29, fragments],
        mount: [0; 512],
    };
    let mut image = volume_with(&ROOT, number, alloc)?;
    let mut workspace = Workspace::new(alloc, &superblock.geometry)?;
    let (end, text) = groups_printed(&superblock, &mut image, &mut workspace, alloc);
    drop(workspace);
    end?;
    Ok(text)
}

/// The headings of the two phases, the lines of defects, and the last line.
fn expected(defects: &[u8], last: &[u8], alloc: Global) -> Result<Vec<u8>, Fail> {
    let mut text = Vec::new(alloc);
    text.extend_from_slice(
        b"** Phase 1 - Check Blocks and Sizes\n** Phase 5 - Check Cyl groups\n".as_slice(),
    )?;
    text.extend_from_slice(defects)?;
    text.extend_from_slice(last)?;
    Ok(text)
}

const RIGHT: &[u8] = b"1 files, 1 used, 94 free (6 frags, 22 blocks, 6.3% fragmentation)\n";

/// The free fragments of the superblock, a number, the lines of defects, and the last line.
static GROUPS: [(i32, Number, &[u8], &[u8]); 6] = [
    (6, (0, 1, 0), b"", RIGHT),
    (
        7,
        (0, 1, 0),
        b"FREE BLK COUNT(S) WRONG IN SUPERBLK\nSALVAGE? no\n\n",
        b"1 files, 1 used, 95 free (7 frags, 22 blocks, 7.3% fragmentation)\n",
    ),
    (
        6,
        (32780, 4, 7),
        b"FREE BLK COUNT(S) WRONG IN SUPERBLK\nSALVAGE? no\n\n",
        RIGHT,
    ),
    (
        6,
        (24752, 1, 0xce),
        b"BLK(S) MISSING IN BIT MAPS\nSALVAGE? no\n\n",
        RIGHT,
    ),
    (
        6,
        (24612, 4, 7),
        b"SUMMARY INFORMATION BAD\nSALVAGE? no\n\n",
        RIGHT,
    ),
    (6, (24580, 4, 0), b"CG 0: BAD MAGIC NUMBER\n", RIGHT),
];

/// Nothing is wrong; the superblock, the summary record, the fragment map, the group's count of
/// fragments, its magic.
#[test]
fn group_checks(rt: HostRuntime) -> Result<(), Fail> {
    for &(fragments, number, defects, last) in &GROUPS {
        let text = counted(fragments, number, rt.alloc())?;
        same(&rt, &text, &expected(defects, last, rt.alloc())?);
    }
    Ok(())
}

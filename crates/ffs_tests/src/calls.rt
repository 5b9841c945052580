//! Each public call of the crate `ffs` that its example doesn't make, once, over the volume with a
//! root alone.

ghost use Rattle.std.specs.Prelude.{ℕ, List, Option, IfOk};
ghost use Rattle.ffs_walk.specs.Windows.{BlocksHold, CanWalk, HasRoom};

use crate::check::{REPORT, volume, volume_bytes};
use crate::compare::same;
use crate::names::chunks_of;
use ffs::{
    Blocks, Chunks, Class, Counted, FuseWriter, Geometry, Group, GroupSummary, Image, ImageFault,
    Inode, Line, Memory, MemoryImage, MutedWriter, OpenFault, Opener, Order, Report, Role, Step,
    SystemMemory, Walk, Workspace, class_of, decode_inode, entry_at, read_super, role_of, run_over,
};
use ffs_samples::{ORDERS, geometry, image_of, inode};
use std::alloc::{AllocError, Global};
use std::test::Fail;

/// Where the root's inode, its chunk, the group block and the summary lie, in bytes.
const INODE_PLACE: usize = 28_928;

const CHUNK_PLACE: usize = 36_864;

const GROUP_PLACE: usize = 24_576;

const SUMMARY_PLACE: usize = 32_768;

/// The bytes of the volume from a place on.
fn bytes_from<const N: usize>(
    order: Order,
    place: usize,
    alloc: Global,
) -> Result<[u8; N], AllocError> {
    let bytes = volume_bytes(order, &[], alloc)?;
    let mut part = [0; N];
    for index in 0..N {
        if place < bytes.len() && index < bytes.len() - place {
            part[index] = bytes[place + index];
        }
    }
    Ok(part)
}

#[test]
fn decoders(rt: HostRuntime) -> Result<(), Fail> {
    for order in ORDERS {
        let geometry = geometry(order)?;
        let root = decode_inode(order, &bytes_from::<128>(order, INODE_PLACE, rt.alloc())?);
        same(
            &rt,
            &(root.mode, root.nlink, root.size, root.addresses[0]),
            &(0o40755, 2, 512, 36),
        );
        same(&rt, &class_of(&geometry, &root), &Class::Dir);
        let group = Group::decode(order, &bytes_from::<168>(order, GROUP_PLACE, rt.alloc())?);
        same(
            &rt,
            &(group.magic, group.ndblk, group.frsum[3]),
            &(0x090255, 128, 2),
        );
        let summary = GroupSummary::decode(
            order,
            0,
            &bytes_from::<16>(order, SUMMARY_PLACE, rt.alloc())?,
        );
        same(
            &rt,
            &[
                summary.dirs,
                summary.blocks,
                summary.inodes,
                summary.fragments,
            ],
            &[1, 22, 29, 6],
        );
    }
    Ok(())
}

/// The number, the record's length, the name's length and the role of the second entry of a chunk.
fn second_entry(order: Order, chunk: &[u8; 512]) -> Option<(u32, u16, usize, Role)> {
    let entry = entry_at(order, chunk, 12)?;
    Some((
        entry.number,
        entry.length,
        entry.name.len(),
        role_of(true, 1, &entry),
    ))
}

#[test]
fn entries(rt: HostRuntime) -> Result<(), Fail> {
    for order in ORDERS {
        let chunk = bytes_from::<512>(order, CHUNK_PLACE, rt.alloc())?;
        same(
            &rt,
            &second_entry(order, &chunk),
            &Some((2, 500, 2, Role::Dotdot)),
        );
    }
    Ok(())
}

/// The numbers of a layout by their names: where the parts of a group begin, in fragments, and what
/// the volume has.
fn numbers_of(geometry: &Geometry) -> ([u32; 12], [u32; 12]) {
    (
        [
            geometry.sblkno(),
            geometry.cblkno(),
            geometry.iblkno(),
            geometry.dblkno(),
            geometry.cgmask(),
            geometry.size(),
            geometry.dsize(),
            geometry.ncg(),
            geometry.bsize(),
            geometry.fsize(),
            geometry.frag(),
            geometry.sbsize(),
        ],
        [
            geometry.nindir(),
            geometry.inopb(),
            geometry.csaddr(),
            geometry.cssize(),
            geometry.cgsize(),
            geometry.ncyl(),
            geometry.cpg(),
            geometry.ipg(),
            geometry.fpg(),
            geometry.maxsymlinklen(),
            geometry.inodefmt(),
            geometry.postblformat(),
        ],
    )
}

#[test]
fn numbers_of_layout(rt: HostRuntime) -> Result<(), Fail> {
    for order in ORDERS {
        let geometry = geometry(order)?;
        let (first, second) = numbers_of(&geometry);
        same(
            &rt,
            &first,
            &[16, 24, 28, 32, 0xffff_ffff, 128, 95, 1, 4096, 1024, 4, 2048],
        );
        same(
            &rt,
            &second,
            &[1024, 32, 32, 1024, 1024, 1, 1, 32, 128, 60, 2, 1],
        );
        same(&rt, &(geometry.cgoffset(), geometry.order()), &(0, order));
    }
    Ok(())
}

/// Blocks that hold nothing.
fn empty_blocks(geometry: &Geometry, alloc: Global) -> Result<Blocks, AllocError>
    ensures room { IfOk result (HasRoom geometry.now.layout) }
    ensures holds { (contents : Option (List ℕ))
        → IfOk result (BlocksHold geometry.now.layout contents) }
{
    let buffer = SystemMemory::new(alloc).bytes(3 * geometry.layout.bsize as usize)?;
    Ok(Blocks::over(buffer))
}

/// The first two steps of an inode's walk.
fn steps_of<I: Image>(
    geometry: &Geometry,
    inode: &Inode,
    image: &mut I,
    blocks: &mut Blocks,
) -> Result<[Option<Step>; 2], ImageFault>
    requires { CanWalk geometry.now.layout (I.device image.old) blocks.old }
{
    let mut walk = Walk::start(geometry, inode);
    let first = walk.next(image, blocks)?;
    let second = walk.next(image, blocks)?;
    Ok([first, second])
}

/// The root, whose chunk is fragment 36.
fn root() -> Inode {
    let mut root = inode(0o40755, 512);
    root.addresses[0] = 36;
    root
}

/// The first two steps of the root's walk.
fn root_steps(order: Order, alloc: Global) -> Result<[Option<Step>; 2], Fail> {
    let geometry = geometry(order)?;
    let mut image = image_of(order, &[], alloc)?;
    let mut blocks = empty_blocks(&geometry, alloc)?;
    let found = steps_of(&geometry, &root(), &mut image, &mut blocks);
    drop(blocks);
    Ok(found?)
}

/// The place of the root's only chunk, its first byte and its last.
static ROOT_CHUNKS: [(u64, u8, u8); 1] = [(0, 7, 0)];

/// The chunks of the root, whose first byte is 7, and how many Runs their reading has seen.
fn root_chunks(order: Order, alloc: Global) -> Result<(Vec<(u64, u8, u8)>, u64), Fail> {
    let geometry = geometry(order)?;
    let mut image = image_of(order, &[(36_864, 1, 7)], alloc)?;
    let mut chunks = Chunks::start(&geometry, &root(), 0);
    let found = chunks_of(&geometry, &mut chunks, &mut image, alloc)?;
    Ok((found, chunks.runs()))
}

#[test]
fn walks(rt: HostRuntime) -> Result<(), Fail> {
    let run = Step::Run {
        start: 36,
        len: 1,
        block: Some(0),
    };
    for order in ORDERS {
        same(&rt, &root_steps(order, rt.alloc())?, &[Some(run), None]);
        let (chunks, runs) = root_chunks(order, rt.alloc())?;
        same(&rt, &chunks.as_slice(), &ROOT_CHUNKS.as_slice());
        same(&rt, &runs, &1);
    }
    Ok(())
}

/// A message is said twice to an output that takes 30 bytes: whether each went out, whether one is
/// a defect, and what was taken.
fn said_twice(alloc: Global) -> ([bool; 3], Vec<u8>) {
    let mut writer = MutedWriter::new(FuseWriter::new(Vec::new(alloc), 30));
    let mut out = Counted::new(&mut writer);
    let mut report = Report::new(&mut out);
    let line = Line::CannotRead { sector: 72 };
    let said = [
        report.say(&line).is_ok(),
        report.say(&line).is_ok(),
        report.any_defect(),
    ];
    (said, writer.into_inner().into_inner())
}

#[test]
fn messages(rt: HostRuntime) {
    let (said, text) = said_twice(rt.alloc());
    same(&rt, &said, &[true, false, false]);
    same(&rt, &text.starts_with(b"CAN NOT READ: BLK 72\n"), &true);
    same(&rt, &(text.len() <= 30), &true);
}

/// The memory that a workspace of the volume holds, in bytes, whether it has duplicates, the cut of
/// the root, and how many Runs its readings saw.
fn fresh_workspace(order: Order, alloc: Global) -> Result<(u64, bool, u32, [u64; 2]), Fail> {
    let geometry = geometry(order)?;
    let workspace = Workspace::new(alloc, &geometry)?;
    Ok((
        workspace.held(),
        workspace.has_dups(),
        workspace.noted_cut(2),
        workspace.runs(),
    ))
}

/// It holds at most three maps of 128 fragments, 25 bytes for each of 32 inodes, eight blocks, and
/// 4,096 bytes.
#[test]
fn workspaces(rt: HostRuntime) -> Result<(), Fail> {
    for order in ORDERS {
        let (held, dups, cut, runs) = fresh_workspace(order, rt.alloc())?;
        same(&rt, &(0 < held && held <= 37_712), &true);
        same(&rt, &(dups, cut, runs), &(false, 0, [0, 0]));
    }
    Ok(())
}

/// Where a volume has its group block, its summary record and the root's inode, in bytes; none
/// where it has no group or no inode 2.
fn places_of(geometry: &Geometry) -> Option<[u64; 3]> {
    if geometry.layout.ncg == 0 || geometry.inodes() <= 2 {
        return None;
    }
    Some([
        geometry.group_place(0),
        geometry.summary_place(0),
        geometry.inode_place(2),
    ])
}

/// What the superblock of the volume says: whether its settings are valid, and the places of its
/// parts.
fn super_of(order: Order, alloc: Global) -> Result<([bool; 3], Option<[u64; 3]>), Fail> {
    let mut image = volume(order, &[], alloc)?;
    let found = read_super(&mut image, None)?;
    let settings = [
        found.has_valid_optim(),
        found.has_valid_minfree(),
        found.opening_defects(),
    ];
    Ok((settings, places_of(&found.geometry)))
}

#[test]
fn superblocks(rt: HostRuntime) -> Result<(), Fail> {
    for order in ORDERS {
        let wanted = ([true, true, false], Some([24_576, 32_768, 28_928]));
        same(&rt, &super_of(order, rt.alloc())?, &wanted);
    }
    Ok(())
}

/// Opens the volume, as an image in memory, under one name.
#[derive(Drop)]
struct OneImage {
    order: Order,
    alloc: Global,
}

impl Opener for OneImage {
    type Image = MemoryImage;

    ghost opens = { λ _ _ _ _. Unit {0} };

    ghost refuses = { λ _ _ _. Unit {0} };

    fn open(&mut self, name: &str) -> Result<MemoryImage, OpenFault> {
        if name != "t.img" {
            return Err(OpenFault);
        }
        match volume(self.order, &[], self.alloc) {
            Ok(image) => Ok(image),
            Err(_) => Err(OpenFault),
        }
    }
}

/// The status of a run over these words, and what it prints to both writers.
fn run_of(order: Order, words: &[&str], alloc: Global) -> (u8, Vec<u8>, Vec<u8>) {
    let mut opener = OneImage { order, alloc };
    let mut text = Vec::new(alloc);
    let mut errors = Vec::new(alloc);
    let mut out = Counted::new(&mut text);
    let status = run_over(&mut opener, alloc, words, &mut out, &mut errors);
    (status, text, errors)
}

#[test]
fn runs_over_an_opener(rt: HostRuntime) {
    for order in ORDERS {
        let (status, text, errors) = run_of(order, &["-n", "t.img"], rt.alloc());
        same(
            &rt,
            &(status, text.len(), errors.len()),
            &(0, REPORT.len(), 0),
        );
        let (status, text, errors) = run_of(order, &["-n", "u.img"], rt.alloc());
        same(&rt, &(status, errors.len()), &(8, 0));
        same(&rt, &text.as_slice(), &b"Can't open u.img\n".as_slice());
    }
}

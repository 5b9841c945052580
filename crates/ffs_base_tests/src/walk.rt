//! The steps and the classes of inodes that a reader would work out by hand, in both orders.

ghost use Rattle.std.specs.Prelude.{◌≡◌, ◌*◌, ◌≤◌, ℕ, List, Option, IfOk};
ghost use Rattle.ffs_walk.specs.{Rests.IsAtTop, Windows.{BlocksHold, CanWalk, HasRoom}};
ghost use Rattle.ffs_volume.specs.Disk.Areas.{FitsIn};

use crate::compare::same;
use ffs_image::{FuseImage, Image, ImageFault};
use ffs_layout::{Geometry, Inode, Order};
use ffs_memory::{Memory, SystemMemory};
use ffs_samples::{Number, ORDERS, Stop, Watched, geometry, image_of, inode};
use ffs_volume::{Class, Step};
use ffs_walk::{Blocks, Keeping, Walk, any_set, class_of, has_steps, is_device, is_short_symlink};
use std::alloc::{AllocError, Global};
use std::process::Abort;
use std::test::Fail;

/// The run of a data block.
macro_rules! data {
    ($start:expr, $len:expr, $block:expr) => {
        Step::Run {
            start: $start,
            len: $len,
            block: Some($block),
        }
    };
}

/// The run of an indirect block.
macro_rules! indirect {
    ($start:expr) => {
        Step::Run {
            start: $start,
            len: 4,
            block: None,
        }
    };
}

/// A word of a block, by the block's address and the word's index.
macro_rules! word {
    ($address:expr, $index:expr, $number:expr) => {
        (1024 * $address + 4 * $index, 4, $number)
    };
}

/// An inode with these addresses first.
fn inode_with(mode: u16, size: u64, addresses: &[u32]) -> Inode {
    let mut found = inode(mode, size);
    for (index, address) in addresses.iter().enumerate() {
        if index < 15 {
            found.addresses[index] = *address;
        }
    }
    found
}

/// Blocks that hold nothing.
fn empty_blocks(geometry: &Geometry, alloc: Global) -> Result<Blocks, AllocError>
    ensures room { IfOk result (HasRoom geometry.now.layout) }
    ensures holds { (contents : Option (List ℕ))
        → IfOk result (BlocksHold geometry.now.layout contents) }
{
    let buffer = SystemMemory::new(alloc).bytes(3 * geometry.layout.bsize as usize)?;
    Ok(Blocks::over(buffer))
}

/// Puts a step to those before it that aren't Gaps, or counts the Gap.
fn note((steps, gaps): &mut (Vec<Step>, u64), step: Step) -> Result<(), AllocError> {
    if step == Step::Gap {
        *gaps = gaps.saturating_add(1);
    } else {
        steps.push(step)?;
    }
    Ok(())
}

/// The steps that aren't Gaps, and the number of Gaps.
fn steps<I: Image>(
    geometry: &Geometry,
    inode: &Inode,
    image: &mut I,
    alloc: Global,
) -> Result<(Vec<Step>, u64), Stop>
    requires { FitsIn geometry.now.layout (I.device image.old).size }
{
    let mut blocks = empty_blocks(geometry, alloc)?;
    let mut walk = Walk::start(geometry, inode);
    let mut found = (Vec::new(alloc), 0);
    while let Some(step) = walk.next(image, &mut blocks)? {
        note(&mut found, step)?;
    }
    Ok(found)
}

/// The same of the small volume with these words, and how many reads the walk makes, and how many
/// of them aren't of a whole block that may hold data.
fn walked(
    order: Order,
    words: &[Number],
    inode: &Inode,
    alloc: Global,
) -> Result<(Vec<Step>, u64, [u64; 2]), Fail> {
    let geometry = geometry(order)?;
    let mut image = Watched::new(image_of(order, words, alloc)?);
    let (found, gaps) = steps(&geometry, inode, &mut image, alloc)?;
    Ok((found, gaps, [image.reads, image.odd]))
}

/// Walks an inode of that volume in both orders, and compares the steps, the number of Gaps and the
/// reads.
fn walks(
    rt: &(impl Abort + AllocGlobal),
    words: &[Number],
    inode: &Inode,
    steps: &[Step],
    counts: (u64, [u64; 2]),
) -> Result<(), Fail> {
    for order in ORDERS {
        let (found, gaps, reads) = walked(order, words, inode, rt.alloc())?;
        same(rt, &found.as_slice(), &steps);
        same(rt, &(gaps, reads), &counts);
    }
    Ok(())
}

/// The addresses of an inode whose indirect block is at fragment 40.
const INDIRECT: [u32; 13] = [0, 0, 0, 0, 0, 0, 0, 0, 0, 0, 0, 0, 40];

const TRUNCATED: [Number; 2] = [word!(40, 0, 44), word!(40, 5, 99)];

const TREES: [u32; 15] = [0, 0, 0, 0, 0, 0, 0, 0, 0, 0, 0, 0, 0, 40, 52];

const TREE_WORDS: [Number; 7] = [
    word!(40, 1, 44),
    word!(44, 1023, 48),
    word!(52, 0, 56),
    word!(52, 5, 1),
    word!(56, 0, 60),
    word!(60, 1, 64),
    word!(60, 2, 7),
];

const TREE_STEPS: [Step; 9] = [
    indirect!(40),
    indirect!(44),
    data!(48, 4, 3083),
    indirect!(52),
    Step::Tail,
    indirect!(56),
    indirect!(60),
    Step::Tail,
    data!(64, 4, 1049613),
];

/// An inode: its mode, its size, its first addresses.
type Walked = (u16, u64, &'static [u32]);

/// Words of the volume, an inode, its steps that aren't Gaps, the number of Gaps, and the reads:
/// of direct blocks, of a file that is partially truncated, and of trees with holes. Each indirect
/// block that is entered is read once, and whole.
static WALKS: [(&[Number], Walked, &[Step], (u64, [u64; 2])); 4] = [
    (&[], (0o40755, 512, &[36]), &[data!(36, 1, 0)], (0, [0, 0])),
    (
        &[],
        (0o100644, 4097, &[40, 44]),
        &[data!(40, 4, 0), data!(44, 1, 1)],
        (0, [0, 0]),
    ),
    (
        &TRUNCATED,
        (0o100644, 53248, &INDIRECT),
        &[indirect!(40), Step::Tail, data!(44, 4, 12)],
        (12, [1, 0]),
    ),
    (
        &TREE_WORDS,
        (0o100644, 4299218944, &TREES),
        &TREE_STEPS,
        (2060, [5, 0]),
    ),
];

#[test]
fn steps_of_walks(rt: HostRuntime) -> Result<(), Fail> {
    for &(words, (mode, size, addresses), steps, counts) in &WALKS {
        let inode = inode_with(mode, size, addresses);
        walks(&rt, words, &inode, steps, counts)?;
    }
    Ok(())
}

/// The first step of a walk, how many Gaps are then passed over, and the next step.
fn passed_over<I: Image>(
    geometry: &Geometry,
    inode: &Inode,
    image: &mut I,
    blocks: &mut Blocks,
) -> Result<(Option<Step>, u32, Option<Step>), ImageFault>
    requires { CanWalk geometry.now.layout (I.device image.old) blocks.old }
{
    let mut walk = Walk::start(geometry, inode);
    let first = walk.next(image, blocks)?;
    let gaps = walk.skip_gaps(blocks);
    let next = walk.next(image, blocks)?;
    Ok((first, gaps, next))
}

/// The same of the small volume.
fn gaps_of(inode: &Inode, alloc: Global) -> Result<(Option<Step>, u32, Option<Step>), Fail> {
    let geometry = geometry(Order::Little)?;
    let mut image = image_of(Order::Little, &[], alloc)?;
    let mut blocks = empty_blocks(&geometry, alloc)?;
    let found = passed_over(&geometry, inode, &mut image, &mut blocks);
    drop(blocks);
    Ok(found?)
}

/// The holes after the first one are passed over together, at the inode's own addresses.
#[test]
fn gaps_passed_over(rt: HostRuntime) -> Result<(), Fail> {
    let file = inode_with(0o100644, 4096 * 6, &[0, 0, 0, 0, 48]);
    let (first, gaps, next) = gaps_of(&file, rt.alloc())?;
    same(&rt, &(first, gaps), &(Some(Step::Gap), 3));
    same(&rt, &next, &Some(data!(48, 4, 4)));
    Ok(())
}

/// Whether a walk whose first read fails ends with that, how many reads failed, and the sector of
/// the last one.
fn cut_short(inode: &Inode, alloc: Global) -> Result<(bool, u64, u64), Fail> {
    let geometry = geometry(Order::Little)?;
    let memory = image_of(Order::Little, &[], alloc)?;
    let mut image = FuseImage::nth(memory, 1);
    let failed = steps(&geometry, inode, &mut image, alloc).is_err();
    Ok((failed, image.failures(), image.failed()))
}

#[test]
fn failed_read_ends(rt: HostRuntime) -> Result<(), Fail> {
    let file = inode_with(0o100644, 53248, &INDIRECT);
    same(&rt, &cut_short(&file, rt.alloc())?, &(true, 1, 80));
    Ok(())
}

/// An inode: its mode, its size, its first addresses. Then its class, and whether it has steps.
type Classed = (u16, u64, &'static [u32], Class, bool);

/// Inodes of each kind.
static CLASSED: [Classed; 8] = [
    (0, 0, &[], Class::Free, false),
    (0o644, 0, &[], Class::Partial, false),
    (0o100644, 0, &[], Class::File, false),
    (0o40755, 512, &[], Class::Dir, true),
    (0o100644, 0, &[40], Class::Unknown, false),
    (0o20644, 0, &[7], Class::File, false),
    (0o20644, 0, &[7, 7], Class::Unknown, false),
    (0o120777, 59, &[7; 15], Class::File, false),
];

/// Compares the class of an inode, whether it has steps, and that it has none where it hasn't.
fn is_classed(
    rt: &(impl Abort + AllocGlobal),
    inode: &Inode,
    class: Class,
    is_walked: bool,
) -> Result<(), Fail> {
    let geometry = geometry(Order::Little)?;
    same(rt, &class_of(&geometry, inode), &class);
    same(rt, &has_steps(&geometry, inode, class), &is_walked);
    if !is_walked {
        let (found, gaps, _) = walked(Order::Little, &[], inode, rt.alloc())?;
        same(rt, &(found.len(), gaps), &(0, 0));
    }
    Ok(())
}

#[test]
fn classes(rt: HostRuntime) -> Result<(), Fail> {
    for &(mode, size, addresses, class, is_walked) in &CLASSED {
        let inode = inode_with(mode, size, addresses);
        is_classed(&rt, &inode, class, is_walked)?;
    }
    Ok(())
}

/// A device and the text of a link, each with something else in place of its addresses.
#[test]
fn without_addresses(rt: HostRuntime) -> Result<(), Fail> {
    let geometry = geometry(Order::Little)?;
    let device = inode_with(0o20644, 0, &[7]);
    let link = inode_with(0o120777, 59, &[7; 15]);
    same(&rt, &(is_device(&device), is_device(&link)), &(true, false));
    let are_links = (
        is_short_symlink(&geometry, &device),
        is_short_symlink(&geometry, &link),
    );
    same(&rt, &are_links, &(false, true));
    Ok(())
}

/// How many logical blocks a walk over a file of a size goes over, and how many fragments the last
/// one has.
fn extent(geometry: &Geometry, size: u64) -> (u64, u32) {
    let walk = Walk::start(geometry, &inode(0o100644, size));
    (walk.logical_blocks, walk.last)
}

/// Sizes, and their extents: the volume has blocks of 4,096 bytes, in fragments of 1,024.
static EXTENTS: [(u64, (u64, u32)); 9] = [
    (1, (1, 1)),
    (1023, (1, 1)),
    (1024, (1, 1)),
    (1025, (1, 2)),
    (4095, (1, 4)),
    (4096, (1, 4)),
    (4097, (2, 1)),
    (7168, (2, 3)),
    (7169, (2, 4)),
];

#[test]
fn sizes_at_edges(rt: HostRuntime) -> Result<(), Fail> {
    for order in ORDERS {
        let geometry = geometry(order)?;
        same(&rt, &extent(&geometry, 0).0, &0);
        for &(size, wanted) in &EXTENTS {
            same(&rt, &extent(&geometry, size), &wanted);
        }
    }
    Ok(())
}

/// The next address of an inode, where it is direct, and how many fragments its block has. It is
/// passed without a step.
fn pass_address(walk: &mut Walk) -> Option<(u32, u32)>
    requires { IsAtTop walk.old }
    ensures { IsAtTop walk.new }
{
    if !walk.has_direct() {
        return None;
    }
    let found = walk.next_direct();
    walk.pass_direct();
    Some(found)
}

/// The first two of these, and whether an address was left before them, and is after them.
type Directs = ([Option<(u32, u32)>; 2], [bool; 2]);

fn two_directs(mut walk: Walk) -> Directs
    requires { IsAtTop walk }
{
    let before = walk.has_address();
    let first = pass_address(&mut walk);
    let second = pass_address(&mut walk);
    ([first, second], [before, walk.has_address()])
}

/// The same of a file, by a walk that was begun anew over it, and of a larger one.
fn directs_of(file: &Inode, large: &Inode) -> Result<[Directs; 3], Fail> {
    let geometry = geometry(Order::Little)?;
    let of_class = Walk::of_class(&geometry, large, Class::File);
    let mut restarted = of_class;
    restarted.restart(file, Class::File);
    Ok([
        two_directs(Walk::start(&geometry, file)),
        two_directs(restarted),
        two_directs(of_class),
    ])
}

#[test]
fn direct_addresses(rt: HostRuntime) -> Result<(), Fail> {
    let file = inode_with(0o100644, 4097, &[40, 44]);
    let large = inode_with(0o100644, 53248, &INDIRECT);
    let whole = ([Some((40, 4)), Some((44, 1))], [true, false]);
    let part = ([Some((0, 4)), Some((0, 4))], [true, true]);
    same(&rt, &directs_of(&file, &large)?, &[whole, whole, part]);
    Ok(())
}

/// The offers of a Run that are kept, if the Run is seen.
fn take_if_open(keeping: &mut Keeping, len: u32, in_range: bool) -> Option<u32> {
    if keeping.is_replay_open() {
        Some(keeping.take(len, in_range))
    } else {
        None
    }
}

/// An inode is cut by its eleventh bad Run, and by as many kept offers as its cut says.
#[test]
fn cut_inodes(rt: HostRuntime) {
    let mut bad = Keeping::start(0);
    let mut seen = 0u32;
    for _ in 0..20 {
        if take_if_open(&mut bad, 1, false).is_some() {
            seen = seen.saturating_add(1);
        }
    }
    same(&rt, &seen, &11);
    let mut cut = Keeping::start(6);
    let first = take_if_open(&mut cut, 4, true);
    let second = take_if_open(&mut cut, 4, true);
    let third = take_if_open(&mut cut, 4, true);
    same(&rt, &[first, second, third], &[Some(4), Some(2), None]);
}

#[test]
fn bytes_that_are_set(rt: HostRuntime) {
    same(&rt, &(any_set(&[]), any_set(&[0; 40])), &(false, false));
    let mut bytes = [0; 40];
    bytes[39] = 128;
    same(&rt, &any_set(&bytes), &true);
}

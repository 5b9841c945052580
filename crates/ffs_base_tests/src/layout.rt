//! The rows of the format that a reader would work out by hand, in both orders.

use crate::compare::same;
use ffs_image::MemoryImage;
use ffs_layout::{Entry, Geometry, Group, Super, decode_inode, entry_at, read_super, u32_at};
use ffs_samples::{Number, ORDERS, base, put, put_bytes, put_super};
use ffs_volume::{Order, SuperFault};
use std::alloc::{AllocError, Global};
use std::test::Fail;

/// The bytes 01 02 03 04 after another one.
#[test]
fn words(rt: HostRuntime) {
    let bytes = b"\xff\x01\x02\x03\x04";
    same(&rt, &u32_at(Order::Little, 1, bytes), &0x0403_0201);
    same(&rt, &u32_at(Order::Big, 1, bytes), &0x0102_0304);
}

fn fault(bytes: Vec<u8>, sector: Option<u32>) -> Option<SuperFault> {
    let mut image = MemoryImage::new(bytes);
    read_super(&mut image, sector).err()
}

/// An image: a number that is put into the base image, how many of its bytes are left, and the
/// sector that is asked for. Then why it is refused, if it is.
type Superblock = (Number, usize, Option<u32>, Option<SuperFault>);

/// The base image; one with a wrong magic in its first superblock; one that is cut; one whose copy
/// differs.
static SUPERBLOCKS: [Superblock; 6] = [
    ((0, 1, 0), 131072, None, None),
    ((8192 + 1372, 4, 0), 131072, None, Some(SuperFault::Magic)),
    ((8192 + 1372, 4, 0), 131072, Some(32), None),
    ((0, 1, 0), 131071, None, Some(SuperFault::Short)),
    (
        (16384 + 40, 4, 94),
        131072,
        None,
        Some(SuperFault::Disagree),
    ),
    ((16384 + 40, 4, 94), 131072, Some(32), None),
];

/// Why the base image is refused with a number in it and so many of its bytes left.
fn fault_with(
    order: Order,
    number: Number,
    size: usize,
    sector: Option<u32>,
    alloc: Global,
) -> Result<Option<SuperFault>, AllocError> {
    let mut bytes = base(order, alloc)?;
    put(order, bytes.as_mut_slice(), &[number]);
    bytes.truncate(size);
    Ok(fault(bytes, sector))
}

#[test]
fn superblocks(rt: HostRuntime) -> Result<(), Fail> {
    for order in ORDERS {
        for &(number, size, sector, wanted) in &SUPERBLOCKS {
            let found = fault_with(order, number, size, sector, rt.alloc())?;
            same(&rt, &found, &wanted);
        }
    }
    Ok(())
}

/// The outcomes of an image whose copy of the superblock is in the other order.
fn faults_of_turned(alloc: Global) -> Result<[Option<SuperFault>; 2], AllocError> {
    let mut turned = base(Order::Little, alloc)?;
    put_super(Order::Big, turned.as_mut_slice(), 16384);
    Ok([fault(turned.clone()?, None), fault(turned, Some(32))])
}

#[test]
fn first_sectors(rt: HostRuntime) -> Result<(), Fail> {
    let at_16 = Some(SuperFault::CannotRead { sector: 16 });
    same(&rt, &fault(Vec::new(rt.alloc()), None), &at_16);
    same(
        &rt,
        &faults_of_turned(rt.alloc())?,
        &[Some(SuperFault::Disagree), None],
    );
    Ok(())
}

/// The superblock of the base image, of so many bytes, with these numbers in it.
fn found_with(
    sector: Option<u32>,
    numbers: &[Number],
    size: usize,
    alloc: Global,
) -> Result<Super, Fail> {
    let mut bytes = base(Order::Little, alloc)?;
    bytes.resize(size, 0)?;
    put(Order::Little, bytes.as_mut_slice(), numbers);
    let mut image = MemoryImage::new(bytes);
    Ok(read_super(&mut image, sector)?)
}

/// What is written for the optimization and for minfree, and whether one of them is a defect.
static SETTINGS: [(u64, u64, bool); 5] = [
    (0, 10, false),
    (1, 99, false),
    (2, 10, true),
    (0xffff_ffff, 0, true),
    (0, 100, true),
];

#[test]
fn settings(rt: HostRuntime) -> Result<(), Fail> {
    for &(optim, minfree, defects) in &SETTINGS {
        let numbers = [(8192 + 128, 4, optim), (8192 + 60, 4, minfree)];
        let found = found_with(None, &numbers, 131072, rt.alloc())?;
        same(&rt, &found.opening_defects(), &defects);
    }
    let found = found_with(None, &[], 131072, rt.alloc())?;
    same(&rt, &found.cstotal, &[1, 22, 29, 6]);
    same(&rt, &&found.mount[..5], &b"/mnt\0".as_slice());
    Ok(())
}

/// Two groups, the second of them moved by four fragments.
static TWO_GROUPS: [Number; 6] = [
    (8192 + 36, 4, 250),
    (8192 + 40, 4, 201),
    (8192 + 44, 4, 2),
    (8192 + 24, 4, 4),
    (8192 + 28, 4, 0),
    (8192 + 176, 4, 2),
];

/// Where the areas of the second group begin, and the places of what is in it and of the root; none
/// where there are not two groups of 32 inodes.
fn places_in(geometry: &Geometry) -> Option<([u32; 4], [u64; 4])> {
    if geometry.ncg() != 2 || geometry.ipg() != 32 {
        return None;
    }
    Some((
        [
            geometry.cgbase(1),
            geometry.cgstart(1),
            geometry.cgsblock(1),
            geometry.cgdmin(1),
        ],
        [
            geometry.group_place(1),
            geometry.summary_place(1),
            geometry.inode_place(2),
            geometry.inode_place(33),
        ],
    ))
}

#[test]
fn places(rt: HostRuntime) -> Result<(), Fail> {
    let geometry = found_with(Some(16), &TWO_GROUPS, 256000, rt.alloc())?.geometry;
    same(
        &rt,
        &(
            geometry.ncg(),
            geometry.ipg(),
            geometry.inodes(),
            geometry.fpg(),
            geometry.cgoffset(),
        ),
        &(2, 32, 64, 128, 4),
    );
    let wanted = ([128, 132, 148, 164], [159744, 32784, 28928, 163968]);
    same(&rt, &places_in(&geometry), &Some(wanted));
    Ok(())
}

/// Fragments of it, whether each is in range, and whether each is reserved.
static AREAS: [(u32, bool, bool); 10] = [
    (0, true, true),
    (15, true, true),
    (16, false, true),
    (31, false, true),
    (32, true, true),
    (33, true, false),
    (148, false, true),
    (164, true, false),
    (249, true, false),
    (250, false, false),
];

fn area_of(geometry: &Geometry, fragment: u32) -> (u32, bool, bool) {
    (fragment, geometry.ok(fragment), geometry.reserved(fragment))
}

/// Whether runs are in range: in data, over the start of a group, over the end, and an empty one.
fn runs_in_range(geometry: &Geometry) -> [bool; 4] {
    [
        geometry.in_range(33, 1),
        geometry.in_range(127, 2),
        geometry.in_range(249, 2),
        geometry.in_range(250, 0),
    ]
}

#[test]
fn areas(rt: HostRuntime) -> Result<(), Fail> {
    let geometry = found_with(Some(16), &TWO_GROUPS, 256000, rt.alloc())?.geometry;
    for area in &AREAS {
        same(&rt, &area_of(&geometry, area.0), area);
    }
    same(&rt, &runs_in_range(&geometry), &[true, false, false, true]);
    Ok(())
}

/// The inode of a directory of 4,402,345,721,856 bytes, with numbers below 0 and an address in the
/// last place.
static INODE: [Number; 8] = [
    (0, 2, 0o40755),
    (2, 2, 0xfffe),
    (8, 8, 4402345721856),
    (24, 4, 0xffff_ffff),
    (40, 4, 36),
    (96, 4, 99),
    (104, 4, 2),
    (112, 4, 0xffff_ffff),
];

#[test]
fn inodes(rt: HostRuntime) -> Result<(), Fail> {
    for order in ORDERS {
        let mut bytes = [0u8; 128];
        put(order, &mut bytes, &INODE);
        let inode = decode_inode(order, &bytes);
        same(
            &rt,
            &(inode.mode, inode.nlink, inode.mtime),
            &(0o40755, -2, -1),
        );
        same(
            &rt,
            &(inode.size, inode.blocks, inode.uid),
            &(4402345721856, 2, 0xffff_ffff),
        );
        same(
            &rt,
            &inode.addresses,
            &[36, 0, 0, 0, 0, 0, 0, 0, 0, 0, 0, 0, 0, 0, 99],
        );
    }
    Ok(())
}

/// A group block: the words that aren't 0.
static GROUP: [Number; 10] = [
    (4, 4, 0x090255),
    (12, 4, 7),
    (20, 4, 0xffff_ff80),
    (24, 4, 1),
    (28, 4, 22),
    (32, 4, 29),
    (36, 4, 6),
    (64, 4, 2),
    (92, 4, 168),
    (96, 4, 172),
];

#[test]
fn groups(rt: HostRuntime) -> Result<(), Fail> {
    for order in ORDERS {
        let mut bytes = [0u8; 168];
        put(order, &mut bytes, &GROUP);
        let group = Group::decode(order, &bytes);
        let counts = group.cs;
        same(
            &rt,
            &[group.magic, group.iusedoff, group.freeoff],
            &[0x090255, 168, 172],
        );
        same(&rt, &[group.cgx, group.ndblk], &[7, -128]);
        same(
            &rt,
            &[counts.dirs, counts.blocks, counts.inodes, counts.fragments],
            &[1, 22, 29, 6],
        );
        same(&rt, &group.frsum, &[0, 0, 0, 2, 0, 0, 0, 0]);
    }
    Ok(())
}

/// The numbers and the lengths of the two entries of a root.
static DOTS: [Number; 4] = [(0, 4, 2), (4, 2, 12), (12, 4, 2), (16, 2, 500)];

/// The chunk of a root: `.` of 12 bytes, then `..` that fills the chunk.
fn root(order: Order) -> [u8; 512] {
    let mut chunk = [0u8; 512];
    put(order, &mut chunk, &DOTS);
    put_bytes(&mut chunk, 6, b"\x04\x01.");
    put_bytes(&mut chunk, 18, b"\x04\x02..");
    chunk
}

/// Whether it is an entry of the root, of this length and name.
fn is_dot(entry: Option<Entry<'_>>, length: u16, name: &[u8]) -> bool {
    match entry {
        Some(entry) => {
            (entry.number, entry.length, entry.kind) == (2, length, 4) && entry.name == name
        }
        None => false,
    }
}

/// Whether a chunk begins with the root's `.` and `..`.
fn are_dots(chunk: &[u8; 512], order: Order) -> [bool; 2] {
    [
        is_dot(entry_at(order, chunk, 0), 12, b"."),
        is_dot(entry_at(order, chunk, 12), 500, b".."),
    ]
}

/// Whether there are entries at byte 4 and at the end of a chunk, and at byte 12 where its length
/// there goes past the end.
fn stands_elsewhere(chunk: &[u8; 512], order: Order) -> [bool; 3] {
    let mut long = *chunk;
    put(order, &mut long, &[(16, 2, 504)]);
    [
        entry_at(order, chunk, 4).is_some(),
        entry_at(order, chunk, 512).is_some(),
        entry_at(order, &long, 12).is_some(),
    ]
}

/// Whether there is an entry at byte 500 whose name, with its length before it, is this.
fn stands_last(chunk: &[u8; 512], order: Order, name: &[u8]) -> bool {
    let mut last = *chunk;
    put(order, &mut last, &[(500, 4, 5), (504, 2, 12)]);
    put_bytes(&mut last, 507, name);
    entry_at(order, &last, 500).is_some()
}

/// A name with its length before it, and whether there is an entry with it.
static NAMES: [(&[u8; 5], bool); 3] = [
    (b"\x03abc\0", true),
    (b"\x03a/b\0", false),
    (b"\x03abc\x01", false),
];

#[test]
fn entries(rt: HostRuntime) -> Result<(), Fail> {
    for order in ORDERS {
        let chunk = root(order);
        same(&rt, &are_dots(&chunk, order), &[true; 2]);
        same(&rt, &stands_elsewhere(&chunk, order), &[false; 3]);
        for &(name, stands) in &NAMES {
            same(&rt, &stands_last(&chunk, order, name), &stands);
        }
    }
    Ok(())
}

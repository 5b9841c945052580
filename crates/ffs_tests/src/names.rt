//! Roles of entries, as dir(5) has them, the entries of a chunk, the chunks of a directory whose
//! blocks share a fragment, and directories of which the address of their only chunk is known.

ghost use Rattle.std.specs.Prelude.{◌≡◌, ◌*◌, ◌≤◌};
ghost use Rattle.ffs_volume.specs.Disk.Areas.{FitsIn};

use crate::compare::same;
use ffs::{Blocks, Chunks, FixedList, Window};
use ffs_image::Image;
use ffs_layout::{Entry, Geometry, Order};
use ffs_names::{ChunkEntries, Entries, gap_of, is_one_dot, is_two_dots, role_of};
use ffs_samples::{Number, Stop, geometry, image_of, inode};
use ffs_volume::{Class, Role};
use std::alloc::{AllocError, Global};
use std::test::Fail;

/// An entry of a directory, whose name is cut to the 255 bytes that an entry has at most.
fn entry<'a>(number: u32, name: &'a [u8]) -> Entry<'a> {
    Entry {
        number,
        length: 12,
        kind: 4,
        name: &name[..name.len().min(255)],
    }
}

/// Whether it is the first chunk, which entry of it, its number and name, and its role.
static ROLES: [(bool, usize, u32, &[u8], Role); 6] = [
    (true, 0, 3, b"..", Role::Extra),
    (true, 1, 3, b"..", Role::Dotdot),
    (false, 0, 3, b".", Role::Extra),
    (true, 0, 3, b".", Role::Dot),
    (true, 0, 0, b"", Role::Empty),
    (true, 0, 3, b"...", Role::Plain),
];

#[test]
fn roles(rt: HostRuntime) -> Result<(), Fail> {
    for &(first, index, number, name, role) in &ROLES {
        same(&rt, &role_of(first, index, &entry(number, name)), &role);
    }
    Ok(())
}

#[test]
fn names_of_dots(rt: HostRuntime) {
    let names: [&[u8]; 5] = [b".", b"..", b"", b".a", b"..."];
    let one = [true, false, false, false, false];
    let two = [false, true, false, false, false];
    for index in 0..5 {
        let found = (is_one_dot(names[index]), is_two_dots(names[index]));
        same(&rt, &(index, found), &(index, (one[index], two[index])));
    }
}

/// Places of a chunk and the bytes there: an empty record of 12 bytes, then one of 16 bytes for `a`
/// of inode 5, and then one whose length of 6 isn't a multiple of 4.
static RECORDS: [(u8, u8); 7] = [
    (4, 12),
    (12, 5),
    (16, 16),
    (18, 8),
    (19, 1),
    (20, b'a'),
    (32, 6),
];

/// The index of the next entry, its number, and the lengths of its record and its name.
fn next_of(entries: &mut ChunkEntries<'_>) -> Option<(usize, u32, u16, usize)> {
    let (index, entry) = entries.next()?;
    Some((index, entry.number, entry.length, entry.name.len()))
}

#[test]
fn entries_of_chunk(rt: HostRuntime) -> Result<(), Fail> {
    let mut chunk = [0u8; 512];
    for &(place, byte) in &RECORDS {
        chunk[usize::from(place)] = byte;
    }
    let mut entries = ChunkEntries::of_chunk(Order::Little, &chunk);
    same(&rt, &next_of(&mut entries), &Some((0, 0, 12, 0)));
    same(&rt, &next_of(&mut entries), &Some((1, 5, 16, 1)));
    same(&rt, &next_of(&mut entries), &None);
    same(&rt, &next_of(&mut entries), &None);
    same(&rt, &entries.place, &28);
    Ok(())
}

/// The place of each chunk that a reading gives, its first byte and its last.
pub fn chunks_of<I: Image>(
    geometry: &Geometry,
    chunks: &mut Chunks,
    image: &mut I,
    alloc: Global,
) -> Result<Vec<(u64, u8, u8)>, Stop>
    requires volume { FitsIn geometry.now.layout (I.device image.old).size }
    requires geometry { chunks.old.walk.geometry ≡ geometry.now }
{
    let size = geometry.layout.bsize as usize;
    let buffer = vec![in alloc; 0u8; 3 * size]?;
    let mut blocks = Blocks::over(FixedList::new(buffer));
    let buffer = vec![in alloc; 0u8; size]?;
    let mut window = Window::over(FixedList::new(buffer));
    let mut chunk = [0u8; 512];
    let mut found = Vec::new(alloc);
    'chunks: while let Some(offset) = chunks.next(image, &mut blocks, &mut window, &mut chunk)? {
        match found.push((offset, chunk[0], chunk[511])) {
            Ok(()) => {}
            Err(error) => return Err(AllocError::from(error).into()),
        }
    }
    Ok(found)
}

static NUMBERS: [Number; 9] = [
    (40960, 1, 1),
    (41471, 1, 2),
    (41472, 1, 3),
    (41983, 1, 4),
    (41984, 1, 5),
    (43520, 1, 6),
    (44544, 1, 7),
    (45055, 1, 8),
    (45056, 1, 9),
];

/// What the chunks of a directory hold whose first block is the fragments 40 to 43 and whose second
/// one is 40, where this many offers of it are kept (0: all).
fn chunks_kept(cut: u32, alloc: Global) -> Result<Vec<(u64, u8, u8)>, Fail> {
    let geometry = geometry(Order::Little)?;
    let mut image = image_of(Order::Little, &NUMBERS, alloc)?;
    let mut directory = inode(0o40755, 5120);
    directory.addresses[0] = 40;
    directory.addresses[1] = 40;
    let mut chunks = Chunks::start(&geometry, &directory, cut);
    Ok(chunks_of(&geometry, &mut chunks, &mut image, alloc)?)
}

/// The place of each chunk, its first byte and its last.
static CHUNKS: [(u64, u8, u8); 10] = [
    (0, 1, 2),
    (512, 3, 4),
    (1024, 5, 0),
    (1536, 0, 0),
    (2048, 0, 0),
    (2560, 6, 0),
    (3072, 0, 0),
    (3584, 7, 8),
    (4096, 1, 2),
    (4608, 3, 4),
];

/// Where four offers are kept, the second block isn't.
#[test]
fn same_fragment_twice(rt: HostRuntime) -> Result<(), Fail> {
    let all = chunks_kept(0, rt.alloc())?;
    same(&rt, &all.as_slice(), &CHUNKS.as_slice());
    let first = chunks_kept(4, rt.alloc())?;
    same(&rt, &first.as_slice(), &&CHUNKS[..8]);
    Ok(())
}

/// The same of a reading that was begun over another inode, and where in the image the last chunk
/// is.
fn chunks_restarted(cut: u32, alloc: Global) -> Result<(Vec<(u64, u8, u8)>, u64), Fail> {
    let geometry = geometry(Order::Little)?;
    let mut image = image_of(Order::Little, &NUMBERS, alloc)?;
    let mut directory = inode(0o40755, 5120);
    directory.addresses[0] = 40;
    directory.addresses[1] = 40;
    let mut chunks = Chunks::of_class(&geometry, &inode(0o40755, 512), Class::Dir, 0);
    chunks.restart(&directory, Class::Dir, cut);
    let found = chunks_of(&geometry, &mut chunks, &mut image, alloc)?;
    Ok((found, chunks.last_place()))
}

#[test]
fn reading_begun_again(rt: HostRuntime) -> Result<(), Fail> {
    let (found, place) = chunks_restarted(4, rt.alloc())?;
    same(&rt, &found.as_slice(), &&CHUNKS[..8]);
    same(&rt, &place, &44544);
    Ok(())
}

/// Whether a directory of two blocks, of which the first is at an address, has a hole.
fn has_gap<I: Image>(
    geometry: &Geometry,
    image: &mut I,
    first: u32,
    alloc: Global,
) -> Result<bool, Stop>
    requires { FitsIn geometry.now.layout (I.device image.old).size }
{
    let buffer = vec![in alloc; 0u8; 3 * geometry.layout.bsize as usize]?;
    let mut blocks = Blocks::over(FixedList::new(buffer));
    let mut directory = inode(0o40755, 5120);
    directory.addresses[0] = first;
    directory.addresses[1] = 44;
    let mut chunks = Chunks::start(geometry, &directory, 0);
    Ok(gap_of(image, &mut blocks, &mut chunks)?)
}

/// The same of the volume.
fn has_gap_with(first: u32, alloc: Global) -> Result<bool, Fail> {
    let geometry = geometry(Order::Little)?;
    let mut image = image_of(Order::Little, &[], alloc)?;
    Ok(has_gap(&geometry, &mut image, first, alloc)?)
}

#[test]
fn holes_of_a_directory(rt: HostRuntime) -> Result<(), Fail> {
    let found = (has_gap_with(0, rt.alloc())?, has_gap_with(40, rt.alloc())?);
    same(&rt, &found, &(true, false));
    Ok(())
}

/// The chunks that come of a reading that was begun and then ended.
fn chunks_ended(alloc: Global) -> Result<Vec<(u64, u8, u8)>, Fail> {
    let geometry = geometry(Order::Little)?;
    let mut image = image_of(Order::Little, &NUMBERS, alloc)?;
    let mut directory = inode(0o40755, 1024);
    directory.addresses[0] = 43;
    let mut chunks = Chunks::start(&geometry, &directory, 0);
    chunks.end();
    Ok(chunks_of(&geometry, &mut chunks, &mut image, alloc)?)
}

#[test]
fn no_chunk_after_end(rt: HostRuntime) -> Result<(), Fail> {
    same(&rt, &chunks_ended(rt.alloc())?.len(), &0);
    Ok(())
}

/// The number and the type of each entry that a reading gives.
fn entries_of<I: Image>(
    geometry: &Geometry,
    entries: &mut Entries,
    image: &mut I,
    alloc: Global,
) -> Result<Vec<(u32, u8)>, Stop>
    requires volume { FitsIn geometry.now.layout (I.device image.old).size }
    requires geometry { entries.old.chunks.walk.geometry ≡ geometry.now }
{
    let size = geometry.layout.bsize as usize;
    let buffer = vec![in alloc; 0u8; 3 * size]?;
    let mut blocks = Blocks::over(FixedList::new(buffer));
    let buffer = vec![in alloc; 0u8; size]?;
    let mut window = Window::over(FixedList::new(buffer));
    let mut found = Vec::new(alloc);
    'entries: while let Some(head) = entries.next(image, &mut blocks, &mut window)? {
        match found.push((head.number, head.kind)) {
            Ok(()) => {}
            Err(error) => return Err(AllocError::from(error).into()),
        }
    }
    Ok(found)
}

/// A chunk with three entries at the fragment 40, and one with an empty entry at the fragment 41.
static ENTRY_NUMBERS: [Number; 13] = [
    (40960, 4, 2),
    (40964, 2, 12),
    (40966, 2, 0x0104),
    (40968, 1, 46),
    (40972, 4, 3),
    (40976, 2, 12),
    (40978, 2, 0x0104),
    (40980, 1, 97),
    (40984, 4, 4),
    (40988, 2, 488),
    (40990, 2, 0x0108),
    (40992, 1, 98),
    (41988, 2, 512),
];

/// The entries of a directory whose only chunk is at an address.
fn entries_at(address: u32, alloc: Global) -> Result<Vec<(u32, u8)>, Fail> {
    let geometry = geometry(Order::Little)?;
    let mut image = image_of(Order::Little, &ENTRY_NUMBERS, alloc)?;
    let mut entries = Entries::none(&geometry);
    entries.restart_at(&mut image, address)?;
    Ok(entries_of(&geometry, &mut entries, &mut image, alloc)?)
}

/// An address, and the number and the type of each entry of the chunk there.
static ONLY_ENTRIES: [(u32, &[(u32, u8)]); 4] = [
    (0, &[]),
    (40, &[(2, 4), (3, 4), (4, 8)]),
    (41, &[(0, 0)]),
    (128, &[]),
];

#[test]
fn entries_of_only_chunk(rt: HostRuntime) -> Result<(), Fail> {
    for &(address, entries) in &ONLY_ENTRIES {
        same(&rt, &entries_at(address, rt.alloc())?.as_slice(), &entries);
    }
    Ok(())
}

/// The entries of a directory of one block at fragment 40, whose reading is stopped before them or
/// not.
fn entries_restarted(stopped: bool, alloc: Global) -> Result<Vec<(u32, u8)>, Fail> {
    let geometry = geometry(Order::Little)?;
    let mut image = image_of(Order::Little, &ENTRY_NUMBERS, alloc)?;
    let mut directory = inode(0o40755, 1024);
    directory.addresses[0] = 40;
    let mut entries = Entries::none(&geometry);
    entries.restart(&directory, Class::Dir, 0);
    if stopped {
        entries.stop();
    }
    Ok(entries_of(&geometry, &mut entries, &mut image, alloc)?)
}

/// The second chunk is of zeros: it has no entry.
#[test]
fn entries_of_a_block(rt: HostRuntime) -> Result<(), Fail> {
    let found = entries_restarted(false, rt.alloc())?;
    same(&rt, &found.as_slice(), &[(2, 4), (3, 4), (4, 8)].as_slice());
    same(&rt, &entries_restarted(true, rt.alloc())?.len(), &0);
    Ok(())
}

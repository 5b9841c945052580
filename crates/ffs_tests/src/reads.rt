//! How often a check reads its image.

use crate::check::{checked, volume, volume_bytes};
use crate::compare::same;
use crate::image::read_within;
use ffs::{CountedImage, End, Image, ImageFault, MemoryImage, Order, SuperFault};
use ffs_samples::{Number, ORDERS, put};
use std::alloc::{AllocError, Global};
use std::test::Fail;

/// Inode 3 is a directory of size 512, whose chunk of zeros is fragment 40.
const LOST: [Number; 5] = [
    (29056, 2, 0o40755),
    (29058, 2, 2),
    (29064, 8, 512),
    (29096, 4, 40),
    (29160, 4, 2),
];

/// Inodes 3 and 4 are files of 13 blocks, of which the last alone has an address: for both fragment
/// 52, in the indirect blocks at fragments 44 and 48.
const SHARED: [Number; 12] = [
    (29056, 2, 0o100644),
    (29058, 2, 1),
    (29064, 8, 53248),
    (29144, 4, 44),
    (29160, 4, 16),
    (45056, 4, 52),
    (29184, 2, 0o100644),
    (29186, 2, 1),
    (29192, 8, 53248),
    (29272, 4, 48),
    (29288, 4, 16),
    (49152, 4, 52),
];

/// The root's third entry names inode 5, which is free.
const NAMED: [Number; 6] = [
    (36880, 2, 12),
    (36888, 4, 5),
    (36892, 2, 488),
    (36894, 1, 8),
    (36895, 1, 1),
    (36896, 1, 102),
];

/// How a check of the volume with a root alone, and these numbers more, ends, and how often it
/// reads.
fn counted(order: Order, more: &[Number], alloc: Global) -> Result<(End, u64), AllocError> {
    let mut image = CountedImage::new(volume(order, more, alloc)?);
    let (end, _) = checked(&mut image, alloc);
    Ok((end, image.reads()))
}

/// What the volume holds beside the root, how a check of it ends, and how often it reads.
static CASES: [(&[Number], End, u64); 7] = [
    (&[], End::Consistent, 6),
    (&[(28930, 2, 3)], End::Defects, 7),
    (&NAMED, End::Defects, 8),
    (&LOST, End::Defects, 11),
    (&SHARED, End::Defects, 11),
    (&[(28928, 2, 0)], End::RootStop, 3),
    (&[(9564, 4, 0)], End::Refused(SuperFault::Magic), 1),
];

/// A clean volume of this size has six: the superblock and its copy, the inodes, the root's chunk,
/// and the summary record and the block of the group. A later phase that asks for an inode reads
/// the inodes anew, since each phase lets go of what the windows hold. So one more is read for the
/// line of a link count (phase 4), and two for a directory that phase 2 looks at again: the inodes,
/// and its chunk. With a second directory there is its chunk, and for one that is lost the inodes
/// in phases 3 and 4. With two indirect blocks there are these, the first one again in phase 1b,
/// and the inodes in phases 1b and 4.
#[test]
fn reads_of_a_check(rt: HostRuntime) -> Result<(), Fail> {
    for order in ORDERS {
        for &(more, end, reads) in &CASES {
            same(&rt, &counted(order, more, rt.alloc())?, &(end, reads));
        }
    }
    Ok(())
}

/// An image of 131,072 bytes that gives those of one image for so many reads, and then those of
/// another one.
#[derive(Drop)]
struct TurningImage {
    first: MemoryImage,
    then: MemoryImage,
    left: u64,
}

impl Image for TurningImage {
    ghost use Rattle.std.specs.Prelude.{None, []};

    ghost device = { λ _. record {
      contents = None;
      size = 131072;
      failures = 0;
      failed_sector = 0;
      lent = [];
    } };

    ghost reads = { λ _. 0 };

    ghost was_read = { λ _ _ _ _. Unit {0} };

    ghost sized = { λ _. tt };

    fn size(&self) -> u64 {
        131_072
    }

    fn failures(&self) -> u64 {
        0
    }

    fn failed(&self) -> u64 {
        0
    }

    fn read_at(&mut self, at: u64, buf: &mut [u8]) -> Result<(), ImageFault> {
        let _read = if self.left == 0 {
            read_within(&mut self.then, at, buf)
        } else {
            read_within(&mut self.first, at, buf)
        };
        self.left = self.left.saturating_sub(1);
        Ok(())
    }
}

/// The root and the file that is inode 3 have 2^31 - 512 bytes: the root a block, and each a single
/// and a double indirect one. Phase 1 reads those of the file last, so that no window holds the
/// root's any more.
const LARGE: [Number; 7] = [
    (28936, 8, 2_147_483_136),
    (29016, 4, 44),
    (29020, 4, 48),
    (29056, 2, 0o100644),
    (29064, 8, 2_147_483_136),
    (29144, 4, 52),
    (29148, 4, 56),
];

/// The volume with these two. Each word of the three blocks from fragment 40 on names the first or
/// the second of them, in turn: so does each block of the root but the first.
fn turning_blocks(order: Order, alloc: Global) -> Result<MemoryImage, AllocError> {
    let mut bytes = volume_bytes(order, &LARGE, alloc)?;
    for word in 0..3072usize {
        let address = if word % 2 == 0 { 40 } else { 44 };
        put(
            order,
            bytes.as_mut_slice(),
            &[(40_960 + 4 * word, 4, address)],
        );
    }
    Ok(MemoryImage::new(bytes))
}

/// How a check ends of an image that turns into that volume after phase 1, in which these blocks
/// have no address; and how often it reads. Phase 1 ends with the seventh read: these are of the
/// superblock, its copy, the inodes, and the four indirect blocks.
fn turned(order: Order, alloc: Global) -> Result<(End, u64), AllocError> {
    let mut image = CountedImage::new(TurningImage {
        first: volume(order, &LARGE, alloc)?,
        then: turning_blocks(order, alloc)?,
        left: 7,
    });
    let (end, _) = checked(&mut image, alloc);
    Ok((end, image.reads()))
}

/// A sweep over the volume of 32 inodes and 128 fragments has 32 + 128 + 22 * 32 = 864 reads. The
/// survey has one, and first looks and second readings have two: all are used up, where the root
/// alone would take 524,288 reads each time. All else takes fewer than 16.
#[test]
fn reads_of_a_turning_image(rt: HostRuntime) -> Result<(), Fail> {
    for order in ORDERS {
        let (end, reads) = turned(order, rt.alloc())?;
        same(&rt, &end, &End::Defects);
        let within = (3 * 864..3 * 864 + 16).contains(&reads);
        same(&rt, &within, &true);
    }
    Ok(())
}

//! The superblock of an image.

ghost use Rattle.std.specs.Prelude.{MatchResult, IfSome, false, ℕ, ◌^◌, IsTrue, nat_le, ◌==◌, ◌≡◌, ◌+◌, ◌*◌, ◌<◌, ◌≤◌};
ghost use Rattle.std.specs.List.{list_all};
ghost use Rattle.ffs_volume.specs.{Disk.{Numbers.u32_at, Superblock.{layout_of, order_of}}, Report.Reads.opening_reads};
ghost use Rattle.ffs_volume.specs.{Disk.{Outcome.{copy_place, super_sector}, Superblock.superblock_of}, declared.constants.TheConstants.{DEV_BSIZE, SUPERBLOCK_BYTES}};
ghost use Rattle.ffs_layout.specs.{Accepted.IsAccepted, Copies.{ComparesCopy, ReadsSuperblockBytes, ReadsSuperblocks}, Super.ReadsSuper};
ghost use Rattle.ffs_image.specs.Reads.{ReadsAtMostOnce};
ghost use Rattle.ffs_layout.specs.Super.{IsUnreadable, found_of, may_read_copy, superblock_in};
ghost use Rattle.ffs_volume.specs.Disk.Areas.{FitsIn};

use crate::geometry::Geometry;
use crate::layout::decode;
use crate::numbers::{i32_at, u32_at};
use ffs_image::Image;
use ffs_volume::constants::{DEV_BSIZE, FS_MAGIC, MAXMNTLEN, SUPERBLOCK_BYTES, SUPERBLOCK_SECTOR};
use ffs_volume::{LAYOUT_PLACES, Order, SuperFault};

/// Where the magic number begins in a superblock, in bytes (fs(5)).
const MAGIC_PLACE: usize = 1372;

/// The byte order in which the magic number reads as `FS_MAGIC`, if one does.
#[tactic(auto, unfolding(ffs_volume::specs::Disk::Superblock::order_of))]
fn order_of_magic(bytes: &[u8; SUPERBLOCK_BYTES]) -> Option<Order>
    ensures { result ≡ order_of bytes.now }
{
    if u32_at(Order::Little, MAGIC_PLACE, bytes) == FS_MAGIC {
        Some(Order::Little)
    } else if u32_at(Order::Big, MAGIC_PLACE, bytes) == FS_MAGIC {
        Some(Order::Big)
    } else {
        None
    }
}

/// Whether two superblocks have the same numbers of 32 bits at these places, in bytes.
#[tactic(auto, using(crate::proofs::TestedElements::place_within))]
fn agree_at(
    order: Order,
    places: &[u16],
    bytes: &[u8; SUPERBLOCK_BYTES],
    copy: &[u8; SUPERBLOCK_BYTES],
) -> bool
    requires { IsTrue (list_all (λ place. nat_le (place + 4) SUPERBLOCK_BYTES) places.now) }
    ensures { result ≡ list_all (λ place. u32_at order place bytes.now == u32_at order place
        copy.now) places.now }
{
    for place in places {
        let place = usize::from(*place);
        if u32_at(order, place, bytes) != u32_at(order, place, copy) {
            return false;
        }
    }
    true
}

/// Reads the bytes of a superblock at a place of the image, in bytes.
#[tactic(auto, unfolding(ffs_image::specs::Reads::ReadsAtMostOnce))]
fn read_superblock_bytes<I: Image>(
    image: &mut I,
    at: u64,
    out: &mut [u8; SUPERBLOCK_BYTES],
) -> Result<(), SuperFault>
    requires { at < 2 ^ 63 }
    ensures copied { ReadsSuperblockBytes (I.device image.old) (I.device image.new) at out.new
        result }
    ensures counted { I.reads image.new ≤ I.reads image.old + 1 }
    ensures asks { ReadsAtMostOnce I.was_read at SUPERBLOCK_BYTES image.old image.new }
    ensures short { (I.device image.old).size < at + SUPERBLOCK_BYTES
        → I.reads image.new ≤ I.reads image.old }
{
    if image.size() < at + SUPERBLOCK_BYTES as u64 {
        return Err(SuperFault::CannotRead {
            sector: at / DEV_BSIZE,
        });
    }
    match image.read_at(at, out) {
        Ok(()) => Ok(()),
        Err(fault) => Err(SuperFault::CannotRead {
            sector: fault.sector,
        }),
    }
}

/// A superblock that is accepted (fs(5), `struct fs`).
#[derive(Clone, Copy, Debug)]
pub struct Super {
    /// Its layout.
    pub geometry: Geometry,
    /// What a write is to save: 0 time, 1 space.
    pub optim: i32,
    /// The percentage of blocks that are to stay free.
    pub minfree: i32,
    /// Directories, free blocks, free inodes, and the free fragments of blocks that aren't all
    /// free.
    pub cstotal: [i32; 4],
    /// Where the volume was mounted last: the text ends before the first NUL, if there is one.
    pub mount: [u8; MAXMNTLEN],
}

impl Super {
    ghost use Rattle.std.specs.Prelude.{◌&&◌, not};
    ghost use Rattle.ffs_volume.specs.Report.Opening.{has_valid_minfree, has_valid_optim};

    /// Whether `optim` is 0 (time) or 1 (space).
    pub fn has_valid_optim(&self) -> bool
        ensures { result ≡ has_valid_optim (superblock_in self.now) }
    {
        0 <= self.optim && self.optim <= 1
    }

    /// Whether `minfree` is a percentage from 0 to 99.
    pub fn has_valid_minfree(&self) -> bool
        ensures { result ≡ has_valid_minfree (superblock_in self.now) }
    {
        0 <= self.minfree && self.minfree <= 99
    }

    /// Whether `optim` or `minfree` has a value that it may not have: the opening reports a defect
    /// then.
    pub fn opening_defects(&self) -> bool
        ensures { result ≡ not (has_valid_optim (superblock_in self.now)
            && has_valid_minfree (superblock_in self.now)) }
    {
        !(self.has_valid_optim() && self.has_valid_minfree())
    }
}

/// The superblock in the bytes, with the layout of the geometry.
#[tactic(auto, unfolding(ffs_volume::specs::Disk::Superblock::superblock_of))]
fn make_super(order: Order, bytes: &[u8; SUPERBLOCK_BYTES], geometry: Geometry) -> Super
    ensures { superblock_in result ≡ record (superblock_of order bytes.now) {
      layout = geometry.layout;
    } }
{
    let mut mount = [0; MAXMNTLEN];
    mount.copy_from_slice(&bytes[212..724]);
    Super {
        geometry,
        optim: i32_at(order, 128, bytes),
        minfree: i32_at(order, 60, bytes),
        cstotal: [
            i32_at(order, 192, bytes),
            i32_at(order, 196, bytes),
            i32_at(order, 200, bytes),
            i32_at(order, 204, bytes),
        ],
        mount,
    }
}

/// Reads the copy of the superblock in the last group and compares it with the superblock's bytes,
/// unless a sector was asked for.
#[tactic(auto, unfolding(ffs_image::specs::Reads::ReadsAtMostOnce, ffs_volume::specs::Disk::Outcome::agree, ffs_volume::specs::Disk::Outcome::copy_agrees))]
fn check_copy<I: Image>(
    image: &mut I,
    sector: Option<u32>,
    order: Order,
    bytes: &[u8; SUPERBLOCK_BYTES],
    geometry: &Geometry,
) -> Result<(), SuperFault>
    requires { IsAccepted (layout_of order bytes.now) (I.device image.old).size
        geometry.now.layout }
    ensures compared { ComparesCopy (I.device image.old) (I.device image.new) sector order bytes.now
        result }
    ensures counted { I.reads image.new ≤ I.reads image.old + 1 }
    ensures unread { IfSome sector (λ _. I.reads image.new ≤ I.reads image.old) }
    ensures asks { ReadsAtMostOnce I.was_read (copy_place geometry.now.layout) SUPERBLOCK_BYTES
        image.old image.new }
{
    if sector.is_some() {
        return Ok(());
    }
    let group = geometry.layout.ncg - 1;
    let at = u64::from(geometry.cgsblock(group)) * u64::from(geometry.layout.fsize);
    let mut copy = [0; SUPERBLOCK_BYTES];
    read_superblock_bytes(image, at, &mut copy)?;
    if agree_at(order, &LAYOUT_PLACES, bytes, &copy) {
        Ok(())
    } else {
        Err(SuperFault::Disagree)
    }
}

/// Reads the superblock at a sector of 512 bytes, or the primary one. Where no sector is asked for,
/// it is compared with the copy in the last group.
///
/// # Errors
/// The first fault, in the order of `SuperFault`; an unreadable last copy comes after `Short`.
#[tactic(auto, using(crate::proofs::Copying::default_sector), unfolding(ffs_image::specs::Reads::ReadsAtMostOnce))]
pub fn read_super<I: Image>(image: &mut I, sector: Option<u32>) -> Result<Super, SuperFault>
    // An accepted volume lies within the image. What can't be read is a failed read, or lies past
    // the image's end.
    ensures inside_or_unreadable { MatchResult result
        (λ s. FitsIn s.geometry.layout (I.device image.old).size)
        (λ fault. (at : ℕ) → fault ≡ SuperFault.CannotRead at
        → IsUnreadable (I.device image.old) (I.device image.new) sector at) }

    // A failed read is returned, by its sector. With none, the result is the outcome, where the
    // bytes are given.
    ensures answer { ReadsSuper (I.device image.old) (I.device image.new) sector (found_of result) }

    // It reads the superblock, and the copy; the copy only where that is compared.
    ensures reads { I.reads image.new ≤ I.reads image.old + opening_reads sector }
    ensures once { may_read_copy (found_of result) ≡ false
        → I.reads image.new ≤ I.reads image.old + 1 }

    // An image that ends before the superblock does isn't read.
    ensures short { (I.device image.old).size < super_sector sector * DEV_BSIZE + SUPERBLOCK_BYTES
        → I.reads image.new ≤ I.reads image.old }

    // Each read is of the bytes of a superblock.
    ensures asks { ReadsSuperblocks I.was_read (super_sector sector * DEV_BSIZE) image.old
        image.new }
{
    let start = u64::from(sector.unwrap_or(SUPERBLOCK_SECTOR as u32)) * DEV_BSIZE;
    let mut bytes = [0; SUPERBLOCK_BYTES];
    read_superblock_bytes(image, start, &mut bytes)?;
    let Some(order) = order_of_magic(&bytes) else {
        return Err(SuperFault::Magic);
    };
    let geometry = Geometry::new(decode(order, &bytes), image.size())?;
    check_copy(image, sector, order, &bytes, &geometry)?;
    Ok(make_super(order, &bytes, geometry))
}

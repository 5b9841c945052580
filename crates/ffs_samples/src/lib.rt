//! A small volume and its images, for the tests of the crates: one group of 128 fragments of 1,024
//! bytes. Its 32 inodes begin at byte 28,672, and its data at fragment 33.
//!
//! `geometry` is that of the volume in one of `ORDERS`, and `image_of` makes an image of numbers at
//! places, by `put`; `base` has only the superblock, by `put_super`, and `put_bytes` writes a text.
//! `inode` makes an inode, and `numbers`, `flags`, `set_first` and `set_first_filled` make or fill
//! lists. A `Watched` image counts its reads, and `Stop` is why a test has no answer.
//!
//! ```text
//! let geometry = geometry(Order::Little)?;
//! let mut image = image_of(Order::Little, &[(28_672 + 2 * 128, 2, 0o040755)], alloc)?;
//! ```
#![tactic(auto)]

ghost use Rattle.std.specs.Prelude.{◌≡◌, ◌≤◌, ◌*◌, IfOk, length, vec_len};
ghost use Rattle.ffs_image.specs.Device.{Faulted, IsAt, IsSized};
ghost use Rattle.ffs_volume.specs.Blocks.Inodes.{inodes_of};

use ffs_image::{Image, ImageFault, MemoryImage};
use ffs_layout::{Geometry, Inode, Layout, Order, SuperFault};
use ffs_memory::{FilledList, FixedList, Memory, SystemMemory};
use std::alloc::{AllocError, Global};

/// Both byte orders.
pub const ORDERS: [Order; 2] = [Order::Little, Order::Big];

/// The volume's geometry.
///
/// # Errors
/// Those of `Geometry::new`. The layout is valid, so none is expected.
pub fn geometry(order: Order) -> Result<Geometry, SuperFault>
    ensures size { IfOk result (λ g. g.layout.size ≡ 128) }
    ensures bytes { IfOk result (λ g. g.layout.size * g.layout.fsize ≤ 131072) }
    ensures groups { IfOk result (λ g. g.layout.ncg ≡ 1) }
    ensures inodes { IfOk result (λ g. g.layout.ipg ≡ 32) }
    ensures table { IfOk result (λ g. inodes_of g.layout ≡ 32) }
    ensures block { IfOk result (λ g. g.layout.cgsize ≡ 1024) }
{
    let layout = Layout {
        order,
        sblkno: 16,
        cblkno: 24,
        iblkno: 28,
        dblkno: 32,
        cgoffset: 0,
        cgmask: 0xffff_ffff,
        size: 128,
        dsize: 95,
        ncg: 1,
        bsize: 4096,
        fsize: 1024,
        frag: 4,
        sbsize: 2048,
        nindir: 1024,
        inopb: 32,
        csaddr: 32,
        cssize: 1024,
        cgsize: 1024,
        ncyl: 1,
        cpg: 1,
        ipg: 32,
        fpg: 128,
        maxsymlinklen: 60,
        inodefmt: 2,
        postblformat: 1,
    };
    Geometry::new(layout, 131072)
}

/// An inode without blocks.
pub fn inode(mode: u16, size: u64) -> Inode {
    Inode {
        mode,
        nlink: 1,
        size,
        mtime: 0,
        addresses: [0; 15],
        blocks: 0,
        uid: 0,
    }
}

/// A number to write: its place (an offset in bytes), its width in bytes, and its value.
pub type Number = (usize, usize, u64);

/// Writes numbers, as far as there is room.
pub fn put(order: Order, bytes: &mut [u8], numbers: &[Number])
    ensures { length bytes.new ≡ length bytes.old }
{
    for &(place, width, number) in numbers {
        for (i, byte) in number.to_le_bytes().iter().enumerate() {
            if i < width {
                let digit = match order {
                    Order::Little => i,
                    Order::Big => width - 1 - i,
                };
                let at = place.saturating_add(digit);
                if at < bytes.len() {
                    bytes[at] = *byte;
                }
            }
        }
    }
}

/// An image of 131,072 bytes: these numbers, and zeros.
///
/// # Errors
/// The memory was refused.
pub fn image_of(order: Order, numbers: &[Number], alloc: Global) -> Result<MemoryImage, AllocError>
    ensures { IfOk result (λ m. length m ≡ 131072) }
{
    let mut bytes = vec![in alloc; 0u8; 131072]?;
    put(order, bytes.as_mut_slice(), numbers);
    Ok(MemoryImage::new(bytes))
}

/// The superblock of a volume with one group: place, number.
const NUMBERS: [(usize, u64); 30] = [
    (8, 16),
    (12, 24),
    (16, 28),
    (20, 32),
    (28, 0xffff_ffff),
    (36, 128),
    (40, 95),
    (44, 1),
    (48, 4096),
    (52, 1024),
    (56, 4),
    (60, 10),
    (104, 2048),
    (116, 1024),
    (120, 32),
    (152, 32),
    (156, 1024),
    (160, 1024),
    (176, 1),
    (180, 1),
    (184, 32),
    (188, 128),
    (192, 1),
    (196, 22),
    (200, 29),
    (204, 6),
    (1320, 60),
    (1324, 2),
    (1356, 1),
    (1372, 0x011954),
];

/// Writes bytes at a place, as far as there is room.
pub fn put_bytes(bytes: &mut [u8], place: usize, text: &[u8]) {
    for (i, byte) in text.iter().enumerate() {
        if place < bytes.len() && i < bytes.len() - place {
            bytes[place + i] = *byte;
        }
    }
}

/// Writes the volume's superblock at a place.
pub fn put_super(order: Order, bytes: &mut [u8], at: usize) {
    for &(place, number) in &NUMBERS {
        put(order, bytes, &[(at.saturating_add(place), 4, number)]);
    }
    put_bytes(bytes, at.saturating_add(212), b"/mnt");
}

/// The bytes of an image with the volume's superblock and its last copy, at byte 16,384, and zeros.
///
/// # Errors
/// The memory was refused.
pub fn base(order: Order, alloc: Global) -> Result<Vec<u8>, AllocError> {
    let mut bytes = vec![in alloc; 0u8; 131072]?;
    put_super(order, bytes.as_mut_slice(), 8192);
    put_super(order, bytes.as_mut_slice(), 16384);
    Ok(bytes)
}

/// A list of these numbers.
///
/// # Errors
/// The memory was refused.
pub fn numbers(values: &[u32], alloc: Global) -> Result<FilledList<u32>, AllocError>
    ensures { IfOk result (λ list. vec_len list ≡ length values.now) }
{
    let mut list = SystemMemory::new(alloc).numbers(values.len())?;
    for index in 0..values.len() {
        list.set(index, values[index]);
    }
    Ok(list)
}

/// A list of these flags.
///
/// # Errors
/// The memory was refused.
pub fn flags(values: &[bool], alloc: Global) -> Result<FilledList<bool>, AllocError>
    ensures { IfOk result (λ list. vec_len list ≡ length values.now) }
{
    let mut list = SystemMemory::new(alloc).flags(values.len())?;
    for index in 0..values.len() {
        list.set(index, values[index]);
    }
    Ok(list)
}

/// Sets the first elements of a list, as far as there are some.
pub fn set_first<T: Copy>(list: &mut FixedList<T>, values: &[T])
    ensures { vec_len list.new ≡ vec_len list.old }
{
    for (element, value) in list.as_mut_slice().iter_mut().zip(values) {
        *element = *value;
    }
}

/// Sets the first elements of a list that is filled, as far as there are some.
pub fn set_first_filled<T: Copy>(list: &mut FilledList<T>, values: &[T])
    ensures { vec_len list.new ≡ vec_len list.old }
{
    for index in 0..values.len() {
        if index < list.len() {
            list.set(index, values[index]);
        }
    }
}

/// An image that counts its reads, and those that aren't of a whole block that may hold data.
#[derive(Drop)]
pub struct Watched<I: Image + Drop> {
    pub inner: I,
    pub reads: u64,
    pub odd: u64,
}

impl<I: Image + Drop> Watched<I> {
    pub fn new(inner: I) -> Watched<I>
        ensures { result.inner ≡ inner }
    {
        Watched {
            inner,
            reads: 0,
            odd: 0,
        }
    }
}

impl<I: Image + Drop> Image for Watched<I> {
    ghost device = { λ w. I.device w.inner };

    ghost reads = { λ w. I.reads w.inner };

    ghost was_read = { λ w at size after. I.was_read w.inner at size after.inner };

    ghost sized = { λ w. I.sized w.inner };

    fn size(&self) -> u64 {
        self.inner.size()
    }

    fn failures(&self) -> u64 {
        self.inner.failures()
    }

    fn failed(&self) -> u64 {
        self.inner.failed()
    }

    fn read_at(&mut self, at: u64, buf: &mut [u8]) -> Result<(), ImageFault> {
        self.reads = self.reads.saturating_add(1);
        if buf.len() != 4096 || at % 1024 != 0 || at < 33 * 1024 {
            self.odd = self.odd.saturating_add(1);
        }
        self.inner.read_at(at, buf)
    }
}

/// Why a helper of the tests has no answer: a read of the image failed, or memory was refused.
#[derive(Debug, Drop)]
pub enum Stop {
    Read(ImageFault),
    Memory(AllocError),
}

impl From<ImageFault> for Stop {
    fn from(fault: ImageFault) -> Stop {
        Stop::Read(fault)
    }
}

impl From<AllocError> for Stop {
    fn from(error: AllocError) -> Stop {
        Stop::Memory(error)
    }
}

//! Inodes, read by pieces of their table. `Table` is the `Window` of `ffs_walk` with the number of
//! the inode that it starts at; no walk reads an inode, so it is here, beside the notes on inodes.

ghost use Rattle.std.specs.Prelude.{◌≡◌, ◌*◌, ◌↔◌, IsTrue};
ghost use Rattle.ffs_image.specs.Reads.{ReadsAtMostOnce};
ghost use Rattle.ffs_workspace.specs.Tables.{HasPiece, table_place};

use ffs_image::{Image, ImageFault};
use ffs_layout::{Geometry, decode_inode};
use ffs_memory::FixedList;
use ffs_volume::Inode;
use ffs_volume::constants::DINODE_SIZE;
use ffs_walk::Window;

/// How many inodes a sector of 512 bytes has.
const SECTOR_INODES: u32 = 4;

/// How many inodes eight sectors have. No block has fewer.
const PIECE_INODES: u32 = 32;

/// Where the piece of the inode table is that has an inode, in bytes from the start of the image. A
/// piece has `count` inodes.
#[inline(always)]
#[tactic(auto, using(crate::proofs::TablePlaces::piece_laws))]
fn piece_place(geometry: &Geometry, number: u32, count: u32) -> u64
    requires { HasPiece geometry.now.layout count number }
    ensures { result ≡ table_place geometry.now.layout count number }
{
    let group = number / geometry.layout.ipg;
    let piece = number % geometry.layout.ipg / count;
    u64::from(geometry.cgstart(group) + geometry.layout.iblkno) * u64::from(geometry.layout.fsize)
        + u64::from(piece) * (u64::from(count) * DINODE_SIZE as u64)
}

/// One block of the inode table of a group, or a piece of one.
#[derive(Drop)]
pub struct Table {
    /// The bytes of the inodes.
    pub window: Window,
    /// The number of the first inode that the window holds.
    pub first: u32,
    /// How many inodes it holds.
    pub count: u32,
}

impl Table {
    ghost use Rattle.ffs_workspace.specs.Tables.{AsksForPiece, CanReadInode, CanReadPiece, DividesBlocks, HoldsInode};
    ghost use Rattle.ffs_workspace.specs.Tables.{IsEmptyTable, LoadsInode, ReadsInodeOnce, ReadsPiece};
    ghost use Rattle.ffs_workspace.specs.Tables.{count_to_read, follows};
    ghost use Rattle.ffs_walk.specs.Windows.{image_with};

    /// A table that holds no inode. It takes no memory.
    pub fn over(buffer: FixedList<u8>) -> Table
        ensures { IsEmptyTable buffer result }
    {
        Table {
            window: Window::over(buffer),
            first: 0,
            count: 0,
        }
    }

    /// Whether the window holds an inode.
    #[inline(always)]
    fn has(&self, number: u32) -> bool
        ensures { IsTrue result ↔ HoldsInode self.now number }
    {
        self.first <= number && number - self.first < self.count
    }

    /// Forgets which inodes the window holds, so that it may be used for other bytes.
    pub fn forget(&mut self)
        ensures { self.new ≡ record self.old { count = 0 } }
    {
        self.count = 0;
    }

    /// Reads the piece of the table, of `count` inodes, that has an inode.
    #[tactic(auto, using(crate::proofs::TablePlaces::piece_laws))]
    fn read_piece<I: Image>(
        &mut self,
        geometry: &Geometry,
        number: u32,
        count: u32,
        image: &mut I,
    ) -> Result<(), ImageFault>
        requires { CanReadPiece geometry.now.layout (I.device image.old) count number self.old }
        ensures reads { ReadsPiece geometry.now.layout count number
            (image_with I.Image image.old self.old) (image_with I.Image image.new self.new) result }
        ensures asks { ReadsAtMostOnce I.was_read (table_place geometry.now.layout count number)
            (count * DINODE_SIZE) image.old image.new }
    {
        let place = piece_place(geometry, number, count);
        self.forget();
        self.window
            .fill(image, place, count as usize * DINODE_SIZE)?;
        self.first = number - number % geometry.layout.ipg % count;
        self.count = count;
        Ok(())
    }

    /// Reads the block of the table that has an inode, unless the window holds the inode. Returns
    /// where its bytes are in the window.
    #[inline(always)]
    #[tactic(auto, using(crate::proofs::TablePlaces::block_divides), unfolding(ffs_image::specs::Reads::ReadsAtMostOnce, crate::specs::Tables::AsksForPiece, crate::specs::Tables::TakesPiece, crate::specs::Tables::FailsInPiece))]
    fn load<I: Image>(
        &mut self,
        geometry: &Geometry,
        number: u32,
        image: &mut I,
    ) -> Result<usize, ImageFault>
        requires { CanReadInode geometry.now.layout (I.device image.old) number self.old }
        ensures loads { LoadsInode geometry.now.layout number
            (image_with I.Image image.old self.old) (image_with I.Image image.new self.new) result }
        ensures asks { AsksForPiece I.was_read geometry.now.layout geometry.now.layout.inopb number
            self.old image.old image.new }
    {
        if !self.has(number) {
            self.read_piece(geometry, number, geometry.layout.inopb, image)?;
        }
        Ok(DINODE_SIZE * (number - self.first) as usize)
    }

    /// The inode of a number (fs(5)). Its block of the table is read, `inopb` inodes, unless the
    /// inode is held.
    ///
    /// # Errors
    /// A read of the image that failed.
    #[inline(always)]
    #[tactic(auto, unfolding(crate::specs::Tables::AsksForPiece, crate::specs::Tables::TakesPiece, crate::specs::Tables::FailsInPiece))]
    pub fn inode<I: Image>(
        &mut self,
        geometry: &Geometry,
        number: u32,
        image: &mut I,
    ) -> Result<Inode, ImageFault>
        requires { CanReadInode geometry.now.layout (I.device image.old) number self.old }
        ensures inode { ReadsInodeOnce geometry.now.layout geometry.now.layout.inopb number
            (image_with I.Image image.old self.old) (image_with I.Image image.new self.new) result }
        ensures asks { AsksForPiece I.was_read geometry.now.layout geometry.now.layout.inopb number
            self.old image.old image.new }
    {
        let at = self.load(geometry, number, image)?;
        let bytes = self.window.bytes();
        Ok(decode_inode(geometry.layout.order, &bytes[at..at + DINODE_SIZE]))
    }

    /// Whether an inode's sector begins where the inodes that are held end, as where the caller
    /// goes along the table: it is one of the four after them. Where none is held they end at
    /// `first`. No answer depends on it: it decides only how much is read.
    #[tactic(auto, unfolding(crate::specs::Tables::follows))]
    fn follows(&self, number: u32) -> bool
        ensures { result ≡ follows self.now number }
    {
        number >= self.first
            && number - self.first >= self.count
            && number - self.first - self.count < SECTOR_INODES
    }

    /// How many inodes are read where one isn't held.
    #[tactic(auto, using(crate::proofs::TablePlaces::parts_divide, crate::proofs::TablePlaces::sectors_divide), unfolding(crate::specs::Tables::count_to_read))]
    fn count_to_read(&self, number: u32) -> u32
        ensures count { result ≡ count_to_read self.now number }
        ensures divides { DividesBlocks result }
    {
        if self.follows(number) {
            PIECE_INODES
        } else {
            SECTOR_INODES
        }
    }

    /// The inode of a number (fs(5)), as `inode` gives it. Where it isn't held, its sector of 512
    /// bytes is read and no whole block, so that inodes which are far apart cost few bytes. Eight
    /// sectors are read where its sector follows the inodes that are held.
    ///
    /// # Errors
    /// A read of the image that failed.
    #[inline(always)]
    #[tactic(auto, unfolding(ffs_image::specs::Reads::ReadsAtMostOnce, crate::specs::Tables::AsksForPiece, crate::specs::Tables::TakesPiece, crate::specs::Tables::FailsInPiece))]
    pub fn inode_by_piece<I: Image>(
        &mut self,
        geometry: &Geometry,
        number: u32,
        image: &mut I,
    ) -> Result<Inode, ImageFault>
        requires { CanReadInode geometry.now.layout (I.device image.old) number self.old }
        ensures inode { ReadsInodeOnce geometry.now.layout (count_to_read self.old number) number
            (image_with I.Image image.old self.old) (image_with I.Image image.new self.new) result }
        ensures asks { AsksForPiece I.was_read geometry.now.layout (count_to_read self.old number)
            number self.old image.old image.new }
    {
        if !self.has(number) {
            let count = self.count_to_read(number);
            self.read_piece(geometry, number, count, image)?;
        }
        self.inode(geometry, number, image)
    }
}

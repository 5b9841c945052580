//! `copies`: the sectors at which a superblock is accepted.
ghost use Rattle.std.specs.Prelude.{◌≡◌, ◌+◌, ◌*◌, ◌≤◌, ◌<◌, ◌||◌, ◌==◌, length, vec_len};
ghost use Rattle.ffs_image.specs.Reads.{ReadsAtMostOnce};
ghost use Rattle.ffs_volume.specs.{Disk.{Outcome.outcome, Numbers.u32_at as u32_in}, declared.Order.TheVariants.Little};
ghost use Rattle.ffs_volume.specs.declared.{Order.TheVariants.Big, constants.TheConstants.FS_MAGIC};
ghost use Rattle.ffs_volume.specs.Find.Copies.{copies_lines, copy_lines_of, copy_text, order_word, which_text};
ghost use Rattle.ffs_report.specs.{Fails.FailsIn, Sink.Prints};
ghost use Rattle.ffs_image.specs.Known.{IsContents};
ghost use Rattle.ffs_check.specs.Moment.{moment};
ghost use Rattle.ffs_finding.specs.{Outcome.Finds, Copies.{CanFindAt, FailsBeforeCopy, FindsAt, FindsMagic, IsSectorsEnd}};
ghost use Rattle.ffs_finding.specs.Copies.{ReadsCopies, ReadsWindow, window_bytes, window_length, window_place};
ghost use Rattle.ffs_walk.specs.Windows.{WindowHolds};

use ffs_check::words::SECTOR_END;
use ffs_image::{Image, ImageFault};
use ffs_layout::{Geometry, Order, read_super, u32_at};
use ffs_report::print::{print, print_number, print_pieces};
use ffs_report::{OutFault, Output, Piece, RunFault};
use ffs_volume::SuperFault;
use ffs_volume::constants::{DEV_BSIZE, FS_MAGIC, SUPERBLOCK_BYTES, SUPERBLOCK_SECTOR};
use ffs_walk::Window;

/// The bytes that are read at a time.
pub const WINDOW_BYTES: u64 = 65536;

/// How many whole sectors of a superblock are before its magic number, which begins at byte 1,372.
const SECTORS_BEFORE_MAGIC: u64 = 2;

/// Where the magic number begins in the sector after these, in bytes: 1,372 less 1,024.
const MAGIC_PLACE: usize = 348;

/// The word of an order of bytes.
fn order_word(order: Order) -> &'static [u8]
    ensures { result.now ≡ order_word order }
{
    match order {
        Order::Little => b"little",
        Order::Big => b"big",
    }
}

/// Prints which superblock of its volume one at a sector is, by the volume's geometry.
fn print_which<W: Output>(out: &mut W, geometry: &Geometry, sector: u32) -> Result<(), OutFault>
    ensures { Prints (W.sink out.old) (W.sink out.new) (which_text geometry.now.layout sector)
        result }
{
    if u64::from(sector) == SUPERBLOCK_SECTOR {
        return print(out, b"primary\n");
    }
    let place = u64::from(sector) * DEV_BSIZE;
    let fsize = u64::from(geometry.layout.fsize);
    let group = place / fsize / u64::from(geometry.layout.fpg);
    if group < u64::from(geometry.layout.ncg)
        && u64::from(geometry.cgsblock(group as u32)) * fsize == place
    {
        return print_number(out, b"group ", group, b"\n");
    }
    print(out, b"other\n")
}

/// Prints the line of a superblock at a sector.
#[tactic(auto, using(ffs_report::proofs::Sinks::printing))]
fn print_copy<W: Output>(out: &mut W, geometry: &Geometry, sector: u32) -> Result<(), OutFault>
    ensures { Prints (W.sink out.old) (W.sink out.new) (copy_text geometry.now.layout sector)
        result }
{
    let layout = &geometry.layout;
    print_pieces(
        out,
        &[
            Piece::Number(u64::from(sector), b" "),
            Piece::Text(order_word(layout.order)),
            Piece::Text(b" "),
            Piece::Number(u64::from(layout.bsize), b"/"),
            Piece::Number(u64::from(layout.fsize), b" "),
            Piece::Number(u64::from(layout.size), b" "),
        ],
    )?;
    print_which(out, geometry, sector)
}

/// Whether a number in either order of bytes is the magic number of a superblock.
fn is_magic(bytes: &[u8], place: usize) -> bool
    requires { place + 4 ≤ length bytes.now }
    ensures { result ≡ (u32_in Little place bytes.now == FS_MAGIC
        || u32_in Big place bytes.now == FS_MAGIC) }
{
    u32_at(Order::Little, place, bytes) == FS_MAGIC || u32_at(Order::Big, place, bytes) == FS_MAGIC
}

/// Whether a superblock with a magic number begins at a sector. The window in which the magic
/// number would lie is read, where it isn't there already.
///
/// # Errors
/// A read of the image that failed.
fn has_magic<I: Image>(image: &mut I, window: &mut Window, sector: u32) -> Result<bool, ImageFault>
    requires { CanFindAt (I.device image.old) sector window.old }
    ensures answer { FindsMagic (I.device image.old) (I.device image.new) sector window.new
        result }
    ensures reads { ReadsWindow (I.device image.old) sector window.old (I.reads image.old)
        (I.reads image.new) }
    ensures asks { ReadsAtMostOnce I.was_read (window_place sector)
        (window_length (I.device image.old).size (window_place sector)) image.old image.new }
{
    let place = (u64::from(sector) + SECTORS_BEFORE_MAGIC) * DEV_BSIZE;
    let start = place / WINDOW_BYTES * WINDOW_BYTES;
    let length = WINDOW_BYTES.min(image.size() - start);
    window.fill(image, start, length as usize)?;
    Ok(is_magic(window.bytes(), (place - start) as usize + MAGIC_PLACE))
}

/// Prints the line of a superblock at a sector, where one is accepted there.
fn find_copy<I: Image, W: Output>(
    image: &mut I,
    window: &mut Window,
    sector: u32,
    out: &mut W,
) -> Result<(), RunFault>
    requires { CanFindAt (I.device image.old) sector window.old }
    ensures { FindsAt sector window.old window.new (moment I.Image W.Output image.old out.old)
        (moment I.Image W.Output image.new out.new) result }
{
    let found = has_magic(image, window, sector)?;
    if !found {
        return Ok(());
    }
    match read_super(image, Some(sector)) {
        Ok(superblock) => {
            print_copy(out, &superblock.geometry, sector)?;
            Ok(())
        }
        Err(SuperFault::CannotRead { sector }) => Err(RunFault::Read(ImageFault { sector })),
        Err(_) => Ok(()),
    }
}

/// The sector after the last one that `-b` takes and at which a superblock lies in an image of this
/// size, in bytes; 1 where there is none.
fn sectors_end(size: u64) -> u32
    ensures { IsSectorsEnd size result }
{
    if size < SUPERBLOCK_BYTES as u64 {
        return 1;
    }
    let end = (size - SUPERBLOCK_BYTES as u64) / DEV_BSIZE + 1;
    u64::from(SECTOR_END).min(end) as u32
}

/// Prints the sectors at which `-b` is accepted, in ascending order, each with its order of bytes,
/// sizes of blocks and fragments in bytes, size in fragments, and whether it is the primary
/// superblock or the copy of a group (fs(5)). The window has 65,536 bytes, also afterwards. The
/// image is read once for each 65,536 bytes at most, and once more for each magic number.
///
/// # Errors
/// A read of the image that failed, and a write that failed.
pub fn find_copies<I: Image, W: Output>(
    image: &mut I,
    window: &mut Window,
    out: &mut W,
) -> Result<(), RunFault>
    requires room { vec_len window.old.buffer ≡ window_bytes }
    requires holds { WindowHolds (I.device image.old).contents window.old }
    ensures prints { Finds (IsContents (I.device image.old).contents) copies_lines
        (moment I.Image W.Output image.old out.old) (moment I.Image W.Output image.new out.new)
        result }
    ensures reads { ReadsCopies (I.device image.old) (I.reads image.old) (I.reads image.new) }
    ensures before_fault { FailsIn (FailsBeforeCopy (IsContents (I.device image.old).contents)
        (W.sink out.old) (W.sink out.new)) result }
    ensures room { vec_len window.new.buffer ≡ window_bytes }
    ensures holds { WindowHolds (I.device image.new).contents window.new }
{
    for sector in 1..sectors_end(image.size()) {
        find_copy(image, window, sector, out)?;
    }
    Ok(())
}

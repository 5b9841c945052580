//! `inode`: where an inode lies, and what it says.
ghost use Rattle.std.specs.Prelude.{◌≡◌, ◌+◌, ◌*◌, ◌/◌, ◌≤◌, ◌<◌};
ghost use Rattle.ffs_image.specs.{Reads.ReadsAtMostOnce, Known.IsContents};
ghost use Rattle.ffs_volume.specs.{Blocks.Inodes.inode_from_bytes, Disk.Areas.{inode_place, FitsIn}};
ghost use Rattle.ffs_volume.specs.Find.InodeText.{place_text, numbers_text, address_text, addresses_text, bytes_text};
ghost use Rattle.ffs_volume.specs.Find.InodeText.{inode_listing, class_word, fifteen_text};
ghost use Rattle.ffs_volume.specs.declared.constants.TheConstants.{DEV_BSIZE, DINODE_SIZE};
ghost use Rattle.ffs_report.specs.{Fails.FailsIn, Sink.Prints};
ghost use Rattle.ffs_check.specs.Moment.{moment};
ghost use Rattle.ffs_finding.specs.Outcome.{Finds};

use ffs_image::Image;
use ffs_layout::{Geometry, decode_inode};
use ffs_report::print::{print_octal, print_pieces};
use ffs_report::{OutFault, Output, Piece, RunFault};
use ffs_volume::constants::DINODE_SIZE;
use ffs_volume::{Class, Inode};
use ffs_walk::{class_of, is_device, is_short_symlink};

/// Where the addresses begin in an inode, in bytes (fs(5)).
const ADDRESSES_PLACE: usize = 40;

/// The word of a class.
fn class_word(class: Class) -> &'static [u8]
    ensures { result.now ≡ class_word class }
{
    match class {
        Class::Free => b"free",
        Class::Partial => b"partial",
        Class::Unknown => b"unknown",
        Class::File => b"file",
        Class::Dir => b"directory",
    }
}

/// Prints where the inode begins, and its class.
#[tactic(auto, unfolding(ffs_volume::specs::Find::InodeText::place_text))]
fn print_place<W: Output>(out: &mut W, place: u64, class: Class) -> Result<(), OutFault>
    ensures { Prints (W.sink out.old) (W.sink out.new) (place_text place class) result }
{
    print_pieces(
        out,
        &[
            Piece::Text(b"byte "),
            Piece::Number(place, b"\nclass "),
            Piece::Text(class_word(class)),
            Piece::Text(b"\nmode "),
        ],
    )
}

/// Prints the numbers after the mode.
#[tactic(auto, unfolding(ffs_volume::specs::Find::InodeText::numbers_text))]
fn print_numbers<W: Output>(out: &mut W, inode: &Inode) -> Result<(), OutFault>
    ensures { Prints (W.sink out.old) (W.sink out.new) (numbers_text inode.now) result }
{
    print_pieces(
        out,
        &[
            Piece::Text(b"\nlinks "),
            Piece::Signed(i64::from(inode.nlink), b"\nsize "),
            Piece::Number(inode.size, b"\nblocks "),
            Piece::Number(u64::from(inode.blocks), b"\nuid "),
            Piece::Number(u64::from(inode.uid), b"\nmtime "),
            Piece::Signed(i64::from(inode.mtime), b"\n"),
        ],
    )
}

/// Prints the line of an address, unless it is 0.
fn print_address<W: Output>(
    out: &mut W,
    geometry: &Geometry,
    inode: &Inode,
    index: usize,
) -> Result<(), OutFault>
    requires { index < 15 }
    ensures { Prints (W.sink out.old) (W.sink out.new)
        (address_text geometry.now.layout inode.now.addresses index) result }
{
    let address = inode.addresses[index];
    if address == 0 {
        return Ok(());
    }
    print_pieces(
        out,
        &[
            Piece::Text(b"address "),
            Piece::Number(index as u64, b" "),
            Piece::Number(u64::from(address), b" byte "),
            Piece::Number(u64::from(address) * u64::from(geometry.layout.fsize), b"\n"),
        ],
    )
}

/// Prints the lines of the addresses that aren't 0.
fn print_addresses<W: Output>(
    out: &mut W,
    geometry: &Geometry,
    inode: &Inode,
) -> Result<(), OutFault>
    ensures { Prints (W.sink out.old) (W.sink out.new)
        (fifteen_text geometry.now.layout inode.now.addresses) result }
{
    for index in 0..15 {
        print_address(out, geometry, inode, index)?;
    }
    Ok(())
}

/// Prints what is in the place of the addresses: the text of a short symbolic link, the number of a
/// device, or addresses.
#[tactic(auto, unfolding(ffs_volume::specs::Find::InodeText::addresses_text))]
fn print_in_place<W: Output>(
    out: &mut W,
    geometry: &Geometry,
    bytes: &[u8; DINODE_SIZE],
    inode: &Inode,
) -> Result<(), OutFault>
    ensures { Prints (W.sink out.old) (W.sink out.new)
        (addresses_text geometry.now.layout bytes.now inode.now) result }
{
    if is_short_symlink(geometry, inode) {
        let end = ADDRESSES_PLACE + inode.size as usize;
        return print_pieces(
            out,
            &[
                Piece::Text(b"text "),
                Piece::Shown(&bytes[ADDRESSES_PLACE..end]),
                Piece::Text(b"\n"),
            ],
        );
    }
    if is_device(inode) {
        return print_pieces(
            out,
            &[
                Piece::Text(b"device "),
                Piece::Number(u64::from(inode.addresses[0]), b"\n"),
            ],
        );
    }
    print_addresses(out, geometry, inode)
}

/// Prints what the bytes of an inode say, which begin at a place in the image, in bytes.
#[tactic(auto, using(ffs_report::proofs::Sinks::printing))]
fn print_bytes<W: Output>(
    out: &mut W,
    geometry: &Geometry,
    place: u64,
    bytes: &[u8; DINODE_SIZE],
) -> Result<(), OutFault>
    ensures { Prints (W.sink out.old) (W.sink out.new) (bytes_text geometry.now.layout place
        bytes.now (inode_from_bytes geometry.now.layout.order bytes.now)) result }
{
    let inode = decode_inode(geometry.order(), bytes);
    print_place(out, place, class_of(geometry, &inode))?;
    print_octal(out, inode.mode)?;
    print_numbers(out, &inode)?;
    print_in_place(out, geometry, bytes, &inode)
}

/// Prints where an inode lies in the image, and what its 128 bytes say (fs(5)): its class, mode,
/// links, size in bytes, blocks in sectors, owner, time of modification, and its addresses, or what
/// is in their place. Nothing is printed for a number that the volume doesn't have. At most one
/// read; where it fails, its sector is the inode's.
///
/// # Errors
/// A read of the image that failed, and a write that failed.
#[tactic(auto, unfolding(ffs_image::specs::Reads::ReadsAtMostOnce))]
pub fn find_inode<I: Image, W: Output>(
    geometry: &Geometry,
    image: &mut I,
    number: u32,
    out: &mut W,
) -> Result<(), RunFault>
    requires volume { FitsIn geometry.now.layout (I.device image.old).size }
    ensures prints { Finds (IsContents (I.device image.old).contents)
        (λ bytes. inode_listing geometry.now.layout bytes number)
        (moment I.Image W.Output image.old out.old) (moment I.Image W.Output image.new out.new)
        result }
    ensures place { FailsIn (λ at. at ≡ inode_place geometry.now.layout number / DEV_BSIZE)
        result }
    ensures reads { I.reads image.new ≤ I.reads image.old + 1 }
    ensures asks { ReadsAtMostOnce I.was_read (inode_place geometry.now.layout number) DINODE_SIZE
        image.old image.new }
{
    if number >= geometry.inodes() {
        return Ok(());
    }
    let place = geometry.inode_place(number);
    let mut bytes = [0; DINODE_SIZE];
    image.read_at(place, &mut bytes)?;
    print_bytes(out, geometry, place, &bytes)?;
    Ok(())
}

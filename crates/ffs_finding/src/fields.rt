//! `fields`: fields of the superblock that a kernel computes with, and that a check doesn't look
//! at.
ghost use Rattle.std.specs.{Prelude.{◌≡◌, ◌+◌, ◌*◌, ◌^◌, ◌≤◌, ◌<◌, length, map}, Int.{cast_signed, div_ceil}};
ghost use Rattle.ffs_image.specs.Reads.{ReadsAtMostOnce};
ghost use Rattle.ffs_volume.specs.Disk.{Numbers.u64_at as u64_in, Outcome.super_sector};
ghost use Rattle.ffs_volume.specs.{declared.constants.TheConstants.{DEV_BSIZE, SBSIZE, SUPERBLOCK_BYTES}, Find.Fields.exponent_of};
ghost use Rattle.ffs_volume.specs.Find.Fields.{field_32, field_lines, field_text, layout_fields, mask_of, total_64};
ghost use Rattle.ffs_volume.specs.Find.Fields.{total_fields, wrong_fields};
ghost use Rattle.ffs_layout.specs.Super.{superblock_in};
ghost use Rattle.ffs_report.specs.{Fails.FailsIn, Sink.Prints};
ghost use Rattle.ffs_check.specs.Moment.{moment};
ghost use Rattle.ffs_finding.specs.{Outcome.{FindsAny, PrintsWhether}, Fields.{WithSuper, field_of, wrong_lines}};

use byteorder::{BigEndian, ByteOrder, LittleEndian};
use ffs_image::Image;
use ffs_layout::{Layout, Order, Super, u32_at};
use ffs_report::print::print_pieces;
use ffs_report::{OutFault, Output, Piece, RunFault};
use ffs_volume::constants::{DEV_BSIZE, SUPERBLOCK_BYTES, SUPERBLOCK_SECTOR};

/// A field of the superblock (fs(5)).
#[derive(Clone, Copy)]
struct Field {
    name: &'static [u8],
    /// Where it begins in the superblock, in bytes.
    place: u32,
    /// What it has.
    has: i64,
    /// What it should have.
    wants: i64,
}

/// The k for which 2^k is n, where n is a power of two.
#[tactic(auto, using(crate::proofs::Exponents::exponent_is))]
fn exponent_of(n: u32) -> u32
    requires { 0 < n }
    ensures { result ≡ exponent_of n }
{
    n.ilog2()
}

/// The bits above those of a size that is a power of two.
fn mask_of(size: u32) -> u32
    requires { 0 < size }
    ensures { result ≡ mask_of size }
{
    u32::MAX - (size - 1)
}

/// A field of 32 bits, unsigned.
fn field_32(order: Order, bytes: &[u8], name: &'static [u8], place: u32, wants: u32) -> Field
    requires { place + 4 ≤ length bytes.now }
    ensures { field_of result ≡ field_32 order bytes.now name.now place wants }
{
    Field {
        name,
        place,
        has: i64::from(u32_at(order, place as usize, bytes)),
        wants: i64::from(wants),
    }
}

/// The number of 64 bits at a place.
#[tactic(auto, unfolding(ffs_volume::specs::Disk::Numbers::number, ffs_volume::specs::Disk::Numbers::u64_at))]
fn u64_at(order: Order, place: usize, bytes: &[u8]) -> u64
    requires { place + 8 ≤ length bytes.now }
    ensures { result ≡ u64_in order place bytes.now }
{
    match order {
        Order::Little => LittleEndian::read_u64(&bytes[place..]),
        Order::Big => BigEndian::read_u64(&bytes[place..]),
    }
}

/// A total of 64 bits, signed.
fn total_64(order: Order, bytes: &[u8], name: &'static [u8], place: u32, wants: i32) -> Field
    requires { place + 8 ≤ length bytes.now }
    ensures { field_of result ≡ total_64 order bytes.now name.now place wants }
{
    Field {
        name,
        place,
        has: u64_at(order, place as usize, bytes).cast_signed(),
        wants: i64::from(wants),
    }
}

/// The least multiple of the fragment's size that a superblock fits.
fn whole_size(layout: &Layout) -> u32
    requires { (layout.now.sbsize ≤ SBSIZE) × (DEV_BSIZE ≤ layout.now.fsize)
        × (layout.now.fsize ≤ 65536) }
    ensures { result ≡ div_ceil layout.now.sbsize layout.now.fsize * layout.now.fsize }
{
    layout.sbsize.div_ceil(layout.fsize) * layout.fsize
}

/// The fields that follow from the layout.
fn layout_fields(superblock: &Super, bytes: &[u8; SUPERBLOCK_BYTES]) -> [Field; 8]
    ensures { map field_of result ≡ layout_fields superblock.now.geometry.layout bytes.now }
{
    let layout = &superblock.geometry.layout;
    let order = layout.order;
    let sectors = layout.fsize / DEV_BSIZE as u32;
    [
        field_32(order, bytes, b"bmask", 72, mask_of(layout.bsize)),
        field_32(order, bytes, b"fmask", 76, mask_of(layout.fsize)),
        field_32(order, bytes, b"bshift", 80, exponent_of(layout.bsize)),
        field_32(order, bytes, b"fshift", 84, exponent_of(layout.fsize)),
        field_32(order, bytes, b"fragshift", 96, exponent_of(layout.frag)),
        field_32(order, bytes, b"fsbtodb", 100, exponent_of(sectors)),
        field_32(order, bytes, b"sbsize", 104, whole_size(layout)),
        field_32(order, bytes, b"nspf", 124, sectors),
    ]
}

/// The totals of 64 bits.
fn total_fields(superblock: &Super, bytes: &[u8; SUPERBLOCK_BYTES]) -> [Field; 4]
    ensures { map field_of result ≡ total_fields (superblock_in superblock.now) bytes.now }
{
    let order = superblock.geometry.layout.order;
    let totals = &superblock.cstotal;
    [
        total_64(order, bytes, b"cs_ndir", 1008, totals[0]),
        total_64(order, bytes, b"cs_nbfree", 1016, totals[1]),
        total_64(order, bytes, b"cs_nifree", 1024, totals[2]),
        total_64(order, bytes, b"cs_nffree", 1032, totals[3]),
    ]
}

/// Prints the line of a field of a superblock that begins at a byte of the image.
fn print_field<W: Output>(out: &mut W, start: u64, field: &Field) -> Result<(), OutFault>
    requires { start < 2 ^ 63 }
    ensures { Prints (W.sink out.old) (W.sink out.new) (field_text start (field_of field.now))
        result }
{
    print_pieces(
        out,
        &[
            Piece::Text(field.name),
            Piece::Text(b" byte "),
            Piece::Number(start + u64::from(field.place), b" has "),
            Piece::Signed(field.has, b" wants "),
            Piece::Signed(field.wants, b"\n"),
        ],
    )
}

/// Prints the line of a field, where it is wrong, and returns whether it is.
#[tactic(auto, using(crate::proofs::Printing::one, crate::proofs::Printing::one_broken, crate::proofs::WrongFields::field_is_text))]
fn print_wrong_field<W: Output>(out: &mut W, start: u64, field: &Field) -> Result<bool, OutFault>
    requires { start < 2 ^ 63 }
    ensures { PrintsWhether (field_lines start (field_of field.now)) (W.sink out.old)
        (W.sink out.new) result }
{
    if field.has == field.wants {
        return Ok(false);
    }
    print_field(out, start, field)?;
    Ok(true)
}

/// Prints the lines of those fields that are wrong, and returns whether there is one.
fn print_wrong_fields<W: Output>(
    out: &mut W,
    start: u64,
    fields: &[Field],
) -> Result<bool, OutFault>
    requires { start < 2 ^ 63 }
    ensures { PrintsWhether (wrong_lines start fields.now) (W.sink out.old) (W.sink out.new)
        result }
{
    let mut any = false;
    for field in fields {
        let found = print_wrong_field(out, start, field)?;
        any |= found;
    }
    Ok(any)
}

/// Prints which fields of an accepted superblock, at a sector or at the usual place, aren't what
/// its layout gives (fs(5)), and returns whether there is one. At most one read.
///
/// # Errors
/// A read of the image that failed, and a write that failed.
#[tactic(auto, unfolding(ffs_image::specs::Reads::ReadsAtMostOnce))]
pub fn find_wrong_fields<I: Image, W: Output>(
    image: &mut I,
    sector: Option<u32>,
    superblock: &Super,
    out: &mut W,
) -> Result<bool, RunFault>
    ensures prints { FindsAny (WithSuper (I.device image.old) sector (superblock_in superblock.now))
        (λ bytes. wrong_fields (superblock_in superblock.now) bytes sector)
        (moment I.Image W.Output image.old out.old) (moment I.Image W.Output image.new out.new)
        result }
    ensures place { FailsIn (λ at. at ≡ super_sector sector) result }
    ensures reads { I.reads image.new ≤ I.reads image.old + 1 }
    ensures asks { ReadsAtMostOnce I.was_read (super_sector sector * DEV_BSIZE) SUPERBLOCK_BYTES
        image.old image.new }
{
    let start = u64::from(sector.unwrap_or(SUPERBLOCK_SECTOR as u32)) * DEV_BSIZE;
    let mut bytes = [0; SUPERBLOCK_BYTES];
    // It isn't smaller where `read_super` accepted the superblock in this image.
    if image.size() < start + SUPERBLOCK_BYTES as u64 {
        return Ok(false);
    }
    image.read_at(start, &mut bytes)?;
    let of_layout = print_wrong_fields(out, start, &layout_fields(superblock, &bytes))?;
    let of_totals = print_wrong_fields(out, start, &total_fields(superblock, &bytes))?;
    Ok(of_layout | of_totals)
}

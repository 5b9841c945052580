//! Images that are cut short at each length.

use crate::Tally;
use crate::row::Row;
use ffs_image::MemoryImage;
use ffs_volume::End;
use std::io;

const NO_SUPERBLOCK: &[u8] = b"** t.img (NO WRITE)\nCAN NOT READ: BLK 16\n";

const TOO_SHORT: &[u8] = b"** t.img (NO WRITE)\nBAD SUPER BLOCK: SIZE LARGER THAN IMAGE\n";

const NO_COPY: &[u8] =
    b"Alternate super block location: 32\n** t.img (NO WRITE)\nCAN NOT READ: BLK 32\n";

const TOO_SHORT_FOR_COPY: &[u8] =
    b"Alternate super block location: 32\n** t.img (NO WRITE)\nBAD SUPER BLOCK: SIZE LARGER THAN IMAGE\n";

/// Compares the checks of each prefix of the clean image with what is expected: where the
/// superblock that is read isn't whole it can't be read, and else the volume is larger than the
/// image.
///
/// # Errors
/// A row that can't be read, memory that was refused, and standard output that failed.
pub fn compare(rt: &HostRuntime, tally: &mut Tally) -> io::Result<()> {
    let primary = Row::read(rt, "clean 8")?;
    cut(rt, &primary, 9568, [NO_SUPERBLOCK, TOO_SHORT], tally)?;
    let copy = Row::read(rt, "clean 8 32")?;
    cut(rt, &copy, 17760, [NO_COPY, TOO_SHORT_FOR_COPY], tally)
}

/// Compares the checks of each prefix of a row's image with a text for those below a length, and one
/// for the others.
fn cut(
    rt: &HostRuntime,
    row: &Row,
    readable: usize,
    texts: [&[u8]; 2],
    tally: &mut Tally,
) -> io::Result<()> {
    for length in 0..row.image.len() {
        let mut bytes = Vec::new(rt.alloc());
        bytes.extend_from_slice(&row.image[..length])?;
        let (end, text) = row.checked(rt.alloc(), &mut MemoryImage::new(bytes));
        let expected = if length < readable {
            texts[0]
        } else {
            texts[1]
        };
        let agrees = matches!(end, End::Refused(_)) && text.as_slice() == expected;
        tally.count(rt, row.name.as_str(), "a front of it", agrees)?;
    }
    Ok(())
}

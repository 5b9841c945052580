//! The rule on reads: a read covers no more than one part of the volume.

/// How many bytes of a superblock are read, and where it is unless a sector is asked for.
const SUPERBLOCK_BYTES: u64 = 1376;

const SUPERBLOCK: u64 = 8192;

/// The magic number of a superblock (fs(5), `fs_magic`).
const MAGIC: u64 = 0x01_1954;

/// How many bytes an inode has, and a record of the summary area.
const INODE: u64 = 128;

const RECORD: u64 = 16;

/// Bytes of an image: from the first one to the one before an end.
#[derive(Clone, Copy)]
struct Span {
    from: u64,
    end: u64,
}

impl Span {
    /// So many bytes from a place.
    fn new(from: u64, bytes: u64) -> Span {
        Span {
            from,
            end: from.saturating_add(bytes),
        }
    }

    /// Whether all its bytes are in another one.
    fn is_in(self, other: Span) -> bool {
        other.from <= self.from && self.end <= other.end
    }

    /// Whether all its bytes are in one piece of another one, whose pieces have so many bytes each.
    fn is_in_piece(self, other: Span, bytes: u64) -> bool {
        let from = self.from.saturating_sub(other.from);
        let last = self.end.saturating_sub(1).saturating_sub(other.from);
        self.is_in(other) && quotient(from, bytes) == quotient(last, bytes)
    }
}

/// The whole quotient of two numbers; 0 where the divisor is 0.
fn quotient(number: u64, divisor: u64) -> u64 {
    number.checked_div(divisor).unwrap_or(0)
}

/// The number of 32 bits at a place of these bytes; 0 where they end before.
fn number(bytes: &[u8], place: u64, is_big: bool) -> u64 {
    if (bytes.len() as u64) < place.saturating_add(4) {
        return 0;
    }
    let at = place as usize;
    let word = [bytes[at], bytes[at + 1], bytes[at + 2], bytes[at + 3]];
    let number = if is_big {
        u32::from_be_bytes(word)
    } else {
        u32::from_le_bytes(word)
    };
    u64::from(number)
}

/// The parts of the volume in an image, by the numbers of its superblock (fs(5), `struct fs`).
///
/// They are computed from the bytes once more: no code of the check says what its reads may cover.
#[derive(Clone, Copy)]
pub struct Areas {
    /// The superblock that is read first.
    superblock: Span,
    /// Whether there is one. If not, nothing else is read.
    is_there: bool,
    /// The places of a group's parts, in fragments from the group's start.
    sblkno: u64,
    cblkno: u64,
    iblkno: u64,
    dblkno: u64,
    cgoffset: u64,
    cgmask: u64,
    /// How many fragments the volume has, and each group.
    size: u64,
    fpg: u64,
    /// How many groups there are, and how many inodes each has.
    ncg: u64,
    ipg: u64,
    /// The bytes of a block, of a fragment and of a group block.
    bsize: u64,
    fsize: u64,
    cgsize: u64,
    /// The first fragment of the summary area.
    csaddr: u64,
}

impl Areas {
    /// Those of the volume in these bytes, whose superblock is at a sector of 512 bytes, if one is
    /// asked for.
    pub fn new(image: &[u8], sector: Option<u32>) -> Areas {
        let start = match sector {
            Some(sector) => 512 * u64::from(sector),
            None => SUPERBLOCK,
        };
        let is_big = number(image, start + 1372, true) == MAGIC;
        let word = |place: u64| number(image, start.saturating_add(place), is_big);
        Areas {
            superblock: Span::new(start, SUPERBLOCK_BYTES),
            is_there: word(1372) == MAGIC,
            sblkno: word(8),
            cblkno: word(12),
            iblkno: word(16),
            dblkno: word(20),
            cgoffset: word(24),
            cgmask: word(28),
            size: word(36),
            fpg: word(188),
            ncg: word(44),
            ipg: word(184),
            bsize: word(48),
            fsize: word(52),
            cgsize: word(160),
            csaddr: word(152),
        }
    }

    /// Whether a read of so many bytes at a place covers no more than one part: a superblock, a
    /// group block, summary records, a block of an inode table, or fragments of one Run in range.
    pub fn allow(&self, place: u64, bytes: u64) -> bool {
        let read = Span::new(place, bytes);
        let group = quotient(quotient(place, self.fsize), self.fpg);
        read.is_in(self.superblock)
            || self.is_there
                && group < self.ncg
                && (read.is_in(self.last_copy())
                    || read.is_in(self.part(group, self.cblkno, self.cgsize))
                    || read.is_in(self.records())
                    || read.is_in_piece(self.inodes(group), self.bsize)
                    || self.is_run(read, group))
    }

    /// The fragment from which the places of a group's parts are counted (fs(5), `cgstart`).
    fn cgstart(&self, group: u64) -> u64 {
        let moved = self.cgoffset.saturating_mul(group & !self.cgmask);
        self.fpg.saturating_mul(group).saturating_add(moved)
    }

    /// So many bytes of a group's part, which is so many fragments after the group's start.
    fn part(&self, group: u64, fragments: u64, bytes: u64) -> Span {
        let fragment = self.cgstart(group).saturating_add(fragments);
        Span::new(fragment.saturating_mul(self.fsize), bytes)
    }

    /// The superblock's copy in the last group.
    fn last_copy(&self) -> Span {
        self.part(self.ncg.saturating_sub(1), self.sblkno, SUPERBLOCK_BYTES)
    }

    /// The inode table of a group.
    fn inodes(&self, group: u64) -> Span {
        self.part(group, self.iblkno, self.ipg.saturating_mul(INODE))
    }

    /// The summary records of all groups.
    fn records(&self) -> Span {
        Span::new(
            self.csaddr.saturating_mul(self.fsize),
            self.ncg.saturating_mul(RECORD),
        )
    }

    /// Whether the fragments with a read's bytes can be a Run in range or a part of one: they are
    /// no more than a block has, and they are in the volume, in this group, and in no metadata.
    fn is_run(&self, read: Span, group: u64) -> bool {
        let first = quotient(read.from, self.fsize);
        let last = quotient(read.end.saturating_sub(1), self.fsize);
        let start = self.cgstart(group);
        last.saturating_sub(first) < quotient(self.bsize, self.fsize)
            && last < self.size
            && quotient(last, self.fpg) == group
            && (last < start.saturating_add(self.sblkno)
                || start.saturating_add(self.dblkno) <= first)
    }
}

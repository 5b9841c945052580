//! The whole run: its words, its opening and its end.

use crate::compare::same;
use ffs::{
    Args, Counted, End, FuseImage, FuseWriter, Image, MemoryImage, Order, SuperFault, check,
    check_opening, run,
};
use ffs_samples::{Number, ORDERS, base, put, put_bytes};
use std::alloc::{AllocError, Global};
use std::test::Fail;

/// What a volume holds whose root is all that there is: the group block at byte 24,576, its inode,
/// its summary record, and the root's own two entries.
static ROOT: [Number; 25] = [
    (24580, 4, 0x090255),
    (24596, 4, 128),
    (24600, 4, 1),
    (24604, 4, 22),
    (24608, 4, 29),
    (24612, 4, 6),
    (24640, 4, 2),
    (24668, 4, 168),
    (24672, 4, 172),
    (28928, 2, 0o40755),
    (28930, 2, 2),
    (28936, 8, 512),
    (28968, 4, 36),
    (29032, 4, 2),
    (32768, 4, 1),
    (32772, 4, 22),
    (32776, 4, 29),
    (32780, 4, 6),
    (36864, 4, 2),
    (36868, 2, 12),
    (36870, 1, 4),
    (36871, 1, 1),
    (36876, 4, 2),
    (36880, 2, 500),
    (36882, 1, 4),
];

/// The maps of the group, and the names of the two entries with the second one's length: the same
/// bytes in both orders.
static BYTES: [(usize, &[u8]); 4] = [
    (
        24744,
        b"\x07\0\0\0\0\0\0\0\xee\xff\xff\xff\xff\xff\xff\xff\xff\xff\xff\xff",
    ),
    (36872, b"."),
    (36883, b"\x02"),
    (36884, b".."),
];

pub const REPORT: &[u8] =
    b"** t.img (NO WRITE)\n** Last Mounted on /mnt\n** Phase 1 - Check Blocks and Sizes\n** Phase 2 - Check Pathnames\n** Phase 3 - Check Connectivity\n** Phase 4 - Check Reference Counts\n** Phase 5 - Check Cyl groups\n1 files, 1 used, 94 free (6 frags, 22 blocks, 6.3% fragmentation)\n";

const WORDS: Args<'static> = Args {
    name: "t.img",
    sector: None,
};

/// The bytes of the volume with a root alone, and these numbers more.
pub fn volume_bytes(order: Order, more: &[Number], alloc: Global) -> Result<Vec<u8>, AllocError> {
    let mut bytes = base(order, alloc)?;
    put(order, bytes.as_mut_slice(), &ROOT);
    for &(place, text) in &BYTES {
        put_bytes(bytes.as_mut_slice(), place, text);
    }
    put(order, bytes.as_mut_slice(), more);
    Ok(bytes)
}

/// The image of these bytes.
pub fn volume(order: Order, more: &[Number], alloc: Global) -> Result<MemoryImage, AllocError> {
    Ok(MemoryImage::new(volume_bytes(order, more, alloc)?))
}

/// How a check of an image ends, and what it prints.
pub fn checked<I: Image>(image: &mut I, alloc: Global) -> (End, Vec<u8>) {
    let mut text = Vec::new(alloc);
    let end = check(alloc, image, &WORDS, &mut Counted::new(&mut text));
    (end, text)
}

/// The same of the volume with a root alone, and one number more.
fn checked_with(order: Order, number: Number, alloc: Global) -> Result<(End, Vec<u8>), AllocError> {
    let mut image = volume(order, &[number], alloc)?;
    Ok(checked(&mut image, alloc))
}

#[test]
fn consistent_volume(rt: HostRuntime) -> Result<(), Fail> {
    for order in ORDERS {
        let (end, text) = checked_with(order, (0, 1, 0), rt.alloc())?;
        same(&rt, &end, &End::Consistent);
        same(&rt, &text.as_slice(), &REPORT);
    }
    Ok(())
}

/// How many bytes of the report are compared where a line of phase 4 follows: into its heading.
const BEGINNING: usize = 163;

/// A number that is put into the volume, how its check ends, with how many bytes of the report its
/// text begins, and with what it ends: the root's count of links is 3; inode 2 is no inode.
static ENDS: [(Number, End, usize, &[u8]); 2] = [
    ((28930, 2, 3), End::Defects, BEGINNING, b""),
    (
        (28928, 2, 0),
        End::RootStop,
        0,
        b"ROOT INODE UNALLOCATED\nALLOCATE? no\n\n",
    ),
];

/// How a check of the volume with a number more ends, and whether its text begins with so many
/// bytes of the report and ends with these.
fn ends_with(
    order: Order,
    number: Number,
    begun: usize,
    last: &[u8],
    alloc: Global,
) -> Result<(End, bool), AllocError> {
    let (end, text) = checked_with(order, number, alloc)?;
    let has_both = text.starts_with(&REPORT[..begun.min(BEGINNING)]) && text.ends_with(last);
    Ok((end, has_both))
}

#[test]
fn defects_and_a_stop(rt: HostRuntime) -> Result<(), Fail> {
    for order in ORDERS {
        for &(number, end, begun, last) in &ENDS {
            let found = ends_with(order, number, begun, last, rt.alloc())?;
            same(&rt, &found, &(end, true));
        }
    }
    Ok(())
}

/// The root's chunk, in sector 72, can't be read.
fn checked_unreadable(alloc: Global) -> Result<(End, Vec<u8>), AllocError> {
    let inner = volume(Order::Little, &[], alloc)?;
    Ok(checked(&mut FuseImage::touching(inner, 72), alloc))
}

/// The output stops after twenty bytes.
fn checked_unwritable(alloc: Global) -> Result<(End, Vec<u8>), AllocError> {
    let mut image = volume(Order::Little, &[], alloc)?;
    let mut writer = FuseWriter::new(Vec::new(alloc), 20);
    let end = check(alloc, &mut image, &WORDS, &mut Counted::new(&mut writer));
    Ok((end, writer.into_inner()))
}

#[test]
fn failed_reads_and_writes(rt: HostRuntime) -> Result<(), Fail> {
    let unread = b"Pathnames\nCAN NOT READ: BLK 72\n".as_slice();
    let (end, text) = checked_unreadable(rt.alloc())?;
    same(&rt, &end, &End::ReadFault(72));
    same(&rt, &text.ends_with(unread), &true);
    let (end, text) = checked_unwritable(rt.alloc())?;
    same(&rt, &end, &End::WriteFault);
    same(&rt, &text.as_slice(), &&REPORT[..20]);
    Ok(())
}

/// How a check ends, and the status of that.
static STATUSES: [(End, u8); 7] = [
    (End::Consistent, 0),
    (End::Defects, 1),
    (End::Refused(SuperFault::Magic), 8),
    (End::RootStop, 8),
    (End::ReadFault(72), 8),
    (End::WriteFault, 8),
    (End::NoMemory, 8),
];

#[test]
fn statuses(rt: HostRuntime) -> Result<(), Fail> {
    for &(end, status) in &STATUSES {
        same(&rt, &end.status(), &status);
    }
    Ok(())
}

/// The status of a run of these words, what it prints, and what it prints to its errors.
fn ran(rt: &HostRuntime, words: &[&str]) -> (u8, Vec<u8>, Vec<u8>) {
    let mut out = Vec::new(rt.alloc());
    let mut errors = Vec::new(rt.alloc());
    let mut system = *rt;
    let status = run(&mut system, rt.alloc(), words, &mut out, &mut errors);
    (status, out, errors)
}

/// The status of a run of these words, how many bytes it prints, and as many of those that it
/// prints to its errors as are wanted.
fn refused_words(rt: &HostRuntime, words: &[&str], wanted: usize) -> (u8, usize, Vec<u8>) {
    let (status, out, mut errors) = ran(rt, words);
    errors.truncate(wanted);
    (status, out.len(), errors)
}

/// Words that are refused, and the start of what is printed to the errors, or all of it.
static WRONG: [(&[&str], &[u8]); 10] = [
    (&["t.img"], b"error: -n and an image are needed\n\nUsage"),
    (
        &["-n", "-b", "0", "t.img"],
        b"error: a sector is 1 to 4194303\n\nUsage",
    ),
    (
        &["-n", "-b", "4194304", "t.img"],
        b"error: a sector is 1 to 4194303\n\nUsage",
    ),
    (&["-n", "t.img", "-b"], b"error: -b needs a sector\n\nUsage"),
    (
        &["-n", "-b", "32", "-b", "64", "t.img"],
        b"error: -b can be given once\n\nUsage",
    ),
    (
        &["-y", "t.img"],
        b"error: this program takes -n, -b and one image; it never repairs, so it takes no -y, -p and -f\n\nUsage",
    ),
    (
        &["-n", "-fp", "t.img"],
        b"error: this program takes -n, -b and one image; it never",
    ),
    (
        &["-n", "a", "b"],
        b"error: this program takes -n, -b and one image; it never",
    ),
    // The whole help.
    (
        &["--help"],
        b"Checks an image of a Berkeley fast file system (UFS1), and never writes it.

Usage: fsck_ffs -n [-b sector] image

  image          the file or device that holds the file system from its first byte on
  -n, -N         answer no to every question: the image is never written
  -b sector      take the superblock at this sector of 512 bytes, 1 to 4194303
  -h, --help     print this help
  -V, --version  print the version

Status:
  0  consistent: no defect is reported
  1  defects are reported
  2  the arguments are wrong, or ask for this help or the version
  8  the check didn't run to its end; the last message says why
",
    ),
    (&["--version"], b"fsck_ffs "),
];

#[test]
fn wrong_words(rt: HostRuntime) -> Result<(), Fail> {
    for &(words, start) in &WRONG {
        let (status, printed, errors) = refused_words(&rt, words, start.len());
        same(&rt, &(status, printed), &(2, 0));
        same(&rt, &errors.as_slice(), &start);
    }
    Ok(())
}

/// Words for which clap needs more memory than for two.
#[test]
fn no_such_file(rt: HostRuntime) -> Result<(), Fail> {
    let words = ["-N", "-nn", "-b", "32", "-N", "missing.img"];
    let (status, out, errors) = ran(&rt, &words);
    same(&rt, &status, &8);
    same(
        &rt,
        &[out.as_slice(), errors.as_slice()],
        &[b"Can't open missing.img\n", b""],
    );
    Ok(())
}

/// How the opening of an image of zeros ends whose sector 32 can't be read, at its first superblock
/// and at a copy there, and what is printed.
fn refused(alloc: Global) -> Result<([Option<End>; 2], Vec<u8>), Fail> {
    let zeros = vec![in alloc; 0u8; 131072]?;
    let mut image = FuseImage::touching(MemoryImage::new(zeros), 32);
    let mut text = Vec::new(alloc);
    let mut out = Counted::new(&mut text);
    let copy = Args {
        name: "t.img",
        sector: Some(32),
    };
    let ends = [
        check_opening(&mut image, &WORDS, &mut out).err(),
        check_opening(&mut image, &copy, &mut out).err(),
    ];
    Ok((ends, text))
}

#[test]
fn refusals(rt: HostRuntime) -> Result<(), Fail> {
    let (ends, text) = refused(rt.alloc())?;
    same(
        &rt,
        &ends,
        &[
            Some(End::Refused(SuperFault::Magic)),
            Some(End::Refused(SuperFault::CannotRead { sector: 32 })),
        ],
    );
    same(
        &rt,
        &text.as_slice(),
        &b"** t.img (NO WRITE)\nBAD SUPER BLOCK: MAGIC NUMBER WRONG\nAlternate super block location: 32\n** t.img (NO WRITE)\nCAN NOT READ: BLK 32\n".as_slice(),
    );
    Ok(())
}

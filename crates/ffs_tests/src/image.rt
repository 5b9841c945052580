//! Reads of each image that a reader would work out by hand.

ghost use Rattle.std.specs.Prelude.{◌≡◌, ◌≤◌, IfOk, length};

use crate::check::checked;
use crate::compare::same;
use ffs::{
    CountedImage, End, FileImage, FuseImage, Image, ImageFault, LimitedImage, MemoryImage, Order,
    SuperFault,
};
use ffs_samples::image_of;
use std::alloc::{AllocError, Allocator, Global};
use std::fs::{File, Metadata, OpenOptions};
use std::io::ErrorKind;
use std::rt::Files;
use std::test::Fail;
use std::{fs, io};

const NAME: &str = "ffs_image_test.img";

const ODD: &str = "ffs_image_odd.img";

const READ_ONLY: &str = "ffs_image_read_only.img";

/// An image of zeros, and `abcd` at 1022.
fn letters(alloc: Global) -> Result<MemoryImage, AllocError>
    ensures { IfOk result (λ m. length m ≡ 131072) }
{
    image_of(Order::Little, &[(1022, 4, 0x6463_6261)], alloc)
}

/// Reads four bytes in sector 0, then in sectors 1 and 2, then in sector 2.
fn three_reads<I: Image>(image: &mut I) -> [Result<(), ImageFault>; 3]
    requires { 131072 ≤ (I.device image.old).size }
{
    let mut found = [0; 4];
    [
        image.read_at(0, &mut found),
        image.read_at(1022, &mut found),
        image.read_at(1500, &mut found),
    ]
}

/// The size of the image with the letters, and six bytes about them.
fn letters_read(alloc: Global) -> Result<(u64, [u8; 6]), Fail> {
    let mut image = letters(alloc)?;
    let mut found = [9u8; 6];
    image.read_at(1021, &mut found)?;
    Ok((image.size(), found))
}

#[test]
fn memory_reads(rt: HostRuntime) -> Result<(), Fail> {
    let (size, found) = letters_read(rt.alloc())?;
    same(&rt, &size, &131072);
    same(&rt, &found, b"\0abcd\0");
    Ok(())
}

/// What came of three reads, how many of them failed, and the sector of the last one that did.
type ThreeReads = ([Result<(), ImageFault>; 3], [u64; 2]);

/// The reads of an image whose k-th read fails.
fn reads_of_nth(k: u64, alloc: Global) -> Result<ThreeReads, AllocError> {
    let mut image = FuseImage::nth(letters(alloc)?, k);
    let reads = three_reads(&mut image);
    Ok((reads, [image.failures(), image.failed()]))
}

/// The reads of an image whose reads of a sector fail.
fn reads_touching(sector: u64, alloc: Global) -> Result<ThreeReads, AllocError> {
    let mut image = FuseImage::touching(letters(alloc)?, sector);
    let reads = three_reads(&mut image);
    Ok((reads, [image.failures(), image.failed()]))
}

#[test]
fn fuses_fail_their_reads(rt: HostRuntime) -> Result<(), Fail> {
    let at_1 = Err(ImageFault { sector: 1 });
    let at_2 = Err(ImageFault { sector: 2 });
    same(&rt, &reads_of_nth(0, rt.alloc())?, &([Ok(()); 3], [0, 0]));
    same(
        &rt,
        &reads_of_nth(2, rt.alloc())?,
        &([Ok(()), at_1, Ok(())], [1, 1]),
    );
    same(
        &rt,
        &reads_touching(2, rt.alloc())?,
        &([Ok(()), at_1, at_2], [2, 2]),
    );
    Ok(())
}

/// What came of three reads of an image that makes at most so many, how many of these are left and
/// how many the image below counted, and whether one was refused.
type LimitedReads = ([Result<(), ImageFault>; 3], [u64; 2], bool);

/// The reads of an image that is read at most so often.
fn reads_within_limit(limit: u64, alloc: Global) -> Result<LimitedReads, AllocError> {
    let mut below = CountedImage::new(letters(alloc)?);
    let mut image = LimitedImage::new(&mut below, limit);
    let reads = three_reads(&mut image);
    let (left, spent) = (image.left(), image.is_spent());
    drop(image);
    Ok((reads, [left, below.reads()], spent))
}

#[test]
fn limits_refuse_reads(rt: HostRuntime) -> Result<(), Fail> {
    let at_2 = Err(ImageFault { sector: 2 });
    same(
        &rt,
        &reads_within_limit(2, rt.alloc())?,
        &([Ok(()), Ok(()), at_2], [0, 2], true),
    );
    same(
        &rt,
        &reads_within_limit(4, rt.alloc())?,
        &([Ok(()); 3], [1, 3], false),
    );
    Ok(())
}

/// What comes of a read, or nothing where the image is too small for it.
pub fn read_within<I: Image>(
    image: &mut I,
    at: u64,
    buf: &mut [u8],
) -> Option<Result<(), ImageFault>> {
    let size = image.size();
    if size < at || size - at < buf.len() as u64 {
        return None;
    }
    Some(image.read_at(at, buf))
}

/// Whether no image of a name can be opened.
fn is_refused<R: Files<File = File>>(files: &R, name: &str) -> bool {
    let mut system = files;
    FileImage::open(&mut system, name).is_err()
}

/// What is found of a file: its size when it was opened, four of its bytes, what came of the read
/// of them, and of a second one after the file was cut, how many reads failed, and the sector of
/// the last one that did.
type CutFile = (u64, [u8; 4], [Option<Result<(), ImageFault>>; 2], [u64; 2]);

/// A file of 1,024 bytes, which is cut to 1,022 after the first read, and removed.
fn cut_file<R: Files<File = File>>(files: &R) -> Result<CutFile, Fail> {
    let mut system = files;
    fs::write(files, NAME, [7u8; 1024].as_slice())?;
    let mut image = FileImage::open(&mut system, NAME)?;
    let mut found = [0u8; 4];
    let first = read_within(&mut image, 1020, &mut found);
    fs::write(files, NAME, [8u8; 1022].as_slice())?;
    let second = read_within(&mut image, 1020, &mut [0u8; 4]);
    fs::remove_file(files, NAME)?;
    Ok((
        image.size(),
        found,
        [first, second],
        [image.failures(), image.failed()],
    ))
}

/// A file that is shorter than when it was opened fails the reads past its end.
#[test]
fn file_reads(rt: HostRuntime) -> Result<(), Fail> {
    let (size, found, reads, failures) = cut_file(&rt)?;
    same(&rt, &(size, found), &(1024, [7; 4]));
    same(
        &rt,
        &reads,
        &[Some(Ok(())), Some(Err(ImageFault { sector: 1 }))],
    );
    same(&rt, &failures, &[1, 1]);
    same(&rt, &is_refused(&rt, NAME), &true);
    Ok(())
}

/// The size of a file's image, two of its bytes, and what came of the read of them.
pub type TwoBytes = (u64, [u8; 2], Option<Result<(), ImageFault>>);

pub fn two_bytes<R: Files<File = File>>(files: &R, name: &str, at: u64) -> Result<TwoBytes, Fail> {
    let mut system = files;
    let mut image = FileImage::open(&mut system, name)?;
    let mut found = [0u8; 2];
    let read = read_within(&mut image, at, &mut found);
    Ok((image.size(), found, read))
}

/// An image that isn't a whole number of sectors has its size, and opening and reading change
/// nothing. A file that is missing isn't made.
#[test]
fn file_is_left_as_it_is(rt: HostRuntime) -> Result<(), Fail> {
    fs::write(&rt, ODD, [7u8; 1001].as_slice())?;
    same(
        &rt,
        &two_bytes(&rt, ODD, 999)?,
        &(1001, [7; 2], Some(Ok(()))),
    );
    same(
        &rt,
        &fs::read(&rt, ODD)?.as_slice(),
        &[7u8; 1001].as_slice(),
    );
    fs::remove_file(&rt, ODD)?;
    same(&rt, &is_refused(&rt, ODD), &true);
    same(&rt, &fs::metadata(&rt, ODD).is_err(), &true);
    Ok(())
}

/// Files of a system that are opened for reading alone, and nothing else of it.
#[derive(Clone, Copy)]
struct ReadOnly<'a, R> {
    files: &'a R,
}

fn refused() -> io::Error {
    io::Error::from(ErrorKind::PermissionDenied)
}

impl<R: Files<File = File>> Files for ReadOnly<'_, R> {
    type File = File;

    type Dir = R::Dir;

    fn open_file(&self, how: &OpenOptions, path: &str) -> io::Result<File> {
        let writes = how.asks_write() || how.asks_append() || how.asks_truncate();
        if writes || how.asks_create() || how.asks_create_new() {
            return Err(refused());
        }
        self.files.open_file(how, path)
    }

    fn open_dir(&self, path: &str) -> io::Result<R::Dir> {
        self.files.open_dir(path)
    }

    fn metadata(&self, path: &str) -> io::Result<Metadata> {
        self.files.metadata(path)
    }

    fn symlink_metadata(&self, path: &str) -> io::Result<Metadata> {
        self.files.symlink_metadata(path)
    }

    fn copy(&self, _from: &str, _to: &str) -> io::Result<u64> {
        Err(refused())
    }

    fn rename(&self, _from: &str, _to: &str) -> io::Result<()> {
        Err(refused())
    }

    fn remove_file(&self, _path: &str) -> io::Result<()> {
        Err(refused())
    }

    fn create_dir(&self, _path: &str) -> io::Result<()> {
        Err(refused())
    }

    fn remove_dir(&self, _path: &str) -> io::Result<()> {
        Err(refused())
    }

    fn remove_dir_all<B: Allocator>(&self, _alloc: B, _path: &str) -> io::Result<()> {
        Err(refused())
    }
}

/// Whether a file is opened for writing.
fn opens_for_writing<R: Files<File = File>>(files: &R, name: &str) -> bool {
    OpenOptions::new()
        .read(true)
        .write(true)
        .open(files, name)
        .is_ok()
}

#[test]
fn opens_for_reading_alone(rt: HostRuntime) -> Result<(), Fail> {
    fs::write(&rt, READ_ONLY, [7u8; 512].as_slice())?;
    let system = ReadOnly { files: &rt };
    same(&rt, &opens_for_writing(&system, READ_ONLY), &false);
    same(
        &rt,
        &two_bytes(&system, READ_ONLY, 510)?,
        &(512, [7; 2], Some(Ok(()))),
    );
    fs::remove_file(&rt, READ_ONLY)?;
    Ok(())
}

/// How a check of what has this name ends, and what it prints.
fn file_checked<R: Files<File = File>>(
    files: &R,
    name: &str,
    alloc: Global,
) -> Result<(End, Vec<u8>), Fail> {
    let mut system = files;
    let mut image = FileImage::open(&mut system, name)?;
    Ok(checked(&mut image, alloc))
}

/// A directory can't be read, and a device without bytes has none.
#[test]
fn no_superblock_in_a_directory(rt: HostRuntime) -> Result<(), Fail> {
    let refused = End::Refused(SuperFault::CannotRead { sector: 16 });
    for name in [".", "/dev/null"] {
        let (end, text) = file_checked(&rt, name, rt.alloc())?;
        same(&rt, &end, &refused);
        same(&rt, &text.ends_with(b"CAN NOT READ: BLK 16\n"), &true);
    }
    Ok(())
}

//! How a file is opened and read: long names, FIFOs, files without a size, reads that a signal
//! interrupts.

ghost use Rattle.std.specs.Prelude.{None, ⊤};

use crate::compare::same;
use crate::image::{read_within, two_bytes};
use ffs_image::{Image, ImageFault, RawFile, RawImage, System, is_interrupted};
use std::alloc::Global;
use std::io::ErrorKind;
use std::test::Fail;
use std::{fs, io};

const LONG: &str = "ffs_image_long_n.img";

const LETTERS: &[u8; 4] = b"abcd";

/// A system whose files have four letters, and give their size or don't. Each read gives one of
/// them, and every second one fails. It counts the files that it opens.
#[derive(Clone, Copy)]
struct Letters {
    fifo: bool,
    sized: bool,
    kind: ErrorKind,
    opened: u64,
}

impl Letters {
    /// One whose reads fail so.
    fn new(kind: ErrorKind) -> Letters {
        Letters {
            fifo: false,
            sized: true,
            kind,
            opened: 0,
        }
    }
}

#[derive(Drop)]
struct LetterFile {
    reads: u64,
    sized: bool,
    kind: ErrorKind,
}

impl RawFile for LetterFile {
    ghost contents = { λ _. None };

    ghost was_sought = { λ _ _ _. ⊤ };

    ghost was_read = { λ _ _ _ _ _. ⊤ };

    fn end(&mut self) -> io::Result<u64> {
        if !self.sized {
            return Err(io::Error::from(ErrorKind::NotSeekable));
        }
        Ok(LETTERS.len() as u64)
    }

    fn read_once(&mut self, buf: &mut [u8], at: u64) -> io::Result<usize> {
        self.reads = self.reads.saturating_add(1);
        if self.reads % 2 == 1 {
            return Err(io::Error::from(self.kind));
        }
        if buf.is_empty() || at >= LETTERS.len() as u64 {
            return Ok(0);
        }
        buf[0] = LETTERS[at as usize];
        Ok(1)
    }
}

impl System for Letters {
    type File = LetterFile;

    ghost was_looked_up = { λ _ _ _ _. ⊤ };

    ghost was_opened = { λ _ _ _ _. ⊤ };

    fn is_fifo(&mut self, _name: &str) -> io::Result<bool> {
        Ok(self.fifo)
    }

    fn open_to_read(&mut self, _name: &str) -> io::Result<LetterFile> {
        self.opened = self.opened.saturating_add(1);
        Ok(LetterFile {
            reads: 0,
            sized: self.sized,
            kind: self.kind,
        })
    }
}

/// What is found of the letters from 1 on where each second read is interrupted: how many there
/// are, what came of a read of three, these three, how many reads failed, and the sector of the
/// last one that did.
type ThreeLetters = (u64, Option<Result<(), ImageFault>>, [u8; 3], [u64; 2]);

fn interrupted() -> Result<ThreeLetters, Fail> {
    let mut system = Letters::new(ErrorKind::Interrupted);
    let mut image = RawImage::open(&mut system, "letters")?;
    let mut found = [0u8; 3];
    let read = read_within(&mut image, 1, &mut found);
    let failures = [image.failures(), image.failed()];
    Ok((image.size(), read, found, failures))
}

#[test]
fn an_interrupted_read_is_tried_again(rt: HostRuntime) -> Result<(), Fail> {
    let wanted = (4, Some(Ok(())), *b"bcd", [0, 0]);
    same(&rt, &interrupted()?, &wanted);
    Ok(())
}

/// What is found of the letters where each second read fails: how many there are, how many reads
/// failed after the first one, and how many letters there are then; what came of two reads of the
/// letter at 1, and that letter.
type OneLetter = ([u64; 3], [Option<Result<(), ImageFault>>; 2], u8);

fn failing() -> Result<OneLetter, Fail> {
    let mut system = Letters::new(ErrorKind::Other);
    let mut image = RawImage::open(&mut system, "letters")?;
    let size = image.size();
    let mut found = [0u8; 1];
    let first = read_within(&mut image, 1, &mut found);
    let counts = [size, image.failures(), image.size()];
    let second = read_within(&mut image, 1, &mut found);
    Ok((counts, [first, second], found[0]))
}

#[test]
fn a_read_that_fails_is_not_tried_again(rt: HostRuntime) -> Result<(), Fail> {
    let failed = Some(Err(ImageFault { sector: 0 }));
    same(&rt, &failing()?, &([4, 1, 4], [failed, Some(Ok(()))], b'b'));
    Ok(())
}

/// Whether an image is opened of a file, and how many files the system opened for it.
fn opened(fifo: bool, sized: bool) -> (bool, u64) {
    let mut system = Letters::new(ErrorKind::Other);
    system.fifo = fifo;
    system.sized = sized;
    let is_opened = RawImage::open(&mut system, "letters").is_ok();
    (is_opened, system.opened)
}

/// Whether a file is a FIFO, whether it gives its size, whether it is opened, and how many files
/// the system opens for that.
static OPENINGS: [(bool, bool, (bool, u64)); 3] = [
    (false, true, (true, 1)),
    (true, true, (false, 0)),
    (false, false, (false, 1)),
];

/// A file is opened once. A FIFO isn't opened, and a file without a size is refused.
#[test]
fn files_opened(rt: HostRuntime) -> Result<(), Fail> {
    for &(fifo, sized, wanted) in &OPENINGS {
        same(&rt, &opened(fifo, sized), &wanted);
    }
    Ok(())
}

/// A name of 4,000 bytes.
fn long_name(alloc: Global) -> Result<String, Fail> {
    let mut name = String::new(alloc);
    for _ in 0..1990 {
        name.push_str("./")?;
    }
    name.push_str(LONG)?;
    Ok(name)
}

#[test]
fn a_name_of_4000_bytes_is_opened(rt: HostRuntime) -> Result<(), Fail> {
    fs::write(&rt, LONG, [7u8; 512].as_slice())?;
    let name = long_name(rt.alloc())?;
    let found = two_bytes(&rt, name.as_str(), 510)?;
    same(&rt, &name.len(), &4000);
    same(&rt, &found, &(512, [7; 2], Some(Ok(()))));
    fs::remove_file(&rt, LONG)?;
    Ok(())
}

#[test]
fn interruptions(rt: HostRuntime) {
    let interrupted = Err(io::Error::from(ErrorKind::Interrupted));
    let failed = Err(io::Error::from(ErrorKind::Other));
    let found = [
        is_interrupted(&interrupted),
        is_interrupted(&failed),
        is_interrupted(&Ok(0)),
    ];
    same(&rt, &found, &[true, false, false]);
}
